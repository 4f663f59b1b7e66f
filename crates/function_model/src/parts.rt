//! Laws of terms and formulas that have their values from tables alone, as calls that do nothing: where a recursion goes down a tree, its
//! proof takes from them that what it goes into is so too.

ghost use Rattle.std.specs.Prelude.{◌≡◌, false, All};
ghost use Rattle.mbqi_values.specs.Sum.{IsBelow};
ghost use Rattle.mbqi_terms.specs.declared.formula.Formula.TheVariants as formula;
ghost use Rattle.mbqi_terms.specs.declared.term.Term.{out-Term};
ghost use Rattle.mbqi_terms.specs.declared.term.Term.TheVariants as term;
ghost use Rattle.mbqi_terms.specs.Tree.{IsBase};
ghost use Rattle.function_model.specs.Evaluable.{IsEvaluable, IsEvaluableFormula};
ghost use Rattle.function_model.specs.ValueOf.{is_compound};

use mbqi_terms::{ArrayTerm, Formula, Symbol, Term};

/// The term of a sum is so, is no numeral and no sum, and the number is small.
pub(crate) fn sum_parts(sum: &Term, base: &Term, number: i128)
    requires sum { sum.now ≡ term.Plus base.now number }
    requires term { IsEvaluable sum.now }
    ensures term { IsEvaluable base.now }
    ensures base { IsBase (out-Term base.now) }
    ensures number { IsBelow number 124 }
{}

/// The arguments of an application are.
pub(crate) fn application_parts(whole: &Term, symbol: &Symbol, args: &[Term])
    requires whole { whole.now ≡ term.Apply symbol.now args.now }
    requires term { IsEvaluable whole.now }
    ensures { All IsEvaluable args.now }
{}

/// The array of a read is a name, and its index is so.
pub(crate) fn read_parts(read: &Term, array: &ArrayTerm, index: &Term)
    requires read { read.now ≡ term.Read array.now index.now }
    requires term { IsEvaluable read.now }
    ensures name { is_compound array.now ≡ false }
    ensures index { IsEvaluable index.now }
{}

/// The term of an atom is.
pub(crate) fn atom_parts(atom: &Formula, t: &Term)
    requires atom { atom.now ≡ formula.Atom t.now }
    requires formula { IsEvaluableFormula atom.now }
    ensures { IsEvaluable t.now }
{}

/// Both sides of an equality are.
pub(crate) fn equal_parts(equal: &Formula, left: &Term, right: &Term)
    requires equal { equal.now ≡ formula.Equal left.now right.now }
    requires formula { IsEvaluableFormula equal.now }
    ensures left { IsEvaluable left.now }
    ensures right { IsEvaluable right.now }
{}

/// Both sides of a comparison are.
pub(crate) fn at_most_parts(at_most: &Formula, left: &Term, right: &Term)
    requires at_most { at_most.now ≡ formula.AtMost left.now right.now }
    requires formula { IsEvaluableFormula at_most.now }
    ensures left { IsEvaluable left.now }
    ensures right { IsEvaluable right.now }
{}

/// What is negated is.
pub(crate) fn negation_parts(whole: &Formula, part: &Formula)
    requires whole { whole.now ≡ formula.Not part.now }
    requires formula { IsEvaluableFormula whole.now }
    ensures { IsEvaluableFormula part.now }
{}

/// The parts of a conjunction are.
pub(crate) fn conjunction_parts(whole: &Formula, parts: &[Formula])
    requires whole { whole.now ≡ formula.All parts.now }
    requires formula { IsEvaluableFormula whole.now }
    ensures { All IsEvaluableFormula parts.now }
{}

/// The parts of a disjunction are.
pub(crate) fn disjunction_parts(whole: &Formula, parts: &[Formula])
    requires whole { whole.now ≡ formula.Any parts.now }
    requires formula { IsEvaluableFormula whole.now }
    ensures { All IsEvaluableFormula parts.now }
{}

/// Both sides of an equivalence are.
pub(crate) fn equivalence_parts(whole: &Formula, left: &Formula, right: &Formula)
    requires whole { whole.now ≡ formula.Iff left.now right.now }
    requires formula { IsEvaluableFormula whole.now }
    ensures left { IsEvaluableFormula left.now }
    ensures right { IsEvaluableFormula right.now }
{}

/// The condition of a choice and both its branches are.
pub(crate) fn choice_parts(whole: &Formula, condition: &Formula, yes: &Formula, no: &Formula)
    requires whole { whole.now ≡ formula.Choose condition.now yes.now no.now }
    requires formula { IsEvaluableFormula whole.now }
    ensures condition { IsEvaluableFormula condition.now }
    ensures yes { IsEvaluableFormula yes.now }
    ensures no { IsEvaluableFormula no.now }
{}
