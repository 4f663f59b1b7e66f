//! Formulas.

ghost use Rattle.std.specs.Prelude.{◌≡◌, ◌++◌, ◌∷◌, [], map, codes, OnOk, OnErr};
ghost use Rattle.std.specs.Io.{StartsWith};
ghost use Rattle.smtlib_printer.specs.Text.{array_text_with, binders_text, formula_text_with, list_text, spaced_rest, term_text_with};

use crate::sorts::{write_binders, write_truth};
use crate::terms::{write_array_with, write_term_with};
use mbqi_terms::{ArrayTerm, Binders, Formula, Script, Term};
use std::alloc::AllocError;

/// Appends the text of a formula, where variables have so many question marks.
#[cycle(write_formula)]
pub fn write_formula_with(
    script: &Script,
    marks: usize,
    formula: &Formula,
    into: &mut Vec<u8>,
) -> Result<(), AllocError>
    ensures ok { OnOk result (into.new.items ≡ into.old.items ++ formula_text_with script.now marks formula.now) }
    ensures err { OnErr result (StartsWith into.new.items into.old.items) }
{
    match formula {
        Formula::Truth(truth) => write_truth(*truth, into),
        Formula::Atom(t) => write_term_with(script, marks, t, into),
        Formula::Equal(s, t) => write_terms(script, marks, b"=", s, t, into),
        Formula::AtMost(s, t) => write_terms(script, marks, b"<=", s, t, into),
        Formula::SameArray(a, b) => write_same_arrays(script, marks, a, b, into),
        #[tactic(auto, using(crate::proofs::FormulaTexts::not_text, crate::proofs::Fronts::behind))]
        Formula::Not(f) => {
            into.extend_from_slice(b"(not ")?;
            write_formula_with(script, marks, f.get(), into)?;
            into.extend_from_slice(b")")
        }
        #[tactic(auto, using(crate::proofs::FormulaTexts::all_text, crate::proofs::Fronts::behind))]
        Formula::All(fs) => write_joined(script, marks, b"and", fs.as_slice(), into),
        #[tactic(auto, using(crate::proofs::FormulaTexts::any_text, crate::proofs::Fronts::behind))]
        Formula::Any(fs) => write_joined(script, marks, b"or", fs.as_slice(), into),
        #[tactic(auto, using(crate::proofs::Fronts::behind))]
        Formula::Iff(f, g) => {
            into.extend_from_slice(b"(= ")?;
            write_formula_with(script, marks, f.get(), into)?;
            into.extend_from_slice(b" ")?;
            write_formula_with(script, marks, g.get(), into)?;
            into.extend_from_slice(b")")
        }
        #[tactic(auto, using(crate::proofs::Fronts::behind))]
        Formula::Choose(c, f, g) => {
            into.extend_from_slice(b"(ite ")?;
            write_formula_with(script, marks, c.get(), into)?;
            into.extend_from_slice(b" ")?;
            write_formula_with(script, marks, f.get(), into)?;
            into.extend_from_slice(b" ")?;
            write_formula_with(script, marks, g.get(), into)?;
            into.extend_from_slice(b")")
        }
        #[tactic(auto, using(crate::proofs::FormulaTexts::forall_text, crate::proofs::Fronts::behind))]
        Formula::Forall(bound, f) => write_bound(script, marks, b"forall", bound, f.get(), into),
        #[tactic(auto, using(crate::proofs::FormulaTexts::exists_text, crate::proofs::Fronts::behind))]
        Formula::Exists(bound, f) => write_bound(script, marks, b"exists", bound, f.get(), into),
    }
}

/// Appends a quantifier with its variables and its body.
#[cycle(write_formula)]
#[tactic(auto, using(crate::proofs::Fronts::behind))]
fn write_bound(
    script: &Script,
    marks: usize,
    quantifier: &[u8],
    bound: &Binders,
    f: &Formula,
    into: &mut Vec<u8>,
) -> Result<(), AllocError>
    ensures ok { OnOk result (into.new.items ≡ into.old.items ++ list_text (quantifier.now ∷ binders_text script.now marks bound.now ∷ formula_text_with script.now marks f.now ∷ [])) }
    ensures err { OnErr result (StartsWith into.new.items into.old.items) }
{
    into.extend_from_slice(b"(")?;
    into.extend_from_slice(quantifier)?;
    into.extend_from_slice(b" ")?;
    write_binders(script, marks, bound.as_slice(), into)?;
    into.extend_from_slice(b" ")?;
    write_formula_with(script, marks, f, into)?;
    into.extend_from_slice(b")")
}

/// Appends a connective with formulas.
#[cycle(write_formula)]
#[tactic(auto, using(crate::proofs::Fronts::behind))]
fn write_joined(
    script: &Script,
    marks: usize,
    connective: &[u8],
    formulas: &[Formula],
    into: &mut Vec<u8>,
) -> Result<(), AllocError>
    ensures ok { OnOk result (into.new.items ≡ into.old.items ++ list_text (connective.now ∷ map (formula_text_with script.now marks) formulas.now)) }
    ensures err { OnErr result (StartsWith into.new.items into.old.items) }
{
    into.extend_from_slice(b"(")?;
    into.extend_from_slice(connective)?;
    write_more_formulas(script, marks, formulas, into)?;
    into.extend_from_slice(b")")
}

/// Appends formulas, each behind a blank.
#[cycle(write_formula)]
#[tactic(auto, using(crate::proofs::Fronts::behind))]
fn write_more_formulas(
    script: &Script,
    marks: usize,
    formulas: &[Formula],
    into: &mut Vec<u8>,
) -> Result<(), AllocError>
    ensures ok { OnOk result (into.new.items ≡ into.old.items ++ spaced_rest (map (formula_text_with script.now marks) formulas.now)) }
    ensures err { OnErr result (StartsWith into.new.items into.old.items) }
{
    for f in formulas {
        into.extend_from_slice(b" ")?;
        write_formula_with(script, marks, f, into)?;
    }
    Ok(())
}

/// Appends a relation of two terms.
#[tactic(auto, using(crate::proofs::Fronts::behind))]
fn write_terms(
    script: &Script,
    marks: usize,
    relation: &[u8],
    s: &Term,
    t: &Term,
    into: &mut Vec<u8>,
) -> Result<(), AllocError>
    ensures ok { OnOk result (into.new.items ≡ into.old.items ++ list_text (relation.now ∷ term_text_with script.now marks s.now ∷ term_text_with script.now marks t.now ∷ [])) }
    ensures err { OnErr result (StartsWith into.new.items into.old.items) }
{
    into.extend_from_slice(b"(")?;
    into.extend_from_slice(relation)?;
    into.extend_from_slice(b" ")?;
    write_term_with(script, marks, s, into)?;
    into.extend_from_slice(b" ")?;
    write_term_with(script, marks, t, into)?;
    into.extend_from_slice(b")")
}

/// Appends an equality of two array terms.
#[tactic(auto, using(crate::proofs::Fronts::behind))]
fn write_same_arrays(
    script: &Script,
    marks: usize,
    a: &ArrayTerm,
    b: &ArrayTerm,
    into: &mut Vec<u8>,
) -> Result<(), AllocError>
    ensures ok { OnOk result (into.new.items ≡ into.old.items ++ list_text (codes "=" ∷ array_text_with script.now marks a.now ∷ array_text_with script.now marks b.now ∷ [])) }
    ensures err { OnErr result (StartsWith into.new.items into.old.items) }
{
    into.extend_from_slice(b"(= ")?;
    write_array_with(script, marks, a, into)?;
    into.extend_from_slice(b" ")?;
    write_array_with(script, marks, b, into)?;
    into.extend_from_slice(b")")
}
