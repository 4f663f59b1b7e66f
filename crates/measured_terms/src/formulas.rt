//! Formulas.

ghost use Rattle.std.specs.Prelude.{◌≡◌, ◌+◌, max, IfOk, MatchOption, Ok, Err};
ghost use Rattle.mbqi_values.specs.declared.fault.FaultKind.TheVariants.{Unsupported};
ghost use Rattle.measured_terms.specs.Measures.{atom_varies};
ghost use Rattle.mbqi_terms.specs.Depth.{depth_of_formula};
ghost use Rattle.mbqi_terms.specs.Binders.{is_quantified, variables_in};
ghost use Rattle.smtlib_terms.specs.Operators.{truth_value};

use crate::arrays::MeasuredArray;
use crate::lists::MeasuredFormulas;
use crate::measures::{deeper, together};
use crate::terms::MeasuredTerm;
use mbqi_terms::{Binders, Formula, copy_formula};
use sqlite_items::Boxed;
use std::alloc::{AllocError, Global};
use std::marker::Model;

/// A formula with its depth, with how many variables its quantifiers bind, and with whether it is an atom in whose
/// term a variable stands. Contracts see the formula.
#[derive(Drop)]
pub struct MeasuredFormula {
    formula: Formula,
    depth: usize,
    variables: usize,
    has_variable: bool,
}

impl Model for MeasuredFormula {
    ghost use Rattle.std.specs.Prelude.{◌≡◌};
    ghost use Rattle.mbqi_terms.specs.declared.formula.Formula.{Formula};
    ghost use Rattle.mbqi_terms.specs.contracts.formula.Formula as formula_of;

    ghost Value = { Formula };

    ghost coded = { formula_of.the_row.coded };

    ghost use Rattle.measured_terms.specs.Measures.{atom_varies};
    ghost use Rattle.mbqi_terms.specs.Depth.{depth_of_formula};
    ghost use Rattle.mbqi_terms.specs.Binders.{variables_in};

    ghost view = { λ m. m.formula };

    ghost invariant = { λ m. (m.depth ≡ depth_of_formula m.formula) × (m.variables ≡ variables_in m.formula) × (m.has_variable ≡ atom_varies m.formula) };
}

/// How deep a formula is, and how many variables its quantifiers bind.
#[derive(Clone, Copy)]
struct Measures {
    depth: usize,
    variables: usize,
}

/// The measures of a formula with these two parts.
fn measures_of_both(f: &MeasuredFormula, g: &MeasuredFormula) -> Result<Measures, AllocError>
    ensures depth { IfOk result (λ m. m.depth ≡ max (depth_of_formula f.now) (depth_of_formula g.now) + 1) }
    ensures variables { IfOk result (λ m. m.variables ≡ variables_in f.now + variables_in g.now) }
{
    Ok(Measures {
        depth: deeper(f.depth.max(g.depth))?,
        variables: together(f.variables, g.variables)?,
    })
}

/// `=` of two formulas without its measures.
fn plain_iff(alloc: Global, f: MeasuredFormula, g: MeasuredFormula) -> Result<Formula, AllocError>
    ensures { IfOk result (λ h. h ≡ Formula.Iff f g) }
{
    let left = Boxed::new(alloc, f.into_formula())?;
    let right = Boxed::new(alloc, g.into_formula())?;
    Ok(Formula::Iff(left, right))
}

impl MeasuredFormula {
    /// `true` or `false`.
    #[tactic(auto, using(crate::proofs::FormulaLaws::truth_laws))]
    pub fn truth(truth: bool) -> MeasuredFormula
        ensures { result ≡ Formula.Truth truth }
    {
        MeasuredFormula {
            formula: Formula::Truth(truth),
            depth: 1,
            variables: 0,
            has_variable: false,
        }
    }

    /// A term of sort Bool that is neither `true` nor `false`.
    #[tactic(auto, using(crate::proofs::FormulaLaws::atom_laws))]
    pub fn atom(term: MeasuredTerm) -> MeasuredFormula
        ensures { result ≡ Formula.Atom term }
    {
        let depth = term.depth();
        let has_variable = term.has_variable();
        MeasuredFormula {
            formula: Formula::Atom(term.into_term()),
            depth,
            variables: 0,
            has_variable,
        }
    }

    /// `=` of two terms.
    #[tactic(auto, using(crate::proofs::FormulaLaws::equal_laws))]
    pub fn equal(s: MeasuredTerm, t: MeasuredTerm) -> Result<MeasuredFormula, AllocError>
        ensures { IfOk result (λ f. f ≡ Formula.Equal s t) }
    {
        let depth = deeper(s.depth().max(t.depth()))?;
        Ok(MeasuredFormula {
            formula: Formula::Equal(s.into_term(), t.into_term()),
            depth,
            variables: 0,
            has_variable: false,
        })
    }

    /// `<=` of two terms.
    #[tactic(auto, using(crate::proofs::FormulaLaws::at_most_laws))]
    pub fn at_most(s: MeasuredTerm, t: MeasuredTerm) -> Result<MeasuredFormula, AllocError>
        ensures { IfOk result (λ f. f ≡ Formula.AtMost s t) }
    {
        let depth = deeper(s.depth().max(t.depth()))?;
        Ok(MeasuredFormula {
            formula: Formula::AtMost(s.into_term(), t.into_term()),
            depth,
            variables: 0,
            has_variable: false,
        })
    }

    /// `=` of two array terms.
    #[tactic(auto, using(crate::proofs::FormulaLaws::same_array_laws))]
    pub fn same_array(a: MeasuredArray, b: MeasuredArray) -> Result<MeasuredFormula, AllocError>
        ensures { IfOk result (λ f. f ≡ Formula.SameArray a b) }
    {
        let depth = deeper(a.depth().max(b.depth()))?;
        Ok(MeasuredFormula {
            formula: Formula::SameArray(a.into_array(), b.into_array()),
            depth,
            variables: 0,
            has_variable: false,
        })
    }

    /// `not`
    #[tactic(auto, using(crate::proofs::FormulaLaws::not_laws))]
    pub fn negation(alloc: Global, f: MeasuredFormula) -> Result<MeasuredFormula, AllocError>
        ensures { IfOk result (λ g. g ≡ Formula.Not f) }
    {
        let depth = deeper(f.depth)?;
        let variables = f.variables;
        let inner = Boxed::new(alloc, f.into_formula())?;
        Ok(MeasuredFormula {
            formula: Formula::Not(inner),
            depth,
            variables,
            has_variable: false,
        })
    }

    /// `and` of at least two formulas.
    #[tactic(auto, using(crate::proofs::FormulaLaws::all_laws))]
    pub fn all(parts: MeasuredFormulas) -> Result<MeasuredFormula, AllocError>
        ensures { IfOk result (λ f. f ≡ Formula.All parts) }
    {
        let depth = deeper(parts.depth())?;
        let variables = parts.variables();
        Ok(MeasuredFormula {
            formula: Formula::All(parts.into_formulas()),
            depth,
            variables,
            has_variable: false,
        })
    }

    /// `or` of at least two formulas.
    #[tactic(auto, using(crate::proofs::FormulaLaws::any_laws))]
    pub fn any(parts: MeasuredFormulas) -> Result<MeasuredFormula, AllocError>
        ensures { IfOk result (λ f. f ≡ Formula.Any parts) }
    {
        let depth = deeper(parts.depth())?;
        let variables = parts.variables();
        Ok(MeasuredFormula {
            formula: Formula::Any(parts.into_formulas()),
            depth,
            variables,
            has_variable: false,
        })
    }

    /// `=` of two formulas.
    #[tactic(auto, using(crate::proofs::FormulaLaws::iff_laws))]
    pub fn iff(
        alloc: Global,
        f: MeasuredFormula,
        g: MeasuredFormula,
    ) -> Result<MeasuredFormula, AllocError>
        ensures { IfOk result (λ h. h ≡ Formula.Iff f g) }
    {
        let measures = measures_of_both(&f, &g)?;
        let formula = plain_iff(alloc, f, g)?;
        Ok(MeasuredFormula {
            formula,
            depth: measures.depth,
            variables: measures.variables,
            has_variable: false,
        })
    }

    /// `ite` of formulas: the condition, and the two branches.
    #[tactic(auto, using(crate::proofs::FormulaLaws::choose_laws))]
    pub fn choose(
        alloc: Global,
        c: MeasuredFormula,
        f: MeasuredFormula,
        g: MeasuredFormula,
    ) -> Result<MeasuredFormula, AllocError>
        ensures { IfOk result (λ h. h ≡ Formula.Choose c f g) }
    {
        let depth = deeper(c.depth.max(f.depth.max(g.depth)))?;
        let variables = together(c.variables, together(f.variables, g.variables)?)?;
        let condition = Boxed::new(alloc, c.into_formula())?;
        let then = Boxed::new(alloc, f.into_formula())?;
        let otherwise = Boxed::new(alloc, g.into_formula())?;
        Ok(MeasuredFormula {
            formula: Formula::Choose(condition, then, otherwise),
            depth,
            variables,
            has_variable: false,
        })
    }

    /// `forall` over at least one binder.
    #[tactic(auto, using(crate::proofs::FormulaLaws::forall_laws))]
    pub fn forall(
        alloc: Global,
        binders: Binders,
        f: MeasuredFormula,
    ) -> Result<MeasuredFormula, AllocError>
        ensures { IfOk result (λ g. g ≡ Formula.Forall binders f) }
    {
        let depth = deeper(f.depth)?;
        let variables = together(binders.len(), f.variables)?;
        let body = Boxed::new(alloc, f.into_formula())?;
        Ok(MeasuredFormula {
            formula: Formula::Forall(binders, body),
            depth,
            variables,
            has_variable: false,
        })
    }

    /// `exists` over at least one binder.
    #[tactic(auto, using(crate::proofs::FormulaLaws::exists_laws))]
    pub fn exists(
        alloc: Global,
        binders: Binders,
        f: MeasuredFormula,
    ) -> Result<MeasuredFormula, AllocError>
        ensures { IfOk result (λ g. g ≡ Formula.Exists binders f) }
    {
        let depth = deeper(f.depth)?;
        let variables = together(binders.len(), f.variables)?;
        let body = Boxed::new(alloc, f.into_formula())?;
        Ok(MeasuredFormula {
            formula: Formula::Exists(binders, body),
            depth,
            variables,
            has_variable: false,
        })
    }

    /// A formula of a list, with the measures that were kept of it.
    pub(crate) fn measured(
        formula: Formula,
        depth: usize,
        variables: usize,
        has_variable: bool,
    ) -> MeasuredFormula
        requires depth { depth ≡ depth_of_formula formula }
        requires variables { variables ≡ variables_in formula }
        requires varies { has_variable ≡ atom_varies formula }
        ensures { result ≡ formula }
    {
        MeasuredFormula {
            formula,
            depth,
            variables,
            has_variable,
        }
    }

    /// How deep the formula is.
    pub fn depth(&self) -> usize
        ensures { result ≡ depth_of_formula self.now }
    {
        self.depth
    }

    /// How many variables the quantifiers of the formula bind.
    pub fn variables(&self) -> usize
        ensures { result ≡ variables_in self.now }
    {
        self.variables
    }

    /// Whether the formula is an atom in whose term a variable stands.
    pub fn has_variable(&self) -> bool
        ensures { result ≡ atom_varies self.now }
    {
        self.has_variable
    }

    /// Whether the formula has a quantifier.
    pub fn is_quantified(&self) -> bool
        ensures { result ≡ is_quantified self.now }
    {
        self.variables > 0
    }

    /// The term that may be an element of an array over Bool: of `true`, of `false` or of an atom.
    #[tactic(auto, using(crate::proofs::FormulaLaws::atom_laws))]
    pub fn into_value(self) -> Option<MeasuredTerm>
        ensures { MatchOption result (truth_value self ≡ Err Unsupported) (λ t. truth_value self ≡ Ok t) }
    {
        let MeasuredFormula {
            formula,
            depth,
            variables: _,
            has_variable,
        } = self;
        match formula {
            Formula::Truth(truth) => Some(MeasuredTerm::truth(truth)),
            Formula::Atom(term) => Some(MeasuredTerm::measured(term, depth, has_variable)),
            Formula::Equal(_, _)
            | Formula::AtMost(_, _)
            | Formula::SameArray(_, _)
            | Formula::Not(_)
            | Formula::All(_)
            | Formula::Any(_)
            | Formula::Iff(_, _)
            | Formula::Choose(_, _, _)
            | Formula::Forall(_, _)
            | Formula::Exists(_, _) => None,
        }
    }

    /// The formula, lent.
    pub fn as_formula(&self) -> &Formula
        ensures { result.now ≡ self.now }
    {
        &self.formula
    }

    /// The formula without its measures.
    pub fn into_formula(self) -> Formula
        ensures { result ≡ self }
    {
        let MeasuredFormula {
            formula,
            depth: _,
            variables: _,
            has_variable: _,
        } = self;
        formula
    }

    /// A copy.
    pub fn copy(&self, alloc: Global) -> Result<MeasuredFormula, AllocError>
        ensures { IfOk result (λ f. f ≡ self.now) }
    {
        Ok(MeasuredFormula {
            formula: copy_formula(alloc, &self.formula)?,
            depth: self.depth,
            variables: self.variables,
            has_variable: self.has_variable,
        })
    }
}
