//! Lists of measured trees.

ghost use Rattle.std.specs.Prelude.{◌≡◌, ◌≢◌, ◌++◌, [], ◌∷◌, OnOk, OnErr, MatchResult, length, map, sum};
ghost use Rattle.std.specs.List.{list_any};
ghost use Rattle.mbqi_terms.specs.Depth.{deepest, depth_of_array, depth_of_formula, depth_of_term};
ghost use Rattle.mbqi_terms.specs.Binders.{variables_in};
ghost use Rattle.mbqi_terms.specs.Varies.{varies, varies_term};

use crate::arrays::MeasuredArray;
use crate::formulas::MeasuredFormula;
use crate::measures::together;
use crate::terms::MeasuredTerm;
use mbqi_terms::{ArrayTerms, Formulas, Terms};
use sqlite_items::Items;
use std::alloc::{AllocError, Global};
use std::marker::Model;

/// Formulas with the depth of the deepest, with how many variables they bind together, and with whether one is an atom
/// in whose term a variable stands. Contracts see the formulas.
#[derive(Drop)]
pub struct MeasuredFormulas {
    formulas: Formulas,
    depth: usize,
    variables: usize,
    has_variable: bool,
}

impl Model for MeasuredFormulas {
    ghost use Rattle.std.specs.Prelude.{◌≡◌, List, map, sum};
    ghost use Rattle.std.specs.Coded.{coded_list};
    ghost use Rattle.mbqi_terms.specs.declared.formula.Formula.{Formula};
    ghost use Rattle.mbqi_terms.specs.contracts.formula.Formula as formula_of;

    ghost Value = { List Formula };

    ghost coded = { coded_list formula_of.the_row.coded };

    ghost use Rattle.std.specs.List.{list_any};
    ghost use Rattle.measured_terms.specs.Measures.{atom_varies};
    ghost use Rattle.mbqi_terms.specs.Depth.{deepest, depth_of_formula};
    ghost use Rattle.mbqi_terms.specs.Binders.{variables_in};

    ghost view = { λ m. m.formulas };

    ghost invariant = { λ m. (m.depth ≡ deepest (map depth_of_formula m.formulas)) × (m.variables ≡ sum (map variables_in m.formulas)) × (m.has_variable ≡ list_any (λ v. v) (map atom_varies m.formulas)) };
}

/// Terms with the depth of the deepest, and with whether a variable stands in one. Contracts see the terms.
#[derive(Drop)]
pub struct MeasuredTerms {
    terms: Terms,
    depth: usize,
    has_variable: bool,
}

impl Model for MeasuredTerms {
    ghost use Rattle.std.specs.Prelude.{◌≡◌, List, map};
    ghost use Rattle.std.specs.Coded.{coded_list};
    ghost use Rattle.mbqi_terms.specs.declared.term.Term.{Term};
    ghost use Rattle.mbqi_terms.specs.contracts.term.Term as item_of;

    ghost Value = { List Term };

    ghost coded = { coded_list item_of.the_row.coded };

    ghost use Rattle.std.specs.List.{list_any};
    ghost use Rattle.mbqi_terms.specs.Depth.{deepest, depth_of_term};
    ghost use Rattle.mbqi_terms.specs.Varies.{varies_term};

    ghost view = { λ m. m.terms };

    ghost invariant = { λ m. (m.depth ≡ deepest (map depth_of_term m.terms)) × (m.has_variable ≡ list_any (λ v. v) (map varies_term m.terms)) };
}

/// Array terms with the depth of the deepest, and with whether a variable stands in one. Contracts see the array
/// terms.
#[derive(Drop)]
pub struct MeasuredArrays {
    arrays: ArrayTerms,
    depth: usize,
    has_variable: bool,
}

impl Model for MeasuredArrays {
    ghost use Rattle.std.specs.Prelude.{◌≡◌, List, map};
    ghost use Rattle.std.specs.Coded.{coded_list};
    ghost use Rattle.mbqi_terms.specs.declared.term.ArrayTerm.{ArrayTerm};
    ghost use Rattle.mbqi_terms.specs.contracts.term.ArrayTerm as item_of;

    ghost Value = { List ArrayTerm };

    ghost coded = { coded_list item_of.the_row.coded };

    ghost use Rattle.std.specs.List.{list_any};
    ghost use Rattle.mbqi_terms.specs.Depth.{deepest, depth_of_array};
    ghost use Rattle.mbqi_terms.specs.Varies.{varies};

    ghost view = { λ m. m.arrays };

    ghost invariant = { λ m. (m.depth ≡ deepest (map depth_of_array m.arrays)) × (m.has_variable ≡ list_any (λ v. v) (map varies m.arrays)) };
}

impl MeasuredFormulas {
    /// No formulas.
    pub fn new(alloc: Global) -> MeasuredFormulas
        ensures { result ≡ [] }
    {
        MeasuredFormulas {
            formulas: Items::new(alloc),
            depth: 0,
            variables: 0,
            has_variable: false,
        }
    }

    /// Adds a formula at the end. After want of memory the formulas are as before.
    #[tactic(auto, using(crate::proofs::ListLaws::push_laws))]
    pub fn push(&mut self, f: MeasuredFormula) -> Result<(), AllocError>
        ensures ok { OnOk result (self.new ≡ self.old ++ f ∷ []) }
        ensures err { OnErr result (self.new ≡ self.old) }
    {
        let depth = self.depth.max(f.depth());
        let variables = together(self.variables, f.variables())?;
        let has_variable = self.has_variable || f.has_variable();
        self.formulas.push(f.into_formula())?;
        self.depth = depth;
        self.variables = variables;
        self.has_variable = has_variable;
        Ok(())
    }

    /// How deep the deepest formula is, or 0.
    pub fn depth(&self) -> usize
        ensures { result ≡ deepest (map depth_of_formula self.now) }
    {
        self.depth
    }

    /// How many variables the quantifiers of the formulas bind together.
    pub fn variables(&self) -> usize
        ensures { result ≡ sum (map variables_in self.now) }
    {
        self.variables
    }

    /// The formula where there is one alone, else the formulas.
    #[tactic(auto, using(crate::proofs::ListLaws::alone_laws))]
    pub fn alone(self) -> Result<MeasuredFormula, MeasuredFormulas>
        ensures { MatchResult result (λ f. self ≡ f ∷ []) (λ parts. (parts ≡ self) × (length self ≢ 1)) }
    {
        if self.formulas.len() != 1 {
            return Err(self);
        }
        let MeasuredFormulas {
            mut formulas,
            depth,
            variables,
            has_variable,
        } = self;
        let formula = formulas.remove(0);
        Ok(MeasuredFormula::measured(formula, depth, variables, has_variable))
    }

    /// The formulas without their measures.
    pub fn into_formulas(self) -> Formulas
        ensures { result ≡ self }
    {
        let MeasuredFormulas {
            formulas,
            depth: _,
            variables: _,
            has_variable: _,
        } = self;
        formulas
    }
}

impl MeasuredTerms {
    /// No terms.
    pub fn new(alloc: Global) -> MeasuredTerms
        ensures { result ≡ [] }
    {
        MeasuredTerms {
            terms: Items::new(alloc),
            depth: 0,
            has_variable: false,
        }
    }

    /// Adds a term at the end. After want of memory the terms are as before.
    #[tactic(auto, using(crate::proofs::ListLaws::push_laws))]
    pub fn push(&mut self, t: MeasuredTerm) -> Result<(), AllocError>
        ensures ok { OnOk result (self.new ≡ self.old ++ t ∷ []) }
        ensures err { OnErr result (self.new ≡ self.old) }
    {
        let depth = self.depth.max(t.depth());
        let has_variable = self.has_variable || t.has_variable();
        self.terms.push(t.into_term())?;
        self.depth = depth;
        self.has_variable = has_variable;
        Ok(())
    }

    /// How deep the deepest term is, or 0.
    pub fn depth(&self) -> usize
        ensures { result ≡ deepest (map depth_of_term self.now) }
    {
        self.depth
    }

    /// Whether a variable stands in one of the terms.
    pub fn has_variable(&self) -> bool
        ensures { result ≡ list_any (λ v. v) (map varies_term self.now) }
    {
        self.has_variable
    }

    /// The terms without their measures.
    pub fn into_terms(self) -> Terms
        ensures { result ≡ self }
    {
        let MeasuredTerms {
            terms,
            depth: _,
            has_variable: _,
        } = self;
        terms
    }
}

impl MeasuredArrays {
    /// No array terms.
    pub fn new(alloc: Global) -> MeasuredArrays
        ensures { result ≡ [] }
    {
        MeasuredArrays {
            arrays: Items::new(alloc),
            depth: 0,
            has_variable: false,
        }
    }

    /// Adds an array term at the end. After want of memory the array terms are as before.
    #[tactic(auto, using(crate::proofs::ListLaws::push_laws))]
    pub fn push(&mut self, a: MeasuredArray) -> Result<(), AllocError>
        ensures ok { OnOk result (self.new ≡ self.old ++ a ∷ []) }
        ensures err { OnErr result (self.new ≡ self.old) }
    {
        let depth = self.depth.max(a.depth());
        let has_variable = self.has_variable || a.has_variable();
        self.arrays.push(a.into_array())?;
        self.depth = depth;
        self.has_variable = has_variable;
        Ok(())
    }

    /// How deep the deepest array term is, or 0.
    pub fn depth(&self) -> usize
        ensures { result ≡ deepest (map depth_of_array self.now) }
    {
        self.depth
    }

    /// Whether a variable stands in one of the array terms.
    pub fn has_variable(&self) -> bool
        ensures { result ≡ list_any (λ v. v) (map varies self.now) }
    {
        self.has_variable
    }

    /// The array terms without their measures.
    pub fn into_arrays(self) -> ArrayTerms
        ensures { result ≡ self }
    {
        let MeasuredArrays {
            arrays,
            depth: _,
            has_variable: _,
        } = self;
        arrays
    }
}
