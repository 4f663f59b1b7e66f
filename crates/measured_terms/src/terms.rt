//! Terms.

ghost use Rattle.std.specs.Prelude.{◌≡◌, IfOk};
ghost use Rattle.mbqi_terms.specs.Depth.{depth_of_term};
ghost use Rattle.mbqi_terms.specs.Varies.{varies_term};
ghost use Rattle.smtlib_terms.specs.Number.{sum_of};

use crate::arrays::MeasuredArray;
use crate::lists::MeasuredTerms;
use crate::measures::deeper;
use crate::symbols::MeasuredSymbol;
use mbqi_terms::{Term, copy_term};
use sqlite_items::Boxed;
use std::alloc::{AllocError, Global};
use std::marker::Model;

/// A term with its depth, and with whether a variable stands in it. Contracts see the term.
#[derive(Drop)]
pub struct MeasuredTerm {
    term: Term,
    depth: usize,
    has_variable: bool,
}

impl Model for MeasuredTerm {
    ghost use Rattle.std.specs.Prelude.{◌≡◌};
    ghost use Rattle.mbqi_terms.specs.declared.term.Term.{Term};
    ghost use Rattle.mbqi_terms.specs.contracts.term.Term as term_of;

    ghost Value = { Term };

    ghost coded = { term_of.the_row.coded };

    ghost use Rattle.mbqi_terms.specs.Depth.{depth_of_term};
    ghost use Rattle.mbqi_terms.specs.Varies.{varies_term};

    ghost view = { λ m. m.term };

    ghost invariant = { λ m. (m.depth ≡ depth_of_term m.term) × (m.has_variable ≡ varies_term m.term) };
}

/// An integer term as a sum: a term that is neither a numeral nor a sum, if there is one, and a number.
#[derive(Drop)]
pub struct MeasuredSum {
    pub base: Option<MeasuredTerm>,
    pub number: i128,
}

impl MeasuredTerm {
    /// A numeral.
    #[tactic(auto, using(crate::proofs::TermLaws::num_laws))]
    pub fn number(n: i128) -> MeasuredTerm
        ensures { result ≡ Term.Num n }
    {
        MeasuredTerm {
            term: Term::Num(n),
            depth: 1,
            has_variable: false,
        }
    }

    /// A term plus a number, in this form.
    #[tactic(auto, using(crate::proofs::TermLaws::plus_laws))]
    pub fn plus(alloc: Global, t: MeasuredTerm, n: i128) -> Result<MeasuredTerm, AllocError>
        ensures { IfOk result (λ s. s ≡ Term.Plus t n) }
    {
        let depth = deeper(t.depth)?;
        let has_variable = t.has_variable;
        let base = Boxed::new(alloc, t.into_term())?;
        Ok(MeasuredTerm {
            term: Term::Plus(base, n),
            depth,
            has_variable,
        })
    }

    /// The variable of a place.
    #[tactic(auto, using(crate::proofs::TermLaws::var_laws))]
    pub fn variable(place: usize) -> MeasuredTerm
        ensures { result ≡ Term.Var place }
    {
        MeasuredTerm {
            term: Term::Var(place),
            depth: 1,
            has_variable: true,
        }
    }

    /// `true` or `false` as a term.
    #[tactic(auto, using(crate::proofs::TermLaws::truth_laws))]
    pub fn truth(truth: bool) -> MeasuredTerm
        ensures { result ≡ Term.Truth truth }
    {
        MeasuredTerm {
            term: Term::Truth(truth),
            depth: 1,
            has_variable: false,
        }
    }

    /// A symbol applied to terms.
    #[tactic(auto, using(crate::proofs::TermLaws::apply_laws))]
    pub fn apply(symbol: MeasuredSymbol, args: MeasuredTerms) -> Result<MeasuredTerm, AllocError>
        ensures { IfOk result (λ t. t ≡ Term.Apply symbol args) }
    {
        let depth = deeper(symbol.depth().max(args.depth()))?;
        let has_variable = symbol.has_variable() || args.has_variable();
        Ok(MeasuredTerm {
            term: Term::Apply(symbol.into_symbol(), args.into_terms()),
            depth,
            has_variable,
        })
    }

    /// `(select a i)`
    #[tactic(auto, using(crate::proofs::TermLaws::read_laws))]
    pub fn read(
        alloc: Global,
        a: MeasuredArray,
        i: MeasuredTerm,
    ) -> Result<MeasuredTerm, AllocError>
        ensures { IfOk result (λ t. t ≡ Term.Read a i) }
    {
        let depth = deeper(a.depth().max(i.depth))?;
        let has_variable = a.has_variable() || i.has_variable;
        let array = Boxed::new(alloc, a.into_array())?;
        let index = Boxed::new(alloc, i.into_term())?;
        Ok(MeasuredTerm {
            term: Term::Read(array, index),
            depth,
            has_variable,
        })
    }

    /// `(default a)`
    #[tactic(auto, using(crate::proofs::TermLaws::default_laws))]
    pub fn default_of(alloc: Global, a: MeasuredArray) -> Result<MeasuredTerm, AllocError>
        ensures { IfOk result (λ t. t ≡ Term.Default a) }
    {
        let depth = deeper(a.depth())?;
        let has_variable = a.has_variable();
        let array = Boxed::new(alloc, a.into_array())?;
        Ok(MeasuredTerm {
            term: Term::Default(array),
            depth,
            has_variable,
        })
    }

    /// A term of an atom, with the measures that were kept of it.
    pub(crate) fn measured(term: Term, depth: usize, has_variable: bool) -> MeasuredTerm
        requires depth { depth ≡ depth_of_term term }
        requires varies { has_variable ≡ varies_term term }
        ensures { result ≡ term }
    {
        MeasuredTerm {
            term,
            depth,
            has_variable,
        }
    }

    /// How deep the term is.
    pub fn depth(&self) -> usize
        ensures { result ≡ depth_of_term self.now }
    {
        self.depth
    }

    /// Whether a variable stands in the term.
    pub fn has_variable(&self) -> bool
        ensures { result ≡ varies_term self.now }
    {
        self.has_variable
    }

    /// What the term is the sum of.
    #[tactic(auto, using(crate::proofs::TermLaws::sum_laws))]
    pub fn into_sum(self) -> MeasuredSum
        ensures base { result.base ≡ (sum_of self).base }
        ensures number { result.number ≡ (sum_of self).number }
    {
        let MeasuredTerm {
            term,
            depth,
            has_variable,
        } = self;
        match term {
            Term::Num(number) => MeasuredSum { base: None, number },
            Term::Plus(t, number) => MeasuredSum {
                base: Some(MeasuredTerm {
                    term: t.into_inner(),
                    depth: depth - 1,
                    has_variable,
                }),
                number,
            },
            Term::Var(_)
            | Term::Truth(_)
            | Term::Apply(_, _)
            | Term::Read(_, _)
            | Term::Default(_) => {
                MeasuredSum {
                    base: Some(MeasuredTerm {
                        term,
                        depth,
                        has_variable,
                    }),
                    number: 0,
                }
            }
        }
    }

    /// The term, lent.
    pub fn as_term(&self) -> &Term
        ensures { result.now ≡ self.now }
    {
        &self.term
    }

    /// The term without its measures.
    pub fn into_term(self) -> Term
        ensures { result ≡ self }
    {
        let MeasuredTerm {
            term,
            depth: _,
            has_variable: _,
        } = self;
        term
    }

    /// A copy.
    pub fn copy(&self, alloc: Global) -> Result<MeasuredTerm, AllocError>
        ensures { IfOk result (λ t. t ≡ self.now) }
    {
        Ok(MeasuredTerm {
            term: copy_term(alloc, &self.term)?,
            depth: self.depth,
            has_variable: self.has_variable,
        })
    }
}
