//! What was read, with its measures.

ghost use Rattle.std.specs.Prelude.{◌≡◌, IfOk, MatchOption, Ok, Err};
ghost use Rattle.mbqi_values.specs.declared.fault.FaultKind.TheVariants.{NotDifference, WrongSort};
ghost use Rattle.smtlib_terms.specs.Meaning.{depth_of, sort_of, variables_of};
ghost use Rattle.smtlib_terms.specs.Operators.{as_formula, as_integer, is_quantified_meaning, plainly};
ghost use Rattle.smtlib_terms.specs.Reading.{variables_of_side};
ghost use Rattle.operator_arguments.specs.Measured.{array_in, meaning_of, side_of};

use mbqi_terms::{Plain, Sort};
use measured_terms::{MeasuredArray, MeasuredFormula, MeasuredTerm};
use smtlib_terms::meaning::Meaning;
use std::alloc::{AllocError, Global};

/// What a tree means, with its measures.
#[derive(Drop)]
pub enum MeasuredMeaning {
    /// A formula: all that has sort Bool.
    Formula(MeasuredFormula),
    /// A term of Int or of a declared sort.
    Term(Sort, MeasuredTerm),
    /// An array term, with the sorts of its index and its elements.
    Array(Plain, Plain, MeasuredArray),
}

/// What a tree means as an argument: its meaning, or the difference of two integers of which the second is no
/// numeral. Only an atom may have a difference.
#[derive(Drop)]
pub enum MeasuredSide {
    Meant(MeasuredMeaning),
    Difference(MeasuredTerm, MeasuredTerm),
}

impl MeasuredMeaning {
    /// The sort.
    pub fn sort(&self) -> Sort
        ensures { result ≡ sort_of (meaning_of self.now) }
    {
        match self {
            MeasuredMeaning::Formula(_) => Sort::Truth,
            MeasuredMeaning::Term(sort, _) => *sort,
            MeasuredMeaning::Array(index, element, _) => Sort::Array(*index, *element),
        }
    }

    /// Whether the meaning is a formula with a quantifier.
    pub fn is_quantified(&self) -> bool
        ensures { result ≡ is_quantified_meaning (meaning_of self.now) }
    {
        match self {
            MeasuredMeaning::Formula(f) => f.is_quantified(),
            MeasuredMeaning::Term(_, _) | MeasuredMeaning::Array(_, _, _) => false,
        }
    }

    /// How deep the meaning is.
    pub fn depth(&self) -> usize
        ensures { result ≡ depth_of (meaning_of self.now) }
    {
        match self {
            MeasuredMeaning::Formula(f) => f.depth(),
            MeasuredMeaning::Term(_, t) => t.depth(),
            MeasuredMeaning::Array(_, _, a) => a.depth(),
        }
    }

    /// How many variables the quantifiers of the meaning bind.
    pub fn variables(&self) -> usize
        ensures { result ≡ variables_of (meaning_of self.now) }
    {
        match self {
            MeasuredMeaning::Formula(f) => f.variables(),
            MeasuredMeaning::Term(_, _) | MeasuredMeaning::Array(_, _, _) => 0,
        }
    }

    /// The meaning as a formula, where it is one.
    pub fn into_formula(self) -> Option<MeasuredFormula>
        ensures { MatchOption result (as_formula (meaning_of self) ≡ Err WrongSort) (λ f. as_formula (meaning_of self) ≡ Ok f) }
    {
        match self {
            MeasuredMeaning::Formula(f) => Some(f),
            MeasuredMeaning::Term(_, _) | MeasuredMeaning::Array(_, _, _) => None,
        }
    }

    /// The meaning as an integer, where it is one.
    pub fn into_integer(self) -> Option<MeasuredTerm>
        ensures { MatchOption result (as_integer (meaning_of self) ≡ Err WrongSort) (λ t. as_integer (meaning_of self) ≡ Ok t) }
    {
        match self {
            MeasuredMeaning::Term(sort, t) => match sort {
                Sort::Int => Some(t),
                Sort::Truth | Sort::Elem(_) | Sort::Array(_, _) => None,
            },
            MeasuredMeaning::Formula(_) | MeasuredMeaning::Array(_, _, _) => None,
        }
    }

    /// The array term with the sorts of its index and its elements, where the meaning is one.
    pub fn into_array(self) -> Option<(Plain, Plain, MeasuredArray)>
        ensures { result ≡ array_in (meaning_of self) }
    {
        match self {
            MeasuredMeaning::Array(index, element, a) => Some((index, element, a)),
            MeasuredMeaning::Formula(_) | MeasuredMeaning::Term(_, _) => None,
        }
    }

    /// The meaning without its measures.
    pub fn into_plain(self) -> Meaning
        ensures { result ≡ meaning_of self }
    {
        match self {
            MeasuredMeaning::Formula(f) => Meaning::Formula(f.into_formula()),
            MeasuredMeaning::Term(sort, t) => Meaning::Term(sort, t.into_term()),
            MeasuredMeaning::Array(index, element, a) => {
                Meaning::Array(index, element, a.into_array())
            }
        }
    }

    /// A copy.
    pub fn copy(&self, alloc: Global) -> Result<MeasuredMeaning, AllocError>
        ensures { IfOk result (λ m. m ≡ self.now) }
    {
        match self {
            MeasuredMeaning::Formula(f) => Ok(MeasuredMeaning::Formula(f.copy(alloc)?)),
            MeasuredMeaning::Term(sort, t) => Ok(MeasuredMeaning::Term(*sort, t.copy(alloc)?)),
            MeasuredMeaning::Array(index, element, a) => {
                Ok(MeasuredMeaning::Array(*index, *element, a.copy(alloc)?))
            }
        }
    }
}

impl MeasuredSide {
    /// How many variables the quantifiers of the meaning bind; terms bind none.
    pub fn variables(&self) -> usize
        ensures { result ≡ variables_of_side (side_of self.now) }
    {
        match self {
            MeasuredSide::Meant(m) => m.variables(),
            MeasuredSide::Difference(_, _) => 0,
        }
    }

    /// The meaning, where it is no difference.
    pub fn into_meaning(self) -> Option<MeasuredMeaning>
        ensures { MatchOption result (plainly (side_of self) ≡ Err NotDifference) (λ m. plainly (side_of self) ≡ Ok (meaning_of m)) }
    {
        match self {
            MeasuredSide::Meant(m) => Some(m),
            MeasuredSide::Difference(_, _) => None,
        }
    }
}
