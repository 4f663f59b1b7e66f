//! What a word makes of its arguments, by the word.

ghost use Rattle.std.specs.Prelude.{◌≡◌, [], ◌∷◌, Ok, IfOk};
ghost use Rattle.std.specs.List.{list_any};
ghost use Rattle.smtlib_terms.specs.Answers.{Answers};
ghost use Rattle.smtlib_terms.specs.Operators.{applied, is_wide, relation_meant, two_sides};
ghost use Rattle.operator_arguments.specs.Measured.{Means, meaning_of, meanings_of, side_of};
ghost use Rattle.term_operators.specs.Steps.{formula_of, moved_beside, numeral_of};

use array_operators::{defaulting, selection, storing};
use formula_operators::{
    addition, choice, conjunction, disjunction, distinct, equal, exclusion, implication, is_wide,
    moved_by, negated, number_of, order,
};
use mbqi_terms::Sort;
use mbqi_values::{FaultKind, ReadError, Sequence};
use measured_terms::{MeasuredFormula, MeasuredTerm};
use operator_arguments::{Meanings, MeasuredMeaning, MeasuredSide};
use smtlib_terms::word::Word;
use smtlib_terms::{refused, refused_unless_deep};
use std::alloc::{AllocError, Global};

/// The formula that a connective or a relation makes of its arguments.
fn formula_of(alloc: Global, word: Word, args: Meanings) -> Result<MeasuredFormula, ReadError>
    ensures { Answers result (formula_of word (meanings_of args)) }
{
    match word {
        Word::Not => negated(alloc, args),
        Word::And => conjunction(alloc, args),
        Word::Or => disjunction(alloc, args),
        Word::Implies => implication(alloc, args),
        Word::Xor => exclusion(alloc, args),
        Word::Equal => equal(alloc, args.as_slice()),
        Word::Distinct => distinct(alloc, args.as_slice()),
        Word::Choose => choice(alloc, args),
        Word::AtMost | Word::Below | Word::AtLeast | Word::Above => order(alloc, word, args),
        Word::Plus
        | Word::Minus
        | Word::Select
        | Word::Store
        | Word::Default
        | Word::Let
        | Word::Forall
        | Word::Exists
        | Word::Annotated
        | Word::Arithmetic
        | Word::Unread
        | Word::Name => Err(refused(FaultKind::UnknownName)),
    }
}

/// Whether an argument is an integer whose number is past its limit.
fn is_wide_meaning(m: &MeasuredMeaning) -> bool
    ensures { result ≡ is_wide (meaning_of m.now) }
{
    match m {
        MeasuredMeaning::Term(sort, t) => match sort {
            Sort::Int => is_wide(t),
            Sort::Truth | Sort::Elem(_) | Sort::Array(_, _) => false,
        },
        MeasuredMeaning::Formula(_) | MeasuredMeaning::Array(_, _, _) => false,
    }
}

/// Whether one of the arguments is an integer whose number is past its limit.
#[tactic(auto, using(std::proofs::lemmas::Grind::common_steps))]
fn any_wide(args: &[MeasuredMeaning]) -> bool
    ensures { result ≡ list_any is_wide (meanings_of args.now) }
{
    for m in args {
        if is_wide_meaning(m) {
            return true;
        }
    }
    false
}

/// What a relation makes of its arguments. The number of a term that a difference moved is judged here.
fn related(alloc: Global, word: Word, args: Meanings) -> Result<MeasuredMeaning, ReadError>
    ensures { Means meaning_of result (relation_meant (meanings_of args) (formula_of word (meanings_of args))) }
{
    let is_wide = any_wide(args.as_slice());
    let f = formula_of(alloc, word, args)?;
    if is_wide {
        Err(refused_unless_deep(FaultKind::OffsetTooWide, f.depth()))
    } else {
        Ok(MeasuredMeaning::Formula(f))
    }
}

/// What a word makes of its arguments. Refused: WrongCount, WrongSort, NotDifference where a sum has two terms that are
/// no numerals, OffsetTooWide where its number is past its limit, QuantifierPlace and BoundArray, or TooDeep in the place
/// of these three, and Unsupported for what the profile leaves out, in the order of docs/DEFINITIONS.md.
pub fn applied(alloc: Global, word: Word, args: Meanings) -> Result<MeasuredMeaning, ReadError>
    ensures { Means meaning_of result (applied word (meanings_of args)) }
{
    match word {
        Word::Plus => addition(alloc, args),
        Word::Select => selection(alloc, args),
        Word::Store => storing(alloc, args),
        Word::Default => defaulting(alloc, args),
        Word::Arithmetic => Err(refused(FaultKind::Unsupported)),
        Word::Minus
        | Word::Let
        | Word::Forall
        | Word::Exists
        | Word::Annotated
        | Word::Unread
        | Word::Name => Err(refused(FaultKind::UnknownName)),
        Word::Not | Word::And | Word::Or | Word::Implies | Word::Xor | Word::Choose => {
            let f = formula_of(alloc, word, args)?;
            Ok(MeasuredMeaning::Formula(f))
        }
        Word::Equal | Word::Distinct | Word::AtMost | Word::Below | Word::AtLeast | Word::Above =>
            related(alloc, word, args),
    }
}

/// A list of two meanings.
fn listed(
    alloc: Global,
    first: MeasuredMeaning,
    second: MeasuredMeaning,
) -> Result<Meanings, AllocError>
    ensures { IfOk result (λ list. list ≡ first ∷ second ∷ []) }
{
    let mut list = Sequence::new(alloc);
    list.push(first)?;
    list.push(second)?;
    Ok(list)
}

/// The number of a numeral.
fn numeral_of(m: &MeasuredMeaning) -> Option<i128>
    ensures { result ≡ numeral_of (meaning_of m.now) }
{
    match m {
        MeasuredMeaning::Term(sort, t) => match sort {
            Sort::Int => number_of(t),
            Sort::Truth | Sort::Elem(_) | Sort::Array(_, _) => None,
        },
        MeasuredMeaning::Formula(_) | MeasuredMeaning::Array(_, _, _) => None,
    }
}

/// A term moved by the numeral beside a difference.
fn moved_beside(
    alloc: Global,
    other: &MeasuredMeaning,
    t: MeasuredTerm,
) -> Result<MeasuredMeaning, ReadError>
    ensures { Means meaning_of result (moved_beside (meaning_of other.now) t) }
{
    match numeral_of(other) {
        Some(n) => Ok(moved_by(alloc, t, n)?),
        None => Err(refused(FaultKind::NotDifference)),
    }
}

/// The two arguments that an atom compares, of which one may be a difference. Refused: NotDifference where no numeral
/// stands beside it. Whether the number of the moved term is past its limit is judged at the atom.
#[tactic(auto, using(crate::proofs::Besides::beside_is))]
pub fn two_sides(
    alloc: Global,
    first: MeasuredSide,
    second: MeasuredSide,
) -> Result<Meanings, ReadError>
    ensures { Means meanings_of result (two_sides (side_of first) (Ok (side_of second))) }
{
    match (first, second) {
        (MeasuredSide::Meant(m), MeasuredSide::Meant(n)) => Ok(listed(alloc, m, n)?),
        (MeasuredSide::Meant(m), MeasuredSide::Difference(s, t)) => {
            let moved = moved_beside(alloc, &m, t)?;
            Ok(listed(alloc, moved, MeasuredMeaning::Term(Sort::Int, s))?)
        }
        (MeasuredSide::Difference(s, t), MeasuredSide::Meant(n)) => {
            let moved = moved_beside(alloc, &n, t)?;
            Ok(listed(alloc, MeasuredMeaning::Term(Sort::Int, s), moved)?)
        }
        (MeasuredSide::Difference(_, _), MeasuredSide::Difference(_, _)) => {
            Err(refused(FaultKind::NotDifference))
        }
    }
}
