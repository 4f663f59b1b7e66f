//! The arguments of an operator: how many there are, and of which kind.

ghost use Rattle.std.specs.Prelude.{◌≡◌, nat_le, length};
ghost use Rattle.smtlib_terms.specs.Answers.{Answers};
ghost use Rattle.smtlib_terms.specs.Operators.{as_formulas, as_integers};
ghost use Rattle.operator_arguments.specs.Measured.{meanings_of};
ghost use Rattle.operator_arguments.specs.Counts.{pair_of, sole_of, triple_of};

use crate::meaning::MeasuredMeaning;
use crate::queue::Queue;
use mbqi_values::{FaultKind, ReadError, Sequence};
use measured_terms::{MeasuredFormula, MeasuredTerm};
use smtlib_terms::refused;
use std::alloc::Global;

/// The meanings of arguments, in order.
pub type Meanings = Sequence<MeasuredMeaning>;

/// Whether there are at least so many arguments.
pub fn are_at_least(count: usize, args: &[MeasuredMeaning]) -> bool
    ensures { result ≡ nat_le count (length (meanings_of args.now)) }
{
    count <= args.len()
}

/// The one argument of an operator.
#[tactic(auto, using(crate::proofs::Ends::end_laws))]
pub fn sole(args: Meanings) -> Result<MeasuredMeaning, ReadError>
    ensures { Answers result (sole_of args) }
{
    let mut args = args.into_vec();
    let Some(a) = args.pop() else {
        return Err(refused(FaultKind::WrongCount));
    };
    if args.is_empty() {
        Ok(a)
    } else {
        Err(refused(FaultKind::WrongCount))
    }
}

/// The two arguments of an operator.
#[tactic(auto, using(crate::proofs::Ends::end_laws))]
pub fn pair(args: Meanings) -> Result<(MeasuredMeaning, MeasuredMeaning), ReadError>
    ensures { Answers result (pair_of args) }
{
    let mut args = args.into_vec();
    let Some(b) = args.pop() else {
        return Err(refused(FaultKind::WrongCount));
    };
    let a = sole(Sequence::from_vec(args))?;
    Ok((a, b))
}

/// The three arguments of an operator.
#[tactic(auto, using(crate::proofs::Ends::end_laws))]
pub fn triple(
    args: Meanings,
) -> Result<(MeasuredMeaning, MeasuredMeaning, MeasuredMeaning), ReadError>
    ensures { Answers result (triple_of args) }
{
    let mut args = args.into_vec();
    let Some(c) = args.pop() else {
        return Err(refused(FaultKind::WrongCount));
    };
    let (a, b) = pair(Sequence::from_vec(args))?;
    Ok((a, b, c))
}

/// The arguments as formulas.
#[tactic(auto, using(std::proofs::lemmas::Grind::common_steps, smtlib_terms::proofs::Steps::behind_next))]
pub fn as_formulas(alloc: Global, args: Meanings) -> Result<Sequence<MeasuredFormula>, ReadError>
    ensures { Answers result (as_formulas (meanings_of args)) }
{
    let mut formulas = Sequence::new(alloc);
    let mut args = Queue::new(args);
    while let Some(m) = args.next() {
        let Some(f) = m.into_formula() else {
            return Err(refused(FaultKind::WrongSort));
        };
        formulas.push(f)?;
    }
    Ok(formulas)
}

/// The arguments as integers.
#[tactic(auto, using(std::proofs::lemmas::Grind::common_steps, smtlib_terms::proofs::Steps::behind_next))]
pub fn as_integers(alloc: Global, args: Meanings) -> Result<Sequence<MeasuredTerm>, ReadError>
    ensures { Answers result (as_integers (meanings_of args)) }
{
    let mut integers = Sequence::new(alloc);
    let mut args = Queue::new(args);
    while let Some(m) = args.next() {
        let Some(t) = m.into_integer() else {
            return Err(refused(FaultKind::WrongSort));
        };
        integers.push(t)?;
    }
    Ok(integers)
}
