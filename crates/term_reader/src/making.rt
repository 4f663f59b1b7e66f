//! What comes of arguments that were read.

ghost use Rattle.std.specs.Prelude.{◌≡◌, IfOk, map};
ghost use Rattle.smtlib_terms.specs.Declaring.{names_before};
ghost use Rattle.smtlib_terms.specs.Applying.{function_applied, declared_pointwise, bound_pointwise, mapped, pointwise_named};
ghost use Rattle.smtlib_terms.specs.Names.{bound_to, function_named, macro_named};
ghost use Rattle.smtlib_terms.specs.Operators.{plainly};
ghost use Rattle.smtlib_terms.specs.Reading.{quantified, quantified_meant, shallow_side};
ghost use Rattle.array_operators.specs.Maps.{pointwise_of};
ghost use Rattle.operator_arguments.specs.Measured.{Means, meaning_of, meanings_of, side_of};
ghost use Rattle.term_reader.specs.Plans.{made};

use crate::plan::Maker;
use crate::scope::Scope;
use array_operators::{
    Pointwise, connective_map, constant, function_applied, function_map, mapped_by, negation_map,
};
use formula_operators::subtraction;
use mbqi_terms::{Binders, MapOp};
use mbqi_values::{FaultKind, ReadError, Sequence};
use measured_terms::MeasuredFormula;
use operator_arguments::{Meanings, MeasuredMeaning, MeasuredSide};
use smtlib_names::names::Names;
use smtlib_terms::names::Variable;
use smtlib_terms::word::{Word, is_reserved_word};
use smtlib_terms::{DEPTH_LIMIT, refused};
use std::alloc::{AllocError, Global};
use term_operators::applied;

/// The declared function of a name, applied to arguments. Refused: UnknownName where no function has the name, WrongCount
/// or WrongSort.
pub fn function_by_name(
    alloc: Global,
    names: &Names,
    name: &[u8],
    args: Meanings,
) -> Result<MeasuredMeaning, ReadError>
    ensures { Means meaning_of result (function_applied (meanings_of args) (function_named name.now 0 names.now.functions)) }
{
    match names.function_named(name) {
        Some((number, f)) => function_applied(alloc, number, f, args),
        None => Err(refused(FaultKind::UnknownName)),
    }
}

/// The declared function of a name, as that of a pointwise map. A macro is none.
#[tactic(auto, using(crate::proofs::Ends::macro_laws))]
fn declared_map(
    alloc: Global,
    names: &Names,
    macros: usize,
    name: &[u8],
) -> Result<Pointwise, ReadError>
    ensures { Means pointwise_of result (declared_pointwise (names_before names.now macros) name.now (macro_named name.now (names_before names.now macros).macros)) }
{
    if let Some(_found) = names.macro_named(macros, name) {
        return Err(refused(FaultKind::Unsupported));
    }
    let Some((number, f)) = names.function_named(name) else {
        return Err(refused(FaultKind::UnknownName));
    };
    Ok(function_map(alloc, number, f)?)
}

/// The function of a name, as that of a pointwise map. A name that is bound is none.
fn unbound_map(
    alloc: Global,
    names: &Names,
    macros: usize,
    scope: &Scope,
    name: &[u8],
) -> Result<Pointwise, ReadError>
    ensures { Means pointwise_of result (bound_pointwise (names_before names.now macros) name.now (bound_to name.now scope.now)) }
{
    match scope.find(name) {
        Some(_bound) => Err(refused(FaultKind::Unsupported)),
        None => declared_map(alloc, names, macros, name),
    }
}

/// The function of a pointwise map: `and`, `or`, `not`, or a declared function.
fn pointwise_named(
    alloc: Global,
    names: &Names,
    macros: usize,
    scope: &Scope,
    name: &[u8],
    args: &[MeasuredMeaning],
) -> Result<Pointwise, ReadError>
    ensures { Means pointwise_of result (pointwise_named (names_before names.now macros) scope.now name.now (meanings_of args.now)) }
{
    if name == b"and".as_slice() {
        return Ok(connective_map(alloc, MapOp::And, args)?);
    }
    if name == b"or".as_slice() {
        return Ok(connective_map(alloc, MapOp::Or, args)?);
    }
    if name == b"not".as_slice() {
        return Ok(negation_map(alloc)?);
    }
    if is_reserved_word(name) {
        return Err(refused(FaultKind::Unsupported));
    }
    unbound_map(alloc, names, macros, scope, name)
}

/// `((_ map f) a ...)`
fn mapped(
    alloc: Global,
    names: &Names,
    macros: usize,
    scope: &Scope,
    name: &[u8],
    args: Meanings,
) -> Result<MeasuredMeaning, ReadError>
    ensures { Means meaning_of result (mapped (names_before names.now macros) scope.now name.now (meanings_of args)) }
{
    let function = pointwise_named(alloc, names, macros, scope, name, args.as_slice())?;
    mapped_by(alloc, function, args)
}

/// What comes of arguments.
pub fn made(
    alloc: Global,
    names: &Names,
    macros: usize,
    scope: &Scope,
    maker: Maker,
    args: Meanings,
) -> Result<MeasuredSide, ReadError>
    ensures { Means side_of result (made maker (names_before names.now macros) scope.now (meanings_of args)) }
{
    match maker {
        Maker::Operator(word) => Ok(MeasuredSide::Meant(applied(alloc, word, args)?)),
        Maker::Difference => subtraction(alloc, args),
        Maker::Constant(sort) => Ok(MeasuredSide::Meant(constant(alloc, sort, args)?)),
        Maker::Map(name) => {
            let m = mapped(alloc, names, macros, scope, name.as_slice(), args)?;
            Ok(MeasuredSide::Meant(m))
        }
    }
}

/// What stands where no difference may.
pub fn plainly(side: MeasuredSide) -> Result<MeasuredMeaning, ReadError>
    ensures { Means meaning_of result (plainly (side_of side)) }
{
    match side {
        MeasuredSide::Meant(m) => Ok(m),
        MeasuredSide::Difference(_, _) => Err(refused(FaultKind::NotDifference)),
    }
}

/// A side that isn't too deep.
pub fn shallow(side: MeasuredSide) -> Result<MeasuredSide, ReadError>
    ensures { Means side_of result (shallow_side (side_of side)) }
{
    match side {
        MeasuredSide::Meant(m) => {
            if m.depth() <= DEPTH_LIMIT {
                Ok(MeasuredSide::Meant(m))
            } else {
                Err(refused(FaultKind::TooDeep))
            }
        }
        MeasuredSide::Difference(s, t) => Ok(MeasuredSide::Difference(s, t)),
    }
}

/// The binders of variables.
#[tactic(auto, using(std::proofs::lemmas::Grind::common_steps))]
fn binders_of(alloc: Global, variables: &[Variable]) -> Result<Binders, AllocError>
    ensures { IfOk result (λ bs. bs ≡ map (λ v. v.binder) variables.now) }
{
    let mut binders = Sequence::new(alloc);
    for variable in variables {
        binders.push(variable.binder)?;
    }
    Ok(binders)
}

/// A quantifier over a formula.
fn quantifier(
    alloc: Global,
    word: Word,
    variables: &[Variable],
    f: MeasuredFormula,
) -> Result<MeasuredFormula, AllocError>
    ensures { IfOk result (λ g. g ≡ quantified word variables.now f) }
{
    let binders = binders_of(alloc, variables)?;
    if word == Word::Forall {
        MeasuredFormula::forall(alloc, binders, f)
    } else {
        MeasuredFormula::exists(alloc, binders, f)
    }
}

/// A quantifier over a body. Refused: WrongSort where the body is no formula.
pub fn quantified(
    alloc: Global,
    word: Word,
    variables: &[Variable],
    body: MeasuredMeaning,
) -> Result<MeasuredMeaning, ReadError>
    ensures { Means meaning_of result (quantified_meant word variables.now (meaning_of body)) }
{
    match body.into_formula() {
        Some(f) => Ok(MeasuredMeaning::Formula(quantifier(alloc, word, variables, f)?)),
        None => Err(refused(FaultKind::WrongSort)),
    }
}
