//! Binders and parameters, as trees spell them.

ghost use Rattle.std.specs.Prelude.{◌≡◌, ◌+◌, [], false, IfOk};
ghost use Rattle.smtlib_terms.specs.Answers.{Answers};
ghost use Rattle.smtlib_terms.specs.Reading.{bindable, binder_name, binder_sort, binders_of, quantifiable};
ghost use Rattle.smtlib_terms.specs.Declaring.{parameters_of};
ghost use Rattle.smtlib_terms.specs.Words.{is_one_of};
ghost use Rattle.smtlib_names.specs.Binders.{parameter_read, variable_read};

use crate::sorts::sort_of_tree;
use crate::trees::{binder_name, trees_in};
use mbqi_terms::{Binder, Sort};
use mbqi_values::{FaultKind, ReadError, Sequence, Text};
use name_tables::NameSet;
use sexpr_text::Sexpr;
use smtlib_terms::names::{Parameter, Parameters, Variable, Variables};
use smtlib_terms::refused;
use smtlib_terms::word::is_reserved;
use std::alloc::{AllocError, Global};

/// The sort that a binder names, behind its name.
fn binder_sort(sorts: &NameSet, tree: &Sexpr) -> Result<Sort, ReadError>
    ensures { Answers result (binder_sort tree.now sorts.now) }
{
    match trees_in(tree) {
        [_, second] => sort_of_tree(sorts, second),
        _ => Err(refused(FaultKind::BadForm)),
    }
}

/// A name that may be bound: refused where it is reserved or was bound before in one list.
pub fn bindable(alloc: Global, name: &[u8], seen: &NameSet) -> Result<Text, ReadError>
    ensures meant { Answers result (bindable name.now seen.now) }
    ensures new { IfOk result (λ bound. is_one_of seen.now bound ≡ false) }
{
    if is_reserved(name) {
        return Err(refused(FaultKind::ReservedName));
    }
    if seen.contains(name) {
        return Err(refused(FaultKind::Twice));
    }
    Ok(Sequence::from_slice(alloc, name)?)
}

/// A sort that a quantified variable may have.
fn quantifiable(sort: Sort) -> Result<Sort, ReadError>
    ensures { Answers result (quantifiable sort) }
{
    match sort {
        Sort::Int | Sort::Elem(_) => Ok(sort),
        Sort::Truth | Sort::Array(_, _) => Err(refused(FaultKind::Unsupported)),
    }
}

/// A variable of a quantifier, behind others of these names.
#[tactic(auto, unfolding(crate::specs::Binders::variable_read))]
fn variable(
    alloc: Global,
    sorts: &NameSet,
    tree: &Sexpr,
    place: usize,
    seen: &NameSet,
) -> Result<Variable, ReadError>
    ensures { Answers result (variable_read tree.now sorts.now place seen.now) }
{
    let sort = quantifiable(binder_sort(sorts, tree)?)?;
    let name = bindable(alloc, binder_name(tree), seen)?;
    Ok(Variable {
        name,
        binder: Binder { place, sort },
    })
}

/// A parameter of a macro, behind others of these names.
#[tactic(auto, unfolding(crate::specs::Binders::parameter_read))]
fn parameter(
    alloc: Global,
    sorts: &NameSet,
    tree: &Sexpr,
    seen: &NameSet,
) -> Result<Parameter, ReadError>
    ensures { Answers result (parameter_read tree.now sorts.now seen.now) }
{
    let sort = binder_sort(sorts, tree)?;
    let name = bindable(alloc, binder_name(tree), seen)?;
    Ok(Parameter { name, sort })
}

/// The parameters of a macro, each in turn.
#[tactic(auto, using(std::proofs::lemmas::Grind::common_steps, crate::proofs::BindersRead::parameter_laws))]
pub fn parameters(alloc: Global, sorts: &NameSet, trees: &[Sexpr]) -> Result<Parameters, ReadError>
    ensures { Answers result (parameters_of trees.now sorts.now []) }
{
    let mut parameters = Sequence::new(alloc);
    let mut seen = NameSet::new(alloc);
    for tree in trees {
        let next = parameter(alloc, sorts, tree, &seen)?;
        seen.insert(alloc, next.name.as_slice())?;
        parameters.push(next)?;
    }
    Ok(parameters)
}

/// The place behind a place. As many as 2^64 variables have no room in memory.
fn place_behind(place: usize) -> Result<usize, AllocError>
    ensures { IfOk result (λ n. n ≡ place + 1) }
{
    place.checked_add(1).ok_or(AllocError)
}

/// The variables of a quantifier's binders, with places from `place` on, each in turn.
#[tactic(auto, using(std::proofs::lemmas::Grind::common_steps, crate::proofs::BindersRead::variable_laws))]
pub fn variables(
    alloc: Global,
    sorts: &NameSet,
    trees: &[Sexpr],
    place: usize,
) -> Result<Variables, ReadError>
    ensures { Answers result (binders_of trees.now sorts.now place []) }
{
    let mut variables = Sequence::new(alloc);
    let mut seen = NameSet::new(alloc);
    let mut place = place;
    for tree in trees {
        let next = variable(alloc, sorts, tree, place, &seen)?;
        seen.insert(alloc, next.name.as_slice())?;
        variables.push(next)?;
        let following = place_behind(place)?;
        place = following;
    }
    Ok(variables)
}
