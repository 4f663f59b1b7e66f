//! Formulas and macros, by the names that were declared and defined.

ghost use Rattle.std.specs.Prelude.{◌≡◌, [], false, Ok, IfErr, IfOk, OnOk};
ghost use Rattle.smtlib_terms.specs.Answers.{Answers, Declares, IsFault};
ghost use Rattle.smtlib_terms.specs.Declaring.{arguments, body_meant, definition_described, definition_of, definition_parts, formula_read, is_definition, is_function, macro_defined, macro_meant, may_define, opaque_from, term_read};
ghost use Rattle.smtlib_terms.specs.Reading.{trees_in, is_list};
ghost use Rattle.operator_arguments.specs.Measured.{Means, meaning_of};

use crate::macros::{arguments, macro_of, opaque_from};
use crate::reading::read_term;
use crate::scope::Scope;
use mbqi_terms::{Formula, Sort};
use mbqi_values::{FaultKind, ReadError, Sequence};
use operator_arguments::{MeasuredMeaning, is_sort};
use sexpr_text::{Sexpr, copy_tree};
use smtlib_names::binders::parameters;
use smtlib_names::names::Names;
use smtlib_names::sorts::sort_of_tree;
use smtlib_names::trees::{each_is_binder, is_list, is_some_symbol, is_symbol, text_of, trees_in};
use smtlib_terms::names::{Definition, Macro};
use smtlib_terms::refused;
use smtlib_terms::word::is_reserved;
use std::alloc::Global;

/// What a tree means where nothing is bound. Refused: the first fault in the order of docs/DEFINITIONS.md; its place is 0.
#[tactic(auto, unfolding(smtlib_terms::specs::Declaring::term_read))]
pub fn read_closed_term(
    alloc: Global,
    names: &Names,
    tree: &Sexpr,
) -> Result<MeasuredMeaning, ReadError>
    ensures { Means meaning_of result (term_read names.now tree.now) }
{
    let mut scope = Scope::new(alloc);
    read_term(alloc, names, &mut scope, tree)
}

/// The formula that a tree means. Refused: the first fault in the order of docs/DEFINITIONS.md; its place is 0.
#[tactic(auto, unfolding(smtlib_terms::specs::Declaring::formula_read, smtlib_terms::specs::Declaring::term_read))]
pub fn read_formula(alloc: Global, names: &Names, tree: &Sexpr) -> Result<Formula, ReadError>
    ensures { Answers result (formula_read names.now tree.now) }
{
    match read_closed_term(alloc, names, tree)?.into_formula() {
        Some(f) => Ok(f.into_formula()),
        None => Err(refused(FaultKind::WrongSort)),
    }
}

/// What the body of a definition means, with opaque arguments: as if each parameter were a constant of its sort, numbered
/// behind the declared functions.
fn body_meaning(
    alloc: Global,
    names: &Names,
    definition: &Definition,
) -> Result<MeasuredMeaning, ReadError>
    ensures { Means meaning_of result (body_meant names.now definition.now) }
{
    let bound = definition.parameters.as_slice();
    let args = opaque_from(alloc, names.functions().len(), bound)?;
    let mut scope = Scope::new(alloc);
    scope.enter(alloc, arguments(alloc, bound, args, 0)?)?;
    read_term(alloc, names, &mut scope, &definition.body)
}

/// Whether the name and the sort of a macro let it be defined. Refused: ReservedName, Twice where a function or a macro
/// has the name, WrongSort where the body has another sort than the result.
fn may_define(names: &Names, definition: &Definition, body: Sort) -> Result<(), ReadError>
    ensures meant { Answers result (may_define names.now definition.now body) }
    ensures new { OnOk result (is_function names.now definition.now.name ≡ false) }
{
    let name = definition.name.as_slice();
    if is_reserved(name) {
        return Err(refused(FaultKind::ReservedName));
    }
    if names.is_function(name) {
        return Err(refused(FaultKind::Twice));
    }
    if !is_sort(definition.result, body) {
        return Err(refused(FaultKind::WrongSort));
    }
    Ok(())
}

/// The macro of a definition. Refused: the first fault of its body, then of its name and its sort.
fn defined_macro(alloc: Global, names: &Names, definition: Definition) -> Result<Macro, ReadError>
    ensures meant { Answers result (macro_meant names.now definition) }
    ensures new { IfOk result (λ m. is_function names.now m.name ≡ false) }
{
    let body = body_meaning(alloc, names, &definition)?;
    may_define(names, &definition, body.sort())?;
    Ok(macro_of(definition, body))
}

/// The definition of this name.
fn described(
    alloc: Global,
    names: &Names,
    name: &[u8],
    bound: &[Sexpr],
    sort: &Sexpr,
    body: &Sexpr,
) -> Result<Definition, ReadError>
    ensures { Answers result (definition_described names.now name.now bound.now sort.now body.now) }
{
    let sorts = names.sorts();
    let parameters = parameters(alloc, sorts, bound)?;
    let result_sort = sort_of_tree(sorts, sort)?;
    Ok(Definition {
        name: Sequence::from_slice(alloc, name)?,
        parameters,
        result: result_sort,
        body: copy_tree(alloc, body)?,
    })
}

/// Whether a definition begins with its word, a name and a list of parameters.
fn is_definition(head: &Sexpr, name: &Sexpr, bound: &Sexpr) -> bool
    ensures { result ≡ is_definition head.now name.now bound.now }
{
    is_symbol(head, b"define-fun")
        && is_some_symbol(name)
        && is_list(bound)
        && each_is_binder(trees_in(bound))
}

/// The definition that a tree writes, whether or not the macro may be defined.
fn definition_of_tree(alloc: Global, names: &Names, tree: &Sexpr) -> Result<Definition, ReadError>
    ensures { Answers result (definition_of names.now (trees_in tree.now)) }
{
    let [head, name, bound, sort, body] = trees_in(tree) else {
        return Err(refused(FaultKind::BadForm));
    };
    if !is_definition(head, name, bound) {
        return Err(refused(FaultKind::BadForm));
    }
    described(alloc, names, text_of(name), trees_in(bound), sort, body)
}

/// Whether what stands in a definition has a meaning. Refused: BadForm where the tree has another shape, or the first
/// fault of the parameters, the result's sort and the body. The macro's own name and sort aren't judged.
#[tactic(auto, unfolding(smtlib_terms::specs::Declaring::definition_parts))]
pub fn check_definition(alloc: Global, names: &Names, tree: &Sexpr) -> Result<(), ReadError>
    ensures { Answers result (definition_parts names.now tree.now) }
{
    let definition = definition_of_tree(alloc, names, tree)?;
    body_meaning(alloc, names, &definition)?;
    Ok(())
}

/// Defines a macro, `(define-fun f ((x S) ...) S t)`. Refused: BadForm where the tree has another shape, the first fault
/// of the parameters, the result's sort and the body, then ReservedName, Twice where a function or a macro has the name,
/// and WrongSort where the body has another sort than the result. After a refusal or want of memory the names are as
/// before.
pub fn define_macro(alloc: Global, names: &mut Names, tree: &Sexpr) -> Result<(), ReadError>
    ensures { Declares result names.old names.new (macro_defined names.old tree.now) }
{
    let definition = definition_of_tree(alloc, names, tree)?;
    let defined = defined_macro(alloc, names, definition)?;
    names.add_macro(alloc, defined)?;
    Ok(())
}
