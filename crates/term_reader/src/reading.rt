//! What trees mean, read from the leaves (SMT-LIB 2.6, section 3.6, in this project's profile and order of kinds).
//!
//! The functions call each other, so each takes how many calls may still be nested, which falls with each list and
//! each macro's body. As many as 2^64 nested calls have no room in memory.

ghost use Rattle.std.specs.Prelude.{◌≡◌, ◌+◌, ◌++◌, [], false, None, Some, length, map, Result, IfOk, MatchOption, OnOk, if◌then◌else◌};
ghost use Rattle.mbqi_values.specs.declared.fault.FaultKind.{FaultKind};
ghost use Rattle.smtlib_terms.specs.declared.meaning.Side.{Side};
ghost use Rattle.smtlib_terms.specs.Answers.{IsFault};
ghost use Rattle.smtlib_terms.specs.Applying.{alone, meaning_in_scope, name_applied};
ghost use Rattle.smtlib_terms.specs.Declaring.{arguments, body_applied, names_before, names_of, reader_of};
ghost use Rattle.smtlib_terms.specs.Meaning.{variables_of};
ghost use Rattle.smtlib_terms.specs.Operators.{two_sides};
ghost use Rattle.smtlib_terms.specs.Reading.{binder_name, body_read, first_read, list_read, meant_by, part_of, side, sides_read, trees_in, variables_of_side};
ghost use Rattle.operator_arguments.specs.Measured.{Means, meaning_of, meanings_of, side_of};
ghost use Rattle.term_reader.specs.Plans.{arguments_read, binding_among, bindings_among, is_difference, let_planned, macro_applied, only_part, operator_read, planned, quantifier_planned, second_side, truth_named, two_of};
ghost use Rattle.smtlib_terms.specs.Words.{is_one_of};
ghost use Rattle.term_reader.specs.Scopes.{binding_of, bindings_of, bound_of};

use crate::macros::{arguments, meaning_at, sorts_of};
use crate::making::{function_by_name, made, plainly, quantified, shallow};
use crate::numeral::numeral;
use crate::plan::{Plan, plan_of};
use crate::scope::{Binding, Bindings, Bound, Scope, meaning_in_scope, variable_bindings};
use array_operators::have_sorts;
use mbqi_values::{FaultKind, ReadError, Sequence};
use measured_terms::MeasuredFormula;
use name_tables::NameSet;
use operator_arguments::{Meanings, MeasuredMeaning, MeasuredSide};
use sexpr_text::Sexpr;
use smtlib_names::binders::bindable;
use smtlib_names::names::{FoundMacro, Names};
use smtlib_names::trees::{binder_name, text_of, trees_in};
use smtlib_terms::names::{Macro, MacroBody, Parameter, Variables};
use smtlib_terms::refused;
use smtlib_terms::word::Word;
use std::alloc::{AllocError, Global};
use term_operators::two_sides;

/// How many calls may be nested while a tree is read: as many as there is room for.
const LEVELS: usize = usize::MAX;

/// How many calls may be nested in a call.
fn fewer(levels: usize) -> Result<usize, AllocError>
    ensures { IfOk result (λ n. n + 1 ≡ levels) }
{
    levels.checked_sub(1).ok_or(AllocError)
}

/// The place behind so many variables. As many as 2^64 have no room in memory.
fn place_behind(next: usize, variables: usize) -> Result<usize, AllocError>
    ensures { IfOk result (λ n. n ≡ next + variables) }
{
    next.checked_add(variables).ok_or(AllocError)
}

/// How many variables count behind an argument: those of its quantifiers, where they are counted.
fn counted_variables(counted: bool, m: &MeasuredMeaning) -> usize
    ensures { result ≡ (if counted then variables_of (meaning_of m.now) else 0) }
{
    if counted { m.variables() } else { 0 }
}

/// `true` or `false`.
fn truth_named(text: &[u8]) -> Option<bool>
    ensures { result ≡ truth_named text.now }
{
    if text == b"true".as_slice() {
        Some(true)
    } else if text == b"false".as_slice() {
        Some(false)
    } else {
        None
    }
}

/// Whether a side is a difference.
fn is_difference(side: &MeasuredSide) -> bool
    ensures { result ≡ is_difference (side_of side.now) }
{
    match side {
        MeasuredSide::Meant(_) => false,
        MeasuredSide::Difference(_, _) => true,
    }
}

/// The two parts that are paired.
fn two_of(paired: bool, parts: &[Sexpr]) -> Option<(&Sexpr, &Sexpr)>
    ensures { MatchOption result (two_of paired parts.now ≡ None) (λ two. two_of paired parts.now ≡ Some (two.0.now, two.1.now)) }
{
    match parts {
        [first, second] => if paired { Some((first, second)) } else { None },
        _ => None,
    }
}

/// The fault of an atom whose second side has one. A difference before it is at fault first.
fn second_fault(behind_difference: bool, error: ReadError) -> ReadError
    ensures { (meant : Result Side FaultKind) → IsFault error meant → IsFault result (second_side behind_difference meant) }
{
    match error {
        ReadError::Memory => ReadError::Memory,
        ReadError::Refused(refusal) => {
            if behind_difference {
                refused(FaultKind::NotDifference)
            } else {
                ReadError::Refused(refusal)
            }
        }
    }
}

/// A name in scope, behind which no arguments may stand.
fn bound_alone(
    alloc: Global,
    next: usize,
    bound: &Bound,
    args: &[MeasuredMeaning],
) -> Result<MeasuredMeaning, ReadError>
    ensures { Means meaning_of result (alone (meanings_of args.now) (meaning_in_scope next (bound_of bound.now))) }
{
    match args {
        [] => Ok(meaning_in_scope(alloc, next, bound)?),
        [_, ..] => Err(refused(FaultKind::WrongCount)),
    }
}

/// The meaning of a body, which is the one part.
fn only(parts: &[Sexpr], body: MeasuredMeaning) -> Result<MeasuredMeaning, ReadError>
    ensures { Means meaning_of result (only_part (map part_of parts.now) (meaning_of body)) }
{
    match parts {
        [_] => Ok(body),
        _ => Err(refused(FaultKind::WrongCount)),
    }
}

/// The body of a macro, with its parameters bound to arguments, by the macros that it may apply.
#[cycle(reading)]
fn read_macro_tree(
    alloc: Global,
    names: &Names,
    before: usize,
    parameters: &[Parameter],
    tree: &Sexpr,
    args: Meanings,
    next: usize,
    levels: usize,
) -> Result<MeasuredMeaning, ReadError>
    ensures { Means meaning_of result (meant_by tree.now (names_before names.now before) (arguments parameters.now (meanings_of args) next) next) }
{
    let below = fewer(levels)?;
    let mut scope = Scope::new(alloc);
    scope.enter(alloc, arguments(alloc, parameters, args, next)?)?;
    read_meaning(alloc, names, before, &mut scope, tree, next, below)
}

/// A macro with its arguments, and the macros that its body may apply.
#[cycle(reading)]
fn read_macro(
    alloc: Global,
    names: &Names,
    before: usize,
    definition: &Macro,
    args: Meanings,
    next: usize,
    levels: usize,
) -> Result<MeasuredMeaning, ReadError>
    ensures { Means meaning_of result (macro_applied (reader_of (names_before names.now before) definition.now) (meanings_of args) next) }
{
    let parameters = definition.parameters.as_slice();
    let sorts = sorts_of(alloc, parameters)?;
    if args.len() != sorts.len() {
        return Err(refused(FaultKind::WrongCount));
    }
    if !have_sorts(sorts.as_slice(), args.as_slice()) {
        return Err(refused(FaultKind::WrongSort));
    }
    match &definition.body {
        MacroBody::Meaning(m) => Ok(meaning_at(alloc, next, m)?),
        MacroBody::Tree(tree) => {
            read_macro_tree(alloc, names, before, parameters, tree, args, next, levels)
        }
    }
}

/// A name with its arguments, by its innermost binding.
#[cycle(reading)]
#[tactic(auto, using(crate::proofs::ReadingLaws::name_of_function))]
fn read_name(
    alloc: Global,
    names: &Names,
    macros: usize,
    scope: &Scope,
    name: &[u8],
    next: usize,
    args: Meanings,
    levels: usize,
) -> Result<MeasuredMeaning, ReadError>
    ensures { Means meaning_of result (name_applied (names_before names.now macros) scope.now name.now next (meanings_of args)) }
{
    if let Some(bound) = scope.find(name) {
        return bound_alone(alloc, next, bound, args.as_slice());
    }
    match names.macro_named(macros, name) {
        Some(found) => {
            let FoundMacro { place, definition } = found;
            read_macro(alloc, names, place, definition, args, next, levels)
        }
        None => function_by_name(alloc, names, name, args),
    }
}

/// What a tree means where no difference may stand.
#[cycle(reading)]
fn read_meaning(
    alloc: Global,
    names: &Names,
    macros: usize,
    scope: &mut Scope,
    tree: &Sexpr,
    next: usize,
    levels: usize,
) -> Result<MeasuredMeaning, ReadError>
    ensures meant { Means meaning_of result (meant_by tree.now (names_before names.now macros) scope.old next) }
    ensures scope { OnOk result (scope.new ≡ scope.old) }
{
    let side = read_side(alloc, names, macros, scope, tree, next, levels)?;
    plainly(side)
}

/// The first part, behind which others may stand.
#[cycle(reading)]
fn read_first(
    alloc: Global,
    names: &Names,
    macros: usize,
    scope: &mut Scope,
    parts: &[Sexpr],
    next: usize,
    levels: usize,
) -> Result<MeasuredMeaning, ReadError>
    ensures meant { Means meaning_of result (first_read (map part_of parts.now) (names_before names.now macros) scope.old next) }
    ensures scope { OnOk result (scope.new ≡ scope.old) }
{
    let [first, ..] = parts else {
        return Err(refused(FaultKind::WrongCount));
    };
    read_meaning(alloc, names, macros, scope, first, next, levels)
}

/// The body behind bindings or binders, in their scope: one part, behind which nothing stands.
#[cycle(reading)]
fn read_body(
    alloc: Global,
    names: &Names,
    macros: usize,
    scope: &mut Scope,
    bindings: Bindings,
    parts: &[Sexpr],
    next: usize,
    levels: usize,
) -> Result<MeasuredMeaning, ReadError>
    ensures meant { Means meaning_of result (body_read (map part_of parts.now) (names_before names.now macros) (bindings_of bindings ++ scope.old) next) }
    ensures scope { OnOk result (scope.new ≡ scope.old) }
{
    let outside = scope.len();
    scope.enter(alloc, bindings)?;
    let body = read_first(alloc, names, macros, scope, parts, next, levels)?;
    scope.leave(outside);
    only(parts, body)
}

/// The arguments behind a head, up to the first fault. Their variables are counted one behind the other, or each
/// argument's from the same place on.
#[cycle(reading)]
fn read_arguments(
    alloc: Global,
    names: &Names,
    macros: usize,
    scope: &mut Scope,
    parts: &[Sexpr],
    counted: bool,
    next: usize,
    levels: usize,
) -> Result<Meanings, ReadError>
    ensures meant { Means meanings_of result (arguments_read counted (map part_of parts.now) (names_before names.now macros) scope.old next) }
    ensures scope { OnOk result (scope.new ≡ scope.old) }
{
    let mut next = next;
    let mut args = Sequence::new(alloc);
    for part in parts {
        let m = read_meaning(alloc, names, macros, scope, part, next, levels)?;
        let following = place_behind(next, counted_variables(counted, &m))?;
        next = following;
        args.push(m)?;
    }
    Ok(args)
}

/// The second side of an atom, behind one with so many variables.
#[cycle(reading)]
fn read_second(
    alloc: Global,
    names: &Names,
    macros: usize,
    scope: &mut Scope,
    tree: &Sexpr,
    behind_difference: bool,
    next: usize,
    variables: usize,
    levels: usize,
) -> Result<MeasuredSide, ReadError>
    ensures meant { Means side_of result (second_side behind_difference (side tree.now (names_before names.now macros) scope.old (next + variables))) }
    ensures scope { OnOk result (scope.new ≡ scope.old) }
{
    let behind = place_behind(next, variables)?;
    match read_side(alloc, names, macros, scope, tree, behind, levels) {
        Ok(right) => Ok(right),
        Err(error) => Err(second_fault(behind_difference, error)),
    }
}

/// The two sides of an atom, of which the first was read.
#[cycle(reading)]
#[tactic(auto, using(crate::proofs::ArgumentsRead::second_is))]
fn read_beside(
    alloc: Global,
    names: &Names,
    macros: usize,
    scope: &mut Scope,
    left: MeasuredSide,
    tree: &Sexpr,
    next: usize,
    levels: usize,
) -> Result<Meanings, ReadError>
    ensures meant { Means meanings_of result (two_sides (side_of left) (side tree.now (names_before names.now macros) scope.old (next + variables_of_side (side_of left)))) }
    ensures scope { OnOk result (scope.new ≡ scope.old) }
{
    let differs = is_difference(&left);
    let variables = left.variables();
    let right = read_second(
        alloc, names, macros, scope, tree, differs, next, variables, levels,
    )?;
    two_sides(alloc, left, right)
}

/// The two sides of an atom, of which one may be a difference.
#[cycle(reading)]
fn read_sides(
    alloc: Global,
    names: &Names,
    macros: usize,
    scope: &mut Scope,
    first: &Sexpr,
    second: &Sexpr,
    next: usize,
    levels: usize,
) -> Result<Meanings, ReadError>
    ensures meant { Means meanings_of result (sides_read (part_of first.now) (part_of second.now) (names_before names.now macros) scope.old next) }
    ensures scope { OnOk result (scope.new ≡ scope.old) }
{
    let left = read_side(alloc, names, macros, scope, first, next, levels)?;
    read_beside(alloc, names, macros, scope, left, second, next, levels)
}

/// The arguments of an operator. Those that are paired are the sides of an atom.
#[cycle(reading)]
#[tactic(auto, using(crate::proofs::ArgumentsRead::operand_laws))]
fn read_operands(
    alloc: Global,
    names: &Names,
    macros: usize,
    scope: &mut Scope,
    parts: &[Sexpr],
    paired: bool,
    next: usize,
    levels: usize,
) -> Result<Meanings, ReadError>
    ensures meant { Means meanings_of result (operator_read paired (map part_of parts.now) (names_before names.now macros) scope.old next) }
    ensures scope { OnOk result (scope.new ≡ scope.old) }
{
    match two_of(paired, parts) {
        Some((first, second)) => {
            read_sides(alloc, names, macros, scope, first, second, next, levels)
        }
        None => read_arguments(alloc, names, macros, scope, parts, true, next, levels),
    }
}

/// A binding of a `let`, whose name is none of those seen before it.
#[cycle(reading)]
fn read_binding(
    alloc: Global,
    names: &Names,
    macros: usize,
    scope: &mut Scope,
    tree: &Sexpr,
    seen: &NameSet,
    next: usize,
    levels: usize,
) -> Result<Binding, ReadError>
    ensures meant { Means binding_of result (binding_among (trees_in tree.now) (binder_name tree.now) (names_before names.now macros) scope.old next seen.now) }
    ensures new { IfOk result (λ b. is_one_of seen.now b.name ≡ false) }
    ensures scope { OnOk result (scope.new ≡ scope.old) }
{
    let [_, value] = trees_in(tree) else {
        return Err(refused(FaultKind::BadForm));
    };
    let m = read_meaning(alloc, names, macros, scope, value, next, levels)?;
    let name = bindable(alloc, binder_name(tree), seen)?;
    Ok(Binding {
        name,
        bound: Bound::Value(next, m),
    })
}

/// The bindings of a `let`: parallel, each value read in the scope outside.
#[cycle(reading)]
fn read_bindings(
    alloc: Global,
    names: &Names,
    macros: usize,
    scope: &mut Scope,
    trees: &[Sexpr],
    next: usize,
    levels: usize,
) -> Result<Bindings, ReadError>
    ensures meant { Means bindings_of result (bindings_among trees.now (names_before names.now macros) scope.old next []) }
    ensures scope { OnOk result (scope.new ≡ scope.old) }
{
    let mut bindings: Bindings = Sequence::new(alloc);
    let mut seen = NameSet::new(alloc);
    for tree in trees {
        let binding = read_binding(alloc, names, macros, scope, tree, &seen, next, levels)?;
        seen.insert(alloc, binding.name.as_slice())?;
        bindings.push(binding)?;
    }
    Ok(bindings)
}

/// A `let` behind its word.
#[cycle(reading)]
fn read_let(
    alloc: Global,
    names: &Names,
    macros: usize,
    scope: &mut Scope,
    parts: &[Sexpr],
    next: usize,
    levels: usize,
) -> Result<MeasuredMeaning, ReadError>
    ensures meant { Means meaning_of result (let_planned (map part_of parts.now) (names_before names.now macros) scope.old next) }
    ensures scope { OnOk result (scope.new ≡ scope.old) }
{
    let [first, body @ ..] = parts else {
        return Err(refused(FaultKind::WrongCount));
    };
    let bindings = read_bindings(alloc, names, macros, scope, trees_in(first), next, levels)?;
    read_body(alloc, names, macros, scope, bindings, body, next, levels)
}

/// A quantifier behind its word, whose variables were read.
#[cycle(reading)]
fn read_quantifier(
    alloc: Global,
    names: &Names,
    macros: usize,
    scope: &mut Scope,
    word: Word,
    variables: Variables,
    parts: &[Sexpr],
    next: usize,
    levels: usize,
) -> Result<MeasuredMeaning, ReadError>
    ensures meant { Means meaning_of result (quantifier_planned word variables (map part_of parts.now) (names_before names.now macros) scope.old next) }
    ensures scope { OnOk result (scope.new ≡ scope.old) }
{
    let [_, body @ ..] = parts else {
        return Err(refused(FaultKind::WrongCount));
    };
    let bindings = variable_bindings(alloc, variables.as_slice())?;
    let behind = place_behind(next, variables.len())?;
    let m = read_body(alloc, names, macros, scope, bindings, body, behind, levels)?;
    quantified(alloc, word, variables.as_slice(), m)
}

/// What is read by a plan, behind a head of this text.
#[cycle(reading)]
fn read_planned(
    alloc: Global,
    names: &Names,
    macros: usize,
    scope: &mut Scope,
    plan: Plan,
    text: &[u8],
    parts: &[Sexpr],
    next: usize,
    levels: usize,
) -> Result<MeasuredSide, ReadError>
    ensures meant { Means side_of result (planned plan text.now (map part_of parts.now) (names_before names.now macros) scope.old next) }
    ensures scope { OnOk result (scope.new ≡ scope.old) }
{
    let m = match plan {
        Plan::Arguments(maker) => {
            let paired = maker.is_paired();
            let args = read_operands(alloc, names, macros, scope, parts, paired, next, levels)?;
            return made(alloc, names, macros, scope, maker, args);
        }
        Plan::Call => {
            let args = read_arguments(alloc, names, macros, scope, parts, false, next, levels)?;
            read_name(alloc, names, macros, scope, text, next, args, levels)?
        }
        Plan::Let => read_let(alloc, names, macros, scope, parts, next, levels)?,
        Plan::Quantifier(word, variables) => {
            read_quantifier(
                alloc, names, macros, scope, word, variables, parts, next, levels,
            )?
        }
        Plan::First => read_first(alloc, names, macros, scope, parts, next, levels)?,
    };
    Ok(MeasuredSide::Meant(m))
}

/// What a list means.
#[cycle(reading)]
#[tactic(auto, using(crate::proofs::ReadingLaws::list_by_plan))]
fn read_list(
    alloc: Global,
    names: &Names,
    macros: usize,
    scope: &mut Scope,
    trees: &[Sexpr],
    next: usize,
    levels: usize,
) -> Result<MeasuredSide, ReadError>
    ensures meant { Means side_of result (list_read (map part_of trees.now) (names_before names.now macros) scope.old next) }
    ensures scope { OnOk result (scope.new ≡ scope.old) }
{
    let below = fewer(levels)?;
    let [head, parts @ ..] = trees else {
        return Err(refused(FaultKind::BadForm));
    };
    let plan = plan_of(alloc, names, head, parts, next)?;
    let side = read_planned(
        alloc,
        names,
        macros,
        scope,
        plan,
        text_of(head),
        parts,
        next,
        below,
    )?;
    shallow(side)
}

/// What a tree means, or its first fault.
#[cycle(reading)]
#[tactic(auto, using(crate::proofs::ReadingLaws::symbol_laws, smtlib_terms::proofs::TermTrees::term_laws))]
fn read_side(
    alloc: Global,
    names: &Names,
    macros: usize,
    scope: &mut Scope,
    tree: &Sexpr,
    next: usize,
    levels: usize,
) -> Result<MeasuredSide, ReadError>
    ensures meant { Means side_of result (side tree.now (names_before names.now macros) scope.old next) }
    ensures scope { OnOk result (scope.new ≡ scope.old) }
{
    match tree {
        Sexpr::Symbol(text) => {
            let m = match truth_named(text.as_slice()) {
                Some(truth) => MeasuredMeaning::Formula(MeasuredFormula::truth(truth)),
                None => {
                    let none = Sequence::new(alloc);
                    read_name(
                        alloc,
                        names,
                        macros,
                        scope,
                        text.as_slice(),
                        next,
                        none,
                        levels,
                    )?
                }
            };
            Ok(MeasuredSide::Meant(m))
        }
        Sexpr::Numeral(digits) => Ok(MeasuredSide::Meant(numeral(digits.as_slice())?)),
        Sexpr::List(trees) => read_list(
            alloc,
            names,
            macros,
            scope,
            trees.as_slice(),
            next,
            levels,
        ),
        Sexpr::Keyword(_) => Err(refused(FaultKind::BadForm)),
        Sexpr::Decimal(_) | Sexpr::Hex(_) | Sexpr::Binary(_) | Sexpr::Str(_) => {
            Err(refused(FaultKind::Unsupported))
        }
    }
}

/// What a whole term means by all names and by what is in scope, its variables counted from 0. It is no difference.
#[tactic(auto, using(crate::proofs::Ends::all_macros))]
pub fn read_term(
    alloc: Global,
    names: &Names,
    scope: &mut Scope,
    tree: &Sexpr,
) -> Result<MeasuredMeaning, ReadError>
    ensures meant { Means meaning_of result (meant_by tree.now (names_of names.now) scope.old 0) }
    ensures scope { OnOk result (scope.new ≡ scope.old) }
{
    let macros = names.macro_count();
    read_meaning(alloc, names, macros, scope, tree, 0, LEVELS)
}
