//! How a list is read behind its head.

ghost use Rattle.std.specs.Prelude.{◌≡◌};
ghost use Rattle.smtlib_terms.specs.Answers.{Answers};
ghost use Rattle.smtlib_terms.specs.Reading.{head_of, quantifier_binders};
ghost use Rattle.term_reader.specs.Plans.{call_plan, headed_plan, is_paired, let_plan, map_maker, named_plan, qualified_maker, quantifier_plan};
ghost use Rattle.smtlib_terms.specs.Operators.{is_relation};

use mbqi_terms::Sort;
use mbqi_values::{FaultKind, ReadError, Sequence, Text};
use sexpr_text::Sexpr;
use smtlib_names::binders::variables;
use smtlib_names::names::Names;
use smtlib_names::sorts::sort_of_tree;
use smtlib_names::trees::{are_binders, is_some_symbol, is_symbol, text_of, trees_in};
use smtlib_terms::names::Variables;
use smtlib_terms::refused;
use smtlib_terms::word::{Word, word_of};
use std::alloc::Global;

/// What comes of arguments.
#[derive(Drop)]
pub enum Maker {
    /// What a word makes of them.
    Operator(Word),
    /// One argument less others, or a negated numeral.
    Difference,
    /// The array of this sort with one value everywhere.
    Constant(Sort),
    /// A pointwise map of the function of this name.
    Map(Text),
}

/// What is read behind the head of a list.
#[derive(Drop)]
pub enum Plan {
    /// Arguments, of which something is made.
    Arguments(Maker),
    /// The arguments of a name.
    Call,
    /// The values of bindings, and then a body in their scope.
    Let,
    /// A body in the scope of the variables of a quantifier.
    Quantifier(Word, Variables),
    /// A term whose attributes are passed over.
    First,
}

/// Whether a word is a relation, whose two sides may be a difference and a numeral.
fn is_relation(word: Word) -> bool
    ensures { result ≡ is_relation word }
{
    match word {
        Word::Equal | Word::Distinct | Word::AtMost | Word::Below | Word::AtLeast | Word::Above =>
            true,
        Word::Not
        | Word::And
        | Word::Or
        | Word::Implies
        | Word::Xor
        | Word::Choose
        | Word::Plus
        | Word::Minus
        | Word::Select
        | Word::Store
        | Word::Default
        | Word::Let
        | Word::Forall
        | Word::Exists
        | Word::Annotated
        | Word::Arithmetic
        | Word::Unread
        | Word::Name => false,
    }
}

impl Maker {
    /// Whether two arguments are the sides of an atom.
    pub fn is_paired(&self) -> bool
        ensures { result ≡ is_paired self.now }
    {
        match self {
            Maker::Operator(word) => is_relation(*word),
            Maker::Difference | Maker::Constant(_) | Maker::Map(_) => false,
        }
    }
}

/// The plan of a `let`.
fn let_plan(parts: &[Sexpr]) -> Result<Plan, ReadError>
    ensures { Answers result (let_plan parts.now) }
{
    let [first, ..] = parts else {
        return Err(refused(FaultKind::WrongCount));
    };
    if are_binders(trees_in(first)) {
        Ok(Plan::Let)
    } else {
        Err(refused(FaultKind::BadForm))
    }
}

/// The variables of a quantifier, with places from `next` on.
fn quantifier_binders(
    alloc: Global,
    names: &Names,
    first: &Sexpr,
    next: usize,
) -> Result<Variables, ReadError>
    ensures { Answers result (quantifier_binders first.now names.now.sorts next) }
{
    let trees = trees_in(first);
    if !are_binders(trees) {
        return Err(refused(FaultKind::BadForm));
    }
    variables(alloc, names.sorts(), trees, next)
}

/// The plan of a quantifier.
fn quantifier_plan(
    alloc: Global,
    names: &Names,
    word: Word,
    parts: &[Sexpr],
    next: usize,
) -> Result<Plan, ReadError>
    ensures { Answers result (quantifier_plan word parts.now names.now.sorts next) }
{
    let [first, ..] = parts else {
        return Err(refused(FaultKind::WrongCount));
    };
    let bound = quantifier_binders(alloc, names, first, next)?;
    Ok(Plan::Quantifier(word, bound))
}

/// The plan of a name with arguments.
fn call_plan(parts: &[Sexpr]) -> Result<Plan, ReadError>
    ensures { Answers result (call_plan parts.now) }
{
    match parts {
        [] => Err(refused(FaultKind::BadForm)),
        [_, ..] => Ok(Plan::Call),
    }
}

/// The plan of a list whose head is a word.
fn named_plan(
    alloc: Global,
    names: &Names,
    word: Word,
    parts: &[Sexpr],
    next: usize,
) -> Result<Plan, ReadError>
    ensures { Answers result (named_plan word parts.now names.now.sorts next) }
{
    match word {
        Word::Let => let_plan(parts),
        Word::Forall => quantifier_plan(alloc, names, Word::Forall, parts, next),
        Word::Exists => quantifier_plan(alloc, names, Word::Exists, parts, next),
        Word::Annotated => Ok(Plan::First),
        Word::Unread => Err(refused(FaultKind::Unsupported)),
        Word::Minus => Ok(Plan::Arguments(Maker::Difference)),
        Word::Name => call_plan(parts),
        Word::Not
        | Word::And
        | Word::Or
        | Word::Implies
        | Word::Xor
        | Word::Equal
        | Word::Distinct
        | Word::Choose
        | Word::AtMost
        | Word::Below
        | Word::AtLeast
        | Word::Above
        | Word::Plus
        | Word::Select
        | Word::Store
        | Word::Default
        | Word::Arithmetic => Ok(Plan::Arguments(Maker::Operator(word))),
    }
}

/// What comes of arguments behind `(_ map f)`.
fn map_maker(alloc: Global, function: &Sexpr) -> Result<Maker, ReadError>
    ensures { Answers result (map_maker function.now) }
{
    if !is_some_symbol(function) {
        return Err(refused(FaultKind::BadForm));
    }
    Ok(Maker::Map(Sequence::from_slice(alloc, text_of(function))?))
}

/// What comes of arguments behind `(as const S)` or `(_ map f)`.
fn qualified_maker(alloc: Global, names: &Names, head: &[Sexpr]) -> Result<Maker, ReadError>
    ensures { Answers result (qualified_maker head.now names.now.sorts) }
{
    let [first, second, third] = head else {
        return Err(refused(FaultKind::BadForm));
    };
    if is_symbol(first, b"as") && is_symbol(second, b"const") {
        return Ok(Maker::Constant(sort_of_tree(names.sorts(), third)?));
    }
    if is_symbol(first, b"_") && is_symbol(second, b"map") {
        return map_maker(alloc, third);
    }
    Err(refused(FaultKind::BadForm))
}

/// The plan of a list. Refused: the first fault of its head and of the binders behind it; of its shape, BadForm,
/// Unsupported or, where nothing stands behind `let` or a quantifier, WrongCount.
#[tactic(auto, using(crate::proofs::PlanLaws::head_laws))]
pub fn plan_of(
    alloc: Global,
    names: &Names,
    head: &Sexpr,
    parts: &[Sexpr],
    next: usize,
) -> Result<Plan, ReadError>
    ensures { Answers result (headed_plan (head_of head.now) parts.now names.now.sorts next) }
{
    if is_some_symbol(head) {
        return named_plan(alloc, names, word_of(text_of(head)), parts, next);
    }
    let maker = qualified_maker(alloc, names, trees_in(head))?;
    Ok(Plan::Arguments(maker))
}
