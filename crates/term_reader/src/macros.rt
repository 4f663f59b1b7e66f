//! The arguments and the bodies of macros.

ghost use Rattle.std.specs.Prelude.{◌≡◌, ◌+◌, IfOk};
ghost use Rattle.smtlib_terms.specs.Declaring.{arguments, kept_body, macro_of, opaque_from, sorts_of};
ghost use Rattle.smtlib_terms.specs.Meaning.{shifted};
ghost use Rattle.operator_arguments.specs.Measured.{meaning_of, meanings_of};
ghost use Rattle.term_reader.specs.Scopes.{bindings_of};

use crate::scope::{Binding, Bindings, Bound};
use array_operators::application;
use mbqi_terms::{Sorts, copy_text};
use mbqi_values::Sequence;
use measured_terms::MeasuredTerms;
use moved_terms::{Shift, measured_array, measured_term, moved_formula};
use operator_arguments::{Meanings, MeasuredMeaning, Queue};
use sexpr_text::Sexpr;
use smtlib_terms::meaning::Meaning;
use smtlib_terms::names::{Definition, Macro, MacroBody, Parameter};
use std::alloc::{AllocError, Global};

/// The sorts of parameters.
#[tactic(auto, using(std::proofs::lemmas::Grind::common_steps))]
pub fn sorts_of(alloc: Global, parameters: &[Parameter]) -> Result<Sorts, AllocError>
    ensures { IfOk result (λ sorts. sorts ≡ sorts_of parameters.now) }
{
    let mut sorts = Sequence::new(alloc);
    for parameter in parameters {
        sorts.push(parameter.sort)?;
    }
    Ok(sorts)
}

/// The arguments of a macro under the names of its parameters.
#[tactic(auto, using(std::proofs::lemmas::Grind::common_steps, crate::proofs::Ends::argument_laws))]
pub fn arguments(
    alloc: Global,
    parameters: &[Parameter],
    args: Meanings,
    next: usize,
) -> Result<Bindings, AllocError>
    ensures { IfOk result (λ bs. bindings_of bs ≡ arguments parameters.now (meanings_of args) next) }
{
    let mut args = Queue::new(args);
    let mut bindings = Sequence::new(alloc);
    for parameter in parameters {
        let Some(m) = args.next() else {
            return Ok(bindings);
        };
        bindings.push(Binding {
            name: copy_text(alloc, &parameter.name)?,
            bound: Bound::Value(next, m),
        })?;
    }
    Ok(bindings)
}

/// The number behind a number. As many as 2^64 functions have no room in memory.
fn number_behind(number: usize) -> Result<usize, AllocError>
    ensures { IfOk result (λ n. n ≡ number + 1) }
{
    number.checked_add(1).ok_or(AllocError)
}

/// Opaque arguments for parameters: constants of their sorts, numbered from `first` on.
#[tactic(auto, using(std::proofs::lemmas::Grind::common_steps))]
pub fn opaque_from(
    alloc: Global,
    first: usize,
    parameters: &[Parameter],
) -> Result<Meanings, AllocError>
    ensures { IfOk result (λ args. meanings_of args ≡ opaque_from first parameters.now) }
{
    let mut args = Sequence::new(alloc);
    let mut number = first;
    for parameter in parameters {
        args.push(application(number, MeasuredTerms::new(alloc), parameter.sort)?)?;
        let following = number_behind(number)?;
        number = following;
    }
    Ok(args)
}

/// What is kept of the body of a macro that means this: its meaning, unless there are parameters.
fn kept_body(parameters: &[Parameter], tree: Sexpr, meaning: MeasuredMeaning) -> MacroBody
    ensures { result ≡ kept_body parameters.now tree (meaning_of meaning) }
{
    match parameters {
        [] => MacroBody::Meaning(meaning.into_plain()),
        [_, ..] => MacroBody::Tree(tree),
    }
}

/// The macro of a definition whose body means this.
pub fn macro_of(definition: Definition, meaning: MeasuredMeaning) -> Macro
    ensures { result ≡ macro_of definition (meaning_of meaning) }
{
    let Definition {
        name,
        parameters,
        body,
        ..
    } = definition;
    let body = kept_body(parameters.as_slice(), body, meaning);
    Macro {
        name,
        parameters,
        body,
    }
}

/// What the body of a macro without parameters means where `next` is the next place of a variable.
pub fn meaning_at(
    alloc: Global,
    next: usize,
    meaning: &Meaning,
) -> Result<MeasuredMeaning, AllocError>
    ensures { IfOk result (λ m. meaning_of m ≡ shifted 0 next meaning.now) }
{
    match meaning {
        Meaning::Formula(f) => {
            let shift = Shift { from: 0, by: next };
            Ok(MeasuredMeaning::Formula(moved_formula(alloc, shift, f)?))
        }
        Meaning::Term(sort, t) => Ok(MeasuredMeaning::Term(*sort, measured_term(alloc, t)?)),
        Meaning::Array(index, element, a) => Ok(MeasuredMeaning::Array(
            *index,
            *element,
            measured_array(alloc, a)?,
        )),
    }
}
