//! Terms and array terms.

ghost use Rattle.std.specs.Prelude.{◌≡◌, ◌&&◌, [], ◌∷◌, ◌++◌, map, codes, decimal, OnOk, OnErr};
ghost use Rattle.std.specs.Io.{StartsWith};
ghost use Rattle.smtlib_printer.specs.Text.{array_text_with, is_nothing, spaced, spaced_rest, symbol_text_with, term_text_with, terms_text_with};

use crate::names::{write_function_name, write_sort_name, write_variable};
use crate::sorts::{write_map_op, write_number, write_sort, write_truth};
use itoa::Buffer;
use mbqi_terms::{ArrayTerm, Script, Symbol, Term};
use std::alloc::AllocError;

/// Appends the text of a term, where variables have so many question marks.
#[cycle(write)]
pub fn write_term_with(
    script: &Script,
    marks: usize,
    term: &Term,
    into: &mut Vec<u8>,
) -> Result<(), AllocError>
    ensures ok { OnOk result (into.new.items ≡ into.old.items ++ term_text_with script.now marks term.now) }
    ensures err { OnErr result (StartsWith into.new.items into.old.items) }
{
    match term {
        Term::Num(n) => write_number(*n, into),
        #[tactic(auto, using(crate::proofs::TermTexts::plus_text, crate::proofs::Fronts::behind))]
        Term::Plus(t, n) => {
            into.extend_from_slice(b"(+ ")?;
            write_term_with(script, marks, t.get(), into)?;
            into.extend_from_slice(b" ")?;
            write_number(*n, into)?;
            into.extend_from_slice(b")")
        }
        Term::Var(place) => write_variable(marks, *place, into),
        Term::Truth(truth) => write_truth(*truth, into),
        #[tactic(auto, using(crate::proofs::TermTexts::alone_text, crate::proofs::TermTexts::apply_text, crate::proofs::Fronts::behind))]
        Term::Apply(symbol, args) => {
            if stands_alone(script, marks, symbol, args.as_slice()) {
                return write_symbol(script, marks, symbol, into);
            }
            into.extend_from_slice(b"(")?;
            write_symbol(script, marks, symbol, into)?;
            write_more_terms(script, marks, args.as_slice(), into)?;
            into.extend_from_slice(b")")
        }
        #[tactic(auto, using(crate::proofs::TermTexts::read_text, crate::proofs::Fronts::behind))]
        Term::Read(a, i) => {
            into.extend_from_slice(b"(select ")?;
            write_array_with(script, marks, a.get(), into)?;
            into.extend_from_slice(b" ")?;
            write_term_with(script, marks, i.get(), into)?;
            into.extend_from_slice(b")")
        }
        #[tactic(auto, using(crate::proofs::TermTexts::default_text, crate::proofs::Fronts::behind))]
        Term::Default(a) => {
            into.extend_from_slice(b"(default ")?;
            write_array_with(script, marks, a.get(), into)?;
            into.extend_from_slice(b")")
        }
    }
}

/// Whether neither the symbol has arguments of its own nor the term has any.
fn stands_alone(script: &Script, marks: usize, symbol: &Symbol, args: &[Term]) -> bool
    ensures { result ≡ (is_nothing (symbol_text_with script.now marks symbol.now).own && is_nothing args.now) }
{
    is_word(script, marks, symbol) && args.is_empty()
}

/// Whether the symbol is a word without arguments of its own.
fn is_word(_script: &Script, _marks: usize, symbol: &Symbol) -> bool
    ensures { result ≡ is_nothing (symbol_text_with _script.now _marks symbol.now).own }
{
    match symbol {
        Symbol::Declared(_) => true,
        Symbol::Skolem(_, _) => false,
        Symbol::Seed(_) => false,
        Symbol::Far => true,
        Symbol::Diff(_, _) => false,
    }
}

/// Appends the word of a symbol with the arguments of its own.
#[cycle(write)]
#[tactic(auto, using(crate::proofs::Fronts::behind))]
fn write_symbol(
    script: &Script,
    marks: usize,
    symbol: &Symbol,
    into: &mut Vec<u8>,
) -> Result<(), AllocError>
    ensures ok { let text = symbol_text_with script.now marks symbol.now in
        OnOk result (into.new.items ≡ into.old.items ++ spaced (text.word ∷ text.own)) }
    ensures err { OnErr result (StartsWith into.new.items into.old.items) }
{
    match symbol {
        Symbol::Declared(function) => write_function_name(script, *function, into),
        Symbol::Skolem(assertion, place) => write_skolem(*assertion, *place, into),
        Symbol::Seed(sort) => {
            into.extend_from_slice(b"@seed ")?;
            write_sort_name(script, *sort, into)
        }
        Symbol::Far => into.extend_from_slice(b"@far"),
        Symbol::Diff(a, b) => {
            into.extend_from_slice(b"@diff ")?;
            write_array_with(script, marks, a.get(), into)?;
            into.extend_from_slice(b" ")?;
            write_array_with(script, marks, b.get(), into)
        }
    }
}

fn write_skolem(assertion: usize, place: usize, into: &mut Vec<u8>) -> Result<(), AllocError>
    ensures ok { OnOk result (into.new.items ≡ into.old.items ++ spaced (codes "@sk" ∷ decimal assertion ∷ decimal place ∷ [])) }
    ensures err { OnErr result (StartsWith into.new.items into.old.items) }
{
    into.extend_from_slice(b"@sk ")?;
    into.extend_from_slice(Buffer::new().format(assertion).as_bytes())?;
    into.extend_from_slice(b" ")?;
    into.extend_from_slice(Buffer::new().format(place).as_bytes())
}

/// Appends a list of terms in brackets, where variables have so many question marks.
pub fn write_terms_with(
    script: &Script,
    marks: usize,
    terms: &[Term],
    into: &mut Vec<u8>,
) -> Result<(), AllocError>
    ensures ok { OnOk result (into.new.items ≡ into.old.items ++ terms_text_with script.now marks terms.now) }
    ensures err { OnErr result (StartsWith into.new.items into.old.items) }
{
    into.extend_from_slice(b"(")?;
    if let [first, rest @ ..] = terms {
        write_term_with(script, marks, first, into)?;
        write_more_terms(script, marks, rest, into)?;
    }
    into.extend_from_slice(b")")
}

/// Appends terms, each behind a blank.
#[cycle(write)]
#[tactic(auto, using(crate::proofs::Fronts::behind))]
fn write_more_terms(
    script: &Script,
    marks: usize,
    terms: &[Term],
    into: &mut Vec<u8>,
) -> Result<(), AllocError>
    ensures ok { OnOk result (into.new.items ≡ into.old.items ++ spaced_rest (map (term_text_with script.now marks) terms.now)) }
    ensures err { OnErr result (StartsWith into.new.items into.old.items) }
{
    for t in terms {
        into.extend_from_slice(b" ")?;
        write_term_with(script, marks, t, into)?;
    }
    Ok(())
}

/// Appends the text of an array term, where variables have so many question marks.
#[cycle(write)]
pub fn write_array_with(
    script: &Script,
    marks: usize,
    array: &ArrayTerm,
    into: &mut Vec<u8>,
) -> Result<(), AllocError>
    ensures ok { OnOk result (into.new.items ≡ into.old.items ++ array_text_with script.now marks array.now) }
    ensures err { OnErr result (StartsWith into.new.items into.old.items) }
{
    match array {
        ArrayTerm::Name(function) => write_function_name(script, *function, into),
        #[tactic(auto, using(crate::proofs::TermTexts::store_text, crate::proofs::Fronts::behind))]
        ArrayTerm::Store(a, i, v) => {
            into.extend_from_slice(b"(store ")?;
            write_array_with(script, marks, a.get(), into)?;
            into.extend_from_slice(b" ")?;
            write_term_with(script, marks, i.get(), into)?;
            into.extend_from_slice(b" ")?;
            write_term_with(script, marks, v.get(), into)?;
            into.extend_from_slice(b")")
        }
        #[tactic(auto, using(crate::proofs::TermTexts::const_text, crate::proofs::Fronts::behind))]
        ArrayTerm::Const(sort, v) => {
            into.extend_from_slice(b"((as const ")?;
            write_sort(script, *sort, into)?;
            into.extend_from_slice(b") ")?;
            write_term_with(script, marks, v.get(), into)?;
            into.extend_from_slice(b")")
        }
        #[tactic(auto, using(crate::proofs::TermTexts::map_is_text, crate::proofs::Fronts::behind))]
        ArrayTerm::Map(op, arrays) => {
            into.extend_from_slice(b"((_ map ")?;
            write_map_op(script, *op, into)?;
            into.extend_from_slice(b")")?;
            write_more_arrays(script, marks, arrays.as_slice(), into)?;
            into.extend_from_slice(b")")
        }
    }
}

/// Appends array terms, each behind a blank.
#[cycle(write)]
#[tactic(auto, using(crate::proofs::Fronts::behind))]
fn write_more_arrays(
    script: &Script,
    marks: usize,
    arrays: &[ArrayTerm],
    into: &mut Vec<u8>,
) -> Result<(), AllocError>
    ensures ok { OnOk result (into.new.items ≡ into.old.items ++ spaced_rest (map (array_text_with script.now marks) arrays.now)) }
    ensures err { OnErr result (StartsWith into.new.items into.old.items) }
{
    for a in arrays {
        into.extend_from_slice(b" ")?;
        write_array_with(script, marks, a, into)?;
    }
    Ok(())
}
