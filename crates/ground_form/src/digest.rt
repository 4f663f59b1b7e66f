//! Digests of trees, by which equal formulas are found.

ghost use Rattle.std.specs.Prelude.{◌≡◌, map};
ghost use Rattle.ground_form.specs.Digests.{array_digest, digest_of, low_bits, mixed, mixed_all, symbol_digest, term_digest};

use mbqi_terms::{ArrayTerm, Formula, Symbol, Term};

// The multiplier of Fowler, Noll and Vo.
const MULTIPLIER: u64 = 1_099_511_628_211;

/// The digest of a formula.
#[cycle(formula)]
pub(crate) fn digest_of(f: &Formula) -> u64
    ensures { result ≡ digest_of f.now }
{
    match f {
        Formula::Truth(truth) => if *truth { 18 } else { 19 },
        Formula::Atom(t) => mixed(20, term_digest(t)),
        Formula::Equal(s, t) => mixed(mixed(21, term_digest(s)), term_digest(t)),
        Formula::AtMost(s, t) => mixed(mixed(22, term_digest(s)), term_digest(t)),
        Formula::SameArray(a, b) => mixed(mixed(23, array_digest(a)), array_digest(b)),
        Formula::Not(part) => mixed(24, digest_of(part.get())),
        Formula::All(parts) => formulas_digest(25, parts.as_slice()),
        Formula::Any(parts) => formulas_digest(26, parts.as_slice()),
        Formula::Iff(left, right) => {
            mixed(mixed(27, digest_of(left.get())), digest_of(right.get()))
        }
        Formula::Choose(condition, yes, no) => {
            let branches = mixed(mixed(28, digest_of(condition.get())), digest_of(yes.get()));
            mixed(branches, digest_of(no.get()))
        }
        Formula::Forall(_, body) => mixed(29, digest_of(body.get())),
        Formula::Exists(_, body) => mixed(30, digest_of(body.get())),
    }
}

// A digest with those of formulas in it.
#[cycle(formula)]
fn formulas_digest(start: u64, parts: &[Formula]) -> u64
    ensures { result ≡ mixed_all start (map digest_of parts.now) }
{
    let mut digest = start;
    for part in parts {
        digest = mixed(digest, digest_of(part));
    }
    digest
}

#[cycle(term)]
fn term_digest(t: &Term) -> u64
    ensures { result ≡ term_digest t.now }
{
    match t {
        Term::Num(number) => mixed(10, low_bits(*number)),
        Term::Plus(base, number) => mixed(mixed(11, term_digest(base.get())), low_bits(*number)),
        Term::Var(place) => mixed(12, *place as u64),
        Term::Truth(truth) => if *truth { 13 } else { 14 },
        Term::Apply(symbol, args) => terms_digest(
            mixed(15, symbol_digest(symbol)),
            args.as_slice(),
        ),
        Term::Read(array, index) => {
            mixed(
                mixed(16, array_digest(array.get())),
                term_digest(index.get()),
            )
        }
        Term::Default(array) => mixed(17, array_digest(array.get())),
    }
}

// A digest with those of terms in it.
#[cycle(term)]
fn terms_digest(start: u64, terms: &[Term]) -> u64
    ensures { result ≡ mixed_all start (map term_digest terms.now) }
{
    let mut digest = start;
    for term in terms {
        digest = mixed(digest, term_digest(term));
    }
    digest
}

#[cycle(term)]
fn symbol_digest(symbol: &Symbol) -> u64
    ensures { result ≡ symbol_digest symbol.now }
{
    match symbol {
        Symbol::Declared(function) => mixed(5, *function as u64),
        Symbol::Skolem(assertion, place) => { mixed(mixed(6, *assertion as u64), *place as u64) }
        Symbol::Seed(sort) => mixed(7, *sort as u64),
        Symbol::Far => 8,
        Symbol::Diff(left, right) => {
            mixed(
                mixed(9, array_digest(left.get())),
                array_digest(right.get()),
            )
        }
    }
}

#[cycle(term)]
fn array_digest(array: &ArrayTerm) -> u64
    ensures { result ≡ array_digest array.now }
{
    match array {
        ArrayTerm::Name(function) => mixed(1, *function as u64),
        ArrayTerm::Store(changed, index, value) => {
            let place = mixed(
                mixed(2, array_digest(changed.get())),
                term_digest(index.get()),
            );
            mixed(place, term_digest(value.get()))
        }
        ArrayTerm::Const(_, value) => mixed(3, term_digest(value.get())),
        ArrayTerm::Map(_, parts) => arrays_digest(4, parts.as_slice()),
    }
}

// A digest with those of array terms in it.
#[cycle(term)]
fn arrays_digest(start: u64, arrays: &[ArrayTerm]) -> u64
    ensures { result ≡ mixed_all start (map array_digest arrays.now) }
{
    let mut digest = start;
    for array in arrays {
        digest = mixed(digest, array_digest(array));
    }
    digest
}

// A digest with one more number in it.
fn mixed(digest: u64, part: u64) -> u64
    ensures { result ≡ mixed digest part }
{
    digest.wrapping_mul(MULTIPLIER).wrapping_add(part)
}

// The low bits of a number's distance from 0.
fn low_bits(number: i128) -> u64
    ensures { result ≡ low_bits number }
{
    (number.unsigned_abs() % 0x1_0000_0000_0000_0000) as u64
}
