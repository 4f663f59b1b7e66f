//! Equality of trees, of lists and of texts. Each answer is exactly whether the two are one value.

ghost use Rattle.std.specs.Prelude.{◌≡◌, ◌↔◌, IsTrue};

use crate::formula::Formula;
use crate::sort::{Binder, Sort};
use crate::term::{ArrayTerm, Symbol, Term};
use mbqi_values::Text;

/// Whether two texts are equal.
pub fn same_text(a: &Text, b: &Text) -> bool
    ensures { IsTrue result ↔ (a.now ≡ b.now) }
{
    a.as_slice() == b.as_slice()
}

/// Whether two lists of sorts are equal.
pub fn same_sorts(a: &[Sort], b: &[Sort]) -> bool
    ensures { IsTrue result ↔ (a.now ≡ b.now) }
{
    if a.len() != b.len() {
        return false;
    }
    for i in 0..a.len() {
        if a[i] != b[i] {
            return false;
        }
    }
    true
}

/// Whether two lists of binders are equal.
pub fn same_binders(a: &[Binder], b: &[Binder]) -> bool
    ensures { IsTrue result ↔ (a.now ≡ b.now) }
{
    if a.len() != b.len() {
        return false;
    }
    for i in 0..a.len() {
        if a[i] != b[i] {
            return false;
        }
    }
    true
}

/// Whether two lists of terms are equal.
#[cycle(same)]
pub fn same_terms(a: &[Term], b: &[Term]) -> bool
    ensures { IsTrue result ↔ (a.now ≡ b.now) }
{
    if a.len() != b.len() {
        return false;
    }
    for i in 0..a.len() {
        if !same_term(&a[i], &b[i]) {
            return false;
        }
    }
    true
}

/// Whether two lists of array terms are equal.
#[cycle(same)]
pub fn same_array_terms(a: &[ArrayTerm], b: &[ArrayTerm]) -> bool
    ensures { IsTrue result ↔ (a.now ≡ b.now) }
{
    if a.len() != b.len() {
        return false;
    }
    for i in 0..a.len() {
        if !same_array(&a[i], &b[i]) {
            return false;
        }
    }
    true
}

/// Whether two symbols are equal.
#[cycle(same)]
pub fn same_symbol(a: &Symbol, b: &Symbol) -> bool
    ensures { IsTrue result ↔ (a.now ≡ b.now) }
{
    match (a, b) {
        (Symbol::Declared(f), Symbol::Declared(g)) => *f == *g,
        (Symbol::Skolem(m, p), Symbol::Skolem(n, q)) => *m == *n && *p == *q,
        (Symbol::Seed(s), Symbol::Seed(t)) => *s == *t,
        (Symbol::Far, Symbol::Far) => true,
        (Symbol::Diff(a, b), Symbol::Diff(c, d)) => {
            same_array(a.get(), c.get()) && same_array(b.get(), d.get())
        }
        _ => false,
    }
}

/// Whether two terms are equal.
#[cycle(same)]
pub fn same_term(a: &Term, b: &Term) -> bool
    ensures { IsTrue result ↔ (a.now ≡ b.now) }
{
    match (a, b) {
        (Term::Num(m), Term::Num(n)) => *m == *n,
        (Term::Plus(t, m), Term::Plus(u, n)) => *m == *n && same_term(t.get(), u.get()),
        (Term::Var(p), Term::Var(q)) => *p == *q,
        (Term::Truth(p), Term::Truth(q)) => *p == *q,
        (Term::Apply(f, ts), Term::Apply(g, us)) => {
            same_symbol(f, g) && same_terms(ts.as_slice(), us.as_slice())
        }
        (Term::Read(a, i), Term::Read(b, j)) => {
            same_array(a.get(), b.get()) && same_term(i.get(), j.get())
        }
        (Term::Default(a), Term::Default(b)) => same_array(a.get(), b.get()),
        _ => false,
    }
}

/// Whether two array terms are equal.
#[cycle(same)]
pub fn same_array(a: &ArrayTerm, b: &ArrayTerm) -> bool
    ensures { IsTrue result ↔ (a.now ≡ b.now) }
{
    match (a, b) {
        (ArrayTerm::Name(f), ArrayTerm::Name(g)) => *f == *g,
        (ArrayTerm::Store(a, i, v), ArrayTerm::Store(b, j, w)) => {
            same_array(a.get(), b.get())
                && same_term(i.get(), j.get())
                && same_term(v.get(), w.get())
        }
        (ArrayTerm::Const(s, v), ArrayTerm::Const(t, w)) => *s == *t && same_term(v.get(), w.get()),
        (ArrayTerm::Map(f, xs), ArrayTerm::Map(g, ys)) => {
            *f == *g && same_array_terms(xs.as_slice(), ys.as_slice())
        }
        _ => false,
    }
}

/// Whether two lists of formulas are equal.
#[cycle(same_formula)]
pub fn same_formulas(a: &[Formula], b: &[Formula]) -> bool
    ensures { IsTrue result ↔ (a.now ≡ b.now) }
{
    if a.len() != b.len() {
        return false;
    }
    for i in 0..a.len() {
        if !same_formula(&a[i], &b[i]) {
            return false;
        }
    }
    true
}

/// Whether two formulas are equal.
#[cycle(same_formula)]
pub fn same_formula(a: &Formula, b: &Formula) -> bool
    ensures { IsTrue result ↔ (a.now ≡ b.now) }
{
    match (a, b) {
        (Formula::Truth(p), Formula::Truth(q)) => *p == *q,
        (Formula::Atom(t), Formula::Atom(u)) => same_term(t, u),
        (Formula::Equal(s, t), Formula::Equal(u, v)) => same_term(s, u) && same_term(t, v),
        (Formula::AtMost(s, t), Formula::AtMost(u, v)) => same_term(s, u) && same_term(t, v),
        (Formula::SameArray(a, b), Formula::SameArray(c, d)) => same_array(a, c)
            && same_array(b, d),
        (Formula::Not(f), Formula::Not(g)) => same_formula(f.get(), g.get()),
        (Formula::All(fs), Formula::All(gs)) => same_formulas(fs.as_slice(), gs.as_slice()),
        (Formula::Any(fs), Formula::Any(gs)) => same_formulas(fs.as_slice(), gs.as_slice()),
        (Formula::Iff(f, g), Formula::Iff(h, k)) => {
            same_formula(f.get(), h.get()) && same_formula(g.get(), k.get())
        }
        (Formula::Choose(c, f, g), Formula::Choose(d, h, k)) => {
            same_formula(c.get(), d.get())
                && same_formula(f.get(), h.get())
                && same_formula(g.get(), k.get())
        }
        (Formula::Forall(bs, f), Formula::Forall(cs, g)) => {
            same_binders(bs.as_slice(), cs.as_slice()) && same_formula(f.get(), g.get())
        }
        (Formula::Exists(bs, f), Formula::Exists(cs, g)) => {
            same_binders(bs.as_slice(), cs.as_slice()) && same_formula(f.get(), g.get())
        }
        _ => false,
    }
}
