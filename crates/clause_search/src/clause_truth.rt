//! What the trail says of a clause. By atom there is its truth, or none while it is free.

ghost use Rattle.std.specs.Prelude.{◌≡◌, ◌<◌, All, None, true, false, length, count_by, find, Contains, IfSome, IfNone};
ghost use Rattle.std.specs.List.{list_all};
ghost use Rattle.clause_search.specs.ClauseTruth.{AgreesOn};
ghost use Rattle.clause_search.specs.Truths.{lit_on, is_free, true_on};

use mbqi_values::{Lit, Lits};

/// What the trail says of a clause.
#[derive(Clone, Copy, Debug)]
pub(crate) enum ClauseTruth {
    /// A literal is true.
    True,
    /// Each literal is false.
    False,
    /// Each literal is false but this one, which is free.
    Implied(Lit),
    /// No literal is true, and more than one is free.
    Open,
}

// The literal's truth.
fn truth(truths: &[Option<bool>], lit: Lit) -> Option<bool>
    ensures { result ≡ lit_on truths.now lit }
{
    if lit.atom >= truths.len() {
        return None;
    }
    truths[lit.atom].map(|truth| if lit.yes { truth } else { !truth })
}

/// Whether the literal's atom is free.
pub(crate) fn is_free_lit(truths: &[Option<bool>], lit: Lit) -> bool
    ensures { result ≡ is_free (lit_on truths.now lit) }
{
    truth(truths, lit).is_none()
}

// Whether a literal of the clause is true.
fn is_true_on(truths: &[Option<bool>], clause: &[Lit]) -> bool
    ensures { result ≡ true_on truths.now clause.now }
{
    clause
        .iter()
        .any(|lit| truth(truths, *lit).unwrap_or(false))
}

// How many literals of the clause are free.
fn free_lits(truths: &[Option<bool>], clause: &[Lit]) -> usize
    ensures { result ≡ count_by (λ lit. is_free (lit_on truths.now lit)) clause.now }
{
    clause
        .iter()
        .filter(|lit| truth(truths, **lit).is_none())
        .count()
}

/// The first free literal of a clause.
pub(crate) fn free_lit(truths: &[Option<bool>], clause: &[Lit]) -> Option<Lit>
    ensures { result ≡ find (λ lit. is_free (lit_on truths.now lit)) clause.now }
{
    clause
        .iter()
        .copied()
        .find(|lit| truth(truths, *lit).is_none())
}

/// What the truths say of the clause.
pub(crate) fn clause_truth(truths: &[Option<bool>], clause: &[Lit]) -> ClauseTruth
    requires { All (λ lit. lit.atom < length truths.now) clause.now }
    ensures { AgreesOn truths.now clause.now result }
{
    if is_true_on(truths, clause) {
        return ClauseTruth::True;
    }
    match free_lit(truths, clause) {
        None => ClauseTruth::False,
        Some(lit) if free_lits(truths, clause) == 1 => ClauseTruth::Implied(lit),
        Some(_) => ClauseTruth::Open,
    }
}

/// The first clause with the fewest free literals among those that aren't true.
pub(crate) fn shortest_open<'a>(truths: &[Option<bool>], clauses: &'a [Lits]) -> Option<&'a [Lit]>
    ensures none { IfNone result (list_all (true_on truths.now) clauses.now ≡ true) }
    ensures some { IfSome result (λ clause. Contains clauses.now clause.now) }
    ensures open { IfSome result (λ clause. true_on truths.now clause.now ≡ false) }
{
    let mut shortest = None;
    let mut fewest = usize::MAX;
    for clause in clauses {
        let clause = clause.as_slice();
        if is_true_on(truths, clause) {
            continue;
        }
        let free = free_lits(truths, clause);
        if shortest.is_none() || free < fewest {
            shortest = Some(clause);
            fewest = free;
        }
    }
    shortest
}
