//! A literal on the trail, and why it stands there.

ghost use Rattle.std.specs.Prelude.{◌≡◌};
ghost use Rattle.clause_search.specs.Course.{is_chosen, reason_lits, IsNumbered};

use mbqi_values::{Lit, Lits};

/// Why a literal stands on the trail.
#[derive(Debug, Drop)]
pub(crate) enum Reason {
    /// The search chose it.
    Chosen,
    /// The clause of this number has it, and is false but for it.
    Clause(usize),
    /// So is this clause, which follows from the clauses.
    Derived(Lits),
}

/// A literal on the trail.
#[derive(Debug, Drop)]
pub(crate) struct Step {
    pub(crate) lit: Lit,
    pub(crate) reason: Reason,
}

impl Reason {
    /// Whether the search chose the literal.
    pub(crate) fn is_chosen(&self) -> bool
        ensures { result ≡ is_chosen self.now }
    {
        matches!(self, Reason::Chosen)
    }

    /// The clause that is the reason. A choice has none.
    pub(crate) fn lits<'a>(&'a self, clauses: &'a [Lits]) -> &'a [Lit]
        requires { IsNumbered clauses.now self.now }
        ensures { result.now ≡ reason_lits clauses.now self.now }
    {
        match self {
            Reason::Chosen => &[],
            Reason::Clause(number) => clauses[*number].as_slice(),
            Reason::Derived(clause) => clause.as_slice(),
        }
    }
}
