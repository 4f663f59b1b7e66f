//! The listed instances.

ghost use Rattle.std.specs.Prelude.{◌≡◌, ◌++◌, [], All, IfOk};
ghost use Rattle.element_atoms.specs.Atoms.{IsPool, formulas_in};
ghost use Rattle.element_atoms.specs.Profile.{IsClause, IsGround};
ghost use Rattle.mbqi_loop.specs.Listed.{IsListed};

use element_atoms::{AtomTable, Pool, clauses_of};
use mbqi_terms::{Function, InstanceLines};
use mbqi_values::{LitLists, Sequence};
use std::alloc::{AllocError, Global};

/// Instances, with their clauses over numbered atoms.
#[derive(Drop)]
pub struct Listed {
    pub lines: InstanceLines,
    pub table: AtomTable,
    pub clauses: LitLists,
}

/// No instances.
pub fn nothing_listed(alloc: Global) -> Listed
    ensures lines { result.lines ≡ [] }
    ensures table { result.table ≡ [] }
    ensures clauses { result.clauses ≡ [] }
{
    Listed {
        lines: InstanceLines::new(alloc),
        table: AtomTable::new(alloc),
        clauses: LitLists::new(alloc),
    }
}

/// Puts instances behind the others. The one error is want of memory.
pub fn list(
    alloc: Global,
    functions: &[Function],
    pool: &Pool,
    listed: Listed,
    lines: InstanceLines,
) -> Result<Listed, AllocError>
    requires pool { IsPool functions.now pool.now }
    requires listed { IsListed functions.now pool.now.terms listed }
    requires ground { All (IsClause functions.now (IsGround functions.now)) (formulas_in lines) }
    ensures listed { IfOk result (IsListed functions.now pool.now.terms) }
    ensures lines { IfOk result (λ more. more.lines ≡ listed.lines ++ lines) }
{
    let Listed {
        lines: before,
        mut table,
        clauses,
    } = listed;
    let more = clauses_of(alloc, functions, pool, &mut table, lines.as_slice())?;
    Ok(Listed {
        lines: joined(before, lines)?,
        table,
        clauses: joined(clauses, more)?,
    })
}

// The items of both, in order.
fn joined<T: Drop>(items: Sequence<T>, more: Sequence<T>) -> Result<Sequence<T>, AllocError>
    ensures { IfOk result (λ all. all ≡ items ++ more) }
{
    let mut all = items.into_vec();
    let mut more = more.into_vec();
    all.append(&mut more)?;
    Ok(Sequence::from_vec(all))
}
