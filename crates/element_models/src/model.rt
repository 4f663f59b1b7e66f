//! The full model of an elementary script with truths for ground atoms.

ghost use Rattle.std.specs.Prelude.{◌≡◌, ◌<◌, ◌≤◌, length, replicate, All, IfOk};
ghost use Rattle.mbqi_values.specs.declared.value.Value.TheVariants.{Elem};
ghost use Rattle.mbqi_terms.specs.Distinct.{AreDistinct};
ghost use Rattle.mbqi_terms.specs.Store.{tree_at};
ghost use Rattle.mbqi_terms.specs.declared.term_id.TermId.{TermId};
ghost use Rattle.function_model.specs.Fits.{FitsFull, NoRowsWithoutArguments};
ghost use Rattle.function_model.specs.Holds.{nowhere, values_in};
ghost use Rattle.function_model.specs.ValueOf.{value_of};
ghost use Rattle.element_atoms.specs.Profile.{IsElementary};
ghost use Rattle.element_atoms.specs.Atoms.{Decides, IsPool, IsOver};
ghost use Rattle.element_models.specs.Elements.{tables_from};
ghost use Rattle.element_models.specs.Filling.{AreTables, NamesPredicate};
ghost use Rattle.element_models.specs.Rows.{rows_of};

use crate::elements::{element_tables, push_hidden, same_sizes, universe_size};
use crate::rows::{put_rows, raise_tables};
use element_atoms::{GroundAtom, Pool};
use function_model::{FunctionModel, Table, rows_fit};
use mbqi_terms::{Function, Script};
use mbqi_values::Sequence;
use std::alloc::{AllocError, Global};

/// The full model in which each atom has its truth, and each predicate is false elsewhere: the atoms differ, their arguments are
/// numbers of the pool, and the truths are one for each. Each term of the pool is the element of its number there, so that the
/// last element is that of the seed, which stands for what has no name. The one error is want of memory.
pub fn element_model(
    alloc: Global,
    script: &Script,
    pool: &Pool,
    atoms: &[GroundAtom],
    truths: &[bool],
) -> Result<FunctionModel, AllocError>
    requires elementary { IsElementary script.now }
    requires pool { IsPool script.now.functions pool.now }
    requires distinct { AreDistinct atoms.now }
    requires over { All (IsOver script.now.functions pool.now.terms) atoms.now }
    requires truths { length truths.now ≡ length atoms.now }
    ensures fits { IfOk result (FitsFull script.now) }
    ensures bare { IfOk result NoRowsWithoutArguments }
    ensures sizes { IfOk result (λ model. model.sizes ≡ replicate (length script.now.sorts) (length pool.now.terms)) }
    ensures elements { IfOk result (λ model. 1 ≤ length script.now.sorts → (id : TermId) → id.0 < length pool.now.terms
        → value_of model (tree_at pool.now.terms id) nowhere ≡ Elem id.0) }
    ensures decides { IfOk result (λ model.
        Decides script.now.functions pool.now.terms atoms.now truths.now (values_in model)) }
{
    let functions = script.functions.as_slice();
    let sorts = script.sorts.len();
    let size = universe_size(pool);
    let sizes = same_sizes(alloc, sorts, size)?;
    let tables = all_tables(alloc, functions, sorts, size, atoms, truths)?;
    rows_fit();
    Ok(FunctionModel {
        sizes,
        tables: Sequence::from_vec(tables),
    })
}

/// The table of each function, with the rows of its atoms in rising order, and the tables of the hidden names behind them: the
/// seed of each sort is the last element.
fn all_tables(
    alloc: Global,
    functions: &[Function],
    sorts: usize,
    size: u64,
    atoms: &[GroundAtom],
    truths: &[bool],
) -> Result<Vec<Table>, AllocError>
    requires some { 1 ≤ size }
    requires predicates { All (NamesPredicate functions.now) atoms.now }
    requires distinct { AreDistinct atoms.now }
    requires truths { length truths.now ≡ length atoms.now }
    ensures { IfOk result (λ tables. AreTables functions.now atoms.now truths.now size sorts tables.items) }
{
    let mut tables = atom_tables(alloc, functions, size, atoms, truths)?;
    raise_tables(alloc, &mut tables);
    push_hidden(alloc, &mut tables, sorts, size - 1)?;
    Ok(tables)
}

/// The table of each function, with the rows of its atoms in their order.
fn atom_tables(
    alloc: Global,
    functions: &[Function],
    size: u64,
    atoms: &[GroundAtom],
    truths: &[bool],
) -> Result<Vec<Table>, AllocError>
    requires predicates { All (NamesPredicate functions.now) atoms.now }
    requires truths { length truths.now ≡ length atoms.now }
    ensures { IfOk result (λ tables. tables.items ≡ tables_from (rows_of atoms.now truths.now) 0 0 size functions.now) }
{
    let mut tables = element_tables(alloc, functions, size)?;
    put_rows(alloc, &mut tables, atoms, truths)?;
    Ok(tables)
}
