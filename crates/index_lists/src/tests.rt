ghost use Rattle.std.specs.Prelude.{◌≡◌, ◌<◌, length, IfOk};
ghost use Rattle.index_lists.specs.Lists.{item_count, items_of};

use crate::IndexLists;
use std::alloc::{AllocError, Global};
use std::process::Abort;
use std::test::Fail;

/// The items of a list, as a walk finds them.
fn walked(alloc: Global, lists: &IndexLists, list: usize) -> Result<Vec<usize>, AllocError>
    requires { list < length lists.now }
    ensures { IfOk result (λ seen. seen.items ≡ items_of lists.now list) }
{
    let mut seen = Vec::new(alloc);
    let mut at = lists.first(list);
    while let Some(item) = at {
        seen.push(item)?;
        at = lists.next(item);
    }
    Ok(seen)
}

/// Asserts which items the three lists have.
fn assert_lists(
    rt: &impl Abort,
    alloc: Global,
    lists: &IndexLists,
    wanted: &str,
) -> Result<(), AllocError>
    requires { length lists.now ≡ 3 }
{
    let first = walked(alloc, lists, 0)?;
    let second = walked(alloc, lists, 1)?;
    let third = walked(alloc, lists, 2)?;
    let found = format!(in alloc; "{first:?} {second:?} {third:?}")?;
    assert_eq!(rt; found.as_str(), wanted);
    Ok(())
}

/// Moves an item, and asserts which items the three lists then have.
fn assert_moved(
    rt: &impl Abort,
    alloc: Global,
    lists: &mut IndexLists,
    item: usize,
    list: usize,
    wanted: &str,
) -> Result<(), AllocError>
    requires item { item < item_count lists.old }
    requires list { list < length lists.old }
    requires lists { length lists.old ≡ 3 }
    ensures lists { length lists.new ≡ length lists.old }
    ensures items { item_count lists.new ≡ item_count lists.old }
{
    lists.move_to(item, list);
    assert_eq!(rt; lists.list_of(item), list);
    assert_lists(rt, alloc, lists, wanted)
}

#[test]
fn an_item_moves_from_each_place(rt: HostRuntime) -> Result<(), Fail> {
    let mut lists = IndexLists::new(rt.alloc(), 3, 5)?;
    assert_lists(&rt, rt.alloc(), &lists, "[0, 1, 2, 3, 4] [] []")?;

    // The first, the last, one between others, and one that is alone.
    assert_moved(&rt, rt.alloc(), &mut lists, 0, 1, "[1, 2, 3, 4] [0] []")?;
    assert_moved(&rt, rt.alloc(), &mut lists, 4, 1, "[1, 2, 3] [4, 0] []")?;
    assert_moved(&rt, rt.alloc(), &mut lists, 2, 2, "[1, 3] [4, 0] [2]")?;
    assert_moved(&rt, rt.alloc(), &mut lists, 2, 0, "[2, 1, 3] [4, 0] []")?;

    // Within one list: one between others, the first, the last.
    assert_moved(&rt, rt.alloc(), &mut lists, 1, 0, "[1, 2, 3] [4, 0] []")?;
    assert_moved(&rt, rt.alloc(), &mut lists, 1, 0, "[1, 2, 3] [4, 0] []")?;
    assert_moved(&rt, rt.alloc(), &mut lists, 3, 0, "[3, 1, 2] [4, 0] []")?;
    Ok(())
}

#[test]
fn each_item_alone(rt: HostRuntime) -> Result<(), Fail> {
    let mut lists = IndexLists::each_alone(rt.alloc(), 3)?;
    assert_lists(&rt, rt.alloc(), &lists, "[0] [1] [2]")?;
    assert_moved(&rt, rt.alloc(), &mut lists, 1, 2, "[0] [] [1, 2]")?;
    assert_moved(&rt, rt.alloc(), &mut lists, 1, 1, "[0] [1] [2]")?;
    Ok(())
}
