ghost use Rattle.std.specs.Prelude.{◌≡◌, ◌<◌, length};

use crate::ClassForest;
use std::process::Abort;
use std::test::Fail;

/// Joins the classes of two nodes that are apart.
fn join(rt: &impl Abort, forest: &mut ClassForest, left: usize, right: usize)
    requires left_within { left < forest.old.nodes }
    requires right_within { right < forest.old.nodes }
    ensures { forest.new.nodes ≡ forest.old.nodes }
{
    assert!(rt; forest.class(left) != forest.class(right));
    forest.merge(left, right, 0);
}

/// Takes the last merge back, of which there is one.
fn part(rt: &impl Abort, forest: &mut ClassForest)
    ensures { forest.new.nodes ≡ forest.old.nodes }
{
    assert!(rt; forest.merges() > 0);
    forest.undo();
}

/// Asserts that the class of the node has these members, in this order.
fn assert_members(rt: &impl Abort, forest: &ClassForest, node: usize, members: &[usize])
    requires nodes { forest.now.nodes ≡ 8 }
    requires within { node < 8 }
{
    let class = forest.class(node);
    assert_eq!(rt; forest.size(class), members.len());
    let mut at = forest.first(class);
    for member in members {
        assert_eq!(rt; at, Some(*member));
        assert!(rt; *member < 8);
        at = forest.next(*member);
    }
    assert_eq!(rt; at, None);
}

/// Asserts that the way between two nodes marks the merges of these numbers and no others.
fn assert_path(rt: &impl Abort, forest: &mut ClassForest, x: usize, y: usize, numbers: &[usize])
    requires x_within { x < forest.old.nodes }
    requires y_within { y < forest.old.nodes }
    ensures { forest.new.nodes ≡ forest.old.nodes }
{
    forest.unmark_all();
    assert_eq!(rt; forest.class(x), forest.class(y));
    forest.mark_path(x, y);
    assert_eq!(rt; forest.marked().len(), numbers.len());
    for number in numbers {
        assert!(rt; *number < forest.merges());
        assert!(rt; forest.is_marked(*number));
    }
}

#[test]
fn the_smaller_class_goes_and_comes_back_in_order(rt: HostRuntime) -> Result<(), Fail> {
    let mut forest = ClassForest::new(rt.alloc(), 8)?;
    join(&rt, &mut forest, 0, 1);
    assert_members(&rt, &forest, 0, &[1, 0]);
    join(&rt, &mut forest, 2, 3);
    assert_members(&rt, &forest, 3, &[3, 2]);
    join(&rt, &mut forest, 1, 3);
    assert_members(&rt, &forest, 2, &[2, 3, 1, 0]);
    join(&rt, &mut forest, 4, 5);
    assert_members(&rt, &forest, 4, &[5, 4]);
    join(&rt, &mut forest, 5, 0);
    assert_members(&rt, &forest, 4, &[4, 5, 2, 3, 1, 0]);

    part(&rt, &mut forest);
    assert_members(&rt, &forest, 5, &[5, 4]);
    assert_members(&rt, &forest, 3, &[2, 3, 1, 0]);
    part(&rt, &mut forest);
    assert!(rt; forest.class(4) != forest.class(0));
    assert_eq!(rt; forest.class(3), forest.class(0));
    join(&rt, &mut forest, 4, 6);
    assert_members(&rt, &forest, 5, &[5]);
    assert_members(&rt, &forest, 4, &[6, 4]);
    Ok(())
}

#[test]
fn a_path_marks_the_merges_on_it(rt: HostRuntime) -> Result<(), Fail> {
    let mut forest = ClassForest::new(rt.alloc(), 8)?;
    join(&rt, &mut forest, 0, 1);
    join(&rt, &mut forest, 2, 3);
    join(&rt, &mut forest, 1, 3);
    join(&rt, &mut forest, 4, 5);
    join(&rt, &mut forest, 5, 0);
    assert_path(&rt, &mut forest, 0, 1, &[0]);
    assert_path(&rt, &mut forest, 3, 1, &[2]);
    assert_path(&rt, &mut forest, 4, 0, &[3, 4]);
    assert_path(&rt, &mut forest, 4, 2, &[0, 1, 2, 3, 4]);
    assert_path(&rt, &mut forest, 6, 6, &[]);
    Ok(())
}

#[test]
fn a_chain_is_joined_from_both_ends_and_undone(rt: HostRuntime) -> Result<(), Fail> {
    let mut forest = ClassForest::new(rt.alloc(), 1000)?;
    for step in 0..499 {
        join(&rt, &mut forest, step, step + 1);
        join(&rt, &mut forest, 999 - step, 998 - step);
    }
    join(&rt, &mut forest, 499, 500);
    assert_eq!(rt; forest.merges(), 999);
    for node in 0..499 {
        assert_path(&rt, &mut forest, node, node + 1, &[2 * node]);
        assert_path(&rt, &mut forest, 999 - node, 998 - node, &[2 * node + 1]);
    }
    for _ in 0..999 {
        part(&rt, &mut forest);
    }
    for node in 0..1000 {
        assert_eq!(rt; forest.class(node), node);
    }
    Ok(())
}
