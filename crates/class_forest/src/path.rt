//! Why two nodes have one class.

ghost use Rattle.std.specs.Prelude.{◌≡◌, ◌≢◌, ℕ, ◌-◌, ◌<◌, ◌≤◌, ◌^◌, length, take};
ghost use Rattle.class_forest.specs.Classes.{class_of, IsLog};
ghost use Rattle.class_forest.specs.Joined.{GrowsBelow, IsLinked};
ghost use Rattle.class_forest.specs.Kept.{end_of, kept_size};
ghost use Rattle.class_forest.specs.Path.{gone_end, joined_at, kept_end, split_of, IsWithin};

use crate::forest::ClassForest;
use crate::merge::Merge;

/// The way between two nodes, without the merge that joined their classes.
#[derive(Clone, Copy, Debug)]
struct Split {
    // The part within the class that went.
    from: usize,
    to: usize,
    // The part within the class that stayed.
    x: usize,
    y: usize,
}

impl ClassForest {
    /// Marks merges that join the two nodes, none of them later than is needed. Merges that are marked stay so.
    pub fn mark_path(&mut self, x: usize, y: usize)
        requires x_within { x < self.old.nodes }
        requires y_within { y < self.old.nodes }
        requires joined { class_of self.old.log x ≡ class_of self.old.log y }
        ensures merges { self.new ≡ record self.old { marks = self.new.marks } }
        ensures linked { IsLinked self.old.log self.new.marks x y }

        // Where the first so many merges join the nodes, no later one is marked.
        ensures below { (count : ℕ) → class_of (take count self.old.log) x ≡ class_of (take count self.old.log) y → GrowsBelow count self.old.marks self.new.marks }
    {
        self.class_sizes();
        self.mark_within(64, x, y);
    }

    /// The merges can come one after another, and no class has 2 ^ 64 nodes.
    fn class_sizes(&self)
        ensures valid { IsLog self.now.nodes self.now.log }
        ensures small { (node : ℕ) → node < self.now.nodes → kept_size self.now.log (class_of self.now.log node) < 2 ^ 64 }
    {
        let _sizes = &self.sizes;
    }

    // The way within the class that went is marked by a call, the rest in the loop. That class has at most half of
    // the nodes, so there are never more than `depth` calls within one another.
    fn mark_within(&mut self, depth: u32, x: usize, y: usize)
        requires valid { IsLog self.old.nodes self.old.log }
        requires x_within { x < self.old.nodes }
        requires y_within { y < self.old.nodes }
        requires small { IsWithin self.old.log depth x y }
        ensures merges { self.new ≡ record self.old { marks = self.new.marks } }
        ensures linked { IsLinked self.old.log self.new.marks x y }
        ensures below { GrowsBelow (joined_at self.old.log x y) self.old.marks self.new.marks }
    {
        let mut from = x;
        let mut to = y;
        while from != to {
            let number = self.joined_after(from, to) - 1;
            let merge = self.merge_at(number);
            let split = self.split(number, merge, from, to);
            self.mark(number);
            self.mark_within(depth - 1, split.from, split.to);
            from = split.x;
            to = split.y;
        }
    }

    /// After how many merges the two nodes have one class.
    fn joined_after(&self, x: usize, y: usize) -> usize
        requires valid { IsLog self.now.nodes self.now.log }
        requires x_within { x < self.now.nodes }
        requires y_within { y < self.now.nodes }
        requires joined { class_of self.now.log x ≡ class_of self.now.log y }
        ensures { result ≡ joined_at self.now.log x y }
    {
        let mut one = x;
        let mut other = y;
        let mut count = 0;
        while one != other {
            let one_end = self.end(one);
            let other_end = self.end(other);
            if one_end < other_end {
                one = self.merge_at(one_end).stayed;
                count = one_end + 1;
            } else {
                other = self.merge_at(other_end).stayed;
                count = other_end + 1;
            }
        }
        count
    }

    /// The number of the merge in which the class went, or of merges if it is still there.
    fn end(&self, class: usize) -> usize
        requires { class < self.now.nodes }
        ensures { result ≡ end_of self.now.log class }
    {
        match self.gone[class] {
            Some(number) => number,
            None => self.log.len(),
        }
    }

    /// The class of the node before the merge of this number.
    fn class_before(&self, number: usize, node: usize) -> usize
        requires valid { IsLog self.now.nodes self.now.log }
        requires number_within { number ≤ length self.now.log }
        requires node_within { node < self.now.nodes }
        ensures { result ≡ class_of (take number self.now.log) node }
    {
        let mut class = node;
        let mut end = self.end(class);
        while end < number {
            class = self.merge_at(end).stayed;
            end = self.end(class);
        }
        class
    }

    /// The way between two nodes that the merge of this number joined.
    fn split(&self, number: usize, merge: Merge, x: usize, y: usize) -> Split
        requires valid { IsLog self.now.nodes self.now.log }
        requires number_within { number < length self.now.log }
        requires left_within { merge.left < self.now.nodes }
        requires x_within { x < self.now.nodes }
        ensures { result ≡ split_of self.now.log number merge x y }
    {
        let class = self.class_before(number, merge.left);
        let gone = gone_end(merge, class);
        let kept = kept_end(merge, class);
        if self.class_before(number, x) == merge.went {
            Split {
                from: x,
                to: gone,
                x: kept,
                y,
            }
        } else {
            Split {
                from: y,
                to: gone,
                x,
                y: kept,
            }
        }
    }
}

/// The node of a merge that lay in the class that went, where `class` is the left one's class before.
fn gone_end(merge: Merge, class: usize) -> usize
    ensures { result ≡ gone_end class merge }
{
    if class == merge.went {
        merge.left
    } else {
        merge.right
    }
}

/// The other one.
fn kept_end(merge: Merge, class: usize) -> usize
    ensures { result ≡ kept_end class merge }
{
    if class == merge.went {
        merge.right
    } else {
        merge.left
    }
}
