//! How members of one class go over to another.

ghost use Rattle.std.specs.Prelude.{◌≡◌, ◌≢◌, ℕ, ◌<◌, ◌≤◌, ◌++◌, length, reverse, take, drop};
ghost use Rattle.index_lists.specs.Lists.{item_count, items_of};

use index_lists::IndexLists;

/// Moves the first so many items of a list to another, one by one to its front.
pub(crate) fn move_items(lists: &mut IndexLists, count: usize, from: usize, to: usize)
    requires from_within { from < length lists.old }
    requires to_within { to < length lists.old }
    requires apart { from ≢ to }
    requires enough { count ≤ length (items_of lists.old from) }
    ensures from { items_of lists.new from ≡ drop count (items_of lists.old from) }
    ensures to { items_of lists.new to ≡ reverse (take count (items_of lists.old from)) ++ items_of lists.old to }
    ensures others { (list : ℕ) → list ≢ from → list ≢ to → items_of lists.new list ≡ items_of lists.old list }
    ensures list_count { length lists.new ≡ length lists.old }
    ensures item_count { item_count lists.new ≡ item_count lists.old }
{
    for _ in 0..count {
        if let Some(item) = lists.first(from) {
            lists.move_to(item, to);
        }
    }
}
