// Items put into a queue at a place, taken out of it, and moved to another.
ghost use Rattle.std.specs.Prelude.{◌≡◌, ◌<◌, ◌≤◌, ◌+◌, [], length, insert, remove, take, drop};
ghost use Rattle.std.specs.VecDeque.{deque_capacity};

use std::collections::VecDeque;

/// Puts the item at this place of a queue that has room for it. The shorter side moves.
pub(crate) fn insert_at<T: Drop>(items: &mut VecDeque<T>, at: usize, item: T)
    requires within { at ≤ length items.old.items }
    requires room { length items.old.items < deque_capacity items.old }
    ensures items { items.new.items ≡ insert items.old.items at item }
    ensures len { length items.new.items ≡ length items.old.items + 1 }
    ensures capacity { deque_capacity items.old ≤ deque_capacity items.new }
{
    let _ = items.insert(at, item);
}

/// Takes the item at this place out. The shorter side moves.
pub(crate) fn remove_at<T: Drop>(items: &mut VecDeque<T>, at: usize)
    requires { at < length items.old.items }
    ensures items { items.new.items ≡ remove items.old.items at }
    ensures capacity { deque_capacity items.new ≡ deque_capacity items.old }
{
    let _ = items.remove(at);
}

/// Moves all but the first so many items to an empty queue that has room for them.
pub(crate) fn move_behind<T: Drop>(items: &mut VecDeque<T>, count: usize, upper: &mut VecDeque<T>)
    requires within { count ≤ length items.old.items }
    requires empty { upper.old.items ≡ [] }
    requires room { length items.old.items ≤ count + deque_capacity upper.old }
    ensures lower { items.new.items ≡ take count items.old.items }
    ensures upper { upper.new.items ≡ drop count items.old.items }
    ensures lower_capacity { deque_capacity items.new ≡ deque_capacity items.old }
    ensures upper_capacity { deque_capacity upper.new ≡ deque_capacity upper.old }
{
    while items.len() > count {
        if let Some(item) = items.pop_back() {
            upper.push_front_reserved(item);
        }
    }
}
