// The operations that slots name, moved to an arena without those that none names any more.
ghost use Rattle.std.specs.Prelude.{◌≡◌, ◌≤◌, ◌+◌, ◌++◌, [], length, map, min, IfSome, vec_len, vec_capacity};
ghost use Rattle.std.specs.VecDeque.{deque_capacity};
ghost use Rattle.std.specs.List.{AllByRecursion};
ghost use Rattle.xc_arena.specs.declared.limits.TheConstants.{ARENA_BYTES};
ghost use Rattle.xc_versions.specs.Slots.{seen, bytes_of};
ghost use Rattle.xc_versions.specs.Heads.{IsSlot};
ghost use Rattle.xc_versions.specs.Pages.{items_of, live_of, spare_of, IsPage};
ghost use Rattle.xc_versions.specs.Pool.{IsStore};
ghost use Rattle.xc_versions.specs.Dues.{dues_of};

use crate::page::{Page, first_or};
use crate::stored::Slot;
use std::collections::VecDeque;
use xc_arena::{move_op, op_bytes};

// How many bytes the operations of the slots have.
fn page_bytes(bytes: &[u8], items: &VecDeque<Slot>) -> Option<usize>
    requires { AllByRecursion (IsSlot bytes.now) items.now.items }
    ensures { IfSome result (λ n. n ≡ length (bytes_of bytes.now items.now.items)) }
{
    let mut live: usize = 0;
    for i in 0..items.len() {
        live = live.checked_add(op_bytes(bytes, items[i].at).len())?;
    }
    Some(live)
}

/// How many bytes the operations of the pages have. None comes only where a usize doesn't hold the number.
pub(crate) fn live_bytes(bytes: &[u8], pages: &VecDeque<Page>) -> Option<usize>
    requires { AllByRecursion (IsPage bytes.now) pages.now.items }
    ensures { IfSome result (λ n. n ≡ length (live_of bytes.now pages.now.items)) }
{
    let mut live: usize = 0;
    for i in 0..pages.len() {
        let page = &pages[i];
        live = live.checked_add(page_bytes(bytes, &page.body.items)?)?;
    }
    Some(live)
}

// Moves the operations of the slots behind those of another arena, which has room for them.
fn move_page(bytes: &[u8], to: &mut Vec<u8>, items: &mut VecDeque<Slot>)
    requires slots { AllByRecursion (IsSlot bytes.now) items.old.items }
    requires room { vec_len to.old + length (bytes_of bytes.now items.old.items)
        ≤ min (vec_capacity to.old) ARENA_BYTES }
    ensures to { to.new.items ≡ to.old.items ++ bytes_of bytes.now items.old.items }
    ensures held { map (seen to.new.items) items.new.items ≡ map (seen bytes.now) items.old.items }
    ensures slots { AllByRecursion (IsSlot to.new.items) items.new.items }
    ensures to_capacity { vec_capacity to.old ≤ vec_capacity to.new }
    ensures capacity { deque_capacity items.new ≡ deque_capacity items.old }
{
    for i in 0..items.len() {
        let at = move_op(bytes, items[i].at, to);
        let slot = &mut items[i];
        slot.at = at;
    }
}

/// Moves the operations of the pages to another arena, which has room for them.
pub(crate) fn move_pages(
    bytes: &[u8],
    to: &mut Vec<u8>,
    pages: &mut VecDeque<Page>,
    pool: &Vec<Page>,
)
    requires store { IsStore bytes.now pages.old pool.now }
    requires none { to.old.items ≡ [] }
    requires room { length (live_of bytes.now pages.old.items) ≤ min (vec_capacity to.old) ARENA_BYTES }
    ensures store { IsStore to.new.items pages.new pool.now }
    ensures items { items_of to.new.items pages.new.items ≡ items_of bytes.now pages.old.items }
    ensures to { vec_len to.new ≡ length (live_of bytes.now pages.old.items) }
    ensures to_capacity { vec_capacity to.old ≤ vec_capacity to.new }
    ensures spare { spare_of pages.new.items (length pool.now.items)
        ≡ spare_of pages.old.items (length pool.now.items) }
    ensures dues { dues_of pages.new.items ≡ dues_of pages.old.items }
{
    for i in 0..pages.len() {
        let page = &mut pages[i];
        let body = &mut *page.body;
        move_page(bytes, to, &mut body.items);
        body.first = first_or(&body.items, body.first);
    }
}
