// Prunes and drops over pages: pages that became empty go to the pool.
ghost use Rattle.std.specs.Prelude.{◌≡◌, ◌++◌, ◌<◌, ◌≤◌, ◌+◌, ◌*◌, ℕ, List, [], min, remove, take, drop, length};
ghost use Rattle.std.specs.Prelude.{slice_get, slice_index_or, vec_capacity, option_map, IfSome};
ghost use Rattle.std.specs.List.{AllByRecursion};
ghost use Rattle.std.specs.VecDeque.{deque_capacity};
ghost use Rattle.xc_versions.specs.Stored.{kept, pruned_before, up_to};
ghost use Rattle.xc_versions.specs.Slots.{seen};
ghost use Rattle.xc_versions.specs.Heads.{IsSlot};
ghost use Rattle.xc_versions.specs.Pages.{held, IsPage, IsPaged, IsEmptyPage, items_of, spare_of};
ghost use Rattle.xc_versions.specs.declared.page.Page.{Page};
ghost use Rattle.xc_versions.specs.Pool.{IsStore, Loses, Walked};
ghost use Rattle.xc_versions.specs.Dues.{dues_of, Covers, Shrunk};

use crate::least::{GROUP, due_groups, due_of, fill, raise, say, settle};
use crate::page::Page;
use crate::stored::Slot;
use std::collections::VecDeque;

// The first version of the pages from i on.
fn first_from(bytes: &[u8], pages: &VecDeque<Page>, i: usize) -> Option<Slot>
    requires { AllByRecursion (IsPage bytes.now) pages.now.items }
    ensures version { option_map (seen bytes.now) result
        ≡ slice_get (items_of bytes.now (drop i pages.now.items)) 0 }
    ensures slot { IfSome result (λ slot. IsSlot bytes.now slot) }
{
    if i < pages.len() {
        let page = &pages[i];
        Some(page.body.first)
    } else {
        None
    }
}

// Moves the empty page i to the pool.
fn free(pages: &mut VecDeque<Page>, pool: &mut Vec<Page>, i: usize)
    requires within { i < length pages.old.items }
    requires none { (q : Page) → q ≡ slice_index_or pages.old.items i q → IsEmptyPage q }
    requires empty { AllByRecursion IsEmptyPage pool.old.items }
    requires room { length pool.old.items < vec_capacity pool.old }
    ensures pages { pages.new.items ≡ remove pages.old.items i }
    ensures empty { AllByRecursion IsEmptyPage pool.new.items }
    ensures len { length pool.new.items ≡ length pool.old.items + 1 }
    ensures pages_capacity { deque_capacity pages.new ≡ deque_capacity pages.old }
    ensures pool_capacity { vec_capacity pool.new ≡ vec_capacity pool.old }
{
    if let Some(page) = pages.remove(i) {
        pool.push_reserved(page);
    }
}

// Removes from the page i what the next version replaces at the cutoff. It gives the number of bytes that no slot names
// any more, as do those that call it.
fn prune_at(
    bytes: &[u8],
    pages: &mut VecDeque<Page>,
    pool: &mut Vec<Page>,
    i: usize,
    cutoff: u64,
) -> usize
    requires store { IsStore bytes.now pages.old pool.old }
    requires within { i < length pages.old.items }
    ensures { Loses bytes.now pages.old pages.new pool.old pool.new i (pruned_before cutoff) }
{
    let next = first_from(bytes, pages, i + 1);
    let page = &mut pages[i];
    let dead = page.prune(bytes, next, cutoff);
    if page.is_empty() {
        free(pages, pool, i);
    }
    dead
}

// Where those pages begin, from `first` on up to `end`, of which nothing is due at the cutoff. None of them is due
// below what `due` is then.
fn pass_idle(pages: &VecDeque<Page>, first: usize, end: usize, cutoff: u64, due: &mut u64) -> usize
    requires order { first ≤ end }
    requires within { end ≤ length pages.now.items }
    ensures from { first ≤ result }
    ensures to { result ≤ end }
    ensures idle { (k : ℕ) → result ≤ k → k < end → cutoff < slice_index_or (dues_of pages.now.items) k 0 }
    ensures lower { due.new ≤ due.old }
    ensures due { (k : ℕ) → result ≤ k → k < end → due.new ≤ slice_index_or (dues_of pages.now.items) k 0 }
{
    let mut least = *due;
    let mut i = end;
    while i > first {
        let page = &pages[i - 1];
        if page.due <= cutoff {
            break;
        }
        least = least.min(page.due);
        i -= 1;
    }
    *due = least;
    i
}

// Prunes the page i, and what is said of each group holds.
fn prune_page(
    bytes: &[u8],
    pages: &mut VecDeque<Page>,
    pool: &mut Vec<Page>,
    least: &mut Vec<u64>,
    i: usize,
    cutoff: u64,
) -> usize
    requires store { IsStore bytes.now pages.old pool.old }
    requires within { i < length pages.old.items }
    requires least { Covers (dues_of pages.old.items) least.old.items }
    ensures loses { Loses bytes.now pages.old pages.new pool.old pool.new i (pruned_before cutoff) }
    ensures least { Covers (dues_of pages.new.items) least.new.items }
{
    let count = pages.len();
    let dead = prune_at(bytes, pages, pool, i, cutoff);
    settle(least, pages, i, count);
    dead
}

// Prunes the pages of a group, and says of it what they are due for then. Where all behind them was pruned, all from
// them on is.
fn prune_group(
    bytes: &[u8],
    pages: &mut VecDeque<Page>,
    pool: &mut Vec<Page>,
    least: &mut Vec<u64>,
    group: usize,
    cutoff: u64,
) -> usize
    requires store { IsStore bytes.now pages.old pool.old }
    requires least { Covers (dues_of pages.old.items) least.old.items }
    requires within { 64 * group ≤ length pages.old.items }
    ensures store { IsStore bytes.now pages.new pool.new }
    ensures least { Covers (dues_of pages.new.items) least.new.items }
    ensures walked { (all : List Page) → IsPaged bytes.now all []
        → Walked bytes.now (kept cutoff) all pages.old.items (min (length pages.old.items) (64 * group + 64))
        → Walked bytes.now (kept cutoff) all pages.new.items (64 * group) }
    ensures spare { spare_of pages.old.items (length pool.old.items) ≤ spare_of pages.new.items
        (length pool.new.items) }
{
    let first = group * GROUP;
    let count = pages.len();
    let mut due = u64::MAX;
    let mut dead: usize = 0;
    let mut i = pass_idle(pages, first, count.min(first + GROUP), cutoff, &mut due);
    while i > first {
        dead = dead.saturating_add(prune_page(bytes, pages, pool, least, i - 1, cutoff));
        due = due.min(due_of(pages, i - 1));
        i = pass_idle(pages, first, i - 1, cutoff, &mut due);
    }
    if pages.len() < count {
        raise(least, pages, group);
    } else {
        say(least, pages, group, due);
    }
    dead
}

/// Of each key's versions with commit at most the cutoff only the last stays. Of 64 pages that lose none, none is
/// looked at.
pub(crate) fn prune(
    bytes: &[u8],
    pages: &mut VecDeque<Page>,
    pool: &mut Vec<Page>,
    least: &mut Vec<u64>,
    cutoff: u64,
) -> usize
    requires store { IsStore bytes.now pages.old pool.old }
    requires least { Covers (dues_of pages.old.items) least.old.items }
    ensures store { IsStore bytes.now pages.new pool.new }
    ensures items { items_of bytes.now pages.new.items ≡ kept cutoff (items_of bytes.now pages.old.items) }
    ensures spare { spare_of pages.old.items (length pool.old.items) ≤ spare_of pages.new.items
        (length pool.new.items) }
    ensures least { Covers (dues_of pages.new.items) least.new.items }
{
    let groups = pages.len() / GROUP + 1;
    fill(least, groups);
    let mut dead: usize = 0;
    let mut left = due_groups(least, groups, cutoff);
    while left > 0 {
        let group = left - 1;
        dead = dead.saturating_add(prune_group(bytes, pages, pool, least, group, cutoff));
        left = due_groups(least, group, cutoff);
    }
    dead
}

// Removes from the page i the versions with commit above t.
fn drop_at(bytes: &[u8], pages: &mut VecDeque<Page>, pool: &mut Vec<Page>, i: usize, t: u64)
    requires store { IsStore bytes.now pages.old pool.old }
    requires within { i < length pages.old.items }
    ensures { Loses bytes.now pages.old pages.new pool.old pool.new i (λ xs rest. up_to t xs ++ rest) }
{
    let page = &mut pages[i];
    page.drop_later(t);
    if page.is_empty() {
        free(pages, pool, i);
    }
}

/// The versions with commit above t go, and all others stay.
pub(crate) fn drop_after(
    bytes: &[u8],
    pages: &mut VecDeque<Page>,
    pool: &mut Vec<Page>,
    least: &mut Vec<u64>,
    t: u64,
)
    requires store { IsStore bytes.now pages.old pool.old }
    requires least { Covers (dues_of pages.old.items) least.old.items }
    ensures store { IsStore bytes.now pages.new pool.new }
    ensures items { items_of bytes.now pages.new.items ≡ up_to t (items_of bytes.now pages.old.items) }
    ensures spare { spare_of pages.old.items (length pool.old.items) ≤ spare_of pages.new.items
        (length pool.new.items) }
    ensures least { Covers (dues_of pages.new.items) least.new.items }
{
    let mut i = pages.len();
    while i > 0 {
        i -= 1;
        let count = pages.len();
        drop_at(bytes, pages, pool, i, t);
        settle(least, pages, i, count);
    }
}
