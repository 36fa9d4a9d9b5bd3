// What the least due of each 64 pages is, or something below it, so that a prune passes by those where nothing is due.
ghost use Rattle.std.specs.Prelude.{◌≡◌, ◌<◌, ◌≤◌, ◌*◌, ◌+◌, ◌%◌, ◌/◌, ℕ, List, length, min, slice_index_or};
ghost use Rattle.xc_versions.specs.Dues.{dues_of, Covers, NotAbove, Shrunk, Grew};

use crate::page::Page;
use std::collections::VecDeque;

/// How many pages are a group, of which one number is kept.
pub(crate) const GROUP: usize = 64;

// What is said of the group, or 0 where nothing is.
#[inline]
fn least_of(least: &[u64], group: usize) -> u64
    ensures { result ≡ slice_index_or least.now group 0 }
{
    if group < least.len() { least[group] } else { 0 }
}

/// How many of so many groups are left where those at the end go of which nothing is due at the cutoff.
pub(crate) fn due_groups(least: &[u64], groups: usize, cutoff: u64) -> usize
    ensures to { result ≤ groups }
    ensures idle { (k : ℕ) → result ≤ k → k < groups → cutoff < slice_index_or least.now k 0 }
{
    let mut left = groups;
    while left > 0 {
        if least_of(least, left - 1) <= cutoff {
            return left;
        }
        left -= 1;
    }
    left
}

/// What the page i is due for, or u64::MAX where there is no such page.
#[inline]
pub(crate) fn due_of(pages: &VecDeque<Page>, i: usize) -> u64
    ensures { i < length pages.now.items → result ≡ slice_index_or (dues_of pages.now.items) i 0 }
{
    if i < pages.len() {
        let page = &pages[i];
        page.due
    } else {
        u64::MAX
    }
}

// Says of the group no more than this.
#[inline]
pub(crate) fn lower_at(least: &mut Vec<u64>, group: usize, due: u64)
    ensures lower { NotAbove least.old.items least.new.items }
    ensures here { slice_index_or least.new.items group 0 ≤ due }
{
    if group < least.len() {
        if due < least[group] {
            least[group] = due;
        }
    }
}

// Says no more than the pages `first`, `first` + 64 and so on are due for, of the groups that they are in.
fn lower_from(least: &mut Vec<u64>, pages: &VecDeque<Page>, first: usize)
    ensures lower { NotAbove least.old.items least.new.items }
    ensures here { (k : ℕ) → first ≤ k → k < length pages.now.items → k % 64 ≡ first % 64
        → slice_index_or least.new.items (k / 64) 0 ≤ slice_index_or (dues_of pages.now.items) k 0 }
{
    let mut i = first;
    while i < pages.len() {
        let page = &pages[i];
        lower_at(least, i / GROUP, page.due);
        i += GROUP;
    }
}

/// Holds what is said after the page i of so many got other versions, or is gone.
pub(crate) fn settle(least: &mut Vec<u64>, pages: &VecDeque<Page>, i: usize, before: usize)
    requires { i ≤ length pages.now.items }
    ensures { (ds : List ℕ) → length ds ≡ before → i < before → Shrunk i ds (dues_of pages.now.items)
        → Covers ds least.old.items → Covers (dues_of pages.now.items) least.new.items }
{
    if pages.len() < before {
        lower_from(least, pages, i / GROUP * GROUP + 63);
    } else if i < pages.len() {
        let page = &pages[i];
        lower_at(least, i / GROUP, page.due);
    }
}

/// Holds what is said after the page i of so many got a version of this commit, and may have been split.
pub(crate) fn grown(
    least: &mut Vec<u64>,
    pages: &VecDeque<Page>,
    i: usize,
    commit: u64,
    before: usize,
)
    requires { i ≤ length pages.now.items }
    ensures { (ds : List ℕ) → length ds ≡ before → i < before → Grew i commit ds (dues_of pages.now.items)
        → Covers ds least.old.items → Covers (dues_of pages.now.items) least.new.items }
{
    lower_at(least, i / GROUP, commit);
    if before < pages.len() {
        lower_from(least, pages, (i / GROUP + 1) * GROUP);
    }
}

/// Says of the group what its pages are due for.
pub(crate) fn raise(least: &mut Vec<u64>, pages: &VecDeque<Page>, group: usize)
    requires { 64 * group ≤ length pages.now.items }
    ensures { Covers (dues_of pages.now.items) least.old.items → Covers (dues_of pages.now.items) least.new.items }
{
    if group >= least.len() {
        return;
    }
    let end = pages.len().min(group * GROUP + GROUP);
    let mut due = u64::MAX;
    for i in group * GROUP..end {
        let page = &pages[i];
        due = due.min(page.due);
    }
    least[group] = due;
}

/// Says of the group that none of its pages is due below this.
pub(crate) fn say(least: &mut Vec<u64>, pages: &VecDeque<Page>, group: usize, due: u64)
    requires { (k : ℕ) → 64 * group ≤ k → k < min (length pages.now.items) (64 * group + 64)
        → due ≤ slice_index_or (dues_of pages.now.items) k 0 }
    ensures { Covers (dues_of pages.now.items) least.old.items → Covers (dues_of pages.now.items) least.new.items }
{
    if group < least.len() {
        least[group] = due;
    }
}

/// Says 0 of the groups of which nothing is said yet, as far as memory allows.
pub(crate) fn fill(least: &mut Vec<u64>, groups: usize)
    ensures { NotAbove least.old.items least.new.items }
{
    while least.len() < groups {
        if least.push(0).is_err() {
            return;
        }
    }
}
