// Pages of versions beside a pool of empty ones.
ghost use Rattle.std.specs.Prelude.{◌≡◌, ◌<◌, ◌≤◌, ◌+◌, [], ◌∷◌, length, min, ◌/◌, vec_capacity};
ghost use Rattle.std.specs.Prelude.{IfOk, OnOk, filter, option_map, IfSome};
ghost use Rattle.std.specs.List.{AllByRecursion};
ghost use Rattle.std.specs.Option.{option_to_list};
ghost use Rattle.std.specs.Ordering.{is_gt};
ghost use Rattle.xc_record.specs.Kept.{last_of};
ghost use Rattle.xc_record.specs.Rows.{rows_after};
ghost use Rattle.xc_versions.specs.RowsSeen.{Under, ops_to};
ghost use Rattle.xc_versions.specs.Stored.{InOrder, IsNew, reaches, stored_cmp, with_version};
ghost use Rattle.xc_versions.specs.Slots.{seen};
ghost use Rattle.xc_versions.specs.Heads.{IsSlot, head_of};
ghost use Rattle.xc_versions.specs.Around.{Around};
ghost use Rattle.xc_versions.specs.Pages.{IsEmptyPage, IsPage, IsPaged, items_of, spare_of};
ghost use Rattle.xc_versions.specs.Pool.{IsStore, Gains};
ghost use Rattle.xc_versions.specs.Dues.{dues_of, Covers, Grew};

use crate::head::Head;
use crate::least::{grown, lower_at};
use crate::page::{Page, pages_before, pages_reaching, take_empty};
use crate::queue::insert_at;
use crate::rows::put_versions;
use crate::stored::{Slot, reached};
use std::alloc::{AllocError, Global};
use std::collections::VecDeque;
use xc_base::{Key, Value};

// Puts the version into the first page.
fn add_first(bytes: &[u8], pages: &mut VecDeque<Page>, pool: &mut Vec<Page>, slot: Slot)
    requires store { IsStore bytes.now pages.old pool.old }
    requires none { pages.old.items ≡ [] }
    requires slot { IsSlot bytes.now slot }
    requires room { 1 ≤ spare_of pages.old.items (length pool.old.items) }
    ensures gains { Gains bytes.now (seen bytes.now slot) pages.old pages.new pool.old pool.new }
    ensures dues { dues_of pages.new.items ≡ slot.commit ∷ [] }
{
    let mut page = take_empty(pool);
    page.begin(slot);
    page.put(bytes, slot);
    pages.push_back_reserved(page);
}

// Puts the version into the page i, the last that begins before it, or else the first.
fn add_at(bytes: &[u8], pages: &mut VecDeque<Page>, pool: &mut Vec<Page>, i: usize, slot: Slot)
    requires store { IsStore bytes.now pages.old pool.old }
    requires fresh { IsNew (seen bytes.now slot) (items_of bytes.now pages.old.items) }
    requires within { i < length pages.old.items }
    requires around { Around bytes.now (λ x. is_gt (stored_cmp (seen bytes.now slot) x)) pages.old.items i }
    requires slot { IsSlot bytes.now slot }
    requires room { 1 ≤ spare_of pages.old.items (length pool.old.items) }
    ensures gains { Gains bytes.now (seen bytes.now slot) pages.old pages.new pool.old pool.new }
    ensures dues { Grew i slot.commit (dues_of pages.old.items) (dues_of pages.new.items) }
    ensures len { length pages.old.items ≤ length pages.new.items }
{
    let page = &mut pages[i];
    page.put(bytes, slot);
    if page.is_over() {
        let mut upper = take_empty(pool);
        page.split(bytes, &mut upper);
        insert_at(pages, i + 1, upper);
    }
}

/// Puts the version at its place.
pub(crate) fn add(
    bytes: &[u8],
    pages: &mut VecDeque<Page>,
    pool: &mut Vec<Page>,
    least: &mut Vec<u64>,
    slot: Slot,
)
    requires store { IsStore bytes.now pages.old pool.old }
    requires fresh { IsNew (seen bytes.now slot) (items_of bytes.now pages.old.items) }
    requires slot { IsSlot bytes.now slot }
    requires room { 1 ≤ spare_of pages.old.items (length pool.old.items) }
    requires least { Covers (dues_of pages.old.items) least.old.items }
    ensures gains { Gains bytes.now (seen bytes.now slot) pages.old pages.new pool.old pool.new }
    ensures least { Covers (dues_of pages.new.items) least.new.items }
{
    let commit = slot.commit;
    if pages.is_empty() {
        add_first(bytes, pages, pool, slot);
        lower_at(least, 0, commit);
    } else {
        let count = pages.len();
        let i = pages_before(bytes, pages, &slot).saturating_sub(1);
        add_at(bytes, pages, pool, i, slot);
        grown(least, pages, i, commit, count);
    }
}

/// The last version that reaches the key at t. The head is that of the key.
pub(crate) fn last_reaching(
    bytes: &[u8],
    pages: &VecDeque<Page>,
    key: &Key,
    head: &Head,
    t: u64,
) -> Option<Slot>
    requires paged { IsPaged bytes.now pages.now.items [] }
    requires head { head.now ≡ head_of key.now }
    ensures last { option_to_list (option_map (seen bytes.now) result)
        ≡ last_of (filter (reaches key.now t) (items_of bytes.now pages.now.items)) }
    ensures slot { IfSome result (λ slot. IsSlot bytes.now slot) }
{
    let begin = pages_reaching(bytes, pages, key, head, t);
    if begin == 0 {
        return None;
    }
    let page = &pages[begin - 1];
    let reached = reached(bytes, &page.body.items, key, head, t);
    if reached == 0 {
        return None;
    }
    Some(page.body.items[reached - 1])
}

/// Puts what the versions with commit at most t leave at their keys.
pub(crate) fn put_pages(
    rows: &mut Vec<(Key, Value)>,
    bytes: &[u8],
    pages: &VecDeque<Page>,
    t: u64,
) -> Result<(), AllocError>
    requires under { AllByRecursion (λ x. Under rows.old.items x.key) (items_of bytes.now pages.now.items) }
    requires ordered { InOrder (items_of bytes.now pages.now.items) }
    requires pages { AllByRecursion (IsPage bytes.now) pages.now.items }
    ensures { OnOk result (rows.new.items ≡ rows_after (ops_to t (items_of bytes.now pages.now.items)) rows.old.items) }
{
    for i in 0..pages.len() {
        let page = &pages[i];
        put_versions(rows, bytes, &page.body.items, t)?;
    }
    Ok(())
}

// So many pages that have no room yet, whose boxes lie near one another.
fn bare_pages(alloc: Global, count: usize) -> Result<Vec<Page>, AllocError>
    ensures { IfOk result (λ pages. length pages.items ≡ count) }
{
    let mut pages = Vec::with_capacity(alloc, count)?;
    for _made in 0..count {
        pages.push_reserved(Page::bare(alloc)?);
    }
    Ok(pages)
}

// Puts so many empty pages into the pool, or some of them. A search reads the boxes of pages and little else, so they
// are made before the room for versions and lie near one another.
fn add_empty(alloc: Global, pool: &mut Vec<Page>, more: usize) -> Result<(), AllocError>
    requires empty { AllByRecursion IsEmptyPage pool.old.items }
    requires room { length pool.old.items + more ≤ vec_capacity pool.old }
    ensures empty { AllByRecursion IsEmptyPage pool.new.items }
    ensures not_less { length pool.old.items ≤ length pool.new.items }
    ensures not_more { length pool.new.items ≤ length pool.old.items + more }
    ensures all { OnOk result (length pool.new.items ≡ length pool.old.items + more) }
    ensures capacity { vec_capacity pool.new ≡ vec_capacity pool.old }
{
    for page in bare_pages(alloc, more)? {
        pool.push_reserved(page.with_room(alloc)?);
    }
    Ok(())
}

// The most pages that n additions to so many pages can take.
fn pages_for(n: usize, pages: usize) -> usize
    ensures { result ≡ min n (pages + (n / 32 + 1)) }
{
    n.min(pages.saturating_add(n / 32 + 1))
}

// How many pages are made where so many are wanted: a thirty-second of those that there are, or more.
fn at_once(wanted: usize, pages: usize) -> usize
    ensures { wanted ≤ result }
{
    if wanted == 0 {
        0
    } else {
        wanted.max(pages / 32)
    }
}

/// Makes room for at least n more versions: n additions split at most as many pages as there are, and one more for each
/// 32 of them.
pub(crate) fn grow(
    alloc: Global,
    bytes: &[u8],
    pages: &mut VecDeque<Page>,
    pool: &mut Vec<Page>,
    n: usize,
) -> Result<(), AllocError>
    requires { IsStore bytes.now pages.old pool.old }
    ensures store { IsStore bytes.now pages.new pool.new }
    ensures pages { pages.new.items ≡ pages.old.items }
    ensures not_less { length pool.old.items ≤ length pool.new.items }
    ensures room { OnOk result (n ≤ spare_of pages.new.items (length pool.new.items)) }
{
    let most = pages_for(n, pages.len());
    let more = at_once(most.saturating_sub(pool.len()), pages.len());
    let vectors = pool.len().saturating_add(more);
    pages.reserve(vectors)?;
    pool.reserve(pages.len().saturating_add(more))?;
    add_empty(alloc, pool, more)
}
