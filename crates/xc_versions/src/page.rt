// A page of versions, and the search among pages.
ghost use Rattle.std.specs.Prelude.{◌≡◌, ◌<◌, ◌≤◌, ◌+◌, min, length, take, drop, nat_lt, vec_capacity, true};
ghost use Rattle.std.specs.Prelude.{◌↔◌, [], slice_index_or, filter, nat_le, IfOk, IsTrue};
ghost use Rattle.std.specs.Ordering.{is_gt};
ghost use Rattle.std.specs.List.{AllByRecursion};
ghost use Rattle.xc_versions.specs.Stored.{stored_cmp, InOrder, with_version, reaches};
ghost use Rattle.xc_versions.specs.Splits.{Splits};
ghost use Rattle.xc_versions.specs.Slots.{seen};
ghost use Rattle.xc_versions.specs.Heads.{IsSlot, head_of};
ghost use Rattle.xc_versions.specs.Pages.{held, items_of, IsPage, IsEmptyPage, is_first_passed};
ghost use Rattle.xc_versions.specs.Pages.{slots_of, first_of, capacity_of};

use crate::head::Head;
use crate::queue::{insert_at, move_behind};
use crate::stored::{Slot, drop_later, place_of};
use std::alloc::{AllocError, Global};
use std::collections::VecDeque;
use xc_base::Key;

/// The most versions of a page.
pub(crate) const PAGE: usize = 64;

/// Versions in order, 1 to 64 of them, with room for one more. They lie in a box, so that few bytes move where a page
/// is put between others.
#[derive(Drop, Debug)]
pub(crate) struct Page {
    pub(crate) body: Box<PageBody>,
    /// A cutoff below this takes nothing from the page. It lies beside the box, since a prune asks many pages for it.
    pub(crate) due: u64,
}

/// What lies in a page's box.
#[derive(Drop, Debug)]
pub(crate) struct PageBody {
    pub(crate) items: VecDeque<Slot>,
    /// The slot of its first version once more, so that a search among pages reads nothing else of them.
    pub(crate) first: Slot,
}

// Whether all pages begin before the version: the last does.
#[inline]
fn all_begin_before(bytes: &[u8], pages: &VecDeque<Page>, slot: &Slot) -> bool
    requires pages { AllByRecursion (IsPage bytes.now) pages.now.items }
    requires ordered { InOrder (items_of bytes.now pages.now.items) }
    requires slot { IsSlot bytes.now slot.now }
    ensures { result ≡ true
        → Splits (λ p. is_first_passed (λ x. is_gt (stored_cmp (seen bytes.now slot.now) x)) (held bytes.now p))
        (length pages.now.items) pages.now.items }
{
    let count = pages.len();
    if count == 0 {
        return false;
    }
    let page = &pages[count - 1];
    begins_before(bytes, page, slot)
}

/// How many pages begin before the version. Often all do.
pub(crate) fn pages_before(bytes: &[u8], pages: &VecDeque<Page>, slot: &Slot) -> usize
    requires pages { AllByRecursion (IsPage bytes.now) pages.now.items }
    requires ordered { InOrder (items_of bytes.now pages.now.items) }
    requires slot { IsSlot bytes.now slot.now }
    ensures { Splits (λ p. is_first_passed (λ x. is_gt (stored_cmp (seen bytes.now slot.now) x)) (held bytes.now p))
        result pages.now.items }
{
    if all_begin_before(bytes, pages, slot) {
        return pages.len();
    }
    let mut low = 0;
    let mut high = pages.len();
    while low < high {
        let middle = low + (high - low) / 2;
        let page = &pages[middle];
        if begins_before(bytes, page, slot) {
            low = middle + 1;
        } else {
            high = middle;
        }
    }
    low
}

#[inline]
fn begins_before(bytes: &[u8], page: &Page, slot: &Slot) -> bool
    requires page { IsPage bytes.now page.now }
    requires slot { IsSlot bytes.now slot.now }
    ensures { result ≡ is_first_passed (λ x. is_gt (stored_cmp (seen bytes.now slot.now) x))
        (held bytes.now page.now) }
{
    slot.is_after(bytes, &page.body.first)
}

/// How many pages begin with a version that reaches the key at t. The head is that of the key.
pub(crate) fn pages_reaching(
    bytes: &[u8],
    pages: &VecDeque<Page>,
    key: &Key,
    head: &Head,
    t: u64,
) -> usize
    requires pages { AllByRecursion (IsPage bytes.now) pages.now.items }
    requires ordered { InOrder (items_of bytes.now pages.now.items) }
    requires head { head.now ≡ head_of key.now }
    ensures { Splits (λ p. is_first_passed (reaches key.now t) (held bytes.now p)) result pages.now.items }
{
    let mut low = 0;
    let mut high = pages.len();
    while low < high {
        let middle = low + (high - low) / 2;
        let page = &pages[middle];
        if begins_reaching(bytes, page, key, head, t) {
            low = middle + 1;
        } else {
            high = middle;
        }
    }
    low
}

#[inline]
fn begins_reaching(bytes: &[u8], page: &Page, key: &Key, head: &Head, t: u64) -> bool
    requires page { IsPage bytes.now page.now }
    requires head { head.now ≡ head_of key.now }
    ensures { result ≡ is_first_passed (reaches key.now t) (held bytes.now page.now) }
{
    page.body.first.reaches(bytes, key, head, t)
}

/// The first of the slots, or this one where there is none.
#[inline]
pub(crate) fn first_or(items: &VecDeque<Slot>, slot: Slot) -> Slot
    ensures first { result ≡ slice_index_or items.now.items 0 result }
    ensures none { items.now.items ≡ [] → result ≡ slot }
{
    match items.front() {
        Some(first) => *first,
        None => slot,
    }
}

// The first of the slots once one more is put at the place.
#[inline]
fn first_with(first: Slot, at: usize, slot: Slot) -> Slot
    ensures front { at ≡ 0 → result ≡ slot }
    ensures behind { 0 < at → result ≡ first }
{
    if at == 0 { slot } else { first }
}

/// Takes one of the empty pages.
pub(crate) fn take_empty(pool: &mut Vec<Page>) -> Page
    requires some { 1 ≤ length pool.old.items }
    requires empty { AllByRecursion IsEmptyPage pool.old.items }
    ensures result { IsEmptyPage result }
    ensures empty { AllByRecursion IsEmptyPage pool.new.items }
    ensures len { length pool.new.items + 1 ≡ length pool.old.items }
    ensures capacity { vec_capacity pool.new ≡ vec_capacity pool.old }
{
    pool.pop().unwrap()
}

impl Page {
    /// No versions, and no room for one yet: only the page's box takes memory.
    pub(crate) fn bare(alloc: Global) -> Result<Page, AllocError> {
        let body = PageBody {
            items: VecDeque::new(alloc),
            first: Slot::default(),
        };
        Ok(Page {
            body: Box::new(alloc, body)?,
            due: 0,
        })
    }

    /// No versions, and room for 65.
    pub(crate) fn with_room(mut self, alloc: Global) -> Result<Page, AllocError>
        ensures { IfOk result IsEmptyPage }
    {
        self.body.items = VecDeque::with_capacity(alloc, PAGE + 1)?;
        Ok(self)
    }

    /// Whether it has no version.
    #[inline]
    pub(crate) fn is_empty(&self) -> bool
        ensures { IsTrue result ↔ (slots_of self.now ≡ []) }
    {
        self.body.items.is_empty()
    }

    /// Whether it has more versions than a page may have.
    #[inline]
    pub(crate) fn is_over(&self) -> bool
        ensures { result ≡ nat_lt 64 (length (slots_of self.now)) }
    {
        self.body.items.len() > PAGE
    }

    /// Makes an empty page ready for this version.
    pub(crate) fn begin(&mut self, slot: Slot)
        requires { IsEmptyPage self.old }
        ensures empty { IsEmptyPage self.new }
        ensures due { self.new.due ≡ slot.commit }
        ensures first { first_of self.new ≡ slot }
    {
        self.due = slot.commit;
        let body = &mut *self.body;
        body.first = slot;
    }

    /// Puts the version at its place.
    pub(crate) fn put(&mut self, bytes: &[u8], slot: Slot)
        requires ordered { InOrder (held bytes.now self.old) }
        requires few { length (slots_of self.old) ≤ 64 }
        requires room { 65 ≤ capacity_of self.old }
        requires slots { AllByRecursion (IsSlot bytes.now) (slots_of self.old) }
        requires first { first_of self.old ≡ slice_index_or (slots_of self.old) 0 (first_of self.old) }
        requires slot { IsSlot bytes.now slot }
        ensures items { held bytes.now self.new ≡ with_version (seen bytes.now slot) (held bytes.now self.old) }
        ensures len { length (slots_of self.new) ≡ length (slots_of self.old) + 1 }
        ensures room { 65 ≤ capacity_of self.new }
        ensures slots { AllByRecursion (IsSlot bytes.now) (slots_of self.new) }
        ensures first { first_of self.new ≡ slice_index_or (slots_of self.new) 0 (first_of self.new) }
        ensures due { self.new.due ≡ min (self.old.due) slot.commit }
    {
        self.due = self.due.min(slot.commit);
        let body = &mut *self.body;
        let at = place_of(bytes, &body.items, &slot);
        body.first = first_with(body.first, at, slot);
        insert_at(&mut body.items, at, slot);
    }

    /// Moves all but the first 32 versions to the empty page.
    pub(crate) fn split(&mut self, bytes: &[u8], upper: &mut Page)
        requires empty { IsEmptyPage upper.old }
        requires slots { AllByRecursion (IsSlot bytes.now) (slots_of self.old) }
        requires first { first_of self.old ≡ slice_index_or (slots_of self.old) 0 (first_of self.old) }
        requires full { length (slots_of self.old) ≡ 65 }
        requires room { 65 ≤ capacity_of self.old }
        ensures lower { slots_of self.new ≡ take 32 (slots_of self.old) }
        ensures upper { slots_of upper.new ≡ drop 32 (slots_of self.old) }
        ensures lower_due { self.new.due ≡ self.old.due }
        ensures upper_due { upper.new.due ≡ self.old.due }
        ensures lower_page { IsPage bytes.now self.new }
        ensures upper_page { IsPage bytes.now upper.new }
    {
        upper.due = self.due;
        let lower = &mut *self.body;
        let behind = &mut *upper.body;
        move_behind(&mut lower.items, 32, &mut behind.items);
        behind.first = first_or(&behind.items, lower.first);
    }

    /// The versions with commit above t go.
    pub(crate) fn drop_later(&mut self, t: u64)
        ensures items { slots_of self.new ≡ filter (λ x. nat_le x.commit t) (slots_of self.old) }
        ensures first { first_of self.new ≡ slice_index_or (slots_of self.new) 0 (first_of self.new) }
        ensures due { self.new.due ≡ self.old.due }
        ensures capacity { capacity_of self.new ≡ capacity_of self.old }
    {
        let body = &mut *self.body;
        drop_later(&mut body.items, t);
        body.first = first_or(&body.items, body.first);
    }
}
