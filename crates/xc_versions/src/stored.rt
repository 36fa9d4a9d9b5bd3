// A version as it is kept, and the search among versions in order.
ghost use Rattle.std.specs.Prelude.{◌≡◌, length, map, filter, nat_le, true, bytes_eq};
ghost use Rattle.std.specs.VecDeque.{deque_capacity};
ghost use Rattle.std.specs.Ordering.{is_gt, nat_cmp};
ghost use Rattle.std.specs.Cmp.Lexicographic.{slice_cmp};
ghost use Rattle.std.specs.List.{AllByRecursion};
ghost use Rattle.xc_versions.specs.Stored.{stored_cmp, InOrder, reaches};
ghost use Rattle.xc_arena.specs.Arena.{key_at};
ghost use Rattle.xc_versions.specs.Slots.{seen};
ghost use Rattle.xc_versions.specs.Heads.{IsSlot, head_of};
ghost use Rattle.xc_versions.specs.Splits.{Splits};

use crate::head::Head;
use std::cmp::Ordering;
use std::collections::VecDeque;
use xc_arena::key_bytes;
use xc_base::{Key, Value};

/// A version of a row: what its key was set to, by which transaction, and when that committed. Contracts speak of
/// these, and pages keep a [`Slot`] of each.
#[derive(Clone, Copy, Debug)]
pub struct StoredVersion {
    /// When its transaction committed.
    pub commit: u64,
    /// Its place among the operations that were taken in.
    pub place: u64,
    /// Its transaction's number, 0 for a write of one tablet.
    pub txn: u32,
    /// The row's key.
    pub key: Key,
    /// What the key was set to, or None where it was removed.
    pub value: Option<Value>,
}

/// What a page keeps of a version. Its key and its value lie in the arena, which is read only where the head of its key
/// doesn't tell.
#[derive(Clone, Copy, Debug, Default)]
pub(crate) struct Slot {
    pub(crate) head: Head,
    pub(crate) commit: u64,
    pub(crate) place: u64,
    pub(crate) txn: u32,
    /// Where its operation begins.
    pub(crate) at: u32,
}

impl Slot {
    // By the bytes of the key.
    #[inline]
    fn key_order(&self, bytes: &[u8], other: &Slot) -> Ordering
        requires slot { IsSlot bytes.now self.now }
        requires other { IsSlot bytes.now other.now }
        ensures { result ≡ slice_cmp nat_cmp (key_at bytes.now self.now.at) (key_at bytes.now other.now.at) }
    {
        match self.head.order(&other.head) {
            Some(order) => order,
            None => key_bytes(bytes, self.at).cmp(&key_bytes(bytes, other.at)),
        }
    }

    // By the bytes of the key, then by commit, number and place.
    #[inline]
    fn order(&self, bytes: &[u8], other: &Slot) -> Ordering
        requires slot { IsSlot bytes.now self.now }
        requires other { IsSlot bytes.now other.now }
        ensures { result ≡ stored_cmp (seen bytes.now self.now) (seen bytes.now other.now) }
    {
        match self.key_order(bytes, other) {
            Ordering::Equal => match self.commit.cmp(&other.commit) {
                Ordering::Equal => match self.txn.cmp(&other.txn) {
                    Ordering::Equal => self.place.cmp(&other.place),
                    unequal => unequal,
                },
                unequal => unequal,
            },
            unequal => unequal,
        }
    }

    /// Whether its version is of the other's key.
    #[inline]
    pub(crate) fn is_of_key(&self, bytes: &[u8], other: &Slot) -> bool
        requires slot { IsSlot bytes.now self.now }
        requires other { IsSlot bytes.now other.now }
        ensures { result ≡ bytes_eq (key_at bytes.now self.now.at) (key_at bytes.now other.now.at) }
    {
        self.key_order(bytes, other).is_eq()
    }

    /// Whether its version stands behind the other's.
    #[inline]
    pub(crate) fn is_after(&self, bytes: &[u8], other: &Slot) -> bool
        requires slot { IsSlot bytes.now self.now }
        requires other { IsSlot bytes.now other.now }
        ensures { result ≡ is_gt (stored_cmp (seen bytes.now self.now) (seen bytes.now other.now)) }
    {
        self.order(bytes, other) == Ordering::Greater
    }

    // How its key compares with the key, whose head this is.
    #[inline]
    fn order_to(&self, bytes: &[u8], key: &Key, head: &Head) -> Ordering
        requires slot { IsSlot bytes.now self.now }
        requires head { head.now ≡ head_of key.now }
        ensures { result ≡ slice_cmp nat_cmp (key_at bytes.now self.now.at) key.now }
    {
        let key = key.bytes();
        match self.head.order(head) {
            Some(order) => order,
            None => key_bytes(bytes, self.at).cmp(&key),
        }
    }

    /// Whether its version is of a lesser key, or of this key with commit at most t. The head is that of the key.
    #[inline]
    pub(crate) fn reaches(&self, bytes: &[u8], key: &Key, head: &Head, t: u64) -> bool
        requires slot { IsSlot bytes.now self.now }
        requires head { head.now ≡ head_of key.now }
        ensures { result ≡ reaches key.now t (seen bytes.now self.now) }
    {
        match self.order_to(bytes, key, head) {
            Ordering::Less => true,
            Ordering::Equal => self.commit <= t,
            Ordering::Greater => false,
        }
    }
}

// Whether all of the versions stand before this one: the last does.
#[inline]
fn is_behind_all(bytes: &[u8], items: &VecDeque<Slot>, slot: &Slot) -> bool
    requires ordered { InOrder (map (seen bytes.now) items.now.items) }
    requires slots { AllByRecursion (IsSlot bytes.now) items.now.items }
    requires slot { IsSlot bytes.now slot.now }
    ensures { result ≡ true → Splits (λ x. is_gt (stored_cmp (seen bytes.now slot.now) (seen bytes.now x)))
        (length items.now.items) items.now.items }
{
    let count = items.len();
    count > 0 && slot.is_after(bytes, &items[count - 1])
}

/// How many of the versions stand before this one. It is often the last of all.
pub(crate) fn place_of(bytes: &[u8], items: &VecDeque<Slot>, slot: &Slot) -> usize
    requires ordered { InOrder (map (seen bytes.now) items.now.items) }
    requires slots { AllByRecursion (IsSlot bytes.now) items.now.items }
    requires slot { IsSlot bytes.now slot.now }
    ensures { Splits (λ x. is_gt (stored_cmp (seen bytes.now slot.now) (seen bytes.now x))) result items.now.items }
{
    if is_behind_all(bytes, items, slot) {
        return items.len();
    }
    let mut low = 0;
    let mut high = items.len();
    while low < high {
        let middle = low + (high - low) / 2;
        if slot.is_after(bytes, &items[middle]) {
            low = middle + 1;
        } else {
            high = middle;
        }
    }
    low
}

/// How many of the versions are of lesser keys, or of this key with commit at most t. The head is that of the key.
pub(crate) fn reached(bytes: &[u8], items: &VecDeque<Slot>, key: &Key, head: &Head, t: u64) -> usize
    requires ordered { InOrder (map (seen bytes.now) items.now.items) }
    requires slots { AllByRecursion (IsSlot bytes.now) items.now.items }
    requires head { head.now ≡ head_of key.now }
    ensures { Splits (λ x. reaches key.now t (seen bytes.now x)) result items.now.items }
{
    let mut low = 0;
    let mut high = items.len();
    while low < high {
        let middle = low + (high - low) / 2;
        if items[middle].reaches(bytes, key, head, t) {
            low = middle + 1;
        } else {
            high = middle;
        }
    }
    low
}

/// The versions with commit above t go.
pub(crate) fn drop_later(items: &mut VecDeque<Slot>, t: u64)
    ensures items { items.new.items ≡ filter (λ x. nat_le x.commit t) items.old.items }
    ensures capacity { deque_capacity items.new ≡ deque_capacity items.old }
{
    items.retain(|version| version.commit <= t);
}
