// The commits of the transactions that were applied.
ghost use Rattle.std.specs.Prelude.{◌≡◌, ◌<◌, ◌↔◌, ℕ, Some, IfOk, IsTrue, length, map, option_map, slice_get};
ghost use Rattle.xc_record.specs.Lists.{distinct};
ghost use Rattle.xc_agree.specs.Slots.{slot_of, time_of, without_of};

use std::alloc::AllocError;
use std::marker::Model;
use xc_record::Subs;

/// A transaction that was applied, and its commit: that of its first apply.
#[derive(Drop, Debug)]
pub(crate) struct Commit {
    pub(crate) txn: u32,
    pub(crate) time: u64,
    /// Its subtransactions that were rolled back.
    pub(crate) without: Subs,
}

/// The transactions that were applied, in the order of their numbers.
#[derive(Drop, Debug)]
pub(crate) struct Commits {
    items: Vec<Commit>,
}

impl Model for Commits {
    ghost use Rattle.std.specs.Prelude.{List, map};
    ghost use Rattle.std.specs.List.Sorted.{IsStrictlyIncreasing};
    ghost use Rattle.xc_agree.specs.declared.commits.Commit.{Commit};

    ghost Value = { List Commit };

    ghost view = { λ c. c.items.items };

    ghost invariant = { λ c. IsStrictlyIncreasing (map (λ commit. commit.txn) c.items.items) };
}

impl Commits {
    /// The commits by some applies, in whose order the first of a transaction is the one that counts.
    pub(crate) fn of_applies(applies: Vec<Commit>) -> Result<Commits, AllocError>
        ensures times { IfOk result (λ commits. (n : ℕ) → time_of commits n ≡ time_of applies.items n) }
        ensures undone { IfOk result (λ commits. (n : ℕ) → without_of commits n ≡ without_of applies.items n) }
        ensures count { IfOk result (λ commits. length commits ≡ length (distinct (map (λ c. c.txn) applies.items))) }
    {
        let mut items = applies;
        items.sort_by_key(|commit| commit.txn)?;
        items.dedup_by_key(|commit| commit.txn);
        Ok(Commits { items })
    }

    /// How many transactions were applied.
    pub(crate) fn len(&self) -> usize
        ensures { result ≡ length self.now }
    {
        self.items.len()
    }

    /// The transaction in this slot.
    pub(crate) fn at(&self, slot: usize) -> &Commit
        requires { slot < length self.now }
        ensures { slice_get self.now slot ≡ Some result.now }
    {
        &self.items[slot]
    }

    /// The commit time of the transaction in this slot, if there is such a slot.
    pub(crate) fn time(&self, slot: usize) -> Option<u64>
        ensures { result ≡ option_map (λ c. c.time) (slice_get self.now slot) }
    {
        match self.items.get(slot) {
            Some(commit) => Some(commit.time),
            None => None,
        }
    }

    // Whether the transaction is in this slot.
    fn is_at(&self, txn: u32, slot: usize) -> bool
        ensures { IsTrue result ↔ (slot_of self.now txn ≡ Some slot) }
    {
        match self.items.get(slot) {
            Some(commit) => commit.txn == txn,
            None => false,
        }
    }

    fn search(&self, txn: u32) -> Option<usize>
        ensures { result ≡ slot_of self.now txn }
    {
        self.items
            .as_slice()
            .binary_search_by_key(&txn, |commit| commit.txn)
            .ok()
    }

    /// The slot of the transaction, if it was applied. It is found at once in the slot `near` and beside it.
    pub(crate) fn slot(&self, txn: u32, near: usize) -> Option<usize>
        ensures { result ≡ slot_of self.now txn }
    {
        let next = near.saturating_add(1);
        let previous = near.saturating_sub(1);
        if self.is_at(txn, near) {
            Some(near)
        } else if self.is_at(txn, next) {
            Some(next)
        } else if self.is_at(txn, previous) {
            Some(previous)
        } else {
            self.search(txn)
        }
    }
}
