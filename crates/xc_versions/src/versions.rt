ghost use Rattle.std.specs.Prelude.{◌≡◌, ◌≤◌, ◌+◌, ◌*◌, ◌↔◌, [], length, IfOk, IsTrue, OnOk};
ghost use Rattle.xc_record.specs.Kept.{shown, rows_at};
ghost use Rattle.xc_versions.specs.Stored.{InOrder, IsNew, stored, stored_at, key_versions, with_version, kept, up_to};

use crate::compact::{live_bytes, move_pages};
use crate::head::Head;
use crate::page::Page;
use crate::pages::{add, grow, last_reaching, put_pages};
use crate::rows::Rows;
use crate::shrink::{drop_after, prune};
use crate::stored::Slot;
use std::alloc::Global;
use std::collections::VecDeque;
use std::marker::Model;
use xc_arena::{ARENA_BYTES, copy_op, key_bytes, reserve_ops, value_of};
use xc_base::{Key, NoMemory, Value};
use xc_record::OpAt;

// An arena in which fewer bytes are of versions that are gone is left as it is.
const KEPT_BYTES: usize = 4096;

/// Versions of many keys, which contracts see in order beside the number of those that can still be added without
/// memory.
#[derive(Drop, Debug)]
pub struct Versions {
    // The operations of the versions, one behind another, with those of versions that are gone among them. A slot
    // says where that of its version begins.
    arena: Vec<u8>,
    // Each has 1 to 64 versions.
    pages: VecDeque<Page>,
    // Empty pages, for additions.
    pool: Vec<Page>,
    // For each 64 pages at most the least cutoff that takes something from one of them. 0 where it has no entry.
    least: Vec<u64>,
    // About so many bytes of the arena are of versions that are gone.
    dead: usize,
    alloc: Global,
}

impl Model for Versions {
    ghost use Rattle.std.specs.Prelude.{length, min};
    ghost use Rattle.xc_versions.specs.Stored.{Store};
    ghost use Rattle.xc_versions.specs.Pages.{items_of, spare_of};
    ghost use Rattle.xc_versions.specs.Pool.{IsStored};
    ghost use Rattle.xc_arena.specs.Arena.{room_of};

    ghost Value = { Store };

    ghost view = { λ v. record {
      items = items_of v.arena.items v.pages.items;
      spare = min (spare_of v.pages.items
          (length v.pool.items)) (room_of v.arena);
    } };

    ghost invariant = { λ v. IsStored v.arena.items v.pages v.pool v.least };
}

impl Versions {
    /// No versions. It keeps the allocator for its growth.
    pub fn new(alloc: Global) -> Versions
        ensures { result.items ≡ [] }
    {
        Versions {
            arena: Vec::new(alloc),
            pages: VecDeque::new(alloc),
            pool: Vec::new(alloc),
            least: Vec::new(alloc),
            dead: 0,
            alloc,
        }
    }

    /// Whether there is no version.
    pub fn is_empty(&self) -> bool
        ensures none { IsTrue result ↔ (self.now.items ≡ []) }
        ensures ordered { InOrder self.now.items }
    {
        self.pages.is_empty()
    }

    /// How many pages hold a version. Each holds 1 to 64 of them.
    pub fn pages(&self) -> usize
        ensures some { result ≤ length self.now.items }
        ensures few { length self.now.items ≤ 64 * result }
    {
        self.pages.len()
    }

    /// Makes room for at least n more versions. Out of memory all is as before, and so where the operations, with n of
    /// the most bytes, could have 2^32 bytes or more.
    pub fn reserve(&mut self, n: usize) -> Result<(), NoMemory>
        ensures items { self.new.items ≡ self.old.items }
        ensures spare { self.old.spare ≤ self.new.spare }
        ensures room { OnOk result (n ≤ self.new.spare) }
    {
        reserve_ops(&mut self.arena, n)?;
        match grow(self.alloc, &self.arena, &mut self.pages, &mut self.pool, n) {
            Ok(()) => Ok(()),
            Err(_) => Err(NoMemory),
        }
    }

    /// Adds a version, for which there is room: what the transaction of this number left at the key when it committed.
    /// The place is the operation's among those that were taken in, so that it tells apart what one transaction did to
    /// a key.
    pub fn add(&mut self, op: &OpAt<'_>, commit: u64, txn: u32, place: u64)
        requires room { 1 ≤ self.old.spare }
        requires fresh { IsNew (stored op.now.key commit txn place op.now.value) self.old.items }
        ensures items { self.new.items ≡ with_version (stored op.now.key commit txn place op.now.value) self.old.items }
        ensures spare { self.old.spare ≤ self.new.spare + 1 }
        ensures was_ordered { InOrder self.old.items }
        ensures ordered { InOrder self.new.items }
    {
        let slot = Slot {
            head: Head::of(op.key_bytes()),
            commit,
            place,
            txn,
            at: self.arena.len() as u32,
        };
        copy_op(&mut self.arena, op);
        add(
            &self.arena,
            &mut self.pages,
            &mut self.pool,
            &mut self.least,
            slot,
        );
    }

    /// What the key is set to at t: by its last version with commit at most t. None comes exactly where there is none
    /// or it is a removal.
    pub fn at(&self, key: &Key, t: u64) -> Option<Value>
        ensures value { result ≡ shown t (stored_at key.now self.now.items) }
        ensures ordered { InOrder self.now.items }
    {
        let head = Head::of(key.bytes());
        match last_reaching(&self.arena, &self.pages, key, &head, t) {
            Some(slot) => {
                if key.bytes() == key_bytes(&self.arena, slot.at) {
                    value_of(&self.arena, slot.at)
                } else {
                    None
                }
            }
            None => None,
        }
    }

    /// The rows at t, in byte order of keys.
    pub fn rows(&self, alloc: Global, t: u64) -> Result<Rows, NoMemory>
        ensures rows { IfOk result (λ rows. rows ≡ rows_at t (key_versions self.now.items)) }
        ensures ordered { InOrder self.now.items }
    {
        let mut rows = Vec::new(alloc);
        match put_pages(&mut rows, &self.arena, &self.pages, t) {
            Ok(()) => Ok(Rows::from_vec(rows)),
            Err(_) => Err(NoMemory),
        }
    }

    /// Of each key's versions with commit at most the cutoff only the last stays, also where it is a removal. All
    /// others stay. Of pages that lose none only one number of each 64 is looked at.
    pub fn keep_from(&mut self, cutoff: u64)
        ensures items { self.new.items ≡ kept cutoff self.old.items }
        ensures spare { self.old.spare ≤ self.new.spare }
        ensures was_ordered { InOrder self.old.items }
        ensures ordered { InOrder self.new.items }
    {
        let dead = prune(
            &self.arena,
            &mut self.pages,
            &mut self.pool,
            &mut self.least,
            cutoff,
        );
        self.dead = self.dead.saturating_add(dead);
        if self.dead > self.arena.len() / 2 {
            self.compact();
        }
    }

    /// The versions with commit above t go, and all others stay.
    pub fn drop_after(&mut self, t: u64)
        ensures items { self.new.items ≡ up_to t self.old.items }
        ensures spare { self.old.spare ≤ self.new.spare }
        ensures was_ordered { InOrder self.old.items }
        ensures ordered { InOrder self.new.items }
    {
        drop_after(
            &self.arena,
            &mut self.pages,
            &mut self.pool,
            &mut self.least,
            t,
        );
        self.compact();
    }

    // Leaves out of the arena what no slot names, where that is at least half of it and 4 KiB. Where memory for what
    // stays is refused, the arena is left as it is.
    fn compact(&mut self)
        ensures items { self.new.items ≡ self.old.items }
        ensures spare { self.old.spare ≤ self.new.spare }
    {
        let Some(live) = live_bytes(&self.arena, &self.pages) else {
            return;
        };
        self.dead = self.arena.len().saturating_sub(live);
        if self.dead < KEPT_BYTES || self.dead < live || live > ARENA_BYTES {
            return;
        }
        let spare = self.arena.capacity() - self.arena.len();
        let Some(wanted) = live.checked_add(spare) else {
            return;
        };
        let Ok(mut arena) = Vec::with_capacity(self.alloc, wanted) else {
            return;
        };
        move_pages(&self.arena, &mut arena, &mut self.pages, &self.pool);
        self.arena = arena;
        self.dead = 0;
    }
}
