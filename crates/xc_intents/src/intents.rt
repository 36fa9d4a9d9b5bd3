// Operations that wait for their transactions. Memory is taken by `reserve` alone: slots that were gone through, and
// their operations, stay until a quarter of the slots is dead, and are gathered then where there is no room. Where none
// is live, all begins anew.
ghost use Rattle.std.specs.Prelude.{◌≡◌, ◌≤◌, ◌+◌, ◌++◌, ◌∷◌, [], length, filter, OnOk, None, Some, true, false};
ghost use Rattle.std.specs.List.{find};
ghost use Rattle.std.specs.Option.{option_map, is_some};
ghost use Rattle.xc_intents.specs.HeldOps.{held_op, is_part, is_rest, is_sought, without_first, given};
ghost use Rattle.xc_intents.specs.Gifts.{WalksGiveAll};

use crate::held::Held;
use crate::limits::MOST_LINKED;
use crate::slots::{Chain, Slot, append, gather, held_at, live_bytes, take_next, walk};
use std::alloc::{AllocError, Global};
use std::marker::Model;
use xc_arena::{ARENA_BYTES, reserve_ops};
use xc_record::OpAt;
use xc_record::packed::OP_BYTES;

/// The operations that wait, in the order in which they were held. Contracts see them as that list, beside for how many
/// more there is room, and what a walk looks for.
#[derive(Drop, Debug)]
pub struct Intents {
    // the operations one behind another, in the order held, with some that were taken out among them
    arena: Vec<u8>,
    slots: Vec<Slot>,
    chains: Vec<Chain>,
    // how many slots are dead
    dead: usize,
    // the chain that was asked for last, which is tried first, and whose walk `take_next` goes on
    recent: usize,
    // the slot of the operation that was taken out last, until slots move
    taken: Option<usize>,
    alloc: Global,
}

impl Model for Intents {
    ghost use Rattle.xc_intents.specs.HeldOps.{HeldOps};

    ghost Value = { HeldOps };

    ghost use Rattle.std.specs.Vec.{vec_len, vec_capacity};
    ghost use Rattle.std.specs.Prelude.{slice_get, min};
    ghost use Rattle.std.specs.Option.{option_map};
    ghost use Rattle.xc_arena.specs.Arena.{room_of};
    ghost use Rattle.xc_intents.specs.Slots.{held_in, room_in, sought_by, given_at, AreSlots};

    ghost view = { λ i. record {
      held = held_in i.arena.items i.slots.items;
      spare = min (room_in (vec_capacity i.slots) (vec_len i.slots)
          (vec_capacity i.chains) (vec_len i.chains)) (room_of i.arena);
      sought = option_map sought_by (slice_get i.chains.items i.recent);
      taken = option_map (given_at i.arena.items i.slots.items) i.taken;
    } };

    ghost invariant = { λ i. AreSlots i.arena.items i.slots.items i.chains.items i.dead i.taken };
}

impl Intents {
    /// No operation, and no room. It keeps the allocator for its growth.
    pub fn new(alloc: Global) -> Intents
        ensures { result.held ≡ [] }
    {
        Intents {
            arena: Vec::new(alloc),
            slots: Vec::new(alloc),
            chains: Vec::new(alloc),
            dead: 0,
            recent: 0,
            taken: None,
            alloc,
        }
    }

    /// Makes room for `n` more operations. After an error, which comes where memory is out, and where the operations,
    /// with `n` of the most bytes, could have 2^32 bytes or more, what is held is as before.
    pub fn reserve(&mut self, n: usize) -> Result<(), AllocError>
        ensures room { OnOk result (n ≤ self.new.spare) }
        ensures same { self.new.held ≡ self.old.held }
        ensures kept { self.old.spare ≤ self.new.spare }
    {
        self.start_over();
        self.gather_for(n);
        self.grow(n)
    }

    // Empties slots, chains and arena where no operation is held.
    fn start_over(&mut self)
        ensures same { self.new.held ≡ self.old.held }
        ensures kept { self.old.spare ≤ self.new.spare }
    {
        if self.dead == self.slots.len() {
            self.clear();
        }
    }

    // Gathers slots and operations where there is no room for so many more, and a quarter of the slots is dead. Where
    // memory for what is held is refused, all stays where it is.
    fn gather_for(&mut self, n: usize)
        ensures same { self.new.held ≡ self.old.held }
        ensures kept { self.old.spare ≤ self.new.spare }
    {
        let spare = self.arena.capacity() - self.arena.len();
        let short = self.slots.capacity() - self.slots.len() < n || spare / OP_BYTES < n;
        if !short || self.dead <= self.slots.len() / 4 {
            return;
        }
        let Some(live) = live_bytes(&self.arena, &self.slots) else {
            return;
        };
        if live > self.arena.len() || live > ARENA_BYTES {
            return;
        }
        let Some(wanted) = live.checked_add(spare) else {
            return;
        };
        let Ok(mut arena) = Vec::with_capacity(self.alloc, wanted) else {
            return;
        };
        gather(&self.arena, &mut arena, &mut self.slots, &mut self.chains);
        self.arena = arena;
        self.dead = 0;
        self.taken = None;
    }

    // Takes memory for so many more.
    fn grow(&mut self, n: usize) -> Result<(), AllocError>
        ensures room { OnOk result (n ≤ self.new.spare) }
        ensures same { self.new.held ≡ self.old.held }
        ensures kept { self.old.spare ≤ self.new.spare }
    {
        if n > MOST_LINKED - self.slots.len() || n > MOST_LINKED - self.chains.len() {
            return Err(AllocError);
        }
        if reserve_ops(&mut self.arena, n).is_err() {
            return Err(AllocError);
        }
        self.slots.reserve(n)?;
        self.chains.reserve(n)
    }

    /// Holds the operation of an intent of the transaction, behind all others. It takes no memory.
    pub fn hold(&mut self, txn: u32, sub: u8, op: &OpAt<'_>)
        requires { 1 ≤ self.old.spare }
        ensures held { self.new.held ≡ self.old.held ++ held_op txn sub op.now ∷ [] }
        ensures room { self.old.spare ≤ self.new.spare + 1 }
    {
        self.start_over();
        append(
            &mut self.arena,
            &mut self.slots,
            &mut self.chains,
            &mut self.recent,
            txn,
            sub,
            op,
        );
    }

    /// Begins a walk through the operations of the transaction whose keys' hashes are from `lo` to `hi`, which
    /// `take_next` takes out one after another. False comes only where it holds none of them; then the walk before may
    /// have ended. The transaction is found by the bits of its number, unless the last call was for it too.
    pub fn begin(&mut self, txn: u32, lo: u16, hi: u16) -> bool
        ensures sought { result ≡ true → self.new.sought ≡ Some (record { txn = txn; lo = lo; hi = hi }) }
        ensures none { result ≡ false → find (is_part txn lo hi) self.old.held ≡ None }
        ensures same { self.new.held ≡ self.old.held }
        ensures room { self.new.spare ≡ self.old.spare }
    {
        match walk(&mut self.chains, self.recent, txn, lo, hi) {
            None => false,
            Some(e) => {
                self.recent = e;
                true
            }
        }
    }

    /// Takes out the next operation of the walk, which `taken` gives: False exactly where none is left that it looks
    /// for. A walk passes once over each of the transaction's operations, those out of the range too, and one for a
    /// range that the last walk's holds goes on where that stood. Other calls than this one may end a walk.
    pub fn take_next(&mut self) -> bool
        ensures taken { self.new.taken ≡ option_map given (find (is_sought self.old.sought) self.old.held) }
        ensures some { result ≡ is_some self.new.taken }
        ensures left { self.new.held ≡ without_first (is_sought self.old.sought) self.old.held }
        ensures sought { self.new.sought ≡ self.old.sought }
        ensures room { self.old.spare ≤ self.new.spare }
    {
        self.taken = None;
        if self.recent >= self.chains.len() {
            return false;
        }
        match take_next(&mut self.slots, &mut self.chains, self.recent) {
            None => false,
            Some(i) => {
                self.taken = Some(i);
                self.dead += 1;
                true
            }
        }
    }

    /// The operation that the last call took out, where it was `take_next` or `take_first` and there was one.
    pub fn taken(&self) -> Option<Held<'_>>
        ensures { result ≡ self.now.taken }
    {
        match self.taken {
            None => None,
            Some(i) => Some(held_at(&self.arena, &self.slots, i)),
        }
    }

    /// Takes out the first operation of the transaction whose key's hash is from `lo` to `hi`, which `taken` gives:
    /// False exactly where there is none. It is the first step of a walk.
    pub fn take_first(&mut self, txn: u32, lo: u16, hi: u16) -> bool
        ensures taken { self.new.taken ≡ option_map given (find (is_part txn lo hi) self.old.held) }
        ensures some { result ≡ is_some self.new.taken }
        ensures left { self.new.held ≡ without_first (is_part txn lo hi) self.old.held }
        ensures room { self.old.spare ≤ self.new.spare }
    {
        if self.begin(txn, lo, hi) {
            self.take_next()
        } else {
            self.taken = None;
            false
        }
    }

    /// Takes out all operations of the transaction whose keys' hashes are from `lo` to `hi`, in one walk.
    pub fn forget(&mut self, txn: u32, lo: u16, hi: u16)
        ensures left { self.new.held ≡ filter (is_rest txn lo hi) self.old.held }
        ensures room { self.old.spare ≤ self.new.spare }
    {
        if !self.begin(txn, lo, hi) {
            return;
        }
        while self.take_next() {}
    }

    /// Takes out all operations.
    pub fn clear(&mut self)
        ensures left { self.new.held ≡ [] }
        ensures room { self.old.spare ≤ self.new.spare }
    {
        self.arena.clear();
        self.slots.clear();
        self.chains.clear();
        self.dead = 0;
        self.taken = None;
    }

    /// How many operations are held.
    pub fn len(&self) -> usize
        ensures { result ≡ length self.now.held }
    {
        self.slots.len() - self.dead
    }
}

/// The calls of a walk take, one after another, all operations that it looks for, in the order held, and no others.
pub fn walks_give_all()
    ensures { WalksGiveAll }
{}
