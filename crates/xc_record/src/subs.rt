// Subtransactions of one transaction.
ghost use Rattle.std.specs.Prelude.{◌≡◌, ◌≤◌, true, [], length, ◌↔◌, IsTrue, bytes_eq};
ghost use Rattle.std.specs.Iterator.{YieldsFirst, item_count};
ghost use Rattle.xc_record.specs.Lists.{has, insert_number};
ghost use Rattle.xc_record.specs.Subs.{are_subs};

use std::marker::Model;
use xc_base::LAST_SUB;

/// Numbers of subtransactions, from 1 to [`LAST_SUB`], which contracts see as their rising list. They take no memory.
#[derive(Drop, Debug)]
pub struct Subs {
    bits: u64,
}

impl Model for Subs {
    ghost use Rattle.std.specs.Prelude.{List, ℕ, ◌<◌, ◌^◌};
    ghost use Rattle.xc_record.specs.Subs.{numbers_in};

    ghost Value = { List ℕ };

    ghost view = { λ s. numbers_in s.bits };

    ghost invariant = { λ s. s.bits < 2 ^ 64 };
}

impl Subs {
    /// No numbers.
    pub fn new() -> Subs
        ensures { result ≡ [] }
    {
        Subs { bits: 0 }
    }

    /// Whether the number is among them; 0 and numbers above [`LAST_SUB`] never are.
    #[inline]
    pub fn contains(&self, sub: u8) -> bool
        ensures { result ≡ has sub self.now }
    {
        let bits = self.bits;
        if sub < 1 || sub > LAST_SUB {
            return false;
        }
        bits >> (sub - 1) & 1 == 1
    }

    /// Puts the number among them.
    pub fn insert(&mut self, sub: u8)
        requires low { 1 ≤ sub }
        requires high { sub ≤ LAST_SUB }
        ensures { self.new ≡ insert_number sub self.old }
    {
        self.bits |= 1 << (sub - 1);
    }

    /// How many there are.
    pub fn len(&self) -> u32
        ensures count { result ≡ length self.now }
        ensures well { are_subs self.now ≡ true }
    {
        self.bits.count_ones()
    }

    /// Whether there are none.
    pub fn is_empty(&self) -> bool
        ensures { IsTrue result ↔ (self.now ≡ []) }
    {
        self.bits == 0
    }

    /// The same numbers once more.
    #[inline]
    pub fn copied(&self) -> Subs
        ensures { result ≡ self.now }
    {
        Subs { bits: self.bits }
    }

    /// Whether both have the same numbers.
    #[inline]
    pub fn is_same(&self, other: &Subs) -> bool
        ensures { result ≡ bytes_eq self.now other.now }
    {
        self.bits == other.bits
    }

    /// The numbers, rising.
    pub fn iter(&self) -> SubsIter
        ensures { result ≡ self.now }
    {
        SubsIter { bits: self.bits }
    }
}

/// Numbers of subtransactions that are left to be gone over. Contracts see them as a list.
#[derive(Drop, Debug)]
pub struct SubsIter {
    bits: u64,
}

impl Model for SubsIter {
    ghost use Rattle.std.specs.Prelude.{List, ℕ, ◌<◌, ◌^◌};
    ghost use Rattle.xc_record.specs.Subs.{numbers_in};

    ghost Value = { List ℕ };

    ghost view = { λ s. numbers_in s.bits };

    ghost invariant = { λ s. s.bits < 2 ^ 64 };
}

impl Iterator for SubsIter {
    type Item = u8;

    ghost next_gives = { YieldsFirst (λ left. left) };

    ghost remaining = { item_count (λ left. left) };

    fn next(&mut self) -> Option<u8> {
        if self.bits == 0 {
            return None;
        }
        let place = self.bits.trailing_zeros();
        self.bits &= !(1 << place);
        Some(place as u8 + 1)
    }
}
