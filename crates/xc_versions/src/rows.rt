// Rows in byte order of keys, and how they come about while versions are gone over in order.
ghost use Rattle.std.specs.Prelude.{◌≡◌, ◌≤◌, ◌<◌, ℕ, List, ◌++◌, ◌-◌, [], true, false, length, map};
ghost use Rattle.std.specs.Prelude.{slice_get, slice_index_or, OnOk};
ghost use Rattle.std.specs.List.{AllByRecursion};
ghost use Rattle.xc_record.specs.Path.{Written};
ghost use Rattle.xc_record.specs.Rows.{put_row, rows_after};
ghost use Rattle.xc_versions.specs.Stored.{InOrder};
ghost use Rattle.xc_arena.specs.Arena.{key_at, value_at, Lies};
ghost use Rattle.xc_versions.specs.Slots.{seen};
ghost use Rattle.xc_versions.specs.Heads.{IsSlot};
ghost use Rattle.xc_versions.specs.RowsSeen.{row_of, is_row_of, Below, Under, MayPass, ops_to};
ghost use Rattle.xc_versions.specs.declared.stored.StoredVersion.{StoredVersion};

use crate::stored::Slot;
use std::alloc::{AllocError, Global};
use std::collections::VecDeque;
use std::marker::Model;
use xc_base::{Key, Value};

/// Rows, each a key and its value, which contracts see as a list of pairs.
#[derive(Drop, Debug)]
pub struct Rows {
    items: Vec<(Key, Value)>,
}

impl Model for Rows {
    ghost use Rattle.std.specs.Prelude.{List, ℕ};

    ghost Value = { List (List ℕ × List ℕ) };

    ghost view = { λ l. l.items.items };
}

impl Rows {
    /// No rows. It keeps the allocator for its growth.
    pub fn new(alloc: Global) -> Rows
        ensures { result ≡ [] }
    {
        Rows {
            items: Vec::new(alloc),
        }
    }

    /// The rows of a vector, which it takes over.
    pub fn from_vec(items: Vec<(Key, Value)>) -> Rows
        ensures { result ≡ items.items }
    {
        Rows { items }
    }

    /// Gives the vector back, without taking memory.
    pub fn into_vec(self) -> Vec<(Key, Value)>
        ensures { result.items ≡ self }
    {
        self.items
    }

    /// The rows, to be read.
    pub fn as_slice(&self) -> &[(Key, Value)]
        ensures { result.now ≡ self.now }
    {
        self.items.as_slice()
    }

    /// How many rows there are.
    pub fn len(&self) -> usize
        ensures { result ≡ length self.now }
    {
        self.items.len()
    }
}

// Whether the last row is of this key.
fn ends_at(rows: &[(Key, Value)], key: &Key) -> bool
    ensures { result ≡ is_row_of key.now (slice_get rows.now (length rows.now - 1)) }
{
    match rows.last() {
        Some(row) => row.0 == *key,
        None => false,
    }
}

// Removes the last row, where it is of this key.
fn drop_row(rows: &mut Vec<(Key, Value)>, key: &Key)
    ensures { (lesser : List (List ℕ × List ℕ)) (at : Written) → rows.old.items ≡ lesser ++ row_of key.now at
        → Below lesser key.now → rows.new.items ≡ lesser }
{
    if ends_at(rows, key) {
        let _ = rows.pop();
    }
}

// Puts what the version leaves at its key, which is at least the rows' keys.
fn put_version(rows: &mut Vec<(Key, Value)>, bytes: &[u8], at: u32) -> Result<(), AllocError>
    requires under { Under rows.old.items (key_at bytes.now at) }
    requires lies { Lies bytes.now at }
    ensures { OnOk result (rows.new.items ≡ put_row (key_at bytes.now at) (value_at bytes.now at) rows.old.items) }
{
    let key = xc_arena::key(bytes, at);
    drop_row(rows, &key);
    if let Some(value) = xc_arena::value_of(bytes, at) {
        rows.push((key, value))?;
    }
    Ok(())
}

// Whether this version is put into the rows at t. It is passed where it is later, and where the next one of its page is
// of the same key and isn't later: the slots alone tell both, unless the heads of keys don't tell them apart.
fn is_shown(bytes: &[u8], slots: &VecDeque<Slot>, i: usize, t: u64) -> bool
    requires slots { AllByRecursion (IsSlot bytes.now) slots.now.items }
    requires within { i < length slots.now.items }
    ensures put { result ≡ true → (x : StoredVersion) → x ≡ slice_index_or (map (seen bytes.now) slots.now.items) i x
        → x.commit ≤ t }
    ensures passed { result ≡ false → MayPass t (map (seen bytes.now) slots.now.items) i }
{
    let slot = &slots[i];
    if slot.commit > t {
        return false;
    }
    if i + 1 >= slots.len() {
        return true;
    }
    let next = &slots[i + 1];
    next.commit > t || !slot.is_of_key(bytes, next)
}

/// Puts what the versions with commit at most t leave at their keys, which are at least the rows' keys.
pub(crate) fn put_versions(
    rows: &mut Vec<(Key, Value)>,
    bytes: &[u8],
    slots: &VecDeque<Slot>,
    t: u64,
) -> Result<(), AllocError>
    requires under { AllByRecursion (λ x. Under rows.old.items x.key) (map (seen bytes.now) slots.now.items) }
    requires ordered { InOrder (map (seen bytes.now) slots.now.items) }
    requires slots { AllByRecursion (IsSlot bytes.now) slots.now.items }
    ensures { OnOk result (rows.new.items
        ≡ rows_after (ops_to t (map (seen bytes.now) slots.now.items)) rows.old.items) }
{
    for i in 0..slots.len() {
        let slot = slots[i];
        if is_shown(bytes, slots, i, t) {
            put_version(rows, bytes, slot.at)?;
        }
    }
    Ok(())
}
