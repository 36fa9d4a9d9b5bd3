// Operations of a record, packed into bytes, which contracts see as a list.
ghost use Rattle.std.specs.Prelude.{◌≡◌, true, bytes_eq, ◌++◌, ◌∷◌, ◌↔◌, ◌<◌, ◌≤◌, ◌^◌, [], length, is_ok, IsTrue};
ghost use Rattle.std.specs.Prelude.{IfOk, OnOk, if◌then◌else◌, slice_get};
ghost use Rattle.std.specs.Cmp.{partial_equiv_from_equiv};
ghost use Rattle.std.specs.Ordering.{on};
ghost use Rattle.std.specs.Cmp.Lexicographic.{on_texts_equal};
ghost use Rattle.xc_record.specs.Packed.{encode, encode_op, is_op, op_of, IsAt};
ghost use Rattle.xc_record.specs.Inline.{bytes_of};
ghost use Rattle.xc_record.specs.declared.packed.TheConstants.{OP_BYTES};
ghost use Rattle.std.specs.Iterator.{YieldsFirst, item_count};
ghost use Rattle.std.specs.Option.{option_map_or, option_copied};
ghost use Rattle.xc_base.specs.Names.{is_key, is_value};

use crate::bytes::Bytes;
use crate::packed::{OP_BYTES, after_op, after_text, op_bytes, put_op, put_parts, text, value};
use crate::record::Op;
use std::alloc::{AllocError, Global};
use std::marker::Model;
use xc_base::{Key, Value};

/// The operations of a record, one after another in bytes, of which a few take no memory of their own. Contracts see
/// them as a list.
#[derive(Drop, Debug)]
pub struct Ops {
    bytes: Bytes,
    alloc: Global,
}

impl Model for Ops {
    ghost use Rattle.std.specs.Prelude.{List};
    ghost use Rattle.xc_record.specs.declared.record.Op.{Op};
    ghost use Rattle.xc_record.specs.Packed.{decode, IsPacked};
    ghost use Rattle.xc_record.specs.Inline.{bytes_of};

    ghost Value = { List Op };

    ghost view = { λ l. decode (bytes_of l.bytes) };

    ghost invariant = { λ l. IsPacked (bytes_of l.bytes) };
}

// Puts an operation last, or leaves the bytes as they are.
fn push_op(bytes: &mut Bytes, alloc: Global, op: &Op) -> Result<(), AllocError>
    ensures items { bytes_of bytes.new
        ≡ (if is_ok result then bytes_of bytes.old ++ encode_op op.now else bytes_of bytes.old) }
    ensures well { OnOk result (is_op op.now ≡ true) }
{
    let mut heap = bytes.take(alloc, OP_BYTES)?;
    put_op(&mut heap, &op.key, &op.value);
    *bytes = Bytes::Heap(heap);
    Ok(())
}

// Puts the operation of a key and a value last, or of a key and None, or leaves the bytes as they are.
#[inline]
fn push_parts(
    bytes: &mut Bytes,
    alloc: Global,
    key: &[u8],
    value: Option<&[u8]>,
) -> Result<(), AllocError>
    requires key { is_key key.now ≡ true }
    requires value { option_map_or is_value (option_copied value) true ≡ true }
    ensures items { bytes_of bytes.new
        ≡ (if is_ok result then bytes_of bytes.old ++ encode_op
        (record { key = key.now; value = option_copied value.entry }) else bytes_of bytes.old) }
    ensures well { OnOk result (is_op (record { key = key.now; value = option_copied value.entry }) ≡ true) }
{
    let mut heap = bytes.take(alloc, OP_BYTES)?;
    put_parts(&mut heap, key, value);
    *bytes = Bytes::Heap(heap);
    Ok(())
}

// Puts bytes last, or leaves them as they are.
#[inline]
fn extend(bytes: &mut Bytes, alloc: Global, more: &[u8]) -> Result<(), AllocError>
    ensures { bytes_of bytes.new
        ≡ (if is_ok result then bytes_of bytes.old ++ more.now else bytes_of bytes.old) }
{
    let mut heap = bytes.take(alloc, more.len())?;
    let done = heap.extend_from_slice(more);
    *bytes = Bytes::Heap(heap);
    done
}

// Puts an operation last as it lies in other bytes, or leaves the bytes as they are.
#[inline]
fn copy_op(bytes: &mut Bytes, alloc: Global, op: &OpAt<'_>) -> Result<(), AllocError>
    ensures items { bytes_of bytes.new
        ≡ (if is_ok result then bytes_of bytes.old ++ encode_op op.now else bytes_of bytes.old) }
    ensures well { OnOk result (is_op op.now ≡ true) }
{
    extend(bytes, alloc, op.bytes())
}

impl Ops {
    /// No operations. It keeps the allocator for its growth.
    pub fn new(alloc: Global) -> Ops
        ensures { result ≡ [] }
    {
        Ops {
            bytes: Bytes::Heap(Vec::new(alloc)),
            alloc,
        }
    }

    /// Puts an operation last. After an error they are as before.
    pub fn push(&mut self, op: Op) -> Result<(), AllocError>
        ensures { self.new ≡ (if is_ok result then self.old ++ op ∷ [] else self.old) }
    {
        push_op(&mut self.bytes, self.alloc, &op)
    }

    /// Puts the operation of a key and a value last, or of a key and None, which removes it, given by their bytes.
    /// After an error they are as before.
    #[inline]
    pub fn push_bytes(&mut self, key: &[u8], value: Option<&[u8]>) -> Result<(), AllocError>
        requires key { is_key key.now ≡ true }
        requires value { option_map_or is_value (option_copied value) true ≡ true }
        ensures { self.new
            ≡ (if is_ok result then self.old ++ record { key = key.now; value = option_copied value.entry } ∷ [] else
            self.old) }
    {
        push_parts(&mut self.bytes, self.alloc, key, value)
    }

    /// Puts an operation last as it lies in other bytes. After an error they are as before.
    #[inline]
    pub fn push_at(&mut self, op: &OpAt<'_>) -> Result<(), AllocError>
        ensures { self.new ≡ (if is_ok result then self.old ++ op.now ∷ [] else self.old) }
    {
        copy_op(&mut self.bytes, self.alloc, op)
    }

    /// Puts other operations last, as they lie. After an error they are as before.
    #[inline]
    pub fn append(&mut self, ops: &Ops) -> Result<(), AllocError>
        ensures { self.new ≡ (if is_ok result then self.old ++ ops.now else self.old) }
    {
        extend(&mut self.bytes, self.alloc, ops.bytes.as_slice())
    }

    /// Removes them all, and keeps the memory.
    #[inline]
    pub fn clear(&mut self)
        ensures { self.new ≡ [] }
    {
        self.bytes.clear();
    }

    /// Whether there are none.
    #[inline]
    pub fn is_empty(&self) -> bool
        ensures { IsTrue result ↔ (self.now ≡ []) }
    {
        self.bytes.as_slice().is_empty()
    }

    /// The operations where they lie, first to last.
    #[inline]
    pub fn iter(&self) -> OpsIter<'_>
        ensures all { result ≡ self.now }
        ensures small { length self.now < 2 ^ 64 }
    {
        OpsIter {
            rest: self.bytes.as_slice(),
        }
    }

    /// How many there are. It goes over them.
    pub fn len(&self) -> usize
        ensures { result ≡ length self.now }
    {
        self.iter().count()
    }

    /// The operation of this number, from 0. It goes over those before.
    pub fn op(&self, n: usize) -> Option<Op>
        ensures { result ≡ slice_get self.now n }
    {
        let mut before = n;
        for op in self.iter() {
            if before == 0 {
                return Some(op.get());
            }
            before -= 1;
        }
        None
    }

    /// The same operations, in no more memory than they need.
    pub fn clone_in(&self, alloc: Global) -> Result<Ops, AllocError>
        ensures { IfOk result (λ ops. ops ≡ self.now) }
    {
        Ok(Ops {
            bytes: Bytes::of(alloc, self.bytes.as_slice())?,
            alloc,
        })
    }
}

/// An operation where it lies in the bytes. Contracts see it as the operation.
#[derive(Clone, Drop)]
pub struct OpAt<'a> {
    // its bytes, and those behind it
    bytes: &'a [u8],
}

impl<'a> Model for OpAt<'a> {
    ghost use Rattle.xc_record.specs.declared.record.Op.{Op};
    ghost use Rattle.xc_record.specs.Packed.{op_of, IsAt};

    ghost Value = { Op };

    ghost view = { λ o. op_of o.bytes.now };

    ghost invariant = { λ o. IsAt o.bytes.now };
}

impl<'a> OpAt<'a> {
    /// The operation in front of these bytes.
    #[inline]
    pub fn of(bytes: &'a [u8]) -> OpAt<'a>
        requires { IsAt bytes.now }
        ensures { result ≡ op_of bytes.now }
    {
        OpAt { bytes }
    }

    /// The bytes of its key, without making one.
    #[inline]
    pub fn key_bytes(&self) -> &'a [u8]
        ensures bytes { result.now ≡ self.now.key }
        ensures well { is_op self.now ≡ true }
    {
        text(self.bytes)
    }

    /// Its key.
    #[inline]
    pub fn key(&self) -> Key
        ensures { result ≡ self.now.key }
    {
        Key::of(self.key_bytes())
    }

    /// Its value.
    pub fn value(&self) -> Option<Value>
        ensures { result ≡ self.now.value }
    {
        value(after_text(self.bytes))
    }

    /// Its bytes, as they lie.
    #[inline]
    pub fn bytes(&self) -> &'a [u8]
        ensures bytes { result.now ≡ encode_op self.now }
        ensures few { length result.now ≤ OP_BYTES }
        ensures well { is_op self.now ≡ true }
    {
        op_bytes(self.bytes)
    }

    /// The operation by value.
    pub fn get(&self) -> Op
        ensures { result ≡ self.now }
    {
        Op {
            key: self.key(),
            value: self.value(),
        }
    }
}

/// Operations that are left to be gone over where they lie. Contracts see them as a list.
#[derive(Clone, Drop)]
pub struct OpsIter<'a> {
    rest: &'a [u8],
}

impl<'a> Model for OpsIter<'a> {
    ghost use Rattle.std.specs.Prelude.{List};
    ghost use Rattle.xc_record.specs.declared.record.Op.{Op};
    ghost use Rattle.xc_record.specs.Packed.{decode, IsPacked};

    ghost Value = { List Op };

    ghost view = { λ l. decode l.rest.now };

    ghost invariant = { λ l. IsPacked l.rest.now };
}

impl<'a> Iterator for OpsIter<'a> {
    type Item = OpAt<'a>;

    ghost next_gives = { YieldsFirst (λ left. left) };

    ghost remaining = { item_count (λ left. left) };

    #[inline]
    fn next(&mut self) -> Option<OpAt<'a>> {
        if self.rest.is_empty() {
            return None;
        }
        let bytes = self.rest;
        self.rest = after_op(bytes);
        Some(OpAt { bytes })
    }
}

impl PartialEq for Ops {
    ghost eq = { on encode bytes_eq };

    ghost laws = { partial_equiv_from_equiv (on_texts_equal encode) };

    fn eq(&self, other: &Ops) -> bool {
        self.bytes.as_slice() == other.bytes.as_slice()
    }
}

impl Eq for Ops {
    ghost laws = { on_texts_equal encode };
}

impl Clone for Ops {
    ghost is_clone = { λ ops copy. copy ≡ ops };

    fn clone(&self) -> Result<Ops, AllocError> {
        self.clone_in(self.alloc)
    }
}
