// The bytes of operations.
ghost use Rattle.std.specs.Prelude.{◌≡◌, ◌≤◌, ◌<◌, ◌+◌, ◌^◌, length, vec_len, vec_capacity, IfOk, OnErr, []};
ghost use Rattle.xc_record.specs.Inline.{bytes_of};
ghost use Rattle.xc_record.specs.declared.bytes.TheConstants.{INLINE_BYTES};

use std::alloc::{AllocError, Global};
use std::marker::Model;
use std::mem;

// So many bytes lie in the value itself, which is no larger for them: a `Vec` and the tag take as much.
const INLINE_BYTES: usize = 30;

/// A few bytes, with others behind them that say nothing.
#[derive(Drop, Debug)]
pub(crate) struct Inline {
    len: u8,
    bytes: [u8; INLINE_BYTES],
}

impl Model for Inline {
    ghost use Rattle.std.specs.Prelude.{ℕ, List, take, ◌≤◌};
    ghost use Rattle.xc_record.specs.declared.bytes.TheConstants.{INLINE_BYTES};

    ghost Value = { List ℕ };

    ghost view = { λ f. take f.len f.bytes };

    ghost invariant = { λ f. f.len ≤ INLINE_BYTES };
}

impl Inline {
    fn of(bytes: &[u8]) -> Inline
        requires { length bytes.now ≤ INLINE_BYTES }
        ensures { result ≡ bytes.now }
    {
        let mut buffer = [0u8; INLINE_BYTES];
        buffer[..bytes.len()].copy_from_slice(bytes);
        Inline {
            len: bytes.len() as u8,
            bytes: buffer,
        }
    }

    #[inline]
    fn as_slice(&self) -> &[u8]
        ensures { result.now ≡ self.now }
    {
        &self.bytes[..self.len as usize]
    }
}

/// Bytes of operations: a few lie in the value itself, and more in memory of their own.
#[derive(Drop, Debug)]
pub(crate) enum Bytes {
    Inline(Inline),
    Heap(Vec<u8>),
}

impl Bytes {
    /// The same bytes as these, in no more memory than they need.
    #[inline]
    pub(crate) fn of(alloc: Global, bytes: &[u8]) -> Result<Bytes, AllocError>
        ensures { IfOk result (λ copy. bytes_of copy ≡ bytes.now) }
    {
        if bytes.len() <= INLINE_BYTES {
            return Ok(Bytes::Inline(Inline::of(bytes)));
        }
        Ok(Bytes::Heap(Vec::from_slice(alloc, bytes)?))
    }

    /// The bytes.
    #[inline]
    pub(crate) fn as_slice(&self) -> &[u8]
        ensures bytes { result.now ≡ bytes_of self.now }
        ensures small { length result.now < 2 ^ 64 }
    {
        match self {
            Bytes::Inline(inline) => inline.as_slice(),
            Bytes::Heap(heap) => heap.as_slice(),
        }
    }

    /// Takes the bytes out, in memory of their own with room for so many more, to be put back there. After an error they
    /// are as before.
    #[inline]
    pub(crate) fn take(&mut self, alloc: Global, more: usize) -> Result<Vec<u8>, AllocError>
        ensures bytes { IfOk result (λ bytes. bytes.items ≡ bytes_of self.old) }
        ensures room { IfOk result (λ bytes. vec_len bytes + more ≤ vec_capacity bytes) }
        ensures err { OnErr result (bytes_of self.new ≡ bytes_of self.old) }
    {
        match self {
            Bytes::Heap(heap) => {
                heap.reserve(more)?;
                Ok(mem::replace(heap, Vec::new(alloc)))
            }
            Bytes::Inline(inline) => {
                let mut heap = Vec::from_slice(alloc, inline.as_slice())?;
                heap.reserve(more)?;
                Ok(heap)
            }
        }
    }

    /// No bytes. Memory of their own is kept.
    #[inline]
    pub(crate) fn clear(&mut self)
        ensures { bytes_of self.new ≡ [] }
    {
        match self {
            Bytes::Inline(inline) => inline.len = 0,
            Bytes::Heap(heap) => heap.clear(),
        }
    }
}
