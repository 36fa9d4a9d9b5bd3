// A write of a transaction, in few bytes.
ghost use Rattle.std.specs.Prelude.{◌≡◌, true, IfOk};
ghost use Rattle.xc_source.specs.Calls.{aborted_write};
ghost use Rattle.xc_source.specs.Waiting.{is_waiting, taken_write};

use smallvec::SmallVec;
use std::alloc::{AllocError, Global};
use std::marker::Model;
use xc_arena::{key as key_at, op as op_at};
use xc_base::Key;
use xc_record::{Header, OpAt, hash_bytes};

// An operation of so many bytes lies in its write, and a longer one in memory of its own.
const SHORT_OP: usize = 16;

// A write of a transaction, its operation packed. Contracts see it as the definition's.
#[derive(Drop, Debug)]
pub(crate) struct Write {
    // the bytes of the operation
    bytes: SmallVec<u8, SHORT_OP>,
    // the hash of its key
    hash: u16,
    sub: u8,
    waits: bool,
}

impl Model for Write {
    ghost use Rattle.xc_arena.specs.Arena.{op_at};
    ghost use Rattle.xc_source.specs.declared.transaction.Provisional.{Provisional};
    ghost use Rattle.xc_source.specs.Universe.{IsWrite};

    ghost Value = { Provisional };

    ghost view = { λ w. record { sub = w.sub; op = op_at w.bytes.items 0; waits = w.waits } };

    ghost invariant = { λ w. IsWrite w.bytes.items w.hash };
}

impl Write {
    // A write of the subtransaction that waits. Its operation is copied as it lies.
    pub(crate) fn new(alloc: Global, sub: u8, op: &OpAt<'_>) -> Result<Write, AllocError>
        ensures { IfOk result (λ w. w ≡ record { sub = sub; op = op.now; waits = true }) }
    {
        let bytes = SmallVec::from_slice(alloc, op.bytes())?;
        Ok(Write {
            bytes,
            hash: hash_bytes(op.key_bytes()),
            sub,
            waits: true,
        })
    }

    // The subtransaction, 1 to 64, or 0 where it belongs to none.
    pub(crate) fn sub(&self) -> u8
        ensures { result ≡ self.now.sub }
    {
        self.sub
    }

    // Whether no apply or abort of the transaction took it yet.
    pub(crate) fn waits(&self) -> bool
        ensures { result ≡ self.now.waits }
    {
        self.waits
    }

    // Whether it waits on the tablet with this header.
    pub(crate) fn waits_on(&self, header: &Header) -> bool
        ensures { result ≡ is_waiting header.now self.now }
    {
        self.waits && header.holds(self.hash)
    }

    pub(crate) fn key(&self) -> Key
        ensures { result ≡ self.now.op.key }
    {
        key_at(self.bytes.as_slice(), 0)
    }

    // Its operation, where it lies.
    pub(crate) fn op(&self) -> OpAt<'_>
        ensures { result ≡ self.now.op }
    {
        op_at(self.bytes.as_slice(), 0)
    }

    // It waits no more.
    pub(crate) fn end(&mut self)
        ensures { self.new ≡ aborted_write self.old }
    {
        self.waits = false;
    }

    // It waits no more where the tablet with this header holds its key.
    pub(crate) fn take(&mut self, header: &Header)
        ensures { self.new ≡ taken_write header.now self.old }
    {
        if header.holds(self.hash) {
            self.end();
        }
    }
}
