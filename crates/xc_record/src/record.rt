// What the source's logs are made of: tablets, each with a header and its write-ahead records.
ghost use Rattle.std.specs.Prelude.{◌≡◌, ◌<◌, ◌++◌, ◌∷◌, [], length, OnOk, OnErr, is_ok, if◌then◌else◌};
ghost use Rattle.xc_record.specs.Hash.{holds};
ghost use Rattle.xc_record.specs.Grown.{with_record};

use crate::ops::Ops;
use crate::subs::Subs;
use std::alloc::AllocError;
use std::marker::Model;
use xc_base::{Key, Value};
use xc_time::HybridTime;

/// Sets a key to a value, or removes it.
#[derive(Clone, Copy, PartialEq, Eq, Debug)]
pub struct Op {
    /// The row's key, whose hash lies in the tablet's range.
    pub key: Key,
    /// What it is set to, or None where it is removed.
    pub value: Option<Value>,
}

/// What a record says. Transactions are numbered from 1.
#[derive(Drop, Debug)]
pub enum Kind {
    /// A write of one tablet, which commits at its log time.
    Write {
        ops: Ops,
    },
    /// Provisional records of a distributed transaction: its operations wait here until its apply or abort. They belong
    /// to the transaction's subtransaction `sub`, 1 to `LAST_SUB`, or to none where it is 0.
    Intent {
        sub: u8,
        txn: u32,
        ops: Ops,
    },
    /// The transaction committed at this time. What waits of it becomes versions of the rows, but for the
    /// subtransactions `without`, which were rolled back: what waits of these is dropped.
    Apply {
        txn: u32,
        commit: HybridTime,
        without: Subs,
    },
    /// The transaction was rolled back here, and what waits of it is dropped.
    Abort {
        txn: u32,
    },
    /// No later record of this tablet commits at or below this time.
    Safe {
        value: HybridTime,
    },
    /// The tablet ended, and two children go on: the left one below the hash `at`, the right one from there.
    Split {
        at: u16,
        left: u32,
        right: u32,
    },
}

/// A write-ahead record.
#[derive(Drop, Debug)]
pub struct Record {
    /// When the tablet logged it.
    pub time: HybridTime,
    /// What it says.
    pub kind: Kind,
}

/// The records of a tablet, which contracts see as a list. They are numbered from 1.
#[derive(Drop, Debug)]
pub struct Records {
    items: Vec<Record>,
}

impl Records {
    /// The records of a vector, which it takes over.
    pub fn from_vec(items: Vec<Record>) -> Records
        ensures { result ≡ items.items }
    {
        Records { items }
    }

    /// Gives the vector back, without taking memory.
    pub fn into_vec(self) -> Vec<Record>
        ensures { result.items ≡ self }
    {
        self.items
    }

    /// The records, to be read.
    pub fn as_slice(&self) -> &[Record]
        ensures { result.now ≡ self.now }
    {
        self.items.as_slice()
    }

    /// Puts the record behind the others. After an error they are as before.
    pub fn push(&mut self, item: Record) -> Result<(), AllocError>
        ensures { self.new ≡ (if is_ok result then self.old ++ item ∷ [] else self.old) }
    {
        self.items.push(item)?;
        Ok(())
    }
}

impl Model for Records {
    ghost use Rattle.std.specs.Prelude.{List};
    ghost use Rattle.xc_record.specs.declared.record.Record.{Record};

    ghost Value = { List Record };

    ghost view = { λ l. l.items.items };
}

/// Which hashes a source tablet holds, and where it comes from.
#[derive(Clone, Copy, PartialEq, Eq, Debug)]
pub struct Header {
    /// The tablet's number, from 0.
    pub id: u32,
    /// The first hash of its range.
    pub lo: u16,
    /// The last hash of its range.
    pub hi: u16,
    /// The tablet that split into it and a sibling, or None of a root.
    pub parent: Option<u32>,
}

impl Header {
    /// Whether the tablet holds the hash: it is from `lo` to `hi`, both included.
    pub fn holds(&self, hash: u16) -> bool
        ensures { result ≡ holds self.now hash }
    {
        self.lo <= hash && hash <= self.hi
    }
}

/// A source tablet: its header and its log.
#[derive(Drop, Debug)]
pub struct Tablet {
    /// Its range and its parent.
    pub header: Header,
    /// Its records, first to last.
    pub records: Records,
}

/// The tablets of the source, which contracts see as a list. A tablet's number is its place.
#[derive(Drop, Debug)]
pub struct Tablets {
    items: Vec<Tablet>,
}

impl Tablets {
    /// The tablets of a vector, which it takes over.
    pub fn from_vec(items: Vec<Tablet>) -> Tablets
        ensures { result ≡ items.items }
    {
        Tablets { items }
    }

    /// Gives the vector back, without taking memory.
    pub fn into_vec(self) -> Vec<Tablet>
        ensures { result.items ≡ self }
    {
        self.items
    }

    /// The tablets, to be read.
    pub fn as_slice(&self) -> &[Tablet]
        ensures { result.now ≡ self.now }
    {
        self.items.as_slice()
    }

    /// Puts the tablet behind the others. After an error they are as before.
    pub fn push(&mut self, item: Tablet) -> Result<(), AllocError>
        ensures { self.new ≡ (if is_ok result then self.old ++ item ∷ [] else self.old) }
    {
        self.items.push(item)?;
        Ok(())
    }

    /// Puts the record behind those of the tablet of this number. After an error all is as before.
    pub fn push_record(&mut self, id: u32, item: Record) -> Result<(), AllocError>
        requires { id < length self.old }
        ensures ok { OnOk result (self.new ≡ with_record id item self.old) }
        ensures err { OnErr result (self.new ≡ self.old) }
    {
        self.items[id as usize].records.push(item)
    }
}

impl Model for Tablets {
    ghost use Rattle.std.specs.Prelude.{List};
    ghost use Rattle.xc_record.specs.declared.record.Tablet.{Tablet};

    ghost Value = { List Tablet };

    ghost view = { λ l. l.items.items };
}

/// The logs of the source's tablets.
#[derive(Drop, Debug)]
pub struct Logs {
    /// All tablets, the roots first.
    pub tablets: Tablets,
}

/// Which order rule a record violates, the first in this order. The floor of a tablet is the value of its last safe
/// record, else its parent's final floor, else 0.
#[derive(Clone, Copy, PartialEq, Eq, Debug)]
pub enum Break {
    /// The log time isn't above that of the record before, or of the parent's split.
    TimeBack,
    /// An apply's commit is above its log time.
    CommitAhead,
    /// An apply's commit is at or below the floor.
    CommitBelow,
    /// A safe value is below the floor.
    SafeBack,
    /// A safe value is above its log time.
    SafeAhead,
    /// The record follows a split.
    AfterSplit,
}

/// How the logs disagree on a committed transaction at a tablet.
#[derive(Clone, Copy, PartialEq, Eq, Debug)]
pub enum AgreeKind {
    /// An apply there has another commit time.
    CommitDiffers,
    /// An apply there names other subtransactions as rolled back.
    RollbackDiffers,
    /// An intent there was logged at or after the commit.
    LateIntent,
    /// An abort of it stands there.
    Aborted,
    /// A safe record there has a value at or above the commit while an operation of it still waits.
    Straggler,
}
