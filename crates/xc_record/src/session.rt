//! What an operator asks of a replication session, and what is answered.
ghost use Rattle.std.specs.Prelude.{◌≡◌};

use crate::record::Break;
use std::marker::Model;
use xc_base::{Key, Value};

/// Numbers, which contracts see as their list.
#[derive(Drop, Debug)]
pub struct Numbers {
    items: Vec<u64>,
}

impl Numbers {
    /// The numbers of the vector, without taking memory.
    pub fn from_vec(items: Vec<u64>) -> Numbers
        ensures { result ≡ items.items }
    {
        Numbers { items }
    }

    /// The vector of the numbers, without taking memory.
    pub fn into_vec(self) -> Vec<u64>
        ensures { result.items ≡ self }
    {
        self.items
    }

    /// The numbers in order.
    pub fn as_slice(&self) -> &[u64]
        ensures { result.now ≡ self.now }
    {
        self.items.as_slice()
    }
}

impl Model for Numbers {
    ghost use Rattle.std.specs.Prelude.{List, ℕ};

    ghost Value = { List ℕ };

    ghost view = { λ l. l.items.items };
}

/// One command of a script. Tablets are numbered from 0, times are hybrid times.
#[derive(Clone, Copy, PartialEq, Eq, Debug)]
pub enum Command {
    /// Polls up to `n` records of the source tablet to every target tablet.
    Poll { id: u32, n: u64 },
    /// A poll that stops after it delivered to the target tablets 0 to `last`.
    Stop { id: u32, n: u64, last: usize },
    /// Makes the cursor of the source tablet its checkpoint.
    Ack { id: u32 },
    /// Sets the cursor of the source tablet back to its checkpoint.
    Restart { id: u32 },
    /// Polls all records that there are to poll.
    Drain,
    /// The safe time.
    Safe,
    /// The value of a key at the safe time.
    Read { key: Key },
    /// The value of a key at a time.
    ReadAt { u: u64, key: Key },
    /// All rows at the safe time.
    Scan,
    /// Gives up the history before a time.
    Prune { u: u64 },
    /// Restores to the safe time and closes.
    Failover,
    /// The numbers of the session.
    Report,
}

/// One line of output.
#[derive(Drop, Debug)]
pub enum Line {
    Wait {
        id: u32,
        parent: u32,
    },
    Halt {
        id: u32,
        number: u64,
        kind: Break,
    },
    AtEnd {
        id: u32,
    },
    Polled {
        id: u32,
        count: u64,
    },
    Stopped {
        id: u32,
        count: u64,
    },
    Ack {
        id: u32,
        place: u64,
    },
    Restart {
        id: u32,
        place: u64,
    },
    Closed {
        t: u64,
    },
    Drain {
        t: u64,
    },
    Saw {
        reader: u32,
        t: u64,
        key: Key,
        value: Option<Value>,
    },
    Safe {
        t: u64,
    },
    Read {
        t: u64,
        key: Key,
        value: Option<Value>,
    },
    ReadAt {
        u: u64,
        key: Key,
        value: Option<Value>,
    },
    Ahead {
        u: u64,
        safe: u64,
    },
    Pruned {
        u: u64,
        cutoff: u64,
    },
    Scan {
        t: u64,
        count: u64,
    },
    Row {
        key: Key,
        value: Value,
    },
    Prune {
        cutoff: u64,
    },
    Failover {
        t: u64,
        count: u64,
    },
    Report {
        acks: Numbers,
        closed: bool,
        cursors: Numbers,
        cutoff: u64,
        places: Numbers,
        safe: u64,
    },
}

/// What a poll of a source tablet came to.
#[derive(Clone, Copy, PartialEq, Eq, Debug)]
pub enum PollAnswer {
    /// So many records were polled.
    Polled(u64),
    /// The tablet's parent isn't closed yet.
    Waits { parent: u32 },
    /// The cursor is at the end of the log.
    AtEnd,
    /// The record after the cursor breaks an order rule.
    Halted { number: u64, kind: Break },
}
