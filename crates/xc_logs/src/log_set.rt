ghost use Rattle.std.specs.Prelude.{◌≡◌, ◌≤◌, ◌<◌, length, slice_get, Some, IsTrue, IfNone, IfOk, option_copied, true};
ghost use Rattle.std.specs.Prelude.{false};
ghost use Rattle.std.specs.List.{list_any};
ghost use Rattle.xc_logs.specs.LogSet.{ids_of, child_ids, IsRootOf, record_at};
ghost use Rattle.xc_record.specs.Accepted.{records};
ghost use Rattle.xc_record.specs.Headers.{are_headers, children, is_child_of};
ghost use Rattle.xc_record.specs.Valid.{is_valid, headers_of};

use std::alloc::Global;
use std::marker::Model;
use xc_base::NoMemory;
use xc_record::{Header, Logs, Record, Tablet, children};

/// Well-formed logs, to be asked by the numbers of tablets and records.
#[derive(Drop, Debug)]
pub struct LogSet {
    logs: Logs,
}

impl Model for LogSet {
    ghost use Rattle.std.specs.Prelude.{IsTrue};
    ghost use Rattle.xc_record.specs.declared.record.Logs.{Logs};
    ghost use Rattle.xc_record.specs.Valid.{is_valid};

    ghost Value = { Logs };

    ghost view = { λ s. s.logs };

    ghost invariant = { λ s. IsTrue (is_valid s.logs) };
}

impl LogSet {
    /// The set of these logs.
    pub fn new(logs: Logs) -> LogSet
        requires { IsTrue (is_valid logs) }
        ensures { result ≡ logs }
    {
        LogSet { logs }
    }

    /// The tablets, to be walked in the order of their numbers.
    pub fn tablets(&self) -> &[Tablet]
        ensures tablets { result.now ≡ self.now.tablets }
        ensures valid { IsTrue (is_valid self.now) }
    {
        self.logs.tablets.as_slice()
    }

    /// How many tablets there are.
    pub fn count(&self) -> u32
        ensures { result ≡ length self.now.tablets }
    {
        self.tablets().len() as u32
    }

    /// The header of a tablet.
    pub fn header(&self, id: u32) -> &Header
        requires { id < length self.now.tablets }
        ensures { slice_get (headers_of self.now.tablets) id ≡ Some result.now }
    {
        &self.tablets()[id as usize].header
    }

    /// Copies of the headers of all tablets, in the order of their numbers. `NoMemory` where memory is out.
    pub fn headers(&self, alloc: Global) -> Result<Vec<Header>, NoMemory>
        ensures headers { IfOk result (λ copies. copies.items ≡ headers_of self.now.tablets) }
        ensures fit { IfOk result (λ copies. are_headers copies.items ≡ true) }
    {
        let mut copies = Vec::new(alloc);
        for tablet in self.tablets() {
            copies.push(tablet.header)?;
        }
        Ok(copies)
    }

    /// The records of a tablet, to be walked in the order of their numbers.
    pub fn records(&self, id: u32) -> &[Record]
        requires { id < length self.now.tablets }
        ensures { result.now ≡ records self.now id }
    {
        self.tablets()[id as usize].records.as_slice()
    }

    /// How many records a tablet has.
    pub fn len(&self, id: u32) -> u64
        requires { id < length self.now.tablets }
        ensures { result ≡ length (records self.now id) }
    {
        self.records(id).len() as u64
    }

    /// The tablets that a tablet was split into, the left one first: None exactly where no header names it as its
    /// parent.
    pub fn children(&self, id: u32) -> Option<(u32, u32)>
        ensures children { result ≡ child_ids self.now id }
        ensures none { IfNone result (list_any (is_child_of id) (headers_of self.now.tablets) ≡ false) }
    {
        child_ids(self.tablets(), id)
    }

    /// The root that holds a hash.
    pub fn root_of(&self, hash: u16) -> u32
        ensures { IsRootOf self.now hash result }
    {
        for (i, tablet) in self.tablets().iter().enumerate() {
            if tablet.header.parent.is_none() && tablet.header.holds(hash) {
                return i as u32;
            }
        }
        0
    }

    /// A record by its number: None exactly where there is no such tablet, or the number is 0 or above its length.
    pub fn record(&self, id: u32, number: u64) -> Option<&Record>
        ensures { option_copied result ≡ record_at self.now id number }
    {
        let tablet = self.tablets().get(id as usize)?;
        let index = number.checked_sub(1)?;
        tablet.records.as_slice().get(index as usize)
    }
}

// The numbers of the first tablet that names `id` as its parent, and of the one after it.
fn child_ids(tablets: &[Tablet], id: u32) -> Option<(u32, u32)>
    ensures { result ≡ ids_of (children (headers_of tablets.now) id) }
{
    match children(tablets, id) {
        Some((left, right)) => Some((left.id, right.id)),
        None => None,
    }
}
