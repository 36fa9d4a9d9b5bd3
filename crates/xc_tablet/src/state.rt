// A target tablet's parts, and how records are taken in.
ghost use Rattle.std.specs.Prelude.{◌≡◌, ◌≤◌, ◌<◌, ◌+◌, ◌-◌, ◌^◌, ◌*◌, ℕ, true, false, List, [], ◌∷◌, length, sum};
ghost use Rattle.std.specs.Prelude.{Some, slice_get, slice_index, IfOk, OnOk, OnErr, nat_le, is_ok};
ghost use Rattle.std.specs.List.{list_all};
ghost use Rattle.xc_record.specs.declared.record.Record.{Record};
ghost use Rattle.xc_record.specs.Headers.{are_headers, children};
ghost use Rattle.xc_record.specs.Valid.{ops_in};
ghost use Rattle.xc_model.specs.Floors.{has_closed, has_started, floors_after};
ghost use Rattle.xc_model.specs.Stands.{new_tablet, TakesIn, TakesAll, TakesBatch, past};
ghost use Rattle.xc_tablet.specs.Contents.{IsContents};
ghost use Rattle.xc_tablet.specs.Room.{HasRoom};
ghost use Rattle.xc_tablet.specs.Batch.{CanTake};
ghost use Rattle.xc_tablet.specs.State.{seen, IsState, Ready, names_children};

use crate::contents::Contents;
use crate::room::Room;
use std::alloc::{AllocError, Global};
use xc_base::NoMemory;
use xc_floor::Floor;
use xc_record::{Header, Kind, Record};

/// The parts of a target tablet.
#[derive(Drop, Debug)]
pub(crate) struct State {
    /// What it keeps of the keys of its range.
    pub(crate) contents: Contents,
    /// How many records of each source tablet were taken in.
    pub(crate) places: Vec<u64>,
    /// What these leave of each source tablet.
    pub(crate) floor: Floor,
}

// What a record leaves of its source tablet.
fn take_floor(floor: &mut Floor, id: u32, kind: &Kind)
    requires is_tablet { id < length floor.old.headers }
    requires started { has_started floor.old id ≡ true }
    requires still_open { has_closed floor.old id ≡ false }
    requires names { names_children (children floor.old.headers id) kind.now ≡ true }
    ensures { floor.new ≡ floors_after id kind.now floor.old }
{
    match kind {
        Kind::Safe { value } => floor.raise(id, value.get()),
        Kind::Split { .. } => floor.split(id),
        Kind::Write { .. } | Kind::Intent { .. } | Kind::Apply { .. } | Kind::Abort { .. } => {}
    }
}

// Of the records from the number `from` on those past the place.
fn past<'a>(records: &'a [Record], place: u64, from: u64) -> &'a [Record]
    requires next { from ≤ place + 1 }
    requires fits { place + 1 < 2 ^ 64 }
    ensures { result.now ≡ past place from records.now }
{
    let skipped = (place + 1 - from) as usize;
    if records.len() <= skipped {
        return &[];
    }
    &records[skipped..]
}

impl State {
    // The header of the source tablet.
    #[inline]
    fn header(&self, id: u32) -> Header
        requires { id < length self.now.floor.headers }
        ensures { slice_get self.now.floor.headers id ≡ Some result }
    {
        self.floor.headers()[id as usize]
    }

    // Takes a record of the source tablet in, which has this header.
    fn take_in(&mut self, id: u32, header: &Header, item: &Record)
        requires { Ready id header.now (item.now ∷ []) self.old }
        ensures taken { TakesIn id item.now (seen self.old) (seen self.new) }
        ensures ready { (rs : List Record) → Ready id header.now (item.now ∷ rs) self.old
            → Ready id header.now rs self.new }
    {
        self.contents.take(header, item);
        take_floor(&mut self.floor, id, &item.kind);
        self.places[id as usize] += 1;
    }

    // Takes the records of the source tablet in, one after another.
    fn take_all(&mut self, id: u32, header: &Header, records: &[Record])
        requires { Ready id header.now records.now self.old }
        ensures taken { TakesAll id records.now (seen self.old) (seen self.new) }
        ensures is { IsState self.new }
    {
        for item in records {
            self.take_in(id, header, item);
        }
    }

    /// A tablet of the hashes from `lo` to `hi` that took nothing in, or an error where memory is out.
    pub(crate) fn new(
        alloc: Global,
        lo: u16,
        hi: u16,
        headers: &[Header],
    ) -> Result<State, AllocError>
        requires { are_headers headers.now ≡ true }
        ensures seen { IfOk result (λ s. seen s ≡ new_tablet lo hi headers.now) }
        ensures is { IfOk result IsState }
    {
        let floor = Floor::new(alloc, headers)?;
        let places = vec![in alloc; 0; headers.len()]?;
        Ok(State {
            contents: Contents::new(alloc, lo, hi),
            places,
            floor,
        })
    }

    /// Takes in those of the records of the source tablet, from the number `from` on, that are past its place.
    /// `NoMemory` where memory is out; nothing was taken in then.
    pub(crate) fn deliver(&mut self, id: u32, from: u64, records: &[Record]) -> Result<(), NoMemory>
        requires is { IsState self.old }
        requires can { CanTake id from records.now (seen self.old) }
        ensures taken { OnOk result (TakesBatch id from records.now (seen self.old) (seen self.new)) }
        ensures same { OnErr result (seen self.new ≡ seen self.old) }
        ensures is { IsState self.new }
    {
        let header = self.header(id);
        let past = past(records, self.places[id as usize], from);
        self.contents.make_room(&header, past)?;
        self.take_all(id, &header, past);
        Ok(())
    }
}
