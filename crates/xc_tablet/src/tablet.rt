// A target tablet.
ghost use Rattle.std.specs.Prelude.{◌≡◌, ◌≤◌, ◌<◌, ◌+◌, ◌-◌, ◌^◌, ℕ, true, None, max, take, drop, length, slice_index};
ghost use Rattle.std.specs.Prelude.{IfOk, OnOk, OnErr, List};
ghost use Rattle.std.specs.Ordering.{nat_cmp};
ghost use Rattle.std.specs.Cmp.Lexicographic.{slice_cmp};
ghost use Rattle.std.specs.FinMap.Entries.{where_key};
ghost use Rattle.xc_record.specs.declared.record.Logs.{Logs};
ghost use Rattle.xc_record.specs.Accepted.{accepted};
ghost use Rattle.xc_record.specs.Agreement.{disagreement};
ghost use Rattle.xc_record.specs.Headers.{are_headers};
ghost use Rattle.xc_record.specs.Kept.{read};
ghost use Rattle.xc_record.specs.Rows.{row, rows};
ghost use Rattle.xc_record.specs.Valid.{is_valid, headers_of};
ghost use Rattle.xc_model.specs.Floors.{has_closed, has_started, least_kept};
ghost use Rattle.xc_model.specs.Laws.{BatchTaken};
ghost use Rattle.xc_model.specs.Stands.{in_range, kept_at, rows_shown, StandsFor, covers, new_tablet, KeepsFrom};
ghost use Rattle.xc_model.specs.Stands.{restore, RestoredTo, TakesBatch};
ghost use Rattle.xc_tablet.specs.Batch.{records_keep, splits_end};
ghost use Rattle.xc_base.specs.declared.limits.TheConstants.{MOST_RECORDS};

use crate::state::State;
use std::alloc::Global;
use std::marker::Model;
use xc_base::{Key, NoMemory, Value};
use xc_record::{Header, Record};
use xc_versions::Rows;

/// A tablet of the target, for the keys whose hashes are in its range. Contracts see what it keeps of all source
/// tablets.
#[derive(Drop, Debug)]
pub struct TargetTablet {
    state: State,
}

impl Model for TargetTablet {
    ghost use Rattle.xc_model.specs.Stands.{TargetTablet as Seen};

    ghost Value = { Seen };

    ghost use Rattle.xc_tablet.specs.State.{seen, IsState};

    ghost view = { λ t. seen t.state };

    ghost invariant = { λ t. IsState t.state };
}

impl TargetTablet {
    /// A tablet of the hashes from `lo` to `hi` for the source tablets with these headers, which took nothing in.
    /// `NoMemory` where memory is out. It keeps the allocator for its growth.
    pub fn new(
        alloc: Global,
        lo: u16,
        hi: u16,
        headers: &[Header],
    ) -> Result<TargetTablet, NoMemory>
        requires range { lo ≤ hi }
        requires headers { are_headers headers.now ≡ true }
        ensures empty { IfOk result (λ x. x ≡ new_tablet lo hi headers.now) }
        // It stands for all valid logs with these headers.
        ensures stands { IfOk result (λ x. (logs : Logs) → is_valid logs ≡ true
            → headers_of logs.tablets ≡ headers.now → StandsFor logs 0 x) }
    {
        match State::new(alloc, lo, hi, headers) {
            Ok(state) => Ok(TargetTablet { state }),
            Err(_) => Err(NoMemory),
        }
    }

    /// Takes in those of the records of the source tablet `id`, from the number `from` on, that are past its place.
    /// `NoMemory` where memory is out; the tablet is as before then. Records up to the place aren't looked at.
    pub fn deliver(&mut self, id: u32, from: u64, records: &[Record]) -> Result<(), NoMemory>
        // The first record has a number, and none is left out.
        requires first { 1 ≤ from }
        requires next { from ≤ slice_index self.old.places id + 1 }
        requires short { from - 1 + length records.now ≤ MOST_RECORDS }
        // Nothing comes after the end of a tablet.
        requires not_closed { has_closed self.old.floors id ≡ true
            → from - 1 + length records.now ≤ slice_index self.old.places id }
        // It is a root, or its parent is closed here.
        requires started { has_started self.old.floors id ≡ true }
        requires keep { records_keep self.old.floors.headers id records.now ≡ true }
        requires ends { splits_end records.now ≡ true }
        ensures taken { OnOk result (TakesBatch id from records.now self.old self.new) }
        // What becomes of the places and of what is closed, and what stays.
        ensures moved { OnOk result (BatchTaken id from records.now self.old self.new) }
        // Where these are accepted records of logs, the tablet stands for the logs as before.
        ensures stands { OnOk result ((logs : Logs) (u : ℕ) → StandsFor logs u self.old
            → records.now ≡ take (length records.now) (drop (from - 1) (accepted logs id))
            → StandsFor logs u self.new) }
        ensures out_of_memory { OnErr result (self.new ≡ self.old) }
    {
        self.state.deliver(id, from, records)
    }

    /// How many records of the source tablet were taken in.
    #[inline]
    pub fn through(&self, id: u32) -> u64
        requires { id < length self.now.places }
        ensures place { result ≡ slice_index self.now.places id }
        ensures small { result ≤ MOST_RECORDS }
        ensures count { length self.now.places ≡ length self.now.floors.headers }
    {
        self.state.places[id as usize]
    }

    /// Whether all records of the source tablet were taken in, and the last one is a split.
    #[inline]
    pub fn closed(&self, id: u32) -> bool
        ensures { result ≡ has_closed self.now.floors id }
    {
        self.state.floor.is_closed(id)
    }

    /// Whether the source tablet is a root, or its parent is closed here.
    #[inline]
    pub fn started(&self, id: u32) -> bool
        ensures { result ≡ has_started self.now.floors id }
    {
        self.state.floor.has_started(id)
    }

    /// The headers of the source tablets.
    #[inline]
    pub fn headers(&self) -> &[Header]
        ensures headers { result.now ≡ self.now.floors.headers }
        ensures valid { are_headers self.now.floors.headers ≡ true }
        ensures count { length self.now.places ≡ length self.now.floors.headers }
    {
        self.state.floor.headers()
    }

    /// The first and the last hash.
    #[inline]
    pub fn range(&self) -> (u16, u16)
        ensures { (result.0 ≡ self.now.lo) × (result.1 ≡ self.now.hi) }
    {
        (self.state.contents.lo, self.state.contents.hi)
    }

    /// How many operations wait for an apply or an abort.
    #[inline]
    pub fn waiting(&self) -> u64
        ensures { result ≡ length self.now.held }
    {
        self.state.contents.held.len() as u64
    }

    /// The value of the key at the time `t`, a hybrid time: None exactly where it has none. From the cutoff to `covers`
    /// it is that of the source's rows.
    pub fn read(&self, key: &Key, t: u64) -> Option<Value>
        requires { in_range self.now key.now ≡ true }
        ensures value { result ≡ read t (kept_at self.now key.now) }
        // For logs that agree it is the row of the logs at that time.
        ensures shows { (logs : Logs) (u : ℕ) → StandsFor logs u self.now → disagreement logs ≡ None → u ≤ t
            → t ≤ covers logs self.now → result ≡ row logs t key.now }
    {
        self.state.contents.versions.at(key, t)
    }

    /// The rows at the time `t`, in byte order of keys. `NoMemory` where memory is out.
    pub fn rows(&self, alloc: Global, t: u64) -> Result<Rows, NoMemory>
        ensures rows { IfOk result (λ shown. shown ≡ rows_shown t self.now) }
        // For logs that agree these are the rows of the logs at that time, of the keys of the range.
        ensures shows { IfOk result (λ shown. (logs : Logs) (u : ℕ) → StandsFor logs u self.now
            → disagreement logs ≡ None → u ≤ t → t ≤ covers logs self.now
            → shown ≡ where_key (slice_cmp nat_cmp) (in_range self.now) (rows logs t)) }
    {
        self.state.contents.versions.rows(alloc, t)
    }

    /// Up to this time the tablet can be read.
    pub fn covers(&self) -> u64
        ensures least { result ≡ least_kept self.now.floors }
        // It is the safe time of the logs at the places.
        ensures safe { (logs : Logs) (u : ℕ) → StandsFor logs u self.now → result ≡ covers logs self.now }
    {
        self.state.floor.least()
    }

    /// Lets go the history before the cutoff: of each key's versions with commit at most the cutoff only the newest
    /// stays, a removal too.
    pub fn keep_from(&mut self, cutoff: u64)
        ensures kept { KeepsFrom cutoff self.old self.new }
        // A cutoff that the tablet covers keeps it standing, at the greater cutoff.
        ensures stands { (logs : Logs) (u : ℕ) → StandsFor logs u self.old → cutoff ≤ covers logs self.old
            → StandsFor logs (max u cutoff) self.new }
    {
        self.state.contents.versions.keep_from(cutoff);
    }

    /// Lets go the versions with commit above `t`, and all that waits. What was taken in stays counted.
    pub fn restore(&mut self, t: u64)
        ensures restored { self.new ≡ restore t self.old }
        // For a time that it covers, it is restored to that time for the logs.
        ensures stood { (logs : Logs) (u : ℕ) → StandsFor logs u self.old → u ≤ t → t ≤ covers logs self.old
            → RestoredTo logs u t self.old self.new }
        // Reads at times up to `t` are as before.
        ensures reads { (v : ℕ) → v ≤ t → ((k : List ℕ) → read v (kept_at self.new k) ≡ read v (kept_at self.old k))
            × (rows_shown v self.new ≡ rows_shown v self.old) }
    {
        self.state.contents.versions.drop_after(t);
        self.state.contents.held.clear();
    }
}
