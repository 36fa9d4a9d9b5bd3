// How much room records need.
ghost use Rattle.std.specs.Prelude.{◌≡◌, ◌≤◌, ◌<◌, ◌+◌, ◌*◌, ◌^◌, ◌||◌, true, false, length, nat_le, if◌then◌else◌};
ghost use Rattle.std.specs.List.{list_all};
ghost use Rattle.xc_record.specs.Hash.{hash_of, holds};
ghost use Rattle.xc_record.specs.Valid.{ops_in};
ghost use Rattle.xc_tablet.specs.Contents.{in_hashes, IsApart, all_held, keys_keep, all_keep};
ghost use Rattle.xc_tablet.specs.Room.{count_in, puts_of, holds_of, is_apply, puts_in, holds_in, has_apply};
ghost use Rattle.xc_base.specs.declared.limits.TheConstants.{MOST_RECORDS, RECORD_OPERATIONS};

use xc_record::{Header, Kind, OpAt, Ops, Record, hash_bytes};

// So many operations get room whether or not their keys are in the range.
const FEW_OPS: usize = 512;

/// What records need, of operations whose keys are in a range.
#[derive(Drop, Debug)]
pub(crate) struct Room {
    /// How many operations of writes there are.
    pub(crate) puts: usize,
    /// How many operations of intents there are.
    pub(crate) holds: usize,
    /// Whether a record is an apply.
    pub(crate) applies: bool,
}

/// Whether no key of a source tablet with this header has a hash from `lo` to `hi`.
#[inline]
pub(crate) fn is_apart(header: &Header, lo: u16, hi: u16) -> bool
    ensures apart { result ≡ true → IsApart header.now lo hi }
    ensures meets { result ≡ false → (lo ≤ header.now.hi) × (header.now.lo ≤ hi) }
{
    header.hi < lo || hi < header.lo
}

/// Whether the operation of a source tablet with this header is of a key whose hash is from `lo` to `hi`. The hash is
/// asked only where the tablet's range tells neither.
#[inline]
pub(crate) fn is_in(header: &Header, lo: u16, hi: u16, op: &OpAt<'_>) -> bool
    requires { holds header.now (hash_of op.now.key) ≡ true }
    ensures { result ≡ in_hashes lo hi op.now.key }
{
    if lo <= header.lo && header.hi <= hi {
        return true;
    }
    if is_apart(header, lo, hi) {
        return false;
    }
    let hash = hash_bytes(op.key_bytes());
    lo <= hash && hash <= hi
}

/// How many of the operations are of keys whose hashes are from `lo` to `hi`. Those of a tablet that has no such keys
/// aren't gone over.
fn count_in(header: &Header, ops: &Ops, lo: u16, hi: u16) -> usize
    requires { all_held header.now ops.now ≡ true }
    ensures { result ≡ count_in lo hi ops.now }
{
    if is_apart(header, lo, hi) {
        return 0;
    }
    let mut count: usize = 0;
    for op in ops.iter() {
        if is_in(header, lo, hi, &op) {
            count += 1;
        }
    }
    count
}

impl Room {
    // Counts a record in.
    fn count(&mut self, header: &Header, kind: &Kind, lo: u16, hi: u16)
        requires keep { keys_keep header.now kind.now ≡ true }
        requires puts { self.old.puts + ops_in kind.now < 2 ^ 64 }
        requires holds { self.old.holds + ops_in kind.now < 2 ^ 64 }
        ensures puts { self.new.puts ≡ self.old.puts + puts_of lo hi kind.now }
        ensures holds { self.new.holds ≡ self.old.holds + holds_of lo hi kind.now }
        ensures applies { self.new.applies ≡ (self.old.applies || is_apply kind.now) }
    {
        match kind {
            Kind::Write { ops } => self.puts += count_in(header, ops, lo, hi),
            Kind::Intent { ops, .. } => self.holds += count_in(header, ops, lo, hi),
            Kind::Apply { .. } => self.applies = true,
            Kind::Abort { .. } | Kind::Safe { .. } | Kind::Split { .. } => {}
        }
    }

    // What the records of a source tablet with this header need, of at most 64 operations each.
    fn counted(header: &Header, records: &[Record], lo: u16, hi: u16) -> Room
        requires keep { all_keep header.now records.now ≡ true }
        requires few { length records.now ≤ MOST_RECORDS }
        requires small { list_all (λ r. nat_le (ops_in r.kind) RECORD_OPERATIONS) records.now ≡ true }
        ensures puts { result.puts ≡ puts_in lo hi records.now }
        ensures holds { result.holds ≡ holds_in lo hi records.now }
        ensures applies { result.applies ≡ has_apply records.now }
        ensures few_puts { result.puts ≤ RECORD_OPERATIONS * length records.now }
        ensures few_holds { result.holds ≤ RECORD_OPERATIONS * length records.now }
    {
        let mut room = Room {
            puts: 0,
            holds: 0,
            applies: false,
        };
        for item in records {
            room.count(header, &item.kind, lo, hi);
        }
        room
    }

    /// At least what the records of a source tablet with this header need, of at most 64 operations each. Where they
    /// have few operations in all, it is what all of these need, so that no key is hashed for it.
    pub(crate) fn of(header: &Header, records: &[Record], lo: u16, hi: u16) -> Room
        requires keep { all_keep header.now records.now ≡ true }
        requires few { length records.now ≤ MOST_RECORDS }
        requires small { list_all (λ r. nat_le (ops_in r.kind) RECORD_OPERATIONS) records.now ≡ true }
        ensures puts { puts_in lo hi records.now ≤ result.puts }
        ensures holds { holds_in lo hi records.now ≤ result.holds }
        ensures applies { result.applies ≡ has_apply records.now }
        ensures few_puts { result.puts ≤ RECORD_OPERATIONS * length records.now }
        ensures few_holds { result.holds ≤ RECORD_OPERATIONS * length records.now }
    {
        if !is_apart(header, lo, hi) {
            let all = Room::counted(header, records, 0, u16::MAX);
            if all.puts <= FEW_OPS && all.holds <= FEW_OPS {
                return all;
            }
        }
        Room::counted(header, records, lo, hi)
    }

    /// How many versions may be added, where so many operations wait already: an apply may take them all.
    pub(crate) fn versions(&self, waiting: usize) -> usize
        requires { self.now.puts + self.now.holds + waiting < 2 ^ 64 }
        ensures { result ≡ (if self.now.applies then self.now.puts + self.now.holds + waiting else self.now.puts) }
    {
        if self.applies {
            self.puts + self.holds + waiting
        } else {
            self.puts
        }
    }
}
