// Where to look on, among the transactions that committed and wait, for one that waits on a tablet.
ghost use Rattle.std.specs.Prelude.{◌≡◌, ◌<◌, ◌≤◌, ◌+◌, ◌-◌, ◌^◌, ◌⊎◌, ℕ, Some, None, IfSome, min};
ghost use Rattle.std.specs.BTreeMap.{get};
ghost use Rattle.std.specs.Ordering.{nat_cmp};
ghost use Rattle.xc_source.specs.Holders.{earliest_at};
ghost use Rattle.xc_source.specs.declared.cursor.Cursor.{Cursor};

use std::collections::BTreeMap;
use xc_record::Header;

// Where to look on for a commit that waits on a tablet.
#[derive(Clone, Copy, Debug)]
pub(crate) struct Cursor {
    // the last hash of the tablet's range
    pub(crate) hi: u16,
    // what waits there committed at this time or later
    pub(crate) earliest: u64,
}

// Where to look on for a commit that waits on the tablet with this header: from the first commit of all, where no
// search of this range is known.
pub(crate) fn earliest_on(cursors: &BTreeMap<u16, Cursor>, header: &Header) -> u64
    ensures { result ≡ earliest_at header.now (get nat_cmp cursors.now header.now.lo) }
{
    match cursors.get(&header.lo).copied() {
        None => 0,
        Some(cursor) => {
            if cursor.hi == header.hi {
                cursor.earliest
            } else {
                0
            }
        }
    }
}

// Where to look on after a search on a tablet came to this bound: from the commit that it is of, or, where nothing
// waits there, behind all that wait.
pub(crate) fn next_earliest(waiting: &BTreeMap<u64, u32>, bound: Option<u64>) -> u64
    ensures found { IfSome bound (λ value. result ≡ min (value + 1) (2 ^ 64 - 1)) }
    ensures none { bound ≡ None → (x : ℕ) → ((c n : ℕ) → get nat_cmp waiting.now c ≡ Some n → c < x) → result ≤ x }
{
    if let Some(value) = bound {
        return value.saturating_add(1);
    }
    match waiting.last_key_value() {
        None => 0,
        Some((last, _)) => last.saturating_add(1),
    }
}

// Keeps where to look on for the tablet with this header. Where memory is out, the next search may begin earlier.
pub(crate) fn set_earliest(cursors: &mut BTreeMap<u16, Cursor>, header: &Header, earliest: u64)
    ensures { (lo : ℕ) (cursor : Cursor) → get nat_cmp cursors.new lo ≡ Some cursor
        → ((lo ≡ header.now.lo) × (cursor ≡ record { hi = header.now.hi; earliest = earliest }))
        ⊎ (get nat_cmp cursors.old lo ≡ Some cursor) }
{
    let hi = header.hi;
    let _ = cursors.insert(header.lo, Cursor { hi, earliest });
}
