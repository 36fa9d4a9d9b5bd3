// One tablet's records, judged.
ghost use Rattle.std.specs.Prelude.{◌≡◌, ◌<◌, ◌^◌, IfOk, OnOk, length, true};
ghost use Rattle.xc_agree.specs.Seen.{IsEnd, IsIdle};
ghost use Rattle.xc_agree.specs.Held.{IsLeft, InSlots, seen_at_end};

use crate::commits::Commits;
use crate::held::{Held, hold};
use crate::look::{Found, Look};
use std::alloc::{AllocError, Global};
use xc_record::{Header, Record};

/// What a tablet's records show.
#[derive(Drop, Debug)]
pub(crate) struct Judged {
    pub(crate) found: Option<Found>,
    /// What waits at the end.
    pub(crate) left: Vec<Held>,
}

/// Judges a tablet's accepted records by a look that is idle before and after. What waits at the end is looked for at a
/// tablet with children alone.
pub(crate) fn judge(
    alloc: Global,
    look: &mut Look,
    commits: &Commits,
    header: &Header,
    held: &[Held],
    records: &[Record],
    has_children: bool,
) -> Result<Judged, AllocError>
    requires { length records.now < 2 ^ 32 }
    ensures idle { OnOk result (IsIdle look.old commits.now → InSlots commits.now held.now
        → IsIdle look.new commits.now) }
    ensures found { IfOk result (λ j. IsIdle look.old commits.now → InSlots commits.now held.now
        → IsEnd j.found commits.now (seen_at_end commits.now header.now held.now records.now)) }
    ensures left { IfOk result (λ j. IsIdle look.old commits.now → InSlots commits.now held.now → (has_children ≡ true)
        → IsLeft j.left.items commits.now header.now held.now records.now) }
    ensures slots { IfOk result (λ j. InSlots commits.now held.now → InSlots commits.now j.left.items) }
{
    look.begin(header, held)?;
    look.take_all(commits, records)?;
    let left = if has_children {
        hold(alloc, look, commits, header, held, records)?
    } else {
        Vec::new(alloc)
    };
    let found = look.finish(commits);
    look.clear();
    Ok(Judged { found, left })
}
