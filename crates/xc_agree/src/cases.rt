// The first case of disagreement, tablet by tablet.
ghost use Rattle.std.specs.Prelude.{◌≡◌, ◌<◌, ◌≤◌, ◌^◌, ℕ, Option, IfOk, OnOk, length, take, true};
ghost use Rattle.xc_record.specs.declared.record.AgreeKind.{AgreeKind};
ghost use Rattle.xc_record.specs.Agreement.{Disagreement};
ghost use Rattle.xc_agree.specs.Seen.{IsLeast, IsEnd, IsIdle};
ghost use Rattle.xc_agree.specs.Held.{IsLeft, InSlots, seen_at_end};
ghost use Rattle.xc_agree.specs.Cases.{IsFirst, with_cases, held_from};

use crate::commits::Commits;
use crate::held::Held;
use crate::judge::{Judged, judge};
use crate::look::{Found, Look};
use crate::run::Run;
use std::alloc::{AllocError, Global};
use xc_record::{AgreeKind, Record, Tablet};

/// How the logs disagree on a transaction at a tablet.
#[derive(Clone, Copy, PartialEq, Eq, Debug)]
pub(crate) struct Case {
    pub(crate) txn: u32,
    pub(crate) tablet: u32,
    pub(crate) kind: AgreeKind,
}

// The lesser of the first case so far and what was found at the next tablet: where both are of one transaction, the
// tablet before has it.
pub(crate) fn first_of(first: Option<Case>, found: Option<Found>, tablet: u32) -> Option<Case>
    ensures { (cases : ℕ → Option Disagreement) (kinds : ℕ → Option AgreeKind) → IsFirst first cases
        → IsLeast found kinds → IsFirst result (with_cases tablet kinds cases) }
{
    let Some(f) = found else { return first };
    let here = Case {
        txn: f.txn,
        tablet,
        kind: f.kind,
    };
    match first {
        None => Some(here),
        Some(case) => { if f.txn < case.txn { Some(here) } else { first } }
    }
}

// What the parent's records left waiting.
fn held_of(lefts: &[Vec<Held>], parent: Option<u32>) -> &[Held]
    ensures { result.now ≡ held_from lefts.now parent }
{
    match parent {
        None => &[],
        Some(id) => match lefts.get(id as usize) {
            None => &[],
            Some(left) => left.as_slice(),
        },
    }
}

/// The accepted records of the tablet.
pub(crate) fn accepted_part<'a>(t: &'a Tablet, run: &Run) -> &'a [Record]
    requires { run.now.walk.accepted ≤ length t.now.records }
    ensures { result.now ≡ take run.now.walk.accepted t.now.records }
{
    &t.records.as_slice()[..run.walk.accepted]
}

/// Judges the tablet after those before it, which left this waiting, by a look that is idle before and after. What it
/// leaves itself is looked for at a tablet with children alone.
pub(crate) fn judge_tablet(
    alloc: Global,
    look: &mut Look,
    commits: &Commits,
    t: &Tablet,
    run: &Run,
    lefts: &[Vec<Held>],
    has_children: bool,
) -> Result<Judged, AllocError>
    requires within { run.now.walk.accepted ≤ length t.now.records }
    requires bound { length t.now.records < 2 ^ 32 }
    ensures idle { OnOk result (IsIdle look.old commits.now
        → InSlots commits.now (held_from lefts.now t.now.header.parent) → IsIdle look.new commits.now) }
    ensures found { IfOk result (λ j. IsIdle look.old commits.now
        → InSlots commits.now (held_from lefts.now t.now.header.parent)
        → IsEnd j.found commits.now
        (seen_at_end commits.now t.now.header (held_from lefts.now t.now.header.parent)
        (take run.now.walk.accepted t.now.records))) }
    ensures left { IfOk result (λ j. IsIdle look.old commits.now
        → InSlots commits.now (held_from lefts.now t.now.header.parent) → (has_children ≡ true)
        → IsLeft j.left.items commits.now t.now.header (held_from lefts.now t.now.header.parent)
        (take run.now.walk.accepted t.now.records)) }
    ensures slots { IfOk result (λ j. InSlots commits.now (held_from lefts.now t.now.header.parent)
        → InSlots commits.now j.left.items) }
{
    let held = held_of(lefts, t.header.parent);
    let records = accepted_part(t, run);
    judge(alloc, look, commits, &t.header, held, records, has_children)
}
