// All tablets of logs within the rules, from the first to the last.
ghost use Rattle.std.specs.Prelude.{◌≡◌, ◌==◌, ℕ, IfOk, IsTrue, [], false, length, slice_get, option_map};
ghost use Rattle.std.specs.Prelude.{if◌then◌else◌};
ghost use Rattle.std.specs.Option.{option_map_or};
ghost use Rattle.xc_record.specs.Accepted.{accepted_tablets_after};
ghost use Rattle.xc_record.specs.Valid.{is_valid};
ghost use Rattle.xc_record.specs.Commits.{undone};
ghost use Rattle.xc_agree.specs.Runs.{IsRuns};
ghost use Rattle.xc_agree.specs.Slots.{undone_of};
ghost use Rattle.xc_agree.specs.Cases.{IsFirst, AreLast, Drops, cases_of, of_tablets};

use crate::cases::{Case, first_of, judge_tablet};
use crate::commits::Commits;
use crate::held::Held;
use crate::judge::Judged;
use crate::look::Look;
use crate::run::Run;
use std::alloc::{AllocError, Global};
use xc_record::Tablet;

// The last child of each tablet, or 0.
fn last_children(alloc: Global, tablets: &[Tablet]) -> Result<Vec<usize>, AllocError>
    ensures count { IfOk result (λ lasts. length lasts.items ≡ length tablets.now) }
    ensures last { IfOk result (λ lasts. AreLast lasts.items tablets.now) }
{
    let mut lasts = vec![in alloc; 0; tablets.len()]?;
    for (i, t) in tablets.iter().enumerate() {
        note_child(&mut lasts, t.header.parent, i);
    }
    Ok(lasts)
}

// The tablet is the last child of its parent so far.
fn note_child(lasts: &mut Vec<usize>, parent: Option<u32>, id: usize)
    ensures count { length lasts.new.items ≡ length lasts.old.items }
    ensures last { (i : ℕ)
        → slice_get lasts.new.items i
        ≡ (if option_map_or (λ p. p == i) parent false then option_map (λ _. id) (slice_get lasts.old.items i) else
        slice_get lasts.old.items i) }
{
    if let Some(parent) = parent {
        if let Some(last) = lasts.get_mut(parent as usize) {
            *last = id;
        }
    }
}

// Drops what the parent of the tablet left, where the tablet is its last child.
fn drop_left(
    alloc: Global,
    lefts: &mut Vec<Vec<Held>>,
    lasts: &[usize],
    parent: Option<u32>,
    id: usize,
)
    ensures { Drops lefts.old.items lefts.new.items lasts.now parent id }
{
    if let Some(parent) = parent {
        let parent = parent as usize;
        if parent < lefts.len() && parent < lasts.len() && lasts[parent] <= id {
            lefts[parent] = Vec::new(alloc);
        }
    }
}

/// The first case of disagreement.
pub(crate) fn first_case(
    alloc: Global,
    tablets: &[Tablet],
    runs: &[Run],
    commits: &Commits,
) -> Result<Option<Case>, AllocError>
    requires runs { IsRuns runs.now (accepted_tablets_after [] tablets.now) tablets.now }
    requires valid { IsTrue (is_valid (of_tablets tablets.now)) }
    requires undone { (n : ℕ) → undone_of commits.now n ≡ undone (of_tablets tablets.now) n }
    ensures { IfOk result
        (λ f. IsFirst f (cases_of (of_tablets tablets.now) commits.now (accepted_tablets_after [] tablets.now))) }
{
    let lasts = last_children(alloc, tablets)?;
    let mut look = Look::new(alloc, commits.len())?;
    let mut lefts = Vec::with_capacity(alloc, tablets.len())?;
    let mut first = None;
    for i in 0..tablets.len() {
        let t = &tablets[i];
        let judged = judge_tablet(
            alloc,
            &mut look,
            commits,
            t,
            &runs[i],
            lefts.as_slice(),
            i < lasts[i],
        )?;
        let Judged { found, left } = judged;
        first = first_of(first, found, t.header.id);
        lefts.push(left)?;
        drop_left(alloc, &mut lefts, lasts.as_slice(), t.header.parent, i);
    }
    Ok(first)
}
