// How one source tablet is drained.
ghost use Rattle.std.specs.Prelude.{◌≡◌, ◌<◌, ℕ, Some, length, IfOk, IfErr, IfSome, IsErrOf};
ghost use Rattle.xc_record.specs.Accepted.{AcceptedTablet, accepted_tablet};
ghost use Rattle.xc_record.specs.Session.{Session, IsSession};
ghost use Rattle.xc_logs.specs.Feed.{CountsFault};
ghost use Rattle.xc_target.specs.Target.{FitsFeed};
ghost use Rattle.xc_target.specs.Stands.{StandsForSession};
ghost use Rattle.xc_target.specs.Answers.{Keeps, halted_at, IsDrainedOne, ArePolls, IsDrainFail};

use crate::answers::{Halt, TargetFail};
use crate::target::Target;
use std::alloc::Global;
use xc_logs::Feed;
use xc_poller::PollAnswer;

// How many records a drain polls at a time.
const BATCH: u64 = 64;

// The halt that the answer of a poll of the source tablet names.
fn halt_of(id: u32, answer: PollAnswer) -> Option<Halt>
    ensures { result ≡ halted_at id answer }
{
    match answer {
        PollAnswer::Halted { number, kind } => Some(Halt { id, number, kind }),
        _ => None,
    }
}

/// Polls the source tablet until there is nothing to deliver, and answers its halt, if it has one. It fails as a poll
/// does; the polls made so far stand.
pub(crate) fn drain_tablet<F: Feed>(
    target: &mut Target,
    alloc: Global,
    feed: &mut F,
    id: u32,
) -> Result<Option<Halt>, TargetFail>
    requires known { id < length target.old.pollers }
    requires fits { FitsFeed (F.headers feed.old) (F.counts feed.old) target.old }
    ensures keeps { Keeps F.headers F.counts F.logs F.faults feed.old feed.new target.old target.new }
    ensures drained { IfSome (F.logs feed.old) (λ logs. (m : Session) (b : AcceptedTablet) → IsSession logs m
        → StandsForSession logs m target.old → accepted_tablet logs id ≡ Some b
        → IfOk result (IsDrainedOne logs m id b target.new)) }
    ensures polls { IfSome (F.logs feed.old) (λ logs. (m : Session) → IsSession logs m
        → StandsForSession logs m target.old → IfOk result (λ _. ArePolls logs m target.new)) }
    ensures failed { IfSome (F.logs feed.old) (λ logs. (m : Session) → IsSession logs m
        → StandsForSession logs m target.old → IfErr result (IsDrainFail logs m target.new)) }
    ensures refusal { (t : ℕ) → IsErrOf result (TargetFail.Closed t) → target.old.closed ≡ Some t }

    // A read fault has its cause in the feed.
    ensures fault { CountsFault (IsErrOf result TargetFail.ReadFault) (F.faults feed.old) (F.faults feed.new) }
{
    'polls: loop {
        let answer = target.poll(alloc, feed, id, BATCH)?;
        let PollAnswer::Polled(_) = answer else {
            return Ok(halt_of(id, answer));
        };
    }
}
