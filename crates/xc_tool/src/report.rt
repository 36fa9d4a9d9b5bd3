// The line of a report.
ghost use Rattle.std.specs.Prelude.{◌≡◌, length, IfOk, IsErrOf};
ghost use Rattle.xc_record.specs.declared.record.Logs.{Logs};
ghost use Rattle.xc_record.specs.Session.{Session, IsSession};
ghost use Rattle.xc_target.specs.Stands.{StandsForSession};
ghost use Rattle.xc_tool.specs.Answers.{IsLine};

use crate::answer::Unanswered;
use std::alloc::{AllocError, Global};
use xc_record::{Command, Line, Numbers};
use xc_target::Target;

/// The numbers of the session. The target's source tablets are `sources`.
pub(crate) fn report(alloc: Global, target: &Target, sources: u32) -> Result<Line, Unanswered>
    requires { sources ≡ length target.now.pollers }
    ensures step { (logs : Logs) (m : Session) → IsSession logs m → StandsForSession logs m target.now
        → IfOk result (λ l. IsLine logs m Command.Report l target.now) }
    ensures memory { IsErrOf result Unanswered.ReadFault → ⊥ }
{
    match report_line(alloc, target, sources) {
        Ok(line) => Ok(line),
        Err(_) => Err(Unanswered::NoMemory),
    }
}

fn report_line(alloc: Global, target: &Target, sources: u32) -> Result<Line, AllocError>
    requires { sources ≡ length target.now.pollers }
    ensures { (logs : Logs) (m : Session) → IsSession logs m → StandsForSession logs m target.now
        → IfOk result (λ l. IsLine logs m Command.Report l target.now) }
{
    let mut acks = Vec::new(alloc);
    let mut cursors = Vec::new(alloc);
    let mut places = Vec::new(alloc);
    for id in 0..sources {
        let numbers = target.session(id);
        acks.push(numbers.acknowledged)?;
        cursors.push(numbers.cursor)?;
        places.push(numbers.place)?;
    }
    Ok(Line::Report {
        acks: Numbers::from_vec(acks),
        closed: target.closed().is_some(),
        cursors: Numbers::from_vec(cursors),
        cutoff: target.cutoff(),
        places: Numbers::from_vec(places),
        safe: target.safe(),
    })
}
