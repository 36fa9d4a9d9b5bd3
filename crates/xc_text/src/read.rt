// Reading a log text.
ghost use Rattle.std.specs.Prelude.{◌≡◌, IfOk, true};
ghost use Rattle.xc_record.specs.Valid.{is_valid};
ghost use Rattle.xc_text.specs.LogText.{at_line, logs_of, rest_of_text, Reads};

use crate::cut::cut_line;
use crate::kind::{Fail, LogKind, LogsFail};
use crate::line_ops::{LineOps, Span};
use crate::reading::{Reading, Stage};
use std::alloc::Global;
use xc_record::{Logs, Ops};

/// The logs that a log text of version 1 or 2 spells. Nothing is looked at but the text itself: the order of the
/// records isn't.
///
/// `Bad` comes exactly where the text spells no logs, with its first bad line, counted from 1, and the first kind of
/// [`LogKind`] for which that line is bad. It takes time and memory in proportion to the text.
pub fn read_logs(alloc: Global, text: &[u8]) -> Result<Logs, LogsFail>
    // The logs that the text spells, or its first bad line and the first kind for which it is bad.
    ensures exact { Reads result (logs_of text.now) }
    ensures valid { IfOk result (λ logs. is_valid logs ≡ true) }
{
    read_lines(alloc, text)
}

// `read_logs`, line by line.
#[tactic(auto, unfolding(crate::specs::LogText::logs_of))]
fn read_lines(alloc: Global, text: &[u8]) -> Result<Logs, LogsFail>
    ensures { Reads result (logs_of text.now) }
{
    let mut read = LineOps {
        ops: Ops::new(alloc),
        span: Span::none(),
    };
    let mut reading = Reading::begun(alloc);
    let mut rest = text;
    let mut number = 1u64;
    'lines: loop {
        let (line, after) = cut_line(rest);
        let Some(after) = after else {
            return ending(reading, line, number);
        };
        if let Err(fail) = reading.take_line(alloc, &mut read, line) {
            return Err(at_line(number, fail));
        }
        rest = after;
        number += 1;
    }
}

// What a text gives that goes no further than this rest.
fn ending(reading: Reading, rest: &[u8], number: u64) -> Result<Logs, LogsFail>
    ensures { Reads result (rest_of_text reading number rest.now) }
{
    let kind = if !rest.is_empty() {
        LogKind::Form
    } else if reading.stage != Stage::Ended {
        LogKind::NoEnd
    } else {
        return Ok(Logs {
            tablets: reading.tablets,
        });
    };
    Err(LogsFail::Bad { line: number, kind })
}

#[inline]
fn at_line(number: u64, fail: Fail) -> LogsFail
    ensures { result ≡ at_line number fail }
{
    match fail {
        Fail::Bad(kind) => LogsFail::Bad { line: number, kind },
        Fail::NoMemory => LogsFail::NoMemory,
    }
}
