// Reading a source script.
ghost use Rattle.std.specs.Prelude.{◌≡◌, ◌<◌, ◌++◌, ◌∷◌, [], map, IfOk};
ghost use Rattle.xc_source_script.specs.Allowed.{IsSourceScript};
ghost use Rattle.xc_script.specs.LineText.{lines_from, rest_of_text};
ghost use Rattle.xc_source_script.specs.SourceText.{Reads, at_line, begun, rules, source_of};

use crate::kind::{Fail, SourceKind, SourceScriptFail};
use crate::reading::{Reading, Stage};
use crate::script::SourceScript;
use std::alloc::Global;
use xc_script::pieces;

/// The source script that a text of version 1 or 2 spells.
///
/// `Bad` comes exactly where the text spells none, with its first bad line, counted from 1, and the first kind of
/// [`SourceKind`] for which that line is bad. It takes time and memory in proportion to the text.
pub fn read_source(alloc: Global, text: &[u8]) -> Result<SourceScript, SourceScriptFail>
    // The script that the text spells, or its first bad line and the first kind for which it is bad.
    ensures exact { Reads result (source_of text.now) }
    // A source can begin with its start and its roots, and its commands are as they may be.
    ensures allowed { IfOk result (λ script. IsSourceScript script) }
{
    read_lines(alloc, text)
}

// `read_source`, line by line.
#[tactic(auto, unfolding(crate::specs::SourceText::source_of))]
fn read_lines(alloc: Global, text: &[u8]) -> Result<SourceScript, SourceScriptFail>
    ensures { Reads result (source_of text.now) }
{
    let Ok(pieces) = pieces(alloc, text, b'\n') else {
        return Err(SourceScriptFail::NoMemory);
    };
    match pieces.as_slice() {
        [lines @ .., rest] => read_pieces(alloc, lines, rest),
        [] => ending(Reading::begun(alloc), &[]),
    }
}

// What the whole lines give, and the bytes behind them.
fn read_pieces(
    alloc: Global,
    lines: &[&[u8]],
    rest: &[u8],
) -> Result<SourceScript, SourceScriptFail>
    ensures { Reads result (lines_from rules begun (map (λ line. line.now) lines.now ++ rest.now ∷ [])) }
{
    let mut reading = Reading::begun(alloc);
    for line in lines {
        let number = reading.lines + 1;
        if let Err(fail) = reading.take_line(alloc, line) {
            return Err(at_line(number, fail));
        }
    }
    ending(reading, rest)
}

// What a text gives that goes no further than this rest.
fn ending(reading: Reading, rest: &[u8]) -> Result<SourceScript, SourceScriptFail>
    requires { reading.lines < 65537 }
    ensures { Reads result (rest_of_text rules reading rest.now) }
{
    let kind = if !rest.is_empty() {
        SourceKind::Form
    } else if reading.stage != Stage::Ended {
        SourceKind::NoEnd
    } else {
        return Ok(reading.script);
    };
    let line = reading.lines + 1;
    Err(SourceScriptFail::Bad { line, kind })
}

fn at_line(number: u64, fail: Fail) -> SourceScriptFail
    ensures { result ≡ at_line number fail }
{
    match fail {
        Fail::Bad(kind) => SourceScriptFail::Bad { line: number, kind },
        Fail::NoMemory => SourceScriptFail::NoMemory,
    }
}
