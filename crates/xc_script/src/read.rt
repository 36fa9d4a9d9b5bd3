// Reading a script.
ghost use Rattle.std.specs.Prelude.{◌≡◌, ◌<◌, ◌++◌, ◌∷◌, [], map, IfOk};
ghost use Rattle.xc_script.specs.Allowed.{IsScript};
ghost use Rattle.xc_script.specs.LineText.{lines_from, rest_of_text};
ghost use Rattle.xc_script.specs.ScriptText.{Reads, at_line, begun, rules, script_of};

use crate::kind::{Fail, ScriptFail, ScriptKind};
use crate::reading::{Reading, Stage};
use crate::script::Script;
use crate::words::pieces;
use std::alloc::Global;

/// The script that a text of version 1 or 2 spells, for a source with so many tablets.
///
/// `Bad` comes exactly where the text spells no script, with its first bad line, counted from 1, and the first kind of
/// [`ScriptKind`] for which that line is bad. It takes time and memory in proportion to the text.
pub fn read_script(alloc: Global, text: &[u8], sources: u32) -> Result<Script, ScriptFail>
    // The script that the text spells, or its first bad line and the first kind for which it is bad.
    ensures exact { Reads result (script_of sources text.now) }
    // Its bounds share out all hashes, and each of its commands is of tablets that are there.
    ensures allowed { IfOk result (λ script. IsScript sources script) }
{
    read_lines(alloc, text, sources)
}

// `read_script`, line by line.
#[tactic(auto, unfolding(crate::specs::ScriptText::script_of))]
fn read_lines(alloc: Global, text: &[u8], sources: u32) -> Result<Script, ScriptFail>
    ensures { Reads result (script_of sources text.now) }
{
    let Ok(pieces) = pieces(alloc, text, b'\n') else {
        return Err(ScriptFail::NoMemory);
    };
    match pieces.as_slice() {
        [lines @ .., rest] => read_pieces(alloc, lines, rest, sources),
        [] => ending(Reading::begun(alloc, sources), &[]),
    }
}

// What the whole lines give, and the bytes behind them.
fn read_pieces(
    alloc: Global,
    lines: &[&[u8]],
    rest: &[u8],
    sources: u32,
) -> Result<Script, ScriptFail>
    ensures { Reads result (lines_from rules (begun sources) (map (λ line. line.now) lines.now ++ rest.now ∷ [])) }
{
    let mut reading = Reading::begun(alloc, sources);
    for line in lines {
        let number = reading.lines + 1;
        if let Err(fail) = reading.take_line(alloc, line) {
            return Err(at_line(number, fail));
        }
    }
    ending(reading, rest)
}

// What a text gives that goes no further than this rest.
fn ending(reading: Reading, rest: &[u8]) -> Result<Script, ScriptFail>
    requires { reading.lines < 65537 }
    ensures { Reads result (rest_of_text rules reading rest.now) }
{
    let kind = if !rest.is_empty() {
        ScriptKind::Form
    } else if reading.stage != Stage::Ended {
        ScriptKind::NoEnd
    } else {
        return Ok(reading.script);
    };
    let line = reading.lines + 1;
    Err(ScriptFail::Bad { line, kind })
}

fn at_line(number: u64, fail: Fail) -> ScriptFail
    ensures { result ≡ at_line number fail }
{
    match fail {
        Fail::Bad(kind) => ScriptFail::Bad { line: number, kind },
        Fail::NoMemory => ScriptFail::NoMemory,
    }
}
