// The answer of one command: its lines, as they are written.
ghost use Rattle.std.specs.Prelude.{◌≡◌, ◌∷◌, ◌++◌, [], map, not, length, ◌==◌, IfOk, IsErrOf, Err, false};
ghost use Rattle.xc_script.specs.Lines.{is_halt, line_text, lines_text};
ghost use Rattle.xc_tool.specs.Answers.{IsTold, row_line, halt_line};

use std::alloc::Global;
use xc_base::{Bytes, Key, NoMemory, Value};
use xc_record::Line;
use xc_script::{is_halt, print_line};
use xc_target::Halt;

/// The lines that answer a command, as they are written.
#[derive(Drop, Debug)]
pub(crate) struct Answer {
    pub(crate) text: Bytes,
    /// One of them tells of a break of the order rules.
    pub(crate) halted: bool,
}

/// Why a command has no answer.
#[derive(Clone, Copy, PartialEq, Eq, Debug)]
pub(crate) enum Unanswered {
    /// The feed failed, and counted it.
    ReadFault,
    /// Memory was refused.
    NoMemory,
}

/// The answer that is one line, where there is one.
pub(crate) fn line_answer(
    alloc: Global,
    line: Result<Line, Unanswered>,
) -> Result<Answer, Unanswered>
    ensures told { IfOk result (λ a. IsTold line a.text a.halted) }
    ensures read_fault { IsErrOf result Unanswered.ReadFault → line ≡ Err Unanswered.ReadFault }
{
    let line = line?;
    let mut text = Bytes::new(alloc);
    match print_line(alloc, &line, &mut text) {
        Ok(()) => Ok(Answer {
            text,
            halted: is_halt(&line),
        }),
        Err(NoMemory) => Err(Unanswered::NoMemory),
    }
}

/// The answer of a first line and a line for each row.
pub(crate) fn rows_answer(
    alloc: Global,
    first: Line,
    rows: &[(Key, Value)],
) -> Result<Answer, Unanswered>
    requires { is_halt first ≡ false }
    ensures told { IfOk result (λ a. (a.text ≡ lines_text (first ∷ map row_line rows.now)) × (a.halted ≡ false)) }
    ensures memory { IsErrOf result Unanswered.ReadFault → ⊥ }
{
    let mut text = Bytes::new(alloc);
    match print_headed(alloc, &first, rows, &mut text) {
        Ok(()) => Ok(Answer {
            text,
            halted: false,
        }),
        Err(NoMemory) => Err(Unanswered::NoMemory),
    }
}

fn print_headed(
    alloc: Global,
    first: &Line,
    rows: &[(Key, Value)],
    text: &mut Bytes,
) -> Result<(), NoMemory>
    ensures { IfOk result (λ _. text.new ≡ text.old ++ lines_text (first.now ∷ map row_line rows.now)) }
{
    print_line(alloc, first, text)?;
    print_rows(alloc, rows, text)
}

/// Puts a line for each row last.
pub(crate) fn print_rows(
    alloc: Global,
    rows: &[(Key, Value)],
    text: &mut Bytes,
) -> Result<(), NoMemory>
    ensures { IfOk result (λ _. text.new ≡ text.old ++ lines_text (map row_line rows.now)) }
{
    for row in rows {
        let line = Line::Row {
            key: row.0,
            value: row.1,
        };
        print_line(alloc, &line, text)?;
    }
    Ok(())
}

/// The answer of a drain that came to the safe time `t`: a line of its own, and one for each halt.
pub(crate) fn halts_answer(alloc: Global, t: u64, halts: &[Halt]) -> Result<Answer, Unanswered>
    ensures told { IfOk result (λ a. (a.text ≡ lines_text (Line.Drain t ∷ map halt_line halts.now))
        × (a.halted ≡ not (length halts.now == 0))) }
    ensures memory { IsErrOf result Unanswered.ReadFault → ⊥ }
{
    let mut text = Bytes::new(alloc);
    match print_halts(alloc, t, halts, &mut text) {
        Ok(()) => Ok(Answer {
            text,
            halted: !halts.is_empty(),
        }),
        Err(NoMemory) => Err(Unanswered::NoMemory),
    }
}

fn print_halts(alloc: Global, t: u64, halts: &[Halt], text: &mut Bytes) -> Result<(), NoMemory>
    ensures { IfOk result (λ _. text.new ≡ text.old ++ lines_text (Line.Drain t ∷ map halt_line halts.now)) }
{
    print_line(alloc, &Line::Drain { t }, text)?;
    for halt in halts {
        let line = Line::Halt {
            id: halt.id,
            number: halt.number,
            kind: halt.kind,
        };
        print_line(alloc, &line, text)?;
    }
    Ok(())
}
