// The lines of output, as they are written.
ghost use Rattle.std.specs.Prelude.{◌≡◌, ◌++◌, IfOk, string_bytes, flat_map, decimal, codes};
ghost use Rattle.xc_base.specs.Escapes.{escaped};
ghost use Rattle.xc_script.specs.Lines.{break_name, is_halt, line_text, report_object, value_word, Appends};
ghost use Rattle.xc_script.specs.Parts.{number_items, part_text, report_of, value_bytes, value_sign};
ghost use Rattle.serde_json.specs.Data.{array};
ghost use Rattle.serde_json.specs.View.{view};

use itoa::Buffer;
use serde_json::{Value, json};
use std::alloc::{AllocError, Global};
use xc_base::{Bytes, Key, NoMemory, escape};
use xc_record::{Break, Line};

/// Whether the line is that of a poll that met a break of the order rules.
pub fn is_halt(line: &Line) -> bool
    ensures { result ≡ is_halt line.now }
{
    matches!(line, Line::Halt { .. })
}

/// The name of a break of the order rules.
pub fn break_name(kind: Break) -> &'static str
    ensures { result.now ≡ break_name kind }
{
    match kind {
        Break::TimeBack => "time-back",
        Break::CommitAhead => "commit-ahead",
        Break::CommitBelow => "commit-below",
        Break::SafeBack => "safe-back",
        Break::SafeAhead => "safe-ahead",
        Break::AfterSplit => "after-split",
    }
}

/// Puts the line last, with its end. Where memory ran out, a prefix of it may stand behind what was there before.
pub fn print_line(alloc: Global, line: &Line, out: &mut Bytes) -> Result<(), NoMemory>
    ensures { Appends result out.old (line_text line.now) out.new }
{
    match push_line(alloc, out, line) {
        Ok(()) => Ok(()),
        Err(_) => Err(NoMemory),
    }
}

// A part of a line.
#[derive(Clone, Copy)]
enum Part<'a> {
    Text(&'a str),
    Number(u64),
    // Bytes of a key or of a value, which are written as their word.
    Name(&'a [u8]),
}

fn push_line(alloc: Global, out: &mut Bytes, line: &Line) -> Result<(), AllocError>
    ensures { Appends result out.old (line_text line.now) out.new }
{
    match line {
        Line::Wait { id, parent } => two(out, "wait ", u64::from(*id), u64::from(*parent)),
        Line::Halt { id, number, kind } => halt(out, *id, *number, *kind),
        Line::AtEnd { id } => one(out, "atend ", u64::from(*id)),
        Line::Polled { id, count } => two(out, "polled ", u64::from(*id), *count),
        Line::Stopped { id, count } => two(out, "stopped ", u64::from(*id), *count),
        Line::Ack { id, place } => two(out, "ack ", u64::from(*id), *place),
        Line::Restart { id, place } => two(out, "restart ", u64::from(*id), *place),
        Line::Closed { t } => one(out, "closed ", *t),
        Line::Drain { t } => one(out, "drain ", *t),
        Line::Saw {
            reader,
            t,
            key,
            value,
        } => saw(out, *reader, *t, key, value),
        Line::Safe { t } => one(out, "safe ", *t),
        Line::Read { t, key, value } => valued(out, "read ", *t, key, value),
        Line::ReadAt { u, key, value } => valued(out, "readat ", *u, key, value),
        Line::Ahead { u, safe } => two(out, "ahead ", *u, *safe),
        Line::Pruned { u, cutoff } => two(out, "pruned ", *u, *cutoff),
        Line::Scan { t, count } => two(out, "scan ", *t, *count),
        Line::Row { key, value } => row(out, key, value),
        Line::Prune { cutoff } => one(out, "prune ", *cutoff),
        Line::Failover { t, count } => two(out, "failover ", *t, *count),
        Line::Report {
            acks,
            closed,
            cursors,
            cutoff,
            places,
            safe,
        } => report(
            alloc,
            out,
            acks.as_slice(),
            *closed,
            cursors.as_slice(),
            *cutoff,
            places.as_slice(),
            *safe,
        ),
    }
}

// A line of a name, which ends in a space, and a number.
fn one(out: &mut Bytes, name: &str, n: u64) -> Result<(), AllocError>
    ensures { Appends result out.old (name.now ++ (decimal n ++ codes "\n")) out.new }
{
    push_parts(out, &[Part::Text(name), Part::Number(n), Part::Text("\n")])
}

// A line of a name, which ends in a space, and two numbers.
fn two(out: &mut Bytes, name: &str, n: u64, m: u64) -> Result<(), AllocError>
    ensures { Appends result out.old (name.now ++ (decimal n ++ (codes " " ++ (decimal m ++ codes "\n")))) out.new }
{
    let parts = [
        Part::Text(name),
        Part::Number(n),
        Part::Text(" "),
        Part::Number(m),
        Part::Text("\n"),
    ];
    push_parts(out, &parts)
}

fn halt(out: &mut Bytes, id: u32, number: u64, kind: Break) -> Result<(), AllocError>
    ensures { Appends result out.old (line_text (Line.Halt id number kind)) out.new }
{
    let parts = [
        Part::Text("halt "),
        Part::Number(u64::from(id)),
        Part::Text(" "),
        Part::Number(number),
        Part::Text(" "),
        Part::Text(break_name(kind)),
        Part::Text("\n"),
    ];
    push_parts(out, &parts)
}

// How the word of a value begins, which may be none.
fn value_sign(value: &Option<xc_base::Value>) -> &'static str
    ensures { result.now ≡ value_sign value.now }
{
    match value {
        None => "absent",
        Some(_) => "=",
    }
}

fn value_bytes(value: &Option<xc_base::Value>) -> &[u8]
    ensures { result.now ≡ value_bytes value.now }
{
    match value {
        None => &[],
        Some(value) => value.bytes(),
    }
}

// A line of a name, which ends in a space, a time, a key and its value there.
fn valued<'a>(
    out: &mut Bytes,
    name: &'a str,
    t: u64,
    key: &'a Key,
    value: &'a Option<xc_base::Value>,
) -> Result<(), AllocError>
    ensures { Appends result out.old (name.now ++ (decimal t ++ (codes " " ++ (escaped key.now ++ (codes " " ++
        (value_word value.now ++ codes "\n")))))) out.new }
{
    let parts = [
        Part::Text(name),
        Part::Number(t),
        Part::Text(" "),
        Part::Name(key.bytes()),
        Part::Text(" "),
        Part::Text(value_sign(value)),
        Part::Name(value_bytes(value)),
        Part::Text("\n"),
    ];
    push_parts(out, &parts)
}

fn saw<'a>(
    out: &mut Bytes,
    reader: u32,
    t: u64,
    key: &'a Key,
    value: &'a Option<xc_base::Value>,
) -> Result<(), AllocError>
    ensures { Appends result out.old (line_text (Line.Saw reader t key.now value.now)) out.new }
{
    let parts = [
        Part::Text("saw "),
        Part::Number(u64::from(reader)),
        Part::Text(" "),
        Part::Number(t),
        Part::Text(" "),
        Part::Name(key.bytes()),
        Part::Text(" "),
        Part::Text(value_sign(value)),
        Part::Name(value_bytes(value)),
        Part::Text("\n"),
    ];
    push_parts(out, &parts)
}

fn row<'a>(out: &mut Bytes, key: &'a Key, value: &'a xc_base::Value) -> Result<(), AllocError>
    ensures { Appends result out.old (line_text (Line.Row key.now value.now)) out.new }
{
    let parts = [
        Part::Text("row "),
        Part::Name(key.bytes()),
        Part::Text(" ="),
        Part::Name(value.bytes()),
        Part::Text("\n"),
    ];
    push_parts(out, &parts)
}

fn report(
    alloc: Global,
    out: &mut Bytes,
    acks: &[u64],
    closed: bool,
    cursors: &[u64],
    cutoff: u64,
    places: &[u64],
    safe: u64,
) -> Result<(), AllocError>
    ensures { Appends result out.old (codes "report " ++
        (report_object acks.now closed cursors.now cutoff places.now safe ++ codes "\n")) out.new }
{
    let object = report_object(alloc, acks, closed, cursors, cutoff, places, safe)?;
    let parts = [
        Part::Text("report "),
        Part::Text(object.as_str()),
        Part::Text("\n"),
    ];
    push_parts(out, &parts)
}

fn report_object(
    alloc: Global,
    acks: &[u64],
    closed: bool,
    cursors: &[u64],
    cutoff: u64,
    places: &[u64],
    safe: u64,
) -> Result<String, AllocError>
    ensures { IfOk result (λ text. string_bytes text ≡ report_object acks.now closed cursors.now cutoff places.now
        safe) }
{
    let acks = numbers(alloc, acks)?;
    let cursors = numbers(alloc, cursors)?;
    let places = numbers(alloc, places)?;
    let object = report_value(alloc, acks, closed, cursors, cutoff, places, safe)?;
    object.to_string(alloc)
}

fn report_value(
    alloc: Global,
    acks: Value,
    closed: bool,
    cursors: Value,
    cutoff: u64,
    places: Value,
    safe: u64,
) -> Result<Value, AllocError>
    ensures { IfOk result (λ value. view value ≡ report_of (view acks) closed (view cursors) cutoff
        (view places) safe) }
{
    json!(in alloc; {
        "acks": acks,
        "closed": closed,
        "cursors": cursors,
        "cutoff": cutoff,
        "places": places,
        "safe": safe
    })
}

fn numbers(alloc: Global, numbers: &[u64]) -> Result<Value, AllocError>
    ensures { IfOk result (λ value. view value ≡ array (number_items numbers.now)) }
{
    let mut values = Vec::new(alloc);
    for number in numbers {
        values.push(Value::from(*number))?;
    }
    Ok(Value::Array(values))
}

fn push_parts(out: &mut Bytes, parts: &[Part<'_>]) -> Result<(), AllocError>
    ensures { Appends result out.old (flat_map part_text parts.now) out.new }
{
    for part in parts {
        push_part(out, part)?;
    }
    Ok(())
}

fn push_part(out: &mut Bytes, part: &Part<'_>) -> Result<(), AllocError>
    ensures { Appends result out.old (part_text part.now) out.new }
{
    match part {
        Part::Text(text) => push_bytes(out, text.as_bytes()),
        Part::Number(number) => push_number(out, *number),
        Part::Name(name) => push_name(out, name),
    }
}

fn push_bytes(out: &mut Bytes, bytes: &[u8]) -> Result<(), AllocError>
    ensures { Appends result out.old bytes.now out.new }
{
    out.extend(bytes)
}

fn push_number(out: &mut Bytes, number: u64) -> Result<(), AllocError>
    ensures { Appends result out.old (decimal number) out.new }
{
    let mut buffer = Buffer::new();
    push_bytes(out, buffer.format(number).as_bytes())
}

fn push_name(out: &mut Bytes, name: &[u8]) -> Result<(), AllocError>
    ensures { Appends result out.old (escaped name.now) out.new }
{
    match escape(name, out) {
        Ok(()) => Ok(()),
        Err(_) => Err(AllocError),
    }
}
