// Printing logs.
ghost use Rattle.std.specs.Prelude.{◌≡◌, ◌++◌, ◌∷◌, [], true, IfOk, OnOk, decimal, map, flat_map, codes};
ghost use Rattle.xc_record.specs.Valid.{is_valid};
ghost use Rattle.xc_text.specs.LogText.{logs_of};
ghost use Rattle.xc_text.specs.Printed.{spaced, name_word, op_word, sub_words, without_words, kind_words, record_text};
ghost use Rattle.xc_text.specs.Printed.{parent_words, header_text, records_text, first_line, text_of, least_version};
ghost use Rattle.xc_text.specs.declared.line.Version.TheVariants.{One, Two};

use crate::line::Version;
use crate::plain::least_version;
use itoa::Buffer;
use std::alloc::{AllocError, Global};
use xc_base::{Bytes, NoMemory, escape};
use xc_record::{Header, Kind, Logs, OpAt, Ops, Record, Subs, Tablet};

/// The log text of the logs, of version 1 exactly where all keys and values are plain, else of version 2: their headers
/// by number, then the records of tablet 0, those of tablet 1 and so on. It takes time and memory in proportion to the
/// text.
pub fn print_logs(alloc: Global, logs: &Logs) -> Result<Bytes, NoMemory>
    requires { is_valid logs.now ≡ true }
    ensures text { IfOk result (λ text. text ≡ text_of (least_version logs.now) logs.now) }
    // What is printed is read as these logs.
    ensures read_back { IfOk result (λ text. logs_of text ≡ Ok logs.now) }
{
    printed(alloc, least_version(logs), logs)
}

/// The log text of version 2 of the logs, in the order of [`print_logs`].
pub fn print_logs2(alloc: Global, logs: &Logs) -> Result<Bytes, NoMemory>
    requires { is_valid logs.now ≡ true }
    ensures text { IfOk result (λ text. text ≡ text_of Two logs.now) }
    // What is printed is read as these logs.
    ensures read_back { IfOk result (λ text. logs_of text ≡ Ok logs.now) }
{
    printed(alloc, Version::Two, logs)
}

fn printed(alloc: Global, version: Version, logs: &Logs) -> Result<Bytes, NoMemory>
    ensures { IfOk result (λ text. text ≡ text_of version logs.now) }
{
    let mut out = Bytes::new(alloc);
    push_logs(&mut out, version, logs.tablets.as_slice())?;
    Ok(out)
}

fn push_first(out: &mut Bytes, version: Version) -> Result<(), AllocError>
    ensures { OnOk result (out.new ≡ out.old ++ first_line version) }
{
    match version {
        Version::One => out.extend(b"xclog 1\n"),
        Version::Two => out.extend(b"xclog 2\n"),
    }
}

#[tactic(auto, unfolding(crate::specs::Printed::text_of))]
fn push_logs(out: &mut Bytes, version: Version, tablets: &[Tablet]) -> Result<(), AllocError>
    ensures { OnOk result (out.new ≡ out.old ++ text_of version (record { tablets = tablets.now })) }
{
    push_first(out, version)?;
    push_headers(out, tablets)?;
    push_tablets(out, version, tablets)?;
    out.extend(b"end\n")
}

fn push_headers(out: &mut Bytes, tablets: &[Tablet]) -> Result<(), AllocError>
    ensures { OnOk result (out.new ≡ out.old ++ flat_map (λ t. header_text t.header) tablets.now) }
{
    for tablet in tablets {
        push_header(out, &tablet.header)?;
    }
    Ok(())
}

fn push_tablets(out: &mut Bytes, version: Version, tablets: &[Tablet]) -> Result<(), AllocError>
    ensures { OnOk result (out.new ≡ out.old ++ flat_map (records_text version) tablets.now) }
{
    for tablet in tablets {
        push_records(out, version, tablet.header.id, tablet.records.as_slice())?;
    }
    Ok(())
}

fn push_records(
    out: &mut Bytes,
    version: Version,
    id: u32,
    records: &[Record],
) -> Result<(), AllocError>
    ensures { OnOk result (out.new ≡ out.old ++ flat_map (record_text version id) records.now) }
{
    for entry in records {
        push_record(out, version, id, entry)?;
    }
    Ok(())
}

#[tactic(auto, unfolding(crate::specs::Printed::header_text))]
fn push_header(out: &mut Bytes, header: &Header) -> Result<(), AllocError>
    ensures { OnOk result (out.new ≡ out.old ++ header_text header.now) }
{
    out.extend(b"tablet")?;
    push_number(out, u64::from(header.id))?;
    push_number(out, u64::from(header.lo))?;
    push_number(out, u64::from(header.hi))?;
    push_parent(out, header.parent)?;
    out.push(b'\n')
}

fn push_parent(out: &mut Bytes, parent: Option<u32>) -> Result<(), AllocError>
    ensures { OnOk result (out.new ≡ out.old ++ spaced (parent_words parent)) }
{
    match parent {
        None => push_word(out, b"root"),
        Some(id) => {
            push_word(out, b"child")?;
            push_number(out, u64::from(id))
        }
    }
}

#[tactic(auto, unfolding(crate::specs::Printed::record_text))]
fn push_record(out: &mut Bytes, version: Version, id: u32, entry: &Record) -> Result<(), AllocError>
    ensures { OnOk result (out.new ≡ out.old ++ record_text version id entry.now) }
{
    push_digits(out, u64::from(id))?;
    push_number(out, entry.time.get())?;
    push_kind(out, version, &entry.kind)?;
    out.push(b'\n')
}

fn push_kind(out: &mut Bytes, version: Version, kind: &Kind) -> Result<(), AllocError>
    ensures { OnOk result (out.new ≡ out.old ++ spaced (kind_words version kind.now)) }
{
    match kind {
        Kind::Write { ops } => {
            push_word(out, b"write")?;
            push_ops(out, version, ops)
        }
        Kind::Intent { txn, sub, ops } => {
            push_word(out, b"intent")?;
            push_number(out, u64::from(*txn))?;
            push_sub(out, *sub)?;
            push_ops(out, version, ops)
        }
        Kind::Apply {
            txn,
            commit,
            without,
        } => {
            push_word(out, b"apply")?;
            push_number(out, u64::from(*txn))?;
            push_number(out, commit.get())?;
            push_without(out, without)
        }
        Kind::Abort { txn } => {
            push_word(out, b"abort")?;
            push_number(out, u64::from(*txn))
        }
        Kind::Safe { value } => {
            push_word(out, b"safe")?;
            push_number(out, value.get())
        }
        Kind::Split { at, left, right } => {
            push_word(out, b"split")?;
            push_number(out, u64::from(*at))?;
            push_number(out, u64::from(*left))?;
            push_number(out, u64::from(*right))
        }
    }
}

// `sub` and the number, of one that isn't 0.
fn push_sub(out: &mut Bytes, sub: u8) -> Result<(), AllocError>
    ensures { OnOk result (out.new ≡ out.old ++ spaced (sub_words sub)) }
{
    if sub == 0 {
        return Ok(());
    }
    push_word(out, b"sub")?;
    push_number(out, u64::from(sub))
}

// `without` and the numbers, where there are any.
fn push_without(out: &mut Bytes, without: &Subs) -> Result<(), AllocError>
    ensures { OnOk result (out.new ≡ out.old ++ spaced (without_words without.now)) }
{
    if without.is_empty() {
        return Ok(());
    }
    push_word(out, b"without")?;
    push_subs(out, without)
}

fn push_subs(out: &mut Bytes, subs: &Subs) -> Result<(), AllocError>
    ensures { OnOk result (out.new ≡ out.old ++ spaced (map decimal subs.now)) }
{
    for sub in subs.iter() {
        push_number(out, u64::from(sub))?;
    }
    Ok(())
}

fn push_ops(out: &mut Bytes, version: Version, ops: &Ops) -> Result<(), AllocError>
    ensures { OnOk result (out.new ≡ out.old ++ spaced (map (op_word version) ops.now)) }
{
    for op in ops.iter() {
        push_op(out, version, &op)?;
    }
    Ok(())
}

// An operation behind a space.
fn push_op(out: &mut Bytes, version: Version, op: &OpAt<'_>) -> Result<(), AllocError>
    ensures { OnOk result (out.new ≡ out.old ++ 32 ∷ op_word version op.now) }
{
    match op.value() {
        None => {
            out.extend(b" -")?;
            push_name(out, version, op.key_bytes())
        }
        Some(value) => {
            out.extend(b" +")?;
            push_name(out, version, op.key_bytes())?;
            out.push(b'=')?;
            push_name(out, version, value.bytes())
        }
    }
}

// The word of a key or of a value.
fn push_name(out: &mut Bytes, version: Version, name: &[u8]) -> Result<(), AllocError>
    ensures { OnOk result (out.new ≡ out.old ++ name_word version name.now) }
{
    match version {
        Version::One => out.extend(name),
        Version::Two => match escape(name, out) {
            Ok(()) => Ok(()),
            Err(_) => Err(AllocError),
        },
    }
}

// A word behind a space.
fn push_word(out: &mut Bytes, word: &[u8]) -> Result<(), AllocError>
    ensures { OnOk result (out.new ≡ out.old ++ 32 ∷ word.now) }
{
    out.push(b' ')?;
    out.extend(word)
}

// A number behind a space.
fn push_number(out: &mut Bytes, number: u64) -> Result<(), AllocError>
    ensures { OnOk result (out.new ≡ out.old ++ 32 ∷ decimal number) }
{
    out.push(b' ')?;
    push_digits(out, number)
}

fn push_digits(out: &mut Bytes, number: u64) -> Result<(), AllocError>
    ensures { OnOk result (out.new ≡ out.old ++ decimal number) }
{
    let mut buffer = Buffer::new();
    out.extend(buffer.format(number).as_bytes())
}
