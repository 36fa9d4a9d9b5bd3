// The tablets of a source, as its calls look at them and log on them.
ghost use Rattle.std.specs.Prelude.{◌≡◌, ◌<◌, ◌+◌, ◌&&◌, if◌then◌else◌, length, map, IfOk, OnOk, OnErr, vec_len};
ghost use Rattle.std.specs.Prelude.{vec_capacity};
ghost use Rattle.std.specs.List.{position_or_len};
ghost use Rattle.xc_record.specs.Hash.{hash_of, holds};
ghost use Rattle.xc_record.specs.Grown.{with_record};
ghost use Rattle.xc_source.specs.Machine.{is_open, empty_tablet, records_in};
ghost use Rattle.xc_source.specs.Universe.{split_tablets, without_last};

use std::alloc::{AllocError, Global};
use std::mem;
use xc_base::NoMemory;
use xc_record::{Header, Kind, Record, Records, Tablet, Tablets};

// A tablet with this header and no records.
fn empty_tablet(alloc: Global, header: Header) -> Tablet
    ensures { result ≡ empty_tablet header }
{
    Tablet {
        header,
        records: Records::from_vec(Vec::new(alloc)),
    }
}

// Tablets with these headers and no records.
pub(crate) fn empty_tablets(alloc: Global, roots: &[Header]) -> Result<Tablets, NoMemory>
    ensures { IfOk result (λ ts. ts ≡ map empty_tablet roots.now) }
{
    let mut tablets = Vec::new(alloc);
    for header in roots {
        if tablets.push(empty_tablet(alloc, *header)).is_err() {
            return Err(NoMemory);
        }
    }
    Ok(Tablets::from_vec(tablets))
}

// Whether the tablet wasn't split.
pub(crate) fn is_open(tablet: &Tablet) -> bool
    ensures { result ≡ is_open tablet.now }
{
    match tablet.records.as_slice().last() {
        None => true,
        Some(record) => !matches!(record.kind, Kind::Split { .. }),
    }
}

// The number of the open tablet that holds the hash.
pub(crate) fn owner(tablets: &[Tablet], hash: u16) -> usize
    ensures { result ≡ position_or_len (λ t. is_open t && holds t.header hash) tablets.now }
{
    for (id, tablet) in tablets.iter().enumerate() {
        if tablet.header.holds(hash) && is_open(tablet) {
            return id;
        }
    }
    tablets.len()
}

// Puts the record behind those of the tablet of this number. After an error all is as before.
fn push_at(items: &mut Vec<Tablet>, id: usize, item: Record) -> Result<(), AllocError>
    requires { id < length items.old.items }
    ensures ok { OnOk result (items.new.items ≡ with_record id item items.old.items) }
    ensures err { OnErr result (items.new.items ≡ items.old.items) }
    ensures len { vec_len items.new ≡ vec_len items.old }
    ensures capacity { vec_capacity items.new ≡ vec_capacity items.old }
{
    items[id].records.push(item)
}

// Puts the record behind those of the tablet of this number. After an error all is as before.
pub(crate) fn push_record(
    alloc: Global,
    tablets: &mut Tablets,
    id: usize,
    item: Record,
) -> Result<(), AllocError>
    requires { id < length tablets.old }
    ensures ok { OnOk result (tablets.new ≡ with_record id item tablets.old) }
    ensures err { OnErr result (tablets.new ≡ tablets.old) }
{
    let none = Tablets::from_vec(Vec::new(alloc));
    let mut items = mem::replace(tablets, none).into_vec();
    let done = push_at(&mut items, id, item);
    *tablets = Tablets::from_vec(items);
    done
}

// Takes the last record of the tablet of this number away, and tells whether there was one.
fn pop_at(alloc: Global, items: &mut Vec<Tablet>, id: usize) -> bool
    requires { id < length items.old.items }
    ensures rest { items.new.items ≡ without_last id items.old.items }
    ensures count { records_in items.new.items + (if result then 1 else 0) ≡ records_in items.old.items }
{
    let tablet = &mut items[id];
    let none = Records::from_vec(Vec::new(alloc));
    let mut records = mem::replace(&mut tablet.records, none).into_vec();
    let popped = records.pop().is_some();
    tablet.records = Records::from_vec(records);
    popped
}

// Takes the last record of the tablet of this number away, and tells whether there was one.
pub(crate) fn pop_record(alloc: Global, tablets: &mut Tablets, id: usize) -> bool
    requires { id < length tablets.old }
    ensures rest { tablets.new ≡ without_last id tablets.old }
    ensures count { records_in tablets.new + (if result then 1 else 0) ≡ records_in tablets.old }
{
    let none = Tablets::from_vec(Vec::new(alloc));
    let mut items = mem::replace(tablets, none).into_vec();
    let popped = pop_at(alloc, &mut items, id);
    *tablets = Tablets::from_vec(items);
    popped
}

// The tablet gets the record behind its others, and two tablets with these headers stand behind all.
fn split_items(
    alloc: Global,
    items: &mut Vec<Tablet>,
    id: usize,
    item: Record,
    left: Header,
    right: Header,
) -> Result<(), AllocError>
    requires { id < length items.old.items }
    ensures ok { OnOk result (items.new.items ≡ split_tablets id item left right items.old.items) }
    ensures err { OnErr result (items.new.items ≡ items.old.items) }
{
    items.reserve(2)?;
    push_at(items, id, item)?;
    items.push_reserved(empty_tablet(alloc, left));
    items.push_reserved(empty_tablet(alloc, right));
    Ok(())
}

// Logs the split record, and puts the children with these headers behind the tablets. After an error all is as before.
pub(crate) fn split_tablets(
    alloc: Global,
    tablets: &mut Tablets,
    id: usize,
    item: Record,
    left: Header,
    right: Header,
) -> Result<(), AllocError>
    requires { id < length tablets.old }
    ensures ok { OnOk result (tablets.new ≡ split_tablets id item left right tablets.old) }
    ensures err { OnErr result (tablets.new ≡ tablets.old) }
{
    let none = Tablets::from_vec(Vec::new(alloc));
    let mut items = mem::replace(tablets, none).into_vec();
    let done = split_items(alloc, &mut items, id, item, left, right);
    *tablets = Tablets::from_vec(items);
    done
}
