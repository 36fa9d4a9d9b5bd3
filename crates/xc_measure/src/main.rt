//! Measures versions and operations that wait, each alone: adds so many versions, and then prunes, scans or reads; or
//! holds so many operations, and takes them out by ranges. bench/versions runs it beside the same work in plain Rust.
//! The words are the order of the commits, the keys, the job, and how many versions or operations.
#![tactic(auto)]

use std::alloc::Global;
use std::env;
use xc_base::{Key, Value};
use xc_intents::Intents;
use xc_record::{Op, Ops};
use xc_versions::Versions;

// The order in which commits come.
#[derive(Clone, Copy)]
enum Order {
    Rising,
    Falling,
    Random,
}

// How many keys there are: one, a thousand, or one for each version.
#[derive(Clone, Copy)]
enum Keys {
    One,
    Thousand,
    Each,
}

// What is done once the versions are there; an apply takes operations that wait, and there are no versions.
#[derive(Clone, Copy)]
enum Job {
    Fill,
    Prune,
    Scan,
    Read,
    Apply,
}

fn order_of(word: &str) -> Order {
    if word == "falling" {
        Order::Falling
    } else if word == "random" {
        Order::Random
    } else {
        Order::Rising
    }
}

fn keys_of(word: &str) -> Keys {
    if word == "thousand" {
        Keys::Thousand
    } else if word == "each" {
        Keys::Each
    } else {
        Keys::One
    }
}

fn job_of(word: &str) -> Job {
    if word == "prune" {
        Job::Prune
    } else if word == "scan" {
        Job::Scan
    } else if word == "read" {
        Job::Read
    } else if word == "apply" {
        Job::Apply
    } else {
        Job::Fill
    }
}

// The key of a number, in ten digits.
fn name(n: u64) -> Option<Key> {
    let mut bytes = [b'k'; 11];
    let mut rest = n;
    for i in 0..10 {
        bytes[10 - i] = b'0' + (rest % 10) as u8;
        rest /= 10;
    }
    Key::any(&bytes).ok()
}

// What each version sets its key to.
fn written() -> Option<Value> {
    Value::any(b"value").ok()
}

// A number below 2^32 that looks like chance.
fn chance(i: u64) -> u64 {
    (i % 0x1_0000_0000 * 0x9e37_79b1) % 0x1_0000_0000
}

fn commit_of(order: Order, i: u64, n: u64) -> u64 {
    match order {
        Order::Rising => i,
        Order::Falling => n.saturating_sub(i),
        Order::Random => chance(i),
    }
}

fn number_of(keys: Keys, commit: u64) -> u64 {
    match keys {
        Keys::One => 0,
        Keys::Thousand => commit % 1_000,
        Keys::Each => commit,
    }
}

// The write of the key of this number, alone.
fn write(ops: &mut Ops, n: u64) -> Option<()> {
    ops.clear();
    let op = Op {
        key: name(n)?,
        value: written(),
    };
    ops.push(op).ok()
}

fn fill(alloc: Global, n: u64, keys: Keys, order: Order) -> Option<Versions> {
    let mut versions = Versions::new(alloc);
    versions.reserve(n as usize).ok()?;
    let mut ops = Ops::new(alloc);
    for i in 0..n {
        let commit = commit_of(order, i, n);
        let number = number_of(keys, commit);
        write(&mut ops, number)?;
        let op = ops.iter().next()?;
        versions.add(&op, commit, 0, i);
    }
    Some(versions)
}

// 60,000 prunes at rising cutoffs.
fn prune(versions: &mut Versions, n: u64) {
    for i in 0..60_000u64 {
        versions.keep_from(i.saturating_mul(n) / 60_000);
    }
}

// How many rows ten scans show.
fn scan(alloc: Global, versions: &Versions) -> u64 {
    let mut found: u64 = 0;
    for _time in 0..10u64 {
        if let Ok(rows) = versions.rows(alloc, u64::MAX) {
            found = found.wrapping_add(rows.len() as u64);
        }
    }
    found
}

// How many of 500,000 reads find a value.
fn read(versions: &Versions, keys: Keys, n: u64) -> u64 {
    let mut found: u64 = 0;
    for i in 0..500_000u64 {
        let commit = chance(i) % n.max(1);
        if let Some(key) = name(number_of(keys, commit)) {
            if versions.at(&key, commit).is_some() {
                found = found.wrapping_add(1);
            }
        }
    }
    found
}

// So many operations of one transaction, each of a key of its own, that wait.
fn hold(alloc: Global, n: u64) -> Option<Intents> {
    let mut held = Intents::new(alloc);
    held.reserve(n as usize).ok()?;
    let mut ops = Ops::new(alloc);
    for i in 0..n {
        write(&mut ops, i)?;
        let op = ops.iter().next()?;
        held.hold(1, 0, &op);
    }
    Some(held)
}

// How many operations of one transaction are taken out by sixteen ranges of hashes, one after another.
fn apply(alloc: Global, n: u64) -> Option<u64> {
    let mut held = hold(alloc, n)?;
    for range in 0..16u16 {
        held.forget(1, range * 4096, range * 4096 + 4095);
    }
    Some(n.saturating_sub(held.len() as u64))
}

fn run(alloc: Global, order: Order, keys: Keys, job: Job, n: u64) -> Option<(usize, u64)> {
    if matches!(job, Job::Apply) {
        return Some((0, apply(alloc, n)?));
    }
    let mut versions = fill(alloc, n, keys, order)?;
    let found = match job {
        Job::Fill | Job::Apply => 0,
        Job::Prune => {
            prune(&mut versions, n);
            0
        }
        Job::Scan => scan(alloc, &versions),
        Job::Read => read(&versions, keys, n),
    };
    Some((versions.pages(), found))
}

fn main(rt: HostRuntime) {
    let alloc = rt.alloc();
    let mut words = Vec::new(alloc);
    if let Ok(all) = env::args(&rt) {
        for word in all.skip(1) {
            if words.push(word).is_err() {
                return;
            }
        }
    }
    if words.len() != 4 {
        let _ = println!(rt;
            "the words are: rising|falling|random one|thousand|each fill|prune|scan|read|apply COUNT"
        );
        return;
    }
    let n = words[3].as_str().parse::<u64>().unwrap_or(0);
    let order = order_of(words[0].as_str());
    let keys = keys_of(words[1].as_str());
    let job = job_of(words[2].as_str());
    match run(alloc, order, keys, job, n) {
        Some((pages, found)) => {
            let _ = println!(rt; "{pages} pages, {found} found");
        }
        None => {
            let _ = println!(rt; "out of memory");
        }
    }
}
