// Random calls, whose answers are compared with those of a plain list.
ghost use Rattle.std.specs.Prelude.{◌≡◌, ◌<◌, ◌≤◌, ◌+◌, OnOk, length};
ghost use Rattle.std.specs.List.{AllByRecursion};

use super::*;
use std::alloc::{AllocError, Global};
use std::test::Fail;
use xc_base::{Key, Value};
use xc_record::{Op, Ops};

// A version of the plain list, which has them in the order in which they came.
#[derive(Clone, Copy, Debug)]
struct Plain {
    key: usize,
    commit: u64,
    txn: u32,
    place: u64,
    value: Option<u64>,
}

// In byte order. Of the keys that begin alike some are told apart by fifteen bytes and the length, and others are not.
static KEYS: [&str; 12] = [
    "a",
    "a\0",
    "aa",
    "aaaaaaaa",
    "aaaaaaaab",
    "aaaaaaab",
    "b",
    "baaaaaaaaaaaaaa",
    "baaaaaaaaaaaaaa\0",
    "baaaaaaaaaaaaaaa",
    "baaaaaaaaaaaaaaaa",
    "baaaaaaaaaaaaaaaaaaaaaaaaaaaaaaa",
];

fn is_before(x: &Plain, y: &Plain) -> bool {
    (x.commit, x.txn, x.place) < (y.commit, y.txn, y.place)
}

// What the key is set to at t.
fn value_at(items: &[Plain], key: usize, t: u64) -> Option<u64> {
    let mut last: Option<Plain> = None;
    for x in items {
        if x.key == key && x.commit <= t {
            let later = match &last {
                Some(y) => is_before(y, x),
                None => true,
            };
            if later {
                last = Some(*x);
            }
        }
    }
    match last {
        Some(x) => x.value,
        None => None,
    }
}

// Whether a later version of the key has a commit of at most the cutoff.
fn is_replaced(items: &[Plain], x: &Plain, cutoff: u64) -> bool {
    for y in items {
        if y.key == x.key && y.commit <= cutoff && is_before(x, y) {
            return true;
        }
    }
    false
}

fn kept(alloc: Global, items: &[Plain], cutoff: u64) -> Result<Vec<Plain>, AllocError> {
    let mut rest = Vec::new(alloc);
    for x in items {
        if !is_replaced(items, x, cutoff) {
            rest.push(*x)?;
        }
    }
    Ok(rest)
}

// The next number of a sequence that looks like chance.
fn next(state: &mut u64, below: u64) -> u64
    requires { 0 < below }
    ensures { result < below }
{
    *state = state
        .wrapping_mul(6_364_136_223_846_793_005)
        .wrapping_add(1_442_695_040_888_963_407);
    (*state >> 33) % below
}

fn text(value: Option<u64>) -> Option<Value> {
    match value {
        Some(number) => Value::any(&number.to_be_bytes()).ok(),
        None => None,
    }
}

// One in four is a removal.
fn some_value(state: &mut u64) -> Option<u64> {
    let number = next(state, 1_000_000);
    if number % 4 == 0 { None } else { Some(number) }
}

fn same_value(found: Option<&Value>, known: Option<u64>) -> bool {
    match (found, known) {
        (Some(value), Some(number)) => value.bytes() == number.to_be_bytes().as_slice(),
        (None, None) => true,
        _ => false,
    }
}

// Whether both have the same rows at t.
fn same_rows(alloc: Global, versions: &Versions, items: &[Plain], t: u64) -> Result<bool, Fail> {
    let rows = versions.rows(alloc, t)?;
    let mut at = 0;
    for i in 0..KEYS.len() {
        if let Some(number) = value_at(items, i, t) {
            if at >= rows.len() {
                return Ok(false);
            }
            let (key, value) = &rows.as_slice()[at];
            if key.bytes() != KEYS[i].as_bytes() || !same_value(Some(value), Some(number)) {
                return Ok(false);
            }
            at += 1;
        }
    }
    Ok(at == rows.len())
}

// Adds a version to both.
fn add(
    alloc: Global,
    versions: &mut Versions,
    items: &mut Vec<Plain>,
    state: &mut u64,
    commits: u64,
    place: u64,
) -> Result<(), Fail>
    requires some { 0 < commits }
    requires earlier { AllByRecursion (λ x. x.place < place) versions.old.items }
    ensures { OnOk result (AllByRecursion (λ x. x.place < place + 1) versions.new.items) }
{
    let i = next(state, 12) as usize;
    let commit = next(state, commits);
    let number = next(state, 3);
    let txn = number as u32;
    let value = some_value(state);
    let mut ops = Ops::new(alloc);
    ops.push(Op {
        key: Key::any(KEYS[i].as_bytes())?,
        value: text(value),
    })?;
    versions.reserve(1)?;
    items.push(Plain {
        key: i,
        commit,
        txn,
        place,
        value,
    })?;
    let op = ops.iter().next().ok_or("no operation")?;
    versions.add(&op, commit, txn, place);
    Ok(())
}

// In one call of `rare` prunes both, or drops from both what is late.
fn shrink(
    alloc: Global,
    versions: &mut Versions,
    items: &mut Vec<Plain>,
    state: &mut u64,
    commits: u64,
    rare: u64,
    place: u64,
) -> Result<(), Fail>
    requires some { 0 < commits }
    requires rare { 0 < rare }
    requires earlier { AllByRecursion (λ x. x.place < place) versions.old.items }
    ensures { OnOk result (AllByRecursion (λ x. x.place < place) versions.new.items) }
{
    if next(state, rare) > 0 {
        return Ok(());
    }
    let t = next(state, commits);
    if next(state, 8) == 0 {
        let late = t / 8 * 7;
        versions.drop_after(late);
        items.retain(|x| x.commit <= late);
    } else {
        *items = kept(alloc, items, t)?;
        versions.keep_from(t);
    }
    Ok(())
}

// So many calls, one in `rare` of which takes versions away. Whether each answer was that of the list.
fn run(alloc: Global, seed: u64, calls: u64, commits: u64, rare: u64) -> Result<bool, Fail>
    requires commits { 0 < commits }
    requires rare { 0 < rare }
{
    let mut versions = Versions::new(alloc);
    let mut items = Vec::new(alloc);
    let mut state = seed;
    for place in 0..calls {
        shrink(
            alloc,
            &mut versions,
            &mut items,
            &mut state,
            commits,
            rare,
            place,
        )?;
        add(alloc, &mut versions, &mut items, &mut state, commits, place)?;
        let i = next(&mut state, 12) as usize;
        let t = next(&mut state, commits);
        let key = Key::any(KEYS[i].as_bytes())?;
        if !same_value(versions.at(&key, t).as_ref(), value_at(&items, i, t)) {
            return Ok(false);
        }
        if next(&mut state, rare) == 0 && !same_rows(alloc, &versions, &items, t)? {
            return Ok(false);
        }
    }
    same_rows(alloc, &versions, &items, commits)
}

#[test]
fn random_calls_are_answered_as_by_a_plain_list(rt: HostRuntime) -> Result<(), Fail> {
    for (seed, calls, commits, rare) in [
        (1, 2_000, 40, 10),
        (2, 2_000, 1_000, 30),
        (3, 6_000, 1_000_000, 1_000),
        (4, 6_000, 9, 1_500),
        // Prunes and a drop of 8,000 and more versions, in more than two groups of 64 pages that shrink and grow.
        (65, 12_000, 1_000_000, 5_000),
    ] {
        assert!(rt; run(rt.alloc(), seed, calls, commits, rare)?, "{seed}");
    }
    Ok(())
}
