ghost use Rattle.std.specs.Prelude.{◌≤◌, ◌<◌};

use super::*;
use std::alloc::{AllocError, Global};
use std::test::Fail;
use xc_base::{Key, Value};
use xc_record::{Op, Ops, hash};

// Holds an operation of a transaction.
fn hold_op(
    alloc: Global,
    intents: &mut Intents,
    txn: u32,
    sub: u8,
    op: Op,
) -> Result<(), AllocError> {
    let mut ops = Ops::new(alloc);
    ops.push(op)?;
    for op in ops.iter() {
        intents.reserve(1)?;
        intents.hold(txn, sub, &op);
    }
    Ok(())
}

// The hash of mmm is 42701, of aaa 30785, of ttt 49652.
fn hold(alloc: Global, intents: &mut Intents, txn: u32, sub: u8, name: &str) -> Result<(), Fail> {
    let op = Op {
        key: Key::new(name.as_bytes())?,
        value: None,
    };
    Ok(hold_op(alloc, intents, txn, sub, op)?)
}

// Three operations of transaction 7 between two of transaction 8.
fn filled(rt: &HostRuntime) -> Result<Intents, Fail> {
    let mut intents = Intents::new(rt.alloc());
    for (txn, sub, name) in [
        (8, 0, "aaa"),
        (7, 1, "mmm"),
        (7, 2, "aaa"),
        (7, 3, "mmm"),
        (8, 4, "mmm"),
    ] {
        hold(rt.alloc(), &mut intents, txn, sub, name)?;
    }
    Ok(intents)
}

// The subtransaction of what is taken, or 99.
fn taken(intents: &mut Intents, txn: u32, lo: u16, hi: u16) -> u8 {
    intents.take_first(txn, lo, hi);
    match intents.taken() {
        Some(held) => held.sub,
        None => 99,
    }
}

#[test]
fn what_is_held_is_taken_by_transaction_and_range_in_order(rt: HostRuntime) -> Result<(), Fail> {
    let mut intents = filled(&rt)?;
    assert!(rt; intents.len() == 5);
    for (txn, lo, hi, want) in [
        (9, 0, 65535, 99),
        (7, 42702, 65535, 99),
        (7, 42701, 42701, 1),
        (7, 0, 42701, 2),
        (7, 0, 42700, 99),
        (8, 42000, 65535, 4),
        (7, 0, 65535, 3),
        (7, 0, 65535, 99),
        (8, 0, 65535, 0),
    ] {
        assert!(rt; taken(&mut intents, txn, lo, hi) == want, "{txn} {lo} {hi}");
    }
    assert!(rt; intents.len() == 0);
    Ok(())
}

#[test]
fn what_is_forgotten_is_of_the_transaction_and_the_range(rt: HostRuntime) -> Result<(), Fail> {
    let mut intents = filled(&rt)?;
    intents.forget(7, 42000, 65535);
    assert!(rt; intents.len() == 3);
    hold(rt.alloc(), &mut intents, 7, 5, "mmm")?;
    assert!(rt; taken(&mut intents, 7, 0, 65535) == 2);
    assert!(rt; taken(&mut intents, 7, 0, 65535) == 5);
    intents.clear();
    assert!(rt; intents.len() == 0 && taken(&mut intents, 8, 0, 65535) == 99);
    Ok(())
}

// An operation in a plain list, and what the random comparison goes by.
#[derive(Clone, Copy, PartialEq, Eq, Debug)]
struct Plain {
    txn: u32,
    sub: u8,
    name: u8,
    hash: u16,
}

// The next of a row of random numbers, below `n`.
fn random(state: &mut u64, n: u64) -> u64
    requires { 1 ≤ n }
    ensures { result < n }
{
    *state = state
        .wrapping_mul(6_364_136_223_846_793_005)
        .wrapping_add(1_442_695_040_888_963_407);
    (*state >> 33) % n
}

// One of a few transactions, small and large, or any at all.
fn some_transaction(state: &mut u64) -> u32 {
    match random(state, 8) {
        0 => 1,
        1 => 2,
        2 => 3,
        3 => 1 << 31,
        4 => u32::MAX,
        5 => 1000 - random(state, 1000) as u32,
        _ => random(state, 4) as u32 * 65_536 + 7,
    }
}

// All hashes, or those of a random range.
fn some_range(state: &mut u64) -> (u16, u16) {
    if random(state, 3) == 0 {
        (0, u16::MAX)
    } else {
        (random(state, 65_536) as u16, random(state, 65_536) as u16)
    }
}

fn is_part(item: &Plain, txn: u32, lo: u16, hi: u16) -> bool {
    item.txn == txn && lo <= item.hash && item.hash <= hi
}

fn take_plain(plain: &mut Vec<Plain>, txn: u32, lo: u16, hi: u16) -> Option<Plain> {
    let found = plain.iter().position(|item| is_part(item, txn, lo, hi))?;
    Some(plain.remove(found))
}

// Holds a random operation in both.
fn hold_both(
    alloc: Global,
    intents: &mut Intents,
    plain: &mut Vec<Plain>,
    state: &mut u64,
) -> Option<()> {
    let txn = some_transaction(state);
    let sub = random(state, 65) as u8;
    let name = random(state, 200) as u8;
    let key = Key::new(&[97 + name % 20, 97 + name / 20]).ok()?;
    let value = if name % 3 == 0 {
        None
    } else {
        Value::new(key.bytes()).ok()
    };
    hold_op(alloc, intents, txn, sub, Op { key, value }).ok()?;
    let hash = hash(&key);
    plain
        .push(Plain {
            txn,
            sub,
            name,
            hash,
        })
        .ok()
}

// What both give is the same.
fn same_taken(intents: &Intents, want: &Option<Plain>) -> bool {
    match (intents.taken(), want) {
        (None, None) => true,
        (Some(held), Some(item)) => {
            held.sub == item.sub
                && held.op.key_bytes() == [97 + item.name % 20, 97 + item.name / 20].as_slice()
                && held.op.value().is_none() == (item.name % 3 == 0)
        }
        _ => false,
    }
}

// Takes all of a part out of both, one after another: whether they gave the same.
fn walk_both(intents: &mut Intents, plain: &mut Vec<Plain>, txn: u32, lo: u16, hi: u16) -> bool {
    if !intents.begin(txn, lo, hi) {
        return take_plain(plain, txn, lo, hi).is_none();
    }
    for _ in 0..=plain.len() {
        let more = intents.take_next();
        if !same_taken(intents, &take_plain(plain, txn, lo, hi)) {
            return false;
        }
        if !more {
            return true;
        }
    }
    false
}

// One random call of both: whether they answered the same.
fn call_both(
    alloc: Global,
    intents: &mut Intents,
    plain: &mut Vec<Plain>,
    state: &mut u64,
) -> Option<bool> {
    let txn = some_transaction(state);
    let (lo, hi) = some_range(state);
    match random(state, 400) {
        0..=249 => hold_both(alloc, intents, plain, state)?,
        250..=364 => {
            intents.take_first(txn, lo, hi);
            if !same_taken(intents, &take_plain(plain, txn, lo, hi)) {
                return Some(false);
            }
        }
        365..=379 => {
            if !walk_both(intents, plain, txn, lo, hi) {
                return Some(false);
            }
        }
        380..=398 => {
            intents.forget(txn, lo, hi);
            plain.retain(|item| !is_part(item, txn, lo, hi));
        }
        _ => {
            intents.clear();
            plain.clear();
        }
    }
    Some(intents.len() == plain.len())
}

#[test]
fn random_calls_answer_as_those_of_a_plain_list(rt: HostRuntime) -> Result<(), Fail> {
    let mut intents = Intents::new(rt.alloc());
    let mut plain = Vec::new(rt.alloc());
    let mut state = 1;
    for call in 0..50_000u32 {
        let same = call_both(rt.alloc(), &mut intents, &mut plain, &mut state).ok_or("memory")?;
        assert!(rt; same, "call {call}");
    }
    Ok(())
}
