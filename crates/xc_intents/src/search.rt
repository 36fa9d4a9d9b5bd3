// The chains of the transactions. As long as they stand in rising order of these, as most often they do, one is
// searched for by halves, and the first chain has no branch. From the first on that comes out of order they are in a
// tree, whose top the first chain is.
ghost use Rattle.std.specs.Prelude.{◌≡◌, ◌≢◌, ◌<◌, ◌≤◌, ◌+◌, ◌++◌, ◌∷◌, ℕ, List, [], length, map, filter};
ghost use Rattle.std.specs.Prelude.{MatchOption, true};
ghost use Rattle.std.specs.Vec.{vec_len, vec_capacity};
ghost use Rattle.xc_intents.specs.declared.slots.Slot.{Slot};
ghost use Rattle.xc_intents.specs.Slots.{Linked, IsTree, IsSearchable, Rising, Distinct, NoChain, chain_at, no_chain};
ghost use Rattle.xc_intents.specs.Slots.{is_planted, loose, is_used};
ghost use Rattle.xc_intents.specs.declared.limits.TheConstants.{MOST_LINKED};

use crate::link::Link;
use crate::slots::Chain;
use crate::tree::{plant, plant_all, search, uproot};
use std::cmp::Ordering;

// Whether the chains are in a tree.
#[inline]
fn is_planted(chains: &[Chain]) -> bool
    ensures { result ≡ is_planted chains.now }
{
    match chains.first() {
        None => false,
        Some(chain) => chain.left.get().is_some() || chain.right.get().is_some(),
    }
}

// Where a search between `low` and `high` goes on: at the place that is guessed, if that is between them, or half-way.
#[inline]
fn between(low: usize, high: usize, guess: usize) -> usize
    requires { low < high }
    ensures { (low ≤ result) × (result < high) }
{
    if low <= guess && guess < high {
        guess
    } else {
        low + (high - low) / 2
    }
}

// The chain of the transaction, if it has one, where they stand in rising order. It is searched for around the one that
// was asked for last, in steps that double, and then by halves.
fn search_rising(chains: &[Chain], recent: usize, txn: u32) -> Option<usize>
    requires { Rising chains.now (length chains.now) }
    ensures { MatchOption result (NoChain chains.now txn)
        (λ e. (e < length chains.now) × ((chain_at chains.now e).txn ≡ txn)) }
{
    let mut low = 0;
    let mut high = chains.len();
    let mut guess = recent;
    let mut step: usize = 1;
    while low < high {
        let middle = between(low, high, guess);
        match chains[middle].txn.cmp(&txn) {
            Ordering::Equal => return Some(middle),
            Ordering::Less => {
                low = middle + 1;
                guess = middle.wrapping_add(step);
            }
            Ordering::Greater => {
                high = middle;
                guess = middle.wrapping_sub(step);
            }
        }
        step = step.wrapping_mul(2);
    }
    None
}

// Whether the chain of this index is that of the transaction.
#[inline]
fn is_of(chains: &[Chain], e: usize, txn: u32) -> bool
    ensures { result ≡ true → (e < length chains.now) × ((chain_at chains.now e).txn ≡ txn) }
{
    e < chains.len() && chains[e].txn == txn
}

// The chain of the transaction, if it has one, where they are in a tree. The one that was asked for last is tried
// first, and those beside it, since transactions are most often applied in the order in which they came.
fn search_planted(chains: &[Chain], recent: usize, txn: u32) -> Option<usize>
    requires { IsTree chains.now (length chains.now) }
    ensures { MatchOption result (NoChain chains.now txn)
        (λ e. (e < length chains.now) × ((chain_at chains.now e).txn ≡ txn)) }
{
    let next = recent.wrapping_add(1);
    let before = recent.wrapping_sub(1);
    if is_of(chains, recent, txn) {
        Some(recent)
    } else if is_of(chains, next, txn) {
        Some(next)
    } else if is_of(chains, before, txn) {
        Some(before)
    } else {
        search(chains, txn)
    }
}

/// The chain of the transaction, if it has one. It is soon found where it is near to the one that was asked for last.
pub(crate) fn find(chains: &[Chain], recent: usize, txn: u32) -> Option<usize>
    requires { IsSearchable chains.now (length chains.now) }
    ensures { MatchOption result (NoChain chains.now txn)
        (λ e. (e < length chains.now) × ((chain_at chains.now e).txn ≡ txn)) }
{
    if is_planted(chains) {
        search_planted(chains, recent, txn)
    } else {
        search_rising(chains, recent, txn)
    }
}

// Whether the chains stand in rising order.
fn are_rising(chains: &[Chain]) -> bool
    ensures { result ≡ true → Rising chains.now (length chains.now) }
{
    for k in 1..chains.len() {
        if chains[k - 1].txn >= chains[k].txn {
            return false;
        }
    }
    true
}

// Makes the chains searchable anew.
fn arrange(chains: &mut [Chain])
    requires distinct { Distinct chains.old }
    requires few { length chains.old ≤ MOST_LINKED }
    ensures searchable { IsSearchable chains.new (length chains.new) }
    ensures same { map loose chains.new ≡ map loose chains.old }
{
    uproot(chains);
    if !are_rising(chains) {
        plant_all(chains);
    }
}

// Whether the last chain is of a greater transaction than the one before it, if there is one.
fn ends_rising(chains: &[Chain]) -> bool
    ensures { result ≡ true → (n : ℕ) → length chains.now ≡ n + 1 → Rising chains.now n → Rising chains.now (n + 1) }
{
    let count = chains.len();
    count < 2 || chains[count - 2].txn < chains[count - 1].txn
}

// Makes the last chain searchable, as those before it are.
fn place_last(chains: &mut [Chain], n: usize)
    requires searchable { IsSearchable chains.old n }
    requires last { length chains.old ≡ n + 1 }
    requires few { length chains.old ≤ MOST_LINKED }
    requires other { (k : ℕ) → k < n → (chain_at chains.old k).txn ≢ (chain_at chains.old n).txn }
    requires loose { loose (chain_at chains.old n) ≡ chain_at chains.old n }
    ensures searchable { IsSearchable chains.new (length chains.new) }
    ensures same { map loose chains.new ≡ map loose chains.old }
{
    if is_planted(chains) {
        plant(chains, n);
    } else if !ends_rising(chains) {
        arrange(chains);
    }
}

// Keeps the chains with slots.
fn retain_used(chains: &mut Vec<Chain>)
    ensures chains { chains.new.items ≡ filter is_used chains.old.items }
    ensures len { vec_len chains.new ≤ vec_len chains.old }
    ensures capacity { vec_capacity chains.new ≡ vec_capacity chains.old }
{
    chains.retain(|chain| chain.first.get().is_some());
}

/// Drops the chains without slots.
pub(crate) fn drop_unused(chains: &mut Vec<Chain>)
    requires searchable { IsSearchable chains.old.items (length chains.old.items) }
    requires few { length chains.old.items ≤ MOST_LINKED }
    ensures searchable { IsSearchable chains.new.items (length chains.new.items) }
    ensures chains { map loose chains.new.items ≡ map loose (filter is_used chains.old.items) }
    ensures len { vec_len chains.new ≤ vec_len chains.old }
    ensures capacity { vec_capacity chains.new ≡ vec_capacity chains.old }
{
    retain_used(chains);
    arrange(chains);
}

// Puts a chain without slots behind all others, which is in no tree.
fn put_chain(chains: &mut Vec<Chain>, txn: u32)
    requires room { vec_len chains.old < vec_capacity chains.old }
    ensures chains { chains.new.items ≡ chains.old.items ++ no_chain txn ∷ [] }
    ensures len { vec_len chains.new ≡ vec_len chains.old + 1 }
    ensures capacity { vec_capacity chains.new ≡ vec_capacity chains.old }
{
    chains.push_reserved(Chain {
        txn,
        left: Link::none(),
        right: Link::none(),
        first: Link::none(),
        last: Link::none(),
        passed: Link::none(),
        lo: 0,
        hi: 0,
    });
}

/// The chain of the transaction, which is made where there is none.
pub(crate) fn open(chains: &mut Vec<Chain>, recent: usize, txn: u32) -> usize
    requires searchable { IsSearchable chains.old.items (length chains.old.items) }
    requires room { vec_len chains.old < vec_capacity chains.old }
    requires few { vec_len chains.old < MOST_LINKED }
    ensures linked { (xs : List Slot) (n : ℕ) → Linked xs chains.old.items n → Linked xs chains.new.items n }
    ensures chain { result < length chains.new.items }
    ensures txn { (chain_at chains.new.items result).txn ≡ txn }
    ensures len { vec_len chains.new ≤ vec_len chains.old + 1 }
    ensures capacity { vec_capacity chains.new ≡ vec_capacity chains.old }
{
    if let Some(e) = find(chains, recent, txn) {
        return e;
    }
    let e = chains.len();
    put_chain(chains, txn);
    place_last(chains, e);
    e
}
