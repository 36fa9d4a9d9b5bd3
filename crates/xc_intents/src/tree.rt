// The tree in which the chain of a transaction is found where they stand in no order: each chain is a node of it, and
// the bits of the transaction's number say, from the highest on, on which side of a node it is. So no more than 33
// nodes are gone through, whatever the numbers are, and a chain that is added moves no other.
ghost use Rattle.std.specs.Prelude.{◌≡◌, ◌≢◌, ◌<◌, ◌≤◌, ◌+◌, ◌^◌, ℕ, length, map, MatchOption, None};
ghost use Rattle.xc_intents.specs.Slots.{IsTree, Distinct, NoChain, chain_at, is_right, behind_bit, below, hung, loose};
ghost use Rattle.xc_intents.specs.declared.limits.TheConstants.{MOST_LINKED};

use crate::link::Link;
use crate::slots::Chain;

const HIGHEST_BIT: u32 = 1 << 31;

// What is left of a transaction's number behind its first bit.
#[inline]
fn behind_bit(rest: u32) -> u32
    ensures { result ≡ behind_bit rest }
{
    rest.wrapping_mul(2)
}

// The chain on the side of the node on which a walk goes on, by what is left of the transaction's number.
#[inline]
fn below(chain: &Chain, rest: u32) -> Option<u32>
    ensures { result ≡ below (is_right rest) chain.now }
{
    if rest >= HIGHEST_BIT {
        chain.right.get()
    } else {
        chain.left.get()
    }
}

// Puts the chain `n` there.
fn hang(chain: &mut Chain, rest: u32, n: u32)
    requires { n < MOST_LINKED }
    ensures { chain.new ≡ hung (is_right rest) n chain.old }
{
    if rest >= HIGHEST_BIT {
        chain.right = Link::to(n);
    } else {
        chain.left = Link::to(n);
    }
}

/// The chain of the transaction, if it has one, looked for from the top of the tree.
pub(crate) fn search(chains: &[Chain], txn: u32) -> Option<usize>
    requires { IsTree chains.now (length chains.now) }
    ensures { MatchOption result (NoChain chains.now txn)
        (λ e. (e < length chains.now) × ((chain_at chains.now e).txn ≡ txn)) }
{
    if chains.is_empty() {
        return None;
    }
    let mut rest = txn;
    let mut cur: usize = 0;
    while chains[cur].txn != txn {
        match below(&chains[cur], rest) {
            None => return None,
            Some(next) => {
                cur = next as usize;
                rest = behind_bit(rest);
            }
        }
    }
    Some(cur)
}

/// Puts the chain `n` into the tree of those before it.
pub(crate) fn plant(chains: &mut [Chain], n: usize)
    requires tree { IsTree chains.old n }
    requires within { n < length chains.old }
    requires small { n < MOST_LINKED }
    requires other { (k : ℕ) → k < n → (chain_at chains.old k).txn ≢ (chain_at chains.old n).txn }
    requires loose { loose (chain_at chains.old n) ≡ chain_at chains.old n }
    ensures tree { IsTree chains.new (n + 1) }
    ensures same { map loose chains.new ≡ map loose chains.old }
    ensures behind { (k : ℕ) → n ≤ k → chain_at chains.new k ≡ chain_at chains.old k }
{
    if n == 0 {
        return;
    }
    let txn = chains[n].txn;
    let mut rest = txn;
    let mut cur: usize = 0;
    while let Some(next) = below(&chains[cur], rest) {
        cur = next as usize;
        rest = behind_bit(rest);
    }
    hang(&mut chains[cur], rest, n as u32);
}

// Takes the chain out of the tree.
fn uproot_one(chain: &mut Chain)
    ensures { chain.new ≡ loose chain.old }
{
    chain.left = Link::none();
    chain.right = Link::none();
}

/// Takes all chains out of the tree.
pub(crate) fn uproot(chains: &mut [Chain])
    ensures { chains.new ≡ map loose chains.old }
{
    for chain in chains.iter_mut() {
        uproot_one(chain);
    }
}

/// Puts all chains into the tree.
pub(crate) fn plant_all(chains: &mut [Chain])
    requires distinct { Distinct chains.old }
    requires few { length chains.old ≤ MOST_LINKED }
    requires loose { map loose chains.old ≡ chains.old }
    ensures tree { IsTree chains.new (length chains.new) }
    ensures same { map loose chains.new ≡ map loose chains.old }
{
    for n in 0..chains.len() {
        plant(chains, n);
    }
}
