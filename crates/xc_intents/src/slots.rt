// The slots that hold operations, in the order held, and the chains of the transactions through them. A slot whose
// operation was taken out is dead, and stays in its place until the slots are gathered.
ghost use Rattle.std.specs.Prelude.{◌≡◌, ◌<◌, ◌≤◌, ◌+◌, ◌-◌, ◌^◌, ◌++◌, ◌∷◌, ◌&&◌, ◌==◌, ℕ, List, nat_lt, [], true};
ghost use Rattle.std.specs.Prelude.{false, length, map, filter, slice_set, slice_index_or, ⊤, None, Some};
ghost use Rattle.std.specs.Prelude.{MatchOption, if◌then◌else◌, OnOk, IfSome, min};
ghost use Rattle.std.specs.Vec.{vec_len, vec_capacity};
ghost use Rattle.xc_intents.specs.declared.slots.Slot.{Slot};
ghost use Rattle.xc_record.specs.Hash.{hash_of};
ghost use Rattle.std.specs.List.{find};
ghost use Rattle.std.specs.Option.{option_map};
ghost use Rattle.xc_intents.specs.HeldOps.{in_range, is_part, without_first, given, held_op};
ghost use Rattle.xc_intents.specs.Slots.{Linked, IsSearchable, HasChain, NoChain, SameWalk, chain_at, at, in_walk};
ghost use Rattle.xc_intents.specs.Slots.{held_in, next_of, chain_to, slots_to, begun, Moves, IsFound, bare};
ghost use Rattle.xc_intents.specs.Slots.{chain_and, slots_and, walk_of, IsChained, fresh, dead, is_live, cut, given_at};
ghost use Rattle.xc_intents.specs.Slots.{TakesNext, mine};
ghost use Rattle.xc_intents.specs.Slots.{Keeps, Holds, Carried, size_of};
ghost use Rattle.xc_arena.specs.Arena.{room_of};
ghost use Rattle.xc_arena.specs.declared.limits.TheConstants.{ARENA_BYTES};
ghost use Rattle.xc_intents.specs.declared.limits.TheConstants.{MOST_LINKED};

use crate::held::Held;
use crate::link::Link;
use crate::search::{drop_unused, find, open};
use xc_arena::{copy_op, move_op, op, op_bytes};
use xc_record::{OpAt, hash_bytes};

/// Where an operation begins in the arena, the slot after it in its transaction's chain, and whether it is still held.
#[derive(Drop, Debug, Clone, Copy)]
pub(crate) struct Slot {
    pub(crate) next: Link,
    pub(crate) txn: u32,
    pub(crate) hash: u16,
    pub(crate) sub: u8,
    pub(crate) live: bool,
    pub(crate) at: u32,
}

/// The chain of a transaction: its ends, and how far its last walk came, which looked for hashes from `lo` to `hi`.
#[derive(Drop, Debug, Clone, Copy)]
pub(crate) struct Chain {
    pub(crate) txn: u32,
    // the chains below it, where they are in a tree: beside the transaction's number, since a search reads these three
    // of each chain that it passes
    pub(crate) left: Link,
    pub(crate) right: Link,
    pub(crate) first: Link,
    pub(crate) last: Link,
    pub(crate) passed: Link,
    pub(crate) lo: u16,
    pub(crate) hi: u16,
}

// Whether the walk of the chain looks for the slot.
#[inline]
fn in_walk(chain: &Chain, slot: &Slot) -> bool
    ensures { result ≡ in_walk chain.now slot.now }
{
    (slot.live && chain.txn == slot.txn) && (chain.lo <= slot.hash && slot.hash <= chain.hi)
}

// The slot at which the walk of the chain goes on.
fn next_of(slots: &[Slot], chain: &Chain) -> Option<u32>
    requires { (p : ℕ) → chain.now.passed ≡ Some p → p < length slots.now }
    ensures { result ≡ next_of slots.now chain.now }
{
    match chain.passed.get() {
        None => chain.first.get(),
        Some(p) => slots[p as usize].next.get(),
    }
}

// Lets the link behind what the walk passed lead to `next`.
fn relink(slots: &mut [Slot], chain: &mut Chain, next: Link)
    requires { (p : ℕ) → chain.old.passed ≡ Some p → p < length slots.old }
    ensures chain { chain.new ≡ chain_to chain.old next }
    ensures slots { slots.new ≡ slots_to slots.old chain.old.passed next }
{
    match chain.passed.get() {
        None => chain.first = next,
        Some(p) => slots[p as usize].next = next,
    }
}

// The walk looks for hashes from `lo` to `hi` from now on.
fn begin(chain: &mut Chain, lo: u16, hi: u16)
    ensures { chain.new ≡ begun lo hi chain.old }
{
    if !(chain.lo <= lo && hi <= chain.hi) {
        chain.passed = Link::none();
    }
    chain.lo = lo;
    chain.hi = hi;
}

// The slot to which a dead slot leads, if there is one.
fn behind(slots: &[Slot], i: u32) -> Option<u32>
    requires { i < length slots.now }
    ensures { MatchOption result ⊤ (λ j. ((at slots.now i).live ≡ false) × ((at slots.now i).next ≡ Some j)) }
{
    let slot = &slots[i as usize];
    if slot.live { None } else { slot.next.get() }
}

// Moves on past the slot at which the walk goes on, which it does not look for: a dead one is left out of the chain,
// unless it is the last.
fn pass(slots: &mut [Slot], chains: &mut [Chain], e: usize, i: u32) -> Option<u32>
    requires linked { Linked slots.old chains.old (length slots.old) }
    requires small { length slots.old ≤ MOST_LINKED }
    requires chain { e < length chains.old }
    requires here { next_of slots.old (chain_at chains.old e) ≡ Some i }
    requires out { in_walk (chain_at chains.old e) (at slots.old i) ≡ false }
    ensures moves { Moves slots.old chains.old slots.new chains.new e }
    ensures there { next_of slots.new (chain_at chains.new e) ≡ result }
    ensures later { MatchOption result ⊤ (λ j. i < j) }
{
    match behind(slots, i) {
        Some(next) => {
            relink(slots, &mut chains[e], Link::to(next));
            Some(next)
        }
        None => {
            chains[e].passed = Link::to(i);
            slots[i as usize].next.get()
        }
    }
}

// The next slot that the walk of the chain looks for, which stays where it is.
fn seek(slots: &mut [Slot], chains: &mut [Chain], e: usize) -> Option<usize>
    requires linked { Linked slots.old chains.old (length slots.old) }
    requires small { length slots.old ≤ MOST_LINKED }
    requires chain { e < length chains.old }
    ensures moves { Moves slots.old chains.old slots.new chains.new e }
    ensures found { IsFound slots.new (chain_at chains.new e) result }
{
    let mut cur = next_of(slots, &chains[e]);
    while let Some(i) = cur {
        if in_walk(&chains[e], &slots[i as usize]) {
            return Some(i as usize);
        }
        cur = pass(slots, chains, e, i);
    }
    None
}

// Lets the chain end at the slot.
fn put_behind(slots: &mut [Slot], chain: &mut Chain, i: u32)
    requires last { (l : ℕ) → chain.old.last ≡ Some l → l < length slots.old }
    requires small { i < MOST_LINKED }
    ensures chain { chain.new ≡ chain_and chain.old i }
    ensures slots { slots.new ≡ slots_and slots.old chain.old.last i }
{
    match chain.last.get() {
        None => chain.first = Link::to(i),
        Some(last) => slots[last as usize].next = Link::to(i),
    }
    chain.last = Link::to(i);
}

// Links the slot behind the others of its transaction's chain, which is `e`.
fn link(slots: &mut [Slot], chains: &mut [Chain], e: usize, i: u32)
    requires linked { Linked slots.old chains.old i }
    requires small { i < MOST_LINKED }
    requires slot { i < length slots.old }
    requires chain { e < length chains.old }
    requires txn { (at slots.old i).txn ≡ (chain_at chains.old e).txn }
    requires end { (at slots.old i).next ≡ None }
    ensures linked { Linked slots.new chains.new (i + 1) }
    ensures same { map bare slots.new ≡ map bare slots.old }
    ensures chains { length chains.new ≡ length chains.old }
    ensures has { (t : ℕ) → HasChain chains.old t → HasChain chains.new t }
{
    put_behind(slots, &mut chains[e], i);
}

// Puts behind all others a slot of the operation that begins at the place, which is in no chain yet.
fn put_last(slots: &mut Vec<Slot>, txn: u32, sub: u8, key: &[u8], at: u32)
    requires { vec_len slots.old < vec_capacity slots.old }
    ensures slots { slots.new.items ≡ slots.old.items ++ fresh txn sub key.now at ∷ [] }
    ensures len { vec_len slots.new ≡ vec_len slots.old + 1 }
    ensures capacity { vec_capacity slots.new ≡ vec_capacity slots.old }
{
    slots.push_reserved(Slot {
        next: Link::none(),
        txn,
        hash: hash_bytes(key),
        sub,
        live: true,
        at,
    });
}

// Holds an operation in a slot behind all others, and behind all others in the arena.
pub(crate) fn append(
    arena: &mut Vec<u8>,
    slots: &mut Vec<Slot>,
    chains: &mut Vec<Chain>,
    recent: &mut usize,
    txn: u32,
    sub: u8,
    op: &OpAt<'_>,
)
    requires chained { IsChained arena.old.items slots.old.items chains.old.items }
    requires op { 1 ≤ room_of arena.old }
    requires slot { vec_len slots.old < vec_capacity slots.old }
    requires small { vec_len slots.old < MOST_LINKED }
    requires chain { vec_len chains.old < vec_capacity chains.old }
    requires few { vec_len chains.old < MOST_LINKED }
    ensures chained { IsChained arena.new.items slots.new.items chains.new.items }
    ensures held { held_in arena.new.items slots.new.items ≡ held_in arena.old.items slots.old.items
        ++ held_op txn sub op.now ∷ [] }
    ensures arena { room_of arena.old ≤ room_of arena.new + 1 }
    ensures slots { vec_len slots.new ≡ vec_len slots.old + 1 }
    ensures chains { vec_len chains.new ≤ vec_len chains.old + 1 }
    ensures slots_capacity { vec_capacity slots.new ≡ vec_capacity slots.old }
    ensures chains_capacity { vec_capacity chains.new ≡ vec_capacity chains.old }
{
    let at = arena.len() as u32;
    copy_op(arena, op);
    let i = slots.len();
    put_last(slots, txn, sub, op.key_bytes(), at);
    let e = open(chains, *recent, txn);
    *recent = e;
    link(slots, chains, e, i as u32);
}

/// The chain of the transaction, if it has one, whose walk looks for hashes from `lo` to `hi` from now on.
pub(crate) fn walk(chains: &mut [Chain], recent: usize, txn: u32, lo: u16, hi: u16) -> Option<usize>
    requires { IsSearchable chains.old (length chains.old) }
    ensures linked { (xs : List Slot) (n : ℕ) → Linked xs chains.old n → Linked xs chains.new n }
    ensures chains { length chains.new ≡ length chains.old }
    ensures found { MatchOption result (NoChain chains.old txn)
        (λ e. (e < length chains.new) × SameWalk (walk_of txn lo hi) (chain_at chains.new e)) }
{
    match find(chains, recent, txn) {
        None => None,
        Some(e) => {
            begin(&mut chains[e], lo, hi);
            Some(e)
        }
    }
}

// Takes out the operation of the slot, which dies.
fn take_out(slots: &mut [Slot], i: usize)
    requires { i < length slots.old }
    ensures { slots.new ≡ slice_set slots.old i (dead (at slots.old i)) }
{
    let slot = &mut slots[i];
    slot.live = false;
}

/// The operation of the slot, where it lies.
pub(crate) fn held_at<'a>(bytes: &'a [u8], slots: &[Slot], i: usize) -> Held<'a>
    requires holds { Holds bytes.now slots.now }
    requires within { i < length slots.now }
    ensures { result ≡ given_at bytes.now slots.now i }
{
    let slot = &slots[i];
    Held {
        sub: slot.sub,
        op: op(bytes, slot.at),
    }
}

/// Takes out the next operation that the walk of the chain looks for, and gives its slot, which dies.
pub(crate) fn take_next(slots: &mut [Slot], chains: &mut [Chain], e: usize) -> Option<usize>
    requires linked { Linked slots.old chains.old (length slots.old) }
    requires small { length slots.old ≤ MOST_LINKED }
    requires chain { e < length chains.old }
    ensures chains { length chains.new ≡ length chains.old }
    ensures slots { length slots.new ≡ length slots.old }
    ensures walk { SameWalk (chain_at chains.old e) (chain_at chains.new e) }
    ensures taken { (b : List ℕ) → IsChained b slots.old chains.old
        → TakesNext b slots.old chains.old slots.new chains.new e result }
{
    match seek(slots, chains, e) {
        None => None,
        Some(i) => {
            take_out(slots, i);
            Some(i)
        }
    }
}

// Drops the dead slots.
fn drop_dead(slots: &mut Vec<Slot>)
    ensures slots { slots.new.items ≡ filter is_live slots.old.items }
    ensures len { vec_len slots.new ≤ vec_len slots.old }
    ensures capacity { vec_capacity slots.new ≡ vec_capacity slots.old }
{
    slots.retain(|slot| slot.live);
}

// Takes all slots out of the chain.
fn cut_one(chain: &mut Chain)
    ensures { chain.new ≡ cut chain.old }
{
    chain.first = Link::none();
    chain.last = Link::none();
    chain.passed = Link::none();
}

// Takes all slots out of the chains.
fn cut(chains: &mut [Chain])
    ensures { chains.new ≡ map cut chains.old }
{
    for chain in chains.iter_mut() {
        cut_one(chain);
    }
}

// Takes the slot out of its chain, and says which transaction's it is.
fn unlink(slots: &mut [Slot], i: usize) -> u32
    requires { i < length slots.old }
    ensures slots { slots.new ≡ slice_set slots.old i (bare (at slots.old i)) }
    ensures txn { result ≡ (at slots.old i).txn }
{
    let slot = &mut slots[i];
    slot.next = Link::none();
    slot.txn
}

// Links the slot anew, behind the others of its transaction's chain.
fn link_again(slots: &mut [Slot], chains: &mut [Chain], i: usize)
    requires linked { Linked slots.old chains.old i }
    requires slot { i < length slots.old }
    requires small { i < MOST_LINKED }
    requires has { HasChain chains.old (at slots.old i).txn }
    ensures linked { Linked slots.new chains.new (i + 1) }
    ensures same { map bare slots.new ≡ map bare slots.old }
    ensures chains { length chains.new ≡ length chains.old }
    ensures kept { (t : ℕ) → HasChain chains.old t → HasChain chains.new t }
{
    let txn = unlink(slots, i);
    if let Some(e) = find(chains, 0, txn) {
        link(slots, chains, e, i as u32);
    }
}

// Moves the live slots together, and drops the dead ones and the chains without slots.
fn gather_slots(slots: &mut Vec<Slot>, chains: &mut Vec<Chain>)
    requires linked { Linked slots.old.items chains.old.items (length slots.old.items) }
    requires small { length slots.old.items ≤ MOST_LINKED }
    requires few { length chains.old.items ≤ MOST_LINKED }
    ensures chained { (b : List ℕ) → Holds b slots.old.items → IsChained b slots.new.items chains.new.items }
    ensures held { (b : List ℕ) → held_in b slots.new.items ≡ held_in b slots.old.items }
    ensures all { (b : List ℕ) → length (held_in b slots.new.items) ≡ length slots.new.items }
    ensures size { (b : List ℕ) → size_of b slots.new.items ≡ size_of b (filter is_live slots.old.items) }
    ensures slots { vec_len slots.new ≤ vec_len slots.old }
    ensures chains { vec_len chains.new ≤ vec_len chains.old }
    ensures slots_capacity { vec_capacity slots.new ≡ vec_capacity slots.old }
    ensures chains_capacity { vec_capacity chains.new ≡ vec_capacity chains.old }
{
    drop_dead(slots);
    chain_anew(slots, chains);
    drop_unused(chains);
}

/// How many bytes the operations of the live slots have. None comes only where a usize doesn't hold the number.
pub(crate) fn live_bytes(bytes: &[u8], slots: &[Slot]) -> Option<usize>
    requires { Holds bytes.now slots.now }
    ensures { IfSome result (λ n. n ≡ size_of bytes.now (filter is_live slots.now)) }
{
    let mut live: usize = 0;
    for i in 0..slots.len() {
        let slot = slots[i];
        if slot.live {
            live = live.checked_add(op_bytes(bytes, slot.at).len())?;
        }
    }
    Some(live)
}

// Moves the operations of the slots behind those of another arena, which has room for them.
fn carry(bytes: &[u8], to: &mut Vec<u8>, slots: &mut [Slot])
    requires holds { Holds bytes.now slots.old }
    requires room { vec_len to.old + size_of bytes.now slots.old ≤ min (vec_capacity to.old) ARENA_BYTES }
    ensures carried { Carried bytes.now slots.old to.new.items slots.new }
    ensures len { vec_len to.new ≡ vec_len to.old + size_of bytes.now slots.old }
    ensures capacity { vec_capacity to.old ≤ vec_capacity to.new }
{
    for i in 0..slots.len() {
        let at = move_op(bytes, slots[i].at, to);
        let slot = &mut slots[i];
        slot.at = at;
    }
}

/// Moves what is live together, slots and chains in their places, and operations to another arena, which is empty and
/// has room for them.
pub(crate) fn gather(bytes: &[u8], to: &mut Vec<u8>, slots: &mut Vec<Slot>, chains: &mut Vec<Chain>)
    requires chained { IsChained bytes.now slots.old.items chains.old.items }
    requires none { vec_len to.old ≡ 0 }
    requires room { size_of bytes.now (filter is_live slots.old.items) ≤ min (vec_capacity to.old) ARENA_BYTES }
    ensures chained { IsChained to.new.items slots.new.items chains.new.items }
    ensures held { held_in to.new.items slots.new.items ≡ held_in bytes.now slots.old.items }
    ensures all { length (held_in to.new.items slots.new.items) ≡ length slots.new.items }
    ensures to { vec_len to.new ≡ size_of bytes.now (filter is_live slots.old.items) }
    ensures to_capacity { vec_capacity to.old ≤ vec_capacity to.new }
    ensures slots { vec_len slots.new ≤ vec_len slots.old }
    ensures chains { vec_len chains.new ≤ vec_len chains.old }
    ensures slots_capacity { vec_capacity slots.new ≡ vec_capacity slots.old }
    ensures chains_capacity { vec_capacity chains.new ≡ vec_capacity chains.old }
{
    gather_slots(slots, chains);
    carry(bytes, to, slots);
}

// Links all slots anew, into chains that are cut first.
fn chain_anew(slots: &mut [Slot], chains: &mut [Chain])
    requires searchable { IsSearchable chains.old (length chains.old) }
    requires small { length slots.old ≤ MOST_LINKED }
    requires has { (k : ℕ) → k < length slots.old → HasChain chains.old (at slots.old k).txn }
    ensures linked { Linked slots.new chains.new (length slots.new) }
    ensures same { map bare slots.new ≡ map bare slots.old }
    ensures chains { length chains.new ≡ length chains.old }
{
    cut(chains);
    link_all(slots, chains);
}

// Links all slots anew.
fn link_all(slots: &mut [Slot], chains: &mut [Chain])
    requires linked { Linked slots.old chains.old 0 }
    requires small { length slots.old ≤ MOST_LINKED }
    requires has { (k : ℕ) → k < length slots.old → HasChain chains.old (at slots.old k).txn }
    ensures linked { Linked slots.new chains.new (length slots.new) }
    ensures same { map bare slots.new ≡ map bare slots.old }
    ensures chains { length chains.new ≡ length chains.old }
{
    for i in 0..slots.len() {
        link_again(slots, chains, i);
    }
}
