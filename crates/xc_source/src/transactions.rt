// The begun transactions, and the keys that the live ones hold.
ghost use Rattle.std.specs.Prelude.{◌≡◌, ◌≢◌, ◌≤◌, ◌<◌, ◌+◌, ◌-◌, ◌^◌, ◌++◌, ◌∷◌, [], ℕ, true, Some, length};
ghost use Rattle.std.specs.Prelude.{option_map, IfOk, OnOk};
ghost use Rattle.std.specs.Prelude.{OnErr, false, ◌⊎◌, ◌&&◌, ◌==◌, if◌then◌else◌};
ghost use Rattle.xc_record.specs.declared.record.Op.{Op as OpOf};
ghost use Rattle.xc_source.specs.Machine.{Machine, Transaction as State, begun, commit_of};
ghost use Rattle.xc_source.specs.Waiting.{taken, holder};
ghost use Rattle.xc_source.specs.Calls.{next_begun, undone_from, written, aborted, committed};
ghost use Rattle.xc_source.specs.Holders.{numbered, changed, is_holder, live_at, committed_at, late_at, next_sub_of};
ghost use Rattle.xc_source.specs.Holders.{subs_full_of};
ghost use Rattle.xc_source.specs.Holders.{sub_within, other_than, commit_at, some_waits, bound_at, least_bound};
ghost use Rattle.std.specs.Prelude.{IfSome, min};
ghost use Rattle.std.specs.Option.{option_map_or};
ghost use Rattle.std.specs.BTreeMap.{get, values, is_at, IsOrdered};
ghost use Rattle.std.specs.BTreeMap.Range.{entries_between};
ghost use Rattle.std.specs.declared.ops.Bound.TheVariants.{Included, Unbounded};
ghost use Rattle.std.specs.BTreeSet.{contains, IsOrdered as IsRising};
ghost use Rattle.std.specs.List.{list_any};
ghost use Rattle.std.specs.Prelude.{is_some};
ghost use Rattle.xc_record.specs.Lists.{first_some};
ghost use Rattle.std.specs.Ordering.{nat_cmp};

use crate::cursor::{Cursor, earliest_on, next_earliest, set_earliest};
use crate::transaction::{Stage, Transaction};
use std::alloc::{AllocError, Global};
use std::collections::{BTreeMap, BTreeSet};
use std::marker::Model;
use xc_base::Key;
use xc_record::{Header, HybridTime, OpAt};

// The begun transactions. Contracts see them as a list, in which the one of number n stands at the place n - 1.
#[derive(Drop, Debug)]
pub(crate) struct Transactions {
    alloc: Global,
    items: Vec<Transaction>,
    // the live transaction that has a waiting write of the key
    holders: BTreeMap<Key, u32>,
    // the committed transactions of which something waits, by commit
    waiting: BTreeMap<u64, u32>,
    // for tablets, by the first hash of the range, where to look on for a commit that waits there
    cursors: BTreeMap<u16, Cursor>,
}

impl Model for Transactions {
    ghost use Rattle.std.specs.Prelude.{List, ◌<◌, ◌^◌, length};
    ghost use Rattle.std.specs.Ordering.{nat_cmp};
    ghost use Rattle.std.specs.Cmp.Lexicographic.{slice_cmp};
    ghost use Rattle.std.specs.BTreeMap as tree;
    ghost use Rattle.xc_source.specs.Machine.{Transaction as State};
    ghost use Rattle.xc_source.specs.Holders.{AreTransactions};

    ghost Value = { List State };

    ghost view = { λ t. t.items.items };

    ghost invariant = { λ t. AreTransactions (tree.get (slice_cmp nat_cmp) t.holders)
        (tree.get nat_cmp t.waiting) (tree.get nat_cmp t.cursors) t.items.items };
}

// Lists the transaction by its commit, unless nothing of it waits. After an error all is as before.
fn list_waiting(
    waiting: &mut BTreeMap<u64, u32>,
    t: &Transaction,
    commit: u64,
    txn: u32,
) -> Result<(), AllocError>
    ensures ok { OnOk result ((c : ℕ) → get nat_cmp waiting.new c
        ≡ (if some_waits t.now && c == commit then Some txn else get nat_cmp waiting.old c)) }
    ensures err { OnErr result (waiting.new.entries ≡ waiting.old.entries) }
{
    if !t.waits() {
        return Ok(());
    }
    if waiting.insert(commit, txn).is_err() {
        return Err(AllocError);
    }
    Ok(())
}

// Takes the transaction off the list, unless something of it waits.
fn unlist_waiting(waiting: &mut BTreeMap<u64, u32>, t: &Transaction, txn: u32)
    ensures kept { (c k : ℕ) → get nat_cmp waiting.old c ≡ Some k → (k ≢ txn) ⊎ (some_waits t.now ≡ true)
        → get nat_cmp waiting.new c ≡ Some k }
    ensures less { (c k : ℕ) → get nat_cmp waiting.new c ≡ Some k → get nat_cmp waiting.old c ≡ Some k }
{
    if t.waits() {
        return;
    }
    let Some(commit) = t.commit_time() else {
        return;
    };
    let Some(listed) = waiting.get(&commit.get()).copied() else {
        return;
    };
    if listed == txn {
        let _ = waiting.remove(&commit.get());
    }
}

// The greatest safe value at which the transaction of this number doesn't show yet, where it is committed and waits on
// the tablet with this header.
fn bound(items: &[Transaction], txn: u32, header: &Header) -> Option<u64>
    ensures value { result ≡ bound_at header.now (numbered items.now txn) }
    ensures time { IfSome result (λ value. 1 ≤ value) }
{
    if txn == 0 {
        return None;
    }
    match items.get(txn as usize - 1) {
        None => None,
        Some(t) => t.bound(header),
    }
}

// The same of the first transaction, in order of commit, that committed at `earliest` or later and waits on the tablet
// with this header.
fn first_bound(
    waiting: &BTreeMap<u64, u32>,
    items: &[Transaction],
    header: &Header,
    earliest: u64,
) -> Option<u64>
    ensures value { result ≡ first_some (λ p. bound_at header.now (numbered items.now p.1))
        (entries_between nat_cmp (Included earliest) Unbounded waiting.now.entries) }
    ensures ordered { IsOrdered nat_cmp waiting.now }
    ensures time { IfSome result (λ value. 1 ≤ value) }
{
    for (_, txn) in waiting.range(earliest..) {
        if let Some(bound) = bound(items, *txn, header) {
            return Some(bound);
        }
    }
    None
}

// The numbers of the transactions in the list, rising.
fn numbers_in(alloc: Global, waiting: &BTreeMap<u64, u32>) -> Result<BTreeSet<u32>, AllocError>
    ensures ordered { IfOk result (λ ns. IsRising nat_cmp ns) }
    ensures all { IfOk result (λ ns. (n : ℕ) → contains nat_cmp ns n
        ≡ list_any (is_at (nat_cmp n)) (values waiting.now)) }
{
    let mut numbers = BTreeSet::new(alloc);
    for txn in waiting.values() {
        if numbers.insert(*txn).is_err() {
            return Err(AllocError);
        }
    }
    Ok(numbers)
}

impl Transactions {
    // No transactions.
    pub(crate) fn new(alloc: Global) -> Transactions
        ensures { result ≡ [] }
    {
        Transactions {
            alloc,
            items: Vec::new(alloc),
            holders: BTreeMap::new(alloc),
            waiting: BTreeMap::new(alloc),
            cursors: BTreeMap::new(alloc),
        }
    }

    // How many there are.
    pub(crate) fn len(&self) -> usize
        ensures len { result ≡ length self.now }
        ensures most { length self.now < 2 ^ 32 }
    {
        self.items.len()
    }

    // The transaction of this number.
    pub(crate) fn at(&self, txn: u32) -> &Transaction
        requires number { 1 ≤ txn }
        requires begun { txn ≤ length self.now }
        ensures { numbered self.now txn ≡ Some result.now }
    {
        &self.items[txn as usize - 1]
    }

    // How far the transaction of this number came, if it was begun.
    pub(crate) fn stage(&self, txn: u32) -> Option<Stage>
        ensures { result ≡ option_map (λ t. t.stage) (numbered self.now txn) }
    {
        if txn == 0 {
            return None;
        }
        match self.items.get(txn as usize - 1) {
            None => None,
            Some(t) => Some(t.stage()),
        }
    }

    // The live transaction that has a waiting write of the key.
    pub(crate) fn holder(&self, key: &Key) -> Option<u32>
        ensures { (m : Machine) (n : ℕ) → m.txns ≡ self.now → other_than n result ≡ holder m n key.now }
    {
        self.holders.get(key).copied()
    }

    // The greatest safe value at which no committed transaction that waits on the tablet with this header shows, if one
    // waits there. The next search on the tablet begins where this one ends.
    pub(crate) fn first_bound(&mut self, header: &Header) -> Option<u64>
        ensures value { (x : ℕ) → x ≤ 2 ^ 62 → option_map_or (λ bound. min x bound) result x
            ≡ least_bound header.now self.old x }
        ensures time { IfSome result (λ value. 1 ≤ value) }
        ensures same { self.new ≡ self.old }
    {
        let earliest = earliest_on(&self.cursors, header);
        let bound = first_bound(&self.waiting, self.items.as_slice(), header, earliest);
        let next = next_earliest(&self.waiting, bound);
        set_earliest(&mut self.cursors, header, next);
        bound
    }

    // The numbers of the committed transactions of which something waits, rising.
    pub(crate) fn waiting(&self) -> Result<BTreeSet<u32>, AllocError>
        ensures ordered { IfOk result (λ ns. IsRising nat_cmp ns) }
        ensures full { IfOk result (λ ns. (n : ℕ) (t : State) → numbered self.now n ≡ Some t
            → is_some (commit_of t.stage) ≡ true → some_waits t ≡ true → contains nat_cmp ns n ≡ true) }
    {
        let numbers = numbers_in(self.alloc, &self.waiting)?;
        Ok(numbers)
    }

    // Begins a transaction. After an error all is as before.
    pub(crate) fn begin(&mut self) -> Result<(), AllocError>
        requires { length self.old + 1 < 2 ^ 32 }
        ensures ok { OnOk result (self.new ≡ self.old ++ begun ∷ []) }
        ensures err { OnErr result (self.new ≡ self.old) }
    {
        if self.items.push(Transaction::new(self.alloc)).is_err() {
            return Err(AllocError);
        }
        Ok(())
    }

    // Begins the next subtransaction of the transaction, and answers its number.
    pub(crate) fn begin_next(&mut self, txn: u32) -> u8
        requires number { 1 ≤ txn }
        requires begun { txn ≤ length self.old }
        requires few { subs_full_of (numbered self.old txn) ≡ false }
        ensures next { self.new ≡ changed next_begun txn self.old }
        ensures number { result ≡ next_sub_of (numbered self.old txn) }
    {
        self.items[txn as usize - 1].begin_next()
    }

    // Rolls the subtransactions of the transaction from `sub` up to the current one back, begins the next one, and
    // answers its number.
    pub(crate) fn roll_back(&mut self, txn: u32, sub: u8) -> u8
        requires number { 1 ≤ txn }
        requires begun { txn ≤ length self.old }
        requires low { 1 ≤ sub }
        requires high { sub_within sub (numbered self.old txn) ≡ true }
        requires few { subs_full_of (numbered self.old txn) ≡ false }
        ensures next { self.new ≡ changed (λ t. next_begun (undone_from sub t)) txn self.old }
        ensures number { result ≡ next_sub_of (numbered self.old txn) }
    {
        let t = &mut self.items[txn as usize - 1];
        t.undo_from(sub);
        t.begin_next()
    }

    // Puts a write of the transaction behind its others. After an error all is as before.
    pub(crate) fn write(&mut self, txn: u32, op: &OpAt<'_>) -> Result<(), AllocError>
        requires live { live_at (numbered self.old txn) ≡ true }
        requires free { (n : ℕ) → is_holder self.old op.now.key n ≡ true → n ≡ txn }
        ensures ok { OnOk result (self.new ≡ changed (written op.now) txn self.old) }
        ensures err { OnErr result (self.new ≡ self.old) }
    {
        let at = txn as usize - 1;
        self.items[at].push_write(self.alloc, op)?;
        if self.holders.insert(op.key(), txn).is_err() {
            self.items[at].pop_write();
            return Err(AllocError);
        }
        Ok(())
    }

    // The transaction committed at this time, and holds no key any more. After an error all is as before.
    pub(crate) fn commit(&mut self, txn: u32, commit: HybridTime) -> Result<(), AllocError>
        requires live { live_at (numbered self.old txn) ≡ true }
        requires late { late_at commit (numbered self.old txn) }
        requires past { (k c : ℕ) → commit_at (numbered self.old k) ≡ Some c → c < commit }
        ensures ok { OnOk result (self.new ≡ changed (committed commit) txn self.old) }
        ensures err { OnErr result (self.new ≡ self.old) }
    {
        let at = txn as usize - 1;
        list_waiting(&mut self.waiting, &self.items[at], commit.get(), txn)?;
        let t = &mut self.items[at];
        t.free(&mut self.holders);
        t.set_committed(commit);
        Ok(())
    }

    // The transaction is rolled back as a whole: nothing of it waits, and it holds no key any more.
    pub(crate) fn abort(&mut self, txn: u32)
        requires live { live_at (numbered self.old txn) ≡ true }
        ensures { self.new ≡ changed aborted txn self.old }
    {
        let t = &mut self.items[txn as usize - 1];
        t.free(&mut self.holders);
        t.set_aborted();
    }

    // What waits of the committed transaction on the tablet with this header is taken.
    pub(crate) fn take(&mut self, txn: u32, header: &Header)
        requires committed { committed_at (numbered self.old txn) ≡ true }
        ensures { self.new ≡ changed (taken header.now) txn self.old }
    {
        let t = &mut self.items[txn as usize - 1];
        t.take(header);
        unlist_waiting(&mut self.waiting, t, txn);
    }
}
