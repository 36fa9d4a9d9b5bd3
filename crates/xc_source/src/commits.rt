// The list of what a source committed, with the operations of all commits in one list.
ghost use Rattle.std.specs.Prelude.{◌≡◌, ◌<◌, ◌++◌, ◌∷◌, [], List, length, take, drop, slice_get, IfOk, OnOk, OnErr};
ghost use Rattle.xc_source.specs.declared.commit.Commit.{Commit as Listed};

use crate::commit::Commit;
use std::alloc::{AllocError, Global};
use std::marker::Model;
use xc_record::Ops;

// A commit, and where its operations lie among those of all commits.
#[derive(Clone, Copy, Debug)]
pub(crate) struct Place {
    pub(crate) time: u64,
    // the transaction's number, or 0 of a put
    pub(crate) txn: u32,
    // how many operations lie before its first
    pub(crate) first: usize,
    // how many it has
    pub(crate) count: usize,
}

/// What a source committed, in the order of time. Contracts see it as the list of the [`Commit`]s.
#[derive(Drop, Debug)]
pub struct Commits {
    places: Vec<Place>,
    // the operations of the commits, and of some that were taken back
    ops: Ops,
    // how many operations there are
    count: usize,
}

impl Model for Commits {
    ghost use Rattle.std.specs.Prelude.{List, map};
    ghost use Rattle.xc_source.specs.Listed.{AreCommits, commit_of};
    ghost use Rattle.xc_source.specs.declared.commit.Commit.{Commit};

    ghost Value = { List Commit };

    ghost view = { λ c. map (commit_of c.ops) c.places.items };

    ghost invariant = { λ c. AreCommits c.places.items c.ops c.count };
}

// Puts the operations behind the others, which are counted. After an error the others stay.
fn append(to: &mut Ops, count: &mut usize, ops: &Ops) -> Result<(), AllocError>
    requires counted { count.old ≡ length to.old }
    ensures ok { OnOk result (to.new ≡ to.old ++ ops.now) }
    ensures kept { to.old ++ drop (length to.old) to.new ≡ to.new }
    ensures counted { count.new ≡ length to.new }
{
    let Some(next) = count.checked_add(ops.len()) else {
        return Err(AllocError);
    };
    to.append(ops)?;
    *count = next;
    Ok(())
}

// So many of the operations, behind the first ones, in memory of their own.
fn part(alloc: Global, ops: &Ops, first: usize, count: usize) -> Result<Ops, AllocError>
    ensures { IfOk result (λ part. part ≡ take count (drop first ops.now)) }
{
    let mut part = Ops::new(alloc);
    let mut before = first;
    let mut left = count;
    for op in ops.iter() {
        if before > 0 {
            before -= 1;
        } else if left > 0 {
            part.push_at(&op)?;
            left -= 1;
        }
    }
    Ok(part)
}

// Puts a place behind the others. After an error they are as before.
fn push_place(places: &mut Vec<Place>, place: Place) -> Result<(), AllocError>
    ensures ok { OnOk result (places.new.items ≡ places.old.items ++ place ∷ []) }
    ensures err { OnErr result (places.new.items ≡ places.old.items) }
{
    match places.push(place) {
        Ok(()) => Ok(()),
        Err(_) => Err(AllocError),
    }
}

impl Commits {
    // No commits.
    pub(crate) fn new(alloc: Global) -> Commits
        ensures { result ≡ [] }
    {
        Commits {
            places: Vec::new(alloc),
            ops: Ops::new(alloc),
            count: 0,
        }
    }

    /// How many there are.
    pub fn len(&self) -> usize
        ensures { result ≡ length self.now }
    {
        self.places.len()
    }

    /// The commit of this number, from 0, with its operations in memory of their own, or None past the last. An error
    /// says that memory is out. The operations of all commits are gone over.
    pub fn commit(&self, alloc: Global, n: usize) -> Result<Option<Commit>, AllocError>
        ensures { IfOk result (λ commit. commit ≡ slice_get self.now n) }
    {
        if n >= self.places.len() {
            return Ok(None);
        }
        let Place {
            time,
            txn,
            first,
            count,
        } = self.places[n];
        let ops = part(alloc, &self.ops, first, count)?;
        Ok(Some(Commit { time, txn, ops }))
    }

    // Puts a commit of these operations behind the others. After an error they are as before.
    pub(crate) fn push(&mut self, time: u64, txn: u32, ops: &Ops) -> Result<(), AllocError>
        ensures ok { OnOk result (self.new ≡ self.old ++ record { time = time; txn = txn; ops = ops.now } ∷ []) }
        ensures err { OnErr result (self.new ≡ self.old) }
    {
        let first = self.count;
        append(&mut self.ops, &mut self.count, ops)?;
        let place = Place {
            time,
            txn,
            first,
            count: self.count - first,
        };
        push_place(&mut self.places, place)?;
        Ok(())
    }

    // Takes the last commit back.
    pub(crate) fn pop(&mut self)
        ensures { (cs : List Listed) (c : Listed) → self.old ≡ cs ++ c ∷ [] → self.new ≡ cs }
    {
        let _ = self.places.pop();
    }
}
