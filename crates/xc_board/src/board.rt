// The board, its seats and the calls on it.
ghost use Rattle.std.specs.Prelude.{◌≡◌, ◌≢◌, ◌+◌, ◌<◌, ◌≤◌, max, true, ℕ, Some, [], ◌∷◌, ◌++◌, length};
ghost use Rattle.std.specs.Prelude.{IfOk, IsSome};
ghost use Rattle.xc_board.specs.Tree.{unbounded, parent_of, ends_of, start_of, HasChild, IsBelowEnds};
ghost use Rattle.xc_board.specs.declared.tablet.WordState.TheVariants.{Waiting, At, Gone};
ghost use Rattle.xc_board.specs.Words.{least, lesser, words_of};
ghost use Rattle.xc_board.specs.States.{IsPast, IsStart, KnowsAll, later, least_time, states_of};
ghost use Rattle.xc_board.specs.Rule.{MayRise};
ghost use Rattle.xc_board.specs.Scans.{Scanning};
ghost use Rattle.xc_board.specs.Seats.{IsSeatOf, KeepsSeat, RaisedSeat, known_at, least_known};

use crate::rule::{Copies, Law, Merges, Observes, Publishes, Raises, Scans, SeatView};
use crate::tablet::{BoardTablet, BoardTablets, word};
use atomic_table::{Seat, Table};
use std::alloc::Global;
use std::marker::Model;
use xc_base::NoMemory;

// The bound of a scan that has found no active word: 2^62, which is above every time.
const UNBOUNDED: u64 = 1 << 62;

/// One word for each source tablet, and one for the watermark: the greatest hybrid time that was found to be at most
/// each tablet's. Threads share it by reference; each steps with a `BoardSeat` of its own.
#[derive(Drop)]
pub struct Board {
    tablets: BoardTablets,
    table: Table<(), SeatView, BoardTablets, Law, Global>,
}

impl Model for Board {
    ghost use Rattle.xc_board.specs.Seats.{BoardValue};

    ghost Value = { BoardValue };

    ghost use Rattle.xc_board.specs.Inside.{value_of_board, IsBoard};

    ghost view = { value_of_board };

    ghost invariant = { IsBoard };
}

/// What one thread has seen and knows of a board. It takes no memory: what it knows stands in the proofs alone.
#[derive(Drop)]
pub struct BoardSeat {
    seat: Seat<(), SeatView>,
}

impl Model for BoardSeat {
    ghost use Rattle.xc_board.specs.Seats.{SeatValue};

    ghost Value = { SeatValue };

    ghost use Rattle.xc_board.specs.Inside.{value_of_seat, IsSeat};

    ghost view = { value_of_seat };

    ghost invariant = { IsSeat };
}

impl Board {
    /// A board of 1 to 64 tablets, and the first seat at it, which knows each tablet's given state. The watermark
    /// starts at the least time of the active ones. The one error is out of memory.
    pub fn new(alloc: Global, tablets: &[BoardTablet]) -> Result<(Board, BoardSeat), NoMemory>
        requires { IsStart tablets.now }
        ensures board { IfOk result (λ r. r.0.tablets ≡ tablets.now) }
        ensures seat { IfOk result (λ r. IsSeatOf r.0 r.1) }
        ensures known { IfOk result (λ r. r.1.known ≡ states_of tablets.now) }
        ensures seen { IfOk result (λ r. r.1.seen ≡ least_time unbounded (states_of tablets.now)) }
    {
        let words = start_words(alloc, tablets)?;
        let tablets = BoardTablets::copied(alloc, tablets)?;
        match Table::of_words(alloc, words.as_slice(), &tablets) {
            Ok((table, seat)) => Ok((Board { tablets, table }, BoardSeat { seat })),
            Err(_) => Err(NoMemory),
        }
    }

    /// Raises the word of an active tablet to a hybrid time, at most the tablet's end. A word that is already later,
    /// or gone, stays.
    #[inline]
    pub fn raise(&self, seat: &mut BoardSeat, id: u32, t: u64)
        requires seat { IsSeatOf self.now seat.old }
        requires id { id < length self.now.tablets }
        requires ends { t ≤ ends_of self.now.tablets id }
        requires known { known_at seat.old id ≢ Waiting }
        ensures seat { KeepsSeat self.now seat.old seat.new }
        ensures known { IsPast (At t) (known_at seat.new id) }
        ensures others { (i : ℕ) → i ≢ id → known_at seat.new i ≡ known_at seat.old i }
        ensures seen { seat.new.seen ≡ seat.old.seen }
    {
        // The check knows the board's invariant in a function that reads a field.
        let _ = &self.tablets;
        self.raise_word(seat, id, t + 1);
    }

    /// Makes the word of a waiting child active, at the end of its parent. Any other word stays.
    pub fn activate(&self, seat: &mut BoardSeat, id: u32)
        requires seat { IsSeatOf self.now seat.old }
        requires id { id < length self.now.tablets }
        requires parent { IsSome (parent_of self.now.tablets id) }
        ensures seat { KeepsSeat self.now seat.old seat.new }
        ensures active { known_at seat.new id ≢ Waiting }
        ensures known { IsPast (At (start_of self.now.tablets id)) (known_at seat.new id) }
        ensures others { (i : ℕ) → i ≢ id → known_at seat.new i ≡ known_at seat.old i }
        ensures seen { seat.new.seen ≡ seat.old.seen }
    {
        let start = self.start_of(id);
        self.raise_word(seat, id, start + 1);
    }

    /// Takes out the word of a parent whose children all are known to be active, so that it doesn't count any more.
    pub fn retire(&self, seat: &mut BoardSeat, id: u32)
        requires seat { IsSeatOf self.now seat.old }
        requires id { id < length self.now.tablets }
        requires children { HasChild self.now.tablets id }
        requires active { (c : ℕ) → parent_of self.now.tablets c ≡ Some id → known_at seat.old c ≢ Waiting }
        ensures seat { KeepsSeat self.now seat.old seat.new }
        ensures known { known_at seat.new id ≡ Gone }
        ensures others { (i : ℕ) → i ≢ id → known_at seat.new i ≡ known_at seat.old i }
        ensures seen { seat.new.seen ≡ seat.old.seen }
    {
        self.raise_word(seat, id, u64::MAX);
    }

    /// Loads each tablet's word, raises the watermark to the least active time that was loaded, and answers the
    /// watermark after that. Other threads' steps may fall in between.
    pub fn advance(&self, seat: &mut BoardSeat) -> u64
        requires seat { IsSeatOf self.now seat.old }
        ensures seat { KeepsSeat self.now seat.old seat.new }
        ensures seen { (seat.old.seen ≤ result) × (seat.new.seen ≡ result) }
        ensures loaded { least_known seat.new ≤ result }
        ensures known { KnowsAll self.now.tablets (known_at seat.old) → least_known seat.old ≤ result }
        ensures ends { IsBelowEnds self.now.tablets result }
    {
        let count = self.tablets.as_slice().len();
        let bound = self.scan(&mut seat.seat);
        let found = self
            .table
            .shared
            .fetch_max::<Publishes>(&mut seat.seat, count, bound);
        found.max(bound)
    }

    /// The watermark.
    #[inline]
    pub fn observe(&self, seat: &mut BoardSeat) -> u64
        requires seat { IsSeatOf self.now seat.old }
        ensures seat { KeepsSeat self.now seat.old seat.new }
        ensures seen { (seat.old.seen ≤ result) × (seat.new.seen ≡ result) }
        ensures known { seat.new.known ≡ seat.old.known }
        ensures ends { IsBelowEnds self.now.tablets result }
    {
        let count = self.tablets.as_slice().len();
        self.table.shared.load::<Observes>(&mut seat.seat, count)
    }

    /// A second seat, for another thread, which has seen and knows the same.
    pub fn split(&self, seat: &mut BoardSeat) -> BoardSeat
        requires seat { IsSeatOf self.now seat.old }
        ensures seat { seat.new ≡ seat.old }
        ensures second { result ≡ seat.old }
    {
        let second = self.table.shared.split_seat::<Copies>(&mut seat.seat);
        BoardSeat { seat: second }
    }

    /// Takes in what another seat has seen and knows.
    pub fn join(&self, into: &mut BoardSeat, from: BoardSeat)
        requires into { IsSeatOf self.now into.old }
        requires from { IsSeatOf self.now from }
        ensures seat { KeepsSeat self.now into.old into.new }
        ensures seen { into.new.seen ≡ max into.old.seen from.seen }
        ensures known { (i : ℕ) → known_at into.new i ≡ later (known_at into.old i) (known_at from i) }
    {
        let BoardSeat { seat } = from;
        self.table.shared.join_seat::<Merges>(&mut into.seat, seat);
    }

    /// The watermark at the end. No thread borrows the board any more.
    pub fn close(self, seat: BoardSeat) -> u64
        requires seat { IsSeatOf self seat }
        ensures seen { seat.seen ≤ result }
        ensures ends { IsBelowEnds self.tablets result }
    {
        let Board { tablets, table } = self;
        let BoardSeat { seat } = seat;
        let closed = table.close_with(seat);
        let last = closed.word(tablets.as_slice().len());
        closed.free();
        last
    }

    // Raises a tablet's word to a number that it may become, and answers what it was. A greater word stays.
    #[inline]
    fn raise_word(&self, seat: &mut BoardSeat, id: u32, number: u64) -> u64
        requires seat { IsSeatOf self.now seat.old }
        requires id { id < length self.now.tablets }
        requires may { MayRise self.now.tablets (known_at seat.old) id number }
        ensures { RaisedSeat self.now seat.old seat.new id number result }
    {
        self.table
            .shared
            .fetch_max::<Raises>(&mut seat.seat, id as usize, number)
    }

    // The end of the tablet's parent, at which its word starts.
    fn start_of(&self, id: u32) -> u64
        requires id { id < length self.now.tablets }
        requires parent { IsSome (parent_of self.now.tablets id) }
        ensures { (result ≡ start_of self.now.tablets id) × (result < unbounded) }
    {
        let tablets = self.tablets.as_slice();
        match tablets[id as usize].parent {
            Some(parent) => tablets[parent as usize].ends,
            None => 0,
        }
    }

    // Loads the tablets' words upwards one by one, and returns the least active time.
    fn scan(&self, seat: &mut Seat<(), SeatView>) -> u64
        requires id { seat.old.table_id ≡ self.now.id }
        requires tablets { seat.old.me.0.tablets ≡ self.now.tablets }
        requires known { length seat.old.me.0.known ≡ length self.now.tablets }
        requires ready { Scanning seat.old seat.old 0 unbounded }
        ensures { Scanning seat.old seat.new (length self.now.tablets) result × (result ≤ unbounded) }
    {
        let count = self.tablets.as_slice().len();
        let mut bound = UNBOUNDED;
        for next in 0..count {
            let found = self.table.shared.load::<Scans>(seat, next);
            bound = lesser_of(bound, found);
        }
        bound
    }
}

// The lesser of a bound and a word's time, where it has one.
#[inline]
fn lesser_of(bound: u64, found: u64) -> u64
    ensures { result ≡ lesser bound found }
{
    if found == 0 {
        bound
    } else {
        bound.min(found - 1)
    }
}

// The words of the tablets, and the watermark.
fn start_words(alloc: Global, tablets: &[BoardTablet]) -> Result<Vec<u64>, NoMemory>
    requires { IsStart tablets.now }
    ensures { IfOk result (λ v. v.items ≡ words_of tablets.now ++ least unbounded (words_of tablets.now) ∷ []) }
{
    let mut words = Vec::new(alloc);
    let mut mark = UNBOUNDED;
    for tablet in tablets {
        let found = word(tablet.state);
        mark = lesser_of(mark, found);
        if words.push(found).is_err() {
            return Err(NoMemory);
        }
    }
    if words.push(mark).is_err() {
        return Err(NoMemory);
    }
    Ok(words)
}
