ghost use Rattle.std.specs.Prelude.{◌≡◌, MatchResult, IsTrue, Some, None, false};
ghost use Rattle.xc_record.specs.Accepted.{root_start};
ghost use Rattle.xc_record.specs.Order.{Progress, break_of, after};

use std::marker::Model;
use xc_record::{Break, Kind, Record};

/// How far the records of a tablet have come: the floor, the log time of the last record, and whether a split came. A
/// record that keeps the order rules moves it on.
#[derive(Clone, Copy, PartialEq, Eq, Debug)]
pub struct Order {
    floor: u64,
    last: u64,
    split: bool,
}

impl Model for Order {
    ghost use Rattle.xc_record.specs.Order.{Progress};

    ghost Value = { Progress };

    ghost view = { λ o. record { floor = o.floor; last = o.last; split = o.split } };

    ghost inverse = { λ p. record { floor = p.floor; last = p.last; split = p.split } };
}

impl Order {
    /// Where a root begins: at floor 0, before all times.
    pub fn root() -> Order
        ensures { result ≡ root_start }
    {
        Order {
            floor: 0,
            last: 0,
            split: false,
        }
    }

    /// Where a child begins: at its parent's final floor, after the time of its parent's split.
    pub fn child(parent: &Order) -> Order
        requires { IsTrue parent.now.split }
        ensures { result ≡ record parent.now { split = false } }
    {
        Order {
            floor: parent.floor,
            last: parent.last,
            split: false,
        }
    }

    /// Takes the next record, or says which order rule it violates: the first of `TimeBack`, `CommitAhead`,
    /// `CommitBelow`, `SafeBack`, `SafeAhead`, `AfterSplit`. After a break all is as before.
    #[tactic(auto, unfolding(xc_record::specs::Order::break_of))]
    pub fn take(&mut self, rec: &Record) -> Result<(), Break>
        ensures { MatchResult result
            (λ _. (break_of self.old rec.now ≡ None) × (self.new ≡ after self.old rec.now))
            (λ violated. (break_of self.old rec.now ≡ Some violated) × (self.new ≡ self.old)) }
    {
        let time = rec.time.get();
        if time <= self.last {
            return Err(Break::TimeBack);
        }
        match &rec.kind {
            Kind::Apply { commit, .. } => {
                if commit.get() > time {
                    return Err(Break::CommitAhead);
                }
                if commit.get() <= self.floor {
                    return Err(Break::CommitBelow);
                }
            }
            Kind::Safe { value } => {
                if value.get() < self.floor {
                    return Err(Break::SafeBack);
                }
                if value.get() > time {
                    return Err(Break::SafeAhead);
                }
            }
            Kind::Write { .. } | Kind::Intent { .. } | Kind::Abort { .. } | Kind::Split { .. } => {}
        }
        if self.split {
            return Err(Break::AfterSplit);
        }
        self.last = time;
        match &rec.kind {
            Kind::Safe { value } => self.floor = value.get(),
            Kind::Split { .. } => self.split = true,
            Kind::Write { .. } | Kind::Intent { .. } | Kind::Apply { .. } | Kind::Abort { .. } => {}
        }
        Ok(())
    }

    /// The value of the last safe record that was taken, of a child else the parent's final floor, else 0.
    pub fn floor(&self) -> u64
        ensures { result ≡ self.now.floor }
    {
        self.floor
    }

    /// The log time of the last record that was taken, of a child else that of the parent's split, else 0.
    pub fn last(&self) -> u64
        ensures { result ≡ self.now.last }
    {
        self.last
    }

    /// Whether a split was taken.
    pub fn has_split(&self) -> bool
        ensures { result ≡ self.now.split }
    {
        self.split
    }
}
