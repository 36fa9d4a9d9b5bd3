ghost use Rattle.std.specs.Prelude.{◌≡◌, ◌≤◌, ◌<◌, ◌+◌, MatchOption, MatchResult};
ghost use Rattle.xc_time.specs.Times.{last_time};

use crate::hybrid_time::{HybridTime, LAST_TIME};
use std::marker::Model;

/// A clock, which stands at a time or at 0, and never goes back. Contracts see it as where it stands.
#[derive(Debug, Drop)]
pub struct Clock {
    time: u64,
}

impl Model for Clock {
    ghost use Rattle.std.specs.Prelude.{ℕ, ◌≤◌};
    ghost use Rattle.xc_time.specs.Times.{last_time};

    ghost Value = { ℕ };

    ghost view = { λ c. c.time };

    ghost invariant = { λ c. c.time ≤ last_time };
}

/// A clock was to be put back. It stands where it stood.
#[derive(Clone, Copy, PartialEq, Eq, Debug)]
pub struct Back {
    /// Where the clock stands.
    pub clock: u64,
}

impl Clock {
    /// A clock that stands at `start`.
    pub fn at(start: u64) -> Clock
        requires { start ≤ last_time }
        ensures { result ≡ start }
    {
        Clock { time: start }
    }

    /// Where the clock stands, from 0 to the last time.
    pub fn now(&self) -> u64
        ensures now { result ≡ self.now }
        ensures within { self.now ≤ last_time }
    {
        self.time
    }

    /// Moves on by one, and gives the time that it stands at then: None exactly at the last time, where it stays.
    pub fn next(&mut self) -> Option<HybridTime>
        ensures { MatchOption result ((self.old ≡ last_time) × (self.new ≡ self.old))
            (λ t. (t ≡ self.old + 1) × (self.new ≡ self.old + 1) × (self.new ≤ last_time)) }
    {
        let next = HybridTime::new(self.time + 1)?;
        self.time = next.get();
        Some(next)
    }

    /// Moves on to `to`, or stays where it stands: `Back` exactly where `to` is below that.
    pub fn advance(&mut self, to: u64) -> Result<(), Back>
        requires { to ≤ last_time }
        ensures { MatchResult result (λ _. (self.old ≤ to) × (self.new ≡ to))
            (λ back. (to < self.old) × (self.new ≡ self.old) × (back.clock ≡ self.old)) }
    {
        if to < self.time {
            return Err(Back { clock: self.time });
        }
        self.time = to;
        Ok(())
    }
}
