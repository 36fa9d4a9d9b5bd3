ghost use Rattle.std.specs.Prelude.{◌≡◌, ◌≤◌, MatchOption};
ghost use Rattle.xc_time.specs.Times.{IsTime, AreParts, physical_of, logical_of, time_of};

use std::marker::Model;

/// The last time, 2^62 - 1.
pub const LAST_TIME: u64 = (1 << 62) - 1;

// How many counts the logical part has, one above its greatest.
const COUNTS: u64 = 4096;

/// A hybrid time: microseconds, the physical part, above a logical counter of 12 bits. As a number it is 4096 times the
/// physical part plus the logical part, from 1 to 2^62 - 1; time 0 is before all times. Times are ordered as numbers.
#[derive(Clone, Copy, PartialEq, Eq, PartialOrd, Ord, Debug)]
pub struct HybridTime {
    value: u64,
}

impl Model for HybridTime {
    ghost use Rattle.std.specs.Prelude.{ℕ};
    ghost use Rattle.xc_time.specs.Times.{IsTime};

    ghost Value = { ℕ };

    ghost view = { λ t. t.value };

    ghost invariant = { λ t. IsTime t.value };

    ghost inverse = { λ n. record { value = n } };
}

impl HybridTime {
    /// The time of a number: None exactly for 0 and above 2^62 - 1.
    pub fn new(value: u64) -> Option<HybridTime>
        ensures { MatchOption result (¬ IsTime value) (λ t. (t ≡ value) × IsTime value) }
    {
        if value == 0 || value > LAST_TIME {
            return None;
        }
        Some(HybridTime { value })
    }

    /// The time with these parts: None exactly where the logical part is above 4095, the physical part is at or above
    /// 2^50, or both are 0.
    pub fn parts(physical: u64, logical: u16) -> Option<HybridTime>
        ensures { MatchOption result (¬ AreParts physical logical)
            (λ t. (t ≡ time_of physical logical) × AreParts physical logical) }
    {
        let logical = u64::from(logical);
        if logical >= COUNTS || physical > LAST_TIME / COUNTS {
            return None;
        }
        HybridTime::new(COUNTS * physical + logical)
    }

    /// The time as a number.
    pub fn get(&self) -> u64
        ensures value { result ≡ self.now }
        ensures time { IsTime self.now }
    {
        self.value
    }

    /// The microseconds, below 2^50.
    pub fn physical(&self) -> u64
        ensures { result ≡ physical_of self.now }
    {
        self.value / COUNTS
    }

    /// The counter, at most 4095.
    pub fn logical(&self) -> u16
        ensures { result ≡ logical_of self.now }
    {
        (self.value % COUNTS) as u16
    }
}
