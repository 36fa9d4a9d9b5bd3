// The cutoff of a target.
ghost use Rattle.std.specs.Prelude.{◌≡◌, ℕ};
ghost use Rattle.std.specs.List.{AllZip};
ghost use Rattle.xc_record.specs.declared.record.Logs.{Logs};
ghost use Rattle.xc_model.specs.Stands.{restore};
ghost use Rattle.xc_retain.specs.Retention.{IsPruned, IsReadable, StillStands, IsRestored, ShowsSame};

use crate::each::{keep_all_from, restore_all};
use std::marker::Model;
use xc_tablet::TargetTablet;

/// Nothing was pruned: the new cutoff is later than the safe time.
#[derive(Clone, Copy, PartialEq, Eq, Debug)]
pub struct Ahead {
    /// The safe time.
    pub safe: u64,
}

/// Why a time can't be read.
#[derive(Clone, Copy, PartialEq, Eq, Debug)]
pub enum NotReadable {
    /// It is later than the safe time, which is named.
    Ahead { safe: u64 },
    /// It is before the cutoff, which is named: no history is kept of it.
    Pruned { cutoff: u64 },
}

/// The cutoff of a target, a hybrid time: before it no history is kept. Contracts see it as that number.
#[derive(Clone, Copy, PartialEq, Eq, Debug)]
pub struct Retention {
    cutoff: u64,
}

impl Model for Retention {
    ghost use Rattle.std.specs.Prelude.{ℕ};

    ghost Value = { ℕ };

    ghost view = { λ r. r.cutoff };

    ghost inverse = { λ n. record { cutoff = n } };
}

impl Retention {
    /// All history is kept: the cutoff is 0, before all times.
    pub fn new() -> Retention
        ensures { result ≡ 0 }
    {
        Retention { cutoff: 0 }
    }

    /// History is kept from this cutoff on.
    pub fn at(cutoff: u64) -> Retention
        ensures { result ≡ cutoff }
    {
        Retention { cutoff }
    }

    /// Before this hybrid time no history is kept.
    #[inline]
    pub fn cutoff(&self) -> u64
        ensures { result ≡ self.now }
    {
        self.cutoff
    }

    /// Lets go the history before the hybrid time `u` in each tablet, and answers the cutoff: the greater of it and the
    /// old one. `Ahead` exactly where `u` is later than the safe time `safe`; then nothing changes. It takes no memory.
    pub fn prune(&mut self, u: u64, safe: u64, tablets: &mut [TargetTablet]) -> Result<u64, Ahead>
        ensures pruned { IsPruned u safe self.old self.new tablets.old tablets.new result }
        // Each tablet that covers the safe time stands for its logs as before, from the cutoff on.
        ensures stands { (logs : Logs) → AllZip (StillStands logs safe self.old self.new) tablets.old tablets.new }
    {
        if u > safe {
            return Err(Ahead { safe });
        }
        self.cutoff = self.cutoff.max(u);
        keep_all_from(tablets, self.cutoff);
        Ok(self.cutoff)
    }

    /// Whether the hybrid time `u` can be read, where the safe time is `safe`: `Ahead` exactly where it is later, else
    /// `Pruned` exactly where it is before the cutoff.
    pub fn readable(&self, u: u64, safe: u64) -> Result<(), NotReadable>
        ensures { IsReadable self.now safe u result }
    {
        if u > safe {
            return Err(NotReadable::Ahead { safe });
        }
        if u < self.cutoff {
            return Err(NotReadable::Pruned {
                cutoff: self.cutoff,
            });
        }
        Ok(())
    }

    /// Lets go what is later than the hybrid time `t`, and all that waits, in each tablet. It takes no memory.
    pub fn restore(t: u64, tablets: &mut [TargetTablet])
        ensures restored { AllZip (λ x y. y ≡ restore t x) tablets.old tablets.new }
        // Each tablet that stood for logs and covers `t` is restored to it for them.
        ensures stood { (logs : Logs) (u : ℕ) → AllZip (IsRestored logs u t) tablets.old tablets.new }
        // Reads at times up to `t` are as before.
        ensures reads { (v : ℕ) → AllZip (ShowsSame t v) tablets.old tablets.new }
    {
        restore_all(tablets, t);
    }
}
