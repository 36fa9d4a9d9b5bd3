// The parts of a replication session.
ghost use Rattle.std.specs.Prelude.{◌≡◌};

use crate::poller::Poller;
use std::marker::Model;
use xc_tablet::TargetTablet;

/// Target tablets, which contracts see as their list.
#[derive(Drop, Debug)]
pub struct Targets {
    items: Vec<TargetTablet>,
}

impl Model for Targets {
    ghost use Rattle.std.specs.Prelude.{List};
    ghost use Rattle.xc_model.specs.Stands.{TargetTablet as Seen};

    ghost Value = { List Seen };

    ghost view = { λ l. l.items.items };
}

impl Targets {
    /// The target tablets of the vector, without taking memory.
    pub fn from_vec(items: Vec<TargetTablet>) -> Targets
        ensures { result ≡ items.items }
    {
        Targets { items }
    }

    /// The vector of the target tablets, without taking memory.
    pub fn into_vec(self) -> Vec<TargetTablet>
        ensures { result.items ≡ self }
    {
        self.items
    }

    /// The target tablets in order.
    #[inline]
    pub fn as_slice(&self) -> &[TargetTablet]
        ensures { result.now ≡ self.now }
    {
        self.items.as_slice()
    }
}

/// Pollers, which contracts see as their list.
#[derive(Drop, Debug)]
pub struct Pollers {
    items: Vec<Poller>,
}

impl Model for Pollers {
    ghost use Rattle.std.specs.Prelude.{List};
    ghost use Rattle.xc_poller.specs.Poller.{PollerState};

    ghost Value = { List PollerState };

    ghost view = { λ l. l.items.items };
}

impl Pollers {
    /// The pollers of the vector, without taking memory.
    pub fn from_vec(items: Vec<Poller>) -> Pollers
        ensures { result ≡ items.items }
    {
        Pollers { items }
    }

    /// The vector of the pollers, without taking memory.
    pub fn into_vec(self) -> Vec<Poller>
        ensures { result.items ≡ self }
    {
        self.items
    }

    /// The pollers in order.
    #[inline]
    pub fn as_slice(&self) -> &[Poller]
        ensures { result.now ≡ self.now }
    {
        self.items.as_slice()
    }
}

/// What a replication session is made of.
#[derive(Drop, Debug)]
pub struct Parts {
    /// The target tablets, by the lower ends of their ranges.
    pub tablets: Targets,
    /// The pollers of the source tablets, by number.
    pub pollers: Pollers,
    /// Before this hybrid time no history is kept.
    pub cutoff: u64,
    /// The hybrid time that the session was closed at.
    pub closed: Option<u64>,
}
