// Where a list or a tree of indices goes on: at an index, or nowhere. It takes four bytes, and an Option of an index
// eight.
ghost use Rattle.std.specs.Prelude.{◌≡◌, ◌<◌, Some, None};
ghost use Rattle.xc_intents.specs.declared.limits.TheConstants.{MOST_LINKED};

use std::marker::Model;

/// An index, or none.
#[derive(Drop, Debug, Clone, Copy)]
pub(crate) struct Link {
    // the index and 1, or 0
    number: u32,
}

impl Model for Link {
    ghost use Rattle.std.specs.Prelude.{ℕ, Option};
    ghost use Rattle.xc_intents.specs.Links.{link_of, number_of, number-back};
    ghost use Rattle.std.proofs.Common.{ap};

    ghost Value = { Option ℕ };

    ghost view = { λ l. link_of l.number };

    ghost inverse = { λ o. record { number = number_of o } };

    ghost inverse_ok = { λ l h. ap (λ n. record { number = n }) (number-back l.number) };
}

impl Link {
    /// It leads nowhere.
    pub(crate) fn none() -> Link
        ensures { result ≡ None }
    {
        Link { number: 0 }
    }

    /// It leads to the index.
    #[inline]
    pub(crate) fn to(index: u32) -> Link
        requires { index < MOST_LINKED }
        ensures { result ≡ Some index }
    {
        Link { number: index + 1 }
    }

    /// The index that it leads to.
    #[inline]
    pub(crate) fn get(&self) -> Option<u32>
        ensures { result ≡ self.now }
    {
        if self.number == 0 {
            None
        } else {
            Some(self.number - 1)
        }
    }
}
