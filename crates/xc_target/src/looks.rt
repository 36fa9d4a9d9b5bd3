// What the tablets and the pollers of a target show.
ghost use Rattle.std.specs.Prelude.{◌≡◌};
ghost use Rattle.xc_target.specs.Target.{least_open, shown_at};

use xc_base::{Key, Value};
use xc_poller::Poller;
use xc_record::hash;
use xc_tablet::TargetTablet;

/// The least of the last safe values of the tablets that are open and not closed. It looks at up to 64 numbers.
pub(crate) fn least_open(pollers: &[Poller]) -> u64
    ensures { result ≡ least_open pollers.now }
{
    let mut least: u64 = 1 << 62;
    for poller in pollers {
        if poller.is_open() && !poller.closed() {
            least = least.min(poller.floor());
        }
    }
    least
}

/// The value of the key at the time `t`, in the tablet whose range has it.
pub(crate) fn shown(tablets: &[TargetTablet], key: &Key, t: u64) -> Option<Value>
    ensures { result ≡ shown_at t key.now tablets.now }
{
    let at = hash(key);
    for tablet in tablets {
        let (lo, hi) = tablet.range();
        if lo <= at && at <= hi {
            return tablet.read(key, t);
        }
    }
    None
}
