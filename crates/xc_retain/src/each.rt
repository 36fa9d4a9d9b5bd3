// What is let go in each tablet.
ghost use Rattle.std.specs.Prelude.{◌≡◌};
ghost use Rattle.std.specs.List.{AllZip};
ghost use Rattle.xc_model.specs.Stands.{KeepsFrom, restore};

use xc_tablet::TargetTablet;

/// Lets go the history before the cutoff in each tablet.
pub(crate) fn keep_all_from(tablets: &mut [TargetTablet], cutoff: u64)
    ensures { AllZip (KeepsFrom cutoff) tablets.old tablets.new }
{
    for tablet in tablets.iter_mut() {
        tablet.keep_from(cutoff);
    }
}

/// Lets go what is later than `t`, and all that waits, in each tablet.
pub(crate) fn restore_all(tablets: &mut [TargetTablet], t: u64)
    ensures { AllZip (λ x y. y ≡ restore t x) tablets.old tablets.new }
{
    for tablet in tablets.iter_mut() {
        tablet.restore(t);
    }
}
