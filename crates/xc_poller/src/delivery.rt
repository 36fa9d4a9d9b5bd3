// A delivery to the first target tablets.
ghost use Rattle.std.specs.Prelude.{◌≡◌, ◌≤◌, ℕ, length, drop, All, OnOk, OnErr};
ghost use Rattle.xc_tablet.specs.Batch.{CanTake};
ghost use Rattle.xc_poller.specs.Polled.{TookFirst};

use xc_base::NoMemory;
use xc_record::Record;
use xc_tablet::TargetTablet;

// Delivers the records to the first `count` tablets, one after another. Where memory is out, some of them took them in.
pub(crate) fn deliver_first(
    tablets: &mut [TargetTablet],
    count: usize,
    id: u32,
    from: u64,
    records: &[Record],
) -> Result<(), NoMemory>
    requires within { count ≤ length tablets.old }
    requires can { All (CanTake id from records.now) tablets.old }
    ensures took { OnOk result (TookFirst id from records.now count tablets.old tablets.new) }
    ensures refused { OnErr result ((k : ℕ) × TookFirst id from records.now k tablets.old tablets.new) }
    ensures others { drop count tablets.new ≡ drop count tablets.old }
{
    for i in 0..count {
        let tablet = &mut tablets[i];
        tablet.deliver(id, from, records)?;
    }
    Ok(())
}
