// The floor after safe records.
ghost use Rattle.std.specs.Prelude.{◌≡◌, fold};
ghost use Rattle.xc_poller.specs.Poller.{raised_by};

use xc_record::{Kind, Record};

// The greatest of the floor and the values of the safe records.
pub(crate) fn raised(floor: u64, records: &[Record]) -> u64
    ensures { result ≡ fold raised_by floor records.now }
{
    let mut greatest = floor;
    for record in records {
        if let Kind::Safe { value } = &record.kind {
            greatest = greatest.max(value.get());
        }
    }
    greatest
}
