// The rows of all tablets together.
ghost use Rattle.std.specs.Prelude.{◌≡◌, IfOk, IsPermutation, IsSortedByKey, flat_map};
ghost use Rattle.std.specs.Ordering.{nat_cmp};
ghost use Rattle.std.specs.Cmp.Lexicographic.{slice_cmp};
ghost use Rattle.xc_model.specs.Stands.{rows_shown};

use std::alloc::Global;
use xc_base::{Key, NoMemory, Value};
use xc_tablet::TargetTablet;
use xc_versions::Rows;

/// The rows that the tablets show at the time `t`, in byte order of keys. `NoMemory` where memory is out.
pub(crate) fn rows_of_all(alloc: Global, tablets: &[TargetTablet], t: u64) -> Result<Rows, NoMemory>
    ensures rows { IfOk result (λ found. IsPermutation (flat_map (rows_shown t) tablets.now) found) }
    ensures order { IfOk result (λ found. IsSortedByKey (λ row. row.0) (slice_cmp nat_cmp) found) }
{
    let mut rows: Vec<(Key, Value)> = Vec::new(alloc);
    for tablet in tablets {
        let mut shown = tablet.rows(alloc, t)?.into_vec();
        rows.append(&mut shown)?;
    }
    // The rows of each tablet are in order, and the ranges are of hashes, so that the keys of two tablets stand in no
    // order. This sort merges what is in order already.
    rows.sort_by(|a, b| a.0.cmp(&b.0))?;
    Ok(Rows::from_vec(rows))
}
