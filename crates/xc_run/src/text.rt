// The whole text of a source.
ghost use Rattle.xc_run.specs.Streams.{stream};
ghost use Rattle.xc_run.specs.Texts.{TookText};

use crate::stop::Stop;
use std::alloc::Global;
use xc_base::{Bytes, ReadAllFail, Source, read_all};

/// The whole text of a source, which is refused by `too_long` exactly where it has more than `limit` bytes.
pub fn read_text<R: Copy, S: Source>(
    alloc: Global,
    source: &mut S,
    limit: u64,
    too_long: R,
) -> Result<Bytes, Stop<R>>
    ensures { TookText limit too_long result (stream S.left S.faults source.old source.new) }
{
    match read_all(alloc, source, limit) {
        Ok(text) => Ok(text),
        Err(ReadAllFail::TooLong) => Err(Stop::Refused(too_long)),
        Err(ReadAllFail::Failed) => Err(Stop::ReadFault),
        Err(ReadAllFail::NoMemory) => Err(Stop::NoMemory),
    }
}
