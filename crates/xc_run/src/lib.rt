//! What a top call does to the streams that it is lent: it reads its sources in order, refuses what is no input, and
//! writes its output, whole or a prefix of it. No fault is hidden: a count of faults rises exactly where a fault is
//! answered.
#![tactic(auto)]

mod stop;
mod text;

pub use stop::Stop;
pub use text::read_text;

#[cfg(test)]
mod tests {
    use super::*;
    use std::alloc::{AllocError, Global};
    use xc_base::{Bytes, MemorySource};

    // What five bytes give, with this limit and this failing call: how many bytes, or why not.
    fn read_five(
        alloc: Global,
        limit: u64,
        failing: u64,
    ) -> Result<Result<usize, Stop<u8>>, AllocError> {
        let bytes = Bytes::from_vec(Vec::from_slice(alloc, b"12345")?);
        let mut source = MemorySource::new(bytes, vec![in alloc; failing]?);
        Ok(read_text(alloc, &mut source, limit, 7).map(|text| text.len()))
    }

    #[test]
    fn a_text_comes_whole_or_is_too_long_or_its_source_fails(rt: HostRuntime) {
        let alloc = rt.alloc();
        assert!(rt; read_five(alloc, 5, 3) == Ok(Ok(5)));
        assert!(rt; read_five(alloc, 4, 3) == Ok(Err(Stop::Refused(7))));
        assert!(rt; read_five(alloc, 5, 1) == Ok(Err(Stop::ReadFault)));
        assert!(rt; read_five(alloc, 5, 2) == Ok(Err(Stop::ReadFault)));
    }
}
