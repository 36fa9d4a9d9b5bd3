/// The most slots, and the most chains, that links can lead to: code, contracts and definitions cite it here.
pub(crate) const MOST_LINKED: usize = 0xffff_ffff;
