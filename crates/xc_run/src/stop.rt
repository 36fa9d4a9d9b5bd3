/// Why a part of a run that reads stopped.
#[derive(Clone, Copy, Debug, PartialEq, Eq)]
pub enum Stop<R> {
    /// The input is refused.
    Refused(R),
    /// A source failed.
    ReadFault,
    /// Memory was refused.
    NoMemory,
}
