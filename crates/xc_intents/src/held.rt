use xc_record::OpAt;

/// What is taken out of a held operation of a transaction.
#[derive(Clone, Drop)]
pub struct Held<'a> {
    /// The subtransaction of its intent, 1 to 64, or 0 where it belongs to none.
    pub sub: u8,
    /// The operation, where it was held.
    pub op: OpAt<'a>,
}
