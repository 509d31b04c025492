/// A change of the session that a server tells (MS-TDS 2.2.7.9). A descriptor is the transaction's
/// number, 8 bytes; none is 0.
#[derive(Clone, Copy, Debug, PartialEq, Eq)]
pub enum EnvChange {
    /// Type 8: the transaction with this descriptor has begun.
    Begin(u64),
    /// Type 9: it is committed.
    Commit(u64),
    /// Type 10: it is rolled back.
    Rollback(u64),
    /// Type 18: the reset that a request asked for is done.
    ResetDone,
}
