//! What a login agreed on that changes how tokens are spelled.

/// What the FEATUREEXTACK of a login acknowledged (MS-TDS 2.2.7.11).
#[derive(Clone, Copy, Debug, PartialEq, Eq)]
pub struct Features {
    /// Column encryption (feature 4): a COLMETADATA has a table of keys, and encrypted columns and
    /// parameters have crypto metadata.
    pub encryption: bool,
    /// Data classification (feature 9) of version 2: a DATACLASSIFICATION has ranks.
    pub ranks: bool,
}
