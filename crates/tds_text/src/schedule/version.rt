ghost use Rattle.std.specs.Prelude.{◌≡◌};
ghost use Rattle.tds_text.specs.Versions.{keys_of, may_begin_anew, may_clean, version_numbered};

/// A version of schedule files.
#[derive(Clone, Copy, Debug, PartialEq, Eq)]
pub(crate) enum Version {
    One,
    /// A commit or rollback may begin the next transaction at once.
    Two,
    /// The object says what an attention does to the transaction.
    Three,
    /// A free connection may be cleaned.
    Four,
}

impl Version {
    /// The version with this number.
    pub(crate) fn new(number: u64) -> Option<Version>
        ensures { result ≡ version_numbered number }
    {
        match number {
            1 => Some(Version::One),
            2 => Some(Version::Two),
            3 => Some(Version::Three),
            4 => Some(Version::Four),
            _ => None,
        }
    }

    /// How many keys its object has.
    pub(crate) fn keys(self) -> usize
        ensures { result ≡ keys_of self }
    {
        match self {
            Version::One | Version::Two => 4,
            Version::Three | Version::Four => 5,
        }
    }

    /// Whether a commit or rollback may begin the next transaction at once.
    pub(crate) fn begins_anew(self) -> bool
        ensures { result ≡ may_begin_anew self }
    {
        match self {
            Version::One => false,
            Version::Two | Version::Three | Version::Four => true,
        }
    }

    /// Whether a free connection may be cleaned.
    pub(crate) fn cleans(self) -> bool
        ensures { result ≡ may_clean self }
    {
        match self {
            Version::One | Version::Two | Version::Three => false,
            Version::Four => true,
        }
    }
}
