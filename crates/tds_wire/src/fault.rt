//! What is wrong with an answer's bytes.
ghost use Rattle.std.specs.Prelude.{◌≡◌};
ghost use Rattle.tds_wire.specs.Faults.{fault_number};

/// What is wrong with an answer's bytes.
#[derive(Clone, Copy, Debug, PartialEq, Eq)]
pub enum WireFault {
    /// 1: the token byte is none of an answer of TDS 7.2 to 7.4. So are ALTMETADATA, ALTROW and OFFSET,
    /// which no server of today sends.
    UnknownToken,
    /// 2: a row where no columns are known.
    NoColumns,
    /// 3: the type of a column or a parameter is none of TDS 7.2 to 7.4. So are a table as a value, which
    /// no server sends, and the types of later versions.
    UnknownType,
    /// 4: more columns than there is room for.
    ManyColumns,
}

/// A fault with its place.
#[derive(Clone, Copy, Debug, PartialEq, Eq)]
pub struct Refusal {
    pub fault: WireFault,
    /// The byte at which it was found.
    pub byte: u8,
    /// Its place, counted from the message's first byte.
    pub at: u64,
}

impl WireFault {
    /// The fault's number, 1 to 4.
    pub fn number(self) -> u8
        ensures { result ≡ fault_number self }
    {
        match self {
            WireFault::UnknownToken => 1,
            WireFault::NoColumns => 2,
            WireFault::UnknownType => 3,
            WireFault::ManyColumns => 4,
        }
    }
}
