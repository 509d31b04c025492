//! How a value is spelled, by the type of its column (MS-TDS 2.2.5.4).
ghost use Rattle.std.specs.Prelude.{◌≡◌};
ghost use Rattle.tds_wire.specs.Walking.{has_no_bytes};

/// How the values of a column are spelled in a row.
#[derive(Clone, Copy)]
pub enum Shape {
    /// So many bytes, at most 8.
    Fixed(u8),
    /// A count in one byte, and so many bytes.
    Byte,
    /// A count in two bytes, and so many bytes; none behind the count `FFFF`.
    Short,
    /// A count in four bytes, and so many bytes; none behind the count `FFFFFFFF`.
    Long,
    /// A text pointer behind its count in one byte, a timestamp of eight bytes, and the value behind its
    /// count in four; nothing behind a count of 0.
    Pointer,
    /// A length of eight bytes, of which all ones say null, and parts behind their counts in four bytes, up
    /// to an empty one (PLP, MS-TDS 2.2.5.2.3).
    Parts,
}

impl Shape {
    /// Whether its values have no bytes at all.
    pub fn has_no_bytes(self) -> bool
        ensures { result ≡ has_no_bytes self }
    {
        match self {
            Shape::Fixed(count) => count == 0,
            Shape::Byte => false,
            Shape::Short => false,
            Shape::Long => false,
            Shape::Pointer => false,
            Shape::Parts => false,
        }
    }
}
