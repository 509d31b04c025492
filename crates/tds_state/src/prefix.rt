//! ALL_HEADERS at the beginning of a request's data (MS-TDS 2.2.5.3), in any cutting: it is left out.

/// Where in a request's data the next byte stands.
#[derive(Clone, Copy, Debug, PartialEq, Eq)]
pub(crate) enum Prefix {
    /// In the four bytes of its length, of which so many have come: they spell this, the last one highest.
    Length { came: u8, value: u32 },
    /// In ALL_HEADERS, of which so many bytes are to come, at least one.
    Headers { left: u32 },
    /// In the body.
    Body,
    /// Its length is less than its own four bytes.
    Wrong,
}

impl Prefix {
    /// Before the first byte of a request that has it.
    pub(crate) const fn new() -> Prefix {
        Prefix::Length { came: 0, value: 0 }
    }

    /// Behind a byte of its length.
    fn behind(came: u8, value: u32, byte: u8) -> Prefix {
        let value = value / 256 + u32::from(byte) * 16_777_216;
        if came < 3 {
            Prefix::Length {
                came: came + 1,
                value,
            }
        } else {
            Prefix::of(value)
        }
    }

    /// Behind the length, which is this.
    fn of(length: u32) -> Prefix {
        match length {
            0..=3 => Prefix::Wrong,
            4 => Prefix::Body,
            _ => Prefix::Headers { left: length - 4 },
        }
    }

    /// Takes data of a request, and gives what of them is the body.
    pub(crate) fn pass<'a>(&mut self, data: &'a [u8]) -> &'a [u8] {
        let (Prefix::Length { came: 0, .. }, [a, b, c, d, behind @ ..]) = (*self, data) else {
            return self.pass_part(data);
        };
        let length = u32::from_le_bytes([*a, *b, *c, *d]);
        if length >= 4 && length as usize <= data.len() {
            *self = Prefix::Body;
            return &data[length as usize..];
        }
        *self = Prefix::of(length);
        self.pass_part(behind)
    }

    /// The same wherever they begin.
    fn pass_part<'a>(&mut self, data: &'a [u8]) -> &'a [u8] {
        let mut rest = data;
        // Four bytes of the length, and then a run.
        for _ in 0..5 {
            match *self {
                Prefix::Body | Prefix::Wrong => return rest,
                Prefix::Headers { left } => {
                    let count = rest.len().min(left as usize);
                    rest = &rest[count..];
                    *self = Prefix::left(left, count);
                }
                Prefix::Length { came, value } => {
                    let [byte, others @ ..] = rest else {
                        return rest;
                    };
                    *self = Prefix::behind(came, value, *byte);
                    rest = others;
                }
            }
        }
        rest
    }

    /// In ALL_HEADERS behind so many bytes of those that were to come.
    fn left(left: u32, count: usize) -> Prefix {
        let more = (left as usize).saturating_sub(count);
        match u32::try_from(more) {
            Ok(0) => Prefix::Body,
            Ok(more) => Prefix::Headers { left: more },
            Err(_) => Prefix::Wrong,
        }
    }
}
