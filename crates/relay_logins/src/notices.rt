//! Whether an application's request asks for a query notification (MS-TDS 2.2.5.3.1): its ALL_HEADERS has a
//! header of type 1. The relay writes ALL_HEADERS anew, so such a request is refused.

/// The types of messages that begin with ALL_HEADERS (MS-TDS 2.2.3.1.1): a batch, RPC, a transaction request.
const BATCH: u8 = 1;

const RPC: u8 = 3;

const TRANSACTION: u8 = 14;

/// The type of the header (MS-TDS 2.2.5.3).
const NOTIFICATION: u32 = 1;

/// Where in its bytes an application is.
#[derive(Clone, Copy)]
pub struct Notices {
    /// How many bytes of a packet's header have come, 8 in its data; its type, and whether it ends its message.
    place: u8,
    kind: u8,
    is_last: bool,
    /// How many bytes of its data are to come.
    left: u32,
    /// Whether the message is one with headers, and how many of its bytes have come.
    has_headers: bool,
    at: u32,
    /// How many bytes ALL_HEADERS has, and where in it the header begins that is being read.
    total: u32,
    from: u32,
    /// The bytes of a number, the last ones that came in the highest place.
    number: u32,
    length: u32,
}

impl Notices {
    /// Nothing has come.
    pub fn new() -> Notices {
        Notices {
            place: 0,
            kind: 0,
            is_last: true,
            left: 0,
            has_headers: false,
            at: 0,
            total: 0,
            from: 4,
            number: 0,
            length: 0,
        }
    }

    /// Takes bytes of an application. Whether a notification is asked for in them.
    pub fn take(&mut self, piece: &[u8]) -> bool {
        if self.place == 0 && self.is_last && is_plain(piece) {
            return false;
        }
        let mut rest = piece;
        for _ in 0..piece.len() {
            if self.place == 8 && !self.has_headers {
                rest = self.pass(rest);
            }
            let Some((byte, others)) = rest.split_first() else {
                return false;
            };
            if self.take_byte(*byte) {
                return true;
            }
            rest = others;
        }
        false
    }

    /// Takes bytes of an application. Whether its message ends with them.
    pub fn has_whole(&mut self, piece: &[u8]) -> bool {
        for byte in piece {
            let _ = self.take_byte(*byte);
        }
        self.place == 0 && self.is_last
    }

    /// Passes data that are no headers.
    fn pass<'a>(&mut self, bytes: &'a [u8]) -> &'a [u8] {
        let count = bytes.len().min(self.left as usize);
        let (passed, others) = bytes.split_at(count);
        self.left = self.left.saturating_sub((passed.len() % 65_536) as u32);
        if self.left == 0 {
            self.place = 0;
        }
        others
    }

    fn take_byte(&mut self, byte: u8) -> bool {
        if self.place == 8 {
            return self.take_data(byte);
        }
        match self.place {
            0 => {
                self.kind = byte;
                if self.is_last {
                    self.begin();
                }
            }
            1 => self.is_last = byte & 1 != 0,
            2 => self.left = u32::from(byte) * 256,
            3 => self.left = self.left.saturating_add(u32::from(byte)).saturating_sub(8),
            _ => {}
        }
        self.place = self.place.saturating_add(1);
        if self.place == 8 && self.left == 0 {
            self.place = 0;
        }
        false
    }

    /// A message begins.
    fn begin(&mut self) {
        self.has_headers = matches!(self.kind, BATCH | RPC | TRANSACTION);
        self.at = 0;
        self.total = 0;
        self.from = 4;
    }

    /// A byte of ALL_HEADERS: its count, then of each header its count, its type, and its data.
    fn take_data(&mut self, byte: u8) -> bool {
        self.number = self.number / 256 + u32::from(byte) * 16_777_216;
        self.at = self.at.saturating_add(1);
        let of_header = self.at.saturating_sub(self.from);
        let mut is_one = false;
        if self.at == 4 {
            self.total = self.number;
        } else if self.at > 4 && of_header == 4 {
            self.length = self.number;
        } else if self.at > 4 && of_header == 6 {
            is_one = self.number / 65_536 == NOTIFICATION;
        }
        if self.at > 4 && of_header >= 6 && of_header >= self.length {
            self.from = self.at;
        }
        if self.at >= 4 && self.at >= self.total {
            self.has_headers = false;
        }
        self.left = self.left.saturating_sub(1);
        if self.left == 0 {
            self.place = 0;
        }
        is_one
    }
}

/// Whether these bytes are one packet that is its message's only one, and whose ALL_HEADERS has the header of
/// the transaction alone (MS-TDS 2.2.5.3.2), as most requests have: nothing is known then that wasn't before.
fn is_plain(piece: &[u8]) -> bool {
    let [_, status, high, low, _, _, _, _, data @ ..] = piece else {
        return false;
    };
    let length = usize::from(*high) * 256 + usize::from(*low);
    // Of 22 bytes the header has 18, its type is 2.
    let is_alone = matches!(data, [22, 0, 0, 0, 18, 0, 0, 0, 2, 0, ..]);
    is_alone && status & 1 != 0 && piece.len() == length
}
