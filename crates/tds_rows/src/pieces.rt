//! A value in parts (MS-TDS 2.2.5.2.3) as its bytes come, before its row has ended.

ghost use Rattle.std.specs.Prelude.{◌≡◌, ◌≤◌, ◌<◌, ◌+◌, ◌*◌, [], length, min, take, true, false};
ghost use Rattle.tds_rows.specs.Pieces.{PartsGoOn, InPart, after_byte, behind_count, is_in_part, is_in_prefix, is_null_value, left_after, own_bytes, parts_after, parts_at, parts_begun, value_is_over};

/// Where a value in parts is that comes in pieces: a plain value.
#[repr(C)]
#[derive(Clone, Copy)]
pub struct PartsReader {
    /// Bytes that are left of a part.
    pub left: u32,
    /// 0 in the length of eight bytes, all FF so far; 1 the same, where one is not; 2 in the parts; 3 over; any other
    /// number: over, and null.
    pub stage: u8,
    /// Bytes of the length that have come, or of a part's count: these are kept.
    pub seen: u8,
    pub first: u8,
    pub second: u8,
    pub third: u8,
}

/// What a piece has of a value: where its own bytes stand, how many there are, and how many bytes are done with.
#[derive(Clone, Copy, Debug, PartialEq, Eq)]
pub struct Piece {
    pub start: usize,
    pub length: usize,
    pub taken: usize,
}

impl PartsReader {
    /// Before a value's first byte.
    #[tactic(auto, unfolding(crate::specs::Pieces::parts_at))]
    pub fn new() -> PartsReader
        ensures { parts_at result ≡ parts_begun }
    {
        PartsReader {
            left: 0,
            stage: 0,
            seen: 0,
            first: 0,
            second: 0,
            third: 0,
        }
    }

    /// Whether the value is over.
    #[tactic(auto, unfolding(crate::specs::Pieces::parts_at))]
    pub fn is_over(&self) -> bool
        ensures { result ≡ value_is_over (parts_at self.now) }
    {
        self.stage > 2
    }

    /// Whether it is null. That is known behind its length.
    #[tactic(auto, unfolding(crate::specs::Pieces::parts_at))]
    pub fn is_null(&self) -> bool
        ensures { result ≡ is_null_value (parts_at self.now) }
    {
        self.stage > 3
    }

    /// Whether its length or a part's count comes next.
    #[inline(always)]
    #[tactic(auto, unfolding(crate::specs::Pieces::parts_at))]
    fn is_in_prefix(&self) -> bool
        ensures { result ≡ is_in_prefix (parts_at self.now) }
    {
        self.stage < 2 || self.stage == 2 && self.left == 0
    }

    /// Whether bytes of a part do.
    #[inline(always)]
    #[tactic(auto, unfolding(crate::specs::Pieces::parts_at))]
    fn is_in_part(&self) -> bool
        ensures is { result ≡ is_in_part (parts_at self.now) }
        ensures part { result ≡ true
            → (parts_at self.now ≡ InPart self.now.left) × (0 < self.now.left) }
    {
        self.stage == 2 && self.left > 0
    }

    /// A byte of the length.
    #[tactic(auto, unfolding(crate::specs::Pieces::parts_at))]
    fn take_length(&mut self, byte: u8)
        requires { self.old.stage < 2 }
        ensures { parts_at self.new ≡ after_byte (parts_at self.old) byte }
    {
        let ones = self.stage == 0 && byte == 255;
        if self.seen < 7 {
            self.seen += 1;
            self.stage = if ones { 0 } else { 1 };
        } else {
            self.seen = 0;
            self.left = 0;
            self.stage = if ones { 4 } else { 2 };
        }
    }

    /// The last byte of a count.
    #[tactic(auto, unfolding(crate::specs::Pieces::parts_at))]
    fn begin_part(&mut self, byte: u8)
        ensures { parts_at self.new ≡ behind_count (self.old.first + 256 * self.old.second
            + 65536 * self.old.third + 16777216 * byte) }
    {
        self.left = u32::from(self.first)
            + 256 * u32::from(self.second)
            + 65_536 * u32::from(self.third)
            + 16_777_216 * u32::from(byte);
        self.stage = if self.left == 0 { 3 } else { 2 };
        self.seen = 0;
    }

    /// A byte of a count.
    #[tactic(auto, unfolding(crate::specs::Pieces::parts_at))]
    fn take_count(&mut self, byte: u8)
        requires stage { self.old.stage ≡ 2 }
        requires left { self.old.left ≡ 0 }
        ensures { parts_at self.new ≡ after_byte (parts_at self.old) byte }
    {
        match self.seen {
            0 => {
                self.seen = 1;
                self.first = byte;
            }
            1 => {
                self.seen = 2;
                self.second = byte;
            }
            2 => {
                self.seen = 3;
                self.third = byte;
            }
            _ => self.begin_part(byte),
        }
    }

    /// A byte of the length or of a count.
    #[tactic(auto, unfolding(crate::specs::Pieces::parts_at))]
    fn take_prefix(&mut self, byte: u8)
        requires { is_in_prefix (parts_at self.old) ≡ true }
        ensures { parts_at self.new ≡ after_byte (parts_at self.old) byte }
    {
        if self.stage < 2 {
            self.take_length(byte);
        } else {
            self.take_count(byte);
        }
    }

    /// Passes what stands before a part: how many bytes.
    #[inline(always)]
    fn pass_prefix(&mut self, bytes: &[u8]) -> usize
        ensures to { parts_after (parts_at self.old) (take result bytes.now)
            ≡ parts_at self.new }
        ensures own { own_bytes (parts_at self.old) (take result bytes.now) ≡ [] }
        ensures within { result ≤ length bytes.now }
        ensures moves { result < length bytes.now → is_in_prefix (parts_at self.new) ≡ false }
    {
        let mut done = 0usize;
        'prefix: while done < bytes.len() {
            if !self.is_in_prefix() {
                break;
            }
            self.take_prefix(bytes[done]);
            done += 1;
        }
        done
    }

    /// Passes so many bytes of a part, at most what is left of it: how many.
    #[inline(always)]
    #[tactic(auto, unfolding(crate::specs::Pieces::parts_at))]
    fn pass_part(&mut self, count: usize) -> usize
        requires { is_in_part (parts_at self.old) ≡ true }
        ensures to { parts_at self.new ≡ left_after self.old.left result }
        ensures count { result ≡ min count self.old.left }
        ensures within { (result ≤ count) × (result ≤ self.old.left) }
        ensures moves { 0 < count → 0 < result }
    {
        let left = self.left as usize;
        let passed = if count < left { count } else { left };
        self.left -= passed as u32;
        if self.left == 0 {
            self.seen = 0;
        }
        passed
    }

    /// Takes what comes next of a value, up to the end of a part: its own bytes among them. Call it again with the bytes
    /// behind `taken` until none are left, or it is over.
    pub fn next(&mut self, bytes: &[u8]) -> Piece
        ensures { PartsGoOn self.old self.new bytes.now result }
    {
        let start = self.pass_prefix(bytes);
        if !self.is_in_part() {
            return Piece {
                start,
                length: 0,
                taken: start,
            };
        }
        let length = self.pass_part(bytes.len() - start);
        Piece {
            start,
            length,
            taken: start + length,
        }
    }
}
