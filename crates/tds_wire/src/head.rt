//! The first bytes of a token, of which all is told.

ghost use Rattle.std.specs.Prelude.{◌≡◌, ◌≤◌, ◌==◌, ◌∷◌, [], length, take};
ghost use Rattle.tds_wire.specs.Lent.{head_of};
ghost use Rattle.tds_wire.specs.Reading.{kept};

/// The first of these bytes, as many as are kept of a token.
#[inline(always)]
pub(crate) fn first_of(bytes: &[u8]) -> &[u8]
    ensures { result.now ≡ take 24 bytes.now }
{
    if bytes.len() > 24 {
        &bytes[..24]
    } else {
        bytes
    }
}

/// The first bytes of a token: at most 24, those of an ENVCHANGE up to two values of eight bytes.
#[derive(Clone, Copy)]
pub struct Head {
    pub bytes: [u8; 24],
    /// How many were kept. Any number beyond 24 is as 24.
    pub count: u8,
}

impl Head {
    /// None was kept.
    #[tactic(auto, unfolding(crate::specs::Lent::head_of))]
    pub fn new() -> Head
        ensures { head_of result ≡ [] }
    {
        Head {
            bytes: [0; 24],
            count: 0,
        }
    }

    /// How many were kept.
    fn count(&self) -> u8
        ensures count { result ≡ length (head_of self.now) }
        ensures few { result ≤ 24 }
    {
        if self.count < 24 { self.count } else { 24 }
    }

    pub(crate) fn bytes(&self) -> &[u8]
        ensures { result.now ≡ head_of self.now }
    {
        let count = usize::from(self.count());
        &self.bytes[..count]
    }

    pub(crate) fn is_empty(&self) -> bool
        ensures { result ≡ (length (head_of self.now) == 0) }
    {
        self.count() == 0
    }

    #[tactic(auto, unfolding(crate::specs::Lent::head_of))]
    pub(crate) fn clear(&mut self)
        ensures { head_of self.new ≡ [] }
    {
        self.count = 0;
    }

    /// Keeps one more byte, unless 24 are kept.
    fn keep_byte(&mut self, byte: u8)
        ensures { head_of self.new ≡ kept (head_of self.old) (byte ∷ []) }
    {
        let count = self.count();
        if count < 24 {
            self.bytes[usize::from(count)] = byte;
            self.count = count + 1;
        }
    }

    /// Keeps more bytes, up to 24 in all.
    pub(crate) fn keep(&mut self, bytes: &[u8])
        ensures { head_of self.new ≡ kept (head_of self.old) bytes.now }
    {
        let mut place = 0;
        'bytes: while place < bytes.len() {
            if self.count() >= 24 {
                return;
            }
            self.keep_byte(bytes[place]);
            place += 1;
        }
    }
}
