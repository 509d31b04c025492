ghost use Rattle.std.specs.Prelude.{◌+◌, ◌≡◌, ◌<◌, ◌≤◌, ◌++◌, ◌∷◌, [], ◌↔◌, ℕ, length, take, IfOk, IfSome, IsSome, IsNone, MatchBool, MatchResult, Some, None, Ok, Err};
ghost use Rattle.tds_packet.specs.Layout.{IsPacket};
ghost use Rattle.tds_packet.specs.declared.fault.PacketFault.{PacketFault};
ghost use Rattle.tds_packet.specs.Reading.{IsWhole, with_taken, end_of, fault_of, up_to_end};

use crate::NoMemory;
use crate::fault::PacketFault;
use crate::header::Header;
use crate::kind::Direction;
use crate::size::PacketSize;
use std::alloc::Global;
use std::marker::Model;

/// A whole packet, lent by its reader until `done`.
#[derive(Clone, Copy, Debug)]
pub struct PacketRef<'a> {
    pub header: Header,
    /// What stands behind the header (MS-TDS 2.2.3.2).
    pub data: &'a [u8],
}

/// How far the packet has come.
#[derive(Debug, Drop)]
enum State {
    /// Inside the header.
    Start,
    /// Behind this header.
    Body(Header),
    /// The header has this fault.
    Refused(PacketFault),
}

/// Reads packets that come in pieces of any size.
///
/// `feed` takes bytes up to the end of one packet, `packet` lends it, and `done` goes on to the next. A header with a
/// fault ends the reading: each later `feed` answers that fault. It takes memory once, in `new`, for one packet.
#[derive(Debug, Drop)]
pub struct PacketReader {
    size: PacketSize,
    direction: Direction,
    state: State,
    /// Where the packet ends, as far as its bytes tell: behind the header, until that is read.
    end: u16,
    /// The header and the data that have come.
    bytes: Vec<u8>,
}

impl Model for PacketReader {
    ghost use Rattle.tds_packet.specs.Reading.{Reading};

    ghost Value = { Reading };

    ghost use Rattle.tds_packet.specs.Reader.{reading_of, IsReader};

    ghost view = { reading_of };

    ghost invariant = { IsReader };
}

impl PacketReader {
    /// A reader for packets of this size that go in this direction.
    pub fn new(
        alloc: Global,
        size: PacketSize,
        direction: Direction,
    ) -> Result<PacketReader, NoMemory>
        ensures { IfOk result (λ reader. reader
            ≡ record { direction = direction; size = size; taken = [] }) }
    {
        let bytes = Vec::with_capacity(alloc, usize::from(size.get()))?;
        Ok(PacketReader {
            size,
            direction,
            state: State::Start,
            end: 8,
            bytes,
        })
    }

    /// How many bytes are missing of the header, and once that is read, of the packet.
    fn missing(&self) -> usize
        ensures { length self.now.taken + result ≡ end_of self.now self.now.taken }
    {
        usize::from(self.end) - self.bytes.len()
    }

    /// The fault of the header, if it has one.
    fn fault(&self) -> Option<PacketFault>
        ensures value { result ≡ fault_of self.now self.now.taken }
        ensures whole { IsNone result → length self.now.taken ≡ end_of self.now self.now.taken
            → IsWhole self.now }
    {
        match &self.state {
            State::Refused(fault) => Some(fault.again()),
            State::Start => None,
            State::Body(_) => None,
        }
    }

    /// Takes bytes that end neither the header nor the packet.
    fn take_inside(&mut self, run: &[u8])
        requires { length self.old.taken + length run.now < end_of self.old self.old.taken }
        ensures { self.new ≡ with_taken self.old (self.old.taken ++ run.now) }
    {
        // `new` reserved room for the longest packet, so neither fails. A single byte is stored here;
        // more are copied by a call.
        if let [byte] = run {
            self.bytes.push_reserved(*byte);
        } else {
            let _ = self.bytes.extend_from_slice(run);
        }
    }

    /// Takes the next bytes of the header, or of the data.
    fn take_run(&mut self, run: &[u8])
        requires { length self.old.taken + length run.now ≤ end_of self.old self.old.taken }
        ensures { self.new ≡ with_taken self.old (self.old.taken ++ run.now) }
    {
        // `new` reserved room for the longest packet, so this does not fail.
        let _ = self.bytes.extend_from_slice(run);
        match &self.state {
            State::Start => {
                if let Some(bytes) = self.bytes.first_chunk() {
                    match Header::read(bytes, self.size, self.direction) {
                        Ok(header) => {
                            self.end = header.length;
                            self.state = State::Body(header);
                        }
                        Err(fault) => self.state = State::Refused(fault),
                    }
                }
            }
            State::Body(_) => {}
            State::Refused(_) => {}
        }
    }

    /// Takes bytes up to the end of one packet, and answers how many it took.
    ///
    /// It takes none while a whole packet waits for `done`. A fault is answered as soon as the header's eighth byte has
    /// come, and to each call from then on. No memory is taken.
    pub fn feed(&mut self, piece: &[u8]) -> Result<usize, PacketFault>
        // All that was offered is taken, up to the end of one packet, also where a fault is answered.
        ensures taken { self.new ≡ with_taken self.old
            (up_to_end self.old (self.old.taken ++ piece.now)) }
        ensures count { IfOk result (λ n. self.new.taken ≡ self.old.taken ++ take n piece.now) }
        ensures within { IfOk result (λ n. n ≤ length piece.now) }
        ensures all { IfOk result (λ n. n < length piece.now → IsWhole self.new) }
        ensures fault { MatchResult result (λ _. fault_of self.new self.new.taken ≡ None)
            (λ fault. fault_of self.new self.new.taken ≡ Some fault) }
        // A reader that refused stays as it is, and so does one in which a whole packet waits.
        ensures refused { (fault : PacketFault) → fault_of self.old self.old.taken ≡ Some fault
            → (result ≡ Err fault) × (self.new ≡ self.old) }
        ensures waiting { IsWhole self.old → (result ≡ Ok 0) × (self.new ≡ self.old) }
    {
        if piece.len() < self.missing() {
            self.take_inside(piece);
            return Ok(piece.len());
        }
        self.feed_to_end(piece)
    }

    /// The same where the piece may end the header, or the packet. It stands apart so that a call
    /// of `feed` for a few bytes stays short.
    #[inline(never)]
    fn feed_to_end(&mut self, piece: &[u8]) -> Result<usize, PacketFault>
        ensures taken { self.new ≡ with_taken self.old
            (up_to_end self.old (self.old.taken ++ piece.now)) }
        ensures count { IfOk result (λ n. self.new.taken ≡ self.old.taken ++ take n piece.now) }
        ensures within { IfOk result (λ n. n ≤ length piece.now) }
        ensures all { IfOk result (λ n. n < length piece.now → IsWhole self.new) }
        ensures fault { MatchResult result (λ _. fault_of self.new self.new.taken ≡ None)
            (λ fault. fault_of self.new self.new.taken ≡ Some fault) }
    {
        let head = self.missing().min(piece.len());
        self.take_run(&piece[..head]);
        let rest = &piece[head..];
        let body = self.missing().min(rest.len());
        self.take_run(&rest[..body]);
        match self.fault() {
            Some(fault) => Err(fault),
            None => Ok(head + body),
        }
    }

    /// The packet that has come, once it is whole.
    pub fn packet(&self) -> Option<PacketRef<'_>>
        ensures whole { IsSome result ↔ IsWhole self.now }
        ensures lent { IfSome result
            (λ packet. IsPacket self.now.direction self.now.size self.now.taken packet.header
            packet.«data».now) }
    {
        if self.missing() > 0 {
            return None;
        }
        match &self.state {
            State::Start => None,
            State::Body(header) => Some(PacketRef {
                header: *header,
                data: &self.bytes[8..],
            }),
            State::Refused(_) => None,
        }
    }

    /// Goes on to the next packet. Without a whole packet it changes nothing.
    pub fn done(&mut self)
        ensures next { IsWhole self.old → self.new ≡ with_taken self.old [] }
        ensures same { ¬ IsWhole self.old → self.new ≡ self.old }
    {
        if self.packet().is_some() {
            self.state = State::Start;
            self.end = 8;
            self.bytes.clear();
        }
    }
}
