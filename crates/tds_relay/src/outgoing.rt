//! What is to be sent to an application, or on a connection.
ghost use Rattle.std.specs.Prelude.{◌≡◌, ◌+◌, ◌-◌, ◌*◌, ◌/◌, ◌<◌, ◌≤◌, ◌++◌, [], false, drop, length, vec_len};
ghost use Rattle.std.specs.Prelude.{OnErr, OnOk, if◌then◌else◌};
ghost use Rattle.tds_packet.specs.Layout.{header_bytes};
ghost use Rattle.tds_relay.specs.declared.outgoing.TheConstants.{ACKNOWLEDGED, ATTENTION, PIECE};

use crate::NoMemory;
use std::alloc::Global;
use tds_packet::{Header, PacketSize, put_packet};

/// The most bytes of an application or of a connection that are read at once. So many may wait at the other
/// end, with a packet that they complete.
pub(crate) const PIECE: usize = 32_768;

/// At most so many bytes more than were read go out: ALL_HEADERS (22 bytes), the headers of packets that are
/// set anew (8 of each, of 66 at most), and behind a request an end of it that is ignored, an attention (8
/// each) and a cleaning (122).
pub(crate) const BESIDE: usize = 704;

/// The length of an attention, and of an acknowledgement by the relay (MS-TDS 2.2.1.7, 2.2.7.6).
const ATTENTION: usize = 8;

const ACKNOWLEDGED: usize = 21;

/// The news of a reset that is done, in a packet of its own (MS-TDS 2.2.7.9, type 18).
const NEWS: [u8; 14] = [4, 0, 0, 14, 0, 0, 1, 0, 0xe3, 3, 0, 18, 0, 0];

/// Bytes, of which the first ones were sent. Where none wait it keeps no memory.
#[derive(Drop)]
pub(crate) struct Outgoing {
    alloc: Global,
    bytes: Vec<u8>,
    sent: usize,
    /// The packet size of the end that they go to.
    size: u16,
    /// Whether something didn't fit: then nothing more is appended.
    is_full: bool,
    ghost within: { sent ≤ vec_len bytes },
    ghost waiting: { vec_len bytes - sent ≤ size + PIECE },
    ghost moved: { sent < PIECE },
    ghost longest: { size ≤ 32767 },
}

impl Outgoing {
    ghost use Rattle.tds_relay.specs.Told.{news_length, waiting_in};
    ghost use Rattle.tds_relay.specs.Queues.{fits, empty_queue, queue_in, put_behind, put_news, without_first};

    pub(crate) fn new(alloc: Global, size: PacketSize) -> Outgoing
        ensures nothing { (result.bytes.items ≡ []) × (result.sent ≡ 0) }
        ensures size { result.size ≡ size }
        ensures open { result.is_full ≡ false }
        ensures queue { queue_in result ≡ empty_queue size }
    {
        Outgoing {
            alloc,
            bytes: Vec::new(alloc),
            sent: 0,
            size: size.get(),
            is_full: false,
        }
    }

    /// What is still to be sent.
    pub(crate) fn unsent(&self) -> &[u8]
        ensures is { result.now ≡ drop self.now.sent self.now.bytes.items }
        ensures bounded { length result.now ≤ self.now.size + PIECE }
        ensures longest { length result.now ≤ 32767 + PIECE }
    {
        match self.bytes.as_slice().get(self.sent..) {
            Some(rest) => rest,
            None => &[],
        }
    }

    /// How many bytes that are.
    pub(crate) fn count(&self) -> usize
        ensures { result ≡ waiting_in self.now }
    {
        self.bytes.len().saturating_sub(self.sent)
    }

    /// Whether something didn't fit.
    pub(crate) fn is_full(&self) -> bool
        ensures { result ≡ self.now.is_full }
    {
        self.is_full
    }

    /// How many bytes may be read that go here, so that they fit with a packet that they complete.
    pub(crate) fn piece(&self) -> usize
        ensures { result ≡ PIECE - waiting_in self.now }
    {
        PIECE.saturating_sub(self.count())
    }

    /// How many bytes of attentions may be read, so that their acknowledgements fit here.
    pub(crate) fn attentions(&self) -> usize
        ensures { result ≡ ATTENTION
            * (((self.now.size + PIECE) - waiting_in self.now) / ACKNOWLEDGED) }
    {
        let acknowledgements = self.room() / ACKNOWLEDGED;
        ATTENTION * acknowledgements
    }

    /// Whether these bytes fit.
    pub(crate) fn has_room(&self, bytes: &[u8]) -> bool
        ensures { result ≡ fits (queue_in self.now) bytes.now }
    {
        !self.is_full && bytes.len() <= self.room()
    }

    /// Appends bytes that are to be sent, all of them or none.
    #[tactic(auto, unfolding(crate::specs::Queues::put_behind))]
    pub(crate) fn append(&mut self, bytes: &[u8]) -> Result<(), NoMemory>
        ensures ok { OnOk result (self.new.bytes.items ≡ (if self.new.is_full
            then self.old.bytes.items else self.old.bytes.items ++ bytes.now)) }
        ensures err { OnErr result (self.new.bytes.items ≡ self.old.bytes.items) }
        ensures fits { self.old.is_full ≡ false
            → waiting_in self.old + length bytes.now ≤ self.old.size + PIECE
            → self.new.is_full ≡ false }
        ensures size { self.new.size ≡ self.old.size }
        ensures more { OnOk result (self.new.is_full ≡ false
            → waiting_in self.new ≡ waiting_in self.old + length bytes.now) }
        ensures queue { OnOk result (queue_in self.new ≡ put_behind bytes.now (queue_in self.old)) }
        ensures kept { OnErr result (queue_in self.new ≡ queue_in self.old) }
    {
        if self.is_full || bytes.len() > self.room() {
            self.is_full = true;
            return Ok(());
        }
        self.bytes.extend_from_slice(bytes)
    }

    /// Appends a packet, all of it or nothing.
    #[tactic(auto, unfolding(crate::specs::Queues::put_behind))]
    pub(crate) fn put_packet(&mut self, header: Header, content: &[u8]) -> Result<(), NoMemory>
        requires { header.length ≡ 8 + length content.now }
        ensures ok { OnOk result (self.new.bytes.items ≡ (if self.new.is_full
            then self.old.bytes.items
            else self.old.bytes.items ++ (header_bytes header ++ content.now))) }
        ensures err { OnErr result (self.new.bytes.items ≡ self.old.bytes.items) }
        ensures fits { self.old.is_full ≡ false
            → waiting_in self.old + header.length ≤ self.old.size + PIECE
            → self.new.is_full ≡ false }
        ensures size { self.new.size ≡ self.old.size }
        ensures queue { OnOk result (queue_in self.new
            ≡ put_behind (header_bytes header ++ content.now) (queue_in self.old)) }
    {
        if self.is_full || usize::from(header.length) > self.room() {
            self.is_full = true;
            return Ok(());
        }
        put_packet(&mut self.bytes, header, content)
    }

    /// Appends the news of a reset that is done, where this is told.
    pub(crate) fn put_news(&mut self, is_told: bool) -> Result<(), NoMemory>
        ensures fits { self.old.is_full ≡ false
            → waiting_in self.old + news_length is_told ≤ self.old.size + PIECE
            → self.new.is_full ≡ false }
        ensures size { self.new.size ≡ self.old.size }
        ensures more { OnOk result (self.new.is_full ≡ false
            → waiting_in self.new ≡ waiting_in self.old + news_length is_told) }
        ensures queue { OnOk result (queue_in self.new ≡ put_news is_told (queue_in self.old)) }
    {
        if is_told { self.append(&NEWS) } else { Ok(()) }
    }

    /// How many bytes may wait at most.
    pub(crate) fn most(&self) -> usize
        ensures { result ≡ self.now.size + PIECE }
    {
        usize::from(self.size) + PIECE
    }

    /// How many more bytes may wait.
    fn room(&self) -> usize
        ensures { result ≡ (self.now.size + PIECE) - waiting_in self.now }
    {
        self.most().saturating_sub(self.count())
    }

    /// So many more of them were sent.
    pub(crate) fn sent(&mut self, count: usize)
        ensures size { self.new.size ≡ self.old.size }
        ensures full { self.new.is_full ≡ self.old.is_full }
        ensures fewer { waiting_in self.new ≡ waiting_in self.old - count }
        ensures queue { queue_in self.new ≡ without_first count (queue_in self.old) }
    {
        let sent = self.sent.saturating_add(count).min(self.bytes.len());
        if sent == self.bytes.len() {
            // An idle application, or connection, is one of very many.
            self.bytes = Vec::new(self.alloc);
            self.sent = 0;
        } else if sent >= PIECE {
            let left = self.bytes.len() - sent;
            self.bytes.copy_within(sent.., 0);
            self.bytes.truncate(left);
            self.sent = 0;
        } else {
            self.sent = sent;
        }
    }
}
