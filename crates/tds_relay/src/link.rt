//! A connection to the server, as the relay knows it beside its service.
ghost use Rattle.std.specs.Prelude.{◌≡◌, ◌++◌, [], ℕ, List, None, Some, IfOk, OnOk, false, if◌then◌else◌};
ghost use Rattle.tds_relay.specs.Cutting.{IsAnew};
ghost use Rattle.tds_packet.specs.declared.kind.Direction.TheVariants.{ToClient};

use crate::NoMemory;
use crate::news::Known;
use crate::outgoing::Outgoing;
use std::alloc::Global;
use tds_packet::{Direction, Header, Kind, PacketReader, PacketSize, Status, put_sent};
use tds_wire::{Features, TokenParser};

/// The most columns of a result.
pub(crate) const COLUMNS: u16 = 4096;

/// How the news of a reset goes with a packet that is handed on.
#[derive(Clone, Copy, Debug)]
pub(crate) struct News {
    /// Whether the relay tells it, before the packet.
    pub(crate) is_told: bool,
    /// Whether what the server tells of it is cut out of the packet.
    pub(crate) is_cut: bool,
    /// Whether the server owed it before the packet.
    pub(crate) is_owed: bool,
}

#[derive(Drop)]
pub(crate) struct Link {
    pub(crate) number: u64,
    /// What whoever carries its bytes calls it, once there is something.
    pub(crate) tag: Option<usize>,
    /// Whether it is logged in.
    pub(crate) is_open: bool,
    pub(crate) out: Outgoing,
    pub(crate) reader: PacketReader,
    pub(crate) answer: Answer,
    ghost reads: { reader.direction ≡ ToClient },
    ghost unread: { is_open ≡ false → reader.taken ≡ [] },
}

/// The message that comes, as far as news are cut out of it.
#[derive(Drop)]
pub(crate) struct Answer {
    alloc: Global,
    size: PacketSize,
    parser: TokenParser,
    known: Known,
}

impl Link {
    ghost use Rattle.tds_relay.specs.Lent.{IsMade};
    ghost use Rattle.tds_relay.specs.Queues.{queue_in};

    pub(crate) fn new(
        alloc: Global,
        number: u64,
        size: PacketSize,
        features: Features,
    ) -> Result<Link, NoMemory>
        ensures closed { IfOk result (λ link. link.is_open ≡ false) }
        ensures number { IfOk result (λ link. link.number ≡ number) }
        ensures unread { IfOk result (λ link. link.reader.taken ≡ []) }
        ensures unnamed { IfOk result (λ link. link.tag ≡ None) }
        ensures nothing { IfOk result (λ link. (queue_in link.out).bytes ≡ []) }
        ensures made { IfOk result (IsMade size features) }
    {
        let answer = Answer {
            alloc,
            size,
            parser: TokenParser::new(alloc, COLUMNS, features)?,
            known: Known::None,
        };
        Ok(Link {
            number,
            tag: None,
            is_open: false,
            out: Outgoing::new(alloc, size),
            reader: PacketReader::new(alloc, size, Direction::ToClient)?,
            answer,
        })
    }
}

impl Answer {
    ghost use Rattle.tds_relay.specs.Cutting.{IsCutTo, IsCut, awaited, at_its_beginning, is_last_packet, known_behind};
    ghost use Rattle.tds_relay.specs.Cutting.{left_of, passed_on};
    ghost use Rattle.tds_service.specs.Packets.{behind_packet};
    ghost use Rattle.tds_wire.specs.Reading.{Parser};
    ghost use Rattle.tds_relay.specs.News.{held, holds_back, known_next};
    ghost use Rattle.tds_relay.specs.Queues.{queue_in, put_behind};

    /// Nothing has come of the message that comes next.
    pub(crate) fn restart(&mut self)
        ensures { self.new ≡ at_its_beginning self.old }
    {
        self.parser.restart();
        self.known = Known::None;
    }

    /// Whether bytes of a token were held back: what comes next isn't handed on without them.
    pub(crate) fn holds(&self) -> bool
        ensures { result ≡ holds_back self.now.known }
    {
        match self.known {
            Known::None | Known::Awaited | Known::Other => false,
            Known::One | Known::Two(_) | Known::Three(..) | Known::News => true,
        }
    }

    /// Appends a packet of an answer without the news of a reset, where the server owes that.
    pub(crate) fn put_without_news(
        &mut self,
        owed: bool,
        header: Header,
        bytes: &[u8],
        on: &mut Outgoing,
    ) -> Result<(), NoMemory>
        ensures cut { OnOk result ((sent : List ℕ)
            × IsCut (awaited owed self.old) header bytes.now sent
            × (queue_in on.new ≡ put_behind sent (queue_in on.old))) }
        ensures behind { OnOk result (IsCutTo (awaited owed self.old) (is_last_packet header)
            bytes.now self.new) }
    {
        self.known.awaits(owed);
        let ends = header.status.ends();
        let mut kept = Vec::new(self.alloc);
        self.cut(bytes, &mut kept)?;
        self.close(ends, &mut kept)?;
        let mut packets = Vec::new(self.alloc);
        put_data(&mut packets, self.size, header.packet_id, ends, &kept)?;
        on.append(&packets)
    }

    /// Appends what was held back, where the message ends here.
    fn close(&mut self, ends: bool, kept: &mut Vec<u8>) -> Result<(), NoMemory>
        ensures kept { OnOk result (kept.new.items
            ≡ (if ends then kept.old.items ++ held self.old.known else kept.old.items)) }
        ensures known { OnOk result (self.new.known
            ≡ (if ends then known_next self.old.known else self.old.known)) }
        ensures parser { OnOk result (self.new.parser ≡ behind_packet ends self.old.parser) }
        ensures size { self.new.size ≡ self.old.size }
    {
        if ends {
            self.known.end(kept)?;
            self.parser.restart();
        }
        Ok(())
    }

    /// Appends what goes on of these bytes of one token, which they end or not.
    fn pass(&mut self, bytes: &[u8], ends: bool, kept: &mut Vec<u8>) -> Result<(), NoMemory>
        ensures kept { OnOk result (kept.new.items
            ≡ kept.old.items ++ passed_on ends self.old.known bytes.now) }
        ensures known { OnOk result (self.new.known ≡ known_behind ends self.old.known bytes.now) }
        ensures parser { self.new.parser ≡ self.old.parser }
        ensures size { self.new.size ≡ self.old.size }
    {
        self.known.pass(bytes, kept)?;
        if ends {
            self.known.end(kept)?;
        }
        Ok(())
    }

    /// Appends what goes on of these bytes.
    fn cut(&mut self, bytes: &[u8], kept: &mut Vec<u8>) -> Result<(), NoMemory>
        ensures kept { OnOk result (kept.new.items
            ≡ kept.old.items ++ (left_of self.old.known self.old.parser bytes.now).bytes) }
        ensures known { OnOk result (self.new.known
            ≡ (left_of self.old.known self.old.parser bytes.now).known) }
        ensures stands { OnOk result ((next : Parser)
            → (left_of self.old.known self.old.parser bytes.now).stands ≡ Some next
            → self.new.parser ≡ next) }
        ensures size { self.new.size ≡ self.old.size }
    {
        let mut rest = bytes;
        'tokens: while !rest.is_empty() {
            let Ok(fed) = self.parser.feed(rest) else {
                // The service has refused this packet, so it isn't handed on at all.
                break;
            };
            let (token, others) = rest.split_at(fed.count);
            self.pass(token, fed.token.is_some(), kept)?;
            rest = others;
        }
        Ok(())
    }
}

/// Appends these data in packets, the last of which ends the message or not: none where there are no data
/// and it doesn't.
fn put_data(
    on: &mut Vec<u8>,
    size: PacketSize,
    packet_id: u8,
    ends: bool,
    data: &[u8],
) -> Result<(), NoMemory>
    ensures { OnOk result ((sent : List ℕ) × IsAnew size packet_id ends «data».now sent
        × (on.new.items ≡ on.old.items ++ sent)) }
{
    let room = usize::from(size.get()) - 8;
    let mut rest = data;
    'packets: while rest.len() > room {
        let (first, others) = rest.split_at(room);
        put_sent(on, Kind::Answer, Status::of_answer(false), packet_id, first)?;
        rest = others;
    }
    if rest.is_empty() && !ends {
        return Ok(());
    }
    put_sent(on, Kind::Answer, Status::of_answer(ends), packet_id, rest)
}
