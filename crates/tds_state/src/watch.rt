//! A watch over both directions of a connection's wire, from the login's answer on.

ghost use Rattle.std.specs.Prelude.{◌≡◌, ◌≤◌, ◌&&◌, ◌||◌, not, get_or, IfOk, length, true};
ghost use Rattle.tds_state.specs.Pasts.{HasPast};
ghost use Rattle.tds_state.specs.Reasons.{is_no_reason, reason_watched};
ghost use Rattle.tds_state.specs.Sessions.{session_rests};
ghost use Rattle.tds_state.specs.Watching.{watch_lost, watch_settled};

use crate::NoMemory;
use crate::answers::Answers;
use crate::kept::{behind, first_of};
use crate::packets::{ANSWER, ATTENTION, WholePacket, prefix_of, request_of, whole_packet};
use crate::prefix::Prefix;
use crate::reasons::Reason;
use crate::session::is_quiet;
use crate::tracker::Tracker;
use std::alloc::Global;
use tds_packet::{Direction, Head, HeaderReader, Passed, Status};
use tds_wire::Features;

/// What drives a tracker by the bytes that go out and come in on a connection, in any cutting. What can't be
/// read, it is lost by: from then on it reads nothing, and the connection never rests.
#[derive(Drop)]
pub struct Watch {
    tracker: Tracker,
    answers: Answers,
    /// Where the client's packets are, and the server's, with the status of the newest one.
    out: HeaderReader,
    back: HeaderReader,
    status: u8,
    /// Where in the data of a request they are, its type, and whether packets of it are to come.
    prefix: Prefix,
    kind: u8,
    is_within: bool,
    is_lost: bool,
}

impl Watch {
    /// A watch over a connection whose login is answered next, by which `features` are acknowledged. It takes
    /// memory here alone, about 28 KB.
    ///
    /// # Errors
    ///
    /// Where a growth was refused.
    #[tactic(auto, using(crate::proofs::Saying::said_nothing))]
    pub fn new(alloc: Global, features: Features) -> Result<Watch, NoMemory>
        ensures said { IfOk result (λ watch. HasPast watch.tracker.session) }
    {
        Ok(Watch {
            tracker: Tracker::new(alloc)?,
            answers: Answers::new(alloc, features)?,
            out: HeaderReader::new(),
            back: HeaderReader::new(),
            status: 0,
            prefix: Prefix::Body,
            kind: 0,
            is_within: false,
            is_lost: false,
        })
    }

    /// The login is answered by a message with these data.
    pub fn let_in(&mut self, answer: &[u8])
        ensures lost { self.old.is_lost ≡ true → self.new ≡ self.old }
        ensures said { HasPast self.old.tracker.session → HasPast self.new.tracker.session }
    {
        if !self.is_lost {
            self.hear(answer);
            self.end();
        }
    }

    /// Whether the session rests, by all that was said.
    pub fn rests(&self) -> bool
        ensures { result ≡ (not self.now.is_lost && session_rests self.now.tracker.session) }
    {
        !self.is_lost && self.tracker.rests()
    }

    /// Whether something couldn't be read or kept: it never rests any more.
    pub fn is_lost(&self) -> bool
        ensures { result ≡ watch_lost self.now }
    {
        self.is_lost || self.tracker.session.is_lost
    }

    /// Whether all that went out and came is whole: no answer is due, and none has begun to come.
    pub fn is_settled(&self) -> bool
        ensures { result ≡ watch_settled self.now }
    {
        is_quiet(self.tracker.session.flight)
            && (!self.is_within && (self.back.is_between() && self.answers.is_between()))
    }

    /// The descriptor of the transaction that is open, or 0.
    pub fn transaction(&self) -> u64
        ensures { result ≡ self.now.tracker.session.transaction }
    {
        self.tracker.session.transaction
    }

    /// The prepared handle that has the first place, or 0.
    pub fn handle(&self) -> u32
        ensures { result ≡ get_or self.now.tracker.session.handles.places 0 0 }
    {
        self.tracker.session.handles.places[0]
    }

    /// Why it doesn't rest; None where it does.
    pub fn why(&self) -> Option<Reason>
        ensures reason { result ≡ reason_watched self.now.is_lost self.now.tracker.session }
        ensures rests { (not self.now.is_lost && session_rests self.now.tracker.session)
            ≡ is_no_reason result }
    {
        if self.is_lost {
            Some(Reason::Unread)
        } else {
            self.tracker.why()
        }
    }

    /// Where something can't be read, nothing is read any more.
    fn lose_if(&mut self, is_wrong: bool)
        ensures { self.new ≡ record self.old { is_lost = self.old.is_lost || is_wrong } }
    {
        self.is_lost = self.is_lost || is_wrong;
    }

    // ---- What goes out

    /// These bytes have gone out.
    pub fn sent(&mut self, bytes: &[u8])
        ensures lost { self.old.is_lost ≡ true → self.new ≡ self.old }
        ensures said { HasPast self.old.tracker.session → HasPast self.new.tracker.session }
    {
        if self.is_lost {
            return;
        }
        let mut rest = bytes;
        'pieces: for _ in 0..bytes.len() {
            if rest.is_empty() || self.is_lost {
                return;
            }
            let count = self.send_some(rest);
            rest = behind(rest, count);
        }
    }

    /// The first ones of these have: how many. Most packets stand whole.
    fn send_some(&mut self, piece: &[u8]) -> usize
        ensures within { result ≤ length piece.now }
        ensures said { HasPast self.old.tracker.session → HasPast self.new.tracker.session }
    {
        if self.out.is_between() {
            if let Some(packet) = whole_packet(piece) {
                self.send_packet(packet);
                return usize::from(packet.head.length);
            }
        }
        self.send_part(piece)
    }

    /// A packet of the client's, whole.
    fn send_packet(&mut self, packet: WholePacket<'_>)
        ensures said { HasPast self.old.tracker.session → HasPast self.new.tracker.session }
    {
        self.send_head(packet.head);
        if !self.is_lost {
            self.send_data(packet.data);
        }
    }

    /// The rest of a header or of a packet's data, as far as it has gone out: how many bytes.
    fn send_part(&mut self, piece: &[u8]) -> usize
        ensures within { result ≤ length piece.now }
        ensures said { HasPast self.old.tracker.session → HasPast self.new.tracker.session }
    {
        let (count, passed) = self.out.take(piece);
        match passed {
            Passed::Part => {}
            Passed::Begins(head) => self.send_head(head),
            Passed::Data { .. } => self.send_data(first_of(count, piece)),
            Passed::Wrong => self.lose_if(true),
        }
        count
    }

    /// A packet of the client's begins.
    fn send_head(&mut self, head: Head)
        ensures said { HasPast self.old.tracker.session → HasPast self.new.tracker.session }
    {
        match Status::read(head.status, Direction::ToServer) {
            Some(status) if head.kind == ATTENTION => {
                self.cancel(status.ends_alone() && head.length == 8);
            }
            Some(status) => {
                self.ask(head.kind, status);
                self.go_on(head.kind, status);
            }
            None => self.lose_if(true),
        }
    }

    /// An attention has gone out, as one is written, or as none is.
    #[tactic(auto, using(crate::proofs::Saying::said_cancelled))]
    fn cancel(&mut self, is_lawful: bool)
        ensures said { HasPast self.old.tracker.session → HasPast self.new.tracker.session }
    {
        self.lose_if(self.is_within || !is_lawful);
        self.tracker.cancel();
    }

    /// Where no request goes on, one of this type begins with a packet of this status.
    #[tactic(auto, using(crate::proofs::Saying::said_asked))]
    fn ask(&mut self, kind: u8, status: Status)
        ensures said { HasPast self.old.tracker.session → HasPast self.new.tracker.session }
    {
        if self.is_within {
            return;
        }
        self.kind = kind;
        self.prefix = prefix_of(kind);
        match request_of(kind) {
            Some(request) => self.tracker.ask(request, status.reset()),
            None => self.lose_if(true),
        }
        self.lose_if(status.asks_for_both_resets());
    }

    /// A packet of a request that goes on has this type and this status.
    #[tactic(auto, using(crate::proofs::Saying::said_cancelled))]
    fn go_on(&mut self, kind: u8, status: Status)
        ensures said { HasPast self.old.tracker.session → HasPast self.new.tracker.session }
    {
        self.is_within = !status.ends();
        self.lose_if(kind != self.kind);
        if status.is_ignored() {
            self.tracker.cancel();
        }
    }

    /// Data of a request have gone out.
    #[tactic(auto, using(crate::proofs::Saying::said_sent))]
    fn send_data(&mut self, data: &[u8])
        ensures said { HasPast self.old.tracker.session → HasPast self.new.tracker.session }
    {
        let mut prefix = self.prefix;
        let body = prefix.pass(data);
        self.prefix = prefix;
        self.lose_if(prefix == Prefix::Wrong);
        self.tracker.send(body);
    }

    // ---- What comes

    /// These bytes have come.
    pub fn came(&mut self, bytes: &[u8])
        ensures lost { self.old.is_lost ≡ true → self.new ≡ self.old }
        ensures said { HasPast self.old.tracker.session → HasPast self.new.tracker.session }
    {
        if self.is_lost {
            return;
        }
        let mut rest = bytes;
        'pieces: for _ in 0..bytes.len() {
            if rest.is_empty() || self.is_lost {
                return;
            }
            let count = self.hear_some(rest);
            rest = behind(rest, count);
        }
    }

    /// The first ones of these have: how many. Most packets stand whole.
    fn hear_some(&mut self, piece: &[u8]) -> usize
        ensures within { result ≤ length piece.now }
        ensures said { HasPast self.old.tracker.session → HasPast self.new.tracker.session }
    {
        if self.back.is_between() {
            if let Some(packet) = whole_packet(piece) {
                self.hear_packet(packet);
                return usize::from(packet.head.length);
            }
        }
        self.hear_part(piece)
    }

    /// A packet of the server's, whole.
    fn hear_packet(&mut self, packet: WholePacket<'_>)
        ensures said { HasPast self.old.tracker.session → HasPast self.new.tracker.session }
    {
        self.hear_head(packet.head);
        if !self.is_lost {
            self.hear_data(packet.data, true);
        }
    }

    /// The rest of a header or of a packet's data, as far as it has come: how many bytes.
    fn hear_part(&mut self, piece: &[u8]) -> usize
        ensures within { result ≤ length piece.now }
        ensures said { HasPast self.old.tracker.session → HasPast self.new.tracker.session }
    {
        let (count, passed) = self.back.take(piece);
        match passed {
            Passed::Part => {}
            Passed::Begins(head) => self.hear_head(head),
            Passed::Data { ends } => self.hear_data(first_of(count, piece), ends),
            Passed::Wrong => self.lose_if(true),
        }
        count
    }

    /// A packet of the server's begins.
    fn hear_head(&mut self, head: Head)
        ensures said { HasPast self.old.tracker.session → HasPast self.new.tracker.session }
    {
        self.status = head.status;
        let status = Status::read(head.status, Direction::ToClient);
        self.lose_if(head.kind != ANSWER || status.is_none());
        if head.length == 8 {
            self.end_packet();
        }
    }

    /// Data of a packet have come, with which it ends or doesn't.
    fn hear_data(&mut self, data: &[u8], ends: bool)
        ensures said { HasPast self.old.tracker.session → HasPast self.new.tracker.session }
    {
        self.hear(data);
        if ends {
            self.end_packet();
        }
    }

    /// A packet of the server's ends, and its message with it or not.
    fn end_packet(&mut self)
        ensures said { HasPast self.old.tracker.session → HasPast self.new.tracker.session }
    {
        if self.status == 1 {
            self.end();
        }
    }

    /// A message of the server's has ended.
    #[tactic(auto, using(crate::proofs::Saying::said_ended))]
    fn end(&mut self)
        ensures said { HasPast self.old.tracker.session → HasPast self.new.tracker.session }
    {
        let is_whole = self.answers.is_between();
        self.lose_if(!is_whole);
        self.answers.restart();
        self.tracker.end();
    }

    /// Data of a message have come.
    #[tactic(auto, using(crate::proofs::Saying::said_heard))]
    fn hear(&mut self, data: &[u8])
        ensures said { HasPast self.old.tracker.session → HasPast self.new.tracker.session }
    {
        let mut rest = data;
        let mut token = None;
        'tokens: for _ in 0..data.len() {
            if rest.is_empty() {
                return;
            }
            let passed = self.answers.pass(rest);
            if passed > 0 {
                rest = behind(rest, passed);
                continue;
            }
            let Some(count) = self.answers.next(rest, &mut token) else {
                self.lose_if(true);
                return;
            };
            self.tracker.hear(first_of(count, rest), &token);
            rest = behind(rest, count);
        }
    }
}
