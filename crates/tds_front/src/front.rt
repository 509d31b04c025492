//! An application's end, over bytes.
ghost use Rattle.std.specs.Prelude.{◌≡◌, ◌≤◌, ℕ, length, max, Ok, Err, IfOk};
ghost use Rattle.tds_front.specs.Bytes.{IsWithin, body_in, behind_length, body_count, data_taken, action_done, due_for, fed, fed_by};
ghost use Rattle.tds_front.specs.Bytes.{behind_data, ended_in, packet_gone_on, headed, kind_from, new_front, length_part_behind};
ghost use Rattle.tds_front.specs.Bytes.{packet_done, part_of, run_of, told_body, front_with_due, front_with_kind, with_length};
ghost use Rattle.tds_front.specs.Bytes.{with_rest, with_status};
ghost use Rattle.tds_front.specs.Rules as rules;

use crate::fault::FrontFault;
use crate::parts::{body_of, due_for, kind_from, part_behind, part_of, run_of, told};
use crate::stage::{Action, Head, Stage};
use tds_packet::{Direction, Kind, PacketSize, Reset, Status};

/// Which bytes of a packet are due (MS-TDS 2.2.3.1).
#[derive(Clone, Copy, Debug)]
pub enum Due {
    Type,
    Status(Kind),
    HighLength(Kind, Status),
    LowLength(Kind, Status, u8),
    /// The header's last bytes, of which so many are due: SPID, PacketID and Window.
    Rest(Head, u8),
    /// So many bytes of data.
    Data(u16),
}

/// What of a message its data are.
#[derive(Clone, Copy, Debug)]
pub enum Part {
    /// The four bytes of the length of ALL_HEADERS, the lowest one first (MS-TDS 2.2.5.3).
    Low,
    High(u8),
    Third(u16),
    Fourth(u16),
    /// So many bytes of the headers.
    Headers(u16),
    Body,
    /// Nobody wants them.
    Dropped,
}

/// What came of bytes.
#[derive(Clone, Copy, Debug)]
pub enum Said {
    /// Nothing that concerns anybody.
    Nothing,
    /// A request of this kind begins, which asks for this reset.
    Begin { kind: Kind, reset: Option<Reset> },
    /// The last of these bytes, so many, go on behind those of the body before.
    Body(usize),
    /// The same, and the request is whole with them.
    End(usize),
    /// What has come of the request is to be forgotten, and nobody answers it. Whether something of it
    /// has gone on.
    Forget { gone: bool },
    /// An attention: what waits of a request is to be forgotten, and the attention acknowledged here.
    Acknowledge,
    /// An attention that the server is to be handed.
    HandOn,
}

/// How many bytes were taken, and what came of them.
#[derive(Clone, Copy, Debug)]
pub struct Fed {
    pub count: usize,
    pub said: Said,
}

/// An application's end: it takes what the application sends behind its login.
///
/// It keeps no data and takes no memory.
#[derive(Clone, Copy, Debug)]
pub struct Front {
    /// The packet size.
    most: u16,
    stage: Stage,
    due: Due,
    part: Part,
}

type Brought = Result<Fed, FrontFault>;

/// These bytes were taken, and this came of them.
fn says(count: usize, said: Said) -> Brought
    ensures is { result ≡ Ok (record { count = count; said = said }) }
    ensures within { (body_in said ≤ count) → IsWithin count result }
{
    Ok(Fed { count, said })
}

impl Front {
    /// The end of an application that has said nothing yet, whose packets have at most this size.
    pub fn new(size: PacketSize) -> Front
        ensures { result ≡ new_front size }
    {
        Front {
            most: size.get(),
            stage: Stage::Quiet,
            due: Due::Type,
            part: Part::Body,
        }
    }

    /// What the application is at.
    pub fn stage(&self) -> Stage
        ensures { result ≡ self.now.stage }
    {
        self.stage
    }

    /// Something of its request has gone on to the server.
    pub fn went_on(&mut self)
        ensures { self.new ≡ record self.old { stage = rules.request_went_on self.old.stage } }
    {
        self.stage = self.stage.went_on();
    }

    /// Its request has been answered.
    pub fn answered(&mut self)
        ensures { self.new ≡ record self.old { stage = rules.answered self.old.stage } }
    {
        self.stage = self.stage.answered();
    }

    /// Its attention, which was handed on, has been acknowledged.
    pub fn acknowledged(&mut self)
        ensures { self.new ≡ record self.old { stage = rules.acknowledged self.old.stage } }
    {
        self.stage = self.stage.acknowledged();
    }

    /// Takes bytes: a byte of a packet's header or of its headers' length, or a run of data. Call it
    /// with the bytes behind `count` until there are none.
    ///
    /// # Errors
    ///
    /// What breaks the protocol, as soon as its byte has come, and again at each later call.
    #[tactic(auto, unfolding(crate::specs::Bytes::fed))]
    pub fn feed(&mut self, piece: &[u8]) -> Result<Fed, FrontFault>
        ensures front { self.new ≡ (fed self.old piece.now).front }
        ensures brings { result ≡ (fed self.old piece.now).brings }
        ensures within { IfOk result (λ fed. fed.count ≤ length piece.now) }
        ensures body { IfOk result (λ fed. body_in fed.said ≤ fed.count) }
    {
        let Some(byte) = piece.first() else {
            return says(0, Said::Nothing);
        };
        match self.stage {
            Stage::Quiet => self.take(*byte, piece.len()),
            Stage::Receiving { .. } => self.take(*byte, piece.len()),
            Stage::Underway { .. } => self.take(*byte, piece.len()),
            Stage::Stopping => self.take(*byte, piece.len()),
            Stage::Broken(fault) => Err(fault),
        }
    }

    /// Takes the first of so many bytes, or a run of them.
    fn take(&mut self, byte: u8, there: usize) -> Brought
        ensures front { self.new ≡ (fed_by self.old.due self.old byte there).front }
        ensures brings { result ≡ (fed_by self.old.due self.old byte there).brings }
        ensures within { 1 ≤ there → IsWithin there result }
    {
        match self.due {
            Due::Type => self.take_kind(kind_from(byte)),
            Due::Status(kind) => self.take_status(kind, byte),
            Due::HighLength(kind, status) => {
                self.due = Due::LowLength(kind, status, byte);
                says(1, Said::Nothing)
            }
            Due::LowLength(kind, status, high) => {
                self.take_length(kind, status, 256 * u16::from(high) + u16::from(byte))
            }
            Due::Rest(head, left) => self.take_rest(head, left),
            Due::Data(left) => self.take_data(left, byte, there),
        }
    }

    /// It has broken the protocol so.
    fn fails(&mut self, fault: FrontFault) -> Brought
        ensures front { self.new ≡ record self.old { stage = Stage.Broken fault } }
        ensures brings { result ≡ Err fault }
        ensures within { (n : ℕ) → IsWithin n result }
    {
        self.stage = Stage::Broken(fault);
        Err(fault)
    }

    /// The type of a packet has come.
    fn take_kind(&mut self, kind: Option<Kind>) -> Brought
        ensures front { self.new ≡ (front_with_kind self.old kind).front }
        ensures brings { result ≡ (front_with_kind self.old kind).brings }
        ensures within { IsWithin 1 result }
    {
        match kind {
            None => self.fails(FrontFault::UnknownType),
            Some(kind) => {
                self.due = Due::Status(kind);
                says(1, Said::Nothing)
            }
        }
    }

    /// Its status.
    fn take_status(&mut self, kind: Kind, byte: u8) -> Brought
        ensures front { self.new ≡ (with_status self.old kind byte).front }
        ensures brings { result ≡ (with_status self.old kind byte).brings }
        ensures within { IsWithin 1 result }
    {
        match Status::read(byte, Direction::ToServer) {
            None => self.fails(FrontFault::WrongStatus),
            Some(status) => {
                self.due = Due::HighLength(kind, status);
                says(1, Said::Nothing)
            }
        }
    }

    /// Its length.
    fn take_length(&mut self, kind: Kind, status: Status, count: u16) -> Brought
        ensures front { self.new ≡ (with_length self.old kind status count).front }
        ensures brings { result ≡ (with_length self.old kind status count).brings }
        ensures within { IsWithin 1 result }
    {
        if count < 8 || count > self.most {
            return self.fails(FrontFault::WrongLength);
        }
        if count == 8 && !status.ends() {
            return self.fails(FrontFault::EmptyPart);
        }
        let head = Head {
            kind,
            status,
            count: count - 8,
        };
        self.due = Due::Rest(head, 4);
        says(1, Said::Nothing)
    }

    /// A byte of the header that nobody looks at. With the last one the packet is judged.
    fn take_rest(&mut self, head: Head, left: u8) -> Brought
        ensures front { self.new ≡ (with_rest self.old head left).front }
        ensures brings { result ≡ (with_rest self.old head left).brings }
        ensures within { IsWithin 1 result }
    {
        if left > 1 {
            self.due = Due::Rest(head, left - 1);
            return says(1, Said::Nothing);
        }
        let next = self.stage.taken(head);
        self.do_action(next.stage, head.count, next.does)
    }

    /// Does with a packet what its header says.
    fn do_action(&mut self, stage: Stage, count: u16, does: Result<Action, FrontFault>) -> Brought
        ensures front { self.new ≡ (action_done self.old stage count does).front }
        ensures brings { result ≡ (action_done self.old stage count does).brings }
        ensures within { IsWithin 1 result }
    {
        match does {
            Err(fault) => self.fails(fault),
            Ok(Action::Begin { kind, reset }) => {
                self.begin_data(stage, count, part_of(kind));
                says(1, Said::Begin { kind, reset })
            }
            Ok(Action::Go) => {
                self.begin_data(stage, count, self.part);
                self.go_on(count)
            }
            Ok(Action::Forget { gone }) => {
                self.begin_data(stage, count, Part::Dropped);
                says(1, Said::Forget { gone })
            }
            Ok(Action::Acknowledge) => {
                self.begin_data(stage, count, Part::Dropped);
                says(1, Said::Acknowledge)
            }
            Ok(Action::HandOn) => {
                self.begin_data(stage, count, Part::Dropped);
                says(1, Said::HandOn)
            }
        }
    }

    /// So many bytes of data are due.
    fn begin_data(&mut self, stage: Stage, count: u16, part: Part)
        ensures { self.new ≡ headed self.old stage count part }
    {
        self.stage = stage;
        self.due = due_for(count);
        self.part = part;
    }

    /// A packet that goes on with a message: without data it ends it.
    fn go_on(&mut self, count: u16) -> Brought
        ensures front { self.new ≡ (packet_gone_on self.old count).front }
        ensures brings { result ≡ (packet_gone_on self.old count).brings }
        ensures within { IsWithin 1 result }
    {
        if count == 0 {
            self.end_packet(1, 0)
        } else {
            says(1, Said::Nothing)
        }
    }

    /// Takes a run of data.
    fn take_data(&mut self, left: u16, byte: u8, there: usize) -> Brought
        ensures front { self.new ≡ (data_taken self.old left byte there).front }
        ensures brings { result ≡ (data_taken self.old left byte there).brings }
        ensures within { 1 ≤ there → IsWithin there result }
    {
        let within = there.min(usize::from(left)) as u16;
        let run = run_of(self.part, within);
        let body = body_of(self.part, run);
        match part_behind(self.part, byte, run) {
            None => self.fails(FrontFault::WrongHeaders),
            Some(part) => {
                self.part = part;
                self.pass(left, run, body)
            }
        }
    }

    /// So many of the bytes that are due were taken.
    fn pass(&mut self, left: u16, run: u16, body: u16) -> Brought
        ensures front { self.new ≡ (behind_data self.old left run body).front }
        ensures brings { result ≡ (behind_data self.old left run body).brings }
        ensures within { body ≤ run → IsWithin run result }
    {
        if left == run {
            self.due = Due::Type;
            return self.end_packet(run, body);
        }
        self.due = Due::Data(left.saturating_sub(run));
        says(usize::from(run), told(body))
    }

    /// A packet is done with.
    fn end_packet(&mut self, count: u16, body: u16) -> Brought
        ensures front { self.new ≡ (packet_done self.old self.old.stage count body).front }
        ensures brings { result ≡ (packet_done self.old self.old.stage count body).brings }
        ensures within { body ≤ count → IsWithin count result }
    {
        match self.stage {
            Stage::Quiet => says(usize::from(count), told(body)),
            Stage::Receiving { .. } => says(usize::from(count), told(body)),
            Stage::Underway { .. } => self.end_request(count, body),
            Stage::Stopping => says(usize::from(count), told(body)),
            Stage::Broken(_) => says(usize::from(count), told(body)),
        }
    }

    /// A request is done with.
    fn end_request(&mut self, count: u16, body: u16) -> Brought
        ensures front { self.new ≡ (ended_in self.old count body self.old.part).front }
        ensures brings { result ≡ (ended_in self.old count body self.old.part).brings }
        ensures within { body ≤ count → IsWithin count result }
    {
        match self.part {
            Part::Low => self.fails(FrontFault::WrongHeaders),
            Part::High(_) => self.fails(FrontFault::WrongHeaders),
            Part::Third(_) => self.fails(FrontFault::WrongHeaders),
            Part::Fourth(_) => self.fails(FrontFault::WrongHeaders),
            Part::Headers(_) => self.fails(FrontFault::WrongHeaders),
            Part::Body => says(usize::from(count), Said::End(usize::from(body))),
            Part::Dropped => says(usize::from(count), Said::Nothing),
        }
    }
}
