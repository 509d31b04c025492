//! What an application is at, and what is to be done with each of its packets, by its header.
ghost use Rattle.std.specs.Prelude.{◌≡◌};
ghost use Rattle.tds_packet.specs.Layout.{bits_of};
ghost use Rattle.tds_front.specs.Rules.{acknowledged, answered, attended, takes_attention, begins, stage_behind_packet};
ghost use Rattle.tds_front.specs.Rules.{breaks_end, forgets, goes_on, moves_to, of_request, refuses, stops};
ghost use Rattle.tds_front.specs.Rules.{taken, request_went_on};

use crate::fault::FrontFault;
use tds_packet::{Kind, Reset, Status};

/// What a receiver looks at of a packet's header (MS-TDS 2.2.3.1).
#[derive(Clone, Copy, Debug)]
pub struct Head {
    pub kind: Kind,
    pub status: Status,
    /// How many bytes of data stand behind it.
    pub count: u16,
}

/// What an application is at.
#[derive(Clone, Copy, Debug)]
pub enum Stage {
    /// Nothing of it is underway.
    Quiet,
    /// A request of this kind has begun, and its end is to come. Whether something of it has gone on
    /// to the server.
    Receiving { kind: Kind, gone: bool },
    /// A request is whole, and its answer is awaited. Whether something of it has gone on.
    Underway { gone: bool },
    /// Its attention was handed on, and the acknowledgement is awaited.
    Stopping,
    /// It has broken the protocol.
    Broken(FrontFault),
}

/// What is to be done with a packet.
#[derive(Clone, Copy, Debug)]
pub enum Action {
    /// Its data begin a request of this kind, which asks for this reset.
    Begin { kind: Kind, reset: Option<Reset> },
    /// Its data go on behind those before.
    Go,
    /// Its message is to be forgotten, and is answered by nobody. Whether something of it has gone on.
    Forget { gone: bool },
    /// It is an attention, and nothing of a request is at the server: what waits of one is to be
    /// forgotten, and the attention acknowledged here.
    Acknowledge,
    /// It is an attention that the server is to be handed, and acknowledges.
    HandOn,
}

/// What it is at then, and what is to be done.
#[derive(Clone, Copy, Debug)]
pub struct Move {
    pub stage: Stage,
    pub does: Result<Action, FrontFault>,
}

fn moves(stage: Stage, action: Action) -> Move
    ensures { result ≡ moves_to stage action }
{
    Move {
        stage,
        does: Ok(action),
    }
}

/// It has broken the protocol so.
fn breaks(fault: FrontFault) -> Move
    ensures { result ≡ breaks_end fault }
{
    Move {
        stage: Stage::Broken(fault),
        does: Err(fault),
    }
}

/// Behind a packet of a request, which ends its message or not.
fn behind(kind: Kind, gone: bool, status: Status) -> Stage
    ensures { result ≡ stage_behind_packet kind gone (bits_of status) }
{
    if status.ends() {
        Stage::Underway { gone }
    } else {
        Stage::Receiving { kind, gone }
    }
}

/// A message that is to be ignored ends there.
fn forgets(gone: bool, status: Status) -> Move
    ensures { result ≡ forgets gone (bits_of status) }
{
    if status.ends() {
        moves(Stage::Quiet, Action::Forget { gone })
    } else {
        breaks(FrontFault::IgnoredPart)
    }
}

/// The first packet of a message.
fn begins(head: Head) -> Move
    ensures { result ≡ begins head }
{
    if head.status.asks_for_both_resets() {
        return breaks(FrontFault::BothResets);
    }
    if head.status.is_ignored() {
        return forgets(false, head.status);
    }
    if head.count == 0 {
        return breaks(FrontFault::EmptyPart);
    }
    let begin = Action::Begin {
        kind: head.kind,
        reset: head.status.reset(),
    };
    moves(behind(head.kind, false, head.status), begin)
}

/// A packet of a message that has begun.
fn goes_on(kind: Kind, gone: bool, head: Head) -> Move
    ensures { result ≡ goes_on kind gone head }
{
    if kind.byte() != head.kind.byte() {
        return breaks(FrontFault::TypeChanged);
    }
    if head.status.is_ignored() {
        return forgets(gone, head.status);
    }
    moves(behind(kind, gone, head.status), Action::Go)
}

/// An attention while something is underway.
fn stops(gone: bool) -> Move
    ensures { result ≡ stops gone }
{
    if gone {
        moves(Stage::Stopping, Action::HandOn)
    } else {
        moves(Stage::Quiet, Action::Acknowledge)
    }
}

impl Stage {
    /// What a packet with this header is.
    pub fn taken(self, head: Head) -> Move
        ensures { result ≡ taken self head }
    {
        match head.kind {
            Kind::Batch => self.of_request(head),
            Kind::Procedure => self.of_request(head),
            Kind::BulkLoad => self.of_request(head),
            Kind::Transaction => self.of_request(head),
            Kind::Attention => self.attended(head),
            Kind::Answer => self.refuses(FrontFault::UnknownType),
        }
    }

    /// A fault, where it has none yet.
    fn refuses(self, fault: FrontFault) -> Move
        ensures { result ≡ refuses self fault }
    {
        match self {
            Stage::Quiet => breaks(fault),
            Stage::Receiving { .. } => breaks(fault),
            Stage::Underway { .. } => breaks(fault),
            Stage::Stopping => breaks(fault),
            Stage::Broken(first) => breaks(first),
        }
    }

    /// A packet of a request.
    fn of_request(self, head: Head) -> Move
        ensures { result ≡ of_request self head }
    {
        match self {
            Stage::Quiet => begins(head),
            Stage::Receiving { kind, gone } => goes_on(kind, gone, head),
            Stage::Underway { .. } => breaks(FrontFault::RequestWhileAnswering),
            Stage::Stopping => breaks(FrontFault::RequestWhileAnswering),
            Stage::Broken(fault) => breaks(fault),
        }
    }

    /// A packet of the attention's type.
    fn attended(self, head: Head) -> Move
        ensures { result ≡ attended self head }
    {
        if head.status.ends_alone() && head.count == 0 {
            self.attention()
        } else {
            self.refuses(FrontFault::WrongAttention)
        }
    }

    /// An attention.
    fn attention(self) -> Move
        ensures { result ≡ takes_attention self }
    {
        match self {
            Stage::Quiet => moves(Stage::Quiet, Action::Acknowledge),
            Stage::Receiving { gone, .. } => stops(gone),
            Stage::Underway { gone } => stops(gone),
            Stage::Stopping => breaks(FrontFault::SecondAttention),
            Stage::Broken(fault) => breaks(fault),
        }
    }

    /// Something of its request has gone on to the server.
    pub fn went_on(self) -> Stage
        ensures { result ≡ request_went_on self }
    {
        match self {
            Stage::Quiet => Stage::Quiet,
            Stage::Receiving { kind, .. } => Stage::Receiving { kind, gone: true },
            Stage::Underway { .. } => Stage::Underway { gone: true },
            Stage::Stopping => Stage::Stopping,
            Stage::Broken(fault) => Stage::Broken(fault),
        }
    }

    /// Its request has been answered.
    pub fn answered(self) -> Stage
        ensures { result ≡ answered self }
    {
        match self {
            Stage::Quiet => Stage::Quiet,
            Stage::Receiving { kind, gone } => Stage::Receiving { kind, gone },
            Stage::Underway { .. } => Stage::Quiet,
            Stage::Stopping => Stage::Stopping,
            Stage::Broken(fault) => Stage::Broken(fault),
        }
    }

    /// The attention that was handed on has been acknowledged.
    pub fn acknowledged(self) -> Stage
        ensures { result ≡ acknowledged self }
    {
        match self {
            Stage::Quiet => Stage::Quiet,
            Stage::Receiving { kind, gone } => Stage::Receiving { kind, gone },
            Stage::Underway { gone } => Stage::Underway { gone },
            Stage::Stopping => Stage::Quiet,
            Stage::Broken(fault) => Stage::Broken(fault),
        }
    }
}
