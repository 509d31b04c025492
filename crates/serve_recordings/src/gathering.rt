//! The requests and answers of one connection, from the bytes that went both ways in their order.

use crate::packets::{Front, Packets};
use crate::recording::{Exchange, Recorded, Recording, body_of};
use serve_requests::MessageKind;
use std::alloc::{AllocError, Global};
use std::mem;
use tds_packet::{Head, Reset};

/// The type of LOGIN7's packets (MS-TDS 2.2.3.1.1).
const LOGIN: u8 = 0x10;

/// Where bytes went.
#[derive(Clone, Copy, Debug, PartialEq, Eq)]
pub(crate) enum Way {
    ToServer,
    ToClient,
}

/// What an answer is to.
#[derive(Debug, Drop)]
enum Asked {
    /// To nothing that is answered again: a PRELOGIN, an attention.
    Nothing,
    Login,
    Request {
        kind: MessageKind,
        reset: Option<Reset>,
        body: Vec<u8>,
    },
}

/// What is known of a connection so far. Its requests go to the recording that each call is lent.
#[derive(Drop)]
pub(crate) struct Gathering {
    alloc: Global,
    /// The place of its first request.
    first: usize,
    login: Option<Vec<u8>>,
    /// What comes each way.
    to_server: Packets,
    to_client: Packets,
    /// The first packet's type and status, and the data, of the message that goes to the server.
    message: Option<(u8, u8)>,
    data: Vec<u8>,
    asked: Asked,
    answer: Vec<u8>,
    ends: Vec<usize>,
    missing: usize,
    held: Option<usize>,
}

impl Gathering {
    /// A connection of which nothing is known, behind these requests.
    pub(crate) fn new(alloc: Global, recording: &Recording) -> Gathering {
        Gathering {
            alloc,
            first: recording.exchanges.len(),
            login: None,
            to_server: Packets::new(alloc),
            to_client: Packets::new(alloc),
            message: None,
            data: Vec::new(alloc),
            asked: Asked::Nothing,
            answer: Vec::new(alloc),
            ends: Vec::new(alloc),
            missing: 0,
            held: None,
        }
    }

    /// Takes bytes that went this way; false where they are no packets.
    pub(crate) fn take(
        &mut self,
        recording: &mut Recording,
        way: Way,
        piece: &[u8],
    ) -> Result<bool, AllocError> {
        let mut rest = piece;
        for _ in 0..piece.len() {
            if rest.is_empty() {
                break;
            }
            let (count, front) = match way {
                Way::ToServer => self.to_server.take(rest)?,
                Way::ToClient => self.to_client.take(rest)?,
            };
            match front {
                Front::Whole(head) => self.take_packet(recording, way, head)?,
                Front::Part => {}
                Front::Wrong => return Ok(false),
            }
            rest = &rest[count..];
        }
        Ok(true)
    }

    /// A packet of this way is whole.
    fn take_packet(
        &mut self,
        recording: &mut Recording,
        way: Way,
        head: Head,
    ) -> Result<(), AllocError> {
        match way {
            Way::ToServer => {
                let data = self.to_server.take_data();
                self.take_asked(recording, head, data.as_slice())
            }
            Way::ToClient => {
                let data = self.to_client.take_data();
                self.take_answer(recording, head, data.as_slice())
            }
        }
    }

    /// A packet went to the server.
    fn take_asked(
        &mut self,
        recording: &mut Recording,
        head: Head,
        data: &[u8],
    ) -> Result<(), AllocError> {
        if MessageKind::of(head.kind) == Some(MessageKind::Attention) {
            self.message = None;
            self.data.clear();
            if self.held.is_none() {
                self.held = Some(self.ends.len());
            }
            return Ok(());
        }
        let (kind, status) = self.message.unwrap_or((head.kind, head.status));
        self.message = Some((kind, status));
        self.data.extend_from_slice(data)?;
        if head.status & 0x01 == 0 {
            return Ok(());
        }
        self.message = None;
        let data = mem::replace(&mut self.data, Vec::new(self.alloc));
        // a message that is to be ignored is answered by nothing
        if head.status & 0x02 == 0 {
            self.end(recording, false)?;
            self.asked = self.asked_by(kind, status, data.as_slice())?;
        }
        Ok(())
    }

    /// What a message asks for.
    fn asked_by(&self, kind: u8, status: u8, data: &[u8]) -> Result<Asked, AllocError> {
        if kind == LOGIN {
            return Ok(Asked::Login);
        }
        let Some(kind) = MessageKind::of(kind) else {
            return Ok(Asked::Nothing);
        };
        let mut body = Vec::new(self.alloc);
        body.extend_from_slice(body_of(kind, data))?;
        Ok(Asked::Request {
            kind,
            reset: reset_of(status),
            body,
        })
    }

    /// A packet went to the client.
    fn take_answer(
        &mut self,
        recording: &mut Recording,
        head: Head,
        data: &[u8],
    ) -> Result<(), AllocError> {
        self.answer.extend_from_slice(data)?;
        self.ends.push(self.answer.len())?;
        if head.status & 0x01 == 0 {
            return Ok(());
        }
        self.end(recording, true)
    }

    /// The server closed the connection.
    pub(crate) fn close(&mut self, recording: &mut Recording) -> Result<(), AllocError> {
        // what came of a packet that isn't whole
        let mut part = mem::replace(&mut self.to_client, Packets::new(self.alloc));
        self.missing = part.missing();
        if self.missing > 0 {
            self.answer.extend_from_slice(part.take_data().as_slice())?;
            for _ in 0..self.missing {
                self.answer.push(0)?;
            }
            self.ends.push(self.answer.len())?;
        }
        self.end(recording, false)?;
        if recording.exchanges.len() > self.first {
            if let Some(last) = recording.exchanges.last_mut() {
                last.is_last = true;
            }
        }
        Ok(())
    }

    /// What was asked for is answered, as far as it is.
    fn end(&mut self, recording: &mut Recording, is_whole: bool) -> Result<(), AllocError> {
        let asked = mem::replace(&mut self.asked, Asked::Nothing);
        let answer = mem::replace(&mut self.answer, Vec::new(self.alloc));
        let ends = mem::replace(&mut self.ends, Vec::new(self.alloc));
        let held = self.held.take();
        let missing = self.missing;
        self.missing = 0;
        match asked {
            Asked::Nothing => Ok(()),
            Asked::Login => {
                if is_whole {
                    self.login = Some(answer);
                }
                Ok(())
            }
            Asked::Request { kind, reset, body } => {
                recording.exchanges.push(Exchange {
                    kind,
                    reset,
                    body,
                    answer,
                    ends,
                    missing,
                    held,
                    is_whole,
                    is_last: false,
                })?;
                Ok(())
            }
        }
    }

    /// The connection's recording ends.
    pub(crate) fn finish(mut self, recording: &mut Recording) -> Result<(), AllocError> {
        self.end(recording, false)?;
        recording.connections.push(Recorded {
            first: self.first,
            login: self.login,
        })?;
        Ok(())
    }
}

/// The reset that a request's first packet asks for (MS-TDS 2.2.3.1.2).
fn reset_of(status: u8) -> Option<Reset> {
    match status & 0x18 {
        0x08 => Some(Reset::Full),
        0x10 => Some(Reset::KeepTransaction),
        _ => None,
    }
}
