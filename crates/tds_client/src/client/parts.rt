//! A client as a plain value, for a caller that can hold no value of this crate.

ghost use Rattle.std.specs.Prelude.{◌≡◌, SomeIff};
ghost use Rattle.tds_client.specs.Parts.{AreParts, left_of, parts_of, session_from};

use super::{Client, Outgoing, Stage};
use crate::fault::ClientFault;
use crate::heard::Heard;
use tds_packet::{Kind, PacketSize};
use tds_token::Columns;

/// Where a request is, but for the bytes of it that are still to go out.
#[derive(Debug, Drop)]
pub enum StageParts {
    Idle,
    /// So many of its packets, of this type, are out.
    Sending { kind: Kind, packets: usize },
    Reading,
    Cancelling,
    Broken(ClientFault),
}

/// A client, but for the bytes of its request that are still to go out.
#[derive(Debug, Drop)]
pub struct ClientParts {
    pub size: PacketSize,
    pub stage: StageParts,
    pub heard: Heard,
    /// What is known inside the message that comes.
    pub columns: Columns,
}

impl Client {
    /// The client taken apart. `left` has the bytes that are still to go out.
    pub fn parts(&self) -> ClientParts
        ensures value { result ≡ parts_of self.now }
        // So they can be put together again.
        ensures whole { AreParts result.stage (left_of self.now.stage) }
    {
        ClientParts {
            size: self.size,
            stage: match &self.stage {
                Stage::Idle => StageParts::Idle,
                Stage::Sending(outgoing) => StageParts::Sending {
                    kind: outgoing.kind,
                    packets: outgoing.packets,
                },
                Stage::Reading => StageParts::Reading,
                Stage::Cancelling => StageParts::Cancelling,
                Stage::Broken(fault) => StageParts::Broken(fault.again()),
            },
            heard: self.heard,
            columns: self.columns,
        }
    }

    /// The bytes of the request that are still to go out, lent: none unless it is being sent.
    pub fn left(&self) -> &[u8]
        ensures { result.now ≡ left_of self.now.stage }
    {
        match &self.stage {
            Stage::Sending(outgoing) => &self.message[outgoing.sent..],
            Stage::Idle => &[],
            Stage::Reading => &[],
            Stage::Cancelling => &[],
            Stage::Broken(_) => &[],
        }
    }

    /// The client of these parts, with these bytes still to go out. None where no client has them:
    /// where the packets that are out and the bytes that are left are 2^63 and more.
    pub fn of_parts(parts: ClientParts, left: Vec<u8>) -> Option<Client>
        ensures { SomeIff result (AreParts parts.stage left.items)
            (session_from parts left.items) }
    {
        let stage = match parts.stage {
            StageParts::Idle => Stage::Idle,
            StageParts::Sending { kind, packets } => {
                if packets > MOST - left.len() {
                    return None;
                }
                Stage::Sending(Outgoing {
                    kind,
                    sent: 0,
                    packets,
                })
            }
            StageParts::Reading => Stage::Reading,
            StageParts::Cancelling => Stage::Cancelling,
            StageParts::Broken(fault) => Stage::Broken(fault),
        };
        Some(Client {
            size: parts.size,
            stage,
            heard: parts.heard,
            columns: parts.columns,
            message: left,
        })
    }
}

/// No vector is longer, and each packet has a byte of its message at least.
pub(super) const MOST: usize = 0x7FFF_FFFF_FFFF_FFFF;
