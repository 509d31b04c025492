//! The packets that a server sends.
ghost use Rattle.std.specs.Prelude.{◌≡◌, ◌<◌, ◌≤◌, ◌+◌, ◌++◌, length, OnOk, OnErr, IfOk, IfSome};
ghost use Rattle.std.specs.List.{All, flat_map};
ghost use Rattle.tds_server.specs.Packets.{answer_packet, acknowledgement, FitsOnePacket};
ghost use Rattle.tds_session.specs.Attention.{rollback_of};
ghost use Rattle.tds_token.specs.Layout.{Fits, spelling};

use crate::NoMemory;
use std::alloc::Global;
use tds_packet::{Kind, Status, put_sent};
use tds_token::done_status::ATTENTION;
use tds_token::{EnvChange, Token, put_token};

/// The bytes of these tokens, one behind another.
fn spell(alloc: Global, tokens: &[Token]) -> Result<Vec<u8>, NoMemory>
    requires { All Fits tokens.now }
    ensures { IfOk result (λ bytes. bytes.items ≡ flat_map spelling tokens.now) }
{
    let mut bytes = Vec::new(alloc);
    'tokens: for token in tokens {
        put_token(&mut bytes, token)?;
    }
    Ok(bytes)
}

/// Appends a packet of an answer. At want of memory nothing is appended.
#[tactic(auto, using(crate::proofs::Short::packet_count))]
pub(crate) fn put_answer(
    alloc: Global,
    out: &mut Vec<u8>,
    packet_id: u8,
    last: bool,
    tokens: &[Token],
) -> Result<(), NoMemory>
    requires { FitsOnePacket tokens.now }
    ensures ok { OnOk result (out.new.items
        ≡ out.old.items ++ answer_packet packet_id last tokens.now) }
    ensures short { length (answer_packet packet_id last tokens.now) ≤ 512 }
    ensures err { OnErr result (out.new.items ≡ out.old.items) }
{
    let bytes = spell(alloc, tokens)?;
    put_sent(
        out,
        Kind::Answer,
        Status::of_answer(last),
        packet_id,
        bytes.as_slice(),
    )
}

/// Appends what acknowledges an attention, and tells of the transaction that it rolled back, if it
/// did. At want of memory nothing is appended.
#[tactic(auto, using(crate::proofs::Short::acknowledging, crate::proofs::Short::rolling_back))]
pub(crate) fn put_acknowledgement(
    alloc: Global,
    out: &mut Vec<u8>,
    packet_id: u8,
    rolled_back: Option<u64>,
) -> Result<(), NoMemory>
    requires { IfSome rolled_back (λ descriptor. 0 < descriptor) }
    ensures ok { OnOk result (out.new.items
        ≡ out.old.items ++ acknowledgement packet_id (rollback_of rolled_back)) }
    ensures short { length out.new.items ≤ length out.old.items + 35 }
    ensures err { OnErr result (out.new.items ≡ out.old.items) }
{
    let done = Token::Done {
        status: ATTENTION,
        cur_cmd: 0,
        rows: 0,
    };
    match rolled_back {
        None => put_answer(alloc, out, packet_id, true, &[done]),
        Some(descriptor) => {
            let rollback = Token::Env(EnvChange::Rollback(descriptor));
            put_answer(alloc, out, packet_id, true, &[rollback, done])
        }
    }
}
