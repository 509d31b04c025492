//! What a peer is told that is authenticated.
ghost use Rattle.std.specs.Prelude.{◌+◌, ◌≤◌, vec_len};

use crate::asked::{asks_for_recovery, asks_for_utf8, database_in};
use crate::front::Front;
use crate::peer::{Next, Peer, Stage};
use serve_answers::{DONE_LENGTH, Done, put_done, put_login_ack, put_no_utf8, put_size_change};
use serve_scripts::Script;
use serve_states::put_features;
use std::alloc::{AllocError, Global};
use tds_login::{Terms, is_let_in, put_let_in};
use tds_packet::{Kind, PacketSize, Status, put_sent};
use tds_server::Server;
use tds_session::ScriptEngine;

/// The most bytes of data in the packet of an answer to a login.
const MOST: usize = 4088;

impl Peer {
    /// Authenticates a peer, and begins its session.
    pub(crate) fn authenticate(
        &mut self,
        script: &Script,
        terms: Terms,
        out: &mut Vec<u8>,
    ) -> Result<Next, AllocError>
        ensures { vec_len out.new ≤ vec_len out.old + 4096 }
    {
        let alloc = self.alloc;
        let database = database_in(alloc, self.login.as_slice())?;
        let has_utf8 = asks_for_utf8(alloc, self.login.as_slice())?;
        let has_recovery = asks_for_recovery(alloc, self.login.as_slice())?;
        self.login.clear();
        self.orders = script.orders(0, &[]);
        self.begin_session(script, &terms, database.as_slice())?;
        if let Some(tokens) = recorded_greeting(script, self.number) {
            put_greeting(out, tokens)?;
            return Ok(if is_let_in(tokens) {
                Next::Stay
            } else {
                Next::Close
            });
        }
        let features = self.features(has_utf8, has_recovery)?;
        if self.is_real {
            self.put_real_greeting(&terms, features.as_slice(), out)?;
        } else if features.is_empty() {
            put_let_in(alloc, out, terms, database.as_slice())?;
        } else {
            let tokens = plain_greeting(alloc, terms, database.as_slice(), features.as_slice())?;
            put_greeting(out, tokens.as_slice())?;
        }
        Ok(Next::Stay)
    }

    /// What is told of the features that were asked for: those that aren't given, in the shapes of a SQL Server
    /// alone.
    fn features(&mut self, has_utf8: bool, has_recovery: bool) -> Result<Vec<u8>, AllocError> {
        let mut tokens = Vec::new(self.alloc);
        let has_utf8 = has_utf8 && self.is_real;
        match &mut self.stage {
            Stage::Session { front, .. } if has_recovery => {
                let states = front.tell_states()?;
                put_features(&mut tokens, states.as_slice(), has_utf8)?;
            }
            _ if has_utf8 => put_no_utf8(&mut tokens)?,
            _ => {}
        }
        Ok(tokens)
    }

    /// Begins the session, in this database.
    fn begin_session(
        &mut self,
        script: &Script,
        terms: &Terms,
        database: &[u16],
    ) -> Result<(), AllocError> {
        let size = size_of(script, terms);
        let mut front = Front::new(self.alloc, size, database, self.spid(), self.is_real)?;
        if let Some(recording) = script.recording() {
            front.go_by(recording, self.number);
        }
        front.take_vices(script);
        let server = Server::with_attention(self.alloc, ScriptEngine, size, self.on_attention);
        self.stage = Stage::Session { front, server };
        Ok(())
    }

    /// Appends the answer to a login in the shapes of a SQL Server's.
    fn put_real_greeting(
        &self,
        terms: &Terms,
        features: &[u8],
        out: &mut Vec<u8>,
    ) -> Result<(), AllocError>
        ensures { vec_len out.new ≤ vec_len out.old + 4096 }
    {
        let Stage::Session { front, .. } = &self.stage else {
            return Ok(());
        };
        let tokens = real_greeting(self.alloc, front, terms, features)?;
        put_greeting(out, tokens.as_slice())
    }
}

/// The size of the packets that are taken: any, where the packet size is told as it was recorded.
fn size_of(script: &Script, terms: &Terms) -> PacketSize {
    if script.recording().is_none() {
        return terms.size;
    }
    match PacketSize::new(32_767) {
        Some(size) => size,
        None => terms.size,
    }
}

/// What authenticated the recorded connection of this number, where that was recorded and has room in a packet.
fn recorded_greeting(script: &Script, number: u64) -> Option<&[u8]> {
    let tokens = script.recording()?.login(number)?;
    if tokens.len() <= MOST {
        Some(tokens)
    } else {
        None
    }
}

/// The tokens by which a SQL Server authenticates a client: what is told of the session, ENVCHANGE 4 (MS-TDS
/// 2.2.7.9), LOGINACK (2.2.7.14), FEATUREEXTACK (2.2.7.11) where a feature was asked for, and DONE (2.2.7.6).
fn real_greeting(
    alloc: Global,
    front: &Front,
    terms: &Terms,
    features: &[u8],
) -> Result<Vec<u8>, AllocError> {
    let mut tokens = front.session_tokens()?;
    put_size_change(alloc, &mut tokens, terms.size.get())?;
    put_login_ack(alloc, &mut tokens, terms.version)?;
    tokens.extend_from_slice(features)?;
    put_done(&mut tokens, Done::Statement, 0, 0)?;
    Ok(tokens)
}

/// The tokens by which a client is authenticated that asked for these features: they stand before DONE.
fn plain_greeting(
    alloc: Global,
    terms: Terms,
    database: &[u16],
    features: &[u8],
) -> Result<Vec<u8>, AllocError> {
    let mut packet = Vec::new(alloc);
    put_let_in(alloc, &mut packet, terms, database)?;
    let data = packet.as_slice().get(8..).unwrap_or(&[]);
    let (front, done) = data.split_at(data.len().saturating_sub(DONE_LENGTH));
    let mut tokens = Vec::new(alloc);
    tokens.extend_from_slice(front)?;
    tokens.extend_from_slice(features)?;
    tokens.extend_from_slice(done)?;
    Ok(tokens)
}

/// Appends the packet of an answer to a login with these tokens.
fn put_greeting(out: &mut Vec<u8>, tokens: &[u8]) -> Result<(), AllocError>
    ensures { vec_len out.new ≤ vec_len out.old + 4096 }
{
    let count = tokens.len().min(MOST);
    put_sent(
        out,
        Kind::Answer,
        Status::of_answer(true),
        1,
        &tokens[..count],
    )
}
