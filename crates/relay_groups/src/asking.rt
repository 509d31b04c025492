//! What the server of a group's first connection is asked, before anybody shares by transactions.

use crate::saying::put_group;
use crate::state::RelayState;
use relay_logins::FEATURES;
use relay_questions::{Asking, Found, Question};
use std::alloc::{AllocError, Global};
use std::io;
use tds_packet::PacketSize;
use tds_relay::Mode;
use tds_state::Watch;

/// What a server is asked, and what it has answered to the login before that.
#[derive(Drop)]
pub struct Asked {
    questions: Asking,
    size: PacketSize,
    answer: Vec<u8>,
}

impl RelayState {
    /// The server of a group's first connection is asked from now on, which has answered this to the login. False where
    /// there is none.
    pub fn begin_asking(
        &mut self,
        key: usize,
        group: usize,
        watch: Watch,
        size: PacketSize,
        answer: Vec<u8>,
    ) -> io::Result<bool> {
        let alloc = self.alloc;
        let RelayState {
            sockets,
            groups,
            ..
        } = self;
        let (Some(socket), Some(asked)) = (sockets.get_mut(key), groups.get_mut(group)) else {
            return Ok(false);
        };
        let questions = Asking::begin(alloc, watch, &mut socket.out)?;
        let begun = Asked {
            questions,
            size,
            answer,
        };
        asked.asked = Some(Box::new(alloc, begun)?);
        Ok(true)
    }

    /// What these bytes have shown.
    pub fn find_by(&mut self, key: usize, group: usize, piece: &[u8]) -> io::Result<Found> {
        let alloc = self.alloc;
        let RelayState {
            sockets,
            groups,
            ..
        } = self;
        let (Some(socket), Some(group)) = (sockets.get_mut(key), groups.get_mut(group)) else {
            return Ok(Found::More);
        };
        let Some(asked) = &mut group.asked else {
            return Ok(Found::More);
        };
        if !piece.is_empty() {
            asked.questions.came(piece, &mut socket.out)?;
        }
        Ok(asked.questions.find(alloc, &mut socket.out)?)
    }

    /// The server of a group's first connection is asked no more. What it has answered to the login.
    pub fn take_asked(&mut self, group: usize) -> Option<(PacketSize, Vec<u8>)> {
        let asked = self.groups.get_mut(group)?.asked.take()?;
        let Asked { size, answer, .. } = Box::into_inner(asked);
        Some((size, answer))
    }

    /// The applications of a group share by sessions from its beginning, because of this.
    pub fn share_by_sessions(&mut self, group: usize, question: Question) {
        if let Some(group) = self.groups.get_mut(group) {
            group.mode = Mode::Sessions;
            group.question = Some(question);
            group.asked = None;
        }
        put_group(
            &mut self.journal,
            group,
            "shares by sessions:",
            question.words(),
        );
    }

    /// What the server of a group's first connection is asked, where it is asked.
    pub fn question_of(&self, group: usize) -> Option<Question> {
        let asked = self.groups.get(group)?.asked.as_ref()?;
        Some(asked.questions.question())
    }

    pub fn mode_of(&self, group: usize) -> Mode {
        match self.groups.get(group) {
            Some(group) => group.mode,
            None => Mode::Sessions,
        }
    }
}

/// A watch over a session whose login was answered so.
pub fn watch_behind(alloc: Global, answer: &[u8]) -> Result<Watch, AllocError> {
    let mut watch = Watch::new(alloc, FEATURES)?;
    watch.let_in(answer);
    Ok(watch)
}
