//! Session recovery: what is told of a session's states (MS-TDS 2.2.7.11, 2.2.7.21).

use crate::front::Front;
use serve_requests::Habits;
use serve_scripts::Script;
use std::alloc::AllocError;
use tds_request::Request;

/// The most things that a script has told wrongly.
const MOST: usize = 1000;

impl Front {
    /// The states of the session are told from now on: how a login's answer tells them.
    pub fn tell_states(&mut self) -> Result<Vec<u8>, AllocError> {
        self.habits.tell_states();
        self.habits.initial_states()
    }

    /// How many milliseconds go by before the newest request's answer begins, by its text.
    pub fn wait(&self) -> u32 {
        match &self.answering {
            Some(answering) => answering.wait(),
            None => 0,
        }
    }

    /// They are told as wrongly as the script says.
    pub fn take_vices(&mut self, script: &Script) {
        for place in 0..MOST {
            match script.vice(place) {
                Some(vice) => self.habits.take_vice(vice),
                None => return,
            }
        }
    }

    /// A transaction manager request may choose the session's isolation level (MS-TDS 2.2.6.9).
    pub(crate) fn hear_isolation(&mut self, request: &Request) -> Result<(), AllocError> {
        match request {
            Request::Begin(level) | Request::Commit(Some(level)) | Request::Rollback(Some(level)) =>
                self.habits.isolate(level.get()),
            _ => Ok(()),
        }
    }
}

/// A session is as its login left it; what its reset tells of its states is appended.
pub(crate) fn set_back(habits: &mut Habits, behind: &mut Vec<u8>) -> Result<(), AllocError> {
    habits.reset()?;
    let news = habits.news_of_reset()?;
    behind.extend_from_slice(news.as_slice())
}
