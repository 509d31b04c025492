//! Before applications share by transactions their server is asked whether it tells all that a reset would change:
//! on the first connection of their group, which nobody is lent yet.

use crate::event_loop::EventLoop;
use relay_groups::watch_behind;
use relay_questions::{Found, Question};
use std::io;
use std::net::Net;
use tds_packet::PacketSize;
use tds_relay::Mode;

impl EventLoop {
    /// The first login of a group is authenticated. Where its applications are to share by transactions, the server is asked
    /// first.
    pub(crate) fn first_authenticated<R: Net>(
        &mut self,
        rt: &R,
        key: usize,
        group: usize,
        size: PacketSize,
        answer: Vec<u8>,
        rest: &[u8],
    ) -> io::Result<()> {
        if self.state.mode_of(group) == Mode::Sessions {
            return self.open_group(rt, key, group, size, answer, rest);
        }
        let watch = watch_behind(self.alloc, &answer)?;
        if !watch.rests() {
            self.state.share_by_sessions(group, Question::Recovery);
            return self.open_group(rt, key, group, size, answer, rest);
        }
        if !self.state.begin_asking(key, group, watch, size, answer)? {
            return Ok(());
        }
        self.hear_of_questions(rt, key, group, rest)
    }

    /// These bytes came on the first connection of a group, whose server is asked.
    pub(crate) fn hear_of_questions<R: Net>(
        &mut self,
        rt: &R,
        key: usize,
        group: usize,
        piece: &[u8],
    ) -> io::Result<()> {
        match self.state.find_by(key, group, piece)? {
            Found::More => self.send_or_close(rt, key),
            Found::Tells => self.has_told(rt, key, group),
            Found::Otherwise(question) => {
                let _ = self.state.take_out(key)?;
                self.ask_no_more(rt, group, question)
            }
        }
    }

    /// The server tells all: the applications of a group share by transactions.
    fn has_told<R: Net>(&mut self, rt: &R, key: usize, group: usize) -> io::Result<()> {
        match self.state.take_asked(group) {
            Some((size, answer)) => self.open_group(rt, key, group, size, answer, &[]),
            None => Ok(()),
        }
    }

    /// An answer isn't as it must be, or doesn't come: the applications of a group share by sessions, and its login is
    /// begun anew.
    pub(crate) fn ask_no_more<R: Net>(
        &mut self,
        rt: &R,
        group: usize,
        question: Question,
    ) -> io::Result<()> {
        self.state.share_by_sessions(group, question);
        self.dial_first(rt, group)
    }
}
