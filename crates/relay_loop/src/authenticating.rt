//! The first login of a group: once it is authenticated all who wait for it join, else they are told why.

use crate::event_loop::EventLoop;
use relay_logins::{Dialed, put_saved};
use relay_sockets::{Cause, RoleKind};
use relay_status::raise;
use std::io;
use std::net::Net;
use tds_packet::PacketSize;

impl EventLoop {
    /// Bytes came on the first connection of a group.
    pub(crate) fn first_dialed<R: Net>(
        &mut self,
        rt: &R,
        key: usize,
        group: usize,
        piece: &[u8],
    ) -> io::Result<()> {
        if self.state.question_of(group).is_some() {
            return self.hear_of_questions(rt, key, group, piece);
        }
        let (rest, dialed) = self.state.dial(key, piece)?;
        match dialed {
            Dialed::More => self.send_or_close(rt, key),
            Dialed::Wrong(why) => self.ended(rt, key, Cause::Wrong(why.words())),
            Dialed::Routed(target) => self.follow(rt, key, RoleKind::First(group), &target),
            Dialed::Continuation(answer) => match self.state.pair_of(group) {
                Some(pair) => self.ask_continuation(rt, pair.application, group, &answer),
                None => self.refused(rt, key, group, &answer, 0),
            },
            Dialed::Refused(answer, error) => self.refused(rt, key, group, &answer, error),
            Dialed::Authenticated(size, answer) => self.first_authenticated(
                rt, key, group, size, answer, rest,
            ),
        }
    }

    /// The server refuses the first login of a group.
    fn refused<R: Net>(
        &mut self,
        rt: &R,
        key: usize,
        group: usize,
        answer: &[u8],
        error: i32,
    ) -> io::Result<()> {
        self.state.say_refused(key, Cause::Refused(error));
        let _ = self.state.take_out(key)?;
        self.state.unpair(group);
        self.refuse_all(rt, group, answer, error)?;
        let _ = self.state.groups.try_remove(group).is_some();
        Ok(())
    }

    /// The first login of a group is authenticated: its relay begins, and all who wait for that join it.
    pub(crate) fn open_group<R: Net>(
        &mut self,
        rt: &R,
        key: usize,
        group: usize,
        size: PacketSize,
        answer: Vec<u8>,
        rest: &[u8],
    ) -> io::Result<()> {
        let (waiting, most) = (self.state.take_authenticating(group), self.asked.most);
        let Some(number) = self.state.begin_relay(key, group, size, answer, most)? else {
            let _ = self.state.take_out(key)?;
            return self
                .state
                .not_authenticated(group, "The relay has no room for one more connection.");
        };
        self.is_in(key, group, number);
        self.join_all(rt, &waiting, group)?;
        self.begin_sharing(rt, key, group, number, rest)
    }

    /// All who still wait until a group is authenticated join it.
    fn join_all<R: Net>(&mut self, rt: &R, waiting: &[usize], group: usize) -> io::Result<()> {
        for application in waiting.iter() {
            if self.state.is_authenticating(*application, group) {
                self.join(rt, *application, group)?;
            }
        }
        Ok(())
    }

    /// Those who waited for a group's first connection are authenticated. Where it isn't shared, its login is forgotten,
    /// and where nobody is left of it then, it ends.
    fn begin_sharing<R: Net>(
        &mut self,
        rt: &R,
        key: usize,
        group: usize,
        number: u64,
        rest: &[u8],
    ) -> io::Result<()> {
        if self.state.end_authenticating(group) {
            self.state.unpair(group);
            let _ = self.state.take_out(key)?;
            self.state.forget(group);
            return Ok(());
        }
        self.heard_behind(rt, key, group, number, rest)
    }

    /// The first login of a group is refused: all who wait for it get this answer.
    fn refuse_all<R: Net>(
        &mut self,
        rt: &R,
        group: usize,
        answer: &[u8],
        error: i32,
    ) -> io::Result<()> {
        let waiting = self.state.take_authenticating(group);
        for key in waiting.iter() {
            if self.state.is_authenticating(*key, group) {
                raise(&mut self.state.journal.counts.refused);
                self.state
                    .say_application_refused(*key, Cause::Refused(error));
                self.close_with(rt, *key, answer)?;
            }
        }
        Ok(())
    }

    fn close_with<R: Net>(&mut self, rt: &R, key: usize, answer: &[u8]) -> io::Result<()> {
        if let Some(socket) = self.state.sockets.get_mut(key) {
            put_saved(&mut socket.out, answer)?;
        }
        self.close_when_sent(rt, key)
    }
}
