//! Logins of connections: what the server answers.

use crate::event_loop::EventLoop;
use relay_groups::relay_of;
use relay_logins::Dialed;
use relay_sockets::{Cause, RoleKind};
use std::io;
use std::net::Net;

impl EventLoop {
    /// The connection of this number in a group is logged in.
    pub(crate) fn is_in(&mut self, key: usize, group: usize, number: u64) {
        if let Some(server) = self.state.is_in(key, group, number) {
            self.upstream.is_back(server);
            self.dial_queue.is_back();
        }
    }

    /// Bytes came on another connection of a group.
    pub(crate) fn dialed<R: Net>(
        &mut self,
        rt: &R,
        key: usize,
        group: usize,
        number: u64,
        piece: &[u8],
    ) -> io::Result<()> {
        let (rest, dialed) = self.state.dial(key, piece)?;
        match dialed {
            Dialed::More => return self.send_or_close(rt, key),
            Dialed::Wrong(why) => return self.ended(rt, key, Cause::Wrong(why.words())),
            Dialed::Routed(target) => {
                return self.follow(rt, key, RoleKind::Opening(group, number), &target);
            }
            Dialed::Authenticated(size, answer) => {
                if !self.state.has_size(group, size) {
                    return self.shut(rt, key, group, Cause::OtherSize);
                }
                self.state.watch_in(key, group, &answer)?;
            }
            Dialed::Continuation(_) => return self.shut(rt, key, group, Cause::Refused(0)),
            Dialed::Refused(_, error) => {
                return self.shut(rt, key, group, Cause::Refused(error));
            }
        }
        self.is_in(key, group, number);
        if let Some(relay) = relay_of(&mut self.state.groups, group) {
            relay.opened(number)?;
        }
        self.heard_behind(rt, key, group, number, rest)
    }

    /// These bytes came on a connection behind its login's answer.
    pub(crate) fn heard_behind<R: Net>(
        &mut self,
        rt: &R,
        key: usize,
        group: usize,
        number: u64,
        rest: &[u8],
    ) -> io::Result<()> {
        self.state.sockets.watch(key, rest);
        self.heard(rt, key, group, number, rest)
    }

    /// The server refuses the logins of a group from now on: who comes later is authenticated anew.
    fn shut<R: Net>(&mut self, rt: &R, key: usize, group: usize, cause: Cause) -> io::Result<()> {
        self.state.say_refused(key, cause);
        self.state.groups.close(group);
        self.ended(rt, key, cause)
    }
}
