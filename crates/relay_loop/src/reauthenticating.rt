//! Logins of groups are authenticated again, each by a login of the relay's own: a password may have been changed.

use crate::event_loop::EventLoop;
use relay_logins::Dialed;
use relay_sockets::{Cause, RoleKind};
use std::io;
use std::net::Net;

impl EventLoop {
    /// Has those groups authenticated again whose time it is.
    pub fn reauthenticate<R: Net>(&mut self, rt: &R) -> io::Result<()> {
        let seconds = self.asked.limits.judge_again;
        if seconds == 0 {
            return Ok(());
        }
        let keys = self.state.group_keys()?;
        self.authenticate_each(rt, &keys, seconds.saturating_mul(1000))
    }

    fn authenticate_each<R: Net>(&mut self, rt: &R, keys: &[usize], limit: u64) -> io::Result<()> {
        for key in keys.iter() {
            if self.state.is_to_authenticate(*key, limit) && self.has_connection(rt)? {
                self.upstream.begin();
                let _ = self.reach(rt, RoleKind::Reauthentication(*key), 0)?;
            }
        }
        Ok(())
    }

    /// Bytes came of a server that authenticates a group's login again.
    pub(crate) fn reauthenticated<R: Net>(
        &mut self,
        rt: &R,
        key: usize,
        group: usize,
        piece: &[u8],
    ) -> io::Result<()> {
        let (_, dialed) = self.state.dial(key, piece)?;
        match dialed {
            Dialed::More => self.send_or_close(rt, key),
            Dialed::Wrong(why) => self.ended(rt, key, Cause::Wrong(why.words())),
            Dialed::Routed(target) => self.follow(
                rt,
                key,
                RoleKind::Reauthentication(group),
                &target,
            ),
            Dialed::Authenticated(..) => self.ended(rt, key, Cause::Own),
            Dialed::Continuation(_) => self.is_over(rt, key, group, Cause::Refused(0)),
            Dialed::Refused(_, error) => self.is_over(rt, key, group, Cause::Refused(error)),
        }
    }

    /// A server refuses the logins of a group from now on: nobody joins it, and its connections are closed as
    /// they come back.
    fn is_over<R: Net>(
        &mut self,
        rt: &R,
        key: usize,
        group: usize,
        cause: Cause,
    ) -> io::Result<()> {
        self.state.say_refused(key, cause);
        self.state.groups.close(group);
        if let Some(group) = self.state.groups.get_mut(group) {
            group.is_over = true;
        }
        self.state.sockets.touch_all();
        self.ended(rt, key, Cause::Own)
    }
}
