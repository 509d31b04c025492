//! Free connections of a group are checked: each is reset anew, which a server must answer in time.

use crate::event_loop::EventLoop;
use std::io;
use std::net::Net;

impl EventLoop {
    /// Checks the groups whose time it is.
    pub fn check_all<R: Net>(&mut self, rt: &R) -> io::Result<()> {
        let seconds = self.asked.limits.check;
        if seconds == 0 {
            return Ok(());
        }
        let keys = self.state.group_keys()?;
        self.check_each(rt, &keys, seconds.saturating_mul(1000))
    }

    fn check_each<R: Net>(&mut self, rt: &R, keys: &[usize], limit: u64) -> io::Result<()> {
        for key in keys.iter() {
            if self.state.is_due(*key, limit) {
                self.check(rt, *key)?;
            }
        }
        Ok(())
    }

    /// Checks the free connections of a group: each is cleaned.
    pub(crate) fn check<R: Net>(&mut self, rt: &R, group: usize) -> io::Result<()> {
        if self.state.lend_to_nobody(group)? {
            self.obey(rt, group)
        } else {
            Ok(())
        }
    }
}
