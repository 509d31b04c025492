//! How many connections groups may have, which follows the settings.

use crate::event_loop::EventLoop;
use std::io;
use std::net::Net;

impl EventLoop {
    /// Each group that is shared may have as many connections as is asked for now: who waits is lent one of them.
    pub fn follow_most<R: Net>(&mut self, rt: &R) -> io::Result<()> {
        let keys = self.state.group_keys()?;
        self.follow_most_of(rt, &keys)
    }

    fn follow_most_of<R: Net>(&mut self, rt: &R, keys: &[usize]) -> io::Result<()> {
        for key in keys.iter() {
            self.follow_most_in(rt, *key)?;
        }
        Ok(())
    }

    fn follow_most_in<R: Net>(&mut self, rt: &R, key: usize) -> io::Result<()> {
        let most = self.asked.most;
        match self.state.groups.get_mut(key) {
            Some(group) if group.pair.is_none() => group.set_most(most)?,
            _ => return Ok(()),
        }
        self.obey(rt, key)
    }
}
