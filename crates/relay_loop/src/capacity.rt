//! How many groups there may be: those whose login a server has authenticated, and those whose login it still
//! authenticates, which are counted apart and by where they come from, so that nobody's wrong passwords keep others out.

use crate::event_loop::EventLoop;
use relay_groups::Slot;
use relay_sockets::Cause;
use std::io;
use std::net::{IpAddr, Net};

impl EventLoop {
    /// Makes room for one more group, which is shared or not, and comes from there. Why it can't be, if so.
    pub(crate) fn make_room<R: Net>(
        &mut self,
        rt: &R,
        is_shared: bool,
        from: Option<IpAddr>,
    ) -> io::Result<Option<&'static str>> {
        let (alone, kinds) = (self.asked.alone, self.asked.kinds);
        match self.state.slot_for(is_shared, from, alone, kinds) {
            Slot::Free => {}
            Slot::Of(group) => self.close_group(rt, group)?,
            Slot::None(why) => return Ok(Some(why)),
        }
        if self.has_connection(rt)? {
            Ok(None)
        } else {
            Ok(Some("The relay has as many connections as it may, and all are held (--total)."))
        }
    }

    /// Closes all that belongs to a group.
    pub fn close_group<R: Net>(&mut self, rt: &R, group: usize) -> io::Result<()> {
        let keys = self.state.keys_of(group)?;
        self.close_each(rt, &keys)
    }

    fn close_each<R: Net>(&mut self, rt: &R, keys: &[usize]) -> io::Result<()> {
        for key in keys.iter() {
            self.ended(rt, *key, Cause::Own)?;
        }
        Ok(())
    }
}
