//! What the relay says is to be done: sockets are written to, opened and closed.

use crate::event_loop::EventLoop;
use relay_groups::relay_of;
use std::io;
use std::net::Net;
use tds_relay::Order;

impl EventLoop {
    /// Does what a group's relay says is to be done; and parts those at rest where others wait.
    pub fn obey<R: Net>(&mut self, rt: &R, group: usize) -> io::Result<()> {
        if self.follow_first(rt, group)? {
            self.follow_orders(rt, group)?;
        }
        match self.state.groups.get_mut(group) {
            Some(group) if !group.is_settled() => {}
            Some(group) => {
                group.watched.forget_waiting();
                return Ok(());
            }
            None => return Ok(()),
        }
        self.part_those_at_rest(rt, group)?;
        self.state.end_beginning(group)?;
        self.state.forget_deserted(group);
        Ok(())
    }

    /// Does what a group's relay says is to be done first. Whether it may say more behind that: what is sent makes
    /// it say nothing.
    fn follow_first<R: Net>(&mut self, rt: &R, group: usize) -> io::Result<bool> {
        let orders = match relay_of(&mut self.state.groups, group) {
            Some(relay) => relay.orders(),
            None => return Ok(false),
        };
        let (mut is_more, mut written) = (false, None);
        for order in orders.iter() {
            if let Order::Write(key) = *order {
                // Each part of a request is ordered to be sent, and all of them are there by now.
                if written != Some(key) {
                    self.state.write(key)?;
                }
                written = Some(key);
            } else {
                (is_more, written) = (true, None);
                self.follow_order(rt, group, *order)?;
            }
        }
        Ok(is_more)
    }

    /// Does what a group's relay says is to be done.
    pub(crate) fn follow_orders<R: Net>(&mut self, rt: &R, group: usize) -> io::Result<()> {
        for _ in 0..u64::MAX {
            let orders = match relay_of(&mut self.state.groups, group) {
                Some(relay) => relay.orders(),
                None => return Ok(()),
            };
            if orders.is_empty() {
                break;
            }
            for order in orders.iter() {
                self.follow_order(rt, group, *order)?;
            }
        }
        Ok(())
    }

    fn follow_order<R: Net>(&mut self, rt: &R, group: usize, order: Order) -> io::Result<()> {
        match order {
            Order::Open(number) => self.open(rt, group, number),
            Order::Write(key) => Ok(self.state.write(key)?),
            Order::Close(key) => self.state.close(key),
        }
    }
}
