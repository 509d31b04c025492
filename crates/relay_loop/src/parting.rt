//! Applications that rest are parted from their connections, where others of their group wait and no more
//! connections may be opened.

use crate::event_loop::EventLoop;
use relay_groups::Parting;
use std::io;
use std::net::Net;

/// How many of those that rest are tried in a call: of some the relay knows that they don't.
const TRIED: usize = 16;

impl EventLoop {
    /// While more of a group wait than are about to be lent a connection, those that have rested longest are
    /// parted from theirs.
    pub(crate) fn part_those_at_rest<R: Net>(&mut self, rt: &R, group: usize) -> io::Result<()> {
        for _ in 0..TRIED {
            if !self.state.is_short(group) {
                return Ok(());
            }
            if !self.part_next(rt, group)? {
                break;
            }
        }
        self.state.count_kept(group);
        Ok(())
    }

    /// The same in all groups: where one has come to rest otherwise than by an answer.
    pub fn part_all<R: Net>(&mut self, rt: &R) -> io::Result<()> {
        let keys = self.state.group_keys()?;
        self.part_each(rt, &keys)
    }

    fn part_each<R: Net>(&mut self, rt: &R, keys: &[usize]) -> io::Result<()> {
        for key in keys.iter() {
            self.part_those_at_rest(rt, *key)?;
        }
        Ok(())
    }

    /// Parts an application from its connection where it rests, though nobody waits. False where it doesn't.
    pub fn part_one<R: Net>(&mut self, rt: &R, key: usize) -> io::Result<bool> {
        let Some(group) = self.state.park_one(key)? else {
            return Ok(false);
        };
        self.obey(rt, group)?;
        Ok(true)
    }

    /// Parts one that rests, of any group: its connection may be closed then, for one of another group. False where
    /// none does.
    pub(crate) fn part_any<R: Net>(&mut self, rt: &R) -> io::Result<bool> {
        let keys = self.state.group_keys()?;
        self.part_one_of(rt, &keys)
    }

    fn part_one_of<R: Net>(&mut self, rt: &R, keys: &[usize]) -> io::Result<bool> {
        for key in keys.iter() {
            if self.part_one_in(rt, *key)? {
                return Ok(true);
            }
        }
        Ok(false)
    }

    /// Parts one that rests, of this group. False where none does.
    fn part_one_in<R: Net>(&mut self, rt: &R, group: usize) -> io::Result<bool> {
        let before = self.state.partings_of(group);
        for _ in 0..TRIED {
            if !self.part_next(rt, group)? {
                return Ok(false);
            }
            if self.state.partings_of(group) > before {
                return Ok(true);
            }
        }
        Ok(false)
    }

    /// Tries the one that has rested longest. False where there is none.
    fn part_next<R: Net>(&mut self, rt: &R, group: usize) -> io::Result<bool> {
        match self.state.park_next(group)? {
            Parting::Nobody => return Ok(false),
            Parting::Refused => {}
            Parting::Done => self.follow_orders(rt, group)?,
        }
        Ok(true)
    }
}
