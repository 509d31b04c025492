//! What an operator changes while the relay runs: groups are paused and go on, settings are read again.

use crate::program::Program;
use relay_groups::Group;
use relay_settings::{Asked, read_arguments};
use relay_sockets::Role;
use relay_status::put_answer;
use std::fs::Files;
use std::net::Net;
use std::{io, mem};

impl Program {
    /// Pauses a group: none of its applications is lent a connection, and free ones are closed. False where
    /// there is no such group. Who asks for it has this key.
    pub fn pause(&mut self, number: u64, by: usize) -> bool {
        let now = self.event_loop.now();
        match self.group_of_number(number) {
            Some((_, group)) => {
                group.goes_on = false;
                if group.paused.is_none() {
                    group.paused = Some(now);
                }
            }
            None => return false,
        }
        self.event_loop.state.sockets.touch_all();
        self.event_loop
            .state
            .say_order(number, "is paused, by POST /pause", by);
        true
    }

    /// A group is to go on behind this round's turns. False where there is no such group.
    pub fn resume(&mut self, number: u64, by: usize) -> io::Result<bool> {
        let Some((key, group)) = self.group_of_number(number) else {
            return Ok(false);
        };
        group.goes_on = true;
        self.resumed.push(key)?;
        self.event_loop
            .state
            .say_order(number, "goes on, by POST /resume", by);
        Ok(true)
    }

    fn group_of_number(&mut self, number: u64) -> Option<(usize, &mut Group)> {
        let key = self.event_loop.state.groups.key_of(number)?;
        let group = self.event_loop.state.groups.get_mut(key)?;
        Some((key, group))
    }

    /// The groups that are to go on do. All who were reported in this round have had their turns by now, so
    /// that whoever is read from here on asks behind those who were kept.
    pub fn go_on(&mut self) -> io::Result<()> {
        if self.resumed.is_empty() {
            return Ok(());
        }
        let resumed = mem::replace(&mut self.resumed, Vec::new(self.event_loop.alloc));
        for key in resumed.iter() {
            if self.ends_pause(*key) {
                self.event_loop.state.read_all_of(*key)?;
                self.event_loop.state.forget_deserted(*key);
            }
        }
        Ok(())
    }

    /// Ends a group's pause, where it is to go on still.
    fn ends_pause(&mut self, key: usize) -> bool {
        match self.event_loop.state.groups.get_mut(key) {
            Some(group) if group.goes_on => {
                group.goes_on = false;
                group.paused = None;
                true
            }
            _ => false,
        }
    }

    /// Reads the settings again for those who have asked for that. Where something is wrong, the old ones
    /// stay.
    pub fn reload<R: Net + Files>(&mut self, rt: &R) -> io::Result<()> {
        if self.reloads.is_empty() {
            return Ok(());
        }
        let asking = mem::replace(&mut self.reloads, Vec::new(self.event_loop.alloc));
        for key in asking.iter() {
            self.reload_for(rt, *key)?;
        }
        Ok(())
    }

    fn reload_for<R: Net + Files>(&mut self, rt: &R, key: usize) -> io::Result<()> {
        match read_arguments(rt, self.event_loop.alloc, self.arguments.as_slice()) {
            Ok(settings) => {
                self.take_over(settings.asked);
                self.event_loop.follow_most(rt)?;
                self.event_loop
                    .state
                    .note_order("the settings are read again, by POST /reload", key);
                self.answer_reload(rt, key, "200 OK", "read again\n")
            }
            Err(fault) => {
                let told = format!(in self.event_loop.alloc; "{fault}\n")?;
                self.event_loop.state.note_order(
                    "the settings stay, since POST /reload finds them wrong",
                    key,
                );
                self.answer_reload(rt, key, "409 Conflict", told.as_str())
            }
        }
    }

    fn answer_reload<R: Net>(
        &mut self,
        rt: &R,
        key: usize,
        status: &str,
        told: &str,
    ) -> io::Result<()> {
        let Some(socket) = self.event_loop.state.sockets.get_mut(key) else {
            return Ok(());
        };
        if !matches!(socket.role, Role::StatusClient(_)) {
            return Ok(());
        }
        put_answer(&mut socket.out, status, "text/plain", told.as_bytes())?;
        self.event_loop.close_when_sent(rt, key)
    }

    /// These settings are the ones from now on. Where it listens and tells, its servers, and for how long
    /// applications keep connections stay as they were.
    fn take_over(&mut self, asked: Asked) {
        let before = self.event_loop.asked;
        self.event_loop.set(Asked {
            listen: before.listen,
            servers: before.servers,
            share: before.share,
            ends_with_input: before.ends_with_input,
            ..asked
        });
    }
}
