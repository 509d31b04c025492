//! What the relay tells whoever asks what it does: for a reader, as JSON, and for Prometheus.

use crate::program::Program;
use relay_groups::{Group, RelayState, relay_of};
use relay_settings::server_of;
use relay_sockets::{Role, RoleKind};
use relay_status::{
    FAR, Figures, NO_HTTP, PAGES, Page, STRANGE, UNMEANT, put_answer, put_metrics, put_server,
    put_text_figures, put_user, put_users, sum,
};
use std::io::{self, Write};
use std::net::Net;

impl Program {
    /// Bytes of somebody who asks came.
    pub fn asked_for<R: Net>(&mut self, rt: &R, key: usize, piece: &[u8]) -> io::Result<()> {
        let page = match self.event_loop.state.sockets.get_mut(key) {
            Some(socket) => match &mut socket.role {
                Role::StatusClient(client) => client.take(piece)?,
                _ => None,
            },
            None => None,
        };
        let Some(page) = page else {
            return Ok(());
        };
        // These are answered behind this round's turns.
        match page {
            Page::Reload => return Ok(self.reloads.push(key)?),
            Page::Json => return self.ask_json(key),
            _ => {}
        }
        let mut body = Vec::new(self.event_loop.alloc);
        let (status, kind) = self.put_page(rt, page, key, &mut body)?;
        if let Some(socket) = self.event_loop.state.sockets.get_mut(key) {
            put_answer(&mut socket.out, status, kind, &body)?;
        }
        self.event_loop.close_when_sent(rt, key)
    }

    /// Appends what was asked for, by who has this key. Answers the status and the kind of that.
    fn put_page<R: Net>(
        &mut self,
        rt: &R,
        page: Page,
        by: usize,
        body: &mut Vec<u8>,
    ) -> io::Result<(&'static str, &'static str)> {
        match page {
            Page::Text => {
                self.put_text(body)?;
                Ok(("200 OK", "text/plain"))
            }
            Page::Metrics => {
                self.put_metrics(body)?;
                Ok(("200 OK", "text/plain; version=0.0.4"))
            }
            Page::Kill(group) => {
                let is_there = self.kill(rt, group, by)?;
                put_done(body, is_there, b"closed\n")
            }
            Page::Drain => {
                self.end_soon("the relay is to end, by POST /drain", Some(by));
                put_done(body, true, b"ends\n")
            }
            Page::Pause(group) => put_done(body, self.pause(group, by), b"paused\n"),
            Page::Resume(group) => put_done(body, self.resume(group, by)?, b"goes on\n"),
            Page::Unknown | Page::Reload | Page::Json => put_refused(body, "404 Not Found", PAGES),
            Page::Far => put_refused(body, "403 Forbidden", FAR),
            Page::Unmeant => put_refused(body, "403 Forbidden", UNMEANT),
            Page::Strange => put_refused(body, "403 Forbidden", STRANGE),
            Page::Wrong => put_refused(body, "400 Bad Request", NO_HTTP),
        }
    }

    /// The figures in the form that Prometheus reads.
    fn put_metrics(&mut self, body: &mut Vec<u8>) -> io::Result<()> {
        self.see_all()?;
        put_metrics(body, &self.figures())?;
        self.event_loop
            .state
            .journal
            .requests
            .put_metrics(body, "tdsrelay_request_seconds")?;
        self.event_loop
            .state
            .journal
            .logins
            .put_metrics(body, "tdsrelay_login_seconds")?;
        self.put_users(body)
    }

    /// The applications and the connections of each user, for Prometheus.
    fn put_users(&self, body: &mut Vec<u8>) -> io::Result<()> {
        for (what, kind) in [("applications", true), ("connections", false)].iter() {
            put_users(body, what)?;
            for (_, entry) in self.event_loop.state.groups.iter() {
                let group = &entry.value.inner;
                if self.is_first_of_user(entry.key, group) {
                    let count = self.count_of(&group.who.user, *kind);
                    put_user(body, what, group.who.user.as_str(), count)?;
                }
            }
        }
        Ok(())
    }

    /// Whether no group before this one is of the same user.
    fn is_first_of_user(&self, key: usize, group: &Group) -> bool {
        for (_, entry) in self.event_loop.state.groups.iter() {
            if entry.key < key && entry.value.inner.who.user == group.who.user {
                return false;
            }
        }
        true
    }

    /// How many applications or connections there are of a user.
    fn count_of(&self, user: &String, of_applications: bool) -> u64 {
        let mut count: u64 = 0;
        for (_, entry) in self.event_loop.state.groups.iter() {
            let group = &entry.value.inner;
            if group.who.user == *user {
                let more = if of_applications {
                    group.applications()
                } else {
                    group.connections()
                };
                count = count.saturating_add(more as u64);
            }
        }
        count
    }

    /// Closes all applications and connections of a group. False where there is no such group.
    fn kill<R: Net>(&mut self, rt: &R, number: u64, by: usize) -> io::Result<bool> {
        let Some(group) = self.event_loop.state.groups.key_of(number) else {
            return Ok(false);
        };
        self.event_loop
            .state
            .say_order(number, "is closed, by POST /kill", by);
        self.event_loop.close_group(rt, group)?;
        Ok(true)
    }

    /// What is there, and what was done.
    pub fn figures(&self) -> Figures {
        let mut figures = Figures::new(
            self.event_loop.now() / 1000,
            self.event_loop.state.journal.counts,
        );
        let now = self.event_loop.now();
        let RelayState {
            sockets,
            groups,
            ..
        } = &self.event_loop.state;
        for (_, entry) in sockets.iter() {
            let socket = &entry.value;
            figures.add(socket.told(), socket.seen.at);
            if socket.seen.at.is_wait() {
                figures.waited(now.saturating_sub(socket.seen.since) / 1000);
            }
        }
        for (_, entry) in groups.iter() {
            let group = &entry.value.inner;
            figures.done = sum(figures.done, group.done());
            figures.add_group(group.pair.is_some(), group.is_paused());
        }
        figures
    }

    /// Notes of each socket what it is at now, and who is at its other end.
    pub fn see_all(&mut self) -> io::Result<()> {
        let keys = self.event_loop.state.sockets.keys()?;
        for key in keys.iter() {
            let (at, mark) = self.at(*key);
            let partner = self.partner_of(*key);
            let now = self.event_loop.now();
            if let Some(socket) = self.event_loop.state.sockets.get_mut(*key) {
                socket.see(at, mark, now);
                socket.partner = partner;
            }
        }
        Ok(())
    }

    /// The number of the connection that an application holds, or of the application that holds one.
    fn partner_of(&mut self, key: usize) -> Option<u64> {
        let RelayState {
            sockets,
            groups,
            ..
        } = &mut self.event_loop.state;
        let other = match sockets.get(key)?.role_kind() {
            RoleKind::Application(group, application) => {
                relay_of(groups, group)?.held_tag(application)?
            }
            RoleKind::Opening(group, number) => relay_of(groups, group)?.holder_tag(number)?,
            RoleKind::Connection(group, number) => relay_of(groups, group)?.holder_tag(number)?,
            _ => return None,
        };
        Some(sockets.get(other)?.number)
    }

    fn put_text(&mut self, body: &mut Vec<u8>) -> io::Result<()> {
        self.see_all()?;
        write!(body, "tdsrelay 0.1.0\n")?;
        self.put_servers(body)?;
        write!(body, "\n")?;
        put_text_figures(body, &self.figures())?;
        self.event_loop
            .state
            .journal
            .requests
            .put_text(body, "requests")?;
        self.event_loop
            .state
            .journal
            .logins
            .put_text(body, "logins of connections")?;
        for (_, entry) in self.event_loop.state.groups.iter() {
            self.put_group(body, entry.key)?;
        }
        self.put_coming(body)
    }

    /// The servers, and which of them have failed lately.
    fn put_servers(&self, body: &mut Vec<u8>) -> io::Result<()> {
        for (place, until) in self.event_loop.upstream.away.iter().enumerate() {
            if let Some(server) = self.event_loop.asked.servers.at(place) {
                put_server(
                    body,
                    server_of(place),
                    server,
                    *until > self.event_loop.now(),
                )?;
            }
        }
        Ok(())
    }
}

/// Says that something is done with a group, or that there is no such group.
fn put_done(
    body: &mut Vec<u8>,
    is_there: bool,
    done: &[u8],
) -> io::Result<(&'static str, &'static str)> {
    if is_there {
        body.extend_from_slice(done)?;
        return Ok(("200 OK", "text/plain"));
    }
    put_refused(
        body,
        "404 Not Found",
        b"there is no such group; GET / shows those that are\n",
    )
}

/// Says why nothing is done.
fn put_refused(
    body: &mut Vec<u8>,
    status: &'static str,
    why: &[u8],
) -> io::Result<(&'static str, &'static str)> {
    body.extend_from_slice(why)?;
    Ok((status, "text/plain"))
}
