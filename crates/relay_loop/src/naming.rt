//! Names are asked of the helper, and its answers heard.

use crate::event_loop::EventLoop;
use crate::names::{AGAIN, Answer, PATIENCE, answer_in, others_in};
use crate::routing::goals_at;
use mio::net::UnixStream;
use relay_groups::put_name;
use relay_logins::{Target, Way};
use relay_sockets::{News, Role, RoleKind};
use socket_places::Link;
use std::net::{IpAddr, Net};
use std::{io, mem, str};

/// The milliseconds after which the helper's socket is dialed again.
const PAUSE: u64 = 250;

/// A login that is sent on to a server by its name.
#[derive(Drop)]
pub struct Sent {
    pub role_kind: RoleKind,
    pub way: Way,
    pub target: Target,
    /// The millisecond in which the name was asked.
    pub since: u64,
}

impl EventLoop {
    /// Asks what is to be asked, and gives up what isn't answered.
    pub fn look_after_names<R: Net>(&mut self, rt: &R) -> io::Result<()> {
        if self.names.path.is_empty() {
            return Ok(());
        }
        if self.names.link.is_none() && self.now() >= self.names.next {
            self.dial_names(rt)?;
        }
        for place in 0..self.names.list.len() {
            self.look_after_name(place)?;
        }
        self.give_up_sent(rt)
    }

    /// Connects to the helper.
    fn dial_names<R: Net>(&mut self, rt: &R) -> io::Result<()> {
        let now = self.now();
        self.names.next = now.saturating_add(PAUSE);
        let Ok(stream) = UnixStream::connect(rt, self.names.path.as_str()) else {
            return Ok(());
        };
        let out = Vec::new(self.alloc);
        self.names.link = self
            .state
            .sockets
            .take_in(Link::Unix(stream), Role::Names, out, now)?;
        Ok(())
    }

    /// Asks for a name whose time it is, where the helper is there.
    fn look_after_name(&mut self, place: usize) -> io::Result<()> {
        let (now, link) = (self.now(), self.names.link);
        let Some(name) = self.names.list.get_mut(place) else {
            return Ok(());
        };
        match (name.asked, link) {
            (Some(since), _) if now.saturating_sub(since) > PATIENCE => {
                name.asked = None;
                name.is_known = true;
                name.due = now.saturating_add(AGAIN);
                Ok(())
            }
            (None, Some(key)) if name.due <= now => {
                name.asked = Some(now);
                let EventLoop { state, names, .. } = self;
                if let (Some(socket), Some(name)) = (
                    state.sockets.get_mut(key),
                    names.list.get(place),
                ) {
                    socket
                        .out
                        .extend_from_slice(name.named.host.as_str().as_bytes())?;
                    socket.out.push(b'\n')?;
                }
                Ok(self.state.sockets.report(key, News::Turn)?)
            }
            (None, None) if now > PATIENCE => {
                name.is_known = true;
                Ok(())
            }
            _ => Ok(()),
        }
    }

    /// The helper has ended.
    pub(crate) fn names_ended<R: Net>(&mut self, rt: &R) -> io::Result<()> {
        self.names.link = None;
        self.names.line.clear();
        self.names.next = self.now().saturating_add(PAUSE);
        for name in self.names.list.iter_mut() {
            name.asked = None;
        }
        let sent = mem::replace(&mut self.sent, Vec::new(self.alloc));
        for sent in sent {
            self.not_sent_on(rt, sent)?;
        }
        Ok(())
    }

    /// Bytes of the helper came.
    pub(crate) fn names_came<R: Net>(&mut self, rt: &R, piece: &[u8]) -> io::Result<()> {
        let mut rest = piece;
        for _ in 0..piece.len() {
            let (count, is_whole) = self.names.take(rest)?;
            if !is_whole {
                break;
            }
            rest = match rest.get(count..) {
                Some(left) => left,
                None => &[],
            };
            let line = mem::replace(&mut self.names.line, Vec::new(self.alloc));
            if let Ok(text) = str::from_utf8(&line) {
                if let Some((host, answer)) = answer_in(text) {
                    self.answered(rt, host, &answer)?;
                }
            }
        }
        Ok(())
    }

    /// A name has these addresses.
    fn answered<R: Net>(&mut self, rt: &R, host: &str, answer: &Answer) -> io::Result<()> {
        for place in 0..self.names.list.len() {
            self.answered_at(place, host, answer)?;
        }
        self.answer_sent(rt, host, answer)
    }

    /// The name at this place has these addresses, if it is that one.
    fn answered_at(&mut self, place: usize, host: &str, answer: &Answer) -> io::Result<()> {
        let (alloc, now, listen) = (self.alloc, self.now(), self.asked.listen);
        let EventLoop {
            names,
            asked,
            upstream,
            state,
            ..
        } = self;
        let Some(name) = names.list.get_mut(place) else {
            return Ok(());
        };
        if name.named.host.as_str() != host {
            return Ok(());
        }
        let (server, port) = (name.named.server, name.named.port);
        let (others, has_own) = others_in(alloc, answer, listen, port)?;
        name.asked = None;
        name.is_known = true;
        let was_failing = name.has_failed;
        name.has_failed = others.is_empty();
        if name.has_failed {
            name.due = now.saturating_add(AGAIN);
            if !was_failing {
                put_name(&mut state.journal, host, words_of(has_own));
            }
        } else {
            name.due = now.saturating_add(answer.life);
            if asked.servers.set(server, &others, port) {
                upstream.forget_away();
                put_name(&mut state.journal, host, "has other addresses than before");
            }
        }
        Ok(())
    }

    // ---- Logins that a server sends on to a name

    /// A login is sent on to this server, whose name is asked first. False where names aren't asked, or it is an
    /// address.
    pub(crate) fn ask_name(
        &mut self,
        role_kind: RoleKind,
        way: Way,
        target: &Target,
    ) -> io::Result<bool> {
        let Some(key) = self.names.link else {
            return Ok(false);
        };
        if target.host.as_str().parse::<IpAddr>().is_ok() {
            return Ok(false);
        }
        let since = self.now();
        let target = Target {
            host: target.host.clone()?,
            port: target.port,
        };
        if let Some(socket) = self.state.sockets.get_mut(key) {
            socket
                .out
                .extend_from_slice(target.host.as_str().as_bytes())?;
            socket.out.push(b'\n')?;
        }
        self.sent.push(Sent {
            role_kind,
            way,
            target,
            since,
        })?;
        self.state.sockets.report(key, News::Turn)?;
        Ok(true)
    }

    /// Those that wait for this name go on.
    fn answer_sent<R: Net>(&mut self, rt: &R, host: &str, answer: &Answer) -> io::Result<()> {
        for _ in 0..self.sent.len() {
            let Some(sent) = self.take_sent(host) else {
                return Ok(());
            };
            self.send_on(rt, sent, answer)?;
        }
        Ok(())
    }

    fn take_sent(&mut self, host: &str) -> Option<Sent> {
        for place in 0..self.sent.len() {
            if self.sent.get(place)?.target.host.as_str() == host {
                return Some(self.sent.remove(place));
            }
        }
        None
    }

    /// A login goes on at these addresses, in order, but for the relay's own.
    fn send_on<R: Net>(&mut self, rt: &R, sent: Sent, answer: &Answer) -> io::Result<()> {
        let (alloc, listen, port) = (self.alloc, self.asked.listen, sent.target.port);
        let (others, _) = others_in(alloc, answer, listen, port)?;
        if others.is_empty() {
            return self.not_sent_on(rt, sent);
        }
        let goals = goals_at(alloc, &others, port)?;
        self.follow_to(rt, sent.role_kind, sent.way, goals)
    }

    /// Gives up those whose name isn't answered.
    fn give_up_sent<R: Net>(&mut self, rt: &R) -> io::Result<()> {
        let now = self.now();
        for _ in 0..self.sent.len() {
            match self.sent.first() {
                Some(first) if now.saturating_sub(first.since) > PATIENCE => {}
                _ => return Ok(()),
            }
            let sent = self.sent.remove(0);
            self.not_sent_on(rt, sent)?;
        }
        Ok(())
    }

    fn not_sent_on<R: Net>(&mut self, rt: &R, sent: Sent) -> io::Result<()> {
        let (host, port) = (sent.target.host.as_str(), sent.target.port);
        let why = format!(in self.alloc;
            "The login is sent on to {host}:{port}: no address of that name is known."
        )?;
        self.not_reached(rt, sent.role_kind, why.as_str())
    }
}

/// Why a name has no address that may be dialed.
fn words_of(has_own: bool) -> &'static str {
    if has_own {
        "has no address but this relay's own"
    } else {
        "has no address"
    }
}
