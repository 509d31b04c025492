//! Which server is dialed for a login.

use crate::event_loop::EventLoop;
use mio::net::TcpStream;
use relay_groups::put_away;
use relay_logins::{Target, Way};
use relay_settings::{MOST_SERVERS, SystemError, bit};
use relay_sockets::{Cause, RoleKind};
use relay_status::raise;
use socket_places::Link;
use std::io;
use std::net::{Net, SocketAddr};

/// Why a login isn't sent on.
const TOO_OFTEN: &str =
    "a login is sent on four times at most, and not behind a continuation of it";

const OWN: &str = "that is this relay itself";

const UNKNOWN: &str = "the system's resolver knows no such name";

impl EventLoop {
    /// Dials for this login the preferred one of the servers that weren't tried. False where there is none.
    pub(crate) fn reach<R: Net>(
        &mut self,
        rt: &R,
        role_kind: RoleKind,
        tried: u32,
    ) -> io::Result<bool> {
        let mut tried = tried;
        for _ in 0..MOST_SERVERS {
            let servers = self.asked.servers;
            let Some(place) = servers.next(tried, &self.upstream.away, self.now()) else {
                self.upstream.is_unnamed = tried == 0;
                return Ok(false);
            };
            let Some(address) = servers.at(place) else {
                return Ok(false);
            };
            tried |= bit(place);
            let way = Way {
                server: place,
                tried,
                hops: 0,
            };
            if self.connect(rt, role_kind, way, address)?.is_some() {
                return Ok(true);
            }
        }
        Ok(false)
    }

    /// Connects there, and begins the login. Answers the socket's key, or none where it can't.
    pub(crate) fn connect<R: Net>(
        &mut self,
        rt: &R,
        role_kind: RoleKind,
        way: Way,
        address: SocketAddr,
    ) -> io::Result<Option<usize>> {
        let stream = match connected(rt, self.asked.listen, address) {
            Ok(stream) => stream,
            Err(cause) => {
                self.upstream.fail(address, cause);
                self.went_away(way, cause);
                return Ok(None);
            }
        };
        let link = Link::Tcp(stream);
        let Some(key) = self.state.begin_login(role_kind, way, link)? else {
            return Ok(None);
        };
        self.state.is_dialed(role_kind, key, address);
        raise(&mut self.state.journal.counts.dialed);
        self.state.say_dialed(key, address);
        Ok(Some(key))
    }

    /// A server has failed: for some seconds others are preferred.
    pub(crate) fn went_away(&mut self, way: Way, cause: Cause) {
        if way.hops > 0 {
            return;
        }
        raise(&mut self.state.journal.counts.away);
        let seconds = self.asked.limits.away;
        let until = self.now().saturating_add(seconds.saturating_mul(1000));
        self.upstream.is_away(way.server, until);
        if let Some(address) = self.asked.servers.at(way.server) {
            put_away(&mut self.state.journal, address, cause);
        }
    }

    /// The server says that a login is to go to another one, and so it does.
    pub(crate) fn follow<R: Net>(
        &mut self,
        rt: &R,
        key: usize,
        role_kind: RoleKind,
        target: &Target,
    ) -> io::Result<()> {
        let (host, port) = (target.host.as_str(), target.port);
        let named = format!(in self.alloc; "{host}:{port}")?;
        self.state.say_of("connection", key, "is told another server,", named.as_str());
        let way = self.state.way_on(key);
        let _ = self.state.take_out(key)?;
        if let Some(way) = way {
            if self.ask_name(role_kind, way, target)? {
                return Ok(());
            }
        }
        let Some(way) = way else {
            return self.not_sent(rt, role_kind, named.as_str(), TOO_OFTEN);
        };
        let (goals, has_own) = self.goals_of(rt, target)?;
        if !goals.is_empty() {
            return self.follow_to(rt, role_kind, way, goals);
        }
        self.not_sent(
            rt,
            role_kind,
            named.as_str(),
            if has_own { OWN } else { UNKNOWN },
        )
    }

    /// A login isn't sent on to this server, and this is why.
    fn not_sent<R: Net>(
        &mut self,
        rt: &R,
        role_kind: RoleKind,
        named: &str,
        why: &str,
    ) -> io::Result<()> {
        let why = format!(in self.alloc; "The login is sent on to {named}: {why}.")?;
        self.not_reached(rt, role_kind, why.as_str())
    }

    /// No server was reached for this login: why is what became of the last one.
    pub(crate) fn missed<R: Net>(&mut self, rt: &R, role_kind: RoleKind) -> io::Result<()> {
        match role_kind {
            RoleKind::First(group) => self.fail_to_authenticate(group),
            RoleKind::Opening(group, number) => {
                self.fail_to_open(group, number)?;
                self.obey(rt, group)
            }
            _ => Ok(()),
        }
    }

    /// No server was reached for this login, and this is why.
    pub(crate) fn not_reached<R: Net>(
        &mut self,
        rt: &R,
        role_kind: RoleKind,
        why: &str,
    ) -> io::Result<()> {
        match role_kind {
            RoleKind::First(group) => self.state.not_authenticated(group, why),
            RoleKind::Opening(group, number) => {
                self.state.not_opened(group, number, why)?;
                self.obey(rt, group)
            }
            _ => Ok(()),
        }
    }
}

/// Connects there, but where that is the relay itself: who connects to an address of the own machine comes from
/// that address.
fn connected<R: Net>(rt: &R, listen: SocketAddr, address: SocketAddr) -> Result<TcpStream, Cause> {
    let stream = match TcpStream::connect(rt, address) {
        Ok(stream) => stream,
        Err(error) => return Err(Cause::Failed(SystemError::new(error))),
    };
    if listen.ip().is_unspecified() && listen.port() == address.port() {
        if let Ok(own) = stream.local_addr() {
            if own.ip().to_canonical() == address.ip().to_canonical() {
                return Err(Cause::Wrong("is this relay itself"));
            }
        }
    }
    Ok(stream)
}
