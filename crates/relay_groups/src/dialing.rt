//! Logins of connections: how each begins, and what the server answers.

use crate::state::{RelayState, relay_of};
use relay_logins::{Dialed, Unfit, Way};
use relay_sockets::{Role, RoleKind};
use relay_status::raise;
use socket_places::Link;
use std::io;
use std::net::SocketAddr;
use tds_packet::PacketSize;
use tds_relay::Mode;

/// How often a login goes to the server that another one has named.
const MOST_HOPS: u8 = 4;

impl RelayState {
    /// Begins the login of a connection on this link. None where it has no group, or no room.
    pub fn begin_login(
        &mut self,
        role_kind: RoleKind,
        way: Way,
        link: Link,
    ) -> io::Result<Option<usize>> {
        let (alloc, now) = (self.alloc, self.now());
        let group = match role_kind {
            RoleKind::First(group)
            | RoleKind::Opening(group, _)
            | RoleKind::Reauthentication(group) => group,
            _ => return Ok(None),
        };
        let mut out = Vec::new(alloc);
        let Some(dial) = self.groups.dial(alloc, group, way, &mut out)? else {
            return Ok(None);
        };
        let role = match role_kind {
            RoleKind::Opening(group, number) => Role::Opening(group, number, dial),
            RoleKind::Reauthentication(group) => Role::Reauthentication(group, dial),
            _ => Role::First(group, dial),
        };
        self.sockets.take_in(link, role, out, now)
    }

    /// This socket is a login's connection from now on, at this address.
    pub fn is_dialed(&mut self, role_kind: RoleKind, key: usize, address: SocketAddr) {
        if let Some(socket) = self.sockets.get_mut(key) {
            socket.dialed = Some(address);
        }
        match role_kind {
            RoleKind::Opening(group, number) => {
                if let Some(relay) = relay_of(&mut self.groups, group) {
                    relay.opening(number, key);
                }
            }
            RoleKind::First(group) => {
                if let Some(group) = self.groups.get_mut(group) {
                    group.asked = None;
                    if let Some(pair) = &mut group.pair {
                        pair.connection = key;
                    }
                }
            }
            _ => {}
        }
    }

    /// How the login of this connection goes on at another server, if it may.
    pub fn way_on(&self, key: usize) -> Option<Way> {
        let dial = self.sockets.get(key)?.dial()?;
        let way = dial.way;
        if dial.has_continuations || way.hops >= MOST_HOPS {
            return None;
        }
        Some(Way {
            hops: way.hops.saturating_add(1),
            ..way
        })
    }

    /// Takes bytes of a login, and gives what is left of them.
    pub fn dial<'a>(&mut self, key: usize, piece: &'a [u8]) -> io::Result<(&'a [u8], Dialed)> {
        let mut rest = piece;
        for _ in 0..piece.len() {
            if rest.is_empty() {
                break;
            }
            let Some(socket) = self.sockets.get_mut(key) else {
                return Ok((&[], Dialed::Wrong(Unfit::NoPackets)));
            };
            let (count, dialed) = match &mut socket.role {
                Role::First(_, dial) => dial.take(rest, &mut socket.out)?,
                Role::Opening(_, _, dial) => dial.take(rest, &mut socket.out)?,
                Role::Reauthentication(_, dial) => dial.take(rest, &mut socket.out)?,
                _ => return Ok((&[], Dialed::Wrong(Unfit::NoPackets))),
            };
            rest = match rest.get(count..) {
                Some(left) => left,
                None => &[],
            };
            match dialed {
                Dialed::More => {}
                dialed => return Ok((rest, dialed)),
            }
        }
        Ok((rest, Dialed::More))
    }

    /// The connection of this number in a group is logged in. The place of its server in the list.
    pub fn is_in(&mut self, key: usize, group: usize, number: u64) -> Option<usize> {
        let now = self.now();
        if let Some(group) = self.groups.get_mut(group) {
            group.authenticated = now;
        }
        let mut server = None;
        if let Some(socket) = self.sockets.get_mut(key) {
            let took = now.saturating_sub(socket.born);
            server = Some(socket.opens(group, number, now));
            self.journal.logins.add(took.saturating_mul(1000));
        }
        raise(&mut self.journal.counts.opened);
        self.say("connection", key, "is opened");
        server
    }

    /// A connection's login was answered so: where its group's applications are parted from theirs, it is watched.
    pub fn watch_in(&mut self, key: usize, group: usize, answer: &[u8]) -> io::Result<()> {
        let RelayState {
            sockets,
            groups,
            ..
        } = self;
        match groups.get_mut(group) {
            Some(group) if group.mode == Mode::Transactions => {
                group.watched.add(sockets, key)?;
                Ok(sockets.begin_watching(key, answer)?)
            }
            _ => Ok(()),
        }
    }

    /// Whether a group's packets have this size.
    pub fn has_size(&self, group: usize, size: PacketSize) -> bool {
        match self.groups.get(group) {
            Some(group) => group.size.get() == size.get(),
            None => false,
        }
    }
}
