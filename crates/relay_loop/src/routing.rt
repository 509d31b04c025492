//! Logins that a server sends on to another one, which may have several addresses.

use crate::event_loop::EventLoop;
use relay_logins::{Target, Way};
use relay_settings::is_reached_at;
use relay_sockets::RoleKind;
use relay_status::raise;
use std::alloc::{AllocError, Global};
use std::io;
use std::net::{IpAddr, Ipv4Addr, Net, SocketAddr};

/// The most addresses of a name.
const MOST: usize = 4;

/// Where a login goes on if its socket, which has this key, fails: these addresses are left, in order.
#[derive(Drop)]
pub struct Route {
    key: usize,
    goals: Vec<SocketAddr>,
}

impl EventLoop {
    /// A login goes on at the first one of these addresses; where that fails, at the next one.
    pub(crate) fn follow_to<R: Net>(
        &mut self,
        rt: &R,
        role_kind: RoleKind,
        way: Way,
        goals: Vec<SocketAddr>,
    ) -> io::Result<()> {
        raise(&mut self.state.journal.counts.routed);
        self.upstream.begin();
        if self.follow_next(rt, role_kind, way, goals)? {
            return Ok(());
        }
        self.missed(rt, role_kind)
    }

    /// Connects to the first one of these addresses that can be connected to. False where none can.
    fn follow_next<R: Net>(
        &mut self,
        rt: &R,
        role_kind: RoleKind,
        way: Way,
        goals: Vec<SocketAddr>,
    ) -> io::Result<bool> {
        let mut goals = goals;
        for _ in 0..MOST {
            let Some(address) = goals.first().copied() else {
                return Ok(false);
            };
            let _ = goals.remove(0);
            if let Some(key) = self.connect(rt, role_kind, way, address)? {
                self.keep_route(key, goals)?;
                return Ok(true);
            }
        }
        Ok(false)
    }

    /// Where a login goes on if this socket fails. Those of sockets that are gone are forgotten.
    fn keep_route(&mut self, key: usize, goals: Vec<SocketAddr>) -> Result<(), AllocError> {
        for _ in 0..self.routes.len() {
            if self.take_gone().is_none() {
                break;
            }
        }
        if !goals.is_empty() {
            self.routes.push(Route { key, goals })?;
        }
        Ok(())
    }

    /// Takes out the first one whose socket is gone.
    fn take_gone(&mut self) -> Option<Route> {
        for place in 0..self.routes.len() {
            let key = self.routes.get(place)?.key;
            if self.state.sockets.get(key).is_none() {
                return Some(self.routes.remove(place));
            }
        }
        None
    }

    /// Takes out where a login goes on if the socket of this key fails.
    fn take_route(&mut self, key: usize) -> Option<Route> {
        for place in 0..self.routes.len() {
            if self.routes.get(place)?.key == key {
                return Some(self.routes.remove(place));
            }
        }
        None
    }

    /// A login's socket of this key has failed: it goes on at the next address of the server that it was sent on to.
    /// False where there is none.
    pub(crate) fn follow_on<R: Net>(
        &mut self,
        rt: &R,
        key: usize,
        role_kind: RoleKind,
        way: Way,
    ) -> io::Result<bool> {
        match self.take_route(key) {
            Some(route) => self.follow_next(rt, role_kind, way, route.goals),
            None => Ok(false),
        }
    }

    /// The addresses of a server that is named, but for the relay's own; and whether one is its own. The system's
    /// resolver is asked for them, where it is no address.
    pub(crate) fn goals_of<R: Net>(
        &self,
        rt: &R,
        target: &Target,
    ) -> Result<(Vec<SocketAddr>, bool), AllocError> {
        let mut found = [SocketAddr::new(IpAddr::V4(Ipv4Addr::UNSPECIFIED), 0); MOST];
        let (host, port) = (target.host.as_str(), target.port);
        let mut count = 0;
        if let Ok(address) = host.parse::<IpAddr>() {
            found[0] = SocketAddr::new(address, port);
            count = 1;
        } else if let Ok(known) = rt.lookup_host(host, port, &mut found) {
            count = known;
        }
        let (mut goals, mut has_own) = (Vec::new(self.alloc), false);
        for (address, _) in found.iter().zip(0..count) {
            if is_reached_at(self.asked.listen, *address) {
                has_own = true;
            } else {
                goals.push(*address)?;
            }
        }
        Ok((goals, has_own))
    }
}

/// These addresses at this port.
pub(crate) fn goals_at(
    alloc: Global,
    addresses: &[IpAddr],
    port: u16,
) -> Result<Vec<SocketAddr>, AllocError> {
    let mut goals = Vec::new(alloc);
    for address in addresses {
        goals.push(SocketAddr::new(*address, port))?;
    }
    Ok(goals)
}
