//! The servers, the preferred one first. One that is named has the addresses that its name has now.

use std::net::{IpAddr, SocketAddr};

/// The most servers, the most addresses of one, and of all.
const WORDS: usize = 8;

const EACH: usize = 4;

pub const MOST: usize = 32;

/// The addresses of the servers, in order: some places for each.
#[derive(Clone, Copy)]
pub struct Servers {
    list: [Option<SocketAddr>; MOST],
    count: usize,
}

/// The server that has this place among all addresses.
pub fn server_of(place: usize) -> usize {
    place / EACH
}

impl Servers {
    pub fn none() -> Servers {
        Servers {
            list: [None; MOST],
            count: 0,
        }
    }

    /// One more, whose address isn't known yet. None where there are as many as may be.
    pub fn add(&mut self) -> Option<usize> {
        if self.count >= WORDS {
            return None;
        }
        let server = self.count;
        self.count = server.saturating_add(1);
        Some(server)
    }

    /// A server has these addresses from now on, at this port; further ones are left out. Whether it had others.
    pub fn set(&mut self, server: usize, addresses: &[IpAddr], port: u16) -> bool {
        let mut has_changed = false;
        let first = server.saturating_mul(EACH);
        for (at, place) in self.list.iter_mut().enumerate() {
            if at >= first && server_of(at) == server {
                let found = match addresses.get(at - first) {
                    Some(address) => Some(SocketAddr::new(*address, port)),
                    None => None,
                };
                has_changed = has_changed || *place != found;
                *place = found;
            }
        }
        has_changed
    }

    /// The address at this place.
    pub fn at(&self, place: usize) -> Option<SocketAddr> {
        match self.list.get(place) {
            Some(found) => *found,
            None => None,
        }
    }

    /// How many there are.
    pub fn count(&self) -> u64 {
        let mut count: u64 = 0;
        for place in self.list.iter() {
            if place.is_some() {
                count = count.saturating_add(1);
            }
        }
        count
    }

    /// The first one that wasn't tried and isn't away; else the first one that wasn't tried.
    pub fn next(&self, tried: u32, away: &[u64; MOST], now: u64) -> Option<usize> {
        let mut late = None;
        for (place, found) in self.list.iter().enumerate() {
            if found.is_none() || tried & bit(place) != 0 {
                continue;
            }
            match away.get(place) {
                Some(until) if *until > now => {
                    if late.is_none() {
                        late = Some(place);
                    }
                }
                _ => return Some(place),
            }
        }
        late
    }
}

/// The bit of a place in the list.
pub fn bit(place: usize) -> u32 {
    1u32.wrapping_shl((place % MOST) as u32)
}
