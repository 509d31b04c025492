//! Proxies that say for whom they come.

use std::net::{IpAddr, SocketAddr};

/// The most proxies.
const MOST: usize = 4;

/// The addresses from which a connection begins with the header of the PROXY protocol.
#[derive(Clone, Copy)]
pub struct Proxies {
    list: [Option<IpAddr>; MOST],
}

impl Proxies {
    pub fn none() -> Proxies {
        Proxies { list: [None; MOST] }
    }

    /// Those of this text, with commas between them; none where it is no such text.
    pub fn read(text: &str) -> Option<Proxies> {
        let mut proxies = Proxies::none();
        for word in text.split(',') {
            match word.trim().parse::<IpAddr>() {
                Ok(address) if proxies.add(address) => {}
                _ => return None,
            }
        }
        Some(proxies)
    }

    /// One more. False where there are as many as may be.
    fn add(&mut self, address: IpAddr) -> bool {
        for place in self.list.iter_mut() {
            if place.is_none() {
                *place = Some(address.to_canonical());
                return true;
            }
        }
        false
    }

    /// Whether who comes from there is one of them.
    pub fn has(&self, from: Option<SocketAddr>) -> bool {
        let Some(from) = from else {
            return false;
        };
        let from = from.ip().to_canonical();
        for place in self.list.iter() {
            if matches!(place, Some(proxy) if *proxy == from) {
                return true;
            }
        }
        false
    }
}
