//! Who is behind a connection.
ghost use Rattle.std.specs.Prelude.{◌≡◌};
ghost use Rattle.proxy_header.specs.Address.{IsAddressOf};

use std::net::{IpAddr, Ipv4Addr, Ipv6Addr, SocketAddr};

/// Who is behind a connection, by its header.
#[derive(Clone, Copy, Debug, PartialEq, Eq)]
pub enum Source {
    /// It isn't said: the proxy's own connection (LOCAL), or one of a family without addresses of IP.
    Unsaid,
    /// A client's address of IPv4, and its port.
    V4([u8; 4], u16),
    /// One of IPv6.
    V6([u8; 16], u16),
}

impl Source {
    /// The client's address, where it is said.
    pub fn address(&self) -> Option<SocketAddr>
        ensures { IsAddressOf self.now result }
    {
        match *self {
            Source::Unsaid => None,
            Source::V4(octets, port) => {
                Some(SocketAddr::new(IpAddr::V4(Ipv4Addr::from_octets(octets)), port))
            }
            Source::V6(octets, port) => {
                Some(SocketAddr::new(IpAddr::V6(Ipv6Addr::from_octets(octets)), port))
            }
        }
    }
}
