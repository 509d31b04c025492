//! Where an argument says to listen.

use crate::fault::ServeFault;
use socket_places::Place;
use std::alloc::{AllocError, Global};
use std::net::{HostAddrs, SocketAddr, ToSocketAddrs};

/// What an argument without a port is told.
const NO_PORT: &str =
    "has no port: an IP address or a machine's name, a colon and a port, as 127.0.0.1:1433";

/// What stands before the path of a Unix socket.
const UNIX: &str = "unix:";

/// Where an argument says to listen: a Unix socket by `unix:` and its path, else an address.
pub fn find_place(
    rt: &HostRuntime,
    argument: &str,
    lets_others_in: bool,
) -> Result<Place, ServeFault> {
    match argument.strip_prefix(UNIX) {
        Some("") => Err(wrong(rt.alloc(), argument, "has no path behind unix:")?),
        Some(path) => Ok(Place::Unix(String::from_str(rt.alloc(), path)?)),
        None => Ok(Place::Tcp(find_address(rt, argument, lets_others_in)?)),
    }
}

/// The address that an argument stands for: an IP address or a name, a colon and a port. Where others
/// aren't let in, it is to be this machine's own.
fn find_address(
    rt: &HostRuntime,
    argument: &str,
    lets_others_in: bool,
) -> Result<SocketAddr, ServeFault> {
    let address = match argument.parse::<SocketAddr>() {
        Ok(address) => address,
        Err(_) => named_address(rt, argument)?,
    };
    if address.ip().is_loopback() || lets_others_in {
        Ok(address)
    } else {
        Err(ServeFault::NotOwn(String::from_str(rt.alloc(), argument)?))
    }
}

/// The address of a name, a colon and a port.
fn named_address(rt: &HostRuntime, argument: &str) -> Result<SocketAddr, ServeFault> {
    let alloc = rt.alloc();
    let Some((host, port)) = argument.rsplit_once(':') else {
        return Err(wrong(alloc, argument, NO_PORT)?);
    };
    let Ok(port) = port.parse::<u16>() else {
        return Err(wrong(
            alloc,
            argument,
            "has no port from 0 to 65535 behind its last colon",
        )?);
    };
    if host.is_empty() {
        return Err(wrong(alloc, argument, "has nothing before its colon")?);
    }
    match (host, port).to_socket_addrs(rt) {
        Ok(found) => match first_of(found) {
            Some(address) => Ok(address),
            None => Err(wrong(alloc, argument, "names a machine that has no IP address")?),
        },
        Err(error) => {
            let why = format!(in alloc; "names a machine that isn't found: {error}")?;
            Err(wrong(alloc, argument, why.as_str())?)
        }
    }
}

/// Of the addresses of a name the first of IP 4, which every client can reach; else the first.
fn first_of(found: HostAddrs) -> Option<SocketAddr> {
    let mut first = None;
    for address in found {
        if address.is_ipv4() {
            return Some(address);
        }
        if first.is_none() {
            first = Some(address);
        }
    }
    first
}

/// The fault of an argument that stands for no address.
fn wrong(alloc: Global, argument: &str, why: &str) -> Result<ServeFault, AllocError> {
    let argument = String::from_str(alloc, argument)?;
    Ok(ServeFault::Address(argument, String::from_str(alloc, why)?))
}
