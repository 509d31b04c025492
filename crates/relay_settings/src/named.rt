//! Servers that are named.

use std::alloc::{AllocError, Global};

/// The most bytes of a host's name.
const MOST: usize = 253;

/// A server's name and its port.
#[derive(Debug, Drop)]
pub struct Named {
    /// Which one of the servers it is.
    pub server: usize,
    pub host: String,
    pub port: u16,
}

/// The name and the port that an argument gives to a server: letters, digits, dots, dashes and lines, then a colon and a
/// port. None where it isn't so.
pub fn named_by(alloc: Global, server: usize, argument: &str) -> Result<Option<Named>, AllocError> {
    let Some((host, port)) = argument.rsplit_once(':') else {
        return Ok(None);
    };
    let Ok(port) = port.parse::<u16>() else {
        return Ok(None);
    };
    if port == 0 || !is_host(host.as_bytes()) {
        return Ok(None);
    }
    Ok(Some(Named {
        server,
        host: String::from_str(alloc, host)?,
        port,
    }))
}

fn is_host(host: &[u8]) -> bool {
    for byte in host {
        if !byte.is_ascii_alphanumeric() && !matches!(*byte, b'.' | b'-' | b'_') {
            return false;
        }
    }
    !host.is_empty() && host.len() <= MOST
}
