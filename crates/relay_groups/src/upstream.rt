//! What became of the servers that were dialed.

use relay_settings::MOST_SERVERS;
use relay_sockets::Cause;
use std::alloc::{AllocError, Global};
use std::net::SocketAddr;

/// The server at which a login failed, and why.
#[derive(Clone, Copy)]
pub struct Failure {
    pub address: SocketAddr,
    pub cause: Cause,
}

impl Failure {
    /// What an application is told.
    pub fn sentence(&self, alloc: Global) -> Result<String, AllocError> {
        format!(in alloc; "The server {} {}.", self.address, self.cause)
    }
}

/// Which servers have failed, and why the last login did.
#[derive(Clone, Copy)]
pub struct Upstream {
    /// For each server that failed, the millisecond up to which another one is preferred.
    pub away: [u64; MOST_SERVERS],
    /// Why a login failed last; and whether no address of a server is known.
    pub failed: Option<Failure>,
    pub is_unnamed: bool,
}

impl Upstream {
    /// None has failed.
    pub fn new() -> Upstream {
        Upstream {
            away: [0; MOST_SERVERS],
            failed: None,
            is_unnamed: false,
        }
    }

    /// A login begins, of which nothing has failed yet.
    pub fn begin(&mut self) {
        self.failed = None;
        self.is_unnamed = false;
    }

    /// A login has failed at this address.
    pub fn fail(&mut self, address: SocketAddr, cause: Cause) {
        self.failed = Some(Failure { address, cause });
    }

    /// The addresses are others than before.
    pub fn forget_away(&mut self) {
        self.away = [0; MOST_SERVERS];
    }

    /// A server has authenticated a login.
    pub fn is_back(&mut self, server: usize) {
        if let Some(until) = self.away.get_mut(server) {
            *until = 0;
        }
    }

    /// Up to this millisecond others are preferred to a server.
    pub fn is_away(&mut self, server: usize, until: u64) {
        if let Some(since) = self.away.get_mut(server) {
            *since = until;
        }
    }

    /// Why the last login failed, as an application is told.
    pub fn sentence(&self, alloc: Global) -> Result<String, AllocError> {
        match self.failed {
            Some(failure) => failure.sentence(alloc),
            None if self.is_unnamed => {
                String::from_str(alloc, "The relay knows no address of its server's name.")
            }
            None => String::from_str(alloc, "The relay has no room for one more connection."),
        }
    }
}
