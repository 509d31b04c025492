//! What a judge finds of the links on both sides, where judging is asked for.

use crate::counts::raise;
use std::alloc::Global;
use std::io;
use tds_judge::{Direction, Finding, Judge, Level, Limits};
use tds_wire::Features;

/// The most findings of a link that are told: all are counted.
const MOST_TOLD: u32 = 16;

/// Who did what was found.
#[derive(Clone, Copy)]
pub enum Blamed {
    Application,
    Server,
    Relay,
}

impl Blamed {
    pub fn words(self) -> &'static str {
        match self {
            Blamed::Application => "application",
            Blamed::Server => "server",
            Blamed::Relay => "relay",
        }
    }
}

/// How many findings there were of whom. Notes aren't counted.
#[derive(Clone, Copy)]
pub struct Found {
    pub applications: u64,
    pub servers: u64,
    pub relay: u64,
}

impl Found {
    pub const fn none() -> Found {
        Found {
            applications: 0,
            servers: 0,
            relay: 0,
        }
    }

    /// One more.
    pub fn add(&mut self, blamed: Blamed) {
        match blamed {
            Blamed::Application => raise(&mut self.applications),
            Blamed::Server => raise(&mut self.servers),
            Blamed::Relay => raise(&mut self.relay),
        }
    }
}

/// The judge of a link, which is an application's or a server's.
#[derive(Drop)]
pub struct Judged {
    judge: Judge,
    is_application: bool,
    told: u32,
}

impl Judged {
    /// A judge of a link of which nothing was seen, whose login acknowledges these features.
    pub fn new(alloc: Global, features: Features, is_application: bool) -> io::Result<Judged> {
        let limits = Limits {
            idle: 0,
            columns: 4096,
            features,
        };
        Ok(Judged {
            judge: Judge::new(alloc, limits)?,
            is_application,
            told: 0,
        })
    }

    /// These bytes came in, or went out, in this microsecond. What is found is appended.
    pub fn take(
        &mut self,
        is_in: bool,
        time: u64,
        bytes: &[u8],
        findings: &mut Vec<Finding>,
    ) -> io::Result<()> {
        let direction = if is_in == self.is_application {
            Direction::ToServer
        } else {
            Direction::ToClient
        };
        match self.judge.take(direction, time, bytes, findings) {
            Ok(()) => Ok(()),
            Err(_) => Err(io::Error::from(io::ErrorKind::OutOfMemory)),
        }
    }

    /// The link has ended. Of a server's nothing is found by that: the relay closes it when it likes.
    pub fn close(&mut self, time: u64, findings: &mut Vec<Finding>) -> io::Result<()> {
        if self.is_application {
            self.judge.close(time, findings)?;
        }
        Ok(())
    }

    /// Who did it. Nobody, where the relay handed on to an application what a server said, since it is found
    /// on the server's link; where the relay takes a risk on purpose, as a reset that ends what an application
    /// has left; and where it is worth knowing alone.
    pub fn blamed(&self, finding: &Finding) -> Option<Blamed> {
        let level = finding.name.level();
        if level == Level::Note {
            return None;
        }
        match (self.is_application, finding.spot.direction) {
            (true, Direction::ToServer) => Some(Blamed::Application),
            (true, Direction::ToClient) => None,
            (false, Direction::ToClient) => Some(Blamed::Server),
            (false, Direction::ToServer) => {
                if level == Level::Breach {
                    Some(Blamed::Relay)
                } else {
                    None
                }
            }
        }
    }

    /// Whether one more finding of this link is told.
    pub fn is_told(&mut self) -> bool {
        self.told = self.told.saturating_add(1);
        self.told <= MOST_TOLD
    }
}
