//! What one direction of a connection was handed, and what came of it.
ghost use Rattle.std.specs.Prelude.{◌≡◌, ◌+◌, OnOk, IsTrue, ◌↔◌};
ghost use Rattle.tds_play.specs.Pipe.{Traffic, no_traffic, sent, carried};
ghost use Rattle.tds_tcp.specs.Flows.{HasRoom};

use crate::past::Past;
use std::alloc::{AllocError, Global};
use std::marker::Model;

/// The most bytes that may be underway in one direction.
pub(crate) const MOST: usize = 8192;

/// One direction of a connection. It keeps counts: the bytes themselves are with the system.
#[derive(Drop)]
pub(crate) struct Flow {
    handed: Past,
    came: Past,
    send_failures: u64,
    carry_failures: u64,
}

impl Model for Flow {
    ghost use Rattle.tds_play.specs.Pipe.{Traffic};

    ghost Value = { Traffic };

    ghost use Rattle.tds_tcp.specs.Flows.{traffic_in};

    ghost view = { traffic_in };
}

impl Flow {
    pub(crate) fn new(alloc: Global) -> Flow
        ensures { result ≡ no_traffic }
    {
        Flow {
            handed: Past::new(alloc),
            came: Past::new(alloc),
            send_failures: 0,
            carry_failures: 0,
        }
    }

    /// Whether so many bytes more may be underway.
    pub(crate) fn has_room(&self, more: usize) -> bool
        ensures { IsTrue result ↔ HasRoom self.now more }
    {
        let underway = self.handed.count().saturating_sub(self.came.count());
        more <= MOST && underway <= MOST - more
    }

    /// Whether a send failed. Nothing is written any more then.
    pub(crate) fn is_shut(&self) -> bool {
        self.send_failures > 0
    }

    /// These bytes are handed over.
    pub(crate) fn hand(&mut self, bytes: &[u8]) -> Result<(), AllocError>
        ensures { OnOk result (self.new ≡ sent self.old bytes.now 0) }
    {
        self.handed.pass(bytes)
    }

    /// These bytes are handed over, and that failed.
    pub(crate) fn hand_in_vain(&mut self, bytes: &[u8]) -> Result<(), AllocError>
        ensures { OnOk result (self.new ≡ sent self.old bytes.now 1) }
    {
        let Some(failures) = self.send_failures.checked_add(1) else {
            return Err(AllocError);
        };
        self.send_failures = failures;
        self.handed.pass(bytes)
    }

    /// These bytes came.
    pub(crate) fn come(&mut self, bytes: &[u8]) -> Result<(), AllocError>
        ensures { OnOk result (self.new ≡ carried self.old bytes.now) }
    {
        self.came.pass(bytes)
    }

    /// Nothing came, and that is a failure.
    pub(crate) fn stick(&mut self) -> Result<(), AllocError>
        ensures { OnOk result (
            self.new ≡ record self.old { carry_failures = self.old.carry_failures + 1 }) }
    {
        let Some(failures) = self.carry_failures.checked_add(1) else {
            return Err(AllocError);
        };
        self.carry_failures = failures;
        Ok(())
    }
}
