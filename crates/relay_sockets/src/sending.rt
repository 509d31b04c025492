//! What is read of a socket, and sent.

use crate::ending::Cause;
use crate::link::{Came, Failed};
use crate::role::Role;
use crate::socket::Socket;
use relay_settings::SystemError;
use std::io;
use tds_judge::Finding;

impl Socket {
    /// It has failed, and this is why.
    fn fail(&mut self, error: io::Error) -> Failed {
        self.cause = Some(Cause::Failed(SystemError::new(error)));
        Failed
    }

    /// Reads once, with room for a byte at least.
    pub fn read(&mut self, buffer: &mut [u8]) -> Came {
        match self.link.read(buffer) {
            Ok(came) => came,
            Err(error) => {
                let _ = self.fail(error);
                Came::Failed
            }
        }
    }

    /// Sends what the system takes of these bytes, and answers how many.
    pub fn send(
        &mut self,
        bytes: &[u8],
        time: u64,
        findings: &mut Vec<Finding>,
    ) -> Result<usize, Failed> {
        let count = match self.link.send(bytes) {
            Ok(count) => count.min(bytes.len()),
            Err(error) => return Err(self.fail(error)),
        };
        if self.is_read_along() {
            self.read_sent(&bytes[..count], time, findings)?;
        }
        Ok(count)
    }

    /// These bytes were sent: they are read where it is watched, and judged where that is asked for.
    fn read_sent(
        &mut self,
        bytes: &[u8],
        time: u64,
        findings: &mut Vec<Finding>,
    ) -> Result<(), Failed> {
        if let Some(watch) = &mut self.watch {
            watch.sent(bytes);
        }
        self.judge_sent(bytes, time, findings)
    }

    fn judge_sent(
        &mut self,
        bytes: &[u8],
        time: u64,
        findings: &mut Vec<Finding>,
    ) -> Result<(), Failed> {
        let Some(judged) = &mut self.judged else {
            return Ok(());
        };
        match judged.take(false, time, bytes, findings) {
            Ok(()) => Ok(()),
            Err(error) => Err(self.fail(error)),
        }
    }

    /// Whether there may be something to be sent, or it is to be closed once there is nothing. What its relay has
    /// for an application or a connection is sent as the relay orders it, so only what the system didn't take
    /// then is left.
    pub fn has_to_send(&self) -> bool {
        match &self.role {
            Role::Application(_) | Role::Connection(_) => self.is_behind || !self.out.is_empty(),
            _ => true,
        }
    }

    /// Whether what comes of it is read by others than its relay.
    pub fn is_read_along(&self) -> bool {
        self.watch.is_some() || self.judged.is_some()
    }

    /// Sends what the system takes of what a login has to say. Whether that is all.
    pub fn send_out(&mut self, time: u64, findings: &mut Vec<Finding>) -> Result<bool, Failed> {
        if self.out.is_empty() {
            return Ok(true);
        }
        match self.send_some_out(time, findings) {
            Ok(is_all) => Ok(is_all),
            Err(error) => Err(self.fail(error)),
        }
    }

    fn send_some_out(&mut self, time: u64, findings: &mut Vec<Finding>) -> io::Result<bool> {
        let Socket {
            link,
            out,
            judged,
            ..
        } = self;
        let count = link.send(out.as_slice())?.min(out.len());
        if let Some(judged) = judged {
            judged.take(false, time, &out[..count], findings)?;
        }
        let left = out.len() - count;
        out.copy_within(count.., 0);
        out.truncate(left);
        Ok(left == 0)
    }
}
