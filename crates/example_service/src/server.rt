//! The servers, one at the other end of each connection.

use crate::wire::Socket;
use anyhow::{Context, bail};
use std::alloc::Global;
use tds_ends::ServerEnd;
use tds_packet::PacketSize;
use tds_server::Worked;
use tds_session::ScriptEngine;

/// A packet of an answer, with a DONE alone (MS-TDS 2.2.3.1, 2.2.7.6).
const UNASKED: [u8; 21] = [
    4, 1, 0, 21, 0, 0, 1, 0, 0xFD, 0, 0, 0, 0, 0, 0, 0, 0, 0, 0, 0, 0,
];

#[derive(Drop)]
pub struct Server {
    end: ServerEnd<ScriptEngine>,
}

impl Server {
    pub fn new(rt: &HostRuntime) -> anyhow::Result<Server> {
        let size = PacketSize::new(512).context("no packet size")?;
        Ok(Server {
            end: ServerEnd::new(rt.alloc(), ScriptEngine, size),
        })
    }

    /// Takes all that has come, and answers it. How many requests were answered.
    pub fn serve(&mut self, alloc: Global, socket: &mut Socket) -> anyhow::Result<usize> {
        let mut buffer = [0u8; 512];
        let mut answered = 0usize;
        for _ in 0..u64::MAX {
            let count = socket.read(&mut buffer)?;
            if count == 0 {
                return Ok(answered);
            }
            let mut reply = Vec::new(alloc);
            let piece = buffer.get(..count).context("more than there is room for")?;
            if let Some(stop) = self.end.serve(piece, &mut reply).stop {
                bail!("{stop:?}");
            }
            answered = answered.saturating_add(self.work(&mut reply)?);
            socket.send(&reply)?;
        }
        bail!("no end")
    }

    /// Does what is asked of it. How many answers were finished.
    fn work(&mut self, reply: &mut Vec<u8>) -> anyhow::Result<usize> {
        let mut finished = 0usize;
        for _ in 0..u64::MAX {
            match self.end.work(reply)? {
                Worked::Step => {}
                Worked::Finished => finished = finished.saturating_add(1),
                Worked::Idle => break,
            }
        }
        Ok(finished)
    }
}

/// A server answers though nobody asked.
pub fn lie(socket: &mut Socket) -> anyhow::Result<()> {
    socket.send(&UNASKED)
}
