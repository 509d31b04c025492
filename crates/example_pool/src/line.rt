//! A connection in memory: the reader of what its client hears, and the server behind it.

use anyhow::{Context, bail};
use std::alloc::Global;
use tds_client::Sent;
use tds_ends::ServerEnd;
use tds_packet::{Direction, Kind, PacketReader, PacketSize};
use tds_pool::Pool;
use tds_server::Worked;
use tds_session::ScriptEngine;
use tds_token::Token;

#[derive(Drop)]
pub struct Line {
    reader: PacketReader,
    server: ServerEnd<ScriptEngine>,
}

impl Line {
    pub fn new(alloc: Global, size: PacketSize) -> anyhow::Result<Line> {
        let server = ServerEnd::new(alloc, ScriptEngine, size);
        let reader = PacketReader::new(alloc, size, Direction::ToClient)?;
        Ok(Line { reader, server })
    }

    /// Takes what a connection has to send to the server, and its answer back: by its number, so
    /// that one that is being cleaned is carried too.
    pub fn carry(
        &mut self,
        alloc: Global,
        pool: &mut Pool,
        number: u32,
    ) -> anyhow::Result<Vec<Token>> {
        let mut out = Vec::new(alloc);
        for _ in 0..u64::MAX {
            match pool.send(number, &mut out).context("no such connection")? {
                Ok(Sent::More) => {}
                Ok(Sent::Last) => break,
                Err(refusal) => bail!("not sent: {refusal:?}"),
            }
        }
        let reply = self.answer(alloc, &out)?;
        let mut told = Vec::new(alloc);
        let mut rest: &[u8] = &reply;
        for _ in 0..u64::MAX {
            let Ok(taken) = self.reader.feed(rest) else {
                bail!("a faulty header");
            };
            rest = rest.get(taken..).context("more than came")?;
            if !self.hear(pool, number, &mut told)? {
                break;
            }
        }
        Ok(told)
    }

    /// What the server answers.
    fn answer(&mut self, alloc: Global, asked: &[u8]) -> anyhow::Result<Vec<u8>> {
        let mut reply = Vec::new(alloc);
        if let Some(stop) = self.server.serve(asked, &mut reply).stop {
            bail!("{stop:?}");
        }
        for _ in 0..u64::MAX {
            match self.server.work(&mut reply)? {
                Worked::Step => {}
                Worked::Finished => {}
                Worked::Idle => break,
            }
        }
        Ok(reply)
    }

    /// Takes the packet that has come. Answers whether there was one.
    fn hear(
        &mut self,
        pool: &mut Pool,
        number: u32,
        told: &mut Vec<Token>,
    ) -> anyhow::Result<bool> {
        let Some(packet) = self.reader.packet() else {
            return Ok(false);
        };
        if packet.header.kind != Kind::Answer {
            bail!("no answer");
        }
        match pool
            .take(number, packet, told)
            .context("no such connection")?
        {
            Ok(_) => {}
            Err(fault) => bail!("{fault:?}"),
        }
        self.reader.done();
        Ok(true)
    }
}
