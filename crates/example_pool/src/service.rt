//! The service: its pool, and its callers with their leases.

use crate::line::Line;
use anyhow::{Context, bail};
use slab::Slab;
use std::alloc::Global;
use tds_packet::PacketSize;
use tds_pool::{GivenBack, Opened, Pool, StoredLease};
use tds_request::{BatchText, Isolation, Request};
use tds_token::Token;

/// A caller: its name, and its lease; none while it waits.
#[derive(Debug, Drop)]
struct Caller {
    name: &'static str,
    lease: Option<StoredLease>,
}

#[derive(Drop)]
pub struct Service {
    alloc: Global,
    size: PacketSize,
    pool: Pool,
    callers: Slab<Caller>,
    /// The line of connection 1, then that of connection 2, and so on.
    lines: Vec<Line>,
}

impl Service {
    pub fn new(rt: &HostRuntime, max: u16) -> anyhow::Result<Service> {
        let alloc = rt.alloc();
        let size = PacketSize::new(512).context("no packet size")?;
        Ok(Service {
            alloc,
            size,
            pool: Pool::wide(alloc, max, size).context("1 to 1,024 connections")?,
            callers: Slab::new(alloc),
            lines: Vec::new(alloc),
        })
    }

    /// A caller comes, and waits until a connection is free.
    pub fn arrive(&mut self, rt: &HostRuntime, name: &'static str) -> anyhow::Result<usize> {
        let Ok(key) = self.callers.insert(Caller { name, lease: None }) else {
            bail!("no memory");
        };
        self.serve(rt)?;
        Ok(key)
    }

    /// Lends connections to those who wait, while the pool can lend one.
    fn serve(&mut self, rt: &HostRuntime) -> anyhow::Result<()> {
        for _ in 0..u64::MAX {
            let Some(key) = self.next_waiting() else {
                return Ok(());
            };
            if !self.pool.can_lend() {
                println!(rt; "  all connections are in use")?;
                return Ok(());
            }
            let caller = self.callers.get_mut(key).context("no such caller")?;
            let opened = match self.pool.lease(self.alloc) {
                Ok((lease, opened)) => {
                    caller.lease = Some(lease.store());
                    opened
                }
                Err(refusal) => bail!("no lease: {refusal:?}"),
            };
            println!(rt; "{} has {opened:?}", caller.name)?;
            if let Opened::New(_) = opened {
                self.lines.push(Line::new(self.alloc, self.size)?)?;
            }
        }
        Ok(())
    }

    /// The key of a caller that waits.
    fn next_waiting(&self) -> Option<usize> {
        for (key, caller) in self.callers.iter() {
            if caller.lease.is_none() {
                return Some(key);
            }
        }
        None
    }

    pub fn begin(&mut self, rt: &HostRuntime, key: usize) -> anyhow::Result<()> {
        let level = Isolation::new(0).context("no isolation level")?;
        self.ask(rt, key, Request::Begin(level))
    }

    pub fn commit(&mut self, rt: &HostRuntime, key: usize) -> anyhow::Result<()> {
        self.ask(rt, key, Request::Commit(None))
    }

    /// A caller asks on its connection.
    fn ask(&mut self, rt: &HostRuntime, key: usize, request: Request) -> anyhow::Result<()> {
        let caller = self.callers.get(key).context("no such caller")?;
        let lease = caller.lease.as_ref().context("it waits")?;
        let client = self
            .pool
            .stored_client_mut(lease)
            .context("an unknown lease")?;
        if client.start(&request).is_err() {
            bail!("a request is underway");
        }
        println!(rt; "{} asks {request:?}", caller.name)?;
        let number = lease.number();
        self.carry(rt, number)
    }

    /// Takes what a connection has to send to its server, and the answer back.
    fn carry(&mut self, rt: &HostRuntime, number: u32) -> anyhow::Result<()> {
        let place = usize::try_from(number)?.wrapping_sub(1);
        let line = self.lines.get_mut(place).context("no such line")?;
        let told = line.carry(self.alloc, &mut self.pool, number)?;
        for token in &told {
            if let Token::Error(message) = token {
                println!(rt; "  error {}", message.number)?;
            }
        }
        let client = self.pool.get(number).context("no such connection")?;
        let transaction = client.descriptor();
        println!(rt; "  {} tokens, transaction {transaction}", told.len())?;
        Ok(())
    }

    /// A caller goes: its lease is claimed and given back.
    pub fn leave(&mut self, rt: &HostRuntime, key: usize) -> anyhow::Result<()> {
        let caller = self.callers.try_remove(key).context("no such caller")?;
        println!(rt; "{} goes", caller.name)?;
        let stored = caller.lease.context("it waited")?;
        let lease = match self.pool.claim(stored) {
            Ok(lease) => lease,
            Err((_, refusal)) => bail!("not claimed: {refusal:?}"),
        };
        match self.pool.give_back(lease, &mut Vec::new(self.alloc)) {
            Ok(GivenBack::Free(number)) => self.clean(rt, number),
            Ok(back) => bail!("{back:?}"),
            Err((lease, refusal)) => {
                lease.store();
                bail!("not given back: {refusal:?}")
            }
        }
    }

    /// A caller vanishes: it is dropped with its lease, and its connection is taken back.
    pub fn vanish(&mut self, rt: &HostRuntime, key: usize) -> anyhow::Result<()> {
        let caller = self.callers.try_remove(key).context("no such caller")?;
        let number = caller.lease.context("it waited")?.number();
        match self.pool.take_back(number, &mut Vec::new(self.alloc)) {
            Ok(back) => println!(rt; "{} vanishes: {back:?}", caller.name)?,
            Err(refusal) => bail!("not taken back: {refusal:?}"),
        }
        self.clean(rt, number)
    }

    /// Cleans a free connection. Nobody is lent it meanwhile.
    fn clean(&mut self, rt: &HostRuntime, number: u32) -> anyhow::Result<()> {
        let mut units = Vec::new(self.alloc);
        for unit in "say clean".encode_utf16() {
            units.push(unit)?;
        }
        let text = BatchText::new(units).context("a batch has at most 2,000 units")?;
        if let Err(refusal) = self.pool.clean(number, &Request::Batch(text)) {
            bail!("not cleaned: {refusal:?}");
        }
        println!(rt; "  cleaning {number}: {:?}", self.pool.cleaned(number))?;
        self.serve(rt)?;
        self.carry(rt, number)?;
        println!(rt; "  cleaned {number}: {:?}", self.pool.cleaned(number))?;
        self.serve(rt)
    }
}
