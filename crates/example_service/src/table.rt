//! The callers, each with its lease, and the connections that they share.

use crate::caller::{Caller, Plan};
use crate::server::{Server, lie};
use crate::wire::Wires;
use anyhow::{Context, bail};
use std::alloc::Global;
use tds_client::MessageKind;
use tds_packet::{Direction, Kind, PacketReader, PacketSize};
use tds_service::{Came, Outcome, Refusal, Rest, Service};
use tds_wire::{Features, Token, Told};

/// What comes on a connection: its packets, and what was told of the answer that is being read.
#[derive(Drop)]
struct Reading {
    packets: PacketReader,
    told: Vec<Token>,
}

/// What came of an answer, on the connection of a number, and what was told.
#[derive(Drop)]
struct Heard {
    number: u64,
    came: Came,
    told: Vec<Token>,
}

#[derive(Drop)]
pub struct Table {
    alloc: Global,
    service: Service,
    callers: Vec<Caller>,
    wires: Wires,
    /// Of connection 1, then of connection 2, and so on.
    readings: Vec<Reading>,
    servers: Vec<Server>,
}

impl Table {
    pub fn new(rt: &HostRuntime, max: usize) -> anyhow::Result<Table> {
        let alloc = rt.alloc();
        let size = PacketSize::new(512).context("no packet size")?;
        let features = Features {
            encryption: false,
            ranks: false,
        };
        let service = Service::new(alloc, max, size, 64, features).context("too many columns")?;
        Ok(Table {
            alloc,
            service,
            callers: Vec::new(alloc),
            wires: Wires::new(rt)?,
            readings: Vec::new(alloc),
            servers: Vec::new(alloc),
        })
    }

    /// A caller comes, and waits until a connection is free.
    pub fn arrive(&mut self, name: &'static str, plan: Plan) -> anyhow::Result<()> {
        self.callers.push(Caller::new(name, plan))?;
        Ok(())
    }

    /// Lends connections to those who wait, lets each do what it plans, and hears what comes of it.
    pub fn round(&mut self, rt: &HostRuntime) -> anyhow::Result<()> {
        self.lend(rt)?;
        let mut awaited = 0usize;
        for key in 0..self.callers.len() {
            if self.ask(rt, key)? {
                awaited = awaited.saturating_add(1);
            }
        }
        self.let_answer(awaited)?;
        for key in 0..self.callers.len() {
            self.give_up(rt, key)?;
        }
        let heard = self.hear(awaited)?;
        for one in heard.iter() {
            self.tell(rt, one)?;
        }
        Ok(())
    }

    /// Lends connections to those who wait, while there are any. A new one is opened.
    fn lend(&mut self, rt: &HostRuntime) -> anyhow::Result<()> {
        for caller in self.callers.iter_mut() {
            if caller.lease > 0 {
                continue;
            }
            let lent = match self.service.lease() {
                Ok(lent) => lent,
                Err(refusal) => {
                    println!(rt; "{} waits: {refusal:?}", caller.name)?;
                    continue;
                }
            };
            caller.lease = lent.lease;
            caller.number = lent.number;
            println!(rt; "{} has {}, used: {}", caller.name, lent.number, lent.had)?;
            if !lent.had {
                let size = PacketSize::new(512).context("no packet size")?;
                self.wires.open(rt)?;
                self.readings.push(Reading {
                    packets: PacketReader::new(rt.alloc(), size, Direction::ToClient)?,
                    told: Vec::new(rt.alloc()),
                })?;
                self.servers.push(Server::new(rt)?)?;
            }
        }
        Ok(())
    }

    fn caller(&self, key: usize) -> anyhow::Result<Caller> {
        self.callers.get(key).copied().context("no such caller")
    }

    /// A caller that has a connection asks, or its server lies to it. Whether something is to come.
    fn ask(&mut self, rt: &HostRuntime, key: usize) -> anyhow::Result<bool> {
        let caller = self.caller(key)?;
        if !caller.is_served() {
            return Ok(false);
        }
        let text = match caller.plan {
            Plan::Ask(text) => text,
            Plan::Cancel(text) => text,
            Plan::Vanish(text) => text,
            Plan::BeLiedTo => {
                println!(rt; "{} is lied to", caller.name)?;
                let place = place_of(caller.number)?;
                lie(self.wires.far.get_mut(place).context("no server")?)?;
                return Ok(true);
            }
        };
        println!(rt; "{} asks: {text}", caller.name)?;
        self.ask_by(caller.lease, text)?;
        Ok(true)
    }

    /// Asks for a batch by a lease.
    fn ask_by(&mut self, lease: u64, text: &str) -> anyhow::Result<()> {
        let mut body = Vec::new(self.alloc);
        for unit in text.encode_utf16() {
            body.extend_from_slice(&unit.to_le_bytes())?;
        }
        let mut out = Vec::new(self.alloc);
        fine(self.service.ask(lease, MessageKind::Batch))?;
        fine(self.service.put(lease, &body, &mut out))?;
        let number = fine(self.service.finish(lease, &mut out))?;
        self.send(number, &out)
    }

    fn send(&mut self, number: u64, out: &[u8]) -> anyhow::Result<()> {
        let near = self.wires.near.get_mut(place_of(number)?);
        near.context("no such connection")?.send(out)
    }

    /// Waits until the servers have answered so many requests. Their answers stand in the sockets.
    fn let_answer(&mut self, requests: usize) -> anyhow::Result<()> {
        let mut answered = self.lies();
        for _ in 0..u64::MAX {
            answered = answered.saturating_add(self.serve()?);
            if answered >= requests {
                return Ok(());
            }
            self.wires.wait()?;
        }
        bail!("no answer")
    }

    /// How many callers are lied to.
    fn lies(&self) -> usize {
        let mut count = 0usize;
        for caller in self.callers.iter() {
            if caller.is_served() && matches!(caller.plan, Plan::BeLiedTo) {
                count = count.saturating_add(1);
            }
        }
        count
    }

    /// Each server takes what has come to it. How many requests were answered.
    fn serve(&mut self) -> anyhow::Result<usize> {
        let mut answered = 0usize;
        for (server, socket) in self.servers.iter_mut().zip(self.wires.far.iter_mut()) {
            answered = answered.saturating_add(server.serve(self.alloc, socket)?);
        }
        Ok(answered)
    }

    /// A caller cancels or vanishes, while its answer is on the way.
    fn give_up(&mut self, rt: &HostRuntime, key: usize) -> anyhow::Result<()> {
        let caller = self.caller(key)?;
        if !caller.is_served() {
            return Ok(());
        }
        let mut out = Vec::new(self.alloc);
        match caller.plan {
            Plan::Cancel(_) => {
                let (_, how) = fine(self.service.cancel(caller.lease, &mut out))?;
                println!(rt; "{} cancels: {how:?}", caller.name)?;
            }
            Plan::Vanish(_) => {
                let (_, rest) = fine(self.service.give_back(caller.lease, &mut out))?;
                println!(rt; "{} vanishes: {rest:?}", caller.name)?;
                self.goes(key);
            }
            Plan::Ask(_) => {}
            Plan::BeLiedTo => {}
        }
        self.send(caller.number, &out)
    }

    fn goes(&mut self, key: usize) {
        if let Some(caller) = self.callers.get_mut(key) {
            caller.gone = true;
        }
    }

    /// Hears what comes, up to the ends of so many answers; by number of the connection.
    fn hear(&mut self, awaited: usize) -> anyhow::Result<Vec<Heard>> {
        let mut heard = Vec::new(self.alloc);
        for _ in 0..u64::MAX {
            self.serve()?;
            for place in 0..self.readings.len() {
                self.hear_at(place, &mut heard)?;
            }
            if heard.len() >= awaited {
                heard.sort_by_key(|one: &Heard| one.number)?;
                return Ok(heard);
            }
            self.wires.wait()?;
        }
        bail!("no end")
    }

    /// Hears all that has come on a connection.
    fn hear_at(&mut self, place: usize, heard: &mut Vec<Heard>) -> anyhow::Result<()> {
        let mut buffer = [0u8; 512];
        for _ in 0..u64::MAX {
            let near = self.wires.near.get_mut(place);
            let count = near.context("no such connection")?.read(&mut buffer)?;
            if count == 0 {
                return Ok(());
            }
            let piece = buffer.get(..count);
            self.take(place, piece.context("more than there is room for")?, heard)?;
        }
        bail!("no end")
    }

    /// Takes a piece of what comes on a connection, a packet at a time.
    fn take(&mut self, place: usize, piece: &[u8], heard: &mut Vec<Heard>) -> anyhow::Result<()> {
        let mut rest = piece;
        for _ in 0..piece.len() {
            let reading = self.readings.get_mut(place).context("no reader")?;
            let Ok(taken) = reading.packets.feed(rest) else {
                bail!("a faulty header");
            };
            rest = rest.get(taken..).context("more than there was")?;
            self.take_packet(place, heard)?;
            if rest.is_empty() {
                break;
            }
        }
        Ok(())
    }

    /// Takes a packet, if it is whole, and notes what ended by it.
    fn take_packet(&mut self, place: usize, heard: &mut Vec<Heard>) -> anyhow::Result<()> {
        let reading = self.readings.get_mut(place).context("no reader")?;
        let Some(packet) = reading.packets.packet() else {
            return Ok(());
        };
        if packet.header.kind != Kind::Answer {
            bail!("no answer");
        }
        let number = u64::try_from(place)?.wrapping_add(1);
        let ends = packet.header.status.ends();
        let told = &mut reading.told;
        let came = fine(self.service.came(number, packet.data, ends, told))?;
        reading.packets.done();
        if !matches!(came.outcome, Outcome::More) {
            let told = std::mem::replace(&mut reading.told, Vec::new(self.alloc));
            heard.push(Heard { number, came, told })?;
        }
        Ok(())
    }

    /// Tells the caller that has the lease what came of its request.
    fn tell(&mut self, rt: &HostRuntime, heard: &Heard) -> anyhow::Result<()> {
        let key = self.key_of(heard.came.lease);
        let name = match key {
            Some(key) => self.caller(key)?.name,
            None => "nobody",
        };
        println!(rt;
            "  {name}, request {}: {:?}, {} tokens",
            heard.came.request,
            heard.came.outcome,
            heard.told.len()
        )?;
        for token in &heard.told {
            if let Told::ReturnStatus(value) = token.told {
                println!(rt; "  return status {value}")?;
            }
        }
        match (key, &heard.came.outcome) {
            (Some(key), Outcome::Fault(_)) => self.lose(rt, key, heard.number),
            (Some(key), _) => self.leave(rt, key),
            (None, _) => self.clean(rt, heard.number),
        }
    }

    fn key_of(&self, lease: Option<u64>) -> Option<usize> {
        let lease = lease?;
        for (key, caller) in self.callers.iter().enumerate() {
            if caller.lease == lease {
                return Some(key);
            }
        }
        None
    }

    fn leave(&mut self, rt: &HostRuntime, key: usize) -> anyhow::Result<()> {
        let caller = self.caller(key)?;
        let mut out = Vec::new(self.alloc);
        let (number, rest) = fine(self.service.give_back(caller.lease, &mut out))?;
        println!(rt; "{} leaves {number}: {rest:?}", caller.name)?;
        self.goes(key);
        Ok(())
    }

    /// A connection is given up, and its caller with it.
    fn lose(&mut self, rt: &HostRuntime, key: usize, number: u64) -> anyhow::Result<()> {
        fine(self.service.lost(number))?;
        println!(rt; "{} goes with connection {number}", self.caller(key)?.name)?;
        self.goes(key);
        Ok(())
    }

    /// Cleans a connection whose caller vanished, before anybody else is lent it.
    fn clean(&mut self, rt: &HostRuntime, number: u64) -> anyhow::Result<()> {
        let cleaning = fine(self.service.clean(number))?;
        self.ask_by(cleaning.lease, "say clean")?;
        self.hear(1)?;
        let (_, rest): (u64, Rest) = fine(self.service.cleaned(cleaning.lease))?;
        println!(rt; "{number} is cleaned: {rest:?}")?;
        Ok(())
    }
}

/// Where the connection of a number stands.
fn place_of(number: u64) -> anyhow::Result<usize> {
    Ok(usize::try_from(number)?.wrapping_sub(1))
}

/// A refusal ends the run.
fn fine<T: Drop>(done: Result<T, Refusal>) -> anyhow::Result<T> {
    match done {
        Ok(done) => Ok(done),
        Err(refusal) => bail!("refused: {refusal:?}"),
    }
}
