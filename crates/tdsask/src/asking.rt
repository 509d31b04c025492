//! A connection that is logged in, and what is asked on it.
ghost use Rattle.std.specs.Prelude.{◌≡◌};

use crate::ends::{End, Heard};
use crate::link::Link;
use anyhow::{Context, bail};
use tds_client::Sent;
use tds_ends::RequestStatus;
use tds_login::{is_let_in, put_login};
use tds_packet::{HeaderReader, PacketSize, Reset};
use tds_request::Request;

/// The packet size that is asked for.
const SIZE: u16 = 4096;

/// The most bytes that are fed at a time, so that a cancel comes soon behind its token.
const PIECE: usize = 16;

/// A client with its connection.
#[derive(Drop)]
pub struct Asker {
    link: Link,
    end: End,
    /// How many tokens the next request is told before it is cancelled.
    cancel_after: Option<usize>,
    /// How many requests were asked.
    asked: u64,
}

impl Asker {
    /// Logs in, at a server of the strict profile or at any.
    pub fn new(rt: &HostRuntime, mut link: Link, is_any: bool) -> anyhow::Result<Asker> {
        let alloc = rt.alloc();
        let Some(size) = PacketSize::new(SIZE) else {
            bail!("no packet size");
        };
        log_in(rt, &mut link, size).context("awaiting the login's answer")?;
        Ok(Asker {
            link,
            end: End::new(alloc, size, is_any)?,
            cancel_after: None,
            asked: 0,
        })
    }

    /// The descriptor of the open transaction, 0 for none.
    pub fn descriptor(&self) -> u64 {
        self.end.client().descriptor()
    }

    /// The next request asks for this reset.
    pub fn mark_reset(&mut self, reset: Reset) -> anyhow::Result<()> {
        if self.end.client_mut().mark_reset(reset).is_err() {
            bail!("a request is underway");
        }
        Ok(())
    }

    /// The next request is cancelled once so many tokens were told.
    pub fn cancel_after(&mut self, count: usize) {
        self.cancel_after = Some(count);
    }

    /// Asks, and gives the lines of the answer: what became of the request, and a line a token.
    pub fn ask(&mut self, rt: &HostRuntime, request: &Request) -> anyhow::Result<String> {
        let alloc = rt.alloc();
        self.asked = self.asked.saturating_add(1);
        let mut heard = Heard::new(alloc);
        let awaited = format!(in alloc; "awaiting the answer to request {}", self.asked)?;
        let status = self.settle(rt, request, &mut heard).context(awaited)?;
        self.cancel_after = None;
        let became = name_of(status);
        let lines = heard.lines.as_str();
        Ok(format!(in alloc; "request {} {became}\n{lines}", self.asked)?)
    }

    /// Sends a request, and takes what comes until it is settled.
    fn settle(
        &mut self,
        rt: &HostRuntime,
        request: &Request,
        heard: &mut Heard,
    ) -> anyhow::Result<RequestStatus> {
        self.send(rt, request)?;
        self.hear(rt, heard)
    }

    /// Starts a request and sends all its packets.
    fn send(&mut self, rt: &HostRuntime, request: &Request) -> anyhow::Result<()> {
        if self.end.client_mut().start(request).is_err() {
            bail!("a request is underway");
        }
        let mut out = Vec::new(rt.alloc());
        for _ in 0..u64::MAX {
            match self.end.client_mut().send(&mut out) {
                Ok(Sent::More) => {}
                Ok(Sent::Last) => break,
                Err(_) => bail!("nothing to send"),
            }
        }
        self.link.send(rt, out.as_slice())
    }

    /// Takes what comes until the request is settled.
    fn hear(&mut self, rt: &HostRuntime, heard: &mut Heard) -> anyhow::Result<RequestStatus> {
        let mut piece = [0u8; PIECE];
        for _ in 0..u64::MAX {
            self.cancel_in_time(rt, heard.count)?;
            let count = self.link.read(rt, &mut piece)?;
            let Some(came) = piece.get(..count) else {
                break;
            };
            if let Some(status) = self.end.listen(rt.alloc(), came, heard)? {
                return Ok(status);
            }
        }
        bail!("no end")
    }

    /// Cancels, where so many tokens are enough.
    fn cancel_in_time(&mut self, rt: &HostRuntime, told: usize) -> anyhow::Result<()> {
        let Some(count) = self.cancel_after else {
            return Ok(());
        };
        if told < count {
            return Ok(());
        }
        self.cancel_after = None;
        let mut out = Vec::new(rt.alloc());
        if self.end.client_mut().cancel(&mut out).is_err() {
            bail!("no cancel");
        }
        self.link.send(rt, out.as_slice())
    }
}

/// Logs in over a connection.
fn log_in(rt: &HostRuntime, link: &mut Link, size: PacketSize) -> anyhow::Result<()> {
    let mut out = Vec::new(rt.alloc());
    put_login(&mut out, size)?;
    link.send(rt, out.as_slice())?;
    let answer = login_answer(rt, link)?;
    if !is_let_in(answer.as_slice()) {
        bail!("what came refuses the login, or is no answer to it");
    }
    Ok(())
}

/// The data of a login's answer, which is one packet.
fn login_answer(rt: &HostRuntime, link: &mut Link) -> anyhow::Result<Vec<u8>> {
    let mut header = [0u8; 8];
    link.fill(rt, &mut header)?;
    let mut reader = HeaderReader::new();
    let _ = reader.take(&header);
    let mut data = vec![in rt.alloc(); 0u8; usize::from(reader.due())]?;
    link.fill(rt, data.as_mut_slice())?;
    Ok(data)
}

/// What became of a request.
fn name_of(status: RequestStatus) -> &'static str {
    match status {
        RequestStatus::Finished => "finished",
        RequestStatus::Acknowledged => "acknowledged",
        _ => "lost",
    }
}
