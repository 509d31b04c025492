//! A client's end: of the strict profile, which reads rows, or in front of any server.

use anyhow::bail;
use std::alloc::Global;
use std::fmt::Write;
use tds_client::{Client, Taken};
use tds_ends::{ClientEnd, RequestStatus};
use tds_listen::{hear_end, next};
use tds_packet::{Direction, Kind, PacketReader, PacketSize};
use tds_text::put_token_line;
use tds_wire::{Features, Token, TokenParser, Told};

/// The most columns that are known of an answer.
const COLUMNS: u16 = 4096;

/// What was told of a request: a line a token, and how many.
#[derive(Drop)]
pub struct Heard {
    pub lines: String,
    pub count: usize,
}

/// A client's end.
#[derive(Drop)]
pub enum End {
    Strict(ClientEnd),
    Any(AnyEnd),
}

/// One in front of any server, whose tokens are passed.
#[derive(Drop)]
pub struct AnyEnd {
    client: Client,
    reader: PacketReader,
    parser: TokenParser,
}

impl Heard {
    /// Nothing.
    pub fn new(alloc: Global) -> Heard {
        Heard {
            lines: String::new(alloc),
            count: 0,
        }
    }
}

impl End {
    /// An end for packets of this size.
    pub fn new(alloc: Global, size: PacketSize, is_any: bool) -> anyhow::Result<End> {
        if is_any {
            return Ok(End::Any(AnyEnd::new(alloc, size)?));
        }
        Ok(End::Strict(ClientEnd::new(alloc, size)))
    }

    pub fn client(&self) -> &Client {
        match self {
            End::Strict(end) => end.client(),
            End::Any(end) => &end.client,
        }
    }

    pub fn client_mut(&mut self) -> &mut Client {
        match self {
            End::Strict(end) => end.client_mut(),
            End::Any(end) => &mut end.client,
        }
    }

    /// Takes bytes that came, and answers what became of the request, where it is settled.
    pub fn listen(
        &mut self,
        alloc: Global,
        came: &[u8],
        heard: &mut Heard,
    ) -> anyhow::Result<Option<RequestStatus>> {
        match self {
            End::Strict(end) => listen_strictly(alloc, end, came, heard),
            End::Any(end) => end.listen(came, heard),
        }
    }
}

/// The same of the strict profile.
fn listen_strictly(
    alloc: Global,
    end: &mut ClientEnd,
    came: &[u8],
    heard: &mut Heard,
) -> anyhow::Result<Option<RequestStatus>> {
    let mut told = Vec::new(alloc);
    let fed = end.listen(came, &mut told);
    for token in &told {
        put_token_line(&mut heard.lines, token)?;
        heard.count = heard.count.saturating_add(1);
    }
    if let Some(stop) = fed.stop {
        bail!("the client stopped: {stop:?}");
    }
    Ok(fed.settled)
}

impl AnyEnd {
    fn new(alloc: Global, size: PacketSize) -> anyhow::Result<AnyEnd> {
        let features = Features {
            encryption: false,
            ranks: false,
        };
        Ok(AnyEnd {
            client: Client::new(alloc, size),
            reader: PacketReader::new(alloc, size, Direction::ToClient)?,
            parser: TokenParser::new(alloc, COLUMNS, features)?,
        })
    }

    fn listen(&mut self, came: &[u8], heard: &mut Heard) -> anyhow::Result<Option<RequestStatus>> {
        let mut rest = came;
        let mut settled = None;
        for _ in 0..came.len() {
            let Ok(count) = self.reader.feed(rest) else {
                bail!("what came is no packet");
            };
            rest = &rest[count..];
            match self.packet(heard)? {
                Some(Taken::Finished) => settled = Some(RequestStatus::Finished),
                Some(Taken::Acknowledged) => settled = Some(RequestStatus::Acknowledged),
                Some(_) => {}
                None => break,
            }
            self.reader.done();
        }
        Ok(settled)
    }

    /// Hears the packet that came, if one did.
    fn packet(&mut self, heard: &mut Heard) -> anyhow::Result<Option<Taken>> {
        let Some(packet) = self.reader.packet() else {
            return Ok(None);
        };
        if packet.header.kind != Kind::Answer {
            bail!("what came is no answer");
        }
        let mut rest = packet.data;
        for _ in 0..packet.data.len() {
            if rest.is_empty() {
                break;
            }
            let step = match next(&mut self.client, &mut self.parser, rest) {
                Ok(step) => step,
                Err(fault) => bail!("the client stopped: {fault:?}"),
            };
            if let Some(token) = step.token {
                put_line(heard, &token)?;
            }
            rest = &rest[step.count..];
        }
        if !packet.header.status.ends() {
            return Ok(Some(Taken::More));
        }
        match hear_end(&mut self.client, &mut self.parser) {
            Ok(taken) => Ok(Some(taken)),
            Err(fault) => bail!("the client stopped: {fault:?}"),
        }
    }
}

/// Appends the line of a token, but of an ENVCHANGE.
fn put_line(heard: &mut Heard, token: &Token) -> anyhow::Result<()> {
    let lines = &mut heard.lines;
    match token.told {
        Told::Change(_) => return Ok(()),
        Told::Done(done) => {
            let name = name_of(token.kind);
            writeln!(lines, "  {name} {:04x} {}", done.status, done.count)?;
        }
        Told::Message(message) => {
            let name = if token.kind == 0xaa { "error" } else { "info" };
            writeln!(lines, "  {name} {}", message.number)?;
        }
        Told::ReturnStatus(value) => writeln!(lines, "  status {value}")?,
        _ => writeln!(lines, "  token {:02x}, {} bytes", token.kind, token.length)?,
    }
    heard.count = heard.count.saturating_add(1);
    Ok(())
}

/// The name of one of the three tokens that end something (MS-TDS 2.2.7.6 to 2.2.7.8).
fn name_of(kind: u8) -> &'static str {
    match kind {
        0xfe => "doneproc",
        0xff => "doneinproc",
        _ => "done",
    }
}
