//! The connections of a capture, and what was found of each.

use crate::arguments::Form;
use crate::digits::read_digits;
use crate::drawn::Drawn;
use crate::line::{Line, What, read_line};
use crate::picture::draw;
use std::alloc::{AllocError, Global};
use std::collections::HashMap;
use std::io;
use tds_judge::{Features, Finding, Judge, Level, Limits};

/// The most columns of a result.
const MOST_COLUMNS: u16 = 4096;

/// A finding of a connection.
#[derive(Clone, Copy)]
pub struct Row {
    pub stream: u64,
    pub finding: Finding,
}

/// The connections that are open, and all that was found.
#[derive(Drop)]
pub struct Watch {
    idle: u64,
    open: HashMap<u64, Judge>,
    rows: Vec<Row>,
    lines: u64,
    /// How many lines were no lines, how many bytes came, and how many connections were seen.
    wrong: u64,
    bytes: u64,
    connections: u64,
    /// The bytes of the newest line.
    piece: Vec<u8>,
    /// The connection that is drawn.
    drawn: Option<Drawn>,
}

impl Watch {
    /// Before the first line. A transaction may be idle for so many microseconds; 0: as long as it likes.
    pub fn new(alloc: Global, idle: u64, form: Form) -> io::Result<Watch> {
        let drawn = match form {
            Form::Picture(stream) => Some(Drawn::new(alloc, stream)?),
            Form::Table | Form::Objects => None,
        };
        Ok(Watch {
            idle,
            open: HashMap::new(alloc),
            rows: Vec::new(alloc),
            lines: 0,
            wrong: 0,
            bytes: 0,
            connections: 0,
            piece: Vec::new(alloc),
            drawn,
        })
    }

    /// The picture of the connection that is drawn, where one is and was seen.
    pub fn picture(&self, alloc: Global) -> io::Result<Option<String>> {
        match &self.drawn {
            Some(drawn) => draw(alloc, drawn),
            None => Ok(None),
        }
    }

    pub fn lines(&self) -> u64 {
        self.lines
    }

    pub fn bytes(&self) -> u64 {
        self.bytes
    }

    pub fn connections(&self) -> u64 {
        self.connections
    }

    pub fn rows(&self) -> &[Row] {
        self.rows.as_slice()
    }

    /// How many findings weigh so much.
    pub fn count_of(&self, level: Level) -> u64 {
        let mut count = 0u64;
        for row in self.rows.as_slice() {
            if row.finding.name.level() == level {
                count = count.saturating_add(1);
            }
        }
        count
    }

    /// How many connections couldn't be judged to their end: those that are encrypted, no TDS, or have
    /// bytes that can't be read.
    pub fn unjudged(&self) -> u64 {
        let mut count = 0u64;
        for row in self.rows.as_slice() {
            if row.finding.name.ends_judging() {
                count = count.saturating_add(1);
            }
        }
        count
    }

    /// The exit status: 1 with a breach, 2 where something couldn't be judged or nothing came, else 0.
    pub fn status(&self) -> u8 {
        if self.count_of(Level::Breach) > 0 {
            1
        } else if self.wrong > 0 || self.unjudged() > 0 || self.bytes == 0 {
            2
        } else {
            0
        }
    }

    /// Puts the findings of each connection together, in the order in which they were found.
    pub fn sort(&mut self) -> Result<(), AllocError> {
        self.rows.sort_by_key(|row| row.stream)
    }

    /// Takes a line. Whether it is one.
    pub fn take_line(&mut self, alloc: Global, line: &[u8]) -> io::Result<bool> {
        self.lines = self.lines.saturating_add(1);
        let is_taken = match read_line(line) {
            Some(line) => self.take(alloc, line)?,
            None => false,
        };
        if !is_taken {
            self.wrong = self.wrong.saturating_add(1);
        }
        Ok(is_taken)
    }

    /// Takes what a line says. Whether its digits are bytes.
    fn take(&mut self, alloc: Global, line: Line<'_>) -> io::Result<bool> {
        if !read_digits(&mut self.piece, line.digits)? {
            return Ok(false);
        }
        self.bytes = self.bytes.saturating_add(self.piece.len() as u64);
        self.open(alloc, line.stream)?;
        let mut found = Vec::new(alloc);
        if let Some(judge) = self.open.get_mut(&line.stream) {
            let piece = self.piece.as_slice();
            match &mut self.drawn {
                Some(drawn) if drawn.stream == line.stream => {
                    hear_drawn(judge, drawn, line, piece, &mut found)?;
                }
                _ => hear(judge, line, piece, &mut found)?,
            }
        }
        if line.what.ends() {
            self.open.remove(&line.stream);
        }
        self.keep(line.stream, found.as_slice())?;
        Ok(true)
    }

    /// Has a judge for the connection of this number: a new one where none is open.
    fn open(&mut self, alloc: Global, stream: u64) -> io::Result<()> {
        if self.open.contains_key(&stream) {
            return Ok(());
        }
        let limits = Limits {
            idle: self.idle,
            columns: MOST_COLUMNS,
            features: Features {
                encryption: false,
                ranks: false,
            },
        };
        let judge = Judge::new(alloc, limits)?;
        self.open.insert(stream, judge)?;
        self.connections = self.connections.saturating_add(1);
        Ok(())
    }

    /// Keeps what was found of a connection.
    fn keep(&mut self, stream: u64, found: &[Finding]) -> Result<(), AllocError> {
        for finding in found {
            self.rows.push(Row {
                stream,
                finding: *finding,
            })?;
        }
        Ok(())
    }
}

/// Hands a line to its connection's judge.
fn hear(
    judge: &mut Judge,
    line: Line<'_>,
    bytes: &[u8],
    found: &mut Vec<Finding>,
) -> io::Result<()> {
    match line.what {
        What::Bytes(direction) => {
            match judge.take(direction, line.time, bytes, found) {
                Ok(()) => Ok(()),
                Err(_) => Err(io::Error::from(io::ErrorKind::OutOfMemory)),
            }
        }
        What::Borrowed => Ok(judge.borrow(line.time, found)?),
        What::Closed => Ok(judge.close(line.time, found)?),
    }
}

/// Hands a line to the judge of the connection that is drawn, packet by packet.
fn hear_drawn(
    judge: &mut Judge,
    drawn: &mut Drawn,
    line: Line<'_>,
    bytes: &[u8],
    found: &mut Vec<Finding>,
) -> io::Result<()> {
    let What::Bytes(direction) = line.what else {
        let before = found.len();
        hear(judge, line, bytes, found)?;
        for finding in found.as_slice().get(before..).unwrap_or(&[]) {
            drawn.find(*finding)?;
        }
        if line.what.ends() {
            drawn.close()?;
        }
        return Ok(());
    };
    let mut rest = bytes;
    for _ in 0..bytes.len() {
        let before = found.len();
        let (piece, others) = rest.split_at(drawn.count(direction, rest.len()).min(rest.len()));
        hear(judge, line, piece, found)?;
        let fresh = found.as_slice().get(before..).unwrap_or(&[]);
        drawn.take(direction, line.time, piece, fresh)?;
        rest = others;
        if rest.is_empty() {
            break;
        }
    }
    Ok(())
}
