//! The lines on standard error, where they are asked for: for a reader, or each a JSON object.

use serve_sessions::{Asked, Note, Took};
use std::io::{self, Write};
use std::net::SocketAddr;

/// How lines are written.
#[derive(Clone, Copy, Debug, PartialEq, Eq)]
pub enum Style {
    /// None is.
    Off,
    Words,
    Json,
}

/// Where lines go.
#[derive(Drop)]
pub struct Log<W: Write + Drop> {
    writer: W,
    style: Style,
}

impl<W: Write + Drop> Log<W> {
    /// A log that writes there, in this style.
    pub fn new(writer: W, style: Style) -> Log<W> {
        Log { writer, style }
    }

    /// A connection has come, from this address; without one by a Unix socket.
    pub fn opened(&mut self, number: u64, from: Option<SocketAddr>) {
        let words = match self.style {
            Style::Off => return,
            Style::Words => ["connection ", " from ", "\n"],
            Style::Json => [
                "{\"connection\":",
                ",\"event\":\"opened\",\"from\":\"",
                "\"}\n",
            ],
        };
        let _ = put_opened(&mut self.writer, number, from, words);
    }

    /// A proxy's connection comes for a client at this address.
    pub fn named(&mut self, number: u64, source: SocketAddr) {
        let words = match self.style {
            Style::Off => return,
            Style::Words => ["connection ", " comes for ", "\n"],
            Style::Json => [
                "{\"connection\":",
                ",\"event\":\"proxied\",\"for\":\"",
                "\"}\n",
            ],
        };
        let _ = put_opened(&mut self.writer, number, Some(source), words);
    }

    /// This happened on a connection, so many milliseconds behind its newest request.
    pub fn noted(&mut self, number: u64, note: &Note, elapsed: u64) {
        let _ = match self.style {
            Style::Off => Ok(()),
            Style::Words => put_words(&mut self.writer, number, note, elapsed),
            Style::Json => put_json(&mut self.writer, number, note, elapsed),
        };
    }

    /// A connection has ended.
    pub fn closed(&mut self, number: u64, why: &str) {
        let words = match self.style {
            Style::Off => return,
            Style::Words => ["connection ", " closed: ", "\n"],
            Style::Json => [
                "{\"connection\":",
                ",\"event\":\"closed\",\"why\":\"",
                "\"}\n",
            ],
        };
        let _ = put_closed(&mut self.writer, number, why, words);
    }
}

/// Writes a text.
fn put<W: Write>(writer: &mut W, text: &str) -> io::Result<()> {
    writer.write_all(text.as_bytes())
}

/// Writes a number between two texts.
fn put_number<W: Write>(writer: &mut W, front: &str, number: u64, back: &str) -> io::Result<()> {
    put(writer, front)?;
    write!(writer, "{number}")?;
    put(writer, back)
}

/// Writes that a connection has come, with these words around its number and its address.
fn put_opened<W: Write>(
    writer: &mut W,
    number: u64,
    from: Option<SocketAddr>,
    words: [&str; 3],
) -> io::Result<()> {
    let [front, middle, back] = words;
    put_number(writer, front, number, middle)?;
    match from {
        Some(from) => write!(writer, "{from}")?,
        None => put(writer, "unix")?,
    }
    put(writer, back)
}

/// Writes that a connection has ended, with these words around its number and why.
fn put_closed<W: Write>(
    writer: &mut W,
    number: u64,
    why: &str,
    words: [&str; 3],
) -> io::Result<()> {
    let [front, middle, back] = words;
    put_number(writer, front, number, middle)?;
    put(writer, why)?;
    put(writer, back)
}

/// Writes a line of what happened.
fn put_words<W: Write>(writer: &mut W, number: u64, note: &Note, elapsed: u64) -> io::Result<()> {
    put_number(writer, "connection ", number, " ")?;
    match note {
        Note::Request(asked) => put_asked(writer, asked),
        Note::Answered {
            request,
            has_failed,
        } => {
            let outcome = if *has_failed { " failed, " } else { " done, " };
            put_number(writer, "request ", u64::from(*request), outcome)?;
            put_number(writer, "", elapsed, " ms\n")
        }
        Note::LoggedIn(size) => {
            put_number(writer, "logged in, packets of ", u64::from(*size), "\n")
        }
        Note::Holds(steps) => {
            put_number(writer, "is held behind ", u64::from(*steps), " steps\n")
        }
        other => {
            put(writer, name_of(other))?;
            put(writer, "\n")
        }
    }
}

/// Ends a line with a request that has come.
fn put_asked<W: Write>(writer: &mut W, asked: &Asked) -> io::Result<()> {
    put_number(writer, "request ", u64::from(asked.request), " ")?;
    put(writer, kind_name(asked.kind))?;
    put(writer, " \"")?;
    put_text(writer, asked.text.as_slice())?;
    put_number(writer, "\" tx ", asked.descriptor, "\n")
}

/// Writes an object of what happened.
fn put_json<W: Write>(writer: &mut W, number: u64, note: &Note, elapsed: u64) -> io::Result<()> {
    put_number(writer, "{\"connection\":", number, ",\"event\":\"")?;
    match note {
        Note::Request(asked) => put_asked_json(writer, asked),
        Note::Answered {
            request,
            has_failed,
        } => {
            let request = u64::from(*request);
            let failed = if *has_failed { "true" } else { "false" };
            put_number(writer, "answered\",\"request\":", request, ",\"failed\":")?;
            put(writer, failed)?;
            put_number(writer, ",\"milliseconds\":", elapsed, "}\n")
        }
        Note::LoggedIn(size) => {
            put_number(writer, "logged in\",\"packets\":", u64::from(*size), "}\n")
        }
        Note::Holds(steps) => { put_number(writer, "held\",\"steps\":", u64::from(*steps), "}\n") }
        other => {
            put(writer, name_of(other))?;
            put(writer, "\"}\n")
        }
    }
}

/// Ends an object with a request that has come.
fn put_asked_json<W: Write>(writer: &mut W, asked: &Asked) -> io::Result<()> {
    let request = u64::from(asked.request);
    put_number(writer, "request\",\"request\":", request, ",\"kind\":\"")?;
    put(writer, kind_name(asked.kind))?;
    put(writer, "\",\"text\":\"")?;
    put_text(writer, asked.text.as_slice())?;
    put_number(writer, "\",\"transaction\":", asked.descriptor, "}\n")
}

/// Writes a text as JSON has it between quotes.
fn put_text<W: Write>(writer: &mut W, text: &[u16]) -> io::Result<()> {
    for unit in text {
        put_unit(writer, *unit)?;
    }
    Ok(())
}

fn put_unit<W: Write>(writer: &mut W, unit: u16) -> io::Result<()> {
    match unit {
        34 => writer.write_all(b"\\\""),
        92 => writer.write_all(b"\\\\"),
        32..=126 => writer.write_all(&[unit as u8]),
        _ => write!(writer, "\\u{unit:04x}"),
    }
}

/// What is written of a note that has no number.
fn name_of<'a>(note: &Note) -> &'a str {
    match note {
        Note::OldVersion => "refused: before TDS 7.2",
        Note::Encryption => "refused: encryption demanded",
        Note::Refused => "refused: by its script",
        Note::FailedReset => "reset failed, by its script",
        Note::Came(took) => kind_name(*took),
        Note::Rubbish => "sent what isn't spoken here",
        _ => "",
    }
}

fn kind_name<'a>(took: Took) -> &'a str {
    match took {
        Took::Part => "part",
        Took::Batch => "batch",
        Took::Call => "RPC",
        Took::Rows => "bulk load",
        Took::Transaction => "transaction request",
        Took::Attention => "attention",
        Took::Held => "attention that waits for the answer's end",
        Took::Forgotten => "attention that is never acknowledged",
        Took::FailedReset => "failed reset",
        Took::Fault => "fault",
    }
}
