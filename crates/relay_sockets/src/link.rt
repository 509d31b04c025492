//! A socket.

use socket_places::Link as Stream;
use std::io::{self, ErrorKind, Read, Write};

/// What a read brought.
#[derive(Clone, Copy)]
pub enum Came {
    Nothing,
    Bytes(usize),
    End,
    /// The system refuses: the socket's cause says why.
    Failed,
}

/// The system refuses to send, or there is no memory: the socket's cause says why.
#[derive(Clone, Copy)]
pub struct Failed;

/// What is new of a socket.
#[derive(Clone, Copy)]
pub enum News {
    /// It has more to do, and nothing is said of what came.
    Turn,
    /// Bytes may have come.
    Bytes,
    /// The other end sends no more, or the socket has failed. Bytes may stand before that.
    End,
}

#[derive(Drop)]
pub struct Link {
    stream: Stream,
    /// Whether more may be there to read.
    readable: bool,
    /// Whether the system has reported that the other end sends no more, or that the socket has failed.
    ends: bool,
    /// Whether it is to have a turn.
    pub listed: bool,
}

impl Link {
    /// A socket that isn't registered yet: what is there by then is reported.
    pub fn new(stream: Stream) -> Link {
        Link {
            stream,
            readable: false,
            ends: false,
            listed: false,
        }
    }

    /// The system reported it, or it has more to do. Answers whether it is to be listed for a turn.
    pub fn report(&mut self, news: News) -> bool {
        match news {
            News::Turn => {}
            News::Bytes => self.readable = true,
            News::End => {
                self.readable = true;
                self.ends = true;
            }
        }
        let is_new = !self.listed;
        self.listed = true;
        is_new
    }

    /// Whether more may be there to read.
    pub fn is_readable(&self) -> bool {
        self.readable
    }

    /// Reads once, with room for a byte at least. A read that leaves room has taken all that was there, so
    /// none is tried behind it: whatever comes from then on is reported anew, bytes and the other end's close
    /// alike, and also what came between a report and the read. No close is lost by that: it makes a report
    /// of its own, and where one has said it, bytes are read up to the end.
    pub fn read(&mut self, buffer: &mut [u8]) -> io::Result<Came> {
        if !self.readable {
            return Ok(Came::Nothing);
        }
        match self.stream.read(buffer) {
            Ok(0) => Ok(Came::End),
            Ok(count) => {
                self.readable = self.ends || count >= buffer.len();
                Ok(Came::Bytes(count))
            }
            Err(error) if error.kind() == ErrorKind::WouldBlock => {
                self.readable = false;
                Ok(Came::Nothing)
            }
            Err(error) => Err(error),
        }
    }

    /// Sends what the system takes of these bytes, and answers how many.
    pub fn send(&mut self, bytes: &[u8]) -> io::Result<usize> {
        match self.stream.write(bytes) {
            Ok(count) => Ok(count),
            Err(error) if error.kind() == ErrorKind::WouldBlock => Ok(0),
            Err(error) => Err(error),
        }
    }
}
