//! An application's login, as it comes.

use crate::notice::{put_refusal, words_of};
use proxy_header::{HeaderReader as ProxyReader, Taken};
use std::alloc::{AllocError, Global};
use std::net::SocketAddr;
use tds_login::{Login, LoginAnswer, put_answer};
use tds_packet::{HeaderReader, Passed as Brought};

/// The most bytes of LOGIN7 (MS-TDS 2.2.6.4).
const MOST: usize = 131_071;

/// What came of bytes.
#[derive(Drop)]
pub enum Passed {
    More,
    /// The whole LOGIN7, without its packets' headers.
    Login(Vec<u8>),
    /// Its login is refused, and this is why. What is to be sent says that too, where it speaks TDS.
    Refused(&'static str),
}

/// An application's login.
#[derive(Drop)]
pub struct Handshake {
    alloc: Global,
    /// The header of the PROXY protocol, while it is due; and whom it named.
    header: Option<ProxyReader>,
    pub source: Option<SocketAddr>,
    login: Login,
    /// Where in its packets the login is.
    packets: HeaderReader,
    message: Vec<u8>,
}

impl Handshake {
    /// Nothing has come. A proxy's begins with who is behind it.
    pub fn new(alloc: Global, is_proxy: bool) -> Handshake {
        Handshake {
            alloc,
            header: header_of(alloc, is_proxy),
            source: None,
            login: Login::new(),
            packets: HeaderReader::new(),
            message: Vec::new(alloc),
        }
    }

    /// Takes bytes. What is answered is appended to `out`.
    pub fn take(&mut self, piece: &[u8], out: &mut Vec<u8>) -> Result<Passed, AllocError> {
        match self.pass_header(piece)? {
            Some(rest) => self.take_login(rest, out),
            None => Ok(Passed::Refused(
                "its proxy begins with no header of the PROXY protocol, version 2",
            )),
        }
    }

    /// What of a piece stands behind the header, where one is due. None where that is no header.
    fn pass_header<'a>(&mut self, piece: &'a [u8]) -> Result<Option<&'a [u8]>, AllocError> {
        let Some(header) = &mut self.header else {
            return Ok(Some(piece));
        };
        let (count, taken) = header.take(piece)?;
        match taken {
            Taken::More => Ok(Some(&[])),
            Taken::Wrong => Ok(None),
            Taken::Whole(source) => {
                self.header = None;
                self.source = source.address();
                Ok(Some(&piece[count..]))
            }
        }
    }

    fn take_login(&mut self, piece: &[u8], out: &mut Vec<u8>) -> Result<Passed, AllocError> {
        let mut rest = piece;
        for _ in 0..piece.len() {
            if rest.is_empty() {
                break;
            }
            let Ok(fed) = self.login.feed(rest) else {
                return Ok(Passed::Refused("its bytes are no login of TDS"));
            };
            let (taken, others) = rest.split_at(fed.count);
            self.gather(taken)?;
            rest = others;
            match fed.answer {
                None => {}
                Some(LoginAnswer::Prepare) => {
                    put_answer(self.alloc, out, LoginAnswer::Prepare)?;
                    self.message.clear();
                }
                Some(LoginAnswer::LetIn(_)) => return Ok(self.whole()),
                Some(LoginAnswer::Refuse(refusal)) => {
                    put_refusal(self.alloc, out, refusal)?;
                    return Ok(Passed::Refused(words_of(refusal)));
                }
            }
        }
        Ok(Passed::More)
    }

    fn whole(&mut self) -> Passed {
        if self.message.len() > MOST {
            return Passed::Refused("its login has more than 131,071 bytes");
        }
        Passed::Login(std::mem::replace(&mut self.message, Vec::new(self.alloc)))
    }

    /// Keeps the data of packets.
    fn gather(&mut self, bytes: &[u8]) -> Result<(), AllocError> {
        let mut rest = bytes;
        for _ in 0..bytes.len() {
            if rest.is_empty() {
                break;
            }
            let (count, brought) = self.packets.take(rest);
            let (taken, others) = rest.split_at(count);
            if matches!(brought, Brought::Data { .. }) {
                self.keep(taken)?;
            }
            rest = others;
        }
        Ok(())
    }

    /// Keeps data, and one byte more than a login may have.
    fn keep(&mut self, data: &[u8]) -> Result<(), AllocError> {
        let room = (MOST + 1).saturating_sub(self.message.len());
        self.message
            .extend_from_slice(&data[..room.min(data.len())])
    }
}

/// A header that is due of a proxy.
fn header_of(alloc: Global, is_proxy: bool) -> Option<ProxyReader> {
    if is_proxy {
        Some(ProxyReader::new(alloc))
    } else {
        None
    }
}
