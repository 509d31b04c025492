//! How the system looks after a connection: it asks a silent peer whether it is still there, and gives up
//! a peer that acknowledges nothing.

use libc::net as c;
use std::io::{self, Error, ErrorKind};
use std::os::fd::{AsRawFd, RawFd};

/// The questions without an answer behind which the peer is gone.
const QUESTIONS: i32 = 3;

/// The most seconds that the system takes between two questions.
const MOST: u64 = 32_767;

/// When a peer is given up.
#[derive(Clone, Copy)]
pub struct Keeping {
    /// The seconds of silence before the system asks, 0 for never. Three questions follow, each a sixth of
    /// that behind the one before.
    pub silence: u64,
    /// The seconds for which the peer may leave unacknowledged what it was sent, 0 for the system's own.
    pub unacknowledged: u64,
}

/// A silent peer is asked after a minute, and gone half a minute later.
pub const USUAL: Keeping = Keeping {
    silence: 60,
    unacknowledged: 0,
};

/// Has the system look after a connection so, or after those that a listener accepts.
pub fn keep<S: AsRawFd>(socket: &S, keeping: &Keeping) -> io::Result<()> {
    let fd = socket.as_raw_fd();
    is_set(give_up(fd, milliseconds(keeping.unacknowledged)))?;
    if keeping.silence == 0 {
        return is_set(alive(fd, 0));
    }
    is_set(alive(fd, 1))?;
    is_set(idle(fd, seconds(keeping.silence)))?;
    is_set(between(fd, seconds(keeping.silence / 6)))?;
    is_set(questions(fd))
}

// Each call names its option, so that the check can tell that the system takes it.

fn alive(fd: RawFd, is_asked: i32) -> i32 {
    unsafe { c::setsockopt(fd, c::SOL_SOCKET, c::SO_KEEPALIVE, &number(is_asked), 4) }
}

fn idle(fd: RawFd, seconds: i32) -> i32 {
    unsafe { c::setsockopt(fd, c::IPPROTO_TCP, c::TCP_KEEPIDLE, &number(seconds), 4) }
}

fn between(fd: RawFd, seconds: i32) -> i32 {
    unsafe { c::setsockopt(fd, c::IPPROTO_TCP, c::TCP_KEEPINTVL, &number(seconds), 4) }
}

fn questions(fd: RawFd) -> i32 {
    unsafe { c::setsockopt(fd, c::IPPROTO_TCP, c::TCP_KEEPCNT, &number(QUESTIONS), 4) }
}

fn give_up(fd: RawFd, milliseconds: i32) -> i32 {
    unsafe {
        c::setsockopt(
            fd,
            c::IPPROTO_TCP,
            c::TCP_USER_TIMEOUT,
            &number(milliseconds),
            4,
        )
    }
}

/// As many seconds as the system takes, and one at least.
fn seconds(seconds: u64) -> i32 {
    seconds.clamp(1, MOST) as i32
}

/// As many milliseconds as the system takes.
fn milliseconds(seconds: u64) -> i32 {
    i32::try_from(seconds.saturating_mul(1000)).unwrap_or(i32::MAX)
}

/// An option's value: a C int at the front.
fn number(value: i32) -> [u8; 16] {
    let mut bytes = [0u8; 16];
    bytes[..4].copy_from_slice(&value.to_ne_bytes());
    bytes
}

fn is_set(status: i32) -> io::Result<()> {
    if status < 0 {
        Err(Error::from(ErrorKind::Unsupported))
    } else {
        Ok(())
    }
}
