//! Why a socket ends.

use relay_settings::SystemError;
use std::fmt::{self, Display, Formatter, Write};

/// Why a socket ends.
#[derive(Clone, Copy)]
pub enum Cause {
    /// The other end has closed it.
    Closed,
    /// The system refuses to read or to write.
    Failed(SystemError),
    /// The other end does what it may not: this.
    Wrong(&'static str),
    /// The other end was silent for too long.
    Silent,
    /// The server refuses a login, with an error of this number, 0 for none.
    Refused(i32),
    /// The server agrees on another packet size than at the first login of the group.
    OtherSize,
    /// The relay closes it: it has told all that it had to, or a limit or an order wants that.
    Own,
}

impl Cause {
    /// Whether it is the other end's doing, and another server is better asked.
    pub fn is_failure(&self) -> bool {
        match self {
            Cause::Closed | Cause::Failed(_) | Cause::Wrong(_) | Cause::Silent => true,
            Cause::Refused(_) | Cause::OtherSize | Cause::Own => false,
        }
    }
}

/// What the other end does, behind its name.
impl Display for Cause {
    fn fmt<W: Write>(&self, f: &mut Formatter<W>) -> fmt::Result {
        match self {
            Cause::Closed => f.write_str("has closed the connection"),
            Cause::Failed(error) => write!(f, "fails with {error}"),
            Cause::Wrong(words) => f.write_str(words),
            Cause::Silent => f.write_str("gave no answer in time"),
            Cause::Refused(0) => f.write_str("refuses the login"),
            Cause::Refused(error) => write!(f, "refuses the login with error {error}"),
            Cause::OtherSize => f.write_str("agrees on another packet size than before"),
            Cause::Own => f.write_str("is let go by the relay"),
        }
    }
}
