//! The bits of a DONE's status (MS-TDS 2.2.7.6). A DONE with none of them ends its answer.

/// More follows: the DONE is not final.
pub const MORE: u16 = 0x0001;

/// The request ended in an ERROR.
pub const ERROR: u16 = 0x0002;

/// A transaction is open.
pub const IN_TRANSACTION: u16 = 0x0004;

/// The row count is valid.
pub const COUNT: u16 = 0x0010;

/// An attention is acknowledged.
pub const ATTENTION: u16 = 0x0020;

/// The server had an error by which the result is void.
pub const SERVER_ERROR: u16 = 0x0100;

/// All of these.
pub(crate) const ALL: u16 = MORE | ERROR | IN_TRANSACTION | COUNT | ATTENTION | SERVER_ERROR;
