//! Messages as this server writes them (MS-TDS 2.2.7.10, 2.2.7.13).
ghost use Rattle.std.specs.Prelude.{◌≡◌, ◌<◌, ◌^◌, IfOk};
ghost use Rattle.tds_session.specs.Effects.{message, error_token};

use crate::NoMemory;
use std::alloc::Global;
use tds_token::{Message, Text, Token};

/// The class (severity) of each error.
const ERROR_CLASS: u8 = 16;

/// A message without names of a server or procedure.
pub(crate) fn message(alloc: Global, number: u32, class: u8, text: Text) -> Message
    requires { number < 2 ^ 31 }
    ensures { result ≡ message number class text }
{
    Message {
        number: number as i32,
        state: 1,
        class,
        text,
        server: Text::new(Vec::new(alloc)),
        procedure: Text::new(Vec::new(alloc)),
        line: 0,
    }
}

/// An ERROR (MS-TDS 2.2.7.10) of this number below 2^31, of state 1 and class 16, with an ASCII text.
pub fn error_token(alloc: Global, number: u32, text: &[u8]) -> Result<Token, NoMemory>
    requires { number < 2 ^ 31 }
    ensures { IfOk result (λ token. token ≡ error_token number text.now) }
{
    let units = text.iter().map(|byte| u16::from(*byte)).collect(alloc)?;
    Ok(Token::Error(message(alloc, number, ERROR_CLASS, Text::new(units))))
}
