//! Whether a token has a spelling.

ghost use Rattle.std.specs.Prelude.{◌≡◌, ◌↔◌, IsTrue};
ghost use Rattle.std.specs.List.{AllByRecursion};
ghost use Rattle.tds_token.specs.Layout.{Fits, FitsColumn, FitsEnv, FitsMessage};

use crate::columns::Column;
use crate::env_change::EnvChange;
use crate::message::Message;
use crate::reading::is_status;
use crate::token::Token;

impl Token {
    /// Whether `put_token` can write it: a descriptor is not 0, there are 1 to 16 columns with
    /// names of at most 10 units, a row has 1 to 16 values, a message's server and procedure have
    /// at most 255 units each and its Length is at most 65,535, and a DONE's status has no other
    /// bits than `0137`, and not both `0001` and `0020`.
    pub fn fits(&self) -> bool
        ensures { IsTrue result ↔ Fits self.now }
    {
        match self {
            Token::Info(message) => message_fits(message),
            Token::Error(message) => message_fits(message),
            Token::ReturnStatus(_) => true,
            Token::Columns(columns) => {
                let columns = columns.as_slice();
                columns.len() >= 1 && columns.len() <= 16 && names_fit(columns)
            }
            Token::Row(row) => row.as_slice().len() >= 1 && row.as_slice().len() <= 16,
            Token::Env(change) => env_change_fits(*change),
            Token::Done { status, .. } => is_status(*status),
        }
    }
}

fn message_fits(message: &Message) -> bool
    ensures { IsTrue result ↔ FitsMessage message.now }
{
    let text = message.text.units().len();
    let server = message.server.units().len();
    let procedure = message.procedure.units().len();
    text < 65536 && server < 256 && procedure < 256 && 14 + 2 * (text + server + procedure) < 65536
}

fn names_fit(columns: &[Column]) -> bool
    ensures { IsTrue result ↔ AllByRecursion FitsColumn columns.now }
{
    'columns: for column in columns {
        if column.name.units().len() > 10 {
            return false;
        }
    }
    true
}

fn env_change_fits(change: EnvChange) -> bool
    ensures { IsTrue result ↔ FitsEnv change }
{
    match change {
        EnvChange::Begin(descriptor) => descriptor != 0,
        EnvChange::Commit(descriptor) => descriptor != 0,
        EnvChange::Rollback(descriptor) => descriptor != 0,
        EnvChange::ResetDone => true,
    }
}
