ghost use Rattle.std.specs.Prelude.{◌≡◌, ◌++◌, OnOk, string_bytes};
ghost use Rattle.tds_text.specs.Tokens.{message_text, names_text, values_text, done_text, token_line};

use crate::rendering::text::{put_comma, put_hex4, put_units};
use std::alloc::AllocError;
use std::fmt::Write;
use tds_token::{Column, Message, Token};

/// Appends the line of a token that a caller was given.
pub fn put_token_line(text: &mut String, token: &Token) -> Result<(), AllocError>
    ensures { OnOk result (string_bytes text.new ≡ string_bytes text.old ++ token_line token.now) }
{
    match token {
        Token::Info(message) => {
            text.push_str("  info ")?;
            put_message(text, message)?;
            text.push_str("\n")
        }
        Token::Error(message) => {
            text.push_str("  error ")?;
            put_message(text, message)?;
            text.push_str("\n")
        }
        Token::ReturnStatus(value) => writeln!(text, "  status {value}"),
        Token::Columns(columns) => {
            text.push_str("  columns ")?;
            put_names(text, columns.as_slice())?;
            text.push_str("\n")
        }
        Token::Row(row) => {
            text.push_str("  row ")?;
            put_values(text, row.as_slice())?;
            text.push_str("\n")
        }
        Token::Env(_) => Ok(()),
        Token::Done { status, rows, .. } => {
            text.push_str("  done ")?;
            put_done(text, *status, *rows)?;
            text.push_str("\n")
        }
    }
}

fn put_message(text: &mut String, message: &Message) -> Result<(), AllocError>
    ensures { OnOk result
        (string_bytes text.new ≡ string_bytes text.old ++ message_text message.now) }
{
    let number = message.number;
    write!(text, "{number} ")?;
    put_units(text, message.text.units())
}

fn put_names(text: &mut String, columns: &[Column]) -> Result<(), AllocError>
    ensures { OnOk result
        (string_bytes text.new ≡ string_bytes text.old ++ names_text columns.now) }
{
    for (index, column) in columns.iter().enumerate() {
        put_comma(text, index)?;
        put_units(text, column.name.units())?;
    }
    Ok(())
}

fn put_values(text: &mut String, values: &[i32]) -> Result<(), AllocError>
    ensures { OnOk result
        (string_bytes text.new ≡ string_bytes text.old ++ values_text values.now) }
{
    for (index, value) in values.iter().enumerate() {
        put_comma(text, index)?;
        write!(text, "{value}")?;
    }
    Ok(())
}

fn put_done(text: &mut String, status: u16, rows: u64) -> Result<(), AllocError>
    ensures { OnOk result (string_bytes text.new ≡ string_bytes text.old ++ done_text status rows) }
{
    put_hex4(text, status)?;
    write!(text, " {rows}")
}
