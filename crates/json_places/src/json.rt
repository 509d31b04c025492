//! Bytes that are no JSON.

mod walk;

use crate::json::walk::{Judged, Walk};
use crate::page::Page;
use crate::places::put_place;
use serde_json::Value;
use std::alloc::{AllocError, Global};
use std::fmt::Write;

/// Appends where the bytes stop being JSON, and why that may be.
pub fn put_json_fault(alloc: Global, text: &mut String, page: Page<'_>) -> Result<(), AllocError> {
    let Err(error) = Value::from_slice(alloc, page.bytes) else {
        return Ok(());
    };
    if error.is_memory() {
        return Err(AllocError);
    }
    let token = offset_of(page.bytes, error.line(), error.column());
    let (offset, judged) = break_of(alloc, page.bytes, token)?;
    put_place(text, page, offset)?;
    text.push_str("this is no JSON: ")?;
    match (judged, page.bytes.get(offset).copied()) {
        (Judged::Wrong(reason), _) => text.push_str(reason)?,
        (_, Some(byte @ 33..=126)) => {
            let byte = char::from(byte);
            write!(text, "{byte} can't stand here")?;
        }
        _ => text.push_str("this character can't stand here")?,
    }
    text.push_str("\n")
}

/// How many bytes stand before the first that is no UTF-8; all of them, where each is.
fn valid_front(bytes: &[u8]) -> usize {
    match str::from_utf8(bytes) {
        Ok(_) => bytes.len(),
        Err(error) => error.valid_up_to(),
    }
}

/// How many bytes stand before this line and column, both from 1; the column is a byte.
fn offset_of(bytes: &[u8], line: usize, column: usize) -> usize {
    let mut lines = 1usize;
    let mut start = 0usize;
    for (index, byte) in bytes.iter().enumerate() {
        if lines >= line {
            break;
        }
        if *byte == b'\n' {
            lines = lines.saturating_add(1);
            start = index.saturating_add(1);
        }
    }
    start
        .saturating_add(column.saturating_sub(1))
        .min(bytes.len())
}

/// The first byte that can't stand where it does, and why. Where each can, a text, a number or a word
/// is misspelled: the one that stands at `token`.
fn break_of(alloc: Global, bytes: &[u8], token: usize) -> Result<(usize, Judged), AllocError> {
    if bytes.starts_with(&[0xef, 0xbb, 0xbf]) {
        return Ok((0, Judged::Wrong("it begins with a byte order mark")));
    }
    let valid = valid_front(bytes);
    let mut walk = Walk::new(alloc);
    for (index, byte) in bytes.iter().enumerate().take(valid) {
        let judged = walk.take(*byte)?;
        if !matches!(judged, Judged::Fits) {
            return Ok((index, judged));
        }
    }
    if valid < bytes.len() {
        return Ok((valid, Judged::Wrong("this byte is no UTF-8")));
    }
    if !walk.is_whole() {
        return Ok((bytes.len(), Judged::Wrong("it ends too early")));
    }
    let reason = match bytes.get(token) {
        Some(b'"') => "this text has an escape or a byte that JSON doesn't have",
        _ => "this is no number, and none of true, false and null",
    };
    Ok((token, Judged::Wrong(reason)))
}
