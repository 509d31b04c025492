//! What a server tells of itself.

use crate::kinds::Kind;
use crate::literals::TEXT;
use crate::moment::Moment;
use crate::numbers::Decimal;
use crate::scalar::{Scalar, Typed};
use crate::text::{is_among, is_word, own, units_in};
use std::alloc::{AllocError, Global};

/// What a server tells of itself.
#[derive(Clone, Copy, Debug)]
pub struct Own<'a> {
    pub database: &'a [u16],
    /// How many transactions are begun within one another.
    pub level: u32,
    /// The session's number.
    pub spid: u16,
    pub now: Moment,
}

/// The product's name, where a version is asked for.
const VERSION: &[u8] = b"Microsoft SQL Server 2012 - 11.0.0.1 (X64), as tdsserve answers it";

/// What a server tells of itself under this word; none where it is not known.
pub(crate) fn own_value(
    alloc: Global,
    word: &[u16],
    own_values: Own<'_>,
) -> Result<Option<Typed>, AllocError> {
    if let Some(text) = constant(word) {
        return Ok(Some(text_value(units_in(alloc, text)?)));
    }
    if is_word(word, b"db_name") {
        return Ok(Some(text_value(own(alloc, own_values.database)?)));
    }
    if let Some(number) = number_named(word, own_values) {
        let scalar = Scalar::Number(Decimal::whole(u64::from(number)));
        let kind = Kind::Int;
        return Ok(Some(Typed { kind, scalar }));
    }
    if is_among(word, &[b"@@identity", b"scope_identity"]) {
        let (kind, scalar) = (Kind::Int, Scalar::Null);
        return Ok(Some(Typed { kind, scalar }));
    }
    Ok(time_named(word, own_values.now))
}

/// A constant text.
fn constant<'a>(word: &[u16]) -> Option<&'a [u8]> {
    if is_word(word, b"@@version") {
        Some(VERSION)
    } else if is_among(word, &[b"serverproperty", b"@@microsoftversion"]) {
        Some(b"11.0.0.1")
    } else if is_word(word, b"@@servername") {
        Some(b"tdsserve")
    } else if is_word(word, b"@@language") {
        Some(b"us_english")
    } else if is_among(word, &[b"user_name", b"current_user", b"schema_name"]) {
        Some(b"dbo")
    } else if is_among(word, &[b"suser_sname", b"suser_name", b"system_user"]) {
        Some(b"sa")
    } else {
        None
    }
}

fn text_value(units: Vec<u16>) -> Typed {
    let scalar = Scalar::Text(units);
    Typed { kind: TEXT, scalar }
}

/// A number.
fn number_named(word: &[u16], own_values: Own<'_>) -> Option<u32> {
    if is_word(word, b"@@trancount") {
        Some(own_values.level)
    } else if is_word(word, b"xact_state") {
        Some(own_values.level.min(1))
    } else if is_word(word, b"@@spid") {
        Some(u32::from(own_values.spid))
    } else if is_among(word, &[b"@@rowcount", b"@@error", b"@@options", b"db_id"]) {
        Some(0)
    } else {
        None
    }
}

/// The time.
fn time_named(word: &[u16], now: Moment) -> Option<Typed> {
    let kind = if is_among(word, &[b"getdate", b"getutcdate", b"current_timestamp"]) {
        Kind::DateTime
    } else if is_among(word, &[b"sysdatetime", b"sysutcdatetime"]) {
        Kind::DateTime2
    } else {
        return None;
    };
    let scalar = Scalar::Moment(now);
    Some(Typed { kind, scalar })
}
