//! The names of transaction manager requests (MS-TDS 2.2.6.9).

use crate::headers::behind_headers;

/// The name of the request that a message spells with its headers; an empty one where it is none of those
/// that are served.
pub fn transaction_name<'a>(data: &[u8]) -> &'a str {
    let body = match behind_headers(data) {
        Some((_, body)) => body,
        None => &[],
    };
    match body {
        [5, 0, ..] => "TM_BEGIN_XACT",
        [7, 0, ..] => "TM_COMMIT_XACT",
        [8, 0, ..] => "TM_ROLLBACK_XACT",
        _ => "",
    }
}
