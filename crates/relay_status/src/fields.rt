//! What the fields of a request say of who sends it: whether he means this relay, and whether a page that a
//! browser has loaded from elsewhere may be behind him.

use httparse::spans::{HeaderSpan, Span};
use std::net::SocketAddr;
use std::str;

/// What they say.
#[derive(Clone, Copy)]
pub struct Signs {
    /// Whether there is a `Host`, and each is the address.
    pub is_here: bool,
    /// Whether there is `X-Tdsrelay: 1`. No page can send it unasked, and the relay allows it to none.
    pub is_meant: bool,
    /// Whether a browser says where the page comes from that sends it.
    pub is_of_page: bool,
}

/// What the fields of a head say, which came at this address.
pub fn signs_of(head: &[u8], fields: &[HeaderSpan], at: SocketAddr) -> Signs {
    let (mut hosts, mut strange) = (0u64, false);
    let (mut is_meant, mut is_of_page) = (false, false);
    for field in fields {
        let (name, value) = (bytes_of(head, field.name), bytes_of(head, field.value));
        if name.eq_ignore_ascii_case(b"host") {
            hosts = hosts.saturating_add(1);
            strange = strange || !is_host(value, at);
        } else if name.eq_ignore_ascii_case(b"x-tdsrelay") {
            is_meant = value == b"1".as_slice();
        } else if is_of_browser(name) {
            is_of_page = true;
        }
    }
    Signs {
        is_here: hosts > 0 && !strange,
        is_meant,
        is_of_page,
    }
}

/// Whether a browser alone sets a field of this name.
fn is_of_browser(name: &[u8]) -> bool {
    name.eq_ignore_ascii_case(b"origin") || name.eq_ignore_ascii_case(b"sec-fetch-site")
}

fn bytes_of(head: &[u8], span: Span) -> &[u8] {
    match head.get(span.start..span.end) {
        Some(bytes) => bytes,
        None => &[],
    }
}

/// Whether a `Host` is this address, or this machine's own name for it: no other name, since whoever owns one
/// can have it mean any address.
fn is_host(value: &[u8], at: SocketAddr) -> bool {
    let Ok(text) = str::from_utf8(value) else {
        return false;
    };
    if let Some(port) = text.strip_prefix("localhost:") {
        return at.ip().to_canonical().is_loopback() && port.parse::<u16>() == Ok(at.port());
    }
    match text.parse::<SocketAddr>() {
        Ok(host) => host.port() == at.port() && host.ip() == at.ip().to_canonical(),
        Err(_) => false,
    }
}
