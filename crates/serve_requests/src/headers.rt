//! ALL_HEADERS before a request (MS-TDS 2.2.5.3).

/// The header of a transaction's descriptor (MS-TDS 2.2.5.3.2).
const TRANSACTION: u16 = 2;

/// What stands behind a message's headers, and the transaction's descriptor in them; none where these
/// are no headers, or have no descriptor.
pub fn behind_headers(data: &[u8]) -> Option<(u64, &[u8])> {
    let total = number_at(data)?;
    let headers = data.get(4..total)?;
    let descriptor = descriptor_in(headers)?;
    Some((descriptor, data.get(total..)?))
}

/// The number that the first four bytes spell, the lowest one first.
fn number_at(bytes: &[u8]) -> Option<usize> {
    match bytes {
        [a, b, c, d, ..] => {
            let number = u32::from_le_bytes([*a, *b, *c, *d]);
            Some(number as usize)
        }
        _ => None,
    }
}

/// The descriptor among these headers.
fn descriptor_in(headers: &[u8]) -> Option<u64> {
    let mut rest = headers;
    for _ in 0..headers.len() {
        let count = number_at(rest)?;
        if let Some(descriptor) = descriptor_of(rest) {
            return Some(descriptor);
        }
        if count < 6 {
            return None;
        }
        rest = rest.get(count..)?;
    }
    None
}

/// The descriptor in the first of these headers, if it is one of 18 bytes that has it.
fn descriptor_of(headers: &[u8]) -> Option<u64> {
    match headers {
        [18, 0, 0, 0, low, high, a, b, c, d, e, f, g, h, ..]
            if u16::from_le_bytes([*low, *high]) == TRANSACTION => {
            Some(u64::from_le_bytes([*a, *b, *c, *d, *e, *f, *g, *h]))
        }
        _ => None,
    }
}
