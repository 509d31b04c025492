//! The database and the features that a LOGIN7 asks for (MS-TDS 2.2.6.4).

use serve_values::text::{units_in, units_of};
use std::alloc::{AllocError, Global};
use tds_packet::{HeaderReader, Passed};

/// The most bytes of a login that are kept to look for the database.
const KEPT: usize = 4608;

/// Where LOGIN7 has the place and the length of the database's name.
const DATABASE: usize = 68;

/// Where it has its third byte of options, and in that the bit that features are asked for.
const OPTIONS: usize = 27;

const HAS_FEATURES: u8 = 0x10;

/// Where it has the place of the place of its features.
const FEATURES: usize = 56;

/// The features SESSIONRECOVERY and UTF8_SUPPORT.
const RECOVERY: u8 = 0x01;

const UTF8: u8 = 0x0a;

/// The most units of a database's name.
const LONGEST: usize = 128;

/// Keeps bytes of a message of the login, as far as there is room for them.
pub fn keep(kept: &mut Vec<u8>, piece: &[u8]) -> Result<(), AllocError> {
    let room = KEPT.saturating_sub(kept.len());
    kept.extend_from_slice(&piece[..room.min(piece.len())])
}

/// The name of the database that a login's packets ask for; `main` where they ask for none.
pub fn database_in(alloc: Global, packets: &[u8]) -> Result<Vec<u16>, AllocError> {
    let data = data_of(alloc, packets)?;
    let name = units_of(alloc, name_in(data.as_slice()).unwrap_or(&[]))?;
    if name.is_empty() || name.len() > LONGEST {
        return units_in(alloc, b"main");
    }
    Ok(name)
}

/// Whether a login's packets ask for the feature of texts in UTF-8.
pub fn asks_for_utf8(alloc: Global, packets: &[u8]) -> Result<bool, AllocError> {
    let data = data_of(alloc, packets)?;
    Ok(count_of(features_in(data.as_slice()).unwrap_or(&[]), UTF8).is_some())
}

/// Whether a login's packets ask for session recovery, and bring no session that is to be recovered.
pub fn asks_for_recovery(alloc: Global, packets: &[u8]) -> Result<bool, AllocError> {
    let data = data_of(alloc, packets)?;
    Ok(count_of(features_in(data.as_slice()).unwrap_or(&[]), RECOVERY) == Some(0))
}

/// The features that a login asks for, and what stands behind them.
fn features_in(login: &[u8]) -> Option<&[u8]> {
    if *login.get(OPTIONS)? & HAS_FEATURES == 0 {
        return None;
    }
    let [low, high, ..] = login.get(FEATURES..)? else {
        return None;
    };
    let at = usize::from(u16::from_le_bytes([*low, *high]));
    let [a, b, c, d, ..] = login.get(at..)? else {
        return None;
    };
    login.get(u32::from_le_bytes([*a, *b, *c, *d]) as usize..)
}

/// How many bytes of data a feature has, if it is among these: each has its number, and the count in four bytes.
fn count_of(features: &[u8], wanted: u8) -> Option<usize> {
    let mut rest = features;
    for _ in 0..features.len() {
        let [number, a, b, c, d, behind @ ..] = rest else {
            return None;
        };
        let count = u32::from_le_bytes([*a, *b, *c, *d]) as usize;
        if *number == wanted {
            return Some(count);
        }
        if *number == 0xff {
            return None;
        }
        rest = behind.get(count..).unwrap_or(&[]);
    }
    None
}

/// What stands behind the headers of packets.
fn data_of(alloc: Global, packets: &[u8]) -> Result<Vec<u8>, AllocError> {
    let mut data = Vec::new(alloc);
    let mut reader = HeaderReader::new();
    let mut rest = packets;
    for _ in 0..packets.len() {
        if rest.is_empty() {
            break;
        }
        let (count, passed) = reader.take(rest);
        let (run, behind) = rest.split_at(count);
        if matches!(passed, Passed::Data { .. }) {
            data.extend_from_slice(run)?;
        }
        rest = behind;
    }
    Ok(data)
}

/// The bytes of the database's name.
fn name_in(login: &[u8]) -> Option<&[u8]> {
    let [low, high, few, many, ..] = login.get(DATABASE..)? else {
        return None;
    };
    let start = usize::from(u16::from_le_bytes([*low, *high]));
    let units = usize::from(u16::from_le_bytes([*few, *many]));
    login.get(start..start.saturating_add(2 * units))
}
