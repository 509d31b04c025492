//! Reads what FEATUREEXTACK, ENVCHANGE and RETURNVALUE say (MS-TDS 2.2.7.11, 2.2.7.9, 2.2.7.19).

ghost use Rattle.std.specs.Prelude.{◌≡◌, ◌≤◌, ◌<◌, ◌+◌, IfSome, MatchOption, None, Some, length};
ghost use Rattle.tds_state.specs.Sessions.{ends_in_error};
ghost use Rattle.tds_state.specs.Hearing.{feature_at, has_value, new_value, recovery, returned_value, value_length};

use crate::kept::behind;
use crate::spots::{bytes_stand, four_bytes};
use crate::states::{StateSpot, behind_state, spot_of, value_at};

/// Session recovery among the features, and the byte behind the last one.
const RECOVERY: u8 = 1;

const END: u8 = 0xff;

/// Where the feature's data stand that bytes begin with.
#[tactic(auto, unfolding(crate::specs::Hearing::feature_at))]
fn feature_at(bytes: &[u8]) -> Option<StateSpot>
    ensures value { result ≡ feature_at bytes.now }
    ensures within { IfSome result (λ spot. spot.start + spot.length ≤ length bytes.now) }
    ensures moves { IfSome result (λ spot. 0 < spot.start) }
{
    match bytes {
        [id, a, b, c, d, behind @ ..] => {
            if *id == END {
                return None;
            }
            spot_of(*id, 5, u32::from_le_bytes([*a, *b, *c, *d]), behind.len())
        }
        _ => None,
    }
}

/// The data of session recovery among features.
pub(crate) fn recovery(bytes: &[u8]) -> Option<&[u8]>
    ensures { MatchOption result (recovery bytes.now ≡ None)
        (λ states. recovery bytes.now ≡ Some states.now) }
{
    let mut rest = bytes;
    'features: while let Some(spot) = feature_at(rest) {
        if spot.id == RECOVERY {
            return Some(value_at(spot, rest));
        }
        rest = behind_state(spot, rest);
    }
    None
}

/// Whether ENVCHANGE of this type tells a value that a reset may change.
pub(crate) fn has_value(kind: u8) -> bool
    ensures { result ≡ has_value kind }
{
    matches!(kind, 1 | 2 | 3 | 5 | 6 | 7)
}

/// How many bytes the new value has.
fn value_length(kind: u8, count: u8) -> usize
    ensures length { result ≡ value_length kind count }
    ensures few { result ≤ 510 }
{
    if kind == 7 {
        usize::from(count)
    } else {
        2 * usize::from(count)
    }
}

/// The new value of an ENVCHANGE.
#[tactic(auto, unfolding(crate::specs::Hearing::new_value))]
pub(crate) fn new_value(kind: u8, bytes: &[u8]) -> Option<&[u8]>
    ensures value { MatchOption result (new_value kind bytes.now ≡ None)
        (λ value. new_value kind bytes.now ≡ Some value.now) }
    ensures few { IfSome result (λ value. length value.now ≤ 65535) }
{
    let [_, _, _, _, count, behind @ ..] = bytes else {
        return None;
    };
    let length = value_length(kind, *count);
    if behind.len() < length {
        None
    } else {
        Some(&behind[..length])
    }
}

/// The number that a RETURNVALUE returns of a parameter without a name.
pub(crate) fn returned_value(bytes: &[u8]) -> Option<u32>
    ensures { result ≡ returned_value bytes.now }
{
    if bytes_stand(bytes, 3, &[0, 1]) && bytes_stand(bytes, 11, &[0x26, 4, 4]) {
        four_bytes(behind(bytes, 14))
    } else {
        None
    }
}

/// A DONE that ends in an error (MS-TDS 2.2.7.6).
pub(crate) fn ends_in_error(status: u16) -> bool
    ensures { result ≡ ends_in_error status }
{
    status / 2 % 2 == 1 || status / 256 % 2 == 1
}
