//! The features that LOGIN7 asks for (MS-TDS 2.2.6.4, FeatureExt): the relay asks for none but a federated
//! login, or session recovery where the application does, which brings nothing to be recovered.
ghost use Rattle.std.specs.Prelude.{◌≡◌, ◌<◌, ◌∷◌, [], IsTrue};
ghost use Rattle.relay_logins.specs.Session.{features_in, long_at, long_of};

use crate::login7::{FEATURES, FLAGS_3, is_same, number_at, part_at};
use std::alloc::{AllocError, Global};

/// Where the place stands of the features' place.
const EXTENSION: usize = 56;

/// Session recovery, a federated login, and the byte that ends the features.
const RECOVERY: u8 = 0x01;

const FEDERATED: u8 = 0x02;

const END: u8 = 0xff;

/// The most features of a login.
const MOST: usize = 64;

/// Session recovery without data, and no other feature.
const RECOVERY_ALONE: [u8; 6] = [RECOVERY, 0, 0, 0, 0, END];

/// What of the features is kept.
#[derive(Clone, Copy, PartialEq, Eq)]
pub enum KeptFeatures {
    /// A federated login alone.
    Federated,
    /// That, and else session recovery that brings nothing to be recovered.
    Recovery,
}

/// A feature, by the bytes of LOGIN7 that it stands in.
#[derive(Clone, Copy)]
struct Feature {
    start: usize,
    end: usize,
}

/// Leaves out what the relay doesn't speak: all features but the one that is kept, which stands last then.
pub fn leave_out_features(
    alloc: Global,
    message: &mut Vec<u8>,
    kept: KeptFeatures,
) -> Result<(), AllocError> {
    let found = find_kept(message, kept);
    let start = start_of(message);
    let kept = match (found, start) {
        (Some(feature), Some(start)) if start <= feature.start => {
            match message.get(feature.start..feature.end) {
                Some(bytes) => Some((start, bytes.to_vec(alloc)?)),
                None => None,
            }
        }
        _ => None,
    };
    match kept {
        Some((start, feature)) => {
            message.truncate(start);
            message.extend_from_slice(&feature)?;
            message.push(END)?;
            set_length(message);
        }
        None => {
            if let Some(flags) = message.get_mut(FLAGS_3) {
                *flags &= !FEATURES;
            }
        }
    }
    Ok(())
}

/// The first four bytes are the length.
pub fn set_length(message: &mut [u8]) {
    let length = u32::try_from(message.len()).unwrap_or(u32::MAX);
    set_long(message, 0, length);
}

/// These four bytes are this number, the lowest one first.
fn set_long(message: &mut [u8], place: usize, number: u32) {
    let bytes = number.to_le_bytes();
    if let Some(field) = message.get_mut(place..place.saturating_add(4)) {
        field.copy_from_slice(&bytes);
    }
}

/// Where the features begin, if there are any.
fn start_of(message: &[u8]) -> Option<usize> {
    let flags = *message.get(FLAGS_3)?;
    if flags & FEATURES == 0 {
        return None;
    }
    let place = number_at(message, EXTENSION);
    checked_long_at(message, place)
}

/// The feature that is kept.
fn find_kept(message: &[u8], kept: KeptFeatures) -> Option<Feature> {
    match (find(message, FEDERATED), kept) {
        (Some(federated), _) => Some(federated),
        (None, KeptFeatures::Federated) => None,
        (None, KeptFeatures::Recovery) => find_empty(message),
    }
}

/// Session recovery among the features, where it has no data.
fn find_empty(message: &[u8]) -> Option<Feature> {
    let recovery = find(message, RECOVERY)?;
    if recovery.end == recovery.start.saturating_add(5) {
        Some(recovery)
    } else {
        None
    }
}

/// The last one of this kind among the features, where they stand behind all else: else it isn't known what
/// they are.
fn find(message: &[u8], wanted: u8) -> Option<Feature> {
    let mut place = start_of(message)?;
    let mut found = None;
    for _ in 0..MOST {
        let kind = *message.get(place)?;
        if kind == END {
            return if place.saturating_add(1) == message.len() {
                found
            } else {
                None
            };
        }
        let length = checked_long_at(message, place.saturating_add(1))?;
        let end = place.saturating_add(5).saturating_add(length);
        if kind == wanted {
            found = Some(Feature { start: place, end });
        }
        place = end;
    }
    None
}

/// Whether the features are session recovery without data, and nothing else.
pub(crate) fn asks_recovery_alone(message: &[u8]) -> bool
    ensures is { IsTrue result
        → features_in message.now ≡ 1 ∷ 0 ∷ 0 ∷ 0 ∷ 0 ∷ 255 ∷ [] }
    ensures all { features_in message.now ≡ 1 ∷ 0 ∷ 0 ∷ 0 ∷ 0 ∷ 255 ∷ []
        → IsTrue result }
{
    is_same(features_in(message), &RECOVERY_ALONE)
}

/// What stands in a login from its features' place on.
fn features_in(message: &[u8]) -> &[u8]
    ensures { result.now ≡ features_in message.now }
{
    let start = long_at(message, number_at(message, EXTENSION));
    part_at(message, start as usize, message.len())
}

/// Puts session recovery without data behind all else, as the only feature.
pub(crate) fn move_recovery(message: &mut Vec<u8>) -> Result<(), AllocError> {
    let start = u32::try_from(message.len()).unwrap_or(u32::MAX);
    let place = number_at(message, EXTENSION);
    message.extend_from_slice(&RECOVERY_ALONE)?;
    set_long(message, place, start);
    Ok(())
}

/// The number of four bytes that stands here, the lowest one first; 0 where they don't.
fn long_at(message: &[u8], place: usize) -> u32
    requires { place < 65536 }
    ensures { result ≡ long_at message.now place }
{
    long_of(part_at(message, place, place + 4))
}

#[tactic(auto, unfolding(crate::specs::Session::long_of))]
fn long_of(bytes: &[u8]) -> u32
    ensures { result ≡ long_of bytes.now }
{
    match bytes {
        [a, b, c, d] => u32::from_le_bytes([*a, *b, *c, *d]),
        _ => 0,
    }
}

/// The number of four bytes that stands here, the lowest one first.
fn checked_long_at(message: &[u8], place: usize) -> Option<usize> {
    match message.get(place..place.saturating_add(4)) {
        Some([a, b, c, d]) => Some(u32::from_le_bytes([*a, *b, *c, *d]) as usize),
        _ => None,
    }
}
