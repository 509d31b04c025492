//! Reads what a token says out of its first bytes.

ghost use Rattle.std.specs.Prelude.{◌≡◌, ◌<◌, ◌≤◌, ℕ, List, false};
ghost use Rattle.tds_wire.specs.Told.{added, both_values, byte_at, change_of, change_value, changed, descriptor_at, digits, done_of, is_descriptor, is_digit, long_at, message_of, next_digit, packet_size, part, part_behind, session_state_of, short_at, sized, told_of, transaction, wide_at};
ghost use Rattle.tds_wire.specs.declared.told.Told.TheVariants as told;

use crate::told::{Change, ChangeValue, Done, Message, Place, SessionState, Told};
use byteorder::{ByteOrder, LittleEndian};

/// A place so many bytes behind another. None is counted beyond the most that 64 bits hold.
pub(crate) fn added(place: u64, count: u64) -> u64
    ensures { result ≡ added place count }
{
    place.saturating_add(count)
}

/// The byte at this place, or 0 where it isn't there.
pub(super) fn byte_at(head: &[u8], at: usize) -> u8
    ensures { result ≡ byte_at head.now at }
{
    match head.get(at) {
        Some(byte) => *byte,
        None => 0,
    }
}

#[tactic(auto, unfolding(crate::specs::Told::short_at))]
fn short_at(head: &[u8], at: usize) -> u16
    requires { at ≤ 300 }
    ensures { result ≡ short_at head.now at }
{
    if head.len() < at + 2 {
        return 0;
    }
    let (front, _) = head[at..].split_at(2);
    LittleEndian::read_u16(front)
}

#[tactic(auto, unfolding(crate::specs::Told::long_at))]
pub(super) fn long_at(head: &[u8], at: usize) -> u32
    requires { at ≤ 300 }
    ensures { result ≡ long_at head.now at }
{
    if head.len() < at + 4 {
        return 0;
    }
    let (front, _) = head[at..].split_at(4);
    LittleEndian::read_u32(front)
}

#[tactic(auto, unfolding(crate::specs::Told::wide_at))]
fn wide_at(head: &[u8], at: usize) -> u64
    requires { at ≤ 300 }
    ensures { result ≡ wide_at head.now at }
{
    if head.len() < at + 8 {
        return 0;
    }
    let (front, _) = head[at..].split_at(8);
    LittleEndian::read_u64(front)
}

/// So many bytes of a token, from this one of it on.
fn part(start: u64, at: u64, length: u64) -> Place
    ensures { result ≡ part start at length }
{
    Place {
        start: added(start, at),
        length,
    }
}

/// All bytes of a token of this size behind this one.
fn part_behind(start: u64, size: u64, at: u64) -> Place
    ensures { result ≡ part_behind start size at }
{
    part(start, at, size.saturating_sub(at))
}

fn is_descriptor(count: u8) -> bool
    ensures { result ≡ is_descriptor count }
{
    count == 0 || count == 8
}

/// The descriptor behind its count, or 0 where there is none.
fn descriptor_at(head: &[u8], at: usize) -> u64
    requires { at ≤ 260 }
    ensures { result ≡ descriptor_at head.now at }
{
    if byte_at(head, at) == 8 {
        wide_at(head, at + 1)
    } else {
        0
    }
}

/// The new descriptor, and the old one behind it.
fn transaction(size: u64, head: &[u8]) -> Option<ChangeValue>
    ensures { result ≡ transaction size head.now }
{
    let new = byte_at(head, 4);
    let behind = 5 + usize::from(new);
    let old = byte_at(head, behind);
    if is_descriptor(new) && is_descriptor(old) && size >= 6 + u64::from(new) + u64::from(old) {
        Some(ChangeValue::Transaction {
            new: descriptor_at(head, 4),
            old: descriptor_at(head, behind),
        })
    } else {
        None
    }
}

/// Whether a unit is a decimal digit.
fn is_digit(head: &[u8], at: usize) -> bool
    requires { at ≤ 260 }
    ensures { result ≡ is_digit head.now at }
{
    byte_at(head, at) >= 48 && byte_at(head, at) < 58 && byte_at(head, at + 1) == 0
}

/// A number with one more digit.
fn next_digit(value: u32, digit: u8) -> u32
    ensures { result ≡ next_digit value digit }
{
    value
        .saturating_mul(10)
        .saturating_add(u32::from(digit.saturating_sub(48)))
}

/// The number of up to five digits.
fn digits(count: u8, head: &[u8]) -> Option<u32>
    requires { count ≤ 5 }
    ensures { result ≡ digits count head.now 5 0 }
{
    let mut value = 0;
    let mut place = 0;
    'digits: while place < count {
        let at = 5 + 2 * usize::from(place);
        if !is_digit(head, at) {
            return None;
        }
        value = next_digit(value, byte_at(head, at));
        place += 1;
    }
    Some(value)
}

/// The size of packets.
fn packet_size(size: u64, head: &[u8]) -> Option<ChangeValue>
    ensures { result ≡ packet_size size head.now }
{
    let count = byte_at(head, 4);
    if count == 0 || count > 5 || size < 5 + 2 * u64::from(count) {
        return None;
    }
    match digits(count, head) {
        Some(size) => Some(ChangeValue::PacketSize(size)),
        None => None,
    }
}

/// A new value of `count` bytes from this one on, and the old one behind its count, which has `width`
/// bytes.
fn both_values(start: u64, size: u64, at: u64, count: u64, width: u64) -> Option<ChangeValue>
    requires at { at ≤ 8 }
    requires count { count < 4294967296 }
    requires width { width ≤ 2 }
    ensures { result ≡ both_values start size at count width }
{
    if size < at + count + width {
        return None;
    }
    Some(ChangeValue::Values {
        new: part(start, at, count),
        old: part_behind(start, size, at + count + width),
    })
}

/// What an ENVCHANGE of this type changes.
#[tactic(auto, unfolding(crate::specs::Told::change_value))]
fn change_value(kind: u8, start: u64, size: u64, head: &[u8]) -> Option<ChangeValue>
    ensures { result ≡ change_value kind start size head.now }
{
    match kind {
        8 | 9 | 10 | 11 | 12 | 17 => transaction(size, head),
        18 => Some(ChangeValue::ResetDone),
        4 => packet_size(size, head),
        1 | 2 => both_values(start, size, 5, 2 * u64::from(byte_at(head, 4)), 1),
        7 => both_values(start, size, 5, u64::from(byte_at(head, 4)), 1),
        15 => both_values(start, size, 8, u64::from(long_at(head, 4)), 1),
        20 => both_values(start, size, 6, u64::from(short_at(head, 4)), 2),
        _ => Some(ChangeValue::Other),
    }
}

fn change_of(start: u64, size: u64, head: &[u8]) -> Told
    ensures { result ≡ change_of start size head.now }
{
    if size < 4 {
        return Told::Unclear;
    }
    let kind = byte_at(head, 3);
    match change_value(kind, start, size, head) {
        Some(value) => Told::Change(Change { kind, value }),
        None => Told::Unclear,
    }
}

pub(super) fn done_of(head: &[u8]) -> Told
    ensures { result ≡ done_of head.now }
{
    Told::Done(Done {
        status: short_at(head, 1),
        command: short_at(head, 3),
        count: wide_at(head, 5),
    })
}

fn message_of(start: u64, size: u64, head: &[u8]) -> Told
    ensures { result ≡ message_of start size head.now }
{
    let length = 2 * u64::from(short_at(head, 9));
    if size < 11 + length {
        return Told::Unclear;
    }
    Told::Message(Message {
        number: long_at(head, 3).cast_signed(),
        state: byte_at(head, 7),
        class: byte_at(head, 8),
        text: part(start, 11, length),
        names: part_behind(start, size, 11 + length),
    })
}

fn session_state_of(start: u64, size: u64, head: &[u8]) -> Told
    ensures { result ≡ session_state_of start size head.now }
{
    if size < 10 {
        return Told::Unclear;
    }
    Told::SessionState(SessionState {
        sequence: long_at(head, 5),
        is_recoverable: byte_at(head, 9) % 2 == 1,
        states: part_behind(start, size, 10),
    })
}

/// Whether anything is told of a token of this kind.
#[tactic(auto, unfolding(crate::specs::Told::told_of))]
pub(crate) fn tells(kind: u8) -> bool
    ensures { result ≡ false → (start size : ℕ) (head : List ℕ)
        → told_of kind start size head ≡ told.Other }
{
    match kind {
        0xFD | 0xFE | 0xFF | 0xE3 | 0xAA | 0xAB | 0x79 | 0xE4 => true,
        _ => false,
    }
}

/// What a token of this kind says that starts here and has so many bytes, of which these are the
/// first.
#[tactic(auto, unfolding(crate::specs::Told::told_of))]
#[inline(never)]
pub(crate) fn told_of(kind: u8, start: u64, size: u64, head: &[u8]) -> Told
    ensures { result ≡ told_of kind start size head.now }
{
    match kind {
        0xFD | 0xFE | 0xFF => done_of(head),
        0xE3 => change_of(start, size, head),
        0xAA | 0xAB => message_of(start, size, head),
        0x79 => Told::ReturnStatus(long_at(head, 1).cast_signed()),
        0xE4 => session_state_of(start, size, head),
        _ => Told::Other,
    }
}
