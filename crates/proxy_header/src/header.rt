//! The header as its bytes come.
ghost use Rattle.std.specs.Prelude.{◌≡◌, ◌+◌, ◌≤◌, length, take, drop, slice_index};
ghost use Rattle.proxy_header.specs.Header.{AsksForSome, begin_so, header_in, header_by, least};
ghost use Rattle.proxy_header.specs.Header.{high_first_at, signature, source_in};

use crate::source::Source;

/// The most bytes of a header that is read.
pub const LONGEST: usize = 2_048;

/// The bytes with which a header begins.
const SIGNATURE: [u8; 12] = [13, 10, 13, 10, 0, 13, 10, 81, 85, 73, 84, 10];

/// The version and the command: the proxy's own connection, and one for a client.
const LOCAL: u8 = 0x20;

const PROXY: u8 = 0x21;

/// The family and the protocol: TCP over IPv4, and over IPv6.
const TCP4: u8 = 0x11;

const TCP6: u8 = 0x21;

/// What is found in the first bytes of a connection.
#[derive(Clone, Copy, Debug, PartialEq, Eq)]
pub enum Found {
    /// So many bytes more belong to the header at least.
    Missing(usize),
    /// The header is whole.
    Whole(Source),
    /// It is no header, or has more bytes than [`LONGEST`].
    Wrong,
}

/// What is found in these, the first bytes of a connection. The connection's own begin behind a header that
/// is whole, and no byte that is missing is one of them.
pub fn read(bytes: &[u8]) -> Found
    ensures found { result ≡ header_in bytes.now }
    ensures some { AsksForSome result }
{
    if !begins_so(&SIGNATURE, bytes) {
        return Found::Wrong;
    }
    if bytes.len() < 16 {
        return Found::Missing(16 - bytes.len());
    }
    found_behind(bytes)
}

/// Whether bytes, as far as they go, begin so.
#[tactic(auto, using(crate::proofs::Beginning::nothing_begins))]
fn begins_so(beginning: &[u8], bytes: &[u8]) -> bool
    ensures { result ≡ begin_so beginning.now bytes.now }
{
    match (beginning, bytes) {
        ([first, rest @ ..], [byte, others @ ..]) => byte == first && begins_so(rest, others),
        ([], _) => true,
        ([_, ..], []) => true,
    }
}

/// What is found behind the signature.
fn found_behind(bytes: &[u8]) -> Found
    requires { 16 ≤ length bytes.now }
    ensures found { result ≡ header_by bytes.now (slice_index bytes.now 12)
        (slice_index bytes.now 13) (high_first_at bytes.now 14) }
    ensures some { AsksForSome result }
{
    let command = bytes[12];
    if command != LOCAL && command != PROXY {
        return Found::Wrong;
    }
    let count = usize::from(number_at(bytes, 14));
    if count > LONGEST - 16 || count < least(command, bytes[13]) {
        return Found::Wrong;
    }
    if bytes.len() < 16 + count {
        return Found::Missing(16 + count - bytes.len());
    }
    Found::Whole(source(bytes))
}

/// How many bytes of addresses there must be.
fn least(command: u8, family: u8) -> usize
    ensures { result ≡ least command family }
{
    match (command, family) {
        (PROXY, TCP4) => 12,
        (PROXY, TCP6) => 36,
        _ => 0,
    }
}

/// The number that two bytes spell, the highest one first.
fn number_at(bytes: &[u8], at: usize) -> u16
    requires { at + 2 ≤ length bytes.now }
    ensures { result ≡ high_first_at bytes.now at }
{
    256 * u16::from(bytes[at]) + u16::from(bytes[at + 1])
}

/// Who is behind the connection, by a header with all its addresses.
fn source(bytes: &[u8]) -> Source
    requires addresses { 16 + least (slice_index bytes.now 12) (slice_index bytes.now 13)
        ≤ length bytes.now }
    requires header { 16 ≤ length bytes.now }
    ensures { result ≡ source_in bytes.now }
{
    match (bytes[12], bytes[13]) {
        (PROXY, TCP4) => Source::V4(four_from(bytes, 16), number_at(bytes, 24)),
        (PROXY, TCP6) => Source::V6(sixteen_from(bytes, 16), number_at(bytes, 48)),
        _ => Source::Unsaid,
    }
}

/// The four bytes from a place on.
fn four_from(bytes: &[u8], at: usize) -> [u8; 4]
    requires { at + 4 ≤ length bytes.now }
    ensures { result ≡ take 4 (drop at bytes.now) }
{
    let mut four = [0; 4];
    four.copy_from_slice(&bytes[at..at + 4]);
    four
}

/// The sixteen bytes from a place on.
fn sixteen_from(bytes: &[u8], at: usize) -> [u8; 16]
    requires { at + 16 ≤ length bytes.now }
    ensures { result ≡ take 16 (drop at bytes.now) }
{
    let mut sixteen = [0; 16];
    sixteen.copy_from_slice(&bytes[at..at + 16]);
    sixteen
}
