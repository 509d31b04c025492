//! The tokens that tell states.

ghost use Rattle.std.specs.Prelude.{◌≡◌, ◌++◌, ◌∷◌, ◌+◌, [], OnOk, length};
ghost use Rattle.std.specs.Int.{w32, to_le_bytes};

use std::alloc::AllocError;

/// Appends a state (SessionStateData of MS-TDS 2.2.7.21): its number, its length in a byte, or behind FF in four, and
/// its value.
pub(crate) fn put_state(out: &mut Vec<u8>, id: u8, value: &[u8]) -> Result<(), AllocError> {
    out.push(id)?;
    match u8::try_from(value.len()) {
        Ok(count) if count < 0xff => out.push(count)?,
        _ => {
            out.push(0xff)?;
            put_count(out, value.len())?;
        }
    }
    out.extend_from_slice(value)
}

/// Appends a count in four bytes.
fn put_count(out: &mut Vec<u8>, count: usize) -> Result<(), AllocError> {
    let count = u32::try_from(count).unwrap_or(u32::MAX);
    out.extend_from_slice(&count.to_le_bytes())
}

/// Appends SESSIONSTATE (MS-TDS 2.2.7.21) of this number, with these states.
pub fn put_session_state(
    out: &mut Vec<u8>,
    number: u32,
    is_recoverable: bool,
    states: &[u8],
) -> Result<(), AllocError> {
    out.push(0xe4)?;
    put_count(out, states.len().saturating_add(5))?;
    out.extend_from_slice(&number.to_le_bytes())?;
    out.push(u8::from(is_recoverable))?;
    out.extend_from_slice(states)
}

/// Appends FEATUREEXTACK (MS-TDS 2.2.7.11) of session recovery with these initial states, and of the feature
/// UTF8_SUPPORT, which isn't given, where that was asked for too.
pub fn put_features(out: &mut Vec<u8>, states: &[u8], has_utf8: bool) -> Result<(), AllocError> {
    out.extend_from_slice(&[0xae, 0x01])?;
    put_count(out, states.len())?;
    out.extend_from_slice(states)?;
    if has_utf8 {
        out.extend_from_slice(&[0x0a, 1, 0, 0, 0, 0])?;
    }
    out.extend_from_slice(&[0xff])
}
