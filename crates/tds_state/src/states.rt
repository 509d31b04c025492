//! The states of a session (MS-TDS 2.2.7.21), one behind the other.

ghost use Rattle.std.specs.Prelude.{◌≡◌, ◌≤◌, ◌<◌, ◌+◌, IfSome, length};
ghost use Rattle.tds_state.specs.States.{behind_state, gives_value, state_spot, spot_with, state_value};

/// Where a state stands in bytes that begin with it.
#[derive(Clone, Copy, Debug, PartialEq, Eq)]
pub struct StateSpot {
    /// Its number (StateId).
    pub id: u8,
    /// Its value: the first byte, and how many there are.
    pub start: u8,
    pub length: u32,
}

/// A state whose value has so many bytes of those behind it.
pub(crate) fn spot_of(id: u8, start: u8, length: u32, behind: usize) -> Option<StateSpot>
    ensures { result ≡ spot_with id start length behind }
{
    if behind < length as usize {
        None
    } else {
        Some(StateSpot { id, start, length })
    }
}

/// Where the state stands that bytes begin with.
#[tactic(auto, unfolding(crate::specs::States::state_spot))]
pub(crate) fn spot_at(bytes: &[u8]) -> Option<StateSpot>
    ensures value { result ≡ state_spot bytes.now }
    ensures within { IfSome result (λ spot. spot.start + spot.length ≤ length bytes.now) }
    ensures moves { IfSome result (λ spot. 0 < spot.start) }
{
    match bytes {
        [id, 0xff, a, b, c, d, behind @ ..] => {
            let length = u32::from_le_bytes([*a, *b, *c, *d]);
            spot_of(*id, 6, length, behind.len())
        }
        [_, 0xff, ..] => None,
        [id, length, behind @ ..] => spot_of(*id, 2, u32::from(*length), behind.len()),
        _ => None,
    }
}

/// The value of a state that bytes begin with.
pub(crate) fn value_at(spot: StateSpot, bytes: &[u8]) -> &[u8]
    requires { spot.start + spot.length ≤ length bytes.now }
    ensures { result.now ≡ state_value spot bytes.now }
{
    let (_, value) = bytes.split_at(usize::from(spot.start));
    &value[..spot.length as usize]
}

/// What stands behind it.
pub(crate) fn behind_state(spot: StateSpot, bytes: &[u8]) -> &[u8]
    requires { spot.start + spot.length ≤ length bytes.now }
    ensures { result.now ≡ behind_state spot bytes.now }
{
    let (_, behind) = bytes.split_at(usize::from(spot.start) + spot.length as usize);
    behind
}

/// Whether bytes give the state of this number this value.
pub(crate) fn gives_value(bytes: &[u8], id: u8, value: &[u8]) -> bool
    ensures { result ≡ gives_value bytes.now id value.now }
{
    let mut rest = bytes;
    let mut is = false;
    'states: while let Some(spot) = spot_at(rest) {
        if spot.id == id {
            is = value_at(spot, rest) == value;
        }
        rest = behind_state(spot, rest);
    }
    is
}
