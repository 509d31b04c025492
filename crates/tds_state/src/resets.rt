//! A reset that was asked for and isn't done (MS-TDS 2.2.3.1.2).

ghost use Rattle.std.specs.Prelude.{◌≡◌};
ghost use Rattle.tds_state.specs.Sessions.{is_full_reset, is_owed, keeps_open, reset_owed_by, transaction_left};

use tds_packet::Reset;

pub(crate) fn is_owed(reset: Option<Reset>) -> bool
    ensures { result ≡ is_owed reset }
{
    match reset {
        Some(_) => true,
        None => false,
    }
}

/// Whether this is a full reset.
pub(crate) fn is_full(reset: Option<Reset>) -> bool
    ensures { result ≡ is_full_reset reset }
{
    match reset {
        Some(Reset::Full) => true,
        Some(Reset::KeepTransaction) | None => false,
    }
}

/// Whether this is a reset that keeps the transaction.
pub(crate) fn keeps_open(reset: Option<Reset>) -> bool
    ensures { result ≡ keeps_open reset }
{
    match reset {
        Some(Reset::KeepTransaction) => true,
        Some(Reset::Full) | None => false,
    }
}

pub(crate) fn owed_by(reset: Option<Reset>, owed: Option<Reset>) -> Option<Reset>
    ensures { result ≡ reset_owed_by reset owed }
{
    match reset {
        Some(reset) => Some(reset),
        None => owed,
    }
}

pub(crate) fn left_by(is_full: bool, transaction: u64) -> u64
    ensures { result ≡ transaction_left is_full transaction }
{
    if is_full { 0 } else { transaction }
}
