//! The states of a session by their names, with what a login leaves them at.

/// How the states of the batch language's settings are called, which are numbers. They come first.
pub(crate) const LETTERS: &str = "a|b|c|d|e|f|g|h|i|j|k|l|m|n|o|p|q|r|s|t|u|v|w|x|y|z";

/// The settings of a session, with the values that they have behind a login.
pub(crate) const SETTINGS: &str =
    "database|language|isolation level=read committed|lock_timeout=-1|rowcount=0|textsize=2147483647|\
     dateformat=mdy|datefirst=7|deadlock_priority=normal|nocount=off|xact_abort=off|\
     implicit_transactions=off|ansi_nulls=on|ansi_padding=on|ansi_warnings=on|ansi_null_dflt_on=on|\
     ansi_defaults=off|quoted_identifier=on|concat_null_yields_null=on|arithabort=off|arithignore=off|\
     numeric_roundabort=off|cursor_close_on_commit=off|fmtonly=off|noexec=off|parseonly=off|\
     context_info|identity_insert|others";

/// What a session has made and can't be recovered, as counts.
pub(crate) const MADE: &str = "tables|cursors|locks|handles";

/// A name without the value behind it, and that.
pub(crate) fn named(part: &str) -> (&str, &str) {
    match part.split_once("=") {
        Some((name, value)) => (name, value),
        None => (part, ""),
    }
}

/// Whether a state has this name.
pub fn is_state(name: &str) -> bool {
    has(LETTERS, name) || has(SETTINGS, name) || has(MADE, name)
}

/// Whether a table has this name.
fn has(table: &str, wanted: &str) -> bool {
    for part in table.split("|") {
        let (name, _) = named(part);
        if name == wanted {
            return true;
        }
    }
    false
}

/// Whether a name is this one, but for small and capital letters of ASCII.
pub(crate) fn is_name(name: &str, wanted: &[u16]) -> bool {
    let bytes = name.as_bytes();
    if bytes.len() != wanted.len() {
        return false;
    }
    for (byte, unit) in bytes.iter().zip(wanted.iter()) {
        if u16::from(*byte) != lowered(*unit) {
            return false;
        }
    }
    true
}

/// A letter of ASCII as a small one; any other unit as it is.
pub(crate) fn lowered(unit: u16) -> u16 {
    match unit {
        65..=90 => unit + 32,
        _ => unit,
    }
}
