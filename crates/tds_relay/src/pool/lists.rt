//! Who is in a list.
ghost use Rattle.std.specs.Prelude.{◌≡◌};
ghost use Rattle.tds_relay.specs.Pool.{without};
ghost use Rattle.tds_relay.specs.Core.{is_in};

/// Whether this is among them.
pub(crate) fn has_key(line: &[usize], key: usize) -> bool
    ensures { result ≡ is_in key line.now }
{
    for waits in line {
        if *waits == key {
            return true;
        }
    }
    false
}

pub(crate) fn remove_key(line: &mut Vec<usize>, key: usize)
    ensures { line.new.items ≡ without key line.old.items }
{
    line.retain(|waits| *waits != key);
}
