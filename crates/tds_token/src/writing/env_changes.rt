ghost use Rattle.std.specs.Prelude.{◌≡◌, ◌<◌, ◌^◌, ◌++◌, ◌∷◌, [], OnOk, OnErr};
ghost use Rattle.std.specs.Int.{w64, to_le_bytes};
ghost use Rattle.tds_token.specs.Layout.{RangedEnv, env_inside, sized};

use crate::env_change::EnvChange;
use std::alloc::AllocError;

/// An ENVCHANGE (MS-TDS 2.2.7.9): its Length, its type, and the two values behind their counts.
pub(crate) fn put_env_change(out: &mut Vec<u8>, change: EnvChange) -> Result<(), AllocError>
    ensures ok { OnOk result (out.new.items ≡ out.old.items ++ 0xE3 ∷ sized (env_inside change)) }
    ensures ranged { OnOk result (RangedEnv change) }
    ensures err { OnErr result (out.new.items ≡ out.old.items) }
{
    match change {
        EnvChange::Begin(descriptor) => put_new(out, descriptor),
        EnvChange::Commit(descriptor) => put_old(out, 9, descriptor),
        EnvChange::Rollback(descriptor) => put_old(out, 10, descriptor),
        EnvChange::ResetDone => out.extend_from_slice(&[0xE3, 3, 0, 18, 0, 0]),
    }
}

/// A change of type 8: its new value is a descriptor, the old one is empty.
fn put_new(out: &mut Vec<u8>, descriptor: u64) -> Result<(), AllocError>
    ensures ok { OnOk result (out.new.items ≡ out.old.items
        ++ 0xE3 ∷ 11 ∷ 0 ∷ 8 ∷ 8 ∷ (to_le_bytes w64 descriptor ++ 0 ∷ [])) }
    ensures ranged { descriptor < 2 ^ 64 }
    ensures err { OnErr result (out.new.items ≡ out.old.items) }
{
    let d = descriptor.to_le_bytes();
    out.extend_from_slice(&[
        0xE3, 11, 0, 8, 8, d[0], d[1], d[2], d[3], d[4], d[5], d[6], d[7], 0,
    ])
}

/// A change of this type, whose new value is empty and whose old one is a descriptor.
fn put_old(out: &mut Vec<u8>, kind: u8, descriptor: u64) -> Result<(), AllocError>
    ensures ok { OnOk result (out.new.items ≡ out.old.items
        ++ 0xE3 ∷ 11 ∷ 0 ∷ kind ∷ 0 ∷ 8 ∷ to_le_bytes w64 descriptor) }
    ensures ranged { descriptor < 2 ^ 64 }
    ensures err { OnErr result (out.new.items ≡ out.old.items) }
{
    let d = descriptor.to_le_bytes();
    out.extend_from_slice(&[
        0xE3, 11, 0, kind, 0, 8, d[0], d[1], d[2], d[3], d[4], d[5], d[6], d[7],
    ])
}
