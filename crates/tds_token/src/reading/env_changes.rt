//! What stands behind the token byte of an ENVCHANGE (MS-TDS 2.2.7.9).

ghost use Rattle.std.specs.Prelude.{◌≡◌};
ghost use Rattle.tds_token.specs.AsTokens.{env_token_at};
ghost use Rattle.tds_token.specs.Layout.{token_of};
ghost use Rattle.tds_token.specs.Reading.{Gives, empty_at, descriptor_at, new_descriptor_in, old_descriptor_in, no_descriptor_in, env_of, env_in};

use crate::env_change::EnvChange;
use crate::fault::TokenFault;
use crate::reading::fields::{byte, number64, sized};
use crate::token::TokenRef;

/// A value of no bytes.
#[tactic(auto, unfolding(crate::specs::Reading::empty_at))]
fn empty(bytes: &[u8]) -> Result<&[u8], TokenFault>
    ensures { Gives (λ x. x.now) result (empty_at bytes.now) }
{
    let (n, rest) = byte(bytes, TokenFault::WrongLength)?;
    if n != 0 {
        return Err(TokenFault::WrongEnvChange);
    }
    Ok(rest)
}

/// A value of eight bytes, which is not 0.
#[tactic(auto, unfolding(crate::specs::Reading::descriptor_at))]
fn descriptor(bytes: &[u8]) -> Result<(u64, &[u8]), TokenFault>
    ensures { Gives (λ x. (x.0, x.1.now)) result (descriptor_at bytes.now) }
{
    let (n, rest) = byte(bytes, TokenFault::WrongLength)?;
    if n != 8 {
        return Err(TokenFault::WrongEnvChange);
    }
    let (descriptor, rest) = number64(rest, TokenFault::WrongLength)?;
    if descriptor == 0 {
        return Err(TokenFault::WrongEnvChange);
    }
    Ok((descriptor, rest))
}

/// The new value is a descriptor, the old one empty.
#[tactic(auto, unfolding(crate::specs::Reading::new_descriptor_in))]
fn new_descriptor(values: &[u8]) -> Result<u64, TokenFault>
    ensures { Gives (λ x. x) result (new_descriptor_in values.now) }
{
    let (descriptor, rest) = descriptor(values)?;
    let rest = empty(rest)?;
    if !rest.is_empty() {
        return Err(TokenFault::WrongLength);
    }
    Ok(descriptor)
}

/// The new value is empty, the old one a descriptor.
#[tactic(auto, unfolding(crate::specs::Reading::old_descriptor_in))]
fn old_descriptor(values: &[u8]) -> Result<u64, TokenFault>
    ensures { Gives (λ x. x) result (old_descriptor_in values.now) }
{
    let rest = empty(values)?;
    let (descriptor, rest) = descriptor(rest)?;
    if !rest.is_empty() {
        return Err(TokenFault::WrongLength);
    }
    Ok(descriptor)
}

/// Both values are empty.
#[tactic(auto, unfolding(crate::specs::Reading::no_descriptor_in))]
fn no_descriptor(values: &[u8]) -> Result<EnvChange, TokenFault>
    ensures { Gives (λ x. x) result (no_descriptor_in values.now) }
{
    let rest = empty(values)?;
    let rest = empty(rest)?;
    if !rest.is_empty() {
        return Err(TokenFault::WrongLength);
    }
    Ok(EnvChange::ResetDone)
}

/// The ENVCHANGE of this type.
#[tactic(auto, unfolding(crate::specs::Reading::env_of))]
fn env_change_of_type(number: u8, values: &[u8]) -> Result<EnvChange, TokenFault>
    ensures { Gives (λ x. x) result (env_of number values.now) }
{
    match number {
        8 => Ok(EnvChange::Begin(new_descriptor(values)?)),
        9 => Ok(EnvChange::Commit(old_descriptor(values)?)),
        10 => Ok(EnvChange::Rollback(old_descriptor(values)?)),
        18 => no_descriptor(values),
        _ => Err(TokenFault::WrongEnvChange),
    }
}

/// The ENVCHANGE that fills the bytes which a Length counts.
#[tactic(auto, unfolding(crate::specs::Reading::env_in))]
// Few tokens are changes: a row, or a DONE, is looked for first.
#[cold]
fn env_change_inside(inside: &[u8]) -> Result<EnvChange, TokenFault>
    ensures { Gives (λ x. x) result (env_in inside.now) }
{
    let (number, values) = byte(inside, TokenFault::WrongLength)?;
    env_change_of_type(number, values)
}

#[tactic(auto, unfolding(crate::specs::Reading::env_at))]
#[inline(always)]
pub(crate) fn env_change(bytes: &[u8]) -> Result<(TokenRef<'_>, &[u8]), TokenFault>
    ensures { Gives (λ x. (token_of x.0, x.1.now)) result (env_token_at bytes.now) }
{
    let (inside, rest) = sized(bytes)?;
    let change = env_change_inside(inside)?;
    Ok((TokenRef::Env(change), rest))
}
