//! What the pool looks at in a client.
ghost use Rattle.std.specs.Prelude.{◌≡◌, None, Some, ◌++◌, OnOk, OnErr, IfErr};
ghost use Rattle.tds_client.specs.Session.{marked};
ghost use Rattle.tds_client.specs.Sending.{cancelled};
ghost use Rattle.tds_pool.specs.Calls.{session_behind, bytes_behind, IsAsked, is_idle, is_broken, rests_at, unless_idle, unless_open, has_no_transaction, is_clean, rests_clean, asks_reset, behind_refusal, IsRefusal};

use crate::answers::PoolRefusal;
use crate::seat::Place;
use tds_client::{Client, ClientRefusal, ClientState};
use tds_packet::Reset;
use tds_request::Request;

/// Whether no request is underway.
pub(crate) fn idle(client: &Client) -> bool
    ensures { result ≡ is_idle client.now.stage }
{
    match client.state() {
        ClientState::Idle => true,
        ClientState::Sending => false,
        ClientState::Reading => false,
        ClientState::Cancelling => false,
        ClientState::Broken(_) => false,
    }
}

/// Where a connection stands that nobody holds; none where its client is broken.
pub(crate) fn resting_place(client: &Client) -> Option<Place>
    ensures { result ≡ rests_at client.now.stage }
{
    match client.state() {
        ClientState::Idle => Some(Place::Free),
        ClientState::Sending => Some(Place::Draining),
        ClientState::Reading => Some(Place::Draining),
        ClientState::Cancelling => Some(Place::Draining),
        ClientState::Broken(_) => None,
    }
}

/// Refuses a client that is broken or not idle.
pub(crate) fn check_idle(client: &Client) -> Result<(), PoolRefusal>
    ensures ok { OnOk result (unless_idle client.now.stage ≡ None) }
    ensures refused { IfErr result (λ refusal. unless_idle client.now.stage ≡ Some refusal) }
{
    match client.state() {
        ClientState::Idle => Ok(()),
        ClientState::Sending => Err(PoolRefusal::NotIdle),
        ClientState::Reading => Err(PoolRefusal::NotIdle),
        ClientState::Cancelling => Err(PoolRefusal::NotIdle),
        ClientState::Broken(_) => Err(PoolRefusal::Broken),
    }
}

/// Whether no transaction is open, or a full reset is about to end it.
fn no_transaction(client: &Client) -> bool
    ensures { result ≡ has_no_transaction client.now.heard.descriptor client.now.heard.mark }
{
    match client.reset_mark() {
        None => client.descriptor() == 0,
        Some(Reset::Full) => true,
        Some(Reset::KeepTransaction) => client.descriptor() == 0,
    }
}

/// Refuses a client that is broken, not idle, or without a transaction to keep.
pub(crate) fn check_open(client: &Client) -> Result<(), PoolRefusal>
    ensures ok { OnOk result (unless_open client.now client.now.stage ≡ None) }
    ensures refused { IfErr result (λ refusal.
        unless_open client.now client.now.stage ≡ Some refusal) }
{
    match client.state() {
        ClientState::Idle => {
            if no_transaction(client) {
                Err(PoolRefusal::NoTransaction)
            } else {
                Ok(())
            }
        }
        ClientState::Sending => Err(PoolRefusal::NotIdle),
        ClientState::Reading => Err(PoolRefusal::NotIdle),
        ClientState::Cancelling => Err(PoolRefusal::NotIdle),
        ClientState::Broken(_) => Err(PoolRefusal::Broken),
    }
}

/// Marks a client for a reset, unless it is broken or not idle.
pub(crate) fn mark(client: &mut Client, reset: Reset) -> Result<(), PoolRefusal>
    ensures ok { OnOk result (unless_idle client.old.stage ≡ None) }
    ensures marked { OnOk result (client.new ≡ marked client.old reset) }
    ensures refused { IfErr result (λ refusal. unless_idle client.old.stage ≡ Some refusal) }
    ensures err { OnErr result (client.new ≡ client.old) }
{
    check_idle(client)?;
    match client.mark_reset(reset) {
        Ok(()) => Ok(()),
        Err(_) => unreachable!(),
    }
}

/// Cancels what is underway. The only refusal is `Memory`; a broken client stays as it is.
pub(crate) fn cancel(client: &mut Client, out: &mut Vec<u8>) -> Result<(), PoolRefusal>
    ensures ok { OnOk result (client.new
        ≡ session_behind (cancelled client.old) client.old) }
    ensures bytes { OnOk result (out.new.items
        ≡ out.old.items ++ bytes_behind (cancelled client.old)) }
    ensures refused { IfErr result (λ refusal. (refusal ≡ PoolRefusal.Memory)
        × IsAsked (cancelled client.old)) }
    ensures err { OnErr result (client.new ≡ client.old) }
    ensures nothing { OnErr result (out.new.items ≡ out.old.items) }
{
    match client.cancel(out) {
        Ok(_) => Ok(()),
        Err(ClientRefusal::Memory) => Err(PoolRefusal::Memory),
        Err(ClientRefusal::Broken) => Ok(()),
        Err(ClientRefusal::NotIdle) => Ok(()),
        Err(ClientRefusal::NotSending) => Ok(()),
    }
}

/// Whether a client has heard that its reset was done, and is in no transaction.
fn is_clean(client: &Client) -> bool
    ensures { result ≡ is_clean client.now }
{
    match client.reset_mark() {
        None => client.descriptor() == 0,
        Some(_) => false,
    }
}

/// Where a connection stands that is being cleaned; none where its client is broken, its reset was
/// not done, or it is still in a transaction.
pub(crate) fn clean_place(client: &Client) -> Option<Place>
    ensures { result ≡ rests_clean client.now client.now.stage }
{
    match client.state() {
        ClientState::Idle => {
            if is_clean(client) {
                Some(Place::Free)
            } else {
                None
            }
        }
        ClientState::Sending => Some(Place::Cleaning),
        ClientState::Reading => Some(Place::Cleaning),
        ClientState::Cancelling => Some(Place::Cleaning),
        ClientState::Broken(_) => None,
    }
}

/// Starts a request that asks for a full reset, unless the client is broken or not idle.
pub(crate) fn start_reset(client: &mut Client, request: &Request) -> Result<(), PoolRefusal>
    ensures ok { OnOk result (unless_idle client.old.stage ≡ None) }
    ensures asked { OnOk result (client.new ≡ asks_reset client.old request.now) }
    ensures refused { IfErr result (IsRefusal (unless_idle client.old.stage)) }
    ensures err { IfErr result (λ refusal. client.new ≡ behind_refusal refusal client.old) }
{
    mark(client, Reset::Full)?;
    match client.start(request) {
        Ok(()) => Ok(()),
        Err(ClientRefusal::Memory) => Err(PoolRefusal::Memory),
        Err(ClientRefusal::Broken) => unreachable!(),
        Err(ClientRefusal::NotIdle) => unreachable!(),
        Err(ClientRefusal::NotSending) => unreachable!(),
    }
}
