//! What a socket is at, by its role and its group's relay.

use relay_groups::{Group, relay_of};
use relay_logins::Groups;
use relay_sockets::RoleKind;
use relay_status::At;
use tds_relay::{Place, PlaceOn, Relay};

/// What a socket that is this is at, of which more may be there to read, and what tells two of that apart.
pub fn at_as(groups: &mut Groups<Group>, role_kind: RoleKind, has_more: bool) -> (At, u64) {
    match role_kind {
        RoleKind::Handshake | RoleKind::Continuation(_) => (At::Login, 0),
        RoleKind::Authenticating(group) => (at_authenticating(groups, group), 1),
        RoleKind::First(_) | RoleKind::Opening(..) | RoleKind::Reauthentication(_) => (
            At::Login,
            0,
        ),
        RoleKind::Owed => (At::Owed, 0),
        RoleKind::Names => (At::Quiet, 0),
        RoleKind::StatusClient | RoleKind::Closing => (At::Other, 0),
        RoleKind::Application(group, application) => at_of(groups, group, application, has_more),
        RoleKind::Connection(group, number) => match relay_of(groups, group) {
            Some(relay) => at_on(relay.place_on(number)),
            None => (At::Other, 0),
        },
    }
}

/// What an application is at that waits until a group's first login is authenticated: where no server can be reached for
/// that, it waits for a connection to open.
fn at_authenticating(groups: &Groups<Group>, group: usize) -> At {
    match groups.get(group) {
        Some(group) if group.is_unreached => At::Opening,
        _ => At::Login,
    }
}

/// What an application of a group is at, of which more may be there to read, and what tells two of that apart.
fn at_of(
    groups: &mut Groups<Group>,
    group: usize,
    application: usize,
    has_more: bool,
) -> (At, u64) {
    let Some(group) = groups.get_mut(group) else {
        return (At::Other, 0);
    };
    let (is_paused, is_beginning) = (group.is_paused(), group.is_beginning());
    let Some(relay) = group.relay() else {
        return (At::Other, 0);
    };
    let at = match at_in(relay, application) {
        At::Quiet if is_paused && has_more => At::Kept,
        At::Quiet if is_beginning && has_more => At::Waiting,
        at => at,
    };
    (at, relay.begun_by(application))
}

/// What an application is at by its relay.
fn at_in(relay: &Relay, application: usize) -> At {
    match relay.place_of(application) {
        Some(Place::Quiet) => At::Quiet,
        Some(Place::Holding(number)) => match relay.is_open_on(number) {
            Some(true) => At::InTransaction,
            _ => At::Holding,
        },
        Some(Place::Waiting) => At::Waiting,
        Some(Place::Opening(number)) => match relay.place_on(number) {
            Some(PlaceOn::Held(_)) => At::TakenBack,
            _ => At::Opening,
        },
        Some(Place::Asking(_)) => At::Asking,
        Some(Place::Cancelling(_)) => At::Cancelling,
        Some(Place::Over) => At::Other,
        None => At::Other,
    }
}

fn at_on(place: Option<PlaceOn>) -> (At, u64) {
    match place {
        Some(PlaceOn::Opening) => (At::Login, 0),
        Some(PlaceOn::Free) => (At::Free, 0),
        Some(PlaceOn::Held(key)) => (At::Held, key as u64),
        Some(PlaceOn::Draining) => (At::Draining, 0),
        Some(PlaceOn::Cleaning) => (At::Cleaning, 0),
        None => (At::Other, 0),
    }
}
