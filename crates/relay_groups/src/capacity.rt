//! How many groups there may be: those whose login a server has authenticated, and those whose login it still
//! authenticates, which are counted apart and by where they come from, so that nobody's wrong passwords keep others out.

use crate::group::Group;
use crate::state::RelayState;
use relay_logins::Groups;
use std::net::IpAddr;

/// The most whose login is being authenticated, and those of one address.
const MOST_AUTHENTICATING: usize = 256;

const MOST_OF_ADDRESS: usize = 32;

/// How many groups there are.
#[derive(Clone, Copy)]
struct GroupCounts {
    /// Those that are shared and authenticated, and those that aren't shared.
    shared: usize,
    alone: usize,
    /// Those that are being authenticated, and those of the address that is asked for.
    authenticating: usize,
    of_address: usize,
    /// The oldest one that is shared and has no application.
    idle: Option<usize>,
}

/// What becomes of one more group.
#[derive(Clone, Copy)]
pub enum Slot {
    Free,
    /// It takes this one's.
    Of(usize),
    /// It can't be, and this is why.
    None(&'static str),
}

impl RelayState {
    /// What becomes of one more group, which is shared or not, and comes from there, where so many may be that aren't
    /// shared, and so many that are.
    pub fn slot_for(
        &self,
        is_shared: bool,
        from: Option<IpAddr>,
        most_alone: usize,
        kinds: usize,
    ) -> Slot {
        let counts = count_groups(&self.groups, from);
        slot_in(&counts, is_shared, most_alone, kinds)
    }
}

/// How many groups there are, and of those that are being authenticated of this address.
fn count_groups(groups: &Groups<Group>, from: Option<IpAddr>) -> GroupCounts {
    let mut counts = GroupCounts {
        shared: 0,
        alone: 0,
        authenticating: 0,
        of_address: 0,
        idle: None,
    };
    for (_, entry) in groups.iter() {
        add(&mut counts, entry.key, &entry.value.inner, from);
    }
    counts
}

fn add(counts: &mut GroupCounts, key: usize, group: &Group, from: Option<IpAddr>) {
    // Whose server is asked is authenticated, and somebody waits for it.
    let (is_asked, is_authenticating) = (group.asked.is_some(), group.is_authenticating());
    if is_authenticating && !is_asked {
        counts.authenticating = counts.authenticating.saturating_add(1);
        if group.from == from {
            counts.of_address = counts.of_address.saturating_add(1);
        }
    }
    if group.pair.is_some() {
        counts.alone = counts.alone.saturating_add(1);
    } else if is_asked || !is_authenticating {
        counts.shared = counts.shared.saturating_add(1);
        if !is_authenticating && group.applications() == 0 && !group.is_paused() {
            counts.idle = Some(match counts.idle {
                Some(other) => other.min(key),
                None => key,
            });
        }
    }
}

/// What becomes of one more, which is shared or not, where so many may be that aren't, and so many that are.
fn slot_in(counts: &GroupCounts, is_shared: bool, most_alone: usize, kinds: usize) -> Slot {
    if counts.of_address >= MOST_OF_ADDRESS {
        return Slot::None(
            "The relay has as many logins of this address authenticated as it does at a time, 32.",
        );
    }
    if counts.authenticating >= MOST_AUTHENTICATING {
        return Slot::None("The relay has as many logins authenticated as it does at a time, 256.");
    }
    if !is_shared && counts.alone >= most_alone {
        return Slot::None(
            "The relay has as many logins that can't be shared as it takes (--alone).",
        );
    }
    if !is_shared || counts.shared < kinds {
        return Slot::Free;
    }
    match counts.idle {
        Some(group) => Slot::Of(group),
        None => Slot::None("The relay has as many different logins as it takes (--kinds)."),
    }
}
