//! Applications whose logins are equal, or one that is alone, and their relay.

use crate::asking::Asked;
use crate::resting::Resting;
use crate::watched::{Watched, is_held};
use relay_logins::{FEATURES, Who};
use relay_questions::Question;
use relay_status::{Done, NOTHING};
use std::alloc::{AllocError, Global};
use std::net::IpAddr;
use tds_packet::PacketSize;
use tds_relay::{Mode, PlaceOn, Relay};

/// The most connections that a group may ever have, whatever it is set to: as `--most` takes.
const MOST: usize = 1_024;

/// How far the first login of a group is.
#[derive(Drop)]
pub enum Stage {
    /// The server authenticates it. Those who wait for that.
    Authenticating(Vec<usize>),
    /// The server has authenticated it: what it answered, for whoever comes later.
    Open(Relay, Vec<u8>),
}

/// The two ends of a group that isn't shared, by their sockets: each ends with the other one.
#[derive(Clone, Copy)]
pub struct Pair {
    pub application: usize,
    pub connection: usize,
}

/// A group.
#[derive(Drop)]
pub struct Group {
    pub stage: Stage,
    pub size: PacketSize,
    /// What its login names.
    pub who: Who,
    /// The most connections.
    pub most: usize,
    /// The two ends, where it isn't shared.
    pub pair: Option<Pair>,
    /// Where its first application is.
    pub from: Option<IpAddr>,
    /// The millisecond since which no application of it is lent a connection, and whether it is to go on
    /// behind this round's turns.
    pub paused: Option<u64>,
    pub goes_on: bool,
    /// The millisecond in which its free connections were checked, and how many requests of the core's
    /// count were none of an application's but such a check.
    pub checked: u64,
    pub checks: u64,
    /// Whether no server could be reached for its first login: who waits until it is authenticated waits for that.
    pub is_unreached: bool,
    /// The number of its first connection, until that was cleaned.
    pub first: Option<u64>,
    /// The millisecond in which a server authenticated its login last, and whether one refuses it now.
    pub authenticated: u64,
    pub is_over: bool,
    /// For how long its applications keep what they are lent.
    pub mode: Mode,
    /// What the server of its first connection is asked before anybody shares, and the question because of which they
    /// share by sessions.
    pub asked: Option<Box<Asked>>,
    pub question: Option<Question>,
    /// Its connections that may rest, the numbers of those from which somebody was parted, and how often that was.
    pub resting: Resting,
    pub parted: Vec<u64>,
    pub partings: u64,
    /// Its connections that are watched.
    pub watched: Watched,
}

impl Pair {
    /// An application whose connection isn't known yet.
    pub fn of(application: usize) -> Pair {
        Pair {
            application,
            connection: usize::MAX,
        }
    }
}

impl Group {
    /// A group whose first login the server authenticates, which these wait for, the first one of them there.
    pub fn new(
        alloc: Global,
        who: Who,
        mode: Mode,
        waiting: Vec<usize>,
        size: PacketSize,
        pair: Option<Pair>,
        from: Option<IpAddr>,
    ) -> Group {
        Group {
            stage: Stage::Authenticating(waiting),
            size,
            who,
            most: 1,
            pair,
            from,
            paused: None,
            goes_on: false,
            checked: 0,
            checks: 0,
            is_unreached: false,
            first: None,
            authenticated: 0,
            is_over: false,
            mode,
            asked: None,
            question: None,
            resting: Resting::new(alloc),
            parted: Vec::new(alloc),
            partings: 0,
            watched: Watched::new(alloc),
        }
    }

    /// Whether the server still authenticates its first login.
    pub fn is_authenticating(&self) -> bool {
        matches!(self.stage, Stage::Authenticating(_))
    }

    /// The question because of which it shares by sessions.
    pub fn because(&self) -> Option<&'static str> {
        match self.question {
            Some(question) => Some(question.words()),
            None => None,
        }
    }

    /// How often a login's time passes at most before who waits for its first one hears of it: once
    /// for that; while its server is asked, once more; and once more where it is begun anew behind that.
    pub fn login_times(&self) -> u64 {
        match (&self.asked, self.question) {
            (Some(_), _) => 2,
            (None, Some(_)) => 3,
            (None, None) => 1,
        }
    }

    /// Whether no application of it is lent a connection for now.
    pub fn is_paused(&self) -> bool {
        self.paused.is_some()
    }

    /// Whether its first connection is cleaned still: no request is read then, since it would dial another one.
    pub fn is_beginning(&self) -> bool {
        match (&self.stage, self.first) {
            (Stage::Open(relay, _), Some(number)) => {
                relay.place_on(number) == Some(PlaceOn::Cleaning)
            }
            _ => false,
        }
    }

    /// Whether an application of it that asks nothing isn't read for now.
    pub fn is_held(&self) -> bool {
        self.is_paused() || self.is_beginning()
    }

    /// Its relay, once there is one.
    pub fn relay(&mut self) -> Option<&mut Relay> {
        match &mut self.stage {
            Stage::Authenticating(_) => None,
            Stage::Open(relay, _) => Some(relay),
        }
    }

    /// What it has done.
    pub fn done(&self) -> Done {
        match &self.stage {
            Stage::Authenticating(_) => NOTHING,
            Stage::Open(relay, _) => {
                let counts = relay.counts();
                Done {
                    requests: counts.requests.saturating_sub(self.checks),
                    cancels: counts.cancels,
                    cleanings: counts.cleanings,
                    failed: counts.failed,
                    partings: self.partings,
                }
            }
        }
    }

    /// What the server answered is forgotten: nobody else gets it.
    pub fn forget_answer(&mut self) {
        if let Stage::Open(_, answer) = &mut self.stage {
            answer.clear();
        }
    }

    /// Its wait queue: the keys of its applications that wait for a connection, the first one first.
    pub fn waiting(&self) -> &[usize] {
        match &self.stage {
            Stage::Authenticating(_) => &[],
            Stage::Open(relay, _) => relay.line(),
        }
    }

    /// How many applications of it are logged in.
    pub fn applications(&self) -> usize {
        match &self.stage {
            Stage::Authenticating(_) => 0,
            Stage::Open(relay, _) => relay.applications(),
        }
    }

    /// How many connections it has.
    pub fn connections(&self) -> usize {
        match &self.stage {
            Stage::Authenticating(_) => 0,
            Stage::Open(relay, _) => relay.connections(),
        }
    }

    /// How many of its connections from which somebody was parted are cleaned still. The others are forgotten.
    pub fn count_parted(&mut self) -> usize {
        let Group { stage, parted, .. } = self;
        let Stage::Open(relay, _) = stage else {
            return 0;
        };
        let mut kept: usize = 0;
        for place in 0..parted.len() {
            let Some(number) = parted.get(place).copied() else {
                break;
            };
            if is_cleaned(relay, number) {
                if let Some(first) = parted.get_mut(kept) {
                    *first = number;
                }
                kept = kept.saturating_add(1);
            }
        }
        parted.truncate(kept);
        kept
    }

    /// Whether behind what its relay says nothing else is to be done: nobody is to be parted for who waits, its
    /// first connection has begun, and somebody is left.
    pub fn is_settled(&self) -> bool {
        match &self.stage {
            Stage::Authenticating(_) => false,
            Stage::Open(relay, _) => {
                self.first.is_none()
                    && relay.applications() > 0
                    && (self.mode == Mode::Sessions || relay.waiting() == 0)
            }
        }
    }

    /// Whether nobody is left of it.
    pub fn is_deserted(&self) -> bool {
        match &self.stage {
            Stage::Authenticating(_) => false,
            Stage::Open(relay, _) => {
                relay.applications() == 0 && relay.connections() == 0 && !self.is_paused()
            }
        }
    }

    /// The server has authenticated its first login.
    pub fn open(
        &mut self,
        alloc: Global,
        most: usize,
        size: PacketSize,
        answer: Vec<u8>,
    ) -> Result<(), AllocError> {
        self.size = size;
        self.stage = Stage::Open(Relay::new(alloc, self.mode, MOST, size, FEATURES)?, answer);
        self.set_most(most)
    }

    /// It may have so many connections from now on.
    pub fn set_most(&mut self, most: usize) -> Result<(), AllocError> {
        self.most = most;
        match self.relay() {
            Some(relay) => relay.set_most(most),
            None => Ok(()),
        }
    }
}

/// Whether the connection of this number is cleaned, or what was underway on it is cancelled.
fn is_cleaned(relay: &Relay, number: u64) -> bool {
    matches!(
        relay.place_on(number),
        Some(PlaceOn::Cleaning | PlaceOn::Draining)
    )
}
