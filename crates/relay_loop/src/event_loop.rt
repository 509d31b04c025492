//! All that a relay has: sockets, groups, what it is set to, and what it tells.

use crate::dial_queue::DialQueue;
use crate::names::Names;
use crate::naming::Sent;
use crate::routing::Route;
use relay_groups::{RelayState, Upstream};
use relay_logins::{Groups, Handshake};
use relay_settings::Asked;
use relay_sockets::{Admission, Coming, Role, Sockets};
use relay_status::{Journal, raise};
use socket_places::Link;
use std::alloc::Global;
use std::io;
use std::net::{Net, SocketAddr};

/// What the log says where more applications come than there is room for.
const FULL: &str =
    "more applications come than the relay has room for: 10,000, or what the limit of open files leaves \
(ulimit -n)";

/// All sockets and groups.
#[derive(Drop)]
pub struct EventLoop {
    pub alloc: Global,
    pub asked: Asked,
    pub state: RelayState,
    pub upstream: Upstream,
    pub dial_queue: DialQueue,
    pub names: Names,
    /// Logins that wait for a name's addresses, and those that go on at the next one where one fails.
    pub(crate) sent: Vec<Sent>,
    pub(crate) routes: Vec<Route>,
}

impl EventLoop {
    /// No application yet.
    pub fn new<R: Net>(rt: &R, alloc: Global, asked: Asked) -> io::Result<EventLoop> {
        let state = RelayState {
            alloc,
            sockets: Sockets::new(rt, alloc, asked.is_judged, asked.keeping)?,
            groups: Groups::new(alloc),
            journal: Journal::new(alloc, asked.is_logged, asked.is_json),
        };
        Ok(EventLoop {
            alloc,
            asked,
            state,
            upstream: Upstream::new(),
            dial_queue: DialQueue::new(alloc),
            names: Names::new(alloc),
            sent: Vec::new(alloc),
            routes: Vec::new(alloc),
        })
    }

    /// The millisecond of this round.
    pub fn now(&self) -> u64 {
        self.state.now()
    }

    /// Whether it does nothing by time but what sockets are looked at for: no connection is dialed later, and no name
    /// is asked.
    pub fn waits_for_sockets(&self) -> bool {
        self.dial_queue.is_empty() && self.names.path.is_empty()
    }

    /// These settings are the ones from now on.
    pub fn set(&mut self, asked: Asked) {
        self.asked = asked;
        self.state.sockets.is_judged = asked.is_judged;
        self.state.sockets.keeping = asked.keeping;
        self.state.journal.is_logged = asked.is_logged;
        self.state.journal.lines.is_json = asked.is_json;
        self.state.sockets.touch_all();
    }

    /// An application has come, from there.
    pub fn admit(&mut self, stream: Link, from: Option<SocketAddr>) -> io::Result<()> {
        let admission = self.state.sockets.admission();
        if admission != Admission::Welcome && self.state.sockets.is_newly_full() {
            self.state.journal.note(FULL);
        }
        if admission == Admission::Closed {
            raise(&mut self.state.journal.counts.refused);
            return Ok(());
        }
        let is_proxy = self.asked.proxies.has(from);
        let handshake = Role::Handshake(Coming {
            handshake: Handshake::new(self.alloc, is_proxy),
            is_over: admission == Admission::Told,
        });
        let (out, now) = (Vec::new(self.alloc), self.now());
        let Some(key) = self.state.sockets.take_in(stream, handshake, out, now)? else {
            return Ok(());
        };
        if let Some(socket) = self.state.sockets.get_mut(key) {
            socket.peer = from;
        }
        self.state.say("socket", key, "has come");
        Ok(())
    }
}
