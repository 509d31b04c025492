//! Why a session doesn't rest.

ghost use Rattle.std.specs.Prelude.{◌≡◌};
ghost use Rattle.tds_state.specs.Reasons.{first_reason, is_no_reason, reason_astray, reason_due, reason_of_change, reason_of_state, reason_open, session_reason};
ghost use Rattle.tds_state.specs.Sessions.{session_rests};

use crate::resets::is_owed;
use crate::session::{Session, is_quiet};

/// Why a session doesn't rest: the first of these that holds.
#[derive(Clone, Copy, Debug)]
pub enum Reason {
    /// The login acknowledged no session recovery.
    NoRecovery,
    /// Something couldn't be read or kept.
    Unread,
    /// The server says that the session can't be recovered. The lowest number of a state as below, if there is one.
    Unrecoverable(Option<usize>),
    /// A state isn't the one that the login found, or can't be recovered: its number (StateId), the lowest one.
    State(usize),
    /// A value that ENVCHANGE tells isn't, as the database: the change's type.
    Change(usize),
    /// A transaction is open.
    Transaction,
    /// A reset was asked for and isn't done.
    Reset,
    /// There may be what the server doesn't tell, up to a full reset: a call left it, or a reset kept it.
    Untold,
    /// A prepared handle is open, or may be.
    Handle,
    /// An answer is due.
    Answer,
    /// A request was cancelled: one whole answer more is awaited.
    Cancel,
    /// `bulk` stands in the newest batch.
    Bulk,
}

fn first_reason(reason: Option<Reason>, other: Option<Reason>) -> Option<Reason>
    ensures { result ≡ first_reason reason other }
{
    match reason {
        Some(reason) => Some(reason),
        None => other,
    }
}

fn reason_of_state(id: Option<usize>) -> Option<Reason>
    ensures { result ≡ reason_of_state id }
{
    match id {
        Some(id) => Some(Reason::State(id)),
        None => None,
    }
}

fn reason_of_change(kind: Option<usize>) -> Option<Reason>
    ensures { result ≡ reason_of_change kind }
{
    match kind {
        Some(kind) => Some(Reason::Change(kind)),
        None => None,
    }
}

impl Session {
    /// What the server doesn't tell, or what isn't as the login found it.
    fn reason_astray(&self) -> Option<Reason>
        ensures { result ≡ reason_astray self.now }
    {
        if !self.is_acknowledged {
            Some(Reason::NoRecovery)
        } else if self.is_lost {
            Some(Reason::Unread)
        } else if !self.is_recoverable {
            Some(Reason::Unrecoverable(self.states.first_astray()))
        } else {
            let change = reason_of_change(self.changes.first_astray());
            first_reason(reason_of_state(self.states.first_astray()), change)
        }
    }

    /// What is open.
    fn reason_open(&self) -> Option<Reason>
        ensures { result ≡ reason_open self.now }
    {
        if self.transaction != 0 {
            Some(Reason::Transaction)
        } else if is_owed(self.owed) {
            Some(Reason::Reset)
        } else if self.is_pinned || self.asked.may_make_handles() {
            Some(Reason::Untold)
        } else if !self.handles.are_closed() {
            Some(Reason::Handle)
        } else {
            None
        }
    }

    /// What is due, and what belongs to the last request.
    fn reason_due(&self) -> Option<Reason>
        ensures { result ≡ reason_due self.now }
    {
        if !is_quiet(self.flight) {
            Some(Reason::Answer)
        } else if self.awaits {
            Some(Reason::Cancel)
        } else if self.asked.letters >= 8 {
            Some(Reason::Bulk)
        } else {
            None
        }
    }

    #[tactic(auto, using(crate::proofs::Causes::rests_without))]
    pub(crate) fn why(&self) -> Option<Reason>
        ensures reason { result ≡ session_reason self.now }
        ensures rests { session_rests self.now ≡ is_no_reason result }
    {
        let behind = first_reason(self.reason_open(), self.reason_due());
        first_reason(self.reason_astray(), behind)
    }
}
