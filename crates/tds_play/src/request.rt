//! A request's record: what is known of a request, from the time that it is asked to its report.
ghost use Rattle.std.specs.Prelude.{◌≡◌};
ghost use Rattle.tds_play.specs.Acts.{cancel_status, with_status};
ghost use Rattle.tds_ends.specs.Deliveries.{status_under};
ghost use Rattle.tds_play.specs.Links.{IsAsked, lost_record, report_of, stepped};

use std::alloc::Global;
use tds_packet::Reset;
use tds_session::Session;
use tds_token::Token;
use tds_world::{RequestReport, RequestStatus, Sequence};

/// What is known of a request.
#[derive(Drop)]
pub(crate) struct Record {
    lease: u32,
    /// The reset that it asks for.
    mark: Option<Reset>,
    status: RequestStatus,
    /// The session that it ran in.
    ran: Option<Session>,
    /// What its caller was given.
    pub(crate) tokens: Vec<Token>,
}

impl Record {
    /// A request that is asked now.
    pub(crate) fn new(alloc: Global, lease: u32, mark: Option<Reset>) -> Record
        ensures { IsAsked lease mark result }
    {
        Record {
            lease,
            mark,
            status: RequestStatus::Open,
            ran: None,
            tokens: Vec::new(alloc),
        }
    }

    /// A step of its answer was done, from the one session to the other. The first one says in
    /// which session it runs: with a reset the one after that step, else the one before it.
    pub(crate) fn note_step(&mut self, before: Session, after: Session)
        ensures { self.new ≡ stepped before after self.old }
    {
        if self.ran.is_none() {
            self.ran = match self.mark {
                None => Some(before),
                Some(_) => Some(after),
            };
        }
    }

    /// It is cancelled. An attention is out for it, or none of it was sent and none will be.
    pub(crate) fn cancel(&mut self, is_out: bool)
        ensures { self.new ≡ with_status (cancel_status is_out) self.old }
    {
        self.status = if is_out {
            RequestStatus::Cancelling
        } else {
            RequestStatus::Unsent
        };
    }

    /// Its client heard what settles it, or nothing that does.
    pub(crate) fn settle(&mut self, settled: Option<RequestStatus>)
        ensures { self.new ≡ with_status (status_under settled self.old.status) self.old }
    {
        if let Some(status) = settled {
            self.status = status;
        }
    }

    /// Its connection is cut. One that is not settled is lost.
    pub(crate) fn lose(&mut self)
        ensures { self.new ≡ lost_record self.old }
    {
        match self.status {
            RequestStatus::Open | RequestStatus::Cancelling => {
                self.status = RequestStatus::Lost;
            }
            RequestStatus::Finished
            | RequestStatus::Acknowledged
            | RequestStatus::Unsent
            | RequestStatus::Lost => {}
        }
    }

    /// What is told of it in the end, where this is its connection.
    pub(crate) fn report(self, conn: u32) -> RequestReport
        ensures { result ≡ report_of conn self }
    {
        let Record {
            lease,
            mark: _,
            status,
            ran,
            tokens,
        } = self;
        RequestReport {
            lease,
            conn,
            status,
            ran,
            tokens: Sequence::new(tokens),
        }
    }
}
