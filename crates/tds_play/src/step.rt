//! What an event does, read once: by what it is about.
ghost use Rattle.std.specs.Prelude.{◌≡◌};
ghost use Rattle.tds_play.specs.Stepping.{caller_event, conn_of, event_of, lease_of, link_event};

use tds_request::Request;
use tds_world::Event;

/// What a caller does on the connection of its lease.
#[derive(Clone, Copy)]
pub(crate) enum CallerStep<'a> {
    Ask(u32, &'a Request),
    Send(u32),
    Cancel(u32),
}

/// What happens at the ends of a connection without its caller.
#[derive(Clone, Copy)]
pub(crate) enum LinkStep {
    Work(u32),
    ToServer(u32, u32),
    ToClient(u32, u32),
    Cut(u32),
}

/// What happens at the ends of a connection.
#[derive(Clone, Copy)]
pub(crate) enum EndsStep<'a> {
    OfCaller(CallerStep<'a>),
    OfLink(LinkStep),
}

/// What is about one connection that is there.
#[derive(Clone, Copy)]
pub(crate) enum OneStep<'a> {
    Resume(u32),
    GiveBack(u32),
    Keep(u32),
    Abandon(u32),
    Clean(u32),
    AtEnds(EndsStep<'a>),
}

/// What an event does: it opens a lease, restarts an end, or is about one connection.
#[derive(Clone, Copy)]
pub(crate) enum Step<'a> {
    Lease,
    RestartServer,
    RestartClient,
    OfOne(OneStep<'a>),
}

impl CallerStep<'_> {
    /// The lease of its caller.
    pub(crate) fn lease(self) -> u32
        ensures { result ≡ lease_of self.entry }
    {
        match self {
            CallerStep::Ask(lease, _) | CallerStep::Send(lease) | CallerStep::Cancel(lease) =>
                lease,
        }
    }
}

impl LinkStep {
    /// The number of its connection.
    pub(crate) fn conn(self) -> u32
        ensures { result ≡ conn_of self }
    {
        match self {
            LinkStep::Work(conn)
            | LinkStep::ToServer(conn, _)
            | LinkStep::ToClient(conn, _)
            | LinkStep::Cut(conn) => conn,
        }
    }
}

/// What an event does.
pub(crate) fn step_of(event: &Event) -> Step<'_>
    ensures { event_of result ≡ event.now }
{
    match event {
        Event::Lease => Step::Lease,
        Event::RestartServer => Step::RestartServer,
        Event::RestartClient => Step::RestartClient,
        Event::Resume(ticket) => Step::OfOne(OneStep::Resume(*ticket)),
        Event::GiveBack(lease) => Step::OfOne(OneStep::GiveBack(*lease)),
        Event::Keep(lease) => Step::OfOne(OneStep::Keep(*lease)),
        Event::Abandon(ticket) => Step::OfOne(OneStep::Abandon(*ticket)),
        Event::Clean(conn) => Step::OfOne(OneStep::Clean(*conn)),
        Event::Ask(lease, request) => of_caller(CallerStep::Ask(*lease, request)),
        Event::Send(lease) => of_caller(CallerStep::Send(*lease)),
        Event::Cancel(lease) => of_caller(CallerStep::Cancel(*lease)),
        Event::Work(conn) => of_link(LinkStep::Work(*conn)),
        Event::ToServer(conn, most) => of_link(LinkStep::ToServer(*conn, *most)),
        Event::ToClient(conn, most) => of_link(LinkStep::ToClient(*conn, *most)),
        Event::Cut(conn) => of_link(LinkStep::Cut(*conn)),
    }
}

fn of_caller(step: CallerStep<'_>) -> Step<'_>
    ensures { event_of result ≡ caller_event step.entry }
{
    Step::OfOne(OneStep::AtEnds(EndsStep::OfCaller(step)))
}

fn of_link<'a>(step: LinkStep) -> Step<'a>
    ensures { event_of result ≡ link_event step }
{
    Step::OfOne(OneStep::AtEnds(EndsStep::OfLink(step)))
}
