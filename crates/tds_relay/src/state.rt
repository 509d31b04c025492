//! What an application is at.
ghost use Rattle.std.specs.Prelude.{◌≡◌, ◌≤◌, [], false, vec_len};
ghost use Rattle.tds_relay.specs.declared.state.TheConstants.{MOST_HELD};

use std::alloc::Global;
use std::mem;
use tds_client::MessageKind;
use tds_front::FrontFault;
use tds_packet::Reset;

/// The most bytes of a request that are kept while it waits for a connection.
pub(crate) const MOST_HELD: usize = 16_384;

/// Where a request is, for who looks.
#[derive(Clone, Copy, Debug)]
pub(crate) enum Asking {
    /// There is none: it has its answer, or was taken back.
    Nothing,
    /// It waits for a connection, or until that is open or idle. Whether all of it has come.
    Waits { kind: MessageKind, whole: bool },
    /// It goes on to its connection as it comes; or all of it has, and its answer is awaited.
    Goes,
}

/// A request that waits.
#[derive(Drop)]
pub(crate) struct Waiting {
    pub(crate) kind: MessageKind,
    /// Whether all of it has come.
    pub(crate) whole: bool,
    /// What has come of its body.
    pub(crate) held: Vec<u8>,
    ghost bounded: { vec_len held ≤ MOST_HELD },
}

/// What is kept of a request: something only of one that waits.
#[derive(Drop)]
pub(crate) enum Request {
    Nothing,
    Waits(Waiting),
    Goes,
}

/// An application that may ask.
#[derive(Drop)]
pub(crate) struct Open {
    pub(crate) request: Request,
    /// The reset that its request asks for itself, while it hasn't been told of it: no packet of the answer
    /// has been handed on.
    pub(crate) reset: Option<Reset>,
    /// Whether what it took back isn't acknowledged: nothing is handed on to it, and its next request waits.
    pub(crate) is_withdrawn: bool,
}

/// What an application is at.
#[derive(Drop)]
pub(crate) enum State {
    /// It may ask, and take back what it asks.
    Open(Open),
    /// Nothing more of it is taken. What it did that the protocol doesn't allow, where that is why.
    Over(Option<FrontFault>),
}

impl Request {
    ghost use Rattle.tds_relay.specs.Places.{request_asking, request_held};

    /// One that is at this, of which nothing is kept.
    pub(crate) fn new(alloc: Global, asking: Asking) -> Request
        ensures asking { request_asking result ≡ asking }
        ensures held { request_held result ≡ [] }
    {
        match asking {
            Asking::Nothing => Request::Nothing,
            Asking::Waits { kind, whole } => Request::Waits(Waiting {
                kind,
                whole,
                held: Vec::new(alloc),
            }),
            Asking::Goes => Request::Goes,
        }
    }

    /// Where it is.
    fn asking(&self) -> Asking
        ensures { result ≡ request_asking self.now }
    {
        match self {
            Request::Nothing => Asking::Nothing,
            Request::Waits(waiting) => Asking::Waits {
                kind: waiting.kind,
                whole: waiting.whole,
            },
            Request::Goes => Asking::Goes,
        }
    }

    /// What is kept of it.
    fn held(&self) -> &[u8]
        ensures { result.now ≡ request_held self.now }
    {
        match self {
            Request::Nothing => &[],
            Request::Waits(waiting) => waiting.held.as_slice(),
            Request::Goes => &[],
        }
    }

    /// It goes on from now on. What was kept of it.
    pub(crate) fn take_held(&mut self, alloc: Global) -> Vec<u8>
        ensures held { result.items ≡ request_held self.old }
        ensures goes { self.new ≡ Request.Goes }
    {
        match mem::replace(self, Request::Goes) {
            Request::Nothing => Vec::new(alloc),
            Request::Waits(waiting) => waiting.held,
            Request::Goes => Vec::new(alloc),
        }
    }
}

impl State {
    ghost use Rattle.tds_relay.specs.Places.{is_state_over, state_asking, state_fault, state_held};
    ghost use Rattle.tds_relay.specs.Places.{new_state, state_reset, state_withdrawn, with_request, with_reset};
    ghost use Rattle.tds_relay.specs.Places.{with_withdrawn};

    /// One that may ask, and asks nothing.
    pub(crate) fn new() -> State
        ensures { result ≡ new_state }
    {
        State::Open(Open {
            request: Request::Nothing,
            reset: None,
            is_withdrawn: false,
        })
    }

    /// Whether nothing more of it is taken.
    pub(crate) fn is_over(&self) -> bool
        ensures { result ≡ is_state_over self.now }
    {
        match self {
            State::Open(_) => false,
            State::Over(_) => true,
        }
    }

    /// What it did that the protocol doesn't allow, where nothing more is taken for that.
    pub(crate) fn fault(&self) -> Option<FrontFault>
        ensures { result ≡ state_fault self.now }
    {
        match self {
            State::Open(_) => None,
            State::Over(why) => *why,
        }
    }

    /// Where its request is.
    pub(crate) fn asking(&self) -> Asking
        ensures { result ≡ state_asking self.now }
    {
        match self {
            State::Open(open) => open.request.asking(),
            State::Over(_) => Asking::Nothing,
        }
    }

    /// What is kept of it.
    pub(crate) fn held(&self) -> &[u8]
        ensures { result.now ≡ state_held self.now }
    {
        match self {
            State::Open(open) => open.request.held(),
            State::Over(_) => &[],
        }
    }

    /// The reset that it asks for, of which it hasn't been told.
    pub(crate) fn reset(&self) -> Option<Reset>
        ensures { result ≡ state_reset self.now }
    {
        match self {
            State::Open(open) => open.reset,
            State::Over(_) => None,
        }
    }

    /// Whether what it took back isn't acknowledged.
    pub(crate) fn is_withdrawn(&self) -> bool
        ensures { result ≡ state_withdrawn self.now }
    {
        match self {
            State::Open(open) => open.is_withdrawn,
            State::Over(_) => false,
        }
    }

    /// Its request asks for this reset, of which it hasn't been told, or for none.
    pub(crate) fn set_reset(&mut self, reset: Option<Reset>)
        ensures { self.new ≡ with_reset reset self.old }
    {
        if let State::Open(open) = self {
            open.reset = reset;
        }
    }

    /// What it took back isn't acknowledged, or that is.
    pub(crate) fn set_withdrawn(&mut self, is_withdrawn: bool)
        ensures { self.new ≡ with_withdrawn is_withdrawn self.old }
    {
        if let State::Open(open) = self {
            open.is_withdrawn = is_withdrawn;
        }
    }

    /// Its request goes on from now on. What was kept of it.
    pub(crate) fn take_held(&mut self, alloc: Global) -> Vec<u8>
        ensures held { result.items ≡ state_held self.old }
        ensures goes { self.new ≡ with_request Request.Goes self.old }
    {
        match self {
            State::Open(open) => open.request.take_held(alloc),
            State::Over(_) => Vec::new(alloc),
        }
    }

    /// Its request is this.
    pub(crate) fn set_request(&mut self, request: Request)
        ensures { self.new ≡ with_request request self.old }
    {
        if let State::Open(open) = self {
            open.request = request;
        }
    }
}
