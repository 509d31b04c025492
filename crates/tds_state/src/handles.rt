//! The prepared handles of a session that are open: a call that prepares one is told its number, and a call that
//! unprepares it names that (MS-TDS 2.2.6.6, 2.2.7.19).

ghost use Rattle.std.specs.Prelude.{◌≡◌};
ghost use Rattle.std.specs.List.{list_any};
ghost use Rattle.tds_state.specs.Handles.{are_closed, handle_put, failed_if, first_returned, handles_begun, handles_settled, is_counted, is_open_place, no_handles, place_of_handle, prepared_by, returned_behind, handles_unprepared, unclear_if, value_returned};

use crate::asked::Call;

/// What the newest answer has returned (RETURNVALUE).
#[derive(Clone, Copy, Debug, PartialEq, Eq)]
pub enum Returned {
    Nothing,
    /// One value, a number of four bytes.
    One(u32),
    /// Another value, or several.
    Unclear,
}

/// Those that are open, up to a most; and what of the newest answer matters for them.
#[derive(Drop)]
pub struct Handles {
    /// Each in a place; 0 where one is free.
    pub(crate) places: [u32; 64],
    /// Which are open isn't clear, up to a full reset.
    pub(crate) is_unclear: bool,
    /// A request began before the last answer's end, up to a full reset: whose answer comes isn't clear.
    pub(crate) overlaps: bool,
    pub(crate) returned: Returned,
    /// It has told an error.
    pub(crate) has_failed: bool,
}

/// Where a number stands first; behind all, where it stands nowhere.
fn place_of_handle(places: &[u32], number: u32) -> usize
    ensures { result ≡ place_of_handle number places.now }
{
    let mut at = 0;
    'places: while at < places.len() {
        if places[at] == number {
            return at;
        }
        at += 1;
    }
    at
}

/// Whether a handle stands in one of these.
fn has_open(places: &[u32]) -> bool
    ensures { result ≡ list_any is_open_place places.now }
{
    let mut rest = places;
    'places: while let [first, behind @ ..] = rest {
        if *first != 0 {
            return true;
        }
        rest = behind;
    }
    false
}

fn first_returned(value: Option<u32>) -> Returned
    ensures { result ≡ first_returned value }
{
    match value {
        Some(number) => Returned::One(number),
        None => Returned::Unclear,
    }
}

fn returned_behind(before: Returned, value: Option<u32>) -> Returned
    ensures { result ≡ returned_behind before value }
{
    match before {
        Returned::Nothing => first_returned(value),
        Returned::One(_) | Returned::Unclear => Returned::Unclear,
    }
}

/// Whether it makes a handle or closes one.
fn is_counted(call: Call) -> bool
    ensures { result ≡ is_counted call }
{
    match call {
        Call::Prepares | Call::Unprepares(_) => true,
        Call::Harmless | Call::Unknown => false,
    }
}

impl Handles {
    /// None is open.
    pub(crate) fn new() -> Handles
        ensures { result ≡ no_handles }
    {
        Handles {
            places: [0; 64],
            is_unclear: false,
            overlaps: false,
            returned: Returned::Nothing,
            has_failed: false,
        }
    }

    /// The next request begins, which asks for a full reset or doesn't, behind the last answer's end or not. The
    /// last one was this call.
    pub(crate) fn begin(&mut self, is_full: bool, is_quiet: bool, call: Call)
        ensures { self.new ≡ handles_begun is_full is_quiet call self.old }
    {
        if is_full {
            self.places = [0; 64];
        }
        self.is_unclear = (!is_full && self.is_unclear) || (!is_quiet && is_counted(call));
        self.overlaps = (!is_full && self.overlaps) || !is_quiet;
        self.returned = Returned::Nothing;
        self.has_failed = false;
    }

    /// Its answer returns a value: a number of four bytes, or another one.
    pub(crate) fn take(&mut self, value: Option<u32>)
        ensures { self.new ≡ value_returned value self.old }
    {
        self.returned = returned_behind(self.returned, value);
    }

    /// Its answer tells an error, or it doesn't.
    pub(crate) fn fail_if(&mut self, is: bool)
        ensures { self.new ≡ failed_if is self.old }
    {
        self.has_failed = is || self.has_failed;
    }

    /// Its answer has ended. It was this call.
    pub(crate) fn settle(&mut self, call: Call)
        ensures { self.new ≡ handles_settled call self.old }
    {
        match call {
            Call::Harmless | Call::Unknown => return,
            Call::Prepares => self.prepare(self.returned),
            Call::Unprepares(handle) => self.unprepare(self.has_failed, handle),
        }
        self.unclear_if(self.overlaps);
    }

    /// Which are open isn't clear from here on, or it stays as it is.
    fn unclear_if(&mut self, is: bool)
        ensures { self.new ≡ unclear_if is self.old }
    {
        self.is_unclear = is || self.is_unclear;
    }

    fn prepare(&mut self, returned: Returned)
        ensures { self.new ≡ prepared_by returned self.old }
    {
        match returned {
            Returned::One(handle) => self.exchange(0, handle),
            Returned::Nothing | Returned::Unclear => self.is_unclear = true,
        }
    }

    fn unprepare(&mut self, has_failed: bool, handle: u32)
        ensures { self.new ≡ handles_unprepared has_failed handle self.old }
    {
        let before = self.places;
        self.exchange(handle, 0);
        if has_failed {
            self.places = before;
        }
    }

    /// The second number stands where the first one stood.
    fn exchange(&mut self, old: u32, new: u32)
        ensures { self.new ≡ handle_put old new self.old }
    {
        let at = place_of_handle(&self.places, old);
        if old == new || at >= 64 {
            self.is_unclear = true;
        } else {
            self.places[at] = new;
        }
    }

    /// Whether none is open.
    pub(crate) fn are_closed(&self) -> bool
        ensures { result ≡ are_closed self.now }
    {
        !self.is_unclear && !has_open(&self.places)
    }
}
