//! What is done with answers, as a file says.

mod fault;
mod fields;
mod reading;
mod similar;
mod tokens;

pub use fault::ScriptFault;
pub use reading::read_script;
use serve_recordings::{Exchange, Recording};
use serve_states::Vice;
use serve_values::text::{begins_with, is_same};
use std::alloc::Global;

/// A request: by its number on its connection, from 1, the login being 0; or by its text.
#[derive(Debug, Drop)]
pub enum Which {
    Number(u32),
    Text(Pattern),
}

/// A text, or what a text begins with.
#[derive(Debug, Drop)]
pub struct Pattern {
    pub text: Vec<u16>,
    /// Whether other things may stand behind it.
    pub is_front: bool,
}

/// What an answer breaks.
#[derive(Clone, Copy, Debug, PartialEq, Eq)]
pub enum Breach {
    /// Its last token is no DONE.
    NoDone,
    /// Its last packet doesn't end the message.
    NoEnd,
    /// Its last DONE acknowledges an attention that nobody sent.
    Unasked,
    /// Its last DONE says that more follows.
    More,
}

/// What is done.
#[derive(Debug, Drop)]
pub enum Event {
    /// Of the answer to this request so many steps are done, and no more until an attention has come.
    Hold { request: Which, steps: u32 },
    /// The same; but where an attention has come, the rest of the answer is sent before it is taken.
    Cross { request: Which, steps: u32 },
    /// Once so many bytes went out since this request came, the connection is cut.
    Cut { request: Which, bytes: u32 },
    /// At most so many bytes are sent at a time.
    Split { bytes: u32 },
    /// For a text that is like this, this batch is run.
    Answer { text: Pattern, batch: Vec<u16> },
    /// A text that is like this is answered by these tokens.
    Tokens { text: Pattern, tokens: Vec<u8> },
    /// An attention to this request is never acknowledged.
    Deaf { request: Which },
    /// So many milliseconds go by before this request's answer begins.
    Late { request: Which, milliseconds: u32 },
    /// A connection with nothing underway is closed behind so many milliseconds.
    Close { milliseconds: u32 },
    /// Each login is refused.
    Refuse,
    /// Each reset fails.
    FailReset,
    /// The answer to this request breaks the protocol.
    Break { request: Which, breach: Breach },
    /// The states of a session are told wrongly.
    Tells(Vice),
}

/// What is done with one request.
#[derive(Clone, Copy, Debug)]
pub struct Orders {
    /// How many steps are done before the answer waits for an attention.
    pub steps: Option<u32>,
    /// Whether an attention waits until the answer is sent.
    pub is_crossed: bool,
    /// How many bytes go out before the connection is cut.
    pub cut: Option<u32>,
    /// Whether an attention is never acknowledged.
    pub is_deaf: bool,
    /// How many milliseconds go by before its answer begins.
    pub late: u32,
    pub breach: Option<Breach>,
}

impl Orders {
    /// Nothing but answering.
    pub fn none() -> Orders {
        Orders {
            steps: None,
            is_crossed: false,
            cut: None,
            is_deaf: false,
            late: 0,
            breach: None,
        }
    }
}

impl Orders {
    /// What is done with a recorded request: its answer waits where an attention was sent, and the connection
    /// is closed behind it where it was. A packet has so many bytes of data at most.
    pub fn of_recorded(exchange: &Exchange, room: usize) -> Orders {
        let mut orders = Orders::none();
        if let Some(held) = exchange.held {
            orders.steps = u32::try_from(packets_of(exchange, room, held)).ok();
            orders.is_crossed = true;
        }
        if exchange.is_last {
            let packets = packets_of(exchange, room, usize::MAX);
            let data = exchange.answer.len().saturating_sub(exchange.missing);
            let bytes = packets.saturating_mul(8).saturating_add(data);
            orders.cut = u32::try_from(bytes).ok();
        }
        if !exchange.is_whole {
            orders.breach = Some(Breach::NoEnd);
        }
        orders
    }
}

/// How many packets so many recorded ones of an answer are sent in: a longer one than is sent here in several.
fn packets_of(exchange: &Exchange, room: usize, most: usize) -> usize {
    let mut packets: usize = 0;
    let mut start: usize = 0;
    for (place, end) in exchange.ends.iter().enumerate() {
        if place < most {
            let count = end.saturating_sub(start);
            let count = count.saturating_add(room.saturating_sub(1)) / room.max(1);
            packets = packets.saturating_add(count);
            start = *end;
        }
    }
    packets
}

/// What a text is answered with.
#[derive(Clone, Copy, Debug)]
pub enum Reply<'a> {
    /// What this batch is answered with.
    Batch(&'a [u16]),
    /// These tokens.
    Tokens(&'a [u8]),
}

/// What is done with the answers of each connection.
#[derive(Debug, Drop)]
pub struct Script {
    events: Vec<Event>,
    /// What requests are answered with, in the place of the language.
    recording: Option<Recording>,
}

impl Pattern {
    /// Whether a text is like this.
    fn fits(&self, text: &[u16]) -> bool {
        let wanted = self.text.as_slice();
        if self.is_front {
            begins_with(text, wanted)
        } else {
            is_same(text, wanted)
        }
    }
}

impl Which {
    /// Whether it is the request of this number and text.
    fn is(&self, request: u32, text: &[u16]) -> bool {
        match self {
            Which::Number(number) => *number == request,
            Which::Text(pattern) => request > 0 && pattern.fits(text),
        }
    }
}

impl Event {
    /// The request that it is of, if it is of one.
    fn request(&self) -> Option<&Which> {
        match self {
            Event::Hold { request, .. } => Some(request),
            Event::Cross { request, .. } => Some(request),
            Event::Cut { request, .. } => Some(request),
            Event::Deaf { request } => Some(request),
            Event::Late { request, .. } => Some(request),
            Event::Break { request, .. } => Some(request),
            _ => None,
        }
    }

    /// Adds to the orders of the request that it is of.
    fn order(&self, orders: &mut Orders) {
        match self {
            Event::Hold { steps, .. } => {
                orders.steps = Some(*steps);
                orders.is_crossed = false;
            }
            Event::Cross { steps, .. } => {
                orders.steps = Some(*steps);
                orders.is_crossed = true;
            }
            Event::Cut { bytes, .. } => orders.cut = Some(*bytes),
            Event::Deaf { .. } => orders.is_deaf = true,
            Event::Late { milliseconds, .. } => orders.late = *milliseconds,
            Event::Break { breach, .. } => orders.breach = Some(*breach),
            _ => {}
        }
    }
}

impl Script {
    /// Nothing but answering.
    pub fn none(alloc: Global) -> Script {
        Script {
            events: Vec::new(alloc),
            recording: None,
        }
    }

    /// What was recorded, and nothing else.
    pub fn recorded(alloc: Global, recording: Recording) -> Script {
        Script {
            events: Vec::new(alloc),
            recording: Some(recording),
        }
    }

    /// What was recorded, where requests are answered with that.
    pub fn recording(&self) -> Option<&Recording> {
        self.recording.as_ref()
    }

    /// These events. Of two that say the same of one request, the later one counts.
    pub fn of(events: Vec<Event>) -> Script {
        Script {
            events,
            recording: None,
        }
    }

    /// What is done with the request of this number and text.
    pub fn orders(&self, request: u32, text: &[u16]) -> Orders {
        let mut orders = Orders::none();
        for event in &self.events {
            if let Some(which) = event.request() {
                if which.is(request, text) {
                    event.order(&mut orders);
                }
            }
        }
        orders
    }

    /// What a text is answered with, if the script says it.
    pub fn reply_to(&self, text: &[u16]) -> Option<Reply<'_>> {
        let mut found = None;
        for event in &self.events {
            match event {
                Event::Answer { text: of, batch } if of.fits(text) => {
                    found = Some(Reply::Batch(batch.as_slice()));
                }
                Event::Tokens { text: of, tokens } if of.fits(text) => {
                    found = Some(Reply::Tokens(tokens.as_slice()));
                }
                _ => {}
            }
        }
        found
    }

    /// How many bytes are sent at a time.
    pub fn piece(&self) -> Option<u32> {
        let mut found = None;
        for event in &self.events {
            if let Event::Split { bytes } = event {
                found = Some(*bytes);
            }
        }
        found
    }

    /// Behind how many milliseconds a connection with nothing underway is closed.
    pub fn idle(&self) -> Option<u32> {
        let mut found = None;
        for event in &self.events {
            if let Event::Close { milliseconds } = event {
                found = Some(*milliseconds);
            }
        }
        found
    }

    /// What is told wrongly of a session's states, by its place; none behind the last.
    pub fn vice(&self, place: usize) -> Option<&Vice> {
        let mut left = place;
        for event in &self.events {
            if let Event::Tells(vice) = event {
                if left == 0 {
                    return Some(vice);
                }
                left -= 1;
            }
        }
        None
    }

    /// Whether each login is refused.
    pub fn refuses(&self) -> bool {
        for event in &self.events {
            if matches!(event, Event::Refuse) {
                return true;
            }
        }
        false
    }

    /// Whether each reset fails.
    pub fn fails_reset(&self) -> bool {
        for event in &self.events {
            if matches!(event, Event::FailReset) {
                return true;
            }
        }
        false
    }
}
