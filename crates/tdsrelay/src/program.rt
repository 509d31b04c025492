//! The loop over all sockets: who comes, what the system reports, and when it ends.

use crate::json::Telling;
use crate::polling::Polling;
use crate::writing::Log;
use mio::{Events, Token};
use relay_loop::EventLoop;
use relay_settings::Asked;
use relay_sockets::{News, ROUND};
use relay_status::Moment;
use socket_places::{Listener, Place};
use std::alloc::Global;
use std::fs::Files;
use std::io::{self, Stderr};
use std::net::{Net, SocketAddr};
use std::rt::Clock;
use std::time::Instant;

/// The token of the listener.
const LISTENER: Token = Token(usize::MAX);

/// The token of standard input, where the relay ends with it.
const INPUT: Token = Token(usize::MAX - 1);

/// The token of the listener for those who ask what the relay does.
const ASKERS: Token = Token(usize::MAX - 2);

/// The token of standard error.
const LOG: Token = Token(usize::MAX - 3);

/// The milliseconds from one look at time limits to the next: ten times as long as the look takes, within
/// these bounds. What a socket is at is seen then: a limit runs out so much later at most, where it runs from a
/// request's first bytes, and else twice so much.
const SWEEP: u64 = 250;

const LONGEST_SWEEP: u64 = 500;

/// The most milliseconds that it sleeps where nothing happens and no limit runs out.
const LONGEST_SLEEP: u64 = 1_000;

/// The most bytes that are read at once.
pub const PIECE: usize = 32_768;

/// A relay that runs.
#[derive(Drop)]
pub struct Program {
    pub event_loop: EventLoop,
    /// The arguments that it was called with, by which its settings are read again.
    pub arguments: Vec<String>,
    pub listener: Listener,
    /// Whether some who came may not be accepted yet.
    pub leaves_some: bool,
    /// Where it listens.
    at: SocketAddr,
    pub stats: Option<Listener>,
    log: Log,
    /// The sockets of those who ask that the settings are read again.
    pub reloads: Vec<usize>,
    /// The groups that are to go on behind this round's turns.
    pub resumed: Vec<usize>,
    /// The sockets of those who ask for JSON, and who of them is being told.
    pub asking: Vec<usize>,
    pub telling: Option<Telling>,
    start: Instant,
    /// The milliseconds from 1970 to that, by the clock as it stood at the last look at time limits.
    began: u64,
    /// The millisecond of the last look at time limits, and for how many the next one is waited for.
    swept: u64,
    pause: u64,
    /// For how long it asks the system again at once.
    pub polling: Polling,
    /// The millisecond from which it ends in order.
    pub ending: Option<u64>,
}

impl Program {
    /// A relay that listens and has no application yet.
    pub fn new<R: Net + Files + Clock>(
        rt: &R,
        alloc: Global,
        arguments: Vec<String>,
        asked: Asked,
        errors: Stderr,
    ) -> io::Result<Program> {
        let start = Instant::now(rt)?;
        let mut event_loop = EventLoop::new(rt, alloc, asked)?;
        let listener = event_loop
            .state
            .sockets
            .listen(rt, &Place::Tcp(asked.listen), LISTENER)?;
        // Where a port was asked for that is free, it is known now.
        let listen = listener.address()?.unwrap_or(asked.listen);
        event_loop.state.sockets.watch_log(LOG);
        event_loop.set(Asked { listen, ..asked });
        Ok(Program {
            event_loop,
            arguments,
            listener,
            leaves_some: true,
            at: listen,
            stats: None,
            log: Log::new(errors),
            reloads: Vec::new(alloc),
            resumed: Vec::new(alloc),
            asking: Vec::new(alloc),
            telling: None,
            start,
            began: milliseconds_since_1970(rt)?,
            swept: 0,
            pause: SWEEP,
            polling: Polling::new(),
            ending: None,
        })
    }

    /// From now on it tells whoever asks at this place what it does. Answers its address, over TCP.
    pub fn tell_at<R: Net + Files>(
        &mut self,
        rt: &R,
        place: &Place,
    ) -> io::Result<Option<SocketAddr>> {
        let listener = self.event_loop.state.sockets.listen(rt, place, ASKERS)?;
        let address = listener.address()?;
        self.stats = Some(listener);
        Ok(address)
    }

    /// From now on it ends in order where standard input ends, which is to be a pipe or a socket.
    pub fn end_with_input(&self) -> io::Result<()> {
        self.event_loop.state.sockets.watch_input(INPUT)
    }

    /// The address at which it listens.
    pub fn address(&self) -> SocketAddr {
        self.at
    }

    /// Relays whoever comes, until it has ended with its standard input, or the system refuses to go on.
    /// Answers how many applications were closed in the middle then.
    pub fn serve<R: Net + Clock + Files>(&mut self, rt: &R) -> io::Result<usize> {
        let mut events = Events::with_capacity(self.event_loop.alloc, ROUND)?;
        let mut buffer = [0u8; PIECE];
        self.event_loop.look_after_names(rt)?;
        for _ in 0..u64::MAX {
            self.round(rt, &mut events, &mut buffer)?;
            if self.has_ended() {
                break;
            }
        }
        Ok(self.applications())
    }

    /// Its last line, and what else of the log isn't written yet.
    pub fn say_last(&mut self, line: &str) {
        self.event_loop.state.journal.lines.add(line);
        self.log
            .write_last(&mut self.event_loop.state.journal.lines);
    }

    /// Waits for the system, and not at all where a socket has more to do, or had a moment ago, or somebody is
    /// being told; then they have their turns.
    fn round<R: Net + Clock + Files>(
        &mut self,
        rt: &R,
        events: &mut Events<Global>,
        buffer: &mut [u8; PIECE],
    ) -> io::Result<()> {
        let longest = if self.spins() || self.is_telling() {
            0
        } else {
            self.until_sweep()
        };
        self.event_loop.state.sockets.wait(events, longest)?;
        self.look_at_clock(rt)?;
        self.hear(events)?;
        self.take_turns(rt, buffer)?;
        if !self.resumed.is_empty() {
            self.go_on()?;
        }
        if !self.reloads.is_empty() {
            self.reload(rt)?;
        }
        if self.is_telling() {
            self.tell_on(rt)?;
        }
        if self.event_loop.now() >= self.next_look() {
            self.look_at_limits(rt)?;
        }
        if !self.event_loop.state.journal.lines.front().is_empty() {
            self.log.write(&mut self.event_loop.state.journal.lines);
        }
        Ok(())
    }

    /// Looks at time limits, where that is due.
    pub fn look_at_limits<R: Net + Clock>(&mut self, rt: &R) -> io::Result<()> {
        let now = self.event_loop.now();
        if now < self.next_look() {
            return Ok(());
        }
        self.swept = now;
        self.began = milliseconds_since_1970(rt)?.saturating_sub(now);
        if self.leaves_some {
            self.accept()?;
        }
        self.sweep(rt)?;
        self.look_at_clock(rt)?;
        let took = self.event_loop.now().saturating_sub(now);
        self.pause = took.saturating_mul(10).clamp(SWEEP, LONGEST_SWEEP);
        Ok(())
    }

    /// The milliseconds to the next look at time limits; where nothing would be done then, to a later one.
    fn until_sweep(&self) -> u64 {
        let mut next = self.next_look();
        if self.ending.is_none() && self.event_loop.waits_for_sockets() {
            let latest = self.swept.saturating_add(LONGEST_SLEEP);
            next = self
                .event_loop
                .state
                .sockets
                .next_look()
                .max(next)
                .min(latest);
        }
        next.saturating_sub(self.event_loop.now())
            .clamp(1, LONGEST_SLEEP)
    }

    /// The millisecond of the next look at time limits.
    fn next_look(&self) -> u64 {
        self.swept.saturating_add(self.pause)
    }

    pub fn look_at_clock<R: Clock>(&mut self, rt: &R) -> io::Result<()> {
        let micros = u64::try_from(self.start.elapsed(rt)?.as_micros()).unwrap_or(u64::MAX);
        let millis = micros / 1000;
        self.event_loop.state.journal.moment = Moment {
            millis,
            micros,
            time: self.began.saturating_add(millis),
        };
        Ok(())
    }

    /// Whether it asks the system again at once: to be woken takes longer than a request's own work.
    fn spins(&self) -> bool {
        self.event_loop.state.journal.moment.micros < self.polling.until(self.event_loop.asked.spin)
    }

    /// Does what the system reported asks for.
    fn hear(&mut self, events: &Events<Global>) -> io::Result<()> {
        for event in events.iter() {
            let token = event.token();
            if token == LOG {
                continue;
            }
            self.polling
                .report(self.event_loop.state.journal.moment.micros);
            if token == LISTENER {
                self.accept()?;
            } else if token == ASKERS {
                self.accept_askers()?;
            } else if token == INPUT {
                if event.is_read_closed() {
                    self.end_soon(
                        "the relay is to end, since its standard input has ended",
                        None,
                    );
                }
            } else {
                let news = if event.is_read_closed() || event.is_error() {
                    News::End
                } else if event.is_readable() {
                    News::Bytes
                } else {
                    News::Turn
                };
                self.event_loop.state.sockets.report(token.0, news)?;
            }
        }
        Ok(())
    }

    /// It is to end in order, and this is why: an order, where the socket of this key gave one.
    pub fn end_soon(&mut self, why: &str, by: Option<usize>) {
        if self.ending.is_some() {
            return;
        }
        self.ending = Some(self.event_loop.now());
        match by {
            Some(key) => self.event_loop.state.note_order(why, key),
            None => self.event_loop.state.journal.note(why),
        }
    }
}

fn milliseconds_since_1970<R: Clock>(rt: &R) -> io::Result<u64> {
    Ok(u64::try_from(rt.since_1970()?.as_millis()).unwrap_or(u64::MAX))
}
