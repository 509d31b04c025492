//! The data of packets, and bytes.

ghost use Rattle.std.specs.Prelude.{◌≡◌, ◌≤◌, ◌<◌, ◌+◌, vec_len, vec_capacity};
ghost use Rattle.tds_judge.specs.Framing as framing;
ghost use Rattle.tds_judge.specs.Framing.{run_of};

use crate::finding::{Direction, Finding, Spot};
use crate::frame::{Due, Inside, refused, shifted};
use crate::headers::Headed;
use crate::judge::Judge;
use crate::talk::{Ending, Event};

impl Judge {
    /// What is done with a message's data from here on.
    fn put_inside(&mut self, spot: Spot, inside: Inside)
        ensures { self.new ≡ framing.with_frame spot.direction
            (record (framing.frame_by spot.direction self.old) { inside = inside }) self.old }
    {
        let mut frame = self.frame(spot.direction);
        frame.inside = inside;
        self.put_frame(spot.direction, frame);
    }

    /// A byte of ALL_HEADERS has come.
    fn read_headers(&mut self, out: &mut Vec<Finding>, spot: Spot, headed: Headed)
        requires { vec_len out.old + 10 ≤ vec_capacity out.old }
        ensures run { (run_of self.new out.new.items)
            ≡ framing.prefixed spot headed (run_of self.old out.old.items) }
        ensures few { vec_len out.new ≤ vec_len out.old + 10 }
        ensures capacity { vec_capacity out.new ≡ vec_capacity out.old }
    {
        match headed {
            Headed::On(heading) => self.put_inside(spot, Inside::Prefix(heading)),
            Headed::Names(descriptor, heading) => {
                self.put_inside(spot, Inside::Prefix(heading));
                self.say(out, spot, Event::Names(descriptor));
            }
            Headed::Over => self.put_inside(spot, Inside::Skipped),
            Headed::Wrong(fault) => {
                self.put_inside(spot, Inside::Skipped);
                self.say(out, spot, Event::Headers(fault));
            }
        }
    }

    /// A byte of LOGIN7 has come, up to its version's last.
    fn read_version(&mut self, out: &mut Vec<Finding>, spot: Spot, place: u8, byte: u8)
        requires { vec_len out.old + 10 ≤ vec_capacity out.old }
        ensures run { (run_of self.new out.new.items)
            ≡ framing.versioned spot place byte (run_of self.old out.old.items) }
        ensures few { vec_len out.new ≤ vec_len out.old + 10 }
        ensures capacity { vec_capacity out.new ≡ vec_capacity out.old }
    {
        let mut frame = self.frame(spot.direction);
        if place < 7 {
            frame.inside = Inside::Version { place: place + 1 };
            self.put_frame(spot.direction, frame);
        } else {
            frame.inside = Inside::Skipped;
            self.put_frame(spot.direction, frame);
            if !(byte == 0x72 || byte == 0x73 || byte == 0x74) {
                let version = u64::from(byte);
                self.stop(out, spot, Event::Stops(Ending::OtherVersion, version));
            }
        }
    }

    /// The parser reads a byte.
    fn walk(&mut self, out: &mut Vec<Finding>, spot: Spot, byte: u8)
        requires { vec_len out.old + 10 ≤ vec_capacity out.old }
        ensures run { (run_of self.new out.new.items)
            ≡ framing.walked self.old.parser spot byte (run_of self.old out.old.items) }
        ensures few { vec_len out.new ≤ vec_len out.old + 10 }
        ensures capacity { vec_capacity out.new ≡ vec_capacity out.old }
    {
        let Some(parser) = &mut self.parser else {
            return;
        };
        match parser.feed(&[byte]) {
            Ok(fed) => {
                if let Some(token) = fed.token {
                    self.say(out, spot, Event::Says(token));
                }
            }
            Err(refusal) => self.stop(out, spot, refused(&refusal)),
        }
    }

    /// A byte of data is read.
    #[tactic(auto, unfolding(crate::specs::Framing::inside_by))]
    fn read(&mut self, out: &mut Vec<Finding>, spot: Spot, inside: Inside, byte: u8)
        requires { vec_len out.old + 10 ≤ vec_capacity out.old }
        ensures run { (run_of self.new out.new.items)
            ≡ framing.inside_by inside spot byte (run_of self.old out.old.items) }
        ensures few { vec_len out.new ≤ vec_len out.old + 10 }
        ensures capacity { vec_capacity out.new ≡ vec_capacity out.old }
    {
        match inside {
            Inside::Skipped => {}
            Inside::Prefix(heading) => self.read_headers(out, spot, heading.take(byte)),
            Inside::Walked => self.walk(out, spot, byte),
            Inside::Version { place } => self.read_version(out, spot, place, byte),
        }
    }

    /// One byte of data less is to come.
    fn count(&mut self, out: &mut Vec<Finding>, spot: Spot, left: u16)
        requires { vec_len out.old + 10 ≤ vec_capacity out.old }
        ensures run { (run_of self.new out.new.items)
            ≡ framing.counted spot left (run_of self.old out.old.items) }
        ensures few { vec_len out.new ≤ vec_len out.old + 10 }
        ensures capacity { vec_capacity out.new ≡ vec_capacity out.old }
    {
        if self.has_stopped() {
            return;
        }
        if left > 1 {
            let mut frame = self.frame(spot.direction);
            frame.due = Due::Data { left: left - 1 };
            self.put_frame(spot.direction, frame);
        } else {
            self.end_packet(out, spot);
        }
    }

    /// A byte has come.
    #[tactic(auto, unfolding(crate::specs::Framing::due_by))]
    fn take_byte(&mut self, out: &mut Vec<Finding>, spot: Spot, due: Due, byte: u8)
        requires { vec_len out.old + 40 ≤ vec_capacity out.old }
        ensures run { (run_of self.new out.new.items)
            ≡ framing.due_by due spot byte (run_of self.old out.old.items) }
        ensures few { vec_len out.new ≤ vec_len out.old + 40 }
        ensures capacity { vec_capacity out.new ≡ vec_capacity out.old }
    {
        match due {
            Due::Head { got, value } => self.take_head(out, spot, got, shifted(value, byte)),
            Due::Data { left } => {
                let inside = self.frame(spot.direction).inside;
                self.read(out, spot, inside, byte);
                self.count(out, spot, left);
            }
        }
    }

    /// Takes a byte of a direction. Nothing is done once the judging has ended.
    #[inline(never)]
    #[tactic(auto, unfolding(crate::specs::Framing::step))]
    pub fn step(&mut self, out: &mut Vec<Finding>, direction: Direction, time: u64, byte: u8)
        requires { vec_len out.old + 40 ≤ vec_capacity out.old }
        ensures run { (run_of self.new out.new.items)
            ≡ framing.step direction time byte (run_of self.old out.old.items) }
        ensures few { vec_len out.new ≤ vec_len out.old + 40 }
        ensures capacity { vec_capacity out.new ≡ vec_capacity out.old }
    {
        if self.has_stopped() {
            return;
        }
        let mut frame = self.frame(direction);
        let spot = Spot {
            direction,
            offset: frame.offset,
            time,
        };
        frame.offset = frame.offset.saturating_add(1);
        self.put_frame(direction, frame);
        self.take_byte(out, spot, frame.due, byte);
    }
}
