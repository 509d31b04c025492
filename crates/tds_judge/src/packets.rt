//! Packets: their headers and their ends.

ghost use Rattle.std.specs.Prelude.{◌≡◌, ◌≤◌, ◌<◌, ◌+◌, vec_len, vec_capacity};
ghost use Rattle.tds_judge.specs.Framing as framing;
ghost use Rattle.tds_judge.specs.Framing.{run_of};

use crate::finding::{Direction, Finding, Spot};
use crate::frame::{Due, Frame, Head, Inside, Part};
use crate::headers::HeaderFault;
use crate::judge::Judge;
use crate::talk::{Ending, Event};

impl Judge {
    /// A request ends, that may still be in its ALL_HEADERS.
    fn end_headers(&mut self, out: &mut Vec<Finding>, spot: Spot, inside: Inside)
        requires { vec_len out.old + 10 ≤ vec_capacity out.old }
        ensures run { (run_of self.new out.new.items)
            ≡ framing.headed_at_end inside spot (run_of self.old out.old.items) }
        ensures few { vec_len out.new ≤ vec_len out.old + 10 }
        ensures capacity { vec_capacity out.new ≡ vec_capacity out.old }
    {
        match inside {
            Inside::Prefix(_) => self.say(out, spot, Event::Headers(HeaderFault::Length)),
            Inside::Skipped | Inside::Walked | Inside::Version { .. } => {}
        }
    }

    /// A message whose beginning was seen ends.
    fn end_message(&mut self, out: &mut Vec<Finding>, spot: Spot, frame: Frame)
        requires { vec_len out.old + 10 ≤ vec_capacity out.old }
        ensures run { (run_of self.new out.new.items)
            ≡ framing.message_over spot.direction spot frame (run_of self.old out.old.items) }
        ensures few { vec_len out.new ≤ vec_len out.old + 10 }
        ensures capacity { vec_capacity out.new ≡ vec_capacity out.old }
    {
        match spot.direction {
            Direction::ToServer => {
                if frame.status / 2 % 2 == 1 {
                    self.say(out, spot, Event::Ignored);
                } else {
                    self.end_headers(out, spot, frame.inside);
                }
            }
            Direction::ToClient => {
                if frame.kind != 18 {
                    let whole = self.is_whole(frame.inside);
                    self.say(out, spot, Event::Answered(whole));
                }
            }
        }
    }

    /// A message ends.
    fn end_part(&mut self, out: &mut Vec<Finding>, spot: Spot, frame: Frame)
        requires { vec_len out.old + 10 ≤ vec_capacity out.old }
        ensures run { (run_of self.new out.new.items)
            ≡ framing.over_by frame.part spot frame (run_of self.old out.old.items) }
        ensures few { vec_len out.new ≤ vec_len out.old + 10 }
        ensures capacity { vec_capacity out.new ≡ vec_capacity out.old }
    {
        match frame.part {
            Part::Lost => {}
            Part::Passing => self.say(out, spot, Event::TakenUp),
            Part::Between => {}
            Part::Within => self.end_message(out, spot, frame),
        }
    }

    /// A packet ends.
    #[tactic(auto, unfolding(crate::specs::Framing::over))]
    pub fn end_packet(&mut self, out: &mut Vec<Finding>, spot: Spot)
        requires { vec_len out.old + 10 ≤ vec_capacity out.old }
        ensures run { (run_of self.new out.new.items)
            ≡ framing.over spot (run_of self.old out.old.items) }
        ensures few { vec_len out.new ≤ vec_len out.old + 10 }
        ensures capacity { vec_capacity out.new ≡ vec_capacity out.old }
    {
        let frame = self.frame(spot.direction);
        let mut behind = frame;
        behind.due = Due::Head { got: 0, value: 0 };
        if frame.status % 2 == 1 {
            behind.part = Part::Between;
            self.put_frame(spot.direction, behind);
            self.end_part(out, spot, frame);
        } else {
            self.put_frame(spot.direction, behind);
        }
    }

    /// The data of a packet come next, or its end.
    #[tactic(auto, unfolding(crate::specs::Framing::opened))]
    fn open(&mut self, out: &mut Vec<Finding>, spot: Spot, part: Part, inside: Inside, head: Head)
        requires { vec_len out.old + 10 ≤ vec_capacity out.old }
        ensures run { (run_of self.new out.new.items)
            ≡ framing.opened spot part inside head (run_of self.old out.old.items) }
        ensures few { vec_len out.new ≤ vec_len out.old + 10 }
        ensures capacity { vec_capacity out.new ≡ vec_capacity out.old }
    {
        let frame = self.frame(spot.direction);
        self.put_frame(spot.direction, frame.opened(part, inside, head));
        if head.size == 8 {
            self.end_packet(out, spot);
        }
    }

    /// A header that can't be one: one byte of the eight is dropped.
    fn slide(&mut self, spot: Spot, value: u64)
        ensures { self.new ≡ framing.with_frame spot.direction
            (framing.slid_frame value (framing.frame_by spot.direction self.old)) self.old }
    {
        let mut frame = self.frame(spot.direction);
        frame.part = Part::Lost;
        frame.due = Due::Head { got: 7, value };
        self.put_frame(spot.direction, frame);
    }

    /// No header was found yet, and this is none.
    #[tactic(auto, unfolding(crate::specs::Framing::lost))]
    fn lose(&mut self, out: &mut Vec<Finding>, spot: Spot, value: u64)
        requires { vec_len out.old + 10 ≤ vec_capacity out.old }
        ensures run { (run_of self.new out.new.items)
            ≡ framing.lost spot value (run_of self.old out.old.items) }
        ensures few { vec_len out.new ≤ vec_len out.old + 10 }
        ensures capacity { vec_capacity out.new ≡ vec_capacity out.old }
    {
        if spot.offset == 7 && Head::of(value).is_tls() {
            self.stop(out, spot, Event::Stops(Ending::Encrypted, 0));
        } else if spot.offset < 1_048_575 {
            self.slide(spot, value);
        } else {
            self.stop(out, spot, Event::Stops(Ending::NotTds, 0));
        }
    }

    /// Begins anew, before the first token of a message.
    fn restart(&mut self)
        ensures { self.new ≡ record self.old { parser = framing.restarted_by self.old.parser } }
    {
        if let Some(parser) = &mut self.parser {
            parser.restart();
        }
    }

    /// A message of this direction begins.
    fn begin_message(&mut self, out: &mut Vec<Finding>, spot: Spot, head: Head)
        requires { vec_len out.old + 20 ≤ vec_capacity out.old }
        ensures run { (run_of self.new out.new.items)
            ≡ framing.begun_by spot.direction spot head (run_of self.old out.old.items) }
        ensures few { vec_len out.new ≤ vec_len out.old + 20 }
        ensures capacity { vec_capacity out.new ≡ vec_capacity out.old }
    {
        match spot.direction {
            Direction::ToServer => {
                self.say(out, spot, head.event());
                let inside = Frame::inside_of_request(head);
                self.open(out, spot, Part::Within, inside, head);
            }
            Direction::ToClient => {
                let walked = head.kind != 18 && self.client.kind != 18;
                let inside = if walked {
                    Inside::Walked
                } else {
                    Inside::Skipped
                };
                self.restart();
                if head.kind != 18 {
                    self.say(out, spot, Event::Answer);
                }
                self.open(out, spot, Part::Within, inside, head);
            }
        }
    }

    /// A message begins.
    #[tactic(auto, unfolding(crate::specs::Framing::begins))]
    fn begin(&mut self, out: &mut Vec<Finding>, spot: Spot, head: Head)
        requires { vec_len out.old + 30 ≤ vec_capacity out.old }
        ensures run { (run_of self.new out.new.items)
            ≡ framing.begins spot head (run_of self.old out.old.items) }
        ensures few { vec_len out.new ≤ vec_len out.old + 30 }
        ensures capacity { vec_capacity out.new ≡ vec_capacity out.old }
    {
        let fills = head.is_to_fill(spot.direction);
        self.say(out, spot, Event::Packet(head.size, fills));
        self.begin_message(out, spot, head);
    }

    /// A later packet of a message.
    fn say_later(&mut self, out: &mut Vec<Finding>, spot: Spot, head: Head)
        requires { vec_len out.old + 10 ≤ vec_capacity out.old }
        ensures run { (run_of self.new out.new.items)
            ≡ framing.later_by spot.direction spot head (run_of self.old out.old.items) }
        ensures few { vec_len out.new ≤ vec_len out.old + 10 }
        ensures capacity { vec_capacity out.new ≡ vec_capacity out.old }
    {
        match spot.direction {
            Direction::ToServer => self.say(out, spot, Event::Later(head.status)),
            Direction::ToClient => {}
        }
    }

    /// A message goes on, or another one begins.
    #[tactic(auto, unfolding(crate::specs::Framing::goes_on))]
    fn go_on(&mut self, out: &mut Vec<Finding>, spot: Spot, frame: Frame, head: Head)
        requires { vec_len out.old + 40 ≤ vec_capacity out.old }
        ensures run { (run_of self.new out.new.items)
            ≡ framing.goes_on spot frame head (run_of self.old out.old.items) }
        ensures few { vec_len out.new ≤ vec_len out.old + 40 }
        ensures capacity { vec_capacity out.new ≡ vec_capacity out.old }
    {
        if head.kind == frame.kind && head.kind != 6 {
            let fills = head.is_to_fill(spot.direction);
            self.say(out, spot, Event::Packet(head.size, fills));
            self.say_later(out, spot, head);
            self.open(out, spot, Part::Within, frame.inside, head);
        } else if head.kind == 6 {
            self.begin(out, spot, head);
        } else {
            self.say(out, spot, Event::Unfinished);
            self.begin(out, spot, head);
        }
    }

    /// The first header that was found.
    #[tactic(auto, unfolding(crate::specs::Framing::taken_up))]
    fn take_up(&mut self, out: &mut Vec<Finding>, spot: Spot, head: Head)
        requires { vec_len out.old + 30 ≤ vec_capacity out.old }
        ensures run { (run_of self.new out.new.items)
            ≡ framing.taken_up spot head (run_of self.old out.old.items) }
        ensures few { vec_len out.new ≤ vec_len out.old + 30 }
        ensures capacity { vec_capacity out.new ≡ vec_capacity out.old }
    {
        if spot.offset == 7 && head.id < 2 {
            self.begin(out, spot, head);
        } else {
            self.open(out, spot, Part::Passing, Inside::Skipped, head);
        }
    }

    /// A header has come whole.
    fn end_head(&mut self, out: &mut Vec<Finding>, spot: Spot, value: u64)
        requires { vec_len out.old + 40 ≤ vec_capacity out.old }
        ensures run { (run_of self.new out.new.items)
            ≡ framing.headed spot value (run_of self.old out.old.items) }
        ensures few { vec_len out.new ≤ vec_len out.old + 40 }
        ensures capacity { vec_capacity out.new ≡ vec_capacity out.old }
    {
        let head = Head::of(value);
        let frame = self.frame(spot.direction);
        match (frame.part, head.is_plausible(spot.direction)) {
            (Part::Lost, true) => self.take_up(out, spot, head),
            (Part::Lost, false) => self.lose(out, spot, value),
            (Part::Passing, true) => self.open(out, spot, Part::Passing, Inside::Skipped, head),
            (Part::Passing, false) => self.slide(spot, value),
            (Part::Between, true) => self.begin(out, spot, head),
            (Part::Between, false) => self.stop(out, spot, head.fault(spot.direction)),
            (Part::Within, true) => self.go_on(out, spot, frame, head),
            (Part::Within, false) => self.stop(out, spot, head.fault(spot.direction)),
        }
    }

    /// A byte of a header has come; with it the bytes spell this number.
    pub fn take_head(&mut self, out: &mut Vec<Finding>, spot: Spot, got: u8, value: u64)
        requires { vec_len out.old + 40 ≤ vec_capacity out.old }
        ensures run { (run_of self.new out.new.items)
            ≡ framing.head_taken spot got value (run_of self.old out.old.items) }
        ensures few { vec_len out.new ≤ vec_len out.old + 40 }
        ensures capacity { vec_capacity out.new ≡ vec_capacity out.old }
    {
        if got < 7 {
            let mut frame = self.frame(spot.direction);
            frame.due = Due::Head {
                got: got + 1,
                value,
            };
            self.put_frame(spot.direction, frame);
        } else {
            self.end_head(out, spot, value);
        }
    }
}
