//! Questions, asked one behind the other of a session that nobody uses yet.

ghost use Rattle.std.specs.Prelude.{◌≡◌, ◌++◌, ◌∷◌, [], ◌&&◌, not, true, IfOk, OnOk};
ghost use Rattle.relay_questions.specs.Asking.{answer_in, descriptor_by, found_by, is_waiting, is_waiting_step, left_by, sent_at_first, sent_first, sent_for};
ghost use Rattle.relay_questions.specs.Requests.{attention_bytes};
ghost use Rattle.relay_questions.specs.Steps.{all_steps, is_right, steps_left, verdict};

use crate::NoMemory;
use crate::request::{put_attention, put_request};
use crate::step::{Question, Step, all_steps};
use std::alloc::Global;
use tds_packet::Reset;
use tds_state::Watch;

/// What a whole answer has left.
#[derive(Clone, Copy, Debug, PartialEq, Eq)]
pub enum Answer {
    /// The session rests: by all that was said, a reset would change nothing of it.
    Rests,
    /// It doesn't.
    Holds,
    /// Something can't be read or kept.
    Unread,
}

/// What answers have shown.
#[derive(Clone, Copy, Debug, PartialEq, Eq)]
pub enum Found {
    /// Answers are to come.
    More,
    /// The server tells all that was asked.
    Tells,
    /// Its answer to this isn't as it must be.
    Otherwise(Question),
}

/// How far they are asked.
#[derive(Drop)]
pub struct Asking {
    watch: Watch,
    /// Those that have no answer yet, of which the first one is asked.
    left: &'static [Step],
    /// Whether that one is cancelled.
    is_cancelled: bool,
}

impl Step {
    /// Whether this answer to it is as it must be.
    fn is_right(self, answer: Answer) -> bool
        ensures { result ≡ is_right self answer }
    {
        match answer {
            Answer::Rests => self.must_rest(),
            Answer::Holds => !self.must_rest(),
            Answer::Unread => false,
        }
    }

    /// Whether it is to be cancelled as soon as something of its answer has come.
    fn is_waiting(self) -> bool
        ensures { result ≡ is_waiting_step self }
    {
        matches!(self, Step::SetAndWait)
    }
}

/// The transaction in which a request is asked for that asks for this reset, where this one is open now.
fn descriptor_by(reset: Option<Reset>, now: u64) -> u64
    ensures { result ≡ descriptor_by reset now }
{
    match reset {
        Some(Reset::Full) => 0,
        Some(Reset::KeepTransaction) | None => now,
    }
}

/// What comes of this answer to the first of these steps.
#[tactic(auto, unfolding(crate::specs::Steps::verdict))]
fn verdict_of(steps: &[Step], answer: Answer) -> Found
    ensures { result ≡ verdict steps.now (answer ∷ []) }
{
    match steps {
        [] => Found::Tells,
        [step, others @ ..] => {
            if step.is_right(answer) {
                found_with(others)
            } else {
                Found::Otherwise(step.question())
            }
        }
    }
}

/// What is found with these steps left.
#[tactic(auto, unfolding(crate::specs::Steps::verdict))]
fn found_with(steps: &[Step]) -> Found
    ensures { result ≡ verdict steps.now [] }
{
    match steps {
        [] => Found::Tells,
        [_first, _behind @ ..] => Found::More,
    }
}

/// The steps behind the first one, where this answer to it is as it must be.
#[tactic(auto, unfolding(crate::specs::Steps::steps_left))]
fn left_of(steps: &'static [Step], answer: Answer) -> &'static [Step]
    ensures { result.now ≡ steps_left steps.now (answer ∷ []) }
{
    match steps {
        [] => steps,
        [step, others @ ..] => { if step.is_right(answer) { others } else { steps } }
    }
}

impl Asking {
    /// Asks the first one, on a connection of whose login's answer this watch has heard. What is to be sent is
    /// appended.
    ///
    /// # Errors
    ///
    /// Where a growth was refused.
    pub fn begin(alloc: Global, watch: Watch, out: &mut Vec<u8>) -> Result<Asking, NoMemory>
        ensures left { IfOk result (λ asking. asking.left.now ≡ all_steps) }
        ensures sent { OnOk result
            (out.new.items ≡ out.old.items ++ sent_first all_steps watch) }
    {
        let mut asking = Asking {
            watch,
            left: all_steps(),
            is_cancelled: false,
        };
        asking.ask(alloc, out)?;
        Ok(asking)
    }

    /// What is asked.
    pub fn question(&self) -> Question {
        match self.left {
            [step, ..] => step.question(),
            [] => Question::Reset,
        }
    }

    /// Asks the first one of those that are left.
    fn ask(&mut self, alloc: Global, out: &mut Vec<u8>) -> Result<(), NoMemory>
        ensures left { self.new.left.now ≡ self.old.left.now }
        ensures sent { OnOk result
            (out.new.items ≡ out.old.items ++ sent_first self.old.left.now self.old.watch) }
    {
        let before = out.len();
        self.put_first(alloc, out)?;
        self.is_cancelled = false;
        self.note_sent(before, out);
        Ok(())
    }

    fn put_first(&self, alloc: Global, out: &mut Vec<u8>) -> Result<(), NoMemory>
        ensures sent { OnOk result
            (out.new.items ≡ out.old.items ++ sent_first self.now.left.now self.now.watch) }
    {
        match self.left {
            [step, ..] => self.put(alloc, *step, out),
            [] => Ok(()),
        }
    }

    fn put(&self, alloc: Global, step: Step, out: &mut Vec<u8>) -> Result<(), NoMemory>
        ensures sent { OnOk result
            (out.new.items ≡ out.old.items ++ sent_for step self.now.watch) }
    {
        let descriptor = descriptor_by(step.reset(), self.watch.transaction());
        put_request(alloc, step, descriptor, self.watch.handle(), out)
    }

    /// What stands behind so many bytes goes out.
    fn note_sent(&mut self, before: usize, out: &[u8])
        ensures left { self.new.left.now ≡ self.old.left.now }
        ensures cancelled { self.new.is_cancelled ≡ self.old.is_cancelled }
    {
        if let Some(bytes) = out.get(before..) {
            self.watch.sent(bytes);
        }
    }

    /// These bytes have come. Where that is to be cancelled which is asked, its attention is appended.
    ///
    /// # Errors
    ///
    /// Where a growth was refused.
    pub fn came(&mut self, bytes: &[u8], out: &mut Vec<u8>) -> Result<(), NoMemory>
        ensures left { self.new.left.now ≡ self.old.left.now }
        ensures sent { OnOk result (out.new.items ≡ out.old.items
            ++ sent_at_first (is_waiting self.old.left.now && not self.old.is_cancelled)) }
        ensures once { OnOk result (is_waiting self.old.left.now ≡ true
            → self.new.is_cancelled ≡ true) }
    {
        self.watch.came(bytes);
        if self.is_waiting() && !self.is_cancelled {
            self.is_cancelled = true;
            let before = out.len();
            put_attention(out)?;
            self.note_sent(before, out);
        }
        Ok(())
    }

    /// Whether that is to be cancelled which is asked.
    fn is_waiting(&self) -> bool
        ensures { result ≡ is_waiting self.now.left.now }
    {
        match self.left {
            [step, ..] => step.is_waiting(),
            [] => false,
        }
    }

    /// What has been found by now. Where an answer is whole and as it must be, the next one is asked: what is to be
    /// sent is appended.
    ///
    /// # Errors
    ///
    /// Where a growth was refused.
    pub fn find(&mut self, alloc: Global, out: &mut Vec<u8>) -> Result<Found, NoMemory>
        ensures found { IfOk result (λ found. found
            ≡ found_by self.old.left.now (answer_in self.old.watch)) }
        ensures left { OnOk result (self.new.left.now
            ≡ left_by self.old.left.now (answer_in self.old.watch)) }
    {
        let Some(answer) = self.answer() else {
            return Ok(Found::More);
        };
        let found = verdict_of(self.left, answer);
        self.left = left_of(self.left, answer);
        if found == Found::More {
            self.ask(alloc, out)?;
        }
        Ok(found)
    }

    /// The answer, where it is whole.
    fn answer(&self) -> Option<Answer>
        ensures { result ≡ answer_in self.now.watch }
    {
        if self.watch.is_lost() {
            Some(Answer::Unread)
        } else if !self.watch.is_settled() {
            None
        } else if self.watch.rests() {
            Some(Answer::Rests)
        } else {
            Some(Answer::Holds)
        }
    }
}
