//! The questions, in the order in which they are asked, and how each must be answered.

ghost use Rattle.std.specs.Prelude.{◌≡◌};
ghost use Rattle.relay_questions.specs.Steps.{all_steps, must_rest, question_of, reset_of};

use tds_packet::Reset;

/// What a server is asked.
#[derive(Clone, Copy, Debug, PartialEq, Eq)]
pub enum Question {
    Recovery,
    Setting,
    Isolation,
    Table,
    Cursor,
    Lock,
    Transaction,
    Handle,
    Cancel,
    Reset,
    KeepingReset,
}

/// A request that asks it, or a part of it.
#[derive(Clone, Copy, Debug, PartialEq, Eq)]
pub enum Step {
    Set,
    Reset,
    /// The reset has set back what was set: so it is told again.
    SetAgain,
    Isolate,
    MakeTable,
    /// The reset has dropped that one: so it can be made again.
    MakeTableAgain,
    OpenCursor,
    Lock,
    Begin,
    ResetButTransaction,
    ResetTransaction,
    Prepare,
    Unprepare,
    /// It is cancelled as soon as something of its answer has come.
    SetAndWait,
    /// What a cancelled request has changed is told behind its next answer at the latest.
    AskOnceMore,
    ResetAll,
}

impl Question {
    /// What it is about.
    pub fn words(self) -> &'static str {
        match self {
            Question::Recovery => "session recovery",
            Question::Setting => "a setting",
            Question::Isolation => "the isolation level",
            Question::Table => "a temporary table",
            Question::Cursor => "a cursor",
            Question::Lock => "an application lock",
            Question::Transaction => "a transaction",
            Question::Handle => "a prepared handle",
            Question::Cancel => "a cancel",
            Question::Reset => "a reset",
            Question::KeepingReset => "a reset that keeps a transaction",
        }
    }
}

/// All steps, in order.
pub(crate) fn all_steps() -> &'static [Step]
    ensures { result.now ≡ all_steps }
{
    &[
        Step::Set,
        Step::Reset,
        Step::SetAgain,
        Step::Isolate,
        Step::MakeTable,
        Step::MakeTableAgain,
        Step::OpenCursor,
        Step::Lock,
        Step::Begin,
        Step::ResetButTransaction,
        Step::ResetTransaction,
        Step::Prepare,
        Step::Unprepare,
        Step::SetAndWait,
        Step::AskOnceMore,
        Step::ResetAll,
    ]
}

impl Step {
    /// What it asks.
    pub fn question(self) -> Question
        ensures { result ≡ question_of self }
    {
        match self {
            Step::Set => Question::Setting,
            Step::Reset | Step::SetAgain | Step::MakeTableAgain | Step::ResetAll => Question::Reset,
            Step::Isolate => Question::Isolation,
            Step::MakeTable => Question::Table,
            Step::OpenCursor => Question::Cursor,
            Step::Lock => Question::Lock,
            Step::Begin => Question::Transaction,
            Step::ResetButTransaction | Step::ResetTransaction => Question::KeepingReset,
            Step::Prepare | Step::Unprepare => Question::Handle,
            Step::SetAndWait | Step::AskOnceMore => Question::Cancel,
        }
    }

    /// Whether the session must rest behind its answer.
    pub(crate) fn must_rest(self) -> bool
        ensures { result ≡ must_rest self }
    {
        match self {
            Step::Reset | Step::ResetTransaction | Step::Unprepare | Step::ResetAll => true,
            Step::Set | Step::SetAgain | Step::Isolate | Step::MakeTable => false,
            Step::MakeTableAgain | Step::OpenCursor | Step::Lock | Step::Begin => false,
            Step::ResetButTransaction | Step::Prepare => false,
            Step::SetAndWait | Step::AskOnceMore => false,
        }
    }

    /// The reset that it asks for.
    pub(crate) fn reset(self) -> Option<Reset>
        ensures { result ≡ reset_of self }
    {
        match self {
            Step::Set | Step::SetAgain | Step::Unprepare | Step::AskOnceMore => None,
            Step::ResetButTransaction => Some(Reset::KeepTransaction),
            Step::Reset | Step::Isolate | Step::MakeTable | Step::MakeTableAgain => {
                Some(Reset::Full)
            }
            Step::OpenCursor | Step::Lock | Step::Begin | Step::ResetTransaction => {
                Some(Reset::Full)
            }
            Step::Prepare | Step::SetAndWait | Step::ResetAll => Some(Reset::Full),
        }
    }
}
