//! Whose the calls of a recorded play are, and how many attentions are among a run's bytes. The functions do
//! nothing when they run: their contracts are the laws.
ghost use Rattle.std.specs.Prelude.{[], ℕ, List, Option, true};
ghost use Rattle.tds_play.specs.Calls.{MakesCalls};
ghost use Rattle.tds_play.specs.Pipe.{BegunEvent, Pipe};
ghost use Rattle.tds_play.specs.WholePlay.{CarriesBytesOf, HandsBytesOf};
ghost use Rattle.tds_session.specs.Answer.{Answers};
ghost use Rattle.tds_trace.specs.Attentions.{HaveOneAttention};
ghost use Rattle.tds_trace.specs.Turns.{AreCallsOfPlay, IsRecordOf};
ghost use Rattle.tds_trace.specs.declared.call.Call.{Call};
ghost use Rattle.tds_world.specs.Bounds.{OneAttention};
ghost use Rattle.tds_world.specs.Losses.{Played};
ghost use Rattle.tds_world.specs.World.{World};
ghost use Rattle.tds_world.specs.declared.event.Setup.{Setup};

/// Over any carrier that was new at first and is told of events: where a play made these calls there
/// (the clause `calls` of `play`), and they were recorded ([`crate::RecordingCarrier::into_calls`]),
/// each event's calls do there what the event does in the model.
pub fn record_of_a_play()
    ensures { (setup : Setup) (answers : Answers) (ps : List Played) (event : Option ℕ)
        (calls : List Call) (told : List BegunEvent) (last : ℕ → Option Pipe)
        → MakesCalls true setup answers ps [] told last → ∥ IsRecordOf event calls told last ∥₁
        → ∥ AreCallsOfPlay setup answers ps calls ∥₁ }
{}

/// Over any carrier: where what was handed over and what came is the model's (the clauses `bytes` and
/// `carried` of `play`), its law on attentions (`one_attention`) is one on these bytes.
pub fn attentions_in_bytes()
    ensures { (w : World) (pipes : ℕ → Option Pipe) → OneAttention w → HandsBytesOf w pipes
        → CarriesBytesOf w pipes → HaveOneAttention w pipes }
{}
