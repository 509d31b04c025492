ghost use Rattle.std.specs.Prelude.{◌≡◌, ◌++◌, OnOk, string_bytes, codes, decimal};
ghost use Rattle.tds_text.specs.Outcomes.{opened_word, give_back_word, abandon_word, send_word, cancel_word, work_word, end_word, layer_word, outcome_text};

use std::alloc::AllocError;
use std::fmt::Write;
use tds_world::{
    AbandonOutcome, CancelOutcome, End, GiveBackOutcome, Layer, Opened, Outcome, SendOutcome,
    WorkOutcome,
};

/// Appends what an event came to.
pub(crate) fn put_outcome(text: &mut String, outcome: Outcome) -> Result<(), AllocError>
    ensures { OnOk result (string_bytes text.new ≡ string_bytes text.old ++ outcome_text outcome) }
{
    match outcome {
        Outcome::Leased {
            lease,
            conn,
            opened,
        } => write!(text, "leased {lease} on {conn} {}", opened_word_of(opened)),
        Outcome::GivenBack(how) => write!(text, "given back {}", give_back_word_of(how)),
        Outcome::Kept(ticket) => write!(text, "kept {ticket}"),
        Outcome::Abandoned(how) => write!(text, "abandoned {}", abandon_word_of(how)),
        Outcome::Cleaning { lease, request } => write!(text, "cleaning {request} lease {lease}"),
        Outcome::Asked(request) => write!(text, "asked {request}"),
        Outcome::Sent(how) => write!(text, "sent {}", send_word_of(how)),
        Outcome::Cancel(how) => write!(text, "cancel {}", cancel_word_of(how)),
        Outcome::Work(how) => write!(text, "work {}", work_word_of(how)),
        Outcome::ToServer(count) => write!(text, "to server {count}"),
        Outcome::ToClient(count) => write!(text, "to client {count}"),
        Outcome::Cut => text.push_str("cut"),
        Outcome::RestartedServer => text.push_str("restarted server"),
        Outcome::RestartedClient => text.push_str("restarted client"),
        Outcome::Refused(why) => write!(text, "refused {}", why.number()),
        Outcome::Fault { end, layer, number } => write!(
            text,
            "fault {} {} {number}",
            end_word_of(end),
            layer_word_of(layer)
        ),
    }
}

fn opened_word_of(opened: Opened) -> &'static str
    ensures { result.now ≡ opened_word opened }
{
    match opened {
        Opened::New => "new",
        Opened::Reused => "reused",
        Opened::Resumed => "resumed",
    }
}

fn give_back_word_of(how: GiveBackOutcome) -> &'static str
    ensures { result.now ≡ give_back_word how }
{
    match how {
        GiveBackOutcome::Free => "free",
        GiveBackOutcome::Draining => "draining",
        GiveBackOutcome::Closed => "closed",
    }
}

fn abandon_word_of(how: AbandonOutcome) -> &'static str
    ensures { result.now ≡ abandon_word how }
{
    match how {
        AbandonOutcome::Free => "free",
        AbandonOutcome::Closed => "closed",
    }
}

fn send_word_of(how: SendOutcome) -> &'static str
    ensures { result.now ≡ send_word how }
{
    match how {
        SendOutcome::More => "more",
        SendOutcome::Last => "last",
    }
}

fn cancel_word_of(how: CancelOutcome) -> &'static str
    ensures { result.now ≡ cancel_word how }
{
    match how {
        CancelOutcome::Nothing => "nothing",
        CancelOutcome::Already => "already",
        CancelOutcome::Unsent => "unsent",
        CancelOutcome::Asked => "asked",
    }
}

fn work_word_of(how: WorkOutcome) -> &'static str
    ensures { result.now ≡ work_word how }
{
    match how {
        WorkOutcome::Idle => "idle",
        WorkOutcome::Step => "step",
        WorkOutcome::Finished => "finished",
    }
}

fn end_word_of(end: End) -> &'static str
    ensures { result.now ≡ end_word end }
{
    match end {
        End::Server => "server",
        End::Client => "client",
    }
}

fn layer_word_of(layer: Layer) -> &'static str
    ensures { result.now ≡ layer_word layer }
{
    match layer {
        Layer::Packet => "packet",
        Layer::Core => "core",
    }
}
