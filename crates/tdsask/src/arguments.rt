//! The arguments of the command line.

use std::alloc::{AllocError, Global};
use tds_packet::Reset;
use tds_request::{BatchText, Isolation, Request};

/// The seconds that an answer is awaited, where no argument says it, and the most that one can say.
const WAIT: u64 = 10;

const MOST_WAIT: u64 = 86_400;

/// What an argument asks for.
#[derive(Drop)]
pub enum Step {
    /// A request.
    Ask(Request),
    /// The next request asks for this reset.
    Reset(Reset),
    /// The next request is cancelled once so many tokens were told.
    CancelAfter(usize),
}

/// What the arguments behind the address ask for.
#[derive(Drop)]
pub struct Asked {
    pub steps: Vec<Step>,
    /// How many seconds the connection, the login's answer and each request's are awaited, each.
    pub wait: u64,
    /// Whether answers are read by the rules of any server.
    pub is_any: bool,
}

/// An argument that a number stands behind.
#[derive(Clone, Copy)]
enum Counted {
    Cancel,
    Wait,
}

/// Reads the arguments behind the address; none where one of them is wrong, or nothing is asked for.
pub fn read_asked(alloc: Global, arguments: &[String]) -> Result<Option<Asked>, AllocError> {
    let mut asked = Asked {
        steps: Vec::new(alloc),
        wait: WAIT,
        is_any: false,
    };
    if put_arguments(alloc, &mut asked, arguments)? && !asked.steps.is_empty() {
        Ok(Some(asked))
    } else {
        Ok(None)
    }
}

/// Takes down what the arguments ask for, and answers whether each is right.
fn put_arguments(
    alloc: Global,
    asked: &mut Asked,
    arguments: &[String],
) -> Result<bool, AllocError> {
    let mut before = None;
    for argument in arguments {
        let argument = argument.as_str();
        let counted = before;
        before = counted_by(argument);
        if counted.is_none() && before.is_some() {
            continue;
        }
        before = None;
        let is_right = match counted {
            Some(counted) => put_count(asked, counted, argument)?,
            None if argument == "--any" => {
                asked.is_any = true;
                true
            }
            None => put_step(asked, read_step(alloc, argument)?)?,
        };
        if !is_right {
            return Ok(false);
        }
    }
    Ok(before.is_none())
}

/// What a number behind this argument counts, if one stands there.
fn counted_by(argument: &str) -> Option<Counted> {
    match argument {
        "--cancel" => Some(Counted::Cancel),
        "--wait" => Some(Counted::Wait),
        _ => None,
    }
}

/// Takes down an argument that is to be a number.
fn put_count(asked: &mut Asked, counted: Counted, argument: &str) -> Result<bool, AllocError> {
    match counted {
        Counted::Cancel => put_step(asked, argument.parse::<usize>().ok().map(Step::CancelAfter)),
        Counted::Wait => Ok(put_wait(asked, argument)),
    }
}

/// Takes down how many seconds are waited.
fn put_wait(asked: &mut Asked, argument: &str) -> bool {
    match argument.parse::<u64>() {
        Ok(wait) if wait >= 1 && wait <= MOST_WAIT => {
            asked.wait = wait;
            true
        }
        _ => false,
    }
}

/// Takes down a step, if there is one.
fn put_step(asked: &mut Asked, step: Option<Step>) -> Result<bool, AllocError> {
    match step {
        Some(step) => {
            asked.steps.push(step)?;
            Ok(true)
        }
        None => Ok(false),
    }
}

fn read_step(alloc: Global, argument: &str) -> Result<Option<Step>, AllocError> {
    let none = Isolation::new(0);
    Ok(match argument {
        "--begin" => none.map(|level| Step::Ask(Request::Begin(level))),
        "--commit" => Some(Step::Ask(Request::Commit(None))),
        "--rollback" => Some(Step::Ask(Request::Rollback(None))),
        "--commit-begin" => Some(Step::Ask(Request::Commit(none))),
        "--rollback-begin" => Some(Step::Ask(Request::Rollback(none))),
        "--reset" => Some(Step::Reset(Reset::Full)),
        "--reset-keep" => Some(Step::Reset(Reset::KeepTransaction)),
        text => batch(alloc, text)?,
    })
}

/// A batch of this text; none where it is empty, too long, or begins as an option does.
fn batch(alloc: Global, text: &str) -> Result<Option<Step>, AllocError> {
    if text.starts_with("--") {
        return Ok(None);
    }
    let mut units = Vec::new(alloc);
    for unit in text.encode_utf16() {
        units.push(unit)?;
    }
    match BatchText::new(units) {
        Some(text) => Ok(Some(Step::Ask(Request::Batch(text)))),
        None => Ok(None),
    }
}
