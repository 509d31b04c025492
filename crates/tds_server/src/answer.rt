//! What is left of an answer, and how its next step is done.
ghost use Rattle.std.specs.Prelude.{◌≡◌, ℕ, false, ◌∷◌, ◌+◌, ◌++◌, [], drop, codes, IfOk, OnOk, IfNone, IfSome, None, Some};
ghost use Rattle.std.specs.List.{list_any};
ghost use Rattle.tds_server.specs.declared.answer.Answer.{Answer};
ghost use Rattle.tds_server.specs.declared.answer.Due.TheVariants as due;
ghost use Rattle.tds_server.specs.Due.{IsNext, compared, refused, run, statements_in, steps_of, reset_in, first_of};
ghost use Rattle.tds_server.specs.Packets.{AreShort, FitsOnePacket, final};
ghost use Rattle.tds_session.specs.Answer.{answer_of, answer_to, batch_steps, last_step};
ghost use Rattle.tds_session.specs.Effects.{Effect, begins, completes, error_token, is_error};
ghost use Rattle.tds_session.specs.Session.{SessionState, IsSession, after_reset};
ghost use Rattle.tds_token.specs.declared.env_change.EnvChange.TheVariants as change;
ghost use Rattle.tds_token.specs.declared.token.Token.TheVariants as token;

use crate::NoMemory;
use std::alloc::Global;
use tds_packet::Reset;
use tds_request::{Isolation, Request};
use tds_session::{
    Ending, Engine, Session, begin_transaction, commit_transaction, error_token, renew_transaction,
    roll_back_transaction,
};
use tds_token::done_status::ERROR;
use tds_token::{EnvChange, Token};

/// What a request asks for, its statements parsed.
#[derive(Drop)]
pub(crate) enum Task<S: Drop> {
    /// To run these statements, or nothing where the text is not in the language.
    Batch(Option<Vec<S>>),
    Begin,
    /// To commit, and at this isolation level to begin anew.
    Commit(Option<Isolation>),
    /// To roll back, and at this isolation level to begin anew.
    Rollback(Option<Isolation>),
}

/// What the next step of an answer does.
#[derive(Clone, Copy)]
pub(crate) enum Due {
    /// It takes this reset.
    Reset(Reset),
    /// The descriptors are compared, and the task is begun.
    Task,
    /// The statement at this place; behind the last one, the final DONE.
    Statement(usize),
    /// The final DONE after an ERROR.
    Failed,
}

/// What is left of an answer.
#[derive(Drop)]
pub(crate) struct Answer<S: Drop> {
    pub(crate) task: Task<S>,
    /// The transaction's descriptor in the request's header.
    pub(crate) descriptor: u64,
    pub(crate) due: Due,
    /// Of the next packet.
    pub(crate) packet_id: u8,
    /// Whether a step was done.
    pub(crate) begun: bool,
}

/// A step that is done: the tokens of its packet, and what is due behind it. Behind the last one
/// nothing is.
#[derive(Drop)]
pub(crate) struct Done {
    pub(crate) tokens: Vec<Token>,
    pub(crate) next: Option<Due>,
}

/// What a request asks for.
#[tactic(auto, unfolding(crate::specs::Due::compared))]
fn task_of<E: Engine>(
    alloc: Global,
    engine: &E,
    request: &Request,
) -> Result<Task<E::Stmt>, NoMemory>
    ensures { IfOk result (λ t. (session : SessionState) (descriptor : ℕ)
        → compared (E.step_of engine.now) session descriptor t
        ≡ answer_to (E.statements_of engine.now)
        (E.step_of engine.now) session descriptor request.now) }
{
    match request {
        Request::Batch(text) => {
            let statements = engine.parse(alloc, text.units())?;
            Ok(Task::Batch(statements))
        }
        Request::Begin(_) => Ok(Task::Begin),
        Request::Commit(anew) => Ok(Task::Commit(*anew)),
        Request::Rollback(anew) => Ok(Task::Rollback(*anew)),
    }
}

/// What an answer begins with.
fn first_due(reset: Option<Reset>) -> Due
    ensures { result ≡ first_of reset }
{
    match reset {
        Some(reset) => Due::Reset(reset),
        None => Due::Task,
    }
}

/// The answer to a request, of which no step is done.
pub(crate) fn begin_answer<E: Engine>(
    alloc: Global,
    engine: &E,
    descriptor: u64,
    reset: Option<Reset>,
    request: &Request,
) -> Result<Answer<E::Stmt>, NoMemory>
    ensures steps { IfOk result (λ a. (session : SessionState)
        → steps_of (E.step_of engine.now) session a
        ≡ answer_of (E.statements_of engine.now)
        (E.step_of engine.now) session descriptor reset request.now) }
    ensures first { IfOk result (λ a. a.packet_id ≡ 1) }
    ensures begun { IfOk result (λ a. a.begun ≡ false) }
{
    let task = task_of(alloc, engine, request)?;
    Ok(Answer {
        task,
        descriptor,
        due: first_due(reset),
        packet_id: 1,
        begun: false,
    })
}

impl<S: Drop> Task<S> {
    /// The statement at this place.
    fn statement(&self, place: usize) -> Option<&S>
        ensures none { IfNone result (drop place (statements_in self.now) ≡ []) }
        ensures some { IfSome result
            (λ statement. drop place (statements_in self.now)
            ≡ statement.now ∷ drop (place + 1) (statements_in self.now)) }
    {
        match self {
            Task::Batch(Some(statements)) => statements.get(place),
            Task::Batch(None) => None,
            Task::Begin => None,
            Task::Commit(_) => None,
            Task::Rollback(_) => None,
        }
    }
}

/// Does the next step of an answer in this session.
pub(crate) fn do_step<E: Engine>(
    alloc: Global,
    engine: &E,
    answer: &Answer<E::Stmt>,
    session: &mut Session,
) -> Result<Done, NoMemory>
    ensures next { IfOk result
        (λ done. IsNext (E.step_of engine.now)
        (steps_of (E.step_of engine.now) session.old answer.now) answer.now
        (reset_in answer.now.due) done.tokens.items session.new done.next) }
    ensures fits { IfOk result (λ done. FitsOnePacket done.tokens.items) }
{
    match answer.due {
        Due::Reset(reset) => take_reset(alloc, reset, session),
        Due::Task => begin_task(alloc, engine, answer, session),
        Due::Statement(place) => run_statement(alloc, engine, answer, place, session),
        Due::Failed => final_done(alloc, true),
    }
}

/// Takes the reset, and tells that it is done (MS-TDS 2.2.7.9).
fn take_reset(alloc: Global, reset: Reset, session: &mut Session) -> Result<Done, NoMemory>
    ensures tokens { IfOk result (λ done. done.tokens.items ≡ token.Env change.ResetDone ∷ []) }
    ensures next { IfOk result (λ done. done.next ≡ Some due.Task) }
    ensures session { OnOk result (session.new ≡ after_reset reset session.old) }
{
    let tokens = vec![in alloc; Token::Env(EnvChange::ResetDone)]?;
    session.reset(reset);
    Ok(Done {
        tokens,
        next: Some(Due::Task),
    })
}

/// Compares the descriptors, and does the first step of the task, or refuses it.
#[tactic(auto, unfolding(crate::specs::Due::compared))]
fn begin_task<E: Engine>(
    alloc: Global,
    engine: &E,
    answer: &Answer<E::Stmt>,
    session: &mut Session,
) -> Result<Done, NoMemory>
    ensures next { IfOk result (λ done. IsNext (E.step_of engine.now)
        (compared (E.step_of engine.now) session.old answer.now.descriptor answer.now.task)
        answer.now None done.tokens.items session.new done.next) }
    ensures fits { IfOk result (λ done. FitsOnePacket done.tokens.items) }
{
    if answer.descriptor != session.descriptor() {
        return refuse(alloc, &answer.task);
    }
    run_task(alloc, engine, answer, session)
}

/// Does the first step of the task.
fn run_task<E: Engine>(
    alloc: Global,
    engine: &E,
    answer: &Answer<E::Stmt>,
    session: &mut Session,
) -> Result<Done, NoMemory>
    ensures next { IfOk result (λ done. IsNext (E.step_of engine.now)
        (run (E.step_of engine.now) session.old answer.now.task)
        answer.now None done.tokens.items session.new done.next) }
    ensures fits { IsSession session.old
        → IfOk result (λ done. FitsOnePacket done.tokens.items) }
{
    match &answer.task {
        Task::Batch(Some(_)) => run_statement(alloc, engine, answer, 0, session),
        Task::Batch(None) => refuse_text(alloc),
        Task::Begin => begin(alloc, session),
        Task::Commit(anew) => complete(alloc, session, Ending::Commit, *anew),
        Task::Rollback(anew) => complete(alloc, session, Ending::Rollback, *anew),
    }
}

/// Refuses a text that is not in the language.
#[tactic(auto, using(crate::proofs::Short::syntax_error))]
fn refuse_text(alloc: Global) -> Result<Done, NoMemory>
    ensures tokens { IfOk result
        (λ done. done.tokens.items ≡ error_token 50001 (codes "syntax") ∷ []) }
    ensures next { IfOk result (λ done. done.next ≡ Some due.Failed) }
    ensures fits { IfOk result (λ done. FitsOnePacket done.tokens.items) }
{
    end_batch(alloc, error_token(alloc, 50001, b"syntax")?)
}

/// Begins a transaction.
#[tactic(auto, using(crate::proofs::Short::begins_short))]
fn begin(alloc: Global, session: &mut Session) -> Result<Done, NoMemory>
    ensures tokens { IfOk result
        (λ done. done.tokens.items ≡ (last_step (begins session.old)).tokens) }
    ensures next { IfOk result (λ done. done.next ≡ None) }
    ensures session { OnOk result (session.new ≡ (begins session.old).after) }
    ensures fits { IsSession session.old
        → IfOk result (λ done. FitsOnePacket done.tokens.items) }
{
    let mut tokens = Vec::new(alloc);
    begin_transaction(alloc, session, &mut tokens)?;
    end_request(tokens)
}

/// Ends the transaction, and at an isolation level begins the next one in the same change.
#[tactic(auto, using(crate::proofs::Short::completes_short))]
fn complete(
    alloc: Global,
    session: &mut Session,
    ending: Ending,
    anew: Option<Isolation>,
) -> Result<Done, NoMemory>
    ensures tokens { IfOk result
        (λ done. done.tokens.items ≡ (last_step (completes ending anew session.old)).tokens) }
    ensures next { IfOk result (λ done. done.next ≡ None) }
    ensures session { OnOk result (session.new ≡ (completes ending anew session.old).after) }
    ensures fits { IsSession session.old
        → IfOk result (λ done. FitsOnePacket done.tokens.items) }
{
    let tokens = completed(alloc, session, ending, anew)?;
    end_request(tokens)
}

/// What the end of a transaction gives.
fn completed(
    alloc: Global,
    session: &mut Session,
    ending: Ending,
    anew: Option<Isolation>,
) -> Result<Vec<Token>, NoMemory>
    ensures tokens { IfOk result
        (λ tokens. tokens.items ≡ (completes ending anew session.old).tokens) }
    ensures session { OnOk result (session.new ≡ (completes ending anew session.old).after) }
{
    let mut tokens = Vec::new(alloc);
    match (ending, anew) {
        (_, Some(_)) => renew_transaction(alloc, session, ending, &mut tokens)?,
        (Ending::Commit, None) => commit_transaction(alloc, session, &mut tokens)?,
        (Ending::Rollback, None) => roll_back_transaction(alloc, session, &mut tokens)?,
    }
    Ok(tokens)
}

/// Refuses a task, since the request's descriptor is not the session's.
#[tactic(auto, using(crate::proofs::Short::refused_short))]
fn refuse<S: Drop>(alloc: Global, task: &Task<S>) -> Result<Done, NoMemory>
    ensures next { IfOk result
        (λ done. (step : SessionState → S → Effect) (session : SessionState) (a : Answer S)
        → IsNext step (refused session task.now) a None done.tokens.items session done.next) }
    ensures fits { IfOk result (λ done. FitsOnePacket done.tokens.items) }
{
    let error = error_token(alloc, 50010, b"descriptor")?;
    match task {
        Task::Batch(_) => end_batch(alloc, error),
        Task::Begin => end_request(vec![in alloc; error]?),
        Task::Commit(_) => end_request(vec![in alloc; error]?),
        Task::Rollback(_) => end_request(vec![in alloc; error]?),
    }
}

/// An ERROR by which a batch ends: its final DONE comes next.
fn end_batch(alloc: Global, error: Token) -> Result<Done, NoMemory>
    ensures tokens { IfOk result (λ done. done.tokens.items ≡ error ∷ []) }
    ensures next { IfOk result (λ done. done.next ≡ Some due.Failed) }
{
    let tokens = vec![in alloc; error]?;
    Ok(Done {
        tokens,
        next: Some(Due::Failed),
    })
}

/// The one step of a transaction manager request: what it gave, and the final DONE.
fn end_request(given: Vec<Token>) -> Result<Done, NoMemory>
    ensures tokens { IfOk result (λ done. done.tokens.items
        ≡ given.items ++ final (list_any is_error given.items) ∷ []) }
    ensures next { IfOk result (λ done. done.next ≡ None) }
    ensures fits { AreShort given.items
        → IfOk result (λ done. FitsOnePacket done.tokens.items) }
{
    let failed = has_error(given.as_slice());
    let mut tokens = given;
    tokens.push(final_token(failed))?;
    Ok(Done { tokens, next: None })
}

/// The final DONE of a batch, alone.
fn final_done(alloc: Global, failed: bool) -> Result<Done, NoMemory>
    ensures tokens { IfOk result (λ done. done.tokens.items ≡ final failed ∷ []) }
    ensures next { IfOk result (λ done. done.next ≡ None) }
    ensures fits { IfOk result (λ done. FitsOnePacket done.tokens.items) }
{
    let tokens = vec![in alloc; final_token(failed)]?;
    Ok(Done { tokens, next: None })
}

/// Runs the statement at this place; behind the last one stands the final DONE.
fn run_statement<E: Engine>(
    alloc: Global,
    engine: &E,
    answer: &Answer<E::Stmt>,
    place: usize,
    session: &mut Session,
) -> Result<Done, NoMemory>
    ensures next { IfOk result (λ done. IsNext (E.step_of engine.now)
        (batch_steps (E.step_of engine.now) session.old
        (drop place (statements_in answer.now.task)))
        answer.now None done.tokens.items session.new done.next) }
    ensures fits { IfOk result (λ done. FitsOnePacket done.tokens.items) }
{
    let Some(statement) = answer.task.statement(place) else {
        return final_done(alloc, false);
    };
    let mut tokens = Vec::new(alloc);
    engine.step(alloc, session, statement, &mut tokens)?;
    let next = if has_error(tokens.as_slice()) {
        Due::Failed
    } else {
        Due::Statement(place + 1)
    };
    Ok(Done {
        tokens,
        next: Some(next),
    })
}

fn is_error(token: &Token) -> bool
    ensures { result ≡ is_error token.now }
{
    matches!(token, Token::Error(_))
}

fn has_error(tokens: &[Token]) -> bool
    ensures { result ≡ list_any is_error tokens.now }
{
    tokens.iter().any(is_error)
}

/// The DONE that ends an answer (MS-TDS 2.2.7.6).
fn final_token(failed: bool) -> Token
    ensures { result ≡ final failed }
{
    Token::Done {
        status: if failed { ERROR } else { 0x0000 },
        cur_cmd: 0,
        rows: 0,
    }
}
