ghost use Rattle.std.specs.Prelude.{◌≡◌, ◌≤◌, ◌<◌, ◌+◌, ℕ, List, [], Ok, Err, IfOk, IfErr, OnOk, OnErr};
ghost use Rattle.std.specs.Prelude.{◌++◌, drop, length, Bool, true, false, None, Some};
ghost use Rattle.tds_client.specs.Sending.{Does as ClientDoes, IsRefusal};
ghost use Rattle.tds_client.specs.Session.{new_session, state_of, unless_idle};
ghost use Rattle.tds_client.specs.Streams.{finished, opened, put};
ghost use Rattle.tds_wire.specs.Reading.{next_token, restarted};
ghost use Rattle.tds_wire.specs.declared.told.Token.{Token};
ghost use Rattle.tds_service.specs.Packets.{awaiting, noted};
ghost use Rattle.tds_service.specs.Parts.{Part, items_told};
ghost use Rattle.tds_service.specs.Line as line;
ghost use Rattle.tds_service.specs.Ties.{Does, DoesAll, Hears, Stands, answer_to, asked_answer};
ghost use Rattle.tds_service.specs.Ties.{cancel_answer, end_at, finishing, line_in, listed, part_of};
ghost use Rattle.tds_service.specs.Refusing.{refusal_in};
ghost use Rattle.tds_service.specs.Beginning.{Begins};
ghost use Rattle.tds_service.specs.Sizes.{Sized};
ghost use Rattle.tds_service.specs.Ties.{items_of, putting, cancel_out, taken_answer};

mod owing;
mod whole;

use std::alloc::Global;
use tds_client::{
    Cancelled, Client, ClientFault, ClientRefusal, ClientState, MessageKind, Rules, Sign, Taken,
};
use tds_listen::{Heard, ListenFault, hear_end, next, next_to, sign_of};
use tds_packet::{PacketSize, Reset};
use tds_wire::{Features, NoMemory, Token, TokenParser};

/// One connection to any server of TDS 7.2 to 7.4: its client, the parser over what comes, and how
/// many requests were asked on it, which are their numbers.
#[derive(Drop)]
pub struct Connection {
    client: Client,
    parser: TokenParser,
    asked: u64,
}

impl Connection {
    /// A connection for packets of this size, on which nothing was asked. `most` is how many columns
    /// of a result it can read, and `features` what the login acknowledged.
    pub fn new(
        alloc: Global,
        size: PacketSize,
        most: u16,
        features: Features,
    ) -> Result<Connection, NoMemory>
        requires { most ≤ 4096 }
        ensures line { IfOk result (λ connection. line_in connection ≡ line.new_line) }
        ensures client { IfOk result (λ connection. connection.client ≡ new_session size) }
        ensures sized { IfOk result (Sized size) }
        ensures begins { IfOk result (λ connection. Begins most features connection.parser) }
    {
        let parser = TokenParser::new(alloc, most, features)?;
        Ok(Connection {
            client: Client::new(alloc, size),
            parser,
            asked: 0,
        })
    }

    /// What its client is doing.
    pub fn state(&self) -> ClientState
        ensures { result ≡ state_of self.now.client.stage }
    {
        self.client.state()
    }

    /// How many requests were asked here: the number of the newest one.
    pub fn asked(&self) -> u64
        ensures { result ≡ self.now.asked }
    {
        self.asked
    }

    /// Lets the next request ask for this reset (MS-TDS 2.2.3.1.2). Of two the stronger one stays.
    ///
    /// Refused with `NotIdle` or `Broken`, and then nothing changes.
    pub fn mark(&mut self, reset: Reset) -> Result<(), ClientRefusal>
        ensures ok { IfOk result (λ _. (out : List ℕ)
            → Does (line.Mark reset) (line_in self.old) (line_in self.new) line.Marked out out) }
        ensures refused { IfErr result (λ refusal.
            answer_to (line_in self.old) (line.Mark reset) ≡ line.Refused refusal) }
        ensures err { OnErr result (self.new ≡ self.old) }
        ensures parser { self.new.parser ≡ self.old.parser }
        ensures size { self.new.client.size ≡ self.old.client.size }
    {
        self.client.mark_reset(reset)
    }

    /// Begins a request of this kind, and answers its number on this connection. Nothing goes out yet.
    ///
    /// Refused with `NotIdle`, `Broken` or, last, `Memory`, and then nothing changes. `Memory` is
    /// answered too where 2^64 - 1 requests were asked.
    pub fn ask(&mut self, kind: MessageKind) -> Result<u64, ClientRefusal>
        ensures ok { IfOk result (λ number. (out : List ℕ)
            → Does line.Ask (line_in self.old) (line_in self.new)
            (asked_answer self.old number) out out) }
        ensures opened { OnOk result (self.new.client ≡ opened self.old.client kind) }
        ensures refused { IfErr result (IsRefusal
            (refusal_in (answer_to (line_in self.old) line.Ask))) }
        ensures err { OnErr result (self.new ≡ self.old) }
        ensures parser { self.new.parser ≡ self.old.parser }
        ensures size { self.new.client.size ≡ self.old.client.size }
    {
        let number = self.next_number()?;
        self.client.start_message(kind)?;
        self.asked = number;
        Ok(number)
    }

    /// The number of the next request, where one can be asked.
    fn next_number(&self) -> Result<u64, ClientRefusal>
        ensures ok { IfOk result (λ number. number ≡ self.now.asked + 1) }
        ensures refused { IfErr result (IsRefusal (unless_idle self.now.client.stage)) }
    {
        match self.client.state() {
            ClientState::Idle => {}
            ClientState::Sending => return Err(ClientRefusal::NotIdle),
            ClientState::Reading => return Err(ClientRefusal::NotIdle),
            ClientState::Cancelling => return Err(ClientRefusal::NotIdle),
            ClientState::Broken(_) => return Err(ClientRefusal::Broken),
        }
        if self.asked == u64::MAX {
            return Err(ClientRefusal::Memory);
        }
        Ok(self.asked + 1)
    }

    /// Appends these bytes to the request. Each of its packets that is full goes out to `out` as soon
    /// as a byte stands behind it.
    ///
    /// Refused with `NotSending`, `Broken` or, last, `Memory`, and then nothing changes.
    pub fn put(&mut self, bytes: &[u8], out: &mut Vec<u8>) -> Result<(), ClientRefusal>
        ensures ok { OnOk result (DoesAll (putting self.old bytes.now) (line_in self.old)
            (line_in self.new) out.old.items out.new.items) }
        ensures accepted { OnOk result
            (answer_to (line_in self.old) (line.Send false) ≡ line.Sent) }
        // Which bytes go out, and which are kept.
        ensures puts { OnOk result (ClientDoes (put self.old.client bytes.now) tt
            self.new.client out.old.items out.new.items) }
        ensures refused { IfErr result (IsRefusal
            (refusal_in (answer_to (line_in self.old) (line.Send false)))) }
        ensures err { OnErr result (self.new ≡ self.old) }
        ensures nothing { OnErr result (out.new.items ≡ out.old.items) }
        ensures parser { self.new.parser ≡ self.old.parser }
        ensures size { self.new.client.size ≡ self.old.client.size }
    {
        self.client.put(bytes, out)
    }

    /// Ends the request: what is left of it goes out to `out`, and its answer is awaited.
    ///
    /// Refused with `NotSending`, `Broken` or, last, `Memory`, and then nothing changes.
    pub fn finish(&mut self, out: &mut Vec<u8>) -> Result<(), ClientRefusal>
        ensures ok { OnOk result (DoesAll (finishing self.old) (line_in self.old)
            (line_in self.new) out.old.items out.new.items) }
        ensures accepted { OnOk result
            (answer_to (line_in self.old) (line.Send true) ≡ line.Sent) }
        ensures ends { OnOk result (ClientDoes (finished self.old.client) tt
            self.new.client out.old.items out.new.items) }
        ensures refused { IfErr result (IsRefusal
            (refusal_in (answer_to (line_in self.old) (line.Send true)))) }
        ensures err { OnErr result (self.new ≡ self.old) }
        ensures nothing { OnErr result (out.new.items ≡ out.old.items) }
        ensures parser { self.new.parser ≡ self.old.parser }
        ensures size { self.new.client.size ≡ self.old.client.size }
    {
        self.client.finish(out)
    }

    /// Cancels the request underway. One of which no packet is out is forgotten; else an attention is
    /// appended to `out`, once (MS-TDS 2.2.1.7).
    ///
    /// Refused with `Broken` or, where something is appended, with `Memory`, and then nothing changes.
    pub fn cancel(&mut self, out: &mut Vec<u8>) -> Result<Cancelled, ClientRefusal>
        ensures ok { IfOk result (λ how. Does line.Cancel (line_in self.old) (line_in self.new)
            (cancel_answer self.old.asked how) out.old.items out.new.items) }
        ensures stops { OnOk result (out.new.items
            ≡ out.old.items ++ cancel_out self.old.client.stage) }
        ensures refused { IfErr result (IsRefusal
            (refusal_in (answer_to (line_in self.old) line.Cancel))) }
        ensures err { OnErr result (self.new ≡ self.old) }
        ensures nothing { OnErr result (out.new.items ≡ out.old.items) }
        ensures parser { self.new.parser ≡ self.old.parser }
        ensures size { self.new.client.size ≡ self.old.client.size }
    {
        self.client.cancel(out)
    }

    /// A piece of an answer's data came (of packets of type `04`): hears it up to the end of one
    /// token. Call it with the bytes behind `count` until there are none. It takes no memory.
    ///
    /// The token is the newest request's, and stands where `Token` says, counted from the message's
    /// first byte. Where an attention is out none is told, and a change of a transaction or the end
    /// of a reset never is.
    ///
    /// # Errors
    ///
    /// The fault that breaks the connection: of a client that awaits nothing at once, whatever came.
    #[inline(always)]
    pub fn came(&mut self, piece: &[u8]) -> Result<Heard, ListenFault>
        ensures ok { IfOk result (λ heard. Hears
            (part_of (next_token self.old.parser piece.now)) (line_in self.old)
            (line_in self.new) line.More (listed heard.token)) }
        ensures fault { IfErr result (λ fault. Hears
            (part_of (next_token self.old.parser piece.now)) (line_in self.old)
            (line_in self.new) (line.Fault fault) []) }
        ensures stands { IfOk result (λ heard. Stands (next_token self.old.parser piece.now)
            self.new.parser (drop heard.count piece.now)) }
        ensures within { IfOk result (λ heard. heard.count ≤ length piece.now) }
        ensures moves { IfOk result (λ heard. 0 < length piece.now → 0 < heard.count) }
        ensures size { self.new.client.size ≡ self.old.client.size }
    {
        if let Err(fault) = self.client.hear_sign(Rules::Any, Sign::Nothing) {
            return Err(ListenFault::Client(fault));
        }
        match next(&mut self.client, &mut self.parser, piece) {
            Ok(heard) => Ok(Heard {
                count: heard.count,
                token: unless_change(heard.token),
            }),
            Err(fault) => Err(fault),
        }
    }

    /// The same where it is known that an answer or an acknowledgement is awaited, with the token left in
    /// `token`. It may be a change of a transaction or the end of a reset: `is_told` says which tokens are
    /// told. The answer is how many bytes are done with.
    #[inline(never)]
    fn hear_next(&mut self, piece: &[u8], token: &mut Option<Token>) -> Result<usize, ListenFault>
        requires awaits { (cancelling : Bool)
            × ((line_in self.old).stage ≡ awaiting cancelling) }
        ensures ok { IfOk result (λ _. Hears
            (part_of (next_token self.old.parser piece.now)) (line_in self.old)
            (line_in self.new) line.More (items_told (items_of token.new))) }
        ensures fault { IfErr result (λ fault. Hears
            (part_of (next_token self.old.parser piece.now)) (line_in self.old)
            (line_in self.new) (line.Fault fault) []) }
        ensures stands { IfOk result (λ count. Stands (next_token self.old.parser piece.now)
            self.new.parser (drop count piece.now)) }
        ensures within { IfOk result (λ count. count ≤ length piece.now) }
        ensures moves { IfOk result (λ count. 0 < length piece.now → 0 < count) }
        ensures size { self.new.client.size ≡ self.old.client.size }
    {
        next_to(&mut self.client, &mut self.parser, piece, token)
    }

    /// Passes the row that bytes begin with, where it is whole: how many bytes it has. Else nothing is done,
    /// and the answer is 0.
    #[inline(always)]
    fn pass_row(&mut self, piece: &[u8]) -> usize
        requires awaits { (cancelling : Bool)
            × ((line_in self.old).stage ≡ awaiting cancelling) }
        ensures within { result ≤ length piece.now }
        ensures same { result ≡ 0 → self.new ≡ self.old }
        ensures ok { 0 < result → (tokens : List Token) × Hears
            (part_of (next_token self.old.parser piece.now)) (line_in self.old)
            (line_in self.new) line.More tokens }
        ensures stands { 0 < result → Stands (next_token self.old.parser piece.now)
            self.new.parser (drop result piece.now) }
        ensures client { self.new.client ≡ self.old.client }
    {
        if !self.parser.is_between() {
            return 0;
        }
        self.parser.pass_row(piece)
    }

    /// As `hear_next`; where the caller doesn't tell, a row that stands whole is passed, and not answered.
    #[inline(always)]
    pub(crate) fn hear_some(
        &mut self,
        piece: &[u8],
        tells: bool,
        token: &mut Option<Token>,
    ) -> Result<usize, ListenFault>
        requires awaits { (cancelling : Bool)
            × ((line_in self.old).stage ≡ awaiting cancelling) }
        ensures ok { IfOk result (λ _. (tokens : List Token) × Hears
            (part_of (next_token self.old.parser piece.now)) (line_in self.old)
            (line_in self.new) line.More tokens
            × (noted tells (items_told (items_of token.new)) ≡ noted tells tokens)) }
        ensures fault { IfErr result (λ fault. Hears
            (part_of (next_token self.old.parser piece.now)) (line_in self.old)
            (line_in self.new) (line.Fault fault) []) }
        ensures stands { IfOk result (λ count. Stands (next_token self.old.parser piece.now)
            self.new.parser (drop count piece.now)) }
        ensures within { IfOk result (λ count. count ≤ length piece.now) }
        ensures moves { IfOk result (λ count. 0 < length piece.now → 0 < count) }
        ensures size { self.new.client.size ≡ self.old.client.size }
    {
        if tells {
            return self.hear_next(piece, token);
        }
        let count = self.pass_row(piece);
        if count == 0 {
            return self.hear_next(piece, token);
        }
        Ok(count)
    }

    /// Whether an answer or an acknowledgement is awaited. Where none is, whatever comes is a fault, which
    /// breaks the connection.
    pub(crate) fn expects(&mut self) -> Result<(), ListenFault>
        ensures ok { OnOk result (self.new ≡ self.old) }
        ensures awaits { OnOk result ((cancelling : Bool)
            × ((line_in self.old).stage ≡ awaiting cancelling)) }
        ensures fault { IfErr result (λ fault. (part : Part Token)
            → Hears part (line_in self.old) (line_in self.new) (line.Fault fault) []) }
        ensures size { self.new.client.size ≡ self.old.client.size }
    {
        match self.client.hear_sign(Rules::Any, Sign::Nothing) {
            Ok(()) => Ok(()),
            Err(fault) => Err(ListenFault::Client(fault)),
        }
    }

    /// The message that came has ended: its packet with end of message is read to its end (MS-TDS
    /// 2.2.3.1.2). It takes no memory.
    ///
    /// `Finished` where the newest request has its whole answer, `Acknowledged` where its cancel is
    /// acknowledged, `More` where the acknowledgement is still to come.
    ///
    /// # Errors
    ///
    /// The fault that breaks the connection.
    pub fn ended(&mut self) -> Result<Taken, ListenFault>
        ensures ok { IfOk result (λ answer. Hears (end_at self.old.parser) (line_in self.old)
            (line_in self.new) (taken_answer self.old.asked answer) []) }
        ensures fault { IfErr result (λ fault. Hears (end_at self.old.parser) (line_in self.old)
            (line_in self.new) (line.Fault fault) []) }
        ensures anew { self.new.parser ≡ restarted self.old.parser }
        ensures memory { result ≡ Ok Taken.NoMemory → ⊥ }
        ensures size { self.new.client.size ≡ self.old.client.size }
    {
        hear_end(&mut self.client, &mut self.parser)
    }

    /// The connection is lost: it is broken, unless it is broken already.
    pub fn lost(&mut self)
        ensures does { (out : List ℕ)
            → Does line.Lose (line_in self.old) (line_in self.new) line.Lost out out }
        ensures parser { self.new.parser ≡ self.old.parser }
        ensures size { self.new.client.size ≡ self.old.client.size }
    {
        self.client.lost();
    }
}

/// Whether a token is told: it is no change of a transaction and no end of a reset.
#[inline(always)]
pub(crate) fn is_told(token: &Token) -> bool
    ensures { items_told (items_of (Some token.now)) ≡ noted result (listed (Some token.now)) }
{
    match sign_of(token) {
        Sign::Change(_) => false,
        Sign::Nothing => true,
        Sign::Done { .. } => true,
    }
}

/// The token, where it is told.
fn unless_change(token: Option<Token>) -> Option<Token>
    ensures { listed result ≡ items_told (items_of token) }
{
    let told = token?;
    if is_told(&told) { Some(told) } else { None }
}
