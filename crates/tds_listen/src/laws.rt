//! What follows from the definitions alone. Each function does nothing when it runs: its contract is
//! the law.

ghost use Rattle.std.specs.Prelude.{◌≡◌, ◌≢◌, ◌≤◌, ◌++◌, ℕ, List, Option, None, Ok, false, length, take};
ghost use Rattle.tds_client.specs.Session.{Cancelling, ClientSession};
ghost use Rattle.tds_client.specs.Signs as strict;
ghost use Rattle.tds_client.specs.Machine.{ItemMove};
ghost use Rattle.tds_client.specs.declared.state.Taken.TheVariants.{Acknowledged};
ghost use Rattle.tds_listen.specs.Agreeing.{IsPassed, Knows};
ghost use Rattle.tds_listen.specs.Hearing.{Move, heard_data, heard_end, laid_move, next_heard};
ghost use Rattle.tds_listen.specs.Hearing.{then_data, without_parser};
ghost use Rattle.tds_listen.specs.Signs.{sign_by};
ghost use Rattle.tds_token.specs.Layout.{IsToken, RangedEnv, spelling};
ghost use Rattle.tds_token.specs.declared.env_change.EnvChange.{EnvChange};
ghost use Rattle.tds_token.specs.declared.token.Token.{Token};
ghost use Rattle.tds_token.specs.declared.token.Token.TheVariants as tokens;
ghost use Rattle.tds_wire.specs.Reading.{IsReady, Parser, laid_out, next_token, outcome_of};
ghost use Rattle.tds_wire.specs.Told.{told_of};

/// How an answer's bytes are cut into pieces doesn't matter: two pieces do what both do as one.
pub fn cuts_are_unheard()
    ensures { (s : ClientSession) (r : Parser) (first second : List ℕ)
        → heard_data s r (first ++ second) ≡ then_data (heard_data s r first) second }
{
    tds_wire::cuts_do_not_matter();
}

/// In cancelling no token is told, whatever comes, and the client goes on cancelling: only the end of
/// a message that answers `Acknowledged` leads out of it.
pub fn nothing_told()
    ensures token { (s : ClientSession) (r : Parser) (bytes : List ℕ) (move : Move)
        → s.stage ≡ Cancelling → next_heard s r bytes ≡ Ok move → move.told ≡ None }
    ensures stays { (s : ClientSession) (r : Parser) (bytes : List ℕ) (move : Move)
        → s.stage ≡ Cancelling → next_heard s r bytes ≡ Ok move
        → move.session.stage ≡ Cancelling }
    ensures ends { (s : ClientSession) (r : Parser) (move : ItemMove)
        → s.stage ≡ Cancelling → heard_end s r ≡ Ok move → move.answer ≢ Acknowledged
        → move.session.stage ≡ Cancelling }
{}

/// What is heard of bytes behind a token, or at a message's beginning, is what the layout says is the
/// next token there, and no other; nothing, where the layout's bytes end first; and the layout's
/// refusal.
pub fn tokens_are_heard()
    ensures { (s : ClientSession) (r : Parser) (bytes : List ℕ) → IsReady r
        → without_parser (next_heard s r bytes) ≡ laid_move s (laid_out r bytes) }
{
    tds_wire::tokens_are_passed();
}

/// Each ENVCHANGE of the strict profile has the same sign by both readers: of the first bytes of its
/// spelling the parser's token says what the strict reader's does.
pub fn changes_are_the_same()
    ensures { (change : EnvChange) (start : ℕ) → RangedEnv change
        → sign_by 0xE3 (told_of 0xE3 start (length (spelling (tokens.Env change)))
        (take 24 (spelling (tokens.Env change)))) ≡ strict.sign_of (tokens.Env change) }
{}

/// Both readers agree where both read: what `tds_token` reads as one token is passed as one token, of
/// the same bytes, kind and sign, and behind it as many columns are known. So it is where the parser
/// has room for the 16 columns of the strict profile, and no column encryption was acknowledged.
pub fn readers_agree()
    ensures { (r : Parser) (columns after : Option ℕ) (token : Token) (bytes rest : List ℕ)
        → IsReady r → r.walk.features.encryption ≡ false → 16 ≤ r.walk.most
        → Knows columns r.walk.columns → IsToken columns token bytes after
        → IsPassed r token bytes rest after (outcome_of (next_token r (bytes ++ rest))) }
{
    tds_wire::tokens_are_passed();
}
