//! What follows from the definitions alone. Each function does nothing when it runs: its contract is the law.
ghost use Rattle.std.specs.Prelude.{◌≡◌, ℕ, List, ◌++◌};
ghost use Rattle.tds_wire.specs.Reading.{IsReady, Parser, laid_out, next_token, outcome_of, then_found};

/// How a message's bytes are cut into pieces doesn't matter: two pieces do what both do as one.
pub fn cuts_do_not_matter()
    ensures { (r : Parser) (first second : List ℕ)
        → then_found (next_token r first) second ≡ next_token r (first ++ second) }
{}

/// A parser between two tokens passes what the layout says is the next token, and no other bytes, and
/// tells what its first bytes say; it wants more exactly where the layout's bytes end first; and it
/// refuses what the layout refuses, at its byte.
pub fn tokens_are_passed()
    ensures { (r : Parser) (piece : List ℕ) → IsReady r
        → outcome_of (next_token r piece) ≡ laid_out r piece }
{}
