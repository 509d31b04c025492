//! Laws of the layout. The functions do nothing when they run: each stands for its contract.

ghost use Rattle.std.specs.Prelude.{◌≡◌, ◌++◌, List, ℕ, Option, None};
ghost use Rattle.tds_token.specs.declared.token.Token.{Token};
ghost use Rattle.tds_token.specs.Contents.{AreContents, Contents, contents_of};
ghost use Rattle.tds_token.specs.Layout.{IsToken, IsTokens};
ghost use Rattle.tds_token.specs.Texts.{AreColumns, IsBytes};

/// No spelling begins another for the same columns, so what was written is read again, whatever
/// follows it.
pub fn one_spelling()
    ensures { (columns : Option ℕ) (first second : Token) (a b x y : List ℕ)
        (after other : Option ℕ) → IsToken columns first a after → IsToken columns second b other
        → a ++ x ≡ b ++ y → (a ≡ b) × (first ≡ second) × (x ≡ y) }
{}

/// The contents of data are the tokens that they spell, one behind the other, up to their end or
/// to bytes that spell no token; and there are no others.
pub fn contents_are_spelled()
    ensures found { (columns : Option ℕ) (bytes : List ℕ) → AreColumns columns → IsBytes bytes
        → AreContents columns bytes (contents_of columns bytes) }
    ensures only { (columns : Option ℕ) (bytes : List ℕ) (all : Contents) → AreColumns columns
        → IsBytes bytes
        → AreContents columns bytes all → all ≡ contents_of columns bytes }
{}

/// Data that spell tokens are read as these tokens, all of them and no more, and the columns that are
/// known behind them are columns. What is spelled where none are known is spelled wherever it stands.
pub fn spelled_are_read()
    ensures contents { (columns : Option ℕ) (tokens : List Token) (bytes : List ℕ)
        (after : Option ℕ) → IsTokens columns tokens bytes after
        → contents_of columns bytes ≡ record { tokens = tokens; fault = None; columns = after } }
    ensures known { (columns : Option ℕ) (tokens : List Token) (bytes : List ℕ) (after : Option ℕ)
        → AreColumns columns
        → IsTokens columns tokens bytes after → AreColumns after }
    ensures anywhere { (columns : Option ℕ) (tokens : List Token) (bytes : List ℕ)
        (after : Option ℕ) → IsTokens None tokens bytes after
        → (behind : Option ℕ) × IsTokens columns tokens bytes behind }
{}
