//! What the batch language's grammar comes to.
ghost use Rattle.std.specs.Prelude.{◌≡◌, ◌↔◌, List, ℕ, Some};
ghost use Rattle.tds_session.specs.Language.{statements_of};
ghost use Rattle.tds_session.specs.Spelling.{Spells};
ghost use Rattle.tds_session.specs.declared.statement.Statement.{Statement};

/// A text is read as statements exactly where it is their spelling: each statement has one text,
/// and a text of several is theirs with one semicolon between each two.
pub fn one_spelling()
    ensures { (text : List ℕ) (statements : List Statement)
        → (statements_of text ≡ Some statements) ↔ Spells text statements }
{}
