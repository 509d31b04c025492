//! What follows from the definitions alone. The function does nothing when it runs: its contract is the law.
ghost use Rattle.std.specs.Prelude.{◌≡◌, ℕ, List, ◌++◌, Some, []};
ghost use Rattle.tds_login.specs.Reading.{after, answers_to, fault_of};
ghost use Rattle.tds_login.specs.declared.login.Login.{Login};
ghost use Rattle.tds_login.specs.declared.login.LoginFault.{LoginFault};

/// How a login's bytes are cut into pieces doesn't matter: behind two pieces the login is what it is behind
/// both as one, and the same is answered, in the same order. Behind a fault nothing happens any more.
pub fn cuts_do_not_matter()
    ensures login { (l : Login) (first second : List ℕ)
        → after (after l first) second ≡ after l (first ++ second) }
    ensures answers { (l : Login) (first second : List ℕ)
        → answers_to l first ++ answers_to (after l first) second ≡ answers_to l (first ++ second) }
    ensures broken { (l : Login) (fault : LoginFault) (bytes : List ℕ) → fault_of l ≡ Some fault
        → (after l bytes ≡ l) × (answers_to l bytes ≡ []) }
{}
