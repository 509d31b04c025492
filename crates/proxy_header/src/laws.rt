//! What follows from the definitions. The functions do nothing when they run: their contracts are the laws.
ghost use Rattle.std.specs.Prelude.{◌≡◌, ◌+◌, ◌*◌, ◌++◌, ℕ, List, [], ◌∷◌, length};
ghost use Rattle.proxy_header.specs.declared.header.Found.TheVariants.{Whole, Wrong};
ghost use Rattle.proxy_header.specs.declared.source.Source.{Source};
ghost use Rattle.proxy_header.specs.declared.source.Source.TheVariants.{V4};
ghost use Rattle.proxy_header.specs.Header.{header_in, signature};

/// A header for a client of IPv4 that has no more than its addresses names the client.
pub fn a_client_is_named()
    ensures { (a b c d e f g h high low i j : ℕ) → header_in (signature ++ (33 ∷ 17 ∷ 0 ∷ 12
        ∷ a ∷ b ∷ c ∷ d ∷ e ∷ f ∷ g ∷ h ∷ high ∷ low ∷ i ∷ j ∷ []))
        ≡ Whole (V4 (a ∷ b ∷ c ∷ d ∷ []) (256 * high + low)) }
{}

/// What is said of bytes doesn't depend on how they are cut: bytes that are no header are none with others
/// behind them, and a header that is whole names the same client, whatever follows.
pub fn what_follows_changes_nothing()
    ensures wrong { (bytes more : List ℕ) → header_in bytes ≡ Wrong
        → header_in (bytes ++ more) ≡ Wrong }
    ensures whole { (bytes more : List ℕ) (source : Source) → header_in bytes ≡ Whole source
        → header_in (bytes ++ more) ≡ Whole source }
{}
