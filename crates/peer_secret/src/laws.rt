//! What holds of texts that count as the same. Nothing here runs: the law is the promise of an empty function.

ghost use Rattle.std.specs.Prelude.{◌≡◌, true, ℕ, List};
ghost use Rattle.peer_secret.specs.Same.{same_bytes};

/// Texts that count as the same are equal.
pub fn the_same_text()
    ensures { (left right : List ℕ) → same_bytes left right ≡ true → left ≡ right }
{}
