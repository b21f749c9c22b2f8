// What the interleaving of one session's entries comes to.
ghost use Rattle.std.specs.Prelude.{◌≡◌, List, [], ◌∷◌, ◌++◌, ℕ, length};
ghost use Rattle.go_word.specs.declared.edge.Edge.{Edge};
ghost use Rattle.go_api.specs.Alone.{positions};
ghost use Rattle.go_api.specs.Laid.{Laid, IsWhole};

/// What lies behind an old log where one session writes alone; it does nothing.
///
/// Its entries may lie there one after another, and in no other way.
pub fn laid_alone()
    ensures may { (old puts : List Edge) → Laid old (old ++ puts) (positions (length old) (length puts) ∷ []) (puts ∷ []) }
    ensures must { (old log puts : List Edge) (own : List ℕ) → Laid old log (own ∷ []) (puts ∷ []) → IsWhole (own ∷ []) (puts ∷ []) → log ≡ old ++ puts }
{}
