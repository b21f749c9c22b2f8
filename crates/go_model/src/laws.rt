// Laws of the definitions, each proved as a clause of a function that does nothing.
ghost use Rattle.std.specs.Prelude.{◌≡◌, ℕ, ◌+◌, List, Option, Some, Contains};
ghost use Rattle.go_word.specs.declared.edge.Edge.{Edge};
ghost use Rattle.go_word.specs.declared.ranked.Ranked.{Ranked};
ghost use Rattle.go_model.specs.Levels.{Leads, Walk, IsLevel, AreLevels};
ghost use Rattle.go_model.specs.Ranks.{IsRank};
ghost use Rattle.go_model.specs.Hops.{IsHop};

/// What the definitions come to, for any log; it does nothing.
///
/// A vertex has one level, a graph one list of levels and one rank, and a vertex one hop: so two programs that
/// meet the definitions give the same. A vertex is at level 0 from itself, also where an edge leads from it to
/// itself. A walk and a further one are a walk.
pub fn question_laws()
    ensures one_level { (log : List Edge) (r v : ℕ) (a b : Option ℕ) → IsLevel log r v a → IsLevel log r v b → a ≡ b }
    ensures levels { (log : List Edge) (size r : ℕ) (a b : List (Option ℕ)) → AreLevels log size r a → AreLevels log size r b → a ≡ b }
    ensures rank { (log : List Edge) (size k : ℕ) (a b : List Ranked) → IsRank log size k a → IsRank log size k b → a ≡ b }
    ensures hop { (log : List Edge) (v : ℕ) (a b : List ℕ) → IsHop log v a → IsHop log v b → a ≡ b }
    ensures root { (log : List Edge) (r : ℕ) → IsLevel log r r (Some 0) }
    ensures onward { (log : List Edge) (a b c n m : ℕ) → Walk log a b n → Walk log b c m → Walk log a c (n + m) }
{}
