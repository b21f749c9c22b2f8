// What the interleaving of several sessions' entries comes to.
ghost use Rattle.std.specs.Prelude.{◌≡◌, List, ◌++◌, ℕ, length, drop};
ghost use Rattle.go_word.specs.declared.edge.Edge.{Edge};
ghost use Rattle.go_api.specs.Laid.{Laid, IsWhole};
ghost use Rattle.go_api.specs.Merge.{IsMerge};

/// What lies behind an old log where all that several sessions put is there; it does nothing.
///
/// It is a merge of what they put: all of it and nothing else, what each session put in its own order.
pub fn laid_merged()
    ensures begins { (old log : List Edge) (owns : List (List ℕ)) (puts : List (List Edge)) → Laid old log owns puts → log ≡ old ++ drop (length old) log }
    ensures merged { (old log : List Edge) (owns : List (List ℕ)) (puts : List (List Edge)) → Laid old log owns puts → IsWhole owns puts →
        IsMerge puts (drop (length old) log) }
{}
