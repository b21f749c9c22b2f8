// Laws of the definitions, each proved as a clause of a function that does nothing.
ghost use Rattle.std.specs.Prelude.{◌≡◌, ℕ, ◌-◌, ◌==◌, if◌then◌else◌, List, [], ◌∷◌, ◌++◌, map, true};
ghost use Rattle.go_word.specs.declared.edge.Edge.{Edge};
ghost use Rattle.go_word.specs.Log.{entries_from, IsOfAdditions};
ghost use Rattle.go_word.specs.Neighbours.{neighbours, copies};

/// What the definition of the neighbours comes to, for any log; it does nothing.
///
/// Only a vertex's own entries count. Additions alone are listed in their order. A deletion takes
/// one copy of its destination and no other, the earliest, and nothing where there is none.
pub fn neighbours_laws()
    ensures own_entries { (log : List Edge) (s : ℕ) →
        neighbours (entries_from s log) s ≡ neighbours log s }
    ensures additions { (log : List Edge) (s : ℕ) → IsOfAdditions log →
        neighbours log s ≡ map (λ e. e.dst) (entries_from s log) }
    ensures one_copy { (log : List Edge) (e : Edge) (x : ℕ) → e.del ≡ true →
        copies x (neighbours (log ++ e ∷ []) e.src)
        ≡ copies x (neighbours log e.src) - (if x == e.dst then 1 else 0) }
    ensures earliest { (log : List Edge) (e : Edge) (before after : List ℕ) → e.del ≡ true →
        neighbours log e.src ≡ before ++ e.dst ∷ after → copies e.dst before ≡ 0 →
        neighbours (log ++ e ∷ []) e.src ≡ before ++ after }
    ensures absent { (log : List Edge) (e : Edge) → e.del ≡ true →
        copies e.dst (neighbours log e.src) ≡ 0 →
        neighbours (log ++ e ∷ []) e.src ≡ neighbours log e.src }
{}
