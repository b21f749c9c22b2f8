// Laws of files of edges and of the generator, each proved as a clause of a function that does nothing.
ghost use Rattle.std.specs.Prelude.{◌≡◌, ◌<◌, ◌≤◌, ◌-◌, ◌%◌, ℕ, true, List, Ok, Err, Some, slice_get};
ghost use Rattle.go_text.specs.declared.faults.FaultKind.{FaultKind};
ghost use Rattle.go_word.specs.declared.edge.Edge.{Edge as Entry};
ghost use Rattle.go_loader.specs.declared.fault.LoadFault.TheVariants.{Line, Memory};
ghost use Rattle.go_loader.specs.Reading.{Reader, entries_from};
ghost use Rattle.go_loader.specs.Laws.{AreEntriesOf, HasFirstFault};
ghost use Rattle.go_loader.specs.Generated.{entry};

/// What reading and generating come to; it does nothing.
///
/// Items have entries, or one of them has the first fault. Each eighth entry of a generated list deletes the edge that stands four
/// before it.
pub fn loader_laws()
    ensures entries { (reads : Reader) (n : ℕ) (items : List (List ℕ)) (edges : List Entry) →
        entries_from reads n items ≡ Ok edges → AreEntriesOf reads items edges }
    ensures fault { (reads : Reader) (n : ℕ) (items : List (List ℕ)) (m : ℕ) (kind : FaultKind) →
        entries_from reads n items ≡ Err (Line m kind) → HasFirstFault reads n items m kind }
    ensures no_other { (reads : Reader) (n : ℕ) (items : List (List ℕ)) → entries_from reads n items ≡ Err Memory → ⊥ }
    ensures deletes { (x v i : ℕ) → i % 8 ≡ 7 → entry x v i ≡ record (entry x v (i - 4)) { del = true } }
{}
