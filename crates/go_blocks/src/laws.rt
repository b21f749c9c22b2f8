// Laws of the definitions, each proved as a clause of a function that does nothing.
ghost use Rattle.std.specs.Prelude.{◌≡◌, ◌+◌, ℕ, List, [], ◌++◌, ◌∷◌, All, length, take};
ghost use Rattle.go_word.specs.declared.edge.Edge.{Edge};
ghost use Rattle.go_word.specs.Log.{IsWithin};
ghost use Rattle.go_blocks.specs.declared.fault.Bad.{Bad};
ghost use Rattle.go_blocks.specs.File.{File, IsFront, IsClosedBy, IsReadOf, IsOpen, IsCount, IsVertexCount, header_bytes, body_of};
ghost use Rattle.go_blocks.specs.Faults.{IsFirstFault};
ghost use Rattle.go_blocks.specs.Log.{Log};
ghost use Rattle.go_blocks.specs.declared.layout.TheConstants.{CLOSED};

/// What the definitions of a log file and of its faults come to; it does nothing.
///
/// Bytes stand for one log at most. A file has no fault, and other bytes have one first fault at
/// most. A header is the front of the empty log, and a block behind an open gate makes the front of
/// the longer log. A front with a closed gate behind it is a file, whatever follows, and a file that
/// was read has a front up to its gate. A write that is torn behind the closed gate leaves the bytes
/// closed by the same front.
pub fn file_laws()
    ensures one_log { (v w : ℕ) (log other : List Edge) (bytes : List ℕ) →
        File v log bytes → File w other bytes → (v ≡ w) × (log ≡ other) }
    ensures no_fault { (v : ℕ) (log : List Edge) (bytes : List ℕ) (bad : Bad) →
        File v log bytes → IsFirstFault bytes bad → ⊥ }
    ensures one_fault { (bytes : List ℕ) (bad other : Bad) →
        IsFirstFault bytes bad → IsFirstFault bytes other → bad ≡ other }

    ensures header { (gate v : ℕ) → IsOpen gate → IsVertexCount v → IsFront v [] (header_bytes gate v) }
    ensures block { (v : ℕ) (log edges : List Edge) (front : List ℕ) (gate : ℕ) → IsFront v log front →
        IsOpen gate → IsCount (length edges) → All (IsWithin v) edges →
        IsFront v (log ++ edges) (front ++ gate ∷ body_of edges) }

    ensures closed { (v : ℕ) (log : List Edge) (front rest : List ℕ) → IsFront v log front →
        File v log (front ++ CLOSED ∷ rest) }
    ensures read { (bytes : List ℕ) (file : Log) → IsReadOf bytes file → (front : List ℕ)
        × IsFront file.vertices file.edges front × IsClosedBy front bytes × (file.gate ≡ length front) }
    ensures torn { (front bytes torn : List ℕ) → IsClosedBy front bytes →
        take (length front + 1) torn ≡ take (length front + 1) bytes → IsClosedBy front torn }
{}
