// Laws of the grammar, each proved as a clause of a function that does nothing.
ghost use Rattle.std.specs.Prelude.{◌≡◌, ℕ, List, [], Ok, Err};
ghost use Rattle.std.specs.Str.Lines.{lines};
ghost use Rattle.go_text.specs.declared.faults.FaultKind.{FaultKind};
ghost use Rattle.go_script.specs.declared.fault.ScriptFault.TheVariants.{Line, Memory};
ghost use Rattle.go_script.specs.declared.step.Step.{Step as AnyStep};
ghost use Rattle.go_script.specs.Grammar.{script_of};
ghost use Rattle.go_script.specs.Reading.{IsReading, HasFirstFault};

/// What the grammar comes to, for any text over any number of vertices; it does nothing.
///
/// A text has a reading, or one line of it has the first fault.
pub fn script_laws()
    ensures steps { (v : ℕ) (text : List ℕ) (steps : List AnyStep) →
        script_of v text ≡ Ok steps → IsReading v [] 1 (lines text) steps }
    ensures fault { (v : ℕ) (text : List ℕ) (n : ℕ) (kind : FaultKind) →
        script_of v text ≡ Err (Line n kind) → HasFirstFault v [] 1 (lines text) n kind }
    ensures no_other { (v : ℕ) (text : List ℕ) → script_of v text ≡ Err Memory → ⊥ }
{}
