// Counts of 64 bits: of faults, of calls.
ghost use Rattle.std.specs.Prelude.{◌≡◌};
ghost use Rattle.go_text.specs.Causes.{raised};

/// One more. At the end of 64 bits a count stands still.
pub fn one_more(count: u64) -> u64
    ensures { result ≡ raised count }
{
    count.saturating_add(1)
}
