// A shelf of named whole texts: the trait, and what a fetch answers.
ghost use Rattle.std.specs.Prelude.{◌≡◌, ℕ, ◌≤◌, List, length, Option};
ghost use Rattle.go_text.specs.Causes.{Rose};
ghost use Rattle.go_io.specs.Shelf.{Fetches};

use go_text::Text;

/// What a fetch answers.
#[derive(Clone, Copy, Debug, PartialEq, Eq)]
pub enum Fetched {
    /// The whole text was copied.
    Whole,
    /// No text stands under this name.
    Missing,
    /// The text has more bytes than the limit.
    TooLong,
    /// Reading it failed.
    Failed,
    /// There was no memory for it.
    Memory,
}

/// A shelf of named whole texts.
pub trait Shelf {
    /// Which bytes stand under which name, where the shelf tells.
    ghost texts: { Self → Option (List ℕ → Option (List ℕ)) };

    /// For each name, how often reading it failed. One number may serve several names.
    ghost faults: { Self → List ℕ → ℕ };

    /// Copies the text of a name into `out`, which is cleared first, if it has at most `limit` bytes.
    /// After any answer but `Whole` nothing is claimed of `out`. `Memory` may come at any time.
    fn fetch(&mut self, name: &Text, limit: u64, out: &mut Vec<u8>) -> Fetched
        ensures same { texts self.new ≡ texts self.old }
        ensures answer { Fetches (texts self.old) name.now limit out.new.items result }
        ensures within { result ≡ Fetched.Whole → length out.new.items ≤ limit }
        ensures later { (other : List ℕ) → faults self.old other ≤ faults self.new other }
        ensures cause { result ≡ Fetched.Failed → Rose (faults self.old name.now) (faults self.new name.now) };
}
