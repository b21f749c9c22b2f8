// Rows of numbers side by side.
ghost use Rattle.std.specs.Prelude.{◌≡◌, ◌-◌, ◌++◌, ◌∷◌, ◌<◌, ◌≤◌, [], length, take, drop, OnOk, OnErr, MatchOption};
ghost use Rattle.go_rows.specs.Rows.{IsRow, start_of};

use std::alloc::{AllocError, Global};
use std::marker::Model;

/// Lists of numbers side by side, each of which is read where it lies.
#[derive(Drop)]
pub struct Rows {
    // By row where it ends among the targets. The first one begins at 0, and each other one where the one before it ends.
    ends: Vec<usize>,
    targets: Vec<u32>,
}

impl Model for Rows {
    ghost use Rattle.std.specs.Prelude.{ℕ, List, length};
    ghost use Rattle.go_rows.specs.Rows.{rows_from, AreEnds};

    ghost Value = { List (List ℕ) };

    ghost view = { λ rows. rows_from 0 rows.ends.items rows.targets.items };

    ghost invariant = { λ rows. AreEnds 0 rows.ends.items (length rows.targets.items) };
}

impl Rows {
    /// No rows; it asks for no memory.
    pub fn new(alloc: Global) -> Rows
        ensures { result ≡ [] }
    {
        Rows {
            ends: Vec::new(alloc),
            targets: Vec::new(alloc),
        }
    }

    /// How many rows there are.
    pub fn len(&self) -> usize
        ensures { result ≡ length self.now }
    {
        self.ends.len()
    }

    /// The row with this number, where there are so many; they count from 0.
    pub fn row(&self, number: usize) -> Option<&[u32]>
        ensures { MatchOption result (length self.now ≤ number) (λ row. IsRow self.now number row.now) }
    {
        if number < self.ends.len() {
            Some(self.slice(number))
        } else {
            None
        }
    }

    /// Adds a row behind the others.
    pub fn push_row(&mut self, row: &[u32]) -> Result<(), AllocError>
        ensures ok { OnOk result (self.new ≡ self.old ++ row.now ∷ []) }
        ensures err { OnErr result (self.new ≡ self.old) }
    {
        self.ends.reserve(1)?;
        self.targets.extend_from_slice(row)?;
        self.ends.push_reserved(self.targets.len());
        Ok(())
    }

    /// Gives up all rows, and keeps their memory for the next ones.
    pub fn clear(&mut self)
        ensures { self.new ≡ [] }
    {
        self.ends.clear();
        self.targets.clear();
    }

    // The row with this number, which is there.
    fn slice(&self, number: usize) -> &[u32]
        requires { number < length self.now }
        ensures { IsRow self.now number result.now }
    {
        let start = start_in(&self.ends, number);
        let end = self.ends[number];
        between(&self.targets, start, end)
    }
}

// Where a row begins, by the ends of all rows.
fn start_in(ends: &[usize], number: usize) -> usize
    requires { number < length ends.now }
    ensures { result ≡ start_of 0 ends.now number }
{
    if number == 0 { 0 } else { ends[number - 1] }
}

// The targets between two places.
fn between(targets: &[u32], start: usize, end: usize) -> &[u32]
    requires order { start ≤ end }
    requires within { end ≤ length targets.now }
    ensures { result.now ≡ take (end - start) (drop start targets.now) }
{
    &targets[start..end]
}
