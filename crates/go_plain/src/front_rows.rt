// The rows of a front that is asked again and again.
ghost use Rattle.std.specs.Prelude.{◌≡◌, ◌≤◌, [], length, MatchOption};
ghost use Rattle.go_rows.specs.Rows.{IsRow};
ghost use Rattle.go_plain.specs.FrontRows.{MayTakeRow};

use go_rows::Rows;
use std::alloc::Global;
use std::marker::Model;

/// The neighbours of the first vertices after one front, side by side: those that were asked for in their order, or all where that
/// front was asked often enough to be worth it.
#[derive(Drop)]
pub struct FrontRows {
    front: u64,
    rows: Rows,
    // which front was asked last without a row, and how often one after another
    counted: u64,
    asked: u32,
}

impl Model for FrontRows {
    ghost use Rattle.go_plain.specs.FrontRows.{RowsState};

    ghost Value = { RowsState };

    ghost view = { λ held. record { front = held.front; rows = held.rows } };
}

impl FrontRows {
    /// No rows; it asks for no memory.
    pub fn new(alloc: Global) -> FrontRows
        ensures { result ≡ record { front = 0; rows = [] } }
    {
        FrontRows {
            front: 0,
            rows: Rows::new(alloc),
            counted: 0,
            asked: 0,
        }
    }

    /// The front of the rows.
    pub fn front(&self) -> u64
        ensures { result ≡ self.now.front }
    {
        self.front
    }

    /// How many rows there are.
    #[cfg(test)]
    pub fn len(&self) -> usize
        ensures { result ≡ length self.now.rows }
    {
        self.rows.len()
    }

    /// The row of a vertex after a front, where it is there.
    pub fn row(&self, front: u64, vertex: u32) -> Option<&[u32]>
        ensures { MatchOption result (self.now.front ≡ front → length self.now.rows ≤ vertex)
            (λ row. (self.now.front ≡ front) × IsRow self.now.rows vertex row.now) }
    {
        if front == self.front {
            self.rows.row(vertex as usize)
        } else {
            None
        }
    }

    /// Takes the row of a vertex after a front over, where it is the next one of the front whose rows are there, or where none are.
    /// Where there is no memory for it, it isn't kept.
    pub fn take_next(&mut self, front: u64, vertex: u32, row: &[u32])
        ensures { MayTakeRow front vertex row.now self.old self.new }
    {
        let count = self.rows.len();
        if vertex as usize == count
            && (front == self.front || count == 0)
            && self.rows.push_row(row).is_ok()
        {
            self.front = front;
        }
    }

    /// Counts a question to a front that no row answered, and tells whether so many came to it before, one after another. The count
    /// begins anew then.
    pub fn is_due(&mut self, front: u64, questions: u32) -> bool
        ensures { self.new ≡ self.old }
    {
        if front != self.counted {
            self.counted = front;
            self.asked = 0;
        }
        let due = self.asked >= questions;
        if due {
            self.asked = 0;
        } else {
            self.asked += 1;
        }
        due
    }

    /// Takes the rows of a front over in place of those that are there.
    pub fn keep(&mut self, front: u64, rows: Rows)
        ensures { self.new ≡ record { front = front; rows = rows } }
    {
        self.front = front;
        self.rows = rows;
    }

    /// Lets the rows go, and their memory.
    pub fn forget(&mut self, alloc: Global)
        ensures { self.new ≡ record self.old { rows = [] } }
    {
        self.rows = Rows::new(alloc);
    }
}
