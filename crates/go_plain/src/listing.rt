// The neighbours of a vertex in a view, and the rows of a front that is asked again and again.
ghost use Rattle.std.specs.Prelude.{◌≡◌, ◌<◌, ◌^◌, List, ℕ, length, take, IfOk, IfSome, OnOk};
ghost use Rattle.go_word.specs.Neighbours.{neighbours};
ghost use Rattle.go_api.specs.Calls.{CanRead, Holds, IsListAt};
ghost use Rattle.go_api.specs.declared.place.Place.TheVariants as places;
ghost use Rattle.go_plain.specs.FrontRows.{AreRowsOf, HasView};
ghost use Rattle.go_plain.specs.Plain.{standing_of, HasSession};

use crate::body::Body;
use crate::scratch::Scratch;
use go_api::Place;
use go_disk::Disk;
use go_rows::Rows;
use go_shard::list_neighbours;
use std::alloc::AllocError;

impl<D: Disk> Body<D> {
    /// Gives the neighbours of a vertex in the view at a place of a session into `out`.
    pub fn neighbours(
        &mut self,
        number: u8,
        place: u8,
        vertex: u32,
        out: &mut Vec<u32>,
    ) -> Result<(), AllocError>
        requires session { HasSession self.old number }
        requires can { CanRead place vertex (standing_of D.device self.old number) }
        ensures same { self.new ≡ self.old }
        ensures lists { OnOk result (IsListAt place vertex (standing_of D.device self.old number) out.new.items) }
        ensures short { OnOk result (length out.new.items < 2 ^ 32) }
    {
        self.check();
        let front = self.front_at(number, place);
        if let Some(row) = self.row(front, vertex) {
            out.clear();
            return out.extend_from_slice(row);
        }
        self.count(front);
        let mut scratch = self.lend();
        let listed = self.list(front, vertex, &mut scratch.words, out);
        self.take_back(scratch);
        listed?;
        self.keep_row(front, vertex, out);
        Ok(())
    }

    /// How many neighbours a vertex has in the view at a place of a session.
    pub fn degree(&mut self, number: u8, place: u8, vertex: u32) -> Result<u32, AllocError>
        requires session { HasSession self.old number }
        requires can { CanRead place vertex (standing_of D.device self.old number) }
        ensures same { self.new ≡ self.old }
        ensures counts { IfOk result (λ degree. (list : List ℕ) →
            IsListAt place vertex (standing_of D.device self.old number) list → degree ≡ length list) }
    {
        self.check();
        let front = self.front_at(number, place);
        let mut scratch = self.lend();
        let Scratch { words, list } = &mut scratch;
        let listed = self.list(front, vertex, words, list);
        let count = scratch.list.len();
        self.take_back(scratch);
        listed?;
        Ok(count as u32)
    }

    // The front of the view at a place of a session.
    fn front_at(&self, number: u8, place: u8) -> u64
        requires session { HasSession self.now number }
        requires view { (front : ℕ) × Holds place (places.View front) (standing_of D.device self.now number) }
        ensures held { Holds place (places.View result) (standing_of D.device self.now number) }
        ensures viewed { HasView self.now result }
    {
        self.check();
        let Place::View { front } = self.seat(number).places[place as usize] else {
            unreachable!()
        };
        front
    }

    // The neighbours of a vertex after a front, where they are kept as a row.
    fn row(&self, front: u64, vertex: u32) -> Option<&[u32]>
        ensures lists { IfSome result (λ row. row.now ≡ neighbours (take front self.now.log) vertex) }
        ensures short { IfSome result (λ row. length row.now < 2 ^ 32) }
    {
        self.rows.row(front, vertex)
    }

    // Gives the neighbours of a vertex after the front of a view into `out`, by way of `words`.
    fn list(
        &self,
        front: u64,
        vertex: u32,
        words: &mut Vec<u64>,
        out: &mut Vec<u32>,
    ) -> Result<(), AllocError>
        requires viewed { HasView self.now front }
        requires there { vertex < self.now.origin.vertices }
        ensures lists { OnOk result (out.new.items ≡ neighbours (take front self.now.log) vertex) }
        ensures short { OnOk result (length out.new.items < 2 ^ 32) }
    {
        let settled = front.min(self.moved);
        self.ring
            .words_from(vertex, (front - settled) as usize, words)?;
        let shard = &self.shards[(vertex % self.shards.len() as u32) as usize];
        list_neighbours(self.alloc, shard, vertex, settled, words, out)
    }

    // Counts a question to the front of a view that no row answered. Where as many came to it before as there are vertices, its rows
    // are listed, which costs about what they did; where there is no memory for that, there are none.
    fn count(&mut self, front: u64)
        requires { HasView self.old front }
        ensures { self.new ≡ self.old }
    {
        if self.rows.is_due(front, self.vertices) {
            self.rows.forget(self.alloc);
            if let Ok(rows) = self.all_rows(front) {
                self.rows.keep(front, rows);
            }
        }
    }

    // Keeps the list of a vertex after the front of a view as a row where the rows so far lead up to it, so that what goes over all
    // vertices in their order lists them for what comes next.
    fn keep_row(&mut self, front: u64, vertex: u32, list: &[u32])
        requires viewed { HasView self.old front }
        requires lists { list.now ≡ neighbours (take front self.old.log) vertex }
        ensures { self.new ≡ self.old }
    {
        self.rows.take_next(front, vertex, list);
    }

    // The neighbours of all vertices after the front of a view.
    fn all_rows(&self, front: u64) -> Result<Rows, AllocError>
        requires { HasView self.now front }
        ensures { IfOk result (λ rows. AreRowsOf self.now.log (record { front = front; rows = rows })) }
    {
        let mut rows = Rows::new(self.alloc);
        let mut words = Vec::new(self.alloc);
        let mut list = Vec::new(self.alloc);
        for vertex in 0..self.vertices {
            self.list(front, vertex, &mut words, &mut list)?;
            rows.push_row(&list)?;
        }
        Ok(rows)
    }

    /// Lets the rows go where a view of their front is given up.
    pub fn forget_rows(&mut self, given_up: Place)
        ensures { self.new ≡ self.old }
    {
        let front = self.rows.front();
        if given_up == (Place::View { front }) {
            self.rows.forget(self.alloc);
        }
    }
}
