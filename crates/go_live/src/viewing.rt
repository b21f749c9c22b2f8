// Views are taken, read and given up.
ghost use Rattle.std.specs.Prelude.{◌≡◌, ◌<◌, ℕ, length, get_or, slice_get, slice_set, Some};
ghost use Rattle.go_api.specs.Calls.{CanRead, CountsAt, Holds, IsPlacedAt, Lists, Views};
ghost use Rattle.go_api.specs.declared.place.Place.TheVariants as places;
ghost use Rattle.go_live.specs.declared.held.Held.TheVariants.{Free};
ghost use Rattle.go_live.specs.Going.{ServesOn};
ghost use Rattle.go_live.specs.Handles.{IsHandle, stands_in};

use crate::handle::Handle;
use crate::held::Held;
use crate::refreshing::refresh;
use go_api::Stop;
use go_disk::Disk;
use go_piece::Piece;
use go_rule::Ring;
use go_views::take_view;
use std::alloc::Global;
use std::mem;
use std::sync::Wait;

impl<D: Disk> Handle<D> {
    /// Takes a view, keeps it at a free place, and answers its front.
    pub(crate) fn view<R: Wait>(
        &mut self,
        rt: &R,
        alloc: Global,
        ring: &Ring<Piece<D>>,
        place: u8,
    ) -> Result<u64, Stop>
        requires is { IsHandle ring.now.table.shared.table_id ring.now.table.shared.key self.old }
        requires free { Holds place places.Free (stands_in ring.now.table.shared.key self.old) }
        ensures is { IsHandle ring.now.table.shared.table_id ring.now.table.shared.key self.new }
        ensures views { Views place result (stands_in ring.now.table.shared.key self.old) (stands_in ring.now.table.shared.key self.new) }
        ensures serves { ServesOn self.old self.new }
    {
        let least = self.least();
        let taken = take_view(rt, alloc, ring, &mut self.seat, &mut self.words, least);
        refresh(ring, &mut self.seat);
        match taken {
            Ok(view) => {
                let front = view.front();
                put_at(&mut self.held, place, Held::View { view });
                self.seen = front;
                Ok(front)
            }
            Err(why) => {
                self.note(why);
                Err(why)
            }
        }
    }

    /// How many neighbours a vertex has in the view at a place.
    pub(crate) fn degree<R: Wait>(
        &mut self,
        rt: &R,
        alloc: Global,
        ring: &Ring<Piece<D>>,
        place: u8,
        vertex: u32,
    ) -> Result<u32, Stop>
        requires is { IsHandle ring.now.table.shared.table_id ring.now.table.shared.key self.old }
        requires can { CanRead place vertex (stands_in ring.now.table.shared.key self.old) }
        ensures is { IsHandle ring.now.table.shared.table_id ring.now.table.shared.key self.new }
        ensures counts { CountsAt place vertex result (stands_in ring.now.table.shared.key self.old) (stands_in ring.now.table.shared.key self.new) }
        ensures serves { ServesOn self.old self.new }
    {
        let mut listed = mem::replace(&mut self.listed, Vec::new(alloc));
        let counted = self.count_into(rt, alloc, ring, place, vertex, &mut listed);
        self.listed = listed;
        counted
    }

    // Counts the neighbours of a vertex in the view at a place, by a list that they are given into.
    fn count_into<R: Wait>(
        &mut self,
        rt: &R,
        alloc: Global,
        ring: &Ring<Piece<D>>,
        place: u8,
        vertex: u32,
        out: &mut Vec<u32>,
    ) -> Result<u32, Stop>
        requires is { IsHandle ring.now.table.shared.table_id ring.now.table.shared.key self.old }
        requires can { CanRead place vertex (stands_in ring.now.table.shared.key self.old) }
        ensures is { IsHandle ring.now.table.shared.table_id ring.now.table.shared.key self.new }
        ensures counts { CountsAt place vertex result (stands_in ring.now.table.shared.key self.old) (stands_in ring.now.table.shared.key self.new) }
        ensures serves { ServesOn self.old self.new }
    {
        match self.neighbours(rt, alloc, ring, place, vertex, out) {
            Ok(()) => Ok(out.len() as u32),
            Err(why) => Err(why),
        }
    }

    /// Gives the neighbours of a vertex in the view at a place into `out`, which is cleared first.
    pub(crate) fn neighbours<R: Wait>(
        &mut self,
        rt: &R,
        alloc: Global,
        ring: &Ring<Piece<D>>,
        place: u8,
        vertex: u32,
        out: &mut Vec<u32>,
    ) -> Result<(), Stop>
        requires is { IsHandle ring.now.table.shared.table_id ring.now.table.shared.key self.old }
        requires can { CanRead place vertex (stands_in ring.now.table.shared.key self.old) }
        ensures is { IsHandle ring.now.table.shared.table_id ring.now.table.shared.key self.new }
        ensures lists { Lists place vertex out.new.items result (stands_in ring.now.table.shared.key self.old) (stands_in ring.now.table.shared.key self.new) }
        ensures serves { ServesOn self.old self.new }
    {
        let Held::View { view } = &self.held[place as usize] else {
            unreachable!()
        };
        let listed = view.neighbours(rt, alloc, ring, &mut self.seat, vertex, out);
        refresh(ring, &mut self.seat);
        match listed {
            Ok(()) => Ok(()),
            Err(_) => Err(Stop::Memory),
        }
    }

    /// Gives up the view at a place.
    pub(crate) fn drop_view<R: Wait>(&mut self, rt: &R, ring: &Ring<Piece<D>>, place: u8)
        requires is { IsHandle ring.now.table.shared.table_id ring.now.table.shared.key self.old }
        requires held { (front : ℕ) × Holds place (places.View front) (stands_in ring.now.table.shared.key self.old) }
        ensures is { IsHandle ring.now.table.shared.table_id ring.now.table.shared.key self.new }
        ensures frees { IsPlacedAt place places.Free (stands_in ring.now.table.shared.key self.old) (stands_in ring.now.table.shared.key self.new) }
        ensures serves { ServesOn self.old self.new }
    {
        let Held::View { view } = take_from(&mut self.held, place) else {
            unreachable!()
        };
        view.release(rt, ring, &mut self.seat);
        refresh(ring, &mut self.seat);
    }
}

// Keeps something else at a place.
pub(crate) fn put_at(held: &mut Vec<Held>, place: u8, now: Held)
    requires { place < length held.old.items }
    ensures { held.new.items ≡ slice_set held.old.items place now }
{
    held[place as usize] = now;
}

// Takes what is at a place, which is free then.
pub(crate) fn take_from(held: &mut Vec<Held>, place: u8) -> Held
    requires { place < length held.old.items }
    ensures taken { slice_get held.old.items place ≡ Some result }
    ensures free { held.new.items ≡ slice_set held.old.items place Free }
{
    mem::replace(&mut held[place as usize], Held::Free)
}
