// A store of one log, as one of its sessions sees it.
ghost use Rattle.std.specs.Prelude.{◌≡◌, ℕ, ◌∷◌, [], IfOk};
ghost use Rattle.go_api.specs.Standing.{Standing, IsSound};
ghost use Rattle.go_api.specs.Calls.{MayPut, Puts, PutsEntries, Offers, Holds, Views, CanRead, CountsAt, Lists, IsPlacedAt, Starts, CanStream, Updates};
ghost use Rattle.go_api.specs.Calls.{Waits, Syncs, Compacts};
ghost use Rattle.go_api.specs.declared.place.Place.TheVariants as held;

use crate::{Offer, Reached, Span, Stop};
use go_word::Edge;

/// A store of one log of entries, as one of its sessions sees it: the session's handle.
///
/// Others may write the log at the same time. So a handle knows a prefix of the log, which only grows, and
/// the positions at which the session's own entries stand.
pub trait Store {
    ghost use Rattle.go_api.specs.declared.answers.Reached.{Reached};

    /// What the handle stands for.
    ghost stands: { Self → Standing };

    /// The first handle may have become the second by calls of the trait: what a store promises besides of all of its calls.
    ghost became: { Self → Self → Type 0 };

    /// Without a call the handle is the same.
    ghost same: { (store : Self) → became store store };

    /// Some calls, and then some more.
    ghost onwards: { (one two three : Self) → became one two → became two three → became one three };

    /// What a store promises of its look at the log, where it was asked whether the log has come to a front.
    ghost looked: { Self → ℕ → Reached → Type 0 };

    /// How many vertices there are; ids are below it.
    fn vertices(&self) -> u32
        ensures { result ≡ (stands self.now).terms.vertices };

    /// How long the log was when it was opened.
    fn opened(&self) -> u64
        ensures { result ≡ (stands self.now).terms.first };

    /// Puts an entry into the log, and answers its position. One that the store stopped has no position.
    fn put(&mut self, edge: Edge) -> Result<u64, Stop>
        requires { MayPut (edge ∷ []) (stands self.old) }
        ensures puts { Puts edge result (stands self.old) (stands self.new) }
        ensures sound { IsSound (stands self.new) }
        ensures became { became self.old self.new };

    /// Puts entries into the log in their order, and answers the position of the last one. Where the store stops, some first
    /// ones were put.
    fn put_entries(&mut self, edges: &[Edge]) -> Result<Option<u64>, Stop>
        requires { MayPut edges.now (stands self.old) }
        ensures puts { PutsEntries edges.now result (stands self.old) (stands self.new) }
        ensures sound { IsSound (stands self.new) }
        ensures became { became self.old self.new };

    /// Puts an entry into the log where the ring has room for it, and else tells that it is busy.
    fn offer(&mut self, edge: Edge) -> Result<Offer, Stop>
        requires { MayPut (edge ∷ []) (stands self.old) }
        ensures offers { Offers edge result (stands self.old) (stands self.new) }
        ensures sound { IsSound (stands self.new) }
        ensures became { became self.old self.new };

    /// Takes a view, keeps it at a place that is free, and answers how many entries of the log it shows.
    fn view(&mut self, place: u8) -> Result<u64, Stop>
        requires { Holds place held.Free (stands self.old) }
        ensures views { Views place result (stands self.old) (stands self.new) }
        ensures sound { IsSound (stands self.new) }
        ensures became { became self.old self.new };

    /// How many neighbours a vertex has in the view at a place.
    fn degree(&mut self, place: u8, vertex: u32) -> Result<u32, Stop>
        requires { CanRead place vertex (stands self.old) }
        ensures counts { CountsAt place vertex result (stands self.old) (stands self.new) }
        ensures sound { IsSound (stands self.new) }
        ensures became { became self.old self.new };

    /// Gives the neighbours of a vertex in the view at a place into `out`, which is cleared first.
    /// Where the store stops, nothing is claimed of `out`.
    fn neighbours(&mut self, place: u8, vertex: u32, out: &mut Vec<u32>) -> Result<(), Stop>
        requires { CanRead place vertex (stands self.old) }
        ensures lists { Lists place vertex out.new.items result (stands self.old) (stands self.new) }
        ensures sound { IsSound (stands self.new) }
        ensures became { became self.old self.new };

    /// Gives up the view at a place, which is free then.
    fn drop_view(&mut self, place: u8)
        requires { (front : ℕ) × Holds place (held.View front) (stands self.old) }
        ensures frees { IsPlacedAt place held.Free (stands self.old) (stands self.new) }
        ensures sound { IsSound (stands self.new) }
        ensures became { became self.old self.new };

    /// Starts a stream at a place that is free, and answers where: it gives the entries that come from there on.
    fn start_stream(&mut self, place: u8) -> Result<u64, Stop>
        requires { Holds place held.Free (stands self.old) }
        ensures starts { Starts place result (stands self.old) (stands self.new) }
        ensures sound { IsSound (stands self.new) }
        ensures became { became self.old self.new };

    /// Gives the next entries of the stream at a place into `out`, which is cleared first: so many at most, and none where
    /// none have come. Answers from where to where they stand in the log.
    /// Where the store stops, the stream is where it was, and nothing is claimed of `out`.
    fn update(&mut self, place: u8, most: u32, out: &mut Vec<Edge>) -> Result<Span, Stop>
        requires { CanStream place most (stands self.old) }
        ensures updates { Updates place most out.new.items result (stands self.old) (stands self.new) }
        ensures sound { IsSound (stands self.new) }
        ensures became { became self.old self.new };

    /// Gives up the stream at a place, which is free then.
    fn close_stream(&mut self, place: u8)
        requires { (cursor : ℕ) × Holds place (held.Stream cursor) (stands self.old) }
        ensures frees { IsPlacedAt place held.Free (stands self.old) (stands self.new) }
        ensures sound { IsSound (stands self.new) }
        ensures became { became self.old self.new };

    /// Whether the log has come to a front, as far as the session sees it.
    fn until(&mut self, front: u64) -> Result<Reached, Stop>
        ensures waits { Waits front result (stands self.old) (stands self.new) }
        ensures looked { IfOk result (λ answer. looked self.old front answer) }
        ensures sound { IsSound (stands self.new) }
        ensures became { became self.old self.new };

    /// Makes the log durable up to a front that has all of the session's own entries, and answers it.
    fn sync(&mut self) -> Result<u64, Stop>
        ensures syncs { Syncs result (stands self.old) (stands self.new) }
        ensures sound { IsSound (stands self.new) }
        ensures became { became self.old self.new };

    /// Forgets how the older entries came, as far as no view needs it.
    fn compact(&mut self) -> Result<(), Stop>
        ensures compacts { Compacts result (stands self.old) (stands self.new) }
        ensures sound { IsSound (stands self.new) }
        ensures became { became self.old self.new };
}
