// A view of a store as a graph.
ghost use Rattle.std.specs.Prelude.{◌≡◌};

use go_api::{Stop, Store};
use go_model::Graph;
use std::alloc::AllocError;

// The view at a place of a store, as a graph that is read vertex by vertex. It keeps why the store stopped.
#[derive(Drop)]
pub struct Viewed<'a, S> {
    pub store: &'a mut S,
    pub place: u8,
    pub stop: Option<Stop>,
}

impl<S: Store> Graph for Viewed<'_, S> {
    ghost use Rattle.std.proofs.Common.{refl, ◌∙◌};
    ghost use Rattle.go_session.specs.Searches.{graph_at, IsViewAt, ReadsOn, reads_self, reads_on};

    ghost shows = { λ graph. graph_at graph.place (S.stands graph.store.now) };

    ghost ready = { λ graph. IsViewAt graph.place (S.stands graph.store.now) };

    ghost became = { λ old new. (new.store.ghost_name ≡ old.store.ghost_name) × (new.place ≡ old.place) × S.became old.store.now new.store.now
        × ReadsOn (S.stands old.store.now) (S.stands new.store.now) old.stop new.stop };

    ghost same = { λ graph. (refl, refl, S.same graph.store.now, reads_self (S.stands graph.store.now) graph.stop) };

    ghost onwards = { λ one two three first later. (
      later.0 ∙ first.0,
      later.1 ∙ first.1,
      S.onwards one.store.now two.store.now three.store.now first.2 later.2,
      reads_on (S.stands one.store.now) (S.stands two.store.now) (S.stands three.store.now) one.stop two.stop three.stop first.3 later.3,
    ) };

    fn vertices(&self) -> u32 {
        self.store.vertices()
    }

    fn neighbours(&mut self, v: u32, out: &mut Vec<u32>) -> Result<(), AllocError> {
        match self.store.neighbours(self.place, v, out) {
            Ok(()) => Ok(()),
            Err(why) => {
                self.stop = Some(why);
                Err(AllocError)
            }
        }
    }
}
