// A list of entries as a store of one session, for tests.
ghost use Rattle.std.specs.Prelude.{◌≡◌, [], ◌<◌, ◌^◌};
ghost use Rattle.go_api.specs.Standing.{unused};
ghost use Rattle.go_session.specs.Listed.{listed_terms};

use go_api::{Offer, PLACES, Place, Reached, Span, Stop, Store};
use go_word::{Edge, neighbours_of};
use std::alloc::Global;
use std::marker::Model;

/// A list of entries, none at first, as a store. Its ring is never emptied: an offer finds it full once it has
/// as many entries as slots, while puts go on. It stops where memory runs out, and nowhere else.
#[derive(Drop)]
pub(crate) struct ListStore {
    vertices: u32,
    ring: u64,
    log: Vec<Edge>,
    quota: u64,
    places: [Place; PLACES],
    list: Vec<u32>,
}

impl Model for ListStore {
    ghost use Rattle.go_api.specs.Standing.{Standing};
    ghost use Rattle.go_session.specs.Listed.{listed, listed_terms, IsListed};

    ghost Value = { Standing };

    ghost view = { λ store. listed (listed_terms store.vertices store.ring) store.log.items store.quota store.places };

    ghost invariant = { λ store. IsListed store.vertices store.ring store.log.items store.quota store.places };
}

impl ListStore {
    /// A store of so many vertices that may take so many entries, with a ring of so many slots.
    pub(crate) fn new(alloc: Global, vertices: u32, ring: u64, quota: u64) -> ListStore
        requires { quota < 2 ^ 32 }
        ensures { result ≡ unused (listed_terms vertices ring) [] quota }
    {
        ListStore {
            vertices,
            ring,
            log: Vec::new(alloc),
            quota,
            places: [Place::Free; PLACES],
            list: Vec::new(alloc),
        }
    }

    // How many entries there are.
    fn front(&self) -> u64
        ensures { result ≡ self.now.log.known }
    {
        self.log.len() as u64
    }
}

impl Store for ListStore {
    ghost stands = { λ store. store };

    ghost became = { λ old new. Unit {0} };

    ghost same = { λ store. tt };

    ghost onwards = { λ one two three first later. tt };

    ghost looked = { λ store front reached. Unit {0} };

    // That a contract sees what stands for the fields, one of them is read in each call.
    fn vertices(&self) -> u32 {
        self.vertices
    }

    fn opened(&self) -> u64 {
        let _quota = self.quota;
        0
    }

    fn put(&mut self, edge: Edge) -> Result<u64, Stop> {
        let position = self.front();
        match self.log.push(edge) {
            Ok(()) => {
                self.quota -= 1;
                Ok(position)
            }
            Err(_) => Err(Stop::Memory),
        }
    }

    fn put_entries(&mut self, edges: &[Edge]) -> Result<Option<u64>, Stop> {
        let _quota = self.quota;
        if edges.is_empty() {
            return Ok(None);
        }
        match self.log.extend_from_slice(edges) {
            Ok(()) => {
                self.quota -= edges.len() as u64;
                Ok(Some(self.log.len() as u64 - 1))
            }
            Err(_) => Err(Stop::Memory),
        }
    }

    fn offer(&mut self, edge: Edge) -> Result<Offer, Stop> {
        let head = self.front();
        if head >= self.ring {
            return Ok(Offer::Busy { head, released: 0 });
        }
        match self.put(edge) {
            Ok(position) => Ok(Offer::At { position }),
            Err(why) => Err(why),
        }
    }

    fn view(&mut self, place: u8) -> Result<u64, Stop> {
        let front = self.log.len() as u64;
        self.places[place as usize] = Place::View { front };
        Ok(front)
    }

    fn degree(&mut self, place: u8, vertex: u32) -> Result<u32, Stop> {
        let Place::View { front } = self.places[place as usize] else {
            unreachable!()
        };
        let Ok(()) = neighbours_of(&self.log[..front as usize], vertex, &mut self.list) else {
            return Err(Stop::Memory);
        };
        Ok(self.list.len() as u32)
    }

    fn neighbours(&mut self, place: u8, vertex: u32, out: &mut Vec<u32>) -> Result<(), Stop> {
        let Place::View { front } = self.places[place as usize] else {
            unreachable!()
        };
        match neighbours_of(&self.log[..front as usize], vertex, out) {
            Ok(()) => Ok(()),
            Err(_) => Err(Stop::Memory),
        }
    }

    fn drop_view(&mut self, place: u8) {
        self.places[place as usize] = Place::Free;
    }

    fn start_stream(&mut self, place: u8) -> Result<u64, Stop> {
        let cursor = self.log.len() as u64;
        self.places[place as usize] = Place::Stream { cursor };
        Ok(cursor)
    }

    fn update(&mut self, place: u8, most: u32, out: &mut Vec<Edge>) -> Result<Span, Stop> {
        let Place::Stream { cursor: from } = self.places[place as usize] else {
            unreachable!()
        };
        let to = (from + u64::from(most)).min(self.log.len() as u64);
        out.clear();
        match out.extend_from_slice(&self.log[from as usize..to as usize]) {
            Ok(()) => {
                self.places[place as usize] = Place::Stream { cursor: to };
                Ok(Span { from, to })
            }
            Err(_) => Err(Stop::Memory),
        }
    }

    fn close_stream(&mut self, place: u8) {
        self.places[place as usize] = Place::Free;
    }

    fn until(&mut self, front: u64) -> Result<Reached, Stop> {
        let seen = self.log.len() as u64;
        if front <= seen {
            Ok(Reached::Yes { front })
        } else {
            Ok(Reached::NotYet { seen })
        }
    }

    fn sync(&mut self) -> Result<u64, Stop> {
        Ok(self.log.len() as u64)
    }

    fn compact(&mut self) -> Result<(), Stop> {
        let _quota = self.quota;
        Ok(())
    }
}
