// What plain code notes of the two parts: how far each was put in, the shard's cut, and whose each of its pins is.
use crate::{PartState, Pins};
use go_word::Pin;
use std::alloc::{AllocError, Global};

// A pin of the shard, and the party that put it in.
#[derive(Clone, Copy)]
struct Held {
    pin: Pin,
    owner: u32,
}

// The parts as they were put in last.
#[derive(Drop)]
pub(crate) struct Shelf {
    // How far the shard reaches.
    pub shard: u64,
    // How far the file reaches.
    pub file: u64,
    // The shard's cut.
    cut: u64,
    // The shard's pins.
    held: Vec<Held>,
    // How many pins were put in.
    pub pinned: u64,
}

// Whether a pin stands among others.
fn has(pins: &[Pin], pin: Pin) -> bool {
    pins.iter().any(|other| *other == pin)
}

// How many pins have a name.
fn named(pins: &[Pin], id: u64) -> usize {
    pins.iter().filter(|pin| pin.id == id).count()
}

impl Shelf {
    // Both parts reach to the beginning.
    pub(crate) fn new(alloc: Global) -> Shelf {
        Shelf {
            shard: 0,
            file: 0,
            cut: 0,
            held: Vec::new(alloc),
            pinned: 0,
        }
    }

    // How far a part reaches.
    fn front(&self, part: u32) -> u64 {
        if part == 0 { self.shard } else { self.file }
    }

    // Whose a pin of this name is; it is the party's where there is none.
    fn owner(&self, id: u64, party: u32) -> u32 {
        for held in self.held.as_slice() {
            if held.pin.id == id {
                return held.owner;
            }
        }
        party
    }

    // The shard's pins, where one of a name is put in, moved or taken out, by a number.
    fn pins(&self, alloc: Global, number: u64, archived: u64) -> Result<Vec<Pin>, AllocError> {
        let id = (number >> 4) % 6;
        let mut pins = Vec::new(alloc);
        let mut there = false;
        for held in self.held.as_slice() {
            if held.pin.id != id || number % 4 == 0 {
                pins.push(held.pin)?;
            } else if number % 4 == 1 {
                pins.push(Pin {
                    id,
                    front: archived,
                })?;
            }
            there = there || held.pin.id == id;
        }
        if !there && number % 4 == 2 {
            pins.push(Pin {
                id,
                front: self.cut,
            })?;
        }
        Ok(pins)
    }

    // A part as it may be put in, by a number, what the party took and the archived front.
    pub(crate) fn state(
        &self,
        alloc: Global,
        number: u64,
        part: u32,
        taken: u64,
        archived: u64,
    ) -> Result<PartState, AllocError> {
        let front = self.front(part).max(taken);
        if part != 0 {
            return Ok(PartState {
                front,
                cut: 0,
                pins: Pins::none(alloc),
            });
        }
        let cut = if number % 3 == 0 { archived } else { self.cut };
        let pins = self.pins(alloc, number, archived)?;
        Ok(PartState {
            front,
            cut,
            pins: Pins::of(alloc, pins.as_slice())?,
        })
    }

    // Whether the pins of the other parties are still there.
    fn others_stay(&self, party: u32, pins: &[Pin]) -> bool {
        self.held
            .iter()
            .all(|held| held.owner == party || has(pins, held.pin))
    }

    // A part was put in: whether it goes onward, and its pins stand as they may.
    pub(crate) fn put(
        &mut self,
        alloc: Global,
        party: u32,
        part: u32,
        state: &PartState,
        archived: u64,
    ) -> Result<bool, AllocError> {
        let right = self.front(part) <= state.front;
        if part != 0 {
            self.file = state.front;
            return Ok(right);
        }
        let pins = state.pins.as_slice();
        let mut right = right && self.cut <= state.cut && self.others_stay(party, pins);
        let mut held = Vec::new(alloc);
        for pin in pins {
            right = right
                && state.cut <= pin.front
                && pin.front <= archived
                && named(pins, pin.id) == 1;
            held.push(Held {
                pin: *pin,
                owner: self.owner(pin.id, party),
            })?;
        }
        self.pinned = self.pinned.saturating_add(held.len() as u64);
        self.shard = state.front;
        self.cut = state.cut;
        self.held = held;
        Ok(right)
    }

    // A party was joined into another, which has its pins from then on.
    pub(crate) fn join(&mut self, party: u32, other: u32) {
        for held in self.held.as_mut_slice() {
            if held.owner == other {
                held.owner = party;
            }
        }
    }
}
