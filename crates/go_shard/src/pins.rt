// The pins of a shard, by which views hold compactions back.
ghost use Rattle.std.specs.Prelude.{◌≡◌, ℕ, ◌≤◌, ◌<◌, ◌∷◌, ◌++◌, [], All, Contains, MatchResult, false, filter, if◌then◌else◌, map, not, true};
ghost use Rattle.go_word.specs.declared.edge.TheConstants.{VERTEX_LIMIT};
ghost use Rattle.go_word.specs.Pins.{has_name, is_named};
ghost use Rattle.go_shard.specs.ShardState.{Keeps};
ghost use Rattle.go_shard.specs.Fronts.{IsLeast};
ghost use Rattle.go_shard.specs.Stands.{IsSettled};

use crate::fronts::greatest_up_to;
use crate::store::Shard;
use go_word::Pin;
use std::alloc::AllocError;

impl Shard {
    /// The least number that is no pin's name.
    pub fn free_pin(&self) -> u64
        ensures free { has_name result self.now.pins ≡ false }
        ensures least { (id : ℕ) → id < result → has_name id self.now.pins ≡ true }
    {
        let mut id = 0;
        while is_pinned(&self.pins, id) {
            id += 1;
        }
        id
    }

    // The front of a pin: it is kept, and no cut has gone past it.
    pub(crate) fn pinned_front(&self, pin: Pin) -> u64
        requires { Contains self.now.pins pin }
        ensures front { result ≡ pin.front }
        ensures kept { Keeps self.now result }
        ensures uncut { self.now.cut ≤ result }
        ensures within { result ≤ self.now.front }
        ensures few { self.now.vertices ≤ VERTEX_LIMIT }
    {
        let _pins = &self.pins;
        pin.front
    }

    /// The greatest front up to which a compaction may go: one that is kept, up to a limit and to each pin.
    pub fn settled(&self, limit: u64) -> u64
        requires { self.now.cut ≤ limit }
        ensures { IsSettled self.now limit result }
    {
        let bound = least_of(&self.pins, limit);
        let greatest = greatest_up_to(&self.earlier, self.cut, bound);
        if self.since <= bound {
            greatest.max(bound.min(self.front))
        } else {
            greatest
        }
    }

    /// Pins the cut under a new name, and answers it.
    pub fn pin(&mut self, id: u64) -> Result<u64, AllocError>
        requires { has_name id self.old.pins ≡ false }
        ensures { MatchResult result
            (λ front. (front ≡ self.old.cut) × (self.new ≡ record self.old { pins = self.old.pins ++ record { id = id; front = front } ∷ [] }))
            (λ _. self.new ≡ self.old) }
    {
        let front = self.cut;
        self.pins.push(Pin { id, front })?;
        Ok(front)
    }

    /// Moves the pin of a name upwards, to a front that is kept.
    pub fn move_pin(&mut self, id: u64, front: u64)
        requires named { has_name id self.old.pins ≡ true }
        requires upwards { All (λ pin. is_named id pin ≡ true → pin.front ≤ front) self.old.pins }
        requires kept { Keeps self.old front }
        ensures { self.new ≡ record self.old {
          pins = map (λ pin. if is_named id pin then record { id = pin.id; front = front } else pin) self.old.pins;
        } }
    {
        move_named(&mut self.pins, id, front);
    }

    /// Takes the pin of a name away.
    pub fn unpin(&mut self, id: u64)
        requires { has_name id self.old.pins ≡ true }
        ensures { self.new ≡ record self.old { pins = filter (λ pin. not (is_named id pin)) self.old.pins } }
    {
        self.pins.retain(|pin| pin.id != id);
    }
}

// Whether one of the pins has the name.
fn is_pinned(pins: &[Pin], id: u64) -> bool
    ensures { result ≡ has_name id pins.now }
{
    for pin in pins {
        if pin.id == id {
            return true;
        }
    }
    false
}

// Moves the pins of a name.
fn move_named(pins: &mut [Pin], id: u64, front: u64)
    ensures { pins.new ≡ map (λ pin. if is_named id pin then record { id = pin.id; front = front } else pin) pins.old }
{
    for pin in pins.iter_mut() {
        *pin = moved(*pin, id, front);
    }
}

// A pin at another front, where it has the name.
fn moved(pin: Pin, id: u64, front: u64) -> Pin
    ensures { result ≡ (if is_named id pin then record { id = pin.id; front = front } else pin) }
{
    if pin.id == id { Pin { id, front } } else { pin }
}

// The least of a limit and the fronts of the pins.
fn least_of(pins: &[Pin], limit: u64) -> u64
    ensures { IsLeast pins.now limit result }
{
    let mut least = limit;
    for pin in pins {
        least = least.min(pin.front);
    }
    least
}
