// The pins of a part: fronts that views of the graph hold on to.
ghost use Rattle.std.specs.Prelude.{◌≡◌, [], find, count_by, IfOk};
ghost use Rattle.go_word.specs.Pins.{is_named};

use go_word::Pin;
use std::alloc::{AllocError, Global};
use std::collections::LinkedList;
use std::marker::Model;

/// The pins of a part, a list that owns its memory.
#[derive(Debug, Drop)]
pub struct Pins {
    pins: Vec<Pin>,
}

impl Model for Pins {
    ghost use Rattle.std.specs.Prelude.{List};
    ghost use Rattle.go_word.specs.declared.pin.Pin.{Pin};

    ghost Value = { List Pin };

    ghost view = { λ s. s.pins.items };
}

impl Pins {
    /// Copies a list of pins.
    pub fn of(alloc: Global, pins: &[Pin]) -> Result<Pins, AllocError>
        ensures { IfOk result (λ s. s ≡ pins.now) }
    {
        let pins = pins.to_vec(alloc)?;
        Ok(Pins { pins })
    }

    /// No pins at all.
    pub fn none(alloc: Global) -> Pins
        ensures { result ≡ [] }
    {
        Pins {
            pins: Vec::new(alloc),
        }
    }

    /// The pins, in their order.
    pub fn as_slice(&self) -> &[Pin]
        ensures { result.now ≡ self.now }
    {
        &self.pins
    }
}

// The first pin of a name in a part.
pub(crate) fn find_named(pins: &[Pin], id: u64) -> Option<Pin>
    ensures { result ≡ find (is_named id) pins.now }
{
    let mut rest = pins.iter();
    while let Some(pin) = rest.next() {
        if pin.id == id {
            return Some(*pin);
        }
    }
    None
}

// The first pin of a name in a list.
pub(crate) fn find_held(pins: &LinkedList<Pin>, id: u64) -> Option<Pin>
    ensures { result ≡ find (is_named id) pins.now }
{
    let mut rest = pins.iter();
    while let Some(pin) = rest.next() {
        if pin.id == id {
            return Some(*pin);
        }
    }
    None
}

// How many pins of a part have a name.
pub(crate) fn count_named(pins: &[Pin], id: u64) -> usize
    ensures { result ≡ count_by (is_named id) pins.now }
{
    pins.iter().filter(|pin| pin.id == id).count()
}
