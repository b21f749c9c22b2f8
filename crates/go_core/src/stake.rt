// What a party knows of the parts, whose turns it has, and which pins are its own.
ghost use Rattle.std.specs.Prelude.{◌≡◌, ◌∷◌, length, filter, IfOk, OnOk, OnErr};
ghost use Rattle.go_core.specs.Pins.{owns_name};
ghost use Rattle.go_core.specs.Turns.{
  hold_of,
  having_turn,
  is_mine as is_mine_pin,
  putting,
  giving,
};

use crate::part::PartState;
use crate::pin;
use go_word::Pin;
use std::alloc::{AllocError, Global};
use std::collections::LinkedList;

/// What a party knows of one part.
#[derive(Clone, Copy, Debug, PartialEq, Eq)]
pub struct Hold {
    /// The front at or above which it knows the part to stand.
    pub front: u64,
    /// Whether it has the part's turn.
    pub turn: bool,
}

/// What a party knows of the parts, and which pins it holds.
#[derive(Drop)]
pub struct Stake {
    /// The pins that its view holds.
    pub pins: LinkedList<Pin>,
    /// While it has the shard's turn: its pins as it put them in last.
    pub put: LinkedList<Pin>,
    /// What it knows of the shard.
    pub shard: Hold,
    /// What it knows of the file.
    pub file: Hold,
}

impl Stake {
    // What it knows of a part.
    pub(crate) fn hold(&self, shard: bool) -> Hold
        ensures { result ≡ hold_of shard self.now }
    {
        if shard { self.shard } else { self.file }
    }

    // The party took a turn.
    pub(crate) fn take_turn(&mut self, shard: bool)
        ensures { self.new ≡ having_turn shard self.old }
    {
        if shard {
            self.shard.turn = true;
        } else {
            self.file.turn = true;
        }
    }

    // Whether a pin of this name is its own.
    pub(crate) fn owns(&self, id: u64) -> bool
        ensures { result ≡ owns_name id self.now.pins self.now.put }
    {
        pin::find_held(&self.pins, id).is_some() || pin::find_held(&self.put, id).is_some()
    }

    // Whether a pin that is put in is the party's: it owned it, or it is new.
    fn is_mine(&self, old: &[Pin], pin: &Pin) -> bool
        ensures { result ≡ is_mine_pin self.now old.now pin.now }
    {
        self.owns(pin.id) || pin::find_named(old, pin.id).is_none()
    }

    // The pins of a shard that is put in which are the party's: those that it owned, and new ones.
    fn mine(&self, alloc: Global, old: &[Pin], new: &[Pin]) -> Result<LinkedList<Pin>, AllocError>
        ensures { IfOk result (λ list. list ≡ filter (is_mine_pin self.now old.now) new.now) }
    {
        let mut list = LinkedList::new(alloc);
        for pin in new {
            if self.is_mine(old, pin) {
                list.push_back(*pin)?;
            }
        }
        Ok(list)
    }

    // The pins of a shard that are the party's.
    fn owned(&self, alloc: Global, pins: &[Pin]) -> Result<LinkedList<Pin>, AllocError>
        ensures { IfOk result (λ list. list ≡ filter (λ pin. owns_name pin.id self.now.pins self.now.put) pins.now) }
    {
        let mut list = LinkedList::new(alloc);
        for pin in pins {
            if self.owns(pin.id) {
                list.push_back(*pin)?;
            }
        }
        Ok(list)
    }

    // The party put a part in.
    pub(crate) fn put_in(
        &mut self,
        alloc: Global,
        shard: bool,
        old: &[Pin],
        new: &[Pin],
    ) -> Result<(), AllocError>
        ensures ok { OnOk result (self.new ≡ putting shard old.now new.now self.old) }
        ensures err { OnErr result (self.new ≡ self.old) }
    {
        if shard {
            self.put = self.mine(alloc, old, new)?;
        }
        Ok(())
    }

    // The party gave a turn back.
    pub(crate) fn give_turn(
        &mut self,
        alloc: Global,
        shard: bool,
        part: &PartState,
    ) -> Result<(), AllocError>
        ensures ok { OnOk result (self.new ≡ giving shard part.now self.old) }
        ensures err { OnErr result (self.new ≡ self.old) }
    {
        let hold = Hold {
            front: part.front,
            turn: false,
        };
        if shard {
            self.pins = self.owned(alloc, part.pins.as_slice())?;
            self.put = LinkedList::new(alloc);
            self.shard = hold;
        } else {
            self.file = hold;
        }
        Ok(())
    }
}
