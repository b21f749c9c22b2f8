// The homes of the two parts: what each was as it was put in last, and whether it is out.
ghost use Rattle.std.specs.Prelude.{◌≡◌, true};
ghost use Rattle.go_core.specs.Turns.{home_of, with_home};
ghost use Rattle.go_core.specs.Opening.{opening_parts};

use crate::part::PartState;
use crate::pin::Pins;
use std::alloc::Global;

/// The home of a part.
#[derive(Debug, Drop)]
pub struct Home {
    /// The part; one that is out is as it was taken.
    pub part: PartState,
    /// Whether it is in the hand of the party that has its turn.
    pub out: bool,
}

/// The two parts of the machine.
#[derive(Debug, Drop)]
pub struct Parts {
    /// Part 0.
    pub shard: Home,
    /// Part 1.
    pub file: Home,
}

impl Parts {
    // The parts as a machine begins.
    pub(crate) fn opening(alloc: Global, first: u64) -> Parts
        ensures { result ≡ opening_parts first }
    {
        Parts {
            shard: Home::opening(alloc, first),
            file: Home::opening(alloc, first),
        }
    }

    // The home of one of them.
    pub(crate) fn home(&self, shard: bool) -> &Home
        ensures { result.now ≡ home_of shard self.now }
    {
        if shard { &self.shard } else { &self.file }
    }

    // Another home for one of them.
    pub(crate) fn set_home(&mut self, shard: bool, home: Home)
        ensures { self.new ≡ with_home shard home self.old }
    {
        if shard {
            self.shard = home;
        } else {
            self.file = home;
        }
    }

    // One of them is out.
    pub(crate) fn take_out(&mut self, shard: bool)
        ensures { self.new ≡ with_home shard (record { part = (home_of shard self.old).part; out = true }) self.old }
    {
        if shard {
            self.shard.out = true;
        } else {
            self.file.out = true;
        }
    }
}

impl Home {
    ghost use Rattle.go_core.specs.Opening.{opening_home};

    // The home of a part as a machine begins.
    fn opening(alloc: Global, first: u64) -> Home
        ensures { result ≡ opening_home first }
    {
        Home {
            part: PartState {
                front: first,
                cut: 0,
                pins: Pins::none(alloc),
            },
            out: false,
        }
    }
}
