// A party: its view of the log, and its stake in the parts.
ghost use Rattle.std.specs.Prelude.{◌≡◌, OnOk, OnErr};

use crate::act::Role;
use crate::changes;
use crate::stake::{Hold, Stake};
use crate::view::View;
use std::alloc::{AllocError, Global};
use std::collections::LinkedList;

/// A party of the machine.
#[derive(Drop)]
pub struct Party {
    /// What it knows of the log.
    pub view: View,
    /// What it knows of the parts.
    pub stake: Stake,
}

impl Party {
    ghost use Rattle.go_core.specs.Machine.{absent, stake_off, stakes_joined};
    ghost use Rattle.go_core.specs.Opening.{opening_party};
    ghost use Rattle.go_core.specs.View.{joining, split_off as split_off_view};

    // A party of a role as the machine begins.
    pub(crate) fn opening(alloc: Global, first: u64, role: Role) -> Party
        ensures { result ≡ opening_party first role }
    {
        Party {
            view: changes::opening(alloc, first, role),
            stake: Stake {
                pins: LinkedList::new(alloc),
                put: LinkedList::new(alloc),
                shard: Hold {
                    front: first,
                    turn: false,
                },
                file: Hold {
                    front: first,
                    turn: false,
                },
            },
        }
    }

    // A party that takes no part any more.
    pub(crate) fn absent(alloc: Global) -> Party
        ensures { result ≡ absent }
    {
        Party {
            view: changes::nothing(alloc),
            stake: Stake {
                pins: LinkedList::new(alloc),
                put: LinkedList::new(alloc),
                shard: Hold {
                    front: 0,
                    turn: false,
                },
                file: Hold {
                    front: 0,
                    turn: false,
                },
            },
        }
    }

    // A new party that is split off.
    pub(crate) fn split_off(&self, alloc: Global) -> Party
        ensures { result ≡ record { view = split_off_view self.now.view; stake = stake_off self.now.stake } }
    {
        Party {
            view: self.view.split_off(alloc),
            stake: Stake {
                pins: LinkedList::new(alloc),
                put: LinkedList::new(alloc),
                shard: Hold {
                    front: self.stake.shard.front,
                    turn: false,
                },
                file: Hold {
                    front: self.stake.file.front,
                    turn: false,
                },
            },
        }
    }

    // Joins another party in; that one is empty afterwards.
    pub(crate) fn join(&mut self, alloc: Global, other: &mut Party) -> Result<(), AllocError>
        ensures ok { OnOk result (self.new ≡ record { view = joining self.old.view other.old.view; stake = stakes_joined self.old.stake other.old.stake }) }
        ensures err { OnErr result (self.new ≡ self.old) }
        ensures other_err { OnErr result (other.new ≡ other.old) }
    {
        if !changes::fit(self.stake.pins.len(), other.stake.pins.len()) {
            return Err(AllocError);
        }
        self.view.join(alloc, &mut other.view)?;
        let _joined = self.stake.pins.append(&mut other.stake.pins);
        self.stake.shard.front = self.stake.shard.front.max(other.stake.shard.front);
        self.stake.file.front = self.stake.file.front.max(other.stake.file.front);
        Ok(())
    }
}
