// The machine: parties that share the words of a ring.
ghost use Rattle.std.specs.Prelude.{
  ◌≡◌,
  ◌+◌,
  ◌-◌,
  ◌^◌,
  ◌<◌,
  ◌≤◌,
  ◌++◌,
  ℕ,
  List,
  length,
  map,
  count_by,
  IfOk,
  OnErr,
};
ghost use Rattle.go_word.specs.declared.edge.Edge.{Edge};

use crate::act::{Event, Out, Role};
use crate::home::Parts;
use crate::opening::BASE;
use crate::party::Party;
use crate::{opening, play};
use std::alloc::{AllocError, Global};
use std::marker::Model;

/// The machine: parties that share the words of a ring, one step at a time.
#[derive(Drop)]
pub struct Core {
    alloc: Global,
    slots: u64,
    first: u64,
    words: Vec<u64>,
    parties: Vec<Party>,
    parts: Parts,
}

impl Model for Core {
    ghost use Rattle.go_core.specs.Machine.{Machine, Stands, machine_of};

    ghost Value = { Machine };

    ghost view = { λ c. machine_of c.slots c.first c.words.items c.parties.items c.parts };

    ghost invariant = { λ c. Stands (machine_of c.slots c.first c.words.items c.parties.items c.parts) };
}

impl Core {
    ghost use Rattle.go_core.specs.Machine.{IsTied, Row, claims, frame_of};
    ghost use Rattle.go_core.specs.Opening.{
      AreOpening,
      opening_party,
      opening_parts,
      archives_as,
      flushes_as,
    };

    /// A machine of `n` slots that begins at the position `first`, with a party for each role.
    pub fn new(alloc: Global, n: u64, first: u64, roles: &[Role]) -> Result<Core, AllocError>
        requires some { 4 ≤ n }
        requires few { first + n ≤ 2 ^ 48 }
        requires one_archiver { count_by archives_as roles.now ≤ 1 }
        requires one_flusher { count_by flushes_as roles.now ≤ 1 }

        ensures frame { IfOk result (λ core. core.frame ≡ frame_of n first) }
        ensures words { IfOk result (λ core. AreOpening core.frame core.words) }
        ensures parties { IfOk result (λ core. core.parties ≡ map (opening_party first) roles.now) }
        ensures parts { IfOk result (λ core. core.parts ≡ opening_parts first) }
        ensures tied { IfOk result (λ core. (log : List Edge) → length log ≡ first → IsTied core log) }
    {
        let words = opening::ring_words(alloc, BASE, n, first)?;
        let parties = opening::parties(alloc, first, roles)?;
        Ok(Core {
            alloc,
            slots: n,
            first,
            words,
            parties,
            parts: Parts::opening(alloc, first),
        })
    }

    /// Does the step of one party, or refuses it. Where memory is wanting, nothing changes.
    pub fn step(&mut self, event: &Event) -> Result<Out, AllocError>
        ensures row { IfOk result (λ out. Row self.old event.now.party event.now.act out self.new) }
        ensures tied { IfOk result (λ out. (log : List Edge) →
            IsTied self.old log → IsTied self.new (log ++ claims event.now.act out)) }
        ensures err { OnErr result (self.new ≡ self.old) }
    {
        play::one(
            self.alloc,
            self.slots,
            &mut self.words,
            &mut self.parties,
            &mut self.parts,
            event,
        )
    }
}
