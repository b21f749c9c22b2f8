// A list of events, one after another.
ghost use Rattle.std.specs.Prelude.{
  ◌≡◌,
  ◌+◌,
  ◌<◌,
  ◌≤◌,
  ◌++◌,
  ℕ,
  List,
  length,
  take,
  drop,
  true,
  vec_len,
  OnOk,
};
ghost use mathlib.Core.Option.{some};
ghost use lib.ListN.{get_elem?};
ghost use Rattle.go_word.specs.declared.edge.Edge.{Edge};
ghost use Rattle.go_word.specs.Word.{is_matched, decode};
ghost use Rattle.go_core.specs.Frame.{released};
ghost use Rattle.go_core.specs.Machine.{IsTied, party_at};
ghost use Rattle.go_core.specs.History.{
  Run,
  all_claims,
  IsRead,
  IsWorker,
  HasTaken,
  IsAssured,
  IsCopied,
  Copy,
  AreSure,
};

use crate::act::{Event, Out};
use crate::machine::Core;
use std::alloc::AllocError;

/// Does the steps of a list of events in their order, and puts the answers at the end of `outs`.
///
/// Where memory is wanting, the steps before were done and answered, and no other.
pub fn replay(core: &mut Core, events: &[Event], outs: &mut Vec<Out>) -> Result<(), AllocError>
    ensures kept { take (vec_len outs.old) outs.new.items ≡ outs.old.items }
    ensures all { OnOk result (vec_len outs.new ≡ vec_len outs.old + length events.now) }
    ensures run { Run core.old events.now (drop (vec_len outs.old) outs.new.items) core.new }

    // Whatever log the machine was tied to, it is, followed by what was claimed.
    ensures tied { (log : List Edge) → IsTied core.old log →
        IsTied core.new (log ++ all_claims events.now (drop (vec_len outs.old) outs.new.items)) }
    ensures released { (log : List Edge) → IsTied core.old log →
        released core.old.words ≤ released core.new.words }

    // A matched word that a worker read in its turn is the log's entry there.
    ensures ordered { (log : List Edge) → IsTied core.old log → (k p x : ℕ) →
        IsRead events.now (drop (vec_len outs.old) outs.new.items) k p x →
        is_matched core.old.frame.slots p x ≡ true →
        get_elem? (log ++ all_claims events.now (drop (vec_len outs.old) outs.new.items)) p
        ≡ some (decode x) }

    // A word that was read ahead of its turn, before a front at or below its position was read, is the
    // log's entry there where it is matched, and else its position had not been seen.
    ensures copied { (log : List Edge) → IsTied core.old log → (k : ℕ) (c : Copy) →
        IsAssured events.now (drop (vec_len outs.old) outs.new.items) k c →
        IsCopied core.old events.now (drop (vec_len outs.old) outs.new.items)
        (log ++ all_claims events.now (drop (vec_len outs.old) outs.new.items)) k c }
    ensures sure { (log : List Edge) → IsTied core.old log → (i : ℕ) →
        AreSure core.new (log ++ all_claims events.now (drop (vec_len outs.old) outs.new.items)) i }

    // What a worker took since is every position up to its taken length, none skipped.
    ensures taken { (i p : ℕ) → IsWorker (party_at core.old i).view →
        (party_at core.old i).view.taken ≤ p → p < (party_at core.new i).view.taken →
        HasTaken core.old.frame.slots events.now (drop (vec_len outs.old) outs.new.items) i p }
{
    outs.reserve(events.len())?;
    for event in events {
        let out = core.step(event)?;
        outs.push(out)?;
    }
    Ok(())
}
