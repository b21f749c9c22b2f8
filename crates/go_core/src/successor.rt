// Whether a part may be given back as another: the fronts go onward, and another party's pins stay.
ghost use Rattle.std.specs.Prelude.{
  ◌≡◌,
  ◌≤◌,
  ◌↔◌,
  IsTrue,
  false,
  All,
  Option,
  Some,
  find,
  count_by,
};
ghost use Rattle.go_word.specs.Pins.{is_named};
ghost use Rattle.go_core.specs.Pins.{owns_name};
ghost use Rattle.go_core.specs.Parts.{reach_of, AreNamed, Follows, GoesOnward, KeepsPins, IsSuccessor, IsFileSuccessor};

use crate::part::PartState;
use crate::pin;
use crate::stake::Stake;
use crate::view::View;
use go_word::Pin;

// Whether no pin lies below a cut.
fn are_past(cut: u64, pins: &[Pin]) -> bool
    ensures { IsTrue result ↔ All (λ pin. cut ≤ pin.front) pins.now }
{
    for pin in pins {
        if pin.front < cut {
            return false;
        }
    }
    true
}

// Whether the name of a pin stands once among others.
fn stands_once(pin: &Pin, pins: &[Pin]) -> bool
    ensures { IsTrue result ↔ (count_by (is_named pin.now.id) pins.now ≡ 1) }
{
    pin::count_named(pins, pin.id) == 1
}

// Whether the name of each pin stands once among others.
fn are_named(pins: &[Pin], among: &[Pin]) -> bool
    ensures { IsTrue result ↔ All (λ pin. count_by (is_named pin.id) among.now ≡ 1) pins.now }
{
    for pin in pins {
        if !stands_once(pin, among) {
            return false;
        }
    }
    true
}

// Whether a pin is another party's no more, or stays as it is.
fn stays(stake: &Stake, pin: &Pin, new: &[Pin]) -> bool
    ensures { IsTrue result ↔ (owns_name pin.now.id stake.now.pins stake.now.put ≡ false → find (is_named pin.now.id) new.now ≡ Some pin.now) }
{
    stake.owns(pin.id) || pin::find_named(new, pin.id) == Some(*pin)
}

// Whether all pins of the other parties stay.
fn others_stay(stake: &Stake, old: &[Pin], new: &[Pin]) -> bool
    ensures { IsTrue result ↔ All (λ pin. owns_name pin.id stake.now.pins stake.now.put ≡ false → find (is_named pin.id) new.now ≡ Some pin) old.now }
{
    for pin in old {
        if !stays(stake, pin, new) {
            return false;
        }
    }
    true
}

// Whether a pin may stand where `before` stood.
fn follows(cut: u64, archived: u64, own: bool, before: Option<Pin>, pin: &Pin) -> bool
    ensures { IsTrue result ↔ Follows cut archived own before pin.now }
{
    match before {
        None => pin.front == cut,
        Some(old) => {
            pin.front == old.front || (own && old.front <= pin.front && pin.front <= archived)
        }
    }
}

// Whether each pin may stand.
fn all_follow(cut: u64, archived: u64, stake: &Stake, old: &[Pin], new: &[Pin]) -> bool
    ensures { IsTrue result ↔ All (λ pin. Follows cut archived (owns_name pin.id stake.now.pins stake.now.put) (find (is_named pin.id) old.now) pin) new.now }
{
    for pin in new {
        let before = pin::find_named(old, pin.id);
        if !follows(cut, archived, stake.owns(pin.id), before, pin) {
            return false;
        }
    }
    true
}

// Whether the front and the cut of a shard go onward, and no further than they may.
fn goes_onward(view: &View, old: &PartState, new: &PartState) -> bool
    ensures { IsTrue result ↔ GoesOnward (reach_of view.now) view.now.archived old.now new.now }
{
    old.front <= new.front
        && new.front <= old.front.max(view.reach())
        && old.cut <= new.cut
        && new.cut <= old.cut.max(view.archived)
}

// Whether the pins of a shard stand as they may, by its cut before and after.
fn keeps_pins(view: &View, stake: &Stake, old: &PartState, new: &PartState) -> bool
    ensures { IsTrue result ↔ KeepsPins view.now.archived (λ id. owns_name id stake.now.pins stake.now.put) old.now new.now }
{
    let before = old.pins.as_slice();
    let after = new.pins.as_slice();
    if !are_past(new.cut, after) {
        return false;
    }
    if !are_named(after, after) {
        return false;
    }
    if !others_stay(stake, before, after) {
        return false;
    }
    all_follow(old.cut, view.archived, stake, before, after)
}

// Whether a shard may be given back as another.
pub(crate) fn is_successor(view: &View, stake: &Stake, old: &PartState, new: &PartState) -> bool
    ensures { IsTrue result ↔ IsSuccessor (reach_of view.now) view.now.archived (λ id. owns_name id stake.now.pins stake.now.put) old.now new.now }
{
    goes_onward(view, old, new) && keeps_pins(view, stake, old, new)
}

// Whether two lists of pins are the same.
fn are_same(left: &[Pin], right: &[Pin]) -> bool
    ensures { IsTrue result ↔ (left.now ≡ right.now) }
{
    left == right
}

// Whether the file may be given back as another.
pub(crate) fn is_file_successor(view: &View, old: &PartState, new: &PartState) -> bool
    ensures { IsTrue result ↔ IsFileSuccessor view.now.taken old.now new.now }
{
    old.front <= new.front
        && new.front <= old.front.max(view.taken)
        && new.cut == old.cut
        && are_same(new.pins.as_slice(), old.pins.as_slice())
}
