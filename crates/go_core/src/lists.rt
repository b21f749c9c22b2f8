// Lists of entries: numbered, found, taken out and put in order, at the cost of what stands between.
ghost use Rattle.std.specs.Prelude.{
  ◌≡◌,
  ◌+◌,
  ◌^◌,
  ◌<◌,
  ◌≤◌,
  ◌++◌,
  length,
  take,
  drop,
  map,
  find,
  IfOk,
  IfSome,
  IfNone,
  OnOk,
  OnErr,
};
ghost use Rattle.go_core.specs.View.{
  numbered,
  stands_at,
  without,
  inserted,
  before_later as place_before_later,
  assured as assured_load,
};

use crate::entry::{Entry, Load};
use go_word::Edge;
use std::alloc::{AllocError, Global};
use std::collections::LinkedList;

// The most entries that one list holds.
const LIMIT: usize = 0x7FFF_FFFF_FFFF_FFFE;

// The edges at rising positions, the first at `first`.
pub(crate) fn number(
    alloc: Global,
    first: u64,
    edges: &[Edge],
) -> Result<LinkedList<Entry>, AllocError>
    requires { first + length edges.now < 2 ^ 64 }
    ensures { IfOk result (λ list. list ≡ numbered first edges.now) }
{
    let mut list = LinkedList::new(alloc);
    let mut at = first;
    for edge in edges {
        list.push_back(Entry { at, edge: *edge })?;
        at += 1;
    }
    Ok(list)
}

// The first entry at a position.
pub(crate) fn entry_at(list: &LinkedList<Entry>, at: u64) -> Option<Entry>
    ensures { result ≡ find (stands_at at) list.now }
{
    let mut rest = list.iter();
    while let Some(entry) = rest.next() {
        if entry.at == at {
            return Some(*entry);
        }
    }
    None
}

// The place of the first entry at a position.
fn place_of(list: &LinkedList<Entry>, at: u64) -> Option<usize>
    ensures within { IfSome result (λ k. k < length list.now) }
    ensures found { IfSome result (λ k. without at list.now ≡ take k list.now ++ drop (k + 1) list.now) }
    ensures none { IfNone result (without at list.now ≡ list.now) }
{
    let mut rest = list.iter();
    let mut place = 0;
    while let Some(entry) = rest.next() {
        if entry.at == at {
            return Some(place);
        }
        place += 1;
    }
    None
}

// Takes the first entry at a position out of the list. It takes no memory.
pub(crate) fn take_out(list: &mut LinkedList<Entry>, at: u64)
    ensures { list.new ≡ without at list.old }
{
    if let Some(place) = place_of(list, at) {
        let _len = list.len();
        let mut tail = list.split_off(place).unwrap();
        let _entry = tail.pop_front();
        let _joined = list.append(&mut tail);
    }
}

// How many entries stand before those at the end that come after a position.
fn before_later(list: &LinkedList<Entry>, at: u64) -> usize
    ensures value { result ≡ place_before_later at list.now }
    ensures within { result ≤ length list.now }
{
    let mut rest = list.iter();
    let mut place = list.len();
    while let Some(entry) = rest.next_back() {
        if entry.at <= at {
            return place;
        }
        place -= 1;
    }
    place
}

// Puts an entry before those at the end of the list that come after it.
pub(crate) fn put_in_order(list: &mut LinkedList<Entry>, entry: Entry) -> Result<(), AllocError>
    ensures ok { OnOk result (list.new ≡ inserted entry list.old) }
    ensures err { OnErr result (list.new ≡ list.old) }
{
    if LIMIT <= list.len() {
        return Err(AllocError);
    }
    let place = before_later(list, entry.at);
    let mut tail = list.split_off(place)?;
    let pushed = tail.push_front(entry).is_ok();
    let _joined = list.append(&mut tail);
    if pushed { Ok(()) } else { Err(AllocError) }
}

// The loads after a front was read: those at or above it are sure.
pub(crate) fn assured(
    alloc: Global,
    loads: &LinkedList<Load>,
    front: u64,
) -> Result<LinkedList<Load>, AllocError>
    ensures { IfOk result (λ list. list ≡ map (assured_load front) loads.now) }
{
    let mut list = LinkedList::new(alloc);
    let mut rest = loads.iter();
    while let Some(load) = rest.next() {
        let sure = load.sure || front <= load.at;
        list.push_back(Load { sure, ..*load })?;
    }
    Ok(list)
}
