// What the tests share: entries, small stores, and calls of a session that first look whether they may be made.
ghost use Rattle.std.specs.Prelude.{◌≡◌, ◌≤◌, ◌^◌, ◌∷◌, [], Some, true, false, slice_get, All, IfOk, IfSome};
ghost use Rattle.go_api.specs.declared.limits.TheConstants.{SLOT_LIMIT};
ghost use Rattle.go_word.specs.Log.{IsWithin};
ghost use Rattle.go_plain.specs.Seats.{new_seat, seat_at};

use crate::{PlainSession, PlainStore};
use go_api::{Offer, Place, Setup, Span, Store};
use go_disk::MemDisk;
use go_durable::attach;
use go_word::Edge;
use std::alloc::Global;
use std::process::Abort;
use std::test::Fail;

pub(crate) fn add(src: u32, dst: u32) -> Edge
    ensures { result ≡ record { del = false; src = src; dst = dst } }
{
    Edge {
        del: false,
        src,
        dst,
    }
}

pub(crate) fn del(src: u32, dst: u32) -> Edge
    ensures { result ≡ record { del = true; src = src; dst = dst } }
{
    Edge {
        del: true,
        src,
        dst,
    }
}

// A store over a disk, of 8 vertices and two shards, with a ring of so many slots; for two sessions that may put so many entries each.
pub(crate) fn store_over(
    alloc: Global,
    disk: MemDisk,
    ring: u64,
    quota: u64,
) -> Option<PlainStore<MemDisk>>
    requires some_slots { 1 ≤ ring }
    requires few_slots { ring ≤ SLOT_LIMIT }
    requires quota { quota ≤ 2 ^ 20 }
    ensures vertices { IfSome result (λ store. store.origin.vertices ≡ 8) }
    ensures seats { IfSome result (λ store. store.seats ≡ new_seat store.origin.first quota ∷ new_seat store.origin.first quota ∷ []) }
{
    let opened = match attach(alloc, disk, 8, 1_000_000) {
        Ok(opened) => opened,
        Err(_) => return None,
    };
    let setup = Setup {
        vertices: 8,
        ring,
        shards: 2,
    };
    match PlainStore::new(alloc, opened, setup, &[quota, quota]) {
        Ok(store) => Some(store),
        Err(_) => None,
    }
}

// The handle of a session.
pub(crate) fn turn(store: PlainStore<MemDisk>, number: u8) -> Result<PlainSession<MemDisk>, Fail> {
    if number == 0 || store.body.seats.len() < number as usize {
        return Err(Fail::new("no such session"));
    }
    Ok(store.session(number))
}

// The handle of the first of two sessions over an empty disk, which may put 200 entries each.
pub(crate) fn first_session(alloc: Global, ring: u64) -> Result<PlainSession<MemDisk>, Fail>
    requires some_slots { 1 ≤ ring }
    requires few_slots { ring ≤ SLOT_LIMIT }
{
    let disk = MemDisk::new(alloc, b"", 10_000)?;
    let Some(store) = store_over(alloc, disk, ring, 200) else {
        return Err(Fail::new("not made"));
    };
    turn(store, 1)
}

// Puts an entry.
pub(crate) fn put(session: &mut PlainSession<MemDisk>, edge: Edge) -> Result<u64, Fail> {
    let vertices = session.vertices();
    if session.seat().quota == 0 || edge.src >= vertices || edge.dst >= vertices {
        return Err(Fail::new("may not put"));
    }
    let Ok(position) = session.put(edge) else {
        return Err(Fail::new("not put"));
    };
    Ok(position)
}

// Puts entries in their order.
pub(crate) fn put_all(
    session: &mut PlainSession<MemDisk>,
    edges: &[Edge],
) -> Result<Option<u64>, Fail>
    requires { All (IsWithin 8) edges.now }
{
    if session.seat().quota < edges.len() as u64 || session.vertices() != 8 {
        return Err(Fail::new("may not put"));
    }
    let Ok(last) = session.put_entries(edges) else {
        return Err(Fail::new("not put"));
    };
    Ok(last)
}

// Offers an entry.
pub(crate) fn offer(session: &mut PlainSession<MemDisk>, edge: Edge) -> Result<Offer, Fail> {
    let vertices = session.vertices();
    if session.seat().quota == 0 || edge.src >= vertices || edge.dst >= vertices {
        return Err(Fail::new("may not put"));
    }
    let Ok(answer) = session.offer(edge) else {
        return Err(Fail::new("no answer"));
    };
    Ok(answer)
}

// What stands at a place of a session.
pub(crate) fn held(session: &PlainSession<MemDisk>, place: u8) -> Result<Place, Fail>
    ensures { IfOk result (λ it. slice_get (seat_at session.now.store.seats session.now.number).places place ≡ Some it) }
{
    let seat = session.seat();
    match seat.places.get(place as usize) {
        Some(it) => Ok(*it),
        None => Err(Fail::new("no such place")),
    }
}

// Takes a view at a place.
pub(crate) fn view(session: &mut PlainSession<MemDisk>, place: u8) -> Result<u64, Fail> {
    let Place::Free = held(session, place)? else {
        return Err(Fail::new("not free"));
    };
    let Ok(front) = session.view(place) else {
        return Err(Fail::new("no view"));
    };
    Ok(front)
}

// That these are the neighbours of a vertex in the view at a place.
pub(crate) fn assert_neighbours(
    rt: &impl Abort,
    alloc: Global,
    session: &mut PlainSession<MemDisk>,
    place: u8,
    vertex: u32,
    want: &[u32],
) -> Result<(), Fail> {
    let Place::View { .. } = held(session, place)? else {
        return Err(Fail::new("no view there"));
    };
    if vertex >= session.vertices() {
        return Err(Fail::new("no such vertex"));
    }
    let mut list = [9].to_vec(alloc)?;
    let Ok(()) = session.neighbours(place, vertex, &mut list) else {
        return Err(Fail::new("not read"));
    };
    assert_eq!(rt; list.as_slice(), want, "neighbours of {vertex} at {place}");
    Ok(())
}

// How many neighbours a vertex has in the view at a place.
pub(crate) fn degree(
    session: &mut PlainSession<MemDisk>,
    place: u8,
    vertex: u32,
) -> Result<u32, Fail> {
    let Place::View { .. } = held(session, place)? else {
        return Err(Fail::new("no view there"));
    };
    if vertex >= session.vertices() {
        return Err(Fail::new("no such vertex"));
    }
    let Ok(degree) = session.degree(place, vertex) else {
        return Err(Fail::new("not read"));
    };
    Ok(degree)
}

// Drops the view at a place.
pub(crate) fn drop_view(session: &mut PlainSession<MemDisk>, place: u8) -> Result<(), Fail> {
    let Place::View { .. } = held(session, place)? else {
        return Err(Fail::new("no view there"));
    };
    session.drop_view(place);
    Ok(())
}

// Starts a stream at a place.
pub(crate) fn start_stream(session: &mut PlainSession<MemDisk>, place: u8) -> Result<u64, Fail> {
    let Place::Free = held(session, place)? else {
        return Err(Fail::new("not free"));
    };
    let Ok(cursor) = session.start_stream(place) else {
        return Err(Fail::new("not started"));
    };
    Ok(cursor)
}

// That these are the next entries of the stream at the first place, where so many are wanted at most, and stand from there on.
pub(crate) fn assert_next(
    rt: &impl Abort,
    alloc: Global,
    session: &mut PlainSession<MemDisk>,
    most: u32,
    first: u64,
    want: &[Edge],
) -> Result<(), Fail> {
    let Place::Stream { .. } = held(session, 0)? else {
        return Err(Fail::new("no stream there"));
    };
    if most == 0 {
        return Err(Fail::new("none wanted"));
    }
    let mut list = [add(7, 7)].to_vec(alloc)?;
    let Ok(Span { from, to }) = session.update(0, most, &mut list) else {
        return Err(Fail::new("not read"));
    };
    assert_eq!(rt; list.as_slice(), want, "entries from {first} on");
    assert_eq!(rt; from, first);
    assert_eq!(rt; to.checked_sub(first), Some(want.len() as u64));
    Ok(())
}

// Closes the stream at a place.
pub(crate) fn close_stream(session: &mut PlainSession<MemDisk>, place: u8) -> Result<(), Fail> {
    let Place::Stream { .. } = held(session, place)? else {
        return Err(Fail::new("no stream there"));
    };
    session.close_stream(place);
    Ok(())
}

// Whether each of the two shards is cut at a front.
pub(crate) fn are_cut_at(store: &PlainStore<MemDisk>, front: u64) -> bool {
    for shard in &store.body.shards {
        if shard.cut() != front {
            return false;
        }
    }
    store.body.shards.len() == 2
}

// What a read of the disk gives.
pub(crate) fn bytes_of(alloc: Global, disk: &MemDisk) -> Result<Vec<u8>, Fail> {
    let mut bytes = Vec::new(alloc);
    disk.image(0, &mut bytes)?;
    Ok(bytes)
}
