// A list of events of eight parties, replayed on the machine that keeps the rule of the ring.
use go_core::{Act, Core, EdgeSeq, Event, Out, PartState, Pins, Role, replay};
use go_word::Edge;
use std::alloc::{AllocError, Global};
use std::io;
use std::time::Instant;

// The slots of the ring.
const SLOTS: u64 = 65536;

// How many sessions there are, the first of the parties.
const SESSIONS: u32 = 6;

// The parties of the two workers.
const ARCHIVER: u32 = 6;

const FLUSHER: u32 = 7;

// How many entries a session claims in a round.
const CLAIMED: u64 = 64;

// How many entries a round has, and how many events.
const ROUND: u64 = 384;

const EVENTS: u32 = 1180;

/// Replays about so many events: rounds in which six sessions put 64 entries each, and two workers take them.
pub fn run(rt: &HostRuntime, alloc: Global, count: u32) -> io::Result<()> {
    let events = rounds(alloc, count / EVENTS + 1)?;
    let roles = [
        Role::Session,
        Role::Session,
        Role::Session,
        Role::Session,
        Role::Session,
        Role::Session,
        Role::Archiver,
        Role::Flusher,
    ];
    let mut machine = Core::new(alloc, SLOTS, 0, &roles)?;
    let mut outs = Vec::new(alloc);
    let begin = Instant::now(rt)?;
    replay(&mut machine, &events, &mut outs)?;
    let replayed = begin.elapsed(rt)?;
    let done = outs.iter().filter(|out| **out != Out::Refused).count();
    println!(rt; "{} events, {done} done", events.len())?;
    eprintln!(rt; "{}", replayed.as_micros())
}

// So many rounds of events.
fn rounds(alloc: Global, count: u32) -> Result<Vec<Event>, AllocError> {
    let mut events = Vec::new(alloc);
    for round in 0..count {
        let first = u64::from(round).wrapping_mul(ROUND);
        push_puts(alloc, &mut events, first)?;
        for at in 0..ROUND {
            let at = first.wrapping_add(at);
            push(&mut events, ARCHIVER, Act::LoadOrdered { at })?;
            push(&mut events, FLUSHER, Act::LoadOrdered { at })?;
        }
        let front = first.wrapping_add(ROUND);
        push_part(alloc, &mut events, ARCHIVER, 0, front)?;
        push(&mut events, ARCHIVER, Act::StoreArchived { front })?;
        push_part(alloc, &mut events, FLUSHER, 1, front)?;
        push(&mut events, FLUSHER, Act::StoreDurable { front })?;
        for session in 0..SESSIONS {
            push(&mut events, session, Act::LoadArchived)?;
            push(&mut events, session, Act::LoadDurable)?;
        }
    }
    Ok(events)
}

// The sessions claim entries, and store them in turn.
fn push_puts(alloc: Global, events: &mut Vec<Event>, first: u64) -> Result<(), AllocError> {
    let edge = Edge {
        del: false,
        src: 0,
        dst: 1,
    };
    for session in 0..SESSIONS {
        let edges = EdgeSeq::of(alloc, &[edge; 64])?;
        push(events, session, Act::Claim { edges })?;
    }
    for entry in 0..CLAIMED {
        for session in 0..SESSIONS {
            let at = first.wrapping_add(u64::from(session) * CLAIMED + entry);
            push(events, session, Act::StoreWord { at })?;
        }
    }
    Ok(())
}

// A worker puts its part in as far as a front.
fn push_part(
    alloc: Global,
    events: &mut Vec<Event>,
    party: u32,
    part: u32,
    front: u64,
) -> Result<(), AllocError> {
    let state = PartState {
        front,
        cut: 0,
        pins: Pins::none(alloc),
    };
    push(events, party, Act::TakeTurn { part })?;
    push(events, party, Act::PartOut { part })?;
    push(events, party, Act::PartIn { part, state })?;
    push(events, party, Act::GiveTurn { part })
}

// One event more.
fn push(events: &mut Vec<Event>, party: u32, act: Act) -> Result<(), AllocError> {
    events.push(Event { party, act })?;
    Ok(())
}
