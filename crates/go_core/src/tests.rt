// Worked rows: the answers of a few parties, step by step.
use crate::{Act, Core, EdgeSeq, Event, Out, Role, replay};
use go_word::Edge;
use std::alloc::{AllocError, Global};
use std::test::Fail;

pub(crate) fn add(src: u32, dst: u32) -> Edge {
    Edge {
        del: false,
        src,
        dst,
    }
}

pub(crate) fn claim(alloc: Global, party: u32, edge: Edge) -> Result<Event, AllocError> {
    let edges = EdgeSeq::of(alloc, &[edge])?;
    Ok(Event {
        party,
        act: Act::Claim { edges },
    })
}

pub(crate) fn event(party: u32, act: Act) -> Event {
    Event { party, act }
}

#[test]
fn five_entries_in_a_ring_of_four(rt: HostRuntime) -> Result<(), Fail> {
    let alloc = rt.alloc();
    let roles = [Role::Session, Role::Archiver, Role::Flusher];
    let mut core = Core::new(alloc, 4, 0, &roles)?;
    let mut events = Vec::new(alloc);
    let mut want = Vec::new(alloc);
    for number in 0..5 {
        events.push(claim(alloc, 0, add(0, 1))?)?;
        want.push(Out::Number { value: number })?;
    }
    for at in 0..4 {
        events.push(event(0, Act::StoreWord { at }))?;
        want.push(Out::Done)?;
    }
    for (party, act, out) in [
        (0, Act::StoreWord { at: 4 }, Out::Refused),
        (1, Act::LoadOrdered { at: 1 }, Out::Refused),
        (
            1,
            Act::LoadOrdered { at: 0 },
            Out::Word {
                word: 0x4000_0000_0000_0001,
            },
        ),
        (
            1,
            Act::LoadOrdered { at: 1 },
            Out::Word {
                word: 0x4000_0000_0000_0001,
            },
        ),
        (
            1,
            Act::LoadOrdered { at: 2 },
            Out::Word {
                word: 0x4000_0000_0000_0001,
            },
        ),
        (
            1,
            Act::LoadOrdered { at: 3 },
            Out::Word {
                word: 0x4000_0000_0000_0001,
            },
        ),
        (
            1,
            Act::LoadOrdered { at: 4 },
            Out::Word {
                word: 0x4000_0000_0000_0001,
            },
        ),
        (1, Act::LoadOrdered { at: 5 }, Out::Refused),
        (
            2,
            Act::LoadOrdered { at: 0 },
            Out::Word {
                word: 0x4000_0000_0000_0001,
            },
        ),
        (0, Act::LoadOrdered { at: 0 }, Out::Refused),
        (1, Act::StoreArchived { front: 0 }, Out::Done),
        (1, Act::StoreArchived { front: 4 }, Out::Refused),
        (0, Act::LoadArchived, Out::Number { value: 0 }),
        (2, Act::LoadHead, Out::Number { value: 5 }),
        (0, Act::Split, Out::Number { value: 3 }),
        (3, Act::LoadHead, Out::Number { value: 5 }),
        (3, Act::Join { other: 0 }, Out::Refused),
        (0, Act::Join { other: 1 }, Out::Refused),
        (0, Act::Join { other: 0 }, Out::Refused),
        (0, Act::Join { other: 3 }, Out::Done),
        (3, Act::LoadHead, Out::Refused),
        (4, Act::LoadHead, Out::Refused),
    ] {
        events.push(event(party, act))?;
        want.push(out)?;
    }
    let mut outs = Vec::new(alloc);
    replay(&mut core, &events, &mut outs)?;
    assert_eq!(rt; outs.as_slice(), want.as_slice());
    Ok(())
}

#[test]
fn claims_that_are_refused(rt: HostRuntime) -> Result<(), Fail> {
    let alloc = rt.alloc();
    let mut core = Core::new(alloc, 4, 0, &[Role::Session])?;
    let many = [add(1, 2); 65];
    for (edges, out) in [
        ([].as_slice(), Out::Refused),
        (many.as_slice(), Out::Refused),
        ([add(0x8000_0000, 0)].as_slice(), Out::Refused),
        ([add(0, 0x8000_0000)].as_slice(), Out::Refused),
        (
            [add(0x7FFF_FFFF, 0x7FFF_FFFF), add(1, 2)].as_slice(),
            Out::Number { value: 0 },
        ),
        ([add(1, 2)].as_slice(), Out::Number { value: 2 }),
    ] {
        let edges = EdgeSeq::of(alloc, edges)?;
        let count = edges.as_slice().len();
        assert_eq!(rt;
            core.step(&event(0, Act::Claim { edges }))?,
            out,
            "of {count}"
        );
    }
    Ok(())
}

#[test]
fn a_copy_reads_ahead_of_the_workers(rt: HostRuntime) -> Result<(), Fail> {
    let alloc = rt.alloc();
    let roles = [Role::Session, Role::Archiver, Role::Flusher];
    let mut core = Core::new(alloc, 4, 0, &roles)?;
    let first = Out::Word {
        word: 0x4000_0000_0000_0001,
    };
    core.step(&claim(alloc, 0, add(0, 1))?)?;
    core.step(&claim(alloc, 0, add(0, 1))?)?;
    for (party, act, out) in [
        (0, Act::StoreWord { at: 0 }, Out::Done),
        (0, Act::LoadTentative { at: 0 }, Out::Refused),
        (0, Act::LoadHead, Out::Number { value: 2 }),
        (0, Act::LoadArchived, Out::Number { value: 0 }),
        (0, Act::LoadTentative { at: 0 }, first),
        (0, Act::LoadTentative { at: 1 }, Out::Word { word: 0 }),
        (0, Act::LoadTentative { at: 2 }, Out::Refused),
        (0, Act::LoadDurable, Out::Number { value: 0 }),
        (2, Act::LoadOrdered { at: 0 }, first),
        (2, Act::StoreDurable { front: 1 }, Out::Refused),
        (1, Act::StoreDurable { front: 0 }, Out::Refused),
        (2, Act::StoreDurable { front: 0 }, Out::Done),
    ] {
        assert_eq!(rt; core.step(&event(party, act))?, out);
    }
    Ok(())
}

#[test]
fn the_flag_is_the_cause_that_was_raised_last(rt: HostRuntime) -> Result<(), Fail> {
    let alloc = rt.alloc();
    let mut core = Core::new(alloc, 4, 0, &[Role::Session, Role::Archiver])?;
    for (party, act, out) in [
        (0, Act::LoadFlag, Out::Number { value: 0 }),
        (0, Act::StoreFlag { why: 0 }, Out::Refused),
        (0, Act::StoreFlag { why: 3 }, Out::Refused),
        (0, Act::StoreFlag { why: 2 }, Out::Done),
        (1, Act::LoadFlag, Out::Number { value: 2 }),
        (1, Act::StoreFlag { why: 1 }, Out::Done),
        (0, Act::LoadFlag, Out::Number { value: 1 }),
        (2, Act::LoadFlag, Out::Refused),
    ] {
        assert_eq!(rt; core.step(&event(party, act))?, out);
    }
    Ok(())
}
