// Worked rows of the steps on the parts, and of a ring that goes on to its second lap.
use crate::tests::{add, claim, event};
use crate::{Act, Core, Out, PartState, Pin, Pins, Role};
use std::alloc::{AllocError, Global};
use std::test::Fail;

// A step of a row; a part that is put in has up to two pins.
#[derive(Clone, Copy, Debug)]
enum Step {
    Store(u64),
    Ordered(u64),
    Archived,
    Durable,
    MoveArchived(u64),
    MoveDurable(u64),
    Take(u32),
    Out(u32),
    In(u32, u64),
    Pins(Option<(u64, u64)>, Option<(u64, u64)>),
    Give(u32),
    Split,
    Join(u32),
}

// A pin at the end of a list, where there is one.
fn push_pin(list: &mut Vec<Pin>, pin: Option<(u64, u64)>) -> Result<(), AllocError> {
    if let Some((id, front)) = pin {
        list.push(Pin { id, front })?;
    }
    Ok(())
}

// Puts a part in.
fn put(
    alloc: Global,
    part: u32,
    front: u64,
    one: Option<(u64, u64)>,
    two: Option<(u64, u64)>,
) -> Result<Act, AllocError> {
    let mut list = Vec::new(alloc);
    push_pin(&mut list, one)?;
    push_pin(&mut list, two)?;
    let pins = Pins::of(alloc, &list)?;
    let state = PartState {
        front,
        cut: 0,
        pins,
    };
    Ok(Act::PartIn { part, state })
}

// The act of a step.
fn act_of(alloc: Global, step: Step) -> Result<Act, AllocError> {
    Ok(match step {
        Step::Store(at) => Act::StoreWord { at },
        Step::Ordered(at) => Act::LoadOrdered { at },
        Step::Archived => Act::LoadArchived,
        Step::Durable => Act::LoadDurable,
        Step::MoveArchived(front) => Act::StoreArchived { front },
        Step::MoveDurable(front) => Act::StoreDurable { front },
        Step::Take(part) => Act::TakeTurn { part },
        Step::Out(part) => Act::PartOut { part },
        Step::In(part, front) => put(alloc, part, front, None, None)?,
        Step::Pins(one, two) => put(alloc, 0, 0, one, two)?,
        Step::Give(part) => Act::GiveTurn { part },
        Step::Split => Act::Split,
        Step::Join(other) => Act::Join { other },
    })
}

// Does the steps, and tells the first whose answer is another than is wanted.
fn first_wrong(
    alloc: Global,
    core: &mut Core,
    rows: &[(u32, Step, Out)],
) -> Result<Option<(u32, Step, Out)>, AllocError> {
    for (party, step, out) in rows {
        if core.step(&event(*party, act_of(alloc, *step)?))? != *out {
            return Ok(Some((*party, *step, *out)));
        }
    }
    Ok(None)
}

// The word of the entry that is put five times, in the first lap.
const FIRST: Out = Out::Word {
    word: 0x4000_0000_0000_0001,
};

// A number that is answered.
fn number(value: u64) -> Out {
    Out::Number { value }
}

#[test]
fn a_fifth_entry_waits_for_both_fronts(rt: HostRuntime) -> Result<(), Fail> {
    let alloc = rt.alloc();
    let roles = [Role::Session, Role::Archiver, Role::Flusher];
    let mut core = Core::new(alloc, 4, 0, &roles)?;
    for value in 0..5 {
        assert_eq!(rt;
            core.step(&claim(alloc, 0, add(0, 1))?)?,
            Out::Number { value }
        );
    }
    let rows = [
        (0, Step::Store(0), Out::Done),
        (0, Step::Store(1), Out::Done),
        (0, Step::Store(2), Out::Done),
        (0, Step::Store(3), Out::Done),
        (0, Step::Store(4), Out::Refused),
        (1, Step::Ordered(0), FIRST),
        (1, Step::Ordered(1), FIRST),
        (1, Step::Ordered(2), FIRST),
        (1, Step::Ordered(3), FIRST),
        (1, Step::Take(0), number(0)),
        (1, Step::Out(0), Out::Done),
        (1, Step::In(0, 4), Out::Done),
        (1, Step::MoveArchived(4), Out::Refused),
        (1, Step::Give(0), Out::Done),
        (1, Step::MoveArchived(4), Out::Done),
        (0, Step::Archived, number(4)),
        (0, Step::Store(4), Out::Refused),
        (2, Step::Ordered(0), FIRST),
        (2, Step::Ordered(1), FIRST),
        (2, Step::Ordered(2), FIRST),
        (2, Step::Ordered(3), FIRST),
        (2, Step::Take(1), number(0)),
        (2, Step::Out(1), Out::Done),
        (2, Step::In(1, 4), Out::Done),
        (2, Step::Give(1), Out::Done),
        (2, Step::MoveDurable(4), Out::Done),
        (0, Step::Durable, number(4)),
        (0, Step::Store(4), Out::Done),
        (1, Step::Ordered(4), Out::Word { word: 1 }),
    ];
    assert!(rt; first_wrong(alloc, &mut core, &rows)?.is_none());
    Ok(())
}

#[test]
fn turns_that_are_refused(rt: HostRuntime) -> Result<(), Fail> {
    let alloc = rt.alloc();
    let roles = [Role::Session, Role::Archiver, Role::Flusher];
    let mut core = Core::new(alloc, 4, 0, &roles)?;
    let rows = [
        (1, Step::Take(2), Out::Refused),
        (1, Step::Out(0), Out::Refused),
        (1, Step::Take(0), number(0)),
        (1, Step::Take(0), number(1)),
        (2, Step::Take(0), number(1)),
        (2, Step::Take(1), number(0)),
        (2, Step::Out(0), Out::Refused),
        (2, Step::Give(0), Out::Refused),
        (1, Step::In(0, 0), Out::Refused),
        (1, Step::Out(0), Out::Done),
        (1, Step::Out(0), Out::Refused),
        (1, Step::Take(0), Out::Refused),
        (1, Step::Give(0), Out::Refused),
        (1, Step::In(0, 1), Out::Refused),
        (1, Step::In(0, 0), Out::Done),
        (1, Step::Give(0), Out::Done),
        (0, Step::Take(0), number(0)),
        (0, Step::Split, number(3)),
        (3, Step::Join(0), Out::Refused),
        (0, Step::Give(0), Out::Done),
        (3, Step::Join(0), Out::Done),
    ];
    assert!(rt; first_wrong(alloc, &mut core, &rows)?.is_none());
    Ok(())
}

#[test]
fn pins_of_others_stay(rt: HostRuntime) -> Result<(), Fail> {
    let alloc = rt.alloc();
    let mut core = Core::new(alloc, 4, 0, &[Role::Session, Role::Session])?;
    let seven = Some((7, 0));
    let eight = Some((8, 0));
    let rows = [
        (0, Step::Take(0), number(0)),
        (0, Step::Out(0), Out::Done),
        (0, Step::Pins(Some((7, 1)), None), Out::Refused),
        (0, Step::Pins(seven, seven), Out::Refused),
        (0, Step::Pins(seven, None), Out::Done),
        (0, Step::Out(0), Out::Done),
        (0, Step::Pins(Some((7, 1)), None), Out::Refused),
        (0, Step::Pins(None, None), Out::Done),
        (0, Step::Out(0), Out::Done),
        (0, Step::Pins(seven, None), Out::Done),
        (0, Step::Give(0), Out::Done),
        (1, Step::Take(0), number(0)),
        (1, Step::Out(0), Out::Done),
        (1, Step::Pins(None, None), Out::Refused),
        (1, Step::Pins(eight, None), Out::Refused),
        (1, Step::Pins(eight, seven), Out::Done),
        (1, Step::Give(0), Out::Done),
        (1, Step::Join(0), Out::Done),
        (1, Step::Take(0), number(0)),
        (1, Step::Out(0), Out::Done),
        (1, Step::Pins(None, None), Out::Done),
    ];
    assert!(rt; first_wrong(alloc, &mut core, &rows)?.is_none());
    Ok(())
}
