// Pseudo-random events of five parties and of those that are split off, over many laps, whose answers are compared with plain notes.
use crate::random_parts::Shelf;
use crate::tests::{add, event};
use crate::{Act, Core, EdgeSeq, Out, Role};
use go_word::{Edge, decode, matched};
use std::alloc::{AllocError, Global};
use std::test::Fail;

// The slots of the ring.
const SLOTS: u64 = 16;

// What plain code notes of the answers.
#[derive(Drop)]
struct Notes {
    // What was claimed, in order.
    log: Vec<Edge>,
    // Words that were read ahead and are not yet judged.
    ahead: Vec<(u64, u64)>,
    // How far the two workers took the log.
    taken: (u64, u64),
    // The two parts as they were put in.
    parts: Shelf,
    // How far the two fronts were stored.
    fronts: (u64, u64),
    // How many words read ahead were judged.
    judged: u64,
    // The flag.
    flag: u64,
    // How many parties there are.
    parties: u32,
    // How many of them were joined in.
    joined: u32,
}

impl Notes {
    // The length of the log.
    fn len(&self) -> u64 {
        self.log.len() as u64
    }

    // The lesser front.
    fn released(&self) -> u64 {
        self.fronts.0.min(self.fronts.1)
    }

    // The first position that a worker has still to take.
    fn wanted(&self) -> u64 {
        self.taken.0.min(self.taken.1)
    }

    // What the party of this number took.
    fn taken(&self, party: u32) -> u64 {
        match party {
            2 => self.taken.0,
            3 => self.taken.1,
            _ => 0,
        }
    }

    // A worker took a position.
    fn take(&mut self, party: u32, at: u64) {
        let to = at.saturating_add(1);
        if party == 2 {
            self.taken.0 = self.taken.0.max(to);
        } else {
            self.taken.1 = self.taken.1.max(to);
        }
    }

    // A front was read: it judges the words that were read ahead at or above it.
    fn judge(&mut self, front: u64) -> bool {
        let (right, count) = judged(&self.log, &self.ahead, front);
        self.judged = self.judged.saturating_add(count);
        self.ahead.clear();
        right
    }
}

// Whether a word is unmatched, or the log's entry at its position.
fn is_of(log: &[Edge], at: u64, word: u64) -> bool {
    !matched(word, at, SLOTS) || log.get(at as usize).copied() == Some(decode(word))
}

// Whether the words that were read ahead at or above a front are the log's, and how many they are.
fn judged(log: &[Edge], ahead: &[(u64, u64)], front: u64) -> (bool, u64) {
    let mut right = true;
    let mut count = 0u64;
    for (at, word) in ahead {
        if front <= *at {
            right = right && is_of(log, *at, *word);
            count = count.saturating_add(1);
        }
    }
    (right, count)
}

// The next of a row of numbers that look random.
fn next(seed: u64) -> u64 {
    seed.wrapping_mul(6364136223846793005)
        .wrapping_add(1442695040888963407)
}

// Puts a part in, as far as the party may bring it.
fn put(
    alloc: Global,
    number: u64,
    notes: &Notes,
    party: u32,
    part: u32,
) -> Result<Act, AllocError> {
    let taken = if part == 0 && party != 2 {
        0
    } else {
        notes.taken(party)
    };
    let state = notes
        .parts
        .state(alloc, number, part, taken, notes.fronts.0)?;
    Ok(Act::PartIn { part, state })
}

// A step on the parts, by a number.
fn any_turn(alloc: Global, number: u64, notes: &Notes, party: u32) -> Result<Act, AllocError> {
    let part = ((number >> 8) % 2) as u32;
    Ok(match number % 4 {
        0 => Act::TakeTurn { part },
        1 => Act::PartOut { part },
        2 => put(alloc, number >> 12, notes, party, part)?,
        _ => Act::GiveTurn { part },
    })
}

// A party to be joined, by a number: one that was split off, or now and then a worker, whose seat isn't given away. The sessions of the
// beginning go on.
fn any_other(number: u64) -> u32 {
    let other = (number % 40) as u32;
    if other < 5 { 2 + other % 2 } else { other }
}

// A step that splits a party, joins one, or reads or raises the flag, by a number.
fn any_share(number: u64, notes: &Notes) -> Act {
    match number % 4 {
        0 if notes.parties < 40 => Act::Split,
        1 => Act::Join {
            other: any_other(number >> 8),
        },
        2 if (number >> 8) % 64 == 0 => Act::StoreFlag {
            why: (number >> 16) % 3,
        },
        _ => Act::LoadFlag,
    }
}

// One of the first eight parties mostly, else any.
fn any_party(number: u64, notes: &Notes) -> u32 {
    let most = if number % 8 == 0 {
        u64::from(notes.parties)
    } else {
        u64::from(notes.parties.min(8))
    };
    ((number >> 3) % most.max(1)) as u32
}

// One of the acts, by a number.
fn any_act(alloc: Global, number: u64, notes: &Notes, party: u32) -> Result<Act, AllocError> {
    let at = notes.released().saturating_add((number >> 16) % 24);
    let src = ((number >> 24) % 100) as u32;
    Ok(match number % 27 {
        0 | 1 if notes.len() <= at && party < 8 => Act::Claim {
            edges: EdgeSeq::of(alloc, &[add(src, 1), add(1, src)])?,
        },
        2 => Act::LoadHead,
        3 => Act::LoadArchived,
        4 => Act::LoadDurable,
        5 => Act::LoadTentative { at },
        6 | 7 => Act::LoadOrdered {
            at: notes.taken(party),
        },
        8 | 9 => any_share(number >> 4, notes),
        18..27 if party < 8 => any_turn(alloc, number >> 4, notes, party)?,
        10 => Act::StoreArchived {
            front: notes.taken(party),
        },
        11 => Act::StoreDurable {
            front: notes.taken(party),
        },
        _ => Act::StoreWord {
            at: notes.wanted().saturating_add((number >> 16) % 4),
        },
    })
}

// Notes an answer, and tells whether it is right.
fn note(
    alloc: Global,
    notes: &mut Notes,
    party: u32,
    act: &Act,
    out: Out,
) -> Result<bool, AllocError> {
    match out {
        Out::Number { value } => note_number(notes, act, value),
        Out::Word { word } => note_word(notes, party, act, word),
        Out::Done => note_done(alloc, notes, party, act),
        Out::Refused => Ok(true),
    }
}

// Notes a number that was read.
fn note_number(notes: &mut Notes, act: &Act, value: u64) -> Result<bool, AllocError> {
    Ok(match act {
        Act::Claim { edges } => {
            let right = value == notes.len();
            notes.log.extend_from_slice(edges.as_slice())?;
            right
        }
        Act::LoadHead => value == notes.len(),
        Act::LoadArchived => value == notes.fronts.0 && notes.judge(value),
        Act::LoadDurable => value == notes.fronts.1 && notes.judge(value),
        Act::LoadFlag => value == notes.flag,
        Act::Split => {
            let right = value == u64::from(notes.parties);
            notes.parties = notes.parties.saturating_add(1);
            right
        }
        _ => true,
    })
}

// Notes a word that was read.
fn note_word(notes: &mut Notes, party: u32, act: &Act, word: u64) -> Result<bool, AllocError> {
    match act {
        Act::LoadOrdered { at } => {
            if matched(word, *at, SLOTS) {
                notes.take(party, *at);
            }
            Ok(is_of(&notes.log, *at, word))
        }
        Act::LoadTentative { at } => {
            notes.ahead.push((*at, word))?;
            Ok(true)
        }
        _ => Ok(false),
    }
}

// Notes what was done: a front goes onward, and never past what its part has.
fn note_done(alloc: Global, notes: &mut Notes, party: u32, act: &Act) -> Result<bool, AllocError> {
    Ok(match act {
        Act::StoreArchived { front } => {
            let right = notes.fronts.0 <= *front && *front <= notes.parts.shard;
            notes.fronts.0 = *front;
            right
        }
        Act::StoreDurable { front } => {
            let right = notes.fronts.1 <= *front && *front <= notes.parts.file;
            notes.fronts.1 = *front;
            right
        }
        Act::PartIn { part, state } => {
            notes.parts.put(alloc, party, *part, state, notes.fronts.0)?
        }
        Act::StoreFlag { why } => {
            notes.flag = *why;
            1 <= *why && *why <= 2
        }
        Act::Join { other } => {
            notes.parts.join(party, *other);
            notes.joined = notes.joined.saturating_add(1);
            *other != 2 && *other != 3
        }
        _ => true,
    })
}

#[test]
fn events_of_many_parties_stay_tied_to_the_log(rt: HostRuntime) -> Result<(), Fail> {
    let alloc = rt.alloc();
    let roles = [
        Role::Session,
        Role::Session,
        Role::Archiver,
        Role::Flusher,
        Role::Session,
    ];
    let mut core = Core::new(alloc, SLOTS, 0, &roles)?;
    let mut notes = Notes {
        log: Vec::new(alloc),
        ahead: Vec::new(alloc),
        taken: (0, 0),
        parts: Shelf::new(alloc),
        fronts: (0, 0),
        judged: 0,
        flag: 0,
        parties: 5,
        joined: 0,
    };
    let mut seed = 7;
    for number in 0..120000 {
        seed = next(seed);
        let party = any_party(seed >> 12, &notes);
        let step = event(party, any_act(alloc, seed >> 20, &notes, party)?);
        let out = core.step(&step)?;
        assert!(rt;
            note(alloc, &mut notes, party, &step.act, out)?,
            "event {number}"
        );
    }
    let released = notes.released();
    assert!(rt; 4 * SLOTS < released, "some laps: {released}");
    assert!(rt; 0 < notes.judged, "some words were read ahead");
    assert!(rt;
        0 < notes.parts.pinned && 0 < notes.joined,
        "some pins and joins"
    );
    Ok(())
}
