// What a party may do, and what it is answered.
use crate::edges::EdgeSeq;
use crate::part::PartState;

/// What a party is there for. A party that is split off is a session.
#[derive(Clone, Copy, Debug, PartialEq, Eq)]
pub enum Role {
    /// It puts entries and reads the log.
    Session,
    /// It takes the entries in order and moves the archived front.
    Archiver,
    /// It takes the entries in order and moves the durable front.
    Flusher,
}

/// One step of a party.
#[derive(Debug, Drop)]
pub enum Act {
    /// Takes the next positions of the log for these edges.
    Claim { edges: EdgeSeq },
    /// Reads the length of the log.
    LoadHead,
    /// Reads the archived front.
    LoadArchived,
    /// Reads the durable front.
    LoadDurable,
    /// Writes the word of a pending entry into its slot.
    StoreWord { at: u64 },
    /// Reads a word in its turn, as a worker does.
    LoadOrdered { at: u64 },
    /// Reads a word ahead of its turn, for a copy of what is newest.
    LoadTentative { at: u64 },
    /// Moves the archived front.
    StoreArchived { front: u64 },
    /// Moves the durable front.
    StoreDurable { front: u64 },
    /// Takes the turn of a part, 0 for the shard and 1 for the file, where nobody has it.
    TakeTurn { part: u32 },
    /// Takes a part out of its home, by its turn.
    PartOut { part: u32 },
    /// Puts a part into its home again, as it is now.
    PartIn { part: u32, state: PartState },
    /// Gives the turn of a part back.
    GiveTurn { part: u32 },
    /// Reads the flag.
    LoadFlag,
    /// Raises the flag: 1 is for the disk, 2 for want of memory.
    StoreFlag { why: u64 },
    /// Splits off a new party.
    Split,
    /// Joins another party into this one.
    Join { other: u32 },
}

/// A step and the party that does it.
#[derive(Debug, Drop)]
pub struct Event {
    /// The number of the party.
    pub party: u32,
    /// What it does.
    pub act: Act,
}

/// The answer to a step.
#[derive(Clone, Copy, Debug, PartialEq, Eq)]
pub enum Out {
    /// A shared number, or the number of a new party.
    Number { value: u64 },
    /// The word of a slot.
    Word { word: u64 },
    /// The step was done.
    Done,
    /// The step may not be done now, and nothing changed.
    Refused,
}
