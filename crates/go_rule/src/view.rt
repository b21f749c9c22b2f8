// What a seat of the ring knows. No value of these types is made.
use go_core::View;
use go_word::{Edge, Pin};
use std::collections::LinkedList;

/// The numbers of the ring, as each seat knows them.
pub struct About {
    /// How many shards there are.
    pub shards: u64,
    /// The first position.
    pub first: u64,
    /// How many vertices there are.
    pub vertices: u64,
    /// The moment of the file's disk as the ring was made.
    pub clock: u64,
    /// The count of its faults as the ring was made.
    pub faults: u64,
    /// Whether it told then what it held.
    pub tells: bool,
}

/// What a seat was told of the log beyond its numbers.
pub struct Told {
    /// The entries from the log's beginning that it has seen.
    pub seen: LinkedList<Edge>,
    /// The beginnings of the log that other seats had seen which were joined in.
    pub heard: LinkedList<LinkedList<Edge>>,
    /// What was released as a word was read ahead last.
    pub passed: u64,
    /// Whether it saw the flag raised.
    pub flagged: bool,
}

/// A seat's shares in what all seats may use.
pub struct Share {
    /// How many entries it may still claim.
    pub quota: u64,
    /// Its part of 2^32.
    pub lot: u64,
}

/// A part that a seat has in its hand, as it was taken.
pub struct Note<T> {
    /// The part's place.
    pub place: u64,
    /// The part.
    pub part: T,
}

/// A pin that a seat has in a shard.
pub struct PlacedPin {
    /// The shard's place.
    pub place: u64,
    /// The pin.
    pub pin: Pin,
}

/// A front at which a seat knows a part to have stood.
pub struct Stand {
    /// The part's place.
    pub place: u64,
    /// The front.
    pub front: u64,
}

/// What a seat knows and holds of the parts.
pub struct Stake<T> {
    /// The parts in its hand.
    pub notes: LinkedList<Note<T>>,
    /// Its pins.
    pub pins: LinkedList<PlacedPin>,
    /// Where it knows parts to have stood.
    pub stood: LinkedList<Stand>,
}

/// What a seat knows.
pub struct SeatView<T> {
    /// The numbers of its ring.
    pub about: About,
    /// What it knows of the log, owes and owns.
    pub core: View,
    /// What it was told of the log beyond that.
    pub told: Told,
    /// Its shares.
    pub share: Share,
    /// What it knows and holds of the parts.
    pub stake: Stake<T>,
}
