// The rule on the table, the ring that lies over it, and its seats.
ghost use Rattle.std.specs.Prelude.{◌≡◌, ◌+◌, ◌%◌, ◌^◌, ◌<◌, ◌≤◌, [], IfOk, IfErr};
ghost use Rattle.std.specs.Vec.{vec_capacity};

use crate::layout::Key;
use crate::view::SeatView;
use atomic_table::{Table, TableRule};
use go_core::Part;
use std::alloc::Global;
use std::marker::PhantomData;

/// The rule that ties the words of a ring, its parts and what its seats know to one log.
#[derive(Drop)]
pub struct GoRule<T> {
    part: PhantomData<T>,
}

impl<T: Part> TableRule<Option<T>, SeatView<T>, Key<T>> for GoRule<T> {
    ghost use Rattle.go_rule.specs.Meaning.{meaning};
    ghost use Rattle.go_rule.specs.Rule.{IsRuled};
    ghost use Rattle.go_rule.specs.Views.{first_view};

    ghost holds = { IsRuled (meaning T.Part) };

    ghost first = { λ key. first_view (T.mark_of key.file.value) key };
}

/// The words and the parts that the threads share.
pub type Shared<T> = atomic_table::Shared<Option<T>, SeatView<T>, Key<T>, GoRule<T>>;

/// What one thread steps with.
pub type Seat<T> = atomic_table::Seat<Option<T>, SeatView<T>>;

/// A ring: its table, its sizes, and the room into which its parts are put at its end.
#[derive(Drop)]
pub struct Ring<T: Part> {
    /// The words and the parts, under the rule.
    pub table: Table<Option<T>, SeatView<T>, Key<T>, GoRule<T>, Global>,
    /// How many slots there are.
    pub slots: u64,
    /// How many shards there are.
    pub shards: u64,
    /// A vector with room for all parts.
    pub spare: Vec<T>,
    ghost some: { 0 < slots },
    ghost small: { 5 + shards + slots < 2 ^ 63 },
    ghost slots_is: { slots ≡ table.shared.key.layout.ring },
    ghost shards_is: { shards ≡ table.shared.key.layout.shards },
    ghost words_is: { table.shared.table_id.words ≡ 5 + shards + slots },
    ghost parts_is: { table.shared.table_id.slots ≡ 1 + shards },
    ghost room: { shards < vec_capacity spare },
    ghost empty: { spare.items ≡ [] },
}

/// A new ring, and its first seat.
#[derive(Drop)]
pub struct Opened<T: Part> {
    /// The ring.
    pub ring: Ring<T>,
    /// The seat that moves both fronts and has the whole quota and lot.
    pub seat: Seat<T>,
}

/// There was no memory for a ring: what was handed in comes back.
#[derive(Drop)]
pub struct Unopened<T> {
    /// The parts, each in its slot.
    pub slots: Vec<Option<T>>,
    /// The room for them.
    pub spare: Vec<T>,
}

impl<T: Part> Ring<T> {
    ghost use Rattle.go_core.specs.Frame.{place as place_in};
    ghost use Rattle.go_core.specs.Opening.{AreOpening};
    ghost use Rattle.go_rule.specs.Meaning.{meaning};
    ghost use Rattle.go_rule.specs.Views.{frame_of, first_view};
    ghost use Rattle.go_rule.specs.Opening.{CanOpen};

    /// The index of a position's word.
    pub fn place(&self, at: u64) -> usize
        ensures is { result ≡ place_in (frame_of self.now.table.shared.key) at }
        ensures within { result < self.now.table.shared.table_id.words }
    {
        (5 + self.shards + at % self.slots) as usize
    }

    /// Opens a ring over its words and its parts, with room for these at its end, which are handed back where memory is wanting.
    pub fn open(
        alloc: Global,
        key: &Key<T>,
        words: &[u64],
        slots: Vec<Option<T>>,
        spare: Vec<T>,
    ) -> Result<Opened<T>, Unopened<T>>
        requires sizes { (0 < key.now.layout.ring) × (5 + key.now.layout.shards + key.now.layout.ring < 2 ^ 63) }
        requires words { AreOpening (frame_of key.now) words.now }
        requires parts { CanOpen (meaning T.Part) key.now slots.items }
        requires room { (spare.items ≡ []) × (key.now.layout.shards < vec_capacity spare) }
        ensures ok { IfOk result (λ o. (o.ring.table.shared.key ≡ key.now) × (o.seat.table_id ≡ o.ring.table.shared.table_id)) }
        ensures seat { IfOk result (λ o. o.seat.me ≡ (first_view (T.mark_of key.now.file.value) key.now, [])) }
        ensures err { IfErr result (λ refused. (refused.slots.items ≡ slots.items) × (refused.spare.items ≡ [])
            × (vec_capacity refused.spare ≡ vec_capacity spare)) }
    {
        match Table::new(alloc, words, slots, key) {
            Ok((table, seat)) => Ok(Opened {
                ring: Ring {
                    table,
                    slots: key.layout.ring,
                    shards: u64::from(key.layout.shards),
                    spare,
                },
                seat,
            }),
            Err(refused) => Err(Unopened {
                slots: refused.slots,
                spare,
            }),
        }
    }
}
