// What each step on the table tells its seat, and what a call picks for it.
ghost use Rattle.go_rule.specs.Views.{sharing, shared, joining_seat, spent_view};
ghost use Rattle.go_rule.specs.Steps.{LoadsHead, LoadsArchived, LoadsDurable, LoadsEnding, LoadsAhead, LoadsOrdered, LoadsFlag};
ghost use Rattle.go_rule.specs.Steps.{Claims, Stores, StoresArchived, StoresDurable, StoresFlag, Abandons};
ghost use Rattle.go_rule.specs.Meaning.{meaning};
ghost use Rattle.go_rule.specs.Turns.{TakesTurn, GivesTurn};

use crate::view::SeatView;
use atomic_table::{Join, Play, Split};
use go_core::Part;
use std::marker::{Brand, PhantomData};

/// The entries that a claim is for.
pub trait Edges {
    ghost use Rattle.std.specs.Prelude.{List};
    ghost use Rattle.go_word.specs.declared.edge.Edge.{Edge};

    ghost edges: { List Edge };
}

impl Edges for Brand {
    ghost use Rattle.std.specs.Prelude.{[]};

    ghost edges = { [] };
}

/// The entry whose word is stored.
pub trait Stored {
    ghost use Rattle.go_core.specs.declared.entry.Entry.{Entry};

    ghost entry: { Entry };
}

impl Stored for Brand {
    ghost use Rattle.std.specs.Prelude.{false};

    ghost entry = { record { at = 0; edge = record { del = false; src = 0; dst = 0 } } };
}

/// The position whose word is read.
pub trait Place {
    ghost use Rattle.std.specs.Prelude.{ℕ};

    ghost at: { ℕ };

    ghost slots: { ℕ };
}

impl Place for Brand {
    ghost at = { 0 };

    ghost slots = { 0 };
}

/// How the words of the ring are laid out that is read.
pub trait Framed {
    ghost use Rattle.go_core.specs.Frame.{Frame};

    ghost frame: { Frame };
}

impl Framed for Brand {
    ghost frame = { record { slots = 0; base = 0; first = 0 } };
}

/// The end of a copy, and how the words of its ring are laid out.
pub trait Ends {
    ghost use Rattle.std.specs.Prelude.{ℕ};
    ghost use Rattle.go_core.specs.Frame.{Frame};

    ghost frame: { Frame };

    ghost end: { ℕ };
}

impl Ends for Brand {
    ghost frame = { record { slots = 0; base = 0; first = 0 } };

    ghost end = { 0 };
}

/// A load of the log's length.
pub struct Head<E> {
    of: PhantomData<E>,
}

impl<T, E: Framed> Play<Option<T>, SeatView<T>> for Head<E> {
    ghost then = { LoadsHead E.frame };
}

/// A load of the archived front.
pub struct Archived<E> {
    of: PhantomData<E>,
}

impl<T: Part, E: Framed> Play<Option<T>, SeatView<T>> for Archived<E> {
    ghost then = { LoadsArchived T.state_of E.frame };
}

/// A load of the durable front.
pub struct Durable<E> {
    of: PhantomData<E>,
}

impl<T, E: Framed> Play<Option<T>, SeatView<T>> for Durable<E> {
    ghost then = { LoadsDurable E.frame };
}

/// A load of the durable front at the end of a copy.
pub struct Ending<E> {
    of: PhantomData<E>,
}

impl<T, E: Ends> Play<Option<T>, SeatView<T>> for Ending<E> {
    ghost then = { LoadsEnding E.frame E.end };
}

/// A claim.
pub struct Claim<E> {
    of: PhantomData<E>,
}

impl<T, E: Edges> Play<Option<T>, SeatView<T>> for Claim<E> {
    ghost then = { Claims E.edges };
}

/// A store of a word.
pub struct Store<E> {
    of: PhantomData<E>,
}

impl<T, E: Stored> Play<Option<T>, SeatView<T>> for Store<E> {
    ghost then = { Stores E.entry };
}

/// A load of a word ahead of its turn.
pub struct Ahead<E> {
    of: PhantomData<E>,
}

impl<T, E: Place> Play<Option<T>, SeatView<T>> for Ahead<E> {
    ghost then = { LoadsAhead E.slots E.at };
}

/// What a split gives the new seat.
pub trait Shares {
    ghost use Rattle.std.specs.Prelude.{ℕ};

    ghost quota: { ℕ };

    ghost lot: { ℕ };
}

impl Shares for Brand {
    ghost quota = { 0 };

    ghost lot = { 0 };
}

/// A split.
pub struct Cut<E> {
    of: PhantomData<E>,
}

impl<T, E: Shares> Split<SeatView<T>> for Cut<E> {
    ghost left = { sharing E.quota E.lot };

    ghost right = { shared E.quota E.lot };
}

/// A join.
pub struct Tie;

impl<T> Join<SeatView<T>> for Tie {
    ghost both = { joining_seat };

    ghost spent = { spent_view };
}

/// A load of a word in its turn.
pub struct Ordered<E> {
    of: PhantomData<E>,
}

impl<T, E: Place> Play<Option<T>, SeatView<T>> for Ordered<E> {
    ghost then = { LoadsOrdered E.slots E.at };
}

/// A store of the archived front.
pub struct Archive;

impl<T> Play<Option<T>, SeatView<T>> for Archive {
    ghost then = { StoresArchived };
}

/// A store of the durable front.
pub struct Flush;

impl<T> Play<Option<T>, SeatView<T>> for Flush {
    ghost then = { StoresDurable };
}

/// A load of the flag.
pub struct Flag;

impl<T> Play<Option<T>, SeatView<T>> for Flag {
    ghost then = { LoadsFlag };
}

/// A store of the flag.
pub struct Raise;

impl<T> Play<Option<T>, SeatView<T>> for Raise {
    ghost then = { StoresFlag };
}

/// A load of the flag by which an entry is given up.
pub struct Abandon<E> {
    of: PhantomData<E>,
}

impl<T, E: Stored> Play<Option<T>, SeatView<T>> for Abandon<E> {
    ghost then = { Abandons E.entry };
}

/// The place whose turn is taken or given back, and how the words of its ring are laid out.
pub trait Turn {
    ghost use Rattle.std.specs.Prelude.{ℕ};
    ghost use Rattle.go_core.specs.Frame.{Frame};

    ghost frame: { Frame };

    ghost place: { ℕ };
}

impl Turn for Brand {
    ghost frame = { record { slots = 0; base = 0; first = 0 } };

    ghost place = { 0 };
}

/// A swap by which a turn is taken, with its part.
pub struct Take<E> {
    of: PhantomData<E>,
}

impl<T: Part, E: Turn> Play<Option<T>, SeatView<T>> for Take<E> {
    ghost then = { TakesTurn (meaning T.Part) E.frame E.place };
}

/// A store by which a turn is given back, with its part.
pub struct Give<E> {
    of: PhantomData<E>,
}

impl<T: Part, E: Turn> Play<Option<T>, SeatView<T>> for Give<E> {
    ghost then = { GivesTurn (meaning T.Part) E.place };
}
