// Whether a party may do an act.
ghost use Rattle.std.specs.Prelude.{◌≡◌, ◌↔◌, ◌<◌, ◌≤◌, IsTrue, length, All, slice_index_or, true};
ghost use Rattle.go_word.specs.Word.{IsStorable};
ghost use Rattle.go_core.specs.Acts.{CanClaim, CanTake, CanReadAhead, CanArchive, CanFlush, HasStood, CanTakeTurn};
ghost use Rattle.go_core.specs.Acts.{HasAtHome, HasOut, IsLawful, IsCause, CanJoin, IsSession, HasNoTurn};
ghost use Rattle.go_core.specs.Fronts.{CanMove};
ghost use Rattle.go_core.specs.Machine.{absent};

use crate::home::Parts;
use crate::part::PartState;
use crate::party::Party;
use crate::stake::Stake;
use crate::successor;
use crate::view::View;
use crate::words::{ARCHIVED, DURABLE, HEAD};
use go_word::{Edge, ID_LIMIT};

// The most positions that a log has.
const POSITIONS: u64 = 1 << 48;

// The most edges of one claim.
const CLAIMED: usize = 64;

// Whether there is a party of this number that takes part.
pub(crate) fn is_live(parties: &[Party], i: usize) -> bool
    ensures there { IsTrue result → i < length parties.now }
    ensures live { IsTrue result ↔ ((slice_index_or parties.now i absent).view.live ≡ true) }
{
    i < parties.len() && parties[i].view.live
}

// Whether a word can hold the edge.
fn is_storable(edge: &Edge) -> bool
    ensures { IsTrue result ↔ IsStorable edge.now }
{
    u64::from(edge.src) < ID_LIMIT && u64::from(edge.dst) < ID_LIMIT
}

// Whether words can hold all of the edges.
fn are_storable(edges: &[Edge]) -> bool
    ensures { IsTrue result ↔ All IsStorable edges.now }
{
    for edge in edges {
        if !is_storable(edge) {
            return false;
        }
    }
    true
}

// Whether the edges may be claimed.
pub(crate) fn can_claim(words: &[u64], edges: &[Edge]) -> bool
    requires { 4 ≤ length words.now }
    ensures { IsTrue result ↔ CanClaim words.now edges.now }
{
    let count = edges.len();
    1 <= count
        && count <= CLAIMED
        && words[HEAD] <= POSITIONS
        && words[HEAD] + count as u64 <= POSITIONS
        && are_storable(edges)
}

// Whether a worker may read the word of a position.
pub(crate) fn can_take(words: &[u64], view: &View, at: u64) -> bool
    requires { 4 ≤ length words.now }
    ensures { IsTrue result ↔ CanTake words.now view.now at }
{
    let archives = view.archives && words[ARCHIVED] <= at;
    let flushes = view.flushes && words[DURABLE] <= at;
    (archives || flushes) && at <= view.taken
}

// Whether the archived front may be moved.
fn can_archive(words: &[u64], view: &View, front: u64) -> bool
    requires { 4 ≤ length words.now }
    ensures { IsTrue result ↔ CanArchive words.now view.now front }
{
    view.archives && words[ARCHIVED] <= front && front <= view.taken
}

// Whether the durable front may be moved.
fn can_flush(words: &[u64], view: &View, front: u64) -> bool
    requires { 4 ≤ length words.now }
    ensures { IsTrue result ↔ CanFlush words.now view.now front }
{
    view.flushes && words[DURABLE] <= front && front <= view.taken
}

// Whether a front may be moved.
pub(crate) fn can_move(shard: bool, words: &[u64], view: &View, front: u64) -> bool
    requires { 4 ≤ length words.now }
    ensures { IsTrue result ↔ CanMove shard words.now view.now front }
{
    if shard {
        can_archive(words, view, front)
    } else {
        can_flush(words, view, front)
    }
}

// Whether a part is known to have stood at a front or above it.
pub(crate) fn has_stood(shard: bool, stake: &Stake, front: u64) -> bool
    ensures { IsTrue result ↔ HasStood shard stake.now front }
{
    front <= stake.hold(shard).front
}

// Whether a party may read the word of a position ahead of its turn.
pub(crate) fn can_read_ahead(slots: u64, view: &View, at: u64) -> bool
    ensures { IsTrue result ↔ CanReadAhead slots view.now at }
{
    let front = view.archived.min(view.durable);
    front <= at && at - front < slots && at < view.head
}

// Whether the turn of a part may be asked for.
pub(crate) fn can_take_turn(parts: &Parts, stake: &Stake, part: u32) -> bool
    ensures { IsTrue result ↔ CanTakeTurn parts.now stake.now part }
{
    let shard = part == 0;
    part < 2 && !(stake.hold(shard).turn && parts.home(shard).out)
}

// Whether a party has the turn of a part that is at home.
pub(crate) fn has_at_home(parts: &Parts, stake: &Stake, part: u32) -> bool
    ensures { IsTrue result ↔ HasAtHome parts.now stake.now part }
{
    let shard = part == 0;
    part < 2 && stake.hold(shard).turn && !parts.home(shard).out
}

// Whether a part may be given back as another.
pub(crate) fn is_lawful(shard: bool, party: &Party, old: &PartState, new: &PartState) -> bool
    ensures { IsTrue result ↔ IsLawful shard party.now.view party.now.stake old.now new.now }
{
    if shard {
        successor::is_successor(&party.view, &party.stake, old, new)
    } else {
        successor::is_file_successor(&party.view, old, new)
    }
}

// Whether a party has taken a part out.
pub(crate) fn has_out(parts: &Parts, stake: &Stake, part: u32) -> bool
    ensures { IsTrue result ↔ HasOut parts.now stake.now part }
{
    let shard = part == 0;
    part < 2 && stake.hold(shard).turn && parts.home(shard).out
}

// Whether the flag may be raised for this.
pub(crate) fn is_cause(why: u64) -> bool
    ensures { IsTrue result ↔ IsCause why }
{
    why == 1 || why == 2
}

// Whether a party takes part and owes no word.
pub(crate) fn can_join(view: &View) -> bool
    ensures { IsTrue result ↔ CanJoin view.now }
{
    view.live && view.pending.is_empty()
}

// Whether it moves no front.
pub(crate) fn is_session(view: &View) -> bool
    ensures { IsTrue result ↔ IsSession view.now }
{
    !view.archives && !view.flushes
}

// Whether it has no turn.
pub(crate) fn has_no_turn(stake: &Stake) -> bool
    ensures { IsTrue result ↔ HasNoTurn stake.now }
{
    !stake.shard.turn && !stake.file.turn
}
