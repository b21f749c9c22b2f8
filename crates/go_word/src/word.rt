// Words of 64 bits: the layout, and both ways between it and an entry.
ghost use Rattle.std.specs.Prelude.{◌≡◌, ℕ, ◌+◌, ◌<◌, ◌≤◌, ◌==◌, true, false, IfSome, SomeIff};
ghost use Rattle.go_word.specs.Log.{IsWithin};
ghost use Rattle.go_word.specs.Word.{
  IsStorable,
  IsPlain,
  rotation,
  rotation_of,
  decode,
  plain_word,
  word,
  is_matched,
  blank_word,
};

use crate::edge::Edge;

/// The ids that a word can hold are below this.
pub const ID_LIMIT: u64 = 1 << 31;

// The layout of a word: where each part of it begins, the lowest first. The rotation and the
// deletion have one bit each, an id has those below `ID_LIMIT`.
const DESTINATION: u64 = 1;

const SOURCE: u64 = 1 << 31;

const ROTATION: u64 = 1 << 62;

const DELETION: u64 = 1 << 63;

/// Gives the word of an entry at the position `p` of a ring of `n` slots.
///
/// The word tells its lap from the one before and the one after it, which use the same slot.
pub fn encode(e: Edge, p: u64, n: u64) -> u64
    requires storable { IsStorable e }
    requires slots { 0 < n }

    ensures exact { result ≡ word n p e }
    ensures read_back { decode result ≡ e }
    ensures of_this_lap { is_matched n p result ≡ true }
    ensures not_of_the_next { is_matched n (p + n) result ≡ false }
{
    plain(e) + rotation_at(p, n) * ROTATION
}

/// Gives the entry that a word holds, whatever its rotation.
#[tactic(auto, unfolding(crate::specs::Word::decode))]
pub fn decode(w: u64) -> Edge
    ensures { result ≡ decode w }
{
    Edge {
        del: w / DELETION % 2 == 1,
        src: (w / SOURCE % ID_LIMIT) as u32,
        dst: (w / DESTINATION % ID_LIMIT) as u32,
    }
}

/// Whether a word is of the lap of the position `p`, in a ring of `n` slots.
///
/// Laps that are an even number apart look the same, and those beside each other don't.
#[tactic(auto, unfolding(crate::specs::Word::is_matched))]
pub fn matched(w: u64, p: u64, n: u64) -> bool
    requires { 0 < n }
    ensures { result ≡ is_matched n p w }
{
    rotation_in(w) == rotation_at(p, n)
}

/// Gives what a slot of a ring of `n` slots holds until the word of the position `p` comes.
pub fn blank(p: u64, n: u64) -> u64
    requires { 0 < n }
    ensures exact { result ≡ blank_word n p }
    ensures unmatched { is_matched n p result ≡ false }
{
    (1 - rotation_at(p, n)) * ROTATION
}

/// Gives the word of an entry in a file.
pub fn plain(e: Edge) -> u64
    requires { IsStorable e }
    ensures exact { result ≡ plain_word e }
    ensures read_back { decode result ≡ e }
    ensures plain { (v : ℕ) → IsWithin v e → IsPlain v result }
{
    let deletion = if e.del { DELETION } else { 0 };
    deletion + u64::from(e.src) * SOURCE + u64::from(e.dst) * DESTINATION
}

/// Reads a word of a file over `v` vertices; None where it is no such word.
pub fn read_plain(w: u64, v: u32) -> Option<Edge>
    ensures exact { SomeIff result (IsPlain v w) (decode w) }
    ensures storable { IfSome result IsStorable }
    ensures written_back { IfSome result (λ e. plain_word e ≡ w) }
{
    let edge = decode(w);
    if rotation_in(w) == 0 && edge.src < v && edge.dst < v {
        Some(edge)
    } else {
        None
    }
}

// The rotation bit of a position.
#[tactic(auto, unfolding(crate::specs::Word::rotation))]
fn rotation_at(p: u64, n: u64) -> u64
    requires { 0 < n }
    ensures exact { result ≡ rotation n p }
    ensures bit { result ≤ 1 }
{
    1 - p / n % 2
}

/// Whether the rotation bit of a word is set, which it is in no word of a file.
pub fn is_rotated(w: u64) -> bool
    ensures { result ≡ (rotation_of w == 1) }
{
    rotation_in(w) == 1
}

// The rotation bit of a word.
#[tactic(auto, unfolding(crate::specs::Word::rotation_of))]
fn rotation_in(w: u64) -> u64
    ensures { result ≡ rotation_of w }
{
    w / ROTATION % 2
}
