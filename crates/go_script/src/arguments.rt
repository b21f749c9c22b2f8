// The arguments of commands, read from words.
ghost use Rattle.std.specs.Prelude.{◌≡◌, ◌<◌, ◌≤◌, IfOk};
ghost use Rattle.go_api.specs.declared.place.TheConstants.{PLACES};
ghost use Rattle.go_api.specs.declared.limits.TheConstants.{LOG_ENTRIES};
ghost use Rattle.go_text.specs.Texts.{texts};
ghost use Rattle.go_script.specs.Grammar.{place_in, count_in, ends_of, place_of, vertex_of, pair_of, share_of, entries_of};

use go_api::{LOG_ENTRIES, PLACES};
use go_text::{FaultKind, read_number, read_vertex};

// The greatest place.
const LAST_PLACE: u64 = PLACES as u64 - 1;

// The vertices at which an edge begins and ends.
#[derive(Clone, Copy)]
pub struct Ends {
    pub src: u32,
    pub dst: u32,
}

// A place and a vertex that is asked for there.
#[derive(Clone, Copy)]
pub struct Asked {
    pub place: u8,
    pub vertex: u32,
}

// A place, a root and a vertex that are asked for there.
#[derive(Clone, Copy)]
pub struct Pair {
    pub place: u8,
    pub root: u32,
    pub vertex: u32,
}

// A place, and how much is asked for there.
#[derive(Clone, Copy)]
pub struct Share {
    pub place: u8,
    pub count: u32,
}

// The place that a word names.
fn place_in(word: &[u8]) -> Result<u8, FaultKind>
    ensures exact { result ≡ place_in word.now }
    ensures within { IfOk result (λ place. place < PLACES) }
{
    let value = read_number(word, LAST_PLACE)?;
    Ok(value as u8)
}

// The count that a word writes, from 1 to a limit.
fn count_in(word: &[u8], limit: u32) -> Result<u32, FaultKind>
    ensures exact { result ≡ count_in limit word.now }
    ensures within { IfOk result (λ count. (1 ≤ count) × (count ≤ limit)) }
{
    let value = read_number(word, u64::from(limit))?;
    if value == 0 {
        return Err(FaultKind::Number);
    }
    Ok(value as u32)
}

// Two vertices.
pub fn read_ends(arguments: &[&[u8]], vertices: u32) -> Result<Ends, FaultKind>
    ensures exact { result ≡ ends_of vertices (texts arguments.now) }
    ensures below { IfOk result (λ ends. (ends.src < vertices) × (ends.dst < vertices)) }
{
    let [src, dst] = arguments else {
        return Err(FaultKind::Count);
    };
    let src = read_vertex(src, vertices)?;
    let dst = read_vertex(dst, vertices)?;
    Ok(Ends { src, dst })
}

// A place.
pub fn read_place(arguments: &[&[u8]]) -> Result<u8, FaultKind>
    ensures exact { result ≡ place_of (texts arguments.now) }
    ensures within { IfOk result (λ place. place < PLACES) }
{
    let [place] = arguments else {
        return Err(FaultKind::Count);
    };
    place_in(place)
}

// A place and a vertex.
pub fn read_asked(arguments: &[&[u8]], vertices: u32) -> Result<Asked, FaultKind>
    ensures exact { result ≡ vertex_of vertices (texts arguments.now) }
    ensures within { IfOk result (λ asked. (asked.place < PLACES) × (asked.vertex < vertices)) }
{
    let [place, vertex] = arguments else {
        return Err(FaultKind::Count);
    };
    let place = place_in(place)?;
    let vertex = read_vertex(vertex, vertices)?;
    Ok(Asked { place, vertex })
}

// A place and two vertices.
pub fn read_pair(arguments: &[&[u8]], vertices: u32) -> Result<Pair, FaultKind>
    ensures exact { result ≡ pair_of vertices (texts arguments.now) }
    ensures within { IfOk result (λ pair. (pair.place < PLACES) × (pair.root < vertices) × (pair.vertex < vertices)) }
{
    let [place, root, vertex] = arguments else {
        return Err(FaultKind::Count);
    };
    let place = place_in(place)?;
    let root = read_vertex(root, vertices)?;
    let vertex = read_vertex(vertex, vertices)?;
    Ok(Pair {
        place,
        root,
        vertex,
    })
}

// A place and a count from 1 to a limit.
pub fn read_share(arguments: &[&[u8]], limit: u32) -> Result<Share, FaultKind>
    ensures exact { result ≡ share_of limit (texts arguments.now) }
    ensures within { IfOk result (λ share. (share.place < PLACES) × (1 ≤ share.count) × (share.count ≤ limit)) }
{
    let [place, count] = arguments else {
        return Err(FaultKind::Count);
    };
    let place = place_in(place)?;
    let count = count_in(count, limit)?;
    Ok(Share { place, count })
}

// A number of entries, as many as a log may have at most.
pub fn read_entries(arguments: &[&[u8]]) -> Result<u64, FaultKind>
    ensures exact { result ≡ entries_of (texts arguments.now) }
    ensures within { IfOk result (λ asked. asked ≤ LOG_ENTRIES) }
{
    let [asked] = arguments else {
        return Err(FaultKind::Count);
    };
    read_number(asked, LOG_ENTRIES)
}
