// The lines of replies. Each function here appends a text, or at an error leaves a part of it behind what stood there.

ghost use Rattle.std.specs.Prelude.{◌≡◌, ◌++◌, OnOk, OnErr, decimal, codes};
ghost use Rattle.go_report.specs.ReplyText.{as_line, items_of, ranks_of, sign_of, entries_of, last_of, level_of, StillBegins};
ghost use Rattle.go_report.specs.ReplyText.{busy_text, loaded_text, place_text, degree_text, list_text, level_text, levels_text, rank_text, span_text};

use go_text::{Text, put_number, put_text};
use go_word::{Edge, Ranked};
use std::alloc::AllocError;

/// A word and a number.
pub fn put_position(word: &[u8], position: u64, out: &mut Vec<u8>) -> Result<(), AllocError>
    ensures ok { OnOk result (out.new.items ≡ out.old.items ++ as_line (word.now ++ decimal position)) }
    ensures err { OnErr result (StillBegins out.old.items out.new.items) }
{
    put_text(out, word)?;
    put_number(out, position)?;
    put_text(out, b"\n")
}

/// That a ring is full.
pub fn put_busy(head: u64, released: u64, out: &mut Vec<u8>) -> Result<(), AllocError>
    ensures ok { OnOk result (out.new.items ≡ out.old.items ++ busy_text head released) }
    ensures err { OnErr result (StillBegins out.old.items out.new.items) }
{
    put_text(out, b"busy ")?;
    put_number(out, head)?;
    put_text(out, b" ")?;
    put_number(out, released)?;
    put_text(out, b"\n")
}

/// How many entries a load put, and where the last one stands.
pub fn put_loaded(
    name: &Text,
    count: u64,
    last: Option<u64>,
    out: &mut Vec<u8>,
) -> Result<(), AllocError>
    ensures ok { OnOk result (out.new.items ≡ out.old.items ++ loaded_text name.now count last) }
    ensures err { OnErr result (StillBegins out.old.items out.new.items) }
{
    put_text(out, b"load ")?;
    put_text(out, name.bytes())?;
    put_text(out, b": ")?;
    put_number(out, count)?;
    put_text(out, b" edges")?;
    put_last(last, out)?;
    put_text(out, b"\n")
}

// Where the last entry stands, where there is one.
fn put_last(last: Option<u64>, out: &mut Vec<u8>) -> Result<(), AllocError>
    ensures ok { OnOk result (out.new.items ≡ out.old.items ++ last_of last) }
    ensures err { OnErr result (StillBegins out.old.items out.new.items) }
{
    match last {
        None => Ok(()),
        Some(position) => {
            put_text(out, b", last ")?;
            put_number(out, position)
        }
    }
}

/// A word, a place and a front.
pub fn put_place_at(word: &[u8], place: u8, front: u64, out: &mut Vec<u8>) -> Result<(), AllocError>
    ensures ok { OnOk result (out.new.items ≡ out.old.items ++ place_text word.now place front) }
    ensures err { OnErr result (StillBegins out.old.items out.new.items) }
{
    put_text(out, word)?;
    put_number(out, u64::from(place))?;
    put_text(out, b" at ")?;
    put_number(out, front)?;
    put_text(out, b"\n")
}

/// How many neighbours a vertex has.
pub fn put_degree(vertex: u32, degree: u32, out: &mut Vec<u8>) -> Result<(), AllocError>
    ensures ok { OnOk result (out.new.items ≡ out.old.items ++ degree_text vertex degree) }
    ensures err { OnErr result (StillBegins out.old.items out.new.items) }
{
    put_text(out, b"degree ")?;
    put_number(out, u64::from(vertex))?;
    put_text(out, b": ")?;
    put_number(out, u64::from(degree))?;
    put_text(out, b"\n")
}

/// A word, a vertex and a list of vertices.
pub fn put_list(word: &[u8], vertex: u32, list: &[u32], out: &mut Vec<u8>) -> Result<(), AllocError>
    ensures ok { OnOk result (out.new.items ≡ out.old.items ++ list_text word.now vertex list.now) }
    ensures err { OnErr result (StillBegins out.old.items out.new.items) }
{
    put_text(out, word)?;
    put_number(out, u64::from(vertex))?;
    put_text(out, b":")?;
    put_items(list, out)?;
    put_text(out, b"\n")
}

/// How far a vertex is from a root, or that it isn't reached.
pub fn put_level(
    root: u32,
    vertex: u32,
    level: Option<u32>,
    out: &mut Vec<u8>,
) -> Result<(), AllocError>
    ensures ok { OnOk result (out.new.items ≡ out.old.items ++ level_text root vertex level) }
    ensures err { OnErr result (StillBegins out.old.items out.new.items) }
{
    put_text(out, b"level ")?;
    put_pair(root, vertex, out)?;
    put_text(out, b": ")?;
    put_distance(level, out)?;
    put_text(out, b"\n")
}

// A root and a vertex.
fn put_pair(root: u32, vertex: u32, out: &mut Vec<u8>) -> Result<(), AllocError>
    ensures ok { OnOk result (out.new.items ≡ out.old.items ++ (decimal root ++ codes " " ++ decimal vertex)) }
    ensures err { OnErr result (StillBegins out.old.items out.new.items) }
{
    put_number(out, u64::from(root))?;
    put_text(out, b" ")?;
    put_number(out, u64::from(vertex))
}

// A level, or that there is none.
fn put_distance(level: Option<u32>, out: &mut Vec<u8>) -> Result<(), AllocError>
    ensures ok { OnOk result (out.new.items ≡ out.old.items ++ level_of level) }
    ensures err { OnErr result (StillBegins out.old.items out.new.items) }
{
    match level {
        None => put_text(out, b"none"),
        Some(level) => put_number(out, u64::from(level)),
    }
}

/// How many vertices are at each level from a root, and how many aren't reached.
pub fn put_levels(
    root: u32,
    counts: &[u32],
    unreached: u32,
    out: &mut Vec<u8>,
) -> Result<(), AllocError>
    ensures ok { OnOk result (out.new.items ≡ out.old.items ++ levels_text root counts.now unreached) }
    ensures err { OnErr result (StillBegins out.old.items out.new.items) }
{
    put_text(out, b"bfs ")?;
    put_number(out, u64::from(root))?;
    put_text(out, b":")?;
    put_items(counts, out)?;
    put_text(out, b" none ")?;
    put_number(out, u64::from(unreached))?;
    put_text(out, b"\n")
}

/// Vertices with their degrees.
pub fn put_rank(list: &[Ranked], out: &mut Vec<u8>) -> Result<(), AllocError>
    ensures ok { OnOk result (out.new.items ≡ out.old.items ++ rank_text list.now) }
    ensures err { OnErr result (StillBegins out.old.items out.new.items) }
{
    put_text(out, b"rank:")?;
    put_ranks(list, out)?;
    put_text(out, b"\n")
}

/// From where to where a stream gave entries.
pub fn put_span(place: u8, from: u64, to: u64, out: &mut Vec<u8>) -> Result<(), AllocError>
    ensures ok { OnOk result (out.new.items ≡ out.old.items ++ span_text place from to) }
    ensures err { OnErr result (StillBegins out.old.items out.new.items) }
{
    put_text(out, b"update ")?;
    put_number(out, u64::from(place))?;
    put_text(out, b" ")?;
    put_number(out, from)?;
    put_text(out, b"..")?;
    put_number(out, to)?;
    put_text(out, b"\n")
}

// A blank and a number for each item.
fn put_items(list: &[u32], out: &mut Vec<u8>) -> Result<(), AllocError>
    ensures ok { OnOk result (out.new.items ≡ out.old.items ++ items_of list.now) }
    ensures err { OnErr result (StillBegins out.old.items out.new.items) }
{
    for item in list {
        put_text(out, b" ")?;
        put_number(out, u64::from(*item))?;
    }
    Ok(())
}

// A blank, a vertex and its degree for each item.
fn put_ranks(list: &[Ranked], out: &mut Vec<u8>) -> Result<(), AllocError>
    ensures ok { OnOk result (out.new.items ≡ out.old.items ++ ranks_of list.now) }
    ensures err { OnErr result (StillBegins out.old.items out.new.items) }
{
    for ranked in list {
        put_text(out, b" ")?;
        put_number(out, u64::from(ranked.vertex))?;
        put_text(out, b"=")?;
        put_number(out, u64::from(ranked.degree))?;
    }
    Ok(())
}

/// A line for each entry.
pub fn put_entries(list: &[Edge], out: &mut Vec<u8>) -> Result<(), AllocError>
    ensures ok { OnOk result (out.new.items ≡ out.old.items ++ entries_of list.now) }
    ensures err { OnErr result (StillBegins out.old.items out.new.items) }
{
    for edge in list {
        put_text(out, sign(edge.del))?;
        put_number(out, u64::from(edge.src))?;
        put_text(out, b" ")?;
        put_number(out, u64::from(edge.dst))?;
        put_text(out, b"\n")?;
    }
    Ok(())
}

// How an addition or a deletion begins.
fn sign(del: bool) -> &'static [u8]
    ensures { result.now ≡ sign_of del }
{
    if del { b"- " } else { b"+ " }
}
