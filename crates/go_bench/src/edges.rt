// The edges of the benchmarks: a fixed sequence, an eighth of it deletions.
ghost use Rattle.std.specs.Prelude.{◌≡◌, length, All, IfOk};
ghost use Rattle.go_word.specs.Log.{IsWithin};
ghost use Rattle.go_word.specs.Word.{IsStorable};

use go_word::Edge;
use std::alloc::{AllocError, Global};

/// How many vertices there are.
pub const VERTICES: u32 = 65536;

/// How the edges lie: between all vertices with an eighth of deletions, or all at the vertex 0 with half of them.
#[derive(Clone, Copy, Debug, PartialEq, Eq)]
pub enum Shape {
    Spread,
    Hub,
}

/// The edges from the one of a number on, as many as told.
pub fn edges_from(
    alloc: Global,
    shape: Shape,
    first: u64,
    count: usize,
) -> Result<Vec<Edge>, AllocError>
    ensures count { IfOk result (λ edges. length edges.items ≡ count) }
    ensures within { IfOk result (λ edges. All (IsWithin 65536) edges.items) }
    ensures storable { IfOk result (λ edges. All IsStorable edges.items) }
{
    let mut edges = Vec::with_capacity(alloc, count)?;
    for i in 0..count {
        let number = first.wrapping_add(i as u64);
        let edge = match shape {
            Shape::Spread => spread_edge(number),
            Shape::Hub => hub_edge(number),
        };
        edges.push(edge)?;
    }
    Ok(edges)
}

// The edge of a number. Each eighth one deletes what the one four before it added.
fn spread_edge(number: u64) -> Edge
    ensures within { IsWithin 65536 result }
    ensures storable { IsStorable result }
{
    let del = number % 8 == 7;
    let place = if del { number - 4 } else { number };
    let word = mixed(place);
    Edge {
        del,
        src: (word / 0x1_0000_0000 % 65536) as u32,
        dst: (word / 0x1_0000_0000_0000) as u32,
    }
}

// The edge of a number where all leave the vertex 0. Each second one deletes what an earlier one added.
fn hub_edge(number: u64) -> Edge
    ensures within { IsWithin 65536 result }
    ensures storable { IsStorable result }
{
    let word = mixed(number / 2);
    Edge {
        del: number % 2 == 1,
        src: 0,
        dst: (word / 0x1_0000_0000_0000) as u32,
    }
}

// The number of this place in the sequence SplitMix64 (Steele, Lea and Flood, 2014) from 0 on.
fn mixed(place: u64) -> u64 {
    let word = place.wrapping_mul(0x9E37_79B9_7F4A_7C15);
    let word = (word ^ (word >> 30)).wrapping_mul(0xBF58_476D_1CE4_E5B9);
    let word = (word ^ (word >> 27)).wrapping_mul(0x94D0_49BB_1331_11EB);
    word ^ (word >> 31)
}
