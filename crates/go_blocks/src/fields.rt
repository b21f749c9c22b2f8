// Reading the header: one field after the other.
ghost use Rattle.std.specs.Prelude.{◌≡◌, position};
ghost use Rattle.std.specs.List.{zip};
ghost use Rattle.go_blocks.specs.Faults.{differs, gate_at, letters_at, version_at, vertices_at, header_at};
ghost use Rattle.go_blocks.specs.Reading.{Shows};

use crate::fault::{Bad, BadKind};
use crate::layout::{CLOSED, FIRST_GATE, MAGIC, MAGIC_AT, VERSION, VERSION_AT, VERTICES_AT};
use crate::numbers::{number_of_four, number_of_two};
use go_word::VERTEX_LIMIT;

/// Reads the header, and gives the number of vertices and the bytes from the first gate on.
#[tactic(auto, unfolding(crate::specs::Faults::header_at, crate::specs::Faults::first_gate_at))]
pub fn read_header(bytes: &[u8]) -> Result<(u32, &[u8]), Bad>
    ensures { Shows (λ found. (found.0, found.1.now)) result (header_at bytes.now) }
{
    let letters = read_gate(bytes)?;
    let version = read_letters(letters)?;
    let vertices = read_version(version)?;
    let (vertices, rest) = read_vertices(vertices)?;
    if rest.is_empty() {
        return Err(fault(FIRST_GATE, BadKind::Short));
    }
    Ok((vertices, rest))
}

// This is wrong at this place.
fn fault(at: u64, kind: BadKind) -> Bad
    ensures { result ≡ record { at = at; kind = kind } }
{
    Bad { at, kind }
}

// The gate of the header, and the bytes behind it.
#[tactic(auto, unfolding(crate::specs::Faults::gate_at))]
fn read_gate(bytes: &[u8]) -> Result<&[u8], Bad>
    ensures { Shows (λ rest. rest.now) result (gate_at bytes.now) }
{
    match bytes {
        [] => Err(fault(0, BadKind::Short)),
        [gate, rest @ ..] => {
            if *gate == CLOSED {
                return Err(fault(0, BadKind::Magic));
            }
            Ok(rest)
        }
    }
}

// The letters.
#[tactic(auto, unfolding(crate::specs::Faults::letters_at))]
fn read_letters(bytes: &[u8]) -> Result<&[u8], Bad>
    ensures { Shows (λ rest. rest.now) result (letters_at bytes.now) }
{
    let Some((letters, rest)) = bytes.split_first_chunk::<8>() else {
        return Err(fault(MAGIC_AT, BadKind::Short));
    };
    match first_difference(&MAGIC, letters) {
        None => Ok(rest),
        Some(at) => Err(fault(MAGIC_AT + at as u64, BadKind::Magic)),
    }
}

// The first place where two texts differ.
fn first_difference(want: &[u8], got: &[u8]) -> Option<usize>
    ensures { result ≡ position differs (zip want.now got.now) }
{
    want.iter()
        .zip(got.iter())
        .position(|(want, got)| *want != *got)
}

// The version.
#[tactic(auto, unfolding(crate::specs::Faults::version_at))]
fn read_version(bytes: &[u8]) -> Result<&[u8], Bad>
    ensures { Shows (λ rest. rest.now) result (version_at bytes.now) }
{
    let Some((version, rest)) = bytes.split_first_chunk::<2>() else {
        return Err(fault(VERSION_AT, BadKind::Short));
    };
    if number_of_two(version) != VERSION {
        return Err(fault(VERSION_AT, BadKind::Version));
    }
    Ok(rest)
}

// The number of vertices.
#[tactic(auto, unfolding(crate::specs::Faults::vertices_at))]
fn read_vertices(bytes: &[u8]) -> Result<(u32, &[u8]), Bad>
    ensures { Shows (λ found. (found.0, found.1.now)) result (vertices_at bytes.now) }
{
    let Some((vertices, rest)) = bytes.split_first_chunk::<4>() else {
        return Err(fault(VERTICES_AT, BadKind::Short));
    };
    let vertices = number_of_four(vertices);
    if vertices == 0 || vertices > VERTEX_LIMIT {
        return Err(fault(VERTICES_AT, BadKind::Vertices));
    }
    Ok((vertices, rest))
}
