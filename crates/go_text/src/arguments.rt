// Words that are read as numbers and vertices.
ghost use Rattle.std.specs.Prelude.{◌≡◌, ◌≤◌, ◌<◌, IfOk};
ghost use Rattle.go_text.specs.Arguments.{number_in, vertex_in};

use crate::{FaultKind, number};

/// The number that a word writes, at most `limit`; else the fault is `Number`.
pub fn read_number(word: &[u8], limit: u64) -> Result<u64, FaultKind>
    ensures exact { result ≡ number_in limit word.now }
    ensures within { IfOk result (λ n. n ≤ limit) }
{
    match number(word, limit) {
        Ok(value) => Ok(value),
        Err(_) => Err(FaultKind::Number),
    }
}

/// The vertex that a word names, where `vertices` is the number of vertices: `Number` for what is no number of 64 bits, and
/// `Vertex` for a number that is too large.
pub fn read_vertex(word: &[u8], vertices: u32) -> Result<u32, FaultKind>
    ensures exact { result ≡ vertex_in vertices word.now }
    ensures below { IfOk result (λ vertex. vertex < vertices) }
{
    let value = read_number(word, u64::MAX)?;
    if value < u64::from(vertices) {
        Ok(value as u32)
    } else {
        Err(FaultKind::Vertex)
    }
}
