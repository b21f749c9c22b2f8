// A file that is made: its header, and the bytes it may have before it is whole.
ghost use Rattle.std.specs.Prelude.{◌≡◌, ◌↔◌, ◌++◌, [], ◌∷◌, IsTrue};
ghost use Rattle.go_blocks.specs.File.{IsVertexCount, IsFront, IsUnmade, header_bytes};

use crate::layout::{CLOSED, HEADER_LENGTH, MAGIC, OPEN, VERSION};
use crate::numbers::{four_bytes, two_bytes};

/// Gives the bytes of an empty file of `v` vertices: an open header, and the closed gate of the first
/// block.
pub fn header(v: u32) -> [u8; HEADER_LENGTH]
    requires { IsVertexCount v }
    ensures exact { result ≡ header_bytes OPEN v ++ CLOSED ∷ [] }
    ensures empty { IsFront v [] (header_bytes OPEN v) }
{
    let version = two_bytes(VERSION);
    let vertices = four_bytes(v);
    [
        OPEN,
        MAGIC[0],
        MAGIC[1],
        MAGIC[2],
        MAGIC[3],
        MAGIC[4],
        MAGIC[5],
        MAGIC[6],
        MAGIC[7],
        version[0],
        version[1],
        vertices[0],
        vertices[1],
        vertices[2],
        vertices[3],
        CLOSED,
    ]
}

/// Whether the bytes are those of a file whose making was not begun or was cut off.
pub fn unmade(bytes: &[u8]) -> bool
    ensures { IsTrue result ↔ IsUnmade bytes.now }
{
    bytes.len() <= 1 || bytes.len() <= HEADER_LENGTH && bytes[0] == CLOSED
}
