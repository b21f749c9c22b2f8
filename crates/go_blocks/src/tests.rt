// Worked rows: whole files in hexadecimal, their cuts, and one fault of each kind.
ghost use Rattle.go_blocks.specs.File.{IsVertexCount};

use crate::{
    Bad, BadKind, BlockPlace, FileFault, file_laws, header, read_file, unmade, write_block,
};
use go_word::{Edge, VERTEX_LIMIT};
use std::process::Abort;
use std::test::Fail;

// The file of 8 vertices and the addition of 3 to 5.
const FILE: [u8; 29] = [
    0x01, 0x47, 0x52, 0x4F, 0x4E, 0x45, 0x4C, 0x4F, 0x47, 0x01, 0x00, 0x08, 0x00, 0x00, 0x00, 0x01,
    0x01, 0x00, 0x00, 0x00, 0x05, 0x00, 0x00, 0x80, 0x01, 0x00, 0x00, 0x00, 0x00,
];

const EDGE: Edge = Edge {
    del: false,
    src: 3,
    dst: 5,
};

const DELETION: Edge = Edge {
    del: true,
    src: 0,
    dst: 7,
};

fn refused(at: u64, kind: BadKind) -> Option<FileFault> {
    Some(FileFault::Bad {
        bad: Bad { at, kind },
    })
}

#[test]
fn one_edge_in_29_bytes(rt: HostRuntime) -> Result<(), Fail> {
    file_laws();
    let mut made = header(8).to_vec(rt.alloc())?;
    write_block(&[EDGE], &mut made)?;
    assert_eq!(rt; made.len(), 29);
    made[15] = 1;
    assert_eq!(rt; made.as_slice(), FILE.as_slice());
    let file = read_file(rt.alloc(), &FILE)?;
    assert_eq!(rt; file.vertices(), 8);
    assert_eq!(rt; file.edges(), [EDGE].as_slice());
    assert_eq!(rt; file.gate(), 28);
    assert_eq!(rt;
        file.blocks(),
        [BlockPlace { gate: 15, count: 1 }].as_slice()
    );
    let (edges, blocks) = file.into_parts();
    assert_eq!(rt; (edges.len(), blocks.len()), (1, 1));
    Ok(())
}

#[test]
fn bytes_behind_the_closed_gate_take_no_memory(rt: HostRuntime) -> Result<(), Fail> {
    let mut bytes = FILE.to_vec(rt.alloc())?;
    bytes.resize(1_000_000, 1)?;
    let (edges, blocks) = read_file(rt.alloc(), &bytes)?.into_parts();
    assert_eq!(rt; edges.as_slice(), [EDGE].as_slice());
    assert!(rt; edges.capacity() <= 8 && blocks.capacity() <= 8);
    Ok(())
}

#[test]
fn faults_have_a_text(rt: HostRuntime) -> Result<(), Fail> {
    let text = format!(in rt.alloc(); "{}", FileFault::Memory)?;
    assert_eq!(rt; text.as_str(), "out of memory");
    Ok(())
}

#[test]
fn an_empty_file(rt: HostRuntime) -> Result<(), Fail> {
    for (vertices, bytes) in [
        (8, [1, 71, 82, 79, 78, 69, 76, 79, 71, 1, 0, 8, 0, 0, 0, 0]),
        (
            65_536,
            [1, 71, 82, 79, 78, 69, 76, 79, 71, 1, 0, 0, 0, 1, 0, 0],
        ),
        (
            VERTEX_LIMIT,
            [1, 71, 82, 79, 78, 69, 76, 79, 71, 1, 0, 0, 0, 16, 0, 0],
        ),
    ] {
        assert_count(&rt, vertices);
        assert_eq!(rt; header(vertices).as_slice(), bytes.as_slice());
        let file = read_file(rt.alloc(), &bytes)?;
        assert_eq!(rt; file.vertices(), vertices);
        assert_eq!(rt;
            (file.edges().len(), file.blocks().len(), file.gate()),
            (0, 0, 15)
        );
    }
    Ok(())
}

// That a file can have so many vertices, so that what follows may make it.
fn assert_count(rt: &impl Abort, vertices: u32)
    ensures { IsVertexCount vertices }
{
    assert!(rt; vertices > 0);
    assert!(rt; vertices <= VERTEX_LIMIT);
}

#[test]
fn gates_of_any_open_byte(rt: HostRuntime) -> Result<(), Fail> {
    for (gate, entries, end) in [(0, 0, 15), (1, 1, 28), (7, 1, 28), (255, 1, 28)] {
        let mut bytes = FILE;
        bytes[15] = gate;
        let file = read_file(rt.alloc(), &bytes)?;
        assert_eq!(rt; file.edges().len(), entries, "gate {gate}");
        assert_eq!(rt; file.gate(), end, "gate {gate}");
    }
    Ok(())
}

#[test]
fn cut_at_each_length(rt: HostRuntime) {
    for length in 0..30 {
        let want = match length {
            0 => refused(0, BadKind::Short),
            1..9 => refused(1, BadKind::Short),
            9..11 => refused(9, BadKind::Short),
            11..15 => refused(11, BadKind::Short),
            15 => refused(15, BadKind::Short),
            16..29 => refused(16, BadKind::Short),
            _ => None,
        };
        assert_eq!(rt;
            read_file(rt.alloc(), &FILE[..length]).err(),
            want,
            "at {length}"
        );
        assert_eq!(rt; unmade(&FILE[..length]), length <= 1, "at {length}");
    }
}

#[test]
fn the_first_fault(rt: HostRuntime) {
    for (place, byte, want) in [
        (0, 0, refused(0, BadKind::Magic)),
        (0, 2, None),
        (1, 0x48, refused(1, BadKind::Magic)),
        (8, 0x48, refused(8, BadKind::Magic)),
        (9, 2, refused(9, BadKind::Version)),
        (10, 1, refused(9, BadKind::Version)),
        (11, 0, refused(11, BadKind::Vertices)),
        (13, 0x10, refused(11, BadKind::Vertices)),
        (11, 5, refused(20, BadKind::Word)),
        (11, 6, None),
        (16, 0, refused(16, BadKind::Count)),
        (18, 1, refused(16, BadKind::Count)),
        (17, 1, refused(16, BadKind::Short)),
        (27, 0x40, refused(20, BadKind::Word)),
        (27, 0x80, None),
        (20, 8, refused(20, BadKind::Word)),
        (28, 1, refused(29, BadKind::Short)),
    ] {
        let mut bytes = FILE;
        if let Some(changed) = bytes.get_mut(place) {
            *changed = byte;
        }
        assert_eq!(rt;
            read_file(rt.alloc(), &bytes).err(),
            want,
            "{byte} at {place}"
        );
    }
}

#[test]
fn bytes_behind_a_closed_gate_are_ignored(rt: HostRuntime) -> Result<(), Fail> {
    let mut bytes = FILE.to_vec(rt.alloc())?;
    bytes.extend_from_slice(&[9, 0xFF, 0, 7])?;
    let file = read_file(rt.alloc(), &bytes)?;
    assert_eq!(rt; file.edges(), [EDGE].as_slice());
    assert_eq!(rt; file.gate(), 28);
    Ok(())
}

#[test]
fn bytes_that_are_not_made_yet(rt: HostRuntime) {
    for (length, first, want) in [
        (1, 0, true),
        (1, 1, true),
        (2, 0, true),
        (2, 1, false),
        (16, 0, true),
        (16, 1, false),
        (17, 0, false),
    ] {
        let mut bytes = FILE;
        bytes[0] = first;
        assert_eq!(rt;
            unmade(&bytes[..length]),
            want,
            "{length} bytes from {first} on"
        );
    }
    let mut bytes = FILE;
    bytes[0] = 0;
    assert_eq!(rt;
        read_file(rt.alloc(), &bytes[..17]).err(),
        refused(0, BadKind::Magic)
    );
}

#[test]
fn a_block_of_65536_entries(rt: HostRuntime) -> Result<(), Fail> {
    // A word of zeros is the addition of 0 to 0.
    let zeros = vec![in rt.alloc(); 0; 8 * 65_536 + 1]?;
    let mut bytes = FILE[..16].to_vec(rt.alloc())?;
    bytes.extend_from_slice(&[0, 0, 1, 0])?;
    bytes.extend_from_slice(&zeros)?;
    let gate = bytes.pop();
    assert_eq!(rt; gate, Some(0));
    bytes.push(1)?;
    write_block(&[DELETION, EDGE], &mut bytes)?;
    let file = read_file(rt.alloc(), &bytes)?;
    assert_eq!(rt; file.edges().len(), 65_538);
    assert_eq!(rt; file.edges().last().copied(), Some(EDGE));
    assert_eq!(rt; file.edges().get(65_536).copied(), Some(DELETION));
    let second = BlockPlace {
        gate: 524_308,
        count: 2,
    };
    assert_eq!(rt; file.blocks().last().copied(), Some(second));
    assert_eq!(rt; file.gate(), 524_329);
    Ok(())
}
