// The first faults of texts that are no scripts, worked out by hand from the rules.

use crate::{ScriptFault, parse, script_laws};
use go_text::FaultKind;

#[test]
fn the_first_fault_of_the_first_faulty_line_is_told(rt: HostRuntime) {
    for (text, line, kind) in [
        (b"add 65536 0".as_slice(), 1, FaultKind::Vertex),
        (b"view 0\nview 0", 2, FaultKind::Place),
        (b"fly", 1, FaultKind::Word),
        (b"dele 1 2", 1, FaultKind::Word),
        (b"Sync", 1, FaultKind::Word),
        (b"add 18446744073709551616 0", 1, FaultKind::Number),
        (b"add 18446744073709551615 0", 1, FaultKind::Vertex),
        (b"add 65536 x", 1, FaultKind::Vertex),
        (b"add x 65536", 1, FaultKind::Number),
        (b"view 1\nneigh 0 1", 2, FaultKind::Place),
        (b"# none\n\n\t \t\nadd 1 2 3", 4, FaultKind::Count),
        (b"add 1 2\r\nview x y\r\n", 2, FaultKind::Count),
        (b"fly 1 2 3 4 5\nadd", 1, FaultKind::Word),
        (b"add# 1 2", 1, FaultKind::Word),
        (b"add 1 2 # that", 1, FaultKind::Count),
        (b"\n\r", 2, FaultKind::Word),
        (b"\r\r\n", 1, FaultKind::Word),
        (b"add 1 2\r", 1, FaultKind::Number),
        (b"\xff\xfe", 1, FaultKind::Word),
        (b"add 1 \xc3\xa9", 1, FaultKind::Number),
        (b"add 1 2\0", 1, FaultKind::Number),
        (b"view 0\ndrop 0\nneigh 0 1", 3, FaultKind::Place),
        (b"stream 1\nclose 1\nclose 1", 3, FaultKind::Place),
        (b"stream 0\nview 0", 2, FaultKind::Place),
        (b"stream 0\ndrop 0", 2, FaultKind::Place),
        (b"stream 0\nneigh 0 1", 2, FaultKind::Place),
        (b"view 0\nstream 0", 2, FaultKind::Place),
        (b"view 0\nclose 0", 2, FaultKind::Place),
        (b"view 0\nupdate 0 1", 2, FaultKind::Place),
    ] {
        let fault = parse(rt.alloc(), text, 65536).err();
        assert_eq!(rt; fault, Some(ScriptFault::Line { line, kind }));
    }
}

// The faults of each command alone, with no place filled.
#[test]
fn each_command_has_its_faults(rt: HostRuntime) {
    for (text, kind) in [
        (b"add 1".as_slice(), FaultKind::Count),
        (b"add 1 x", FaultKind::Number),
        (b"del 1", FaultKind::Count),
        (b"del 1 x", FaultKind::Number),
        (b"offer 1", FaultKind::Count),
        (b"offer 1 65536", FaultKind::Vertex),
        (b"load", FaultKind::Count),
        (b"load a \xff", FaultKind::Count),
        (b"load \xff", FaultKind::Name),
        (b"view", FaultKind::Count),
        (b"view 4", FaultKind::Number),
        (b"drop 0 0", FaultKind::Count),
        (b"drop x", FaultKind::Number),
        (b"drop 0", FaultKind::Place),
        (b"degree 0", FaultKind::Count),
        (b"degree 0 65536", FaultKind::Vertex),
        (b"degree 0 1", FaultKind::Place),
        (b"neigh 0 1", FaultKind::Place),
        (b"neigh 0 65536", FaultKind::Vertex),
        (b"neigh 4 65536", FaultKind::Number),
        (b"hop 0 1 2", FaultKind::Count),
        (b"hop 0 65536", FaultKind::Vertex),
        (b"hop 0 1", FaultKind::Place),
        (b"level 0 1", FaultKind::Count),
        (b"level 0 1 2 3", FaultKind::Count),
        (b"level 4 65536 2", FaultKind::Number),
        (b"level 0 65536 x", FaultKind::Vertex),
        (b"level 0 1 x", FaultKind::Number),
        (b"level 0 1 2", FaultKind::Place),
        (b"bfs 0", FaultKind::Count),
        (b"bfs 0 65536", FaultKind::Vertex),
        (b"bfs 0 1", FaultKind::Place),
        (b"rank 0", FaultKind::Count),
        (b"rank 0 0", FaultKind::Number),
        (b"rank 0 1001", FaultKind::Number),
        (b"rank 0 1", FaultKind::Place),
        (b"stream", FaultKind::Count),
        (b"stream 4", FaultKind::Number),
        (b"close", FaultKind::Count),
        (b"close 4", FaultKind::Number),
        (b"close 0", FaultKind::Place),
        (b"update 0", FaultKind::Count),
        (b"update 0 0", FaultKind::Number),
        (b"update 0 65537", FaultKind::Number),
        (b"update 0 1", FaultKind::Place),
        (b"until", FaultKind::Count),
        (b"until 67108865", FaultKind::Number),
        (b"sync 1", FaultKind::Count),
        (b"compact x", FaultKind::Count),
    ] {
        let fault = parse(rt.alloc(), text, 65536).err();
        assert_eq!(rt; fault, Some(ScriptFault::Line { line: 1, kind }));
    }
}

#[test]
fn vertices_are_those_below_their_number(rt: HostRuntime) {
    for (vertices, holds) in [(0, false), (7, false), (8, true), (u32::MAX, true)] {
        assert_eq!(rt; parse(rt.alloc(), b"add 0 7", vertices).is_ok(), holds);
    }
    script_laws();
}
