// Files of edges and generated ones, at values worked out by hand; the generated words are those of another program.
use crate::{LoadFault, generate, read_edges};
use go_text::FaultKind;
use go_word::Edge;
use std::process::Abort;
use std::test::Fail;

// The vertices that the rows speak of.
const V: u32 = 100;

fn add(src: u32, dst: u32) -> Edge {
    Edge {
        del: false,
        src,
        dst,
    }
}

fn del(src: u32, dst: u32) -> Edge {
    Edge {
        del: true,
        src,
        dst,
    }
}

fn fault(line: u64, kind: FaultKind) -> Result<(), LoadFault> {
    Err(LoadFault::Line { line, kind })
}

#[test]
fn lines_of_two_vertices_are_edges(rt: HostRuntime) -> Result<(), Fail> {
    let text =
        b"# FromNodeId\tToNodeId\n0\t11\r\n\n \t \n 5  6 \n-5 6\n- \t007 99\n-# 1".as_slice();
    let mut out = [add(9, 9)].to_vec(rt.alloc())?;
    assert_eq!(rt; read_edges(&text[..text.len() - 5], V, &mut out), Ok(()));
    assert_eq!(rt;
        out.as_slice(),
        [add(0, 11), add(5, 6), del(5, 6), del(7, 99)].as_slice()
    );
    assert_eq!(rt; read_edges(text, V, &mut out), fault(8, FaultKind::Number));
    assert_eq!(rt; read_edges(b"", V, &mut out), Ok(()));
    assert!(rt; out.is_empty());
    Ok(())
}

#[test]
fn the_first_fault_of_a_text_is_told(rt: HostRuntime) -> Result<(), Fail> {
    let mut out = Vec::new(rt.alloc());
    for (text, line, kind) in [
        (b"1 2\n3".as_slice(), 2, FaultKind::Count),
        (b"1 2 3".as_slice(), 1, FaultKind::Count),
        (b"-".as_slice(), 1, FaultKind::Count),
        (b"- 1 2 3 4 5".as_slice(), 1, FaultKind::Count),
        (b"-1 2 3".as_slice(), 1, FaultKind::Count),
        (b"#\n\nx 100\n1 100".as_slice(), 3, FaultKind::Number),
        (b"100 x".as_slice(), 1, FaultKind::Vertex),
        (b"--1 2".as_slice(), 1, FaultKind::Number),
        (b"1 18446744073709551616".as_slice(), 1, FaultKind::Number),
    ] {
        assert_eq!(rt; read_edges(text, V, &mut out), fault(line, kind));
    }
    Ok(())
}

#[test]
fn words_behind_the_letters_are_edges(rt: HostRuntime) -> Result<(), Fail> {
    let mut out = Vec::new(rt.alloc());
    let file = b"GRONEBIN\x05\0\0\x80\x01\0\0\0\x05\0\0\x80\x01\0\0\x80".as_slice();
    assert_eq!(rt; read_edges(file, V, &mut out), Ok(()));
    assert_eq!(rt; out.as_slice(), [add(3, 5), del(3, 5)].as_slice());
    assert_eq!(rt; read_edges(&file[..8], V, &mut out), Ok(()));
    assert!(rt; out.is_empty());
    assert_eq!(rt;
        read_edges(&file[..23], V, &mut out),
        fault(2, FaultKind::Short)
    );
    assert_eq!(rt; read_edges(file, 5, &mut out), fault(1, FaultKind::Vertex));
    assert_eq!(rt;
        read_edges(&file[..7], V, &mut out),
        fault(1, FaultKind::Count)
    );
    let rotated = b"GRONEBIN\x05\0\0\x80\x01\0\0\x40".as_slice();
    assert_eq!(rt;
        read_edges(rotated, 5, &mut out),
        fault(1, FaultKind::Number)
    );
    Ok(())
}

#[test]
fn generated_entries_are_those_of_another_program(rt: HostRuntime) -> Result<(), Fail> {
    let mut out = [add(9, 9)].to_vec(rt.alloc())?;
    generate(17, 7, 65_536, &mut out)?;
    let wanted = [
        add(24297, 7358),
        add(1181, 15044),
        add(15292, 45485),
        add(13860, 15648),
        add(5891, 45320),
        add(6252, 42962),
        add(62912, 42957),
        del(13860, 15648),
        add(43402, 44469),
        add(19450, 3456),
        add(21553, 33430),
        add(22984, 41783),
        add(1207, 33286),
        add(29025, 12310),
        add(43285, 19105),
        del(22984, 41783),
        add(44377, 36233),
    ];
    assert_eq!(rt; out.as_slice(), wanted.as_slice());
    generate(2, 0, 1_000, &mut out)?;
    assert_eq!(rt; out.as_slice(), [add(107, 527), add(875, 254)].as_slice());
    generate(0, 0, 1, &mut out)?;
    assert!(rt; out.is_empty());
    Ok(())
}
