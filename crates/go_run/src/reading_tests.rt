// Reading scripts and what they load, from a shelf in memory.

use crate::generating::generate_script;
use crate::reading::read_scripts;
use crate::status::Status;
use go_io::MemShelf;
use go_text::{FaultKind, Text};
use std::alloc::{AllocError, Global};
use std::test::Fail;

// A shelf with two scripts that load one name.
fn two_scripts(alloc: Global) -> Result<MemShelf, AllocError> {
    let mut shelf = MemShelf::new(alloc);
    shelf.add(&Text::of(alloc, "a")?, b"load e\nload e\nuntil 6")?;
    shelf.add(&Text::of(alloc, "b")?, b"load e")?;
    shelf.add(&Text::of(alloc, "e")?, b"0 1\n1 2")?;
    Ok(shelf)
}

#[test]
fn a_name_that_two_scripts_load_is_read_once(rt: HostRuntime) -> Result<(), Fail> {
    let alloc = rt.alloc();
    let mut shelf = two_scripts(alloc)?;
    shelf.fail(3)?;
    let names = [Text::of(alloc, "a")?, Text::of(alloc, "b")?];
    let mut loads = Vec::new(alloc);
    let read = read_scripts(alloc, 10, names.as_slice(), &mut shelf, &mut loads);
    assert_eq!(rt; read.is_ok(), true);
    assert_eq!(rt; loads.len(), 1);
    Ok(())
}

#[test]
fn a_file_that_is_named_twice_is_read_twice(rt: HostRuntime) -> Result<(), Fail> {
    let alloc = rt.alloc();
    let mut shelf = two_scripts(alloc)?;
    shelf.fail(1)?;
    let names = [Text::of(alloc, "b")?, Text::of(alloc, "b")?];
    let mut loads = Vec::new(alloc);
    let read = read_scripts(alloc, 10, names.as_slice(), &mut shelf, &mut loads);
    let fault = matches!(read, Err(Status::ReadFault { .. }));
    assert_eq!(rt; fault, true);
    Ok(())
}

#[test]
fn a_bad_line_of_an_edge_file_is_told(rt: HostRuntime) -> Result<(), Fail> {
    let alloc = rt.alloc();
    let mut shelf = two_scripts(alloc)?;
    shelf.add(&Text::of(alloc, "e")?, b"0 1\n0 10")?;
    let names = [Text::of(alloc, "b")?];
    let mut loads = Vec::new(alloc);
    let read = read_scripts(alloc, 10, names.as_slice(), &mut shelf, &mut loads);
    let told = matches!(
        read,
        Err(Status::Script {
            line: 2,
            kind: FaultKind::Vertex,
            ..
        })
    );
    assert_eq!(rt; told, true);
    Ok(())
}

#[test]
fn eight_entries_are_generated(rt: HostRuntime) -> Result<(), Fail> {
    let alloc = rt.alloc();
    let mut loads = Vec::new(alloc);
    let read = generate_script(alloc, 10, 8, 1, &mut loads);
    assert_eq!(rt; read.is_ok(), true);
    assert_eq!(rt; loads.len(), 1);
    Ok(())
}
