// The rule on lines that wait, at scripts that were worked out by hand.
ghost use Rattle.std.specs.Prelude.{◌≤◌, ◌^◌, sum};

use crate::tally::{Tally, loads_in};
use crate::{Place, check_until, parse};
use std::alloc::Global;
use std::process::Abort;
use std::test::Fail;

// The first line against the rule of two scripts, whose loads have files of so many entries.
fn against(
    rt: &impl Abort,
    alloc: Global,
    texts: (&[u8], &[u8]),
    files: &[u64],
) -> Result<Option<Place>, Fail>
    requires { sum files.now ≤ 2 ^ 56 }
{
    let first = parse(alloc, texts.0, 10)?;
    let second = parse(alloc, texts.1, 10)?;
    let loads = (
        loads_in(&first, Tally::start()),
        loads_in(&second, Tally::start()),
    );
    assert!(rt; loads.0 < 10);
    assert!(rt; loads.1 < 10);
    assert_eq!(rt; loads.0 + loads.1, files.len());
    Ok(check_until([first, second].as_slice(), files))
}

// The line of a script that is against the rule.
fn place(script: u32, line: u64) -> Option<Place> {
    Some(Place { script, line })
}

#[test]
fn no_scripts_keep_to_the_rule(rt: HostRuntime) {
    assert_eq!(rt; check_until(&[], &[]), None);
}

#[test]
fn a_script_waits_for_what_it_put_before(rt: HostRuntime) -> Result<(), Fail> {
    for (text, want) in [
        (b"until 0".as_slice(), None),
        (b"until 1", place(0, 1)),
        (b"until 1\nadd 0 1", place(0, 1)),
        (b"add 0 1\nuntil 1", None),
        (b"add 0 1\nuntil 2", place(0, 2)),
        (b"del 0 1\n\nadd 0 1\nuntil 2\nuntil 3", place(0, 5)),
        (b"offer 0 1\nuntil 1", place(0, 2)),
        (
            b"add 0 1\nuntil 1\nadd 0 1\nuntil 2\nadd 0 1\nuntil 4",
            place(0, 6),
        ),
        (b"sync\nview 0\ncompact\nuntil 1", place(0, 4)),
    ] {
        assert_eq!(rt; against(&rt, rt.alloc(), (text, b""), &[])?, want);
    }
    Ok(())
}

#[test]
fn a_script_waits_for_what_the_others_put_before_they_wait(rt: HostRuntime) -> Result<(), Fail> {
    for (first, second, want) in [
        (b"until 1".as_slice(), b"add 0 1".as_slice(), None),
        (b"until 2", b"add 0 1", place(0, 1)),
        (b"add 0 1\nuntil 3", b"add 0 1\nadd 0 1", None),
        (b"add 0 1\nuntil 4", b"add 0 1\nadd 0 1", place(0, 2)),
        (b"until 2", b"add 0 1\nuntil 1\nadd 0 1", place(0, 1)),
        (b"until 1", b"until 0\nadd 0 1", place(0, 1)),
        (b"add 0 1\nuntil 2", b"add 0 1\nuntil 2", None),
        (b"add 0 1\nuntil 2", b"add 0 1\nuntil 3", place(1, 2)),
        (b"add 0 1\nuntil 3", b"add 0 1\nuntil 3", place(0, 2)),
        (b"add 0 1", b"offer 0 1\n# and\nuntil 2", place(1, 3)),
        (b"add 0 1\nuntil 1\nadd 0 1", b"until 2", place(1, 1)),
    ] {
        assert_eq!(rt; against(&rt, rt.alloc(), (first, second), &[])?, want);
    }
    Ok(())
}

#[test]
fn a_load_puts_the_entries_of_its_file(rt: HostRuntime) -> Result<(), Fail> {
    let loads = (b"load a\nuntil 3".as_slice(), b"".as_slice());
    assert_eq!(rt; against(&rt, rt.alloc(), loads, &[3])?, None);
    assert_eq!(rt; against(&rt, rt.alloc(), loads, &[2])?, place(0, 2));
    let behind = (
        b"until 7\nload a".as_slice(),
        b"load b\nadd 0 1\nuntil 1\nload c".as_slice(),
    );
    assert_eq!(rt; against(&rt, rt.alloc(), behind, &[9, 6, 9])?, None);
    assert_eq!(rt; against(&rt, rt.alloc(), behind, &[9, 5, 9])?, place(0, 1));
    Ok(())
}
