// Whole runs of several sessions: who waits for whom, and when a ring is full for all of them.

use crate::fixture::{FILE, drive_small, repeated, run_files, run_files_on};
use crate::rows::assert_rows;
use go_disk::MemDisk;
use std::alloc::{AllocError, Global};
use std::test::Fail;

const EIGHT: [&str; 8] = ["1", "2", "3", "4", "5", "6", "7", "8"];

// A script that adds the edges from vertex `count - 1` to the first ones, and then waits for those of all eight.
fn waiting_script(alloc: Global, count: usize) -> Result<Vec<u8>, AllocError> {
    let mut script = Vec::new(alloc);
    for to in 0..count {
        let line = format!(in alloc; "add {} {to}\n", count.saturating_sub(1))?;
        script.extend_from_slice(line.as_bytes())?;
    }
    let end = format!(in alloc;
        "until 36\nview 0\ndegree 0 {}\nneigh 0 7\n",
        count.saturating_sub(1)
    )?;
    script.extend_from_slice(end.as_bytes())?;
    Ok(script)
}

// Session i adds i edges and waits for 36, which come only when the last session, the last one, has put its last.
#[test]
fn eight_sessions_wait_for_each_other(rt: HostRuntime) -> Result<(), Fail> {
    let alloc = rt.alloc();
    let scripts = [
        waiting_script(alloc, 1)?,
        waiting_script(alloc, 2)?,
        waiting_script(alloc, 3)?,
        waiting_script(alloc, 4)?,
        waiting_script(alloc, 5)?,
        waiting_script(alloc, 6)?,
        waiting_script(alloc, 7)?,
        waiting_script(alloc, 8)?,
    ];
    let mut texts: Vec<(&str, &[u8])> = Vec::new(alloc);
    for (name, script) in EIGHT.iter().zip(scripts.iter()) {
        texts.push((*name, script.as_slice()))?;
    }
    let ended = run_files(&rt, rt.alloc(), &drive_small(alloc, &EIGHT)?, &texts)?;
    assert_eq!(rt; ended.line.as_slice(), b"".as_slice());
    let positions: [&str; 8] = [
        "add 0\n",
        "add 1\nadd 8\n",
        "add 2\nadd 9\nadd 15\n",
        "add 3\nadd 10\nadd 16\nadd 21\n",
        "add 4\nadd 11\nadd 17\nadd 22\nadd 26\n",
        "add 5\nadd 12\nadd 18\nadd 23\nadd 27\nadd 30\n",
        "add 6\nadd 13\nadd 19\nadd 24\nadd 28\nadd 31\nadd 33\n",
        "add 7\nadd 14\nadd 20\nadd 25\nadd 29\nadd 32\nadd 34\nadd 35\n",
    ];
    let mut want = Vec::new(alloc);
    let mut vertex = 0u64;
    for (name, added) in EIGHT.iter().zip(positions.iter()) {
        let text = format!(in alloc;
            "session {name}\n{added}until 36\nview 0 at 36\ndegree {vertex}: {name}\n"
        )?;
        want.extend_from_slice(text.as_bytes())?;
        want.extend_from_slice(b"neigh 7: 0 1 2 3 4 5 6 7\n")?;
        vertex = vertex.saturating_add(1);
    }
    assert_eq!(rt; ended.sink.bytes(), want.as_slice());
    Ok(())
}

// What stands behind the other's first wait isn't counted, and one's own is. An offer isn't certain, each entry of a list is, and a list that
// is loaded twice counts twice. The earlier script is told first, and an edge file before either.
const WAITS: &str = "
$ drive --vertices 8 --ring 128 --shards 2 a b
> a
add 0 1
until 3
> b
add 0 2
del 0 2
until 3
add 0 3
< 0
session 1
add 0
until 3
session 2
add 1
del 2
until 3
add 3
$ drive --vertices 8 --ring 128 --shards 2 a b
> a
add 0 1
until 4
> b
add 0 2
del 0 2
until 3
add 0 3
< 2 graphone: a: line 2: until
$ drive --vertices 8 --ring 128 --shards 2 a b
> a
add 0 1
until 3
> b
add 0 2
del 0 2
until 4
add 0 3
< 2 graphone: b: line 3: until
$ drive --vertices 8 --ring 128 --shards 2 a b
> a
until 0
add 0 1
until 1
> b
until 0
< 0
session 1
until 0
add 0
until 1
session 2
until 0
$ drive --vertices 8 --ring 128 --shards 2 a b
> a
until 0
add 0 1
until 1
> b
# none
until 1
< 2 graphone: b: line 2: until
$ drive --vertices 8 --ring 128 --shards 2 a b
> a
until 0
add 0 1
until 2
> b
until 0
add 0 1
< 2 graphone: a: line 3: until
$ drive --vertices 8 --ring 128 --shards 2 a b
> a
until 1
> b
offer 0 1
< 2 graphone: a: line 1: until
$ drive --vertices 8 --ring 128 --shards 2 a b
> a
until 6
> b
load e
load e
> e
1 2
1 3
-1 2
< 0
session 1
until 6
session 2
load e: 3 edges, last 2
load e: 3 edges, last 5
$ drive --vertices 8 --ring 128 --shards 2 a b
> a
until 7
> b
load e
load e
> e
1 2
1 3
-1 2
< 2 graphone: a: line 1: until
$ drive --vertices 8 --ring 128 --shards 2 a b
> a
load e
add 0 0
until 5
> b
del 0 0
until 5
load e
> e
1 2
1 3
-1 2
< 0
session 1
load e: 3 edges, last 2
add 4
until 5
session 2
del 3
until 5
load e: 3 edges, last 7
$ drive --vertices 8 --ring 128 --shards 2 a b
> a
load e
add 0 0
until 6
> b
del 0 0
until 6
load e
> e
1 2
1 3
-1 2
< 2 graphone: a: line 3: until
$ drive --vertices 8 --ring 128 --shards 2 a b
> a
sync
until 1
> b
until 1
load none
< 3 graphone: none: not there";

#[test]
fn a_session_waits_for_what_is_certain_to_come_and_no_more(rt: HostRuntime) -> Result<(), Fail> {
    assert_rows(&rt, rt.alloc(), 12, WAITS)
}

#[test]
fn entries_of_an_earlier_run_are_not_waited_for(rt: HostRuntime) -> Result<(), Fail> {
    let cases: [(&[u8], u8, &[u8]); 2] = [
        (
            b"until 0\nadd 0 1\nuntil 1\nview 0\n",
            0,
            b"session 1\nuntil 0\nadd 1\nuntil 1\nview 0 at 2\n",
        ),
        (b"until 0\nadd 0 1\nuntil 2\nview 0\n", 2, b""),
    ];
    let alloc = rt.alloc();
    let words = drive_small(alloc, &["a"])?;
    for (script, number, want) in cases {
        let disk = MemDisk::new(alloc, &FILE, 4096)?;
        let ended = run_files_on(&rt, rt.alloc(), &words, &[("a", script)], disk)?;
        assert_eq!(rt; ended.number, number);
        assert_eq!(rt; ended.sink.bytes(), want);
    }
    Ok(())
}

// The numbers of additions of two sessions before the second one offers, and how the replies of the second end.
// A ring of 128 that is full is moved out as a whole when one more is put.
#[test]
fn a_ring_is_full_of_the_puts_of_all_sessions(rt: HostRuntime) -> Result<(), Fail> {
    let cases: [(usize, usize, &[u8]); 5] = [
        (64, 63, b"add 125\noffer 127\nsync 128\noffer 128\n"),
        (64, 64, b"add 127\nbusy 128 0\nsync 128\noffer 128\n"),
        (65, 64, b"add 127\noffer 129\nsync 130\noffer 130\n"),
        (0, 127, b"add 126\noffer 127\nsync 128\noffer 128\n"),
        (0, 128, b"add 127\nbusy 128 0\nsync 128\noffer 128\n"),
    ];
    let alloc = rt.alloc();
    let words = drive_small(alloc, &["a", "b"])?;
    for (first, second, want) in cases {
        let one = repeated(alloc, b"add 0 1\n", first)?;
        let mut two = repeated(alloc, b"add 0 2\n", second)?;
        two.extend_from_slice(b"offer 0 3\nsync\noffer 0 3\n")?;
        let ended = run_files(&rt, rt.alloc(), &words, &[("a", &one), ("b", &two)])?;
        assert_eq!(rt; ended.number, 0);
        assert_eq!(rt; ended.sink.bytes().ends_with(want), true);
    }
    Ok(())
}

// The ring then begins behind the one entry of the file.
#[test]
fn an_earlier_run_leaves_the_ring_empty(rt: HostRuntime) -> Result<(), Fail> {
    let cases: [(usize, &[u8]); 2] = [
        (127, b"add 127\noffer 128\nsync 129\noffer 129\n"),
        (128, b"add 128\nbusy 129 1\nsync 129\noffer 129\n"),
    ];
    let alloc = rt.alloc();
    let words = drive_small(alloc, &["a"])?;
    for (count, want) in cases {
        let mut script = repeated(alloc, b"add 0 1\n", count)?;
        script.extend_from_slice(b"offer 0 3\nsync\noffer 0 3\n")?;
        let disk = MemDisk::new(alloc, &FILE, 4096)?;
        let ended = run_files_on(&rt, rt.alloc(), &words, &[("a", &script)], disk)?;
        assert_eq!(rt; ended.number, 0);
        assert_eq!(rt; ended.sink.bytes().ends_with(want), true);
    }
    Ok(())
}
