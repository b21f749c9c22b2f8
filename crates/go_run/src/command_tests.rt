// Whole runs of all commands over texts in memory, at rows that were worked out by hand.

use crate::fixture::{drive_small, run_files};
use crate::rows::assert_rows;
use std::alloc::Global;
use std::process::Abort;
use std::sync::Wait;
use std::test::Fail;
use std::thread::Threads;

const TURNS: &str = "
$ drive --vertices 8 --ring 128 --shards 2 a.gs b.gs
> a.gs
add 0 1
view 0
> b.gs
add 0 2
view 0
< 0
session 1
add 0
view 0 at 2
session 2
add 1
view 0 at 2
$ drive --vertices 8 --ring 128 --shards 2 a.gs b.gs
> a.gs
add 0 1
add 0 2
> b.gs
add 0 3
until 3
view 0
neigh 0 0
< 0
session 1
add 0
add 2
session 2
add 1
until 3
view 0 at 3
neigh 0: 1 3 2
$ drive --vertices 8 --ring 128 --shards 2 a.gs a.gs
> a.gs
add 1 2
sync
< 0
session 1
add 0
sync 2
session 2
add 1
sync 2
$ drive --vertices 8 --ring 128 --shards 2 a.gs b.gs
> a.gs
until 2
stream 0
update 0 9
> b.gs
add 0 1
del 0 1
< 0
session 1
until 2
stream 0 at 2
update 0 2..2
session 2
add 0
del 1
$ drive --vertices 8 --ring 128 --shards 2 a.gs b.gs
> a.gs
stream 0
until 3
update 0 2
update 0 9
> b.gs
add 0 1
sync
del 0 1
add 5 6
< 0
session 1
stream 0 at 0
until 3
update 0 0..2
+ 0 1
- 0 1
update 0 2..3
+ 5 6
session 2
add 0
sync 1
del 1
add 2
$ drive --vertices 8 --ring 128 --shards 2 a.gs b.gs
> a.gs
> b.gs
add 0 1
< 0
session 1
session 2
add 0";

const ANSWERS: &str = "
$ drive --vertices 8 --ring 128 --shards 2 a.gs
> a.gs
stream 0
add 1 2
del 1 2
update 0 1
update 0 9
close 0
< 0
session 1
stream 0 at 0
add 0
del 1
update 0 0..1
+ 1 2
update 0 1..2
- 1 2
close 0
$ drive --vertices 8 --ring 128 --shards 2 a.gs
> a.gs
add 1 2
view 0
add 1 3
del 1 2
sync
compact
neigh 0 1
view 1
neigh 1 1
drop 0
compact
neigh 1 1
< 0
session 1
add 0
view 0 at 1
add 1
del 2
sync 3
compact
neigh 1: 2
view 1 at 3
neigh 1: 3
drop 0
compact
neigh 1: 3
$ drive --vertices 8 --ring 128 --shards 2 a.gs
> a.gs
add 1 2
view 0
add 1 3
compact
degree 0 1
drop 0
view 0
degree 0 1
drop 0
stream 0
close 0
view 0
< 0
session 1
add 0
view 0 at 1
add 1
compact
degree 1: 1
drop 0
view 0 at 2
degree 1: 2
drop 0
stream 0 at 2
close 0
view 0 at 2
$ drive --vertices 8 --ring 128 --shards 2 a.gs
> a.gs
add 0 1
until 1
offer 0 2
sync
< 0
session 1
add 0
until 1
offer 1
sync 2
$ drive --vertices 6 --ring 128 --shards 2 a.gs
> a.gs
add 0 1
add 0 2
add 1 2
add 3 0
add 2 4
add 4 2
view 0
bfs 0 0
rank 0 3
hop 0 0
< 0
session 1
add 0
add 1
add 2
add 3
add 4
add 5
view 0 at 6
bfs 0: 1 2 1 none 2
rank: 0=2 1=1 2=1
hop 0: 1 2
$ drive --vertices 4 --ring 128 --shards 2 a.gs
> a.gs
add 0 0
add 0 1
view 0
degree 0 0
level 0 0 0
level 0 0 1
level 0 0 3
< 0
session 1
add 0
add 1
view 0 at 2
degree 0: 2
level 0 0: 0
level 0 1: 1
level 0 3: none
$ drive --vertices 8 --ring 128 --shards 2 a.gs
> a.gs
add 1 2
add 1 2
add 1 3
del 1 2
view 0
neigh 0 1
degree 0 1
hop 0 1
rank 0 1000
< 0
session 1
add 0
add 1
add 2
del 3
view 0 at 4
neigh 1: 2 3
degree 1: 2
hop 1: 2 3
rank: 1=2 0=0 2=0 3=0 4=0 5=0 6=0 7=0";

const LOADS: &str = "
$ drive --vertices 6 --ring 128 --shards 2 a.gs
> a.gs
load web.txt
view 0
bfs 0 0
rank 0 3
hop 0 0
> web.txt
# Directed graph: example.txt\r
# FromNodeId\tToNodeId\r
0\t1\r
0\t2\r
1\t2\r
3\t0\r
2\t4\r
4\t2\r
< 0
session 1
load web.txt: 6 edges, last 5
view 0 at 6
bfs 0: 1 2 1 none 2
rank: 0=2 1=1 2=1
hop 0: 1 2
$ drive --vertices 8 --ring 128 --shards 2 a.gs b.gs
> a.gs
load two
until 4
view 0
degree 0 1
> b.gs
load two
sync
> two
1 4
1 5
< 0
session 1
load two: 2 edges, last 1
until 4
view 0 at 4
degree 1: 4
session 2
load two: 2 edges, last 3
sync 4
$ drive --vertices 8 --ring 128 --shards 2 a.gs
> a.gs
load none
stream 1
> none
# none
< 0
session 1
load none: 0 edges
stream 1 at 0";

const REFUSALS: &str = "
$ drive --vertices 8 --ring 128 --shards 2 a.gs
> a.gs
until 1
< 2 graphone: a.gs: line 1: until
$ drive --vertices 8 --ring 128 --shards 2 a.gs
> a.gs
drop 0
< 2 graphone: a.gs: line 1: place
$ drive --vertices 8 --ring 128 --shards 2 a.gs
> a.gs
view 0
close 0
< 2 graphone: a.gs: line 2: place
$ drive --vertices 8 --ring 128 --shards 2 a.gs
> a.gs
stream 0
neigh 0 1
< 2 graphone: a.gs: line 2: place
$ drive --vertices 8 --ring 128 --shards 2 a.gs
> a.gs
rank 0 0
< 2 graphone: a.gs: line 1: number
$ drive --vertices 8 --ring 128 --shards 2 a.gs
> a.gs
sync 1
< 2 graphone: a.gs: line 1: count
$ drive --vertices 8 --ring 128 --shards 2 a.gs
> a.gs
offer 0 1
until 1
< 2 graphone: a.gs: line 2: until
$ drive --vertices 8 --ring 128 --shards 2 a.gs
> a.gs
load x.txt
< 3 graphone: x.txt: not there
$ drive --vertices 8 --ring 128 --shards 2 a.gs
> a.gs
load x.txt
> x.txt
1 2 3
< 2 graphone: x.txt: line 1: count
$ drive --vertices 8 --ring 128 --shards 2 a.gs
> a.gs
load x.txt
> x.txt
# a
1 x
< 2 graphone: x.txt: line 2: number
$ drive --vertices 8 --ring 128 --shards 2 a.gs
> a.gs
load x.txt
> x.txt
- 1 9
< 2 graphone: x.txt: line 1: vertex
$ drive --vertices 8 --ring 128 --shards 2 a.gs
> a.gs
load x.txt
until 3
> x.txt
1 2
3 4
< 2 graphone: a.gs: line 2: until";

#[test]
fn several_sessions_take_turns(rt: HostRuntime) -> Result<(), Fail> {
    assert_rows(&rt, rt.alloc(), 6, TURNS)
}

#[test]
fn streams_views_and_questions_are_answered(rt: HostRuntime) -> Result<(), Fail> {
    assert_rows(&rt, rt.alloc(), 7, ANSWERS)
}

#[test]
fn edge_files_are_loaded(rt: HostRuntime) -> Result<(), Fail> {
    assert_rows(&rt, rt.alloc(), 3, LOADS)
}

#[test]
fn first_refusal_of_scripts_and_edge_files_is_told(rt: HostRuntime) -> Result<(), Fail> {
    assert_rows(&rt, rt.alloc(), 12, REFUSALS)
}

// A binary file of the addition and the deletion of 1 to 2.
const E_BIN: [u8; 24] =
    *b"GRONEBIN\x02\x00\x00\x80\x00\x00\x00\x00\x02\x00\x00\x80\x00\x00\x00\x80";

// Runs a script over an edge file `e`, which ends well and prints this.
fn assert_loaded<R: Threads + Wait + Abort + Sync>(
    rt: &R,
    alloc: Global,
    script: &[u8],
    edges: &[u8],
    want: &[u8],
) -> Result<(), Fail> {
    let words = drive_small(alloc, &["a"])?;
    let ended = run_files(rt, alloc, &words, &[("a", script), ("e", edges)])?;
    assert_eq!(rt; ended.number, 0);
    assert_eq!(rt; ended.sink.bytes(), want);
    Ok(())
}

#[test]
fn an_edge_file_need_not_end_with_a_line_feed(rt: HostRuntime) -> Result<(), Fail> {
    let alloc = rt.alloc();
    assert_loaded(
        &rt,
        alloc,
        b"load e\nview 0\nneigh 0 1\n",
        &E_BIN,
        b"session 1\nload e: 2 edges, last 1\nview 0 at 2\nneigh 1:\n",
    )?;
    assert_loaded(
        &rt,
        alloc,
        b"load e\nview 0\nneigh 0 1\nload e\nstream 1\n",
        b"1 4\n-1 4\n1 5",
        b"session 1\nload e: 3 edges, last 2\nview 0 at 3\nneigh 1: 5\nload e: 3 edges, last 5\nstream 1 at 6\n",
    )
}
