// Whole sessions over a list as a store, at rows that were worked out by hand.
ghost use Rattle.std.specs.Prelude.{◌≡◌, ℕ, ◌<◌, ◌++◌, ◌∷◌, [], length, All, IfOk, OnOk};
ghost use Rattle.go_word.specs.Log.{IsWithin};
ghost use Rattle.go_script.specs.Commands.{commands_of};
ghost use Rattle.go_script.specs.Until.{loads_in};

use crate::list_store::ListStore;
use crate::quota::is_load;
use crate::{Session, Step};
use go_io::{CountingGate, Gate, NoGate};
use go_script::{Script, parse};
use go_word::{Edge, Edges};
use std::alloc::{AllocError, Global};
use std::process::Abort;
use std::test::Fail;

// A session that has answered all commands of a script, as far as none waits. Its loads put the lists in their order.
fn answered<G: Gate>(
    rt: &impl Abort,
    alloc: Global,
    vertices: u32,
    ring: u64,
    script: &[u8],
    loads: &[Edges],
    gate: &G,
) -> Result<Session, Fail> {
    let script = parse(alloc, script, vertices)?;
    let lists = lists_for(rt, alloc, &script, loads.len())?;
    assert_within(rt, vertices, loads);
    let mut session = Session::new(alloc, 1, script, &lists)?;
    let quota = session.puts(loads);
    assert!(rt; quota < 100);
    let mut store = ListStore::new(alloc, vertices, ring, quota);
    for _ in 0..100 {
        match session.step(&mut store, loads, gate) {
            Step::Did => {}
            Step::Waits { seen: _ } | Step::Ended => return Ok(session),
            Step::Stopped { why: _ } => return Err(Fail::new("stopped")),
        }
    }
    Err(Fail::new("too long"))
}

// The numbers of the lists that the loads of a script put, in their order.
fn lists_for(
    rt: &impl Abort,
    alloc: Global,
    script: &Script,
    loads: usize,
) -> Result<Vec<u32>, AllocError>
    ensures all { IfOk result (λ lists. length lists.items ≡ loads_in (commands_of script.now)) }
    ensures within { IfOk result (λ lists. All (λ n. n < loads) lists.items) }
{
    let mut lists = Vec::new(alloc);
    for i in 0..script.len() {
        if is_load(script.command(i)) {
            push_next(rt, loads, &mut lists)?;
        }
    }
    Ok(lists)
}

// Takes the next number, which must be that of a list.
fn push_next(rt: &impl Abort, loads: usize, lists: &mut Vec<u32>) -> Result<(), AllocError>
    ensures { OnOk result ((n : ℕ) × (lists.new.items ≡ lists.old.items ++ n ∷ []) × (n < loads)) }
{
    let next = lists.len();
    assert!(rt; next < loads);
    assert!(rt; next < 100);
    lists.push(next as u32)?;
    Ok(())
}

// That the vertices of each entry are there.
fn assert_within(rt: &impl Abort, vertices: u32, loads: &[Edges])
    ensures { All (λ list. All (IsWithin vertices) list) loads.now }
{
    for list in loads {
        assert_list_within(rt, vertices, list.as_slice());
    }
}

fn assert_list_within(rt: &impl Abort, vertices: u32, edges: &[Edge])
    ensures { All (IsWithin vertices) edges.now }
{
    for edge in edges {
        assert_edge_within(rt, vertices, *edge);
    }
}

fn assert_edge_within(rt: &impl Abort, vertices: u32, edge: Edge)
    ensures { IsWithin vertices edge }
{
    assert!(rt; edge.src < vertices);
    assert!(rt; edge.dst < vertices);
}

// The text of a script's session over 8 vertices and a ring of 4 slots, cut at a front where one is given.
fn text_of(
    rt: &impl Abort,
    alloc: Global,
    script: &[u8],
    loads: &[Edges],
    durable: Option<u64>,
) -> Result<Vec<u8>, Fail> {
    let session = answered(rt, alloc, 8, 4, script, loads, &NoGate)?;
    let mut text = Vec::new(alloc);
    session.write(durable, &mut text)?;
    Ok(text)
}

fn edge(del: bool, src: u32, dst: u32) -> Edge {
    Edge { del, src, dst }
}

#[test]
fn replies_are_those_of_the_rows(rt: HostRuntime) -> Result<(), Fail> {
    let cases: [(&[u8], &[u8]); 9] = [
        (b"", b"session 1\n"),
        (
            b"add 3 5\nview 0\nneigh 0 3\n",
            b"session 1\nadd 0\nview 0 at 1\nneigh 3: 5\n",
        ),
        (
            b"add 1 2\nview 0\nadd 1 3\nneigh 0 1\ndegree 0 1\n",
            b"session 1\nadd 0\nview 0 at 1\nadd 1\nneigh 1: 2\ndegree 1: 1\n",
        ),
        (
            b"add 1 2\nadd 1 2\nadd 1 3\ndel 1 2\nview 0\nneigh 0 1\n",
            b"session 1\nadd 0\nadd 1\nadd 2\ndel 3\nview 0 at 4\nneigh 1: 2 3\n",
        ),
        (
            b"view 2\nadd 7 7\nview 1\nneigh 2 7\ndrop 2\nview 2\nneigh 2 7\n",
            b"session 1\nview 2 at 0\nadd 0\nview 1 at 1\nneigh 7:\ndrop 2\nview 2 at 1\nneigh 7: 7\n",
        ),
        (
            b"offer 1 2\noffer 1 3\nadd 1 4\nadd 1 5\noffer 1 6\ndel 1 2\nview 0\nneigh 0 1\n",
            b"session 1\noffer 0\noffer 1\nadd 2\nadd 3\nbusy 4 0\ndel 4\nview 0 at 5\nneigh 1: 3 4 5\n",
        ),
        (
            b"add 1 2\nstream 3\nadd 1 3\ndel 1 2\nadd 2 1\nupdate 3 2\nupdate 3 2\nupdate 3 2\nclose 3\n",
            b"session 1\nadd 0\nstream 3 at 1\nadd 1\ndel 2\nadd 3\nupdate 3 1..3\n+ 1 3\n- 1 2\nupdate 3 3..4\n+ 2 1\nupdate 3 4..4\nclose 3\n",
        ),
        (
            b"add 1 2\nuntil 1\nsync\ncompact\nuntil 2\nadd 1 3\n",
            b"session 1\nadd 0\nuntil 1\nsync 1\ncompact\n",
        ),
        (
            b"add 0 1\nadd 1 2\nadd 2 0\nadd 2 3\nview 0\nlevel 0 0 3\nlevel 0 3 0\nlevel 0 5 5\n",
            b"session 1\nadd 0\nadd 1\nadd 2\nadd 3\nview 0 at 4\nlevel 0 3: 3\nlevel 3 0: none\nlevel 5 5: 0\n",
        ),
    ];
    for (script, want) in cases {
        let text = text_of(&rt, rt.alloc(), script, &[], None)?;
        assert_eq!(rt; text.as_slice(), want);
    }
    Ok(())
}

#[test]
fn a_web_of_pages_is_searched(rt: HostRuntime) -> Result<(), Fail> {
    let script =
        b"add 0 1\nadd 0 2\nadd 1 2\nadd 3 0\nadd 2 4\nadd 4 2\nview 0\nbfs 0 0\nrank 0 3\nhop 0 0\n";
    let session = answered(&rt, rt.alloc(), 6, 128, script.as_slice(), &[], &NoGate)?;
    let mut text = Vec::new(rt.alloc());
    session.write(None, &mut text)?;
    let want =
        b"session 1\nadd 0\nadd 1\nadd 2\nadd 3\nadd 4\nadd 5\nview 0 at 6\nbfs 0: 1 2 1 none 2\nrank: 0=2 1=1 2=1\nhop 0: 1 2\n";
    assert_eq!(rt; text.as_slice(), want.as_slice());
    Ok(())
}

#[test]
fn loads_put_their_lists_in_turn(rt: HostRuntime) -> Result<(), Fail> {
    let one = Edges::of(
        rt.alloc(),
        &[edge(false, 1, 2), edge(false, 1, 3), edge(true, 1, 2)],
    )?;
    let two = Edges::of(rt.alloc(), &[])?;
    let three = Edges::of(rt.alloc(), &[edge(false, 1, 5)])?;
    let loads = [one, two, three];
    let script = b"load a.gs\nadd 1 4\nload b.gs\nload a.gs\nview 0\nneigh 0 1\n";
    let text = text_of(&rt, rt.alloc(), script.as_slice(), &loads, None)?;
    let want =
        b"session 1\nload a.gs: 3 edges, last 2\nadd 3\nload b.gs: 0 edges\nload a.gs: 1 edges, last 4\nview 0 at 5\nneigh 1: 3 4 5\n";
    assert_eq!(rt; text.as_slice(), want.as_slice());
    Ok(())
}

#[test]
fn replies_are_cut_at_the_first_that_rests_on_more(rt: HostRuntime) -> Result<(), Fail> {
    let script = b"add 1 2\nview 0\nadd 1 3\nneigh 0 1\ndrop 0\nview 0\nneigh 0 1\n".as_slice();
    for (durable, want) in [
        (0, b"session 1\n".as_slice()),
        (1, b"session 1\nadd 0\nview 0 at 1\n"),
        (
            2,
            b"session 1\nadd 0\nview 0 at 1\nadd 1\nneigh 1: 2\ndrop 0\nview 0 at 2\nneigh 1: 2 3\n",
        ),
    ] {
        let text = text_of(&rt, rt.alloc(), script, &[], Some(durable))?;
        assert_eq!(rt; text.as_slice(), want);
    }
    Ok(())
}

// Each try of a command passes the gate, and the end does not. No clause says so.
#[test]
fn each_command_passes_the_gate_once(rt: HostRuntime) -> Result<(), Fail> {
    for (script, tries, last) in [
        (b"".as_slice(), 0, (0, 0)),
        (b"add 1 2\n", 1, (1, 0)),
        (b"view 0\nneigh 0 1\n", 2, (1, 1)),
        (b"add 1 2\nuntil 2\nsync\n", 2, (1, 1)),
    ] {
        let gate = CountingGate::new();
        let _session = answered(&rt, rt.alloc(), 8, 4, script, &[], &gate)?;
        assert_eq!(rt; (gate.tries(), gate.last(), gate.turns()), (tries, last, 0));
    }
    Ok(())
}
