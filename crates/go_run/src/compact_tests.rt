// Whole runs with compactions: views that outlive them, views that are dropped, and deletions of edges that were compacted.

use crate::fixture::{drive_small, run_files};
use std::alloc::{AllocError, Global};
use std::test::Fail;

// What ten compactions come between: an edge that stays, and one that is deleted before it. Three entries each.
fn ten_times(alloc: Global, script: &mut Vec<u8>, replies: &mut Vec<u8>) -> Result<(), AllocError> {
    for round in 0..10u64 {
        let first = 3 * round;
        script.extend_from_slice(b"add 1 4\ndel 1 4\nadd 1 5\ncompact\nneigh 0 1\ndegree 0 1\n")?;
        let text = format!(in alloc;
            "add {}\ndel {}\nadd {}\ncompact\nneigh 1: 2 3\ndegree 1: 2\n",
            first + 2,
            first + 3,
            first + 4
        )?;
        replies.extend_from_slice(text.as_bytes())?;
    }
    Ok(())
}

#[test]
fn a_view_outlives_ten_compactions(rt: HostRuntime) -> Result<(), Fail> {
    let alloc = rt.alloc();
    let mut script = Vec::new(alloc);
    let mut want = Vec::new(alloc);
    script.extend_from_slice(b"add 1 2\nadd 1 3\nview 0\n")?;
    want.extend_from_slice(b"session 1\nadd 0\nadd 1\nview 0 at 2\n")?;
    ten_times(alloc, &mut script, &mut want)?;
    script.extend_from_slice(b"view 1\nneigh 1 1\ndrop 0\ncompact\nneigh 1 1\ndegree 1 1\n")?;
    want.extend_from_slice(b"view 1 at 32\nneigh 1: 2 3 5 5 5 5 5 5 5 5 5 5\ndrop 0\n")?;
    want.extend_from_slice(b"compact\nneigh 1: 2 3 5 5 5 5 5 5 5 5 5 5\ndegree 1: 12\n")?;
    let words = drive_small(alloc, &["a"])?;
    let ended = run_files(&rt, rt.alloc(), &words, &[("a", &script)])?;
    assert_eq!(rt; ended.number, 0);
    assert_eq!(rt; ended.sink.bytes(), want.as_slice());
    Ok(())
}

#[test]
fn views_and_deletions_keep_their_meaning(rt: HostRuntime) -> Result<(), Fail> {
    let cases: [(&[u8], &[u8]); 5] = [
        // The one in the middle is given up, and its place is taken again.
        (
            b"add 1 2\nview 0\nadd 1 3\nview 1\nadd 1 4\nview 2\ndrop 1\nadd 1 5\ncompact\n\
              neigh 0 1\nneigh 2 1\nview 1\nneigh 1 1\ndrop 0\ncompact\nneigh 2 1\ndrop 2\ncompact\nneigh 1 1\n",
            b"session 1\nadd 0\nview 0 at 1\nadd 1\nview 1 at 2\nadd 2\nview 2 at 3\ndrop 1\nadd 3\ncompact\n\
              neigh 1: 2\nneigh 1: 2 3 4\nview 1 at 4\nneigh 1: 2 3 4 5\ndrop 0\ncompact\nneigh 1: 2 3 4\ndrop 2\ncompact\nneigh 1: 2 3 4 5\n",
        ),
        // All that is there is compacted when the deletions come: they take the earliest that is left.
        (
            b"add 1 2\nadd 1 3\nadd 1 2\ncompact\nview 0\ndel 1 2\nview 1\nneigh 0 1\nneigh 1 1\ncompact\n\
              neigh 0 1\nneigh 1 1\ndel 1 2\ndel 1 2\nview 2\nneigh 2 1\ndrop 0\ndrop 1\ncompact\nneigh 2 1\ndegree 2 1\n\
              add 1 2\nview 0\nneigh 0 1\nhop 0 1\n",
            b"session 1\nadd 0\nadd 1\nadd 2\ncompact\nview 0 at 3\ndel 3\nview 1 at 4\nneigh 1: 2 3 2\nneigh 1: 3 2\ncompact\n\
              neigh 1: 2 3 2\nneigh 1: 3 2\ndel 4\ndel 5\nview 2 at 6\nneigh 1: 3\ndrop 0\ndrop 1\ncompact\nneigh 1: 3\ndegree 1: 1\n\
              add 6\nview 0 at 7\nneigh 1: 3 2\nhop 1: 2 3\n",
        ),
        // A deletion without effect has none after a compaction either, and a vertex that lost all may have edges again.
        (
            b"del 5 6\ncompact\nadd 5 6\ncompact\nview 0\nneigh 0 5\ndel 5 6\ndrop 0\ncompact\nview 0\nneigh 0 5\n\
              degree 0 5\nadd 5 7\ncompact\nview 1\nneigh 1 5\nneigh 0 5\n",
            b"session 1\ndel 0\ncompact\nadd 1\ncompact\nview 0 at 2\nneigh 5: 6\ndel 2\ndrop 0\ncompact\nview 0 at 3\nneigh 5:\n\
              degree 5: 0\nadd 3\ncompact\nview 1 at 4\nneigh 5: 7\nneigh 5:\n",
        ),
        // A stream gives what came, whatever was forgotten of it.
        (
            b"stream 0\nadd 1 2\ndel 1 2\nadd 2 1\ncompact\ncompact\nupdate 0 9\nupdate 0 9\nclose 0\n",
            b"session 1\nstream 0 at 0\nadd 0\ndel 1\nadd 2\ncompact\ncompact\nupdate 0 0..3\n+ 1 2\n- 1 2\n+ 2 1\nupdate 0 3..3\nclose 0\n",
        ),
        // Nothing is there yet.
        (
            b"compact\nview 0\ncompact\nneigh 0 1\ndrop 0\ncompact\n",
            b"session 1\ncompact\nview 0 at 0\ncompact\nneigh 1:\ndrop 0\ncompact\n",
        ),
    ];
    let alloc = rt.alloc();
    let words = drive_small(alloc, &["a"])?;
    for (script, want) in cases {
        let ended = run_files(&rt, rt.alloc(), &words, &[("a", script)])?;
        assert_eq!(rt; ended.line.as_slice(), b"".as_slice());
        assert_eq!(rt; ended.sink.bytes(), want);
    }
    Ok(())
}

// All eight put, look and compact in the same rounds, so that views of four fronts stand below the entries of all.
#[test]
fn eight_sessions_keep_four_views_each(rt: HostRuntime) -> Result<(), Fail> {
    let alloc = rt.alloc();
    let script = b"view 0\nadd 0 1\nview 1\nadd 0 2\ncompact\nview 2\ndel 0 1\nview 3\ncompact\n\
          neigh 0 0\nneigh 1 0\nneigh 2 0\nneigh 3 0\ndrop 1\ncompact\nneigh 2 0\ndegree 3 0\n"
        .as_slice();
    let words = drive_small(alloc, &["a", "a", "a", "a", "a", "a", "a", "a"])?;
    let ended = run_files(&rt, rt.alloc(), &words, &[("a", script)])?;
    let mut want = Vec::new(alloc);
    for i in 0..8u64 {
        let text = format!(in alloc;
            "session {}\nview 0 at 0\nadd {i}\nview 1 at 8\nadd {}\ncompact\nview 2 at 16\ndel {}\nview 3 at 24\ncompact\n",
            i + 1,
            i + 8,
            i + 16
        )?;
        want.extend_from_slice(text.as_bytes())?;
        want.extend_from_slice(
            b"neigh 0:\nneigh 0: 1 1 1 1 1 1 1 1\nneigh 0: 1 1 1 1 1 1 1 1 2 2 2 2 2 2 2 2\n",
        )?;
        want.extend_from_slice(b"neigh 0: 2 2 2 2 2 2 2 2\ndrop 1\ncompact\n")?;
        want.extend_from_slice(b"neigh 0: 1 1 1 1 1 1 1 1 2 2 2 2 2 2 2 2\ndegree 0: 8\n")?;
    }
    assert_eq!(rt; ended.number, 0);
    assert_eq!(rt; ended.sink.bytes(), want.as_slice());
    Ok(())
}
