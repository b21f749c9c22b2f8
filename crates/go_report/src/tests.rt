// The texts of replies as they were worked out by hand.

use super::*;
use go_text::Text;
use go_word::{Edge, Ranked};
use sqlite_items::Boxed;
use std::alloc::{AllocError, Global};
use std::test::Fail;

fn text_of(alloc: Global, reply: &Reply) -> Result<Vec<u8>, AllocError> {
    let mut out = Vec::new(alloc);
    render(reply, &mut out)?;
    Ok(out)
}

#[test]
fn a_session_begins_with_its_heading(rt: HostRuntime) -> Result<(), Fail> {
    let list = Ids::of(rt.alloc(), &[5])?;
    let replies = [
        Reply::Added { position: 0 },
        Reply::Deleted { position: 12 },
        Reply::Viewed { place: 0, front: 1 },
        Reply::Neighbours { vertex: 3, list },
    ];
    let mut out = Vec::new(rt.alloc());
    put_heading(1, &mut out)?;
    for reply in &replies {
        render(reply, &mut out)?;
    }
    assert_eq!(rt;
        out.as_slice(),
        b"session 1\nadd 0\ndel 12\nview 0 at 1\nneigh 3: 5\n".as_slice()
    );
    Ok(())
}

#[test]
fn a_list_has_a_blank_before_each_item(rt: HostRuntime) -> Result<(), Fail> {
    let none = Reply::Neighbours {
        vertex: 1,
        list: Ids::from_vec(Vec::new(rt.alloc())),
    };
    assert_eq!(rt;
        text_of(rt.alloc(), &none)?.as_slice(),
        b"neigh 1:\n".as_slice()
    );
    let several = Reply::Neighbours {
        vertex: 1,
        list: Ids::from_vec(vec![in rt.alloc(); 2, 3, 3, 4294967295]?),
    };
    assert_eq!(rt;
        text_of(rt.alloc(), &several)?.as_slice(),
        b"neigh 1: 2 3 3 4294967295\n".as_slice()
    );
    Ok(())
}

#[test]
fn each_reply_has_its_line(rt: HostRuntime) -> Result<(), Fail> {
    let alloc = rt.alloc();
    let mut last = LastPosition::new(alloc)?;
    last.set(Some(1001));
    let replies = [
        Reply::Offered { position: 128 },
        Reply::Busy {
            head: 128,
            released: 0,
        },
        Reply::Loaded {
            name: Boxed::new(alloc, Text::of(alloc, "big.txt")?)?,
            count: 1000,
            last,
        },
        Reply::Loaded {
            name: Boxed::new(alloc, Text::of(alloc, "none")?)?,
            count: 0,
            last: LastPosition::new(alloc)?,
        },
        Reply::Degree {
            vertex: 0,
            degree: 300,
        },
        Reply::Level {
            root: 0,
            vertex: 1,
            level: Some(1),
        },
        Reply::Level {
            root: 0,
            vertex: 3,
            level: None,
        },
        Reply::Dropped { place: 0 },
        Reply::Streamed {
            place: 1,
            cursor: 8,
        },
        Reply::Closed { place: 3 },
        Reply::Until { asked: 3 },
        Reply::Synced { front: 1002 },
        Reply::Compacted,
    ];
    let mut out = Vec::new(alloc);
    for reply in &replies {
        render(reply, &mut out)?;
    }
    assert_eq!(rt;
        out.as_slice(),
        b"offer 128\nbusy 128 0\nload big.txt: 1000 edges, last 1001\nload none: 0 edges\ndegree 0: 300\nlevel 0 1: 1\n\
level 0 3: none\ndrop 0\nstream 1 at 8\nclose 3\nuntil 3\nsync 1002\ncompact\n"
            .as_slice()
    );
    Ok(())
}

#[test]
fn a_reply_of_a_list_shows_all_of_it(rt: HostRuntime) -> Result<(), Fail> {
    let alloc = rt.alloc();
    let addition = Edge {
        del: false,
        src: 1,
        dst: 2,
    };
    let deletion = Edge {
        del: true,
        ..addition
    };
    let ranked = |vertex, degree| Ranked { vertex, degree };
    let replies = [
        Reply::Levels {
            root: 0,
            counts: Boxed::new(alloc, Ids::of(alloc, &[1, 2, 1])?)?,
            unreached: 2,
        },
        Reply::Rank {
            list: RankList::of(alloc, &[ranked(0, 2), ranked(1, 1), ranked(2, 1)])?,
        },
        Reply::Hop {
            vertex: 0,
            list: Ids::of(alloc, &[1, 2])?,
        },
        Reply::Updated {
            place: 0,
            from: 0,
            to: 2,
            list: Boxed::new(alloc, EdgeList::of(alloc, &[addition, deletion])?)?,
        },
        Reply::Updated {
            place: 0,
            from: 2,
            to: 2,
            list: Boxed::new(alloc, EdgeList::from_vec(Vec::new(alloc)))?,
        },
    ];
    let mut out = Vec::new(alloc);
    for reply in &replies {
        render(reply, &mut out)?;
    }
    assert_eq!(rt;
        out.as_slice(),
        b"bfs 0: 1 2 1 none 2\nrank: 0=2 1=1 2=1\nhop 0: 1 2\nupdate 0 0..2\n+ 1 2\n- 1 2\nupdate 0 2..2\n".as_slice()
    );
    Ok(())
}

#[test]
fn a_list_of_vertices_is_kept_in_order(rt: HostRuntime) -> Result<(), Fail> {
    let ids = Ids::of(rt.alloc(), &[7, 0, 7])?;
    assert_eq!(rt; ids.as_slice(), [7, 0, 7].as_slice());
    Ok(())
}
