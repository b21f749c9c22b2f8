// The counts of all vertices at a front, and words by vertex.
use crate::ByVertex;
use crate::fixture::{add, del, grown};
use go_word::plain;
use std::test::Fail;

#[test]
fn each_vertex_is_counted_at_an_earlier_front_and_at_the_latest(
    rt: HostRuntime,
) -> Result<(), Fail> {
    let shard = grown(rt.alloc())?;
    let mut counts = Vec::new(rt.alloc());
    shard.counts_at(3, &mut counts)?;
    shard.counts_at(9, &mut counts)?;
    assert_eq!(rt;
        counts.as_slice(),
        [2, 1, 0, 0, 0, 4, 1, 0, 0, 0].as_slice()
    );
    Ok(())
}

#[test]
fn the_words_of_a_vertex_lie_together(rt: HostRuntime) -> Result<(), Fail> {
    let by = ByVertex::new(rt.alloc(), 3, &[add(2, 1), add(0, 3), del(2, 1)])?;
    assert_eq!(rt; by.of(0), [plain(add(0, 3))].as_slice());
    assert_eq!(rt; by.of(1).len(), 0);
    assert_eq!(rt; by.of(2), [plain(add(2, 1)), plain(del(2, 1))].as_slice());
    Ok(())
}
