//! Worked rows of a chain.

use crate::Chain;
use std::test::Fail;

// The words from 0 on, reserved one at a time.
fn counted(rt: &HostRuntime, len: u64) -> Result<Chain, Fail> {
    let mut chain = Chain::new(rt.alloc());
    for word in 0..len {
        chain.reserve(1)?;
        chain.push(word);
    }
    Ok(chain)
}

#[test]
fn words_stand_on_both_sides_of_each_class_border(rt: HostRuntime) -> Result<(), Fail> {
    let chain = counted(&rt, 597)?;
    assert_eq!(rt; chain.len(), 597);
    assert!(rt; !chain.is_empty());
    for i in [0, 3, 4, 19, 20, 83, 84, 339, 340, 595, 596] {
        assert!(rt; i < chain.len());
        assert_eq!(rt; chain.get(i), i as u64, "at {i}");
    }
    Ok(())
}

#[test]
fn a_slice_goes_as_far_as_its_words_lie_together(rt: HostRuntime) -> Result<(), Fail> {
    let chain = counted(&rt, 597)?;
    for (from, to, len) in [
        (0, 597, 4),
        (2, 3, 1),
        (4, 597, 16),
        (20, 597, 64),
        (84, 597, 256),
        (100, 110, 10),
        (596, 597, 1),
    ] {
        assert!(rt; from < to && to <= chain.len());
        let words = chain.slice(from, to);
        assert_eq!(rt; words.len(), len, "at {from}");
        assert_eq!(rt; words.first(), Some(&(from as u64)), "at {from}");
    }
    Ok(())
}

#[test]
fn a_front_is_copied_behind_what_is_there(rt: HostRuntime) -> Result<(), Fail> {
    let chain = counted(&rt, 597)?;
    for k in [0, 1, 4, 5, 20, 84, 341, 597] {
        assert!(rt; k <= chain.len());
        let mut out = vec![in rt.alloc(); 1000u64]?;
        chain.copy_front(k, &mut out)?;
        assert_eq!(rt; out.len(), k + 1, "of {k}");
        assert_eq!(rt; out.first(), Some(&1000), "of {k}");
        if k > 0 {
            assert_eq!(rt; out.last(), Some(&(k as u64 - 1)), "of {k}");
        }
    }
    Ok(())
}

#[test]
fn what_was_reserved_at_once_needs_nothing_more(rt: HostRuntime) -> Result<(), Fail> {
    let mut chain = Chain::new(rt.alloc());
    assert!(rt; chain.is_empty());
    chain.reserve(597)?;
    let spare = chain.spare();
    assert!(rt; spare >= 597);
    for word in 0..597u64 {
        assert!(rt; chain.spare() >= 1);
        chain.push(word);
    }
    assert_eq!(rt; chain.spare(), spare - 597);
    assert_eq!(rt; chain.len(), 597);
    Ok(())
}

#[test]
fn a_slice_goes_behind_what_is_there(rt: HostRuntime) -> Result<(), Fail> {
    let mut chain = counted(&rt, 3)?;
    chain.reserve(4)?;
    let spare = chain.spare();
    assert!(rt; spare >= 4);
    chain.extend_from_slice(&[30, 40, 50, 60]);
    assert_eq!(rt; chain.spare(), spare - 4);
    assert_eq!(rt; chain.len(), 7);
    for (i, word) in [(0, 0), (2, 2), (3, 30), (4, 40), (6, 60)] {
        assert!(rt; i < chain.len());
        assert_eq!(rt; chain.get(i), word, "at {i}");
    }
    chain.extend_from_slice(&[]);
    assert_eq!(rt; chain.len(), 7);
    Ok(())
}

#[test]
fn a_shortened_chain_takes_other_words_in_their_place(rt: HostRuntime) -> Result<(), Fail> {
    for len in [0, 3, 4, 19, 20, 99] {
        let mut chain = counted(&rt, 100)?;
        chain.truncate(len);
        assert_eq!(rt; chain.len(), len);
        assert!(rt; chain.spare() >= 100 - len, "of {len}");
        assert!(rt; chain.spare() >= 1, "of {len}");
        chain.push(700);
        assert!(rt; len < chain.len());
        assert_eq!(rt; chain.get(len), 700, "of {len}");
        if len > 0 {
            assert_eq!(rt; chain.get(len - 1), len as u64 - 1, "of {len}");
        }
        chain.truncate(200);
        assert_eq!(rt; chain.len(), len + 1);
    }
    Ok(())
}

#[test]
fn a_hub_of_over_a_million_words_grows_by_slices(rt: HostRuntime) -> Result<(), Fail> {
    let mut chain = Chain::new(rt.alloc());
    let mut slice = Vec::with_capacity(rt.alloc(), 4096)?;
    for first in 0..245u64 {
        slice.clear();
        for offset in 0..4096 {
            slice.push(4096 * first + offset)?;
        }
        chain.reserve(slice.len())?;
        assert!(rt; slice.len() <= chain.spare(), "at {first}");
        assert!(rt; chain.spare() <= slice.len() + 255, "at {first}");
        chain.extend_from_slice(&slice);
    }
    assert_eq!(rt; chain.len(), 1_003_520);
    for i in [
        0, 83, 84, 339, 340, 65_619, 65_620, 524_371, 524_372, 1_000_000, 1_003_519,
    ] {
        assert!(rt; i < chain.len());
        assert_eq!(rt; chain.get(i), i as u64, "at {i}");
    }
    assert!(rt; 1_000_001 <= chain.len());
    let mut out = Vec::new(rt.alloc());
    chain.copy_front(1_000_001, &mut out)?;
    assert_eq!(rt; (out.len(), out.last()), (1_000_001, Some(&1_000_000)));
    Ok(())
}

#[test]
fn more_than_any_memory_holds_is_refused_at_once(rt: HostRuntime) -> Result<(), Fail> {
    for len in [0, 1, 5, 100] {
        let mut chain = counted(&rt, len)?;
        assert!(rt; chain.reserve(usize::MAX).is_err(), "with {len}");
        assert_eq!(rt; chain.len(), len as usize);
        chain.reserve(1)?;
        chain.push(7);
        assert!(rt; (len as usize) < chain.len());
        assert_eq!(rt; chain.get(len as usize), 7, "with {len}");
    }
    Ok(())
}
