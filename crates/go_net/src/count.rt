// The fold by counts, for long lists: what is added stands in the list first, and then the copies that deletions took go at once.
ghost use Rattle.std.specs.Prelude.{◌≡◌, ◌≤◌, ◌++◌, length, replicate, take, IfOk, OnOk};
ghost use Rattle.std.specs.List.Sorted.{IsStrictlyIncreasing};
ghost use Rattle.go_net.specs.Net.{net_of};
ghost use Rattle.go_net.specs.Tally.{additions, count_at, without_counted, HasTargetsOf, IsTally};

use crate::tally::{add, count_down, delete};
use crate::targets::targets_of;
use go_word::decode;
use std::alloc::{AllocError, Global};

/// Appends all that is added to the list, and then takes out what the deletions took.
pub(crate) fn by_counts(alloc: Global, words: &[u64], list: &mut Vec<u32>) -> Result<(), AllocError>
    ensures { OnOk result (list.new.items ≡ net_of list.old.items words.now) }
{
    let targets = targets_of(alloc, words)?;
    let mut removed = removals(alloc, &targets, list, words)?;
    append_additions(words, list)?;
    remove_counted(&targets, &mut removed, list);
    Ok(())
}

// How many copies of each target the deletions take.
fn removals(
    alloc: Global,
    targets: &[u32],
    base: &[u32],
    tail: &[u64],
) -> Result<Vec<usize>, AllocError>
    requires rising { IsStrictlyIncreasing targets.now }
    requires all { HasTargetsOf targets.now tail.now }
    ensures paired { IfOk result (λ removed. length removed.items ≡ length targets.now) }
    ensures taken { IfOk result (λ removed.
        without_counted (count_at targets.now removed.items) (base.now ++ additions tail.now)
        ≡ net_of base.now tail.now) }
{
    let mut present = vec![in alloc; 0usize; targets.len()]?;
    let mut removed = vec![in alloc; 0usize; targets.len()]?;
    count_all(targets, &mut present, &mut removed, base, tail);
    Ok(removed)
}

// Counts, word by word, the copies that stand and those that are taken.
fn count_all(
    targets: &[u32],
    present: &mut [usize],
    removed: &mut [usize],
    base: &[u32],
    tail: &[u64],
)
    requires rising { IsStrictlyIncreasing targets.now }
    requires all { HasTargetsOf targets.now tail.now }
    requires present { present.old ≡ replicate (length targets.now) 0 }
    requires removed { removed.old ≡ replicate (length targets.now) 0 }
    ensures { IsTally targets.now present.new removed.new
        (base.now ++ additions tail.now) (net_of base.now tail.now) }
{
    for d in base {
        add(targets, present, *d);
    }
    for word in tail {
        let edge = decode(*word);
        if edge.del {
            delete(targets, present, removed, edge.dst);
        } else {
            add(targets, present, edge.dst);
        }
    }
}

// Appends the destinations of the additions.
fn append_additions(words: &[u64], list: &mut Vec<u32>) -> Result<(), AllocError>
    ensures { OnOk result (list.new.items ≡ list.old.items ++ additions words.now) }
{
    for word in words {
        let edge = decode(*word);
        if !edge.del {
            list.push(edge.dst)?;
        }
    }
    Ok(())
}

// Takes the first copies of each target out of the list, as many as are counted.
fn remove_counted(targets: &[u32], counts: &mut [usize], list: &mut Vec<u32>)
    requires rising { IsStrictlyIncreasing targets.now }
    requires paired { length counts.old ≡ length targets.now }
    ensures { list.new.items ≡ without_counted (count_at targets.now counts.old) list.old.items }
{
    let kept = gather(targets, counts, list);
    list.truncate(kept);
}

// Moves what stays to the front of the list, and gives how much that is.
fn gather(targets: &[u32], counts: &mut [usize], list: &mut [u32]) -> usize
    requires rising { IsStrictlyIncreasing targets.now }
    requires paired { length counts.old ≡ length targets.now }
    ensures within { result ≤ length list.new }
    ensures front { take result list.new ≡ without_counted (count_at targets.now counts.old) list.old }
{
    let mut kept = 0;
    for i in 0..list.len() {
        let d = list[i];
        if !count_down(targets, counts, d) {
            list[kept] = d;
            kept += 1;
        }
    }
    kept
}
