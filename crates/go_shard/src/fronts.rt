// The fronts that a shard keeps, in ranges.
ghost use Rattle.std.specs.Prelude.{◌≡◌, ◌≤◌, nat_le, filter};
ghost use Rattle.go_shard.specs.Fronts.{IsGreatest};

/// A range of fronts between which a shard took no entry.
#[derive(Clone, Copy)]
pub struct FrontRange {
    /// The first front.
    pub first: u32,
    /// The last front.
    pub last: u32,
}

/// The greatest front up to a bound that is in one of the ranges, or `least` where none is greater.
pub(crate) fn greatest_up_to(ranges: &[FrontRange], least: u64, bound: u64) -> u64
    requires { least ≤ bound }
    ensures { IsGreatest ranges.now least bound result }
{
    let mut greatest = least;
    for range in ranges {
        let end = bound.min(u64::from(range.last));
        if u64::from(range.first) <= end {
            greatest = greatest.max(end);
        }
    }
    greatest
}

/// Gives up the ranges that end below a front.
pub(crate) fn forget_below(ranges: &mut Vec<FrontRange>, front: u64)
    ensures { ranges.new.items ≡ filter (λ range. nat_le front range.last) ranges.old.items }
{
    ranges.retain(|range| front <= u64::from(range.last));
}
