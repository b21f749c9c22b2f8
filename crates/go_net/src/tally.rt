// Counts for the targets of deletions: how many copies stand, and how many were taken out.
ghost use Rattle.std.specs.Prelude.{◌≡◌, ◌≢◌, ℕ, ◌+◌, ◌<◌, ◌≤◌, ◌++◌, ◌∷◌, [], List, length, Contains, nat_lt};
ghost use Rattle.std.specs.List.Sorted.{IsStrictlyIncreasing};
ghost use Rattle.go_word.specs.Neighbours.{without_first};
ghost use Rattle.go_net.specs.Tally.{count_at, one_less, IsTally};

use crate::targets::place_of;

/// Counts one more of `d`, where it is a target.
pub(crate) fn count_up(targets: &[u32], counts: &mut [usize], d: u32)
    requires rising { IsStrictlyIncreasing targets.now }
    requires paired { length counts.old ≡ length targets.now }
    requires room { count_at targets.now counts.old d < usize.MAX }
    ensures added { Contains targets.now d →
        count_at targets.now counts.new d ≡ count_at targets.now counts.old d + 1 }
    ensures bound { count_at targets.now counts.new d ≤ count_at targets.now counts.old d + 1 }
    ensures others { (x : ℕ) → x ≢ d → count_at targets.now counts.new x ≡ count_at targets.now counts.old x }
{
    if let Some(place) = place_of(targets, d) {
        counts[place] += 1;
    }
}

/// Counts one less of `d`, and says whether there was one to count.
pub(crate) fn count_down(targets: &[u32], counts: &mut [usize], d: u32) -> bool
    requires rising { IsStrictlyIncreasing targets.now }
    requires paired { length counts.old ≡ length targets.now }
    ensures any { result ≡ nat_lt 0 (count_at targets.now counts.old d) }
    ensures after { (x : ℕ) → count_at targets.now counts.new x ≡ one_less (count_at targets.now counts.old) d x }
{
    match place_of(targets, d) {
        Some(place) if counts[place] > 0 => {
            counts[place] -= 1;
            true
        }
        _ => false,
    }
}

/// Counts a copy of `d` that comes last.
pub(crate) fn add(targets: &[u32], present: &mut [usize], d: u32)
    requires rising { IsStrictlyIncreasing targets.now }
    requires paired { length present.old ≡ length targets.now }
    requires room { count_at targets.now present.old d < usize.MAX }
    ensures { (removed added list : List ℕ) →
        IsTally targets.now present.old removed added list →
        IsTally targets.now present.new removed (added ++ d ∷ []) (list ++ d ∷ []) }
{
    count_up(targets, present, d);
}

/// Counts that the earliest copy of `d` goes, where there is one.
pub(crate) fn delete(targets: &[u32], present: &mut [usize], removed: &mut [usize], d: u32)
    requires rising { IsStrictlyIncreasing targets.now }
    requires present { length present.old ≡ length targets.now }
    requires removed { length removed.old ≡ length targets.now }
    requires room { count_at targets.now removed.old d < usize.MAX }
    requires target { Contains targets.now d }
    ensures { (added list : List ℕ) →
        IsTally targets.now present.old removed.old added list →
        IsTally targets.now present.new removed.new added (without_first d list) }
{
    if count_down(targets, present, d) {
        count_up(targets, removed, d);
    }
}
