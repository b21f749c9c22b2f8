//! The search for the versions that stand at or below a front.
ghost use Rattle.std.specs.Prelude.{◌<◌, ◌≤◌, length};
ghost use Rattle.std.specs.List.Sorted.{IsPartitionPoint};
ghost use Rattle.go_versions.specs.History.{IsRising};

use crate::version::StoredVersion;

/// How many versions stand at or below the front: these are the first ones.
pub(crate) fn reached(versions: &[StoredVersion], front: u64) -> usize
    requires { IsRising versions.now }
    ensures bound { result ≤ length versions.now }
    ensures parts { IsPartitionPoint (λ v. v.front ≤ front) (λ v. front < v.front) versions.now result }
{
    versions.partition_point(|version| version.front() <= front)
}
