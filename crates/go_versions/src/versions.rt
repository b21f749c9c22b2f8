//! The versions of one number, by front.
ghost use Rattle.std.specs.Prelude.{◌≡◌, ℕ, ◌<◌, ◌≤◌, ◌+◌, ◌-◌, ◌∷◌, ◌++◌, [], All, IsOk};
ghost use Rattle.std.specs.Prelude.{OnOk, count_by, take, drop, length, slice_index_or, if◌then◌else◌, nat_le, vec_capacity, vec_len, IfOk};
ghost use Rattle.std.specs.List.Sorted.{IsPartitionPoint};
ghost use Rattle.go_versions.specs.Version.{Version};
ghost use Rattle.go_versions.specs.History.{reaches, count_at, IsRising};

use crate::few::{FEW, Few};
use crate::search::reached;
use crate::version::StoredVersion;
use std::alloc::{AllocError, Global};
use std::marker::Model;
use std::snapshot::Snapshot;

/// How many versions the first growth makes room for at once: a number that grows past the versions
/// in place goes on to grow, and each growth is a copy.
const FIRST_GROWTH: usize = 8;

/// What a number was at each front that was noted and is still answered for.
#[derive(Drop)]
pub struct Versions {
    // the later ones
    noted: Vec<StoredVersion>,
    // the first ones
    early: Few,
    // for clauses alone
    retired: Snapshot<u64>,
}

impl Model for Versions {
    ghost use Rattle.go_versions.specs.History.{History, IsRising};
    ghost use Rattle.go_versions.specs.Room.{room_of};

    ghost Value = { History };

    ghost use Rattle.std.specs.Prelude.{◌++◌, length, vec_capacity, vec_len};

    ghost view = { λ held. record {
      versions = held.early ++ held.noted.items;
      retired = held.retired.value;
      spare = room_of (length held.early) (vec_len held.noted) (vec_capacity held.noted);
    } };

    ghost invariant = { λ held. IsRising (held.early ++ held.noted.items) };
}

impl Versions {
    /// No version, and nothing retired; it asks for no memory.
    pub fn new(alloc: Global) -> Versions
        ensures versions { result.versions ≡ [] }
        ensures retired { result.retired ≡ 0 }
    {
        Versions {
            noted: Vec::new(alloc),
            early: Few::new(),
            retired: Snapshot::of(&0),
        }
    }

    /// Makes room for one more version.
    pub fn reserve(&mut self) -> Result<(), AllocError>
        ensures room { OnOk result (1 ≤ self.new.spare) }
        ensures enough { 1 ≤ self.old.spare → IsOk result }
        ensures versions { self.new.versions ≡ self.old.versions }
        ensures retired { self.new.retired ≡ self.old.retired }
        ensures never_less { self.old.spare ≤ self.new.spare }
    {
        if self.noted.is_empty() && self.early.len() < FEW {
            return Ok(());
        }
        if self.noted.capacity() == 0 {
            self.noted.reserve_exact(FIRST_GROWTH)
        } else {
            self.noted.reserve(1)
        }
    }

    /// Notes that the number is `count` from `front` on.
    pub fn note(&mut self, front: u64, count: u32)
        requires room { 1 ≤ self.old.spare }
        requires later { All (λ v. v.front < front) self.old.versions }
        requires no_less { All (λ v. v.count ≤ count) self.old.versions }
        ensures noted { self.new.versions ≡ self.old.versions ++ record { front = front; count = count } ∷ [] }
        ensures falls { self.new.spare + 1 ≡ self.old.spare }
        ensures retired { self.new.retired ≡ self.old.retired }

        // From the front on this is the count, and before it each count is what it was.
        ensures at { (f : ℕ) → count_at self.new.versions f
            ≡ (if nat_le front f then count else count_at self.old.versions f) }
    {
        let version = StoredVersion::new(front, count);
        if self.noted.is_empty() && self.early.len() < FEW {
            self.early.push(version);
        } else {
            self.noted.push_reserved(version);
        }
    }

    /// The number at the front: the count of the greatest front at or below it that was noted.
    pub fn at(&self, front: u64) -> u32
        requires { self.now.retired ≤ front }
        ensures count { result ≡ count_at self.now.versions front }
        ensures rising { IsRising self.now.versions }
    {
        let reached = self.reached(front);
        if reached == 0 {
            0
        } else {
            self.count_of(reached - 1)
        }
    }

    /// Takes the last note back, if there is one, and keeps its room.
    pub fn forget_last(&mut self)
        ensures versions { self.new.versions ≡ take (length self.old.versions - 1) self.old.versions }
        ensures retired { self.new.retired ≡ self.old.retired }
        ensures never_less { self.old.spare ≤ self.new.spare }
    {
        if self.noted.is_empty() {
            self.early.drop_last();
        } else {
            let left = self.noted.len() - 1;
            self.noted.truncate(left);
        }
    }

    /// Gives up the versions that no front from this one on needs.
    pub fn retire(&mut self, front: u64)
        requires { self.old.retired ≤ front }
        ensures retired { self.new.retired ≡ front }
        ensures kept { self.new.versions ≡ drop (count_by (reaches front) self.old.versions - 1) self.old.versions }
        ensures few { count_by (reaches front) self.new.versions ≤ 1 }
        ensures at { (f : ℕ) → front ≤ f → count_at self.new.versions f ≡ count_at self.old.versions f }
        ensures never_less { self.old.spare ≤ self.new.spare }
    {
        let given_up = self.reached(front).saturating_sub(1);
        let early = given_up.min(self.early.len());
        self.early.drop_front(early);
        drop_front(&mut self.noted, given_up - early);
        self.retired = Snapshot::of(&front);
    }

    /// The versions that fronts from this one on need, in memory of their own.
    pub fn retired(&self, front: u64) -> Result<Versions, AllocError>
        requires { self.now.retired ≤ front }
        ensures retired { IfOk result (λ copy. copy.retired ≡ front) }
        ensures kept { IfOk result (λ copy. copy.versions ≡ drop (count_by (reaches front) self.now.versions - 1) self.now.versions) }
        ensures few { IfOk result (λ copy. count_by (reaches front) copy.versions ≤ 1) }
        ensures at { IfOk result (λ copy. (f : ℕ) → front ≤ f → count_at copy.versions f ≡ count_at self.now.versions f) }
    {
        let mut copy = Versions {
            noted: Vec::new(*self.noted.allocator()),
            early: Few::new(),
            retired: Snapshot::of(&front),
        };
        let first = self.reached(front).saturating_sub(1);
        for place in first..self.len() {
            copy.reserve()?;
            copy.note(self.front_of(place), self.count_of(place));
        }
        Ok(copy)
    }

    // How many versions there are.
    fn len(&self) -> usize
        ensures count { result ≡ length self.now.versions }
        ensures rising { IsRising self.now.versions }
    {
        self.early.len() + self.noted.len()
    }

    // How many versions stand at or below the front: these are the first ones.
    fn reached(&self, front: u64) -> usize
        ensures bound { result ≤ length self.now.versions }
        ensures parts { IsPartitionPoint (λ v. v.front ≤ front) (λ v. front < v.front) self.now.versions result }
        ensures rising { IsRising self.now.versions }
    {
        let later = reached(&self.noted, front);
        if later == 0 {
            reached(self.early.versions(), front)
        } else {
            self.early.len() + later
        }
    }

    // The front of the version at this place.
    fn front_of(&self, place: usize) -> u64
        requires { place < length self.now.versions }
        ensures { (d : Version) → result ≡ (slice_index_or self.now.versions place d).front }
    {
        if place < self.early.len() {
            self.early.versions()[place].front()
        } else {
            self.noted[place - self.early.len()].front()
        }
    }

    // The count of the version at this place.
    fn count_of(&self, place: usize) -> u32
        requires { place < length self.now.versions }
        ensures { (d : Version) → result ≡ (slice_index_or self.now.versions place d).count }
    {
        if place < self.early.len() {
            self.early.versions()[place].count()
        } else {
            self.noted[place - self.early.len()].count()
        }
    }
}

/// Takes out the first `count` versions, and keeps the room that they had.
fn drop_front(noted: &mut Vec<StoredVersion>, count: usize)
    requires { count ≤ vec_len noted.old }
    ensures items { noted.new.items ≡ drop count noted.old.items }
    ensures len { vec_len noted.new + count ≡ vec_len noted.old }
    ensures capacity { vec_capacity noted.new ≡ vec_capacity noted.old }
{
    let kept = noted.len() - count;
    noted.rotate_left(count);
    noted.truncate(kept);
}

#[cfg(test)]
mod tests {
    use super::*;
    use std::test::Fail;

    // Fronts 3, 6, 9 and 11 with counts 2, 4, 4 and 4: as many as lie in place.
    fn noted(rt: &HostRuntime) -> Result<Versions, Fail>
        ensures retired { IfOk result (λ v. v.retired ≡ 0) }
        ensures fronts { IfOk result (λ v. All (λ w. w.front ≤ 11) v.versions) }
        ensures counts { IfOk result (λ v. All (λ w. w.count ≤ 4) v.versions) }
    {
        let mut versions = Versions::new(rt.alloc());
        versions.reserve()?;
        versions.note(3, 2);
        versions.reserve()?;
        versions.note(6, 4);
        versions.reserve()?;
        versions.note(9, 4);
        versions.reserve()?;
        versions.note(11, 4);
        Ok(versions)
    }

    #[test]
    fn a_front_has_the_count_of_the_greatest_front_below_it(rt: HostRuntime) -> Result<(), Fail> {
        let versions = noted(&rt)?;
        for (front, count) in [
            (0, 0),
            (2, 0),
            (3, 2),
            (5, 2),
            (6, 4),
            (8, 4),
            (9, 4),
            (u64::MAX, 4),
        ] {
            assert_eq!(rt; versions.at(front), count, "at {front}");
        }
        Ok(())
    }

    #[test]
    fn a_retired_front_changes_no_later_answer(rt: HostRuntime) -> Result<(), Fail> {
        for retired in [0, 3, 7, 9, 20] {
            let mut versions = noted(&rt)?;
            let before = noted(&rt)?;
            versions.retire(retired);
            for front in [20, 21, u64::MAX] {
                assert!(rt; retired <= front);
                assert_eq!(rt;
                    versions.at(front),
                    before.at(front),
                    "{front} after {retired}"
                );
            }
            assert_eq!(rt; versions.at(retired), before.at(retired), "at {retired}");
        }
        Ok(())
    }

    // Ten versions more, at every third front from 15 on: past what the first growth makes room for.
    #[test]
    fn more_versions_than_lie_in_place_are_kept(rt: HostRuntime) -> Result<(), Fail> {
        let mut versions = noted(&rt)?;
        for more in 0..10 {
            versions.reserve()?;
            versions.note(15 + 3 * u64::from(more), 7 + more);
        }
        for (front, count) in [
            (2, 0),
            (3, 2),
            (11, 4),
            (14, 4),
            (15, 7),
            (35, 13),
            (36, 14),
            (38, 14),
            (39, 15),
            (42, 16),
            (99, 16),
        ] {
            assert_eq!(rt; versions.at(front), count, "at {front}");
        }
        versions.retire(13);
        for (front, count) in [(13, 4), (15, 7), (38, 14), (39, 15), (99, 16)] {
            assert!(rt; 13 <= front);
            assert_eq!(rt; versions.at(front), count, "at {front}, retired");
        }
        Ok(())
    }

    #[test]
    fn a_note_that_is_taken_back_leaves_those_before_it(rt: HostRuntime) -> Result<(), Fail> {
        let mut versions = noted(&rt)?;
        versions.reserve()?;
        versions.note(15, 7);
        assert_eq!(rt; versions.at(99), 7);
        versions.forget_last();
        assert_eq!(rt; versions.at(99), 4);
        versions.forget_last();
        versions.forget_last();
        assert_eq!(rt; versions.at(99), 4);
        versions.forget_last();
        assert_eq!(rt; versions.at(99), 2);
        assert_eq!(rt; versions.at(2), 0);
        versions.forget_last();
        versions.forget_last();
        assert_eq!(rt; versions.at(99), 0);
        Ok(())
    }

    #[test]
    fn no_version_is_0_at_every_front(rt: HostRuntime) {
        let versions = Versions::new(rt.alloc());
        assert_eq!(rt; versions.at(0), 0);
        assert_eq!(rt; versions.at(u64::MAX), 0);
    }
}
