// What follows from a log's standing, each as a clause of a function that does nothing.
ghost use Rattle.std.specs.Prelude.{◌≡◌, ℕ, List, Some, All, length, slice_get};
ghost use Rattle.std.specs.List.{flat_map};
ghost use Rattle.go_word.specs.declared.edge.Edge.{Edge};
ghost use Rattle.go_word.specs.Log.{IsWithin};
ghost use Rattle.go_blocks.specs.declared.log_file.BlockPlace.{BlockPlace};
ghost use Rattle.go_blocks.specs.File.{File, IsUnmade, word_bytes};
ghost use Rattle.go_durable.specs.Attaching.{IsLeft};
ghost use Rattle.go_durable.specs.LogState.{LogState, words_at, entries_of_place};
ghost use Rattle.go_durable.specs.Recovery.{Recovers};
ghost use Rattle.go_durable.specs.Standing.{IsLog};

use go_disk::Disk;

/// What a log that stands for entries says of its disk and of them; it does nothing.
///
/// It counts its entries, and each has its vertices in range. Each image of its disk is a file of just them. Where the
/// disk tells, there is one, they are the only ones that the log stands for, and the words of each block stand at its
/// kept place.
pub fn log_laws<D: Disk>()
    ensures so_many { (kept : LogState D) (log : List Edge) → IsLog D.device kept log → kept.front ≡ length log }
    ensures within { (kept : LogState D) (log : List Edge) → IsLog D.device kept log → All (IsWithin kept.vertices) log }
    ensures each_image { (kept : LogState D) (log : List Edge) (image : List ℕ) → IsLog D.device kept log →
        D.device.images kept.disk image → File kept.vertices log image }
    ensures an_image { (kept : LogState D) (log : List Edge) (bytes : List ℕ) → IsLog D.device kept log →
        D.device.contents kept.disk ≡ Some bytes → D.device.images kept.disk bytes × File kept.vertices log bytes }
    ensures one_log { (kept : LogState D) (log other : List Edge) (bytes : List ℕ) → D.device.contents kept.disk ≡ Some bytes →
        IsLog D.device kept log → IsLog D.device kept other → log ≡ other }
    ensures places { (kept : LogState D) (log : List Edge) (bytes : List ℕ) (i : ℕ) (place : BlockPlace) →
        IsLog D.device kept log → D.device.contents kept.disk ≡ Some bytes → slice_get kept.places i ≡ Some place →
        words_at place bytes ≡ flat_map word_bytes (entries_of_place kept.places i place log) }
{}

/// What recovery comes to; it does nothing. Bytes recover to one log at most, and a file of a log to that log; no file
/// of a log is one that isn't made yet. What an opening may leave of bytes recovers to what they recover to.
pub fn recovery_laws()
    ensures a_file { (v : ℕ) (log : List Edge) (bytes : List ℕ) → File v log bytes → Recovers v log bytes }
    ensures one_log { (v w : ℕ) (log other : List Edge) (bytes : List ℕ) → Recovers v log bytes → Recovers w other bytes → log ≡ other }
    ensures made { (v : ℕ) (log : List Edge) (bytes : List ℕ) → File v log bytes → IsUnmade bytes → ⊥ }
    ensures left { (v : ℕ) (log : List Edge) (bytes image : List ℕ) → Recovers v log bytes → IsLeft v (Some bytes) image → Recovers v log image }
{}
