// Reading a range of the entries of a log.
ghost use Rattle.std.specs.Prelude.{◌≡◌, ◌+◌, ◌-◌, ◌*◌, ◌<◌, ◌≤◌, ◌^◌, List, length, min, IfOk, OnErr, OnOk, take, vec_len, vec_capacity, IfSome};
ghost use Rattle.go_text.specs.Causes.{HasCause};
ghost use Rattle.go_word.specs.declared.edge.Edge.{Edge};
ghost use Rattle.go_blocks.specs.File.{File};
ghost use Rattle.go_blocks.specs.declared.layout.TheConstants.{COUNT_LIMIT};
ghost use Rattle.go_disk.specs.Disk.{Looks};
ghost use Rattle.go_durable.specs.Appending.{disk_after};
ghost use Rattle.go_durable.specs.LogState.{LogState, entries_at};
ghost use Rattle.go_durable.specs.Moments.{LeavesOnly};
ghost use Rattle.go_durable.specs.Ranging.{ReadsRange, AddsRange};
ghost use Rattle.go_durable.specs.Runs.{AddsCount, AreBlocks, HasWords, IsRun, gate_behind, place_of_word, run_length};
ghost use Rattle.go_durable.specs.Standing.{IsLog};
ghost use Rattle.go_durable.specs.Writing.{IsThere};
ghost use Rattle.go_durable.specs.declared.limits.TheConstants.{READ_LIMIT};

use crate::durable_log::DurableLog;
use crate::fault::LogFault;
use crate::finding::{block_of, word_at};
use crate::limits::READ_LIMIT;
use crate::run::{Run, add_run, range_length, run_from};
use go_blocks::BlockPlace;
use go_disk::{Disk, Failed};
use go_word::Edge;
use std::alloc::AllocError;

impl<D: Disk> DurableLog<D> {
    /// Appends the entries from one place in the log up to another to `out`, read from the disk.
    ///
    /// `Memory` comes before any call of the disk, with the log as it was. After `Disk` the log is spent. After either
    /// `out` is as it was. One call of the disk reads as many blocks as 512 KiB hold; beside `out` it takes no more
    /// memory, and no more than the range takes in the file.
    pub fn read_range(
        self,
        a: u64,
        b: u64,
        out: &mut Vec<Edge>,
    ) -> Result<DurableLog<D>, LogFault<D>>
        requires order { a ≤ b }
        requires within { b ≤ self.front }

        ensures answer { ReadsRange D.device (record { from = a; upto = b; before = out.old.items; after = out.new.items }) self result }

        // What a crash at each moment of the call may leave.
        ensures moments { (log : List Edge) → IsLog D.device self log →
            LeavesOnly D.device self.disk (disk_after result) (File self.vertices log) }

        ensures count { D.device.faults self.disk ≤ D.device.faults (disk_after result) }
    {
        let DurableLog {
            mut disk,
            vertices,
            front,
            gate,
            places,
        } = self;
        let before = out.len();
        let bytes = range_length(&places, a, b);
        let Ok(mut words) = words_with_room(bytes, (b - a) as usize, out) else {
            return Err(LogFault::Memory {
                log: DurableLog {
                    disk,
                    vertices,
                    front,
                    gate,
                    places,
                },
            });
        };
        let Ok(()) = read_places(&mut disk, &places, a, b, &mut words, out) else {
            out.truncate(before);
            return Err(LogFault::Disk { disk });
        };
        Ok(DurableLog {
            disk,
            vertices,
            front,
            gate,
            places,
        })
    }
}

// A buffer of so many bytes or of as many as one call reads, and room for so many entries.
fn words_with_room(bytes: usize, count: usize, out: &mut Vec<Edge>) -> Result<Vec<u8>, AllocError>
    requires { count < 2 ^ 32 }
    ensures words { IfOk result (λ words. length words.items ≡ min bytes READ_LIMIT) }
    ensures same { out.new.items ≡ out.old.items }
    ensures room { OnOk result (vec_len out.new + count ≤ vec_capacity out.new) }
{
    let words = vec![in *out.allocator(); 0; bytes.min(READ_LIMIT)]?;
    out.reserve(count)?;
    Ok(words)
}

// Reads the entries from a up to b, run after run from the block that has the first of them, for which there is room.
fn read_places<D: Disk>(
    disk: &mut D,
    places: &[BlockPlace],
    a: u64,
    b: u64,
    words: &mut [u8],
    out: &mut Vec<Edge>,
) -> Result<(), Failed>
    requires order { a ≤ b }
    requires within { b ≤ entries_at places.now }
    requires blocks { AreBlocks places.now }
    requires words { 8 * min (b - a) COUNT_LIMIT ≤ length words.old }
    requires room { vec_len out.old + (b - a) ≤ vec_capacity out.old }

    ensures looks { Looks D.device disk.old disk.new }
    ensures moments { IsThere (D.device.contents disk.old) (gate_behind places.now) →
        LeavesOnly D.device disk.old disk.new (D.device.images disk.old) }
    ensures front { take (length out.old.items) out.new.items ≡ out.old.items }
    ensures many { OnOk result (length out.new.items ≡ length out.old.items + (b - a)) }
    ensures shown { OnOk result (IfSome (D.device.contents disk.old) (λ file.
        (log : List Edge) → HasWords places.now file log → AddsRange log a b out.old.items out.new.items)) }
    ensures cause { HasCause (D.device.faults disk.old) (D.device.faults disk.new) result }
{
    let mut at = a;
    let mut number = block_of(places, a);
    while at < b {
        let run = run_from(places, number, at, b, words.len());
        let Ok(()) = read_run(disk, places, run, words, out) else {
            return Err(Failed);
        };
        at = run.upto;
        number = run.last + 1;
    }
    Ok(())
}

// Reads a run by one call of the disk, and adds its entries, for which there is room.
fn read_run<D: Disk>(
    disk: &mut D,
    places: &[BlockPlace],
    run: Run,
    words: &mut [u8],
    out: &mut Vec<Edge>,
) -> Result<(), Failed>
    requires blocks { AreBlocks places.now }
    requires run { IsRun places.now run }
    requires fits { run_length run ≤ length words.old }
    requires room { vec_len out.old + (run.upto - run.from) ≤ vec_capacity out.old }

    ensures looks { Looks D.device disk.old disk.new }
    ensures moments { IsThere (D.device.contents disk.old) (place_of_word run.last run.upto) →
        LeavesOnly D.device disk.old disk.new (D.device.images disk.old) }
    ensures added { OnOk result (AddsCount (run.upto - run.from) out.old.items out.new.items) }
    ensures shown { OnOk result (IfSome (D.device.contents disk.old) (λ file.
        (log : List Edge) → HasWords places.now file log → AddsRange log run.from run.upto out.old.items out.new.items)) }
    ensures same { OnErr result (out.new.items ≡ out.old.items) }
    ensures words { length words.new ≡ length words.old }
    ensures room { vec_capacity out.old ≤ vec_capacity out.new }
    ensures cause { HasCause (D.device.faults disk.old) (D.device.faults disk.new) result }
{
    let (taken, _) = words.split_at_mut(run.length());
    let Ok(()) = disk.read(word_at(run.first, run.from), taken) else {
        return Err(Failed);
    };
    add_run(places, run, taken, out);
    Ok(())
}
