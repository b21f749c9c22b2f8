// A disk in memory, for tests: it tells all it holds, and fails exactly where it was told to.
ghost use Rattle.std.specs.Prelude.{◌≡◌, ◌↔◌, ◌⊎◌, ◌+◌, ◌<◌, ◌≤◌, [], Some, None, Contains, IsSomeAnd, length, take, vec_capacity, IfOk, IsTrue, OnOk};
ghost use Rattle.std.specs.List.{filter};
ghost use Rattle.go_disk.specs.Disk.{overwritten, Shows};
ghost use Rattle.go_disk.specs.MemDisk.{looked, wrote, tore, synced, blank, contents_of, stable_of};
ghost use Rattle.go_disk.specs.MemDisk.{IsImageOf, syncs_of, used_by, IsListed, noted, faulted, asked};
ghost use Rattle.go_disk.specs.Recording.{is_sync};

use crate::call::Call;
use crate::image::make_image;
use crate::span::Span;
use go_text::{Failed, one_more};
use std::alloc::{AllocError, Global};
use std::marker::Model;

/// A disk in memory, for tests. It records its calls, so that it can tell what a crash at each moment may have left.
/// A call counts 1, and each byte that it writes 1. A call for which there is no room left is a fault that changes
/// nothing and isn't recorded. The calls that are recorded have numbers, from 0 on.
#[derive(Drop)]
pub struct MemDisk {
    first: Vec<u8>,
    calls: Vec<Call>,
    written: Vec<u8>,
    bytes: Vec<u8>,
    stable: Vec<u8>,
    same: usize,
    spans: Vec<Span>,
    failing: Vec<u64>,
    stop: Option<u64>,
    room: usize,
    faults: u64,
    blunders: u64,
}

impl Model for MemDisk {
    ghost use Rattle.go_disk.specs.MemDisk.{Tape};

    ghost Value = { Tape };

    ghost use Rattle.go_disk.specs.Recording.{tape_of, IsKept};

    ghost view = { tape_of };

    ghost invariant = { IsKept };
}

impl MemDisk {
    /// A disk with these bytes, none of which a crash can take, and the memory to record calls that count up to `room`.
    /// A call fails exactly where there is no room for it, or where its range is a bad one.
    pub fn new(alloc: Global, bytes: &[u8], room: u64) -> Result<MemDisk, AllocError>
        ensures { IfOk result (λ disk. disk ≡ blank bytes.now [] None room) }
    {
        MemDisk::made(alloc, bytes, Vec::new(alloc), None, room)
    }

    /// The same, where the calls with these numbers fail besides.
    pub fn failing(
        alloc: Global,
        bytes: &[u8],
        calls: &[u64],
        room: u64,
    ) -> Result<MemDisk, AllocError>
        ensures { IfOk result (λ disk. disk ≡ blank bytes.now calls.now None room) }
    {
        MemDisk::made(alloc, bytes, calls.to_vec(alloc)?, None, room)
    }

    /// The same, where each call from this number on fails besides.
    pub fn stopping(
        alloc: Global,
        bytes: &[u8],
        after: u64,
        room: u64,
    ) -> Result<MemDisk, AllocError>
        ensures { IfOk result (λ disk. disk ≡ blank bytes.now [] (Some after) room) }
    {
        MemDisk::made(alloc, bytes, Vec::new(alloc), Some(after), room)
    }

    /// How often a range was asked for that isn't there.
    pub fn blunders(&self) -> u64
        ensures { result ≡ self.now.blunders }
    {
        self.blunders
    }

    /// How many syncs succeeded.
    pub fn sync_count(&self) -> usize
        ensures { result ≡ length (syncs_of self.now) }
    {
        count_syncs(&self.calls)
    }

    fn made(
        alloc: Global,
        bytes: &[u8],
        failing: Vec<u64>,
        stop: Option<u64>,
        room: u64,
    ) -> Result<MemDisk, AllocError>
        ensures { IfOk result (λ disk. disk ≡ blank bytes.now failing.items stop room) }
    {
        let room = room as usize;
        let most = bytes.len().checked_add(room).ok_or(AllocError)?;
        Ok(MemDisk {
            first: bytes.to_vec(alloc)?,
            calls: Vec::with_capacity(alloc, room)?,
            written: Vec::with_capacity(alloc, room)?,
            bytes: copy_with_room(alloc, bytes, most)?,
            stable: copy_with_room(alloc, bytes, most)?,
            same: bytes.len(),
            spans: Vec::with_capacity(alloc, room)?,
            failing,
            stop,
            room,
            faults: 0,
            blunders: 0,
        })
    }

    // How many bytes a read of the whole gives.
    pub(crate) fn size(&self) -> usize
        ensures { result ≡ length (contents_of self.now) }
    {
        self.bytes.len()
    }

    // Whether there is no room left for a call that costs so much.
    pub(crate) fn is_full(&self, cost: usize) -> bool
        ensures { IsTrue result ↔ (self.now.room < used_by self.now.steps + cost) }
    {
        self.room - (self.calls.len() + self.written.len()) < cost
    }

    // Whether the next call is one of those that are to fail.
    pub(crate) fn is_listed(&self) -> bool
        ensures { IsTrue result ↔ IsListed self.now }
    {
        is_planned(&self.failing, self.stop, self.calls.len() as u64)
    }

    // Counts a fault.
    pub(crate) fn fault(&mut self) -> Failed
        ensures { self.new ≡ faulted self.old }
    {
        self.faults = one_more(self.faults);
        Failed
    }

    // Whether so many bytes from a place on are there. A blunder is counted where they aren't.
    pub(crate) fn ask(&mut self, at: u64, count: usize) -> bool
        ensures found { IsTrue result ↔ (at + count ≤ length (contents_of self.old)) }
        ensures counted { self.new ≡ asked self.old (at + count) }
    {
        let len = self.bytes.len();
        if at <= len as u64 && count <= len - at as usize {
            return true;
        }
        self.blunders = one_more(self.blunders);
        false
    }

    // Fills `out` with the bytes from a place on.
    pub(crate) fn copy_out(&self, at: u64, out: &mut [u8])
        requires { at + length out.old ≤ length (contents_of self.now) }
        ensures { Shows (contents_of self.now) at out.new }
    {
        let from = at as usize;
        out.copy_from_slice(&self.bytes[from..from + out.len()]);
    }

    // Records a call that changed nothing.
    pub(crate) fn note_look(&mut self)
        requires { used_by self.old.steps + 1 ≤ self.old.room }
        ensures { self.new ≡ noted self.old looked }
    {
        self.calls.push(Call::Looked).unwrap();
    }

    // Records a failed write.
    pub(crate) fn note_tear(&mut self, at: usize, count: usize)
        requires room { used_by self.old.steps + (1 + count) ≤ self.old.room }
        requires within { at ≤ length (contents_of self.old) }
        ensures { self.new ≡ noted self.old (tore at count) }
    {
        self.calls.push(Call::Tore { at, count }).unwrap();
        self.spans
            .push(Span {
                from: at,
                to: at + count,
            })
            .unwrap();
    }

    // Records a write and does it.
    pub(crate) fn note_write(&mut self, at: usize, bytes: &[u8])
        requires room { used_by self.old.steps + (1 + length bytes.now) ≤ self.old.room }
        requires within { at ≤ length (contents_of self.old) }
        ensures { self.new ≡ noted self.old (wrote at bytes.now) }
    {
        let count = bytes.len();
        overwrite(&mut self.bytes, at, bytes);
        self.same = self.same.min(at);
        self.written.extend_from_slice(bytes).unwrap();
        self.calls.push(Call::Wrote { at, count }).unwrap();
        self.spans
            .push(Span {
                from: at,
                to: at + count,
            })
            .unwrap();
    }

    // Records a sync and does it. Bytes from the front that no write touched are not copied again.
    pub(crate) fn note_sync(&mut self)
        requires { used_by self.old.steps + 1 ≤ self.old.room }
        ensures { self.new ≡ noted self.old synced }
    {
        self.calls.push(Call::Synced).unwrap();
        catch_up(&mut self.stable, self.same, &self.bytes);
        self.same = self.bytes.len();
        self.spans.clear();
    }

    /// Puts an image into `out`: at pick 0 the base, or before any sync that succeeded the bytes with which the disk was
    /// made; at pick 1 what a read gives; else one that the pick chooses, with torn writes, lost ones and whole ones.
    pub fn image(&self, pick: u64, out: &mut Vec<u8>) -> Result<(), AllocError>
        ensures image { OnOk result (IsImageOf self.now out.new.items) }
        ensures base { OnOk result (pick ≡ 0 → out.new.items ≡ stable_of self.now) }
        ensures contents { OnOk result (pick ≡ 1 → out.new.items ≡ contents_of self.now) }
    {
        out.clear();
        if pick == 1 {
            out.extend_from_slice(&self.bytes)?;
            return Ok(());
        }
        out.extend_from_slice(&self.stable)?;
        if pick == 0 {
            return Ok(());
        }
        make_image(out, &self.spans, &self.bytes, pick)
    }
}

// How many of the recorded calls are syncs that succeeded.
fn count_syncs(calls: &[Call]) -> usize
    ensures { result ≡ length (filter is_sync calls.now) }
{
    calls.iter().filter(|call| call.is_sync()).count()
}

// Whether a number is among those that are to fail.
fn is_planned(failing: &[u64], stop: Option<u64>, number: u64) -> bool
    ensures { IsTrue result ↔ (Contains failing.now number ⊎ IsSomeAnd stop (λ after. after ≤ number)) }
{
    failing.contains(&number) || stop.is_some_and(|after| after <= number)
}

// Bytes with memory for `most` of them.
fn copy_with_room(alloc: Global, bytes: &[u8], most: usize) -> Result<Vec<u8>, AllocError>
    requires { length bytes.now ≤ most }
    ensures items { IfOk result (λ copy. copy.items ≡ bytes.now) }
    ensures capacity { IfOk result (λ copy. most ≤ vec_capacity copy) }
{
    let mut copy = Vec::with_capacity(alloc, most)?;
    copy.extend_from_slice(bytes).unwrap();
    Ok(copy)
}

// Makes a file the same as other bytes, where their fronts are the same already, with memory that is there.
fn catch_up(file: &mut Vec<u8>, same: usize, bytes: &[u8])
    requires fronts { take same file.old.items ≡ take same bytes.now }
    requires within { same ≤ length bytes.now }
    requires room { length bytes.now ≤ vec_capacity file.old }
    ensures items { file.new.items ≡ bytes.now }
    ensures capacity { vec_capacity file.old ≤ vec_capacity file.new }
{
    file.truncate(same);
    file.extend_from_slice(&bytes[same..]).unwrap();
}

// Puts bytes over those at a place, and behind the end what reaches past it, with memory that is there.
fn overwrite(file: &mut Vec<u8>, at: usize, bytes: &[u8])
    requires within { at ≤ length file.old.items }
    requires room { at + length bytes.now ≤ vec_capacity file.old }
    ensures items { file.new.items ≡ overwritten file.old.items at bytes.now }
    ensures capacity { vec_capacity file.old ≤ vec_capacity file.new }
{
    let end = at + bytes.len();
    if end < file.len() {
        file[at..end].copy_from_slice(bytes);
    } else {
        file.truncate(at);
        file.extend_from_slice(bytes).unwrap();
    }
}
