// The calls of a disk in memory.
ghost use Rattle.std.specs.Prelude.{◌≡◌, ◌↔◌, ◌+◌, Some, length, IfOk, IsErr, OnOk, MatchResult};
ghost use Rattle.go_text.specs.Causes.{HasCause};
ghost use Rattle.go_disk.specs.Disk.{Shows, Writes, Untouched, Elapses, Looks, Tears, IsSynced, blundered};
ghost use Rattle.go_disk.specs.MemDisk.{looked, synced, contents_of, mem_device, Fails, FailsRead, FailsWrite, asked, after_look, after_write};
ghost use Rattle.go_disk.specs.ImageLaws.{mem_rules};

use crate::{Disk, MemDisk};
use go_text::Failed;

impl Disk for MemDisk {
    ghost device = { mem_device };

    ghost rules = { mem_rules };

    fn len(&mut self) -> Result<u64, Failed>
        ensures length { IfOk result (λ count. count ≡ length (contents_of self.old)) }
        ensures looks { Looks mem_device self.old self.new }
        ensures blunders { self.new.blunders ≡ self.old.blunders }
        ensures time { Elapses mem_device self.old self.new }
        ensures cause { HasCause self.old.faults self.new.faults result }

        // When it fails, and all that it changes.
        ensures failed { IsErr result ↔ Fails self.old }
        ensures after { self.new ≡ after_look looked self.old result }
    {
        if self.is_full(1) {
            return Err(self.fault());
        }
        let is_listed = self.is_listed();
        self.note_look();
        if is_listed {
            return Err(self.fault());
        }
        Ok(self.size() as u64)
    }

    fn read(&mut self, at: u64, out: &mut [u8]) -> Result<(), Failed>
        ensures shown { OnOk result (Shows (contents_of self.old) at out.new) }
        ensures looks { Looks mem_device self.old self.new }
        ensures blunders { self.new.blunders ≡ blundered (Some (contents_of self.old)) (at + length out.old) self.old.blunders }
        ensures time { Elapses mem_device self.old self.new }
        ensures cause { HasCause self.old.faults self.new.faults result }

        // When it fails, and all that it changes.
        ensures failed { IsErr result ↔ FailsRead self.old at (length out.old) }
        ensures after { self.new ≡ after_look looked (asked self.old (at + length out.old)) result }
    {
        let is_there = self.ask(at, out.len());
        if self.is_full(1) {
            return Err(self.fault());
        }
        let is_listed = self.is_listed();
        self.note_look();
        if is_listed || !is_there {
            return Err(self.fault());
        }
        self.copy_out(at, out);
        Ok(())
    }

    fn write_at(&mut self, at: u64, bytes: &[u8]) -> Result<(), Failed>
        ensures writes { Writes at bytes.now result (Some (contents_of self.old)) (Some (contents_of self.new)) }
        ensures behind_end { Untouched mem_device at self.old self.new }
        ensures tears { Tears mem_device at (length bytes.now) self.old self.new }
        ensures blunders { self.new.blunders ≡ blundered (Some (contents_of self.old)) at self.old.blunders }
        ensures time { Elapses mem_device self.old self.new }
        ensures cause { HasCause self.old.faults self.new.faults result }

        // When it fails, and all that it changes.
        ensures failed { IsErr result ↔ FailsWrite self.old at (length bytes.now) }
        ensures after { self.new ≡ after_write at bytes.now (asked self.old at) result }
    {
        let is_there = self.ask(at, 0);
        if self.is_full(1 + bytes.len()) {
            return Err(self.fault());
        }
        if !is_there {
            self.note_look();
            return Err(self.fault());
        }
        if self.is_listed() {
            self.note_tear(at as usize, bytes.len());
            return Err(self.fault());
        }
        self.note_write(at as usize, bytes);
        Ok(())
    }

    fn sync(&mut self) -> Result<(), Failed>
        ensures synced { MatchResult result (λ _. IsSynced mem_device self.old self.new) (λ _. Looks mem_device self.old self.new) }
        ensures blunders { self.new.blunders ≡ self.old.blunders }
        ensures time { Elapses mem_device self.old self.new }
        ensures cause { HasCause self.old.faults self.new.faults result }

        // When it fails, and all that it changes.
        ensures failed { IsErr result ↔ Fails self.old }
        ensures after { self.new ≡ after_look synced self.old result }
    {
        if self.is_full(1) {
            return Err(self.fault());
        }
        if self.is_listed() {
            self.note_look();
            return Err(self.fault());
        }
        self.note_sync();
        Ok(())
    }
}
