// A disk: the trait, with what each call does to what the disk tells.
ghost use Rattle.std.specs.Prelude.{◌≡◌, ◌+◌, length, IfOk, IfSome, OnOk, MatchResult};
ghost use Rattle.go_text.specs.Causes.{HasCause};
ghost use Rattle.go_disk.specs.Device.{Device, IsDevice};
ghost use Rattle.go_disk.specs.Disk.{Shows, Writes, Untouched, Elapses, Looks, Tears, IsSynced, blundered};

use go_text::Failed;

/// A disk of one file. An image is what a crash may leave of it.
pub trait Disk {
    /// What the disk tells: its contents, what a crash may leave of them, and what was counted of its calls.
    ghost device: { Device Self };

    /// The length in bytes.
    fn len(&mut self) -> Result<u64, Failed>
        ensures length { IfOk result (λ count. IfSome (device.contents self.old) (λ bytes. count ≡ length bytes)) }
        ensures looks { Looks device self.old self.new }
        ensures blunders { device.blunders self.new ≡ device.blunders self.old }
        ensures time { Elapses device self.old self.new }
        ensures cause { HasCause (device.faults self.old) (device.faults self.new) result };

    /// Fills `out` with the bytes from `at` on. A range past the end is a fault, and a blunder.
    fn read(&mut self, at: u64, out: &mut [u8]) -> Result<(), Failed>
        ensures shown { OnOk result (IfSome (device.contents self.old) (λ bytes. Shows bytes at out.new)) }
        ensures looks { Looks device self.old self.new }
        ensures blunders { device.blunders self.new ≡ blundered (device.contents self.old) (at + length out.old) (device.blunders self.old) }
        ensures time { Elapses device self.old self.new }
        ensures cause { HasCause (device.faults self.old) (device.faults self.new) result };

    /// Writes bytes at a place at or before the end. One that fails may have written any part of its range, and
    /// one behind the end is a fault that touches nothing, and a blunder.
    fn write_at(&mut self, at: u64, bytes: &[u8]) -> Result<(), Failed>
        ensures writes { Writes at bytes.now result (device.contents self.old) (device.contents self.new) }
        ensures behind_end { Untouched device at self.old self.new }
        ensures tears { Tears device at (length bytes.now) self.old self.new }
        ensures blunders { device.blunders self.new ≡ blundered (device.contents self.old) at (device.blunders self.old) }
        ensures time { Elapses device self.old self.new }
        ensures cause { HasCause (device.faults self.old) (device.faults self.new) result };

    /// After it a crash leaves what a read gives. One that fails may have made any part of it stable.
    fn sync(&mut self) -> Result<(), Failed>
        ensures synced { MatchResult result (λ _. IsSynced device self.old self.new) (λ _. Looks device self.old self.new) }
        ensures blunders { device.blunders self.new ≡ device.blunders self.old }
        ensures time { Elapses device self.old self.new }
        ensures cause { HasCause (device.faults self.old) (device.faults self.new) result };

    /// The laws that tie what the disk tells.
    ghost rules: { IsDevice device };
}
