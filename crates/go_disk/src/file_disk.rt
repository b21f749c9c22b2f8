// A file of the system as a disk.
ghost use Rattle.std.specs.Prelude.{◌≡◌};
ghost use Rattle.go_text.specs.Causes.{HasCause};
ghost use Rattle.go_disk.specs.Device.{silent, silent_rules};

use crate::Disk;
use crate::folder::sync_folder;
use go_text::{Failed, Text, one_more};
use std::fs::File;
use std::io::{self, ErrorKind};
use std::marker::Model;
use std::os::unix::fs::FileExt;
use std::rt::Files;

/// A file of the system, seen as its count of faults. It tells nothing of its content.
///
/// It is opened at the first call, to read and to write, and made where it isn't there. From then on it is locked for as
/// long as the disk lives, so a second disk on it fails. A file that can't be opened or locked is a fault of that call.
/// After a sync that failed the system may take for stable what isn't, and neither a read nor a later sync would tell:
/// so each later call fails, and writes nothing.
#[derive(Drop)]
pub struct FileDisk<'a, R> {
    rt: &'a R,
    name: Text,
    file: Option<File>,
    has_lost: bool,
    faults: u64,
}

impl<'a, R> Model for FileDisk<'a, R> {
    ghost use Rattle.std.specs.Prelude.{ℕ};

    ghost Value = { ℕ };

    ghost view = { λ disk. disk.faults };
}

impl<'a, R: Files<File = File> + Alloc + Sync> FileDisk<'a, R> {
    /// The file of this name, which has not been opened and has not failed yet.
    pub fn named(rt: &'a R, name: Text) -> FileDisk<'a, R>
        ensures { result ≡ 0 }
    {
        FileDisk {
            rt,
            name,
            file: None,
            has_lost: false,
            faults: 0,
        }
    }

    // Does what a sync does that the system fails.
    #[cfg(test)]
    pub(crate) fn lose(&mut self) {
        self.has_lost = true;
    }
}

impl<R: Files<File = File> + Alloc + Sync> Disk for FileDisk<'_, R> {
    ghost device = { silent (λ faults. faults) };

    ghost rules = { silent_rules (λ faults. faults) };

    fn len(&mut self) -> Result<u64, Failed> {
        let answer = opened(self.rt, &self.name, &mut self.has_lost, &mut self.file).and_then(
            length,
        );
        noted(&mut self.faults, answer)
    }

    fn read(&mut self, at: u64, out: &mut [u8]) -> Result<(), Failed> {
        let answer = match opened(self.rt, &self.name, &mut self.has_lost, &mut self.file) {
            Ok(file) => file.read_exact_at(out, at),
            Err(error) => Err(error),
        };
        noted(&mut self.faults, answer)
    }

    fn write_at(&mut self, at: u64, bytes: &[u8]) -> Result<(), Failed> {
        let answer = match opened(self.rt, &self.name, &mut self.has_lost, &mut self.file) {
            Ok(file) => write_within(file, at, bytes),
            Err(error) => Err(error),
        };
        noted(&mut self.faults, answer)
    }

    fn sync(&mut self) -> Result<(), Failed> {
        let answer = match opened(self.rt, &self.name, &mut self.has_lost, &mut self.file) {
            Ok(file) => {
                let answer = file.sync_all();
                self.has_lost = answer.is_err();
                answer
            }
            Err(error) => Err(error),
        };
        noted(&mut self.faults, answer)
    }
}

// Counts an error of the system as a fault.
fn noted<T>(faults: &mut u64, answer: io::Result<T>) -> Result<T, Failed>
    ensures { HasCause faults.old faults.new result }
{
    match answer {
        Ok(value) => Ok(value),
        Err(_) => {
            *faults = one_more(*faults);
            Err(Failed)
        }
    }
}

// The file, opened if it isn't yet, unless a sync has failed. A file that was just made could be lost with its name, so
// its folder is synced.
fn opened<'f, R: Files<File = File> + Alloc>(
    rt: &R,
    name: &Text,
    has_lost: &mut bool,
    file: &'f mut Option<File>,
) -> io::Result<&'f File> {
    if *has_lost {
        return Err(ErrorKind::Other.into());
    }
    if file.is_none() {
        let made = open_or_make(rt, name.as_text())?;
        let answer = sync_folder(rt, name.as_text());
        *has_lost = answer.is_err();
        answer?;
        *file = Some(made);
    }
    file.as_ref().ok_or(io::Error::from(ErrorKind::NotFound))
}

// Opens a file to read and write, made where it isn't there, and locks it.
fn open_or_make<R: Files<File = File>>(rt: &R, name: &str) -> io::Result<File> {
    let file = File::options()
        .read(true)
        .write(true)
        .create(true)
        .open(rt, name)?;
    file.try_lock()?;
    Ok(file)
}

fn length(file: &File) -> io::Result<u64> {
    Ok(file.metadata()?.len())
}

// A write that begins behind the end would leave a hole, so it is refused.
fn write_within(file: &File, at: u64, bytes: &[u8]) -> io::Result<()> {
    if at > length(file)? {
        return Err(ErrorKind::InvalidInput.into());
    }
    file.write_all_at(bytes, at)
}
