// The files of the current folder, as a shelf.
ghost use Rattle.std.specs.Prelude.{◌≡◌, ◌≤◌, [], length, None, Some, IfSome};
ghost use Rattle.go_io.specs.Shelf.{FetchesText};

use crate::{Fetched, Shelf};
use go_text::{Text, one_more};
use std::fs::{self, OpenFile};
use std::io::{ErrorKind, Read};
use std::marker::Model;
use std::rt::Files;

/// The files of the current folder, seen as one count of faults for all names. It tells nothing of its texts.
#[derive(Drop)]
pub struct FolderShelf<'a, R> {
    rt: &'a R,
    faults: u64,
}

impl<'a, R> Model for FolderShelf<'a, R> {
    ghost use Rattle.std.specs.Prelude.{ℕ};

    ghost Value = { ℕ };

    ghost view = { λ shelf. shelf.faults };
}

impl<'a, R> FolderShelf<'a, R> {
    /// A shelf of the folder that the program runs in, which has not failed yet.
    pub fn new(rt: &'a R) -> FolderShelf<'a, R>
        ensures { result ≡ 0 }
    {
        FolderShelf { rt, faults: 0 }
    }
}

impl<R: Files> Shelf for FolderShelf<'_, R> {
    ghost texts = { λ _. None };

    ghost faults = { λ faults name. faults };

    fn fetch(&mut self, name: &Text, limit: u64, out: &mut Vec<u8>) -> Fetched {
        out.clear();
        let answer = fetch_file(self.rt, name.as_text(), limit, out);
        if answer == Fetched::Failed {
            self.faults = one_more(self.faults);
        }
        answer
    }
}

// Opens a file and reads it. No file has a name with a zero byte.
fn fetch_file<R: Files>(rt: &R, name: &str, limit: u64, out: &mut Vec<u8>) -> Fetched
    requires { out.old.items ≡ [] }
    ensures within { result ≡ Fetched.Whole → length out.new.items ≤ limit }
{
    if name.as_bytes().contains(&0) {
        return Fetched::Missing;
    }
    let file = match fs::open(rt, name) {
        Ok(file) => file,
        Err(error) if leads_nowhere(error.kind()) => return Fetched::Missing,
        Err(_) => return Fetched::Failed,
    };
    match file.metadata() {
        Ok(facts) => read_within(file, facts.len(), limit, out),
        Err(_) => Fetched::Failed,
    }
}

// Whether an opening that failed so shows that nothing stands under the name: there is no such file or a link points to none,
// a part of the path is a file, or the name is longer than any that the system has. After any other something may be there.
fn leads_nowhere(kind: ErrorKind) -> bool {
    matches!(
        kind,
        ErrorKind::NotFound | ErrorKind::NotADirectory | ErrorKind::InvalidFilename
    )
}

// All that a reader has left, if that is at most `limit` bytes. It is asked for one byte more, to see whether there are more.
// `likely` is how many there seem to be: with that much room no byte is moved later.
pub(crate) fn read_within<F: Read + Drop>(
    file: F,
    likely: u64,
    limit: u64,
    out: &mut Vec<u8>,
) -> Fetched
    requires { out.old.items ≡ [] }
    ensures within { result ≡ Fetched.Whole → length out.new.items ≤ limit }
    ensures answer { IfSome (F.remaining file) (λ text. FetchesText (Some text) limit out.new.items result) }
{
    let most = limit.saturating_add(1);
    let room = likely.saturating_add(1).min(most);
    if out.reserve_exact(room as usize).is_err() {
        return Fetched::Memory;
    }
    match file.take(most).read_to_end(out) {
        Ok(_) if out.len() as u64 > limit => Fetched::TooLong,
        Ok(_) => Fetched::Whole,
        Err(error) if error.kind() == ErrorKind::OutOfMemory => Fetched::Memory,
        Err(_) => Fetched::Failed,
    }
}
