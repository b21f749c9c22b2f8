// A shelf in memory, for tests: it tells all it holds, and fails exactly where it was told to.
ghost use Rattle.std.specs.Prelude.{◌≡◌, ◌↔◌, ℕ, ◌∷◌, ◌++◌, [], ◌<◌, ◌≤◌, List, map, length};
ghost use Rattle.std.specs.Prelude.{Some, IfSome, find, position, option_copied, OnOk, OnErr, slice_get, slice_set, if◌then◌else◌};
ghost use Rattle.std.specs.Str.{bytes_eq};
ghost use Rattle.go_text.specs.Causes.{Rose, raised};
ghost use Rattle.go_io.specs.Shelf.{FetchesText};
ghost use Rattle.go_io.specs.MemShelf.{Stock, NamedText, is_named, text_in, faults_in, shares_count, text_of};
ghost use Rattle.go_io.specs.MemShelf.{faults_of, FailsNow, answer_to, AnswersAs, faults_after, PutsText};
ghost use Rattle.go_io.specs.Entries.{held_of};

use crate::{Fetched, Shelf};
use go_text::{Text, one_more};
use std::alloc::{AllocError, Global};
use std::marker::Model;

// A text under its name, and how often a fetch of it failed.
#[derive(Drop)]
struct Entry {
    name: Text,
    bytes: Vec<u8>,
    faults: u64,
}

/// A shelf in memory, for tests. A name is looked up by a scan, which is meant for a handful of texts.
/// Its fetches count from 0; from 2^64 - 1 on their number stands still.
#[derive(Drop)]
pub struct MemShelf {
    alloc: Global,
    entries: Vec<Entry>,
    other_faults: u64,
    failing: Vec<u64>,
    calls: u64,
}

impl Model for MemShelf {
    ghost use Rattle.std.specs.Prelude.{map};
    ghost use Rattle.go_io.specs.MemShelf.{Stock};

    ghost Value = { Stock };

    ghost use Rattle.go_io.specs.Entries.{stock_of};

    ghost view = { stock_of };
}

impl MemShelf {
    /// An empty shelf, none of whose fetches fails.
    pub fn new(alloc: Global) -> MemShelf
        ensures { result ≡ record { held = []; other_faults = 0; failing = []; calls = 0 } }
    {
        MemShelf {
            alloc,
            entries: Vec::new(alloc),
            other_faults: 0,
            failing: Vec::new(alloc),
            calls: 0,
        }
    }

    /// Puts a text under a name, in place of the one that is there.
    pub fn add(&mut self, name: &Text, bytes: &[u8]) -> Result<(), AllocError>
        ensures ok { OnOk result (PutsText self.old self.new name.now bytes.now) }
        ensures err { OnErr result (self.new ≡ self.old) }
    {
        let bytes = Vec::from_slice(self.alloc, bytes)?;
        match place_of(&self.entries, name.bytes()) {
            Some(place) => replace_bytes(&mut self.entries, place, bytes),
            None => {
                let name = Text::of(self.alloc, name.as_text())?;
                self.entries.push(Entry {
                    name,
                    bytes,
                    faults: self.other_faults,
                })?;
            }
        }
        Ok(())
    }

    /// Has the fetch of this number fail.
    pub fn fail(&mut self, call: u64) -> Result<(), AllocError>
        ensures ok { OnOk result (self.new ≡ record self.old { failing = self.old.failing ++ call ∷ [] }) }
        ensures err { OnErr result (self.new ≡ self.old) }
    {
        self.failing.push(call)?;
        Ok(())
    }
}

impl Shelf for MemShelf {
    ghost texts = { λ stock. Some (text_of stock) };

    ghost faults = { faults_of };

    fn fetch(&mut self, name: &Text, limit: u64, out: &mut Vec<u8>) -> Fetched
        ensures same { Some (text_of self.new) ≡ Some (text_of self.old) }
        ensures answer { FetchesText (text_of self.old name.now) limit out.new.items result }
        ensures within { result ≡ Fetched.Whole → length out.new.items ≤ limit }
        ensures later { (other : List ℕ) → faults_of self.old other ≤ faults_of self.new other }
        ensures cause { result ≡ Fetched.Failed → Rose (faults_of self.old name.now) (faults_of self.new name.now) }

        // It fails exactly where its number is listed. Elsewhere only want of memory is free.
        ensures failed { (result ≡ Fetched.Failed) ↔ FailsNow self.old }
        ensures exact { ¬ FailsNow self.old → AnswersAs (answer_to (text_of self.old name.now) limit) result }
        ensures counts { (other : List ℕ) → faults_of self.new other ≡ faults_after self.old name.now result other }
        ensures failing { self.new.failing ≡ self.old.failing }
        ensures calls { self.new.calls ≡ raised self.old.calls }
    {
        out.clear();
        let call = self.calls;
        self.calls = one_more(call);
        if self.failing.contains(&call) {
            count_fault(&mut self.entries, &mut self.other_faults, name.bytes());
            return Fetched::Failed;
        }
        copy_text(text_under(&self.entries, name.bytes()), limit, out)
    }
}

// The place of a name.
fn place_of(entries: &[Entry], name: &[u8]) -> Option<usize>
    ensures { result ≡ position (λ entry. is_named name.now (held_of entry)) entries.now }
{
    entries.iter().position(|entry| entry.name.bytes() == name)
}

// The entry of a name.
fn entry_of<'a>(entries: &'a [Entry], name: &[u8]) -> Option<&'a Entry>
    ensures { option_copied result ≡ find (λ entry. is_named name.now (held_of entry)) entries.now }
{
    entries.iter().find(|entry| entry.name.bytes() == name)
}

// The text of a name.
fn text_under<'a>(entries: &'a [Entry], name: &[u8]) -> Option<&'a [u8]>
    ensures { option_copied result ≡ text_in (map held_of entries.now) name.now }
{
    match entry_of(entries, name) {
        None => None,
        Some(entry) => Some(entry.bytes.as_slice()),
    }
}

// Other bytes in an entry.
fn replace_bytes(entries: &mut [Entry], place: usize, bytes: Vec<u8>)
    requires { place < length entries.old }
    ensures { IfSome (slice_get (map held_of entries.old) place) (λ one.
        map held_of entries.new ≡ slice_set (map held_of entries.old) place (record one { bytes = bytes.items })) }
{
    entries[place].bytes = bytes;
}

// One more fault in an entry.
fn raise_faults(entries: &mut [Entry], place: usize)
    requires { place < length entries.old }
    ensures { IfSome (slice_get (map held_of entries.old) place) (λ one.
        map held_of entries.new ≡ slice_set (map held_of entries.old) place (record one { faults = raised one.faults })) }
{
    let entry = &mut entries[place];
    entry.faults = one_more(entry.faults);
}

// One more fault of a name, or of all names that aren't there.
fn count_fault(entries: &mut [Entry], other_faults: &mut u64, name: &[u8])
    ensures texts { (other : List ℕ) → text_in (map held_of entries.new) other ≡ text_in (map held_of entries.old) other }
    ensures counts { (other : List ℕ) → faults_in (map held_of entries.new) other_faults.new other
        ≡ (let before = faults_in (map held_of entries.old) other_faults.old other in
        if shares_count (map held_of entries.old) name.now other then raised before else before) }
    ensures own { faults_in (map held_of entries.new) other_faults.new name.now
        ≡ raised (faults_in (map held_of entries.old) other_faults.old name.now) }
{
    match place_of(entries, name) {
        Some(place) => raise_faults(entries, place),
        None => *other_faults = one_more(*other_faults),
    }
}

// A text into an empty vector, if it has at most `limit` bytes.
fn copy_text(text: Option<&[u8]>, limit: u64, out: &mut Vec<u8>) -> Fetched
    requires { out.old.items ≡ [] }
    ensures answer { FetchesText (option_copied text.entry) limit out.new.items result }
    ensures exact { AnswersAs (answer_to (option_copied text.entry) limit) result }
{
    let Some(bytes) = text else {
        return Fetched::Missing;
    };
    if limit < bytes.len() as u64 {
        return Fetched::TooLong;
    }
    match out.extend_from_slice(bytes) {
        Ok(()) => Fetched::Whole,
        Err(_) => Fetched::Memory,
    }
}
