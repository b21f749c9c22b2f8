// What the words that were found want.
ghost use Rattle.std.specs.Prelude.{◌≤◌, length, IfSome, option_copied, option_map};
ghost use Rattle.std.specs.Int.{IsPowerOfTwo};
ghost use Rattle.go_word.specs.declared.edge.TheConstants.{VERTEX_LIMIT};
ghost use Rattle.go_api.specs.Limits.{IsSetup};
ghost use Rattle.go_api.specs.declared.limits.TheConstants.{FEWEST_SLOTS, SLOT_LIMIT, SHARD_LIMIT};
ghost use Rattle.go_run.specs.Words.{IsNumber, IsRing};
ghost use Rattle.go_run.specs.Found.{kept_of, asked_in, work_for, word_of_verb, IsSettled, IsOneWork, IsOneNumber, IsOneGiven};
ghost use Rattle.go_run.specs.declared.limits.TheConstants.{RING, SCRIPTS};

use crate::found::Found;
use crate::limits::{EDGES, LOG_FILE, RING, SEED_LIMIT, SHARDS, VERTICES};
use crate::names::Names;
use go_api::{FEWEST_SLOTS, SHARD_LIMIT, SLOT_LIMIT, Setup};
use go_text::number;
use go_word::VERTEX_LIMIT;

/// What a command is.
#[derive(Clone, Copy)]
pub enum Verb {
    /// Scripts are run.
    Drive,
    /// One script is run over generated entries.
    Generate,
}

/// What the program is to do.
#[derive(Drop)]
pub enum Job<'a> {
    /// It runs the scripts of these names.
    Drive { names: Names<'a> },
    /// It runs one script over so many entries, which are generated from a seed.
    Generate { edges: u32, seed: u64 },
}

/// What the words of the command line want.
#[derive(Drop)]
pub struct Wanted<'a> {
    /// The numbers of the store.
    pub setup: Setup,
    /// What is to be done.
    pub job: Job<'a>,
    /// The log file's name.
    pub log: &'a str,
}

/// What a command wants by what was found behind it; `None` where what it needs is missing, something is there that it doesn't
/// take, or a value is no number or out of its limits.
pub fn wanted_by<'a>(verb: Verb, found: Found<'a>) -> Option<Wanted<'a>>
    requires few { length (kept_of found).files ≤ SCRIPTS }
    ensures settled { IsSettled (word_of_verb verb) (kept_of found.entry) (asked_in result) }
    ensures setup { IfSome result (λ wanted. IsSetup wanted.setup) }
{
    let setup = Setup {
        vertices: count_of(found.vertices, VERTEX_LIMIT, VERTICES)?,
        ring: ring_of(found.ring)?,
        shards: count_of(found.shards, SHARD_LIMIT, SHARDS)?,
    };
    let log = found.log.unwrap_or(LOG_FILE);
    let job = job_of(verb, found.files, found.edges, found.seed)?;
    Some(Wanted { setup, job, log })
}

// What a command is to do by the files, the number of entries and the seed that were found.
fn job_of<'a>(
    verb: Verb,
    files: Names<'a>,
    edges: Option<&str>,
    seed: Option<&str>,
) -> Option<Job<'a>>
    requires few { length files ≤ SCRIPTS }
    ensures { IsOneWork (word_of_verb verb) files.entry (option_copied edges.entry) (option_copied seed.entry) (option_map work_for result) }
{
    match verb {
        Verb::Drive => {
            if files.is_empty() || edges.is_some() || seed.is_some() {
                return None;
            }
            Some(Job::Drive { names: files })
        }
        Verb::Generate => {
            if !files.is_empty() {
                return None;
            }
            let edges = number_given(edges, 1, EDGES)? as u32;
            let seed = number_given(seed, 0, SEED_LIMIT)?;
            Some(Job::Generate { edges, seed })
        }
    }
}

// The number within these limits that is given.
fn number_given(value: Option<&str>, least: u64, most: u64) -> Option<u64>
    ensures one { IsOneGiven (IsNumber least most) (option_copied value.entry) result }
    ensures within { IfSome result (λ n. n ≤ most) }
{
    match number(value?.as_bytes(), most) {
        Ok(n) if n >= least => Some(n),
        _ => None,
    }
}

// The number that is chosen from 1 up to a limit, or the usual one.
fn count_of(value: Option<&str>, limit: u32, usual: u32) -> Option<u32>
    requires usual { (1 ≤ usual) × (usual ≤ limit) }
    ensures one { IsOneNumber (IsNumber 1 limit) usual (option_copied value.entry) result }
    ensures within { IfSome result (λ count. (1 ≤ count) × (count ≤ limit)) }
{
    let Some(value) = value else {
        return Some(usual);
    };
    match number(value.as_bytes(), u64::from(limit)) {
        Ok(count) if count >= 1 => Some(count as u32),
        _ => None,
    }
}

// The number of slots that is chosen, or the usual one.
fn ring_of(value: Option<&str>) -> Option<u64>
    ensures one { IsOneNumber IsRing RING (option_copied value.entry) result }
    ensures within { IfSome result (λ slots. (FEWEST_SLOTS ≤ slots) × (slots ≤ SLOT_LIMIT)) }
    ensures double { IfSome result IsPowerOfTwo }
{
    let Some(value) = value else {
        return Some(RING);
    };
    match number(value.as_bytes(), SLOT_LIMIT) {
        Ok(slots) if slots >= FEWEST_SLOTS && slots.next_power_of_two() == slots => Some(slots),
        _ => None,
    }
}
