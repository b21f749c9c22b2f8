//! The program of the benchmarks: does one job, named by its first word, and prints what it came to.
//!
//! Seconds go to standard error, all else to standard output. `bench/` has the scripts that run it beside plain programs.
#![tactic(auto)]

mod blocks;
mod durable;
mod edges;
mod events;
mod ring;
mod ring_puts;
mod ring_worker;
mod shard;
mod turns;

use edges::Shape;
use std::{env, io};

fn main(rt: HostRuntime) -> io::Result<()> {
    let mut words = env::args(&rt)?;
    let _ = words.next();
    let (Some(job), Some(entries)) = (words.next(), words.next()) else {
        return eprintln!(rt; "go_bench JOB ENTRIES [FILE | THREADS CLAIM]");
    };
    let entries = entries.parse::<u32>().unwrap_or(0);
    let file = words.next();
    let claim = words.next();
    let file = file.as_ref().map_or("go_bench.log", |file| file.as_str());
    match job.as_str() {
        "shard" => shard::run(&rt, rt.alloc(), Shape::Spread, entries),
        "hub" => shard::run(&rt, rt.alloc(), Shape::Hub, entries),
        "events" => events::run(&rt, rt.alloc(), entries),
        "ring" => {
            let threads = file.parse::<u32>().unwrap_or(1);
            let claim = claim
                .as_ref()
                .map_or(1, |claim| claim.parse::<u32>().unwrap_or(1));
            ring::run(&rt, rt.alloc(), entries, threads, claim)
        }
        "turns" => turns::run(&rt, rt.alloc(), entries),
        "write-blocks" => blocks::write(&rt, rt.alloc(), file, u64::from(entries)),
        "append-log" => durable::append(&rt, rt.alloc(), file, u64::from(entries)),
        "read-blocks" => blocks::read(&rt, rt.alloc(), file),
        _ => eprintln!(rt; "go_bench: no such job"),
    }
}
