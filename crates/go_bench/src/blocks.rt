// Writing and reading a log file of many blocks.
use crate::edges::{Shape, VERTICES, edges_from};
use go_blocks::{COUNT_LIMIT, OPEN, header, read_file, write_block};
use std::alloc::Global;
use std::time::Instant;
use std::{fs, io};

/// Writes a log file with so many entries, in full blocks.
pub fn write(rt: &HostRuntime, alloc: Global, file: &str, entries: u64) -> io::Result<()> {
    let mut bytes = Vec::from_slice(alloc, &header(VERTICES))?;
    let begin = Instant::now(rt)?;
    let mut left = entries;
    while left > 0 {
        let count = left.min(COUNT_LIMIT as u64);
        let edges = edges_from(alloc, Shape::Spread, entries - left, count as usize)?;
        let gate = bytes.len() - 1;
        write_block(&edges, &mut bytes)?;
        bytes[gate] = OPEN;
        left -= count;
    }
    let taken = begin.elapsed(rt)?;
    fs::write(rt, file, bytes.as_slice())?;
    println!(rt; "{entries} entries, {} bytes", bytes.len())?;
    eprintln!(rt; "{}", taken.as_micros())
}

/// Reads a log file.
pub fn read(rt: &HostRuntime, alloc: Global, file: &str) -> io::Result<()> {
    let bytes = fs::read(rt, file)?;
    let begin = Instant::now(rt)?;
    let outcome = read_file(alloc, &bytes);
    let taken = begin.elapsed(rt)?;
    match outcome {
        Ok(log) => println!(rt; "{} entries, gate at {}", log.edges().len(), log.gate())?,
        Err(fault) => println!(rt; "no log: {fault:?}")?,
    }
    eprintln!(rt; "{}", taken.as_micros())
}
