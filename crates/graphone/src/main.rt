//! The program `graphone`: collects the words, makes the adapters of the outside, and hands them to the top call.
#![tactic(auto)]

mod standard;

use go_disk::FileDisk;
use go_io::{FolderShelf, NoGate, StdSink};
use go_run::{LOG_FILE, Outcome, Status, log_name, message, run};
use go_text::Text;
use std::alloc::{AllocError, Global};
use std::env;
use std::io::{ErrorKind, Write};
use std::process::ExitCode;

fn main(rt: HostRuntime) -> ExitCode {
    // Before any file is opened, and kept to the end.
    let streams = standard::fill(&rt);
    let alloc = rt.alloc();
    let status = match (&streams, named_words(&rt, alloc)) {
        (Ok(_), Ok((words, log))) => {
            let Outcome { status, disk: _ } = run(
                &rt,
                alloc,
                &words,
                &mut FolderShelf::new(&rt),
                &mut StdSink::new(&rt),
                FileDisk::named(&rt, log),
                &NoGate,
            );
            status
        }
        (Ok(_), Err(status)) => status,
        (Err(_), _) => Status::DiskFault,
    };
    tell(&rt, alloc, &status);
    ExitCode::from(status.number())
}

// The words of the command line, and the name of the log file.
fn named_words(rt: &HostRuntime, alloc: Global) -> Result<(Vec<Text>, Text), Status> {
    let words = collect_words(rt, alloc)?;
    match log_of(alloc, &words) {
        Ok(log) => Ok((words, log)),
        Err(_) => Err(Status::Memory),
    }
}

// The name of the log file. Words that are refused have none, and are refused before the file is opened.
fn log_of(alloc: Global, words: &[Text]) -> Result<Text, AllocError> {
    match log_name(alloc, words)? {
        Some(name) => Ok(name),
        None => Text::of(alloc, LOG_FILE),
    }
}

// The words of the command line, without the program's name. Words that aren't text are no words of the program.
fn collect_words(rt: &HostRuntime, alloc: Global) -> Result<Vec<Text>, Status> {
    let mut arguments = match env::args(rt) {
        Ok(arguments) => arguments,
        Err(error) if error.kind() == ErrorKind::OutOfMemory => return Err(Status::Memory),
        Err(_) => return Err(Status::Words),
    };
    let _ = arguments.next();
    let mut words = Vec::new(alloc);
    for argument in arguments {
        if add_word(alloc, argument.as_str(), &mut words).is_err() {
            return Err(Status::Memory);
        }
    }
    Ok(words)
}

// One more word.
fn add_word(alloc: Global, word: &str, words: &mut Vec<Text>) -> Result<(), AllocError> {
    words.push(Text::of(alloc, word)?)?;
    Ok(())
}

// The error line of a status on standard error; where there is no memory for it, or it can't be written, the exit status alone tells.
fn tell(rt: &HostRuntime, alloc: Global, status: &Status) {
    let mut line = Vec::new(alloc);
    if message(status, &mut line).is_ok() {
        let _ = rt.stderr().write_all(&line);
    }
}
