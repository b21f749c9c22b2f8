// The descriptors of the standard streams, of which the caller may have closed some.

use std::fs::{self, File};
use std::io;
use std::os::fd::AsRawFd;
use std::rt::Files;

// The number of the last of the three.
const LAST: i32 = 2;

/// Read-only files for those of the three that are closed, which stand there for as long as this is kept.
///
/// A file that is opened takes the lowest number that is free. So without this the log file would become the standard output that
/// the caller closed, and replies would be written over it. A write to a read-only file fails, so that such a run tells it.
pub fn fill<R: Files<File = File>>(rt: &R) -> io::Result<[Option<File>; 3]> {
    let mut held = [None, None, None];
    for place in &mut held {
        let file = open_empty(rt)?;
        if file.as_raw_fd() > LAST {
            break;
        }
        *place = Some(file);
    }
    Ok(held)
}

// The null device; where there is none, the root folder, which takes no bytes either.
fn open_empty<R: Files<File = File>>(rt: &R) -> io::Result<File> {
    match fs::open(rt, "/dev/null") {
        Ok(file) => Ok(file),
        Err(_) => fs::open(rt, "/"),
    }
}
