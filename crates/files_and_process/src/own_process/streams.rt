//! The standard streams of a process that was started without them.

use std::alloc::Global;
use std::fs::{File, Files};
use std::io;
use std::os::fd::AsRawFd;

/// Opens the null device as each of the descriptors 0 to 2 that is not open. While the caller keeps the result, no
/// other file can get one of them, so what is meant for a standard stream is written into none. A write to one is
/// refused.
pub fn open_null_streams<R: Files<File = File>>(rt: &R, alloc: Global) -> io::Result<Vec<File>> {
    let mut held = Vec::new(alloc);
    for _ in 0..3 {
        let file = File::open(rt, "/dev/null")?;
        if file.as_raw_fd() > 2 {
            break;
        }
        held.push(file)?;
    }
    Ok(held)
}
