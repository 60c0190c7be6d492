//! How a file is read, within a bound.

ghost use Rattle.std.specs.Prelude.{◌≤◌, IfOk, IfSome, vec_len};

use std::alloc::Global;
use std::fs::{File, Files};
use std::io;
use std::io::{ErrorKind, Read};

/// Adds the file's bytes, `limit` of them and one more at most. Who finds more than `limit` knows that the file is too
/// long.
pub fn read_front<R: Files>(
    rt: &R,
    path: &str,
    limit: usize,
    bytes: &mut Vec<u8>,
) -> io::Result<()> {
    let file = File::open(rt, path)?;
    let most = (limit as u64).saturating_add(1);
    let _count = file.take(most).read_to_end(bytes)?;
    Ok(())
}

/// The bytes of a plain file, up to the length that it had when it was checked. `None` if they are more than `limit`.
/// InvalidInput for what is not a plain file: it is not opened, so that nothing waits at a FIFO. A file of the kernel
/// that reports length 0, as `/proc/kmsg`, whose reads wait, is empty.
pub fn read_file<R: Files>(
    rt: &R,
    alloc: Global,
    path: &str,
    limit: usize,
) -> io::Result<Option<Vec<u8>>>
    ensures { IfOk result (λ found. IfSome found (λ bytes. vec_len bytes ≤ limit)) }
{
    let data = std::fs::metadata(rt, path)?;
    if !data.is_file() {
        return Err(io::Error::new(ErrorKind::InvalidInput, "not a plain file"));
    }
    let mut bytes = Vec::new(alloc);
    if data.len() == 0 {
        return Ok(Some(bytes));
    }
    read_front(rt, path, limit, &mut bytes)?;
    Ok(if bytes.len() <= limit {
        Some(bytes)
    } else {
        None
    })
}
