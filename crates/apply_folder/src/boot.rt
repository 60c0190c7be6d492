//! What a boot asks of a file before it loads it.

use run_times::Piece::{Number, Text};
use run_times::TextWriter;
use std::alloc::{AllocError, Global};
use std::fs::Metadata;
use std::os::unix::fs::{MetadataExt, PermissionsExt};

/// The bits of a mode by which its group and all others may write.
const OTHERS_WRITE: u32 = 0o022;

/// Whether a boot of the launcher's user leaves out what has this mode and this owner.
pub fn is_left_at_boot(mode: u32, owner: u32, user: u32) -> bool {
    mode & OTHERS_WRITE != 0 || (owner != 0 && owner != user)
}

/// Why a boot leaves the file out, with `front` before the reason; empty, if it does not.
pub(crate) fn left_at_boot(
    alloc: Global,
    data: &Metadata,
    user: u32,
    front: &str,
) -> Result<String, AllocError> {
    let mut writer = TextWriter::new(alloc);
    let mode = data.permissions().mode();
    if is_left_at_boot(mode, data.uid(), user) {
        put_reason(mode, data.uid(), front, &mut writer);
    }
    writer.into_text()
}

fn put_reason(mode: u32, owner: u32, front: &str, writer: &mut TextWriter) {
    writer.put(front);
    if mode & OTHERS_WRITE != 0 {
        writer.put("writable by others");
    } else {
        writer.put_all(&[Text("owned by user "), Number(u64::from(owner))]);
    }
}
