//! The number of a line.

/// The number of the line that follows the bytes: one more than they have newlines. At most the greatest number.
pub(crate) fn line_behind(bytes: &[u8]) -> usize {
    let mut line: usize = 1;
    for byte in bytes {
        if *byte == b'\n' {
            line = line.saturating_add(1);
        }
    }
    line
}
