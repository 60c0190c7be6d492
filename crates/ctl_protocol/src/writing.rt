//! The one loop over a writer.
ghost use Rattle.ctl_protocol.specs.Writing.{Takes};

use std::io::Write;

/// Writes all of the text, and returns whether it could. If it could not, a front of it was written. A write that takes no byte
/// counts as refused.
pub fn write_text<W: Write>(writer: &mut W, text: &[u8]) -> bool
    ensures { Takes result (W.contents writer.old) (W.contents writer.new) text.now }
{
    let mut rest = text;
    while !rest.is_empty() {
        match writer.write(rest) {
            Ok(0) => return false,
            Ok(n) => rest = &rest[n..],
            Err(_) => return false,
        }
    }
    true
}
