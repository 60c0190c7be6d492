//! Where lines end, on plain bytes.

ghost use Rattle.std.specs.Prelude.{◌≡◌, ◌++◌, ◌-◌, ◌<◌, ◌≤◌, [], length, drop, IfSome, IfOk, OnOk, OnErr};
ghost use Rattle.memchr.specs.Find.{IsFirstByte, is_byte};
ghost use Rattle.std.specs.List.{take_while};
ghost use Rattle.ctl_protocol.specs.Lines.{lines_of, rest_of, is_short};
ghost use Rattle.ctl_protocol.specs.Scan.{IsScan, TakesLine, last_scan};
ghost use Rattle.ctl_protocol.specs.declared.cut.Scan.TheVariants.{Long};

use bytes::{Bytes, BytesMut};
use memchr::memchr;
use std::alloc::AllocError;

pub(crate) enum Scan {
    /// Each line fits, and so does the rest, of which `rest_len` bytes have come.
    Fits { rest_len: usize },
    /// The byte here passes the limit of a line that has `line_len` bytes before it.
    Long { at: usize, line_len: usize },
}

/// How many bytes come before the first newline of a piece from a place on.
fn newline_from(piece: &[u8], begun: usize) -> Option<usize>
    requires { begun ≤ length piece.now }
    ensures first { IsFirstByte (is_byte 10) (drop begun piece.now) result }
    ensures within { IfSome result (λ count. count < length piece.now - begun) }
{
    memchr(b'\n', &piece[begun..])
}

/// Goes over a piece, if rest has come of a line before it.
pub(crate) fn go_over(rest: &[u8], piece: &[u8], limit: usize) -> Scan
    requires { length rest.now ≤ limit }
    ensures { IsScan limit rest.now piece.now result }
{
    let mut line_len = rest.len();
    let mut begun = 0;
    'lines: while let Some(count) = newline_from(piece, begun) {
        let free = limit - line_len;
        if free < count {
            return Scan::Long {
                at: begun + free,
                line_len: limit,
            };
        }
        begun += count + 1;
        line_len = 0;
    }
    over_last(piece, begun, line_len, limit)
}

/// Goes over the bytes after a piece's last newline, if `line_len` bytes of the line have come before the piece.
fn over_last(piece: &[u8], begun: usize, line_len: usize, limit: usize) -> Scan
    requires within { begun ≤ length piece.now }
    requires short { line_len ≤ limit }
    ensures { result ≡ last_scan limit piece.now begun line_len }
{
    let free = limit - line_len;
    let count = piece.len() - begun;
    if free < count {
        Scan::Long {
            at: begun + free,
            line_len: limit,
        }
    } else {
        Scan::Fits {
            rest_len: line_len + count,
        }
    }
}

/// The bytes after the last newline, which are `rest_len`.
pub(crate) fn rest_in(bytes: &[u8], rest_len: usize) -> &[u8]
    requires { rest_len ≡ length (rest_of bytes.now) }
    ensures { result.now ≡ rest_of bytes.now }
{
    &bytes[bytes.len() - rest_len..]
}

/// Takes the first line and its newline out of the buffer.
pub(crate) fn take_line(buffer: &mut BytesMut) -> Result<Option<Bytes>, AllocError>
    ensures line { IfOk result (λ line. TakesLine buffer.old.items line buffer.new.items) }
    ensures err { OnErr result (buffer.new.items ≡ buffer.old.items) }
{
    let Some(at) = memchr(b'\n', buffer.as_slice()) else {
        return Ok(None);
    };
    let line = buffer.freeze_to(at)?;
    buffer.advance(1);
    Ok(Some(line))
}

/// Adds a piece of which each line fits.
pub(crate) fn add(buffer: &mut BytesMut, piece: &[u8]) -> Result<(), AllocError>
    ensures lines { OnOk result (lines_of buffer.new.items
        ≡ lines_of buffer.old.items ++ lines_of (rest_of buffer.old.items ++ piece.now)) }
    ensures rest { OnOk result (rest_of buffer.new.items
        ≡ rest_of (rest_of buffer.old.items ++ piece.now)) }
    ensures err { OnErr result (buffer.new.items ≡ buffer.old.items) }
{
    buffer.extend_from_slice(piece)
}

/// Adds the lines of a piece that come before the line that is too long.
pub(crate) fn stop(
    buffer: &mut BytesMut,
    piece: &[u8],
    at: usize,
    line_len: usize,
    limit: usize,
) -> Result<(), AllocError>
    requires { IsScan limit (rest_of buffer.old.items) piece.now (Long at line_len) }
    ensures lines { OnOk result (lines_of buffer.new.items ≡ lines_of buffer.old.items
        ++ take_while (is_short limit) (lines_of (rest_of buffer.old.items ++ piece.now))) }
    ensures rest { OnOk result (rest_of buffer.new.items ≡ []) }
    ensures err { OnErr result (buffer.new.items ≡ buffer.old.items) }
{
    if line_len <= at {
        buffer.extend_from_slice(&piece[..at - line_len])
    } else {
        let keep = buffer.len() - (line_len - at);
        buffer.truncate(keep);
        Ok(())
    }
}
