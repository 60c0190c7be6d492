//! Why a run over an input ends before the input's end.

/// Why a run ended before its input did.
#[derive(Clone, Copy, PartialEq, Eq)]
pub enum ReplayFault {
    /// No memory was left. The output of the lines before is written.
    NoMemory,
    /// A whole first line is not a readable header, or it is too long, or the input ended with no header. Nothing was written.
    Header,
    /// The reader answered an error. The output of the whole lines before is written.
    Read,
    /// The writer answered an error, or took no byte. A front of the output is written.
    Write,
    /// A line after the header has more bytes than [`crate::LINE_LIMIT`]. The output of the lines before it is written.
    TooLong,
    /// The end of the input was not met within the reads that were allowed.
    ReadCount,
}
