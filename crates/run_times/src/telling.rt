//! What a run writes and reports.

ghost use Rattle.std.specs.Prelude.{◌≡◌, ◌↔◌, [], IsErr, IfOk, OnErr, OnOk};
ghost use Rattle.std.specs.Io.KnownBytes.{Appends};
ghost use Rattle.std.specs.String.{string_bytes};
ghost use Rattle.std.specs.IoError.{error_kind};
ghost use Rattle.std.specs.declared.io.ErrorKind.TheVariants.{OutOfMemory};
ghost use Rattle.exit_status.specs.declared.TheConstants as statuses;
ghost use Rattle.run_times.specs.Endings.{WantsMemory, status_of_end};

use crate::writer::TextWriter;
use exit_status::{BAD_OUTPUT, NO_MEMORY, READER_GONE};
use std::alloc::{AllocError, Global};
use std::fmt::Display;
use std::io;
use std::io::{ErrorKind, Write};

/// What a subcommand came to: what it writes, and its exit status.
#[derive(Drop)]
pub struct Outcome {
    pub text: String,
    pub status: u8,
}

impl Outcome {
    /// Nothing is written.
    pub fn failed(alloc: Global, status: u8) -> Outcome
        ensures status { result.status ≡ status }
        ensures text { string_bytes result.text ≡ [] }
    {
        Outcome {
            text: String::new(alloc),
            status,
        }
    }
}

/// Writes to the standard output.
pub fn put(host: &HostRuntime, text: &str) -> io::Result<()> {
    if text.is_empty() {
        return Ok(());
    }
    print!(host; "{text}")
}

/// Writes a text to the standard output, if there was memory for it; if not, that is the error.
pub fn put_made(host: &HostRuntime, made: Result<String, AllocError>) -> io::Result<()>
    ensures { OnErr made (WantsMemory result) }
{
    match made {
        Ok(text) => {
            let is_put = put(host, text.as_str());
            drop(text);
            is_put
        }
        Err(_) => Err(io::Error::from(ErrorKind::OutOfMemory)),
    }
}

/// Writes what a subcommand came to, and returns its exit status. An error if its text could not be written, or if there was no memory for
/// it. If the writer's contract says what it holds, the text was then written whole.
pub fn put_outcome<W: Write>(writer: &mut W, made: Result<Outcome, AllocError>) -> io::Result<u8>
    ensures status { IfOk made (λ outcome. IfOk result (λ status. status ≡ outcome.status)) }
    ensures written { IfOk made (λ outcome. OnOk result (Appends (W.contents writer.old)
        (W.contents writer.new) (string_bytes outcome.text))) }
    ensures memory { OnErr made (WantsMemory result) }
{
    match made {
        Ok(Outcome { text, status }) => {
            let is_put = writer.write_all(text.as_bytes());
            drop(text);
            match is_put {
                Ok(()) => Ok(status),
                Err(error) => Err(error),
            }
        }
        Err(_) => Err(io::Error::from(ErrorKind::OutOfMemory)),
    }
}

/// Writes the text to the standard error, if memory was never refused.
pub fn tell_line(host: &HostRuntime, line: TextWriter) {
    if let Ok(text) = line.into_text() {
        let _written = eprint!(host; "{text}");
        drop(text);
    }
}

/// Reports a fault of the file, or a note on it, in one line. Without memory it prints nothing.
pub fn tell_of<D: Display>(host: &HostRuntime, path: &str, told: &D) {
    let alloc = host.alloc();
    let mut line = TextWriter::new(alloc);
    line.put("jobscope: ");
    line.put_plain(path);
    line.put(": ");
    match told.to_string(alloc) {
        Ok(told) => {
            line.put_plain(told.as_str());
            drop(told);
        }
        Err(_) => line.refuse(),
    }
    line.put("\n");
    tell_line(host, line);
}

/// Reports what kept a file from being read. An error for want of memory, which it does not report.
pub fn tell_error(host: &HostRuntime, path: &str, error: &io::Error) -> Result<(), AllocError>
    ensures { IsErr result ↔ (error_kind error.now ≡ OutOfMemory) }
{
    if error.kind() == ErrorKind::OutOfMemory {
        return Err(AllocError);
    }
    tell_of(host, path, error);
    Ok(())
}

/// Reports that memory was refused, and returns the exit status for it.
pub fn want_memory(host: &HostRuntime) -> u8
    ensures { result ≡ statuses.NO_MEMORY }
{
    let _written = eprintln!(host; "jobscope: no memory");
    NO_MEMORY
}

/// Reports what kept a run from its end, memory or the standard output, and returns the exit status for it. It does not report that the
/// reader of the standard output has closed it.
pub fn tell_end(host: &HostRuntime, error: &io::Error) -> u8
    ensures { result ≡ status_of_end (error_kind error.now) }
{
    match error.kind() {
        ErrorKind::OutOfMemory => want_memory(host),
        ErrorKind::BrokenPipe => READER_GONE,
        _ => {
            let _written = eprintln!(host; "jobscope: standard output: {error}");
            BAD_OUTPUT
        }
    }
}
