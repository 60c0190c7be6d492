//! The files of definitions that are looked at, and what they come to.

ghost use Rattle.std.specs.Prelude.{List, [], ◌∷◌, Option, None, IfOk};
ghost use Rattle.std.specs.String.{string_bytes};
ghost use Rattle.definition_files.specs.Reads.{FileRead, Tells};

use calendar_due::Zone;
use files_and_process::path_files::{Found, Kind, read_file};
use run_times::telling::{tell_error, tell_of};
use std::alloc::{AllocError, Global};
use std::io;
use std::io::Read;

/// As of when definitions are looked at, and how.
#[derive(Clone, Copy)]
pub struct DefinitionQuery<'a> {
    /// The longest file that a load would take, in bytes.
    pub longest: usize,
    /// The zone of the entries of calendars.
    pub zone: &'a Zone,
    /// The line that names the zone, if something is shown in it; empty, if it need not be named.
    pub zone_line: &'a str,
    /// The second of Unix time from which on the clock is looked at.
    pub from: u64,
    /// Whether the report is made of objects of JSON, a line each.
    pub is_json: bool,
}

/// What a file of definitions came to.
#[derive(Drop)]
pub enum Contents {
    /// These bytes were read.
    Bytes(Vec<u8>),
    /// It can't be read; and this was reported.
    Unread,
    /// It is too long; and this was reported.
    TooLong,
    /// It is a folder without a definition; and this was reported.
    Nothing,
}

/// Reads the files of definitions.
pub trait DefinitionSource {
    /// What was read, oldest first: each file's path, and what it came to. None for a source that does not record it.
    ghost told: { Self → Option (List FileRead) };

    /// What the file came to. The one refusal is of memory.
    fn read(&mut self, alloc: Global, longest: usize, file: &Found) -> Result<Contents, AllocError>
        ensures { IfOk result (λ contents. Tells (Self.told self.old)
            ((string_bytes file.now.path, contents) ∷ []) (Self.told self.new)) };
}

/// The files of the system; `-` is standard input. They don't record what was read of them.
#[derive(Clone, Copy)]
pub struct HostFiles<'a> {
    pub host: &'a HostRuntime,
}

impl DefinitionSource for HostFiles<'_> {
    ghost told = { λ _. None };

    fn read(
        &mut self,
        alloc: Global,
        longest: usize,
        file: &Found,
    ) -> Result<Contents, AllocError> {
        contents_of(self.host, alloc, longest, file)
    }
}

/// The path that means standard input.
const INPUT: &str = "-";

// The bytes of standard input; none if they are more than `longest`.
fn read_input(host: &HostRuntime, alloc: Global, longest: usize) -> io::Result<Option<Vec<u8>>> {
    let mut bytes = Vec::new(alloc);
    let most = (longest as u64).saturating_add(1);
    let _count = host.stdin().take(most).read_to_end(&mut bytes)?;
    Ok(if bytes.len() <= longest {
        Some(bytes)
    } else {
        None
    })
}

// What the file comes to.
fn contents_of(
    host: &HostRuntime,
    alloc: Global,
    longest: usize,
    file: &Found,
) -> Result<Contents, AllocError> {
    let path = file.path.as_str();
    let read = match file.kind {
        Kind::Empty => {
            tell_of(
                host,
                path,
                &"no definition in this folder (*.plist, *.json)",
            );
            return Ok(Contents::Nothing);
        }
        Kind::Unlisted(kind) => Err(io::Error::from(kind)),
        Kind::File if path == INPUT => read_input(host, alloc, longest),
        Kind::File => read_file(host, alloc, path, longest),
    };
    match read {
        Ok(Some(bytes)) => Ok(Contents::Bytes(bytes)),
        Ok(None) => {
            tell_of(host, path, &"too long for a request");
            Ok(Contents::TooLong)
        }
        Err(error) => {
            tell_error(host, path, &error)?;
            Ok(Contents::Unread)
        }
    }
}
