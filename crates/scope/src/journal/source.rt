//! Finds and reads the journal that the arguments name.

ghost use Rattle.std.specs.Prelude.{◌≡◌, false, None, IfOk, OnOk, nat_lt};
ghost use Rattle.std.specs.Io.KnownBytes.{IsAtEnd};
ghost use Rattle.scope.specs.Journals.{Reads, ReceivesPiece, ReceivesAll};

use crate::journal::fault::JournalFault;
use crate::journal::lines::{JournalLines, Receives};
use crate::launcher::{is_there, launcher_files, tell_no_file};
use crate::sources::answers_of;
use history_model::Text;
use launchctl_words::{Paths, ScopeCommand, ScopeTask};
use run_times::telling::{put, tell_line, tell_of};
use run_times::{Piece, TextWriter};
use std::alloc::AllocError;
use std::env::VarError;
use std::fs::{File, metadata};
use std::io::{ErrorKind, IsTerminal, Read};
use std::os::unix::fs::MetadataExt;
use std::{env, io};

/// How faults name standard input.
pub(crate) const INPUT: &str = "standard input";

/// How many bytes are read at once.
const PIECE: usize = 16_384;

/// After this many pieces the line of progress is written again.
const STRIDE: u64 = 128;

/// What one read gave.
#[derive(Clone, Copy)]
pub enum PieceRead {
    /// The reader is at its end.
    End,
    /// The read was interrupted.
    Nothing,
    /// A piece, which was taken.
    Piece,
}

// Reads once, and takes the piece that came.
fn take_piece<R: Read>(source: &mut R, lines: &mut JournalLines) -> Result<PieceRead, JournalFault>
    ensures { IfOk result (λ read.
        Reads read (R.remaining source.old) (R.remaining source.new) lines.old lines.new) }
{
    let mut piece = [0u8; PIECE];
    match source.read(&mut piece) {
        Ok(0) => Ok(PieceRead::End),
        Ok(count) => match lines.take(&piece[..count]) {
            Ok(()) => Ok(PieceRead::Piece),
            Err(fault) => Err(fault),
        },
        Err(error) if error.kind() == ErrorKind::Interrupted => Ok(PieceRead::Nothing),
        Err(error) => Err(JournalFault::Read(error)),
    }
}

// Takes the next piece of the source, and passes on each line that is whole now. It returns whether the source may have more.
fn take_lines<R: Read, H: Receives>(
    source: &mut R,
    lines: &mut JournalLines,
    receiver: &mut H,
) -> Result<bool, JournalFault>
    ensures received { OnOk result (ReceivesPiece H.stands (R.remaining source.old)
        (R.remaining source.new) lines.old receiver.old lines.new receiver.new) }
    ensures ended { IfOk result (λ more. more ≡ false → IsAtEnd (R.remaining source.new)) }
{
    match take_piece(source, lines) {
        Ok(PieceRead::End) => Ok(false),
        Ok(PieceRead::Nothing) => Ok(true),
        Ok(PieceRead::Piece) => match lines.hand_all_on(receiver) {
            Ok(()) => Ok(true),
            Err(fault) => Err(fault),
        },
        Err(fault) => Err(fault),
    }
}

// The same, and what is to be shown is written, also if a line is at fault.
fn take_and_show<R: Read, H: Receives>(
    host: &HostRuntime,
    source: &mut R,
    lines: &mut JournalLines,
    receiver: &mut H,
) -> Result<bool, JournalFault>
    ensures received { OnOk result (ReceivesPiece H.stands (R.remaining source.old)
        (R.remaining source.new) lines.old receiver.old lines.new receiver.new) }
    ensures ended { IfOk result (λ more. more ≡ false → IsAtEnd (R.remaining source.new)) }
{
    let taken = take_lines(source, lines, receiver);
    match put(host, lines.shown.as_str()) {
        Ok(()) => {
            lines.shown.clear();
            taken
        }
        Err(error) => {
            drop(taken);
            Err(JournalFault::Write(error))
        }
    }
}

/// Reads the source to its end, in whatever pieces it comes, and passes each whole line to the hearer. It writes what is to be shown at once. If
/// `is_quiet`, it shows a line of progress on standard error meanwhile, if that is a terminal. After an error the hearer has received the lines
/// before it.
pub fn read_source<R: Read, H: Receives>(
    host: &HostRuntime,
    source: &mut R,
    is_quiet: bool,
    lines: &mut JournalLines,
    receiver: &mut H,
) -> Result<(), JournalFault>
    ensures { OnOk result (ReceivesAll H.stands (R.remaining source.old) (R.remaining source.new)
        lines.old receiver.old lines.new receiver.new) }
{
    let is_seen = is_quiet && host.stderr().is_terminal();
    'pieces: for count in 1..u64::MAX {
        match take_and_show(host, source, lines, receiver) {
            Ok(true) => {}
            Ok(false) => {
                tell_done(host, is_seen && count > STRIDE);
                return Ok(());
            }
            Err(fault) => return Err(fault),
        }
        tell_count(host, is_seen && count % STRIDE == 0, lines.count);
    }
    Err(JournalFault::Read(io::Error::from(ErrorKind::FileTooLarge)))
}

// Writes the line of progress again.
fn tell_count(host: &HostRuntime, is_due: bool, count: u64) {
    if is_due {
        let _written = eprint!(host; "\r{count} lines");
    }
}

// Takes the line of progress away, if there is one.
fn tell_done(host: &HostRuntime, is_told: bool) {
    if is_told {
        let _written = eprint!(host; "\r\x1b[K");
    }
}

/// The note on a file of the package that is read.
pub(crate) const NONE_NAMED: &str = "read, since no journal is named";

/// How many journals of launchers before are looked for: `jobd-run` keeps no more.
const MOST_KEPT: u64 = 99;

/// How the arguments name standard input.
const INPUT_WORD: &str = "-";

/// Whether the journal comes on standard input: the arguments name it by `-`. Only then is it read.
pub(crate) fn reads_input(of: &ScopeCommand) -> bool {
    match of.journals.as_slice() {
        [only] => only.as_str() == INPUT_WORD,
        _ => false,
    }
}

/// The paths of the journals, the oldest first: those of the arguments, else that of `JOBD_JOURNAL`, else that of the launcher. If there is none, it
/// reports that and returns none; it returns none too if the journal comes on standard input.
pub(crate) fn journal_paths(host: &HostRuntime, of: &ScopeCommand) -> io::Result<Paths> {
    let mut paths = Vec::new(host.alloc());
    if reads_input(of) {
        return Ok(Paths::new(paths));
    }
    match add_paths(host, of, &mut paths) {
        Ok(()) => Ok(Paths::new(paths)),
        Err(error) => {
            drop(paths);
            Err(error)
        }
    }
}

fn add_paths(host: &HostRuntime, of: &ScopeCommand, paths: &mut Vec<Text>) -> io::Result<()> {
    add_named(host, of, paths)?;
    if !paths.is_empty() {
        return Ok(());
    }
    match env::var(host, "JOBD_JOURNAL") {
        Ok(path) => add_path(host, of, path.as_str(), paths)?,
        Err(VarError::OutOfMemory) => return Err(io::Error::from(ErrorKind::OutOfMemory)),
        Err(_) => {}
    }
    if paths.is_empty() {
        add_launchers(host, of, paths)?;
    }
    Ok(())
}

// Those of the arguments.
fn add_named(
    host: &HostRuntime,
    of: &ScopeCommand,
    paths: &mut Vec<Text>,
) -> Result<(), AllocError> {
    for (at, path) in of.journals.as_slice().iter().enumerate() {
        let others = of.journals.as_slice().get(at..).unwrap_or(&[]);
        if !is_named_again(host, path.as_str(), others) {
            paths.push(Text::copy_of(host.alloc(), path.as_str())?)?;
        }
    }
    Ok(())
}

// Those of the launcher that is meant. In a terminal a note says which one, if nothing named it.
fn add_launchers(host: &HostRuntime, of: &ScopeCommand, paths: &mut Vec<Text>) -> io::Result<()> {
    let files = launcher_files(host, host.alloc())?;
    let added = match (&files.fault, &files.journal) {
        (None, Some(path)) if !files.is_packages || is_there(host, path.as_str()) => {
            if files.is_packages && host.stdin().is_terminal() {
                tell_of(host, path.as_str(), &NONE_NAMED);
            }
            add_path(host, of, path.as_str(), paths)
        }
        _ => {
            tell_no_file(host, &files, answers_of(&of.task));
            Ok(())
        }
    };
    drop(files);
    Ok(added?)
}

// Whether one after the first of the paths is the same file as that one: of a journal that is named twice the last counts.
fn is_named_again(host: &HostRuntime, path: &str, paths: &[Text]) -> bool {
    let Some((_, others)) = paths.split_first() else {
        return false;
    };
    for other in others {
        if other.as_str() == path || is_same_file(host, path, other.as_str()) {
            return true;
        }
    }
    false
}

fn is_same_file(host: &HostRuntime, one: &str, other: &str) -> bool {
    match (metadata(host, one), metadata(host, other)) {
        (Ok(one), Ok(other)) => one.dev() == other.dev() && one.ino() == other.ino(),
        _ => false,
    }
}

/// Whether `JOBD_JOURNAL` names a journal.
pub(crate) fn has_variable(host: &HostRuntime) -> Result<bool, AllocError> {
    match env::var(host, "JOBD_JOURNAL") {
        Ok(path) => Ok(!path.is_empty()),
        Err(VarError::OutOfMemory) => Err(AllocError),
        Err(_) => Ok(false),
    }
}

// Adds the path, if it is not empty. If the past is asked for, it adds it after those with `.1`, `.2` and so on, the oldest
// first, as far as they are there.
fn add_path(
    host: &HostRuntime,
    of: &ScopeCommand,
    path: &str,
    paths: &mut Vec<Text>,
) -> Result<(), AllocError> {
    if path.is_empty() {
        return Ok(());
    }
    let most = most_kept(&of.task);
    let alloc = host.alloc();
    let kept = count_kept(host, path, most)?;
    for newer in 0..kept {
        let number = kept - newer;
        paths.push(Text::new(format!(in alloc; "{path}.{number}")?))?;
    }
    Ok(paths.push(Text::copy_of(alloc, path)?)?)
}

// How many journals of launchers before are read at most.
fn most_kept(task: &ScopeTask) -> u64 {
    match task {
        ScopeTask::Log(log) if log.follows => 0,
        ScopeTask::Log(_) | ScopeTask::Runs(_) | ScopeTask::Picture(_) => MOST_KEPT,
        ScopeTask::Why(why) if why.at.is_some() => MOST_KEPT,
        // The one before says since when no launcher ran.
        ScopeTask::Why(_) => 1,
        ScopeTask::Check(_)
        | ScopeTask::Next(_)
        | ScopeTask::Status
        | ScopeTask::Metrics
        | ScopeTask::Cron(_)
        | ScopeTask::Plist(_)
        | ScopeTask::Show
        | ScopeTask::Drift => 0,
    }
}

// How many journals of launchers before are kept next to the path, without a gap, and no more than `most`.
fn count_kept(host: &HostRuntime, path: &str, most: u64) -> Result<u64, AllocError> {
    let alloc = host.alloc();
    let mut kept: u64 = 0;
    for number in 1..most.min(MOST_KEPT) + 1 {
        let before = format!(in alloc; "{path}.{number}")?;
        let is_there = metadata(host, before.as_str()).is_ok();
        drop(before);
        if !is_there {
            return Ok(kept);
        }
        kept = number;
    }
    Ok(kept)
}

/// Opens a journal's file. InvalidInput for anything but a plain file, which is not opened, so that nothing waits at a FIFO.
pub(crate) fn open_journal(host: &HostRuntime, path: &str) -> io::Result<File> {
    if !metadata(host, path)?.is_file() {
        return Err(io::Error::new(ErrorKind::InvalidInput, "not a plain file"));
    }
    File::open(host, path)
}

/// Reports the lines that are not events and were left out, if there are some. It returns whether there are.
pub(crate) fn tell_bad(host: &HostRuntime, name: &str, lines: &JournalLines) -> bool
    ensures { result ≡ nat_lt 0 lines.now.bad }
{
    let first = lines.first_bad;
    let more = lines.bad.saturating_sub(1);
    if lines.bad == 0 {
        return false;
    }
    let form = if more == 0 {
        "jobscope: $: line $ is not an event\n"
    } else {
        "jobscope: $: line $ is not an event, and $ more\n"
    };
    let mut told = TextWriter::new(host.alloc());
    let holes = [Piece::Text(name), Piece::Number(first), Piece::Number(more)];
    told.fill(form, &holes);
    tell_line(host, told);
    true
}

/// Reads the journal of the path, or that of standard input, up to its last whole line.
pub(crate) fn read_journal<H: Receives>(
    host: &HostRuntime,
    path: Option<&str>,
    is_quiet: bool,
    lines: &mut JournalLines,
    receiver: &mut H,
) -> Result<(), JournalFault>
    ensures { OnOk result (ReceivesAll H.stands None None lines.old receiver.old lines.new receiver.new) }
{
    match read_from(host, path, is_quiet, lines, receiver) {
        Ok(()) if lines.count == 0 => Err(JournalFault::NoHeader),
        read => read,
    }
}

fn read_from<H: Receives>(
    host: &HostRuntime,
    path: Option<&str>,
    is_quiet: bool,
    lines: &mut JournalLines,
    receiver: &mut H,
) -> Result<(), JournalFault>
    ensures { OnOk result (ReceivesAll H.stands None None lines.old receiver.old lines.new receiver.new) }
{
    let Some(path) = path else {
        return read_source(host, &mut host.stdin(), is_quiet, lines, receiver);
    };
    match open_journal(host, path) {
        Ok(mut file) => {
            let read = read_source(host, &mut file, is_quiet, lines, receiver);
            drop(file);
            read
        }
        Err(error) => Err(JournalFault::Read(error)),
    }
}
