//! A status file that is read whole: where it is, its lines, and what is seen of its launcher.

ghost use Rattle.std.specs.Prelude.{◌≡◌, false, IfOk, IfSome};
ghost use Rattle.status_file.specs.Fronts.{IsLineOf, IsProcessOf};
ghost use Rattle.status_page.specs.Rows.{is_asked};

use crate::boot::{Boot, LeftOut, boot_of};
use crate::table::is_asked;
use calendar_due::Zone;
use ctl_protocol::{ReadFault, read_header};
use exit_status::BAD_FILE;
use files_and_process::path_files::read_file;
use history_model::Text;
use launcher_life::{LauncherSeen, StatusFileAsked, file_life, foretells, mark_of, may_live};
use run_times::telling::{tell_line, tell_of};
use run_times::{TextWriter, utc};
use status_file::{
    BindStatus, JobStatus, LauncherStatus, LineFront, LineRoom, MOST_BINDS, StatusFault,
    StatusLine, read_line,
};
use std::alloc::{AllocError, Global};
use std::env::VarError;
use std::fs::metadata;
use std::io::ErrorKind;
use std::{env, io};
use table_opening::zone_of;

/// The status file of the package's launcher.
const PACKAGES: &str = "/run/jobd/status.jsonl";

/// Where a launcher of version 0.3.0 has it.
const BEFORE: &str = "/var/lib/jobd/status.jsonl";

/// How many bytes a status file may have: twice some 8,000 for each of the most jobs that a launcher holds.
const LONGEST: usize = 16_777_216;

/// A status file that was read, as far as it is asked of.
#[derive(Drop)]
pub struct StatusRead {
    lines: Lines,
    /// What is seen of its launcher.
    pub seen: LauncherSeen,
    /// The second of Unix time at which its launcher renewed it last, if the file says it.
    pub renewed: Option<u64>,
    pub boot: Boot,
}

/// The lines of a file.
#[derive(Drop)]
struct Lines {
    // The launcher's, and those of the jobs that are asked for.
    read: Vec<StatusLine>,
    // The labels of all its jobs, if some are asked for by their labels.
    labels: Vec<Text>,
    // The processes of the present runs of its jobs, as the file has them.
    pids: Vec<u32>,
    // How many there are.
    count: u64,
}

impl StatusRead {
    /// Whether what it says of jobs may hold now.
    pub fn may_live(&self) -> bool {
        may_live(self.seen.life)
    }

    /// Whether its launcher accepted a shutdown, and may be running. A launcher of version 0.3.0 does not say it.
    pub fn is_ending(&self) -> bool {
        match self.launcher() {
            Some(launcher) => self.may_live() && launcher.is_shutting_down.unwrap_or(false),
            None => false,
        }
    }

    /// Whether something may be foretold of its jobs: its launcher runs.
    pub fn foretells(&self) -> bool {
        foretells(self.seen.life)
    }

    /// What it says of the launcher, which is its first line.
    pub fn launcher(&self) -> Option<LauncherStatus<'_>> {
        self.lines.read.first()?.launcher().ok()
    }

    /// The load of this label that was refused last, since a socket could not be bound. None also if one of this label was accepted since, or if the file does
    /// not say it.
    pub fn refused_bind(&self, label: &str) -> Option<BindStatus<'_>> {
        for place in 0..MOST_BINDS {
            let bind = self.bind_at(place)?;
            if bind.label == label {
                return Some(bind);
            }
        }
        None
    }

    /// The one at this place, of at most 64.
    pub fn bind_at(&self, place: usize) -> Option<BindStatus<'_>> {
        self.lines.read.first()?.refused_bind(place).ok()?
    }

    /// The lines of the jobs that are asked for, by rising bytes of their labels.
    pub fn jobs(&self) -> &[StatusLine] {
        match self.lines.read.as_slice() {
            [_, jobs @ ..] => jobs,
            [] => &[],
        }
    }

    /// The processes of the present runs of all its jobs, in no order, as far as the file has them next to the labels.
    pub fn pids(&self) -> &[u32] {
        self.lines.pids.as_slice()
    }

    /// The labels of all its jobs, by rising bytes, if some are asked for by their labels.
    pub fn labels(&self) -> &[Text] {
        self.lines.labels.as_slice()
    }

    /// Whether no job is loaded.
    pub fn is_empty(&self) -> bool {
        self.lines.count <= 1
    }

    /// Whether it has a job of this label, which was asked for.
    pub fn has(&self, label: &str) -> bool {
        let labels = self.labels();
        !labels.is_empty() && is_asked(labels, label)
    }

    /// Whether a definition that the boot left out is not loaded by now: no job has its label.
    pub fn is_left_out(&self, file: &LeftOut) -> bool {
        match file.label() {
            Some(label) => !self.lines.have(label),
            None => true,
        }
    }

    /// Whether an argument means a definition that the boot left out.
    pub fn leaves_out(&self, word: &str) -> bool {
        for file in &self.boot.left_out {
            if file.is_meant_by(word) && self.is_left_out(file) {
                return true;
            }
        }
        false
    }

    /// How many definitions the boot left out that are not loaded by now. None if nothing was written of the boot.
    pub fn count_left_out(&self) -> Option<u64> {
        if !self.boot.is_known {
            return None;
        }
        let mut count: u64 = 0;
        for file in &self.boot.left_out {
            if self.is_left_out(file) {
                count = count.saturating_add(1);
            }
        }
        Some(count)
    }

    /// The zone of the launcher, or UTC.
    pub fn zone(&self, alloc: Global, is_utc: bool) -> Result<Zone, AllocError> {
        let header = match self.launcher() {
            Some(launcher) if !is_utc => read_header(alloc, launcher.header.as_bytes()),
            _ => return Ok(utc()),
        };
        match header {
            Ok(header) => {
                let zone = zone_of(alloc, &header.zone);
                drop(header);
                match zone {
                    Ok(Some(zone)) => Ok(zone),
                    Ok(None) => Ok(utc()),
                    Err(error) => Err(error),
                }
            }
            Err(ReadFault::NoMemory) => Err(AllocError),
            Err(ReadFault::BadRequest) => Ok(utc()),
        }
    }
}

/// What keeps a status file from being read.
#[derive(Drop)]
pub enum Diagnostic {
    NoMemory,
    Read(io::Error),
    /// It is longer than one may be.
    Long,
    /// Its last line is not ended, or it has fewer lines than its first one says, or more.
    NotWhole,
    /// The line of this number does not belong in a status file.
    Line(u64, StatusFault),
}

/// The path of the status file of the package's launcher. If the file of version 0.3.0 exists, it is that one: such a launcher runs on after an
/// upgrade, and a later `jobd-run` removes the file at its start.
pub fn packages_file(host: &HostRuntime) -> &'static str {
    if metadata(host, BEFORE).is_ok() {
        BEFORE
    } else {
        PACKAGES
    }
}

/// The path that the arguments name, else that of `JOBD_STATUS_FILE`, if it is not empty.
pub fn named_path(host: &HostRuntime, named: &Option<Text>) -> Result<Option<String>, AllocError> {
    if let Some(path) = named {
        return match String::from_str(host.alloc(), path.as_str()) {
            Ok(path) => Ok(Some(path)),
            Err(error) => Err(error),
        };
    }
    match env::var(host, "JOBD_STATUS_FILE") {
        Ok(path) if !path.is_empty() => Ok(Some(path)),
        Err(VarError::OutOfMemory) => Err(AllocError),
        _ => Ok(None),
    }
}

/// Reads the file, and looks whether its launcher is running. If labels are named, it reads the lines of their jobs. Each other line must be JSON
/// that begins with another label; it ignores what else such a line says. If no label is named, it reads all lines.
pub fn read_standing(
    host: &HostRuntime,
    alloc: Global,
    path: &str,
    asked: &[Text],
) -> Result<StatusRead, Diagnostic> {
    let bytes = match read_file(host, alloc, path, LONGEST) {
        Ok(Some(bytes)) => bytes,
        Ok(None) => return Err(Diagnostic::Long),
        Err(error) => return Err(Diagnostic::Read(error)),
    };
    let lines = lines_of(alloc, bytes.as_slice(), asked);
    drop(bytes);
    standing_of(host, alloc, path, lines?)
}

// The file of these lines, if there are the number of lines that the first one says.
fn standing_of(
    host: &HostRuntime,
    alloc: Global,
    path: &str,
    lines: Lines,
) -> Result<StatusRead, Diagnostic> {
    let found = match lines.read.first() {
        Some(first) => match first.launcher() {
            Ok(launcher) if launcher.jobs.saturating_add(1) == lines.count => {
                around_of(host, alloc, path, &launcher)
            }
            Ok(_) => Err(Diagnostic::NotWhole),
            Err(fault) => Err(Diagnostic::Line(1, fault)),
        },
        None => Err(Diagnostic::NotWhole),
    };
    match found {
        Ok((seen, boot)) => Ok(StatusRead {
            lines,
            seen,
            renewed: mark_of(host, path),
            boot,
        }),
        Err(diagnostic) => {
            drop(lines);
            Err(diagnostic)
        }
    }
}

// What is seen of the launcher, and what was written of its boot.
fn around_of(
    host: &HostRuntime,
    alloc: Global,
    path: &str,
    launcher: &LauncherStatus<'_>,
) -> Result<(LauncherSeen, Boot), Diagnostic> {
    match boot_of(host, alloc, path, launcher) {
        Ok(boot) => {
            let asked = StatusFileAsked {
                path,
                pid: launcher.pid,
                began: launcher.began,
                is_empty: launcher.jobs == 0,
                renews: launcher.renewed_each.is_some(),
            };
            Ok((file_life(host, alloc, asked), boot))
        }
        Err(_) => Err(Diagnostic::NoMemory),
    }
}

// The lines, each of which is the launcher's or a job's.
fn lines_of(alloc: Global, bytes: &[u8], asked: &[Text]) -> Result<Lines, Diagnostic> {
    let Some(whole) = bytes.strip_suffix(b"\n") else {
        return Err(Diagnostic::NotWhole);
    };
    let mut room = LineRoom::new(alloc);
    let mut lines = Lines {
        read: Vec::new(alloc),
        labels: Vec::new(alloc),
        pids: Vec::new(alloc),
        count: 0,
    };
    for line in whole.split(|byte| *byte == b'\n') {
        if let Err(diagnostic) = lines.add(alloc, line, asked, &mut room) {
            drop(lines);
            drop(room);
            return Err(diagnostic);
        }
    }
    drop(room);
    Ok(lines)
}

impl Lines {
    // Whether it has a job of this label.
    fn have(&self, label: &str) -> bool {
        for other in &self.labels {
            if other.as_str() == label {
                return true;
            }
        }
        for line in &self.read {
            if has_label(line, label) {
                return true;
            }
        }
        false
    }

    fn add(
        &mut self,
        alloc: Global,
        line: &[u8],
        asked: &[Text],
        room: &mut LineRoom,
    ) -> Result<(), Diagnostic> {
        self.count = self.count.saturating_add(1);
        let is_first = self.count == 1;
        let passed = if is_first || asked.is_empty() {
            Ok(None)
        } else {
            other_front(alloc, line, asked, room)
        };
        let is_added = match passed {
            Ok(Some((label, pid))) => {
                let is_labelled = self.labels.push(label).is_ok();
                self.add_pid(pid) && is_labelled
            }
            Ok(None) => match line_of(alloc, line, is_first) {
                Ok(line) => self.add_read(alloc, line, !asked.is_empty()),
                Err(fault) => return Err(Diagnostic::Line(self.count, fault)),
            },
            Err(_) => false,
        };
        if is_added {
            Ok(())
        } else {
            Err(Diagnostic::NoMemory)
        }
    }

    // A line that was read, with its label if labels are asked for. False: there was no memory.
    fn add_read(&mut self, alloc: Global, line: StatusLine, is_asked: bool) -> bool {
        let (is_labelled, pid) = match line.job() {
            Ok(job) => {
                let is_labelled = !is_asked || self.add_label(alloc, job.label);
                (is_labelled, pid_of(&job))
            }
            Err(_) => (true, None),
        };
        let is_noted = self.add_pid(pid);
        let is_pushed = self.read.push(line).is_ok();
        is_labelled && is_noted && is_pushed
    }

    fn add_label(&mut self, alloc: Global, label: &str) -> bool {
        match Text::copy_of(alloc, label) {
            Ok(label) => self.labels.push(label).is_ok(),
            Err(_) => false,
        }
    }

    fn add_pid(&mut self, pid: Option<u32>) -> bool {
        match pid {
            Some(pid) => self.pids.push(pid).is_ok(),
            None => true,
        }
    }
}

fn pid_of(job: &JobStatus<'_>) -> Option<u32> {
    match job.facts.reasons.child {
        Some(child) => Some(child.pid),
        None => None,
    }
}

// The label and the process of a line that is not asked for, found without a tree.
fn other_front(
    alloc: Global,
    line: &[u8],
    asked: &[Text],
    room: &mut LineRoom,
) -> Result<Option<(Text, Option<u32>)>, AllocError>
    ensures label { IfOk result (λ found. IfSome found (λ front. IsLineOf line.now front.0 × (is_asked asked.now front.0 ≡ false))) }
    ensures process { IfOk result (λ found. IfSome found (λ front. IfSome front.1 (λ pid. IsProcessOf line.now front.0 pid))) }
{
    let Ok(text) = std::str::from_utf8(line) else {
        return Ok(None);
    };
    match room.front_in(text)? {
        Some(LineFront { label, pid }) if !is_asked(asked, label) => {
            Ok(Some((Text::copy_of(alloc, label)?, pid)))
        }
        _ => Ok(None),
    }
}

fn has_label(line: &StatusLine, label: &str) -> bool {
    match line.job() {
        Ok(job) => job.label == label,
        Err(_) => false,
    }
}

fn line_of(alloc: Global, line: &[u8], is_first: bool) -> Result<StatusLine, StatusFault> {
    let line = read_line(alloc, line)?;
    match fault_in(alloc, &line, is_first) {
        None => Ok(line),
        Some(fault) => {
            drop(line);
            Err(fault)
        }
    }
}

fn fault_in(alloc: Global, line: &StatusLine, is_first: bool) -> Option<StatusFault> {
    if is_first {
        return match line.launcher() {
            Ok(_) => None,
            Err(fault) => Some(fault),
        };
    }
    match line.job() {
        Ok(_) => match line.calendar(alloc) {
            Ok(entries) => {
                drop(entries);
                None
            }
            Err(fault) => Some(fault),
        },
        Err(fault) => Some(fault),
    }
}

/// Reports what keeps the file from being read, and returns the exit status. An error for want of memory.
pub fn print_diagnostic(host: &HostRuntime, path: &str, diagnostic: Diagnostic) -> io::Result<u8> {
    let (number, key, words) = match diagnostic {
        Diagnostic::NoMemory | Diagnostic::Line(_, StatusFault::NoMemory) => {
            return Err(io::Error::from(ErrorKind::OutOfMemory));
        }
        Diagnostic::Read(error) => {
            tell_of(host, path, &error);
            return Ok(BAD_FILE);
        }
        Diagnostic::Long => (0, "", "longer than 16777216 bytes"),
        Diagnostic::NotWhole => (0, "", "the status file is not complete"),
        Diagnostic::Line(line, StatusFault::NotJson) => (line, "", "not a line of a status file"),
        Diagnostic::Line(line, StatusFault::Missing(key)) => (line, key, " is missing"),
        Diagnostic::Line(line, StatusFault::Wrong(key)) => (line, key, " is of another form"),
    };
    let mut told = TextWriter::new(host.alloc());
    told.put("jobscope: ");
    told.put_plain(path);
    told.put(": ");
    if number > 0 {
        told.put("line ");
        told.put_number(number);
        told.put(": ");
    }
    told.put(key);
    told.put(words);
    told.put("\n");
    tell_line(host, told);
    Ok(BAD_FILE)
}
