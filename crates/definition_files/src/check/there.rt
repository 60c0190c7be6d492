//! Whether what a definition names is there.

use crate::check::finding::Severity;
use crate::check::finding_list::FindingList;
use crate::check::program::{Run, program_of};
use crate::check::script::add_script;
use history_model::KeyName;
use job_defs::{Address, Def};
use json_kinds::key_name;
use run_times::Piece::Text;
use run_times::TextWriter;
use run_times::telling::put_made;
use std::alloc::{AllocError, Global};
use std::fs::metadata;
use std::io;
use std::io::ErrorKind;
use std::os::unix::fs::{FileTypeExt, PermissionsExt};

/// What must be at a path.
#[derive(Clone, Copy)]
enum Wanted {
    /// A plain file that can be executed; of a script the interpreter too.
    Program,
    /// A file that a program reads as its script.
    Script,
    /// A folder.
    Folder,
    /// A file that can be read from its beginning.
    Input,
    /// A file to which output is added, in a folder that is there. It need not be there itself: it is made.
    Output,
    /// A socket, in a folder that is there. It is made.
    Socket,
}

/// What is at a path.
#[derive(Clone, Copy)]
pub(crate) enum PathFound {
    Folder,
    /// A plain file that can be executed.
    Program,
    /// Another plain file.
    File,
    Fifo,
    Socket,
    Other,
    Nothing,
}

/// A key, the path that it names, and what must be there.
type Named = (KeyName, String, Wanted);

// What a start needs, in the order in which it is looked for: what is run first, and then the paths of keys.
fn needed(alloc: Global, def: &Def) -> Result<Vec<Named>, AllocError> {
    let mut all = Vec::new(alloc);
    let run = program_of(alloc, def.program(), def.arguments())?;
    let added = add_programs(alloc, def, &run, &mut all);
    drop(run);
    added?;
    let keys = [
        (
            KeyName::WorkingDirectory,
            def.working_directory(),
            Wanted::Folder,
        ),
        (
            KeyName::StandardInPath,
            def.standard_in_path(),
            Wanted::Input,
        ),
        (
            KeyName::StandardOutPath,
            def.standard_out_path(),
            Wanted::Output,
        ),
        (
            KeyName::StandardErrorPath,
            def.standard_error_path(),
            Wanted::Output,
        ),
    ];
    for (key, path, wanted) in keys.iter() {
        let path = String::from_str(alloc, path.unwrap_or(""))?;
        all.push((*key, path, *wanted))?;
    }
    Ok(all)
}

// Adds each program on the way, and the folder into which it is started first.
fn add_programs(
    alloc: Global,
    def: &Def,
    run: &Run<'_>,
    all: &mut Vec<Named>,
) -> Result<(), AllocError> {
    let mut folder = "";
    for started in &run.programs {
        if started.folder != folder {
            folder = started.folder;
            let path = rooted(alloc, started.root, "", folder)?;
            all.push((KeyName::Program, path, Wanted::Folder))?;
        }
        let own = if folder.is_empty() {
            def.working_directory().unwrap_or("")
        } else {
            folder
        };
        let wanted = if started.is_script {
            Wanted::Script
        } else {
            Wanted::Program
        };
        let is_path = started.is_script || started.path.contains('/');
        let path = if is_path { started.path } else { "" };
        let path = rooted(alloc, started.root, own, path)?;
        all.push((KeyName::Program, path, wanted))?;
    }
    Ok(())
}

// The path as it is looked for, from a root and a folder. Empty, if the path is, or if it goes from what is not known.
fn rooted(alloc: Global, root: &str, folder: &str, path: &str) -> Result<String, AllocError> {
    let root = root.trim_end_matches('/');
    let is_known = root.is_empty() || root.starts_with('/');
    let (folder, between) = if path.starts_with('/') {
        ("", "")
    } else {
        (folder, "/")
    };
    let is_from_root = path.starts_with('/') || folder.starts_with('/');
    if path.is_empty() || !is_known || !is_from_root {
        return Ok(String::new(alloc));
    }
    let path = path.strip_prefix("./").unwrap_or(path);
    format!(in alloc; "{root}{folder}{between}{path}")
}

/// Writes a line for each path from the root that a start of the definition needs, and that is missing now or is not what it must be. If
/// there is no such path, it writes one line that says so. It writes each line before it looks at the next path, so that a path on a file
/// system that hangs hides no earlier line. An error is of the standard output, or of memory.
pub fn put_seen(host: &HostRuntime, alloc: Global, def: &Def) -> io::Result<()> {
    let Ok(keys) = needed(alloc, def) else {
        return Err(io::Error::from(ErrorKind::OutOfMemory));
    };
    let seen = put_each(host, alloc, keys.as_slice());
    drop(keys);
    if seen? {
        return put_line(
            host,
            alloc,
            "each path from the root that its start needs is there",
        );
    }
    Ok(())
}

// Writes what is wrong with each of the paths, and returns whether nothing is.
fn put_each(host: &HostRuntime, alloc: Global, keys: &[Named]) -> io::Result<bool> {
    let mut is_well = true;
    for (_, path, wanted) in keys {
        let mut writer = TextWriter::new(alloc);
        add_wrong(host, alloc, path.as_str(), *wanted, &mut writer);
        match writer.into_text() {
            Ok(told) => {
                let written = put_line(host, alloc, told.as_str());
                is_well = is_well && told.is_empty();
                drop(told);
                written?;
            }
            Err(_) => return Err(io::Error::from(ErrorKind::OutOfMemory)),
        }
    }
    Ok(is_well)
}

// Writes the line on what is seen now; nothing if there is nothing to say.
fn put_line(host: &HostRuntime, alloc: Global, told: &str) -> io::Result<()> {
    if told.is_empty() {
        return Ok(());
    }
    let mut writer = TextWriter::new(alloc);
    writer.fill("  Now: $.\n", &[Text(told)]);
    put_made(host, writer.into_text())
}

/// Adds a warning for each file or folder that the definition names by a path from the root, and that is missing, or is not what it must be.
pub(crate) fn add_missing(host: &HostRuntime, def: &Def, finding_list: &mut FindingList<'_>) {
    match needed(finding_list.alloc, def) {
        Ok(keys) => {
            for (key, path, wanted) in &keys {
                add_of(host, *key, path.as_str(), *wanted, finding_list);
            }
            drop(keys);
        }
        Err(_) => finding_list.refuse(),
    }
    add_names(host, def, finding_list);
    for path in def.queue_directories() {
        add_of(
            host,
            KeyName::QueueDirectories,
            path.as_str(),
            Wanted::Folder,
            finding_list,
        );
        add_kept(host, path.as_str(), finding_list);
    }
    for socket in def.sockets() {
        if let Address::Unix(path) = &socket.address {
            add_of(
                host,
                KeyName::Sockets,
                path.as_str(),
                Wanted::Socket,
                finding_list,
            );
        }
    }
}

// Files that keep a folder in a repository.
static KEEPERS: &[&str] = &[".gitkeep", ".keep", ".gitignore", ".placeholder"];

// Adds a warning if such a file is in the queue: it is then never empty.
fn add_kept(host: &HostRuntime, folder: &str, finding_list: &mut FindingList<'_>) {
    for name in KEEPERS {
        match format!(in finding_list.alloc; "{folder}/{name}") {
            Ok(path) => {
                if let Ok(PathFound::File | PathFound::Program) = found_at(host, path.as_str()) {
                    let told =
                        "QueueDirectories: $ is a file too, so the queue is never empty and the job starts again and again";
                    let pieces = [Text(path.as_str())];
                    finding_list.add(Severity::Warning, KeyName::QueueDirectories, told, &pieces);
                }
                drop(path);
            }
            Err(_) => finding_list.refuse(),
        }
    }
}

// Adds a warning of what is wrong with the path of the key, if something is.
fn add_of(
    host: &HostRuntime,
    key: KeyName,
    path: &str,
    wanted: Wanted,
    finding_list: &mut FindingList<'_>,
) {
    let mut writer = TextWriter::new(finding_list.alloc);
    add_wrong(host, finding_list.alloc, path, wanted, &mut writer);
    match writer.into_text() {
        Ok(told) => {
            if !told.is_empty() {
                add_told(key, wanted, told.as_str(), finding_list);
            }
            drop(told);
        }
        Err(_) => finding_list.refuse(),
    }
}

fn add_told(key: KeyName, wanted: Wanted, told: &str, finding_list: &mut FindingList<'_>) {
    let (name, behind) = match (key, wanted) {
        (KeyName::Program, Wanted::Script) => ("the script", " "),
        (KeyName::Program, Wanted::Folder) => ("the folder", " "),
        (KeyName::Program, _) => ("the program", " "),
        (key, _) => (key_name(key), ": "),
    };
    let mut writer = TextWriter::new(finding_list.alloc);
    writer.put_all(&[Text(name), Text(behind), Text(told)]);
    finding_list.add_made(key, writer.into_text());
}

// Adds what is wrong with the path, if something is. Nothing is known of a path that is not from the root.
fn add_wrong(
    host: &HostRuntime,
    alloc: Global,
    path: &str,
    wanted: Wanted,
    writer: &mut TextWriter,
) {
    if !path.starts_with('/') {
        return;
    }
    match (wanted, found_at(host, path)) {
        (Wanted::Program, Ok(PathFound::Program)) => add_script(host, alloc, path, writer),
        (Wanted::Output, Ok(PathFound::Nothing) | Err(_)) => add_folder(host, alloc, path, writer),
        (Wanted::Socket, _) => add_folder(host, alloc, path, writer),
        (wanted, found) => add_found(alloc, path, wanted, found, writer),
    }
}

// Adds the findings on each program that has no /: a warning if no folder of PATH has it. If one has it, only the first program gets a note.
fn add_names(host: &HostRuntime, def: &Def, finding_list: &mut FindingList<'_>) {
    match program_of(finding_list.alloc, def.program(), def.arguments()) {
        Ok(run) => {
            for (index, started) in run.programs.iter().enumerate() {
                let is_name = !started.path.contains('/') && !started.path.contains(' ');
                let is_sought = !started.is_script
                    && !started.is_in_line
                    && started.root.is_empty();
                if is_name && is_sought && !started.path.starts_with('~') {
                    add_name(host, started.path, index == 0, path_of(def), finding_list);
                }
            }
            drop(run);
        }
        Err(_) => finding_list.refuse(),
    }
}

/// Where programs are looked for, if the definition does not say it: the folders that systemd gives its services.
const PATH: &str = "/usr/local/sbin:/usr/local/bin:/usr/sbin:/usr/bin:/sbin:/bin";

fn path_of(def: &Def) -> &str {
    for variable in def.environment() {
        if variable.name.as_str() == "PATH" {
            return variable.value.as_str();
        }
    }
    PATH
}

fn add_name(
    host: &HostRuntime,
    name: &str,
    is_first: bool,
    folders: &str,
    finding_list: &mut FindingList<'_>,
) {
    let mut is_there = false;
    for folder in folders.split(':') {
        match format!(in finding_list.alloc; "{folder}/{name}") {
            Ok(path) => {
                if let Ok(PathFound::Program) = found_at(host, path.as_str()) {
                    is_there = true;
                }
                drop(path);
            }
            Err(_) => finding_list.refuse(),
        }
    }
    if !is_there {
        let told = "the program $ is in no folder of the job's PATH; write the absolute path";
        finding_list.add(Severity::Warning, KeyName::Program, told, &[Text(name)]);
    } else if is_first {
        let told =
            "the program is looked for in the job's PATH, since it has no /; write the absolute path";
        finding_list.add(Severity::Note, KeyName::Program, told, &[]);
    }
}

pub(crate) fn found_at(host: &HostRuntime, path: &str) -> io::Result<PathFound> {
    match metadata(host, path) {
        Ok(data) if data.is_dir() => Ok(PathFound::Folder),
        Ok(data) if data.file_type().is_fifo() => Ok(PathFound::Fifo),
        Ok(data) if data.file_type().is_socket() => Ok(PathFound::Socket),
        Ok(data) if !data.is_file() => Ok(PathFound::Other),
        Ok(data) if data.permissions().mode() & 0o111 != 0 => Ok(PathFound::Program),
        Ok(_) => Ok(PathFound::File),
        Err(error) if error.kind() == ErrorKind::NotFound => Ok(PathFound::Nothing),
        Err(error) => Err(error),
    }
}

// Adds what is wrong with what was found at the path; if it can't be looked at, what the system says.
fn add_found(
    alloc: Global,
    path: &str,
    wanted: Wanted,
    found: io::Result<PathFound>,
    writer: &mut TextWriter,
) {
    let wrong = match (found, wanted) {
        (Err(error), _) => {
            writer.put_made(format!(in alloc; "{path}: {error}"));
            return;
        }
        (Ok(PathFound::Nothing), _) => " is not there",
        (Ok(PathFound::File), Wanted::Program) => " is not executable",
        (Ok(PathFound::Program), Wanted::Program) => return,
        (Ok(_), Wanted::Program) => " is not a plain file",
        (Ok(PathFound::Folder), Wanted::Folder | Wanted::Socket) => return,
        (Ok(_), Wanted::Folder | Wanted::Socket) => " is not a folder",
        (Ok(PathFound::Folder), _) => " is a folder",
        (Ok(PathFound::Fifo), _) =>
            " is a FIFO: the start is refused, since its open may wait for ever",
        (Ok(PathFound::Socket), _) =>
            " is a socket: the start is refused, since it can't be opened as a file",
        _ => return,
    };
    writer.put_plain(path);
    writer.put(wrong);
}

// Adds what is wrong with the folder in which the path's file is made.
fn add_folder(host: &HostRuntime, alloc: Global, path: &str, writer: &mut TextWriter) {
    match path.rsplit_once('/') {
        Some((folder, _)) if !folder.is_empty() => {
            add_found(
                alloc,
                folder,
                Wanted::Folder,
                found_at(host, folder),
                writer,
            );
        }
        _ => {}
    }
}
