//! What may be wrong with the paths that a definition names.

use crate::check::finding::Severity;
use crate::check::finding_list::FindingList;
use history_model::KeyName;
use job_defs::{Address, Def};
use json_kinds::key_name;
use run_times::Piece::Text;
use run_times::TextWriter;

/// Adds a note for each path that is not from the root. It adds a warning for one that begins with ~, has a *, or holds the job's own output as a
/// queue.
pub(crate) fn add_paths(def: &Def, finding_list: &mut FindingList<'_>) {
    add_if_relative(
        KeyName::WorkingDirectory,
        def.working_directory(),
        finding_list,
    );
    add_if_relative(
        KeyName::StandardInPath,
        def.standard_in_path(),
        finding_list,
    );
    add_if_relative(
        KeyName::StandardOutPath,
        def.standard_out_path(),
        finding_list,
    );
    add_if_relative(
        KeyName::StandardErrorPath,
        def.standard_error_path(),
        finding_list,
    );
    for path in def.watch_paths() {
        add_if_relative(KeyName::WatchPaths, Some(path.as_str()), finding_list);
        add_if_pattern(KeyName::WatchPaths, path.as_str(), finding_list);
    }
    for path in def.queue_directories() {
        add_if_relative(KeyName::QueueDirectories, Some(path.as_str()), finding_list);
        add_if_pattern(KeyName::QueueDirectories, path.as_str(), finding_list);
        add_own_log(path.as_str(), def.standard_out_path(), finding_list);
        add_own_log(path.as_str(), def.standard_error_path(), finding_list);
    }
    for state in def.path_state() {
        add_if_relative(KeyName::KeepAlive, Some(state.path.as_str()), finding_list);
        add_if_pattern(KeyName::KeepAlive, state.path.as_str(), finding_list);
    }
    for socket in def.sockets() {
        if let Address::Unix(path) = &socket.address {
            add_if_relative(KeyName::Sockets, Some(path.as_str()), finding_list);
        }
    }
}

fn add_if_relative(key: KeyName, path: Option<&str>, finding_list: &mut FindingList<'_>) {
    let path = path.unwrap_or("/");
    if path.starts_with('/') {
        return;
    }
    let (severity, behind) = if path.starts_with('~') {
        (
            Severity::Warning,
            " begins with ~, which nothing expands here; write the absolute path",
        )
    } else {
        (
            Severity::Note,
            " is a relative path, which goes from the launcher's folder",
        )
    };
    let mut writer = TextWriter::new(finding_list.alloc);
    writer.fill("$: ", &[Text(key_name(key))]);
    writer.put_quoted(path);
    writer.put(behind);
    let place = finding_list.place_of(key);
    finding_list.push(place, severity, writer.into_text());
}

// Adds a warning for a path with a *: no path is a pattern.
fn add_if_pattern(key: KeyName, path: &str, finding_list: &mut FindingList<'_>) {
    if path.contains('*') {
        let told = "$: $ has a *, which nothing expands here; name the folder itself";
        let pieces = [Text(key_name(key)), Text(path)];
        finding_list.add(Severity::Warning, key, told, &pieces);
    }
}

// Adds a warning if the output goes into the queue: the job is then never without a file there.
fn add_own_log(folder: &str, output: Option<&str>, finding_list: &mut FindingList<'_>) {
    let rest = output
        .unwrap_or("")
        .strip_prefix(folder.trim_end_matches('/'));
    if rest.unwrap_or("").starts_with('/') {
        let told =
            "QueueDirectories: the job's own output goes into $, so that is never empty and the job starts again and again";
        let pieces = [Text(folder)];
        finding_list.add(Severity::Warning, KeyName::QueueDirectories, told, &pieces);
    }
}
