//! What may be wrong with the program and its arguments.

use crate::check::finding::Severity;
use crate::check::finding_list::FindingList;
use crate::check::foreground::add_leaving;
use crate::check::place::WayStep;
use crate::check::program::{Run, ShellLine, base_of, program_of};
use history_model::KeyName;
use job_defs::Def;
use json_kinds::key_name;
use run_times::Piece::Number;
use run_times::TextWriter;
use std::alloc::{AllocError, Global};

/// The wrapper command that passes a TERM on to the process group of its program.
const GROUP: &str = "jobd-group";

/// Adds the warnings on what is run: a command line in one argument, a program whose path is not from the root, and signs of a shell without a shell.
/// It also looks at lines of shells, and at a program that leaves the foreground.
pub(crate) fn add_command(def: &Def, finding_list: &mut FindingList<'_>) {
    let program = def.program();
    let is_whole = program.starts_with('/');
    let is_alone = def.arguments().is_empty();
    if is_alone && (is_line(program) || (!is_whole && program.contains(' '))) {
        return add_line(program, finding_list);
    }
    let told = if program.starts_with('~') {
        "the program begins with ~, which nothing expands here; write the absolute path"
    } else {
        "the program is a relative path, which goes from the job's folder (WorkingDirectory); write the absolute path"
    };
    // (from a folder that is written whole, a path goes to one place)
    let goes_from_folder = def.working_directory().unwrap_or("").starts_with('/');
    let is_relative = !is_whole
        && (program.starts_with('~') || (program.contains('/') && !goes_from_folder));
    finding_list.add_if(is_relative, KeyName::Program, told);
    add_signs(def, finding_list);
    match program_of(finding_list.alloc, program, def.arguments()) {
        Ok(run) => {
            add_run(def, &run, finding_list);
            drop(run);
        }
        Err(_) => finding_list.refuse(),
    }
}

fn add_run(def: &Def, run: &Run<'_>, finding_list: &mut FindingList<'_>) {
    let is_grouped = run
        .programs
        .iter()
        .any(|started| base_of(started.path) == GROUP);
    for line in &run.lines {
        add_shell_line(def, line, is_grouped, finding_list);
    }
    for started in &run.programs {
        if base_of(started.path) == "nohup" {
            let told =
                "nohup: no HUP comes to a job, and the program stays in the foreground; leave it out";
            finding_list.add(Severity::Note, KeyName::Program, told, &[]);
        }
    }
    if run.is_whole {
        add_leaving(run.words.as_slice(), finding_list);
    }
}

// Adds the warnings on the line of a shell. `is_grouped`: TERM reaches all processes of the run.
fn add_shell_line(
    def: &Def,
    line: &ShellLine<'_>,
    is_grouped: bool,
    finding_list: &mut FindingList<'_>,
) {
    let is_kept = def.keep_alive() || def.successful_exit().is_some() || def.crashed().is_some();
    let is_plain_shell = matches!(base_of(line.shell), "sh" | "dash" | "ash");
    let is_cut = line.behind > 0 && !line.text.contains('$');
    finding_list.add_if(
        is_cut && (line.behind > 1 || !line.text.trim().contains(' ')),
        KeyName::Program,
        "the shell takes the one argument after -c as the whole line, and later ones as its arguments; write the line as one member",
    );
    finding_list.add_if(
        line.is_left,
        KeyName::Program,
        "the line ends with &, so its run ends at once and the program goes on without the launcher; leave out the &, and write exec before the program",
    );
    finding_list.add_if(
        is_kept && is_plain_shell && !is_grouped && !line.is_replaced && !line.is_left && !is_cut,
        KeyName::Program,
        "the shell waits for the last command of its line: TERM ends the shell alone, and the program goes on; write exec before it, or jobd-group before the shell",
    );
    let is_given = match gives_below(finding_list.alloc, line.text) {
        Ok(is_given) => is_given,
        Err(_) => {
            finding_list.refuse();
            false
        }
    };
    finding_list.add_if(
        is_given,
        KeyName::Program,
        "root's install -o follows a link that the folder's user may put there; convert the unit again with from-systemd, or have the user make it (setpriv)",
    );
}

// Whether a command of the line gives a user a folder below one that it gave to a user before.
fn gives_below(alloc: Global, line: &str) -> Result<bool, AllocError> {
    let mut given: Vec<&str> = Vec::new(alloc);
    let mut is_install = false;
    let mut is_owner = false;
    let mut is_given = false;
    for word in line.split_whitespace() {
        let word = word.trim_end_matches(';');
        let is_begun = word == "install" || word.ends_with("/install");
        if is_begun || matches!(word, "" | "&&" | "||" | "|" | "exec" | "}") {
            is_install = is_begun;
            is_given = false;
        } else if is_owner {
            is_owner = false;
            is_given = word != "root" && word != "0";
        } else if word == "-o" {
            is_owner = is_install;
        } else if is_install && is_given && word.starts_with('/') {
            if is_below(word, given.as_slice()) {
                return Ok(true);
            }
            given.push(word)?;
        }
    }
    Ok(false)
}

fn is_below(path: &str, folders: &[&str]) -> bool {
    for folder in folders {
        if let Some(rest) = path.strip_prefix(*folder) {
            if rest.starts_with('/') {
                return true;
            }
        }
    }
    false
}

// After a blank comes an option or a path.
fn is_line(program: &str) -> bool {
    let mut is_first = true;
    for word in program.split(' ') {
        let begins_so = word.starts_with('-') || word.starts_with('/');
        if !is_first && word.len() > 1 && begins_so {
            return true;
        }
        is_first = false;
    }
    false
}

fn add_line(program: &str, finding_list: &mut FindingList<'_>) {
    let mut writer = TextWriter::new(finding_list.alloc);
    writer.put("the program is the single string ");
    writer.put_quoted(program);
    writer.put(
        ", with its spaces; each argument of a command line is a member of ProgramArguments",
    );
    finding_list.add_made(KeyName::Program, writer.into_text());
}

/// The last part of a path.
pub(crate) fn name_of(path: &str) -> &str {
    match path.rsplit_once('/') {
        Some((_, name)) => name,
        None => path,
    }
}

// Programs that read signs of a shell, or some of them, in a language of their own.
static READERS: &[&str] = &[
    "sh", "bash", "dash", "ash", "zsh", "ksh", "mksh", "fish", "csh", "tcsh", "busybox", "su",
    "runuser", "sudo", "ssh", "awk", "gawk", "mawk", "sed", "perl", "python3", "ruby", "expr",
    "test", "[", "find", "script", "flock", "watch", "jq", "make",
];

// The program of this path or name is one of these.
fn is_one(names: &[&str], word: &str) -> bool {
    names.contains(&name_of(word))
}

// Adds a warning for the first argument that no program reads as it is written, unless the program or an argument may read such ones. An option and
// its value in one argument is always such an argument.
fn add_signs(def: &Def, finding_list: &mut FindingList<'_>) {
    let mut found = None;
    let mut is_read = is_one(READERS, def.program());
    for argument in def.arguments() {
        is_read = is_read || is_one(READERS, argument.as_str());
    }
    let mut expands = is_one(OF_FILES, def.program());
    let mut before = "";
    for (index, argument) in def.arguments().iter().enumerate() {
        let word = argument.as_str();
        expands = expands || (is_one(OF_FILES, word) && before != "--exclude");
        let told = if is_joined(word) && before != "-c" {
            ", an option and its value in one; each is a member of its own"
        } else if is_read {
            ""
        } else {
            oddity_of(word, before, expands)
        };
        if found.is_none() && !told.is_empty() {
            found = Some((index, told));
        }
        before = word;
    }
    if let Some((index, told)) = found {
        add_sign(index.saturating_add(1), told, def, finding_list);
    }
}

// Why no program reads the argument as it is written; empty, if one may.
fn oddity_of(word: &str, before: &str, expands: bool) -> &'static str {
    if is_sign(word) {
        ", and no shell reads it; for a line of a shell run /bin/sh with -c and the line"
    } else if is_quoted(word) {
        ", with its quotes: no shell takes them off; leave them out"
    } else if expands
        && word.contains('*')
        && !before.starts_with("--")
        && !word.starts_with('-')
        && !word.contains(':')
    {
        ", and no shell expands it; for a line of a shell run /bin/sh with -c and the line"
    } else {
        ""
    }
}

// Quotes around the whole argument, or around what follows its one =.
fn is_quoted(word: &str) -> bool {
    let part = match word.split_once('=') {
        Some((name, value)) if name.starts_with('-') && !value.contains('=') => value,
        _ => word,
    };
    is_within(part, "'") || is_within(part, "\"")
}

// Whether the text begins and ends with the quote, and has none within.
fn is_within(part: &str, quote: &str) -> bool {
    let Some(rest) = part.strip_prefix(quote) else {
        return false;
    };
    match rest.strip_suffix(quote) {
        Some(inner) => !inner.contains(quote),
        None => false,
    }
}

// An option of one letter, or a long one after two -, and then one blank and something without a blank.
fn is_joined(word: &str) -> bool {
    let Some((option, value)) = word.split_once(' ') else {
        return false;
    };
    let is_long = option.starts_with("--") && option.len() > 3;
    let is_short = option.starts_with('-') && option.len() == 2 && option != "--";
    let mut is_name = is_long || is_short;
    for byte in option.as_bytes() {
        is_name = is_name && (byte.is_ascii_alphanumeric() || *byte == b'-');
    }
    is_name && !value.is_empty() && !value.contains(' ')
}

// Programs for whose files a shell expands a pattern.
static OF_FILES: &[&str] = &[
    "rm", "cp", "mv", "ls", "cat", "gzip", "gunzip", "bzip2", "xz", "zstd", "chmod", "chown",
    "chgrp", "tail", "head", "wc", "sort", "touch", "ln", "du", "rsync", "scp", "tar", "zip",
    "shred", "stat", "install",
];

fn add_sign(member: usize, told: &str, def: &Def, finding_list: &mut FindingList<'_>) {
    let key = key_name(KeyName::ProgramArguments);
    let word = match def.arguments().get(member.saturating_sub(1)) {
        Some(argument) => argument.as_str(),
        None => "",
    };
    let mut writer = TextWriter::new(finding_list.alloc);
    writer.fill(
        "ProgramArguments: member $ is ",
        &[Number(member.saturating_add(1) as u64)],
    );
    writer.put_quoted(word);
    writer.put(told);
    finding_list.push_at(
        &[WayStep::Key(key), WayStep::Member(member)],
        writer.into_text(),
    );
}

static SIGNS: &[&str] = &[
    "|", "||", "&&", "&", ">", ">>", "<", "2>", "2>>", "2>&1", "&>",
];

// A sign of a shell that is an argument by itself, or the begin of a variable, a command or a home folder.
fn is_sign(word: &str) -> bool {
    for sign in SIGNS {
        if *sign == word {
            return true;
        }
    }
    word.starts_with("~/") || word.contains('`') || has_variable(word)
}

// A dollar sign, and after it a capital letter, an underscore, or an opening brace or parenthesis.
fn has_variable(word: &str) -> bool {
    let mut is_behind = false;
    for byte in word.as_bytes() {
        let begins = matches!(*byte, b'A'..=b'Z' | b'_' | b'{' | b'(');
        if is_behind && begins {
            return true;
        }
        is_behind = *byte == b'$';
    }
    false
}
