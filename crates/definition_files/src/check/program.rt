//! What a command line runs in the end, after the wrapper commands before a program, as setpriv(1), env(1) or sh(1) with -c.

use crate::check::command::name_of;
use crate::check::line::{folder_in, is_plain, is_replaced, last_of, words_of};
use crate::check::wrappers::{Begins, WRAPPERS, Wrapper};
use history_model::Text;
use std::alloc::{AllocError, Global};

/// A program on the way, and where its path is looked for.
#[derive(Clone, Copy)]
pub(crate) struct Started<'a> {
    pub(crate) path: &'a str,
    /// The root in which it is looked for; empty, if it is that of the machine.
    pub(crate) root: &'a str,
    /// The folder in which it is started; empty, if it is that of the job.
    pub(crate) folder: &'a str,
    /// It is read by the program before it, and need not be executable.
    pub(crate) is_script: bool,
    /// It is in the line of a shell, where a name without / may be one of the shell's own commands.
    pub(crate) is_in_line: bool,
}

/// The line of a shell.
#[derive(Clone, Copy)]
pub(crate) struct ShellLine<'a> {
    pub(crate) shell: &'a str,
    pub(crate) text: &'a str,
    /// How many arguments follow it: the first is `$0`.
    pub(crate) behind: usize,
    /// The last command takes the place of the shell, or is not a program.
    pub(crate) is_replaced: bool,
    /// The last command goes on in the background.
    pub(crate) is_left: bool,
}

/// What a command line comes to.
#[derive(Drop)]
pub(crate) struct Run<'a> {
    /// The programs in the order in which they are started.
    pub(crate) programs: Vec<Started<'a>>,
    /// The last program's name and arguments.
    pub(crate) words: Vec<&'a str>,
    /// Whether nothing on the way was unknown, so that these are all of the last program's name and arguments.
    pub(crate) is_whole: bool,
    /// The lines of the shells on the way.
    pub(crate) lines: Vec<ShellLine<'a>>,
}

/// How many programs are started one by another at most.
const MOST: usize = 8;

/// What the program runs at last when it is given these arguments.
pub(crate) fn program_of<'a>(
    alloc: Global,
    program: &'a str,
    arguments: &'a [Text],
) -> Result<Run<'a>, AllocError> {
    let mut words = Vec::new(alloc);
    words.push(program)?;
    for argument in arguments {
        words.push(argument.as_str())?;
    }
    let mut run = Run {
        programs: Vec::new(alloc),
        words,
        is_whole: true,
        lines: Vec::new(alloc),
    };
    let mut next = Started {
        path: program,
        root: "",
        folder: "",
        is_script: false,
        is_in_line: false,
    };
    for _ in 0..MOST {
        run.programs.push(next)?;
        match run.step(alloc, next)? {
            Some(found) => next = found,
            None => return Ok(run),
        }
    }
    run.is_whole = false;
    Ok(run)
}

impl<'a> Run<'a> {
    // What the first item of the command line starts; the command line is then that program's own. None, if it starts nothing, or nothing
    // that is known.
    fn step(&mut self, alloc: Global, now: Started<'a>) -> Result<Option<Started<'a>>, AllocError> {
        if now.is_script {
            return Ok(None);
        }
        let Some(wrapper) = wrapper_of(now.path) else {
            return Ok(None);
        };
        let line_at = match wrapper.begins {
            Begins::Script | Begins::Shell => line_in(self.words.as_slice()),
            _ => None,
        };
        match (wrapper.begins, line_at) {
            (Begins::Shell, Some(at)) => self.step_by_line(alloc, now, at),
            (_, Some(_)) => {
                self.is_whole = false;
                Ok(None)
            }
            (_, None) => self.step_by_words(alloc, now, wrapper),
        }
    }

    fn step_by_words(
        &mut self,
        alloc: Global,
        now: Started<'a>,
        wrapper: &Wrapper,
    ) -> Result<Option<Started<'a>>, AllocError> {
        let Some(found) = command_in(wrapper, self.words.as_slice()) else {
            self.is_whole = false;
            return Ok(None);
        };
        let mut next = now;
        next.is_in_line = false;
        if let Some(path) = found.folder {
            next.folder = path;
        }
        match wrapper.begins {
            Begins::Root => next.root = found.before,
            Begins::Script | Begins::Shell => next.is_script = true,
            _ => {}
        }
        self.go_to(alloc, next, found.at)
    }

    // The command at this index is next. Of a root within a root nothing is known.
    fn go_to(
        &mut self,
        alloc: Global,
        next: Started<'a>,
        at: usize,
    ) -> Result<Option<Started<'a>>, AllocError> {
        let mut words = Vec::new(alloc);
        for word in self.words.get(at..).unwrap_or(&[]) {
            words.push(*word)?;
        }
        let Some(path) = words.first() else {
            drop(words);
            return Ok(None);
        };
        let next = Started {
            path: *path,
            ..next
        };
        self.words = words;
        Ok(Some(next))
    }

    // The line of a shell is at this index.
    fn step_by_line(
        &mut self,
        alloc: Global,
        now: Started<'a>,
        at: usize,
    ) -> Result<Option<Started<'a>>, AllocError> {
        let Some(text) = self.words.get(at) else {
            return Ok(None);
        };
        let text: &'a str = *text;
        let behind = self.words.len().saturating_sub(at).saturating_sub(1);
        let hands_on = text.trim_end().ends_with(HANDED_ON);
        let last = last_of(text);
        let mut line = ShellLine {
            shell: now.path,
            text,
            behind,
            is_replaced: hands_on,
            is_left: last.is_left,
        };
        if hands_on {
            self.lines.push(line)?;
            let next = Started {
                is_in_line: false,
                ..now
            };
            return self.go_to(alloc, next, at.saturating_add(1));
        }
        let command = last.text.trim();
        line.is_replaced = is_replaced(text, command);
        self.lines.push(line)?;
        let mut next = now;
        if let Some(folder) = folder_in(text) {
            next.folder = folder;
        }
        next.is_in_line = true;
        self.is_whole = is_plain(command) && !last.is_left;
        let words = words_of(alloc, command)?;
        self.words = words;
        self.go_to(alloc, next, 0)
    }
}

/// The end of a line that runs the arguments after it in its place.
const HANDED_ON: &str = "exec \"$0\" \"$@\"";

/// The last part of a path, without the number of a version.
pub(crate) fn base_of(path: &str) -> &str {
    name_of(path).trim_end_matches(['0', '1', '2', '3', '4', '5', '6', '7', '8', '9', '.'])
}

fn wrapper_of(path: &str) -> Option<&'static Wrapper> {
    let name = base_of(path);
    for wrapper in WRAPPERS {
        if wrapper.name == name {
            return Some(wrapper);
        }
    }
    None
}

/// Where the command begins, the argument before it, and the folder in which it is started.
#[derive(Clone, Copy)]
struct CommandFound<'a> {
    at: usize,
    before: &'a str,
    folder: Option<&'a str>,
}

// Where the command of the wrapper begins among its arguments; None, if an option is unknown.
fn command_in<'a>(wrapper: &Wrapper, words: &[&'a str]) -> Option<CommandFound<'a>> {
    let mut found = CommandFound {
        at: 1,
        before: "",
        folder: None,
    };
    let mut before = wrapper.before;
    let mut is_value = false;
    let mut is_over = false;
    for word in words.get(1..).unwrap_or(&[]) {
        let word: &'a str = *word;
        let is_lone = word == "-" && !wrapper.options.contains(&"-");
        let is_option = !is_over && !is_lone && word.starts_with('-');
        if is_value {
            is_value = false;
            if found.before == "-C" || found.before == "--chdir" {
                found.folder = Some(word);
            }
        } else if is_option && word == "--" {
            is_over = true;
        } else if is_option {
            is_value = takes_value(wrapper.options, word)?;
            if let Some(folder) = word.strip_prefix("--chdir=") {
                found.folder = Some(folder);
            }
        } else if word.contains('=') && matches!(wrapper.begins, Begins::Variables) {
            is_over = true;
        } else if before > 0 {
            before = before.saturating_sub(1);
            is_over = true;
        } else {
            return Some(found);
        }
        found.before = word;
        found.at = found.at.saturating_add(1);
    }
    Some(found)
}

// Whether the value of the option is the next argument; None, if the options have no such one.
fn takes_value(options: &[&str], word: &str) -> Option<bool> {
    for option in options {
        let option: &str = *option;
        let (name, has_value) = match option.strip_suffix(':') {
            Some(name) => (name, true),
            None => (option, false),
        };
        if word == name {
            return Some(has_value);
        }
        let name = name.strip_suffix('?').unwrap_or(name);
        if (has_value || option.ends_with('?')) && is_joined(word, name) {
            return Some(false);
        }
    }
    let digits = ['0', '1', '2', '3', '4', '5', '6', '7', '8', '9'];
    if options.contains(&"-#") && word.trim_end_matches(digits) == "-" {
        return Some(false);
    }
    None
}

/// The argument is the option with its value in it: `--name=VALUE`, or of one letter `-nVALUE`.
pub(crate) fn is_joined(word: &str, name: &str) -> bool {
    match word.strip_prefix(name) {
        Some(rest) => {
            let is_letter = name.len() == 2 && !name.starts_with("--");
            rest.starts_with('=') || (is_letter && !rest.is_empty()) || name == word
        }
        None => false,
    }
}

// Which argument is the line: the one after the first option that has the letter c. None if an argument that is not an option comes first.
fn line_in(words: &[&str]) -> Option<usize> {
    let mut at: usize = 1;
    let mut is_value = false;
    for word in words.get(1..)? {
        at = at.saturating_add(1);
        if is_value {
            is_value = false;
        } else if !word.starts_with('-') || word.starts_with("--") {
            if !word.starts_with("--") || *word == "--" {
                return None;
            }
        } else if word.contains('c') {
            return Some(at);
        } else if *word == "-o" || *word == "-W" || *word == "-X" {
            is_value = true;
        }
    }
    None
}
