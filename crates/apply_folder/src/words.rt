//! The arguments of `jobctl apply`.

ghost use Rattle.std.specs.Prelude.{◌≡◌, ◌||◌, false};
ghost use Rattle.apply_folder.specs.FlagWords.{is_dry_run, is_prune, is_now, is_strict, is_wait, is_json};

use files_and_process::own_process::MARK;
use history_model::Text;
use std::alloc::{AllocError, Global};

/// The subcommand.
const WORD: &str = "apply";

/// An option that takes no value.
#[derive(Clone, Copy)]
pub enum ApplyFlag {
    DryRun,
    Prune,
    Now,
    Strict,
    Wait,
    Json,
}

/// Which of the options are set.
#[derive(Clone, Copy)]
pub struct ApplyFlags {
    /// Nothing is done: the plan is shown.
    pub dry_run: bool,
    pub prune: bool,
    /// Runs are ended for it.
    pub at_once: bool,
    pub strict: bool,
    /// The ends of runs are waited for.
    pub wait: bool,
    pub json: bool,
}

impl ApplyFlags {
    /// No option is set.
    pub fn none() -> ApplyFlags
        ensures done { (result.dry_run ≡ false) × (result.prune ≡ false) × (result.at_once ≡ false) }
        ensures shown { (result.strict ≡ false) × (result.wait ≡ false) × (result.json ≡ false) }
    {
        ApplyFlags {
            dry_run: false,
            prune: false,
            at_once: false,
            strict: false,
            wait: false,
            json: false,
        }
    }

    /// These options and this one: their order makes no difference.
    pub fn with(self, flag: ApplyFlag) -> ApplyFlags
        ensures dry_run { result.dry_run ≡ self.dry_run || is_dry_run flag }
        ensures prune { result.prune ≡ self.prune || is_prune flag }
        ensures at_once { result.at_once ≡ self.at_once || is_now flag }
        ensures strict { result.strict ≡ self.strict || is_strict flag }
        ensures wait { result.wait ≡ self.wait || is_wait flag }
        ensures json { result.json ≡ self.json || is_json flag }
    {
        match flag {
            ApplyFlag::DryRun => ApplyFlags {
                dry_run: true,
                ..self
            },
            ApplyFlag::Prune => ApplyFlags {
                prune: true,
                ..self
            },
            ApplyFlag::Now => ApplyFlags {
                at_once: true,
                ..self
            },
            ApplyFlag::Strict => ApplyFlags {
                strict: true,
                ..self
            },
            ApplyFlag::Wait => ApplyFlags { wait: true, ..self },
            ApplyFlag::Json => ApplyFlags { json: true, ..self },
        }
    }
}

/// What is to be applied, and how.
#[derive(Drop)]
pub(crate) struct ApplyWords {
    /// The control socket, if the arguments name it.
    pub(crate) socket: Option<Text>,
    pub(crate) flags: ApplyFlags,
    /// One at least.
    pub(crate) paths: Vec<Text>,
}

/// What the arguments mean.
#[derive(Drop)]
pub(crate) enum Meant {
    /// They don't ask for `apply`.
    Other,
    Help,
    /// What is wrong with them.
    Wrong(&'static str, Text),
    Apply(ApplyWords),
}

/// What was read of the arguments so far.
#[derive(Drop)]
struct WordReader {
    words: ApplyWords,
    // The next argument is the socket.
    wants_socket: bool,
    // Later arguments are not options.
    is_behind_dashes: bool,
    is_help: bool,
    // The first argument that is not a valid option, and the message on it.
    wrong: Option<(&'static str, Text)>,
}

/// What the arguments mean, the program's own name being the first.
pub(crate) fn meaning_of(alloc: Global, words: &[String]) -> Result<Meant, AllocError> {
    let words = words.get(1..).unwrap_or(&[]);
    let Some(place) = place_of_word(words) else {
        return Ok(Meant::Other);
    };
    let mut reader = WordReader {
        words: ApplyWords {
            socket: None,
            flags: ApplyFlags::none(),
            paths: Vec::new(alloc),
        },
        wants_socket: false,
        is_behind_dashes: false,
        is_help: false,
        wrong: None,
    };
    for (index, word) in words.iter().enumerate() {
        if index != place {
            reader.take(alloc, word.as_str())?;
        }
    }
    reader.meaning(alloc)
}

// The index of `apply`, if it is the subcommand among the arguments.
fn place_of_word(words: &[String]) -> Option<usize> {
    let mut is_value = false;
    for (index, word) in words.iter().enumerate() {
        let word = word.as_str();
        if is_value {
            is_value = false;
        } else if word.starts_with('-') {
            is_value = word == "--socket";
        } else {
            return if word == WORD { Some(index) } else { None };
        }
    }
    None
}

fn flag_of(word: &str) -> Option<ApplyFlag> {
    match word {
        "--dry-run" => Some(ApplyFlag::DryRun),
        "--prune" => Some(ApplyFlag::Prune),
        "--now" => Some(ApplyFlag::Now),
        "--strict" => Some(ApplyFlag::Strict),
        "--wait" => Some(ApplyFlag::Wait),
        "--json" => Some(ApplyFlag::Json),
        _ => None,
    }
}

impl WordReader {
    fn take(&mut self, alloc: Global, word: &str) -> Result<(), AllocError> {
        if self.wants_socket {
            self.wants_socket = false;
            return self.take_socket(alloc, word);
        }
        if self.is_behind_dashes || !word.starts_with('-') {
            self.words.paths.push(Text::copy_of(alloc, word)?)?;
            return Ok(());
        }
        self.take_option(alloc, word)
    }

    fn take_socket(&mut self, alloc: Global, word: &str) -> Result<(), AllocError> {
        if word.ends_with(MARK) {
            return self.refuse(alloc, "an argument is not UTF-8", "");
        }
        self.words.socket = Some(Text::copy_of(alloc, word)?);
        Ok(())
    }

    fn take_option(&mut self, alloc: Global, word: &str) -> Result<(), AllocError> {
        match word {
            "--" => self.is_behind_dashes = true,
            "--socket" => self.wants_socket = true,
            "--help" | "-h" => self.is_help = true,
            _ => return self.take_flag(alloc, word),
        }
        Ok(())
    }

    fn take_flag(&mut self, alloc: Global, word: &str) -> Result<(), AllocError> {
        if let Some(path) = word.strip_prefix("--socket=") {
            return self.take_socket(alloc, path);
        }
        match flag_of(word) {
            Some(flag) => self.words.flags = self.words.flags.with(flag),
            None => return self.refuse(alloc, "unknown option: ", word),
        }
        Ok(())
    }

    fn refuse(&mut self, alloc: Global, why: &'static str, word: &str) -> Result<(), AllocError> {
        if self.wrong.is_none() {
            self.wrong = Some((why, Text::copy_of(alloc, word)?));
        }
        Ok(())
    }

    // What all arguments mean.
    fn meaning(self, alloc: Global) -> Result<Meant, AllocError> {
        let WordReader {
            words,
            wants_socket,
            is_help,
            wrong,
            ..
        } = self;
        if is_help {
            return Ok(Meant::Help);
        }
        match wrong {
            Some((why, word)) => Ok(Meant::Wrong(why, word)),
            None if wants_socket => Ok(Meant::Wrong(
                "--socket needs a path",
                Text::copy_of(alloc, "")?,
            )),
            None if words.paths.is_empty() => Ok(Meant::Wrong(
                "name a file or a folder",
                Text::copy_of(alloc, "")?,
            )),
            None => Ok(Meant::Apply(words)),
        }
    }
}
