//! What a helper is asked: a letter, a space, a text, and a NUL that ends it.

/// How many bytes the text of a question has at most: no path that the system takes is longer, and a search path seldom is.
pub const LONGEST: usize = 32_768;

/// What is asked about a path.
#[derive(Clone, Copy, PartialEq, Eq)]
pub enum Asks {
    /// What is there.
    Look,
    /// The file must be opened, from its beginning, and held.
    Read,
    /// The file must be opened to be appended to, made if it is not there, and held.
    Append,
    /// A folder: it must be held, if it may be read.
    Enter,
    /// A program: whether it is there, and whether what the system opens to start it answers. A path in it that does not begin with a slash is taken
    /// from the folder that was last to be held.
    Program,
    /// A program without a slash in its name: the first that may be run. It is looked for in the folders of the text
    /// after the first slash, or else in those of the helper's own search path.
    Search,
    /// What was opened is closed. No path belongs to it.
    Forget,
    /// What was said before of where nothing must be asked holds no longer.
    Open,
    /// Nothing must be asked on file systems of a kind that may hang.
    Close,
    /// Nothing must be asked of what is mounted at the path, as the system names it.
    ShutMount,
    /// Nothing must be asked about the path, in which no link is.
    ShutPath,
}

/// What is before the letter of a start's first question. What was opened for the start before the last one is closed.
pub(crate) const NEXT_START: &str = "g";

#[derive(Clone, Copy)]
pub struct Question<'a> {
    pub asks: Asks,
    pub path: &'a str,
}

impl Asks {
    pub(crate) fn letter(self) -> &'static str {
        match self {
            Asks::Look => "l ",
            Asks::Read => "r ",
            Asks::Append => "a ",
            Asks::Enter => "d ",
            Asks::Program => "p ",
            Asks::Search => "s ",
            Asks::Forget => "f ",
            Asks::Open => "x ",
            Asks::Close => "k ",
            Asks::ShutMount => "m ",
            Asks::ShutPath => "o ",
        }
    }
}

/// Whether the text can be asked about: a NUL in it would be taken for its end.
pub(crate) fn can_be_asked(text: &str) -> bool {
    text.len() < LONGEST && !text.as_bytes().contains(&0)
}

/// The path by which a helper is asked about a stream. None: it is one of what this process has open, which to the
/// helper means its own. Root and folder are the same for both, and what is below them is asked about by its real path.
pub fn stream_asked(path: &str) -> Option<&str> {
    if path.starts_with("/dev/std") || path.starts_with("/dev/fd/") {
        return None;
    }
    let Some(own) = path.strip_prefix("/proc/self/") else {
        return Some(path);
    };
    if let Some(below) = below(own, "root") {
        return Some(below);
    }
    match below(own, "cwd") {
        Some(below) => Some(below.trim_start_matches('/')),
        None => None,
    }
}

fn below<'a>(path: &'a str, folder: &str) -> Option<&'a str> {
    let rest = path.strip_prefix(folder)?;
    if rest.starts_with('/') {
        Some(rest)
    } else {
        None
    }
}
