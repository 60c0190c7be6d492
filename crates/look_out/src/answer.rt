//! What a helper answers to one question, and the nine bytes that say it.

ghost use Rattle.std.specs.Prelude.{◌≡◌, ◌<◌, ◌^◌, Some};
ghost use Rattle.look_out.specs.Answers.{code_of, number_of};

/// How many bytes each answer has. Each question has one answer, and no byte of one is taken for another's.
pub const LENGTH: usize = 9;

#[derive(Clone, Copy, PartialEq, Eq)]
pub enum Answer {
    /// A check: nothing is there.
    Absent,
    /// A check: something is there that is not a folder, or an empty folder, or one that may not be read; when it was
    /// changed. A folder: it may be entered and not read. A program: it is there.
    There { stamp: u64 },
    /// A check: a folder with an entry.
    Filled { stamp: u64 },
    /// An open: what was opened is held under this number.
    Held { number: u64 },
    /// The system's number of the error.
    Refused { error: u64 },
    /// An open: a FIFO is there, whose open may wait.
    Fifo,
    /// An open: a socket is there.
    Socket,
    /// An open: a folder is there.
    Folder,
    /// An open: a device is there whose open may wait.
    Device,
    /// It was not asked about: the way there leads to where nothing is asked now.
    Shut,
}

impl Answer {
    pub fn to_bytes(self) -> [u8; LENGTH]
        ensures { result ≡ code_of self }
    {
        let (tag, number) = match self {
            Answer::Absent => (0, 0),
            Answer::There { stamp } => (1, stamp),
            Answer::Filled { stamp } => (2, stamp),
            Answer::Held { number } => (3, number),
            Answer::Refused { error } => (4, error),
            Answer::Fifo => (5, 0),
            Answer::Socket => (6, 0),
            Answer::Folder => (7, 0),
            Answer::Device => (8, 0),
            Answer::Shut => (9, 0),
        };
        let [a, b, c, d, e, f, g, h] = number.to_le_bytes();
        [tag, a, b, c, d, e, f, g, h]
    }

    /// The answer that the bytes say, if they say one.
    pub fn from_bytes(bytes: [u8; LENGTH]) -> Option<Answer>
        ensures { (a : Answer) → number_of a < 2 ^ 64 → bytes ≡ code_of a → result ≡ Some a }
    {
        let [tag, a, b, c, d, e, f, g, h] = bytes;
        let number = u64::from_le_bytes([a, b, c, d, e, f, g, h]);
        match tag {
            0 => Some(Answer::Absent),
            1 => Some(Answer::There { stamp: number }),
            2 => Some(Answer::Filled { stamp: number }),
            3 => Some(Answer::Held { number }),
            4 => Some(Answer::Refused { error: number }),
            5 => Some(Answer::Fifo),
            6 => Some(Answer::Socket),
            7 => Some(Answer::Folder),
            8 => Some(Answer::Device),
            9 => Some(Answer::Shut),
            _ => None,
        }
    }
}
