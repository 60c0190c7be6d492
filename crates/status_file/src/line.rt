//! The text of a file, line by line, and the pieces that make a line.

ghost use Rattle.std.specs.Prelude.{◌≡◌, ◌++◌, ◌∷◌, [], true, false};
ghost use Rattle.status_file.specs.Tokens.{token_in, tokens_in, count_token, text_token, flag_token};
ghost use Rattle.status_file.specs.Lines.{line_of};

use json::Writer;
use std::alloc::Global;
use std::mem;

/// A piece of a line: a token of JSON.
#[derive(Clone, Copy)]
pub(crate) enum Piece<'a> {
    Open,
    Close,
    OpenList,
    CloseList,
    Key(&'a str),
    Text(&'a str),
    Count(u64),
    Flag(bool),
    Null,
}

/// The number, or null.
pub(crate) fn count_piece(count: Option<u64>) -> Piece<'static>
    ensures { token_in result ≡ count_token count }
{
    match count {
        Some(count) => Piece::Count(count),
        None => Piece::Null,
    }
}

/// The text, or null.
pub(crate) fn text_piece<'a>(text: Option<&'a str>) -> Piece<'a>
    ensures { token_in result ≡ text_token text.entry }
{
    match text {
        Some(text) => Piece::Text(text),
        None => Piece::Null,
    }
}

/// The flag, or null.
pub(crate) fn flag_piece(flag: Option<bool>) -> Piece<'static>
    ensures { token_in result ≡ flag_token flag }
{
    match flag {
        Some(flag) => Piece::Flag(flag),
        None => Piece::Null,
    }
}

/// A line that is being written. A refusal of memory is kept, and returned once the line is taken.
#[derive(Drop)]
pub(crate) struct LineWriter {
    pub(crate) writer: Writer,
    pub(crate) is_refused: bool,
}

impl LineWriter {
    /// Adds the pieces, if there is memory for them.
    pub(crate) fn put(&mut self, pieces: &[Piece<'_>])
        ensures kept { self.new.is_refused ≡ false → self.old.is_refused ≡ false }
        ensures before { self.new.writer.before ≡ self.old.writer.before }
        ensures added { self.new.is_refused ≡ false → self.new.writer.tokens ≡ self.old.writer.tokens ++ tokens_in pieces.now }
    {
        for piece in pieces {
            self.put_piece(*piece);
        }
    }

    fn put_piece(&mut self, piece: Piece<'_>)
        ensures kept { self.new.is_refused ≡ false → self.old.is_refused ≡ false }
        ensures before { self.new.writer.before ≡ self.old.writer.before }
        ensures added { self.new.is_refused ≡ false → self.new.writer.tokens ≡ self.old.writer.tokens ++ token_in piece.entry ∷ [] }
    {
        let is_put = match piece {
            Piece::Open => self.writer.begin_object().is_ok(),
            Piece::Close => self.writer.end_object().is_ok(),
            Piece::OpenList => self.writer.begin_array().is_ok(),
            Piece::CloseList => self.writer.end_array().is_ok(),
            Piece::Key(name) => self.writer.key(name).is_ok(),
            Piece::Text(text) => self.writer.string(text).is_ok(),
            Piece::Count(count) => self.writer.u64(count).is_ok(),
            Piece::Flag(flag) => self.writer.boolean(flag).is_ok(),
            Piece::Null => self.writer.null().is_ok(),
        };
        self.is_refused = self.is_refused || !is_put;
    }
}

/// The text of a file, as far as it is written. A refusal of memory is kept: who writes has one way out.
#[derive(Drop)]
pub struct StatusText {
    pub(crate) bytes: Vec<u8>,
    pub(crate) is_refused: bool,
}

impl StatusText {
    /// Nothing is written yet. It takes no memory.
    pub fn new(alloc: Global) -> StatusText {
        StatusText {
            bytes: Vec::new(alloc),
            is_refused: false,
        }
    }

    /// Whether all that was to be written found memory.
    pub fn is_whole(&self) -> bool
        ensures { result ≡ true → self.now.is_refused ≡ false }
    {
        !self.is_refused
    }

    /// What is written.
    pub fn as_slice(&self) -> &[u8]
        ensures { result.now ≡ self.now.bytes.items }
    {
        self.bytes.as_slice()
    }

    /// Nothing is written, as at first. The room stays.
    pub fn clear(&mut self)
        ensures { self.new.bytes.items ≡ [] }
    {
        self.bytes.clear();
        self.is_refused = false;
    }

    /// Memory was refused for what was to be written.
    pub(crate) fn refuse(&mut self)
        ensures { self.new.is_refused ≡ true }
    {
        self.is_refused = true;
    }

    /// A line after what is written so far. The caller puts its content on it, and `end` takes it back.
    pub(crate) fn begin(&mut self, alloc: Global) -> LineWriter
        ensures before { result.writer.before ≡ self.old.bytes.items }
        ensures empty { result.writer.tokens ≡ [] }
        ensures refused { result.is_refused ≡ self.old.is_refused }
    {
        let bytes = mem::replace(&mut self.bytes, Vec::new(alloc));
        LineWriter {
            writer: Writer::new(bytes),
            is_refused: self.is_refused,
        }
    }

    /// Takes the line back, and ends it.
    pub(crate) fn end(&mut self, line: LineWriter)
        ensures taken { self.new.is_refused ≡ false → self.new.bytes.items ≡ line.writer.before ++ line_of line.writer.tokens }
        ensures kept { self.new.is_refused ≡ false → line.is_refused ≡ false }
    {
        let LineWriter { writer, is_refused } = line;
        let mut bytes = writer.into_inner();
        let is_ended = bytes.push(b'\n').is_ok();
        drop(mem::replace(&mut self.bytes, bytes));
        self.is_refused = is_refused || !is_ended;
    }
}
