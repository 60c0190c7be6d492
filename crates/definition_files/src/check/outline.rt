//! The keys and values of a text of JSON, in order, with their places.

use crate::check::spelled::end_of_string;
use json::{Reader, Scratch, Token};
use std::alloc::{AllocError, Global};

/// So deep values are nested at most.
pub(crate) const DEEPEST: usize = 127;

/// What a mark is for.
#[derive(Clone, Copy)]
pub(crate) enum MarkKind {
    Key,
    Array,
    Object,
    /// A text, a number, `true`, `false` or `null`.
    Plain,
    /// A bracket that closes.
    End,
}

/// A key, a value or a closing bracket of a text: where it begins and ends, in bytes, and how many arrays and objects are open around it.
#[derive(Clone, Copy)]
pub(crate) struct OutlineMark {
    pub(crate) kind: MarkKind,
    pub(crate) at: usize,
    pub(crate) end: usize,
    pub(crate) depth: usize,
}

/// The marks of a text, in order.
#[derive(Drop)]
pub(crate) struct Outline {
    pub(crate) marks: Vec<OutlineMark>,
    /// How many arrays and objects are open.
    pub(crate) depth: usize,
    /// Whether a whole value was read.
    pub(crate) is_whole: bool,
    /// Where the first token begins that is not JSON, if one was met.
    pub(crate) bad: Option<usize>,
    is_refused: bool,
}

impl Outline {
    // Takes the token between these places of the text.
    fn take(&mut self, token: &Token<'_>, text: &str, at: usize, end: usize) {
        let (kind, end) = match token {
            Token::Key(_) => (MarkKind::Key, end_of_string(text, at).saturating_add(1)),
            Token::BeginArray => (MarkKind::Array, end),
            Token::BeginObject => (MarkKind::Object, end),
            Token::EndArray | Token::EndObject => (MarkKind::End, end),
            _ => (MarkKind::Plain, end),
        };
        if let MarkKind::End = kind {
            self.depth = self.depth.saturating_sub(1);
        }
        let depth = self.depth;
        let is_kept = self
            .marks
            .push(OutlineMark {
                kind,
                at,
                end,
                depth,
            })
            .is_ok();
        self.is_refused = self.is_refused || !is_kept;
        if let MarkKind::Array | MarkKind::Object = kind {
            self.depth = self.depth.saturating_add(1);
        }
        self.is_whole = self.is_whole || self.depth == 0;
    }
}

/// The outline of the text, as far as it is JSON and not nested too deep.
pub(crate) fn outline_of(alloc: Global, text: &str) -> Result<Outline, AllocError> {
    let mut outline = Outline {
        marks: Vec::new(alloc),
        depth: 0,
        is_whole: false,
        bad: None,
        is_refused: false,
    };
    let mut scratch = Scratch::new(alloc);
    match Reader::new(text, &mut scratch) {
        Ok(mut reader) => {
            read_into(&mut reader, text, &mut outline);
            drop(reader);
        }
        Err(_) => outline.is_refused = true,
    }
    drop(scratch);
    if outline.is_refused {
        drop(outline);
        return Err(AllocError);
    }
    Ok(outline)
}

fn read_into(reader: &mut Reader<'_>, text: &str, outline: &mut Outline) {
    for _ in 0..text.len() {
        let at = begin_at(text, reader.offset());
        match reader.next() {
            Some(Token::Bad) => outline.bad = Some(reader.offset()),
            Some(token) => outline.take(&token, text, at, reader.offset()),
            None => return,
        }
        if outline.depth > DEEPEST || outline.is_refused || outline.bad.is_some() {
            return;
        }
    }
}

/// The first byte from there on that is neither a blank, nor a comma, nor a colon.
pub(crate) fn begin_at(text: &str, offset: usize) -> usize {
    let mut at = offset;
    for byte in text.as_bytes().get(offset..).unwrap_or(&[]) {
        match *byte {
            b' ' | b'\t' | b'\n' | b'\r' | b',' | b':' => at = at.saturating_add(1),
            _ => return at,
        }
    }
    at
}
