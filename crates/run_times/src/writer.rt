//! A text that is written piece by piece.

ghost use Rattle.std.specs.Prelude.{◌≡◌, ◌++◌, ◌↔◌, [], false, true, IfOk, IsOk, OnErr, string_bytes, chars, encode_utf8};
ghost use Rattle.std.specs.Fmt.{decimal};
ghost use Rattle.plain_text.specs.Plain.{plain_text};
ghost use Rattle.run_times.specs.Written.{piece_text, pieces_text, Grows};

use crate::moment::time_text;
use crate::span::span_pieces;
use calendar_due::Zone;
use history_model::MAX_WALL;
use plain_text::add_plain;
use std::alloc::{AllocError, Global};
use std::fmt::Write;

/// A piece of a text.
#[derive(Clone, Copy)]
pub enum Piece<'a> {
    Text(&'a str),
    Number(u64),
    /// The last two digits of a number.
    TwoDigits(u64),
}

/// A text that is written piece by piece. It keeps a refusal of memory, and returns it when the text is taken. So those who write it have one
/// way out.
#[derive(Drop)]
pub struct TextWriter {
    /// What is written.
    pub text: String,
    /// Whether memory was refused for a piece of it.
    pub is_refused: bool,
}

impl TextWriter {
    /// Nothing is written.
    pub fn new(alloc: Global) -> TextWriter
        ensures empty { string_bytes result.text ≡ [] }
        ensures well { result.is_refused ≡ false }
    {
        TextWriter {
            text: String::new(alloc),
            is_refused: false,
        }
    }

    /// Adds the text, if there is memory for it.
    pub fn put(&mut self, part: &str)
        ensures added { self.new.is_refused ≡ false → string_bytes self.new.text ≡ string_bytes self.old.text ++ part.now }
        ensures kept { self.new.is_refused ≡ false → self.old.is_refused ≡ false }
    {
        let is_put = self.text.push_str(part).is_ok();
        self.is_refused = self.is_refused || !is_put;
    }

    /// Adds a text of others, if there is memory for it. Control characters and bidirectional control characters become U+FFFD; any other
    /// character stays as it is.
    pub fn put_plain(&mut self, part: &str)
        ensures added { self.new.is_refused ≡ false → string_bytes self.new.text ≡ string_bytes self.old.text ++ plain_text (chars part.now) }
        ensures kept { self.new.is_refused ≡ false → self.old.is_refused ≡ false }
    {
        let is_put = add_plain(&mut self.text, part).is_ok();
        self.is_refused = self.is_refused || !is_put;
    }

    /// Adds the number in decimal digits, if there is memory for it.
    pub fn put_number(&mut self, number: u64)
        ensures added { self.new.is_refused ≡ false → string_bytes self.new.text ≡ string_bytes self.old.text ++ decimal number }
        ensures kept { self.new.is_refused ≡ false → self.old.is_refused ≡ false }
    {
        let is_put = write!(self.text, "{number}").is_ok();
        self.is_refused = self.is_refused || !is_put;
    }

    /// Adds the character, if there is memory for it.
    pub fn put_char(&mut self, c: char)
        ensures added { self.new.is_refused ≡ false → string_bytes self.new.text ≡ string_bytes self.old.text ++ encode_utf8 c }
        ensures kept { self.new.is_refused ≡ false → self.old.is_refused ≡ false }
    {
        let is_put = self.text.push(c).is_ok();
        self.is_refused = self.is_refused || !is_put;
    }

    /// Adds the pieces in order, each as by `put` or `put_number`.
    pub fn put_all(&mut self, pieces: &[Piece<'_>])
        ensures added { self.new.is_refused ≡ false → string_bytes self.new.text ≡ string_bytes self.old.text ++ pieces_text pieces.now }
        ensures kept { self.new.is_refused ≡ false → self.old.is_refused ≡ false }
    {
        for piece in pieces {
            self.put_piece(piece);
        }
    }

    /// Adds the form, in which each `$` is for the next of the pieces, a text as by `put_plain`. Pieces for which there is no `$` are left
    /// out.
    pub fn fill(&mut self, form: &str, pieces: &[Piece<'_>]) {
        let mut parts = form.split('$');
        self.put(parts.next().unwrap_or(""));
        let mut next: usize = 0;
        for part in parts {
            if let Some(piece) = pieces.get(next) {
                self.put_hole(piece);
            }
            self.put(part);
            next = next.saturating_add(1);
        }
    }

    // A hole may be filled with a text of others.
    fn put_hole(&mut self, piece: &Piece<'_>) {
        match *piece {
            Piece::Text(part) => self.put_plain(part),
            _ => self.put_piece(piece),
        }
    }

    fn put_piece(&mut self, piece: &Piece<'_>)
        ensures added { self.new.is_refused ≡ false → string_bytes self.new.text ≡ string_bytes self.old.text ++ piece_text piece.now }
        ensures kept { self.new.is_refused ≡ false → self.old.is_refused ≡ false }
    {
        match *piece {
            Piece::Text(part) => self.put(part),
            Piece::Number(number) => self.put_number(number),
            Piece::TwoDigits(number) => {
                self.put_number(number / 10 % 10);
                self.put_number(number % 10);
            }
        }
    }

    /// Adds the text as Rust writes it in a program: in double quotes, with escapes.
    pub fn put_quoted(&mut self, part: &str)
        ensures kept { self.new.is_refused ≡ false → self.old.is_refused ≡ false }
    {
        let is_put = write!(self.text, "{part:?}").is_ok();
        self.is_refused = self.is_refused || !is_put;
    }

    /// Adds a text for which memory may have been refused.
    pub fn put_made(&mut self, made: Result<String, AllocError>)
        ensures added { IfOk made (λ part. self.new.is_refused ≡ false → string_bytes self.new.text ≡ string_bytes self.old.text ++ string_bytes part) }
        ensures refused { OnErr made (self.new.is_refused ≡ true) }
        ensures kept { self.new.is_refused ≡ false → self.old.is_refused ≡ false }
        ensures grows { Grows self.old self.new }
    {
        match made {
            Ok(part) => self.put(part.as_str()),
            Err(_) => self.is_refused = true,
        }
    }

    /// Adds the time as a clock in the zone shows it.
    pub fn put_moment(&mut self, alloc: Global, zone: &Zone, at: u64)
        ensures kept { self.new.is_refused ≡ false → self.old.is_refused ≡ false }
    {
        self.put_made(time_text(alloc, zone, at.min(MAX_WALL)));
    }

    /// Adds the span by its two greatest units, as `3 days 22 h`, `5 min 10 s` or `7 s`; with `has_tenths` one below a minute as `4.2 s`.
    /// What is less is dropped.
    pub fn put_span(&mut self, milliseconds: u64, has_tenths: bool)
        ensures grows { Grows self.old self.new }
    {
        self.put_all(&span_pieces(milliseconds, has_tenths));
    }

    /// Memory was refused for what would be added.
    pub fn refuse(&mut self)
        ensures { self.new.is_refused ≡ true }
    {
        self.is_refused = true;
    }

    /// The text, if memory was never refused.
    pub fn into_text(self) -> Result<String, AllocError>
        ensures value { IfOk result (λ text. string_bytes text ≡ string_bytes self.text) }
        ensures succeeds { IsOk result ↔ self.is_refused ≡ false }
    {
        let TextWriter { text, is_refused } = self;
        if is_refused {
            drop(text);
            return Err(AllocError);
        }
        Ok(text)
    }
}
