//! Who answers in a test, and for how long.

use control_socket::{Answers, Limit};
use history_model::{Refusal, Reply, Text};
use std::alloc::{AllocError, Global};

/// Keeps each line that is asked, and says it back. `long` gets 100,000 bytes of text, and `some` gets 10,000; a line of more than 100 bytes counts
/// as `much`.
#[derive(Drop)]
pub struct Echo {
    /// The lines, each followed by a newline.
    pub asked: Vec<u8>,
}

const HUNDRED: &str =
    "nnnnnnnnnnnnnnnnnnnnnnnnnnnnnnnnnnnnnnnnnnnnnnnnnnnnnnnnnnnnnnnnnnnnnnnnnnnnnnnnnnnnnnnnnnnnnnnnnnnn";

fn said(alloc: Global, line: &[u8], asked: &mut Vec<u8>) -> Result<String, AllocError> {
    let word = match str::from_utf8(line) {
        Ok(text) if text.len() <= 100 => text,
        Ok(_) => "much",
        Err(_) => "no text",
    };
    asked.extend_from_slice(word.as_bytes())?;
    asked.push(b'\n')?;
    let (piece, count) = match word {
        "long" => (HUNDRED, 1_000u32),
        "some" => (HUNDRED, 100),
        _ => (word, 1),
    };
    let mut text = String::new(alloc);
    for _ in 0..count {
        text.push_str(piece)?;
    }
    Ok(text)
}

impl Answers for Echo {
    // What it answers is tested, and not promised.
    ghost Answered = { λ line reply old new. Unit {0} };

    fn answer(&mut self, alloc: Global, line: &[u8]) -> Reply {
        match said(alloc, line, &mut self.asked) {
            Ok(text) => Reply {
                refusal: None,
                text: Text::new(text),
            },
            Err(_) => Reply {
                refusal: Some(Refusal::NoMemory),
                text: Text::new(String::new(alloc)),
            },
        }
    }
}

/// Time for `lines` lines in each pass. The clock goes on only by the steps of the test.
#[derive(Drop)]
pub struct Budget {
    /// How many lines are answered in a pass.
    pub lines: u32,
    /// The milliseconds that the clock says.
    pub up: u64,
    /// How many further lines in this pass.
    pub left: u32,
}

impl Limit for Budget {
    // How much it gives is tried, and not promised.
    ghost Timed = { λ has old new. Unit {0} };

    fn has_time(&mut self) -> bool {
        self.left = self.left.saturating_sub(1);
        self.left > 0
    }

    fn up(&mut self) -> u64 {
        self.left = self.lines;
        self.up
    }
}
