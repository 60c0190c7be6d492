//! Room for one label, reserved once: the table can't lend a label while the outside is asked about its job.

ghost use Rattle.std.specs.Prelude.{◌≡◌, ℕ, ◌≤◌, List, [], length, IfOk, IsUtf8};
ghost use Rattle.std.specs.String.{string_bytes, string_capacity};

use std::alloc::{AllocError, Global};
use std::marker::Model;

/// How many bytes a label has at most.
const LONGEST_LABEL: usize = 255;

/// Room for a label. To a contract, the text that is in it.
#[derive(Drop)]
pub struct LabelRoom {
    text: String,
}

impl Model for LabelRoom {
    ghost Value = { List ℕ };

    ghost view = { λ r. string_bytes r.text };

    ghost invariant = { λ r. 255 ≤ string_capacity r.text };
}

impl LabelRoom {
    /// Room with no text. `AllocError` if memory for it was refused.
    pub fn new(alloc: Global) -> Result<LabelRoom, AllocError>
        ensures { IfOk result (λ room. room ≡ []) }
    {
        let text = String::with_capacity(alloc, LONGEST_LABEL)?;
        Ok(LabelRoom { text })
    }

    /// Copies a label, of at most 255 bytes. Takes no memory for it.
    pub fn copy(&mut self, text: &str)
        ensures { length text.now ≤ 255 → self.new ≡ text.now }
    {
        self.text.clear();
        let _copied = self.text.push_str(text);
    }

    /// The text, lent.
    pub fn as_str(&self) -> &str
        ensures text { result.now ≡ self.now }
        ensures utf8 { IsUtf8 result.now }
    {
        self.text.as_str()
    }
}
