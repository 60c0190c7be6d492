//! JSON texts.

ghost use Rattle.std.specs.Prelude.{◌≡◌, IfOk, option_map};
ghost use Rattle.serde_json.specs.View.{view};
ghost use Rattle.json_kinds.specs.Json.{json_in};

use crate::json_reader::value_in;
use json::Scratch;
use serde_json::Value;
use std::alloc::{AllocError, Global};

/// The JSON value (RFC 8259) that the bytes are. None if they are not UTF-8, are not a JSON text, or nest arrays and objects more
/// than 127 deep. `Err` says only that memory ran out.
pub fn json_value(alloc: Global, bytes: &[u8]) -> Result<Option<Value>, AllocError>
    ensures { IfOk result (λ value. option_map view value ≡ json_in bytes.now) }
{
    let mut scratch = Scratch::new(alloc);
    value_in(alloc, bytes, &mut scratch)
}

/// The room in which JSON texts are read, kept from text to text. It is 16 KiB, which [`json_value`] clears for each text, and as
/// much as the longest text that was read.
#[derive(Drop)]
pub struct JsonRoom {
    scratch: Option<Box<Scratch>>,
}

impl JsonRoom {
    /// No room yet. The first text makes it. Takes no memory.
    pub fn new() -> JsonRoom {
        JsonRoom { scratch: None }
    }

    /// The room, lent. `AllocError` if there was none, and memory for it was refused.
    fn lent(&mut self, alloc: Global) -> Result<&mut Scratch, AllocError> {
        if self.scratch.is_none() {
            self.scratch = Some(Box::new(alloc, Scratch::new(alloc))?);
        }
        match &mut self.scratch {
            Some(scratch) => Ok(scratch),
            None => unreachable!(),
        }
    }

    /// What [`json_value`] gives of the bytes, whatever was read before.
    pub fn value(&mut self, alloc: Global, bytes: &[u8]) -> Result<Option<Value>, AllocError>
        ensures { IfOk result (λ value. option_map view value ≡ json_in bytes.now) }
    {
        value_in(alloc, bytes, self.lent(alloc)?)
    }
}
