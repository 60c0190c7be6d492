//! What the line of a reply says.

use history_model::Text;
use json_kinds::json_value;
use serde_json::Value;
use std::alloc::{AllocError, Global};

/// A reply: the code, which is 0 without a refusal, and the text.
#[derive(Drop)]
pub struct Replied {
    pub code: u8,
    pub text: Text,
}

/// The reply in a line without its newline: an object with a `code` from 0 to 255 and a `text`. None if the line is not
/// such an object. `AllocError` if memory ran out.
pub(crate) fn read_reply(alloc: Global, line: &[u8]) -> Result<Option<Replied>, AllocError> {
    match json_value(alloc, line)? {
        Some(value) => reply_in(alloc, &value),
        None => Ok(None),
    }
}

fn reply_in(alloc: Global, value: &Value) -> Result<Option<Replied>, AllocError> {
    match (code_in(value), value.get("text")) {
        (Some(code), Some(Value::String(text))) => {
            let text = Text::copy_of(alloc, text.as_str())?;
            Ok(Some(Replied { code, text }))
        }
        _ => Ok(None),
    }
}

fn code_in(value: &Value) -> Option<u8> {
    let number = value.get("code")?.as_u64()?;
    u8::try_from(number).ok()
}
