//! What is written for a reply, to the byte.
use ctl_protocol::reply_line;
use history_model::{Reply, Text};
use std::alloc::Global;

/// The text of a reply, and the line that is wanted.
pub type Told = (&'static str, &'static str);

pub const TOLD: &[Told] = &[
    ("", r#"{"code":0,"text":""}"#),
    (
        "PID\tStatus\tLabel\n",
        r#"{"code":0,"text":"PID\tStatus\tLabel\n"}"#,
    ),
];

/// Whether the line is this text, and a newline.
pub fn is_line(line: &[u8], text: &str) -> bool {
    line.split_last() == Some((&b'\n', text.as_bytes()))
}

fn is_told(alloc: Global, told: &Told) -> bool {
    let (text, wanted) = *told;
    let Ok(text) = Text::copy_of(alloc, text) else {
        return false;
    };
    let reply = Reply {
        refusal: None,
        text,
    };
    let line = reply_line(alloc, &reply);
    drop(reply);
    match line {
        Ok(line) => is_line(line.as_slice(), wanted),
        Err(_) => false,
    }
}

/// Whether each line is written.
pub fn are_told(alloc: Global, all: &[Told]) -> bool {
    let mut are_told = true;
    for told in all {
        are_told &= is_told(alloc, told);
    }
    are_told
}
