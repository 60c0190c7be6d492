//! Notes on a label besides the reply: that nothing is loaded under it, which labels are similar, and what becomes of a setting.

use crate::session::Session;
use ctl_protocol::Request;
use history_model::{Refusal, Text};
use launchctl_words::Command;
use near_labels::Near;
use plain_text::add_plain;
use std::alloc::{AllocError, Global};
use std::net::Net;

/// What was asked of a label.
#[derive(Clone, Copy)]
struct LabelRequest<'a> {
    label: &'a str,
    // Its setting was changed; to disabled.
    is_set: bool,
    is_disabled: bool,
}

fn asked_by(command: &Command) -> Option<LabelRequest<'_>> {
    match command {
        Command::Start { label } | Command::Stop { label } | Command::Print { label } => {
            Some(asked_of(label, false, false))
        }
        Command::Kickstart { label, .. } => Some(asked_of(label, false, false)),
        Command::Enable { label } => Some(asked_of(label, true, false)),
        Command::Disable { label } => Some(asked_of(label, true, true)),
        _ => None,
    }
}

fn asked_of(label: &Text, is_set: bool, is_disabled: bool) -> LabelRequest<'_> {
    LabelRequest {
        label: label.as_str(),
        is_set,
        is_disabled,
    }
}

/// Prints notes on standard error about the label of a command that was answered with this code. If it can't get what it needs for them, it prints
/// nothing.
pub(crate) fn tell_about<R: Net + Eprint>(
    rt: &R,
    alloc: Global,
    session: &mut Session,
    command: &Command,
    code: u8,
) {
    let Some(asked) = asked_by(command) else {
        return;
    };
    if code != Refusal::NoSuchJob.code() && !(asked.is_set && code == 0) {
        return;
    }
    if let Ok(list) = session.look(rt, alloc, &Request::List) {
        if let Ok(told) = text_about(alloc, &asked, list.text.as_str()) {
            let _written = eprint!(rt; "{told}");
        }
        drop(list);
    }
}

fn text_about(alloc: Global, asked: &LabelRequest<'_>, list: &str) -> Result<String, AllocError> {
    let mut text = String::new(alloc);
    if is_listed(list, asked.label) {
        if asked.is_disabled {
            put_front(
                asked.label,
                " is loaded, and stays loaded until it is unloaded\n",
                &mut text,
            )?;
        }
        return Ok(text);
    }
    let mut near = Near::to(alloc, asked.label);
    for line in list.lines().skip(1) {
        near.compare(alloc, asked.label, label_in(line))?;
    }
    put_absent(asked, near.labels(), &mut text)?;
    drop(near);
    Ok(text)
}

// The label follows the last tab of a line of the list.
fn label_in(line: &str) -> &str {
    match line.rsplit_once('\t') {
        Some((_, label)) => label,
        None => line,
    }
}

fn is_listed(list: &str, label: &str) -> bool {
    for line in list.lines().skip(1) {
        if label_in(line) == label {
            return true;
        }
    }
    false
}

fn put_front(label: &str, more: &str, text: &mut String) -> Result<(), AllocError> {
    text.push_str("jobctl: ")?;
    add_plain(text, label)?;
    text.push_str(more)
}

fn put_absent(
    asked: &LabelRequest<'_>,
    near: &[&str],
    text: &mut String,
) -> Result<(), AllocError> {
    if near.is_empty() && !asked.is_set {
        return Ok(());
    }
    put_front(asked.label, " is not loaded", text)?;
    if asked.is_set {
        text.push_str(": the setting is kept for a later load")?;
    }
    let mut between = "; near it: ";
    for label in near {
        text.push_str(between)?;
        add_plain(text, *label)?;
        between = ", ";
    }
    text.push_str("\n")
}
