//! A property list as JSON.

ghost use Rattle.std.specs.Prelude.{◌≡◌, ◌≤◌, length, Some, IfOk, OnOk};
ghost use Rattle.serde_json.specs.Data.{Data};
ghost use Rattle.json_kinds.specs.Json.{json_in};

use crate::decoded::{add_decoded, add_plain, front_of_wrong, is_none};
use crate::elements::{Element, Leaf, element_named};
use crate::fault::{ListFault, Wrong};
use crate::integers::{Integer, integer_of};
use crate::lines::line_behind;
use crate::marks::{Token, behind_head, is_blank, next_mark};
use crate::reals::real_of;
use json::Writer;
use json_kinds::json_value;
use std::alloc::{AllocError, Global};

/// The longest list that is read, in bytes: a request to the launcher has no more in a line.
const LONGEST: usize = 262_144;

/// How many `<dict>` and `<array>` may be nested at most.
const DEEPEST: usize = 127;

/// The element that holds a list.
const ROOT: &str = "plist";

/// What is read next in a `<dict>` or `<array>` that is open.
#[derive(Clone, Copy)]
enum Inside {
    /// A key of a `<dict>`.
    Key,
    /// The value of a key of a `<dict>`.
    Value,
    /// A member of an array.
    Member,
}

/// How far the list is read.
#[derive(Clone, Copy, PartialEq)]
enum ReadStage {
    /// `<plist>` is not read yet.
    Before,
    /// The DOCTYPE line is read, and `<plist>` not yet.
    Named,
    /// The value is read.
    Within,
    /// The value is read whole, and `</plist>` not yet.
    Behind,
    /// `</plist>` is read.
    Done,
}

/// An element whose text is read.
#[derive(Clone, Copy)]
struct Reading<'a> {
    leaf: Leaf,
    name: &'a str,
}

/// A list that is being written.
#[derive(Drop)]
struct Making<'a> {
    writer: Writer,
    stage: ReadStage,
    /// Each `<dict>` and `<array>` that is open, the innermost last.
    open: Vec<Inside>,
    reading: Option<Reading<'a>>,
    /// The text so far of the element that is being read.
    text: String,
}

/// The JSON of the list that the bytes mean, in one line: the first value of `<plist>`, with the keys in their order. In a string and a key
/// each entity is decoded once. An integer is the number that it is.
///
/// It refuses, with the line of the first fault: more than 262,144 bytes; a binary list; bytes that are not UTF-8, or not XML of this kind.
/// It refuses more than 127 nested `<dict>` and `<array>`, a value where a key is expected, and a key where a value is. It refuses an
/// integer out of -2^63 to 2^64 - 1, a real that is not a number or is past what 64 bits have, a `<date>` and a `<data>`.
pub fn json_of(alloc: Global, bytes: &[u8]) -> Result<Vec<u8>, ListFault<'_>>
    ensures json { IfOk result (λ made. (value : Data) × (Some value ≡ json_in made.items)) }
    ensures short { OnOk result (length bytes.now ≤ 262144) }
{
    let (whole, text) = match text_of(bytes) {
        Ok(text) => (text, text.strip_prefix('\u{FEFF}').unwrap_or(text)),
        Err(why) => {
            return Err(ListFault::Refused {
                line: 1,
                why,
                found: "",
            });
        }
    };
    let mut making = Making {
        writer: Writer::new(Vec::new(alloc)),
        stage: ReadStage::Before,
        open: Vec::new(alloc),
        reading: None,
        text: String::new(alloc),
    };
    let wrong = read_all(text, &mut making);
    let made = made_of(making);
    match wrong {
        None => checked(alloc, made),
        Some((Wrong::NoMemory, _)) => {
            drop(made);
            Err(ListFault::NoMemory)
        }
        Some((Wrong::Because(why, found), left)) => {
            drop(made);
            let behind = whole.len().saturating_sub(left);
            let front = bytes.get(..behind).unwrap_or(bytes);
            Err(ListFault::Refused {
                line: line_behind(front),
                why,
                found,
            })
        }
    }
}

// The text that the bytes are, or what is wrong with them as a whole.
fn text_of(bytes: &[u8]) -> Result<&str, &'static str>
    ensures { OnOk result (length bytes.now ≤ 262144) }
{
    if bytes.starts_with(b"bplist") {
        return Err("it is a binary property list; plutil -convert xml1 makes one in XML of it");
    }
    if bytes.len() > LONGEST {
        return Err("it is longer than 262144 bytes");
    }
    match std::str::from_utf8(bytes) {
        Ok(text) => Ok(text),
        Err(_) => Err("it is not UTF-8"),
    }
}

fn made_of(making: Making<'_>) -> Vec<u8> {
    let Making {
        writer,
        open,
        text,
        ..
    } = making;
    drop(open);
    drop(text);
    writer.into_inner()
}

// The bytes, if they are JSON.
fn checked<'a>(alloc: Global, made: Vec<u8>) -> Result<Vec<u8>, ListFault<'a>>
    ensures json { IfOk result (λ made. (value : Data) × (Some value ≡ json_in made.items)) }
{
    match json_value(alloc, made.as_slice()) {
        Ok(Some(value)) => {
            drop(value);
            Ok(made)
        }
        Ok(None) => {
            drop(made);
            Err(ListFault::Refused {
                line: 1,
                why: "it has no value that JSON can express",
                found: "",
            })
        }
        Err(_) => {
            drop(made);
            Err(ListFault::NoMemory)
        }
    }
}

// The first fault, and how many bytes are left from there on; None if the text is a list.
fn read_all<'a>(text: &'a str, making: &mut Making<'a>) -> Option<(Wrong<'a>, usize)> {
    if let Some(offset) = text.find(is_none) {
        let left = text.len().saturating_sub(offset);
        return Some((
            Wrong::Because("XML does not allow control characters", ""),
            left,
        ));
    }
    let mut rest = match behind_head(text) {
        Ok(rest) => rest,
        Err(wrong) => return Some((wrong, text.len())),
    };
    for _ in 0..=text.len() {
        let left = rest.len();
        match next_mark(rest) {
            Ok((Token::End, _)) => {
                return if making.stage == ReadStage::Done {
                    None
                } else {
                    Some((Wrong::Because("it ends before </plist>", ""), left))
                };
            }
            Ok((mark, behind)) => {
                if let Err(wrong) = take(making, mark) {
                    let front = front_of(mark, making.reading.is_some());
                    return Some((wrong, left.saturating_sub(front)));
                }
                rest = behind;
            }
            Err(wrong) => return Some((wrong, left)),
        }
    }
    Some((Wrong::Because("it has no end", ""), 0))
}

// How many bytes of a text come before what is wrong in it: inside of an element with a text, or between elements.
fn front_of(mark: Token<'_>, is_inside: bool) -> usize {
    match mark {
        Token::Text(text) if is_inside => front_of_wrong(text),
        Token::Text(text) | Token::Plain(text) if !is_inside => {
            text.len()
                .saturating_sub(text.trim_start_matches(is_blank).len())
        }
        _ => 0,
    }
}

fn take<'a>(making: &mut Making<'a>, mark: Token<'a>) -> Result<(), Wrong<'a>> {
    match making.reading {
        Some(reading) => take_text(making, reading, mark),
        None => take_between(making, mark),
    }
}

// Takes a mark inside of an element that has a text.
fn take_text<'a>(
    making: &mut Making<'a>,
    reading: Reading<'a>,
    mark: Token<'a>,
) -> Result<(), Wrong<'a>> {
    match mark {
        Token::Text(text) => add_decoded(text, &mut making.text),
        Token::Plain(text) => Ok(add_plain(text, &mut making.text)?),
        Token::Close(name) if name == reading.name => {
            making.reading = None;
            let put = end_leaf(making, reading);
            making.text.clear();
            put
        }
        Token::Close(_) | Token::Open(_) | Token::Empty(_) | Token::Doctype => {
            Err(Wrong::Because("<$> is not closed before the next element", reading.name))
        }
        Token::Nothing | Token::End => Ok(()),
    }
}

// Takes a mark between elements.
fn take_between<'a>(making: &mut Making<'a>, mark: Token<'a>) -> Result<(), Wrong<'a>> {
    match mark {
        Token::Text(text) | Token::Plain(text) => {
            if text.trim_start_matches(is_blank).is_empty() {
                Ok(())
            } else {
                Err(Wrong::Because("there is text between elements", ""))
            }
        }
        Token::Open(name) => begin(making, name),
        Token::Empty(name) => {
            begin(making, name)?;
            end_empty(making, name)
        }
        Token::Close(name) => end(making, name),
        Token::Doctype if making.stage == ReadStage::Before => {
            making.stage = ReadStage::Named;
            Ok(())
        }
        Token::Doctype => Err(Wrong::Because("the DOCTYPE line comes after <plist>", "")),
        Token::Nothing | Token::End => Ok(()),
    }
}

fn end_empty<'a>(making: &mut Making<'a>, name: &'a str) -> Result<(), Wrong<'a>> {
    match making.reading {
        Some(reading) => {
            making.reading = None;
            end_leaf(making, reading)
        }
        None => end(making, name),
    }
}

// Begins the element of this name.
fn begin<'a>(making: &mut Making<'a>, name: &'a str) -> Result<(), Wrong<'a>> {
    if name == ROOT && (making.stage == ReadStage::Before || making.stage == ReadStage::Named) {
        making.stage = ReadStage::Within;
        return Ok(());
    }
    let Some(element) = element_named(name) else {
        return Err(Wrong::Because("<$> is not an element of a property list", name));
    };
    if let Some(why) = misplaced(making, element) {
        return Err(Wrong::Because(why, name));
    }
    match element {
        Element::Dict => open(making, Inside::Key),
        Element::Array => open(making, Inside::Member),
        Element::Leaf(leaf) => {
            making.reading = Some(Reading { leaf, name });
            Ok(())
        }
    }
}

// Why the element is not allowed here; None if it is.
fn misplaced(making: &Making<'_>, element: Element) -> Option<&'static str> {
    let is_key = matches!(element, Element::Leaf(Leaf::Key));
    match making.stage {
        ReadStage::Before | ReadStage::Named => return Some("<$> comes before <plist>"),
        ReadStage::Behind | ReadStage::Done => return Some("<$> comes after the list's value"),
        ReadStage::Within => {}
    }
    match making.open.last() {
        Some(Inside::Key) if !is_key => Some("<$> is where a <key> is expected"),
        Some(Inside::Key) => None,
        _ if is_key => Some("<$> is where a value is expected"),
        _ => None,
    }
}

fn open<'a>(making: &mut Making<'a>, inside: Inside) -> Result<(), Wrong<'a>> {
    if making.open.len() >= DEEPEST {
        return Err(Wrong::Because("more than 127 <dict> and <array> elements are nested", ""));
    }
    if making.open.push(inside).is_err() {
        return Err(Wrong::NoMemory);
    }
    let put = match inside {
        Inside::Member => making.writer.begin_array(),
        _ => making.writer.begin_object(),
    };
    Ok(put?)
}

// Ends the `<dict>`, the `<array>` or the list.
fn end<'a>(making: &mut Making<'a>, name: &'a str) -> Result<(), Wrong<'a>> {
    if name == ROOT && making.stage == ReadStage::Behind {
        making.stage = ReadStage::Done;
        return Ok(());
    }
    if name == ROOT && making.stage == ReadStage::Within && making.open.is_empty() {
        return Err(Wrong::Because("<$> has no value in it", name));
    }
    let put = match (making.open.pop(), name) {
        (Some(Inside::Key), "dict") => making.writer.end_object(),
        (Some(Inside::Member), "array") => making.writer.end_array(),
        (Some(Inside::Value), "dict") => {
            return Err(Wrong::Because("the last <key> of a <dict> has no value", ""));
        }
        _ => return Err(Wrong::Because("</$> does not close the last open element", name)),
    };
    put?;
    value_ended(making);
    Ok(())
}

// A value was written: after it comes a key, the next member, or nothing.
fn value_ended(making: &mut Making<'_>) {
    match making.open.last_mut() {
        Some(inside) => {
            if let Inside::Value = *inside {
                *inside = Inside::Key;
            }
        }
        None => making.stage = ReadStage::Behind,
    }
}

// Writes the element whose text is read.
fn end_leaf<'a>(making: &mut Making<'a>, reading: Reading<'a>) -> Result<(), Wrong<'a>> {
    let text = making.text.as_str();
    let name = reading.name;
    let put = match reading.leaf {
        Leaf::Key => {
            let put = making.writer.key(text);
            if let Some(inside) = making.open.last_mut() {
                *inside = Inside::Value;
            }
            return Ok(put?);
        }
        Leaf::Text => making.writer.string(text),
        Leaf::Integer => match integer_of(text) {
            Some(Integer::Plain(number)) => making.writer.u64(number),
            Some(Integer::Negative(number)) => making.writer.i64(number),
            None => return Err(Wrong::Because(NO_INTEGER, name)),
        },
        Leaf::Real => match real_of(text) {
            Some(number) => making.writer.float(number),
            None => return Err(Wrong::Because(NO_REAL, name)),
        },
        Leaf::True | Leaf::False => {
            if !text.trim_start_matches(is_blank).is_empty() {
                return Err(Wrong::Because("<$> has a text in it", name));
            }
            making.writer.boolean(matches!(reading.leaf, Leaf::True))
        }
        Leaf::Other => return Err(Wrong::Because(OTHER, name)),
    };
    put?;
    value_ended(making);
    Ok(())
}

const NO_INTEGER: &str = "<$> has no integer from -9223372036854775808 to 18446744073709551615";

const NO_REAL: &str = "<$> has no number of 64 bits";

const OTHER: &str = "<$> has no place in a definition, and no form in JSON";
