//! Objects of JSON (RFC 8259), each within a line: what `jobscope` writes for programs. They hold the texts of others whole, but escape
//! each control character and each bidirectional control character, and the two other characters at which some readers end a line.
#![tactic(auto)]

ghost use Rattle.std.specs.Prelude.{◌≡◌, ◌++◌, chars, codes, encode_utf8};
ghost use Rattle.std.specs.Fmt.{decimal};
ghost use Rattle.std.specs.List.{flat_map};
ghost use Rattle.run_times.specs.Written.{Adds};
ghost use Rattle.json_lines.specs.Objects.{escape, hex_digit, is_escaped, json_char, more_text, quoted, text_char, texts_list, TellsLine, TellsMember, TellsMembers, TellsObject};

use history_model::MAX_WALL;
use plain_text::is_hidden;
use run_times::{Page, Piece, TextWriter, put_clock};

/// The value at a key.
#[derive(Clone, Copy)]
pub enum Value<'a> {
    /// There is none: the key is left out.
    Absent,
    Flag(bool),
    Number(u64),
    Text(&'a str),
    /// A second of Unix time. The key has it as RFC 3339 writes it in the page's zone, and the key followed by `_seconds` has it as a
    /// number.
    Moment(u64),
    /// A value that is JSON already.
    Json(&'a str),
}

/// A key, and its value.
#[derive(Clone, Copy)]
pub struct Field<'a>(pub &'static str, pub Value<'a>);

/// Adds an object: first the key with the name, then each of the fields, in order.
pub fn put_object(page: &mut Page<'_>, key: &'static str, name: &str, fields: &[Field<'_>])
    ensures { TellsObject key.now name.now fields.now page.old.writer page.new.writer }
{
    put_front(&mut page.writer, key);
    put_quoted(&mut page.writer, name);
    put_members(page, fields);
    page.writer.put("}");
}

/// Adds the object, and ends the line.
pub fn put_line(page: &mut Page<'_>, key: &'static str, name: &str, fields: &[Field<'_>])
    ensures { TellsLine key.now name.now fields.now page.old.writer page.new.writer }
{
    put_object(page, key, name, fields);
    page.writer.put("\n");
}

fn put_front(writer: &mut TextWriter, key: &str)
    ensures { Adds (codes "{\"" ++ (key.now ++ codes "\":")) writer.old writer.new }
{
    writer.put_all(&[Piece::Text("{\""), Piece::Text(key), Piece::Text("\":")]);
}

fn put_members(page: &mut Page<'_>, fields: &[Field<'_>])
    ensures { TellsMembers fields.now page.old.writer page.new.writer }
{
    for field in fields {
        put_member(page, field.0, field.1);
    }
}

// A comma, the key, and its value; nothing, if it has none.
fn put_member(page: &mut Page<'_>, key: &'static str, value: Value<'_>)
    ensures { TellsMember key.now value.entry page.old.writer page.new.writer }
{
    match value {
        Value::Absent => {}
        Value::Flag(flag) => put_value(&mut page.writer, key, if flag { "true" } else { "false" }),
        Value::Json(text) => put_value(&mut page.writer, key, text),
        Value::Number(number) => put_number(&mut page.writer, key, "", number),
        Value::Text(text) => {
            put_value(&mut page.writer, key, "");
            put_quoted(&mut page.writer, text);
        }
        Value::Moment(second) => {
            put_value(&mut page.writer, key, "\"");
            put_clock(&mut page.writer, page.zone, second.min(MAX_WALL));
            page.writer.put("\"");
            put_number(&mut page.writer, key, "_seconds", second);
        }
    }
}

fn put_value<'x>(writer: &mut TextWriter, key: &'x str, text: &'x str)
    ensures { Adds (codes ",\"" ++ (key.now ++ (codes "\":" ++ text.now))) writer.old writer.new }
{
    writer.put_all(&[
        Piece::Text(",\""),
        Piece::Text(key),
        Piece::Text("\":"),
        Piece::Text(text),
    ]);
}

fn put_number<'x>(writer: &mut TextWriter, key: &'x str, more: &'x str, number: u64)
    ensures { Adds (codes ",\"" ++ (key.now ++ (more.now ++ (codes "\":" ++ decimal number)))) writer.old writer.new }
{
    writer.put_all(&[
        Piece::Text(",\""),
        Piece::Text(key),
        Piece::Text(more),
        Piece::Text("\":"),
        Piece::Number(number),
    ]);
}

/// Adds the text in quotes. What ends it there, a backslash, each hidden character, and U+2028 and U+2029 are escaped.
pub fn put_quoted(writer: &mut TextWriter, text: &str)
    ensures { Adds (quoted text.now) writer.old writer.new }
{
    writer.put("\"");
    put_chars(writer, text);
    writer.put("\"");
}

fn put_chars(writer: &mut TextWriter, text: &str)
    ensures { Adds (flat_map text_char (chars text.now)) writer.old writer.new }
{
    for c in text.chars() {
        put_text_char(writer, c);
    }
}

fn put_text_char(writer: &mut TextWriter, c: char)
    ensures { Adds (text_char c) writer.old writer.new }
{
    if is_escaped(c) {
        put_escape(writer, u32::from(c));
    } else {
        if c == '\\' || c == '"' {
            writer.put("\\");
        }
        writer.put_char(c);
    }
}

// U+2028 and U+2029 may stand in JSON, but `splitlines` of Python and older readers of JavaScript end a line there.
fn is_escaped(c: char) -> bool
    ensures { result ≡ is_escaped c }
{
    is_hidden(c) || c == '\u{2028}' || c == '\u{2029}'
}

// A character by its number: each that is escaped has four digits at most.
fn put_escape(writer: &mut TextWriter, c: u32)
    ensures { Adds (escape c) writer.old writer.new }
{
    writer.put("\\u");
    put_digit(writer, c / 4096);
    put_digit(writer, c / 256);
    put_digit(writer, c / 16);
    put_digit(writer, c);
}

fn put_digit(writer: &mut TextWriter, number: u32)
    ensures { Adds (encode_utf8 (hex_digit number)) writer.old writer.new }
{
    let digit = (number % 16) as u8;
    writer.put_char(char::from(if digit < 10 {
        b'0' + digit
    } else {
        b'W' + digit
    }));
}

/// Adds JSON of others, whose texts may have characters that are escaped here: each of these is. JSON on one line stays so, and means the same.
pub fn put_json(writer: &mut TextWriter, json: &str)
    ensures { Adds (flat_map json_char (chars json.now)) writer.old writer.new }
{
    for c in json.chars() {
        put_json_char(writer, c);
    }
}

fn put_json_char(writer: &mut TextWriter, c: char)
    ensures { Adds (json_char c) writer.old writer.new }
{
    if is_escaped(c) {
        put_escape(writer, u32::from(c));
    } else {
        writer.put_char(c);
    }
}

/// Adds a list of the texts.
pub fn put_texts(writer: &mut TextWriter, texts: &[&str])
    ensures { Adds (texts_list texts.now) writer.old writer.new }
{
    match texts {
        [] => writer.put("[]"),
        [first, more @ ..] => {
            writer.put("[");
            put_quoted(writer, *first);
            put_more(writer, more);
            writer.put("]");
        }
    }
}

fn put_more(writer: &mut TextWriter, texts: &[&str])
    ensures { Adds (flat_map more_text texts.now) writer.old writer.new }
{
    for text in texts {
        put_behind(writer, *text);
    }
}

fn put_behind(writer: &mut TextWriter, text: &str)
    ensures { Adds (codes "," ++ quoted text.now) writer.old writer.new }
{
    writer.put(",");
    put_quoted(writer, text);
}
