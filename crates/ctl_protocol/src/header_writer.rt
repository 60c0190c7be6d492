//! Writes a header.

ghost use Rattle.std.specs.Prelude.{◌≡◌, ◌<◌, ◌∷◌, ◌++◌, [], IfOk, OnOk, Some, encode_utf8};
ghost use Rattle.std.specs.String.{string_bytes};
ghost use Rattle.serde_json.specs.View.{view, members_view};
ghost use Rattle.serde_json.specs.Written.{compact_text};
ghost use Rattle.ctl_protocol.specs.Headers.{header_at};
ghost use Rattle.ctl_protocol.specs.HeaderLines as lines;
ghost use Rattle.ctl_protocol.specs.HeaderLines.{IsHeader, header_object, hex_of, setting_members};
ghost use Rattle.ctl_protocol.specs.Objects.{plain_object, with_members};

use crate::header::{Header, ZoneText};
use crate::object::{Cell, line_from, put_all};
use history_model::{Reading, Setting};
use serde_json::{Map, Value, put};
use std::alloc::{AllocError, Global};

/// A digit of lower case hexadecimal.
#[tactic(auto, using(std::proofs::lemmas::Str::encode_ascii))]
fn hex_digit(n: u8) -> char
    requires { n < 16 }
    ensures { encode_utf8 result ≡ lines.hex_digit n ∷ [] }
{
    if n < 10 {
        char::from(b'0' + n)
    } else {
        char::from(87 + n)
    }
}

fn hex_text(alloc: Global, bytes: &[u8]) -> Result<String, AllocError>
    ensures { IfOk result (λ text. string_bytes text ≡ hex_of bytes.now) }
{
    let mut text = String::new(alloc);
    for byte in bytes {
        text.push(hex_digit(*byte / 16))?;
        text.push(hex_digit(*byte % 16))?;
    }
    Ok(text)
}

/// The object of settings, from label to whether it is disabled.
fn settings_value(alloc: Global, settings: &[Setting]) -> Result<Value, AllocError>
    ensures { IfOk result (λ v. view v ≡ plain_object (setting_members settings.now)) }
{
    let mut map = Map::new(alloc);
    for setting in settings {
        put(
            &mut map,
            alloc,
            setting.label.as_str(),
            Value::Bool(setting.disabled),
        )?;
    }
    Ok(Value::Object(map))
}

/// Puts the members of the clocks and of the zone.
fn put_plain(
    map: &mut Map<String, Value>,
    alloc: Global,
    at: Reading,
    zone: &ZoneText,
) -> Result<(), AllocError>
    ensures { OnOk result (members_view map.new.entries
        ≡ with_members (members_view map.old.entries)
        (lines.clock_members at ++ lines.zone_member zone.now ∷ [])) }
{
    put_all(
        map,
        alloc,
        &[("up", Cell::Count(at.up)), ("wall", Cell::Count(at.wall))],
    )?;
    match zone {
        ZoneText::Posix(rule) => put_all(map, alloc, &[("zone", Cell::Text(rule.as_str()))]),
        ZoneText::Offset(seconds) => put_all(map, alloc, &[("offset", Cell::Whole(*seconds))]),
        ZoneText::File(file) => {
            let text = hex_text(alloc, file.as_slice())?;
            put_all(map, alloc, &[("zonefile", Cell::Text(text.as_str()))])
        }
    }
}

fn header_value(alloc: Global, header: &Header) -> Result<Value, AllocError>
    ensures { IfOk result (λ v. view v ≡ header_object header.now) }
{
    let overrides = settings_value(alloc, header.overrides.as_slice())?;
    let mut map = Map::new(alloc);
    put_plain(&mut map, alloc, header.reading, &header.zone)?;
    put(&mut map, alloc, "overrides", overrides)?;
    Ok(Value::Object(map))
}

/// The line of a header, with its newline: `up`, `wall`, the key of its zone, and always `overrides`. `Err` says only
/// that memory ran out.
pub fn header_line(alloc: Global, header: &Header) -> Result<Vec<u8>, AllocError>
    ensures text { IfOk result (λ line. line.items ≡ lines.header_line header.now) }
    // The line, without its newline, is read as the header.
    ensures reads_back { OnOk result (IsHeader header.now
        → header_at (compact_text (header_object header.now)) ≡ Some header.now) }
{
    let value = header_value(alloc, header)?;
    line_from(alloc, &value)
}
