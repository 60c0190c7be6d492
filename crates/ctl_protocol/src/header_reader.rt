//! Reads a header.

ghost use Rattle.std.specs.Prelude.{◌≡◌};
ghost use Rattle.json_kinds.specs.Json.{json_in};
ghost use Rattle.serde_json.specs.View.{view, members_view};
ghost use Rattle.ctl_protocol.specs.Headers as headers;
ghost use Rattle.ctl_protocol.specs.Headers.{are_among, bytes_of_hex, digit_of, file_of, header_at, header_keys, header_shape, offset_of, overrides_key, posix_of, reading_keys, setting_of, settings_of, up_to, zone_key};
ghost use Rattle.ctl_protocol.specs.Members.{IsReadAs, Reads, number_key};
ghost use Rattle.json_kinds.specs.JsonKinds.{texts_in};

use crate::header::{Header, HeaderSettings, ZoneFile, ZoneText};
use crate::members::ReadFault;
use history_model::{MAX_UP, MAX_WALL, Reading, Setting, Text, is_label};
use json_kinds::json_value;
use json_kinds::kinds::is_among;
use serde_json::{Map, Value};
use std::alloc::Global;

/// The JSON value that the bytes are.
fn json_line(alloc: Global, bytes: &[u8]) -> Result<Value, ReadFault>
    ensures { IsReadAs view result (json_in bytes.now) }
{
    match json_value(alloc, bytes)? {
        Some(value) => Ok(value),
        None => Err(ReadFault::BadRequest),
    }
}

/// The integer under a key, from 0 on.
#[tactic(auto, unfolding(crate::specs::Members::number_key))]
fn number_in(line: &Value, key: &str) -> Result<u64, ReadFault>
    ensures { Reads result (number_key key.now (view line.now)) }
{
    match line.get(key).and_then(Value::as_u64) {
        Some(n) => Ok(n),
        None => Err(ReadFault::BadRequest),
    }
}

#[tactic(auto, unfolding(crate::specs::Headers::up_to))]
fn up_to_in(line: &Value, most: u64, key: &str) -> Result<u64, ReadFault>
    ensures { Reads result (up_to most key.now (view line.now)) }
{
    match number_in(line, key)? {
        n if n <= most => Ok(n),
        _ => Err(ReadFault::BadRequest),
    }
}

fn reading_in(line: &Value) -> Result<Reading, ReadFault>
    ensures { Reads result (reading_keys (view line.now)) }
{
    let up = up_to_in(line, MAX_UP, "up")?;
    let wall = up_to_in(line, MAX_WALL, "wall")?;
    Ok(Reading { up, wall })
}

/// The value of a digit of lower case hexadecimal.
fn digit_in(byte: u8) -> Option<u8>
    ensures { result ≡ digit_of byte }
{
    if b'0' <= byte && byte <= b'9' {
        Some(byte - b'0')
    } else if b'a' <= byte && byte <= b'f' {
        Some(byte - 87)
    } else {
        None
    }
}

/// The byte that two digits are.
fn byte_in(high: u8, low: u8) -> Option<u8>
    ensures { result ≡ headers.byte_of high low }
{
    match (digit_in(high), digit_in(low)) {
        (Some(high), Some(low)) => Some(16 * high + low),
        _ => None,
    }
}

/// The bytes of a text of lower case hexadecimal.
#[tactic(auto, using(crate::proofs::HexadecimalLemmas::byte_ends, crate::proofs::HexadecimalLemmas::all_read, crate::proofs::HexadecimalLemmas::one_left))]
fn bytes_in(alloc: Global, text: &[u8]) -> Result<Vec<u8>, ReadFault>
    ensures { IsReadAs (λ b. b.items) result (bytes_of_hex text.now) }
{
    let mut bytes = Vec::new(alloc);
    let mut rest = text;
    while 1 < rest.len() {
        let Some(byte) = byte_in(rest[0], rest[1]) else {
            return Err(ReadFault::BadRequest);
        };
        bytes.push(byte)?;
        rest = &rest[2..];
    }
    if rest.is_empty() {
        Ok(bytes)
    } else {
        Err(ReadFault::BadRequest)
    }
}

fn posix_in(alloc: Global, zone: &Value) -> Result<ZoneText, ReadFault>
    ensures { Reads result (posix_of (view zone.now)) }
{
    match zone.as_str() {
        Some(text) => Ok(ZoneText::Posix(Text::copy_of(alloc, text)?)),
        None => Err(ReadFault::BadRequest),
    }
}

fn offset_in(zone: &Value) -> Result<ZoneText, ReadFault>
    ensures { Reads result (offset_of (view zone.now)) }
{
    match zone.as_i64() {
        Some(seconds) => Ok(ZoneText::Offset(seconds)),
        None => Err(ReadFault::BadRequest),
    }
}

fn file_in(alloc: Global, zone: &Value) -> Result<ZoneText, ReadFault>
    ensures { Reads result (file_of (view zone.now)) }
{
    match zone.as_str() {
        Some(text) => {
            let bytes = bytes_in(alloc, text.as_bytes())?;
            Ok(ZoneText::File(ZoneFile::new(bytes)))
        }
        None => Err(ReadFault::BadRequest),
    }
}

/// Exactly one of `zone`, `offset` and `zonefile`.
#[tactic(auto, unfolding(crate::specs::Headers::zone_key))]
fn zone_in(alloc: Global, line: &Value) -> Result<ZoneText, ReadFault>
    ensures { Reads result (zone_key (view line.now)) }
{
    match (line.get("zone"), line.get("offset"), line.get("zonefile")) {
        (Some(zone), None, None) => posix_in(alloc, zone),
        (None, Some(zone), None) => offset_in(zone),
        (None, None, Some(zone)) => file_in(alloc, zone),
        _ => Err(ReadFault::BadRequest),
    }
}

fn setting_in(alloc: Global, label: &str, disabled: &Value) -> Result<Setting, ReadFault>
    ensures { Reads result (setting_of label.now (view disabled.now)) }
{
    if !is_label(label) {
        return Err(ReadFault::BadRequest);
    }
    match disabled.as_bool() {
        Some(disabled) => Ok(Setting {
            label: Text::copy_of(alloc, label)?,
            disabled,
        }),
        None => Err(ReadFault::BadRequest),
    }
}

fn settings_in(alloc: Global, members: &Map<String, Value>) -> Result<Vec<Setting>, ReadFault>
    ensures { IsReadAs (λ s. s.items) result (settings_of (members_view members.now.entries)) }
{
    let mut settings = Vec::new(alloc);
    for (label, disabled) in members.iter() {
        let setting = setting_in(alloc, label.as_str(), disabled)?;
        settings.push(setting)?;
    }
    Ok(settings)
}

#[tactic(auto, unfolding(crate::specs::Headers::overrides_key))]
fn overrides_in(alloc: Global, line: &Value) -> Result<HeaderSettings, ReadFault>
    ensures { Reads result (overrides_key (view line.now)) }
{
    match line.get("overrides") {
        None => Ok(HeaderSettings::new(Vec::new(alloc))),
        Some(found) => match found.as_object() {
            Some(members) => Ok(HeaderSettings::new(settings_in(alloc, members)?)),
            None => Err(ReadFault::BadRequest),
        },
    }
}

fn all_are_among(members: &Map<String, Value>, keys: &[&str]) -> bool
    ensures { result ≡ are_among (texts_in keys.now) (members_view members.now.entries) }
{
    for (key, _) in members.iter() {
        if !is_among(keys, key.as_str()) {
            return false;
        }
    }
    true
}

fn are_header_keys(members: &Map<String, Value>) -> bool
    ensures { result ≡ are_among header_keys (members_view members.now.entries) }
{
    all_are_among(
        members,
        &["up", "wall", "zone", "offset", "zonefile", "overrides"],
    )
}

#[tactic(auto, unfolding(crate::specs::Headers::has_header_keys))]
fn has_header_keys(line: &Value) -> bool
    ensures { result ≡ headers.has_header_keys (view line.now) }
{
    match line.as_object() {
        Some(members) => are_header_keys(members),
        None => false,
    }
}

#[tactic(auto, unfolding(crate::specs::Headers::header_shape))]
fn header_in(alloc: Global, line: &Value) -> Result<Header, ReadFault>
    ensures { Reads result (header_shape (view line.now)) }
{
    if !has_header_keys(line) {
        return Err(ReadFault::BadRequest);
    }
    let reading = reading_in(line)?;
    let zone = zone_in(alloc, line)?;
    let overrides = overrides_in(alloc, line)?;
    Ok(Header {
        reading,
        zone,
        overrides,
    })
}

/// The header that a line is, the newline left out: `up` (milliseconds, to 9,000,000,000,000,000), `wall` (seconds of Unix time,
/// to 250,000,000,000), one of `zone`, `offset` and `zonefile`. Its `overrides` say for each label whether it is disabled.
/// BadRequest if the line is not a header. Whether the zone exists is not asked here.
#[tactic(auto, unfolding(crate::specs::Headers::header_at))]
pub fn read_header(alloc: Global, line: &[u8]) -> Result<Header, ReadFault>
    ensures { Reads result (header_at line.now) }
{
    let line = json_line(alloc, line)?;
    header_in(alloc, &line)
}
