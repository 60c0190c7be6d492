//! How the lines of jobs begin, found without a tree of what they say.

ghost use Rattle.std.specs.Prelude.{◌≡◌, ◌∷◌, ℕ, List, true, false, None, IfOk, IfSome, codes};
ghost use Rattle.json.specs.Token.{Token, begin_object, key, string};
ghost use Rattle.status_file.specs.Fronts.{BeginsWithLabel, BeginsWithProcess, HasProcess, IsLineOf, IsProcessOf};

use json::{Reader, Scratch, Token as Read, is_valid};
use std::alloc::{AllocError, Global};

/// Room for looking at lines. One is kept from line to line.
#[derive(Drop)]
pub struct LineRoom {
    scratch: Scratch,
}

/// How the line of a job begins.
#[derive(Clone, Copy)]
pub struct LineFront<'a> {
    pub label: &'a str,
    /// The process of its present run. None: it has none, or the line does not say it next to the label, as the launcher writes it.
    pub pid: Option<u32>,
}

impl LineRoom {
    /// It takes no memory yet.
    pub fn new(alloc: Global) -> LineRoom {
        LineRoom {
            scratch: Scratch::new(alloc),
        }
    }

    /// The label of the job of a line without its newline, and the process of its present run, if the line is JSON and begins as the launcher writes it. None:
    /// the line is another one, and must be read. An error for want of memory.
    pub fn front_in<'a>(&'a mut self, line: &'a str) -> Result<Option<LineFront<'a>>, AllocError>
        ensures named { IfOk result (λ found. IfSome found (λ front. IsLineOf line.now front.label.now)) }
        ensures unnamed { IfOk result (λ found. found ≡ None → (label : List ℕ) →
            IsLineOf line.now label → ⊥) }
        ensures process { IfOk result (λ found. IfSome found (λ front. IfSome front.pid (λ pid.
            IsProcessOf line.now front.label.now pid))) }
    {
        if !is_valid(line, &mut self.scratch)? {
            return Ok(None);
        }
        let mut reader = Reader::new(line, &mut self.scratch)?;
        Ok(front_of(&mut reader))
    }
}

// The front, if the line begins so.
fn front_of<'a>(reader: &mut Reader<'a>) -> Option<LineFront<'a>>
    ensures named { IfSome result (λ front. BeginsWithLabel reader.old front.label.now) }
    ensures unnamed { result ≡ None → (label : List ℕ) → BeginsWithLabel reader.old label → ⊥ }
    ensures process { IfSome result (λ front. IfSome front.pid (λ pid. HasProcess reader.old front.label.now pid)) }
{
    match front_label(reader) {
        Some(label) => {
            let pid = process_after(reader);
            Some(LineFront { label, pid })
        }
        None => None,
    }
}

// The label, if the line begins so.
fn front_label<'a>(reader: &mut Reader<'a>) -> Option<&'a str>
    ensures named { IfSome result (λ label. reader.old ≡ begin_object ∷ key (codes "job") ∷ begin_object ∷ key (codes "label") ∷ string label.now ∷ reader.new) }
    ensures unnamed { result ≡ None → (label : List ℕ) → BeginsWithLabel reader.old label → ⊥ }
{
    if !opens(reader, "job") {
        return None;
    }
    if !opens(reader, "label") {
        return None;
    }
    match reader.next() {
        Some(Read::String(label)) => Some(label),
        _ => None,
    }
}

// The process after the label: `"state":STATE,"pid":PID`.
fn process_after(reader: &mut Reader<'_>) -> Option<u32>
    ensures { IfSome result (λ pid. BeginsWithProcess reader.old pid) }
{
    if !has_key(reader, "state") {
        return None;
    }
    let Some(Read::String(_)) = reader.next() else {
        return None;
    };
    if !has_key(reader, "pid") {
        return None;
    }
    match reader.next() {
        Some(Read::Number(digits)) => digits.parse::<u32>().ok(),
        _ => None,
    }
}

// Whether this key comes next.
fn has_key(reader: &mut Reader<'_>, name: &str) -> bool
    ensures { result ≡ true → reader.old ≡ key name.now ∷ reader.new }
{
    match reader.next() {
        Some(Read::Key(key)) => key == name,
        _ => false,
    }
}

// Whether an object begins, with this key first.
fn opens(reader: &mut Reader<'_>, name: &str) -> bool
    ensures opened { result ≡ true → reader.old ≡ begin_object ∷ key name.now ∷ reader.new }
    ensures unopened { result ≡ false → (rest : List Token) → reader.old ≡ begin_object ∷ key name.now ∷ rest → ⊥ }
{
    if let Some(Read::BeginObject) = reader.next() {
        if let Some(Read::Key(key)) = reader.next() {
            return key == name;
        }
    }
    false
}
