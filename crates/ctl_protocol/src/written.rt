//! Reads the lines of a journal as the launcher writes them: compact, their keys in byte order, their texts without escapes. This takes no
//! memory. A line that has no answer here may still be an event: `event` reads it as any JSON text.

ghost use Rattle.std.specs.Prelude.{◌≡◌, ◌++◌, [], codes, Some, IfSome};
ghost use Rattle.history_model.specs.declared.event.Event.TheVariants as events;
ghost use Rattle.ctl_protocol.specs.WrittenLines.{IsAnswerOf, IsFlagAfter, IsLabelThen, IsNumberAfter, IsRunOf, IsTextThen, Tells};

use history_model::{Answer, Ask, Ended, Event, JobItem, Obs, Reading, TextRef, is_label};
use std::str;

/// After a number up to this one another digit can follow in 64 bits.
const MOST: u64 = 1_844_674_407_370_955_160;

/// What comes after this text, with which the bytes begin.
#[inline(always)]
fn after<'a>(bytes: &'a [u8], text: &[u8]) -> Option<&'a [u8]>
    ensures { IfSome result (λ rest. bytes.now ≡ text.now ++ rest.now) }
{
    bytes.strip_prefix(text)
}

/// The number with which the bytes begin, in decimal, and what comes after it.
fn number(bytes: &[u8]) -> Option<(u64, &[u8])>
    ensures { IfSome result (λ r. IsNumberAfter [] bytes.now r.0 r.1.now) }
{
    let Some((first, others)) = bytes.split_first() else {
        return None;
    };
    let first = *first;
    if first == b'0' {
        return Some((0, others));
    }
    if first < b'0' || b'9' < first {
        return None;
    }
    let mut n = (first - b'0') as u64;
    let mut rest = others;
    while let Some((next, more)) = rest.split_first() {
        let next = *next;
        if next < b'0' || b'9' < next {
            break;
        }
        if MOST < n {
            return None;
        }
        n = 10 * n + (next - b'0') as u64;
        rest = more;
    }
    Some((n, rest))
}

/// The number after this text, and what comes after it.
#[inline(always)]
fn number_after<'a>(bytes: &'a [u8], text: &[u8]) -> Option<(u64, &'a [u8])>
    ensures { IfSome result (λ r. IsNumberAfter text.now bytes.now r.0 r.1.now) }
{
    number(after(bytes, text)?)
}

/// The number after this text, if the object ends there.
fn last_number(bytes: &[u8], text: &[u8]) -> Option<u64>
    ensures { IfSome result (λ n. IsNumberAfter text.now bytes.now n (codes "}")) }
{
    let (n, rest) = number_after(bytes, text)?;
    let rest = after(rest, b"}")?;
    if rest.is_empty() { Some(n) } else { None }
}

/// The flag after this text, and what comes after it.
fn flag_after<'a>(bytes: &'a [u8], text: &[u8]) -> Option<(bool, &'a [u8])>
    ensures { IfSome result (λ r. IsFlagAfter text.now bytes.now r.0 r.1.now) }
{
    let bytes = after(bytes, text)?;
    if let Some(rest) = after(bytes, b"true") {
        return Some((true, rest));
    }
    let rest = after(bytes, b"false")?;
    Some((false, rest))
}

/// The text up to the first quote, and what comes after the quote. None if a byte of the text would be written as an escape.
fn text(bytes: &[u8]) -> Option<(&str, &[u8])>
    ensures { IfSome result (λ r. IsTextThen bytes.now r.0.now r.1.now) }
{
    let mut at = 0;
    while at < bytes.len() && bytes[at] != b'"' {
        if bytes[at] < 32 || bytes[at] == b'\\' {
            return None;
        }
        at += 1;
    }
    let rest = after(&bytes[at..], b"\"")?;
    let Ok(text) = str::from_utf8(&bytes[..at]) else {
        return None;
    };
    Some((text, rest))
}

/// The label up to the first quote, and what comes after the quote.
fn label(bytes: &[u8]) -> Option<(&str, &[u8])>
    ensures { IfSome result (λ r. IsLabelThen bytes.now r.0.now r.1.now) }
{
    let (job, rest) = text(bytes)?;
    if is_label(job) {
        Some((job, rest))
    } else {
        None
    }
}

/// The label up to the first quote, if the object ends there.
fn last_label(bytes: &[u8]) -> Option<&str>
    ensures { IfSome result (λ job. IsLabelThen bytes.now job.now (codes "}")) }
{
    let (job, rest) = label(bytes)?;
    let rest = after(rest, b"}")?;
    if rest.is_empty() { Some(job) } else { None }
}

/// A label, and the run after it, if the object ends there.
fn job_and_run(bytes: &[u8]) -> Option<(&str, u64)>
    ensures { IfSome result (λ r. IsRunOf bytes.now r.0.now r.1) }
{
    let (job, rest) = label(bytes)?;
    let run = last_number(rest, b",\"run\":")?;
    Some((job, run))
}

/// A label, and the answer and the run after it, if the object ends there.
fn job_and_answer(bytes: &[u8]) -> Option<(&str, bool, u64)>
    ensures { IfSome result (λ r. IsAnswerOf bytes.now r.0.now r.1 r.2) }
{
    let (job, rest) = label(bytes)?;
    let (ok, rest) = flag_after(rest, b",\"ok\":")?;
    let run = last_number(rest, b",\"run\":")?;
    Some((job, ok, run))
}

fn of_job<'a>(job: &'a str, item: JobItem) -> Option<Event<'a>>
    ensures { result ≡ Some (events.OfJob job.now item) }
{
    let job = TextRef::new(job);
    Some(Event::OfJob { job, item })
}

fn clock(bytes: &[u8]) -> Option<Event<'_>>
    ensures { Tells (codes "{\"ev\":\"clock\",\"up\":" ++ bytes.now) result }
{
    let (up, rest) = number(bytes)?;
    let wall = last_number(rest, b",\"wall\":")?;
    Some(Event::Clock(Reading { up, wall }))
}

fn saw(bytes: &[u8]) -> Option<Event<'_>>
    ensures { Tells (codes "{\"ev\":\"saw\"" ++ bytes.now) result }
{
    let (present, rest) = flag_after(bytes, b",\"exists\":")?;
    let (nonempty_dir, rest) = flag_after(rest, b",\"nonempty\":")?;
    let (path, rest) = text(after(rest, b",\"path\":\"")?)?;
    let stamp = last_number(rest, b",\"stamp\":")?;
    let path = TextRef::new(path);
    let obs = Obs {
        present,
        nonempty_dir,
        stamp,
    };
    Some(Event::Saw { path, obs })
}

fn spawned(bytes: &[u8]) -> Option<Event<'_>>
    ensures { Tells (codes "{\"ev\":\"spawned\",\"job\":\"" ++ bytes.now) result }
{
    let (job, rest) = label(bytes)?;
    let (pid, rest) = number_after(rest, b",\"pid\":")?;
    let run = last_number(rest, b",\"run\":")?;
    if pid == 0 || 0xffff_ffff < pid {
        return None;
    }
    let pid = pid as u32;
    of_job(job, JobItem::Answered(Answer::Spawned { run, pid }))
}

/// The end of a run by a signal.
fn killed_by(bytes: &[u8]) -> Option<Event<'_>>
    ensures { Tells (codes "{\"ev\":\"ended\",\"job\":\"" ++ bytes.now) result }
{
    let (job, rest) = label(bytes)?;
    let (run, rest) = number_after(rest, b",\"run\":")?;
    let signal = last_number(rest, b",\"signal\":")?;
    if 255 < signal {
        return None;
    }
    let how = Ended::Signal(signal as u8);
    of_job(job, JobItem::Ended { run, how })
}

/// The end of a run by an exit.
fn exited(bytes: &[u8]) -> Option<Event<'_>>
    ensures { Tells (codes "{\"code\":" ++ bytes.now) result }
{
    let (code, rest) = number(bytes)?;
    let (job, run) = job_and_run(after(rest, b",\"ev\":\"ended\",\"job\":\"")?)?;
    if 255 < code {
        return None;
    }
    let how = Ended::Code(code as u8);
    of_job(job, JobItem::Ended { run, how })
}

/// A connection that came, or that left.
fn connection(bytes: &[u8]) -> Option<Event<'_>>
    ensures { Tells (codes "{\"conn\":" ++ bytes.now) result }
{
    let (conn, rest) = number(bytes)?;
    if let Some(rest) = after(rest, b",\"ev\":\"came\",\"job\":\"") {
        return of_job(last_label(rest)?, JobItem::Came(conn));
    }
    let job = last_label(after(rest, b",\"ev\":\"left\",\"job\":\"")?)?;
    of_job(job, JobItem::Left(conn))
}

/// An answer to an order, or an event that has the run alone.
fn answered(bytes: &[u8]) -> Option<Event<'_>>
    ensures { Tells (codes "{\"ev\":\"" ++ bytes.now) result }
{
    if let Some(rest) = after(bytes, b"termed\",\"job\":\"") {
        let (job, ok, run) = job_and_answer(rest)?;
        return of_job(job, JobItem::Answered(Answer::Termed { run, ok }));
    }
    if let Some(rest) = after(bytes, b"killed\",\"job\":\"") {
        let (job, ok, run) = job_and_answer(rest)?;
        return of_job(job, JobItem::Answered(Answer::Killed { run, ok }));
    }
    if let Some(rest) = after(bytes, b"spawn_refused\",\"job\":\"") {
        let (job, run) = job_and_run(rest)?;
        return of_job(job, JobItem::Answered(Answer::SpawnRefused { run }));
    }
    let (job, run) = job_and_run(after(bytes, b"wait_refused\",\"job\":\"")?)?;
    of_job(job, JobItem::WaitRefused { run })
}

/// A start or a stop that a client asked for.
fn asked(bytes: &[u8]) -> Option<Event<'_>>
    ensures { Tells (codes "{\"ev\":\"st" ++ bytes.now) result }
{
    if let Some(rest) = after(bytes, b"art\",\"job\":\"") {
        return of_job(last_label(rest)?, JobItem::Asked(Ask::Start));
    }
    let job = last_label(after(bytes, b"op\",\"job\":\"")?)?;
    of_job(job, JobItem::Asked(Ask::Stop))
}

/// The event that the line is, if it is written as the launcher writes it. Other lines may be events, too.
pub(crate) fn written_event(line: &[u8]) -> Option<Event<'_>>
    ensures { Tells line.now result }
{
    if let Some(rest) = after(line, b"{\"ev\":\"clock\",\"up\":") {
        return clock(rest);
    }
    if let Some(rest) = after(line, b"{\"ev\":\"saw\"") {
        return saw(rest);
    }
    if let Some(rest) = after(line, b"{\"ev\":\"spawned\",\"job\":\"") {
        return spawned(rest);
    }
    if let Some(rest) = after(line, b"{\"code\":") {
        return exited(rest);
    }
    if let Some(rest) = after(line, b"{\"ev\":\"ended\",\"job\":\"") {
        return killed_by(rest);
    }
    if let Some(rest) = after(line, b"{\"conn\":") {
        return connection(rest);
    }
    if let Some(rest) = after(line, b"{\"ev\":\"st") {
        return asked(rest);
    }
    answered(after(line, b"{\"ev\":\"")?)
}
