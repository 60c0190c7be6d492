//! The journal, and the outcome lines that are expected for it.

/// A job whose first spawn is refused, and is ordered again ten seconds later. Its last line has no newline.
pub const JOURNAL: &[u8] = b"{\"up\":0,\"wall\":1700000000,\"zone\":\"UTC0\"}\n\
{\"ev\":\"load\",\"def\":\"{\\\"Label\\\":\\\"a\\\",\\\"ProgramArguments\\\":[\\\"/bin/a\\\"],\\\"RunAtLoad\\\":true}\"}\n\
{\"ev\":\"spawn_refused\",\"job\":\"a\",\"run\":1}\n\
{\"ev\":\"clock\",\"up\":9999,\"wall\":1700000009}\n\
{\"ev\":\"clock\",\"up\":10000,\"wall\":1700000010}";

/// How many bytes its header has.
pub const HEADER: usize = 40;

/// What is written for a line that is not an event.
const BAD_REQUEST: &[u8] = b"{\"code\":2,\"orders\":[],\"text\":\"bad request\\n\"}\n";

/// What is written for it.
pub const OUTCOMES: &[u8] =
    b"{\"code\":0,\"orders\":[{\"job\":\"a\",\"order\":\"spawn\",\"run\":1}],\"text\":\"\"}\n\
{\"code\":0,\"orders\":[],\"text\":\"\"}\n\
{\"code\":0,\"orders\":[],\"text\":\"\"}\n\
{\"code\":0,\"orders\":[{\"job\":\"a\",\"order\":\"spawn\",\"run\":2}],\"text\":\"\"}\n";

/// How many newlines are among the first bytes of a text.
pub fn newlines(text: &[u8], bytes: usize) -> usize {
    let mut count = 0usize;
    for byte in &text[..bytes.min(text.len())] {
        if *byte == b'\n' {
            count = count.saturating_add(1);
        }
    }
    count
}

/// The front of a text that has this many lines.
pub fn first_lines(text: &[u8], lines: usize) -> &[u8] {
    let mut left = lines;
    for (at, byte) in text.iter().enumerate() {
        if left == 0 {
            return &text[..at];
        }
        if *byte == b'\n' {
            left -= 1;
        }
    }
    text
}

/// The outcome lines that are expected if this many bytes of the journal were read: the header has none.
pub fn outcomes_of(bytes: usize) -> &'static [u8] {
    first_lines(OUTCOMES, newlines(JOURNAL, bytes).saturating_sub(1))
}

/// What is expected if the journal ends after this many bytes: the outcome lines of its whole lines, and that of a line that is cut.
pub fn wanted_of(bytes: usize) -> (&'static [u8], &'static [u8]) {
    if JOURNAL.get(bytes) == Some(&b'\n') {
        (outcomes_of(bytes.saturating_add(1)), b"")
    } else if newlines(JOURNAL, bytes) != newlines(JOURNAL, bytes.saturating_sub(1)) {
        (outcomes_of(bytes), b"")
    } else {
        (outcomes_of(bytes), BAD_REQUEST)
    }
}
