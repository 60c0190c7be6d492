//! What `/proc/self/status` says of who this process is (proc(5)).

/// Whether the line's field at this place, counted from 0 after its name, is the number.
pub(crate) fn has_number(status: &str, name: &str, at: usize, number: u32) -> bool {
    match words_of(status, name) {
        Some(words) => match words.split_whitespace().nth(at) {
            Some(word) => word.parse::<u32>() == Ok(number),
            None => false,
        },
        None => false,
    }
}

/// Whether one of the line's fields is the number.
pub(crate) fn has_any(status: &str, name: &str, number: u32) -> bool {
    let Some(words) = words_of(status, name) else {
        return false;
    };
    for word in words.split_whitespace() {
        if word.parse::<u32>() == Ok(number) {
            return true;
        }
    }
    false
}

fn words_of<'a>(status: &'a str, name: &str) -> Option<&'a str> {
    for line in status.lines() {
        if let Some(words) = line.strip_prefix(name) {
            return Some(words);
        }
    }
    None
}
