//! The definitions that the boot left out, as texts show them.

use crate::boot::LeftOut;
use crate::standing::StatusRead;
use history_model::Text;
use run_times::{Filling, Page};

/// Whether a definition that the boot left out is shown: it is not loaded by now, and an argument means it, if there are arguments.
pub fn is_told(standing: &StatusRead, file: &LeftOut, words: &[Text]) -> bool {
    is_meant(file, words) && standing.is_left_out(file)
}

fn is_meant(file: &LeftOut, words: &[Text]) -> bool {
    for word in words {
        if file.is_meant_by(word.as_str()) {
            return true;
        }
    }
    words.is_empty()
}

/// Adds a line for each definition that the boot left out, or for those that the arguments mean. It returns how many there are.
pub fn add_left_out(page: &mut Page<'_>, standing: &StatusRead, words: &[Text]) -> u64 {
    let mut count: u64 = 0;
    for file in &standing.boot.left_out {
        if is_told(standing, file, words) {
            let path = Filling::Text(file.path());
            page.add(
                "$: not loaded at the boot: $\n",
                &[path, Filling::Text(file.reason())],
            );
            count = count.saturating_add(1);
        }
    }
    count
}
