//! Labels, the names of jobs.

ghost use Rattle.std.specs.Prelude.{◌≡◌};
ghost use Rattle.std.specs.List.{list_any};
ghost use Rattle.history_model.specs.Labels as labels;

/// Whether the text may be a job's `Label` (launchd.plist(5)): 1 to 255 bytes, no `/`, no byte below 32, and not the
/// byte 127.
pub fn is_label(text: &str) -> bool
    ensures { result ≡ labels.is_label text.now }
{
    !text.is_empty() && text.len() <= 255 && !has_forbidden(text.as_bytes())
}

fn has_forbidden(bytes: &[u8]) -> bool
    ensures { result ≡ list_any labels.is_forbidden bytes.now }
{
    bytes.iter().any(|b| *b == b'/' || *b < 32 || *b == 127)
}
