//! `jobscope next`: what it writes of a launcher that was read.

use crate::asked::NextAsked;
use crate::texts::next::next_lines;
use crate::texts::starts::{ComingLines, tells_clockless};
use crate::view::LauncherView;
use definition_files::tell_clockless;
use run_times::telling::{put_made, tell_of};
use std::alloc::Global;
use std::io;

/// Writes the coming starts, after the second as of which the launcher is seen, and says how many jobs have none. `name` is that of the source.
pub(crate) fn put_next(
    host: &HostRuntime,
    alloc: Global,
    name: &str,
    of: &LauncherView<'_>,
    asked: NextAsked,
) -> io::Result<()> {
    tell_unforetold(host, name, asked.is_json, of.around.foretells);
    let ComingLines {
        text,
        jobs,
        clockless,
    } = next_lines(alloc, of, asked)?;
    if tells_clockless(asked.is_all, clockless, jobs) {
        tell_clockless(host, name, clockless, jobs);
    }
    put_made(host, Ok(text))
}

// Says in the place of objects that no start is foretold. A text has a head that says it.
fn tell_unforetold(host: &HostRuntime, name: &str, is_json: bool, foretells: bool) {
    if is_json && !foretells {
        tell_of(
            host,
            name,
            &"its launcher is not known to run: no start is foretold",
        );
    }
}
