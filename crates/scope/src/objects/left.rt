//! The processes that runs left running, as objects.

use crate::objects::job::ReportContext;
use json_lines::Value::{Moment, Number, Text};
use json_lines::{Field, put_line};
use leftovers::RunProcess;
use run_times::Page;

/// Adds an object for each of them.
pub(crate) fn put_left(page: &mut Page<'_>, left: &[RunProcess], around: ReportContext) {
    for process in left {
        put_process(page, process, around);
    }
}

fn put_process(page: &mut Page<'_>, process: &RunProcess, around: ReportContext) {
    let fields = [
        Field("state", Text("left_running")),
        Field("pid", Number(u64::from(process.pid))),
        Field("program", Text(process.name.as_str())),
        Field("run", Number(process.run)),
        Field("as_of", Moment(around.as_of)),
        Field("launcher", around.launcher),
    ];
    put_line(page, "label", process.label.as_str(), &fields);
}
