//! The definitions that the boot left out, as objects.

use crate::objects::job::ReportContext;
use crate::objects::lines::text_of;
use json_lines::Value::{Moment, Text};
use json_lines::{Field, put_line};
use run_times::Page;
use status_page::{LeftOut, StatusRead, is_told};

/// Adds an object for each definition that the boot left out, or for those that the arguments mean. It returns how many there are.
pub(crate) fn put_left_out(
    page: &mut Page<'_>,
    standing: &StatusRead,
    words: &[history_model::Text],
    around: ReportContext,
) -> u64 {
    let mut count: u64 = 0;
    for file in &standing.boot.left_out {
        if is_told(standing, file, words) {
            put_file(page, file, around);
            count = count.saturating_add(1);
        }
    }
    count
}

fn put_file(page: &mut Page<'_>, file: &LeftOut, around: ReportContext) {
    let fields = [
        Field("state", Text("not_loaded")),
        Field("file_label", text_of(file.label())),
        Field("reason", Text(file.reason())),
        Field("as_of", Moment(around.as_of)),
        Field("launcher", around.launcher),
    ];
    put_line(page, "file", file.path(), &fields);
}
