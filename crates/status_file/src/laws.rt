//! What holds of the lines of a status file. The function does nothing: its contract is the law.

ghost use Rattle.std.specs.Prelude.{◌≡◌, true};
ghost use Rattle.status_file.specs.Jobs.{JobLine};
ghost use Rattle.status_file.specs.RoundTrip.{IsReadBack};
ghost use Rattle.status_file.specs.Values.{IsFit, line_value};

/// What is read of the line of a job is what was written: each fact of the job, and each entry of its calendar. The conditions: each number has 64
/// bits, and each text is UTF-8, as their types ensure. It is known where the errors of the job go, as of each line that a launcher of this version
/// writes.
pub fn what_is_read_was_written()
    ensures { (line : JobLine) → IsFit (line_value line) → line.job.keys.knows_errors ≡ true → IsReadBack line }
{}
