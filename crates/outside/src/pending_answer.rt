//! An answer that is still to be made an event.

use history_model::{Answer, JobNo};

/// What the outside answered to an order of the job with this number.
#[derive(Clone, Copy)]
pub struct PendingAnswer {
    pub job: JobNo,
    pub answer: Answer,
}
