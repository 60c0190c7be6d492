//! What a start is asked for.

use crate::children::RunKey;
use history_model::definition::Def;

/// A start of a job's run: of which run, as its definition says, and for which connection if it serves one.
#[derive(Clone, Copy)]
pub(crate) struct Start<'a> {
    pub(crate) key: RunKey,
    pub(crate) def: &'a Def,
    pub(crate) conn: Option<u64>,
}
