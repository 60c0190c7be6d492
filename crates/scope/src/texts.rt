//! The texts that are written of a launcher: why each job is in its state, when it starts, what its runs came to, and the journal for people.

pub(crate) mod after_exit;
pub(crate) mod by_facts;
pub(crate) mod cause_lines;
pub(crate) mod causes;
pub(crate) mod coming;
pub(crate) mod failing;
pub(crate) mod fronts;
pub(crate) mod heads;
pub(crate) mod labels;
pub(crate) mod left;
pub(crate) mod log;
pub mod log_ends;
pub(crate) mod next;
pub(crate) mod runs;
pub(crate) mod show;
pub(crate) mod since;
pub(crate) mod starts;
pub(crate) mod told;
pub(crate) mod unknown;
pub(crate) mod why;
pub(crate) mod words;
