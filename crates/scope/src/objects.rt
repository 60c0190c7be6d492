//! What is reported of jobs as objects of JSON, a line each, for programs.

pub(crate) mod causes;
pub(crate) mod drift;
pub(crate) mod job;
pub(crate) mod left;
pub(crate) mod left_out;
pub(crate) mod lines;
pub(crate) mod loaded;
pub(crate) mod runs;
pub(crate) mod status;
pub(crate) mod why;
