//! A journal, read line by line into the table of jobs. With it a bounded history is kept: the runs of each job, what clients asked of it,
//! and how long it was up.

pub(crate) mod facts;
pub(crate) mod fault;
pub(crate) mod job;
pub(crate) mod labels;
pub(crate) mod lines;
pub(crate) mod news;
mod noting;
pub(crate) mod past;
pub(crate) mod reader;
pub(crate) mod run;
pub(crate) mod shown;
pub(crate) mod source;
pub(crate) mod telling;
pub(crate) mod waiting;
