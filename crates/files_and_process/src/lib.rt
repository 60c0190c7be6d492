//! What a process asks of the system's files and of itself. Of files: those for one user, locks, those that paths of a
//! command line name, and the file of a listening socket. Of processes: those of the machine, and the name of a run
//! among them. Of itself: its own arguments, limits and streams.
#![tactic(auto)]

pub mod own_files;
pub mod own_process;
pub mod path_files;
pub mod processes;
pub mod run_names;
pub mod socket_file;
