//! The control socket of the launcher: a Unix socket for its own user, on which clients ask by lines and are answered by
//! lines, in order. What a line says, and what is answered, is the business of whoever answers ([`Answers`]).
#![tactic(auto)]

mod accepting;
mod client;
mod control;
mod dialogue;
pub mod laws;
mod notices;
mod turn;

pub use control::{CLIENTS, ControlSocket};
pub use dialogue::UNSENT;
pub use files_and_process::socket_file::SocketMark;
pub use turn::{Answers, LINES, Limit};
