//! The control program `jobctl`, once its arguments are read. Files become requests, requests go to the launcher on its
//! control socket, and replies become texts and an exit status.
#![tactic(auto)]

mod connection;
mod fault;
mod labels;
mod left;
mod program;
mod reply;
mod request;
mod session;
mod settings;

pub use connection::{Connection, REPLY, receive};
pub use ctl_protocol::LINE_LIMIT;
pub use fault::Fault;
pub use program::{PACKAGED, SOCKET, jobctl, tell_setting};
pub use reply::Replied;
pub use request::request_of;
pub use settings::{Environment, SettingFault, settings_of};
