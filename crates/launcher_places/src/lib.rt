//! The file next to a launcher's control socket that says where its other files are. Whoever knows the socket finds them all.
#![tactic(auto)]

mod line;
mod reading;

pub use line::{Places, PlacesTold, places_in, places_line};
pub use reading::{PlacesFault, check_own_file, owner_of, places_beside};

/// What its path has after that of the socket.
pub const BEHIND_SOCKET: &str = ".places";
