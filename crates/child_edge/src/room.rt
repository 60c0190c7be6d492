//! How many clients there is room for, by the descriptors that this process may have and by the sockets of jobs that listen.

ghost use Rattle.std.specs.Prelude.{◌≡◌};
ghost use Rattle.child_edge.specs.Rooms.{room_by};

/// How many descriptors are needed besides those of jobs' sockets and of clients. The launcher holds some, and holds
/// others back for a start, a TERM and a path check.
const FEWEST: u64 = 32;

/// The most room that there is.
const MOST: u64 = 256;

/// How many connections of jobs' sockets are held, each with two descriptors. It is also how many of their clients are
/// heard at a time, and how many clients of the control socket are served, up to 64. `limit` is how many descriptors
/// this process may have, and `listeners` how many sockets of jobs listen.
///
/// Connections take half of the descriptors that are left beyond 32 and the listeners, and each of the others a
/// quarter. It is 256 at most, and if the limit is not known. 0: there is room for none.
pub fn room_for(limit: Option<u64>, listeners: u64) -> usize
    ensures { result ≡ room_by limit listeners }
{
    let Some(limit) = limit else {
        return MOST as usize;
    };
    let Some(left) = limit.checked_sub(FEWEST) else {
        return 0;
    };
    match left.checked_sub(listeners) {
        Some(left) => (left / 4 + 1).min(MOST) as usize,
        None => 0,
    }
}
