//! Where a further client of a job's socket can be. Which of the clients whose request still comes is disconnected for
//! it.

ghost use Rattle.std.specs.Prelude.{◌≡◌, ◌≤◌, ◌⊎◌};
ghost use Rattle.std.specs.Option.{IfSome, MatchOption};
ghost use Rattle.job_clients.specs.Places.{IsFirstOld, IsPlace, by_first, gives_way, how_many_jobs, is_at_bound, is_below_share, is_full, is_rival, others_wait, place_by, share_by};

/// After how many milliseconds a client may be disconnected for a further one.
const OLD: u64 = 5_000;

/// A client whose request still comes: its key, the bind that gave the job the socket to which it came, and the `up` at which it
/// came.
#[derive(Clone, Copy)]
pub struct Received {
    pub key: usize,
    pub bind: u64,
    pub came: u64,
}

/// How many clients are heard at a time: of a job, of all jobs, and of a job while clients of others wait for a place.
#[derive(Clone, Copy)]
pub struct CallerRoom {
    pub of_a_job: usize,
    pub in_all: usize,
    pub share: usize,
}

/// Where a further client can be.
#[derive(Clone, Copy)]
pub enum CallerPlace {
    Free,
    /// In the place of the client of this key, which is disconnected.
    Of(usize),
    /// Nowhere, since its job has all the clients that a job may have. Whoever takes clients in leaves it in the
    /// system's queue.
    Nowhere,
    /// In the system's queue, until there is a place. Its job has fewer than its share, so the others give way.
    Next,
    /// In the system's queue, until there is a place. Its job has its share.
    Later,
}

/// The place of a further client that comes at this `up`, by this bind. `waiting` are the binds for which there was no
/// place, though their jobs had fewer than their share.
///
/// A client takes a free place from nobody. It is for whoever comes. But if clients of other jobs wait, it is only for
/// a job that has fewer than its share.
///
/// If its job has all the clients that a job may have, it takes the place of the first of these that came 5 seconds ago
/// or more. It has no place if no such client is there.
///
/// If all jobs together have all that they may have, it takes the place of the first of all that came 5 seconds ago or
/// more. If its own job has its share and others wait, it takes the place of the first of its own job's. If no such
/// client is there, it waits.
pub fn place_for(
    callers: &[Received],
    waiting: &[u64],
    bind: u64,
    room: CallerRoom,
    up: u64,
) -> CallerPlace
    ensures { IsPlace room callers.now waiting.now bind up result }
{
    let crowd = crowd_of(callers, waiting, bind, room);
    let of_any = !crowd.is_at_bound && !crowd.gives_way;
    let first = first_old(callers, bind, of_any, up);
    place_with(crowd, first)
}

// Where the client can be, if this one may go for it.
fn place_with(crowd: Crowd, first: Option<usize>) -> CallerPlace
    ensures { result ≡ place_by crowd.is_at_bound crowd.is_full crowd.is_below_share crowd.gives_way first }
{
    if crowd.is_at_bound {
        return place_of(first, CallerPlace::Nowhere);
    }
    if crowd.is_full {
        let otherwise = if crowd.is_below_share {
            CallerPlace::Next
        } else {
            CallerPlace::Later
        };
        return place_of(first, otherwise);
    }
    if crowd.gives_way {
        CallerPlace::Later
    } else {
        CallerPlace::Free
    }
}

fn place_of(first: Option<usize>, otherwise: CallerPlace) -> CallerPlace
    ensures { result ≡ by_first otherwise first }
{
    match first {
        Some(key) => CallerPlace::Of(key),
        None => otherwise,
    }
}

// What of the room is taken, as a further client sees it.
#[derive(Clone, Copy)]
struct Crowd {
    is_at_bound: bool,
    is_full: bool,
    is_below_share: bool,
    gives_way: bool,
}

#[tactic(auto, unfolding(crate::specs::Places::is_at_bound, crate::specs::Places::is_full, crate::specs::Places::is_below_share, crate::specs::Places::gives_way))]
fn crowd_of(callers: &[Received], waiting: &[u64], bind: u64, room: CallerRoom) -> Crowd
    ensures bound { result.is_at_bound ≡ is_at_bound room callers.now bind }
    ensures full { result.is_full ≡ is_full room callers.now }
    ensures share { result.is_below_share ≡ is_below_share room callers.now bind }
    ensures way { result.gives_way ≡ gives_way room callers.now waiting.now bind }
{
    let own = callers.iter().filter(|one| one.bind == bind).count();
    let is_below_share = own < room.share;
    Crowd {
        is_at_bound: own >= room.of_a_job,
        is_full: callers.len() >= room.in_all,
        is_below_share,
        gives_way: !is_below_share && do_others_wait(waiting, bind),
    }
}

fn do_others_wait(waiting: &[u64], bind: u64) -> bool
    ensures { result ≡ others_wait waiting.now bind }
{
    waiting.iter().filter(|one| **one != bind).count() > 0
}

fn first_old(callers: &[Received], bind: u64, of_any: bool, up: u64) -> Option<usize>
    ensures { IsFirstOld (is_rival of_any bind) callers.now up result }
{
    let mut first: Option<Received> = None;
    for one in callers {
        if of_any || one.bind == bind {
            first = Some(earlier(first, *one));
        }
    }
    match first {
        Some(one) if up.saturating_sub(one.came) >= OLD => Some(one.key),
        _ => None,
    }
}

fn earlier(first: Option<Received>, one: Received) -> Received
    ensures either { MatchOption first (result ≡ one)
        (λ best. (result ≡ best) ⊎ (result ≡ one)) }
    ensures not_after { result.came ≤ one.came }
    ensures not_after_first { IfSome first (λ best. result.came ≤ best.came) }
{
    match first {
        Some(best) if best.came <= one.came => best,
        _ => one,
    }
}

/// How many jobs these are, by their binds, each of which may be there more than once.
#[tactic(auto, using(crate::proofs::Jobs::no_job))]
pub fn jobs_among(binds: &[u64]) -> usize
    ensures { result ≡ how_many_jobs binds.now }
{
    let mut jobs = 0usize;
    for place in 0..binds.len() {
        let (_, others) = binds.split_at(place + 1);
        if !others.contains(&binds[place]) {
            jobs += 1;
        }
    }
    jobs
}

/// How many places each of `jobs` jobs can have, one at least.
pub fn share_of(in_all: usize, jobs: usize) -> usize
    ensures { result ≡ share_by in_all jobs }
{
    (in_all / jobs.max(1)).max(1)
}
