//! What the launcher needs besides its files: the system with its clock, and the control socket.

use crate::plan::Plan;
use crate::reporting::{Level, refuse, tell};
use crate::standing::check_standing;
use child_edge::{ClockEdge, EdgeFault, OsEdge, System};
use control_socket::ControlSocket;
use exit_status::{CLOCK_OR_WAITING, CONTROL_SOCKET, NO_MEMORY};
use history_model::Reading;
use std::alloc::{AllocError, Global};

fn spool_and_runtime<R: System>(
    rt: &R,
    alloc: Global,
    spool: &str,
) -> Result<(R, String), AllocError> {
    let own = rt.clone()?;
    let spool = String::from_str(alloc, spool)?;
    Ok((own, spool))
}

/// The edge of the system, and its first reading. Status 9 if this process can't serve as it was started, or if the clock
/// can't be read.
pub fn system_of<R: System>(
    rt: &R,
    alloc: Global,
    plan: &Plan,
) -> Result<(OsEdge<R>, Reading), u8> {
    if let Err(status) = check_standing(rt, alloc, plan) {
        return Err(status);
    }
    let Ok((own, folder)) = spool_and_runtime(rt, alloc, plan.places.spool.as_str()) else {
        return Err(NO_MEMORY);
    };
    match OsEdge::new(own, alloc, folder) {
        Ok(mut edge) => match first_reading(plan, &mut edge) {
            Ok(reading) => Ok((edge, reading)),
            Err(_) => {
                drop(edge);
                Err(no_clock(rt, plan.requested.level))
            }
        },
        Err(_) => Err(no_clock(rt, plan.requested.level)),
    }
}

fn first_reading<R: System>(plan: &Plan, edge: &mut OsEdge<R>) -> Result<Reading, EdgeFault> {
    if plan.requested.logs_runs {
        edge.log_runs();
    }
    edge.set_limit(plan.standing.descriptors);
    edge.use_waker(plan.standing.user);
    edge.read()
}

/// Reports that the first clock reading is refused.
pub fn no_clock(rt: &impl Eprint, level: Level) -> u8 {
    tell(rt, level, "clock", "it can't be read, or is past its limit");
    CLOCK_OR_WAITING
}

/// The control socket at its path. Status 6 if somebody listens there, another file is there, or the system refuses.
pub fn bound<R: System>(rt: &R, alloc: Global, plan: &Plan) -> Result<ControlSocket, u8> {
    let path = plan.places.socket.as_str();
    match ControlSocket::open(rt, alloc, path) {
        Ok(control) => Ok(control),
        Err(error) => Err(refuse(
            rt,
            plan.requested.level,
            CONTROL_SOCKET,
            "control socket",
            path,
            &error,
        )),
    }
}
