//! The names in a file that are for a variant, each written here once.

ghost use Rattle.std.specs.Prelude.{◌≡◌};
ghost use Rattle.status_file.specs.Tokens.{demand_text, disabled_text, order_text};
ghost use Rattle.history_model.specs.Texts.{state_text};

use crate::status::DisabledBy;
use history_model::{Act, DemandKind, JobState};

/// What a job is doing, by the name that `print` uses.
pub fn state_name(state: JobState) -> &'static str
    ensures { result.now ≡ state_text state }
{
    match state {
        JobState::Removing => "removing",
        JobState::Spawning => "spawning",
        JobState::Stopping => "stopping",
        JobState::Running => "running",
        JobState::Idle => "idle",
    }
}

/// The kinds of events that make a start request.
pub(crate) const DEMANDS: [DemandKind; 6] = [
    DemandKind::Load,
    DemandKind::Start,
    DemandKind::Kickstart,
    DemandKind::Interval,
    DemandKind::Calendar,
    DemandKind::Path,
];

/// The name of an event that made a start request.
pub(crate) fn demand_name(demand: DemandKind) -> &'static str
    ensures { result.now ≡ demand_text demand }
{
    match demand {
        DemandKind::Load => "load",
        DemandKind::Start => "start",
        DemandKind::Kickstart => "kickstart",
        DemandKind::Interval => "interval",
        DemandKind::Calendar => "calendar",
        DemandKind::Path => "path",
    }
}

/// The name of an order.
pub(crate) fn order_name(order: Act) -> &'static str
    ensures { result.now ≡ order_text order }
{
    match order {
        Act::Spawn { .. } => "spawn",
        Act::Term { .. } => "term",
        Act::Kill { .. } => "kill",
        Act::Close { .. } => "close",
        Act::Gone => "gone",
    }
}

/// The name of what disables a label.
pub(crate) fn disabled_name(by: DisabledBy) -> &'static str
    ensures { result.now ≡ disabled_text by }
{
    match by {
        DisabledBy::Definition => "definition",
        DisabledBy::Override => "override",
    }
}
