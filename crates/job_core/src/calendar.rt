//! The calendar of a job's definition. The event of a clock reading says whether the calendar fires, so its entries decide
//! nothing here. They are kept because the facts of a past name its whole definition.

ghost use Rattle.std.specs.Prelude.{◌≡◌, IfOk};

use history_model::Entry;
use std::alloc::{AllocError, Global};
use std::marker::Model;

/// The entries of a calendar: to a contract, their list.
#[derive(Drop)]
pub struct Calendar {
    entries: Vec<Entry>,
}

impl Model for Calendar {
    ghost use Rattle.std.specs.Prelude.{List};
    ghost use Rattle.history_model.specs.declared.Entry.{Entry};

    ghost Value = { List Entry };

    ghost view = { λ c. c.entries.items };
}

impl Calendar {
    /// The same entries.
    pub fn new(alloc: Global, entries: &[Entry]) -> Result<Calendar, AllocError>
        ensures { IfOk result (λ c. c ≡ entries.now) }
    {
        let mut copied = Vec::new(alloc);
        copied.extend_from_slice(entries)?;
        Ok(Calendar { entries: copied })
    }
}
