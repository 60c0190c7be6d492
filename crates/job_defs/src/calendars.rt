//! `StartCalendarInterval`: an entry, or an array of entries.

ghost use Rattle.std.specs.Prelude.{◌≡◌};
ghost use Rattle.serde_json.specs.View.{view, items_view};
ghost use Rattle.json_kinds.specs.DefFaults.{Gives};
ghost use Rattle.json_kinds.specs.JsonKinds.{each_item};
ghost use Rattle.job_defs.specs.Calendars.{part, entry_at, calendar_key};

use crate::limits::{
    DAY_LEAST, DAY_MOST, HOUR_LEAST, HOUR_MOST, LIST_LIMIT, MINUTE_LEAST, MINUTE_MOST, MONTH_LEAST,
    MONTH_MOST, WEEKDAY_LEAST, WEEKDAY_MOST,
};
use history_model::{Entry, KeyName, Reason};
use json_kinds::DefFault;
use json_kinds::kinds::{integer_of, members_or_one_of, object_of};
use json_kinds::names::{DAY, HOUR, MINUTE, MONTH, WEEKDAY, key_name};
use serde_json::Value;
use std::alloc::Global;

#[tactic(auto, using(json_kinds::proofs::CountLemmas::items_count), unfolding(crate::specs::Calendars::calendar_key, crate::specs::Calendars::calendar_at))]
pub(crate) fn calendar_key_of(alloc: Global, def: &Value) -> Result<Vec<Entry>, DefFault>
    ensures { Gives (λ calendar. calendar.items) result (calendar_key (view def.now)) }
{
    let Some(found) = def.get(key_name(KeyName::StartCalendarInterval)) else {
        return Ok(Vec::new(alloc));
    };
    let entries = members_or_one_of(found);
    if entries.len() > LIST_LIMIT {
        return Err(DefFault::Bad {
            reason: Reason::TooLong,
            key: KeyName::StartCalendarInterval,
        });
    }
    each_entry(alloc, entries)
}

fn each_entry(alloc: Global, items: &[Value]) -> Result<Vec<Entry>, DefFault>
    ensures { Gives (λ calendar. calendar.items) result
        (each_item entry_at (items_view items.now)) }
{
    let mut calendar = Vec::new(alloc);
    for item in items {
        let entry = given!(entry_of(item));
        if calendar.push(entry).is_err() {
            return Err(DefFault::NoMemory);
        }
    }
    Ok(calendar)
}

#[tactic(auto, unfolding(crate::specs::Calendars::entry_at))]
fn entry_of(found: &Value) -> Result<Entry, DefFault>
    ensures { Gives (λ entry. entry) result (entry_at (view found.now)) }
{
    given!(object_of(found, KeyName::StartCalendarInterval));
    let day = given!(part_of(found, DAY, DAY_LEAST, DAY_MOST));
    let hour = given!(part_of(found, HOUR, HOUR_LEAST, HOUR_MOST));
    let minute = given!(part_of(found, MINUTE, MINUTE_LEAST, MINUTE_MOST));
    let month = given!(part_of(found, MONTH, MONTH_LEAST, MONTH_MOST));
    let weekday = given!(part_of(found, WEEKDAY, WEEKDAY_LEAST, WEEKDAY_MOST));
    Ok(Entry {
        minute,
        hour,
        day,
        weekday,
        month,
    })
}

#[tactic(auto, unfolding(crate::specs::Calendars::part))]
fn part_of(entry: &Value, name: &str, low: u8, high: u8) -> Result<Option<u8>, DefFault>
    ensures { Gives (λ n. n) result (part low high name.now (view entry.now)) }
{
    match entry.get(name) {
        Some(found) => {
            let n = integer_of(
                found,
                KeyName::StartCalendarInterval,
                u32::from(low),
                u32::from(high),
            )?;
            Ok(Some(n as u8))
        }
        None => Ok(None),
    }
}
