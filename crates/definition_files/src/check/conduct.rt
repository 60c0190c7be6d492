//! What may be wrong with a definition that loads.

use crate::check::changes::Change;
use crate::check::command::add_command;
use crate::check::entries::{add_entries, add_made_by};
use crate::check::finding::{Finding, Severity};
use crate::check::finding_list::FindingList;
use crate::check::mistakes::Mistake;
use crate::check::names::add_ignored;
use crate::check::paths::add_paths;
use crate::check::place::{WayStep, place_by};
use crate::check::twice::add_twice;
use crate::check::variables::add_variables;
use history_model::KeyName;
use job_defs::Def;
use json_kinds::key_name;
use run_times::Piece::Number;
use serde_json::Value;
use std::alloc::AllocError;

/// The findings on a definition that has these mistakes, and was read of this value: first on the ignored keys, then on what starts it, then on how.
pub(crate) fn findings_on(
    def: &Def,
    value: &Value,
    mistakes: &[Mistake],
    changes: &[Change],
    finding_list: FindingList<'_>,
) -> Result<Vec<Finding>, AllocError> {
    let mut finding_list = finding_list;
    for name in def.not_acted_on() {
        add_ignored(&mut finding_list, name.as_str());
    }
    add_twice(&mut finding_list);
    for mistake in mistakes {
        add_mistake(def, *mistake, &mut finding_list);
    }
    if def.has_sockets() {
        add_slow(&mut finding_list);
    }
    add_entries(def.calendar(), changes, &mut finding_list);
    add_command(def, &mut finding_list);
    add_paths(def, &mut finding_list);
    add_variables(value, &mut finding_list);
    finding_list.into_list()
}

// Adds what is said of a mistake: one remark, or one for each entry of the calendar that makes it.
fn add_mistake(def: &Def, mistake: Mistake, finding_list: &mut FindingList<'_>) {
    let (severity, key, form) = words_for(mistake);
    if form.is_empty() {
        return add_made_by(mistake, def.calendar(), finding_list);
    }
    let key = match mistake {
        Mistake::LostOutput if def.keep_alive() => key,
        Mistake::LostOutput if def.start_interval().is_some() => KeyName::StartInterval,
        Mistake::LostOutput => KeyName::StartCalendarInterval,
        _ => key,
    };
    let number = match mistake {
        Mistake::LongEnding => def.exit_time_out(),
        _ => def.start_interval().unwrap_or(0),
    };
    let pieces = [
        Number(u64::from(number)),
        Number(u64::from(def.throttle_interval())),
    ];
    finding_list.add(severity, key, form, &pieces);
}

// How grave a mistake is, which key makes it, and its text, in which the first number is the key's and the second the throttle. The text is empty, if each entry of the calendar that makes it has its own.
fn words_for(mistake: Mistake) -> (Severity, KeyName, &'static str) {
    match mistake {
        Mistake::NothingStarts => (
            Severity::Note,
            KeyName::Label,
            "nothing starts this job but jobctl start or kickstart",
        ),
        Mistake::SeveralConditions => (
            Severity::Warning,
            KeyName::KeepAlive,
            "KeepAlive: one of its conditions suffices to keep the job running; they need not hold together",
        ),
        Mistake::AnyFailure => (
            Severity::Note,
            KeyName::KeepAlive,
            "KeepAlive: one of its conditions suffices, so the job is started again after any failure; Crashed adds nothing to \"SuccessfulExit\": false",
        ),
        Mistake::ShortInterval => (
            Severity::Warning,
            KeyName::StartInterval,
            "StartInterval is $, less than ThrottleInterval: starts are $ s apart at least",
        ),
        Mistake::LeftOut => (
            Severity::Note,
            KeyName::DisabledKey,
            "Disabled: a load leaves this job out, unless jobctl enable or load -w or -F says otherwise",
        ),
        Mistake::NeverWaited => (
            Severity::Warning,
            KeyName::KeepAlive,
            "KeepAlive is true: the job is started again whenever it exits, and never waits for StartCalendarInterval or StartInterval; leave KeepAlive out if the clock is to start it",
        ),
        Mistake::NeverQueued => (
            Severity::Warning,
            KeyName::QueueDirectories,
            "QueueDirectories: KeepAlive is true, so the job runs whatever they hold; leave KeepAlive out if files are to start it",
        ),
        Mistake::LongInterval => (
            Severity::Warning,
            KeyName::StartInterval,
            "StartInterval is $ seconds; are milliseconds meant? write whole seconds",
        ),
        Mistake::CrashAlone => (
            Severity::Note,
            KeyName::KeepAlive,
            "KeepAlive: Crashed applies to an exit by a signal; after an exit with a failing code nothing starts the job: that is \"SuccessfulExit\": false",
        ),
        Mistake::OnceKept => (
            Severity::Warning,
            KeyName::LaunchOnlyOnce,
            "LaunchOnlyOnce: the job is started once in each load, and KeepAlive starts it no more; leave one of them out",
        ),
        Mistake::NeverKilled => (
            Severity::Note,
            KeyName::ExitTimeOut,
            "ExitTimeOut is 0: a job that stays after TERM is never killed, and delays whatever waits until it exits",
        ),
        Mistake::LongEnding => (
            Severity::Note,
            KeyName::ExitTimeOut,
            "ExitTimeOut is $, more than 120: a supervisor that can't be asked for more time, as Docker, has to wait as long (JOBD_STOP_WAIT)",
        ),
        Mistake::HastyQueue => (
            Severity::Warning,
            KeyName::ThrottleInterval,
            "ThrottleInterval is 0 with QueueDirectories: until the next path check, a second at most, it restarts as fast as it exits; 1 is quick enough",
        ),
        Mistake::HastyEnd => (
            Severity::Note,
            KeyName::ThrottleInterval,
            "ThrottleInterval is 0 with KeepAlive: a program that exits at once is restarted as fast as it exits; 1 is quick enough",
        ),
        Mistake::LostOutput => (
            Severity::Note,
            KeyName::KeepAlive,
            "what the job writes is lost: neither StandardOutPath nor StandardErrorPath is set",
        ),
        Mistake::NeverMatches
        | Mistake::EachMinute
        | Mistake::EachHour
        | Mistake::ShortMonth
        | Mistake::EitherDay => (Severity::Warning, KeyName::StartCalendarInterval, ""),
    }
}

fn add_slow(finding_list: &mut FindingList<'_>) {
    let told =
        "Sockets: the default ThrottleInterval of 10 lets a client wait up to 10 s for the next start; give a smaller one, as 0 or 1";
    let throttle = [WayStep::Key(key_name(KeyName::ThrottleInterval))];
    let is_default = place_by(finding_list.text, finding_list.marks, &throttle, false).is_none();
    finding_list.add_if(is_default, KeyName::Sockets, told);
}
