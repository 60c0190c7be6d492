//! What the values of a definition are to be, as texts: for each key, and for what is within its value. Which values fit, only the reader says;
//! its limits fill the texts.

use crate::check::faults::FaultAt;
use crate::check::way::{Step, value_at};
use history_model::{KeyName, Reason};
use job_defs::limits::{
    ARGUMENTS_LIMIT, DAY_LEAST, DAY_MOST, HOUR_LEAST, HOUR_MOST, INTERVAL_LEAST, INTERVAL_MOST,
    LIST_LIMIT, MINUTE_LEAST, MINUTE_MOST, MONTH_LEAST, MONTH_MOST, PACE_LEAST, PACE_MOST,
    PORT_LEAST, PORT_MOST, SOCKET_PATH_LIMIT, SOCKETS_LIMIT, VARIABLE_NAME_LIMIT, VARIABLES_LIMIT,
    WEEKDAY_LEAST, WEEKDAY_MOST, WORD_LIMIT,
};
use json_kinds::key_name;
use json_kinds::keys::PATH_LIMIT;
use json_kinds::kinds::members_or_one_of;
use json_kinds::names::{
    DAY, FAMILY, HOUR, MINUTE, MONTH, NODE_NAME, PASSIVE, PATH_NAME, PATH_STATE, PROTOCOL,
    SECURE_KEY, SERVICE_NAME, SOCKET_TYPE, WEEKDAY,
};
use run_times::Piece::Number;
use run_times::TextWriter;
use serde_json::Value;

/// A key of a socket, and what its value is to be.
pub(crate) struct Part {
    pub(crate) name: &'static str,
    form: &'static str,
}

/// The keys of a socket in the order in which the reader looks at them.
pub(crate) static SOCKET: &[Part] = &[
    Part {
        name: SECURE_KEY,
        form: "no such key: sockets with a key of launchd's own are not made here",
    },
    Part {
        name: SOCKET_TYPE,
        form: "\"stream\"",
    },
    Part {
        name: PASSIVE,
        form: "true",
    },
    Part {
        name: FAMILY,
        form: "\"IPv4\" or \"Unix\"",
    },
    Part {
        name: PROTOCOL,
        form: "\"TCP\"",
    },
    Part {
        name: PATH_NAME,
        form: "a string of 1 to $ bytes, without NUL",
    },
    Part {
        name: NODE_NAME,
        form: "four numbers of 0 to $ joined by dots, or \"localhost\"",
    },
    Part {
        name: SERVICE_NAME,
        form: "$ to $, or a string of such a number: service names are not looked up",
    },
];

/// Adds what the value at the fault of the definition is to be.
pub(crate) fn put_wanted(writer: &mut TextWriter, def: &Value, fault: &FaultAt) {
    let name = last_name(fault.way.as_slice());
    match (fault.key, fault.way.len()) {
        (KeyName::StartCalendarInterval, 1) if fault.reason == Reason::TooLong => writer.fill(
            "an object of Minute, Hour, Day, Weekday and Month, or an array of at most $",
            &[Number(LIST_LIMIT as u64)],
        ),
        (KeyName::StartCalendarInterval, _) => put_of_entry(writer, def, fault, name),
        (_, 0 | 1) => put_of_key(writer, def, fault),
        (KeyName::ProgramArguments, _) => put_of_word(writer, def, fault),
        (KeyName::WatchPaths | KeyName::QueueDirectories, _) => put_path(writer),
        (KeyName::EnvironmentVariables, _) => writer.fill(
            "a name of 1 to $ bytes without =, and a string of at most $ bytes, both without NUL",
            &[
                Number(VARIABLE_NAME_LIMIT as u64),
                Number(WORD_LIMIT as u64),
            ],
        ),
        (KeyName::KeepAlive, steps) => put_of_condition(writer, name, steps),
        (KeyName::Sockets, steps) => put_of_socket(
            writer,
            if steps > 2 { name } else { "" },
            fault.reason,
        ),
        (KeyName::InetdCompatibility, _) if has_sockets(def) => writer.put(
            "false: each connection has a run of its own",
        ),
        _ => writer.put("true or false"),
    }
}

// The key to which the last step goes; empty, if it goes to a member.
fn last_name(way: &[Step]) -> &str {
    match way.last() {
        Some(Step::Key(name)) => name.as_str(),
        _ => "",
    }
}

// Adds what the value of a key is to be as a whole.
fn put_of_key(writer: &mut TextWriter, def: &Value, fault: &FaultAt) {
    match fault.key {
        KeyName::RunAtLoad | KeyName::LaunchOnlyOnce | KeyName::DisabledKey | KeyName::OnDemand =>
            writer.put("true or false"),
        KeyName::StartInterval => put_range(
            writer,
            def,
            fault,
            u64::from(INTERVAL_LEAST),
            u64::from(INTERVAL_MOST),
        ),
        KeyName::ThrottleInterval | KeyName::ExitTimeOut => put_range(
            writer,
            def,
            fault,
            u64::from(PACE_LEAST),
            u64::from(PACE_MOST),
        ),
        KeyName::Program => put_program(writer),
        KeyName::ProgramArguments => writer.fill(
            "an array of at most $ strings",
            &[Number(ARGUMENTS_LIMIT as u64)],
        ),
        KeyName::WatchPaths | KeyName::QueueDirectories => writer.fill(
            "an array of at most $ paths, those of WatchPaths, QueueDirectories and PathState together",
            &[Number(LIST_LIMIT as u64)],
        ),
        KeyName::EnvironmentVariables => writer.fill(
            "an object of at most $ strings",
            &[Number(VARIABLES_LIMIT as u64)],
        ),
        KeyName::WorkingDirectory
        | KeyName::StandardInPath
        | KeyName::StandardOutPath
        | KeyName::StandardErrorPath => put_path(writer),
        KeyName::Label => writer.put(
            "a string of 1 to 255 bytes, without / and control characters",
        ),
        KeyName::KeepAlive => writer.fill(
            "true, false, or an object of SuccessfulExit, Crashed (true or false) and PathState (at most $ paths, each true or false)",
            &[Number(LIST_LIMIT as u64)],
        ),
        KeyName::Sockets => writer.fill(
            "an object of at most $ sockets, each an object, or of arrays of such",
            &[Number(SOCKETS_LIMIT as u64)],
        ),
        KeyName::InetdCompatibility => writer.put("{\"Wait\": false}"),
        KeyName::UserName | KeyName::GroupName | KeyName::RootDirectory => writer.put(
            "no such key",
        ),
        _ => writer.put("another value"),
    }
}

// Adds a range of whole numbers; that they are, if the value is none.
fn put_range(writer: &mut TextWriter, def: &Value, fault: &FaultAt, least: u64, most: u64) {
    match value_at(def, fault.way.as_slice()) {
        Some(value) if value.as_i64().is_none() => writer.put("a whole number, "),
        _ => {}
    }
    writer.fill("$ to $", &[Number(least), Number(most)]);
}

fn put_program(writer: &mut TextWriter) {
    writer.fill(
        "a string of 1 to $ bytes, without NUL",
        &[Number(WORD_LIMIT as u64)],
    );
}

fn put_path(writer: &mut TextWriter) {
    writer.fill(
        "a string of 1 to $ bytes, without NUL",
        &[Number(PATH_LIMIT as u64)],
    );
}

// Adds what a member of `ProgramArguments` is to be. Without `Program` the first one is the program.
fn put_of_word(writer: &mut TextWriter, def: &Value, fault: &FaultAt) {
    match fault.way.last() {
        Some(Step::Member(0)) if def.get(key_name(KeyName::Program)).is_none() => put_program(
            writer,
        ),
        _ => writer.fill(
            "a string of at most $ bytes, without NUL",
            &[Number(WORD_LIMIT as u64)],
        ),
    }
}

// Adds what a key of a calendar's entry is to be, or the entry itself.
fn put_of_entry(writer: &mut TextWriter, def: &Value, fault: &FaultAt, name: &str) {
    let parts = [
        (DAY, DAY_LEAST, DAY_MOST),
        (HOUR, HOUR_LEAST, HOUR_MOST),
        (MINUTE, MINUTE_LEAST, MINUTE_MOST),
        (MONTH, MONTH_LEAST, MONTH_MOST),
        (WEEKDAY, WEEKDAY_LEAST, WEEKDAY_MOST),
    ];
    for (part, least, most) in parts.iter() {
        if *part == name {
            return put_range(writer, def, fault, u64::from(*least), u64::from(*most));
        }
    }
    writer.put("an object of Minute, Hour, Day, Weekday and Month");
}

// Adds what a key of `KeepAlive` is to be, or a path of its `PathState`.
fn put_of_condition(writer: &mut TextWriter, name: &str, steps: usize) {
    if steps > 2 {
        writer.fill(
            "a path of 1 to $ bytes without NUL, and true or false",
            &[Number(PATH_LIMIT as u64)],
        );
    } else if name == PATH_STATE {
        writer.fill(
            "an object of at most $ paths of 1 to $ bytes, each true or false",
            &[Number(LIST_LIMIT as u64), Number(PATH_LIMIT as u64)],
        );
    } else {
        writer.put("true or false");
    }
}

// Adds what a key of a socket is to be, or the socket itself, if there is no name.
fn put_of_socket(writer: &mut TextWriter, name: &str, reason: Reason) {
    let limits = if name == PATH_NAME {
        [Number(SOCKET_PATH_LIMIT as u64), Number(0)]
    } else if name == SERVICE_NAME {
        [Number(u64::from(PORT_LEAST)), Number(u64::from(PORT_MOST))]
    } else {
        [Number(u64::from(u8::MAX)), Number(0)]
    };
    for part in SOCKET {
        if part.name == name {
            return writer.fill(part.form, &limits);
        }
    }
    writer.put(match reason {
        Reason::Missing => "one with SockPathName or SockServiceName",
        _ => "an object",
    });
}

// Whether the definition has sockets, or something else in their place.
fn has_sockets(def: &Value) -> bool {
    match def.get(key_name(KeyName::Sockets)) {
        Some(found) => !found.is_object() || sockets_in(found) > 0,
        None => false,
    }
}

/// How many sockets the value of `Sockets` has.
pub(crate) fn sockets_in(value: &Value) -> usize {
    let mut count: usize = 0;
    if let Value::Object(members) = value {
        for (_, found) in members.iter() {
            count = count.saturating_add(members_or_one_of(found).len());
        }
    }
    count
}
