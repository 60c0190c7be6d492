//! What each of the five fields may hold.

/// What a field may hold: numbers from `low` to `high`, of which `count` differ in what they mean, the names of its first values, and how a
/// fault names them.
pub(crate) struct Kind {
    pub(crate) name: &'static str,
    pub(crate) low: u8,
    pub(crate) high: u8,
    pub(crate) count: u8,
    pub(crate) names: &'static [&'static str],
    pub(crate) wanted: &'static str,
}

const MONTHS: &[&str] = &[
    "jan", "feb", "mar", "apr", "may", "jun", "jul", "aug", "sep", "oct", "nov", "dec",
];

const WEEKDAYS: &[&str] = &["sun", "mon", "tue", "wed", "thu", "fri", "sat"];

pub(crate) static MINUTE: Kind = Kind {
    name: "minute",
    low: 0,
    high: 59,
    count: 60,
    names: &[],
    wanted: "0 to 59",
};

pub(crate) static HOUR: Kind = Kind {
    name: "hour",
    low: 0,
    high: 23,
    count: 24,
    names: &[],
    wanted: "0 to 23",
};

pub(crate) static DAY: Kind = Kind {
    name: "day",
    low: 1,
    high: 31,
    count: 31,
    names: &[],
    wanted: "1 to 31",
};

pub(crate) static MONTH: Kind = Kind {
    name: "month",
    low: 1,
    high: 12,
    count: 12,
    names: MONTHS,
    wanted: "1 to 12 or jan to dec",
};

/// Both 0 and 7 are Sunday.
pub(crate) static WEEKDAY: Kind = Kind {
    name: "weekday",
    low: 0,
    high: 7,
    count: 7,
    names: WEEKDAYS,
    wanted: "0 to 7 or sun to sat",
};

/// The value that the text is, by its number or by its name in any case.
pub(crate) fn value_of(kind: &Kind, text: &str) -> Option<u8> {
    let mut value = kind.low;
    for name in kind.names {
        if name.eq_ignore_ascii_case(text) {
            return Some(value);
        }
        value = value.saturating_add(1);
    }
    let number = number_of(text)?;
    if kind.low <= number && number <= kind.high {
        Some(number)
    } else {
        None
    }
}

/// The decimal number that the text is, without a sign, if it is below 256.
pub(crate) fn number_of(text: &str) -> Option<u8> {
    if text.starts_with('+') {
        return None;
    }
    text.parse::<u8>().ok()
}
