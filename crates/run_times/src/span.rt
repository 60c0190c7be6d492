//! A span of time.

use crate::writer::Piece;
use crate::writer::Piece::{Number, Text};

/// The units of a span, in milliseconds: from which length on one is the greatest, the unit, its name, the next unit, and its name.
const UNITS: [(u64, u64, &str, u64, &str); 5] = [
    (172_800_000, 86_400_000, " days ", 3_600_000, " h"),
    (86_400_000, 86_400_000, " day ", 3_600_000, " h"),
    (3_600_000, 3_600_000, " h ", 60_000, " min"),
    (60_000, 60_000, " min ", 1000, " s"),
    (0, 1000, ".", 100, " s"),
];

/// The pieces of the span's text.
pub(crate) fn span_pieces(milliseconds: u64, has_tenths: bool) -> [Piece<'static>; 4] {
    let least_of_all = if has_tenths { 0 } else { 60_000 };
    for of in UNITS.iter() {
        let (least, great, name, small, last) = *of;
        if milliseconds >= least.max(least_of_all) {
            return [
                Number(milliseconds / great.max(1)),
                Text(name),
                Number(milliseconds % great.max(1) / small.max(1)),
                Text(last),
            ];
        }
    }
    [Text(""), Text(""), Number(milliseconds / 1000), Text(" s")]
}
