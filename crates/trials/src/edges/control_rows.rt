//! What is expected of the control socket in each pass, where its clients are many, greedy or still.

use crate::cases::Case;
use crate::edges::control_stage::Step;
use crate::edges::control_stage::Step::*;

/// The first line of each client is answered before the second of any, and the 17th of a client in the next pass.
const A_CLIENT_HAS_16_LINES_A_ROUND: &[Step] = &[
    Connect(2),
    Rounds(1),
    SendsTimes(0, "a\n", 17),
    Sends(1, "b\n"),
    Busy(true),
    Asked("a\nb\na\na\na\na\na\na\na\na\na\na\na\na\na\na\na\n"),
    Busy(false),
    Asked("a\n"),
    SendsTimes(0, "a\n", 16),
    Rounds(1),
    Asked("a\na\na\na\na\na\na\na\na\na\na\na\na\na\na\na\n"),
    Busy(false),
    Asked(""),
];

/// A pass in which there is time for two lines ends with the second. The next one begins with the next client, also where the time ended among
/// further lines.
const A_ROUND_ENDS_WITH_ITS_TIME: &[Step] = &[
    Connect(3),
    Rounds(1),
    Time(2),
    Sends(0, "a\na\na\n"),
    Sends(1, "b\nb\n"),
    Sends(2, "c\n"),
    Busy(true),
    Asked("a\nb\n"),
    Receives(2, ""),
    Busy(true),
    Asked("c\na\n"),
    Busy(true),
    Asked("b\na\n"),
    Busy(false),
    Time(3),
    Sends(0, "a\na\na\na\n"),
    Sends(1, "b\nb\nb\n"),
    Busy(true),
    Asked("b\na\nb\n"),
    Busy(true),
    Asked("a\nb\na\n"),
    Busy(false),
    Asked("a\n"),
];

/// A pass answers one line also where the limit never has time, and each client has its turn.
const A_ROUND_WITHOUT_TIME_ANSWERS_A_LINE: &[Step] = &[
    Connect(3),
    Rounds(1),
    Time(0),
    OthersSend(9, "a\nb\n"),
    Busy(true),
    Asked("a\n"),
    Busy(true),
    Asked("a\n"),
    Busy(true),
    Asked("a\n"),
    Rounds(3),
    Asked("b\nb\nb\n"),
    Busy(false),
];

/// At 64 clients the one that has been silent for longest gives way to a new one, also with half a line. A last line says so to it.
const THE_LONGEST_SILENT_CLIENT_GIVES_WAY: &[Step] = &[
    Connect(64),
    Rounds(1),
    Sends(7, "ha"),
    Rounds(1),
    Receives(7, ""),
    OthersSend(7, "a\n"),
    Rounds(1),
    Connect(1),
    Rounds(1),
    ReceivesLast(7, "{\"code\":2,\"text\":\"too many clients\\n\"}\n"),
    Sends(64, "b\n"),
    Rounds(1),
    Receives(64, "{\"code\":0,\"text\":\"b\"}\n"),
    Receives(6, "{\"code\":0,\"text\":\"a\"}\n"),
    Sends(6, "c\n"),
    Rounds(1),
    Receives(6, "{\"code\":0,\"text\":\"c\"}\n"),
];

/// A client that sent something since the last pass is not silent, and keeps its place.
const A_CLIENT_THAT_SENT_ITS_LINE_LATE_KEEPS_ITS_PLACE: &[Step] = &[
    Connect(64),
    Rounds(2),
    Sends(0, "a\n"),
    Connect(1),
    Accepts,
    ReceivesLast(1, "{\"code\":2,\"text\":\"too many clients\\n\"}\n"),
    Rounds(1),
    Receives(0, "{\"code\":0,\"text\":\"a\"}\n"),
    Receives(64, ""),
];

/// Where all sent something since the last pass, a new one waits. A pass later the first of them is silent.
const A_NEW_CLIENT_WAITS_WHERE_ALL_SENT_SOMETHING: &[Step] = &[
    Connect(64),
    Rounds(2),
    OthersSend(64, "a\n"),
    Connect(1),
    Accepts,
    Receives(64, ""),
    Rounds(1),
    Receives(0, "{\"code\":0,\"text\":\"a\"}\n"),
    Receives(63, "{\"code\":0,\"text\":\"a\"}\n"),
    Receives(64, ""),
    Rounds(1),
    ReceivesLast(0, "{\"code\":2,\"text\":\"too many clients\\n\"}\n"),
    Sends(64, "b\n"),
    Rounds(1),
    Receives(64, "{\"code\":0,\"text\":\"b\"}\n"),
];

/// Of 65 that come at once the last waits until a pass looked at the others. The first of them is then the longest silent.
const CLIENTS_THAT_COME_AT_ONCE_GET_IN: &[Step] = &[
    Connect(65),
    Rounds(1),
    Receives(0, ""),
    Receives(64, ""),
    Sends(64, "b\n"),
    Rounds(1),
    ReceivesLast(0, "{\"code\":2,\"text\":\"too many clients\\n\"}\n"),
    Rounds(1),
    Receives(64, "{\"code\":0,\"text\":\"b\"}\n"),
    Receives(1, ""),
];

/// In the pass in which a client leaves, another takes its place. A further one waits, and is turned away if all 64 ask on for a second.
const A_CLIENT_BEHIND_64_IS_TURNED_AWAY: &[Step] = &[
    Connect(64),
    Rounds(1),
    OthersSend(5, "a\n"),
    Leaves(5),
    Connect(2),
    Rounds(1),
    Receives(64, ""),
    Receives(65, ""),
    OthersSend(65, "b\n"),
    Later(999),
    Rounds(1),
    Receives(65, ""),
    OthersSend(65, "c\n"),
    Later(1),
    Rounds(1),
    ReceivesLast(65, "{\"code\":2,\"text\":\"too many clients\\n\"}\n"),
    Receives(
        64,
        "{\"code\":0,\"text\":\"b\"}\n{\"code\":0,\"text\":\"c\"}\n",
    ),
    Receives(
        63,
        "{\"code\":0,\"text\":\"a\"}\n{\"code\":0,\"text\":\"b\"}\n{\"code\":0,\"text\":\"c\"}\n",
    ),
];

/// Where no client is silent, one that takes nothing of its replies gives way after a second, and not before.
const A_CLIENT_THAT_TAKES_NOTHING_GIVES_WAY: &[Step] = &[
    Connect(64),
    Rounds(1),
    SendsTimes(9, "long\n", 60),
    Rounds(100),
    Quiet(false),
    Later(999),
    OthersSend(9, "a\n"),
    Connect(1),
    Rounds(1),
    Receives(64, ""),
    Later(1),
    OthersSend(9, "a\n"),
    Rounds(1),
    IsDisconnected(9),
    Quiet(true),
    Sends(64, "b\n"),
    Rounds(1),
    Receives(
        64,
        "{\"code\":0,\"text\":\"a\"}\n{\"code\":0,\"text\":\"b\"}\n",
    ),
];

/// Which client may give way is known only once a pass looked at every client. Until then a new one waits.
const A_NEW_CLIENT_WAITS_FOR_A_WHOLE_ROUND: &[Step] = &[
    Connect(64),
    Rounds(1),
    OthersSend(64, "a\n"),
    Connect(1),
    Time(40),
    Busy(true),
    Receives(64, ""),
    Sends(64, "b\n"),
    OthersSend(64, "c\n"),
    Time(1_000),
    Later(1_000),
    Rounds(1),
    ReceivesLast(64, "{\"code\":2,\"text\":\"too many clients\\n\"}\n"),
    Receives(
        0,
        "{\"code\":0,\"text\":\"a\"}\n{\"code\":0,\"text\":\"c\"}\n",
    ),
];

/// What is not yet sent to a client that leaves goes with it, and who waits for its client has nothing to do.
const A_CLIENT_THAT_NEVER_READ_MAY_LEAVE: &[Step] = &[
    Connect(2),
    Rounds(1),
    SendsTimes(0, "long\n", 60),
    SendsTimes(1, "some\n", 23),
    HalfCloses(1),
    Rounds(100),
    Quiet(false),
    Busy(false),
    Leaves(0),
    Leaves(1),
    Rounds(1),
    Quiet(true),
];

/// At most 65,536 bytes of a client are read in a pass, so that the next one has its turn.
const A_CLIENT_WITH_MUCH_TO_SAY_HOLDS_UP_NOBODY: &[Step] = &[
    Connect(2),
    Rounds(1),
    SendsBlocks(0, 20),
    Sends(1, "a\n"),
    Busy(true),
    Receives(1, "{\"code\":0,\"text\":\"a\"}\n"),
    Busy(false),
];

/// Half a line asks nothing. Where a client left, its last request is asked all the same.
const CLIENTS_WAKE_THE_POLL: &[Step] = &[
    Woken(false),
    Connect(1),
    Woken(true),
    Rounds(1),
    Rounds(1),
    Woken(true),
    Woken(false),
    Sends(0, "li"),
    Woken(true),
    Rounds(1),
    Asked(""),
    Sends(0, "st\n"),
    Woken(true),
    Leaves(0),
    Rounds(1),
    Asked("list\n"),
    Quiet(true),
];

/// Their names are those of their sockets.
pub const CASES: &[Case] = &[
    Case::Control("lines", A_CLIENT_HAS_16_LINES_A_ROUND),
    Case::Control("time", A_ROUND_ENDS_WITH_ITS_TIME),
    Case::Control("least", A_ROUND_WITHOUT_TIME_ANSWERS_A_LINE),
    Case::Control("silent", THE_LONGEST_SILENT_CLIENT_GIVES_WAY),
    Case::Control("late", A_CLIENT_THAT_SENT_ITS_LINE_LATE_KEEPS_ITS_PLACE),
    Case::Control("all_late", A_NEW_CLIENT_WAITS_WHERE_ALL_SENT_SOMETHING),
    Case::Control("burst", CLIENTS_THAT_COME_AT_ONCE_GET_IN),
    Case::Control("many", A_CLIENT_BEHIND_64_IS_TURNED_AWAY),
    Case::Control("stuck", A_CLIENT_THAT_TAKES_NOTHING_GIVES_WAY),
    Case::Control("waits", A_NEW_CLIENT_WAITS_FOR_A_WHOLE_ROUND),
    Case::Control("unread", A_CLIENT_THAT_NEVER_READ_MAY_LEAVE),
    Case::Control("turns", A_CLIENT_WITH_MUCH_TO_SAY_HOLDS_UP_NOBODY),
    Case::Control("wakes", CLIENTS_WAKE_THE_POLL),
];
