//! The replay of a journal.

use crate::little_memory::trial::Answer;
use replay::{ReplayFault, replay};
use std::alloc::Global;

/// A job that is started at once, and is asked for by each question.
const JOURNAL: &[u8] = b"{\"up\":0,\"wall\":1700000000,\"zone\":\"UTC0\"}\n\
{\"ev\":\"load\",\"def\":\"{\\\"Label\\\":\\\"a\\\",\\\"ProgramArguments\\\":[\\\"/bin/a\\\"],\\\"RunAtLoad\\\":true,\\\"StartCalendarInterval\\\":{\\\"Minute\\\":15}}\"}\n\
{\"ev\":\"spawned\",\"job\":\"a\",\"run\":1,\"pid\":812}\n\
{\"ev\":\"list\"}\n\
{\"ev\":\"disable\",\"job\":\"a\"}\n\
{\"ev\":\"print\",\"job\":\"a\"}\n\
{\"ev\":\"stop\",\"job\":\"b\"}\n\
{\"ev\":\"clock\",\"up\":10000,\"wall\":1700000010}\n";

/// What is written for it.
const OUTCOMES: &[u8] =
    b"{\"code\":0,\"orders\":[{\"job\":\"a\",\"order\":\"spawn\",\"run\":1}],\"text\":\"\"}\n\
{\"code\":0,\"orders\":[],\"text\":\"\"}\n\
{\"code\":0,\"orders\":[],\"text\":\"PID\\tStatus\\tLabel\\n812\\t0\\ta\\n\"}\n\
{\"code\":0,\"orders\":[],\"text\":\"\"}\n\
{\"code\":0,\"orders\":[],\"text\":\"a = {\\n\\tstate = running\\n\\tpid = 812\\n\\truns = 1\\n\\tlast exit = never\\n\\tdemand = no\\n\\tconnections = 0\\n\\tdisabled = true\\n}\\n\"}\n\
{\"code\":3,\"orders\":[],\"text\":\"no such job\\n\"}\n\
{\"code\":0,\"orders\":[],\"text\":\"\"}\n";

/// How many bytes the writer takes with no memory; more than are written.
pub const ROOM: usize = 4096;

/// Replays the journal. If that is refused, the outcome lines of the lines before are written.
pub fn replayed(alloc: Global, written: &mut Vec<u8>) -> Answer {
    let mut reader = JOURNAL;
    match replay(alloc, &mut reader, written) {
        Ok(()) => Answer::Made,
        Err(ReplayFault::NoMemory) => Answer::NoMemory,
        Err(_) => Answer::Other,
    }
}

/// Whether the bytes are all outcome lines, or if the replay was refused a front of them, each of them whole.
pub fn are_outcomes(written: &[u8], answer: Answer) -> bool {
    let is_whole = match written.last() {
        Some(byte) => *byte == b'\n',
        None => true,
    };
    match answer {
        Answer::Made => written == OUTCOMES,
        _ => is_whole && OUTCOMES.starts_with(written),
    }
}
