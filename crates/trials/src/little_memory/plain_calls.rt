//! The calls that leave nothing if they are refused. They make a part of a job, or read or write a text as a whole (lines, arguments, a zone file),
//! or make an edge in memory. There are also the calls of a feed of lines, and of a replay, which leave what they had. With memory each makes what it
//! was to make.

ghost use Rattle.std.specs.Prelude.{◌≤◌};

use crate::little_memory::memory_hog::MemoryHog;
use crate::little_memory::trial::{Answer, Trial, tried};
use crate::little_memory::{feeding, growing, replaying};
use crate::memory_stage::header;
use crate::parts::lines::{Kind, again};
use anyhow::{Result, bail};
use calendar_due::{Zone, ZoneFault};
use child_edge::MemoryEdge;
use conditions::Conditions;
use ctl_protocol::{
    Header, LineFeed, ReadFault, event_line, header_line, outcome_line, reply_line,
};
use history_model::{Act, Event, MAX_UP, Reading, Reply, Text};
use job_core::JobCore;
use job_defs::{Def, DefFault, read_def};
use launchctl_words::{WordFault, read_daemon_words, read_words};
use socket_demand::{Exchange, Waiting};
use std::alloc::{AllocError, Global};
use std::mem;
use timer_heap::TimerHeap;

/// Which call is made.
#[derive(Clone, Copy)]
enum Call {
    Conditions,
    Waiting,
    Exchange,
    JobCore,
    Definition,
    /// A line is read, and then written so.
    Line(Kind, &'static str, &'static str),
    EventLine,
    HeaderLine,
    Heap,
    Reply,
    Outcome,
    Words,
    DaemonWords,
    Zone,
    Edge,
    /// A line is taken of a feed, or else a piece is fed.
    Feed(bool),
    Replay,
}

/// Each call by its name.
static CALLS: &[(&str, Call)] = &[
    ("Conditions::new", Call::Conditions),
    ("Waiting::new", Call::Waiting),
    ("Exchange::new", Call::Exchange),
    ("JobCore::new", Call::JobCore),
    ("read_def", Call::Definition),
    ("read_header", Call::Line(Kind::Header, HEADER, HEADER_LINE)),
    ("read_event", Call::Line(Kind::Event, LOAD, LOAD_LINE)),
    ("read_target", Call::Line(Kind::Target, TARGET, LABEL_LINE)),
    (
        "read_request",
        Call::Line(Kind::Request, REQUEST, REQUEST_LINE),
    ),
    ("event_line", Call::EventLine),
    ("header_line", Call::HeaderLine),
    ("TimerHeap::reserve", Call::Heap),
    ("reply_line", Call::Reply),
    ("outcome_line", Call::Outcome),
    ("read_words", Call::Words),
    ("read_daemon_words", Call::DaemonWords),
    ("Zone::tzif", Call::Zone),
    ("MemoryEdge::new", Call::Edge),
    ("LineFeed::feed", Call::Feed(false)),
    ("LineFeed::next_line", Call::Feed(true)),
    ("replay", Call::Replay),
];

/// A definition with two paths of each kind, two calendar entries and a socket.
const DEFINITION: &str =
    r#"{"Label":"a","Program":"/bin/x","StartCalendarInterval":[{"Minute":5},{"Hour":3}],"WatchPaths":["/w","/v"],"QueueDirectories":["/q","/r"],"KeepAlive":{"PathState":{"/f":true,"/g":false}},"Sockets":{"l":{"SockPathName":"/s"}},"inetdCompatibility":{"Wait":false}}"#;

const HEADER: &str =
    "{\"up\":5,\"wall\":1700000000,\"zone\":\"EST5EDT,M3.2.0,M11.1.0\",\"overrides\":{\"a\":true,\"b\":false}}";

/// The same, as it is written.
const HEADER_LINE: &str =
    "{\"overrides\":{\"a\":true,\"b\":false},\"up\":5,\"wall\":1700000000,\"zone\":\"EST5EDT,M3.2.0,M11.1.0\"}\n";

const LOAD: &str = "{\"ev\":\"load\",\"def\":\"{\\\"Label\\\":\\\"a\\\"}\",\"F\":true}";

/// The same, as it is written.
const LOAD_LINE: &str =
    "{\"F\":true,\"bind\":true,\"def\":\"{\\\"Label\\\":\\\"a\\\"}\",\"ev\":\"load\",\"store\":true,\"w\":false}\n";

const REQUEST: &str = "{\"req\":\"load\",\"def\":\"{\\\"Label\\\":\\\"a\\\"}\",\"w\":true}";

/// The same, as it is written.
const REQUEST_LINE: &str =
    "{\"F\":false,\"def\":\"{\\\"Label\\\":\\\"a\\\"}\",\"req\":\"load\",\"w\":true}\n";

/// The line of the clock reading of the load, and that of a header of this clock reading.
const CLOCK_LINE: &[u8] = b"{\"ev\":\"clock\",\"up\":0,\"wall\":1700000000}\n";

const PLAIN_HEADER_LINE: &[u8] =
    b"{\"overrides\":{},\"up\":0,\"wall\":1700000000,\"zone\":\"UTC0\"}\n";

const TARGET: &str = "gui/501/com.example.a-label-of-some-length";

/// Its label, as it is written.
const LABEL_LINE: &str = "com.example.a-label-of-some-length\n";

const TEXT: &str = "PID\tStatus\tLabel\n812\t0\ta\n";

const REPLY: &[u8] = b"{\"code\":0,\"text\":\"PID\\tStatus\\tLabel\\n812\\t0\\ta\\n\"}\n";

const ORDERS: &[(&str, Act)] = &[("a", Act::Spawn { run: 1, conn: None }), ("b", Act::Gone)];

const OUTCOME: &[u8] =
    b"{\"code\":0,\"orders\":[{\"job\":\"a\",\"order\":\"spawn\",\"run\":1},{\"job\":\"b\",\"order\":\"gone\"}],\"text\":\"PID\\tStatus\\tLabel\\n812\\t0\\ta\\n\"}\n";

const WORDS: &str = "jobctl load -w one.json two.json";

const DAEMON_WORDS: &str =
    "jobd serve --socket jobd.sock --store set.db --spool runs --zone UTC0 --journal day.log";

/// The file of Asia/Pyongyang, as the database of 2025 has it.
const PYONGYANG: &[u8] =
    b"TZif2\0\0\0\0\0\0\0\0\0\0\0\0\0\0\0\0\0\0\0\0\0\0\0\0\0\0\0\0\0\0\x05\0\0\0\x04\0\0\0\x0c\x8b\
\xd7\xf1\x9c\x92\xe6\x16\xf8\xd2/apU\xce\x02pZ\xecup\x01\x02\x03\x01\x03\0\0u\xe4\0\0\0\0w\x88\
\0\x04\0\0~\x90\0\x08\0\0~\x90\0\x04LMT\0KST\0JST\0TZif2\0\0\0\0\0\0\0\0\0\0\0\0\0\0\0\0\0\0\
\0\0\0\0\0\0\0\0\0\0\0\0\x05\0\0\0\x04\0\0\0\x0c\xff\xff\xff\xff\x8b\xd7\xf1\x9c\xff\xff\xff\
\xff\x92\xe6\x16\xf8\xff\xff\xff\xff\xd2/ap\0\0\0\0U\xce\x02p\0\0\0\0Z\xecup\x01\x02\x03\x01\
\x03\0\0u\xe4\0\0\0\0w\x88\0\x04\0\0~\x90\0\x08\0\0~\x90\0\x04LMT\0KST\0JST\0\x0aKST-9\x0a";

/// What the calls are made of.
#[derive(Drop)]
struct Given {
    def: Def,
    words: Vec<String>,
    daemon_words: Vec<String>,
    reply: Reply,
    header: Header,
}

/// A call, and what it is made on.
#[derive(Drop)]
struct Plain<'a> {
    call: Call,
    given: &'a Given,
    feed: Option<LineFeed>,
    heap: Option<TimerHeap>,
    written: Vec<u8>,
}

/// What was made, if it is right.
macro_rules! told {
    ($is_right:expr) => {
        if $is_right { Answer::Made } else { Answer::Other }
    };
}

/// The clock reading of the load.
fn at_load() -> Reading
    ensures { result.up ≤ MAX_UP }
{
    Reading {
        up: 0,
        wall: 1_700_000_000,
    }
}

fn made<T: Drop>(made: Result<T, AllocError>) -> Answer {
    match made {
        Ok(made) => {
            drop(made);
            Answer::Made
        }
        Err(_) => Answer::NoMemory,
    }
}

fn written(line: Result<Vec<u8>, AllocError>, wanted: &[u8]) -> Answer {
    match line {
        Ok(line) => told!(line.as_slice() == wanted),
        Err(_) => Answer::NoMemory,
    }
}

fn line_again(alloc: Global, kind: Kind, line: &str, wanted: &str) -> Answer {
    match again(alloc, kind, line) {
        Ok(line) => told!(line.as_slice() == wanted.as_bytes()),
        Err(ReadFault::NoMemory) => Answer::NoMemory,
        Err(ReadFault::BadRequest) => Answer::Other,
    }
}

fn words_read<T: Drop>(read: Result<T, WordFault>) -> Answer {
    match read {
        Ok(read) => {
            drop(read);
            Answer::Made
        }
        Err(WordFault::NoMemory) => Answer::NoMemory,
        Err(WordFault::Usage) => Answer::Other,
    }
}

fn zone_read(alloc: Global) -> Answer {
    match Zone::tzif(alloc, PYONGYANG) {
        Ok(zone) => {
            drop(zone);
            Answer::Made
        }
        Err(ZoneFault::NoMemory) => Answer::NoMemory,
        Err(ZoneFault::BadZone) => Answer::Other,
    }
}

fn definition_read(alloc: Global) -> Answer {
    match read_def(alloc, DEFINITION.as_bytes()) {
        Ok(def) => {
            drop(def);
            Answer::Made
        }
        Err(DefFault::NoMemory) => Answer::NoMemory,
        Err(_) => Answer::Other,
    }
}

fn what_is_given(alloc: Global) -> Option<Given> {
    let words = words_of(alloc, WORDS).ok()?;
    let daemon_words = words_of(alloc, DAEMON_WORDS).ok()?;
    let text = Text::copy_of(alloc, TEXT).ok()?;
    let header = header(alloc, "UTC0", 0)?;
    let def = read_def(alloc, DEFINITION.as_bytes()).ok()?;
    Some(Given {
        def,
        header,
        words,
        daemon_words,
        reply: Reply {
            refusal: None,
            text,
        },
    })
}

fn words_of(alloc: Global, line: &str) -> Result<Vec<String>, AllocError> {
    let mut words = Vec::new(alloc);
    for word in line.split(' ') {
        words.push(String::from_str(alloc, word)?)?;
    }
    Ok(words)
}

impl Trial for Plain<'_> {
    fn prepare(&mut self, alloc: Global) -> bool {
        match self.call {
            Call::Feed(is_taking) => {
                drop(mem::replace(&mut self.feed, feeding::fed(alloc, is_taking)));
                self.feed.is_some()
            }
            Call::Heap => {
                drop(mem::replace(&mut self.heap, growing::heap_of(alloc)));
                self.heap.is_some()
            }
            Call::Replay => {
                self.written.clear();
                self.written.reserve(replaying::ROOM).is_ok()
            }
            _ => true,
        }
    }

    fn call(&mut self, alloc: Global) -> Answer {
        let given = self.given;
        match self.call {
            Call::Conditions => made(Conditions::new(alloc, &given.def)),
            Call::Waiting => made(Waiting::new(alloc)),
            Call::Exchange => made(Exchange::new(alloc)),
            Call::JobCore => made(JobCore::new(alloc, &given.def, at_load())),
            Call::Definition => definition_read(alloc),
            Call::Line(kind, line, wanted) => line_again(alloc, kind, line, wanted),
            Call::EventLine => written(event_line(alloc, &Event::Clock(at_load())), CLOCK_LINE),
            Call::HeaderLine => written(header_line(alloc, &given.header), PLAIN_HEADER_LINE),
            Call::Heap => match self.heap.as_mut() {
                Some(heap) => growing::grown(alloc, heap),
                None => Answer::Other,
            },
            Call::Reply => written(reply_line(alloc, &given.reply), REPLY),
            Call::Outcome => written(outcome_line(alloc, &given.reply, ORDERS), OUTCOME),
            Call::Words => words_read(read_words(alloc, given.words.as_slice())),
            Call::DaemonWords => {
                words_read(read_daemon_words(alloc, given.daemon_words.as_slice()))
            }
            Call::Zone => zone_read(alloc),
            Call::Edge => made(MemoryEdge::new(alloc, Vec::new(alloc), 100)),
            Call::Feed(is_taking) => match self.feed.as_mut() {
                Some(feed) => feeding::fed_or_taken(feed, is_taking),
                None => Answer::Other,
            },
            Call::Replay => replaying::replayed(alloc, &mut self.written),
        }
    }

    fn is_right(&mut self, alloc: Global, answer: Answer) -> bool {
        match self.call {
            Call::Feed(is_taking) => match self.feed.as_mut() {
                Some(feed) => feeding::is_kept(alloc, feed, is_taking, answer),
                None => false,
            },
            Call::Heap => match self.heap.as_mut() {
                Some(heap) => growing::is_kept(alloc, heap),
                None => false,
            },
            Call::Replay => {
                let is_kept = replaying::are_outcomes(self.written.as_slice(), answer);
                let is_prepared = self.prepare(alloc);
                let is_made = self.call(alloc) == Answer::Made;
                let is_so = replaying::are_outcomes(self.written.as_slice(), Answer::Made);
                is_kept && is_prepared && is_made && is_so
            }
            _ => self.call(alloc) == Answer::Made,
        }
    }
}

/// Tries each call in turn.
pub fn try_all(rt: &HostRuntime, memory_hog: &mut MemoryHog) -> Result<()> {
    let Some(given) = what_is_given(rt.alloc()) else {
        bail!("what the calls are made of was refused");
    };
    let mut done = Ok(());
    for (name, call) in CALLS {
        let plain = Plain {
            call: *call,
            given: &given,
            feed: None,
            heap: None,
            written: Vec::new(rt.alloc()),
        };
        done = tried(rt, memory_hog, name, plain);
        if done.is_err() {
            break;
        }
    }
    drop(given);
    done
}
