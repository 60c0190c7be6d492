//! The recorder.

ghost use Rattle.std.specs.Prelude.{◌≡◌, ◌+◌, List, ◌∷◌, [], min, true, false, Some, None};
ghost use Rattle.history_model.specs.Search.{or_else};
ghost use Rattle.history_model.specs.declared.Reading.{Reading};
ghost use Rattle.run_log.specs.Told.{Told};
ghost use Rattle.run_log.specs.Search.{is_success_end};
ghost use Rattle.run_log.specs.Kept.{kept_of};
ghost use Rattle.run_log.specs.AfterItem.{after_exit, is_ending};
ghost use Rattle.run_log.specs.Shown.{shown, refusals_shown, text_in};

use crate::facts::{RefusedStart, RunEnd, RunFacts, RunItem};
use crate::failures::is_failure;
use history_model::{Ended, Reading, Text};
use std::marker::Model;
use std::mem;

/// A refused start, with its reason.
#[derive(Drop)]
struct Refusal {
    run: u64,
    reason: Option<Text>,
    at: Reading,
}

/// What is kept of the runs of a load of a job. To a contract it is what a search of all that happened since the load gives.
#[derive(Drop)]
pub struct RunLog {
    loaded: Reading,
    since: Reading,
    run: u64,
    starts: u64,
    refusals: u64,
    ends: u64,
    failures: u64,
    started: Option<Reading>,
    begun: Option<Reading>,
    term: Option<Reading>,
    kill: Option<Reading>,
    last_end: Option<RunEnd>,
    succeeded: Option<Reading>,
    refused: Option<Refusal>,
    is_refused: bool,
}

impl Model for RunLog {
    ghost use Rattle.run_log.specs.Kept.{Kept};

    ghost Value = { Kept };

    ghost view = { λ l. record {
      loaded = l.loaded;
      since = l.since;
      run = l.run;
      starts = l.starts;
      refusals = l.refusals;
      ends = l.ends;
      failures = l.failures;
      started = l.started;
      begun = l.begun;
      term = l.term;
      kill = l.kill;
      last_end = l.last_end;
      succeeded = l.succeeded;
      refused = l.refused;
      is_refused = l.is_refused;
    } };
}

// One more, at most the greatest number.
fn one_more(count: u64) -> u64
    ensures { result ≡ min (count + 1) 18446744073709551615 }
{
    count.saturating_add(1)
}

impl RunLog {
    /// Of a job that was loaded at this clock reading. Nothing happened since.
    pub fn new(loaded: Reading) -> RunLog
        ensures { result ≡ kept_of loaded [] }
    {
        RunLog {
            loaded,
            since: loaded,
            run: 0,
            starts: 0,
            refusals: 0,
            ends: 0,
            failures: 0,
            started: None,
            begun: None,
            term: None,
            kill: None,
            last_end: None,
            succeeded: None,
            refused: None,
            is_refused: false,
        }
    }

    /// This happened at this clock reading. What is kept is then what a search of all that happened gives, this item too. Takes no memory.
    pub fn note(&mut self, item: RunItem, at: Reading)
        ensures { (loaded : Reading) (past : List Told) → self.old ≡ kept_of loaded past →
            self.new ≡ kept_of loaded ((item, at) ∷ past) }
    {
        match item {
            RunItem::Ordered(run) => self.order(run, at),
            RunItem::Begun => self.begin(at),
            RunItem::Refused(run, reason) => self.refuse(run, reason, at),
            RunItem::Termed => self.order_term(at),
            RunItem::Killed => self.order_kill(at),
            RunItem::Exited(run, how) => self.exit(run, how, at),
        }
    }

    fn order(&mut self, run: u64, at: Reading)
        ensures { self.new ≡ record self.old {
          run = run;
          starts = min (self.old.starts + 1) 18446744073709551615;
          started = Some at;
          term = None;
          kill = None;
        } }
    {
        self.run = run;
        self.starts = one_more(self.starts);
        self.started = Some(at);
        self.term = None;
        self.kill = None;
    }

    fn begin(&mut self, at: Reading)
        ensures { self.new ≡ record self.old { since = at; begun = Some at; is_refused = false } }
    {
        self.since = at;
        self.begun = Some(at);
        self.is_refused = false;
    }

    fn refuse(&mut self, run: u64, reason: Option<Text>, at: Reading)
        ensures { self.new ≡ record self.old {
          since = at;
          refusals = min (self.old.refusals + 1) 18446744073709551615;
          refused = Some (record { run = run; reason = reason; at = at });
          is_refused = true;
        } }
    {
        self.since = at;
        self.refusals = one_more(self.refusals);
        let refused = Some(Refusal { run, reason, at });
        drop(mem::replace(&mut self.refused, refused));
        self.is_refused = true;
    }

    fn order_term(&mut self, at: Reading)
        ensures { self.new ≡ record self.old { term = or_else self.old.term (Some at) } }
    {
        self.term = self.term.or(Some(at));
    }

    fn order_kill(&mut self, at: Reading)
        ensures { self.new ≡ record self.old { kill = Some at } }
    {
        self.kill = Some(at);
    }

    fn exit(&mut self, run: u64, how: Ended, at: Reading)
        ensures { self.new ≡ after_exit run how at self.old }
    {
        let began = self.begun.unwrap_or(at);
        let is_ordered = self.is_ending();
        self.since = at;
        self.ends = one_more(self.ends);
        if is_failure(how, is_ordered) {
            self.failures = one_more(self.failures);
        }
        if is_success(how) {
            self.succeeded = Some(at);
        }
        self.last_end = Some(RunEnd {
            run,
            how,
            ordered: Some(is_ordered),
            began,
            ended: at,
        });
    }

    // Whether TERM or KILL was ordered for the present run.
    fn is_ending(&self) -> bool
        ensures { result ≡ is_ending self.now }
    {
        self.term.is_some() || self.kill.is_some()
    }

    /// What is known of the job's runs. Takes no memory.
    pub fn facts(&self) -> RunFacts<'_>
        ensures { shown result ≡ self.now }
    {
        RunFacts {
            loaded: self.loaded,
            since: self.since,
            run: self.run,
            starts: self.starts,
            refusals: self.refusals,
            ends: self.ends,
            failures: self.failures,
            started: self.started,
            begun: self.begun,
            term: self.term,
            kill: self.kill,
            last_end: self.last_end,
            succeeded: self.succeeded,
            refused: self.refusal(),
            is_refused: self.is_refused,
        }
    }

    // The last start that was refused, with its reason lent.
    fn refusal(&self) -> Option<RefusedStart<'_>>
        ensures { refusals_shown result ≡ self.now.refused }
    {
        match &self.refused {
            Some(refusal) => Some(RefusedStart {
                run: refusal.run,
                reason: lent(&refusal.reason),
                at: refusal.at,
            }),
            None => None,
        }
    }
}

fn is_success(how: Ended) -> bool
    ensures { result ≡ is_success_end how }
{
    match how {
        Ended::Code(code) => code == 0,
        Ended::Signal(_) => false,
    }
}

fn lent(text: &Option<Text>) -> Option<&str>
    ensures { text_in result ≡ text.now }
{
    match text {
        Some(text) => Some(text.as_str()),
        None => None,
    }
}
