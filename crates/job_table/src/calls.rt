//! The calls of the table for one event of one job each: [`JobTable::receive`] with the event's item, and an answer by the job's number.

ghost use Rattle.std.specs.Prelude.{IfOk};
ghost use Rattle.std.specs.Borrow.{sem};
ghost use Rattle.history_model.specs.declared.Answer.TheVariants as answers;
ghost use Rattle.history_model.specs.Items.{Asked, Answered, Came, Left, RunEnded, WaitRefused};
ghost use Rattle.history_model.specs.Machine.{OfJob};

use crate::{JobTable, Step};
use history_model::{Answer, Ask, Ended, JobItem, JobNo, Refusal};

impl JobTable {
    ghost use Rattle.job_table.specs.Ends.{IsAnswer, TableGoesOn, AreKnown};
    ghost use Rattle.loaded_jobs.specs.Tables.{label_of};
    ghost use Rattle.job_core.specs.Memory.{NeedsNoMemory};

    /// Starts the job, as `start` of launchctl(1): a start request that is pending until a later spawn succeeds. A job whose
    /// child runs and is not being stopped is left as it is. Refusals: BadRequest (no label), NoSuchJob, Removing.
    pub fn start(&mut self, label: &str) -> Result<Step<'_>, Refusal>
        ensures answer { IsAnswer (OfJob label.now (Asked Ask.Start)) self.old result }
        ensures memory { NeedsNoMemory result }
        ensures known { IfOk result AreKnown }
        ensures* kept { sem 𝓛 (TableGoesOn self.entry result (OfJob label.now (Asked Ask.Start))) }
    {
        self.receive(label, JobItem::Asked(Ask::Start))
    }

    /// Stops the job's child, as `stop` of launchctl(1): by TERM, and by KILL once the definition's `ExitTimeOut` is over.
    /// Refusals: BadRequest (no label), NoSuchJob, Removing, NotRunning.
    pub fn stop(&mut self, label: &str) -> Result<Step<'_>, Refusal>
        ensures answer { IsAnswer (OfJob label.now (Asked Ask.Stop)) self.old result }
        ensures memory { NeedsNoMemory result }
        ensures known { IfOk result AreKnown }
        ensures* kept { sem 𝓛 (TableGoesOn self.entry result (OfJob label.now (Asked Ask.Stop))) }
    {
        self.receive(label, JobItem::Asked(Ask::Stop))
    }

    /// Starts the job; with `kills_first` its child is first ended by KILL, as `kickstart -k` of launchctl(1). Refusals:
    /// BadRequest (no label), NoSuchJob, Removing.
    pub fn kickstart(&mut self, label: &str, kills_first: bool) -> Result<Step<'_>, Refusal>
        ensures answer { IsAnswer (OfJob label.now (Asked (Ask.Kickstart kills_first)))
            self.old result }
        ensures memory { NeedsNoMemory result }
        ensures known { IfOk result AreKnown }
        ensures* kept { sem 𝓛
            (TableGoesOn self.entry result (OfJob label.now (Asked (Ask.Kickstart kills_first)))) }
    {
        self.receive(label, JobItem::Asked(Ask::Kickstart(kills_first)))
    }

    /// A connection came to one of the job's sockets; its number is above every earlier one of this load. Refusals: BadRequest
    /// (no label), NoSuchJob, Removing, Stale (no sockets, or a number that is not new), TooManyConnections (`MAX_CONNECTIONS` wait).
    pub fn came(&mut self, label: &str, conn: u64) -> Result<Step<'_>, Refusal>
        ensures answer { IsAnswer (OfJob label.now (Came conn)) self.old result }
        ensures memory { NeedsNoMemory result }
        ensures known { IfOk result AreKnown }
        ensures* kept { sem 𝓛 (TableGoesOn self.entry result (OfJob label.now (Came conn))) }
    {
        self.receive(label, JobItem::Came(conn))
    }

    /// A waiting connection was given up by its client. Refusals: BadRequest (no label), NoSuchJob, Stale (it does not wait).
    pub fn left(&mut self, label: &str, conn: u64) -> Result<Step<'_>, Refusal>
        ensures answer { IsAnswer (OfJob label.now (Left conn)) self.old result }
        ensures memory { NeedsNoMemory result }
        ensures known { IfOk result AreKnown }
        ensures* kept { sem 𝓛 (TableGoesOn self.entry result (OfJob label.now (Left conn))) }
    {
        self.receive(label, JobItem::Left(conn))
    }

    /// The spawn of a run succeeded, and its child has this PID. Refusals: BadRequest (no label, or a PID of 0), NoSuchJob, Stale
    /// (this answer is not awaited).
    pub fn spawned(&mut self, label: &str, run: u64, pid: u32) -> Result<Step<'_>, Refusal>
        ensures answer { IsAnswer (OfJob label.now (Answered (answers.Spawned run pid)))
            self.old result }
        ensures memory { NeedsNoMemory result }
        ensures known { IfOk result AreKnown }
        ensures* kept { sem 𝓛
            (TableGoesOn self.entry result (OfJob label.now (Answered (answers.Spawned run pid)))) }
    {
        self.receive(label, JobItem::Answered(Answer::Spawned { run, pid }))
    }

    /// The spawn of a run was refused. Its start request stays, and the next spawn waits at least a second. Refusals: BadRequest
    /// (no label), NoSuchJob, Stale (this answer is not awaited).
    pub fn spawn_refused(&mut self, label: &str, run: u64) -> Result<Step<'_>, Refusal>
        ensures answer { IsAnswer (OfJob label.now (Answered (answers.SpawnRefused run)))
            self.old result }
        ensures memory { NeedsNoMemory result }
        ensures known { IfOk result AreKnown }
        ensures* kept { sem 𝓛
            (TableGoesOn self.entry result (OfJob label.now (Answered (answers.SpawnRefused run)))) }
    {
        self.receive(label, JobItem::Answered(Answer::SpawnRefused { run }))
    }

    /// TERM was given to a run, or refused. Refusals: BadRequest (no label), NoSuchJob, Stale (this answer is not awaited).
    pub fn term_answered(&mut self, label: &str, run: u64, ok: bool) -> Result<Step<'_>, Refusal>
        ensures answer { IsAnswer (OfJob label.now (Answered (answers.Termed run ok)))
            self.old result }
        ensures memory { NeedsNoMemory result }
        ensures known { IfOk result AreKnown }
        ensures* kept { sem 𝓛
            (TableGoesOn self.entry result (OfJob label.now (Answered (answers.Termed run ok)))) }
    {
        self.receive(label, JobItem::Answered(Answer::Termed { run, ok }))
    }

    /// KILL was given to a run, or refused. Refusals: BadRequest (no label), NoSuchJob, Stale (this answer is not awaited).
    pub fn kill_answered(&mut self, label: &str, run: u64, ok: bool) -> Result<Step<'_>, Refusal>
        ensures answer { IsAnswer (OfJob label.now (Answered (answers.Killed run ok)))
            self.old result }
        ensures memory { NeedsNoMemory result }
        ensures known { IfOk result AreKnown }
        ensures* kept { sem 𝓛
            (TableGoesOn self.entry result (OfJob label.now (Answered (answers.Killed run ok)))) }
    {
        self.receive(label, JobItem::Answered(Answer::Killed { run, ok }))
    }

    /// A run ended. Refusals: BadRequest (no label), NoSuchJob, Stale (it is not the present child's run).
    pub fn ended(&mut self, label: &str, run: u64, how: Ended) -> Result<Step<'_>, Refusal>
        ensures answer { IsAnswer (OfJob label.now (RunEnded run how)) self.old result }
        ensures memory { NeedsNoMemory result }
        ensures known { IfOk result AreKnown }
        ensures* kept { sem 𝓛 (TableGoesOn self.entry result (OfJob label.now (RunEnded run how))) }
    {
        self.receive(label, JobItem::Ended { run, how })
    }

    /// The wait for a run was refused: nothing is known of its end. Refusals: BadRequest (no label), NoSuchJob, Stale (it is
    /// not the present child's run).
    pub fn wait_refused(&mut self, label: &str, run: u64) -> Result<Step<'_>, Refusal>
        ensures answer { IsAnswer (OfJob label.now (WaitRefused run)) self.old result }
        ensures memory { NeedsNoMemory result }
        ensures known { IfOk result AreKnown }
        ensures* kept { sem 𝓛 (TableGoesOn self.entry result (OfJob label.now (WaitRefused run))) }
    {
        self.receive(label, JobItem::WaitRefused { run })
    }

    /// The outside's answer to an order of the job with this number: what `receive` says of it under the label that the number
    /// stands for. The number gives the job's place, so no label is looked for. Refusals: BadRequest (a number that stands for no
    /// label, or a PID of 0), NoSuchJob (the last event removed its job), Stale (this answer is not awaited).
    pub fn answered(&mut self, number: JobNo, answer: Answer) -> Result<Step<'_>, Refusal>
        ensures answer { IsAnswer (OfJob (label_of self.old.names number) (Answered answer))
            self.old result }
        ensures memory { NeedsNoMemory result }
        ensures known { IfOk result AreKnown }
        ensures* kept { sem 𝓛 (TableGoesOn self.entry result
            (OfJob (label_of self.old.names number) (Answered answer))) }
    {
        self.jobs.receive_answer(number, answer)?;
        Ok(self.last_step())
    }
}
