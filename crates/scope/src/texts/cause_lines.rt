//! The lines for what keeps a job from a start, and for what wants it.

ghost use Rattle.std.specs.Prelude.{◌≡◌, ◌++◌, ◌∷◌, ℕ, List, [], false};
ghost use Rattle.run_times.specs.Written.{Adds, Grows};
ghost use Rattle.scope.specs.Fronts.{front_of, TellsCauses, TellsEach};

use crate::journal::shown::shown_causes;
use crate::journal::telling::JobCause;
use crate::texts::causes::{path_said, queue_said, sentences_of};
use crate::texts::coming::{asked_said, conditions_said, queued_said, unmet_said, watched_said};
use crate::texts::fronts::put_front;
use crate::texts::told::{Sentence, ToldJob};
use run_times::Page;
use status_page::can_start_again;

/// Adds a line for each cause of the job, in order: for each thing that the table's reasons say, but for what can't matter, and for nothing else. It
/// returns whether the only one is that nothing wants the job.
pub(crate) fn add_causes(page: &mut Page<'_>, told: &ToldJob<'_>) -> bool
    ensures { page.new.writer.is_refused ≡ false →
        TellsCauses told.now.facts.reasons page.old.writer page.new.writer }
{
    let Ok(list) = shown_causes(page.alloc, &told.facts.reasons) else {
        page.writer.refuse();
        return false;
    };
    add_lines(page, told, list.as_slice());
    is_idle(list.as_slice())
}

// Whether the only cause is that nothing wants the job.
fn is_idle(causes: &[JobCause]) -> bool {
    match causes {
        [JobCause::NotWanted] => true,
        _ => false,
    }
}

// A line for each of the causes, in order.
fn add_lines(page: &mut Page<'_>, told: &ToldJob<'_>, causes: &[JobCause])
    ensures { TellsEach causes.now page.old.writer page.new.writer }
{
    for cause in causes {
        add_line(page, told, *cause);
    }
}

// The line of a cause: how it begins, and the sentences that end it.
fn add_line(page: &mut Page<'_>, told: &ToldJob<'_>, cause: JobCause)
    ensures { (more : List ℕ) × Adds (front_of cause ++ (more ++ 10 ∷ [])) page.old.writer page.new.writer }
{
    put_front(&mut page.writer, cause);
    add_end(page, told, cause);
    page.writer.put("\n");
}

// What ends it.
fn add_end(page: &mut Page<'_>, told: &ToldJob<'_>, cause: JobCause)
    ensures { Grows page.old.writer page.new.writer }
{
    match cause {
        JobCause::NotWanted if can_start_again(&told.facts.reasons) => add_ways(page, told),
        JobCause::PathState => add_sentences(page, &path_said(told)),
        JobCause::QueueDirectories => add_sentences(page, &queue_said(told)),
        cause => add_sentences(page, &sentences_of(told, cause)),
    }
}

/// Adds why its conditions do not want it, and the ways by which it comes to be wanted.
pub(crate) fn add_ways(page: &mut Page<'_>, told: &ToldJob<'_>)
    ensures { Grows page.old.writer page.new.writer }
{
    add_sentences(page, &unmet_said(told));
    add_sentence(page, &watched_said(told.keys.watch_paths));
    add_sentence(page, &queued_said(told.keys.queue_directories));
    add_sentence(page, &conditions_said(&told.keys));
    add_sentences(page, &asked_said(told));
}

fn add_sentence(page: &mut Page<'_>, said: &Sentence<'_>)
    ensures { Grows page.old.writer page.new.writer }
{
    let (form, holes) = said;
    page.add(*form, holes);
}

fn add_sentences(page: &mut Page<'_>, said: &[Sentence<'_>])
    ensures { Grows page.old.writer page.new.writer }
{
    for (form, holes) in said {
        page.add(*form, holes);
    }
}
