//! What the subcommands that read definitions end with: the exit status, once the text was written.

ghost use Rattle.std.specs.Prelude.{◌≡◌, IfOk};
ghost use Rattle.definition_files.specs.Reads.{IsCheckStatus, Reads, starts_status};
ghost use Rattle.definition_files.specs.LineStatus.{Judges, crontab_status};
ghost use Rattle.definition_files.specs.ListStatus.{IsListStatus};

use definition_files::check::check_files;
use definition_files::cron::{LineKeeper, Surroundings, definitions_of};
use definition_files::lists::lists_as_json;
use definition_files::{DefinitionQuery, DefinitionSource, coming_starts};
use files_and_process::path_files::Found;
use history_model::Text;
use run_times::telling::put_outcome;
use std::alloc::Global;
use std::io;

/// Writes what a check of the files says, and returns its exit status. An error is of memory, or of the standard output.
pub fn check_ended<S: DefinitionSource>(
    host: &HostRuntime,
    alloc: Global,
    source: &mut S,
    files: &[Found],
    asked: &DefinitionQuery<'_>,
    is_strict: bool,
) -> io::Result<u8>
    ensures { IfOk result (λ status. Reads files.now (IsCheckStatus is_strict status)
        (S.told source.old) (S.told source.new)) }
{
    let made = check_files(host, alloc, source, files, asked, is_strict);
    put_outcome(&mut host.stdout(), made)
}

/// Writes a number of coming starts of the files' definitions, and returns the exit status. An error is of memory, or of the standard output.
pub fn next_ended<S: DefinitionSource>(
    host: &HostRuntime,
    alloc: Global,
    source: &mut S,
    files: &[Found],
    asked: &DefinitionQuery<'_>,
    count: u64,
) -> io::Result<u8>
    ensures { IfOk result (λ status. Reads files.now (λ found. status ≡ starts_status found)
        (S.told source.old) (S.told source.new)) }
{
    let made = coming_starts(host, alloc, source, files, asked, count);
    put_outcome(&mut host.stdout(), made)
}

/// Writes the definitions that are made of the lines of a crontab, and returns the exit status. An error is of memory, or of the standard output.
pub fn cron_ended<K: LineKeeper>(
    host: &HostRuntime,
    alloc: Global,
    keeper: &mut K,
    lines: &[Text],
    around: &Surroundings,
) -> io::Result<u8>
    ensures { IfOk result (λ status. Judges lines.now (λ found. status ≡ crontab_status found)
        (K.told keeper.old) (K.told keeper.new)) }
{
    let made = definitions_of(host, alloc, keeper, lines, around);
    put_outcome(&mut host.stdout(), made)
}

/// Writes the property lists at the paths as definitions, into the folder if there is one, and returns the exit status. An error is of memory, or
/// of the standard output.
pub fn plist_ended<S: DefinitionSource>(
    host: &HostRuntime,
    alloc: Global,
    source: &mut S,
    paths: &[Text],
    longest: usize,
    into: Option<&str>,
) -> io::Result<u8>
    ensures { IfOk result (λ status. IsListStatus status) }
{
    let made = lists_as_json(host, alloc, source, paths, longest, into);
    put_outcome(&mut host.stdout(), made)
}
