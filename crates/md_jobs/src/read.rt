// The reading of the jobs of a script.
ghost use Rattle.std.specs.Prelude.{◌≡◌, ◌≤◌, ◌++◌, length, IfOk, OnOk, OnErr, Some};
ghost use Rattle.std.specs.Option.{option_to_list};
ghost use Rattle.md_value.specs.Values.{IsMoment};
ghost use Rattle.md_script.specs.Limits.{most_lines};
ghost use Rattle.md_files.specs.FileAnswers.{IsAsked, IsRead, InTurnSoFar};
ghost use Rattle.md_files.specs.FileAnswers.FileAnswer.{given};
ghost use Rattle.md_live.specs.Given.{IsGiven};
ghost use Rattle.md_live.specs.Moments.{moment_of};
ghost use Rattle.md_jobs.specs.Sources.{answer_of};
ghost use Rattle.md_jobs.specs.Reading.{Makes, Reads};

use crate::jobs::ScriptJobs;
use crate::source::{FileSource, ReadFile, ScriptJob, Task};
use md_files::read_prefix;
use md_script::{Line, What};
use md_source::{Entry, ReadEnd, Tree};
use md_time::LocalTime;
use md_value::{Copied, HIGH, Path};
use md_words::Utf8;
use std::alloc::{AllocError, Global};

// The moment in seconds since 1970 in UTC of a line at so many milliseconds of a run that began now: at most the end of
// the year 9999.
fn moment_of(now: i64, ms: u64) -> i64
    requires { IsMoment now }
    ensures moment { IsMoment result }
    ensures value { result ≡ moment_of now ms }
{
    now.saturating_add_unsigned(ms / 1_000).min(HIGH)
}

// The first bytes of a file whose entry a tree gave.
fn read_found<T: Tree>(alloc: Global, tree: &mut T, entry: Entry) -> Result<FileSource, AllocError>
    requires { IsMoment entry.changed }
    ensures asked { IfOk result (λ source. IsRead (T.content tree.old) (T.failures tree.old) (T.failures tree.new) entry (answer_of source)) }
    ensures kept { OnErr result (T.failures tree.new ≡ T.failures tree.old) }
    ensures later { T.failures tree.old ≤ T.failures tree.new }
    ensures content { T.content tree.new ≡ T.content tree.old }
{
    match read_prefix(alloc, tree, &entry.path) {
        Ok(bytes) => Ok(FileSource::Read(ReadFile::new(entry, bytes))),
        Err(ReadEnd::Absent) => Ok(FileSource::Absent),
        Err(ReadEnd::Failed) => Ok(FileSource::Failed),
        Err(ReadEnd::Memory) => Err(AllocError),
    }
}

// What a tree answers where it is asked for the file of a path.
fn read_file<T: Tree>(alloc: Global, tree: &mut T, path: &Path) -> Result<FileSource, AllocError>
    ensures asked { IfOk result (λ source. IsAsked (T.content tree.old) (T.failures tree.old) (T.failures tree.new) path.now (answer_of source)) }
    ensures kept { OnErr result (T.failures tree.new ≡ T.failures tree.old) }
    ensures later { T.failures tree.old ≤ T.failures tree.new }
    ensures content { T.content tree.new ≡ T.content tree.old }
{
    match tree.find(alloc, path) {
        Ok(entry) => read_found(alloc, tree, entry),
        Err(ReadEnd::Absent) => Ok(FileSource::Absent),
        Err(ReadEnd::Failed) => Ok(FileSource::Failed),
        Err(ReadEnd::Memory) => Err(AllocError),
    }
}

// A file with this content, which is put at a path and was changed at this moment.
fn put_file(
    alloc: Global,
    changed: i64,
    path: &Path,
    content: &Utf8,
) -> Result<FileSource, AllocError>
    requires { IsMoment changed }
    ensures { IfOk result (λ source. answer_of source ≡ given (record { path = path.now; size = length content.now; changed = changed }) content.now) }
{
    let bytes = Vec::from_slice(alloc, content.as_str().as_bytes())?;
    let entry = Entry {
        path: path.copy(alloc)?,
        size: bytes.len() as u64,
        changed,
    };
    Ok(FileSource::Read(ReadFile::new(entry, bytes)))
}

// The job of a line, if it has one, in a run that began at `start`.
fn read_job<T: Tree>(
    alloc: Global,
    tree: &mut T,
    start: &LocalTime,
    line: &Line,
) -> Result<Option<ScriptJob>, AllocError>
    requires { IsMoment start.now.moment }
    ensures made { IfOk result (λ made. Makes (T.content tree.old) (T.failures tree.old) (T.failures tree.new) start.now.moment start.now.offset line.now made) }
    ensures kept { OnErr result (T.failures tree.new ≡ T.failures tree.old) }
    ensures later { T.failures tree.old ≤ T.failures tree.new }
    ensures content { T.content tree.new ≡ T.content tree.old }
{
    match &line.what {
        What::Put { path, text } => {
            let source = put_file(alloc, moment_of(start.moment, line.at_ms), path, text)?;
            let path = path.copy(alloc)?;
            let task = Task::Put(source);
            Ok(Some(ScriptJob { path, task }))
        }
        What::Import { path } => {
            let copied = path.copy(alloc)?;
            let task = Task::Put(read_file(alloc, tree, path)?);
            Ok(Some(ScriptJob { path: copied, task }))
        }
        What::Remove { path } => Ok(Some(ScriptJob {
            path: path.copy(alloc)?,
            task: Task::Remove,
        })),
        _ => Ok(None),
    }
}

// Keeps a job, if there is one.
fn keep(jobs: &mut Vec<ScriptJob>, made: Option<ScriptJob>) -> Result<(), AllocError>
    ensures { OnOk result (jobs.new.items ≡ jobs.old.items ++ option_to_list made) }
{
    if let Some(job) = made {
        jobs.push(job)?;
    }
    Ok(())
}

// The jobs of the lines, in order.
fn read_all<T: Tree>(
    alloc: Global,
    tree: &mut T,
    start: &LocalTime,
    lines: &[Line],
) -> Result<Vec<ScriptJob>, AllocError>
    requires { IsMoment start.now.moment }
    ensures jobs { IfOk result (λ jobs. Reads (T.content tree.old) (T.failures tree.old) (T.failures tree.new) start.now.moment start.now.offset lines.now jobs.items) }
    ensures few { IfOk result (λ jobs. length jobs.items ≤ length lines.now) }
    ensures so_far { InTurnSoFar (IsGiven start.now.offset (T.content tree.old)) (T.failures tree.old) (T.failures tree.new) lines.now }
    ensures later { T.failures tree.old ≤ T.failures tree.new }
    ensures content { T.content tree.new ≡ T.content tree.old }
{
    let mut jobs = Vec::new(alloc);
    for line in lines {
        let made = read_job(alloc, tree, start, line)?;
        keep(&mut jobs, made)?;
    }
    Ok(jobs)
}

/// The jobs of the lines, in order, in a run that begins at `start`. The files of all `import` lines are read from the tree, in
/// the order of the lines. Fails only where memory is refused.
pub fn read_jobs<T: Tree>(
    alloc: Global,
    tree: &mut T,
    start: &LocalTime,
    lines: &[Line],
) -> Result<ScriptJobs, AllocError>
    requires few { length lines.now ≤ most_lines }
    requires moment { IsMoment start.now.moment }
    ensures jobs { IfOk result (λ jobs. Reads (T.content tree.old) (T.failures tree.old) (T.failures tree.new) start.now.moment start.now.offset lines.now jobs.jobs) }
    ensures offset { IfOk result (λ jobs. jobs.offset ≡ start.now.offset) }
    ensures few { IfOk result (λ jobs. length jobs.jobs ≤ length lines.now) }
    // Also where memory runs out, some of the first of the imported files were asked for in turn, or all, and no others.
    ensures so_far { InTurnSoFar (IsGiven start.now.offset (T.content tree.old)) (T.failures tree.old) (T.failures tree.new) lines.now }
    ensures later { T.failures tree.old ≤ T.failures tree.new }
    ensures content { T.content tree.new ≡ T.content tree.old }
{
    let jobs = read_all(alloc, tree, start, lines)?;
    Ok(ScriptJobs::new(start.offset, jobs))
}
