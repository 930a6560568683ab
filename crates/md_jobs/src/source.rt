// What the jobs of a script are made of.
ghost use Rattle.std.specs.Prelude.{◌≡◌, IfOk};
ghost use Rattle.md_value.specs.Values.{IsMoment};
ghost use Rattle.imp_kind.specs.Imports.{import};
ghost use Rattle.md_files.specs.FileAnswers.{of_import};
ghost use Rattle.md_live.specs.Actions.{change_of};
ghost use Rattle.md_jobs.specs.Sources.{given_by, task_change, job_in};

use md_files::{ImportResult, imported};
use md_source::Entry;
use md_value::Path;
use md_world::Change;
use std::alloc::{AllocError, Global};
use std::marker::Model;

/// A file that was read: its entry, and its first bytes.
#[derive(Drop)]
pub struct ReadFile {
    entry: Entry,
    bytes: Vec<u8>,
}

impl Model for ReadFile {
    ghost use Rattle.md_value.specs.Values.{IsMoment};
    ghost use Rattle.md_jobs.specs.Contents.{FileContent};

    ghost Value = { FileContent };

    ghost view = { λ f. record { entry = f.entry; bytes = f.bytes.items } };

    ghost invariant = { λ f. IsMoment f.entry.changed };
}

impl ReadFile {
    pub fn new(entry: Entry, bytes: Vec<u8>) -> ReadFile
        requires { IsMoment entry.changed }
        ensures { result ≡ record { entry = entry; bytes = bytes.items } }
    {
        ReadFile { entry, bytes }
    }

    /// What it gives. A date alone is the first second of that day at `offset`, in minutes by which local time is ahead of
    /// UTC. Fails only where memory is refused.
    pub fn import(&self, alloc: Global, offset: i32) -> Result<ImportResult, AllocError>
        ensures { IfOk result (λ given. given ≡ of_import (import self.now.entry self.now.bytes offset)) }
    {
        imported(alloc, &self.entry, &self.bytes, offset)
    }
}

/// What is known of the file of a job before it is imported.
#[derive(Drop)]
pub enum FileSource {
    Read(ReadFile),
    /// There is no file of this path.
    Absent,
    /// The tree failed.
    Failed,
}

impl FileSource {
    /// What the file gives. A date alone is the first second of that day at `offset`, in minutes by which local time is ahead
    /// of UTC. Fails only where memory is refused.
    pub fn import(&self, alloc: Global, offset: i32) -> Result<ImportResult, AllocError>
        ensures { IfOk result (λ given. given ≡ given_by offset self.now) }
    {
        match self {
            FileSource::Read(file) => file.import(alloc, offset),
            FileSource::Absent => Ok(ImportResult::Absent),
            FileSource::Failed => Ok(ImportResult::Failed),
        }
    }
}

/// What a job does with its path.
#[derive(Drop)]
pub enum Task {
    /// The attributes that the file gives are committed, if it gives some.
    Put(FileSource),
    Remove,
}

/// A line of a script that puts, imports or removes a path.
#[derive(Drop)]
pub struct ScriptJob {
    pub path: Path,
    pub task: Task,
}

// The change that a file makes: its attributes are put, and nothing else makes one.
fn change_of(given: ImportResult) -> Option<Change>
    ensures { result ≡ change_of given }
{
    match given {
        ImportResult::Attrs(attrs) => Some(Change::Put(attrs)),
        _ => None,
    }
}

impl Task {
    /// The change that is committed, or `None` where the ticket is closed. A date alone is the first second of that day at
    /// `offset`, in minutes by which local time is ahead of UTC. Fails only where memory is refused.
    pub fn change(&self, alloc: Global, offset: i32) -> Result<Option<Change>, AllocError>
        ensures { IfOk result (λ change. change ≡ task_change offset self.now) }
    {
        match self {
            Task::Put(source) => Ok(change_of(source.import(alloc, offset)?)),
            Task::Remove => Ok(Some(Change::Remove)),
        }
    }
}
