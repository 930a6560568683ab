// What a tool makes of files.
ghost use Rattle.std.specs.Prelude.{◌≡◌, ◌∷◌, ◌++◌, OnOk};
ghost use Rattle.md_file_text.specs.Faults.{fault_text, failure_text};
ghost use Rattle.md_files.specs.Findings.Finding.{named, listed, no_listing};
ghost use Rattle.md_files.specs.Additions.{no_report, worse, noted};

use crate::ImportResult;
use md_file_text::{Failure, failure_text, fault_text};
use md_value::{Fault, Path};
use std::alloc::{AllocError, Global};
use std::marker::Model;

/// How the askings of a tool ended.
#[derive(Clone, Copy, Debug, PartialEq, Eq)]
pub enum End {
    /// No asking failed, and no named path is absent.
    Ok,
    /// Some asking failed.
    Failed,
    /// No asking failed, and some named path is absent.
    Absent,
}

/// How the askings of a tool ended, and what it prints.
#[derive(Debug, Drop)]
pub struct FileReport {
    pub end: End,
    pub out: String,
    pub err: String,
}

impl Model for FileReport {
    ghost use Rattle.std.specs.Prelude.{string_bytes};
    ghost use Rattle.md_files.specs.Reports as reports;

    ghost Value = { reports.FileReport };

    ghost view = { λ r. record { end = r.end; out = string_bytes r.out; err = string_bytes r.err } };
}

// The worse of two ends.
fn worse(end: End, other: End) -> End
    ensures { result ≡ worse end other }
{
    match (end, other) {
        (End::Ok, other) => other,
        (End::Failed, _) | (End::Absent, End::Failed) => End::Failed,
        (End::Absent, _) => End::Absent,
    }
}

impl FileReport {
    /// Nothing asked and nothing printed. Takes no memory.
    pub fn new(alloc: Global) -> FileReport
        ensures { result ≡ no_report }
    {
        FileReport {
            end: End::Ok,
            out: String::new(alloc),
            err: String::new(alloc),
        }
    }

    /// Appends to the text for out. Fails only where memory runs out.
    pub fn push_out(&mut self, text: &str) -> Result<(), AllocError>
        ensures { OnOk result (self.new ≡ record self.old { out = self.old.out ++ text.now }) }
    {
        self.out.push_str(text)
    }

    fn push_err(&mut self, line: &str) -> Result<(), AllocError>
        ensures { OnOk result (self.new ≡ record self.old { err = self.old.err ++ line.now }) }
    {
        self.err.push_str(line)
    }

    fn worsen(&mut self, end: End)
        ensures { self.new ≡ record self.old { end = worse self.old.end end } }
    {
        self.end = worse(self.end, end);
    }

    // Adds a file with a fault, which does not change how the askings ended.
    fn add_fault(&mut self, alloc: Global, path: &Path, fault: &Fault) -> Result<(), AllocError>
        ensures { OnOk result (self.new ≡ record self.old { err = self.old.err ++ fault_text path.now fault.now }) }
    {
        let line = fault_text(alloc, path, fault)?;
        self.push_err(line.as_str())
    }

    // Adds a path from which nothing was had.
    fn add_failure(
        &mut self,
        alloc: Global,
        path: &Path,
        failure: Failure,
        end: End,
    ) -> Result<(), AllocError>
        ensures { OnOk result (self.new ≡ record self.old { end = worse self.old.end end; err = self.old.err ++ failure_text path.now failure }) }
    {
        let line = failure_text(alloc, path, failure)?;
        self.worsen(end);
        self.push_err(line.as_str())
    }

    /// Adds what became of a named file, but for the attributes that it gives: the end that it makes, and the line on err
    /// on a fault, a file that is absent or one that could not be read. Fails only where memory runs out.
    pub fn add_named(
        &mut self,
        alloc: Global,
        path: &Path,
        asked: &ImportResult,
    ) -> Result<(), AllocError>
        ensures { OnOk result (self.new ≡ noted self.old (named path.now asked.now)) }
    {
        match asked {
            ImportResult::Attrs(_) => Ok(()),
            ImportResult::Fault(fault) => self.add_fault(alloc, path, fault),
            ImportResult::Absent => self.add_failure(alloc, path, Failure::NotFound, End::Absent),
            ImportResult::Failed => self.add_failure(alloc, path, Failure::NotRead, End::Failed),
        }
    }

    /// Adds what became of a file of a listing, but for the attributes that it gives. One that is absent by now is passed
    /// over. Fails only where memory runs out.
    pub fn add_listed(
        &mut self,
        alloc: Global,
        path: &Path,
        asked: &ImportResult,
    ) -> Result<(), AllocError>
        ensures { OnOk result (self.new ≡ noted self.old (listed path.now asked.now)) }
    {
        match asked {
            ImportResult::Attrs(_) | ImportResult::Absent => Ok(()),
            ImportResult::Fault(fault) => self.add_fault(alloc, path, fault),
            ImportResult::Failed => self.add_failure(alloc, path, Failure::NotRead, End::Failed),
        }
    }

    /// Adds a folder that could not be listed. Fails only where memory runs out.
    pub fn add_unlisted(&mut self, alloc: Global, path: &Path) -> Result<(), AllocError>
        ensures { OnOk result (self.new ≡ noted self.old (no_listing path.now)) }
    {
        self.add_failure(alloc, path, Failure::NotListed, End::Failed)
    }
}
