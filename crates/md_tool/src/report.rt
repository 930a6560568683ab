// What is to be printed, and the status that goes with it.
ghost use Rattle.std.specs.Prelude.{◌≡◌, IfOk, string_bytes};
ghost use Rattle.md_tool.specs.Reports.{plain, refusal, usage, no_clock, status_of, of_files};

use crate::Status;
use md_files::End;
use std::alloc::{AllocError, Global};
use std::marker::Model;

/// What is to be printed, and the status that goes with it.
#[derive(Drop)]
pub(crate) struct Report {
    pub(crate) status: Status,
    pub(crate) out: String,
    pub(crate) err: String,
}

impl Model for Report {
    ghost use Rattle.std.specs.Prelude.{string_bytes};
    ghost use Rattle.md_tool.specs.Reports as reports;

    ghost Value = { reports.Report };

    ghost view = { λ r. record { status = r.status; out = string_bytes r.out; err = string_bytes r.err } };
}

/// One line on err.
pub(crate) fn refusal(alloc: Global, status: Status, line: &str) -> Result<Report, AllocError>
    ensures { IfOk result (λ report. report ≡ refusal status line.now) }
{
    let out = String::new(alloc);
    let err = format!(in alloc; "mdserve: {line}\n")?;
    Ok(Report { status, out, err })
}

/// That the words are not understood.
pub(crate) fn usage(alloc: Global) -> Result<Report, AllocError>
    ensures { IfOk result (λ report. report ≡ usage) }
{
    refusal(alloc, Status::Usage, "words not understood")
}

/// That the clock failed.
pub(crate) fn no_clock(alloc: Global) -> Result<Report, AllocError>
    ensures { IfOk result (λ report. report ≡ no_clock) }
{
    refusal(alloc, Status::ReadFault, "clock could not be read")
}

/// A text for out.
pub(crate) fn plain(alloc: Global, out: String) -> Report
    ensures { result ≡ plain (string_bytes out) }
{
    Report {
        status: Status::Ok,
        out,
        err: String::new(alloc),
    }
}

fn status_of(end: End) -> Status
    ensures { result ≡ status_of end }
{
    match end {
        End::Ok => Status::Ok,
        End::Failed => Status::ReadFault,
        End::Absent => Status::Absent,
    }
}

/// What a tool on files prints.
pub(crate) fn of_files(made: md_files::FileReport) -> Report
    ensures { result ≡ of_files made }
{
    Report {
        status: status_of(made.end),
        out: made.out,
        err: made.err,
    }
}
