// The text of a reply to a query's event.
ghost use Rattle.std.specs.Prelude.{◌≡◌, ◌++◌, OnOk, string_bytes};
ghost use Rattle.md_render.specs.Texts.{finished_text, notice_text, progress_text, query_text};

use crate::lines::{push_number, push_pair, push_paths, push_rows};
use md_machine::Reply;
use md_world::{Notice, Rows};
use std::alloc::AllocError;

fn push_notice(text: &mut String, notice: &Notice) -> Result<(), AllocError>
    ensures { OnOk result (string_bytes text.new ≡ string_bytes text.old ++ notice_text notice.now) }
{
    push_pair(text, "notice", notice.from, notice.to)?;
    push_rows(text, "+ ", notice.added.as_slice())?;
    push_rows(text, "~ ", notice.changed.as_slice())?;
    push_paths(text, "- ", notice.removed.as_slice())
}

fn push_progress(text: &mut String, hits: &Rows) -> Result<(), AllocError>
    ensures { OnOk result (string_bytes text.new ≡ string_bytes text.old ++ progress_text hits.now) }
{
    let count = hits.len();
    writeln!(text, "progress {count}")?;
    push_rows(text, "  ", hits.as_slice())
}

fn push_finished(text: &mut String, hits: &Rows, version: u32) -> Result<(), AllocError>
    ensures { OnOk result (string_bytes text.new ≡ string_bytes text.old ++ finished_text hits.now version) }
{
    let count = hits.len();
    writeln!(text, "finished {count} {version}")?;
    push_rows(text, "  ", hits.as_slice())
}

/// Appends the text of a reply to a query's event, from behind the query's name.
pub(crate) fn push_reply(text: &mut String, reply: &Reply) -> Result<(), AllocError>
    ensures { OnOk result (string_bytes text.new ≡ string_bytes text.old ++ query_text reply.now) }
{
    match reply {
        Reply::Created(version) => push_number(text, "created", *version),
        Reply::Taken => text.push_str("taken\n"),
        Reply::TooMany => text.push_str("too-many\n"),
        Reply::Progress(part) => push_progress(text, &part.hits),
        Reply::Finished(part, version) => push_finished(text, &part.hits, *version),
        Reply::AlreadyFinished(version) => push_number(text, "already-finished", *version),
        Reply::NotFinished => text.push_str("not-finished\n"),
        Reply::Held(count) => push_number(text, "held", *count),
        Reply::Disabled(count) => push_number(text, "disabled", *count),
        Reply::TooDeep => text.push_str("too-deep\n"),
        Reply::StillDisabled(count) => push_number(text, "still-disabled", *count),
        Reply::Resumed => text.push_str("resumed\n"),
        Reply::NotDisabled => text.push_str("not-disabled\n"),
        Reply::Notice(notice) => push_notice(text, notice),
        Reply::NotYet(items) => push_number(text, "not-yet", *items),
        Reply::Stopped => text.push_str("stopped\n"),
        Reply::NoQuery => text.push_str("no-query\n"),
        _ => Ok(()),
    }
}
