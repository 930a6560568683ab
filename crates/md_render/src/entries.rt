// The text of an event with its reply.
ghost use Rattle.std.specs.Prelude.{◌≡◌, ◌++◌, IfOk, OnOk, string_bytes};
ghost use Rattle.md_render.specs.Texts.{asked_text, close_text, commit_text, draw_text, entry_text, event_text, ticket_text};

use crate::lines::{push_line, push_marked, push_number, push_pair};
use crate::replies::push_reply;
use md_machine::{Event, Reply};
use md_value::Path;
use std::alloc::{AllocError, Global};

fn push_ticket(text: &mut String, ticket: u32, path: &Path) -> Result<(), AllocError>
    ensures { OnOk result (string_bytes text.new ≡ string_bytes text.old ++ ticket_text ticket path.now) }
{
    write!(text, "ticket {ticket} ")?;
    push_line(text, path)
}

fn push_draw(text: &mut String, path: &Path, reply: &Reply) -> Result<(), AllocError>
    ensures { OnOk result (string_bytes text.new ≡ string_bytes text.old ++ draw_text path.now reply.now) }
{
    match reply {
        Reply::Ticket(ticket) => push_ticket(text, *ticket, path),
        Reply::TicketsSpent => push_marked(text, "tickets-spent ", path),
        _ => Ok(()),
    }
}

fn push_commit(text: &mut String, ticket: u32, reply: &Reply) -> Result<(), AllocError>
    ensures { OnOk result (string_bytes text.new ≡ string_bytes text.old ++ commit_text ticket reply.now) }
{
    match reply {
        Reply::Committed(version) => push_pair(text, "committed", ticket, *version),
        Reply::Superseded(newer) => push_pair(text, "superseded", ticket, *newer),
        Reply::StoreFull => push_number(text, "store-full", ticket),
        Reply::NoTicket => push_number(text, "no-ticket", ticket),
        _ => Ok(()),
    }
}

fn push_close(text: &mut String, ticket: u32, reply: &Reply) -> Result<(), AllocError>
    ensures { OnOk result (string_bytes text.new ≡ string_bytes text.old ++ close_text ticket reply.now) }
{
    match reply {
        Reply::Closed => push_number(text, "closed", ticket),
        Reply::NoTicket => push_number(text, "no-ticket", ticket),
        _ => Ok(()),
    }
}

fn push_asked(text: &mut String, client: u8, number: u32, reply: &Reply) -> Result<(), AllocError>
    ensures { OnOk result (string_bytes text.new ≡ string_bytes text.old ++ asked_text client number reply.now) }
{
    write!(text, "c{client} q{number} ")?;
    push_reply(text, reply)
}

fn push_event(text: &mut String, event: &Event, reply: &Reply) -> Result<(), AllocError>
    ensures { OnOk result (string_bytes text.new ≡ string_bytes text.old ++ event_text event.now reply.now) }
{
    match event {
        Event::Draw { path } => push_draw(text, path, reply),
        Event::Commit { ticket, .. } => push_commit(text, *ticket, reply),
        Event::Close { ticket } => push_close(text, *ticket, reply),
        Event::Create { client, number, .. }
        | Event::Gather { client, number, .. }
        | Event::Disable { client, number }
        | Event::Enable { client, number, .. }
        | Event::Poll { client, number, .. }
        | Event::Stop { client, number } => push_asked(text, *client, *number, reply),
        Event::Vacuum { client } => writeln!(text, "c{client} vacuumed"),
    }
}

/// Appends the journal's entry for an event with its reply: the place, which counts from 1, and the text of both, each
/// line ended by a line feed. A hit, and an item of a notice, has a line of its own. A reply that the machine never gives
/// to the event adds nothing behind the place. Fails only where memory runs out.
#[tactic(auto, unfolding(crate::specs::Texts::entry_text))]
pub fn push_entry(
    text: &mut String,
    place: u64,
    event: &Event,
    reply: &Reply,
) -> Result<(), AllocError>
    ensures { OnOk result (string_bytes text.new ≡ string_bytes text.old ++ entry_text place event.now reply.now) }
{
    write!(text, "{place} ")?;
    push_event(text, event, reply)
}

/// The journal's entry for an event with its reply, as `push_entry` appends it. Fails only where memory runs out.
pub fn entry_text(
    alloc: Global,
    place: u64,
    event: &Event,
    reply: &Reply,
) -> Result<String, AllocError>
    ensures { IfOk result (λ text. string_bytes text ≡ entry_text place event.now reply.now) }
{
    let mut text = String::new(alloc);
    push_entry(&mut text, place, event, reply)?;
    Ok(text)
}
