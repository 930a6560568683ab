// What the lines of a script ask a server for.
ghost use Rattle.std.specs.Prelude.{◌≡◌, ◌++◌, filter, IfOk, OnOk};
ghost use Rattle.std.specs.Option.{option_to_list};
ghost use Rattle.md_value.specs.Values.{IsMoment};
ghost use Rattle.md_live.specs.Moments.{moment_of};
ghost use Rattle.md_machine.specs.Answers.{spec_of};
ghost use Rattle.md_merge.specs.Journals.{is_by};
ghost use Rattle.md_clients.specs.Asks.{line_ask, asks_in, if_by, asker, is_asker};

use md_expr_tree::Expr;
use md_machine::{Batch, Event, Spec};
use md_script::{Line, What};
use md_time::LocalTime;
use md_value::{Copied, HIGH, Path, PlainVec};
use md_world::Order;
use std::alloc::{AllocError, Global};

/// The client that asks something by a line, if one does.
pub fn asker(what: &What) -> Option<u8>
    ensures { result ≡ asker what.now }
{
    match what {
        What::Query { client, .. } => Some(*client),
        What::Gather { client, .. } => Some(*client),
        What::Poll { client, .. } => Some(*client),
        What::Disable { client, .. } => Some(*client),
        What::Enable { client, .. } => Some(*client),
        What::Stop { client, .. } => Some(*client),
        What::Vacuum { client } => Some(*client),
        _ => None,
    }
}

// The local time of a line at so many milliseconds of a run that began at `start`: at most the end of the year 9999 in UTC.
fn time_of(start: &LocalTime, ms: u64) -> LocalTime
    requires { IsMoment start.now.moment }
    ensures moment { result.moment ≡ moment_of start.now.moment ms }
    ensures offset { result.offset ≡ start.now.offset }
{
    LocalTime {
        moment: start.moment.saturating_add_unsigned(ms / 1_000).min(HIGH),
        offset: start.offset,
    }
}

// What a query asks whose forms of time are resolved from a local time.
fn spec_of(
    alloc: Global,
    expr: &Expr,
    local: &LocalTime,
    scope: &Path,
    order: &Order,
    batch: Batch,
) -> Result<Spec, AllocError>
    ensures { IfOk result (λ spec. spec ≡ spec_of expr.now local.now.moment local.now.offset scope.now order.now batch) }
{
    Ok(Spec {
        expr: expr.copy(alloc)?,
        now: local.moment,
        offset: local.offset,
        scope: scope.copy(alloc)?,
        order: order.copy(alloc)?,
        batch,
    })
}

// What a line asks, if it does, in a run that began at `start`.
fn line_ask(alloc: Global, start: &LocalTime, line: &Line) -> Result<Option<Event>, AllocError>
    requires { IsMoment start.now.moment }
    ensures { IfOk result (λ ask. ask ≡ line_ask start.now.moment start.now.offset line.now) }
{
    let now_ms = line.at_ms;
    Ok(match &line.what {
        What::Query {
            client,
            number,
            expr,
            scope,
            order,
            batch,
        } => {
            let local = time_of(start, now_ms);
            Some(Event::Create {
                client: *client,
                number: *number,
                spec: spec_of(alloc, expr, &local, scope, order, *batch)?,
            })
        }
        What::Gather { client, number } => Some(Event::Gather {
            client: *client,
            number: *number,
            now_ms,
        }),
        What::Poll { client, number } => Some(Event::Poll {
            client: *client,
            number: *number,
            now_ms,
        }),
        What::Disable { client, number } => Some(Event::Disable {
            client: *client,
            number: *number,
        }),
        What::Enable { client, number } => Some(Event::Enable {
            client: *client,
            number: *number,
            now_ms,
        }),
        What::Stop { client, number } => Some(Event::Stop {
            client: *client,
            number: *number,
        }),
        What::Vacuum { client } => Some(Event::Vacuum { client: *client }),
        _ => None,
    })
}

// Whether this client asks something by a line.
fn is_asker(id: u8, what: &What) -> bool
    ensures { result ≡ is_asker id (asker what.now) }
{
    match asker(what) {
        Some(client) => client == id,
        None => false,
    }
}

// What this client asks by a line, if it does.
#[tactic(auto, using(crate::proofs::Asking::if_asked))]
fn ask_by(
    alloc: Global,
    start: &LocalTime,
    line: &Line,
    id: u8,
) -> Result<Option<Event>, AllocError>
    requires { IsMoment start.now.moment }
    ensures { IfOk result (λ ask. ask ≡ if_by id (line_ask start.now.moment start.now.offset line.now)) }
{
    if is_asker(id, &line.what) {
        line_ask(alloc, start, line)
    } else {
        Ok(None)
    }
}

// Keeps an event, if there is one.
fn keep(events: &mut PlainVec<Event>, ask: Option<Event>) -> Result<(), AllocError>
    ensures { OnOk result (events.new ≡ events.old ++ option_to_list ask) }
{
    if let Some(event) = ask {
        events.push(event)?;
    }
    Ok(())
}

/// What this client asks by the lines, in order, in a run that began at `start`. Fails only where memory is refused.
pub fn asks_by(
    alloc: Global,
    start: &LocalTime,
    lines: &[Line],
    id: u8,
) -> Result<PlainVec<Event>, AllocError>
    requires { IsMoment start.now.moment }
    ensures { IfOk result (λ events. events ≡ filter (is_by id) (asks_in start.now.moment start.now.offset lines.now)) }
{
    let mut events = PlainVec::new(alloc);
    for line in lines {
        let ask = ask_by(alloc, start, line, id)?;
        keep(&mut events, ask)?;
    }
    Ok(events)
}
