// A server that the lines of a script are run on, one after the other.
ghost use Rattle.std.specs.Prelude.{◌≡◌, ◌+◌, ◌<◌, ◌^◌, ◌∷◌, [], IfOk, OnOk, None, map};
ghost use Rattle.std.specs.Option.{option_map};
ghost use Rattle.md_value.specs.Values.{IsMoment};
ghost use Rattle.md_match.specs.Forms.{first_out_of_range, capped};
ghost use Rattle.md_machine.specs.Answers.{spec_of};
ghost use Rattle.md_machine.specs.Steps.{step};
ghost use Rattle.md_live.specs.Actions as actions;
ghost use Rattle.md_live.specs.Actions.Action.{job, show};
ghost use Rattle.md_live.specs.Actions.{action_at};
ghost use Rattle.md_live.specs.Events.{end_of, job_events};
ghost use Rattle.md_live.specs.Moments.{moment_of};
ghost use Rattle.md_live.specs.TimeForms.{form_out};
ghost use Rattle.md_live.specs.Telling.{Telling, unstarted, after_events, after_action, followed_in, asked_events, given_to, sum_so_far};

use crate::counted;
use crate::moments::time_of;
use crate::sums::Sum;
use crate::tally::Tally;
use md_expr_tree::Expr;
use md_files::{FileReport, ImportResult, imported};
use md_hub::Hub;
use md_machine::{Batch, Event, Reply, Spec};
use md_notice::Follower;
use md_render::{entry_text, held_text};
use md_script::{Line, What};
use md_source::Entry;
use md_time::LocalTime;
use md_value::{Copied, Path, PlainVec};
use md_world::{Change, Limits, Order, Part};
use std::alloc::{AllocError, Global};
use std::marker::Model;

/// The number of the query whose rows are counted for each client.
const COUNTED_QUERY: u32 = 1;

/// A server, with the report of its run so far, the place of the next entry and the tally of the notices.
#[derive(Drop)]
pub struct Session {
    hub: Hub,
    report: FileReport,
    next: u64,
    tally: Tally,
}

impl Model for Session {
    ghost use Rattle.md_live.specs.Telling.{Telling};
    ghost use Rattle.md_live.specs.Tallies.{IsBelow};

    ghost Value = { Telling };

    ghost use Rattle.md_expr_tree.specs.contracts.tree.Expr as expr;
    ghost use Rattle.std.specs.Coded.{codes};

    ghost coded = { Prim.hlevel (codes, expr.the_row.coded) };

    ghost view = { λ s. record { state = s.hub.state; report = s.report; next = s.next; tally = s.tally } };

    ghost invariant = { λ s. IsBelow s.next s.tally };
}

// What a query asks, none of whose forms of time is out of range.
fn spec_of(
    alloc: Global,
    expr: &Expr,
    local: &LocalTime,
    scope: &Path,
    order: &Order,
    batch: Batch,
) -> Result<Spec, AllocError>
    requires { option_map capped (first_out_of_range local.now.moment local.now.offset expr.now) ≡ None }
    ensures { IfOk result (λ spec. spec ≡ spec_of expr.now local.now.moment local.now.offset scope.now order.now batch) }
{
    let expr = expr.copy(alloc)?;
    let scope = scope.copy(alloc)?;
    let order = order.copy(alloc)?;
    match Spec::new(expr, local.moment, local.offset, scope, order, batch) {
        Ok(spec) => Ok(spec),
        Err(_) => unreachable!(),
    }
}

// What a file with this content gives that is put at the path and was changed at a local time.
fn put_file(
    alloc: Global,
    changed: &LocalTime,
    path: &Path,
    content: &str,
) -> Result<ImportResult, AllocError>
    requires { IsMoment changed.now.moment }
    ensures { IfOk result (λ given. given ≡ actions.put_file changed.now.moment changed.now.offset path.now content.now) }
{
    let bytes = content.as_bytes();
    let entry = Entry {
        path: path.copy(alloc)?,
        size: bytes.len() as u64,
        changed: changed.moment,
    };
    imported(alloc, &entry, bytes, changed.offset)
}

// The change that a file makes: its attributes are put, and nothing else makes one.
fn change_of(given: ImportResult) -> Option<Change>
    ensures { result ≡ actions.change_of given }
{
    match given {
        ImportResult::Attrs(attrs) => Some(Change::Put(attrs)),
        _ => None,
    }
}

impl Session {
    /// The opening state, and nothing reported.
    pub fn new(alloc: Global) -> Session
        ensures { result ≡ unstarted }
    {
        Session {
            hub: Hub::new(alloc, Limits::STANDARD),
            report: FileReport::new(alloc),
            next: 1,
            tally: Tally::new(),
        }
    }

    pub fn into_report(self) -> FileReport
        ensures { result ≡ self.report }
    {
        self.report
    }

    // Tells the server an event, writes the entry, and counts the reply if it is a notice.
    fn tell(&mut self, alloc: Global, event: &Event) -> Result<Reply, AllocError>
        requires { self.old.next + 1 < 2 ^ 64 }
        ensures reply { IfOk result (λ r. r ≡ (step self.old.state event.now).reply) }
        ensures known { OnOk result (self.new ≡ after_events self.old (event.now ∷ [])) }
    {
        let reply = counted::step(alloc, &mut self.hub, event);
        if let Reply::Memory = reply {
            return Err(AllocError);
        }
        let entry = entry_text(alloc, self.next, event, &reply)?;
        self.report.push_out(entry.as_str())?;
        self.next += 1;
        self.tally.add(&reply);
        Ok(reply)
    }

    // Tells the server an event whose reply ends its line.
    fn ask(&mut self, alloc: Global, event: &Event) -> Result<(), AllocError>
        requires { self.old.next + 1 < 2 ^ 64 }
        ensures { OnOk result (self.new ≡ after_events self.old (event.now ∷ [])) }
    {
        self.tell(alloc, event)?;
        Ok(())
    }

    // Commits a change, or closes the ticket where there is none.
    fn end(&mut self, alloc: Global, ticket: u32, change: Option<Change>) -> Result<(), AllocError>
        requires { self.old.next + 2 < 2 ^ 64 }
        ensures { OnOk result (self.new ≡ after_events self.old (end_of self.old.state ticket change)) }
    {
        let Some(change) = change else {
            return self.ask(alloc, &Event::Close { ticket });
        };
        let reply = self.tell(alloc, &Event::Commit { ticket, change })?;
        if let Reply::StoreFull = reply {
            self.ask(alloc, &Event::Close { ticket })?;
        }
        Ok(())
    }

    // Draws a ticket for the path, and commits the change or closes the ticket.
    fn job(&mut self, alloc: Global, path: &Path, change: Option<Change>) -> Result<(), AllocError>
        requires { self.old.next + 3 < 2 ^ 64 }
        ensures { OnOk result (self.new ≡ after_events self.old (job_events self.old.state path.now change)) }
    {
        let path = path.copy(alloc)?;
        let reply = self.tell(alloc, &Event::Draw { path })?;
        let Reply::Ticket(ticket) = reply else {
            return Ok(());
        };
        self.end(alloc, ticket, change)
    }

    // Notes what became of a file, and runs its job.
    fn file(&mut self, alloc: Global, path: &Path, given: ImportResult) -> Result<(), AllocError>
        requires { self.old.next + 3 < 2 ^ 64 }
        ensures { OnOk result (self.new ≡ after_action self.old (job path.now given)) }
    {
        self.report.add_named(alloc, path, &given)?;
        self.job(alloc, path, change_of(given))
    }

    // What the client of a live query holds, in the query's order.
    fn follower(
        &self,
        alloc: Global,
        client: u8,
        number: u32,
    ) -> Result<Option<Follower>, AllocError>
        ensures { IfOk result (λ follower. follower ≡ followed_in self.now.state client number) }
    {
        let Some(held) = counted::held(alloc, &self.hub, client, number)? else {
            return Ok(None);
        };
        let mut follower = Follower::new(alloc, held.order, held.version);
        let part = Part {
            hits: held.rows,
            last: true,
        };
        follower.take_part(&part)?;
        Ok(Some(follower))
    }

    // Prints what a client holds.
    fn show(&mut self, alloc: Global, client: u8, number: u32) -> Result<(), AllocError>
        ensures { OnOk result (self.new ≡ after_action self.old (show client number)) }
    {
        let follower = self.follower(alloc, client, number)?;
        let text = held_text(alloc, client, number, follower.as_ref())?;
        self.report.push_out(text.as_str())
    }

    // Asks a query for something, at a moment in milliseconds, or for a vacuum. Other lines ask for nothing.
    fn ask_by(&mut self, alloc: Global, ms: u64, what: &What) -> Result<(), AllocError>
        requires { self.old.next + 1 < 2 ^ 64 }
        ensures { OnOk result (self.new ≡ after_events self.old (asked_events ms what.now)) }
    {
        let event = match what {
            What::Gather { client, number } => Event::Gather {
                client: *client,
                number: *number,
                now_ms: ms,
            },
            What::Poll { client, number } => Event::Poll {
                client: *client,
                number: *number,
                now_ms: ms,
            },
            What::Disable { client, number } => Event::Disable {
                client: *client,
                number: *number,
            },
            What::Enable { client, number } => Event::Enable {
                client: *client,
                number: *number,
                now_ms: ms,
            },
            What::Stop { client, number } => Event::Stop {
                client: *client,
                number: *number,
            },
            What::Vacuum { client } => Event::Vacuum { client: *client },
            _ => return Ok(()),
        };
        self.ask(alloc, &event)
    }

    /// Runs a line of a run that began at `start`, none of whose forms of time is out of range, with what the tree gave to it
    /// if it imports a file.
    pub fn line(
        &mut self,
        alloc: Global,
        start: &LocalTime,
        line: &Line,
        given: Option<ImportResult>,
    ) -> Result<(), AllocError>
        requires room { self.old.next + 3 < 2 ^ 64 }
        requires moment { IsMoment start.now.moment }
        requires timely { form_out (moment_of start.now.moment line.now.at_ms) start.now.offset line.now.what ≡ None }
        ensures { OnOk result (self.new ≡ after_action self.old (action_at start.now.moment start.now.offset line.now.at_ms line.now.what given)) }
    {
        let local = time_of(start, line.at_ms);
        match &line.what {
            What::Put { path, text } => {
                let given = put_file(alloc, &local, path, text.as_str())?;
                self.file(alloc, path, given)
            }
            What::Import { path } => self.file(alloc, path, given.unwrap_or(ImportResult::Absent)),
            What::Remove { path } => self.job(alloc, path, Some(Change::Remove)),
            What::Query {
                client,
                number,
                expr,
                scope,
                order,
                batch,
            } => {
                let spec = spec_of(alloc, expr, &local, scope, order, *batch)?;
                let event = Event::Create {
                    client: *client,
                    number: *number,
                    spec,
                };
                self.ask(alloc, &event)
            }
            What::Show { client, number } => self.show(alloc, *client, *number),
            what => self.ask_by(alloc, line.at_ms, what),
        }
    }

    // How many rows the query of a client has given it.
    fn held_count(&self, alloc: Global, client: u8) -> Result<usize, AllocError>
        ensures { IfOk result (λ count. count ≡ given_to self.now.state client) }
    {
        let Some(held) = counted::held(alloc, &self.hub, client, COUNTED_QUERY)? else {
            return Ok(0);
        };
        Ok(held.rows.len())
    }

    // How many rows the query of each of these clients has given it.
    fn held_counts(&self, alloc: Global, clients: &[u8]) -> Result<PlainVec<usize>, AllocError>
        ensures { IfOk result (λ counts. counts ≡ map (given_to self.now.state) clients.now) }
    {
        let mut counts = PlainVec::new(alloc);
        for client in clients {
            counts.push(self.held_count(alloc, *client)?)?;
        }
        Ok(counts)
    }

    /// The sums of the run so far, with how many rows each of these clients holds by its query 1.
    pub fn sum(&self, alloc: Global, clients: &[u8]) -> Result<Sum, AllocError>
        ensures { IfOk result (λ sum. sum ≡ sum_so_far self.now clients.now) }
    {
        Ok(Sum {
            events: self.next - 1,
            version: self.hub.version(),
            rows: counted::rows(alloc, &self.hub)?.len(),
            tally: self.tally,
            held: self.held_counts(alloc, clients)?,
        })
    }
}
