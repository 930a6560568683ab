// The run of a command and of words, clause by clause.
ghost use Rattle.std.specs.Prelude.{◌≡◌, ◌⊎◌, true, IsErr, IfOk, Some, None};
ghost use Rattle.md_words.specs.Words.{texts};
ghost use Rattle.md_words.specs.Grammar.{command_of, is_offered};
ghost use Rattle.md_words.specs.declared.command.Command.{Command};
ghost use Rattle.md_tool.specs.Outside.{inputs, outputs, TakesNothing};
ghost use Rattle.md_tool.specs.Asking.{CommandAsks, WordsAsk, Leaves, AsksSoFar, Prints, Ends};
ghost use Rattle.md_tool.specs.Causes.{Tells, InputFails, OutputFails, IsReady, IsWhole};

use crate::report::{Report, usage};
use crate::tools::asked;
use crate::{Outcome, Status};
use md_source::{Clock, PutEnd, Sink, Source, Tree, put_texts};
use md_words::{Command, WordsError, read_words};
use std::alloc::{AllocError, Global};
use std::thread::Threads;

// Puts both texts, where memory did not run out.
fn print<K: Sink, E: Sink>(report: Result<Report, AllocError>, out: &mut K, err: &mut E) -> Outcome
    // What is printed of a report.
    ensures prints { IfOk report (λ r. Prints r (outputs (E.taken err.old) (E.failures err.old) (K.taken out.old) (K.failures out.old)) (outputs (E.taken err.new) (E.failures err.new) (K.taken out.new) (K.failures out.new)) result.status) }
    ensures status { IfOk report (λ r. (result.status ≡ r.status) ⊎ ((result.status ≡ Status.Memory) ⊎ ((result.status ≡ Status.WriteFault) × OutputFails (outputs (E.taken err.old) (E.failures err.old) (K.taken out.old) (K.failures out.old)) (outputs (E.taken err.new) (E.failures err.new) (K.taken out.new) (K.failures out.new))))) }
    ensures memory { IsErr report → (result.status ≡ Status.Memory) × TakesNothing (record { known = E.taken err.old; failures = E.failures err.old }) (record { known = E.taken err.new; failures = E.failures err.new }) × TakesNothing (record { known = K.taken out.old; failures = K.failures out.old }) (record { known = K.taken out.new; failures = K.failures out.new }) }
{
    let Ok(report) = report else {
        return Outcome {
            status: Status::Memory,
        };
    };
    let status = match put_texts(err, report.err.as_str(), out, report.out.as_str()) {
        Ok(()) => report.status,
        Err(PutEnd::Failed) => Status::WriteFault,
        Err(PutEnd::Memory) => Status::Memory,
    };
    Outcome { status }
}

/// Runs a command, as [`run_tool`](crate::run_tool) says of it in one.
pub(crate) fn run_command<R: Threads + Sync, T: Tree, S: Source, C: Clock, K: Sink, E: Sink>(
    rt: &R,
    alloc: Global,
    command: &Command,
    tree: &mut T,
    script: &mut S,
    clock: &mut C,
    out: &mut K,
    err: &mut E,
) -> Outcome
    requires { is_offered command.now.what ≡ true }
    // What is printed, and the status that goes with it.
    ensures ends { Ends (CommandAsks command.now (inputs (T.content tree.old) (T.failures tree.old) (S.left script.old) (S.failures script.old) (C.moment clock.old) (C.failures clock.old)) (inputs (T.content tree.new) (T.failures tree.new) (S.left script.new) (S.failures script.new) (C.moment clock.new) (C.failures clock.new))) (outputs (E.taken err.old) (E.failures err.old) (K.taken out.old) (K.failures out.old)) (outputs (E.taken err.new) (E.failures err.new) (K.taken out.new) (K.failures out.new)) result.status }
    // What stays, also where memory runs out: what the command does not name, and the content of the tree.
    ensures leaves { Leaves command.now.what (inputs (T.content tree.old) (T.failures tree.old) (S.left script.old) (S.failures script.old) (C.moment clock.old) (C.failures clock.old)) (inputs (T.content tree.new) (T.failures tree.new) (S.left script.new) (S.failures script.new) (C.moment clock.new) (C.failures clock.new)) }
    // What was asked of the tree, also where memory runs out.
    ensures so_far { AsksSoFar command.now.offset command.now.what (inputs (T.content tree.old) (T.failures tree.old) (S.left script.old) (S.failures script.old) (C.moment clock.old) (C.failures clock.old)) (inputs (T.content tree.new) (T.failures tree.new) (S.left script.new) (S.failures script.new) (C.moment clock.new) (C.failures clock.new)) }
    // The cause of each status.
    ensures tells { Tells command.now.offset command.now.what (inputs (T.content tree.old) (T.failures tree.old) (S.left script.old) (S.failures script.old) (C.moment clock.old) (C.failures clock.old)) (inputs (T.content tree.new) (T.failures tree.new) (S.left script.new) (S.failures script.new) (C.moment clock.new) (C.failures clock.new)) result.status }
    ensures write_fault { result.status ≡ Status.WriteFault → OutputFails (outputs (E.taken err.old) (E.failures err.old) (K.taken out.old) (K.failures out.old)) (outputs (E.taken err.new) (E.failures err.new) (K.taken out.new) (K.failures out.new)) }
    // Where all that the command needs is known and in order and no call on the outside failed, all is printed, or memory
    // ran out.
    ensures complete { IsReady command.now.offset (inputs (T.content tree.old) (T.failures tree.old) (S.left script.old) (S.failures script.old) (C.moment clock.old) (C.failures clock.old)) command.now.what → ¬ (InputFails (inputs (T.content tree.old) (T.failures tree.old) (S.left script.old) (S.failures script.old) (C.moment clock.old) (C.failures clock.old)) (inputs (T.content tree.new) (T.failures tree.new) (S.left script.new) (S.failures script.new) (C.moment clock.new) (C.failures clock.new))) → ¬ (OutputFails (outputs (E.taken err.old) (E.failures err.old) (K.taken out.old) (K.failures out.old)) (outputs (E.taken err.new) (E.failures err.new) (K.taken out.new) (K.failures out.new)))
        → (result.status ≡ Status.Memory) ⊎ IsWhole command.now.what (inputs (T.content tree.new) (T.failures tree.new) (S.left script.new) (S.failures script.new) (C.moment clock.new) (C.failures clock.new)) result.status }
{
    let report = asked(rt, alloc, command, tree, script, clock);
    print(report, out, err)
}

/// Reads words and runs their command, as [`run`](crate::run) says of it in one.
pub(crate) fn run_words<R: Threads + Sync, T: Tree, S: Source, C: Clock, K: Sink, E: Sink>(
    rt: &R,
    alloc: Global,
    words: &[String],
    tree: &mut T,
    script: &mut S,
    clock: &mut C,
    out: &mut K,
    err: &mut E,
) -> Outcome
    // What is printed, and the status that goes with it.
    ensures ends { Ends (WordsAsk (texts words.now) (inputs (T.content tree.old) (T.failures tree.old) (S.left script.old) (S.failures script.old) (C.moment clock.old) (C.failures clock.old)) (inputs (T.content tree.new) (T.failures tree.new) (S.left script.new) (S.failures script.new) (C.moment clock.new) (C.failures clock.new))) (outputs (E.taken err.old) (E.failures err.old) (K.taken out.old) (K.failures out.old)) (outputs (E.taken err.new) (E.failures err.new) (K.taken out.new) (K.failures out.new)) result.status }
    // What stays, also where memory runs out: all where the words are not understood, and else what their command does not
    // name, and the content of the tree.
    ensures idle { command_of (texts words.now) ≡ None → inputs (T.content tree.new) (T.failures tree.new) (S.left script.new) (S.failures script.new) (C.moment clock.new) (C.failures clock.new) ≡ inputs (T.content tree.old) (T.failures tree.old) (S.left script.old) (S.failures script.old) (C.moment clock.old) (C.failures clock.old) }
    ensures leaves { (command : Command) → command_of (texts words.now) ≡ Some command → Leaves command.what (inputs (T.content tree.old) (T.failures tree.old) (S.left script.old) (S.failures script.old) (C.moment clock.old) (C.failures clock.old)) (inputs (T.content tree.new) (T.failures tree.new) (S.left script.new) (S.failures script.new) (C.moment clock.new) (C.failures clock.new)) }
    // What was asked of the tree, also where memory runs out.
    ensures so_far { (command : Command) → command_of (texts words.now) ≡ Some command → AsksSoFar command.offset command.what (inputs (T.content tree.old) (T.failures tree.old) (S.left script.old) (S.failures script.old) (C.moment clock.old) (C.failures clock.old)) (inputs (T.content tree.new) (T.failures tree.new) (S.left script.new) (S.failures script.new) (C.moment clock.new) (C.failures clock.new)) }
    // The cause of each status.
    ensures usage { result.status ≡ Status.Usage → command_of (texts words.now) ≡ None }
    ensures tells { (command : Command) → command_of (texts words.now) ≡ Some command → Tells command.offset command.what (inputs (T.content tree.old) (T.failures tree.old) (S.left script.old) (S.failures script.old) (C.moment clock.old) (C.failures clock.old)) (inputs (T.content tree.new) (T.failures tree.new) (S.left script.new) (S.failures script.new) (C.moment clock.new) (C.failures clock.new)) result.status }
    ensures write_fault { result.status ≡ Status.WriteFault → OutputFails (outputs (E.taken err.old) (E.failures err.old) (K.taken out.old) (K.failures out.old)) (outputs (E.taken err.new) (E.failures err.new) (K.taken out.new) (K.failures out.new)) }
    // Where the words are understood, all that their command needs is known and in order and no call on the outside failed,
    // all is printed, or memory ran out.
    ensures complete { (command : Command) → command_of (texts words.now) ≡ Some command
        → IsReady command.offset (inputs (T.content tree.old) (T.failures tree.old) (S.left script.old) (S.failures script.old) (C.moment clock.old) (C.failures clock.old)) command.what → ¬ (InputFails (inputs (T.content tree.old) (T.failures tree.old) (S.left script.old) (S.failures script.old) (C.moment clock.old) (C.failures clock.old)) (inputs (T.content tree.new) (T.failures tree.new) (S.left script.new) (S.failures script.new) (C.moment clock.new) (C.failures clock.new))) → ¬ (OutputFails (outputs (E.taken err.old) (E.failures err.old) (K.taken out.old) (K.failures out.old)) (outputs (E.taken err.new) (E.failures err.new) (K.taken out.new) (K.failures out.new)))
        → (result.status ≡ Status.Memory) ⊎ IsWhole command.what (inputs (T.content tree.new) (T.failures tree.new) (S.left script.new) (S.failures script.new) (C.moment clock.new) (C.failures clock.new)) result.status }
{
    match read_words(alloc, words) {
        Ok(command) => run_command(rt, alloc, &command, tree, script, clock, out, err),
        Err(WordsError::Usage) => print(usage(alloc), out, err),
        Err(WordsError::Memory) => Outcome {
            status: Status::Memory,
        },
    }
}
