// The top call.
ghost use Rattle.std.specs.Prelude.{◌≡◌, true};
ghost use Rattle.md_words.specs.Words.{texts};
ghost use Rattle.md_words.specs.Grammar.{is_offered};
ghost use Rattle.md_tool.specs.Outside.{outside, files, bytes, shown};
ghost use Rattle.md_tool.specs.Runs.{CommandRuns, Runs};

use crate::Outcome;
use crate::running::{run_command, run_words};
use md_source::{Clock, Sink, Source, Tree};
use md_words::Command;
use std::alloc::Global;
use std::thread::Threads;

/// Runs a command: `mdfind`, `mdls` and `mdimport` over the tree, `live` over the script, and `gen` over files that
/// it makes. The whole text for `err` is put before that for `out`.
///
/// The command is one that `read_words` gives. A tool calls only what it needs: `mdfind` the clock once and then the
/// tree, `mdls` and `mdimport` the tree alone, the lists of importers and attributes nothing, `live` the script,
/// which has at most 67,108,864 bytes and 100,000 lines, then the clock once, and then the tree for the files that
/// the script imports, and `gen` nothing. `mdfind` imports files in as many threads as there are processors.
pub fn run_tool<R: Threads + Sync, T: Tree, S: Source, C: Clock, K: Sink, E: Sink>(
    rt: &R,
    alloc: Global,
    command: &Command,
    tree: &mut T,
    script: &mut S,
    clock: &mut C,
    out: &mut K,
    err: &mut E,
) -> Outcome
    requires { is_offered command.now.what ≡ true }
    // What the command does, from the outside before it to the outside after it.
    ensures runs { CommandRuns command.now
        (outside (files (T.content tree.old) (T.failures tree.old)) (bytes (S.left script.old) (S.failures script.old))
        (shown (C.moment clock.old) (C.failures clock.old))
        (bytes (K.taken out.old) (K.failures out.old)) (bytes (E.taken err.old) (E.failures err.old)))
        (outside (files (T.content tree.new) (T.failures tree.new)) (bytes (S.left script.new) (S.failures script.new))
        (shown (C.moment clock.new) (C.failures clock.new))
        (bytes (K.taken out.new) (K.failures out.new)) (bytes (E.taken err.new) (E.failures err.new)))
        result.status }
{
    run_command(rt, alloc, command, tree, script, clock, out, err)
}

/// The top call: reads the words of the program and runs their command as `run_tool` does. Words that are not
/// understood have a line on `err`, and nothing else is called.
pub fn run<R: Threads + Sync, T: Tree, S: Source, C: Clock, K: Sink, E: Sink>(
    rt: &R,
    alloc: Global,
    words: &[String],
    tree: &mut T,
    script: &mut S,
    clock: &mut C,
    out: &mut K,
    err: &mut E,
) -> Outcome
    // What the words do, from the outside before it to the outside after it.
    ensures runs { Runs (texts words.now)
        (outside (files (T.content tree.old) (T.failures tree.old)) (bytes (S.left script.old) (S.failures script.old))
        (shown (C.moment clock.old) (C.failures clock.old))
        (bytes (K.taken out.old) (K.failures out.old)) (bytes (E.taken err.old) (E.failures err.old)))
        (outside (files (T.content tree.new) (T.failures tree.new)) (bytes (S.left script.new) (S.failures script.new))
        (shown (C.moment clock.new) (C.failures clock.new))
        (bytes (K.taken out.new) (K.failures out.new)) (bytes (E.taken err.new) (E.failures err.new)))
        result.status }
{
    run_words(rt, alloc, words, tree, script, clock, out, err)
}
