// The script over the files that are made.
ghost use Rattle.std.specs.Prelude.{◌≡◌, ◌<◌, ◌≤◌, ◌+◌, ◌-◌, ◌++◌, IfOk, OnOk, length, string_bytes};
ghost use Rattle.md_gen.specs.Scripts.{action, after_action, imports, polls, queries, script_over, step, steps};
ghost use Rattle.md_gen.specs.Draws.{next, drawn};

use crate::draws::Draws;
use crate::lines::{push_asked, push_path, push_query};
use md_source::Entry;
use md_value::PlainVec;
use std::alloc::{AllocError, Global};

/// The clients that ask.
const CLIENTS: [usize; 8] = [0, 1, 2, 3, 4, 5, 6, 7];

/// How many things may follow an import.
const ACTIONS: usize = 4;

// Appends the imports of some files.
fn push_imports(text: &mut String, files: &[(Entry, PlainVec<u8>)]) -> Result<(), AllocError>
    ensures { OnOk result (string_bytes text.new ≡ string_bytes text.old ++ imports files.now) }
{
    for (entry, _) in files {
        push_path(text, "import", &entry.path)?;
    }
    Ok(())
}

// Appends the queries of some clients, each with the beginning of its gathering.
fn push_queries(text: &mut String, clients: &[usize]) -> Result<(), AllocError>
    ensures { OnOk result (string_bytes text.new ≡ string_bytes text.old ++ queries clients.now) }
{
    for client in clients {
        push_query(text, *client)?;
        push_asked(text, "gather", *client)?;
    }
    Ok(())
}

// Appends a poll of each of some clients.
fn push_polls(text: &mut String, clients: &[usize]) -> Result<(), AllocError>
    ensures { OnOk result (string_bytes text.new ≡ string_bytes text.old ++ polls clients.now) }
{
    for client in clients {
        push_asked(text, "poll", *client)?;
    }
    Ok(())
}

// Appends a removal of one of the files up to the i-th, a poll, a disable or an enable, as is drawn.
fn push_action(
    text: &mut String,
    files: &[(Entry, PlainVec<u8>)],
    draws: &mut Draws,
    i: usize,
) -> Result<(), AllocError>
    requires { i < length files.now }
    ensures text { OnOk result (string_bytes text.new ≡ string_bytes text.old ++ action files.now i (next draws.old.state) (drawn draws.old.state 4)) }
    ensures draws { draws.new.state ≡ after_action draws.old.state }
{
    match draws.draw(ACTIONS) {
        0 => {
            let (removed, _) = &files[draws.draw(i + 1)];
            push_path(text, "remove", &removed.path)
        }
        1 => push_asked(text, "poll", draws.draw(CLIENTS.len())),
        2 => push_asked(text, "disable", draws.draw(CLIENTS.len())),
        _ => push_asked(text, "enable", draws.draw(CLIENTS.len())),
    }
}

// Appends the import of the i-th file, and what is drawn to follow it.
#[tactic(auto, unfolding(crate::specs::Scripts::step))]
fn push_step(
    text: &mut String,
    files: &[(Entry, PlainVec<u8>)],
    draws: &mut Draws,
    i: usize,
) -> Result<(), AllocError>
    requires { i < length files.now }
    ensures text { OnOk result (string_bytes text.new ≡ string_bytes text.old ++ step files.now draws.old.state i) }
    ensures draws { OnOk result (draws.new.state ≡ after_action draws.old.state) }
{
    let (imported, _) = &files[i];
    push_path(text, "import", &imported.path)?;
    push_action(text, files, draws, i)
}

// Appends the imports of the files from one on, with what is drawn to follow each.
fn push_steps(
    text: &mut String,
    files: &[(Entry, PlainVec<u8>)],
    draws: &mut Draws,
    first: usize,
) -> Result<(), AllocError>
    requires { first ≤ length files.now }
    ensures { OnOk result (string_bytes text.new ≡ string_bytes text.old ++ steps files.now draws.old.state first (length files.now - first)) }
{
    for i in first..files.len() {
        push_step(text, files, draws, i)?;
    }
    Ok(())
}

/// The script over some files.
#[tactic(auto, unfolding(crate::specs::Scripts::script_over))]
pub(crate) fn script(
    alloc: Global,
    files: &[(Entry, PlainVec<u8>)],
    draws: &mut Draws,
) -> Result<String, AllocError>
    ensures { IfOk result (λ text. string_bytes text ≡ script_over files.now draws.old.state (length files.now)) }
{
    let half = files.len() / 2;
    let mut text = String::new(alloc);
    push_imports(&mut text, &files[..half])?;
    push_queries(&mut text, &CLIENTS)?;
    push_steps(&mut text, files, draws, half)?;
    push_polls(&mut text, &CLIENTS)?;
    Ok(text)
}
