// The text of what a client holds.
ghost use Rattle.std.specs.Prelude.{◌≡◌, ◌++◌, codes, IfOk, OnOk, string_bytes};
ghost use Rattle.std.specs.Option.{option_map};
ghost use Rattle.md_render.specs.Texts.{row_lines, holding_text, held_text, unheld_text, follower_text};

use crate::lines::push_marked;
use md_notice::Follower;
use std::alloc::{AllocError, Global};

/// Appends a line for each row: two spaces and the row's path.
fn push_items(text: &mut String, follower: &Follower) -> Result<(), AllocError>
    ensures { OnOk result (string_bytes text.new ≡ string_bytes text.old ++ row_lines (codes "  ") follower.now.rows) }
{
    for place in 0..follower.len() {
        if let Some(row) = follower.at(place) {
            push_marked(text, "  ", &row.path)?;
        }
    }
    Ok(())
}

fn push_holding(text: &mut String, follower: &Follower) -> Result<(), AllocError>
    ensures { OnOk result (string_bytes text.new ≡ string_bytes text.old ++ holding_text follower.now.version follower.now.rows) }
{
    let count = follower.len();
    let version = follower.version();
    writeln!(text, "holds {count} {version}")?;
    push_items(text, follower)
}

/// Appends a line of the client, the query's number, how many items the client holds and of which version, then a line for
/// each item's path.
fn push_held(
    text: &mut String,
    client: u8,
    number: u32,
    follower: &Follower,
) -> Result<(), AllocError>
    ensures { OnOk result (string_bytes text.new ≡ string_bytes text.old ++ held_text client number follower.now.version follower.now.rows) }
{
    write!(text, "c{client} q{number} ")?;
    push_holding(text, follower)
}

fn push_unheld(text: &mut String, client: u8, number: u32) -> Result<(), AllocError>
    ensures { OnOk result (string_bytes text.new ≡ string_bytes text.old ++ unheld_text client number) }
{
    writeln!(text, "c{client} q{number} holds nothing")
}

/// What a client holds, by its follower, in the follower's order; without one, that it has no live query of the number. Fails
/// only where memory runs out.
pub fn held_text(
    alloc: Global,
    client: u8,
    number: u32,
    follower: Option<&Follower>,
) -> Result<String, AllocError>
    ensures { IfOk result (λ text. string_bytes text ≡ follower_text client number (option_map (λ f. f.now) follower.entry)) }
{
    let mut text = String::new(alloc);
    match follower {
        None => push_unheld(&mut text, client, number)?,
        Some(follower) => push_held(&mut text, client, number, follower)?,
    }
    Ok(text)
}
