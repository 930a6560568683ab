// The escapes of paths and contents.
ghost use Rattle.std.specs.Prelude.{◌≡◌, IfOk};
ghost use Rattle.std.specs.Option.{option_map};
ghost use Rattle.md_script.specs.Escapes.{Acts, escaped_byte, unescaped};

use crate::lines::first;
use std::alloc::{AllocError, Global};

// The byte that an escape stands for, by what follows its backslash.
#[tactic(auto, unfolding(crate::specs::Escapes::escaped_byte))]
fn escaped_byte(byte: u8) -> Option<u8>
    ensures { result ≡ escaped_byte byte }
{
    match byte {
        b's' => Some(b' '),
        b't' => Some(b'\t'),
        b'n' => Some(b'\n'),
        b'r' => Some(b'\r'),
        b'\\' => Some(b'\\'),
        _ => None,
    }
}

/// What a byte of an escaped text does.
#[derive(Clone, Copy, Debug, PartialEq, Eq)]
pub enum Act {
    Escape,
    Add(u8),
    Fail,
}

fn act_of(escaping: bool, byte: u8) -> Act
    ensures { Acts escaping byte result }
{
    if !escaping {
        return if byte == b'\\' {
            Act::Escape
        } else {
            Act::Add(byte)
        };
    }
    match escaped_byte(byte) {
        Some(byte) => Act::Add(byte),
        None => Act::Fail,
    }
}

/// The text that is written with escapes, or `None` where a backslash begins none.
#[tactic(auto, unfolding(crate::specs::Escapes::unescaped))]
pub fn unescaped(alloc: Global, text: &[u8]) -> Result<Option<Vec<u8>>, AllocError>
    ensures { IfOk result (λ r. option_map (λ v. v.items) r ≡ unescaped text.now) }
{
    let mut bytes = Vec::with_capacity(alloc, text.len())?;
    let mut escaping = false;
    let mut rest = text;
    while let Some((byte, tail)) = first(rest) {
        rest = tail;
        match act_of(escaping, byte) {
            Act::Escape => escaping = true,
            Act::Add(byte) => {
                bytes.push(byte)?;
                escaping = false;
            }
            Act::Fail => return Ok(None),
        }
    }
    if escaping { Ok(None) } else { Ok(Some(bytes)) }
}
