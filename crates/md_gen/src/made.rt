// Files and a script, made from a number.
ghost use Rattle.std.specs.Prelude.{◌≡◌, ◌≤◌, ◌∷◌, [], IfOk, codes, string_bytes};
ghost use Rattle.md_source.specs.Tree.{IsContent};
ghost use Rattle.md_gen.specs.Files.{files};
ghost use Rattle.md_gen.specs.Scripts.{script};
ghost use Rattle.md_words.specs.Grammar.{most_made};

use crate::draws::Draws;
use crate::files::files;
use crate::script::script;
use md_source::Entry;
use md_value::PlainVec;
use std::alloc::{AllocError, Global};

/// Files and a script over them.
#[derive(Debug, Drop)]
pub struct Made {
    /// Each with its bytes, in the order in which they were drawn.
    pub files: Vec<(Entry, PlainVec<u8>)>,
    /// Lines, each ended by a line feed.
    pub script: String,
}

/// Makes so many files, from 1 to 10,000, and a script over them, whose words and clients are drawn from a
/// sequence that begins at the start. The files have distinct paths in the folder `g`. Fails only where memory runs out.
#[tactic(auto, unfolding(crate::specs::Files::files, crate::specs::Scripts::script))]
pub fn make(alloc: Global, start: u64, n: u32) -> Result<Made, AllocError>
    requires some { 1 ≤ n }
    requires most { n ≤ most_made }
    ensures files { IfOk result (λ made. made.files.items ≡ files start n) }
    ensures script { IfOk result (λ made. string_bytes made.script ≡ script start n) }
    ensures content { IfOk result (λ made. IsContent (record { folders = [] ∷ codes "g" ∷ []; files = made.files.items })) }
{
    let mut draws = Draws { state: start };
    let files = files(alloc, &mut draws, n)?;
    let script = script(alloc, files.as_slice(), &mut draws)?;
    Ok(Made { files, script })
}
