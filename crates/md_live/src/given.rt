// What the tree gives to the `import` lines of a script.
ghost use Rattle.std.specs.Prelude.{◌≡◌, ◌≤◌, IfOk, OnErr, Some};
ghost use Rattle.md_files.specs.FileAnswers.{Gives, IsAsked, InTurnSoFar};
ghost use Rattle.md_live.specs.Given.{IsGiven, AreGiven};

use md_files::{ImportResult, ask_file};
use md_script::{Line, What};
use md_source::Tree;
use std::alloc::{AllocError, Global};

// What the tree gives to a line: the file that it imports.
fn give<T: Tree>(
    alloc: Global,
    tree: &mut T,
    offset: i32,
    line: &Line,
) -> Result<Option<ImportResult>, AllocError>
    ensures given { IfOk result (λ given. IsGiven offset (T.content tree.old) (T.failures tree.old) (T.failures tree.new) line.now given) }
    ensures kept { OnErr result (T.failures tree.new ≡ T.failures tree.old) }
    ensures later { T.failures tree.old ≤ T.failures tree.new }
    ensures content { T.content tree.new ≡ T.content tree.old }
{
    match &line.what {
        What::Import { path } => Ok(Some(ask_file(alloc, tree, path, offset)?)),
        _ => Ok(None),
    }
}

/// What the tree gives to the lines, in turn: the files that they import. A date alone is the first second of that day at
/// `offset`, in minutes by which local time is ahead of UTC.
pub fn give_all<T: Tree>(
    alloc: Global,
    tree: &mut T,
    offset: i32,
    lines: &[Line],
) -> Result<Vec<Option<ImportResult>>, AllocError>
    ensures given { IfOk result (λ givens. AreGiven offset (T.content tree.old) (T.failures tree.old) (T.failures tree.new) lines.now givens.items) }
    // Also where memory runs out.
    ensures so_far { InTurnSoFar (IsGiven offset (T.content tree.old)) (T.failures tree.old) (T.failures tree.new) lines.now }
    ensures later { T.failures tree.old ≤ T.failures tree.new }
    ensures content { T.content tree.new ≡ T.content tree.old }
{
    let mut givens = Vec::new(alloc);
    for line in lines {
        givens.push(give(alloc, tree, offset, line)?)?;
    }
    Ok(givens)
}
