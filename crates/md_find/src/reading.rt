// The files below a folder, listed and read one after the other.
ghost use Rattle.std.specs.Prelude.{◌≡◌, ◌≤◌, IfOk, OnErr, IsErrOf};
ghost use Rattle.md_source.specs.Tree.{ListHasCause};
ghost use Rattle.md_files.specs.FileAnswers.{IsRead, InTurnSoFar};
ghost use Rattle.md_files.specs.Folders.{AreRead, HasNoFolder, IsListed};
ghost use Rattle.md_find.specs.Files.{prefix_answer, entries_of, answers_of};

use md_files::{in_path_order, read_prefix};
use md_source::{Entry, ListEnd, ReadEnd, Tree};
use md_value::{Copied, Path};
use std::alloc::{AllocError, Global};

/// What a tree gives of a file.
#[derive(Drop)]
pub enum Prefix {
    /// The first bytes, as many as are read.
    Bytes(Vec<u8>),
    /// There is no file of this path.
    Absent,
    /// The tree failed.
    Failed,
}

/// A file of a listing, and what the tree gives of it.
#[derive(Drop)]
pub struct ReadFile {
    pub entry: Entry,
    pub prefix: Prefix,
}

/// The files below a folder, ascending by path.
///
/// `Absent` comes where the tree has no such folder, `Failed` where its call failed.
pub fn list_files<T: Tree>(
    alloc: Global,
    tree: &mut T,
    folder: &Path,
) -> Result<Vec<Entry>, ListEnd>
    ensures listed { IfOk result (λ entries. IsListed (T.content tree.old) folder.now entries.items) }
    ensures absent { IsErrOf result ListEnd.Absent → HasNoFolder (T.content tree.old) folder.now }
    ensures cause { ListHasCause (T.failures tree.old) (T.failures tree.new) result }
    ensures content { T.content tree.new ≡ T.content tree.old }
{
    let entries = in_path_order(tree.list(alloc, folder)?);
    Ok(entries)
}

fn read_file<T: Tree>(alloc: Global, tree: &mut T, entry: &Entry) -> Result<Prefix, AllocError>
    ensures read { IfOk result (λ prefix. IsRead (T.content tree.old) (T.failures tree.old) (T.failures tree.new) entry.now (prefix_answer entry.now prefix)) }
    ensures kept { OnErr result (T.failures tree.new ≡ T.failures tree.old) }
    ensures later { T.failures tree.old ≤ T.failures tree.new }
    ensures content { T.content tree.new ≡ T.content tree.old }
{
    match read_prefix(alloc, tree, &entry.path) {
        Ok(bytes) => Ok(Prefix::Bytes(bytes)),
        Err(ReadEnd::Absent) => Ok(Prefix::Absent),
        Err(ReadEnd::Failed) => Ok(Prefix::Failed),
        Err(ReadEnd::Memory) => Err(AllocError),
    }
}

/// Asks a tree for the bytes of these files in turn. Fails only where memory runs out.
pub fn read_files<T: Tree>(
    alloc: Global,
    tree: &mut T,
    entries: &[Entry],
) -> Result<Vec<ReadFile>, AllocError>
    ensures entries { IfOk result (λ files. entries_of files.items ≡ entries.now) }
    ensures read { IfOk result (λ files. AreRead (T.content tree.old) (T.failures tree.old) (T.failures tree.new) entries.now (answers_of files.items)) }
    // Also where memory runs out.
    ensures so_far { InTurnSoFar (IsRead (T.content tree.old)) (T.failures tree.old) (T.failures tree.new) entries.now }
    ensures later { T.failures tree.old ≤ T.failures tree.new }
    ensures content { T.content tree.new ≡ T.content tree.old }
{
    let mut files = Vec::new(alloc);
    for entry in entries {
        let prefix = read_file(alloc, tree, entry)?;
        let entry = entry.copy(alloc)?;
        files.push(ReadFile { entry, prefix })?;
    }
    Ok(files)
}
