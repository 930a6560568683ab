// The asking of a file.
ghost use Rattle.std.specs.Prelude.{◌≡◌, ◌≤◌, true, false, IfOk, OnErr, IsErrOf};
ghost use Rattle.md_value.specs.Values.{IsMoment};
ghost use Rattle.md_source.specs.Tree.{ReadHasCause};
ghost use Rattle.imp_kind.specs.Imports as imports;
ghost use Rattle.md_files.specs.FileAnswers.{IsAsked, IsRead, IsPrefix, HasNoFile, Gives, is_read, of_import};

use imp_kind::{FileKind, Imported, import, kind_of};
use md_source::{Entry, ReadEnd, Tree};
use md_value::{Attrs, Fault, Path};
use std::alloc::{AllocError, Global};

/// The most bytes of a file that are read, one more than are imported.
const MOST_READ: usize = 16_777_217;

/// What the asking of a file gives.
#[derive(Debug, Drop)]
pub enum ImportResult {
    Attrs(Attrs),
    /// The first thing that is wrong with the file.
    Fault(Fault),
    /// There is no file of this path.
    Absent,
    /// The tree failed.
    Failed,
}

/// The first bytes of a file, at most 16,777,217 of them, or none with no call where no importer looks at them.
///
/// `Absent` comes where the tree has no file of this path, `Failed` where its call failed.
pub fn read_prefix<T: Tree>(alloc: Global, tree: &mut T, path: &Path) -> Result<Vec<u8>, ReadEnd>
    ensures prefix { IfOk result (λ bytes. IsPrefix (T.content tree.old) path.now bytes.items) }
    ensures absent { IsErrOf result ReadEnd.Absent → HasNoFile (T.content tree.old) path.now }
    ensures read_absent { IsErrOf result ReadEnd.Absent → is_read path.now ≡ true }
    ensures read_failed { IsErrOf result ReadEnd.Failed → is_read path.now ≡ true }
    ensures cause { ReadHasCause (T.failures tree.old) (T.failures tree.new) result }
    ensures content { T.content tree.new ≡ T.content tree.old }
{
    match kind_of(path) {
        FileKind::Other => Ok(Vec::new(alloc)),
        _ => tree.read(alloc, path, MOST_READ),
    }
}

/// What a file with this entry and these first bytes gives. A date alone is the first second of that day at `offset`, in
/// minutes by which local time is ahead of UTC. Fails only where memory runs out.
pub fn imported(
    alloc: Global,
    entry: &Entry,
    bytes: &[u8],
    offset: i32,
) -> Result<ImportResult, AllocError>
    requires { IsMoment entry.now.changed }
    ensures { IfOk result (λ asked. asked ≡ of_import (imports.import entry.now bytes.now offset)) }
{
    match import(alloc, entry, bytes, offset) {
        Imported::Attrs(attrs) => Ok(ImportResult::Attrs(attrs)),
        Imported::Fault(fault) => Ok(ImportResult::Fault(fault)),
        Imported::Memory => Err(AllocError),
    }
}

/// Asks a tree for the bytes of a file whose entry is known, and imports it, as [`ask_file`] does.
pub(crate) fn read_file<T: Tree>(
    alloc: Global,
    tree: &mut T,
    entry: &Entry,
    offset: i32,
) -> Result<ImportResult, AllocError>
    requires { IsMoment entry.now.changed }
    ensures asked { IfOk result (λ asked. Gives (IsRead (T.content tree.old) (T.failures tree.old) (T.failures tree.new) entry.now) offset asked) }
    ensures kept { OnErr result (T.failures tree.new ≡ T.failures tree.old) }
    ensures later { T.failures tree.old ≤ T.failures tree.new }
    ensures content { T.content tree.new ≡ T.content tree.old }
{
    match read_prefix(alloc, tree, &entry.path) {
        Ok(bytes) => imported(alloc, entry, &bytes, offset),
        Err(ReadEnd::Absent) => Ok(ImportResult::Absent),
        Err(ReadEnd::Failed) => Ok(ImportResult::Failed),
        Err(ReadEnd::Memory) => Err(AllocError),
    }
}

/// Asks a tree for the file of a path, and imports it. A date alone is the first second of that day at `offset`, in
/// minutes by which local time is ahead of UTC.
///
/// At most 16,777,217 bytes of the file are read, and none where no importer looks at them. `Absent` comes where the tree
/// has no file of this path, `Failed` where one of its calls failed. Fails only where memory runs out.
pub fn ask_file<T: Tree>(
    alloc: Global,
    tree: &mut T,
    path: &Path,
    offset: i32,
) -> Result<ImportResult, AllocError>
    ensures asked { IfOk result (λ asked. Gives (IsAsked (T.content tree.old) (T.failures tree.old) (T.failures tree.new) path.now) offset asked) }
    ensures kept { OnErr result (T.failures tree.new ≡ T.failures tree.old) }
    ensures later { T.failures tree.old ≤ T.failures tree.new }
    ensures content { T.content tree.new ≡ T.content tree.old }
{
    match tree.find(alloc, path) {
        Ok(entry) => read_file(alloc, tree, &entry, offset),
        Err(ReadEnd::Absent) => Ok(ImportResult::Absent),
        Err(ReadEnd::Failed) => Ok(ImportResult::Failed),
        Err(ReadEnd::Memory) => Err(AllocError),
    }
}
