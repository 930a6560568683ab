// Trees of files.
ghost use Rattle.std.specs.Prelude.{◌≡◌, ◌≤◌, ℕ, true, false, IfOk, IfSome, IsErrOf, IsPermutation, vec_len, Option, Some, None};
ghost use Rattle.md_value.specs.Values.{IsMoment};
ghost use Rattle.md_source.specs.Tree.{Content, IsListing, has_folder, entries_below, file_at, entry_at, bytes_at, ListHasCause, ReadHasCause};

use md_value::{Copied, Path};
use std::alloc::{AllocError, Global};

/// A file of a tree.
#[derive(Debug, Drop)]
pub struct Entry {
    pub path: Path,
    /// In bytes.
    pub size: u64,
    /// The moment of its last change, in seconds since 1970 in UTC.
    pub changed: i64,
}

impl Copied for Entry {
    fn copy(&self, alloc: Global) -> Result<Entry, AllocError> {
        Ok(Entry {
            path: self.path.copy(alloc)?,
            size: self.size,
            changed: self.changed,
        })
    }
}

/// Why a folder was not listed.
#[derive(Clone, Copy, Debug, PartialEq, Eq)]
pub enum ListEnd {
    /// There is no folder of this path.
    Absent,
    /// The tree failed.
    Failed,
    Memory,
}

/// Why a file was not found or read.
#[derive(Clone, Copy, Debug, PartialEq, Eq)]
pub enum ReadEnd {
    /// There is no file of this path.
    Absent,
    /// The tree failed.
    Failed,
    Memory,
}

/// A tree of folders and files.
pub trait Tree {
    /// The folders and the files, where the tree tells them. No call changes them.
    ghost content: { Self → Option Content };

    /// How often the tree has failed.
    ghost failures: { Self → ℕ };

    /// The entries of all files below a folder, in any order.
    fn list(&mut self, alloc: Global, folder: &Path) -> Result<Vec<Entry>, ListEnd>
        ensures listing { IfOk result (λ entries. IsListing folder.now entries.items) }
        ensures cause { ListHasCause (failures self.old) (failures self.new) result }
        ensures content { content self.new ≡ content self.old }

        // Where the content is known.
        ensures folder { IfOk result (λ entries. IfSome (content self.old) (λ known. has_folder known.folders folder.now ≡ true)) }
        ensures entries { IfOk result (λ entries. IfSome (content self.old) (λ known. IsPermutation (entries_below known.files folder.now) entries.items)) }
        ensures absent { IsErrOf result ListEnd.Absent → IfSome (content self.old) (λ known. has_folder known.folders folder.now ≡ false) };

    /// The entry of a file.
    fn find(&mut self, alloc: Global, path: &Path) -> Result<Entry, ReadEnd>
        ensures asked { IfOk result (λ entry. entry.path ≡ path.now) }
        ensures moment { IfOk result (λ entry. IsMoment entry.changed) }
        ensures cause { ReadHasCause (failures self.old) (failures self.new) result }
        ensures content { content self.new ≡ content self.old }

        // Where the content is known.
        ensures entry { IfOk result (λ entry. IfSome (content self.old) (λ known. entry_at known.files path.now ≡ Some entry)) }
        ensures absent { IsErrOf result ReadEnd.Absent → IfSome (content self.old) (λ known. file_at known.files path.now ≡ None) };

    /// The first bytes of a file, at most so many, or all where there are fewer.
    fn read(&mut self, alloc: Global, path: &Path, most: usize) -> Result<Vec<u8>, ReadEnd>
        ensures most { IfOk result (λ bytes. vec_len bytes ≤ most) }
        ensures cause { ReadHasCause (failures self.old) (failures self.new) result }
        ensures content { content self.new ≡ content self.old }

        // Where the content is known.
        ensures bytes { IfOk result (λ bytes. IfSome (content self.old) (λ known. bytes_at known.files path.now most ≡ Some bytes.items)) }
        ensures absent { IsErrOf result ReadEnd.Absent → IfSome (content self.old) (λ known. file_at known.files path.now ≡ None) };
}
