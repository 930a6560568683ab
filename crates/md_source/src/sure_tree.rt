// A tree in memory that never fails.
ghost use Rattle.std.specs.Prelude.{◌≡◌, ◌≤◌, true, false, find, IfOk, IsErrOf, vec_len, Some, None};
ghost use Rattle.std.specs.Option.{option_copied};
ghost use Rattle.md_value.specs.Values.{IsMoment};
ghost use Rattle.md_source.specs.Tree.{Content, IsContent, IsListing, has_folder, entries_below, file_at, entry_at, bytes_at};
ghost use Rattle.md_source.specs.declared.tree.ListEnd.TheVariants as list_end;
ghost use Rattle.md_source.specs.declared.tree.ReadEnd.TheVariants as read_end;

use crate::{Entry, ListEnd, ReadEnd, Tree};
use md_value::{Copied, Path, PlainVec};
use std::alloc::{AllocError, Global};
use std::marker::Model;

impl From<AllocError> for ListEnd {
    ghost from_gives = { λ _ e. e ≡ list_end.Memory };

    fn from(_: AllocError) -> ListEnd {
        ListEnd::Memory
    }
}

impl From<AllocError> for ReadEnd {
    ghost from_gives = { λ _ e. e ≡ read_end.Memory };

    fn from(_: AllocError) -> ReadEnd {
        ReadEnd::Memory
    }
}

/// A tree of folders and files in memory that never fails.
#[derive(Debug, Drop)]
pub struct SureTree {
    folders: Vec<Path>,
    files: Vec<(Entry, PlainVec<u8>)>,
}

impl Model for SureTree {
    ghost use Rattle.md_source.specs.Tree.{Content, IsContent};

    ghost Value = { Content };

    ghost view = { λ t. record { folders = t.folders.items; files = t.files.items } };

    ghost invariant = { λ t. IsContent (record { folders = t.folders.items; files = t.files.items }) };
}

impl SureTree {
    /// A tree of these folders, the root among them, and of these files, which have distinct paths.
    pub fn new(folders: Vec<Path>, files: Vec<(Entry, PlainVec<u8>)>) -> SureTree
        requires { IsContent (record { folders = folders.items; files = files.items }) }
        ensures { result ≡ record { folders = folders.items; files = files.items } }
    {
        SureTree { folders, files }
    }
}

fn entries_below(
    alloc: Global,
    files: &[(Entry, PlainVec<u8>)],
    folder: &Path,
) -> Result<Vec<Entry>, AllocError>
    ensures { IfOk result (λ entries. entries.items ≡ entries_below files.now folder.now) }
{
    let mut entries = Vec::new(alloc);
    for (entry, _) in files {
        if entry.path.inside(folder) {
            entries.push(entry.copy(alloc)?)?;
        }
    }
    Ok(entries)
}

fn file_at<'a>(files: &'a [(Entry, PlainVec<u8>)], path: &Path) -> Option<&'a (Entry, PlainVec<u8>)>
    ensures { option_copied result ≡ file_at files.now path.now }
{
    for file in files {
        if file.0.path == *path {
            return Some(file);
        }
    }
    None
}

impl Tree for SureTree {
    ghost content = { λ t. Some t };

    ghost failures = { λ t. 0 };

    fn list(&mut self, alloc: Global, folder: &Path) -> Result<Vec<Entry>, ListEnd>
        ensures listing { IfOk result (λ entries. IsListing folder.now entries.items) }
        ensures folder { IfOk result (λ entries. has_folder self.old.folders folder.now ≡ true) }
        ensures entries { IfOk result (λ entries. entries.items ≡ entries_below self.old.files folder.now) }
        ensures absent { IsErrOf result ListEnd.Absent → has_folder self.old.folders folder.now ≡ false }
        ensures sure { ¬ (IsErrOf result ListEnd.Failed) }
        ensures same { self.new ≡ self.old }
    {
        if !self.folders.contains(folder) {
            return Err(ListEnd::Absent);
        }
        let entries = entries_below(alloc, &self.files, folder)?;
        Ok(entries)
    }

    fn find(&mut self, alloc: Global, path: &Path) -> Result<Entry, ReadEnd>
        ensures asked { IfOk result (λ entry. entry.path ≡ path.now) }
        ensures moment { IfOk result (λ entry. IsMoment entry.changed) }
        ensures entry { IfOk result (λ entry. entry_at self.old.files path.now ≡ Some entry) }
        ensures absent { IsErrOf result ReadEnd.Absent → file_at self.old.files path.now ≡ None }
        ensures sure { ¬ (IsErrOf result ReadEnd.Failed) }
        ensures same { self.new ≡ self.old }
    {
        let Some((entry, _)) = file_at(&self.files, path) else {
            return Err(ReadEnd::Absent);
        };
        let found = entry.copy(alloc)?;
        Ok(found)
    }

    fn read(&mut self, alloc: Global, path: &Path, most: usize) -> Result<Vec<u8>, ReadEnd>
        ensures most { IfOk result (λ bytes. vec_len bytes ≤ most) }
        ensures bytes { IfOk result (λ bytes. bytes_at self.old.files path.now most ≡ Some bytes.items) }
        ensures absent { IsErrOf result ReadEnd.Absent → file_at self.old.files path.now ≡ None }
        ensures sure { ¬ (IsErrOf result ReadEnd.Failed) }
        ensures same { self.new ≡ self.old }
    {
        let Some((_, bytes)) = file_at(&self.files, path) else {
            return Err(ReadEnd::Absent);
        };
        let count = most.min(bytes.len());
        let prefix = Vec::from_slice(alloc, &bytes.as_slice()[..count])?;
        Ok(prefix)
    }
}
