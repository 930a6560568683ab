// A tree in memory that fails by a list of call numbers.
ghost use Rattle.std.specs.Prelude.{◌≡◌, ◌≤◌, ◌+◌, ◌-◌, ◌^◌, ◌↔◌, min, true, false, Contains, IfOk, IsErrOf, vec_len, Some, None};
ghost use Rattle.md_value.specs.Values.{IsMoment};
ghost use Rattle.md_source.specs.Memory.{IsNextPlan, new_plan};
ghost use Rattle.md_source.specs.Tree.{IsContent, IsListing, has_folder, entries_below, file_at, entry_at, bytes_at, ListHasCause, ReadHasCause};

use crate::failure::Plan;
use crate::{Entry, ListEnd, ReadEnd, SureTree, Tree};
use md_value::{Path, PlainVec};
use std::alloc::Global;
use std::marker::Model;

/// A tree of folders and files in memory that fails in the calls that are listed, which are numbered from 0.
#[derive(Debug, Drop)]
pub struct MemoryTree {
    tree: SureTree,
    plan: Plan,
}

impl Model for MemoryTree {
    ghost use Rattle.md_source.specs.PlannedTree.{PlannedTree};

    ghost Value = { PlannedTree };

    ghost view = { λ t. record { content = t.tree; plan = t.plan } };
}

impl MemoryTree {
    /// A tree of these folders, the root among them, and of these files, which have distinct paths. Its calls
    /// of these numbers fail.
    pub fn new(folders: Vec<Path>, files: Vec<(Entry, PlainVec<u8>)>, fails: Vec<u64>) -> MemoryTree
        requires { IsContent (record { folders = folders.items; files = files.items }) }
        ensures { result ≡ record { content = record { folders = folders.items; files = files.items }; plan = new_plan fails.items } }
    {
        MemoryTree {
            tree: SureTree::new(folders, files),
            plan: Plan::new(fails),
        }
    }
}

impl Tree for MemoryTree {
    ghost content = { λ t. Some t.content };

    ghost failures = { λ t. t.plan.failures };

    fn list(&mut self, alloc: Global, folder: &Path) -> Result<Vec<Entry>, ListEnd>
        ensures listing { IfOk result (λ entries. IsListing folder.now entries.items) }
        ensures folder { IfOk result (λ entries. has_folder self.old.content.folders folder.now ≡ true) }
        ensures entries { IfOk result (λ entries. entries.items ≡ entries_below self.old.content.files folder.now) }
        ensures absent { IsErrOf result ListEnd.Absent → has_folder self.old.content.folders folder.now ≡ false }
        ensures content { self.new.content ≡ self.old.content }

        ensures listed { IsErrOf result ListEnd.Failed ↔ Contains self.old.plan.fails self.old.plan.calls }
        ensures failure { IsErrOf result ListEnd.Failed → self.new.plan.failures ≡ min (self.old.plan.failures + 1) (2 ^ 64 - 1) }
        ensures cause { ListHasCause self.old.plan.failures self.new.plan.failures result }
        ensures plan { IsNextPlan self.old.plan self.new.plan }
    {
        if self.plan.call().is_err() {
            return Err(ListEnd::Failed);
        }
        self.tree.list(alloc, folder)
    }

    fn find(&mut self, alloc: Global, path: &Path) -> Result<Entry, ReadEnd>
        ensures asked { IfOk result (λ entry. entry.path ≡ path.now) }
        ensures moment { IfOk result (λ entry. IsMoment entry.changed) }
        ensures entry { IfOk result (λ entry. entry_at self.old.content.files path.now ≡ Some entry) }
        ensures absent { IsErrOf result ReadEnd.Absent → file_at self.old.content.files path.now ≡ None }
        ensures content { self.new.content ≡ self.old.content }

        ensures listed { IsErrOf result ReadEnd.Failed ↔ Contains self.old.plan.fails self.old.plan.calls }
        ensures failure { IsErrOf result ReadEnd.Failed → self.new.plan.failures ≡ min (self.old.plan.failures + 1) (2 ^ 64 - 1) }
        ensures cause { ReadHasCause self.old.plan.failures self.new.plan.failures result }
        ensures plan { IsNextPlan self.old.plan self.new.plan }
    {
        if self.plan.call().is_err() {
            return Err(ReadEnd::Failed);
        }
        self.tree.find(alloc, path)
    }

    fn read(&mut self, alloc: Global, path: &Path, most: usize) -> Result<Vec<u8>, ReadEnd>
        ensures most { IfOk result (λ bytes. vec_len bytes ≤ most) }
        ensures bytes { IfOk result (λ bytes. bytes_at self.old.content.files path.now most ≡ Some bytes.items) }
        ensures absent { IsErrOf result ReadEnd.Absent → file_at self.old.content.files path.now ≡ None }
        ensures content { self.new.content ≡ self.old.content }

        ensures listed { IsErrOf result ReadEnd.Failed ↔ Contains self.old.plan.fails self.old.plan.calls }
        ensures failure { IsErrOf result ReadEnd.Failed → self.new.plan.failures ≡ min (self.old.plan.failures + 1) (2 ^ 64 - 1) }
        ensures cause { ReadHasCause self.old.plan.failures self.new.plan.failures result }
        ensures plan { IsNextPlan self.old.plan self.new.plan }
    {
        if self.plan.call().is_err() {
            return Err(ReadEnd::Failed);
        }
        self.tree.read(alloc, path, most)
    }
}
