// Whether entries are a listing, and folders and files what a tree may hold.
ghost use Rattle.std.specs.Prelude.{◌≡◌, [], IsTrue};
ghost use Rattle.std.specs.List.{list_all};
ghost use Rattle.md_source.specs.Tree.{IsListing, IsContent, entries_of, has_folder};
ghost use Rattle.md_source.specs.Listing.{is_file, is_below, is_ascending, are_ordered, is_ordered};

use crate::Entry;
use md_value::{HIGH, LOW, Path, PlainVec};
use std::alloc::Global;

fn is_file(entry: &Entry) -> bool
    ensures { result ≡ is_file entry.now }
{
    !entry.path.is_root() && LOW <= entry.changed && entry.changed <= HIGH
}

fn is_below(folder: &Path, entry: &Entry) -> bool
    ensures { result ≡ is_below folder.now entry.now }
{
    entry.path.inside(folder) && is_file(entry)
}

fn are_below(folder: &Path, entries: &[Entry]) -> bool
    ensures { result ≡ list_all (is_below folder.now) entries.now }
{
    for entry in entries {
        if !is_below(folder, entry) {
            return false;
        }
    }
    true
}

fn are_ascending(entries: &[Entry]) -> bool
    ensures { result ≡ is_ascending entries.now }
{
    let mut rest = entries;
    while let [entry, next, ..] = rest {
        if !entry.path.is_before(&next.path) {
            return false;
        }
        rest = &rest[1..];
    }
    true
}

/// Whether the entries are of files below the folder, ascending by path.
pub(crate) fn is_listing(folder: &Path, entries: &[Entry]) -> bool
    ensures { IsTrue result → IsListing folder.now entries.now }
{
    are_below(folder, entries) && are_ascending(entries)
}

fn are_files(files: &[(Entry, PlainVec<u8>)]) -> bool
    ensures { result ≡ list_all is_file (entries_of files.now) }
{
    for (entry, _) in files {
        if !is_file(entry) {
            return false;
        }
    }
    true
}

fn are_ascending_files(files: &[(Entry, PlainVec<u8>)]) -> bool
    ensures { result ≡ is_ascending (entries_of files.now) }
{
    let mut rest = files;
    while let [(entry, _), (next, _), ..] = rest {
        if !entry.path.is_before(&next.path) {
            return false;
        }
        rest = &rest[1..];
    }
    true
}

#[tactic(auto, unfolding(crate::specs::Listing::are_ordered))]
fn have_distinct_paths(files: &[(Entry, PlainVec<u8>)]) -> bool
    ensures exact { result ≡ are_ordered (entries_of files.now) }
    ensures listing { IsTrue result → IsListing [] (entries_of files.now) }
{
    are_files(files) && are_ascending_files(files)
}

fn has_root(alloc: Global, folders: &[Path]) -> bool
    ensures { result ≡ has_folder folders.now [] }
{
    folders.contains(&Path::root(alloc))
}

/// Whether a tree may hold these folders and files: the root is among the folders, and the files ascend by
/// path, are not the root and were changed at moments. It takes no memory.
#[tactic(auto, unfolding(crate::specs::Listing::is_ordered))]
pub fn is_content(alloc: Global, folders: &[Path], files: &[(Entry, PlainVec<u8>)]) -> bool
    ensures exact { result ≡ is_ordered (record { folders = folders.now; files = files.now }) }
    ensures content { IsTrue result → IsContent (record { folders = folders.now; files = files.now }) }
{
    has_root(alloc, folders) && have_distinct_paths(files)
}
