// The tree of the files below a real folder.
ghost use Rattle.std.specs.Prelude.{◌≡◌, ◌≤◌, ◌≢◌, IfOk, vec_len, None};
ghost use Rattle.md_value.specs.Values.{IsMoment};
ghost use Rattle.md_source.specs.Adapters.{folder_failures};
ghost use Rattle.md_source.specs.Causes.{Rose};

use crate::failure::count_failure;
use crate::listing::is_listing;
use crate::{Entry, ListEnd, ReadEnd, Reading, SourceEnd, Tree, read_all};
use md_value::{Copied, HIGH, LOW, Path, PathError};
use std::alloc::{AllocError, Global};
use std::fs::{self, File, Files, Metadata};
use std::io::{self, ErrorKind};
use std::os::unix::fs::MetadataExt;

/// The tree of the plain files below the folder that the process works in, as the system shows it. It follows
/// no link at any place of a path.
///
/// A call fails where the system does, but for what is not there or not a folder. A listing also fails where
/// a name is not UTF-8 or a path has over 4,096 bytes.
#[derive(Drop)]
pub struct Folder<R> {
    rt: R,
    failures: u64,
}

impl<R: Files + AllocGlobal + Clone + Drop> Folder<R> {
    /// The folder that the process works in, with no failure yet.
    pub fn new(rt: R) -> Folder<R>
        ensures { folder_failures result ≡ 0 }
    {
        Folder { rt, failures: 0 }
    }
}

// Why a call ended, and a failure more where the system failed.
fn end_of(error: &io::Error, failures: &mut u64) -> ReadEnd
    ensures later { failures.old ≤ failures.new }
    ensures failed { result ≡ ReadEnd.Failed → Rose failures.old failures.new }
    ensures kept { result ≢ ReadEnd.Failed → failures.new ≡ failures.old }
{
    match error.kind() {
        ErrorKind::NotFound | ErrorKind::NotADirectory => ReadEnd::Absent,
        ErrorKind::OutOfMemory => ReadEnd::Memory,
        _ => {
            count_failure(failures);
            ReadEnd::Failed
        }
    }
}

fn is_absent(error: &io::Error) -> bool {
    matches!(error.kind(), ErrorKind::NotFound | ErrorKind::NotADirectory)
}

// What the system calls the path.
fn system_path(path: &Path) -> &str {
    if path.is_root() { "." } else { path.as_str() }
}

// The metadata at a path on which each folder is a folder and no link.
fn metadata_at<R: Files>(files: &R, path: &Path) -> io::Result<Metadata> {
    let path = system_path(path);
    for end in 1..path.len() {
        match path.split_at_checked(end) {
            Some((folder, rest)) if rest.starts_with('/') => {
                if !fs::symlink_metadata(files, folder)?.is_dir() {
                    return Err(io::Error::from(ErrorKind::NotADirectory));
                }
            }
            _ => {}
        }
    }
    fs::symlink_metadata(files, path)
}

fn entry_of(path: Path, metadata: &Metadata) -> Entry
    ensures path { result.path ≡ path }
    ensures moment { IsMoment result.changed }
{
    Entry {
        path,
        size: metadata.len(),
        changed: metadata.mtime().clamp(LOW, HIGH),
    }
}

// What a folder has.
#[derive(Drop)]
enum Item {
    File(Entry),
    /// The path of a folder, with a `/` behind it.
    Folder(String),
}

impl Item {
    // The text by which items of one folder come in the order of the paths of all files below it.
    fn text(&self) -> &str {
        match self {
            Item::File(entry) => entry.path.as_str(),
            Item::Folder(text) => text.as_str(),
        }
    }
}

fn path_of(alloc: Global, text: &str) -> io::Result<Path> {
    match Path::read(alloc, text) {
        Ok(path) => Ok(path),
        Err(PathError::Memory) => Err(io::Error::from(AllocError)),
        Err(PathError::Bad) => Err(io::Error::from(ErrorKind::InvalidFilename)),
    }
}

// The text of a folder's path before the names in it.
fn stem_of(alloc: Global, folder: &Path) -> io::Result<String> {
    let mut stem = String::from_str(alloc, folder.as_str())?;
    if !folder.is_root() {
        stem.push('/')?;
    }
    Ok(stem)
}

// The item of a name, whose text follows this stem, or none where it is neither file nor folder, or is gone.
fn item_of<R: Files>(alloc: Global, files: &R, stem: &str, name: &str) -> io::Result<Option<Item>> {
    let mut text = String::with_capacity(
        alloc,
        stem.len().saturating_add(name.len()).saturating_add(1),
    )?;
    text.push_str(stem)?;
    text.push_str(name)?;
    match fs::symlink_metadata(files, text.as_str()) {
        Ok(metadata) if metadata.is_dir() => {
            text.push('/')?;
            Ok(Some(Item::Folder(text)))
        }
        Ok(metadata) if metadata.is_file() => {
            let path = path_of(alloc, text.as_str())?;
            Ok(Some(Item::File(entry_of(path, &metadata))))
        }
        Ok(_) => Ok(None),
        Err(error) if is_absent(&error) => Ok(None),
        Err(error) => Err(error),
    }
}

// Adds the items of one folder to those that are left, the first of them last.
fn visit<R: Files + AllocGlobal + Clone + Drop>(
    alloc: Global,
    rt: &R,
    folder: &Path,
    left: &mut Vec<Item>,
) -> io::Result<()> {
    let stem = stem_of(alloc, folder)?;
    let mut items = Vec::new(alloc);
    for item in fs::read_dir(rt, system_path(folder))? {
        let item = item?;
        if let Some(item) = item_of(alloc, rt, stem.as_str(), item.file_name())? {
            items.push(item)?;
        }
    }
    items.sort_unstable_by(|item, other| other.text().cmp(item.text()));
    left.extend(items)?;
    Ok(())
}

// The entries of all files below a folder, ascending by path. What vanishes meanwhile is left out.
fn walk<R: Files + AllocGlobal + Clone + Drop>(
    alloc: Global,
    rt: &R,
    folder: &Path,
) -> io::Result<Vec<Entry>> {
    let mut entries = Vec::new(alloc);
    let mut left = Vec::new(alloc);
    visit(alloc, rt, folder, &mut left)?;
    for _ in 0..u64::MAX {
        match left.pop() {
            None => break,
            Some(Item::File(entry)) => entries.push(entry)?,
            Some(Item::Folder(text)) => {
                match visit(alloc, rt, &path_of(alloc, text.as_str())?, &mut left) {
                    Err(error) if !is_absent(&error) => return Err(error),
                    _ => {}
                }
            }
        }
    }
    // They are in order, but where a name changed its kind meanwhile.
    entries.sort_unstable_by(|entry, other| entry.path.as_str().cmp(other.path.as_str()));
    entries.dedup_by(|entry, other| entry.path == other.path);
    Ok(entries)
}

impl<R: Files + AllocGlobal + Clone + Drop> Folder<R> {
    // The listing of a folder that is no link, nor is any on the way.
    fn listing(&self, alloc: Global, folder: &Path) -> io::Result<Vec<Entry>> {
        if !metadata_at(&self.rt, folder)?.is_dir() {
            return Err(io::Error::from(ErrorKind::NotADirectory));
        }
        walk(alloc, &self.rt, folder)
    }

    // The metadata of a plain file.
    fn file(&self, path: &Path) -> io::Result<Metadata> {
        let metadata = metadata_at(&self.rt, path)?;
        if !metadata.is_file() {
            return Err(io::Error::from(ErrorKind::NotFound));
        }
        Ok(metadata)
    }

    // A plain file, opened.
    fn open(&self, path: &Path) -> io::Result<R::File> {
        self.file(path)?;
        File::open(&self.rt, path.as_str())
    }
}

impl<R: Files + AllocGlobal + Clone + Drop> Tree for Folder<R> {
    ghost content = { λ f. None };

    ghost failures = { folder_failures };

    fn list(&mut self, alloc: Global, folder: &Path) -> Result<Vec<Entry>, ListEnd> {
        match self.listing(alloc, folder) {
            Ok(entries) => {
                if is_listing(folder, &entries) {
                    Ok(entries)
                } else {
                    count_failure(&mut self.failures);
                    Err(ListEnd::Failed)
                }
            }
            Err(error) => match end_of(&error, &mut self.failures) {
                ReadEnd::Absent => Err(ListEnd::Absent),
                ReadEnd::Failed => Err(ListEnd::Failed),
                ReadEnd::Memory => Err(ListEnd::Memory),
            },
        }
    }

    fn find(&mut self, alloc: Global, path: &Path) -> Result<Entry, ReadEnd> {
        match self.file(path) {
            Ok(metadata) => match path.copy(alloc) {
                Ok(path) => Ok(entry_of(path, &metadata)),
                Err(_) => Err(ReadEnd::Memory),
            },
            Err(error) => Err(end_of(&error, &mut self.failures)),
        }
    }

    fn read(&mut self, alloc: Global, path: &Path, most: usize) -> Result<Vec<u8>, ReadEnd> {
        match self.open(path) {
            Ok(file) => match read_prefix(alloc, file, most) {
                Ok(bytes) => Ok(bytes),
                Err(SourceEnd::Memory) => Err(ReadEnd::Memory),
                Err(SourceEnd::Failed) => {
                    count_failure(&mut self.failures);
                    Err(ReadEnd::Failed)
                }
            },
            Err(error) => Err(end_of(&error, &mut self.failures)),
        }
    }
}

// The first bytes of a reader, at most so many.
fn read_prefix<F: io::Read + Drop>(
    alloc: Global,
    file: F,
    most: usize,
) -> Result<Vec<u8>, SourceEnd>
    ensures { IfOk result (λ bytes. vec_len bytes ≤ most) }
{
    if most == 0 {
        return Ok(Vec::new(alloc));
    }
    // A slice is never so long.
    let last = (most - 1).min(1 << 61);
    read_all(alloc, &mut Reading::new(file), last)
}
