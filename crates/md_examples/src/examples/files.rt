// The files of an example's tree.
use crate::examples::archive::Section;
use crate::examples::error::ExampleError;
use crate::examples::header::{FileSetting, Settings, push_folders};
use md_rows::turns_of;
use md_source::Entry;
use md_value::{Path, PathError, PlainVec};
use std::alloc::{AllocError, Global};

/// A file of the tree.
pub type File = (Entry, PlainVec<u8>);

/// The file of a section `file PATH`.
pub fn file_of(
    alloc: Global,
    section: &Section,
    settings: &Settings,
) -> Result<File, ExampleError> {
    let name = section.name(alloc)?;
    file_at(alloc, section, settings, &name)
}

// The file of this path with a section's content.
fn file_at(
    alloc: Global,
    section: &Section,
    settings: &Settings,
    name: &str,
) -> Result<File, ExampleError> {
    let path = match Path::read(alloc, name) {
        Ok(path) => path,
        Err(PathError::Bad) => return Err(section.error("not a path")),
        Err(PathError::Memory) => return Err(ExampleError::from(AllocError)),
    };
    let content = section.bytes(alloc)?;
    let size = set_for(&settings.sizes, &path).unwrap_or(content.len() as u64);
    let changed = set_for(&settings.changed, &path).unwrap_or(settings.clock);
    let entry = Entry {
        path,
        size,
        changed,
    };
    Ok((entry, PlainVec::from_vec(content)))
}

/// Adds the files of a section `files FIRST..LAST PATH`, in whose path `#` is the file's number.
pub fn push_numbered(
    alloc: Global,
    section: &Section,
    settings: &Settings,
    files: &mut Vec<File>,
) -> Result<(), ExampleError> {
    let name = section.name(alloc)?;
    let Some((numbers, path)) = name.split_once(' ') else {
        return Err(section.error("no path"));
    };
    let Some((first, last)) = turns_of(numbers.as_bytes()) else {
        return Err(section.error("not numbers of files"));
    };
    let Some((before, after)) = path.split_once('#') else {
        return Err(section.error("no `#` in the path"));
    };
    for number in first..=last {
        let path = format!(in alloc; "{before}{number}{after}")?;
        files.push(file_at(alloc, section, settings, &path)?)?;
    }
    Ok(())
}

/// Puts the files in the order of their paths, and adds the folders that they stand in.
pub fn finish(
    alloc: Global,
    files: &mut Vec<File>,
    settings: &mut Settings,
) -> Result<(), ExampleError> {
    files.sort_unstable_by(|(entry, _), (other, _)| entry.path.as_str().cmp(other.path.as_str()));
    for (entry, _) in files.iter() {
        push_folders(alloc, entry.path.as_str(), &mut settings.folders)?;
    }
    check_paths(&settings.changed, files)?;
    check_paths(&settings.sizes, files)
}

// What the settings say of the file of a path; the last one counts.
fn set_for<T: Copy>(settings: &[FileSetting<T>], path: &Path) -> Option<T> {
    let mut value = None;
    for setting in settings {
        if setting.path == *path {
            value = Some(setting.value);
        }
    }
    value
}

// That each setting is of a file that is there.
fn check_paths<T>(settings: &[FileSetting<T>], files: &[File]) -> Result<(), ExampleError> {
    for setting in settings {
        if !files.iter().any(|(entry, _)| entry.path == setting.path) {
            return Err(ExampleError::Line(setting.line, "no file has this path"));
        }
    }
    Ok(())
}
