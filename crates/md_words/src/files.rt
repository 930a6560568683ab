// The files that words name.
ghost use Rattle.std.specs.Prelude.{◌≡◌, IfOk, Some, None, if◌then◌else◌};
ghost use Rattle.std.specs.List.{list_any};
ghost use Rattle.md_words.specs.Words.{texts, path_of, paths_of, files_of, files_below_root, is_root};

use crate::word::first_word;
use md_value::{Path, PathError, PlainVec};
use std::alloc::{AllocError, Global};

/// The path that a word writes. It may be the root.
#[tactic(auto, unfolding(crate::specs::Words::path_of))]
pub fn path_of(alloc: Global, word: &str) -> Result<Option<Path>, AllocError>
    ensures { IfOk result (λ path. path ≡ path_of word.now) }
{
    match Path::read(alloc, word) {
        Ok(path) => Ok(Some(path)),
        Err(PathError::Bad) => Ok(None),
        Err(PathError::Memory) => Err(AllocError),
    }
}

fn paths_of(alloc: Global, words: &[String]) -> Result<Option<PlainVec<Path>>, AllocError>
    ensures { IfOk result (λ paths. paths ≡ paths_of (texts words.now)) }
{
    let mut paths = PlainVec::new(alloc);
    let mut rest = words;
    while let Some((word, after)) = first_word(rest) {
        let Some(path) = path_of(alloc, word)? else {
            return Ok(None);
        };
        paths.push(path)?;
        rest = after;
    }
    Ok(Some(paths))
}

/// The paths of one file or more: `None` where there is no word, or one is no path.
#[tactic(auto, unfolding(crate::specs::Words::files_of))]
pub fn files_of(alloc: Global, words: &[String]) -> Result<Option<PlainVec<Path>>, AllocError>
    ensures { IfOk result (λ files. files ≡ files_of (texts words.now)) }
{
    if words.is_empty() {
        return Ok(None);
    }
    paths_of(alloc, words)
}

fn has_root(paths: &[Path]) -> bool
    ensures { result ≡ list_any is_root paths.now }
{
    paths.iter().any(|path| path.is_root())
}

fn below_root(files: PlainVec<Path>) -> Option<PlainVec<Path>>
    ensures { result ≡ (if list_any is_root files then None else Some files) }
{
    if has_root(files.as_slice()) {
        return None;
    }
    Some(files)
}

/// The paths of one file or more, none of which is the root.
#[tactic(auto, unfolding(crate::specs::Words::files_below_root))]
pub fn files_below_root(
    alloc: Global,
    words: &[String],
) -> Result<Option<PlainVec<Path>>, AllocError>
    ensures { IfOk result (λ files. files ≡ files_below_root (texts words.now)) }
{
    match files_of(alloc, words)? {
        Some(files) => Ok(below_root(files)),
        None => Ok(None),
    }
}
