// How many files are read before they are imported and tested. The bytes of no others are held with theirs, and of a file
// that is tested only its path.
ghost use Rattle.std.specs.Prelude.{◌≡◌, ◌<◌, ◌≤◌, ◌++◌, length};

use imp_kind::{FileKind, kind_of};
use md_source::Entry;

const MOST_FILES: usize = 1_000;

// In bytes, by the sizes in the entries.
const MOST_CONTENT: u64 = 32 << 20;

// How many bytes may be read of a file, by its entry.
fn read_size(entry: &Entry) -> u64 {
    match kind_of(&entry.path) {
        FileKind::Other => 0,
        _ => entry.size,
    }
}

// How many of the first of these files make a batch.
fn batch_len(entries: &[Entry]) -> usize
    requires { 0 < length entries.now }
    ensures some { 0 < result }
    ensures within { result ≤ length entries.now }
{
    let most = entries.len().min(MOST_FILES);
    let mut room = MOST_CONTENT;
    for place in 0..most {
        let size = read_size(&entries[place]);
        if place > 0 && size > room {
            return place;
        }
        room = room.saturating_sub(size);
    }
    most
}

/// The first of these files that make a batch, and the others. A batch has as many files as have no more than 32 MiB, but
/// one at least and at most 1,000.
pub fn first_batch(entries: &[Entry]) -> (&[Entry], &[Entry])
    requires { 0 < length entries.now }
    ensures whole { result.0.now ++ result.1.now ≡ entries.now }
    ensures some { 0 < length result.0.now }
{
    entries.split_at(batch_len(entries))
}
