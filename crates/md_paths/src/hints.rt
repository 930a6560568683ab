// Guesses at the number of a path, by a hash of its text. What is not found here may be there all the same.
ghost use Rattle.std.specs.Prelude.{◌≡◌, true, IfSome};
ghost use Rattle.md_paths.specs.Tables.{has_at};

use crate::table::has_at;
use md_value::Path;
use std::alloc::{AllocError, Global};
use std::ops::Range;

// The offset and the prime of the hash FNV-1a of 64 bits.
const HASH_OFFSET: u64 = 0xcbf2_9ce4_8422_2325;

const HASH_PRIME: u64 = 0x0100_0000_01b3;

// How many buckets there are at first.
const FIRST_BUCKETS: usize = 64;
// How many buckets in a row are tried.
const TRIES: usize = 16;
// The low bits of a bucket hold a number and one more, the others a part of the hash.
const NUMBER_BITS: u32 = 24;

const NUMBER_MASK: u32 = (1 << NUMBER_BITS) - 1;

/// A power of two of buckets. Each is 0 where it is empty, or has the number of a path that was noted there.
#[derive(Drop)]
pub struct Hints {
    buckets: Vec<u32>,
}

// FNV-1a, with its upper half folded into the lower one.
fn hash_of(path: &Path) -> u64 {
    let mut hash = HASH_OFFSET;
    for byte in path.as_str().as_bytes() {
        hash = (hash ^ u64::from(*byte)).wrapping_mul(HASH_PRIME);
    }
    hash ^ (hash >> 32)
}

// The part of a hash that a bucket holds.
fn tag_of(hash: u64) -> u32 {
    (hash >> 32) as u32 & !NUMBER_MASK
}

// Where a hash has its own bucket, and where its last try ends.
fn tries_of(hash: u64, buckets: usize) -> Range<usize> {
    let own = match buckets.checked_sub(1) {
        Some(mask) => hash as usize & mask,
        None => 0,
    };
    own..buckets.min(own.saturating_add(TRIES))
}

// Puts a number into the first empty bucket that is tried. Where there is none, or the number is too great, it is left out.
fn note_in(buckets: &mut [u32], path: &Path, number: usize) {
    let hash = hash_of(path);
    let Ok(number) = u32::try_from(number) else {
        return;
    };
    if number >= NUMBER_MASK {
        return;
    }
    for place in tries_of(hash, buckets.len()) {
        if let Some(bucket) = buckets.get_mut(place) {
            if *bucket == 0 {
                *bucket = tag_of(hash) | (number + 1);
                return;
            }
        }
    }
}

impl Hints {
    /// No buckets. Takes no memory.
    pub fn new(alloc: Global) -> Hints {
        Hints {
            buckets: Vec::new(alloc),
        }
    }

    /// A number of the path among these paths, where one was noted.
    pub fn find(&self, paths: &[Path], path: &Path) -> Option<usize>
        ensures { IfSome result (λ number. has_at paths.now number path.now ≡ true) }
    {
        let hash = hash_of(path);
        for place in tries_of(hash, self.buckets.len()) {
            let bucket = *self.buckets.get(place)?;
            let number = (bucket & NUMBER_MASK).checked_sub(1)? as usize;
            if bucket & !NUMBER_MASK == tag_of(hash) && has_at(paths, number, path) {
                return Some(number);
            }
        }
        None
    }

    /// Notes the number of a path.
    pub fn note(&mut self, path: &Path, number: usize) {
        note_in(&mut self.buckets, path, number);
    }

    /// Sees that there are two buckets for each path and one more. Fails only where memory runs out.
    pub fn reserve(&mut self, paths: &[Path]) -> Result<(), AllocError> {
        if paths.len() < self.buckets.len() / 2 {
            return Ok(());
        }
        let alloc = *self.buckets.allocator();
        let count = FIRST_BUCKETS.max(self.buckets.len().saturating_mul(2));
        let mut buckets = vec![in alloc; 0; count]?;
        for (number, path) in paths.iter().enumerate() {
            note_in(&mut buckets, path, number);
        }
        self.buckets = buckets;
        Ok(())
    }
}
