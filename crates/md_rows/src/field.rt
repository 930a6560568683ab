// The fields of a row.
use crate::escapes::unescape;
use md_value::{NameError, PathError};
use std::alloc::{AllocError, AllocFailed, Global};

/// One field of a row, without its escapes.
#[derive(Drop)]
pub struct Field {
    bytes: Vec<u8>,
}

/// Why a row asks nothing.
#[derive(Clone, Copy, Debug, PartialEq, Eq)]
pub enum RowError {
    /// The rows of its table have another number of fields.
    Count,
    /// A field has a `\` that begins no escape.
    Escape,
    /// A field is not what its column is for.
    Field,
    Memory,
}

impl RowError {
    /// What is wrong with the row.
    pub fn words(self) -> &'static str {
        match self {
            RowError::Count => "wrong number of fields",
            RowError::Escape => "an escape is not well formed",
            RowError::Field => "a field is not what its column is for",
            RowError::Memory => "memory ran out",
        }
    }
}

impl From<AllocError> for RowError {
    fn from(_: AllocError) -> RowError {
        RowError::Memory
    }
}

impl<T: Drop> From<AllocFailed<T>> for RowError {
    fn from(_: AllocFailed<T>) -> RowError {
        RowError::Memory
    }
}

impl From<NameError> for RowError {
    fn from(error: NameError) -> RowError {
        match error {
            NameError::Bad => RowError::Field,
            NameError::Memory => RowError::Memory,
        }
    }
}

impl From<PathError> for RowError {
    fn from(error: PathError) -> RowError {
        match error {
            PathError::Bad => RowError::Field,
            PathError::Memory => RowError::Memory,
        }
    }
}

/// The modifiers of a string or of a key.
#[derive(Clone, Copy)]
pub struct Modifiers {
    pub fold: bool,
    pub marks: bool,
}

impl Field {
    /// The field that is written so.
    pub fn read(alloc: Global, written: &str) -> Result<Field, RowError> {
        match unescape(alloc, written.as_bytes())? {
            Some(bytes) => Ok(Field { bytes }),
            None => Err(RowError::Escape),
        }
    }

    pub fn bytes(&self) -> &[u8] {
        &self.bytes
    }

    pub fn text(&self) -> Result<&str, RowError> {
        std::str::from_utf8(&self.bytes).map_err(|_| RowError::Field)
    }

    /// A whole number with sign.
    pub fn signed(&self) -> Result<i64, RowError> {
        self.text()?.parse::<i64>().map_err(|_| RowError::Field)
    }

    /// A whole number without sign.
    pub fn unsigned(&self) -> Result<u64, RowError> {
        self.text()?.parse::<u64>().map_err(|_| RowError::Field)
    }

    /// A whole number without sign, below 2^32.
    pub fn count(&self) -> Result<u32, RowError> {
        self.text()?.parse::<u32>().map_err(|_| RowError::Field)
    }

    /// The minutes by which local time is ahead of UTC.
    pub fn offset(&self) -> Result<i32, RowError> {
        self.text()?.parse::<i32>().map_err(|_| RowError::Field)
    }

    /// `-`, `c`, `d` or `cd`.
    pub fn modifiers(&self) -> Result<Modifiers, RowError> {
        let (fold, marks) = match self.text()? {
            "-" => (false, false),
            "c" => (true, false),
            "d" => (false, true),
            "cd" => (true, true),
            _ => return Err(RowError::Field),
        };
        Ok(Modifiers { fold, marks })
    }
}

/// The text of an answer that is yes or no.
pub fn yes_or_no(alloc: Global, holds: bool) -> Result<String, RowError> {
    Ok(String::from_str(alloc, if holds { "yes" } else { "no" })?)
}
