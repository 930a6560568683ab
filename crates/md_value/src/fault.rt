// Why a file gives no attributes.
ghost use Rattle.std.specs.Prelude.{◌≡◌};
ghost use Rattle.md_value.specs.declared.fault.FillFault.TheVariants as fill_fault;

use crate::Name;
use std::alloc::AllocError;

/// The first thing that is wrong with a file that is imported.
#[derive(Debug, Drop, PartialEq, Eq)]
pub enum Fault {
    /// It has this many bytes, which are over the most that are imported.
    TooLarge(u64),
    /// It is not UTF-8; this many bytes at its beginning are.
    NotUtf8(u64),
    NotJson,
    /// It is JSON, and no object.
    NotObject,
    /// A value of this attribute is of another kind.
    BadKind(Name),
    /// A value of this attribute is not a whole number of 64 bits with sign.
    BadNumber(Name),
    /// A value of this attribute is not a date.
    BadDate(Name),
    /// This attribute has one value, and the file gives several.
    NotSingle(Name),
    /// The record of this number, from 1, has another number of fields than the first.
    Uneven(u64),
}

/// Why no attributes were read from a text.
#[derive(Debug, Drop, PartialEq, Eq)]
pub enum FillFault {
    Fault(Fault),
    Memory,
}

impl From<AllocError> for FillFault {
    ghost from_gives = { λ _ e. e ≡ fill_fault.Memory };

    fn from(_: AllocError) -> FillFault {
        FillFault::Memory
    }
}
