// What a table gives each name.
ghost use Rattle.std.specs.Prelude.{◌≡◌, false, IfOk, All};
ghost use Rattle.md_value.specs.Values.{IsInRange, is_mixed};
ghost use Rattle.imp_rules.specs.Faults.{FillsAs};
ghost use Rattle.imp_csv.specs.Tables.{giving_of};

use crate::records::Records;
use crate::values::values_of;
use imp_rules::FileValues;
use md_value::{FillFault, Name, PlainVec, Rule, Value};
use std::alloc::Global;

/// The records of a text, and the offset of the dates in it.
#[derive(Drop)]
pub(crate) struct Table<'a> {
    pub(crate) records: &'a Records,
    pub(crate) offset: i32,
}

fn values_of_name(
    alloc: Global,
    name: &Name,
    rule: Rule,
    offset: i32,
    records: &Records,
) -> Result<PlainVec<Value>, FillFault>
    ensures value { FillsAs result (giving_of offset records.now name.now rule) }
    ensures in_range { IfOk result (λ values. All IsInRange values) }
    ensures one_kind { IfOk result (λ values. is_mixed values ≡ false) }
{
    let fields = records.fields_of_name(alloc, name)?;
    values_of(alloc, name, rule, offset, &fields)
}

impl FileValues for Table<'_> {
    ghost giving = { λ t. giving_of t.offset t.records.now };

    fn values(&self, alloc: Global, name: &Name, rule: Rule) -> Result<PlainVec<Value>, FillFault> {
        values_of_name(alloc, name, rule, self.offset, self.records)
    }
}
