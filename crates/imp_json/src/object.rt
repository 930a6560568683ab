// What a JSON object gives each name.
ghost use Rattle.std.specs.Prelude.{◌≡◌};
ghost use Rattle.serde_json.specs.View.{view};
ghost use Rattle.imp_json.specs.Objects.{giving_of};

use crate::values::values_of;
use imp_rules::FileValues;
use md_value::{FillFault, Name, PlainVec, Rule, Value};
use serde_json::Value as Json;
use std::alloc::Global;

/// A JSON value, and the offset of the dates in it.
#[derive(Drop)]
pub(crate) struct Object<'a> {
    pub(crate) json: &'a Json,
    pub(crate) offset: i32,
}

impl FileValues for Object<'_> {
    ghost giving = { λ o. giving_of o.offset (view o.json.now) };

    fn values(&self, alloc: Global, name: &Name, rule: Rule) -> Result<PlainVec<Value>, FillFault> {
        match self.json.get(name.as_str()) {
            Some(json) => values_of(alloc, name, rule, self.offset, json),
            None => Ok(PlainVec::new(alloc)),
        }
    }
}
