// What stands in the definitions as numbers and tables, and what holds of attributes.
ghost use Rattle.std.specs.Prelude.{◌≡◌, true, map};
ghost use Rattle.md_value.specs.Schema.{schema, ascends};
ghost use Rattle.md_value.specs.Values.{first_moment, last_moment};
ghost use Rattle.md_value.specs.declared.schema.TheConstants.{SCHEMA};
ghost use Rattle.md_value.specs.declared.value.TheConstants.{LOW, HIGH};

/// `SCHEMA` has the attributes of the schema's definition with their rules, in their order.
pub fn schema_is_the_definition()
    ensures { map (λ a. (a.0.now, a.1)) SCHEMA ≡ schema }
{}

/// The names of the schema ascend by bytes.
pub fn schema_ascends()
    ensures { ascends schema ≡ true }
{}

/// `LOW` and `HIGH` are the ends of the range of moments.
pub fn moments_are_ranged()
    ensures low { LOW ≡ first_moment }
    ensures high { HIGH ≡ last_moment }
{}
