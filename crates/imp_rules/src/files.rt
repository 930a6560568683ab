// The attributes that the content of a file sets.
ghost use Rattle.std.specs.Prelude.{◌≡◌, IfOk, All, IsTrue, false, [], map};
ghost use Rattle.std.specs.List.{list_all, fold};
ghost use Rattle.md_value.specs.Values.{IsInRange, is_mixed};
ghost use Rattle.imp_rules.specs.Faults.{FillsAs, made_of};
ghost use Rattle.imp_rules.specs.Files.{Giving, file_attributes, given_of, with_given, has_name, known_of};

use crate::puts::{known_name, put_given};
use md_value::{Attrs, FillFault, Name, PlainVec, Rule, SCHEMA, Value};
use std::alloc::Global;

/// A file's content, by what it gives each name.
pub trait FileValues {
    /// What it gives each name, under a rule.
    ghost giving: { Self → Giving };

    /// The values of a name under its rule, or the first fault among them.
    fn values(&self, alloc: Global, name: &Name, rule: Rule) -> Result<PlainVec<Value>, FillFault>
        ensures value { FillsAs result (giving self.now name.now rule) }
        ensures in_range { IfOk result (λ values. All IsInRange values) }
        ensures one_kind { IfOk result (λ values. is_mixed values ≡ false) };
}

fn put_all<F: FileValues>(
    alloc: Global,
    file: &F,
    schema: &[(&str, Rule)],
) -> Result<Attrs, FillFault>
    requires { IsTrue (list_all has_name (map known_of schema.now)) }
    ensures { FillsAs result (made_of (fold with_given []) (given_of (F.giving file.now) (map known_of schema.now))) }
{
    let mut attrs = Attrs::new(alloc);
    for (text, rule) in schema {
        if rule.from_files {
            let name = known_name(alloc, text)?;
            let values = file.values(alloc, &name, *rule)?;
            put_given(&mut attrs, name, values)?;
        }
    }
    Ok(attrs)
}

/// The attributes that the file sets, or the first fault in the order of the names.
#[tactic(auto, unfolding(crate::specs::Files::file_attributes, md_value::specs::Schema::schema))]
pub fn file_attributes<F: FileValues>(alloc: Global, file: &F) -> Result<Attrs, FillFault>
    ensures { FillsAs result (file_attributes (F.giving file.now)) }
{
    put_all(alloc, file, &SCHEMA)
}
