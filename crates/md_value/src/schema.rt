// What each attribute holds.
ghost use Rattle.std.specs.Prelude.{◌≡◌, map};
ghost use Rattle.md_value.specs.Schema.{rule_in, rule_of};

use crate::{Kind, Name};

/// What the schema says of an attribute.
#[derive(Clone, Copy, Debug, PartialEq, Eq)]
pub struct Rule {
    pub kind: Kind,
    /// Whether a file may have several values of it.
    pub many: bool,
    /// Whether the content of a file sets it, by a JSON key or a CSV column of its name.
    pub from_files: bool,
}

/// All attributes, ascending by name. The names that begin with `kMDItem` are Apple's.
pub const SCHEMA: [(&str, Rule); 26] = [
    (
        "kMDItemAuthors",
        Rule {
            kind: Kind::Text,
            many: true,
            from_files: true,
        },
    ),
    (
        "kMDItemComment",
        Rule {
            kind: Kind::Text,
            many: false,
            from_files: true,
        },
    ),
    (
        "kMDItemContentCreationDate",
        Rule {
            kind: Kind::Moment,
            many: false,
            from_files: true,
        },
    ),
    (
        "kMDItemContentType",
        Rule {
            kind: Kind::Text,
            many: false,
            from_files: false,
        },
    ),
    (
        "kMDItemContentTypeTree",
        Rule {
            kind: Kind::Text,
            many: true,
            from_files: false,
        },
    ),
    (
        "kMDItemCopyright",
        Rule {
            kind: Kind::Text,
            many: false,
            from_files: true,
        },
    ),
    (
        "kMDItemCreator",
        Rule {
            kind: Kind::Text,
            many: false,
            from_files: true,
        },
    ),
    (
        "kMDItemDescription",
        Rule {
            kind: Kind::Text,
            many: false,
            from_files: true,
        },
    ),
    (
        "kMDItemDisplayName",
        Rule {
            kind: Kind::Text,
            many: false,
            from_files: false,
        },
    ),
    (
        "kMDItemDueDate",
        Rule {
            kind: Kind::Moment,
            many: false,
            from_files: true,
        },
    ),
    (
        "kMDItemFSContentChangeDate",
        Rule {
            kind: Kind::Moment,
            many: false,
            from_files: false,
        },
    ),
    (
        "kMDItemFSName",
        Rule {
            kind: Kind::Text,
            many: false,
            from_files: false,
        },
    ),
    (
        "kMDItemFSSize",
        Rule {
            kind: Kind::Number,
            many: false,
            from_files: false,
        },
    ),
    (
        "kMDItemKeywords",
        Rule {
            kind: Kind::Text,
            many: true,
            from_files: true,
        },
    ),
    (
        "kMDItemKind",
        Rule {
            kind: Kind::Text,
            many: false,
            from_files: false,
        },
    ),
    (
        "kMDItemLanguages",
        Rule {
            kind: Kind::Text,
            many: true,
            from_files: true,
        },
    ),
    (
        "kMDItemNumberOfPages",
        Rule {
            kind: Kind::Number,
            many: false,
            from_files: true,
        },
    ),
    (
        "kMDItemPath",
        Rule {
            kind: Kind::Text,
            many: false,
            from_files: false,
        },
    ),
    (
        "kMDItemPublishers",
        Rule {
            kind: Kind::Text,
            many: true,
            from_files: true,
        },
    ),
    (
        "kMDItemRecipients",
        Rule {
            kind: Kind::Text,
            many: true,
            from_files: true,
        },
    ),
    (
        "kMDItemStarRating",
        Rule {
            kind: Kind::Number,
            many: false,
            from_files: true,
        },
    ),
    (
        "kMDItemTextContent",
        Rule {
            kind: Kind::Text,
            many: false,
            from_files: false,
        },
    ),
    (
        "kMDItemTitle",
        Rule {
            kind: Kind::Text,
            many: false,
            from_files: true,
        },
    ),
    (
        "md_csv_columns",
        Rule {
            kind: Kind::Number,
            many: false,
            from_files: false,
        },
    ),
    (
        "md_csv_rows",
        Rule {
            kind: Kind::Number,
            many: false,
            from_files: false,
        },
    ),
    (
        "md_imported",
        Rule {
            kind: Kind::Flag,
            many: false,
            from_files: false,
        },
    ),
];

// The rule of the name in a table.
fn rule_in(mut table: &[(&str, Rule)], name: &Name) -> Option<Rule>
    ensures { result ≡ rule_in (map (λ a. (a.0.now, a.1)) table.entry.now) name.now }
{
    while let [attribute, rest @ ..] = table {
        if name.is(attribute.0) {
            return Some(attribute.1);
        }
        table = rest;
    }
    None
}

/// What the schema says of the attribute of this name, if there is one. Takes no memory.
pub fn schema_of(name: &Name) -> Option<Rule>
    ensures { result ≡ rule_of name.now }
{
    rule_in(&SCHEMA, name)
}
