// Lines of a script.
ghost use Rattle.std.specs.Prelude.{◌≡◌, ◌++◌, OnOk, string_bytes};
ghost use Rattle.md_gen.specs.Scripts.{asked_line, options, path_line, query_line};

use crate::words::expression;
use md_value::Path;
use std::alloc::AllocError;

/// The first client whose query names how many changes a notice waits for.
const FIRST_WITH_OPTIONS: usize = 4;

/// Appends a line of a word and a path.
pub(crate) fn push_path(text: &mut String, word: &str, path: &Path) -> Result<(), AllocError>
    ensures { OnOk result (string_bytes text.new ≡ string_bytes text.old ++ path_line word.now path.now) }
{
    let path = path.as_str();
    writeln!(text, "{word} {path}")
}

/// Appends a line of a client and a word, about its query.
pub(crate) fn push_asked(text: &mut String, word: &str, client: usize) -> Result<(), AllocError>
    ensures { OnOk result (string_bytes text.new ≡ string_bytes text.old ++ asked_line word.now client) }
{
    writeln!(text, "c{client} {word} 1")
}

// The options of a client's query, with the space behind them.
fn options(client: usize) -> &'static str
    ensures { result.now ≡ options client }
{
    if client < FIRST_WITH_OPTIONS {
        ""
    } else {
        "update=5 "
    }
}

/// Appends the line by which a client asks its query.
pub(crate) fn push_query(text: &mut String, client: usize) -> Result<(), AllocError>
    ensures { OnOk result (string_bytes text.new ≡ string_bytes text.old ++ query_line client) }
{
    let options = options(client);
    let expression = expression(client);
    write!(text, "c{client} query 1 {options}")?;
    writeln!(text, "where {expression}")
}
