// Lines of a word with numbers, and of paths behind a mark.
ghost use Rattle.std.specs.Prelude.{◌≡◌, ◌++◌, OnOk, string_bytes};
ghost use Rattle.md_render.specs.Texts.{number_line, pair_line, path_line, marked_line, path_lines, row_lines};

use md_file_text::push_path;
use md_value::Path;
use md_world::Row;
use std::alloc::AllocError;

/// Appends a word and a number, on one line.
pub(crate) fn push_number(text: &mut String, word: &str, number: u32) -> Result<(), AllocError>
    ensures { OnOk result (string_bytes text.new ≡ string_bytes text.old ++ number_line word.now number) }
{
    writeln!(text, "{word} {number}")
}

/// Appends a word and two numbers, on one line.
pub(crate) fn push_pair(
    text: &mut String,
    word: &str,
    first: u32,
    second: u32,
) -> Result<(), AllocError>
    ensures { OnOk result (string_bytes text.new ≡ string_bytes text.old ++ pair_line word.now first second) }
{
    writeln!(text, "{word} {first} {second}")
}

/// Appends a line of a path.
pub(crate) fn push_line(text: &mut String, path: &Path) -> Result<(), AllocError>
    ensures { OnOk result (string_bytes text.new ≡ string_bytes text.old ++ path_line path.now) }
{
    push_path(text, path)?;
    text.push('\n')
}

/// Appends a line of a mark and a path.
pub(crate) fn push_marked(text: &mut String, mark: &str, path: &Path) -> Result<(), AllocError>
    ensures { OnOk result (string_bytes text.new ≡ string_bytes text.old ++ marked_line mark.now path.now) }
{
    text.push_str(mark)?;
    push_line(text, path)
}

/// Appends a line for each path: the mark and the path.
pub(crate) fn push_paths(text: &mut String, mark: &str, paths: &[Path]) -> Result<(), AllocError>
    ensures { OnOk result (string_bytes text.new ≡ string_bytes text.old ++ path_lines mark.now paths.now) }
{
    for path in paths {
        push_marked(text, mark, path)?;
    }
    Ok(())
}

/// Appends a line for each row: the mark and the row's path.
pub(crate) fn push_rows(text: &mut String, mark: &str, rows: &[Row]) -> Result<(), AllocError>
    ensures { OnOk result (string_bytes text.new ≡ string_bytes text.old ++ row_lines mark.now rows.now) }
{
    for row in rows {
        push_marked(text, mark, &row.path)?;
    }
    Ok(())
}
