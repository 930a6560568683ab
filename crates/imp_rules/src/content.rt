// Texts joined by one space.
ghost use Rattle.std.specs.Prelude.{◌≡◌, ◌∷◌, ◌++◌, OnOk, string_bytes, drop, slice_index_or};

use md_value::Memory;

/// Adds a space and the text.
pub fn push_spaced(spaced: &mut String, text: &str) -> Result<(), Memory>
    ensures { OnOk result (string_bytes spaced.new ≡ string_bytes spaced.old ++ 32 ∷ text.now) }
{
    spaced.push(' ')?;
    spaced.push_str(text)
}

/// The texts joined by one space, of those with a space before each.
pub fn joined(spaced: &str) -> &str
    requires { slice_index_or spaced.now 0 32 ≡ 32 }
    ensures { result.now ≡ drop 1 spaced.now }
{
    if spaced.is_empty() {
        spaced
    } else {
        &spaced[1..]
    }
}
