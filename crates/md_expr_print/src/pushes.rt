// Text that grows, seen as its characters.
ghost use Rattle.std.specs.Prelude.{◌≡◌, ◌∷◌, ◌++◌, [], true, OnOk, chars, string_bytes};
ghost use Rattle.std.specs.Char.{is_ascii};
ghost use Rattle.std.specs.Fmt.{decimal, signed_decimal};
ghost use Rattle.std.specs.List.{list_all};
ghost use Rattle.md_expr_print.specs.Literals.{separator};

use std::alloc::AllocError;

/// Appends a character.
pub(crate) fn push(out: &mut String, c: char) -> Result<(), AllocError>
    ensures { OnOk result (chars (string_bytes out.new) ≡ chars (string_bytes out.old) ++ c ∷ []) }
{
    out.push(c)?;
    Ok(())
}

/// Appends a text.
pub(crate) fn push_text(out: &mut String, text: &str) -> Result<(), AllocError>
    ensures { OnOk result (chars (string_bytes out.new) ≡ chars (string_bytes out.old) ++ chars text.now) }
{
    out.push_str(text)?;
    Ok(())
}

/// Appends an ASCII text.
pub(crate) fn push_str(out: &mut String, text: &str) -> Result<(), AllocError>
    requires { list_all is_ascii text.now ≡ true }
    ensures { OnOk result (chars (string_bytes out.new) ≡ chars (string_bytes out.old) ++ text.now) }
{
    out.push_str(text)?;
    Ok(())
}

/// Appends a number in decimal digits.
pub(crate) fn push_number(out: &mut String, n: u128) -> Result<(), AllocError>
    ensures { OnOk result (chars (string_bytes out.new) ≡ chars (string_bytes out.old) ++ decimal n) }
{
    write!(out, "{n}")?;
    Ok(())
}

/// Appends a number with its sign in decimal digits.
pub(crate) fn push_signed(out: &mut String, n: i64) -> Result<(), AllocError>
    ensures { OnOk result (chars (string_bytes out.new) ≡ chars (string_bytes out.old) ++ signed_decimal n) }
{
    write!(out, "{n}")?;
    Ok(())
}

/// Appends what stands between two members, and nothing before the first.
pub(crate) fn push_between(
    out: &mut String,
    is_first: bool,
    between: &str,
) -> Result<(), AllocError>
    requires { list_all is_ascii between.now ≡ true }
    ensures { OnOk result (chars (string_bytes out.new) ≡ chars (string_bytes out.old) ++ separator is_first between.now) }
{
    if !is_first {
        push_str(out, between)?;
    }
    Ok(())
}
