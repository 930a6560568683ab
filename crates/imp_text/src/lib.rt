//! The importer of plain texts, which give one attribute, the text content.
//!
//! [`fill`] makes an `Attrs` of a text that is UTF-8 (RFC 3629) and whose byte order mark was dropped: its only name is
//! `kMDItemTextContent`, and its only value the whole text, every space and line feed of it. A text without a character is
//! its content too. No text has a fault: the answer is that, or want of memory.
#![tactic(auto)]

ghost use Rattle.std.specs.Prelude.{◌≡◌};
ghost use Rattle.imp_rules.specs.Faults.{FillsAs};
ghost use Rattle.imp_text.specs.Texts.{text_attributes};

use imp_rules::put_content;
use md_value::{Attrs, FillFault};
use std::alloc::Global;

/// The attributes of a plain text that does not begin with a byte order mark: its text content. There is no fault but
/// want of memory.
pub fn fill(alloc: Global, text: &str) -> Result<Attrs, FillFault>
    ensures { FillsAs result (text_attributes text.now) }
{
    let mut attrs = Attrs::new(alloc);
    put_content(alloc, &mut attrs, text)?;
    Ok(attrs)
}
