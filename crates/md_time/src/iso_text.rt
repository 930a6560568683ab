// The ISO text of a time form.
ghost use Rattle.std.specs.Prelude.{◌≡◌, ◌≤◌, length, IsTrue, IsNone, IfSome, ◌↔◌, false};
ghost use Rattle.std.specs.Str.{IsAscii};
ghost use Rattle.md_time.specs.IsoTexts.{is_iso};

use crate::iso::is_iso;
use std::marker::Model;

/// An ISO text: `YYYY-MM-DD`, or `YYYY-MM-DDTHH:MM:SS` followed by `Z`, `+HHMM`, `-HHMM`, `+HH:MM`
/// or `-HH:MM`, a profile of ISO 8601. It has 10 to 25 ASCII bytes and takes no memory.
///
/// Contracts see it as its bytes, which are its characters too.
#[derive(Clone, Copy, Debug, PartialEq, Eq)]
pub struct IsoText {
    bytes: [u8; 25],
    len: usize,
}

impl Model for IsoText {
    ghost use Rattle.std.specs.Prelude.{List, ℕ, length, take};
    ghost use Rattle.md_time.specs.PaddedText.{padded, IsPadded};

    ghost Value = { List ℕ };

    ghost view = { λ t. take t.len t.bytes };

    ghost invariant = { λ t. IsPadded t.bytes t.len };

    ghost inverse = { λ text. record { bytes = padded text; len = length text } };

    ghost use native.Mathlib.Omega.{arith};

    ghost inverse_ok = { λ t is_padded. Prim.grind (arith, is_padded.len_is, is_padded.bytes_are) };
}

impl IsoText {
    /// The text as a value, or `None` where it is not an ISO text.
    pub fn read(text: &str) -> Option<IsoText>
        ensures some { IfSome result (λ iso. iso ≡ text.now) }
        ensures none { IsNone result ↔ (is_iso text.now ≡ false) }
    {
        let text = text.as_bytes();
        if !is_iso(text) {
            return None;
        }
        let mut bytes = [0; 25];
        bytes[..text.len()].copy_from_slice(text);
        Some(IsoText {
            bytes,
            len: text.len(),
        })
    }

    /// The text that was read.
    pub fn text(&self) -> &str
        ensures value { result.now ≡ self.now }
        ensures iso { IsTrue (is_iso self.now) }
        ensures ascii { IsAscii self.now }
    {
        std::str::from_utf8(&self.bytes[..self.len]).unwrap()
    }
}
