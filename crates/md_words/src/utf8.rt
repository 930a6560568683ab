// A text that contracts see as its bytes.
ghost use Rattle.std.specs.Prelude.{◌≡◌, IfOk, string_bytes};

use std::alloc::{AllocError, Global};
use std::marker::Model;

/// A text. Contracts see it as its bytes, in UTF-8.
#[derive(Debug, Drop)]
pub struct Utf8 {
    text: String,
}

impl Model for Utf8 {
    ghost use Rattle.std.specs.Prelude.{List, ℕ, string_bytes};

    ghost Value = { List ℕ };

    ghost view = { λ t. string_bytes t.text };
}

impl Utf8 {
    pub fn of(alloc: Global, text: &str) -> Result<Utf8, AllocError>
        ensures { IfOk result (λ made. made ≡ text.now) }
    {
        let text = String::from_str(alloc, text)?;
        Ok(Utf8 { text })
    }

    /// Takes no memory.
    pub fn from_string(text: String) -> Utf8
        ensures { result ≡ string_bytes text }
    {
        Utf8 { text }
    }

    pub fn as_str(&self) -> &str
        ensures { result.now ≡ self.now }
    {
        self.text.as_str()
    }
}
