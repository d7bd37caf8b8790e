//! What is printed of the fields of a description.
ghost use Rattle.std.specs.Prelude.{◌≡◌, string_bytes};

use std::marker::Model;

/// What `check` prints of a program and a description: a line for each field that is described, top first. Contracts see its
/// bytes.
#[derive(Debug, Drop)]
pub struct CheckText {
    text: String,
}

impl Model for CheckText {
    ghost use Rattle.std.specs.Prelude.{ℕ, List, string_bytes};

    ghost Value = { List ℕ };

    ghost view = { λ t. string_bytes t.text };
}

impl CheckText {
    /// Keeps a text, without a copy.
    pub fn new(text: String) -> CheckText
        ensures { result ≡ string_bytes text }
    {
        CheckText { text }
    }

    /// The text.
    pub fn as_str(&self) -> &str
        ensures { result.now ≡ self.now }
    {
        self.text.as_str()
    }

    /// The bytes of the text.
    pub fn as_bytes(&self) -> &[u8]
        ensures { result.now ≡ self.now }
    {
        self.text.as_bytes()
    }
}
