ghost use Rattle.std.specs.Prelude.{◌≡◌, IsUtf8, string_bytes};
ghost use Rattle.dq_base.specs.Names.{has_nul};

use std::marker::Model;

/// A text of the wire: UTF-8, which clauses see as its bytes. It may hold a NUL; the calls that write a text to the
/// wire demand one without.
#[derive(Debug, Drop)]
pub struct WireText {
    inner: String,
}

impl Model for WireText {
    ghost use Rattle.std.specs.Prelude.{ℕ, List, string_bytes};

    ghost Value = { List ℕ };

    ghost view = { λ a. string_bytes a.inner };
}

impl WireText {
    /// A text of these characters.
    pub fn new(text: String) -> WireText
        ensures { result ≡ string_bytes text }
    {
        WireText { inner: text }
    }

    /// The text, borrowed.
    pub fn as_str(&self) -> &str
        ensures same { result.now ≡ self.now }
        ensures utf8 { IsUtf8 self.now }
    {
        self.inner.as_str()
    }

    /// Whether the text holds a NUL.
    pub fn has_nul(&self) -> bool
        ensures { result ≡ has_nul self.now }
    {
        self.inner.as_bytes().iter().any(|b| *b == 0)
    }

    /// Gives the string back.
    pub fn into_string(self) -> String
        ensures { string_bytes result ≡ self }
    {
        self.inner
    }
}
