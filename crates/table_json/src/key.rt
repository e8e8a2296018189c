//! The keys of a table text.

ghost use Rattle.std.specs.Prelude.{◌≡◌, Some};
ghost use Rattle.table_json.specs.FaultTexts.{key_text};

use std::fmt;

/// A key that a table text must have.
#[derive(Clone, Copy, PartialEq, Eq, Debug, Drop)]
pub enum Key {
    Format,
    Generators,
    Level,
    Polynomials,
}

impl Key {
    /// The key as the file writes it.
    pub fn text(self) -> &'static str
        ensures { result.now ≡ key_text self }
    {
        match self {
            Key::Format => "format",
            Key::Generators => "generators",
            Key::Level => "level",
            Key::Polynomials => "polynomials",
        }
    }
}

impl fmt::Display for Key {
    ghost output = { λ key. Some (key_text key) };

    fn fmt<W: fmt::Write>(&self, f: &mut fmt::Formatter<W>) -> fmt::Result {
        f.write_str(self.text())
    }
}
