//! Kinds of faults.

ghost use Rattle.std.specs.Prelude.{◌≡◌, Some};
ghost use Rattle.pres_text.specs.FaultTexts.{kind_text};

use std::error::Error;
use std::fmt;

/// A rule that a line of a presentation file breaks, in the order in which the rules are tried.
#[derive(Clone, Copy, Debug, PartialEq, Eq)]
pub enum FileKind {
    Header,
    Name,
    TwiceName,
    Relation,
    Order,
    Twice,
    Above,
    Number,
    Zero,
    TooMany,
    NotText,
}

impl FileKind {
    /// The kind in lower-case letters.
    pub fn text(self) -> &'static str
        ensures { result.now ≡ kind_text self }
    {
        match self {
            FileKind::Header => "header",
            FileKind::Name => "name",
            FileKind::TwiceName => "twicename",
            FileKind::Relation => "relation",
            FileKind::Order => "order",
            FileKind::Twice => "twice",
            FileKind::Above => "above",
            FileKind::Number => "number",
            FileKind::Zero => "zero",
            FileKind::TooMany => "toomany",
            FileKind::NotText => "nottext",
        }
    }
}

impl fmt::Display for FileKind {
    ghost output = { λ kind. Some (kind_text kind) };

    fn fmt<W: fmt::Write>(&self, f: &mut fmt::Formatter<W>) -> fmt::Result {
        f.write_str(self.text())
    }
}

impl Error for FileKind {}
