//! Texts of letters.

ghost use Rattle.std.specs.Prelude.{◌≡◌, ◌++◌, string_bytes, IfOk, OnOk};

use super::Letters;
use crate::form::Form;
use crate::tree::Tree;
use nil_pres::Memory;
use std::alloc::Global;

impl Letters {
    ghost use Rattle.dt_letters.specs.Text.{text_of};
    ghost use Rattle.dt_letters.specs.Arena.{IsTreeOf, letter_in};

    /// The text of the letter: a leaf as `x2.1`, a node as `(x3.1,y2.1;5.1)`.
    pub fn text(&self, alloc: Global, a: Tree) -> Result<String, Memory>
        requires { IsTreeOf self.now a }
        ensures { IfOk result (λ s. string_bytes s ≡ text_of (letter_in self.now a)) }
    {
        let mut text = String::new(alloc);
        self.put_text(&mut text, a)?;
        Ok(text)
    }

    /// Appends the text of the letter.
    fn put_text(&self, text: &mut String, a: Tree) -> Result<(), Memory>
        requires { IsTreeOf self.now a }
        ensures { OnOk result (string_bytes text.new
            ≡ string_bytes text.old ++ text_of (letter_in self.now a)) }
    {
        match self.form(a) {
            Form::Leaf { side, kind, number } => {
                text.push_str(side.name())?;
                write!(text, "{kind}.{number}")
            }
            Form::Node {
                left,
                right,
                kind,
                number,
            } => {
                text.push_str("(")?;
                self.put_text(text, left)?;
                text.push_str(",")?;
                self.put_text(text, right)?;
                write!(text, ";{kind}.{number})")
            }
        }
    }
}
