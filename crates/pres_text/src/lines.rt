//! Lines of a file that say something.

ghost use Rattle.std.specs.Prelude.{◌≡◌, ◌+◌, ◌^◌, ◌<◌, ◌≤◌, [], ◌∷◌, length, MatchOption, IfNone, IfSome};
ghost use Rattle.pres_text.specs.Lines.{lines, content_from};
ghost use Rattle.pres_text.specs.Seen.{line_seen};

use line_tokens::{silent, split_line, without_return};

/// A line with its number, from 1, without a carriage return at its end.
#[derive(Drop)]
pub(super) struct Line<'a> {
    pub number: u64,
    pub text: &'a [u8],
}

/// The lines from a number on.
#[derive(Drop)]
pub(super) struct Lines<'a> {
    pub rest: &'a [u8],
    pub number: u64,
    ghost fits: { number + length rest.now < 2 ^ 64 },
}

/// The line at the front of bytes, and those behind it.
fn first_line(bytes: &[u8]) -> (&[u8], &[u8])
    requires { 0 < length bytes.now }
    ensures line { lines bytes.now ≡ result.0.now ∷ lines result.1.now }
    ensures less { length result.1.now < length bytes.now }
{
    let (line, rest) = split_line(bytes);
    match rest {
        Some(rest) => (line, rest),
        None => (line, &[]),
    }
}

impl<'a> Lines<'a> {
    /// The lines of a file.
    pub fn new(file: &'a [u8]) -> Lines<'a>
        ensures number { result.number ≡ 1 }
        ensures rest { result.rest.now ≡ file.now }
    {
        Lines {
            rest: file,
            number: 1,
        }
    }

    /// The next line that says something.
    pub fn next_content(&mut self) -> Option<Line<'a>>
        ensures line { MatchOption result
            (content_from self.old.number (lines self.old.rest.now) ≡ [])
            (λ l. content_from self.old.number (lines self.old.rest.now) ≡ line_seen l
            ∷ content_from self.new.number (lines self.new.rest.now)) }
        ensures end { self.new.number + length (lines self.new.rest.now) ≡ self.old.number + length
            (lines self.old.rest.now) }
        ensures all { IfNone result (self.new.rest.now ≡ []) }
        ensures less { IfSome result (λ l. length self.new.rest.now < length self.old.rest.now) }
    {
        while self.rest.len() > 0 {
            let (line, rest) = first_line(self.rest);
            let text = without_return(line);
            let number = self.number;
            self.rest = rest;
            self.number = number + 1;
            if !silent(text) {
                return Some(Line { number, text });
            }
        }
        None
    }
}
