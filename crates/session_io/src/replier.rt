//! What replies to lines.

ghost use Rattle.std.specs.Prelude.{◌≡◌, ℕ, List, [], ◌∷◌, ◌++◌, string_bytes, IfOk};
ghost use Rattle.session_io.specs.Lines.{EndsAtLine};
ghost use Rattle.session_io.specs.Holding.{held};

use std::alloc::{AllocError, Global};

/// What replies to lines, to each of them by itself. It may recall some of them.
pub trait Replier {
    /// The reply to a line, with its line feed.
    ghost reply: { Self → List ℕ → List ℕ };

    /// All that it recalls is of these lines.
    ghost recalls: { Self → List (List ℕ) → Type 0 };

    /// The reply to a line, or want of memory. It is empty or ends with a line feed.
    fn reply_to(&mut self, alloc: Global, line: &[u8]) -> Result<String, AllocError>
        ensures text { IfOk result (λ text. string_bytes text ≡ reply self.old line.now) }
        ensures at_line { IfOk result (λ text. EndsAtLine (string_bytes text)) }
        ensures same { reply self.new ≡ reply self.old }
        ensures recalls { (lines : List (List ℕ)) (whole : List ℕ) → line.now ≡ held whole
            → recalls self.old lines → recalls self.new (lines ++ whole ∷ []) };

    /// What a long line has behind the bytes that are held of it changes no reply.
    ghost settled: { (s : Self) (line : List ℕ) → reply s (held line) ≡ reply s line };

    /// What is of some lines is of these and more.
    ghost widens: { (s : Self) (lines more : List (List ℕ)) → recalls s lines
        → recalls s (lines ++ more) };
}
