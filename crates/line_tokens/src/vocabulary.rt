//! What words mean.

ghost use Rattle.std.specs.Prelude.{◌≡◌, ℕ, List};
ghost use Rattle.line_tokens.specs.declared.kind.Kind.{Kind};

use super::kind::Kind;

/// What the words of a line mean. A word is a longest run of letters, digits and `_` that begins
/// with a letter.
pub trait Vocabulary {
    ghost word: { Self → List ℕ → Kind };

    /// The meaning of a word.
    fn kind_of(&self, run: &str) -> Kind
        ensures { result ≡ word self.now run.now };
}
