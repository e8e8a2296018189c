//! What words mean in a query line.

ghost use Rattle.std.specs.Prelude.{◌≡◌};
ghost use Rattle.line_tokens.specs.Tokens.{generator_of};
ghost use Rattle.word_text.specs.Words.{query_word};

use line_tokens::{Kind, Vocabulary};
use nil_pres::Presentation;

/// The words of a query line: generators, `solve` and `quotient`; `root` and `image` are reserved.
#[derive(Clone, Copy)]
pub(super) struct QueryWords<'a> {
    pub(super) pres: &'a Presentation,
}

impl Vocabulary for QueryWords<'_> {
    ghost word = { λ words run. query_word words.pres.now.names run };

    fn kind_of(&self, run: &str) -> Kind {
        match run {
            "solve" => Kind::Solve,
            "quotient" => Kind::Quotient,
            "root" | "image" => Kind::Other,
            _ => Kind::Name {
                number: self.pres.index_of(run).unwrap_or(0),
            },
        }
    }
}
