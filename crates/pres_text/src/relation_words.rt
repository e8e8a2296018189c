//! Words of relation lines. Whatever a word is, it is a name there.

ghost use Rattle.pres_text.specs.Relation.{relation_word};

use line_tokens::{Kind, Vocabulary};
use nil_pres::Builder;

/// The generators so far, by their names.
#[derive(Drop)]
pub(super) struct RelationWords<'a> {
    pub builder: &'a Builder,
}

impl Vocabulary for RelationWords<'_> {
    ghost word = { λ s. relation_word s.builder.now.names };

    fn kind_of(&self, run: &str) -> Kind {
        match self.builder.index_of(run) {
            Some(number) => Kind::Name { number },
            None => Kind::Name { number: 0 },
        }
    }
}
