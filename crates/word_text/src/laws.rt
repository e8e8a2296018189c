//! What query lines say.

ghost use Rattle.std.specs.Prelude.{◌≡◌, ◌↔◌, ℕ, List, length, Ok, Err};
ghost use Rattle.nil_word.specs.Queries.{IsShapedQuery};
ghost use Rattle.nil_word.specs.declared.query.Query.{Query};
ghost use Rattle.word_text.specs.declared.query_fault.QueryFault.{QueryFault};
ghost use Rattle.word_text.specs.Lines.{ReadsAs, FailsWith};
ghost use Rattle.word_text.specs.Reading.{reading};

/// Each line is in the grammar with one query, which is well shaped, or it has one first fault; and
/// which it is can be computed.
pub fn readings()
    ensures reads { (names : List (List ℕ)) (line : List ℕ) (q : Query)
        → ReadsAs names line q ↔ (reading names line ≡ Ok q) }
    ensures fails { (names : List (List ℕ)) (line : List ℕ) (f : QueryFault)
        → FailsWith names line f ↔ (reading names line ≡ Err f) }
    ensures shaped { (names : List (List ℕ)) (line : List ℕ) (q : Query)
        → ReadsAs names line q → IsShapedQuery (length names) q }
{}
