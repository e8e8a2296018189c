//! What the written order of evaluation gives.

ghost use Rattle.std.specs.Prelude.{ℕ};
ghost use Rattle.nil_word.specs.declared.expr.Expr.{Expr};
ghost use Rattle.nil_word.specs.Expressions.{IsShaped};
ghost use Rattle.group_eval.specs.Expressions.{IsFrom};
ghost use Rattle.group_eval.specs.ByValues.{MultipliedByValues, SolvedByValues, InvertedByValues, DividedByValues, PoweredByValues, CommutedByValues, ConjugatedByValues};
ghost use Rattle.group_eval.specs.Laws.{OfChecked, MultipliedIs, SolvedIs, InvertedIs, DividedIs, PoweredIs, CommutedIs, ConjugatedIs, EvaluatedIs, AnsweredIs};
ghost use Rattle.group_eval.specs.Syllables.{AppendedIs};

use hall_law::laws::{elements as vectors, uniqueness};
use hall_table::laws::shaped;
use hall_table::presentations::relations;

/// By a table that multiplies in its presentation, where no value overflows 128 bits, the written
/// order of an element gives the vector of that element.
pub fn elements()
    ensures products { OfChecked MultipliedIs }
    ensures solutions { OfChecked SolvedIs }
    ensures inverses { OfChecked InvertedIs }
    ensures quotients { OfChecked DividedIs }
    ensures powers { OfChecked PoweredIs }
    ensures commutators { OfChecked CommutedIs }
    ensures conjugates { OfChecked ConjugatedIs }
{
    relations();
    shaped();
    vectors();
    uniqueness();
}

/// In terms of the table's values: what the written order gives is a vector of the level whose
/// entries are numbers, and it is the product, the power, or the only solution, inverse, quotient,
/// commutator or conjugate.
pub fn by_values()
    ensures products { OfChecked MultipliedByValues }
    ensures solutions { OfChecked SolvedByValues }
    ensures inverses { OfChecked InvertedByValues }
    ensures quotients { OfChecked DividedByValues }
    ensures powers { OfChecked PoweredByValues }
    ensures commutators { OfChecked CommutedByValues }
    ensures conjugates { OfChecked ConjugatedByValues }
{
    elements();
    relations();
    shaped();
    vectors();
    uniqueness();
}

/// Where a vector is 0 above a generator, its product with a power of the generator takes one
/// addition.
pub fn last_syllables()
    ensures { OfChecked AppendedIs }
{
    relations();
}

/// The written order of an expression gives the vector of its word.
pub fn expressions()
    ensures { OfChecked EvaluatedIs }
{
    elements();
    relations();
    vectors();
}

/// The written order of a query, by a table of level 1, gives the right reply.
pub fn replies()
    ensures { OfChecked AnsweredIs }
{
    elements();
    expressions();
    relations();
    vectors();
    uniqueness();
}

/// A well-shaped expression is one for each table of level 1.
pub fn first_level()
    ensures { (n : ℕ) (e : Expr) → IsShaped n e → IsFrom 1 e }
{}
