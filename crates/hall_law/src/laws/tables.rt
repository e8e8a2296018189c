//! What a multiplication table says of its presentation and level.

ghost use Rattle.nil_word.specs.Congruence.{IsConsistent};
ghost use Rattle.hall_law.specs.Uniqueness.{OfTables, LettersStand, ProductsStand, Associates, SolvesOnce, IsOnlyTable};
ghost use Rattle.hall_law.specs.Elements.{ProductsAre, SolutionsAre, InversesAre, ConjugatesAre, CommutatorsAre, GeneratorsAre, PowersAre};
ghost use Rattle.hall_law.specs.Tail.{GradesLevels, IsTableAbove, PowersAbove};

/// A multiplication table decides its presentation at its level: the vectors of the level are the
/// elements of the group, each of them once, and the table is their product. (Hall: multiplication
/// of exponent vectors in a nilpotent group.)
pub fn uniqueness()
    // Different vectors stand for different elements.
    ensures consistent { OfTables (λ rels level f. IsConsistent rels level) }
    // Each word has a vector: what its letters make of 0.
    ensures letters { OfTables LettersStand }
    // The table at two vectors stands for their product.
    ensures product { OfTables ProductsStand }
    ensures associative { OfTables Associates }
    // Each equation a x = b has exactly one solution.
    ensures solution { OfTables SolvesOnce }
    // A presentation has at most one table of a level.
    ensures one_table { OfTables IsOnlyTable }
{}

/// With a table, the vector of each element that words make: for the vectors a of u and b of v,
/// those of u v, of the x with u x = v, of u^-1, u^v, [u,v], a_k^e and u^e.
/// (The textbook's words for these elements, with commutators and conjugates on the right.)
pub fn elements()
    ensures products { OfTables ProductsAre }
    ensures solutions { OfTables SolutionsAre }
    ensures inverses { OfTables InversesAre }
    ensures conjugates { OfTables ConjugatesAre }
    ensures commutators { OfTables CommutatorsAre }
    ensures generators { OfTables GeneratorsAre }
    ensures powers { OfTables PowersAre }
{}

/// A table keeps to the vectors of each higher level and adds their first entries there, so it is a
/// table of each higher level, with the same powers. (The generators from m on are normal.)
pub fn tail()
    ensures graded { OfTables GradesLevels }
    ensures table { OfTables IsTableAbove }
    ensures power { OfTables PowersAbove }
{}
