//! What the least trees give.

ghost use Rattle.std.specs.Prelude.{◌≡◌, ℕ, ◌≤◌, length, MatchOption};
ghost use Rattle.nil_pres.specs.Presented.{Presented, IsPresented};
ghost use Rattle.dt_letters.specs.Allowed.{exponents_of};
ghost use Rattle.dt_trees.specs.Polynomials.{polys_of};
ghost use Rattle.hall_table.specs.Tabled.{IsTabled};
ghost use Rattle.tree_propose.specs.Giving.{AnyOverflows, tree_table, types_from};

/// There is no table exactly where one of the polynomials overflows, and else they have the shape
/// of a table.
pub fn giving()
    ensures { (p : Presented) (level : ℕ) → IsPresented p → 1 ≤ level → level ≤ length p.names
        → MatchOption (tree_table p level) (AnyOverflows p level) (λ t. IsTabled t
        × (t.level ≡ level) × (t.polys ≡ polys_of (exponents_of p) level (types_from p level))
        × ¬ AnyOverflows p level) }
{}
