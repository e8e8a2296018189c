//! The numbers of variables.

ghost use Rattle.std.specs.Prelude.{◌≡◌, ◌≤◌};
ghost use Rattle.binom_poly.specs.Variable.{x_of, y_of, z_of};

/// How far the numbers of `x_k`, `y_k` and `z_k` are apart.
pub const SIDE: u32 = 64;

/// The variable t of step sums.
pub const STEP_VARIABLE: u32 = 200;

/// A place for each variable.
pub const VARIABLES: usize = STEP_VARIABLE as usize + 1;

/// The greatest exponent of a variable in a monomial.
pub const EXPONENT_LIMIT: u32 = 1000;

/// The variable `x_k` of a generator.
pub fn x_of(k: u32) -> u32
    requires { k ≤ 48 }
    ensures { result ≡ x_of k }
{
    k
}

/// The variable `y_k` of a generator.
pub fn y_of(k: u32) -> u32
    requires { k ≤ 48 }
    ensures { result ≡ y_of k }
{
    SIDE + k
}

/// The variable `z_k` of a generator.
pub fn z_of(k: u32) -> u32
    requires { k ≤ 48 }
    ensures { result ≡ z_of k }
{
    2 * SIDE + k
}
