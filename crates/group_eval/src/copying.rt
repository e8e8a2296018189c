//! Entries written anew.

ghost use Rattle.std.specs.Prelude.{◌≡◌, ◌≤◌, length};
ghost use Rattle.hall_law.specs.Table.{zeros};

use nil_word::Vector;

/// Sets all entries to 0.
pub(super) fn clear(n: u32, out: &mut Vector)
    requires length { length out.old ≡ n }
    requires most { n ≤ 48 }
    ensures { out.new ≡ zeros n }
{
    for k in 1..n + 1 {
        out.set(k, 0);
    }
}

/// Sets all entries to those of another vector.
pub(super) fn copy_into(n: u32, a: &Vector, out: &mut Vector)
    requires from { length a.now ≡ n }
    requires to { length out.old ≡ n }
    requires most { n ≤ 48 }
    ensures { out.new ≡ a.now }
{
    for k in 1..n + 1 {
        out.set(k, a.at(k));
    }
}
