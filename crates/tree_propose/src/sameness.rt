//! Whether two presentations are equal.

ghost use Rattle.std.specs.Prelude.{◌≡◌, ◌≤◌, ◌↔◌, length, IsTrue};
ghost use Rattle.tree_propose.specs.Sameness.{HaveSameRow};

use nil_pres::Presentation;

/// Whether the names are equal.
fn have_same_names(p: &Presentation, q: &Presentation) -> bool
    requires { length p.now.names ≡ length q.now.names }
    ensures { IsTrue result ↔ (p.now.names ≡ q.now.names) }
{
    for k in 1..p.count() + 1 {
        if p.name(k) != q.name(k) {
            return false;
        }
    }
    true
}

/// Whether the pairs of a generator with lower ones have equal right sides.
fn have_same_row(p: &Presentation, q: &Presentation, j: u32) -> bool
    requires p { j ≤ length p.now.names }
    requires q { j ≤ length q.now.names }
    ensures { IsTrue result ↔ HaveSameRow p.now q.now j }
{
    for i in 1..j {
        if p.right_side(j, i) != q.right_side(j, i) {
            return false;
        }
    }
    true
}

/// Whether two presentations are equal.
pub(crate) fn are_same(p: &Presentation, q: &Presentation) -> bool
    ensures { IsTrue result ↔ (p.now ≡ q.now) }
{
    let count = p.count();
    if q.count() != count || !have_same_names(p, q) {
        return false;
    }
    for j in 1..count + 1 {
        if !have_same_row(p, q, j) {
            return false;
        }
    }
    true
}
