//! What each presentation gives to the laws of the group.

ghost use Rattle.nil_word.specs.Factors.{IsFactored};
ghost use Rattle.nil_pres.specs.Presented.{Presented, IsPresented};
ghost use Rattle.nil_pres.specs.Relations.{relations_of, between};
ghost use Rattle.hall_law.specs.Table.{IsPresentation};

use hall_law::laws::ascending;

/// The right sides of a presentation are words above their pair, each the ordered word of its
/// exponents, and its syllables are their factors.
pub fn relations()
    ensures presentation { (p : Presented) → IsPresented p → IsPresentation (relations_of p) }
    ensures factored { (p : Presented) → IsPresented p → IsFactored (relations_of p) (between p) }
{
    ascending();
}
