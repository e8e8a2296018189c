//! What table texts say.

ghost use Rattle.std.specs.Prelude.{◌≡◌, ◌≤◌, ℕ, List};
ghost use Rattle.hall_table.specs.Tabled.{Tabled};
ghost use Rattle.table_json.specs.declared.table_fault.TableFault.{TableFault};
ghost use Rattle.table_json.specs.Saying.{IsTableText};
ghost use Rattle.table_json.specs.Refusing.{IsFirstRefusal};

/// A text says at most one table, or has at most one first refusal, and not both.
pub fn texts()
    ensures one { (n : ℕ) (text : List ℕ) (t u : Tabled) → n ≤ 48 → IsTableText n text t
        → IsTableText n text u → t ≡ u }
    ensures none { (n : ℕ) (text : List ℕ) (t : Tabled) (f : TableFault) → n ≤ 48
        → IsTableText n text t → ¬ IsFirstRefusal n text f }
    ensures first { (n : ℕ) (text : List ℕ) (f g : TableFault) → n ≤ 48 → IsFirstRefusal n text f
        → IsFirstRefusal n text g → f ≡ g }
{}
