//! Numbers that stand in strings. Each is taken where it is written as a table's text writes it.

ghost use Rattle.std.specs.Prelude.{◌≡◌, ◌≢◌, ℕ, ℤ, ◌≤◌, MatchOption};
ghost use Rattle.std.specs.Fmt.{decimal};
ghost use Rattle.table_json.specs.TermRules.{IsCoefficient};

use itoa::Buffer;

/// The coefficient of a term.
pub(super) fn coefficient(text: &str) -> Option<i128>
    ensures { MatchOption result ((z : ℤ) → ¬ IsCoefficient text.now z) (IsCoefficient text.now) }
{
    let Ok(number) = text.parse::<i128>() else {
        return None;
    };
    if number == 0 || number == i128::MIN {
        return None;
    }
    // Leading zeros and a + aren't written.
    let mut buffer = Buffer::new();
    if buffer.format(number) == text {
        Some(number)
    } else {
        None
    }
}

/// The number of a generator, from 1 to n.
pub(super) fn generator(n: u32, digits: &str) -> Option<u32>
    ensures { MatchOption result ((k : ℕ) → 1 ≤ k → k ≤ n → digits.now ≢ decimal k)
        (λ k. (1 ≤ k) × (k ≤ n) × (digits.now ≡ decimal k)) }
{
    let Ok(k) = digits.parse::<u32>() else {
        return None;
    };
    if k == 0 || k > n {
        return None;
    }
    let mut buffer = Buffer::new();
    if buffer.format(k) == digits {
        Some(k)
    } else {
        None
    }
}
