//! Sums of weighted entries, as remainders.

ghost use Rattle.std.specs.Prelude.{◌≡◌, ◌<◌, pos, ◌+ℤ◌, ◌*ℤ◌};
ghost use Rattle.load_tally.specs.Weights.{remainder, weighted};

/// What remainders are taken by.
pub(crate) const MODULUS: u64 = 1_000_000_000;

/// A remainder with each entry times its place from 1 added to it.
pub(crate) fn with_entries(sum: u64, entries: &[i128]) -> u64
    requires { sum < MODULUS }
    ensures sum { result ≡ remainder (pos sum +ℤ weighted entries.now) }
    ensures within { result < MODULUS }
{
    let mut sum = sum;
    'adding: for (index, entry) in entries.iter().enumerate() {
        sum = with_entry(sum, index as u64 + 1, *entry);
    }
    sum
}

/// A remainder with an entry times its place added to it.
fn with_entry(sum: u64, place: u64, entry: i128) -> u64
    requires { sum < MODULUS }
    ensures sum { result ≡ remainder (pos sum +ℤ pos place *ℤ entry) }
    ensures within { result < MODULUS }
{
    let entry = entry.rem_euclid(MODULUS as i128) as u64;
    (sum + place % MODULUS * entry) % MODULUS
}
