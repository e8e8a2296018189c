//! Collection of letters and words.

ghost use Rattle.std.specs.Prelude.{◌≡◌, ◌⊎◌, ◌↔◌, ℕ, ◌-◌, ◌^◌, ◌<◌, ◌≤◌, unsigned_abs, [], ◌∷◌, ◌++◌, length, take, Some, None, Err, IfOk, OnOk, OnErr, IfNone, IfSome, IsOkUnless, All};
ghost use Rattle.nil_word.specs.Words.{ordered, IsWordIn, IsVector};
ghost use Rattle.nil_word.specs.Congruence.{Congruent};
ghost use Rattle.nil_pres.specs.Relations.{relations_of};
ghost use Rattle.left_collect.specs.Collected.{collected, collection};

use super::collect_fault::CollectFault;
use super::rewriting::append_letter;
use super::spent::Spent;
use nil_pres::Presentation;
use nil_word::{Letter, Vector, Word};
use std::alloc::Global;

/// How many letters are appended at most.
const MOST_APPENDED: u64 = 1 << 24;

/// How many letters a word may have.
const LONGEST: usize = 64;

/// Collects the ordered word of a vector, followed by a letter. The count goes up by the letters
/// that are appended on the way.
pub fn append(
    alloc: Global,
    pres: &Presentation,
    v: &mut Vector,
    letter: Letter,
    count: &mut u64,
) -> Result<(), CollectFault>
    requires count { count.old ≤ 2 ^ 24 }
    requires entries { length v.old ≡ length pres.now.names }
    requires within { All (λ e. unsigned_abs e ≤ count.old) v.old }
    requires least { 1 ≤ letter.number }
    requires most { letter.number ≤ length pres.now.names }
    ensures ok { OnOk result (collected (relations_of pres.now) (2 ^ 24 - count.old) v.old
        (letter ∷ []) ≡ Some (v.new, 2 ^ 24 - count.new)) }
    ensures count { OnOk result (count.new ≤ 2 ^ 24) }
    ensures within { OnOk result (All (λ e. unsigned_abs e ≤ count.new) v.new) }
    ensures entries { OnOk result (length v.new ≡ length v.old) }
    ensures below { OnOk result (take (letter.number - 1) v.new ≡ take (letter.number - 1) v.old) }
    ensures congruent { OnOk result ((i : ℕ) → 1 ≤ i → i ≤ letter.number
        → Congruent (relations_of pres.now) i (ordered v.new) (ordered v.old ++ letter ∷ [])) }
    // It is refused exactly where the count would pass 2^24, unless memory is wanting.
    ensures spent { IfNone (collected (relations_of pres.now) (2 ^ 24 - count.old) v.old
        (letter ∷ [])) ((result ≡ Err CollectFault.Steps) ⊎ (result ≡ Err CollectFault.Memory)) }
    ensures taken { IfSome (collected (relations_of pres.now) (2 ^ 24 - count.old) v.old
        (letter ∷ [])) (λ _. IsOkUnless result CollectFault.Memory) }
    ensures vector { OnErr result (v.new ≡ v.old) }
    ensures counted { OnErr result (count.new ≡ count.old) }
{
    // Each presentation's count tells that it is lawful.
    let _count = pres.count();
    let mut vector = v.copy(alloc)?;
    let mut left = MOST_APPENDED - *count;
    match append_letter(pres, &mut vector, &mut left, letter) {
        Ok(()) => {
            *v = vector;
            *count = MOST_APPENDED - left;
            Ok(())
        }
        Err(Spent) => Err(CollectFault::Steps),
    }
}

/// Collects a word, on to the vector of zeros.
pub fn collect(alloc: Global, pres: &Presentation, word: &Word) -> Result<Vector, CollectFault>
    requires { IsWordIn 1 (length pres.now.names) word.now }
    ensures ok { IfOk result (λ v. collection (relations_of pres.now) word.now ≡ Some v) }
    ensures stands { IfOk result (λ v. (i : ℕ) → 1 ≤ i → i ≤ length pres.now.names
        → IsWordIn i (length pres.now.names) word.now
        → IsVector (length pres.now.names) i v
        × Congruent (relations_of pres.now) i (ordered v) word.now) }
    ensures long { (result ≡ Err CollectFault.LongWord) ↔ (64 < length word.now) }
    // A word that isn't too long is refused exactly where the count would pass 2^24, unless memory
    // is wanting.
    ensures spent { length word.now ≤ 64
        → IfNone (collection (relations_of pres.now) word.now)
        ((result ≡ Err CollectFault.Steps) ⊎ (result ≡ Err CollectFault.Memory)) }
    ensures taken { length word.now ≤ 64
        → IfSome (collection (relations_of pres.now) word.now)
        (λ _. IsOkUnless result CollectFault.Memory) }
{
    if word.letters().len() > LONGEST {
        return Err(CollectFault::LongWord);
    }
    let mut vector = Vector::zero(alloc, pres.count())?;
    let mut left = MOST_APPENDED;
    for letter in word.letters() {
        let Ok(()) = append_letter(pres, &mut vector, &mut left, *letter) else {
            return Err(CollectFault::Steps);
        };
    }
    Ok(vector)
}
