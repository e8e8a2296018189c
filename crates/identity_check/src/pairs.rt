//! The relations, as identities between numbers.

ghost use Rattle.std.specs.Prelude.{◌≡◌, ◌≢◌, ◌<◌, ◌≤◌, pos, [], ◌∷◌, length, unsigned_abs, IsTrue, OnOk};
ghost use Rattle.nil_num.specs.Bound.{IsNumber};
ghost use Rattle.nil_word.specs.Exponents.{one_at};
ghost use Rattle.nil_pres.specs.Relations.{relations_of};
ghost use Rattle.hall_table.specs.Tabled.{last_of};
ghost use Rattle.hall_table.specs.Width.{HasRows};
ghost use Rattle.identity_check.specs.declared.identity.Identity.{Identity};
ghost use Rattle.identity_check.specs.Sides.{xs, entry_of_pair};
ghost use Rattle.identity_check.specs.Meeting.{AllTold};
ghost use Rattle.identity_check.specs.Pairs.{PutPair, AreZero, AreZeroBut, exponent_in};
ghost use Rattle.identity_check.specs.Events.{at_each};
ghost use Rattle.identity_check.specs.Events.Event.{tries};
ghost use Rattle.identity_check.specs.Halts.{WalksIn};

use crate::failure::Failure;
use crate::halt::Halt;
use crate::identity::Identity;
use binom_poly::Rows;
use hall_table::Table;
use nil_pres::{Presentation, Syllable};
use std::alloc::Global;

/// The exponent of a generator in a right side.
pub fn exponent_in(right: &[Syllable], k: u32) -> i64
    ensures { result ≡ exponent_in k right.now }
{
    for syllable in right {
        if syllable.number == k {
            return syllable.exp;
        }
    }
    0
}

/// 1 at one generator, and 0 at the others.
fn one_at(k: u32, j: u32) -> i128
    ensures one { result ≡ one_at k j }
    ensures small { unsigned_abs result ≤ 1 }
{
    if k == j { 1 } else { 0 }
}

/// Entry k of 1 at j and at l plus the exponents of their right side.
pub fn entry_of_pair(pres: &Presentation, j: u32, l: u32, k: u32) -> i128
    requires first { 1 ≤ j }
    requires below { j < l }
    requires last { l ≤ length pres.now.names }
    requires least { 1 ≤ k }
    requires most { k ≤ length pres.now.names }
    ensures { result ≡ entry_of_pair (relations_of pres.now) j l k }
{
    let _ = pres.count();
    let exponent = exponent_in(pres.right_side(l, j), k) as i128;
    exponent + one_at(k, l) + one_at(k, j)
}

/// Whether entry k of a relation is one of neither generator, and 0.
fn is_bare(pres: &Presentation, j: u32, l: u32, k: u32) -> bool
    requires first { 1 ≤ j }
    requires below { j < l }
    requires last { l ≤ length pres.now.names }
    requires least { 1 ≤ k }
    requires most { k ≤ length pres.now.names }
    ensures { IsTrue result
        → (k ≢ j) × (k ≢ l) × (entry_of_pair (relations_of pres.now) j l k ≡ pos 0) }
{
    k != j && k != l && entry_of_pair(pres, j, l, k) == 0
}

/// Puts the unit vectors of two generators as values.
fn put_pair(table: &Table, rows: &mut Rows, j: u32, l: u32)
    requires first { table.now.level ≤ j }
    requires below { j < l }
    requires last { l ≤ last_of table.now }
    requires rows { HasRows table.now rows.old }
    requires zeros { AreZero rows.old }
    ensures rows { HasRows table.now rows.new }
    ensures put { PutPair table.now rows.new j l }
    ensures others { AreZeroBut rows.new j l }
{
    let _ = table.last();
    table.set_x(rows, l, 1).unwrap();
    table.set_y(rows, j, 1).unwrap();
}

/// Puts 0 where the unit vectors of two generators were put.
fn clear_pair(table: &Table, rows: &mut Rows, j: u32, l: u32)
    requires first { table.now.level ≤ j }
    requires below { j < l }
    requires last { l ≤ last_of table.now }
    requires rows { HasRows table.now rows.old }
    requires others { AreZeroBut rows.old j l }
    ensures rows { HasRows table.now rows.new }
    ensures zeros { AreZero rows.new }
{
    let _ = table.last();
    // A refusal leaves 0 too.
    let _ = table.set_x(rows, l, 0);
    let _ = table.set_y(rows, j, 0);
}

/// Tries the relation of two generators at one entry.
fn relation(
    alloc: Global,
    pres: &Presentation,
    table: &Table,
    rows: &Rows,
    j: u32,
    l: u32,
    k: u32,
) -> Result<(), Halt>
    requires names { last_of table.now ≡ length pres.now.names }
    requires first { table.now.level ≤ j }
    requires below { j < l }
    requires last { l ≤ last_of table.now }
    requires least { table.now.level ≤ k }
    requires most { k ≤ last_of table.now }
    requires rows { HasRows table.now rows.now }
    requires put { PutPair table.now rows.now j l }
    ensures { WalksIn (relations_of pres.now) table.now (tries (Identity.Relation j l k) ∷ [])
        result }
{
    let _ = table.last();
    let identity = Identity::Relation { j, l, k };
    let Ok(left) = table.entry(rows, k) else {
        return Err(Halt::Wide(identity));
    };
    let right = entry_of_pair(pres, j, l, k);
    if left == right {
        return Ok(());
    }
    Err(Halt::Failed(Failure {
        identity,
        point: Vec::new(alloc),
        left,
        right,
    }))
}

/// Tries the relation of two generators, at each entry but those where all terms are told to be 0.
pub fn relations(
    alloc: Global,
    pres: &Presentation,
    table: &Table,
    rows: &mut Rows,
    told: bool,
    j: u32,
    l: u32,
) -> Result<(), Halt>
    requires names { last_of table.now ≡ length pres.now.names }
    requires told { IsTrue told → AllTold (relations_of pres.now) table.now }
    requires first { table.now.level ≤ j }
    requires below { j < l }
    requires last { l ≤ last_of table.now }
    requires rows { HasRows table.now rows.old }
    requires zeros { AreZero rows.old }
    ensures walks { WalksIn (relations_of pres.now) table.now
        (at_each (xs table.now) (λ k. tries (Identity.Relation j l k))) result }
    ensures rows { HasRows table.now rows.new }
    ensures zeros { OnOk result (AreZero rows.new) }
{
    put_pair(table, rows, j, l);
    for k in table.level()..table.last() + 1 {
        if !told || !is_bare(pres, j, l, k) {
            relation(alloc, pres, table, rows, j, l, k)?;
        }
    }
    clear_pair(table, rows, j, l);
    Ok(())
}
