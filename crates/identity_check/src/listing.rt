//! Lists of variables that are set to 0.

ghost use Rattle.std.specs.Prelude.{◌≡◌, ◌+◌, ◌-◌, ◌≤◌, ◌++◌, ◌==◌, All, IfOk, OnOk, filter, map, not};
ghost use Rattle.nil_word.specs.Exponents.{numbers};
ghost use Rattle.binom_poly.specs.Monomial.{IsVariable};
ghost use Rattle.binom_poly.specs.Variable.{y_of};
ghost use Rattle.hall_table.specs.Tabled.{last_of};
ghost use Rattle.identity_check.specs.Sides.{cleared, other_ys, xs, ys};

use binom_poly::{Memory, y_of};
use hall_table::Table;
use std::alloc::Global;

/// Appends the x from a generator on, up to before an end.
fn push_xs(vars: &mut Vec<u32>, low: u32, end: u32) -> Result<(), Memory>
    requires { low ≤ end }
    ensures { OnOk result (vars.new.items ≡ vars.old.items ++ numbers low (end - low)) }
{
    for k in low..end {
        vars.push(k)?;
    }
    Ok(())
}

/// Appends the y from a generator on, up to before an end.
fn push_ys(vars: &mut Vec<u32>, low: u32, end: u32) -> Result<(), Memory>
    requires from { low ≤ end }
    requires most { end ≤ 49 }
    ensures { OnOk result (vars.new.items ≡ vars.old.items ++ map y_of (numbers low (end - low))) }
{
    for k in low..end {
        vars.push(y_of(k))?;
    }
    Ok(())
}

/// Appends the same, without that of one generator.
fn push_other_ys(vars: &mut Vec<u32>, low: u32, end: u32, j: u32) -> Result<(), Memory>
    requires from { low ≤ end }
    requires most { end ≤ 49 }
    ensures { OnOk result (vars.new.items ≡ vars.old.items
        ++ map y_of (filter (λ k. not (k == j)) (numbers low (end - low)))) }
{
    for k in low..end {
        if k != j {
            vars.push(y_of(k))?;
        }
    }
    Ok(())
}

/// The x of a table.
pub fn xs(alloc: Global, table: &Table) -> Result<Vec<u32>, Memory>
    ensures xs { IfOk result (λ vars. vars.items ≡ xs table.now) }
    ensures variables { IfOk result (λ vars. All IsVariable vars.items) }
{
    let mut vars = Vec::new(alloc);
    push_xs(&mut vars, table.level(), table.last() + 1)?;
    Ok(vars)
}

/// The y of a table.
pub fn ys(alloc: Global, table: &Table) -> Result<Vec<u32>, Memory>
    ensures ys { IfOk result (λ vars. vars.items ≡ ys table.now) }
    ensures variables { IfOk result (λ vars. All IsVariable vars.items) }
{
    let mut vars = Vec::new(alloc);
    push_ys(&mut vars, table.level(), table.last() + 1)?;
    Ok(vars)
}

/// The y but that of a generator.
pub fn other_ys(alloc: Global, table: &Table, j: u32) -> Result<Vec<u32>, Memory>
    ensures other_ys { IfOk result (λ vars. vars.items ≡ other_ys table.now j) }
    ensures variables { IfOk result (λ vars. All IsVariable vars.items) }
{
    let mut vars = Vec::new(alloc);
    push_other_ys(&mut vars, table.level(), table.last() + 1, j)?;
    Ok(vars)
}

/// The x above a generator, and the y but its own.
pub fn cleared(alloc: Global, table: &Table, j: u32) -> Result<Vec<u32>, Memory>
    requires { j ≤ last_of table.now }
    ensures cleared { IfOk result (λ vars. vars.items ≡ cleared table.now j) }
    ensures variables { IfOk result (λ vars. All IsVariable vars.items) }
{
    let end = table.last() + 1;
    let mut vars = Vec::new(alloc);
    push_xs(&mut vars, j + 1, end)?;
    push_other_ys(&mut vars, table.level(), end, j)?;
    Ok(vars)
}
