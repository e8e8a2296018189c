//! The polynomials of a table.

ghost use Rattle.std.specs.Prelude.{◌≡◌, ◌<◌, ◌≤◌, ◌⊎◌, ℕ, List, All, IfOk, IfErr, MatchOption, is_some, length};
ghost use Rattle.std.specs.List.{list_all};
ghost use Rattle.serde_json.specs.Data.{Data};
ghost use Rattle.serde_json.specs.Find.{as_array};
ghost use Rattle.serde_json.specs.View.{view};
ghost use Rattle.hall_table.specs.Tabled.{IsFirstUnshaped, IsTabled};
ghost use Rattle.table_json.specs.Refusing.{HasPolynomials, IsArray, RefusesPolys, SaysPolys};
ghost use Rattle.table_json.specs.Reading.{data_of};

use super::table_fault::TableFault;
use super::terms::poly;
use binom_poly::Poly;
use hall_table::{Table, TableOfFault};
use serde_json::Value;
use std::alloc::Global;

/// Whether all values are arrays.
fn are_arrays(values: &[Value]) -> bool
    ensures { result ≡ list_all (λ v. is_some (as_array (view v))) values.now }
{
    values.iter().all(|value| value.is_array())
}

/// The arrays of terms, one for each generator.
pub(super) fn polynomial_values(value: &Value, n: u32) -> Option<&[Value]>
    ensures { MatchOption result ((ds : List Data) → ¬ HasPolynomials n (view value.now) ds)
        (λ vs. HasPolynomials n (view value.now) (data_of vs.now)) }
{
    let Some(found) = value.get("polynomials") else {
        return None;
    };
    let Some(values) = found.as_array() else {
        return None;
    };
    let values = values.as_slice();
    if values.len() == n as usize && are_arrays(values) {
        Some(values)
    } else {
        None
    }
}

/// The polynomials of arrays of terms.
pub(super) fn polys(alloc: Global, n: u32, values: &[Value]) -> Result<Vec<Poly>, TableFault>
    requires generators { n ≤ 48 }
    requires arrays { All IsArray (data_of values.now) }
    ensures said { IfOk result (λ ps. SaysPolys n (data_of values.now) ps.items) }
    ensures refused { IfErr result (λ f. (f ≡ TableFault.Memory)
        ⊎ RefusesPolys n (data_of values.now) f) }
{
    let mut polys = Vec::new(alloc);
    for value in values {
        let poly = poly(alloc, n, value)?;
        polys.push(poly)?;
    }
    Ok(polys)
}

/// The table of level 1 with these polynomials.
pub(super) fn shaped(alloc: Global, polys: Vec<Poly>) -> Result<Table, TableFault>
    requires nonempty { 0 < length polys.items }
    requires most { length polys.items ≤ 48 }
    ensures table { IfOk result (λ t. (t.level ≡ 1) × (t.polys ≡ polys.items)) }
    ensures form { IfOk result IsTabled }
    ensures refused { IfErr result (λ f. (f ≡ TableFault.Memory)
        ⊎ ((k : ℕ) × (f ≡ TableFault.Shape k) × IsFirstUnshaped 1 polys.items k)) }
{
    match Table::of(alloc, 1, polys) {
        Ok(table) => {
            // Each table's level tells that its polynomials have the shape.
            let _level = table.level();
            Ok(table)
        }
        Err(TableOfFault::Shape(k)) => Err(TableFault::Shape(k)),
        Err(TableOfFault::Memory) => Err(TableFault::Memory),
    }
}
