//! Names in their order.

ghost use Rattle.nil_pres.specs.Presented.{AreNames, is_name, name_fault_among, is_first_letter, is_name_byte, reserved};
ghost use Rattle.std.specs.Prelude.{◌≡◌, ℕ, ◌+◌, ◌<◌, ◌≤◌, [], length, None, Some, OnOk, OnErr, IfOk, map, option_map, position, string_bytes, ◌++◌, ◌∷◌, false};
ghost use Rattle.std.specs.List.{list_all, list_any};
ghost use Rattle.std.specs.Str.{bytes_eq};

use super::Memory;
use super::name_fault::NameFault;
use indexmap::IndexSet;
use std::alloc::Global;

/// The first fault of a name beside those that are there.
pub(crate) fn first_name_fault(names: &IndexSet<String>, name: &str) -> Option<NameFault>
    ensures { result ≡ name_fault_among (map string_bytes names.now.keys) name.now }
{
    if names.len() >= 48 {
        return Some(NameFault::TooMany);
    }
    if !is_name_text(name) {
        return Some(NameFault::Name);
    }
    if names.contains(name) {
        return Some(NameFault::TwiceName);
    }
    None
}

/// Puts a new name behind the others.
pub(crate) fn put_name(
    alloc: Global,
    names: &mut IndexSet<String>,
    name: &str,
) -> Result<(), Memory>
    requires { list_any (bytes_eq name.now) (map string_bytes names.old.keys) ≡ false }
    ensures ok { OnOk result (map string_bytes names.new.keys ≡ map string_bytes names.old.keys
        ++ name.now ∷ []) }
    ensures err { OnErr result (map string_bytes names.new.keys ≡ map string_bytes names.old.keys) }
{
    let text = String::from_str(alloc, name)?;
    names.insert(text)?;
    Ok(())
}

/// The number of the generator with a name.
pub(crate) fn number_of(names: &IndexSet<String>, name: &str) -> Option<u32>
    requires { length (map string_bytes names.now.keys) ≤ 48 }
    ensures { result ≡ option_map (λ i. i + 1) (position (bytes_eq name.now)
        (map string_bytes names.now.keys)) }
{
    match names.get_index_of(name) {
        Some(index) => Some(index as u32 + 1),
        None => None,
    }
}

/// The same names in their order.
pub(crate) fn copy_names(
    alloc: Global,
    names: &IndexSet<String>,
) -> Result<IndexSet<String>, Memory>
    requires { AreNames (map string_bytes names.now.keys) }
    ensures { IfOk result (λ copy. map string_bytes copy.keys ≡ map string_bytes names.now.keys) }
{
    let mut copy = IndexSet::new(alloc);
    for name in names.as_slice() {
        put_name(alloc, &mut copy, name.as_str())?;
    }
    Ok(copy)
}

/// Whether a text is a name.
fn is_name_text(name: &str) -> bool
    ensures { result ≡ is_name name.now }
{
    let bytes = name.as_bytes();
    bytes.len() <= 32 && has_first_letter(bytes) && has_name_bytes(bytes) && !is_reserved(name)
}

/// Whether the first byte is a letter.
fn has_first_letter(bytes: &[u8]) -> bool
    ensures { result ≡ is_first_letter bytes.now }
{
    match bytes {
        [] => false,
        [first, ..] => first.is_ascii_alphabetic(),
    }
}

/// Whether each byte may stand in a name.
fn has_name_bytes(bytes: &[u8]) -> bool
    ensures { result ≡ list_all is_name_byte bytes.now }
{
    bytes.iter().all(|b| b.is_ascii_alphabetic() || b.is_ascii_digit() || *b == b'_')
}

/// Whether a text is a word of the query language.
fn is_reserved(name: &str) -> bool
    ensures { result ≡ list_any (bytes_eq name.now) reserved }
{
    name == "solve" || name == "quotient" || name == "root" || name == "image"
}
