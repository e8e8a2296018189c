//! Integers.

ghost use Rattle.std.specs.Prelude.{◌≡◌, Some, None, if◌then◌else◌};
ghost use Rattle.nil_num.specs.Bound.{overflows};
ghost use Rattle.line_tokens.specs.Tokens.{number_from, fitting, integer};

use super::kind::Kind;

/// The greatest magnitude, 2^127 - 1.
const MAX: u128 = 0x7fff_ffff_ffff_ffff_ffff_ffff_ffff_ffff;

/// Ten times a number below it and one more digit fit: for those no quotient is needed.
const SMALL: u128 = 1 << 120;

/// The number of digits, where it is at most 2^127 - 1.
fn magnitude(digits: &[u8]) -> Option<u128>
    ensures { result ≡ (if overflows (number_from 0 digits.now) then None
        else Some (number_from 0 digits.now)) }
{
    let mut n = 0u128;
    for byte in digits {
        let digit = byte.saturating_sub(b'0') as u128;
        if n >= SMALL && n > (MAX - digit) / 10 {
            return None;
        }
        n = n * 10 + digit;
    }
    Some(n)
}

/// The value of an integer, where its magnitude is at most 2^127 - 1.
fn value_of(negative: bool, digits: &[u8]) -> Option<i128>
    ensures { result ≡ fitting negative (number_from 0 digits.now) }
{
    match magnitude(digits) {
        None => None,
        Some(n) => {
            let n = n as i128;
            if negative { Some(-n) } else { Some(n) }
        }
    }
}

/// The integer of digits, with a `-` before them or without.
pub(super) fn integer_kind(negative: bool, digits: &[u8]) -> Kind
    ensures { result ≡ integer negative digits.now }
{
    let is_one = !negative && digits == b"1".as_slice();
    let value = value_of(negative, digits);
    Kind::Integer { is_one, value }
}
