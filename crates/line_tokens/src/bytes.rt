//! Kinds of bytes, and runs of them.

ghost use Rattle.std.specs.Prelude.{◌≡◌, ◌≤◌, length, drop};
ghost use Rattle.std.specs.List.{prefix_len};
ghost use Rattle.line_tokens.specs.Tokens.{is_blank, is_digit, is_silent, is_word_byte};

/// Whether a byte is a space or a tab.
pub fn blank(byte: u8) -> bool
    ensures { result ≡ is_blank byte }
{
    byte == b' ' || byte == b'\t'
}

pub(super) fn digit(byte: u8) -> bool
    ensures { result ≡ is_digit byte }
{
    b'0' <= byte && byte <= b'9'
}

fn word_byte(byte: u8) -> bool
    ensures { result ≡ is_word_byte byte }
{
    byte.is_ascii_alphabetic() || digit(byte) || byte == b'_'
}

/// How many digits the bytes begin with.
pub(super) fn digits_len(bytes: &[u8]) -> usize
    ensures len { result ≡ prefix_len is_digit bytes.now }
    ensures within { result ≤ length bytes.now }
{
    bytes.iter().take_while(|byte| digit(**byte)).count()
}

/// How many word bytes the bytes begin with.
pub(super) fn word_len(bytes: &[u8]) -> usize
    ensures len { result ≡ prefix_len is_word_byte bytes.now }
    ensures within { result ≤ length bytes.now }
{
    bytes.iter().take_while(|byte| word_byte(**byte)).count()
}

/// Whether a line says nothing: it is blank, or its first byte behind blanks is `#`.
pub fn silent(line: &[u8]) -> bool
    ensures { result ≡ is_silent line.now }
{
    for byte in line {
        if !blank(*byte) {
            return *byte == b'#';
        }
    }
    true
}
