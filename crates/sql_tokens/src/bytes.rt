//! What single bytes stand for, and how far bytes of one kind go.

ghost use Rattle.std.specs.Prelude.{◌≡◌, ◌≤◌, length};
ghost use Rattle.std.specs.List.{prefix_len};
ghost use Rattle.sql_tokens.specs.Tokens.{is_blank, is_digit, is_letter, is_word, is_in_line, folded};

pub fn is_blank(byte: u8) -> bool
    ensures { result ≡ is_blank byte }
{
    matches!(byte, b'\t' | b'\n' | b'\r' | b' ')
}

pub fn is_digit(byte: u8) -> bool
    ensures { result ≡ is_digit byte }
{
    byte.is_ascii_digit()
}

pub fn is_letter(byte: u8) -> bool
    ensures { result ≡ is_letter byte }
{
    byte.is_ascii_alphabetic() || byte == b'_'
}

pub fn is_word(byte: u8) -> bool
    ensures { result ≡ is_word byte }
{
    is_letter(byte) || is_digit(byte)
}

pub fn fold(byte: u8) -> u8
    ensures { result ≡ folded byte }
{
    byte.to_ascii_lowercase()
}

/// How many bytes at the front belong to a name.
pub fn count_word(bytes: &[u8]) -> usize
    ensures count { result ≡ prefix_len is_word bytes.now }
    ensures within { result ≤ length bytes.now }
{
    bytes.iter().take_while(|byte| is_word(**byte)).count()
}

pub fn count_digits(bytes: &[u8]) -> usize
    ensures count { result ≡ prefix_len is_digit bytes.now }
    ensures within { result ≤ length bytes.now }
{
    bytes.iter().take_while(|byte| is_digit(**byte)).count()
}

/// How many bytes at the front stand before the first line feed.
pub fn count_line(bytes: &[u8]) -> usize
    ensures count { result ≡ prefix_len is_in_line bytes.now }
    ensures within { result ≤ length bytes.now }
{
    bytes.iter().take_while(|byte| **byte != b'\n').count()
}
