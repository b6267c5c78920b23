ghost use Rattle.std.specs.Prelude.{◌≡◌, ◌*◌, ◌+◌, ◌-◌, min, length, IsTrue};
ghost use Rattle.sql_tokens.specs.Tokens.{number, number_value, with_digit, begins_with, is_digit, IsWithin};

use crate::Lexeme;
use crate::bytes::count_digits;
use crate::fronts::Front;

/// A number above 2^63 counts as this.
const BIG: u64 = 9_223_372_036_854_775_809;

/// The number at the front.
#[tactic(auto, unfolding(crate::specs::Tokens::number))]
pub fn read_number(bytes: &[u8]) -> Front
    requires { IsTrue (begins_with is_digit bytes.now) }
    ensures value { result ≡ number bytes.now }
    ensures within { IsWithin (length bytes.now) result }
{
    let size = count_digits(bytes);
    Front::Token(Lexeme::Number(value_of(bytes.split_at(size).0)), size)
}

fn value_of(digits: &[u8]) -> u64
    ensures { result ≡ number_value digits.now }
{
    let mut value = 0;
    for digit in digits {
        value = longer(value, *digit);
    }
    value
}

fn longer(value: u64, digit: u8) -> u64
    ensures { result ≡ min (with_digit value digit) 9223372036854775809 }
{
    let digit = u64::from(digit.saturating_sub(b'0'));
    value.saturating_mul(10).saturating_add(digit).min(BIG)
}
