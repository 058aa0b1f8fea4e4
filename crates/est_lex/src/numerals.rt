// Numerals.

ghost use Rattle.std.specs.Prelude.{◌<◌, ◌^◌, slice_index, SomeIff, EachIndex};
ghost use Rattle.est_ast.specs.Runs.{IsRun};
ghost use Rattle.est_ast.specs.Lexemes.{IsDigit};
ghost use Rattle.est_ast.specs.Lexing.{number_of};

use crate::classes::is_digit;

/// How many digits begin the text.
pub fn digits_len(text: &[u8]) -> usize
    ensures { IsRun IsDigit text.now result }
{
    for (at, byte) in text.iter().enumerate() {
        if !is_digit(*byte) {
            return at;
        }
    }
    text.len()
}

/// The number that digits stand for; nothing, where it is above the greatest `u128`.
pub fn number(digits: &[u8]) -> Option<u128>
    requires { EachIndex digits.now (λ k. IsDigit (slice_index digits.now k)) }
    ensures { SomeIff result (number_of digits.now < 2 ^ 128) (number_of digits.now) }
{
    let mut value: u128 = 0;
    for digit in digits {
        value = value
            .checked_mul(10)?
            .checked_add(u128::from(*digit - b'0'))?;
    }
    Some(value)
}
