//! Tokens as they are printed: eight lower-case hexadecimal digits.
ghost use Rattle.std.specs.Prelude.{◌≡◌, ◌<◌, ◌++◌, OnOk};
ghost use Rattle.ty_load.specs.Refusals.{digits_of, lower_digit as lower_digit_of, token_text};

use num_core::{Bytes, Memory};

/// A lower-case hexadecimal digit.
fn lower_digit(n: u8) -> u8
    requires { n < 16 }
    ensures { result ≡ lower_digit_of n }
{
    if n < 10 { 0x30 + n } else { 0x57 + n }
}

/// Adds so many digits of a number, the lowest last.
fn push_digits(text: &mut Bytes, left: u8, n: u64) -> Result<(), Memory>
    ensures { OnOk result (text.new ≡ text.old ++ digits_of left n) }
{
    if left == 0 {
        return Ok(());
    }
    push_digits(text, left - 1, n / 16)?;
    text.extend_from_slice(&[lower_digit((n % 16) as u8)])
}

/// Adds the text of a token.
pub fn push_token(text: &mut Bytes, token: u64) -> Result<(), Memory>
    ensures { OnOk result (text.new ≡ text.old ++ token_text token) }
{
    push_digits(text, 8, token)
}
