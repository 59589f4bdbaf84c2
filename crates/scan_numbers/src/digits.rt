// Digits, character codes and signed values.
ghost use Rattle.std.specs.Prelude.{◌≡◌, ◌≤◌, MatchOption, true, false};
ghost use Rattle.plain_tokens.specs.Tokens as tokens;
ghost use Rattle.rows.specs.Internal as internals;
ghost use Rattle.plain_readings.specs.Integers as integers;
ghost use Rattle.plain_readings.specs.Factors as factors;
ghost use Rattle.plain_readings.specs.Integers.{greatest_integer, is_digit, digit_of};
ghost use Rattle.scan_numbers.specs.Views.{radix_number, IsInRange};

use tex_defs::{Meaning, Name, Seen, Token};

/// The greatest integer.
pub const GREATEST: u32 = 2147483647;

/// The base of a number's digits.
#[derive(Clone, Copy)]
pub enum Radix {
    Octal,
    Decimal,
    Hexadecimal,
}

impl Radix {
    /// How many digits there are.
    pub fn number(self) -> u8
        ensures { result ≡ radix_number self }
    {
        match self {
            Radix::Octal => 8,
            Radix::Decimal => 10,
            Radix::Hexadecimal => 16,
        }
    }

    /// The digit that a token is.
    pub fn digit(self, x: Seen) -> Option<u8>
        ensures { MatchOption result (is_digit (radix_number self) x ≡ false) (λ d. (is_digit (radix_number self) x ≡ true) × (d ≡ digit_of x.token)) }
    {
        let Token::Char { cat, code } = x.token else {
            return None;
        };
        let greatest = match self {
            Radix::Octal => 55,
            _ => 57,
        };
        if cat == 12 && code >= 48 && code <= greatest {
            return Some(code - 48);
        }
        match self {
            Radix::Hexadecimal if (cat == 11 || cat == 12) && code >= 65 && code <= 70 => {
                Some(code - 55)
            }
            _ => None,
        }
    }
}

/// Whether it is this explicit character, of category 12.
pub fn is_other(x: Seen, code: u8) -> bool
    ensures { result ≡ tokens.is_other code x.token }
{
    match x.token {
        Token::Char { cat, code: own } => cat == 12 && own == code,
        _ => false,
    }
}

/// Whether it is a decimal digit.
pub fn is_decimal(x: Seen) -> bool
    ensures { result ≡ is_digit 10 x }
{
    match Radix::Decimal.digit(x) {
        Some(_) => true,
        None => false,
    }
}

/// Whether it is `.` or `,`.
pub fn is_point(x: Seen) -> bool
    ensures { result ≡ factors.is_point x }
{
    is_other(x, 46) || is_other(x, 44)
}

/// Whether it means a space.
pub fn is_space(x: Seen) -> bool
    ensures { result ≡ tokens.is_space x }
{
    match x.meaning {
        Meaning::Char { cat, .. } => cat == 10,
        _ => false,
    }
}

/// The code of a character, of an active character or of a name of one character.
pub fn code_of(token: Token) -> Option<u8>
    ensures { result ≡ integers.code_of token }
{
    match token {
        Token::Char { code, .. } => Some(code),
        Token::Named(Name::Active(code)) | Token::Named(Name::Single(code)) => Some(code),
        Token::Marked(Name::Active(code)) | Token::Marked(Name::Single(code)) => Some(code),
        _ => None,
    }
}

/// An integer behind signs.
pub fn with_sign(negative: bool, n: i32) -> i32
    requires { IsInRange n }
    ensures value { result ≡ internals.with_sign negative n }
    ensures range { IsInRange result }
{
    if negative { 0 - n } else { n }
}

/// The integer with its sign.
pub fn signed(negative: bool, value: u32) -> i32
    requires { value ≤ greatest_integer }
    ensures value { result ≡ integers.signed negative value }
    ensures range { IsInRange result }
{
    let magnitude = value as i32;
    if negative { 0 - magnitude } else { magnitude }
}
