// The digits behind a point, and what tokens are to a dimension.
ghost use Rattle.std.specs.Prelude.{◌≡◌, ◌≤◌, ◌<◌, [], length, slice_index, EachIndex};
ghost use Rattle.plain_tokens.specs.Tokens as tokens;
ghost use Rattle.scaled_arith.specs.Scaled as scaled;
ghost use Rattle.plain_readings.specs.Dimens as dimens;

use equivalents::Loc;
use scaled_arith::fraction;
use tex_defs::{Meaning, RegisterKind, Seen, Token};

/// How many digits count.
const MOST: usize = 17;

/// The digits behind a point, as values, the first 17 of which are kept.
#[derive(Clone, Copy)]
pub struct Digits {
    pub values: [u8; MOST],
    pub count: u8,
    ghost room: { length values ≡ 17 },
    ghost few: { count ≤ 17 },
    ghost small: { EachIndex values (λ k. slice_index values k ≤ 9) },
}

impl Digits {
    ghost use Rattle.std.specs.Prelude.{◌≡◌, ◌≤◌, []};
    ghost use Rattle.scan_dimens.specs.DimenViews as sees;

    /// None.
    pub fn new() -> Digits
        ensures { sees.digits_of result ≡ [] }
    {
        Digits {
            values: [0; MOST],
            count: 0,
        }
    }

    /// With this digit behind them.
    pub fn with(self, digit: u8) -> Digits
        requires { digit ≤ 9 }
        ensures { sees.digits_of result ≡ dimens.with_digit (sees.digits_of self) digit }
    {
        let Digits { mut values, count } = self;
        if usize::from(count) < MOST {
            values[usize::from(count)] = digit;
            Digits {
                values,
                count: count + 1,
            }
        } else {
            self
        }
    }

    /// The fraction that they spell, in units of 1/65536.
    pub fn fraction(self) -> u32
        ensures is { result ≡ scaled.fraction_of (sees.digits_of self) }
        ensures small { result ≤ 65536 }
    {
        fraction(&self.values[..usize::from(self.count)])
    }
}

/// Whether it is this explicit character, of category 12.
pub fn is_other(x: Seen, code: u8) -> bool
    ensures { result ≡ tokens.is_other code x.token }
{
    match x.token {
        Token::Char { cat, code: own } => cat == 12 && own == code,
        _ => false,
    }
}

/// Whether it means a space.
pub fn is_space(x: Seen) -> bool
    ensures { result ≡ tokens.is_space x }
{
    match x.meaning {
        Meaning::Char { cat, .. } => cat == 10,
        _ => false,
    }
}

/// Whether an integer stands there, which is no dimension.
pub fn is_integer_at(loc: Loc) -> bool
    ensures { result ≡ dimens.is_integer_at loc }
{
    match loc {
        Loc::Code { .. } => true,
        Loc::Integer(_) => true,
        Loc::Register {
            kind: RegisterKind::Count,
            no: _,
        } => true,
        _ => false,
    }
}
