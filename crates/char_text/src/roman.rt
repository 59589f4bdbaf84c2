// Roman numerals, letter by letter.
ghost use Rattle.std.specs.Prelude.{◌≡◌, ℕ, ◌<◌, List, [], ◌∷◌, MatchOption};
ghost use Rattle.plain_tokens.specs.Numerals.{roman_numeral, roman};

use std::marker::Model;

/// The letters of a roman numeral that are left to be read. Contracts see it as the list of those letters.
///
/// *TeX: The Program*, part 5 (`print_roman_int`).
#[derive(Drop)]
pub struct Roman {
    left: u32,
}

impl Model for Roman {
    ghost Value = { List ℕ };

    ghost view = { λ numeral. roman_numeral numeral.left };
}

impl Roman {
    /// The numeral of `n`: thousands are m's, and no letter for 0 or less.
    pub fn new(n: i32) -> Roman
        ensures { result ≡ roman n }
    {
        Roman {
            left: n.max(0) as u32,
        }
    }

    /// The next letter; `None` exactly after the last.
    pub fn next(&mut self) -> Option<u8>
        ensures { MatchOption result ((self.old ≡ []) × (self.new ≡ [])) (λ letter. self.old ≡ letter ∷ self.new) }
    {
        if self.left == 0 {
            return None;
        }
        let (letter, left) = first_letter(self.left);
        self.left = left;
        Some(letter)
    }
}

// The first letter of the numeral of n, and a number whose numeral is the rest: a letter that is taken off is added.
fn first_letter(n: u32) -> (u8, u32)
    requires { 0 < n }
    ensures { roman_numeral n ≡ result.0 ∷ roman_numeral result.1 }
{
    match n {
        0..=3 => (b'i', n - 1),
        4 => (b'i', 5),
        5..=8 => (b'v', n - 5),
        9 => (b'i', 10),
        10..=39 => (b'x', n - 10),
        40..=49 => (b'x', n + 10),
        50..=89 => (b'l', n - 50),
        90..=99 => (b'x', n + 10),
        100..=399 => (b'c', n - 100),
        400..=499 => (b'c', n + 100),
        500..=899 => (b'd', n - 500),
        900..=999 => (b'c', n + 100),
        _ => (b'm', n - 1000),
    }
}
