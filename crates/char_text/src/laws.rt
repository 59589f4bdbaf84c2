// The laws of the texts: functions that do nothing, each with a law as its contract.
ghost use Rattle.std.specs.Prelude.{◌≡◌, ◌+◌, ◌*◌, ◌≤◌, ◌<◌, ◌^◌, ◌++◌, ◌∷◌, [], pos, ◌+ℤ◌, ◌<ℤ◌, ◌≤ℤ◌, length, codes, unsigned_abs, IsTrue};
ghost use Rattle.std.specs.Fmt.{decimal};
ghost use Rattle.plain_tokens.specs.Numerals.{whole_number, hexadecimal, digits_until, fraction_digits, scaled, roman, roman_value};
ghost use Rattle.char_text.specs.Readings.{SpellsDimension, repeats_little};

/// A printed dimension reads back as itself: the bytes that `put_scaled` puts for `v` sp, with the unit `pt`,
/// spell a dimension of `v` sp, by the rule that TeX reads decimal fractions with.
///
/// *TeX: The Program*, part 7; D. E. Knuth, "A simple program whose proof isn't".
pub fn printed_dimension_reads_back(v: i32)
    requires { unsigned_abs v < 2 ^ 30 }
    ensures { SpellsDimension (scaled v ++ codes "pt") v }
{}

/// Five digits are enough for each fraction: with more allowed, no more come.
pub fn five_digits_suffice(fraction: u32, more: u32)
    ensures { digits_until (5 + more) (10 * fraction + 5) 10 ≡ fraction_digits fraction }
{}

/// What a roman numeral is: the value that its letters spell is the number, there is no letter for 0 or less,
/// a thousand more is an `m` more, and no other letter stands four times in a row.
pub fn roman_spells_number(n: i32)
    ensures value { pos 0 ≤ℤ n → pos (roman_value (roman n)) ≡ n }
    ensures none { n ≤ℤ pos 0 → roman n ≡ [] }
    ensures thousand { pos 0 ≤ℤ n → roman (n +ℤ pos 1000) ≡ 109 ∷ roman n }
    ensures repeats { IsTrue (repeats_little (roman n)) }
{}

/// The text of a whole number has at most 11 bytes.
pub fn whole_number_length(n: i32)
    ensures { length (whole_number n) ≤ 11 }
{}

/// The text of a count has at most 20 bytes.
pub fn count_length(n: u64)
    ensures { length (decimal n) ≤ 20 }
{}

/// The text of a scaled number has at most 12 bytes.
pub fn scaled_length(s: i32)
    ensures { length (scaled s) ≤ 12 }
{}

/// The text of a number in hexadecimal has at most 8 bytes.
pub fn hexadecimal_length(n: u32)
    ensures { length (hexadecimal n) ≤ 8 }
{}
