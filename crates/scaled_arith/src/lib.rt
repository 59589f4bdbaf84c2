//! TeX's arithmetic on scaled points (sp): units of measure, magnification, multiples, quotients and
//! decimal fractions, each with its exact value or `None`.
//!
//! A scaled point is 1/65536 of a printer's point. *The TeXbook*, chapter 10; *TeX: The Program*, part 7
//! (arithmetic with scaled dimensions) and part 26 (basic scanning subroutines).
#![tactic(auto)]

ghost use Rattle.std.specs.Prelude.{◌≡◌, ◌≢◌, ℕ, ◌+◌, ◌-◌, ◌*◌, ◌^◌, ◌≤◌, pos, ◌+ℤ◌, ◌*ℤ◌, ◌<ℤ◌, ◌≤ℤ◌, unsigned_abs, int_div, length, slice_index, EachIndex, SomeIff};
ghost use Rattle.scaled_arith.specs.Scaled.{floor_ratio, fraction_of};

/// The value in sp of `x` sp-fractions of a unit of measure that is `num`/`den` points: floor(x·num/den).
///
/// `x` is 65536·i + f for the factor i and its fraction f. `None` exactly where the value is 2^30 sp or
/// more, which is no dimension. *The TeXbook*, chapter 10.
pub fn units(x: i64, num: u32, den: u32) -> Option<i64>
    requires not_negative { pos 0 ≤ℤ x }
    requires at_most { x ≤ℤ pos (2 ^ 47) }
    requires numerator { num ≤ 2 ^ 15 }
    requires denominator { 1 ≤ den }
    ensures { SomeIff result (floor_ratio x num den <ℤ pos (2 ^ 30)) (floor_ratio x num den) }
{
    let value = floor_of(x, num, den);
    if value < 1 << 30 { Some(value) } else { None }
}

/// The factor `x` of a `true` unit of measure at the magnification `mag`: floor(x·1000/mag).
///
/// `None` exactly where that is 2^46 or more. *The TeXbook*, chapter 10 (magnification).
pub fn magnify(x: i64, mag: u32) -> Option<i64>
    requires not_negative { pos 0 ≤ℤ x }
    requires at_most { x ≤ℤ pos (2 ^ 47) }
    requires magnification { 1 ≤ mag }
    ensures { SomeIff result (floor_ratio x 1000 mag <ℤ pos (2 ^ 46)) (floor_ratio x 1000 mag) }
{
    let value = floor_of(x, 1000, mag);
    if value < 1 << 46 { Some(value) } else { None }
}

/// `n`·`x` + `y`. `None` exactly where its absolute value passes `bound`.
///
/// *TeX: The Program*, part 7 (`mult_and_add`).
pub fn times_plus(n: i64, x: i64, y: i64, bound: i64) -> Option<i64>
    requires factor { unsigned_abs n ≤ 2 ^ 31 }
    requires value { unsigned_abs x ≤ 2 ^ 31 }
    requires addend { unsigned_abs y ≤ 2 ^ 31 }
    requires limit { unsigned_abs bound ≤ 2 ^ 31 }
    ensures { SomeIff result (pos (unsigned_abs (n *ℤ x +ℤ y)) ≤ℤ bound) (n *ℤ x +ℤ y) }
{
    let value = sum_of(n, x, y);
    if value.abs() <= bound {
        Some(value)
    } else {
        None
    }
}

/// The quotient of `x` by `n`, cut towards zero. `None` exactly where `n` is 0.
///
/// *TeX: The Program*, part 7 (`x_over_n`).
pub fn divide(x: i64, n: i64) -> Option<i64>
    requires dividend { unsigned_abs x ≤ 2 ^ 31 }
    requires divisor { unsigned_abs n ≤ 2 ^ 31 }
    ensures { SomeIff result (n ≢ pos 0) (int_div x n) }
{
    if n == 0 { None } else { Some(x / n) }
}

/// The decimal fraction 0.d1..dk in units of 1/65536, rounded: (floor(131072·0.d1..dk) + 1) div 2.
///
/// The digits are values, 0 to 9, and only the first 17 count. The result is at most 65536.
/// *TeX: The Program*, part 7 (`round_decimals`).
pub fn fraction(digits: &[u8]) -> u32
    requires { EachIndex digits.now (λ k. slice_index digits.now k ≤ 9) }
    ensures value { result ≡ fraction_of digits.now }
    ensures at_most { result ≤ 2 ^ 16 }
{
    let counted = &digits[..digits.len().min(17)];
    let mut left = counted.len();
    let mut doubled: u32 = 0;
    while left > 0 {
        left -= 1;
        doubled = (doubled + 131072 * u32::from(counted[left])) / 10;
    }
    (doubled + 1) / 2
}

// n·x + y
fn sum_of(n: i64, x: i64, y: i64) -> i64
    requires factor { unsigned_abs n ≤ 2 ^ 31 }
    requires value { unsigned_abs x ≤ 2 ^ 31 }
    requires addend { unsigned_abs y ≤ 2 ^ 31 }
    ensures sum { result ≡ n *ℤ x +ℤ y }
    ensures small { unsigned_abs result ≤ 2 ^ 63 - 1 }
{
    n * x + y
}

// floor(x·num/den)
fn floor_of(x: i64, num: u32, den: u32) -> i64
    requires not_negative { pos 0 ≤ℤ x }
    requires at_most { x ≤ℤ pos (2 ^ 47) }
    requires numerator { num ≤ 2 ^ 15 }
    requires denominator { 1 ≤ den }
    ensures { result ≡ floor_ratio x num den }
{
    (x as u64 * u64::from(num) / u64::from(den)) as i64
}
