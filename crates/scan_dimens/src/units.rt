// Factors and the units of measure behind them.
ghost use Rattle.std.specs.Prelude.{◌≡◌, ◌≤◌, ◌<◌, ◌+◌, pos, [], ◌∷◌, drop, MatchOption};
ghost use Rattle.rows.specs.Arithmetic as arithmetic;
ghost use Rattle.plain_readings.specs.Dimens as dimens;
ghost use Rattle.plain_readings.specs.Dimens.{physical};
ghost use Rattle.scan_dimens.specs.DimenViews.{IsRead, IsMagnified, IsUnit};

use plain_readings::{Measure, Quantity};
use rows::{GREATEST_DIMENSION, Keyword};
use scaled_arith::{times_plus, units};

/// The physical unit at this place, of eight.
pub fn physical_unit(place: u8) -> Option<Measure>
    ensures is { MatchOption result (drop place physical ≡ []) (λ u. drop place physical ≡ u ∷ drop (place + 1) physical) }
    ensures unit { MatchOption result (place ≡ place) IsUnit }
{
    let (word, num, den) = match place {
        0 => (Keyword::Pt, 1, 1),
        1 => (Keyword::In, 7227, 100),
        2 => (Keyword::Pc, 12, 1),
        3 => (Keyword::Cm, 7227, 254),
        4 => (Keyword::Mm, 7227, 2540),
        5 => (Keyword::Bp, 7227, 7200),
        6 => (Keyword::Dd, 1238, 1157),
        7 => (Keyword::Cc, 14856, 1157),
        _ => return None,
    };
    Some(Measure { word, num, den })
}

// A value in sp that isn't negative.
fn measured_up(n: u64) -> Option<i32>
    ensures { result ≡ arithmetic.measured (pos n) }
{
    if n <= GREATEST_DIMENSION as u64 {
        Some(n as i32)
    } else {
        None
    }
}

// A factor in sp, where the unit is a point.
fn in_scaled_points(amount: Quantity) -> u64
    requires { IsMagnified amount }
    ensures { result ≡ dimens.in_scaled_points amount }
{
    65536 * amount.whole + u64::from(amount.fraction)
}

/// A factor in points.
pub fn points(amount: Quantity) -> Option<i32>
    requires { IsMagnified amount }
    ensures { result ≡ dimens.points amount }
{
    measured_up(in_scaled_points(amount))
}

/// A factor in scaled points, of which the fraction is dropped.
pub fn scaled_points(amount: Quantity) -> Option<i32>
    ensures { result ≡ arithmetic.measured (pos amount.whole) }
{
    measured_up(amount.whole)
}

/// A factor in physical units.
pub fn in_units(amount: Quantity, unit: Measure) -> Option<i32>
    requires amount { IsMagnified amount }
    requires unit { IsUnit unit }
    ensures { result ≡ arithmetic.measured (pos (dimens.in_units amount unit)) }
{
    let points = in_scaled_points(amount);
    if points > 1 << 47 {
        return None;
    }
    match units(points as i64, unit.num, unit.den) {
        Some(n) => Some(n as i32),
        None => None,
    }
}

/// A factor in internal units of this value, where the fraction's part is cut towards zero.
pub fn times(amount: Quantity, value: i32) -> Option<i32>
    requires { IsRead amount }
    ensures { result ≡ arithmetic.measured (dimens.times amount value) }
{
    let value = i64::from(value);
    let part = value * i64::from(amount.fraction) / 65536;
    match times_plus(
        amount.whole as i64,
        value,
        part,
        i64::from(GREATEST_DIMENSION),
    ) {
        Some(n) => Some(n as i32),
        None => None,
    }
}

/// A factor divided by this magnification, in thousandths.
pub fn magnified(amount: Quantity, mag: u32) -> Quantity
    requires amount { IsRead amount }
    requires positive { 1 ≤ mag }
    ensures is { result ≡ dimens.magnified_amount amount mag }
    ensures small { IsMagnified result }
{
    if mag == 1000 {
        return amount;
    }
    let points = in_scaled_points(amount) * 1000 / u64::from(mag);
    Quantity {
        whole: points / 65536,
        fraction: (points % 65536) as u32,
    }
}
