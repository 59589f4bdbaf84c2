// Arithmetic on what stands at a location. *The TeXbook*, chapter 24; *TeX: The Program*, part 49 (`do_register_command`).
ghost use Rattle.std.specs.Prelude.{◌≡◌, ◌*ℤ◌};
ghost use Rattle.rows.specs.Arithmetic as arithmetic;
ghost use Rattle.rows.specs.Internal as internal;
ghost use Rattle.rows.specs.declared.arithmetic.Operation.TheVariants as operation;

use crate::internal::{is_dimension, is_glue};
use crate::words::Datum;
use equivalents::{Glue, Loc, Val};

/// What `\advance`, `\multiply` and `\divide` do.
#[derive(Clone, Copy)]
pub enum Operation {
    Advance,
    Multiply,
    /// The quotient is cut towards zero.
    Divide,
}

/// What an integer and a number come to; `None` where that is out of bounds, or the integer is divided by 0.
pub fn computed(operation: Operation, value: i32, number: i32) -> Option<i32>
    ensures { result ≡ arithmetic.computed operation value number }
{
    match operation {
        Operation::Advance => sum(value, number),
        Operation::Multiply => product(value, number),
        Operation::Divide => quotient(value, number),
    }
}

#[tactic(auto, using(crate::proofs::Bounds::beyond))]
fn sum(value: i32, number: i32) -> Option<i32>
    ensures { result ≡ arithmetic.computed operation.Advance value number }
{
    within_bounds(value.checked_add(number)?)
}

#[tactic(auto, using(crate::proofs::Bounds::beyond))]
fn product(value: i32, number: i32) -> Option<i32>
    ensures { result ≡ arithmetic.computed operation.Multiply value number }
{
    within_bounds(value.checked_mul(number)?)
}

#[tactic(auto, using(crate::proofs::Bounds::beyond))]
fn quotient(value: i32, number: i32) -> Option<i32>
    ensures { result ≡ arithmetic.computed operation.Divide value number }
{
    within_bounds(value.checked_div(number)?)
}

/// The least integer is out of bounds.
fn within_bounds(n: i32) -> Option<i32>
    ensures { result ≡ arithmetic.within_bounds n }
{
    if n == i32::MIN { None } else { Some(n) }
}

/// Glue of no width that doesn't stretch or shrink.
const ZERO_GLUE: Glue = Glue {
    width: 0,
    stretch: 0,
    stretch_order: 0,
    shrink: 0,
    shrink_order: 0,
};

/// The greatest dimension, in sp.
pub const GREATEST_DIMENSION: i32 = 1073741823;

/// A value in sp, where it isn't too large for a dimension.
pub fn measured(n: i32) -> Option<i32>
    ensures { result ≡ arithmetic.measured n }
{
    if n >= -GREATEST_DIMENSION && n <= GREATEST_DIMENSION {
        Some(n)
    } else {
        None
    }
}

/// The order of infinity of a part, which is 0 where the part is 0.
fn order_of(part: i32, order: u8) -> u8
    ensures { result ≡ arithmetic.order_of part order }
{
    if part == 0 { 0 } else { order }
}

/// Two parts of these orders: of equal ones they add up, else that of the higher order is the sum.
fn added(part: i32, with: i32, order: u8, other: u8) -> Option<i32>
    ensures { result ≡ arithmetic.added part with order other }
{
    if order == other {
        computed(Operation::Advance, part, with)
    } else if order < other {
        Some(with)
    } else {
        Some(part)
    }
}

/// The higher of two orders.
fn higher(order: u8, other: u8) -> u8
    ensures { result ≡ arithmetic.higher order other }
{
    if order < other { other } else { order }
}

/// A part times `n`.
#[tactic(auto, using(crate::proofs::Bounds::beyond_dimensions))]
fn times(part: i32, n: i32) -> Option<i32>
    ensures { result ≡ arithmetic.measured (part *ℤ n) }
{
    measured(part.checked_mul(n)?)
}

/// The sum of two glues; `None` where a sum of two parts is beyond 2^31 - 1 sp in absolute value.
pub fn glue_sum(glue: Glue, with: Glue) -> Option<Glue>
    ensures { result ≡ arithmetic.sum glue with }
{
    let order = order_of(glue.stretch, glue.stretch_order);
    let with_order = order_of(with.stretch, with.stretch_order);
    let shrink_order = order_of(glue.shrink, glue.shrink_order);
    let with_shrink_order = order_of(with.shrink, with.shrink_order);
    Some(Glue {
        width: computed(Operation::Advance, glue.width, with.width)?,
        stretch: added(glue.stretch, with.stretch, order, with_order)?,
        stretch_order: higher(order, with_order),
        shrink: added(glue.shrink, with.shrink, shrink_order, with_shrink_order)?,
        shrink_order: higher(shrink_order, with_shrink_order),
    })
}

/// Glue with each part times `n`, at its order; `None` where a part is beyond 2^30 - 1 sp in absolute value.
pub fn glue_product(glue: Glue, n: i32) -> Option<Glue>
    ensures { result ≡ arithmetic.product glue n }
{
    Some(Glue {
        width: times(glue.width, n)?,
        stretch: times(glue.stretch, n)?,
        shrink: times(glue.shrink, n)?,
        ..glue
    })
}

/// Glue with each part divided by `n` and cut towards zero, at its order; `None` where `n` is 0 or a part is beyond 2^31 - 1 sp in absolute value.
pub fn glue_quotient(glue: Glue, n: i32) -> Option<Glue>
    ensures { result ≡ arithmetic.quotient glue n }
{
    Some(Glue {
        width: computed(Operation::Divide, glue.width, n)?,
        stretch: computed(Operation::Divide, glue.stretch, n)?,
        shrink: computed(Operation::Divide, glue.shrink, n)?,
        ..glue
    })
}

/// What was read, as a number: a dimension counts in sp.
pub fn number_in(datum: Datum) -> i32
    ensures { result ≡ arithmetic.number_in datum }
{
    match datum {
        Datum::Number(n) => n,
        Datum::Dimension(n, _) => n,
        _ => 0,
    }
}

/// What was read, as glue.
pub fn glue_in(datum: Datum) -> Glue
    ensures { result ≡ arithmetic.glue_in datum }
{
    match datum {
        Datum::Glue(glue) => glue,
        _ => ZERO_GLUE,
    }
}

/// The integer that a value is: a dimension in sp, glue by its width. The least 32-bit integer counts as the next one.
pub fn integer_of(value: Val<()>) -> i32
    ensures { result ≡ internal.integer_of value }
{
    let n = match value {
        Val::Number(n) => n,
        Val::Skip(glue) => glue.width,
        _ => 0,
    };
    if n == i32::MIN { -i32::MAX } else { n }
}

/// A number or a dimension, changed by a number.
fn number_computed(operation: Operation, dimension: bool, value: i32, number: i32) -> Option<i32>
    ensures { result ≡ arithmetic.number_computed operation dimension value number }
{
    match operation {
        Operation::Multiply if dimension => times(value, number),
        _ => computed(operation, value, number),
    }
}

/// Glue, changed by what was read.
fn glue_computed(operation: Operation, glue: Glue, datum: Datum) -> Option<Glue>
    ensures { result ≡ arithmetic.glue_computed operation glue datum }
{
    match operation {
        Operation::Advance => glue_sum(glue, glue_in(datum)),
        Operation::Multiply => glue_product(glue, number_in(datum)),
        Operation::Divide => glue_quotient(glue, number_in(datum)),
    }
}

/// What stands at a location, as glue.
fn glue_at(value: Val<()>) -> Glue
    ensures { result ≡ arithmetic.glue_at value }
{
    match value {
        Val::Skip(glue) => glue,
        _ => ZERO_GLUE,
    }
}

/// What stands at a location, changed by what was read; `None` where a result is out of bounds, or it is divided by 0.
pub fn value_computed(
    operation: Operation,
    loc: Loc,
    value: Val<()>,
    datum: Datum,
) -> Option<Val<()>>
    ensures { result ≡ arithmetic.value_computed operation loc value datum }
{
    if is_glue(loc) {
        return Some(Val::Skip(glue_computed(operation, glue_at(value), datum)?));
    }
    let dimension = is_dimension(loc);
    let n = number_computed(operation, dimension, integer_of(value), number_in(datum))?;
    Some(Val::Number(n))
}
