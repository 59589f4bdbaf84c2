// Factors and the units of measure behind them.
use rows::Keyword;

/// The factor of a unit: an integer, and a fraction in units of 1/65536, at most 1.
#[derive(Clone, Copy)]
pub struct Quantity {
    pub whole: u64,
    pub fraction: u32,
}

/// A physical unit: its keyword, and that it is num/den points.
#[derive(Clone, Copy)]
pub struct Measure {
    pub word: Keyword,
    pub num: u32,
    pub den: u32,
}
