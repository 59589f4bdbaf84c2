// The scanner of the integer before a fraction. *The TeXbook*, chapter 24; *TeX: The Program*, part 26 (`scan_dimen`).
ghost use Rattle.scan_numbers.specs.FactorViews.{IsFresh};

use crate::digits::{is_decimal, is_point};
use crate::number::NumberScan;
use equivalents::Val as StoredValue;
use plain_readings::{FactorAsk, NumberAsk};
use rows::Value;
use tex_defs::Seen;

/// The scanner of the integer before a fraction.
#[derive(Clone, Copy)]
pub struct FactorScan {
    pub scan: NumberScan,
    /// Whether it began with a decimal digit, once it began.
    pub decimal: Option<bool>,
    /// Whether a point came last.
    pub point: bool,
    ghost fresh: { IsFresh decimal scan },
}

impl FactorScan {
    ghost use Rattle.std.specs.Prelude.{◌≡◌, List, [], ◌∷◌, Some};
    ghost use Rattle.tex_defs.specs.declared.Token.{Token};
    ghost use Rattle.rows.specs.declared.words.Value.{Value};
    ghost use Rattle.rows.specs.Readings.{Fed, Tok, Noted, Val, Fetched, Cut};
    ghost use Rattle.plain_readings.specs.Factors.{factor};
    ghost use Rattle.scan_numbers.specs.FactorViews.{began_with, decimal_behind, EndsInRange, IsFetchedAt};
    ghost use Rattle.scan_numbers.specs.FactorResumes.{resume_factor};

    /// The integer before a fraction begins.
    pub fn new() -> FactorScan
        ensures { (fed : List Fed) → factor fed ≡ resume_factor result fed }
    {
        FactorScan {
            scan: NumberScan::new(),
            decimal: None,
            point: false,
        }
    }

    /// What it asks for where it stands.
    #[tactic(auto, using(crate::proofs::Factors::asked, crate::proofs::Factors::ended))]
    pub fn ask(&self) -> FactorAsk
        ensures answer { result ≡ resume_factor self.now [] }
        ensures range { EndsInRange result }
        ensures found { IsFetchedAt result }
    {
        match self.scan.ask() {
            NumberAsk::More(want) => FactorAsk::More(want),
            NumberAsk::Begins => FactorAsk::Begins,
            NumberAsk::Fetches(loc) => FactorAsk::Fetches(loc),
            NumberAsk::Tells(report, back) => FactorAsk::Tells(report, back),
            NumberAsk::Done(n, back) => {
                FactorAsk::Done(n, self.began_with_decimal() && self.point && back, back)
            }
        }
    }

    /// Takes a token.
    #[tactic(auto, using(crate::proofs::Factors::stepped))]
    pub fn feed(&mut self, seen: Seen)
        ensures { (fed : List Fed) → resume_factor self.old (Tok seen ∷ fed) ≡ resume_factor self.new fed }
    {
        self.begin(is_decimal(seen));
        self.scan.feed(seen);
        self.point = is_point(seen);
    }

    /// Goes on behind its report.
    #[tactic(auto, using(crate::proofs::Factors::stepped))]
    pub fn noted(&mut self)
        ensures { (fed : List Fed) → resume_factor self.old (Noted ∷ fed) ≡ resume_factor self.new fed }
    {
        self.begin(false);
        self.scan.noted();
        self.point = false;
    }

    /// Takes the value of the integer that it began, or another, for which it never asks.
    #[tactic(auto, using(crate::proofs::Factors::stepped))]
    pub fn feed_value(&mut self, value: Value)
        ensures { (ts : List Token) (fed : List Fed) → resume_factor self.old (Val value ts ∷ fed) ≡ resume_factor self.new fed }
    {
        self.begin(false);
        self.scan.feed_value(value);
        self.point = false;
    }

    /// Takes what stands at the location for which it asked.
    #[tactic(auto, using(crate::proofs::Factors::stepped))]
    pub fn fetched(&mut self, value: StoredValue<()>)
        ensures { (fed : List Fed) → resume_factor self.old (Fetched value ∷ fed) ≡ resume_factor self.new fed }
    {
        self.begin(false);
        self.scan.fetched(value);
        self.point = false;
    }

    /// The note of a check came, which no integer asks for.
    #[tactic(auto, using(crate::proofs::Factors::stepped))]
    pub fn stop(&mut self)
        ensures { (fed : List Fed) → resume_factor self.old (Cut ∷ fed) ≡ resume_factor self.new fed }
    {
        self.begin(false);
        self.scan.stop();
        self.point = false;
    }

    /// Whether it began with a decimal digit.
    fn began_with_decimal(&self) -> bool
        ensures { result ≡ began_with self.now.decimal }
    {
        match self.decimal {
            Some(decimal) => decimal,
            None => false,
        }
    }

    /// An item comes, which is a decimal digit or not.
    fn begin(&mut self, decimal: bool)
        ensures began { self.new.decimal ≡ Some (decimal_behind self.old.decimal decimal) }
        ensures scan { self.new.scan ≡ self.old.scan }
    {
        if self.decimal.is_none() {
            self.decimal = Some(decimal);
        }
    }
}
