// The scanner of an integer. *The TeXbook*, chapter 24; *TeX: The Program*, part 26 (`scan_int`).
ghost use Rattle.std.specs.Prelude.{◌≤◌, ◌≡◌, true};
ghost use Rattle.plain_readings.specs.Integers.{greatest_integer};
ghost use Rattle.rows.specs.Internal.{is_fetchable};
ghost use Rattle.scan_numbers.specs.Views.{IsInRange, digits_value, end_value, location_at};

use crate::digits::{GREATEST, Radix, code_of, is_other, is_space, signed, with_sign};
use equivalents::{Loc, Val as StoredValue};
use plain_readings::NumberAsk;
use rows::{Bank, Datum, Internal, Value, byte_of, integer_of, internal_of, is_mu};
use tex_defs::Seen;
use tex_syntax::{Report, Want};

/// The code that is taken in place of an improper constant.
const IMPROPER_CODE: u32 = 48;

/// Where a scanner stands.
#[derive(Clone, Copy)]
pub enum Place {
    /// Among the signs.
    Signs,
    /// Behind a backquote.
    Quote,
    /// Before the first digit.
    First(Radix),
    /// Behind digits of this value.
    Digits(Radix, u32),
    /// Before the report of a number that is too big.
    TooBig(Radix),
    /// Behind digits of a number that was too big.
    Dropped(Radix),
    /// Behind a character's code.
    Behind(u8),
    /// Before the report that a number is missing.
    NoNumber,
    /// Before the report that no token gives a code.
    NoCode,
    /// Before the number of a register or of a character.
    Numbered(Bank),
    /// Before the report that this is no such number.
    BadNumber(Bank, i32),
    /// Before what stands at a location.
    Fetching(Loc),
    /// Before the report of glue in mu, of this width.
    MuFound(i32),
    /// At its end: the value, and whether the last token is put back.
    Ended(i32, bool),
}

/// The scanner of an integer.
#[derive(Clone, Copy)]
pub struct NumberScan {
    /// Whether the signs so far make it negative.
    pub negative: bool,
    pub place: Place,
    ghost fits: { digits_value place ≤ greatest_integer },
    ghost range: { IsInRange (end_value place) },
    ghost found: { is_fetchable (location_at place) ≡ true },
}

impl NumberScan {
    ghost use Rattle.std.specs.Prelude.{◌≡◌, List, [], ◌∷◌, false};
    ghost use Rattle.tex_defs.specs.declared.Token.{Token};
    ghost use Rattle.rows.specs.declared.words.Value.{Value};
    ghost use Rattle.rows.specs.Readings.{Fed, Tok, Noted, Val, Fetched, Cut};
    ghost use Rattle.plain_readings.specs.Integers.{integer, constant, first_digit, digits, number_ended, fetched, with_number, by_meaning};
    ghost use Rattle.rows.specs.Internal as internals;
    ghost use Rattle.scan_numbers.specs.Views.{radix_number, EndsInRange, IsFetchedAt};
    ghost use Rattle.scan_numbers.specs.Resumes.{resume};

    /// An integer begins.
    pub fn new() -> NumberScan
        ensures { (fed : List Fed) → integer false fed ≡ resume result fed }
    {
        NumberScan {
            negative: false,
            place: Place::Signs,
        }
    }

    /// What it asks for where it stands.
    pub fn ask(&self) -> NumberAsk
        ensures answer { result ≡ resume self.now [] }
        ensures range { EndsInRange result }
        ensures found { IsFetchedAt result }
    {
        match self.place {
            Place::Signs => NumberAsk::More(Want::Nonblank),
            Place::Quote => NumberAsk::More(Want::Raw),
            Place::First(_) | Place::Digits(..) | Place::Dropped(_) | Place::Behind(_) => {
                NumberAsk::More(Want::Expanded)
            }
            Place::TooBig(_) => NumberAsk::Tells(Report::NumberTooBig, false),
            Place::NoNumber => NumberAsk::Tells(Report::MissingNumber, true),
            Place::NoCode => NumberAsk::Tells(Report::ImproperConstant, true),
            Place::Numbered(_) => NumberAsk::Begins,
            Place::BadNumber(bank, n) => NumberAsk::Tells(bank.complaint(n), false),
            Place::Fetching(loc) => NumberAsk::Fetches(loc),
            Place::MuFound(_) => NumberAsk::Tells(Report::IncompatibleUnits, false),
            Place::Ended(value, back) => NumberAsk::Done(value, back),
        }
    }

    /// Takes a token.
    pub fn feed(&mut self, seen: Seen)
        ensures { (fed : List Fed) → resume self.old (Tok seen ∷ fed) ≡ resume self.new fed }
    {
        match self.place {
            Place::Signs => self.feed_sign(seen),
            Place::Quote => self.feed_code(seen),
            Place::First(radix) => self.feed_first(radix, seen),
            Place::Digits(radix, value) => self.feed_digit(radix, value, seen),
            Place::Dropped(radix) => match radix.digit(seen) {
                Some(_) => {}
                None => self.end(GREATEST, seen),
            },
            Place::Behind(code) => self.end(u32::from(code), seen),
            Place::Ended(..) => {}
            _ => self.place = Place::Ended(0, false),
        }
    }

    /// Goes on behind its report.
    pub fn noted(&mut self)
        ensures { (fed : List Fed) → resume self.old (Noted ∷ fed) ≡ resume self.new fed }
    {
        match self.place {
            Place::TooBig(radix) => self.place = Place::Dropped(radix),
            Place::NoCode => {
                self.place = Place::Ended(signed(self.negative, IMPROPER_CODE), false);
            }
            Place::BadNumber(bank, _) => self.place = Place::Fetching(bank.location(0)),
            Place::MuFound(width) => self.place = Place::Ended(width, false),
            Place::Ended(..) => {}
            _ => self.place = Place::Ended(0, false),
        }
    }

    /// Takes the value of the integer that it began, or another, for which it never asks.
    pub fn feed_value(&mut self, value: Value)
        ensures { (ts : List Token) (fed : List Fed) → resume self.old (Val value ts ∷ fed) ≡ resume self.new fed }
    {
        match (self.place, value) {
            (Place::Ended(..), _) => {}
            (Place::Numbered(bank), Value::Plain(Datum::Number(n))) => self.feed_number(bank, n),
            _ => self.place = Place::Ended(0, false),
        }
    }

    /// Takes what stands at the location for which it asked.
    pub fn fetched(&mut self, value: StoredValue<()>)
        ensures { (fed : List Fed) → resume self.old (Fetched value ∷ fed) ≡ resume self.new fed }
    {
        match self.place {
            Place::Fetching(loc) => {
                let n = with_sign(self.negative, integer_of(value));
                self.place = if is_mu(loc) {
                    Place::MuFound(n)
                } else {
                    Place::Ended(n, false)
                };
            }
            Place::Ended(..) => {}
            _ => self.place = Place::Ended(0, false),
        }
    }

    /// The note of a check came, which no integer asks for.
    pub fn stop(&mut self)
        ensures { (fed : List Fed) → resume self.old (Cut ∷ fed) ≡ resume self.new fed }
    {
        match self.place {
            Place::Ended(..) => {}
            _ => self.place = Place::Ended(0, false),
        }
    }

    /// Behind the number of a register or of a character.
    fn feed_number(&mut self, bank: Bank, n: i32)
        ensures { (fed : List Fed) → with_number self.old.negative bank n fed ≡ resume self.new fed }
    {
        self.place = if 0 <= n && n <= 255 {
            Place::Fetching(bank.location(byte_of(n)))
        } else {
            Place::BadNumber(bank, n)
        };
    }

    /// It asks for what stands at a location.
    fn fetch(&mut self, loc: Loc)
        requires { is_fetchable loc ≡ true }
        ensures { (fed : List Fed) → fetched self.old.negative loc fed ≡ resume self.new fed }
    {
        self.place = Place::Fetching(loc);
    }

    /// The first token behind the signs, which is no constant.
    fn feed_meaning(&mut self, x: Seen)
        ensures { (fed : List Fed) → by_meaning self.old.negative (internals.internal_of x.meaning) x fed ≡ resume self.new fed }
    {
        match internal_of(x.meaning) {
            Some(Internal::Given(n)) => {
                self.place = Place::Ended(with_sign(self.negative, i32::from(n)), false);
            }
            Some(Internal::At(loc)) => self.fetch(loc),
            Some(Internal::Numbered(bank)) => self.place = Place::Numbered(bank),
            None => self.feed_first(Radix::Decimal, x),
        }
    }

    /// Among the signs.
    fn feed_sign(&mut self, x: Seen)
        ensures { (fed : List Fed) → integer self.old.negative (Tok x ∷ fed) ≡ resume self.new fed }
    {
        if is_other(x, 45) {
            self.negative = !self.negative;
            self.place = Place::Signs;
        } else if is_other(x, 43) {
            self.place = Place::Signs;
        } else if is_other(x, 96) {
            self.place = Place::Quote;
        } else if is_other(x, 39) {
            self.place = Place::First(Radix::Octal);
        } else if is_other(x, 34) {
            self.place = Place::First(Radix::Hexadecimal);
        } else {
            self.feed_meaning(x);
        }
    }

    /// Behind a backquote.
    fn feed_code(&mut self, x: Seen)
        ensures { (fed : List Fed) → constant self.old.negative (Tok x ∷ fed) ≡ resume self.new fed }
    {
        self.place = match code_of(x.token) {
            Some(code) => Place::Behind(code),
            None => Place::NoCode,
        };
    }

    /// Where the first digit should be.
    fn feed_first(&mut self, radix: Radix, x: Seen)
        ensures { (fed : List Fed) → first_digit self.old.negative (radix_number radix) (Tok x ∷ fed) ≡ resume self.new fed }
    {
        self.place = match radix.digit(x) {
            Some(digit) => Place::Digits(radix, u32::from(digit)),
            None => Place::NoNumber,
        };
    }

    /// Behind digits of this value.
    fn feed_digit(&mut self, radix: Radix, value: u32, x: Seen)
        requires { value ≤ greatest_integer }
        ensures { (fed : List Fed) → digits self.old.negative (radix_number radix) value (Tok x ∷ fed) ≡ resume self.new fed }
    {
        match radix.digit(x) {
            Some(digit) => {
                let next = u64::from(value) * u64::from(radix.number()) + u64::from(digit);
                self.place = if next <= u64::from(GREATEST) {
                    Place::Digits(radix, next as u32)
                } else {
                    Place::TooBig(radix)
                };
            }
            None => self.end(value, x),
        }
    }

    /// The integer is read: one space goes, another token is put back.
    fn end(&mut self, value: u32, x: Seen)
        requires { value ≤ greatest_integer }
        ensures { (fed : List Fed) → number_ended self.old.negative value x ≡ resume self.new fed }
    {
        self.place = Place::Ended(signed(self.negative, value), !is_space(x));
    }
}
