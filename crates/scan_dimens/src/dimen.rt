// The scanner of a dimension. *The TeXbook*, chapters 10, 12, 18 and 24; *TeX: The Program*, part 26 (`scan_dimen`).
ghost use Rattle.std.specs.Prelude.{◌≡◌, ◌≤◌, ◌∷◌, true, Bool, List, drop};
ghost use Rattle.rows.specs.Internal as internals;
ghost use Rattle.rows.specs.Internal.{is_fetchable};
ghost use Rattle.scan_numbers.specs.Views.{IsInRange};
ghost use Rattle.plain_readings.specs.Dimens.{Fed, Found, physical, by_unit, spaced};
ghost use Rattle.scan_dimens.specs.DimenViews as sees;

use crate::decimals::{Digits, is_integer_at, is_other, is_space};
use crate::units::{in_units, magnified, physical_unit, points, scaled_points, times};
use equivalents::{Loc, Val as StoredValue};
use plain_readings::{DimenAsk, DimenInner, Quantity};
use rows::{
    Bank, Datum, DimenKind, GREATEST_DIMENSION, Internal, Keyword, Value, byte_of, integer_of,
    internal_of, is_mu, list_of, measured,
};
use scan_numbers::Radix;
use tex_defs::Seen;
use tex_syntax::{Report, UnitTaken, Want};

/// The place of the magnification among the parameters that are integers.
const MAGNIFICATION: u8 = 17;

/// What an internal value is looked for as.
#[derive(Clone, Copy)]
pub enum Sought {
    /// The dimension, or the factor where it is an integer.
    Dimension,
    /// The unit behind this factor.
    Unit(Quantity),
}

/// Where a scanner of a dimension stands.
#[derive(Clone, Copy)]
pub enum DimenPlace {
    /// Among the signs.
    Signs,
    /// Before the integer that is read within.
    Factor,
    /// Behind this integer, before a point that was put back.
    Point(u32),
    /// Behind this integer, a point and digits.
    Fraction(u32, Digits),
    /// Before the number of a register or of a character.
    Numbered(Sought, Bank),
    /// Before the report that this is no such number.
    BadNumber(Sought, Bank, i32),
    /// Before what stands at a location.
    Fetching(Sought, Loc),
    /// Before the report of a value in mu or not, where that isn't wanted.
    Incompatible(Option<i32>),
    /// Before the report that a list of tokens is no number.
    NoNumber,
    /// Before `fil`, and whether it begins with the last token.
    Fil(Quantity, bool),
    /// Before an `l`, at this order of infinity.
    Longer(Quantity, u8),
    /// Before the report of an `l` too many.
    TooLong(Quantity, u8),
    /// Before the token that is looked at for a unit.
    UnitSought(Quantity),
    /// Before the word `mu`.
    Mu(Quantity),
    /// Before the word `em`.
    Em(Quantity),
    /// Before the word `ex`.
    Ex(Quantity),
    /// Before the word `true`.
    True(Quantity),
    /// Before the magnification is checked.
    Magnification(Quantity),
    /// Before the magnification.
    MagnificationFetched(Quantity),
    /// Before the word for this physical unit.
    Physical(u8, Quantity),
    /// Before the word `sp`.
    ScaledPoints(Quantity),
    /// Before the report that there is no unit: the unit taken, and the value.
    Illegal(UnitTaken, Option<i32>),
    /// Before a space behind a unit: the value, unless it is too large, and its order of infinity.
    Space(Option<i32>, u8),
    /// Before the report of a value that is too large, and whether the last token is put back.
    TooLarge(u8, bool),
    /// At its end: the value, its order of infinity, and whether the last token is put back.
    Ended(i32, u8, bool),
}

/// The scanner of a dimension.
#[derive(Clone, Copy)]
pub struct DimenScan {
    pub kind: DimenKind,
    /// Whether the signs so far make it negative.
    pub negative: bool,
    pub place: DimenPlace,
    ghost factor: { sees.IsRead (sees.amount_read place) },
    ghost magnified: { sees.IsMagnified (sees.amount_kept place) },
    ghost range: { sees.IsDimension (sees.value_at place) },
    ghost order: { sees.order_at place ≤ 3 },
    ghost found: { is_fetchable (sees.location_at place) ≡ true },
}

/// The least 32-bit integer, to which no integer comes, counts as the next one.
fn in_bounds(n: i32) -> i32
    ensures value { result ≡ internals.in_bounds n }
    ensures range { IsInRange result }
{
    if n == i32::MIN { -2147483647 } else { n }
}

/// A value with the sign.
fn with_sign(negative: bool, n: i32) -> i32
    requires { sees.IsDimension n }
    ensures value { result ≡ internals.with_sign negative n }
    ensures range { sees.IsDimension result }
{
    if negative { 0 - n } else { n }
}

/// The value in the physical unit at this place, and behind all of them in scaled points.
fn physical_value(place: u8, factor: Quantity) -> Option<i32>
    requires { sees.IsMagnified factor }
    ensures is { (negative : Bool) (fed : List Fed) → by_unit negative factor (drop place physical) (Found true ∷ fed) ≡ spaced negative result 0 fed }
    ensures range { sees.IsDimension (sees.value_in result) }
{
    match physical_unit(place) {
        Some(unit) => in_units(factor, unit),
        None => scaled_points(factor),
    }
}

impl DimenScan {
    ghost use Rattle.std.specs.Prelude.{◌≡◌, ◌≤◌, List, [], ◌∷◌, false, pos, Option};
    ghost use Rattle.equivalents.specs.Locations.{SeenValue};
    ghost use Rattle.rows.specs.Internal as internals;
    ghost use Rattle.rows.specs.Readings.{Cut};
    ghost use Rattle.plain_readings.specs.Measures.{dimen_value, dimen_item};
    ghost use Rattle.plain_readings.specs.Dimens.{Fed, Tok, Noted, Fetched, Factored, Numbered, Found, by_magnification, positive_part, dimension, finished, spaced, valued, unit_behind, unit_with, unit_at, word_unit, internal_or_word, internal_or_factor, unsigned, factor_read, behind_digits, with_factor, with_number, fetched, fraction, points, amount};
    ghost use Rattle.scan_dimens.specs.DimenViews as sees;
    ghost use Rattle.scan_dimens.specs.DimenViews.{digits_of, EndsInRange, IsFetchedAt, IsRead, IsMagnified, IsDimension};
    ghost use Rattle.scan_numbers.specs.Views.{IsInRange};
    ghost use Rattle.scan_dimens.specs.DimenResumes.{resume, onward};

    /// A dimension of this kind begins.
    pub fn new(kind: DimenKind) -> DimenScan
        ensures { (fed : List Fed) → dimension kind false fed ≡ resume result fed }
    {
        DimenScan {
            kind,
            negative: false,
            place: DimenPlace::Signs,
        }
    }

    /// What it asks for where it stands.
    pub fn ask(&self) -> DimenAsk
        ensures answer { result ≡ resume self.now [] }
        ensures range { EndsInRange result }
        ensures found { IsFetchedAt result }
    {
        match self.place {
            DimenPlace::Signs | DimenPlace::UnitSought(_) => DimenAsk::More(Want::Nonblank),
            DimenPlace::Factor => DimenAsk::Begins(DimenInner::Factor, true),
            DimenPlace::Point(_) | DimenPlace::Fraction(..) | DimenPlace::Space(..) => {
                DimenAsk::More(Want::Expanded)
            }
            DimenPlace::Numbered(..) => DimenAsk::Begins(DimenInner::Number, false),
            DimenPlace::BadNumber(_, bank, n) => DimenAsk::Tells(bank.complaint(n), false),
            DimenPlace::Fetching(_, loc) => DimenAsk::Fetches(loc),
            DimenPlace::Incompatible(_) => DimenAsk::Tells(Report::IncompatibleUnits, false),
            DimenPlace::NoNumber => DimenAsk::Tells(Report::MissingNumber, true),
            DimenPlace::TooLong(..) => {
                DimenAsk::Tells(Report::IllegalUnit(UnitTaken::Filll), false)
            }
            DimenPlace::Magnification(_) => DimenAsk::Magnifies,
            DimenPlace::MagnificationFetched(_) => DimenAsk::Fetches(Loc::Integer(MAGNIFICATION)),
            DimenPlace::Illegal(unit, _) => DimenAsk::Tells(Report::IllegalUnit(unit), false),
            DimenPlace::TooLarge(_, back) => DimenAsk::Tells(Report::DimensionTooLarge, back),
            DimenPlace::Ended(value, order, back) => DimenAsk::Done(value, order, back),
            DimenPlace::Fil(_, begins) => DimenAsk::Begins(DimenInner::Key(Keyword::Fil), begins),
            DimenPlace::Longer(..) => DimenAsk::Begins(DimenInner::Key(Keyword::L), false),
            DimenPlace::Mu(_) => DimenAsk::Begins(DimenInner::Key(Keyword::Mu), true),
            DimenPlace::Em(_) => DimenAsk::Begins(DimenInner::Key(Keyword::Em), true),
            DimenPlace::Ex(_) => DimenAsk::Begins(DimenInner::Key(Keyword::Ex), false),
            DimenPlace::True(_) => DimenAsk::Begins(DimenInner::Key(Keyword::True), false),
            DimenPlace::Physical(place, _) => match physical_unit(place) {
                Some(unit) => DimenAsk::Begins(DimenInner::Key(unit.word), false),
                None => DimenAsk::Begins(DimenInner::Key(Keyword::Sp), false),
            },
            DimenPlace::ScaledPoints(_) => DimenAsk::Begins(DimenInner::Key(Keyword::Sp), false),
        }
    }

    /// Takes a token.
    pub fn feed(&mut self, seen: Seen)
        ensures { (fed : List Fed) → resume self.old (Tok seen ∷ fed) ≡ resume self.new fed }
    {
        match self.place {
            DimenPlace::Signs => self.feed_sign(seen),
            DimenPlace::Point(whole) => {
                self.place = DimenPlace::Fraction(whole, Digits::new());
            }
            DimenPlace::Fraction(whole, digits) => self.feed_digit(whole, digits, seen),
            DimenPlace::UnitSought(factor) => self.feed_unit(factor, seen),
            DimenPlace::Space(value, order) => self.finish(value, order, !is_space(seen)),
            DimenPlace::Ended(..) => {}
            _ => self.place = DimenPlace::Ended(0, 0, false),
        }
    }

    /// Goes on behind its report, or the check of the magnification.
    pub fn noted(&mut self)
        ensures { (fed : List Fed) → resume self.old (Noted ∷ fed) ≡ resume self.new fed }
    {
        match self.place {
            DimenPlace::BadNumber(sought, bank, _) => {
                self.place = DimenPlace::Fetching(sought, bank.location(0));
            }
            DimenPlace::Incompatible(value) => self.finish(value, 0, false),
            DimenPlace::NoNumber => self.valued(false, Some(0)),
            DimenPlace::TooLong(factor, order) => {
                self.place = DimenPlace::Longer(factor, order);
            }
            DimenPlace::Illegal(_, value) => self.place = DimenPlace::Space(value, 0),
            DimenPlace::TooLarge(order, _) => {
                self.place = DimenPlace::Ended(
                    with_sign(self.negative, GREATEST_DIMENSION),
                    order,
                    false,
                );
            }
            DimenPlace::Magnification(factor) => {
                self.place = DimenPlace::MagnificationFetched(factor);
            }
            DimenPlace::Ended(..) => {}
            _ => self.place = DimenPlace::Ended(0, 0, false),
        }
    }

    /// Takes what stands at the location for which it asked.
    pub fn fetched(&mut self, value: StoredValue<()>)
        ensures { (fed : List Fed) → resume self.old (Fetched value ∷ fed) ≡ resume self.new fed }
    {
        match self.place {
            DimenPlace::Fetching(sought, loc) => self.feed_internal(sought, loc, integer_of(value)),
            DimenPlace::MagnificationFetched(factor) => self.magnify(factor, integer_of(value)),
            DimenPlace::Ended(..) => {}
            _ => self.place = DimenPlace::Ended(0, 0, false),
        }
    }

    /// Takes the integer that it began, and whether a point stands directly behind its decimal digits.
    pub fn factored(&mut self, n: i32, point: bool)
        ensures { (fed : List Fed) → resume self.old (Factored n point ∷ fed) ≡ resume self.new fed }
    {
        match self.place {
            DimenPlace::Factor => self.feed_factor(in_bounds(n), point),
            DimenPlace::Ended(..) => {}
            _ => self.place = DimenPlace::Ended(0, 0, false),
        }
    }

    /// Takes the number of a register or of a character that it began.
    pub fn numbered(&mut self, n: i32)
        ensures { (fed : List Fed) → resume self.old (Numbered n ∷ fed) ≡ resume self.new fed }
    {
        match self.place {
            DimenPlace::Numbered(sought, bank) => {
                self.place = if 0 <= n && n <= 255 {
                    DimenPlace::Fetching(sought, bank.location(byte_of(n)))
                } else {
                    DimenPlace::BadNumber(sought, bank, n)
                };
            }
            DimenPlace::Ended(..) => {}
            _ => self.place = DimenPlace::Ended(0, 0, false),
        }
    }

    /// Takes whether the keyword that it began was there.
    pub fn found(&mut self, found: bool)
        ensures { (fed : List Fed) → resume self.old (Found found ∷ fed) ≡ resume self.new fed }
    {
        if found {
            self.feed_word();
        } else {
            self.feed_none();
        }
    }

    /// Takes the value of what it began, or another, for which it never asks.
    pub fn feed_value(&mut self, value: Value)
        ensures { (fed : List Fed) → resume self.old (dimen_value value ∷ fed) ≡ resume self.new fed }
    {
        match value {
            Value::Plain(Datum::Factor(n, point)) => self.factored(n, point),
            Value::Plain(Datum::Number(n)) => self.numbered(n),
            Value::Plain(Datum::Found(found)) => self.found(found),
            _ => self.numbered(0),
        }
    }

    /// The note of a check came, which no dimension asks for.
    pub fn stop(&mut self)
        ensures { (fed : List Fed) → resume self.old (dimen_item Cut ∷ fed) ≡ resume self.new fed }
    {
        self.numbered(0);
    }

    /// Behind `true`, at this magnification.
    fn magnify(&mut self, factor: Quantity, mag: i32)
        requires { IsRead factor }
        ensures { (fed : List Fed) → by_magnification self.old.negative factor (positive_part mag) fed ≡ resume self.new fed }
    {
        self.place = if mag > 0 {
            DimenPlace::Physical(0, magnified(factor, mag.unsigned_abs()))
        } else {
            DimenPlace::Ended(0, 0, false)
        };
    }

    /// The keyword was there.
    fn feed_word(&mut self)
        ensures { (fed : List Fed) → resume self.old (Found true ∷ fed) ≡ resume self.new fed }
    {
        self.place = match self.place {
            DimenPlace::Fil(factor, _) => DimenPlace::Longer(factor, 1),
            DimenPlace::Longer(factor, order) => {
                if order == 3 {
                    DimenPlace::TooLong(factor, order)
                } else {
                    DimenPlace::Longer(factor, order + 1)
                }
            }
            DimenPlace::Mu(factor) => DimenPlace::Space(points(factor), 0),
            DimenPlace::Em(_) | DimenPlace::Ex(_) => DimenPlace::Space(Some(0), 0),
            DimenPlace::True(factor) => DimenPlace::Magnification(factor),
            DimenPlace::Physical(place, factor) => DimenPlace::Space(
                physical_value(place, factor),
                0,
            ),
            DimenPlace::ScaledPoints(factor) => DimenPlace::Space(scaled_points(factor), 0),
            DimenPlace::Ended(n, order, back) => DimenPlace::Ended(n, order, back),
            _ => DimenPlace::Ended(0, 0, false),
        };
    }

    /// The keyword was not there.
    fn feed_none(&mut self)
        ensures { (fed : List Fed) → resume self.old (Found false ∷ fed) ≡ resume self.new fed }
    {
        self.place = match self.place {
            DimenPlace::Fil(factor, _) => DimenPlace::UnitSought(factor),
            DimenPlace::Longer(factor, order) => DimenPlace::Space(points(factor), order),
            DimenPlace::Mu(factor) => DimenPlace::Illegal(UnitTaken::Mu, points(factor)),
            DimenPlace::Em(factor) => DimenPlace::Ex(factor),
            DimenPlace::Ex(factor) => DimenPlace::True(factor),
            DimenPlace::True(factor) => DimenPlace::Physical(0, factor),
            DimenPlace::Physical(place, factor) => match physical_unit(place) {
                Some(_) => DimenPlace::Physical(place + 1, factor),
                None => DimenPlace::Illegal(UnitTaken::Pt, points(factor)),
            },
            DimenPlace::ScaledPoints(factor) => {
                DimenPlace::Illegal(UnitTaken::Pt, points(factor))
            }
            DimenPlace::Ended(n, order, back) => DimenPlace::Ended(n, order, back),
            _ => DimenPlace::Ended(0, 0, false),
        };
    }

    /// The value is read, unless it is too large.
    fn finish(&mut self, value: Option<i32>, order: u8, back: bool)
        requires range { IsDimension (sees.value_in value) }
        requires order { order ≤ 3 }
        ensures { (fed : List Fed) → finished self.old.negative value order back fed ≡ resume self.new fed }
    {
        self.place = match value {
            Some(n) => DimenPlace::Ended(with_sign(self.negative, n), order, back),
            None => DimenPlace::TooLarge(order, back),
        };
    }

    /// An internal value, in mu or not.
    fn valued(&mut self, mu: bool, value: Option<i32>)
        requires { IsDimension (sees.value_in value) }
        ensures { (fed : List Fed) → valued self.old.kind.mu mu self.old.negative value fed ≡ resume self.new fed }
    {
        if self.kind.mu == mu {
            self.finish(value, 0, false);
        } else {
            self.place = DimenPlace::Incompatible(value);
        }
    }

    /// Behind an internal value.
    fn feed_internal(&mut self, sought: Sought, loc: Loc, n: i32)
        requires factor { IsRead (sees.amount_sought sought) }
        requires range { IsInRange n }
        ensures { (fed : List Fed) → onward self.old.kind self.old.negative sought loc n fed ≡ resume self.new fed }
    {
        match sought {
            Sought::Dimension => {
                if is_integer_at(loc) {
                    self.with_factor(n);
                } else {
                    self.valued(is_mu(loc), measured(n));
                }
            }
            Sought::Unit(factor) => self.valued(is_mu(loc), times(factor, n)),
        }
    }

    /// Behind an integer, before a point or a unit.
    fn feed_factor(&mut self, n: i32, point: bool)
        requires { IsInRange n }
        ensures { (fed : List Fed) → factor_read self.old.kind self.old.negative n point fed ≡ resume self.new fed }
    {
        if point {
            if n < 0 {
                self.negative = !self.negative;
            }
            self.place = DimenPlace::Point(n.unsigned_abs());
        } else {
            self.with_factor(n);
        }
    }

    /// An integer without a fraction; one below 0 turns the sign.
    fn with_factor(&mut self, n: i32)
        requires { IsInRange n }
        ensures { (fed : List Fed) → with_factor self.old.kind self.old.negative n fed ≡ resume self.new fed }
    {
        if n < 0 {
            self.negative = !self.negative;
        }
        self.unit_behind(Quantity {
            whole: u64::from(n.unsigned_abs()),
            fraction: 0,
        });
    }

    /// Before a unit behind this factor.
    fn unit_behind(&mut self, factor: Quantity)
        requires { IsRead factor }
        ensures { (fed : List Fed) → unit_behind self.old.kind self.old.negative factor fed ≡ resume self.new fed }
    {
        self.place = if self.kind.infinite {
            DimenPlace::Fil(factor, false)
        } else {
            DimenPlace::UnitSought(factor)
        };
    }

    /// At the first token of a unit behind this factor.
    fn unit_with(&mut self, factor: Quantity, x: Seen)
        requires { IsRead factor }
        ensures { (fed : List Fed) → unit_with self.old.kind self.old.negative factor x fed ≡ resume self.new fed }
    {
        if self.kind.infinite {
            self.place = DimenPlace::Fil(factor, true);
        } else {
            self.feed_unit(factor, x);
        }
    }

    /// At the token that is looked at for a unit.
    fn feed_unit(&mut self, factor: Quantity, x: Seen)
        requires { IsRead factor }
        ensures { (fed : List Fed) → unit_at self.old.kind self.old.negative factor x fed ≡ resume self.new fed }
    {
        if list_of(x.meaning).is_some() {
            self.place = DimenPlace::NoNumber;
        } else {
            self.feed_internal_unit(factor, internal_of(x.meaning));
        }
    }

    /// Where this stands for a unit, or a word may.
    fn feed_internal_unit(&mut self, factor: Quantity, internal: Option<Internal>)
        requires factor { IsRead factor }
        requires found { internals.IsFound internal }
        ensures { (fed : List Fed) → internal_or_word self.old.kind self.old.negative factor internal fed ≡ resume self.new fed }
    {
        match internal {
            Some(Internal::Given(n)) => self.valued(false, times(factor, i32::from(n))),
            Some(Internal::At(loc)) => {
                self.place = DimenPlace::Fetching(Sought::Unit(factor), loc);
            }
            Some(Internal::Numbered(bank)) => {
                self.place = DimenPlace::Numbered(Sought::Unit(factor), bank);
            }
            None => {
                self.place = if self.kind.mu {
                    DimenPlace::Mu(factor)
                } else {
                    DimenPlace::Em(factor)
                };
            }
        }
    }

    /// Behind a point and digits.
    fn feed_digit(&mut self, whole: u32, digits: Digits, x: Seen)
        requires { whole ≤ 2147483647 }
        ensures { (fed : List Fed) → fraction self.old.kind self.old.negative whole (digits_of digits) (Tok x ∷ fed) ≡ resume self.new fed }
    {
        match Radix::Decimal.digit(x) {
            Some(digit) => self.place = DimenPlace::Fraction(whole, digits.with(digit)),
            None => self.feed_decimal(
                Quantity {
                    whole: u64::from(whole),
                    fraction: digits.fraction(),
                },
                x,
            ),
        }
    }

    /// Behind the last digit, where a space goes.
    fn feed_decimal(&mut self, factor: Quantity, x: Seen)
        requires { IsRead factor }
        ensures { (fed : List Fed) → behind_digits self.old.kind self.old.negative factor x fed ≡ resume self.new fed }
    {
        if is_space(x) {
            self.unit_behind(factor);
        } else {
            self.unit_with(factor, x);
        }
    }

    /// Among the signs.
    fn feed_sign(&mut self, x: Seen)
        ensures { (fed : List Fed) → dimension self.old.kind self.old.negative (Tok x ∷ fed) ≡ resume self.new fed }
    {
        if is_other(x, 45) {
            self.negative = !self.negative;
            self.place = DimenPlace::Signs;
        } else if is_other(x, 43) {
            self.place = DimenPlace::Signs;
        } else if is_other(x, 46) || is_other(x, 44) {
            self.place = DimenPlace::Fraction(0, Digits::new());
        } else if list_of(x.meaning).is_some() {
            self.place = DimenPlace::NoNumber;
        } else {
            self.feed_meaning(internal_of(x.meaning));
        }
    }

    /// Behind the signs, where this stands for the dimension or its factor, or an integer may.
    fn feed_meaning(&mut self, internal: Option<Internal>)
        requires { internals.IsFound internal }
        ensures { (fed : List Fed) → internal_or_factor self.old.kind self.old.negative internal fed ≡ resume self.new fed }
    {
        match internal {
            Some(Internal::Given(n)) => self.with_factor(i32::from(n)),
            Some(Internal::At(loc)) => self.place = DimenPlace::Fetching(Sought::Dimension, loc),
            Some(Internal::Numbered(bank)) => {
                self.place = DimenPlace::Numbered(Sought::Dimension, bank);
            }
            None => self.place = DimenPlace::Factor,
        }
    }
}
