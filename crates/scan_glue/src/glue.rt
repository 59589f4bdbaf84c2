// The scanner of glue. *The TeXbook*, chapters 12, 18 and 24; *TeX: The Program*, part 26 (`scan_glue`).
ghost use Rattle.std.specs.Prelude.{◌≡◌, true};
ghost use Rattle.equivalents.specs.Locations as locations;
ghost use Rattle.plain_tokens.specs.Tokens as tokens;
ghost use Rattle.rows.specs.Arithmetic as arithmetic;
ghost use Rattle.rows.specs.Internal.{is_fetchable};
ghost use Rattle.scan_dimens.specs.DimenViews.{IsDimension};
ghost use Rattle.plain_readings.specs.Glues as glues;
ghost use Rattle.scan_glue.specs.GlueViews as sees;

use equivalents::{Glue, Loc, Val as StoredValue};
use plain_readings::{GlueAsk, GlueInner};
use rows::{
    Bank, Datum, DimenKind, GREATEST_DIMENSION, Internal, Keyword, Value, byte_of, internal_of,
    is_glue, is_mu,
};
use tex_defs::{Seen, Token};
use tex_syntax::{Report, Want};

/// Where a scanner of glue stands; the glue at a place has the parts so far.
#[derive(Clone, Copy)]
pub enum GluePlace {
    /// Among the signs.
    Signs,
    /// Before the number of a register.
    Numbered(Bank),
    /// Before the report that this is no such number.
    BadNumber(Bank, i32),
    /// Before what stands at a location.
    Fetching(Loc),
    /// Before the report of glue in mu or not, where that isn't wanted.
    Incompatible(Glue),
    /// Before the width.
    Width,
    /// Before `plus`.
    Plus(Glue),
    /// Before the stretch.
    Stretch(Glue),
    /// Before `minus`.
    Minus(Glue),
    /// Before the shrink.
    Shrink(Glue),
    /// At its end, and whether the glue stood at a location.
    Ended(Glue, bool),
}

/// The scanner of glue.
#[derive(Clone, Copy)]
pub struct GlueScan {
    /// Whether it is mu glue.
    pub mu: bool,
    /// Whether the signs so far make it negative.
    pub negative: bool,
    pub place: GluePlace,
    ghost range: { sees.IsScanned (sees.scanned_at place) },
    ghost found: { is_fetchable (sees.location_at place) ≡ true },
}

/// No width, stretch and shrink.
fn zero_glue() -> Glue
    ensures value { result ≡ locations.zero_glue }
    ensures scanned { sees.IsScanned result }
{
    Glue {
        width: 0,
        stretch: 0,
        stretch_order: 0,
        shrink: 0,
        shrink_order: 0,
    }
}

/// Whether a dimension of this value and order of infinity may come.
fn is_part(value: i32, order: u8) -> bool
    ensures { result ≡ glues.is_part value order }
{
    -GREATEST_DIMENSION <= value && value <= GREATEST_DIMENSION && order <= 3
}

/// Glue of this width, with the sign.
fn with_width(negative: bool, value: i32) -> Glue
    requires { IsDimension value }
    ensures value { result ≡ glues.with_width negative value }
    ensures scanned { sees.IsScanned result }
{
    Glue {
        width: if negative { 0 - value } else { value },
        ..zero_glue()
    }
}

/// A part of internal glue, negated. The least 32-bit integer, which no assignment gives, counts as the next one.
fn negated(n: i32) -> i32
    ensures { result ≡ glues.negated n }
{
    if n == i32::MIN { 2147483647 } else { 0 - n }
}

/// Internal glue with the sign, which is that of all its parts.
fn signed_glue(negative: bool, glue: Glue) -> Glue
    ensures { result ≡ glues.signed_glue negative glue }
{
    if negative {
        Glue {
            width: negated(glue.width),
            stretch: negated(glue.stretch),
            stretch_order: glue.stretch_order,
            shrink: negated(glue.shrink),
            shrink_order: glue.shrink_order,
        }
    } else {
        glue
    }
}

/// What stands at a location, as glue.
fn glue_in(value: StoredValue<()>) -> Glue
    ensures { result ≡ arithmetic.glue_at value }
{
    match value {
        StoredValue::Skip(glue) => glue,
        _ => zero_glue(),
    }
}

/// Whether it is this explicit character, of category 12.
fn is_other(x: Seen, code: u8) -> bool
    ensures { result ≡ tokens.is_other code x.token }
{
    match x.token {
        Token::Char { cat, code: own } => cat == 12 && own == code,
        _ => false,
    }
}

impl GlueScan {
    ghost use Rattle.std.specs.Prelude.{◌≡◌, List, [], ◌∷◌, false, true};
    ghost use Rattle.rows.specs.Internal as internals;
    ghost use Rattle.rows.specs.Readings.{Cut};
    ghost use Rattle.plain_readings.specs.Measures.{glue_value, glue_item};
    ghost use Rattle.plain_readings.specs.Glues as glues;
    ghost use Rattle.plain_readings.specs.declared.asks.GlueInner.TheVariants as inner;
    ghost use Rattle.plain_readings.specs.Glues.{Fed, Tok, Measured, Noted, Fetched, Numbered, Found};
    ghost use Rattle.scan_glue.specs.GlueViews.{EndsInRange, IsFetchedAt};
    ghost use Rattle.scan_glue.specs.GlueResumes.{resume};

    /// Glue begins, in mu or not.
    pub fn new(mu: bool) -> GlueScan
        ensures { (fed : List Fed) → glues.glue mu false fed ≡ resume result fed }
    {
        GlueScan {
            mu,
            negative: false,
            place: GluePlace::Signs,
        }
    }

    /// What it asks for where it stands.
    pub fn ask(&self) -> GlueAsk
        ensures answer { result ≡ resume self.now [] }
        ensures range { EndsInRange self.now.place result }
        ensures found { IsFetchedAt result }
    {
        match self.place {
            GluePlace::Signs => GlueAsk::More(Want::Nonblank),
            GluePlace::Numbered(_) => GlueAsk::Begins(GlueInner::Number, false),
            GluePlace::BadNumber(bank, n) => GlueAsk::Tells(bank.complaint(n)),
            GluePlace::Fetching(loc) => GlueAsk::Fetches(loc),
            GluePlace::Incompatible(_) => GlueAsk::Tells(Report::IncompatibleUnits),
            GluePlace::Width => GlueAsk::Begins(self.dimension(false), true),
            GluePlace::Plus(_) => GlueAsk::Begins(GlueInner::Key(Keyword::Plus), false),
            GluePlace::Minus(_) => GlueAsk::Begins(GlueInner::Key(Keyword::Minus), false),
            GluePlace::Stretch(_) | GluePlace::Shrink(_) => {
                GlueAsk::Begins(self.dimension(true), false)
            }
            GluePlace::Ended(glue, _) => GlueAsk::Done(glue),
        }
    }

    /// Takes a token.
    pub fn feed(&mut self, seen: Seen)
        ensures { (fed : List Fed) → resume self.old (Tok seen ∷ fed) ≡ resume self.new fed }
    {
        match self.place {
            GluePlace::Signs => self.feed_sign(seen),
            GluePlace::Ended(..) => {}
            _ => self.place = GluePlace::Ended(zero_glue(), false),
        }
    }

    /// Goes on behind its report.
    pub fn noted(&mut self)
        ensures { (fed : List Fed) → resume self.old (Noted ∷ fed) ≡ resume self.new fed }
    {
        match self.place {
            GluePlace::BadNumber(bank, _) => {
                self.place = GluePlace::Fetching(bank.location(0));
            }
            GluePlace::Incompatible(glue) => self.place = GluePlace::Ended(glue, true),
            GluePlace::Ended(..) => {}
            _ => self.place = GluePlace::Ended(zero_glue(), false),
        }
    }

    /// Takes what stands at the location for which it asked.
    pub fn fetched(&mut self, value: StoredValue<()>)
        ensures { (fed : List Fed) → resume self.old (Fetched value ∷ fed) ≡ resume self.new fed }
    {
        match self.place {
            GluePlace::Fetching(loc) => {
                self.valued(is_mu(loc), signed_glue(self.negative, glue_in(value)));
            }
            GluePlace::Ended(..) => {}
            _ => self.place = GluePlace::Ended(zero_glue(), false),
        }
    }

    /// Takes the number of the register that it began.
    pub fn numbered(&mut self, n: i32)
        ensures { (fed : List Fed) → resume self.old (Numbered n ∷ fed) ≡ resume self.new fed }
    {
        match self.place {
            GluePlace::Numbered(bank) => {
                self.place = if 0 <= n && n <= 255 {
                    GluePlace::Fetching(bank.location(byte_of(n)))
                } else {
                    GluePlace::BadNumber(bank, n)
                };
            }
            GluePlace::Ended(..) => {}
            _ => self.place = GluePlace::Ended(zero_glue(), false),
        }
    }

    /// Takes the dimension that it began, in sp or in units of this order of infinity.
    pub fn measured(&mut self, value: i32, order: u8)
        ensures { (fed : List Fed) → resume self.old (Measured value order ∷ fed) ≡ resume self.new fed }
    {
        if is_part(value, order) {
            self.feed_part(value, order);
        } else {
            self.place = match self.place {
                GluePlace::Ended(glue, internal) => GluePlace::Ended(glue, internal),
                _ => GluePlace::Ended(zero_glue(), false),
            };
        }
    }

    /// Takes whether the keyword that it began was there.
    pub fn found(&mut self, found: bool)
        ensures { (fed : List Fed) → resume self.old (Found found ∷ fed) ≡ resume self.new fed }
    {
        self.place = match self.place {
            GluePlace::Plus(glue) => {
                if found {
                    GluePlace::Stretch(glue)
                } else {
                    GluePlace::Minus(glue)
                }
            }
            GluePlace::Minus(glue) => {
                if found {
                    GluePlace::Shrink(glue)
                } else {
                    GluePlace::Ended(glue, false)
                }
            }
            GluePlace::Ended(glue, internal) => GluePlace::Ended(glue, internal),
            _ => GluePlace::Ended(zero_glue(), false),
        };
    }

    /// Takes the value of what it began, or another, for which it never asks.
    pub fn feed_value(&mut self, value: Value)
        ensures { (fed : List Fed) → resume self.old (glue_value value ∷ fed) ≡ resume self.new fed }
    {
        match value {
            Value::Plain(Datum::Dimension(n, order)) => self.measured(n, order),
            Value::Plain(Datum::Number(n)) => self.numbered(n),
            Value::Plain(Datum::Found(found)) => self.found(found),
            _ => self.numbered(0),
        }
    }

    /// The note of a check came, which no glue asks for.
    pub fn stop(&mut self)
        ensures { (fed : List Fed) → resume self.old (glue_item Cut ∷ fed) ≡ resume self.new fed }
    {
        self.numbered(0);
    }

    /// A dimension of this glue.
    fn dimension(&self, infinite: bool) -> GlueInner
        ensures { result ≡ inner.Dimension (record { mu = self.now.mu; infinite = infinite }) }
    {
        GlueInner::Dimension(DimenKind {
            mu: self.mu,
            infinite,
        })
    }

    /// A dimension comes.
    fn feed_part(&mut self, value: i32, order: u8)
        requires { glues.is_part value order ≡ true }
        ensures { (fed : List Fed) → resume self.old (Measured value order ∷ fed) ≡ resume self.new fed }
    {
        self.place = match self.place {
            GluePlace::Width => GluePlace::Plus(with_width(self.negative, value)),
            GluePlace::Stretch(glue) => GluePlace::Minus(Glue {
                stretch: value,
                stretch_order: order,
                ..glue
            }),
            GluePlace::Shrink(glue) => GluePlace::Ended(
                Glue {
                    shrink: value,
                    shrink_order: order,
                    ..glue
                },
                false,
            ),
            GluePlace::Ended(glue, internal) => GluePlace::Ended(glue, internal),
            _ => GluePlace::Ended(zero_glue(), false),
        };
    }

    /// Internal glue, in mu or not.
    fn valued(&mut self, mu: bool, glue: Glue)
        ensures { (fed : List Fed) → glues.valued self.old.mu mu glue fed ≡ resume self.new fed }
    {
        self.place = if self.mu == mu {
            GluePlace::Ended(glue, true)
        } else {
            GluePlace::Incompatible(glue)
        };
    }

    /// Among the signs.
    fn feed_sign(&mut self, x: Seen)
        ensures { (fed : List Fed) → glues.glue self.old.mu self.old.negative (Tok x ∷ fed) ≡ resume self.new fed }
    {
        if is_other(x, 45) {
            self.negative = !self.negative;
            self.place = GluePlace::Signs;
        } else if is_other(x, 43) {
            self.place = GluePlace::Signs;
        } else {
            self.feed_meaning(internal_of(x.meaning));
        }
    }

    /// Behind the signs, where this stands for the glue, or the width begins.
    fn feed_meaning(&mut self, internal: Option<Internal>)
        requires { internals.IsFound internal }
        ensures { (fed : List Fed) → glues.internal_or_width self.old.mu self.old.negative internal fed ≡ resume self.new fed }
    {
        self.place = match internal {
            Some(Internal::At(loc)) => {
                if is_glue(loc) {
                    GluePlace::Fetching(loc)
                } else {
                    GluePlace::Width
                }
            }
            Some(Internal::Numbered(bank)) => {
                if is_glue(bank.location(0)) {
                    GluePlace::Numbered(bank)
                } else {
                    GluePlace::Width
                }
            }
            _ => GluePlace::Width,
        };
    }
}
