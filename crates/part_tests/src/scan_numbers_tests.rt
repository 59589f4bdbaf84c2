//! Internal integers, by the scanner of an integer alone and in the stack of readings.

use equivalents::{Glue, Loc, Val};
use plain_readings::{FactorAsk, NumberAsk};
use reading_frames::{Opening, Readings};
use rows::{Datum, Phrase, Value};
use scan_numbers::{FactorScan, NumberScan};
use std::alloc::Global;
use tex_defs::{Meaning, Name, RegisterKind, Seen, Token};
use tex_syntax::Report;

const MINUS: Seen = Seen {
    token: Token::Char { cat: 12, code: 45 },
    meaning: Meaning::Char { cat: 12, code: 45 },
};

/// A name of this meaning.
fn named(meaning: Meaning<()>) -> Seen {
    let token = Token::Named(Name::Single(97));
    Seen { token, meaning }
}

/// The location whose value is asked for, if one is.
fn location(scan: &NumberScan) -> Option<Loc> {
    match scan.ask() {
        NumberAsk::Fetches(loc) => Some(loc),
        _ => None,
    }
}

/// What is reported, if a report comes and nothing is put back.
fn report(scan: &NumberScan) -> Option<Report> {
    match scan.ask() {
        NumberAsk::Tells(report, false) => Some(report),
        _ => None,
    }
}

/// The value, if it is done and nothing is put back.
fn value(scan: &NumberScan) -> Option<i32> {
    match scan.ask() {
        NumberAsk::Done(n, false) => Some(n),
        _ => None,
    }
}

/// A minus, and then a name of this meaning.
fn negative(meaning: Meaning<()>) -> NumberScan {
    let mut scan = NumberScan::new();
    scan.feed(MINUS);
    scan.feed(named(meaning));
    scan
}

/// The same with this number behind the name, if it is asked for.
fn numbered(primitive: u16, n: i32) -> Option<NumberScan> {
    let mut scan = negative(Meaning::Prim(primitive));
    if !matches!(scan.ask(), NumberAsk::Begins) {
        return None;
    }
    scan.feed_value(Value::Plain(Datum::Number(n)));
    Some(scan)
}

/// The location that is asked for, and the value that comes of what stands there.
fn fetched(mut scan: NumberScan, stored: Val<()>) -> (Option<Loc>, Option<i32>) {
    let asked = location(&scan);
    scan.fetched(stored);
    (asked, value(&scan))
}

/// The same behind a report.
fn reported(mut scan: NumberScan, stored: Val<()>) -> (Option<Report>, Option<Loc>, Option<i32>) {
    let first = report(&scan);
    scan.noted();
    let (asked, n) = fetched(scan, stored);
    (first, asked, n)
}

/// Whether `-\count255` is so.
fn is_negated() -> bool {
    let Some(scan) = numbered(41, 255) else {
        return false;
    };
    let register = Loc::Register {
        kind: RegisterKind::Count,
        no: 255,
    };
    fetched(scan, Val::Number(7)) == (Some(register), Some(-7))
}

/// Whether `-\count256` is reported, and minus what `\count0` is.
fn is_out_of_range() -> bool {
    let Some(scan) = numbered(41, 256) else {
        return false;
    };
    let register = Loc::Register {
        kind: RegisterKind::Count,
        no: 0,
    };
    let wanted = (Some(Report::BadRegisterCode(256)), Some(register), Some(5));
    reported(scan, Val::Number(-5)) == wanted
}

#[test]
fn registers_are_read_behind_signs(rt: HostRuntime) {
    assert!(rt; is_negated());
    assert!(rt; is_out_of_range());
}

/// Glue of this width.
fn glue(width: i32) -> Val<()> {
    Val::Skip(Glue {
        width,
        stretch: 1,
        stretch_order: 0,
        shrink: 2,
        shrink_order: 0,
    })
}

/// Whether the width of `-\thinmuskip` comes behind a report.
fn is_mu_reported() -> bool {
    let mut scan = negative(Meaning::Prim(176));
    let asked = location(&scan) == Some(Loc::Glue(15));
    scan.fetched(glue(9));
    let told = report(&scan) == Some(Report::IncompatibleUnits);
    scan.noted();
    asked && told && value(&scan) == Some(-9)
}

#[test]
fn glue_counts_by_its_width(rt: HostRuntime) {
    let scan = negative(Meaning::Prim(161));
    assert!(rt; fetched(scan, glue(9)) == (Some(Loc::Glue(0)), Some(-9)));
    assert!(rt; is_mu_reported());
}

#[test]
fn values_stay_in_their_range(rt: HostRuntime) {
    let scan = negative(Meaning::Prim(86));
    assert!(rt; fetched(scan, Val::Number(i32::MIN)) == (Some(Loc::Integer(1)), Some(2147483647)));
    assert!(rt; value(&negative(Meaning::MathGiven(32767))) == Some(-32767));
}

/// Whether an integer in the stack asks for `\tolerance`, and ends with what stands there.
fn is_fetched_in_stack(alloc: Global) -> bool {
    let Ok(mut readings) = Readings::new(alloc, 1) else {
        return false;
    };
    if readings.begin(Opening::Reads(Phrase::Integer)).is_err() || !readings.has_few_groups() {
        return false;
    }
    let _none = readings.feed(named(Meaning::Prim(86)));
    let asked = matches!(
        readings.ask(),
        Some(reading_frames::Ask::Fetches(Loc::Integer(1)))
    );
    readings.fetched(Val::Number(10000));
    let ended = matches!(
        readings.ask(),
        Some(reading_frames::Ask::Done(Value::Plain(Datum::Number(10000)), false))
    );
    asked && ended
}

#[test]
fn the_innermost_reading_takes_what_is_fetched(rt: HostRuntime) {
    assert!(rt; is_fetched_in_stack(rt.alloc()));
}

/// A character of category 12.
fn other(code: u8) -> Seen {
    let (cat, token) = (12, Token::Char { cat: 12, code });
    let meaning = Meaning::Char { cat, code };
    Seen { token, meaning }
}

/// What these characters come to before a fraction: the value, whether a point stands directly behind it, and whether the last is put back.
fn factor(codes: &[u8]) -> Option<(i32, bool, bool)> {
    let mut scan = FactorScan::new();
    for code in codes {
        scan.feed(other(*code));
    }
    match scan.ask() {
        FactorAsk::Done(n, point, back) => Some((n, point, back)),
        _ => None,
    }
}

#[test]
fn points_are_told_behind_decimal_digits(rt: HostRuntime) {
    assert!(rt; factor(b"12.") == Some((12, true, true)));
    assert!(rt; factor(b"12,") == Some((12, true, true)));
    assert!(rt; factor(b"12p") == Some((12, false, true)));
    assert!(rt; factor(b"'12.") == Some((10, false, true)));
    assert!(rt; factor(b"12").is_none());
}

/// What a factor has come to.
fn ended(scan: &FactorScan) -> Option<(i32, bool)> {
    match scan.ask() {
        FactorAsk::Done(n, point, false) => Some((n, point)),
        _ => None,
    }
}

/// The least register's value where `\count256` is the factor, 7, behind its report.
fn factor_of_register() -> Option<(i32, bool)> {
    let mut scan = FactorScan::new();
    scan.feed(named(Meaning::Prim(41)));
    scan.feed_value(Value::Plain(Datum::Number(256)));
    scan.noted();
    scan.fetched(Val::Number(7));
    ended(&scan)
}

/// A factor, an integer and a factor that hasn't begun, at each of which a check came: they end with 0.
fn stopped() -> (Option<i32>, Option<(i32, bool)>, Option<(i32, bool)>) {
    let mut number = NumberScan::new();
    number.feed(MINUS);
    number.stop();
    let mut begun = FactorScan::new();
    begun.feed(other(b'1'));
    begun.stop();
    let mut fresh = FactorScan::new();
    fresh.stop();
    (value(&number), ended(&begun), ended(&fresh))
}

#[test]
fn factors_are_internal_or_end(rt: HostRuntime) {
    assert!(rt; factor_of_register() == Some((7, false)));
    assert!(rt; stopped() == (Some(0), Some((0, false)), Some((0, false))));
}

/// What the innermost reading asks for is an inner reading of this kind of dimension, with the last token.
fn begins_dimension(readings: &Readings, mu: bool) -> bool {
    match readings.ask() {
        Some(reading_frames::Ask::Inner(Phrase::Dimension(kind), true)) => {
            kind.mu == mu && !kind.infinite
        }
        _ => false,
    }
}

/// Whether the number 12 in the stack begins glue, its width and the factor of that, all with the digit 1.
fn is_nested(alloc: Global) -> bool {
    let Ok(mut readings) = Readings::new(alloc, 3) else {
        return false;
    };
    if readings
        .begin_with(Opening::Reads(Phrase::Glue(true)), other(b'1'))
        .is_err()
    {
        return false;
    }
    let glue = begins_dimension(&readings, true);
    let mu = rows::DimenKind {
        mu: true,
        infinite: false,
    };
    if readings
        .begin_with(Opening::Reads(Phrase::Dimension(mu)), other(b'1'))
        .is_err()
    {
        return false;
    }
    let dimension = matches!(
        readings.ask(),
        Some(reading_frames::Ask::Inner(Phrase::Factor, true))
    );
    let factor = readings
        .begin_with(Opening::Reads(Phrase::Factor), other(b'1'))
        .is_ok();
    glue && dimension && factor && matches!(readings.ask(), Some(reading_frames::Ask::More(_)))
}

#[test]
fn readings_begin_with_one_token(rt: HostRuntime) {
    assert!(rt; is_nested(rt.alloc()));
}
