//! Optional keywords and dimensions, by their scanners alone.

use equivalents::{Loc, Val};
use plain_readings::{DimenAsk, DimenInner, KeywordAsk};
use rows::{Datum, DimenKind, Keyword, Value};
use scan_dimens::{DimenScan, KeywordScan};
use tex_defs::{Meaning, Name, RegisterKind, Seen, Token};
use tex_syntax::{Report, UnitTaken};

/// A character of category 12.
fn other(code: u8) -> Seen {
    let (cat, token) = (12, Token::Char { cat: 12, code });
    let meaning = Meaning::Char { cat, code };
    Seen { token, meaning }
}

/// A name of this meaning.
fn named(meaning: Meaning<()>) -> Seen {
    let token = Token::Named(Name::Single(97));
    Seen { token, meaning }
}

/// Whether `BY` is the keyword `by`.
fn is_found() -> bool {
    let mut scan = KeywordScan::new(Keyword::By);
    scan.feed(other(b'B'));
    scan.feed(other(b'Y'));
    matches!(scan.ask(), KeywordAsk::Done(true))
}

/// The code of the token that goes back, and how many more are to follow.
fn back(scan: &KeywordScan) -> Option<(u8, u8)> {
    match scan.ask() {
        KeywordAsk::Puts(Token::Char { cat: _, code }, more) => Some((code, more)),
        _ => None,
    }
}

/// Whether `plx` is no `plus`, and goes back token by token, the last first.
fn is_given_back() -> bool {
    let mut scan = KeywordScan::new(Keyword::Plus);
    scan.feed(other(b'p'));
    scan.feed(other(b'l'));
    scan.feed(other(b'x'));
    let first = back(&scan);
    scan.noted();
    let second = back(&scan);
    scan.noted();
    let third = back(&scan);
    scan.noted();
    let ended = matches!(scan.ask(), KeywordAsk::Done(false));
    first == Some((b'x', 2)) && second == Some((b'l', 1)) && third == Some((b'p', 0)) && ended
}

#[test]
fn keywords_are_found_or_given_back(rt: HostRuntime) {
    assert!(rt; is_found());
    assert!(rt; is_given_back());
}

/// A dimension in sp, which isn't infinite.
fn finite() -> DimenScan {
    DimenScan::new(DimenKind {
        mu: false,
        infinite: false,
    })
}

/// The value, its order, and whether the last token is put back, if it is done.
fn value(scan: &DimenScan) -> Option<(i32, u8, bool)> {
    match scan.ask() {
        DimenAsk::Done(n, order, back) => Some((n, order, back)),
        _ => None,
    }
}

/// What is reported, and whether the last token is put back before, if a report comes.
fn report(scan: &DimenScan) -> Option<(Report, bool)> {
    match scan.ask() {
        DimenAsk::Tells(report, back) => Some((report, back)),
        _ => None,
    }
}

/// The location whose value is asked for, if one is.
fn location(scan: &DimenScan) -> Option<Loc> {
    match scan.ask() {
        DimenAsk::Fetches(loc) => Some(loc),
        _ => None,
    }
}

/// Whether a keyword is read within.
fn is_keyed(scan: &DimenScan) -> bool {
    matches!(scan.ask(), DimenAsk::Begins(DimenInner::Key(_), _))
}

/// The keywords from `em` on aren't there, so many of them.
fn refuse(scan: &mut DimenScan, count: u8) {
    for _ in 0..count {
        scan.found(false);
    }
}

/// What `-1.5` comes to, with the keyword behind so many others, and a character behind it.
fn with_unit(count: u8) -> Option<(i32, u8, bool)> {
    let mut scan = finite();
    scan.feed(other(b'-'));
    scan.feed(other(b'1'));
    if !matches!(scan.ask(), DimenAsk::Begins(DimenInner::Factor, true)) {
        return None;
    }
    scan.factored(1, true);
    scan.feed(other(b'.'));
    scan.feed(other(b'5'));
    scan.feed(other(b'p'));
    refuse(&mut scan, count);
    if !is_keyed(&scan) {
        return None;
    }
    scan.found(true);
    scan.feed(other(b';'));
    value(&scan)
}

#[test]
fn units_are_those_of_the_book(rt: HostRuntime) {
    assert!(rt; with_unit(3) == Some((-98304, 0, true)));
    assert!(rt; with_unit(4) == Some((-7104430, 0, true)));
    assert!(rt; with_unit(11) == Some((-1, 0, true)));
}

/// Whether `16384pt` is reported, and the greatest dimension taken.
fn is_too_large() -> bool {
    let mut scan = finite();
    scan.feed(other(b'1'));
    scan.factored(16384, false);
    scan.feed(other(b'p'));
    refuse(&mut scan, 3);
    scan.found(true);
    scan.feed(other(b';'));
    let told = report(&scan) == Some((Report::DimensionTooLarge, true));
    scan.noted();
    told && value(&scan) == Some((1073741823, 0, false))
}

/// Whether `1` without a unit is reported, and counts in points.
fn is_without_unit() -> bool {
    let mut scan = finite();
    scan.feed(other(b'1'));
    scan.factored(1, false);
    scan.feed(other(b';'));
    refuse(&mut scan, 12);
    let told = report(&scan) == Some((Report::IllegalUnit(UnitTaken::Pt), false));
    scan.noted();
    scan.feed(other(b';'));
    told && value(&scan) == Some((65536, 0, true))
}

/// Whether `-\dimen7` is what stands there, negated.
fn is_internal() -> bool {
    let mut scan = finite();
    scan.feed(other(b'-'));
    scan.feed(named(Meaning::Prim(42)));
    let numbered = matches!(scan.ask(), DimenAsk::Begins(DimenInner::Number, false));
    scan.numbered(7);
    let register = Loc::Register {
        kind: RegisterKind::Dimen,
        no: 7,
    };
    let fetched = location(&scan) == Some(register);
    scan.fetched(Val::Number(9));
    numbered && fetched && value(&scan) == Some((-9, 0, false))
}

/// Whether `1truept` at the magnification 2000 is half a point.
fn is_magnified() -> bool {
    let mut scan = finite();
    scan.feed(other(b'1'));
    scan.feed_value(Value::Plain(Datum::Factor(1, false)));
    scan.feed(other(b't'));
    refuse(&mut scan, 2);
    scan.feed_value(Value::Plain(Datum::Found(true)));
    let asked = matches!(scan.ask(), DimenAsk::Magnifies);
    scan.noted();
    let fetched = location(&scan) == Some(Loc::Integer(17));
    scan.fetched(Val::Number(2000));
    scan.found(true);
    scan.feed(other(b';'));
    asked && fetched && value(&scan) == Some((32768, 0, true))
}

/// Whether it ends with 0 where a list comes in place of the integer.
fn is_stopped() -> bool {
    let mut scan = finite();
    scan.feed(other(b'1'));
    scan.feed_value(Value::List);
    value(&scan) == Some((0, 0, false))
}

#[test]
fn dimensions_have_their_reports(rt: HostRuntime) {
    assert!(rt; is_too_large());
    assert!(rt; is_without_unit());
    assert!(rt; is_internal());
    assert!(rt; is_magnified());
    assert!(rt; is_stopped());
}

/// A keyword and a dimension, at each of which a check came: one that isn't there, and 0.
fn stopped() -> bool {
    let mut keyword = KeywordScan::new(Keyword::By);
    keyword.feed(other(b'b'));
    keyword.stop();
    let points = DimenKind {
        mu: false,
        infinite: false,
    };
    let mut dimension = DimenScan::new(points);
    dimension.feed(other(b'-'));
    dimension.stop();
    matches!(keyword.ask(), KeywordAsk::Done(false))
        && matches!(dimension.ask(), DimenAsk::Done(0, 0, false))
}

#[test]
fn checks_end_keywords_and_dimensions(rt: HostRuntime) {
    assert!(rt; stopped());
}
