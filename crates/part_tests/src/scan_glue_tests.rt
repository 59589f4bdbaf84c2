//! Glue, by its scanner alone.

use equivalents::{Glue, Loc, Val};
use plain_readings::GlueAsk;
use rows::{Datum, Value};
use scan_glue::GlueScan;
use tex_defs::{Meaning, Name, RegisterKind, Seen, Token};
use tex_syntax::Report;

/// Glue of 1pt, with a stretch and a shrink and their orders.
fn glue(stretch: i32, stretch_order: u8, shrink: i32, shrink_order: u8) -> Glue {
    Glue {
        width: 65536,
        stretch,
        stretch_order,
        shrink,
        shrink_order,
    }
}

/// A character of category 12.
fn other(code: u8) -> Seen {
    let (cat, token) = (12, Token::Char { cat: 12, code });
    let meaning = Meaning::Char { cat, code };
    Seen { token, meaning }
}

/// The glue, if it is done.
fn value(scan: &GlueScan) -> Option<Glue> {
    match scan.ask() {
        GlueAsk::Done(glue) => Some(glue),
        _ => None,
    }
}

/// What is reported, if a report comes.
fn report(scan: &GlueScan) -> Option<Report> {
    match scan.ask() {
        GlueAsk::Tells(report) => Some(report),
        _ => None,
    }
}

/// The location whose value is asked for, if one is.
fn location(scan: &GlueScan) -> Option<Loc> {
    match scan.ask() {
        GlueAsk::Fetches(loc) => Some(loc),
        _ => None,
    }
}

/// What `1pt plus 2fil minus 3sp` comes to.
fn spelt() -> Option<Glue> {
    let mut scan = GlueScan::new(false);
    scan.feed(other(b'1'));
    scan.measured(65536, 0);
    scan.found(true);
    scan.measured(131072, 1);
    scan.feed_value(Value::Plain(Datum::Found(true)));
    scan.feed_value(Value::Plain(Datum::Dimension(3, 0)));
    value(&scan)
}

/// Whether `-\muskip3` is reported, and all that stands there negated.
fn is_negated() -> bool {
    let mut scan = GlueScan::new(false);
    scan.feed(other(b'-'));
    scan.feed(Seen {
        token: Token::Named(Name::Single(97)),
        meaning: Meaning::Prim(44),
    });
    scan.numbered(3);
    let register = Loc::Register {
        kind: RegisterKind::Muskip,
        no: 3,
    };
    let fetched = location(&scan) == Some(register);
    scan.fetched(Val::Skip(glue(2, 1, 3, 0)));
    let told = report(&scan) == Some(Report::IncompatibleUnits);
    scan.noted();
    let negated = Glue {
        width: -65536,
        ..glue(-2, 1, -3, 0)
    };
    fetched && told && value(&scan) == Some(negated)
}

#[test]
fn glue_is_scanned(rt: HostRuntime) {
    assert!(rt; spelt() == Some(glue(131072, 1, 3, 0)));
    assert!(rt; is_negated());
}

#[test]
fn a_check_ends_glue(rt: HostRuntime) {
    let mut scan = GlueScan::new(false);
    scan.feed(other(b'-'));
    scan.stop();
    let none = Glue {
        width: 0,
        ..glue(0, 0, 0, 0)
    };
    assert!(rt; value(&scan) == Some(none));
}
