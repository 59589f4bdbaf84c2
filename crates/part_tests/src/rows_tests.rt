//! What meanings stand for where a number is read, and what arithmetic comes to.

use equivalents::{CodeKind, Glue, Loc, Val};
use rows::{
    Bank, Datum, Internal, Operation, Stage, byte_of, computed, glue_in, glue_product,
    glue_quotient, glue_sum, integer_of, internal_of, is_dimension, is_fetchable, is_glue, is_list,
    is_mu, list_of, measured, number_in, value_computed, value_of, value_stage, variable_of,
};
use tex_defs::{Meaning, RegisterKind};
use tex_syntax::Report;

/// The location of a register.
fn register(kind: RegisterKind, no: u8) -> Loc {
    Loc::Register { kind, no }
}

/// The location for which a meaning stands by itself, if it does.
fn own_location(stands: Option<Internal>) -> Option<Loc> {
    match stands {
        Some(Internal::At(loc)) => Some(loc),
        _ => None,
    }
}

/// The location for which a primitive stands with this number behind it, if it does.
fn numbered_location(primitive: u16, n: u8) -> Option<Loc> {
    match internal_of(Meaning::Prim(primitive)) {
        Some(Internal::Numbered(bank)) => Some(bank.location(n)),
        _ => None,
    }
}

/// The first and the last parameters of each kind, what stands around them, and other meanings: where a number is read, and where a list is.
const OWN: [(Meaning<()>, Option<Loc>, Option<Loc>); 14] = [
    (Meaning::Prim(84), None, None),
    (Meaning::Prim(85), Some(Loc::Integer(0)), None),
    (Meaning::Prim(139), Some(Loc::Integer(54)), None),
    (Meaning::Prim(140), Some(Loc::Dimension(0)), None),
    (Meaning::Prim(160), Some(Loc::Dimension(20)), None),
    (Meaning::Prim(161), Some(Loc::Glue(0)), None),
    (Meaning::Prim(178), Some(Loc::Glue(17)), None),
    (Meaning::Prim(179), None, Some(Loc::Tokens(0))),
    (Meaning::Prim(186), None, Some(Loc::Tokens(7))),
    (Meaning::Prim(187), None, None),
    (
        Meaning::Register {
            kind: RegisterKind::Dimen,
            no: 7,
        },
        Some(Loc::Register {
            kind: RegisterKind::Dimen,
            no: 7,
        }),
        None,
    ),
    (
        Meaning::Register {
            kind: RegisterKind::Toks,
            no: 7,
        },
        None,
        Some(Loc::Register {
            kind: RegisterKind::Toks,
            no: 7,
        }),
    ),
    (Meaning::Undefined, None, None),
    (Meaning::Char { cat: 12, code: 48 }, None, None),
];

fn stand_there(rows: &[(Meaning<()>, Option<Loc>, Option<Loc>)]) -> bool {
    for (meaning, number, list) in rows {
        if own_location(internal_of(*meaning)) != *number
            || own_location(list_of(*meaning)) != *list
        {
            return false;
        }
    }
    true
}

#[test]
fn parameters_stand_at_their_places(rt: HostRuntime) {
    assert!(rt; stand_there(&OWN));
}

/// The primitives whose names have a number behind them: the tables of codes, and the registers that are numbers.
const CODES: [(u16, CodeKind); 6] = [
    (35, CodeKind::Category),
    (36, CodeKind::Lowercase),
    (37, CodeKind::Uppercase),
    (38, CodeKind::SpaceFactor),
    (39, CodeKind::Math),
    (40, CodeKind::Delimiter),
];

const REGISTERS: [(u16, RegisterKind); 4] = [
    (41, RegisterKind::Count),
    (42, RegisterKind::Dimen),
    (43, RegisterKind::Skip),
    (44, RegisterKind::Muskip),
];

fn are_numbered(n: u8) -> bool {
    for (primitive, kind) in &CODES {
        let wanted = Loc::Code {
            kind: *kind,
            code: n,
        };
        if numbered_location(*primitive, n) != Some(wanted) {
            return false;
        }
    }
    for (primitive, kind) in &REGISTERS {
        if numbered_location(*primitive, n) != Some(register(*kind, n)) {
            return false;
        }
    }
    numbered_location(34, n).is_none() && numbered_location(45, n).is_none()
}

#[test]
fn numbers_stand_behind_names(rt: HostRuntime) {
    assert!(rt; are_numbered(0) && are_numbered(255));
}

#[test]
fn lists_are_registers_and_parameters(rt: HostRuntime) {
    let toks = Meaning::Prim(45);
    let numbered = matches!(
        list_of(toks),
        Some(Internal::Numbered(Bank::Registers(RegisterKind::Toks)))
    );
    assert!(rt; numbered && list_of(Meaning::Prim(41)).is_none());
    assert!(rt; value_of(toks).is_some() && value_of(Meaning::Prim(41)).is_some());
    assert!(rt; value_of(Meaning::Prim(1)).is_none());
}

#[test]
fn lists_are_told_apart(rt: HostRuntime) {
    let list = is_list(Loc::Tokens(0)) && is_list(register(RegisterKind::Toks, 0));
    let other = is_list(Loc::Glue(0)) || is_list(register(RegisterKind::Skip, 0));
    assert!(rt; list && !other);
}

#[test]
fn locations_are_as_many_as_there_are(rt: HostRuntime) {
    let last = [
        Loc::Integer(54),
        Loc::Dimension(20),
        Loc::Glue(17),
        Loc::Tokens(7),
    ];
    let beyond = [
        Loc::Integer(55),
        Loc::Dimension(21),
        Loc::Glue(18),
        Loc::Tokens(8),
    ];
    assert!(rt; last.iter().all(|loc| is_fetchable(*loc)));
    assert!(rt; beyond.iter().all(|loc| !is_fetchable(*loc)));
    assert!(rt; is_fetchable(register(RegisterKind::Toks, 255)));
}

/// Whether the value of `\chardef` or `\mathchardef` is given.
fn is_given(meaning: Meaning<()>, n: u16) -> bool {
    matches!(internal_of(meaning), Some(Internal::Given(found)) if found == n)
}

#[test]
fn given_numbers_are_their_own(rt: HostRuntime) {
    assert!(rt;
        is_given(Meaning::CharGiven(255), 255) && is_given(Meaning::MathGiven(32767), 32767)
    );
}

#[test]
fn numbers_out_of_range_have_reports(rt: HostRuntime) {
    let code = Bank::Codes(CodeKind::Math).complaint(256);
    let register = Bank::Registers(RegisterKind::Muskip).complaint(-1);
    assert!(rt; code == Report::BadCharacterCode(256) && register == Report::BadRegisterCode(-1));
    assert!(rt; [byte_of(-1), byte_of(0), byte_of(255), byte_of(256)] == [0, 0, 255, 0]);
}

#[test]
fn glue_in_mu_is_told_apart(rt: HostRuntime) {
    let mu = is_mu(Loc::Glue(15)) && is_mu(register(RegisterKind::Muskip, 0));
    let other = is_mu(Loc::Glue(14)) || is_mu(register(RegisterKind::Skip, 0));
    assert!(rt; mu && !other);
}

#[test]
fn dimensions_are_told_apart(rt: HostRuntime) {
    let dimension = is_dimension(Loc::Dimension(0))
        && is_dimension(register(RegisterKind::Dimen, 0));
    let other = is_dimension(Loc::Integer(0)) || is_dimension(register(RegisterKind::Count, 0));
    assert!(rt; dimension && !other);
}

/// The location that arithmetic changes behind this meaning alone, if it changes one.
fn changed(meaning: Meaning<()>) -> Option<Loc> {
    own_location(variable_of(meaning))
}

#[test]
fn arithmetic_changes_numbers_dimensions_and_glue(rt: HostRuntime) {
    let kind = RegisterKind::Count;
    let own = changed(Meaning::Register { kind, no: 7 });
    assert!(rt; own == Some(register(kind, 7)));
    assert!(rt; changed(Meaning::Prim(139)) == Some(Loc::Integer(54)));
    assert!(rt; changed(Meaning::Prim(140)) == Some(Loc::Dimension(0)));
    assert!(rt; changed(Meaning::Prim(178)) == Some(Loc::Glue(17)));
    assert!(rt; changed(Meaning::Prim(179)).is_none());
    assert!(rt; changed(Meaning::CharGiven(65)).is_none());
}

/// What arithmetic comes to: at its bounds, with signs, and by 0.
const RESULTS: [(Operation, i32, i32, Option<i32>); 9] = [
    (Operation::Advance, 2147483646, 1, Some(2147483647)),
    (Operation::Advance, 2147483647, 1, None),
    (Operation::Advance, -2147483647, -1, None),
    (Operation::Multiply, 65536, -32767, Some(-2147418112)),
    (Operation::Multiply, 65536, 65536, None),
    (Operation::Multiply, -65536, 32768, None),
    (Operation::Divide, -7, 2, Some(-3)),
    (Operation::Divide, 7, -2, Some(-3)),
    (Operation::Divide, 7, 0, None),
];

fn are_computed() -> bool {
    for (operation, value, number, wanted) in &RESULTS {
        if computed(*operation, *value, *number) != *wanted {
            return false;
        }
    }
    true
}

#[test]
fn arithmetic_keeps_its_bounds(rt: HostRuntime) {
    assert!(rt; are_computed());
}

/// Glue of 1pt, with a stretch and a shrink and their orders.
fn glue(stretch: i32, stretch_order: u8, shrink: i32, shrink_order: u8) -> Glue {
    Glue {
        width: 65536,
        stretch,
        stretch_order,
        shrink,
        shrink_order,
    }
}

#[test]
fn glue_is_computed_with(rt: HostRuntime) {
    let summed = glue_sum(glue(131072, 1, -3, 0), glue(65536, 2, 1, 0));
    let wanted = Glue {
        width: 131072,
        ..glue(65536, 2, -2, 0)
    };
    assert!(rt; summed == Some(wanted));
    let tripled = glue_product(glue(2, 1, -3, 0), 3);
    let thrice = Glue {
        width: 196608,
        ..glue(6, 1, -9, 0)
    };
    assert!(rt; tripled == Some(thrice));
    let halved = Glue {
        width: 32768,
        ..glue(1, 1, -1, 0)
    };
    assert!(rt; glue_quotient(glue(2, 1, -3, 0), 2) == Some(halved));
}

/// A register of this kind, 16383pt there, doubled: the number that it comes to, if it is in bounds.
fn doubled(kind: RegisterKind) -> Option<i32> {
    let twice = value_computed(
        Operation::Multiply,
        register(kind, 0),
        Val::Number(1073676288),
        Datum::Number(2),
    );
    match twice {
        Some(Val::Number(n)) => Some(n),
        _ => None,
    }
}

/// The width of `\skip0`, 1pt there, by 1pt more.
fn advanced() -> Option<i32> {
    let sum = value_computed(
        Operation::Advance,
        register(RegisterKind::Skip, 0),
        Val::Skip(glue(0, 0, 0, 0)),
        Datum::Glue(glue(1, 1, 0, 0)),
    );
    match sum {
        Some(Val::Skip(glue)) => Some(glue.width),
        _ => None,
    }
}

#[test]
fn products_of_dimensions_are_dimensions(rt: HostRuntime) {
    assert!(rt; doubled(RegisterKind::Count) == Some(2147352576));
    assert!(rt; doubled(RegisterKind::Dimen).is_none());
    assert!(rt; advanced() == Some(131072));
}

/// What stands there is read so.
fn stage_of(loc: Loc) -> u8 {
    match value_stage(loc) {
        Stage::Number => 0,
        Stage::Dimension => 1,
        Stage::Glue(false) => 2,
        Stage::Glue(true) => 3,
        Stage::TokenList => 4,
        _ => 5,
    }
}

#[test]
fn values_are_read_as_they_stand(rt: HostRuntime) {
    assert!(rt; stage_of(Loc::Integer(0)) == 0 && stage_of(Loc::Dimension(0)) == 1);
    assert!(rt; stage_of(Loc::Glue(14)) == 2 && stage_of(Loc::Glue(15)) == 3);
    assert!(rt; stage_of(Loc::Tokens(0)) == 4);
    assert!(rt; is_glue(register(RegisterKind::Muskip, 1)) && !is_glue(Loc::Dimension(0)));
    assert!(rt; number_in(Datum::Dimension(7, 0)) == 7 && number_in(Datum::Found(true)) == 0);
    assert!(rt; glue_in(Datum::Glue(glue(1, 1, 0, 0))).stretch == 1);
    assert!(rt; integer_of(Val::Skip(glue(0, 0, 0, 0))) == 65536);
    assert!(rt; measured(1073741823) == Some(1073741823) && measured(-1073741824).is_none());
}
