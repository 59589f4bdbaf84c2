//! Skipped text, and what ends it; and the stack of open conditionals.

use conditionals::{
    Aim, Choice, Conditional, Conditionals, End, Ender, Limit, Met, Passing, Skip, Step, Value,
    aim_of, constant_test, ender_number, on_fi_or_else, same_meaning,
};
use std::alloc::Global;
use tex_defs::{Full, Meaning, Name, Seen, Table, Token};

/// A name of this primitive.
fn primitive(number: u16) -> Seen {
    Seen {
        token: Token::Named(Name::Single(97)),
        meaning: Meaning::Prim(number),
    }
}

/// Whether `\\ifx \\else \\fi \\or` ends at the `\\or`.
fn is_skipped() -> bool {
    let mut skip = Skip::new();
    let inner = skip.feed(primitive(77)).is_none() && skip.feed(primitive(83)).is_none();
    let fi = skip.feed(primitive(82)).is_none();
    inner && fi && matches!(skip.feed(primitive(84)), Some(Ender::Or))
}

/// What a conditional with a test of this value seeks, where the test left none open above it.
fn sought(value: Value) -> Choice {
    Choice {
        aim: aim_of(value),
        above: 0,
    }
}

/// Whether `\\ifcase 1` reads the text behind its `\\or`.
fn is_chosen() -> bool {
    let choice = sought(Value::Case(1));
    let skips = choice.aim.start().is_none();
    skips && matches!(choice.feed(Ender::Or), Step::Ends(End::Reads(Limit::Case)))
}

/// Whether a false test reports its own `\\or`, and then closes at its `\\fi`.
fn is_reported() -> bool {
    match sought(Value::Truth(false)).feed(Ender::Or) {
        Step::Skips(Passing::ExtraOr, choice) => {
            matches!(choice.feed(Ender::Fi), Step::Ends(End::Closes))
        }
        _ => false,
    }
}

/// Whether the text behind a branch that was read is skipped to its `\\fi`, past an `\\else`.
fn is_closed() -> bool {
    let choice = Choice {
        aim: Aim::Fi,
        above: 0,
    };
    match choice.feed(Ender::Else) {
        Step::Skips(Passing::Nothing, choice) => {
            matches!(choice.feed(Ender::Fi), Step::Ends(End::Closes))
        }
        _ => false,
    }
}

#[test]
fn text_is_skipped(rt: HostRuntime) {
    assert!(rt; is_skipped());
    assert!(rt; is_chosen());
    assert!(rt; is_reported());
    assert!(rt; is_closed());
}

#[test]
fn limits_are_asked(rt: HostRuntime) {
    assert_eq!(rt; ender_number(Ender::Else), 83);
    assert!(rt; matches!(on_fi_or_else(None, Ender::Fi), Met::Extra));
    assert!(rt;
        matches!(
            on_fi_or_else(Some(Limit::Test), Ender::Else),
            Met::RelaxBefore
        )
    );
    assert!(rt;
        matches!(
            on_fi_or_else(Some(Limit::Branch), Ender::Else),
            Met::SkipsToFi
        )
    );
    assert!(rt;
        matches!(
            on_fi_or_else(Some(Limit::AfterElse), Ender::Fi),
            Met::Closes
        )
    );
}

#[test]
fn meanings_are_compared(rt: HostRuntime) {
    assert!(rt; same_meaning(Meaning::Prim(5), Meaning::Prim(5), false));
    assert!(rt; !same_meaning(Meaning::Undefined, Meaning::Prim(5), true));
}

/// Whether `\\ifnum1=2\\iftrue` leaves the second open above the first, on a stack for two.
fn is_left_open(conditionals: &mut Conditionals) -> bool {
    let begun = conditionals.begin(67, 3).is_ok() && conditionals.begin(79, 3).is_ok();
    conditionals.set_limit(Limit::Branch);
    let refusal = Full {
        table: Table::ConditionStackSize,
        used: 2,
        size: 2,
    };
    let limited = matches!(conditionals.limit(), Some(Limit::Branch));
    let above = conditionals.above_sought(Aim::Other(true)) == 1;
    begun
        && limited
        && above
        && conditionals.above_sought(Aim::Fi) == 0
        && conditionals.innermost_test() == 79
        && conditionals.begin(80, 4) == Err(refusal)
}

/// Whether the first then has its limit, also below the second, and is alone behind that.
fn is_limited(conditionals: &mut Conditionals) -> bool {
    conditionals.set_limit(Limit::AfterElse);
    let first = conditionals.get(1);
    conditionals.close();
    let told = matches!(
        first,
        Some(Conditional {
            number: 67,
            line: 3,
            limit: Limit::AfterElse
        })
    );
    told && conditionals.count() == 1
}

fn are_stacked(alloc: Global) -> bool {
    match Conditionals::new(alloc, 2) {
        Ok(mut conditionals) => is_left_open(&mut conditionals) && is_limited(&mut conditionals),
        Err(_) => false,
    }
}

#[test]
fn conditionals_are_open(rt: HostRuntime) {
    assert!(rt; are_stacked(rt.alloc()));
}

#[test]
fn tests_that_read_nothing_are_known(rt: HostRuntime) {
    assert_eq!(rt; constant_test(79), Some(true));
    assert_eq!(rt; constant_test(72), Some(false));
    assert_eq!(rt; constant_test(77), None);
}
