use prim_table::{
    COUNT, Class, first_number, is_expanded, is_in_row, last_number, name, name_in_row, number,
    numbering_law, prim, row_size,
};

const PRIMITIVES: [(u16, Class, u16, &[u8]); 4] = [
    (1, Class::Command, 1, b"relax"),
    (53, Class::Assignment, 31, b"read"),
    (101, Class::IntegerParameter, 17, b"adjdemerits"),
    (186, Class::TokenParameter, 8, b"errhelp"),
];

// Whether this primitive has this name.
fn is_named(j: u16, class: Class, place: u16, text: &[u8]) -> bool {
    j > 0
        && j <= COUNT
        && name(j) == text
        && prim(j) == (class, place)
        && place > 0
        && place <= row_size(class)
        && number(class, place) == j
        && name_in_row(class, place) == text
        && is_in_row(class, j)
}

#[test]
fn numbers_and_names(rt: HostRuntime) {
    for (j, class, place, text) in PRIMITIVES {
        assert!(rt; is_named(j, class, place, text), "{j}");
    }
    numbering_law();
}

// The numbers of a row's first and last primitives.
fn ends_of(class: Class) -> (u16, u16) {
    (first_number(class), last_number(class))
}

// `\expandafter` to `\endinput`.
#[test]
fn expansions_have_a_row(rt: HostRuntime) {
    assert!(rt; ends_of(Class::Expandable) == (54, 64));
}

// `\if` to `\or`.
#[test]
fn conditionals_have_a_row(rt: HostRuntime) {
    assert!(rt; ends_of(Class::Conditional) == (65, 84));
}

#[test]
fn no_conditional_stands_among_integer_parameters(rt: HostRuntime) {
    assert!(rt; !is_in_row(Class::IntegerParameter, 84));
}

#[test]
fn integer_parameters_end_before_dimensions(rt: HostRuntime) {
    assert!(rt; is_in_row(Class::IntegerParameter, 85) && !is_in_row(Class::IntegerParameter, 140));
}

#[test]
fn expansions_and_conditionals_are_expanded(rt: HostRuntime) {
    assert!(rt; !is_expanded(53) && is_expanded(54) && is_expanded(84) && !is_expanded(85));
}
