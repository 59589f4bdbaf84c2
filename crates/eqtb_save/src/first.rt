// INITEX's first values.
ghost use Rattle.std.specs.Prelude.{◌≡◌, ◌≤◌, ◌+◌, length};
ghost use Rattle.plain_tokens.specs.Categories.{initial_category};
ghost use Rattle.plain_tokens.specs.Meanings.{fixed_locations, is_listed, primitive_count};
ghost use Rattle.equivalents.specs.Locations.{locations_without_names};
ghost use Rattle.equivalents.specs.First.{first_lowercase, first_uppercase, first_space_factor, first_math_code, first_delimiter, first_integer};
ghost use Rattle.eqtb_save.specs.First.{Adds, first_code, codes_of, integers, zeros, zero_glues, empty_lists, undefined_names, primitive_names, first_values};

use crate::values::Value;
use equivalents::{CodeKind, Glue, Val};
use meanings::{FIXED, known};
use prim_table::COUNT;
use save_stack::Groups;
use tex_defs::Meaning;

/// How many locations stand before those of the names.
pub const WITHOUT_NAMES: usize = 2918;

const ZERO_GLUE: Glue = Glue {
    width: 0,
    stretch: 0,
    stretch_order: 0,
    shrink: 0,
    shrink_order: 0,
};

// The first category code of a character.
fn category(c: u8) -> u8
    ensures { result ≡ initial_category c }
{
    match c {
        b'\\' => 0,
        0 => 9,
        b'\r' => 5,
        b' ' => 10,
        b'%' => 14,
        127 => 15,
        b'A'..=b'Z' | b'a'..=b'z' => 11,
        _ => 12,
    }
}

fn lowercase(c: u8) -> i32
    ensures { result ≡ first_lowercase c }
{
    match c {
        b'A'..=b'Z' => c as i32 + 32,
        b'a'..=b'z' => c as i32,
        _ => 0,
    }
}

fn uppercase(c: u8) -> i32
    ensures { result ≡ first_uppercase c }
{
    match c {
        b'A'..=b'Z' => c as i32,
        b'a'..=b'z' => c as i32 - 32,
        _ => 0,
    }
}

fn space_factor(c: u8) -> i32
    ensures { result ≡ first_space_factor c }
{
    match c {
        b'A'..=b'Z' => 999,
        _ => 1000,
    }
}

fn math_code(c: u8) -> i32
    ensures { result ≡ first_math_code c }
{
    match c {
        b'0'..=b'9' => c as i32 + 28672,
        b'A'..=b'Z' | b'a'..=b'z' => c as i32 + 28928,
        _ => c as i32,
    }
}

fn delimiter(c: u8) -> i32
    ensures { result ≡ first_delimiter c }
{
    match c {
        b'.' => 0,
        _ => -1,
    }
}

// A character's first code of this kind.
fn code(kind: CodeKind, c: u8) -> i32
    ensures { result ≡ first_code kind c }
{
    match kind {
        CodeKind::Category => category(c) as i32,
        CodeKind::Lowercase => lowercase(c),
        CodeKind::Uppercase => uppercase(c),
        CodeKind::SpaceFactor => space_factor(c),
        CodeKind::Math => math_code(c),
        CodeKind::Delimiter => delimiter(c),
    }
}

// The first value of an integer parameter, by its place.
fn integer(i: u8) -> i32
    ensures { result ≡ first_integer i }
{
    match i {
        1 => 10000,
        17 => 1000,
        20 => 720,
        21 => 4,
        22 => 7,
        23 => 1776,
        40 => 25,
        41 => 1,
        45 => 92,
        48 => 13,
        _ => 0,
    }
}

// The codes of all characters.
fn put_codes(groups: &mut Groups<Value>, kind: CodeKind)
    requires { length groups.old.levels + 256 ≤ groups.old.most }
    ensures after { Adds groups.old groups.new (codes_of kind) }
    ensures count { length groups.new.levels ≡ length groups.old.levels + 256 }
    ensures most { groups.new.most ≡ groups.old.most }
{
    for c in 0..256u32 {
        groups.add(Val::Number(code(kind, c as u8)));
    }
}

fn put_integers(groups: &mut Groups<Value>)
    requires { length groups.old.levels + 55 ≤ groups.old.most }
    ensures after { Adds groups.old groups.new integers }
    ensures count { length groups.new.levels ≡ length groups.old.levels + 55 }
    ensures most { groups.new.most ≡ groups.old.most }
{
    for i in 0..55u8 {
        groups.add(Val::Number(integer(i)));
    }
}

// So many zeros.
fn put_zeros(groups: &mut Groups<Value>, count: u32)
    requires { length groups.old.levels + count ≤ groups.old.most }
    ensures after { Adds groups.old groups.new (zeros count) }
    ensures count { length groups.new.levels ≡ length groups.old.levels + count }
    ensures most { groups.new.most ≡ groups.old.most }
{
    for _i in 0..count {
        groups.add(Val::Number(0));
    }
}

fn put_glues(groups: &mut Groups<Value>, count: u32)
    requires { length groups.old.levels + count ≤ groups.old.most }
    ensures after { Adds groups.old groups.new (zero_glues count) }
    ensures count { length groups.new.levels ≡ length groups.old.levels + count }
    ensures most { groups.new.most ≡ groups.old.most }
{
    for _i in 0..count {
        groups.add(Val::Skip(ZERO_GLUE));
    }
}

// So many empty token lists.
fn put_tokens(groups: &mut Groups<Value>, count: u32)
    requires { length groups.old.levels + count ≤ groups.old.most }
    ensures after { Adds groups.old groups.new (empty_lists count) }
    ensures count { length groups.new.levels ≡ length groups.old.levels + count }
    ensures most { groups.new.most ≡ groups.old.most }
{
    for _i in 0..count {
        groups.add(Val::Tokens(None));
    }
}

// The names that have fixed locations.
fn put_undefined(groups: &mut Groups<Value>)
    requires { length groups.old.levels + fixed_locations ≤ groups.old.most }
    ensures after { Adds groups.old groups.new undefined_names }
    ensures count { length groups.new.levels ≡ length groups.old.levels + fixed_locations }
    ensures most { groups.new.most ≡ groups.old.most }
{
    for _k in 0..FIXED {
        groups.add(Val::Meant(Meaning::Undefined));
    }
}

// The names of the primitives, by their numbers.
fn put_known(groups: &mut Groups<Value>, numbers: &[u16])
    requires { length groups.old.levels + primitive_count ≤ groups.old.most }
    ensures after { Adds groups.old groups.new (primitive_names (is_listed numbers.now)) }
    ensures count { length groups.new.levels ≡ length groups.old.levels + primitive_count }
    ensures most { groups.new.most ≡ groups.old.most }
{
    for k in 0..COUNT {
        groups.add(Val::Meant(known(numbers, k + 1)));
    }
}

/// INITEX's values of all locations, by their numbers, where the primitives of these numbers mean something.
pub fn put_first(groups: &mut Groups<Value>, known: &[u16])
    requires { length groups.old.levels + (locations_without_names + (fixed_locations + primitive_count)) ≤ groups.old.most }
    ensures { Adds groups.old groups.new (first_values (is_listed known.now)) }
{
    put_codes(groups, CodeKind::Category);
    put_codes(groups, CodeKind::Lowercase);
    put_codes(groups, CodeKind::Uppercase);
    put_codes(groups, CodeKind::SpaceFactor);
    put_codes(groups, CodeKind::Math);
    put_codes(groups, CodeKind::Delimiter);
    put_integers(groups);
    // dimension and glue parameters
    put_zeros(groups, 21);
    put_glues(groups, 18);
    // the registers
    put_zeros(groups, 512);
    put_glues(groups, 512);
    put_tokens(groups, 256);
    // token parameters
    put_tokens(groups, 8);
    put_undefined(groups);
    put_known(groups, known);
}
