//! Assignments, groups and what comes after them, as TeX makes them.

ghost use Rattle.std.specs.Prelude.{◌≡◌, ℕ, ◌+◌, ◌<◌, ◌^◌, IfSome, IsTrue};
ghost use Rattle.tex_defs.specs.declared.RegisterKind.TheVariants as register;
ghost use Rattle.token_lists.specs.Table.{holders_at};
ghost use Rattle.token_lists.specs.Accounts.{Covers, Moves, none};
ghost use Rattle.plain_tokens.specs.Meanings.{name_meaning};
ghost use Rattle.equivalents.specs.declared.values.Loc.TheVariants as loc;
ghost use Rattle.equivalents.specs.Tables.{get};
ghost use Rattle.equivalents.specs.Holding.{list_of, value_list};
ghost use Rattle.meanings.specs.Kept.{numbered_meaning, numbered_list};
ghost use Rattle.meanings.specs.Holding.{list_holds, meaning_holds};
ghost use Rattle.eqtb_save.specs.Holding.{held};

use eqtb_save::{Closed, CodeKind, Eqtb, Glue, GroupKind, Loc, Val, Value, name_loc};
use meanings::Kept;
use std::alloc::Global;
use tex_defs::{Frozen, Full, Meaning, Name, RegisterKind, Seen, Sizes, Table, Token};
use token_lists::{ListRef, Lists};

// FIRST VALUES

fn number(value: &Value) -> Option<i32> {
    match value {
        Val::Number(n) => Some(*n),
        _ => None,
    }
}

// INITEX's codes of some characters.
const CODES: [(CodeKind, u8, i32); 15] = [
    (CodeKind::Category, b'\\', 0),
    (CodeKind::Category, b'{', 12),
    (CodeKind::Category, b'a', 11),
    (CodeKind::Category, 0, 9),
    (CodeKind::Category, 13, 5),
    (CodeKind::Lowercase, b'A', 97),
    (CodeKind::Lowercase, b'1', 0),
    (CodeKind::Uppercase, b'z', 90),
    (CodeKind::SpaceFactor, b'Q', 999),
    (CodeKind::SpaceFactor, b'q', 1000),
    (CodeKind::Math, b'0', 28720),
    (CodeKind::Math, b'a', 29025),
    (CodeKind::Math, b'+', 43),
    (CodeKind::Delimiter, b'.', 0),
    (CodeKind::Delimiter, b'(', -1),
];

fn are_codes(eqtb: &Eqtb, rows: &[(CodeKind, u8, i32)]) -> bool {
    for (kind, code, wanted) in rows {
        let loc = Loc::Code {
            kind: *kind,
            code: *code,
        };
        if number(eqtb.get(loc)) != Some(*wanted) {
            return false;
        }
    }
    true
}

// The integer parameters that INITEX sets, by their places.
const INTEGERS: [(u8, i32); 10] = [
    (1, 10000),
    (17, 1000),
    (20, 720),
    (21, 4),
    (22, 7),
    (23, 1776),
    (40, 25),
    (41, 1),
    (45, 92),
    (48, 13),
];

// The value by a place, and 0 where none is given.
fn value_of(rows: &[(u8, i32)], place: u8) -> i32 {
    for (i, value) in rows {
        if *i == place {
            return *value;
        }
    }
    0
}

fn are_integers(eqtb: &Eqtb, rows: &[(u8, i32)]) -> bool {
    for i in 0..55u8 {
        if eqtb.integer(i) != value_of(rows, i) {
            return false;
        }
    }
    true
}

fn is_no_glue(value: &Value) -> bool {
    let none = Glue {
        width: 0,
        stretch: 0,
        stretch_order: 0,
        shrink: 0,
        shrink_order: 0,
    };
    match value {
        Val::Skip(glue) => *glue == none,
        _ => false,
    }
}

fn is_no_list(value: &Value) -> bool {
    matches!(value, Val::Tokens(None))
}

// Whether the last register of a kind is 0 or empty.
fn is_empty(eqtb: &Eqtb, kind: RegisterKind) -> bool {
    let value = eqtb.get(Loc::Register { kind, no: 255 });
    match kind {
        RegisterKind::Count | RegisterKind::Dimen => number(value) == Some(0),
        RegisterKind::Skip | RegisterKind::Muskip => is_no_glue(value),
        RegisterKind::Toks => is_no_list(value),
    }
}

// Whether registers, and the parameters that are no integers, are 0 or empty.
fn are_empty(eqtb: &Eqtb) -> bool {
    is_empty(eqtb, RegisterKind::Count)
        && is_empty(eqtb, RegisterKind::Dimen)
        && is_empty(eqtb, RegisterKind::Skip)
        && is_empty(eqtb, RegisterKind::Muskip)
        && is_empty(eqtb, RegisterKind::Toks)
        && number(eqtb.get(Loc::Dimension(20))) == Some(0)
        && is_no_glue(eqtb.get(Loc::Glue(17)))
        && is_no_list(eqtb.get(Loc::Tokens(7)))
}

// Whether values are seen without their lists.
fn are_seen(eqtb: &Eqtb) -> bool {
    let code = Loc::Code {
        kind: CodeKind::Category,
        code: 13,
    };
    eqtb.value(code) == Val::Number(5)
        && eqtb.value(Loc::Integer(1)) == Val::Number(10000)
        && eqtb.value(Loc::Dimension(20)) == Val::Number(0)
        && eqtb.value(Loc::Tokens(7)) == Val::Tokens(())
        && matches!(eqtb.value(Loc::Glue(17)), Val::Skip(glue) if glue.width == 0)
}

// A token, and what it is met as where the primitives 1, 30 and 54 alone mean something: `\relax`, `\let` and `\expandafter`.
const MET: [(Token, Seen); 6] = [
    (
        Token::Marked(Name::Word(54)),
        Seen {
            token: Token::Named(Name::Word(54)),
            meaning: Meaning::RelaxMarked,
        },
    ),
    (
        Token::Named(Name::Word(54)),
        Seen {
            token: Token::Named(Name::Word(54)),
            meaning: Meaning::Prim(54),
        },
    ),
    (
        Token::Marked(Name::Word(30)),
        Seen {
            token: Token::Named(Name::Word(30)),
            meaning: Meaning::Prim(30),
        },
    ),
    (
        Token::Marked(Name::Word(29)),
        Seen {
            token: Token::Named(Name::Word(29)),
            meaning: Meaning::RelaxMarked,
        },
    ),
    (
        Token::Named(Name::Word(29)),
        Seen {
            token: Token::Named(Name::Word(29)),
            meaning: Meaning::Undefined,
        },
    ),
    (
        Token::Named(Name::Active(126)),
        Seen {
            token: Token::Named(Name::Active(126)),
            meaning: Meaning::Undefined,
        },
    ),
];

fn are_met(eqtb: &Eqtb, rows: &[(Token, Seen)]) -> bool {
    for (token, wanted) in rows {
        if eqtb.met(*token) != *wanted {
            return false;
        }
    }
    true
}

// Whether names mean this.
fn are_known(eqtb: &Eqtb) -> bool {
    are_met(eqtb, &MET)
        && eqtb.seen(Token::Marked(Name::Word(54))).meaning == Meaning::Prim(54)
        && eqtb.meaning(Name::Word(187)) == Meaning::Undefined
        && eqtb.meaning(Name::Frozen(Frozen::EndWrite)) == OUTER
        && eqtb.meaning(Name::Frozen(Frozen::Inaccessible)) == Meaning::Undefined
}

// Whether no group is open, and nothing is saved.
fn is_outermost(eqtb: &Eqtb) -> bool {
    eqtb.recall();
    eqtb.depth() == 0 && eqtb.kind().is_none() && eqtb.entries() == 0
}

// Whether INITEX's values are these.
fn is_first(alloc: Global, lists: &mut Lists) -> bool {
    let Ok(eqtb) = Eqtb::new(alloc, &Sizes::DEFAULT, &[1, 30, 54]) else {
        return false;
    };
    let numbers = are_codes(&eqtb, &CODES) && are_integers(&eqtb, &INTEGERS);
    let others = are_empty(&eqtb) && are_known(&eqtb) && is_outermost(&eqtb);
    let seen = are_seen(&eqtb);
    eqtb.close(lists);
    numbers && others && seen
}

#[test]
fn initex_has_its_values(rt: HostRuntime) {
    let first = match Lists::new(rt.alloc(), 4) {
        Ok(mut lists) => is_first(rt.alloc(), &mut lists),
        Err(_) => false,
    };
    assert!(rt; first);
}

// GROUPS

// What `\count1` is, and the save size that is used.
type Told = (Option<i32>, u32);

fn told(eqtb: &Eqtb) -> Told {
    let register = Loc::Register {
        kind: RegisterKind::Count,
        no: 1,
    };
    (number(eqtb.get(register)), eqtb.entries())
}

// `\count1=`, with `\global` or without.
fn set_count(eqtb: &mut Eqtb, lists: &mut Lists, global: bool, n: i32) -> Result<(), Full>
    requires { Covers lists.old (held eqtb.old) }
    ensures { Covers lists.new (held eqtb.new) }
{
    let register = Loc::Register {
        kind: RegisterKind::Count,
        no: 1,
    };
    if global {
        eqtb.gdefine(lists, register, Val::Number(n));
        return Ok(());
    }
    eqtb.define(lists, register, Val::Number(n))
}

// One step of the end of a group, where one is open.
fn end_step(eqtb: &mut Eqtb, lists: &mut Lists) -> Option<Closed>
    requires { Covers lists.old (held eqtb.old) }
    ensures { Covers lists.new (held eqtb.new) }
{
    if eqtb.depth() == 0 {
        return None;
    }
    Some(eqtb.close_step(lists))
}

fn is_end(step: Option<Closed>, wanted: GroupKind) -> bool {
    match step {
        Some(Closed::Done(kind)) => kind == wanted,
        _ => false,
    }
}

fn is_token(step: Option<Closed>, wanted: Token) -> bool {
    match step {
        Some(Closed::After(token)) => token == wanted,
        _ => false,
    }
}

// `\count1=1 {\count1=2 \global\count1=3 \count1=4 }`: what is told in the group and behind it.
fn global_in_group(eqtb: &mut Eqtb, lists: &mut Lists) -> Result<[Told; 2], Full>
    requires { Covers lists.old (held eqtb.old) }
    ensures { Covers lists.new (held eqtb.new) }
{
    set_count(eqtb, lists, false, 1)?;
    eqtb.open_group(GroupKind::Simple)?;
    set_count(eqtb, lists, false, 2)?;
    set_count(eqtb, lists, true, 3)?;
    set_count(eqtb, lists, false, 4)?;
    let inside = told(eqtb);
    let step = end_step(eqtb, lists);
    if !is_end(step, GroupKind::Simple) {
        return Ok([inside, inside]);
    }
    Ok([inside, told(eqtb)])
}

// Whether two values are saved with the group, and 3 is left.
fn is_global(alloc: Global, lists: &mut Lists) -> bool {
    let Ok(mut eqtb) = Eqtb::new(alloc, &Sizes::DEFAULT, &[]) else {
        return false;
    };
    let told = global_in_group(&mut eqtb, lists);
    eqtb.close(lists);
    match told {
        Ok(told) => told == [(Some(4), 3), (Some(3), 0)],
        Err(_) => false,
    }
}

#[test]
fn global_values_stay(rt: HostRuntime) {
    let global = match Lists::new(rt.alloc(), 4) {
        Ok(mut lists) => is_global(rt.alloc(), &mut lists),
        Err(_) => false,
    };
    assert!(rt; global);
}

// ``\catcode`\{``, with `\global` or without; what it is then.
fn set_code(eqtb: &mut Eqtb, lists: &mut Lists, global: bool) -> Result<u8, Full>
    requires { Covers lists.old (held eqtb.old) }
    ensures { Covers lists.new (held eqtb.new) }
{
    let code = Loc::Code {
        kind: CodeKind::Category,
        code: b'{',
    };
    if global {
        eqtb.gdefine(lists, code, Val::Number(2));
    } else {
        eqtb.define(lists, code, Val::Number(1))?;
    }
    Ok(eqtb.categories()[123])
}

// Tokens for a group's end.
const AFTER: [Token; 2] = [Token::Char { cat: 12, code: 49 }, Token::Named(Name::Empty)];

// `\begingroup {\catcode`\{=1 \aftergroup 1\aftergroup\csname\endcsname}\global\catcode`\{=2 \endgroup`: the category code in the
// group, behind it, once it is assigned again and behind the outer group.
fn codes_in_groups(eqtb: &mut Eqtb, lists: &mut Lists) -> Result<[u8; 4], Full>
    requires { Covers lists.old (held eqtb.old) }
    ensures { Covers lists.new (held eqtb.new) }
{
    eqtb.open_group(GroupKind::SemiSimple)?;
    eqtb.open_group(GroupKind::Simple)?;
    eqtb.after_group(AFTER[0])?;
    eqtb.after_group(AFTER[1])?;
    let inside = set_code(eqtb, lists, false)?;
    let first = end_step(eqtb, lists);
    let behind = eqtb.categories()[123];
    let second = end_step(eqtb, lists);
    let third = end_step(eqtb, lists);
    let right = is_token(first, AFTER[1])
        && is_token(second, AFTER[0])
        && is_end(third, GroupKind::Simple);
    if !right || eqtb.kind() != Some(GroupKind::SemiSimple) {
        return Ok([0; 4]);
    }
    let global = set_code(eqtb, lists, true)?;
    let last = end_step(eqtb, lists);
    if !is_end(last, GroupKind::SemiSimple) {
        return Ok([0; 4]);
    }
    Ok([inside, behind, global, eqtb.categories()[123]])
}

// Whether the codes are these, and the tokens that come after a group are given, the last first.
fn are_given(alloc: Global, lists: &mut Lists) -> bool {
    let Ok(mut eqtb) = Eqtb::new(alloc, &Sizes::DEFAULT, &[]) else {
        return false;
    };
    let told = codes_in_groups(&mut eqtb, lists);
    eqtb.close(lists);
    match told {
        Ok(told) => told == [1, 12, 2, 2],
        Err(_) => false,
    }
}

#[test]
fn a_group_gives_codes_and_tokens_back(rt: HostRuntime) {
    let given = match Lists::new(rt.alloc(), 4) {
        Ok(mut lists) => are_given(rt.alloc(), &mut lists),
        Err(_) => false,
    };
    assert!(rt; given);
}

// `{\count1=2 \aftergroup 1}`, closed at once: what is told in the group and behind it, its token and its kind.
fn closed_at_once(
    eqtb: &mut Eqtb,
    lists: &mut Lists,
) -> Result<(Told, Told, Option<(Token, GroupKind)>), Full>
    requires { Covers lists.old (held eqtb.old) }
    ensures { Covers lists.new (held eqtb.new) }
{
    eqtb.open_group(GroupKind::Simple)?;
    set_count(eqtb, lists, false, 2)?;
    if eqtb.depth() > 0 {
        eqtb.after_group(AFTER[0])?;
    }
    let inside = told(eqtb);
    let given = end_at_once(eqtb, lists);
    Ok((inside, told(eqtb), given))
}

// The innermost group goes, if one is open: its one token and its kind.
fn end_at_once(eqtb: &mut Eqtb, lists: &mut Lists) -> Option<(Token, GroupKind)>
    requires { Covers lists.old (held eqtb.old) }
    ensures { Covers lists.new (held eqtb.new) }
{
    if eqtb.depth() == 0 {
        return None;
    }
    eqtb.close_group(lists);
    let Closed::After(token) = eqtb.next_closing() else {
        return None;
    };
    match eqtb.next_closing() {
        Closed::Done(kind) => Some((token, kind)),
        Closed::After(_) => None,
    }
}

// Whether a group that goes at once gives its values back, its token and its kind.
fn is_closed(alloc: Global, lists: &mut Lists) -> bool {
    let Ok(mut eqtb) = Eqtb::new(alloc, &Sizes::DEFAULT, &[]) else {
        return false;
    };
    let told = closed_at_once(&mut eqtb, lists);
    eqtb.close(lists);
    match told {
        Ok(told) => {
            told == (
                (Some(2), 3),
                (Some(0), 0),
                Some((AFTER[0], GroupKind::Simple)),
            )
        }
        Err(_) => false,
    }
}

#[test]
fn a_group_goes_at_once(rt: HostRuntime) {
    let closed = match Lists::new(rt.alloc(), 4) {
        Ok(mut lists) => is_closed(rt.alloc(), &mut lists),
        Err(_) => false,
    };
    assert!(rt; closed);
}

// REFUSALS

const SAVES: Full = Full {
    table: Table::SaveSize,
    used: 2,
    size: 2,
};

const LEVELS: Full = Full {
    table: Table::GroupingLevels,
    used: 1,
    size: 1,
};

// A group, another one, two registers, a token, and a group once more: why each was refused.
fn refusals(eqtb: &mut Eqtb, lists: &mut Lists) -> Option<[Option<Full>; 6]>
    requires { Covers lists.old (held eqtb.old) }
    ensures { Covers lists.new (held eqtb.new) }
{
    let first = eqtb.open_group(GroupKind::Simple).err();
    let second = eqtb.open_group(GroupKind::Simple).err();
    let saved = set_count(eqtb, lists, false, 1).err();
    let again = set_count(eqtb, lists, false, 2).err();
    let other = Loc::Integer(1);
    let refusal = eqtb.refusal(other);
    let unsaved = eqtb.define(lists, other, Val::Number(0)).err();
    // the value that couldn't be saved stands
    let stands = number(eqtb.get(other)) == Some(10000);
    if unsaved != refusal || !stands || eqtb.depth() == 0 {
        return None;
    }
    let token = eqtb.after_group(AFTER[0]).err();
    let third = eqtb.open_group(GroupKind::Simple).err();
    if saved.is_some() || again.is_some() {
        return None;
    }
    Some([first, second, saved, unsaved, token, third])
}

// Whether one group may be open, and then one value may be saved.
fn are_refused(alloc: Global, lists: &mut Lists) -> bool {
    let sizes = Sizes {
        save_size: 2,
        grouping_levels: 1,
        ..Sizes::DEFAULT
    };
    let Ok(mut eqtb) = Eqtb::new(alloc, &sizes, &[]) else {
        return false;
    };
    let told = refusals(&mut eqtb, lists);
    eqtb.close(lists);
    told == Some([
        None,
        Some(LEVELS),
        None,
        Some(SAVES),
        Some(SAVES),
        Some(SAVES),
    ])
}

#[test]
fn full_tables_refuse(rt: HostRuntime) {
    let refused = match Lists::new(rt.alloc(), 4) {
        Ok(mut lists) => are_refused(rt.alloc(), &mut lists),
        Err(_) => false,
    };
    assert!(rt; refused);
}

// NAMES AND LISTS

// A list of one token.
fn built(lists: &mut Lists, token: Token) -> Option<ListRef>
    ensures { Moves lists.old lists.new none (list_holds (numbered_list result)) }
{
    let Ok(mut build) = lists.begin() else {
        return None;
    };
    if lists.append(&mut build, token).is_err() {
        lists.abandon(build);
        return None;
    }
    Some(lists.finish(build))
}

// Enters a name, where there is room for one.
fn enter_name(eqtb: &mut Eqtb) -> bool
    ensures { (h : ℕ) → held eqtb.new h ≡ held eqtb.old h }
{
    if !eqtb.has_room() {
        return false;
    }
    eqtb.enter();
    true
}

// Gives a name a meaning, where it may be assigned.
fn set_name(eqtb: &mut Eqtb, lists: &mut Lists, name: Name, value: Kept) -> Result<(), Full>
    requires { Covers lists.old (λ h. meaning_holds (numbered_meaning value) h + held eqtb.old h) }
    ensures { Covers lists.new (held eqtb.new) }
{
    match name_loc(name) {
        Some(loc) if eqtb.is_placed(name) => eqtb.define(lists, loc, Val::Meant(value)),
        _ => {
            meanings::release(lists, value);
            Ok(())
        }
    }
}

// `\outer\def` with an empty parameter text and body.
fn define_macro(eqtb: &mut Eqtb, lists: &mut Lists, name: Name) -> Result<(), Full>
    requires { Covers lists.old (held eqtb.old) }
    ensures { Covers lists.new (held eqtb.new) }
{
    let list = built(lists, Token::EndPlaces);
    let value = Meaning::Macro {
        long: false,
        outer: true,
        list,
    };
    set_name(eqtb, lists, name, value)
}

// Whether one more holder of a macro's list can be counted.
fn is_shareable(eqtb: &Eqtb, lists: &Lists, name: Name) -> bool
    requires { Covers lists.now (held eqtb.now) }
    ensures { IsTrue result → IfSome (list_of (name_meaning eqtb.now.groups.now.meanings name)) (λ id. holders_at lists.now id + 1 < 2 ^ 32) }
{
    match eqtb.list(name) {
        Some(list) => lists.holders(list) < 1000,
        None => true,
    }
}

// `\let`
fn let_name(eqtb: &mut Eqtb, lists: &mut Lists, name: Name, source: Name) -> Result<(), Full>
    requires { Covers lists.old (held eqtb.old) }
    ensures { Covers lists.new (held eqtb.new) }
{
    if !is_shareable(eqtb, lists, source) {
        return Ok(());
    }
    let value = eqtb.to_let(
        lists,
        Seen {
            token: Token::Named(source),
            meaning: Meaning::Undefined,
        },
    );
    set_name(eqtb, lists, name, value)
}

// Whether one more holder of a register's list can be counted.
fn is_countable(eqtb: &Eqtb, lists: &Lists, no: u8) -> bool
    requires { Covers lists.now (held eqtb.now) }
    ensures { IsTrue result → IfSome (value_list (get eqtb.now.groups.now (loc.Register register.Toks no))) (λ id. holders_at lists.now id + 1 < 2 ^ 32) }
{
    let register = Loc::Register {
        kind: RegisterKind::Toks,
        no,
    };
    match eqtb.get(register) {
        Val::Tokens(Some(list)) => lists.holders(list) < 1000,
        Val::Tokens(None) => true,
        _ => false,
    }
}

// `\toks0={1}\toks1=\toks0`
fn set_registers(eqtb: &mut Eqtb, lists: &mut Lists) -> Result<(), Full>
    requires { Covers lists.old (held eqtb.old) }
    ensures { Covers lists.new (held eqtb.new) }
{
    let list = built(lists, Token::Char { cat: 12, code: 49 });
    let zero = Loc::Register {
        kind: RegisterKind::Toks,
        no: 0,
    };
    eqtb.define(lists, zero, Val::Tokens(list))?;
    if !is_countable(eqtb, lists, 0) {
        return Ok(());
    }
    let value = eqtb.shared(lists, zero);
    let one = Loc::Register {
        kind: RegisterKind::Toks,
        no: 1,
    };
    eqtb.define(lists, one, value)
}

// What two names mean, and how many words are used.
type Meant = (Meaning<()>, Meaning<()>, u32);

fn meant(eqtb: &Eqtb, lists: &Lists) -> Meant {
    (
        eqtb.meaning(Name::Word(187)),
        eqtb.meaning(Name::Single(97)),
        lists.used(),
    )
}

// `\outer\def\a{}{\let\name\a\outer\def\a{}}\let\a\name`, where `\name` was entered, and the registers: what is told in the
// group, behind it, and at the end.
fn lists_in_group(eqtb: &mut Eqtb, lists: &mut Lists) -> Result<[Meant; 3], Full>
    requires { Covers lists.old (held eqtb.old) }
    ensures { Covers lists.new (held eqtb.new) }
{
    let name = Name::Word(187);
    let a = Name::Single(97);
    define_macro(eqtb, lists, a)?;
    eqtb.open_group(GroupKind::Simple)?;
    let_name(eqtb, lists, name, a)?;
    define_macro(eqtb, lists, a)?;
    let inside = meant(eqtb, lists);
    let _end = end_step(eqtb, lists);
    let behind = meant(eqtb, lists);
    let_name(eqtb, lists, a, name)?;
    set_registers(eqtb, lists)?;
    Ok([inside, behind, meant(eqtb, lists)])
}

const UNDEFINED: Meaning<()> = Meaning::Undefined;

const OUTER: Meaning<()> = Meaning::Macro {
    long: false,
    outer: true,
    list: (),
};

// Whether lists are freed with their last holders: two in the group, one behind it, and at the end that of the registers.
fn are_freed(alloc: Global, lists: &mut Lists) -> bool {
    let Ok(mut eqtb) = Eqtb::new(alloc, &Sizes::DEFAULT, &[]) else {
        return false;
    };
    let entered = enter_name(&mut eqtb);
    let told = lists_in_group(&mut eqtb, lists);
    let wanted = [
        (OUTER, OUTER, 4),
        (UNDEFINED, OUTER, 2),
        (UNDEFINED, UNDEFINED, 2),
    ];
    let right = match told {
        Ok(told) => told == wanted,
        Err(_) => false,
    };
    eqtb.close(lists);
    entered && right && lists.used() == 0
}

#[test]
fn lists_are_freed_with_their_holders(rt: HostRuntime) {
    let freed = match Lists::new(rt.alloc(), 4) {
        Ok(mut lists) => are_freed(rt.alloc(), &mut lists),
        Err(_) => false,
    };
    assert!(rt; freed);
}

// What a name means, and how many words are used.
type Named = (Meaning<()>, u32);

fn named(eqtb: &Eqtb, lists: &Lists, name: Name) -> Named {
    (eqtb.meaning(name), lists.used())
}

// `\outer\def\a{}\let~\a\let\a\par\let~~`: what is told behind each. The last one gives a name a share of its own list.
fn shares(eqtb: &mut Eqtb, lists: &mut Lists) -> Result<[Named; 4], Full>
    requires { Covers lists.old (held eqtb.old) }
    ensures { Covers lists.new (held eqtb.new) }
{
    let a = Name::Single(97);
    let tie = Name::Active(126);
    define_macro(eqtb, lists, a)?;
    let defined = named(eqtb, lists, a);
    let_name(eqtb, lists, tie, a)?;
    let shared = named(eqtb, lists, tie);
    let_name(eqtb, lists, a, Name::Word(5))?;
    let changed = named(eqtb, lists, a);
    let_name(eqtb, lists, tie, tie)?;
    Ok([defined, shared, changed, named(eqtb, lists, tie)])
}

// Whether two names share a list, which is freed in the end.
fn are_shared(alloc: Global, lists: &mut Lists) -> bool {
    let Ok(mut eqtb) = Eqtb::new(alloc, &Sizes::DEFAULT, &[5]) else {
        return false;
    };
    let told = shares(&mut eqtb, lists);
    eqtb.close(lists);
    let right = match told {
        Ok(told) => told == [(OUTER, 2), (OUTER, 2), (Meaning::Prim(5), 2), (OUTER, 2)],
        Err(_) => false,
    };
    right && lists.used() == 0
}

#[test]
fn names_share_a_list(rt: HostRuntime) {
    let shared = match Lists::new(rt.alloc(), 4) {
        Ok(mut lists) => are_shared(rt.alloc(), &mut lists),
        Err(_) => false,
    };
    assert!(rt; shared);
}

// Names, and whether they are placed where the 186 names of the primitives and one more are entered.
const PLACED: [(Name, bool); 10] = [
    (Name::Word(187), true),
    (Name::Word(188), false),
    (Name::Word(0), false),
    (Name::Active(0), true),
    (Name::Single(255), true),
    (Name::Empty, true),
    (Name::Frozen(Frozen::Inaccessible), true),
    (Name::Frozen(Frozen::Relax), false),
    (Name::Frozen(Frozen::EndWrite), false),
    (Name::Frozen(Frozen::Unknown), false),
];

// Whether just those of these names are placed of which this is told.
fn are_placed(eqtb: &Eqtb, rows: &[(Name, bool)]) -> bool {
    for (name, wanted) in rows {
        if eqtb.is_placed(*name) != *wanted {
            return false;
        }
    }
    true
}

// Whether the 186 names of the primitives are entered at first, and behind them one more.
fn is_entered(alloc: Global, lists: &mut Lists) -> bool {
    let Ok(mut eqtb) = Eqtb::new(alloc, &Sizes::DEFAULT, &[]) else {
        return false;
    };
    let before = [(Name::Word(186), true), (Name::Word(187), false)];
    let first = are_placed(&eqtb, &before);
    let entered = enter_name(&mut eqtb);
    let behind = are_placed(&eqtb, &PLACED);
    eqtb.close(lists);
    first && entered && behind
}

#[test]
fn names_are_placed(rt: HostRuntime) {
    let entered = match Lists::new(rt.alloc(), 4) {
        Ok(mut lists) => is_entered(rt.alloc(), &mut lists),
        Err(_) => false,
    };
    assert!(rt; entered);
}
