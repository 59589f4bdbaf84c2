//! Groups and lists in the state of a run: the opening and end of groups, the tokens that come behind them, and lists at locations.

ghost use Rattle.std.specs.Prelude.{◌≡◌, None};
ghost use Rattle.tex_defs.specs.declared.RegisterKind.TheVariants.{Toks};
ghost use Rattle.equivalents.specs.declared.values.Loc.TheVariants as loc;
ghost use Rattle.input_state.specs.Callings.{NotCalling};

use eqtb_save::{Glue, GroupKind, Loc, Val};
use input_state::Input;
use std::alloc::Global;
use tex_defs::{Full, Meaning, Name, RegisterKind, Seen, Sizes, Token};

const A: Name = Name::Single(97);

const B: Name = Name::Single(98);

const LETTER: Token = Token::Char { cat: 11, code: 120 };

const FIRST: Token = Token::Char { cat: 12, code: 49 };

const SECOND: Token = Token::Named(Name::Empty);

// `\def` of this name, with this token as the body.
fn define(input: &mut Input, name: Name, body: Token) -> Result<(), Full>
    requires { input.old.call ≡ NotCalling }
    ensures { input.new.call ≡ NotCalling }
{
    input.begin_list()?;
    input.grow_list(Token::EndPlaces)?;
    input.grow_list(body)?;
    if input.is_placed(name) {
        return input.define(name, false, false, false);
    }
    Ok(())
}

// `\let\b=\a`
fn let_b(input: &mut Input) -> Result<(), Full>
    requires { input.old.call ≡ NotCalling }
    ensures { input.new.call ≡ NotCalling }
{
    let seen = input.seen(Token::Named(A));
    if input.is_placed(B) {
        return input.let_name(B, seen, false);
    }
    Ok(())
}

// What `\b` means, the words that are used, the groups that are open and the kind of the innermost.
type Told = (Meaning<()>, u32, u32, Option<GroupKind>);

fn told(input: &Input) -> Told {
    let Seen { token: _, meaning } = input.seen(Token::Named(B));
    (
        meaning,
        input.words(),
        input.group_depth(),
        input.group_kind(),
    )
}

// `\begingroup\aftergroup 1\aftergroup\csname\endcsname\let\b=\a`: what is told in the group.
fn in_group(input: &mut Input) -> Result<Told, Full>
    requires { input.old.call ≡ NotCalling }
    ensures { input.new.call ≡ NotCalling }
{
    input.open_group(GroupKind::SemiSimple)?;
    if input.group_depth() > 0 {
        input.after_group(FIRST)?;
    }
    if input.group_depth() > 0 {
        input.after_group(SECOND)?;
    }
    let_b(input)?;
    Ok(told(input))
}

// The innermost group ends, if one is open. Whether its tokens are the two, the last first.
fn end_group(input: &mut Input) -> bool
    requires { input.old.call ≡ NotCalling }
    ensures { input.new.call ≡ NotCalling }
{
    let Some(_) = input.group_kind() else {
        return false;
    };
    if input.group_depth() == 0 {
        return false;
    }
    input.close_group();
    are_next(input)
}

// Whether the tokens that come behind the group are the two.
fn are_next(input: &mut Input) -> bool
    requires { input.old.ending ≡ None → ⊥ }
    ensures { input.new.call ≡ input.old.call }
{
    let Some(last) = input.next_after() else {
        return false;
    };
    let Some(first) = input.next_after() else {
        return false;
    };
    let end = input.next_after();
    last == SECOND && first == FIRST && end.is_none()
}

const OUTSIDE: Told = (Meaning::Undefined, 3, 0, None);

const INSIDE: Told = (
    Meaning::Macro {
        long: false,
        outer: false,
        list: (),
    },
    3,
    1,
    Some(GroupKind::SemiSimple),
);

// Whether `\b` shares the list of `\a` in the group alone, no word is taken, and the tokens come behind it.
fn gives_back(input: &mut Input) -> Result<bool, Full>
    requires { input.old.call ≡ NotCalling }
{
    define(input, A, LETTER)?;
    let before = told(input) == OUTSIDE;
    let inside = in_group(input)? == INSIDE;
    let tokens = end_group(input);
    Ok(before && inside && tokens && told(input) == OUTSIDE)
}

fn is_given_back(alloc: Global) -> bool {
    let Ok(mut input) = Input::new(alloc, &Sizes::DEFAULT, &[]) else {
        return false;
    };
    let given = gives_back(&mut input);
    input.close();
    match given {
        Ok(given) => given,
        Err(_) => false,
    }
}

#[test]
fn a_group_gives_back_what_held(rt: HostRuntime) {
    assert!(rt; is_given_back(rt.alloc()));
}

// `\count1=5`: whether it is 5 then, and `\count2` and the last integer parameter are what they were.
fn is_assigned(input: &mut Input) -> Result<bool, Full> {
    let kind = RegisterKind::Count;
    input.set_number(Loc::Register { kind, no: 1 }, 5, false)?;
    let assigned = input.value(Loc::Register { kind, no: 1 }) == Val::Number(5);
    let others = input.value(Loc::Register { kind, no: 2 }) == Val::Number(0)
        && input.value(Loc::Integer(54)) == Val::Number(0);
    Ok(assigned && others)
}

// `{\skip1=1pt plus 2fil }`: whether it is that within the group and nothing behind it.
fn is_glue_assigned(input: &mut Input) -> Result<bool, Full>
    requires { input.old.call ≡ NotCalling }
{
    let loc = Loc::Register {
        kind: RegisterKind::Skip,
        no: 1,
    };
    let glue = Glue {
        width: 65536,
        stretch: 131072,
        stretch_order: 1,
        shrink: 0,
        shrink_order: 0,
    };
    let none = input.value(loc);
    input.open_group(GroupKind::Simple)?;
    input.set_glue(loc, glue, false)?;
    let inside = input.value(loc) == Val::Skip(glue);
    input.close_group();
    Ok(inside && input.value(loc) == none)
}

fn is_read_back(alloc: Global) -> bool {
    let Ok(mut input) = Input::new(alloc, &Sizes::DEFAULT, &[]) else {
        return false;
    };
    let glue_assigned = is_glue_assigned(&mut input);
    let assigned = is_assigned(&mut input);
    input.close();
    matches!((glue_assigned, assigned), (Ok(true), Ok(true)))
}

#[test]
fn what_stands_at_a_location_is_read(rt: HostRuntime) {
    assert!(rt; is_read_back(rt.alloc()));
}

// A register of `\toks`.
fn register(no: u8) -> Loc
    ensures { result ≡ loc.Register Toks no }
{
    Loc::Register {
        kind: RegisterKind::Toks,
        no,
    }
}

// `\toks1={x}\toks2=\toks1 \the\toks1 \toks1={}`: the words that are used then.
fn listed(input: &mut Input) -> Result<u32, Full>
    ensures { input.new.making ≡ input.old.making }
{
    input.begin_list()?;
    input.grow_list(LETTER)?;
    input.set_list(register(1), false)?;
    input.share_list(register(2), register(1), false)?;
    input.put_list(register(1))?;
    input.set_no_list(register(1), false)?;
    Ok(input.words())
}

// The list of `\toks2` goes into one that is gathered, and from there, as capital letters, into one that is made: the words that are used then.
fn copied(input: &mut Input) -> Result<u32, Full>
    requires { input.old.making ≡ None }
{
    input.begin_list()?;
    input.copy_list(register(2))?;
    input.make_list()?;
    input.grow_changed(true)?;
    Ok(input.words())
}

// A list takes its words once, whoever has it, and each copy takes as many.
fn are_counted(alloc: Global) -> bool {
    let Ok(mut input) = Input::new(alloc, &Sizes::DEFAULT, &[]) else {
        return false;
    };
    let first = listed(&mut input);
    let second = copied(&mut input);
    input.close();
    matches!((first, second), (Ok(2), Ok(6)))
}

#[test]
fn a_list_that_is_shared_takes_no_word(rt: HostRuntime) {
    assert!(rt; are_counted(rt.alloc()));
}

// `\def\a{x}\def\b{x}`, and then `\def\b{1}`: whether the lists of the two are the same at first, and not then, nor that of `\a` and none.
fn are_same(input: &mut Input) -> Result<bool, Full>
    requires { input.old.call ≡ NotCalling }
{
    define(input, A, LETTER)?;
    define(input, B, LETTER)?;
    let first = input.seen(Token::Named(A));
    let same = input.same_list(first, input.seen(Token::Named(B)));
    define(input, B, FIRST)?;
    let other = input.same_list(first, input.seen(Token::Named(B)));
    let none = input.same_list(first, input.seen(LETTER));
    Ok(same && !other && !none)
}

fn are_compared(alloc: Global) -> bool {
    let Ok(mut input) = Input::new(alloc, &Sizes::DEFAULT, &[]) else {
        return false;
    };
    let same = are_same(&mut input);
    input.close();
    matches!(same, Ok(true))
}

#[test]
fn macros_are_compared(rt: HostRuntime) {
    assert!(rt; are_compared(rt.alloc()));
}
