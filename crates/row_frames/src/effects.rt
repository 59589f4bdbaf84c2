// What a command does with what it has read.
ghost use Rattle.std.specs.Prelude.{◌≡◌};
ghost use Rattle.rows.specs.Effects as effects;
ghost use Rattle.rows.specs.Table as table;
ghost use Rattle.row_frames.specs.Data.{values};

use crate::conditions::tested;
use crate::data::{Data, location, name, token};
use equivalents::Loc;
use rows::{
    Action, Call, Datum, Effect, Head, Shorthand, Test, byte_of, glue_in, is_glue, is_list,
    number_in, row_of,
};

/// A mathematical character's code; another number counts as 0.
fn math_code_of(n: i32) -> u16
    ensures { result ≡ effects.math_code_of n }
{
    if 0 <= n && n <= 32767 { n as u16 } else { 0 }
}

/// A number that stands for itself, or what stands at a location: a list of tokens as it is, another value as its text.
fn value_made(datum: Datum) -> Effect
    ensures { result ≡ effects.value_made datum }
{
    match datum {
        Datum::At(loc) => {
            if is_list(loc) {
                Effect::PutList(loc)
            } else {
                Effect::MakeValue(loc)
            }
        }
        _ => Effect::MakeNumber(number_in(datum)),
    }
}

/// The same, which is shown.
fn shows_datum(datum: Datum) -> Effect
    ensures { result ≡ effects.shows_datum datum }
{
    match datum {
        Datum::At(loc) => Effect::ShowValue(loc),
        _ => Effect::ShowNumber(number_in(datum)),
    }
}

/// A location gets the list of another one, or the list that was read last.
fn list_to(loc: Loc, datum: Datum) -> Effect
    ensures { result ≡ effects.list_to loc datum }
{
    match datum {
        Datum::At(from) => Effect::ShareList(loc, from),
        _ => Effect::SetList(loc),
    }
}

/// A location gets what was read, as a list, as glue or as a number, as what stands there is.
fn set_to(loc: Loc, datum: Datum) -> Effect
    ensures { result ≡ effects.set_to loc datum }
{
    if is_list(loc) {
        list_to(loc, datum)
    } else if is_glue(loc) {
        Effect::SetGlue(loc, glue_in(datum))
    } else {
        Effect::SetNumber(loc, number_in(datum))
    }
}

/// What an action comes to with what was read.
fn comes_to(action: Action, read: &Data) -> Effect
    ensures { result ≡ effects.comes_to action (values read.now) }
{
    let first = read.first();
    let second = read.second();
    match action {
        Action::Nothing => Effect::Nothing,
        Action::Obey => Effect::Obey(token(first)),
        Action::Message => Effect::Message,
        Action::ErrorMessage => Effect::ErrorMessage,
        Action::Show => Effect::Show(token(first)),
        Action::ShowValue => shows_datum(first),
        Action::ChangeCase(upper) => Effect::ChangeCase(upper),
        Action::Define => Effect::Nothing,
        Action::DefineGlobally => Effect::Nothing,
        Action::Let => Effect::Let(name(first), token(second)),
        Action::FutureLet => Effect::FutureLet(name(first), token(second), token(read.third())),
        Action::SetCode(kind) => {
            let code = byte_of(number_in(first));
            Effect::SetNumber(Loc::Code { kind, code }, number_in(second))
        }
        Action::SetAt(loc) => set_to(loc, first),
        Action::SetRegister(kind) => {
            let no = byte_of(number_in(first));
            set_to(Loc::Register { kind, no }, second)
        }
        Action::Compute(operation) => Effect::Compute(operation, location(first), read.third()),
        Action::GiveCharacter => {
            let code = byte_of(number_in(second));
            Effect::Shorthand(name(first), Shorthand::Character(code))
        }
        Action::GiveMath => {
            let code = math_code_of(number_in(second));
            Effect::Shorthand(name(first), Shorthand::Math(code))
        }
        Action::GiveRegister(kind) => {
            let no = byte_of(number_in(second));
            Effect::Shorthand(name(first), Shorthand::Register { kind, no })
        }
        Action::AfterGroup => Effect::AfterGroup(token(first)),
        Action::AfterAssignment => Effect::AfterAssignment(token(first)),
        Action::ExpandBehind => Effect::ExpandBehind(token(first), token(second)),
        Action::PutMarked => Effect::PutMarked(token(first)),
        Action::MakeNumber => Effect::MakeNumber(number_in(first)),
        Action::MakeRoman => Effect::MakeRoman(number_in(first)),
        Action::MakeString => Effect::MakeString(token(first)),
        Action::MakeMeaning => Effect::MakeMeaning(token(first)),
        Action::MakeValue => value_made(first),
        Action::Test(test) => tested(test, read),
    }
}

/// What a command does.
pub fn command_effect(call: Call, read: &Data) -> Effect
    ensures { result ≡ effects.command_effect call (values read.now) }
{
    comes_to(row_of(call.head).1, read)
}

/// The definition that makes a macro: some are global by themselves.
pub fn as_definition(call: Call) -> Call
    ensures { result ≡ effects.as_definition call }
{
    let is_global = match row_of(call.head).1 {
        Action::DefineGlobally => true,
        _ => false,
    };
    Call {
        global: call.global || is_global,
        ..call
    }
}

/// Whether an action reads its tokens under normal status, whatever is read around it.
fn is_unguarded(action: Action) -> bool
    ensures { result ≡ table.is_unguarded action }
{
    match action {
        Action::PutMarked | Action::MakeString | Action::MakeMeaning => true,
        Action::Test(Test::Meanings) => true,
        _ => false,
    }
}

/// Whether the tokens of a command are read so.
pub fn reads_under_normal(head: Head) -> bool
    ensures { result ≡ table.reads_under_normal head }
{
    is_unguarded(row_of(head).1)
}
