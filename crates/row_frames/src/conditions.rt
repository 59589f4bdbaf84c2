// What a conditional's test comes to. *The TeXbook*, chapter 20; *TeX: The Program*, part 28 (`conditional`).
ghost use Rattle.std.specs.Prelude.{◌≡◌};
ghost use Rattle.rows.specs.Tests as tests;
ghost use Rattle.row_frames.specs.Data.{values};

use crate::data::{Data, token};
use conditionals::Value;
use rows::{Character, Datum, Effect, Relation, Test, number_in};
use tex_defs::{Meaning, Name, Seen, Token};

/// The category of active characters.
const ACTIVE: u8 = 13;

/// What is no character has a code that none has.
const NO_CHARACTER: Character = Character {
    category: 0,
    code: 256,
};

/// An active character that `\noexpand` kept from being expanded is itself.
fn kept_character(token: Token) -> Character
    ensures { result ≡ tests.kept_character token }
{
    match token {
        Token::Named(Name::Active(code)) => Character {
            category: ACTIVE,
            code: u16::from(code),
        },
        _ => NO_CHARACTER,
    }
}

/// A token as the character that it is or stands for.
fn character_seen(x: Seen) -> Character
    ensures { result ≡ tests.character_seen x }
{
    match x.meaning {
        Meaning::Char { cat, code } => Character {
            category: cat,
            code: u16::from(code),
        },
        Meaning::RelaxMarked => kept_character(x.token),
        _ => NO_CHARACTER,
    }
}

/// A relation that was read.
fn relation_in(datum: Datum) -> Relation
    ensures { result ≡ tests.relation_in datum }
{
    match datum {
        Datum::Relation(relation) => relation,
        _ => Relation::Equal,
    }
}

/// Whether the numbers have this relation.
fn holds(relation: Relation, m: i32, n: i32) -> bool
    ensures { result ≡ tests.holds relation m n }
{
    match relation {
        Relation::Less => m < n,
        Relation::Equal => m == n,
        Relation::Greater => m > n,
    }
}

/// Whether it is odd, by its absolute value.
fn is_odd(n: i32) -> bool
    ensures { result ≡ tests.is_odd n }
{
    n.unsigned_abs() % 2 == 1
}

/// What a test comes to with what was read.
pub fn tested(test: Test, read: &Data) -> Effect
    ensures { result ≡ tests.tested test (values read.now) }
{
    let first = read.first();
    let second = read.second();
    match test {
        Test::Codes => {
            let a = character_seen(token(first));
            let b = character_seen(token(second));
            Effect::Choose(Value::Truth(a.code == b.code))
        }
        Test::Categories => {
            let a = character_seen(token(first));
            let b = character_seen(token(second));
            Effect::Choose(Value::Truth(a.category == b.category))
        }
        Test::Relation => {
            let third = read.third();
            let is_so = holds(relation_in(second), number_in(first), number_in(third));
            Effect::Choose(Value::Truth(is_so))
        }
        Test::Odd => Effect::Choose(Value::Truth(is_odd(number_in(first)))),
        Test::Meanings => Effect::Compare(token(first), token(second)),
        Test::Case => Effect::Choose(Value::Case(number_in(first))),
        Test::Always(value) => Effect::Choose(Value::Truth(value)),
    }
}
