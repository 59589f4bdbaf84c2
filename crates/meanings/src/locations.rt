// Where the meaning of each name is kept.
ghost use Rattle.std.specs.Prelude.{◌≡◌};
ghost use Rattle.plain_tokens.specs.Meanings.{location, fixed_meaning, frozen_meaning, seen_as};

use tex_defs::{Frozen, Meaning, Name};

/// How many locations stand before those of the names of two or more characters.
pub const FIXED: usize = 514;

// The location of a name, if it has one.
pub fn location(name: Name) -> Option<usize>
    ensures { result ≡ location name }
{
    match name {
        Name::Active(c) => Some(c as usize),
        Name::Single(c) => Some(256 + c as usize),
        Name::Empty => Some(512),
        Name::Frozen(Frozen::Inaccessible) => Some(513),
        Name::Frozen(_) => None,
        Name::Word(0) => None,
        Name::Word(n) => Some(FIXED - 1 + n as usize),
    }
}

// What a frozen name means that has no location.
fn frozen(name: Frozen) -> Meaning<()>
    ensures { result ≡ seen_as (frozen_meaning name) }
{
    match name {
        Frozen::Relax => Meaning::Prim(1),
        Frozen::Fi => Meaning::Prim(82),
        Frozen::EndGroup => Meaning::Prim(3),
        Frozen::EndWrite => Meaning::Macro {
            long: false,
            outer: true,
            list: (),
        },
        Frozen::Inaccessible => Meaning::Undefined,
        Frozen::Unknown => Meaning::Undefined,
    }
}

// What a name means that has no location.
pub fn fixed(name: Name) -> Meaning<()>
    ensures { result ≡ seen_as (fixed_meaning name) }
{
    match name {
        Name::Frozen(name) => frozen(name),
        _ => Meaning::Undefined,
    }
}
