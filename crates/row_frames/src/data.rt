// What a command has read.
ghost use Rattle.std.specs.Prelude.{◌≡◌, ◌<◌, ◌++◌, [], ◌∷◌, length};
ghost use Rattle.rows.specs.Stages.{datum_at, name_in, token_in, location_read};
ghost use Rattle.row_frames.specs.Data.{values};

use equivalents::Loc;
use rows::Datum;
use tex_defs::{Meaning, Name, Seen, Token};

/// What has been read, in the order in which it was read: four at most.
#[derive(Clone, Copy)]
pub enum Data {
    Zero,
    One(Datum),
    Two(Datum, Datum),
    Three(Datum, Datum, Datum),
    Four(Datum, Datum, Datum, Datum),
}

impl Data {
    /// One more has been read.
    pub fn push(&mut self, datum: Datum)
        requires { length (values self.old) < 4 }
        ensures { values self.new ≡ values self.old ++ datum ∷ [] }
    {
        *self = match *self {
            Data::Zero => Data::One(datum),
            Data::One(a) => Data::Two(a, datum),
            Data::Two(a, b) => Data::Three(a, b, datum),
            Data::Three(a, b, c) => Data::Four(a, b, c, datum),
            Data::Four(..) => unreachable!(),
        };
    }

    /// The first.
    pub fn first(&self) -> Datum
        ensures { result ≡ datum_at 0 (values self.now) }
    {
        match *self {
            Data::Zero => Datum::Number(0),
            Data::One(a) => a,
            Data::Two(a, _) => a,
            Data::Three(a, _, _) => a,
            Data::Four(a, _, _, _) => a,
        }
    }

    /// The second.
    pub fn second(&self) -> Datum
        ensures { result ≡ datum_at 1 (values self.now) }
    {
        match *self {
            Data::Zero => Datum::Number(0),
            Data::One(_) => Datum::Number(0),
            Data::Two(_, b) => b,
            Data::Three(_, b, _) => b,
            Data::Four(_, b, _, _) => b,
        }
    }

    /// The third.
    pub fn third(&self) -> Datum
        ensures { result ≡ datum_at 2 (values self.now) }
    {
        match *self {
            Data::Zero => Datum::Number(0),
            Data::One(_) => Datum::Number(0),
            Data::Two(_, _) => Datum::Number(0),
            Data::Three(_, _, c) => c,
            Data::Four(_, _, c, _) => c,
        }
    }
}

/// A name that was read.
pub fn name(datum: Datum) -> Name
    ensures { result ≡ name_in datum }
{
    match datum {
        Datum::Named(name) => name,
        _ => Name::Empty,
    }
}

/// A location that was read.
pub fn location(datum: Datum) -> Loc
    ensures { result ≡ location_read datum }
{
    match datum {
        Datum::At(loc) => loc,
        _ => Loc::Integer(0),
    }
}

/// A token that was read.
pub fn token(datum: Datum) -> Seen
    ensures { result ≡ token_in datum }
{
    match datum {
        Datum::Taken(x) => x,
        _ => Seen {
            token: Token::Named(Name::Empty),
            meaning: Meaning::Undefined,
        },
    }
}
