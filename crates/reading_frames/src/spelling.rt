// `\csname`: the characters of a name. *The TeXbook*, chapter 7.
ghost use Rattle.std.specs.Prelude.{◌≡◌, List, [], ◌∷◌};
ghost use Rattle.tex_defs.specs.declared.Token.{Token};
ghost use Rattle.rows.specs.declared.words.Value.{Value};
ghost use Rattle.equivalents.specs.Locations.{SeenValue};
ghost use Rattle.rows.specs.Readings.{Fed, Tok, Noted, Val, Fetched};
ghost use Rattle.rows.specs.Tokens as tokens;
ghost use Rattle.plain_readings.specs.Spelling as names;
ghost use Rattle.plain_readings.specs.Spelling.{spelling, characters};
ghost use Rattle.reading_frames.specs.Views.{grown, spell_ask};
ghost use Rattle.reading_frames.specs.Resumes.{resume_name, name_list};

use crate::ask::Grown;
use rows::Call;
use tex_defs::{Meaning, Seen, Token};

/// `\endcsname`.
const END_NAME: u16 = 4;

/// Where `\csname` stands.
#[derive(Clone, Copy)]
pub enum SpellPlace {
    /// Behind the characters so far.
    Inside,
    /// Before the report that `\endcsname` is missing.
    NoEnd,
    /// Behind all characters.
    Whole,
    /// At its end without a name.
    Stopped,
}

/// The reading of `\csname`, as it was written; its characters are the list on top.
#[derive(Clone, Copy)]
pub struct SpellScan {
    pub call: Call,
    pub place: SpellPlace,
}

/// What `\csname` asks for.
#[must_use]
#[derive(Clone, Copy)]
pub enum SpellAsk {
    /// A token, by expansion.
    More,
    /// The report that `\endcsname` is missing, before which the last token is put back.
    NoEnd,
    /// That the name of its characters be made; it ends.
    Makes,
    Ends,
}

/// Whether it is a character.
fn is_character(token: Token) -> bool
    ensures { result ≡ tokens.is_character token }
{
    match token {
        Token::Char { .. } => true,
        _ => false,
    }
}

/// Whether it means `\endcsname`.
fn is_end_name(x: Seen) -> bool
    ensures { result ≡ names.is_endcsname x }
{
    match x.meaning {
        Meaning::Prim(number) => number == END_NAME,
        _ => false,
    }
}

impl SpellScan {
    /// The reading begins, with a list of no character.
    pub fn new(call: Call) -> SpellScan
        ensures asks { (fed : List Fed) → spelling call [] fed ≡ resume_name result [] fed }
        ensures builds { (fed : List Fed) → characters fed ≡ name_list result [] fed }
    {
        SpellScan {
            call,
            place: SpellPlace::Inside,
        }
    }

    /// What it asks for where it stands.
    pub fn ask(&self) -> SpellAsk
        ensures { (list : List Token) → spell_ask self.now.call list result ≡ resume_name self.now list [] }
    {
        match self.place {
            SpellPlace::Inside => SpellAsk::More,
            SpellPlace::NoEnd => SpellAsk::NoEnd,
            SpellPlace::Whole => SpellAsk::Makes,
            SpellPlace::Stopped => SpellAsk::Ends,
        }
    }

    /// Takes a token.
    #[tactic(auto, using(crate::proofs::Growing::append_one, crate::proofs::Growing::append_nil))]
    pub fn feed(&mut self, x: Seen) -> Grown
        ensures asks { (list : List Token) (fed : List Fed) → resume_name self.old list (Tok x ∷ fed) ≡ resume_name self.new (grown result list) fed }
        ensures builds { (list : List Token) (fed : List Fed) → name_list self.old list (Tok x ∷ fed) ≡ name_list self.new (grown result list) fed }
    {
        match self.place {
            SpellPlace::Inside => {
                if is_character(x.token) {
                    return Grown::one(x.token);
                }
                self.place = if is_end_name(x) {
                    SpellPlace::Whole
                } else {
                    SpellPlace::NoEnd
                };
            }
            SpellPlace::NoEnd => self.place = SpellPlace::Stopped,
            SpellPlace::Whole | SpellPlace::Stopped => {}
        }
        Grown::none()
    }

    /// Goes on behind its report.
    #[tactic(auto, using(crate::proofs::Growing::append_nil))]
    pub fn noted(&mut self)
        ensures asks { (list : List Token) (fed : List Fed) → resume_name self.old list (Noted ∷ fed) ≡ resume_name self.new list fed }
        ensures builds { (list : List Token) (fed : List Fed) → name_list self.old list (Noted ∷ fed) ≡ name_list self.new list fed }
    {
        match self.place {
            SpellPlace::Inside => self.place = SpellPlace::Stopped,
            SpellPlace::NoEnd => self.place = SpellPlace::Whole,
            SpellPlace::Whole | SpellPlace::Stopped => {}
        }
    }

    /// A value came, or what stands at a location, for which it never asks.
    #[tactic(auto, using(crate::proofs::Growing::append_nil))]
    pub fn stop(&mut self)
        ensures asks { (v : Value) (ts list : List Token) (fed : List Fed) → resume_name self.old list (Val v ts ∷ fed) ≡ resume_name self.new list fed }
        ensures builds { (v : Value) (ts list : List Token) (fed : List Fed) → name_list self.old list (Val v ts ∷ fed) ≡ name_list self.new list fed }
        ensures fetched { (v : SeenValue) (list : List Token) (fed : List Fed) → resume_name self.old list (Fetched v ∷ fed) ≡ resume_name self.new list fed }
        ensures fetched_builds { (v : SeenValue) (list : List Token) (fed : List Fed) → name_list self.old list (Fetched v ∷ fed) ≡ name_list self.new list fed }
    {
        match self.place {
            SpellPlace::Inside | SpellPlace::NoEnd => self.place = SpellPlace::Stopped,
            SpellPlace::Whole | SpellPlace::Stopped => {}
        }
    }
}
