// `\input`: the name of a file. *The TeXbook*, chapter 20.
ghost use Rattle.std.specs.Prelude.{◌≡◌, List, [], ◌∷◌};
ghost use Rattle.tex_defs.specs.declared.Token.{Token};
ghost use Rattle.tex_syntax.specs.declared.words.Want.TheVariants.{Nonblank};
ghost use Rattle.rows.specs.declared.words.Value.{Value};
ghost use Rattle.equivalents.specs.Locations.{SeenValue};
ghost use Rattle.rows.specs.Readings.{Fed, Tok, Noted, Val, Fetched};
ghost use Rattle.plain_readings.specs.FileNames as names;
ghost use Rattle.plain_readings.specs.FileNames.{file_naming, file_characters};
ghost use Rattle.reading_frames.specs.Views.{file_ask, grown};
ghost use Rattle.reading_frames.specs.Resumes.{resume_file, file_list};

use crate::ask::Grown;
use rows::Call;
use tex_defs::{Meaning, Seen, Token};
use tex_syntax::Want;

/// The category of other characters, the greatest of those that a name may have.
const OTHER: u8 = 12;

/// Where `\input` stands.
#[derive(Clone, Copy)]
pub enum FilePlace {
    /// Before the name's first token.
    Before,
    /// Behind the characters so far.
    Inside,
    /// Behind the name, and whether the token that ended it is to go back.
    Whole(bool),
    /// At its end without a name.
    Stopped,
}

/// The reading of `\input`, as it was written; the characters of the name are the list on top.
#[derive(Clone, Copy)]
pub struct FileScan {
    pub call: Call,
    pub place: FilePlace,
}

/// What `\input` asks for.
#[must_use]
#[derive(Clone, Copy)]
pub enum FileAsk {
    More(Want),
    /// That the file of its name be opened, and whether the last token is put back; it ends.
    Opens(bool),
    Ends,
}

/// The character that is meant, if it may stand in a name.
fn character_meant(meaning: Meaning<()>) -> Option<Token>
    ensures { result ≡ names.character_meant meaning }
{
    match meaning {
        Meaning::Char { cat, code } => {
            if cat <= OTHER {
                Some(Token::Char { cat, code })
            } else {
                None
            }
        }
        _ => None,
    }
}

/// Whether it is a character of code 32.
fn is_blank(token: Token) -> bool
    ensures { result ≡ names.is_blank token }
{
    match token {
        Token::Char { cat: _, code } => code == 32,
        _ => false,
    }
}

impl FileScan {
    /// The reading begins, with a list of no character.
    pub fn new(call: Call) -> FileScan
        ensures asks { (fed : List Fed) → file_naming call Nonblank [] fed ≡ resume_file result [] fed }
        ensures builds { (fed : List Fed) → file_characters fed ≡ file_list result [] fed }
    {
        FileScan {
            call,
            place: FilePlace::Before,
        }
    }

    /// What it asks for where it stands.
    pub fn ask(&self) -> FileAsk
        ensures { (list : List Token) → file_ask self.now.call list result ≡ resume_file self.now list [] }
    {
        match self.place {
            FilePlace::Before => FileAsk::More(Want::Nonblank),
            FilePlace::Inside => FileAsk::More(Want::Expanded),
            FilePlace::Whole(back) => FileAsk::Opens(back),
            FilePlace::Stopped => FileAsk::Ends,
        }
    }

    /// Takes a token; a character goes onto the list as what it means.
    #[tactic(auto, using(crate::proofs::Growing::append_one, crate::proofs::Growing::append_nil))]
    pub fn feed(&mut self, x: Seen) -> Grown
        ensures asks { (list : List Token) (fed : List Fed) → resume_file self.old list (Tok x ∷ fed) ≡ resume_file self.new (grown result list) fed }
        ensures builds { (list : List Token) (fed : List Fed) → file_list self.old list (Tok x ∷ fed) ≡ file_list self.new (grown result list) fed }
    {
        match self.place {
            FilePlace::Before | FilePlace::Inside => match character_meant(x.meaning) {
                None => self.place = FilePlace::Whole(true),
                Some(character) => {
                    if !is_blank(character) {
                        self.place = FilePlace::Inside;
                        return Grown::one(character);
                    }
                    self.place = FilePlace::Whole(false);
                }
            },
            FilePlace::Whole(_) | FilePlace::Stopped => {}
        }
        Grown::none()
    }

    /// A note, a value or what stands at a location came, for which it never asks.
    #[tactic(auto, using(crate::proofs::Growing::append_nil))]
    pub fn stop(&mut self)
        ensures noted { (list : List Token) (fed : List Fed) → resume_file self.old list (Noted ∷ fed) ≡ resume_file self.new list fed }
        ensures noted_builds { (list : List Token) (fed : List Fed) → file_list self.old list (Noted ∷ fed) ≡ file_list self.new list fed }
        ensures asks { (v : Value) (ts list : List Token) (fed : List Fed) → resume_file self.old list (Val v ts ∷ fed) ≡ resume_file self.new list fed }
        ensures builds { (v : Value) (ts list : List Token) (fed : List Fed) → file_list self.old list (Val v ts ∷ fed) ≡ file_list self.new list fed }
        ensures fetched { (v : SeenValue) (list : List Token) (fed : List Fed) → resume_file self.old list (Fetched v ∷ fed) ≡ resume_file self.new list fed }
        ensures fetched_builds { (v : SeenValue) (list : List Token) (fed : List Fed) → file_list self.old list (Fetched v ∷ fed) ≡ file_list self.new list fed }
    {
        match self.place {
            FilePlace::Before | FilePlace::Inside => self.place = FilePlace::Stopped,
            FilePlace::Whole(_) | FilePlace::Stopped => {}
        }
    }
}
