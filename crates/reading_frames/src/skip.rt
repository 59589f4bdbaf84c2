// Text that a conditional skips. *The TeXbook*, chapter 20; *TeX: The Program*, part 28 (`pass_text`).
ghost use Rattle.std.specs.Prelude.{◌≡◌, List, [], ◌∷◌};
ghost use Rattle.tex_defs.specs.declared.Token.{Token};
ghost use Rattle.rows.specs.declared.words.Value.{Value};
ghost use Rattle.equivalents.specs.Locations.{SeenValue};
ghost use Rattle.rows.specs.Readings.{Fed, Tok, Noted, Val, Fetched};
ghost use Rattle.plain_readings.specs.Skips.{skipping};
ghost use Rattle.reading_frames.specs.Views.{skip_ask};
ghost use Rattle.reading_frames.specs.Resumes.{resume_skip};

use conditionals::{Aim, Ender, Skip};
use rows::Call;
use tex_defs::Seen;

/// Where the reading of skipped text stands.
#[derive(Clone, Copy)]
pub enum SkipPlace {
    /// Behind the tokens so far.
    Inside(Skip),
    /// Behind the `\fi`, the `\else` or the `\or` that ends the text.
    Whole(Ender),
    /// At its end without one.
    Stopped,
}

/// The reading of text that a conditional skips, which seeks this, and the number of the line where skipping began.
#[derive(Clone, Copy)]
pub struct SkipScan {
    pub call: Call,
    pub aim: Aim,
    pub line: u64,
    pub place: SkipPlace,
}

/// What skipped text asks for.
#[must_use]
#[derive(Clone, Copy)]
pub enum SkipAsk {
    /// A token, of which no name is entered.
    More,
    /// That what it seeks be reached with the `\fi`, the `\else` or the `\or` that came; it ends.
    Reaches(Ender),
    Ends,
}

impl SkipScan {
    /// The reading begins.
    pub fn new(call: Call, aim: Aim, line: u64) -> SkipScan
        ensures asks { (fed : List Fed) → skipping call aim 0 fed ≡ resume_skip result fed }
        ensures line { result.line ≡ line }
    {
        SkipScan {
            call,
            aim,
            line,
            place: SkipPlace::Inside(Skip::new()),
        }
    }

    /// What it asks for where it stands.
    pub fn ask(&self) -> SkipAsk
        ensures { skip_ask self.now.call self.now.aim result ≡ resume_skip self.now [] }
    {
        match self.place {
            SkipPlace::Inside(_) => SkipAsk::More,
            SkipPlace::Whole(ender) => SkipAsk::Reaches(ender),
            SkipPlace::Stopped => SkipAsk::Ends,
        }
    }

    /// Takes a token.
    pub fn feed(&mut self, x: Seen)
        ensures asks { (fed : List Fed) → resume_skip self.old (Tok x ∷ fed) ≡ resume_skip self.new fed }
        ensures line { self.new.line ≡ self.old.line }
    {
        match self.place {
            SkipPlace::Inside(mut skip) => {
                self.place = match skip.feed(x) {
                    Some(ender) => SkipPlace::Whole(ender),
                    None => SkipPlace::Inside(skip),
                };
            }
            SkipPlace::Whole(_) | SkipPlace::Stopped => {}
        }
    }

    /// A note, a value or what stands at a location came, for which it never asks.
    pub fn stop(&mut self)
        ensures noted { (fed : List Fed) → resume_skip self.old (Noted ∷ fed) ≡ resume_skip self.new fed }
        ensures asks { (v : Value) (ts : List Token) (fed : List Fed) → resume_skip self.old (Val v ts ∷ fed) ≡ resume_skip self.new fed }
        ensures fetched { (v : SeenValue) (fed : List Fed) → resume_skip self.old (Fetched v ∷ fed) ≡ resume_skip self.new fed }
        ensures line { self.new.line ≡ self.old.line }
    {
        match self.place {
            SkipPlace::Inside(_) => self.place = SkipPlace::Stopped,
            SkipPlace::Whole(_) | SkipPlace::Stopped => {}
        }
    }
}
