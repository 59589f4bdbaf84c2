// What may be opened, what an open reading asks for, what goes onto its list, and what is read at a check.
use conditionals::Aim;
use equivalents::Loc;
use rows::{Call, Effect, Phrase, Value};
use tex_defs::{Name, Seen, Token};
use tex_syntax::{Report, Scanned, Want};

/// What may be opened: a reading that a command is or begins, `\csname`, `\input`, the token that waits behind one that is expanded, or text
/// that is skipped.
#[derive(Clone, Copy)]
pub enum Opening {
    Reads(Phrase),
    Spelling(Call),
    FileName(Call),
    /// The command is `\expandafter`.
    Behind(Call, Seen),
    /// The command is a conditional, which seeks this, and the number of the line where skipping begins.
    Skips(Call, Aim, u64),
}

/// What an open reading asks for. Where a list is spoken of, it is the one on top, if it is listed, and else the list of no token.
#[must_use]
#[derive(Clone, Copy)]
pub enum Ask {
    More(Want),
    /// An inner reading, and whether it begins with the last token.
    Inner(Phrase, bool),
    /// It is done, with this value, and whether the last token is put back.
    Done(Value, bool),
    /// The command does this, and ends.
    Acts(Call, Effect),
    /// The command does this with the list, and whether that is listed, and ends.
    ActsOn(Call, Effect, bool),
    /// The list becomes that of the macro of this name, and whether it is listed, and the command ends.
    Defines(Call, Name, bool),
    Ends,
    /// A report, and whether the last token is put back before it.
    Tells(Report, bool),
    /// A token that is inserted, the report behind it, and whether the last token is put back before.
    Inserts(Token, Report, bool),
    /// A token that is put back, and how many more are to follow.
    Puts(Token, u8),
    /// The name becomes `\relax`, by this command.
    Relaxes(Call, Name),
    /// That the magnification be checked.
    Magnifies,
    /// What stands at a location.
    Fetches(Loc),
}

/// The tokens that go onto the list on top, the first one first.
#[must_use]
#[derive(Clone, Copy)]
pub struct Grown {
    pub first: Option<Token>,
    pub second: Option<Token>,
}

/// What is read where a file ends or the name of an `\outer` macro comes.
#[derive(Clone, Copy)]
pub enum Found {
    /// This, under its name, with the number of its list among those that are held, the innermost being number 0.
    Builds(Scanned, Name, u32),
    /// Text is skipped, and the number of the line where that began.
    SkippedText(u64),
}

impl Grown {
    ghost use Rattle.std.specs.Prelude.{◌≡◌, None, Some};

    /// The list stays as it is.
    pub fn none() -> Grown
        ensures { result ≡ record { first = None; second = None } }
    {
        Grown {
            first: None,
            second: None,
        }
    }

    /// It gets this token.
    pub fn one(token: Token) -> Grown
        ensures { result ≡ record { first = Some token; second = None } }
    {
        Grown {
            first: Some(token),
            second: None,
        }
    }
}
