// What an integer, the integer before a fraction, a keyword, a dimension and glue ask for.
use equivalents::{Glue, Loc};
use rows::{DimenKind, Keyword};
use tex_defs::Token;
use tex_syntax::{Report, Want};

/// What an integer asks for.
#[must_use]
#[derive(Clone, Copy)]
pub enum NumberAsk {
    More(Want),
    /// Another integer, the number of a register or of a character.
    Begins,
    /// What stands at a location.
    Fetches(Loc),
    /// A report, and whether the last token is put back before it.
    Tells(Report, bool),
    /// It is done, with this value, and whether the last token is put back.
    Done(i32, bool),
}

/// What the integer before a fraction asks for.
#[must_use]
#[derive(Clone, Copy)]
pub enum FactorAsk {
    More(Want),
    /// Another integer, the number of a register or of a character.
    Begins,
    /// What stands at a location.
    Fetches(Loc),
    /// A report, and whether the last token is put back before it.
    Tells(Report, bool),
    /// It is done, with this value, whether a point stands directly behind its decimal digits, and whether the last token is put back.
    Done(i32, bool, bool),
}

/// What a keyword asks for.
#[must_use]
#[derive(Clone, Copy)]
pub enum KeywordAsk {
    More(Want),
    /// That this token be put back, and how many more are to follow.
    Puts(Token, u8),
    /// It is done, and whether the keyword was there.
    Done(bool),
}

/// What is read within a dimension.
#[derive(Clone, Copy)]
pub enum DimenInner {
    /// The integer before a fraction, and whether a point stands directly behind its decimal digits.
    Factor,
    /// The number of a register or of a character.
    Number,
    Key(Keyword),
}

/// What a dimension asks for.
#[must_use]
#[derive(Clone, Copy)]
pub enum DimenAsk {
    More(Want),
    /// Something within, and whether it begins with the last token.
    Begins(DimenInner, bool),
    /// What stands at a location.
    Fetches(Loc),
    /// That the magnification be checked.
    Magnifies,
    /// A report, and whether the last token is given back before it.
    Tells(Report, bool),
    /// It is done, with this value in sp or in units of this order of infinity, and whether the last token is given back.
    Done(i32, u8, bool),
}

/// What is read within glue.
#[derive(Clone, Copy)]
pub enum GlueInner {
    /// The width, the stretch or the shrink.
    Dimension(DimenKind),
    /// The number of a register.
    Number,
    Key(Keyword),
}

/// What glue asks for. No token is given back, but by what is read within.
#[must_use]
#[derive(Clone, Copy)]
pub enum GlueAsk {
    More(Want),
    /// Something within, and whether it begins with the last token.
    Begins(GlueInner, bool),
    /// What stands at a location.
    Fetches(Loc),
    Tells(Report),
    /// It is done, with this glue.
    Done(Glue),
}
