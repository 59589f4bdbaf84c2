// The stages of the rows, and what a stage makes of what it reads.
use crate::command::{Call, Prefix};
use crate::internal::Bank;
use crate::words::{Datum, Keyword, Phrase};
use tex_defs::{Name, Token};
use tex_syntax::{Report, Want};

/// How a number that is out of its range is reported.
#[derive(Clone, Copy)]
pub enum Complaint {
    BadCharacterCode,
    BadRegisterCode,
    BadMathchar,
    InvalidCode,
}

/// A stage of a row: what a command reads next. The words are those of *The TeXbook*, chapter 24.
#[derive(Clone, Copy)]
pub enum Stage {
    /// A number.
    Number,
    /// A number from 0 to this one; another is reported so, and 0 taken.
    NumberTo(u32, Complaint),
    /// A number that is at most this one; a greater one is reported, and 0 taken.
    NumberUpTo(u32),
    /// A dimension.
    Dimension,
    /// Glue, and whether it is in mu.
    Glue(bool),
    /// What is added to a variable: a number, a dimension or glue, as the variable is.
    Amount,
    /// An optional `=`.
    Equals,
    /// The name that is assigned.
    ControlSequence,
    /// The name that a shorthand definition defines: it means `\relax` from here.
    NewName,
    /// A register or a parameter that arithmetic changes.
    Variable,
    /// What stands for a number, a dimension, glue or a list of tokens.
    InternalValue,
    /// A list of tokens: a register or a parameter that is one, or a balanced text.
    TokenList,
    /// An optional keyword.
    Keyword(Keyword),
    /// The optional `=` of `\let`, behind spaces.
    LetEquals,
    /// One optional space.
    Space,
    /// A token as it stands.
    AnyToken,
    /// A token as it stands, whose name isn't entered.
    UnenteredToken,
    /// A token, by expansion.
    ExpandedToken,
    /// The first token that is no space, by expansion.
    NonblankToken,
    /// A relation: `<`, `=` or `>`; where it is missing, that is reported, and `=` taken.
    Relation,
    /// A balanced text, and whether it is expanded.
    Text(bool),
    /// The list of a macro, and whether its body is expanded.
    MacroText(bool),
    /// Further prefixes behind this one, and the assignment behind them.
    Prefixes(Prefix),
}

/// What a stage asks for at first.
#[derive(Clone, Copy)]
pub enum Start {
    /// It looks at tokens, which are read so.
    Looks(Want),
    /// It is an inner reading.
    Begins(Phrase),
}

/// What comes behind a note.
#[derive(Clone, Copy)]
pub enum Next {
    /// The stage has read this.
    Takes(Datum),
    /// The command is over.
    Stops,
    /// The command, an assignment, is over, and has assigned nothing.
    Unassigned(Call),
    /// It goes on as this command, from the beginning.
    Becomes(Call),
}

/// What is reported or done in the middle of a row, and then noted (`Noted`); the token that was met may be given back before a report.
#[derive(Clone, Copy)]
pub enum Note {
    Tells(Report, bool),
    /// This token is inserted before the report.
    Inserts(Token, Report, bool),
    /// The name becomes `\relax`.
    Relaxes(Call, Name),
}

/// What a stage makes of a token.
#[derive(Clone, Copy)]
pub enum Met {
    /// It has read this.
    Takes(Datum),
    /// It is over, and has read nothing that is kept.
    Passes,
    /// It is over, and the next stage begins with the token.
    Leaves,
    /// It goes on as before, in this call.
    Skips(Call),
    /// The note comes, and then this.
    Notes(Note, Next),
    /// The note comes, and the stage is read again.
    Retries(Note),
    /// The number of a register or of a character comes, whose location is what it reads.
    Numbers(Bank),
    /// An inner reading begins with the token.
    Begins(Phrase),
    /// The command goes on as this one, from the beginning.
    Becomes(Call),
}

/// What a stage makes of the value of an inner reading.
#[derive(Clone, Copy)]
pub enum Got {
    /// It has read this.
    Takes(Datum),
    /// The report comes, and then this.
    Tells(Report, Next),
    /// The value's list is the last thing that the command reads.
    Gathers,
    /// The value's list becomes that of the macro whose name was read.
    Defines,
}
