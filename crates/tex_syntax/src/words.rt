// How tokens are read, what is reported, how a run ends.
use tex_defs::{Fatal, Meaning, Name};

/// How the next token is read. *TeX: The Program*, parts 24 to 26 (`get_token`, `get_x_token`, `get_next_nonblank_noncall`).
#[derive(Clone, Copy, PartialEq, Eq)]
pub enum Want {
    /// As it stands.
    Raw,
    /// As it stands; a name that is new isn't entered.
    Unentered,
    /// By expansion.
    Expanded,
    /// By expansion; the tokens of a token list behind `\the` come as they are.
    Copied,
    /// By expansion, with spaces skipped.
    Nonblank,
    /// By expansion, with spaces and `\relax` skipped.
    Command,
}

/// How a macro's list is read: the name that is defined, and whether the body is expanded.
#[derive(Clone, Copy)]
pub struct Manner {
    pub name: Name,
    pub expanded: bool,
}

/// What is being read where a file ends or the name of an `\outer` macro comes.
/// *TeX: The Program*, part 22 (`scanner_status`).
#[derive(Clone, Copy, PartialEq, Eq)]
pub enum Scanned {
    /// A macro's definition.
    Definition,
    /// A macro's arguments, where it is used.
    Use,
    /// A balanced text.
    Text,
}

/// The unit of measure that is taken in place of an illegal one.
#[derive(Clone, Copy, PartialEq, Eq)]
pub enum UnitTaken {
    /// "pt inserted".
    Pt,
    /// "mu inserted".
    Mu,
    /// "replaced by filll".
    Filll,
}

/// What is reported. *The TeXbook*, chapter 27; *TeX: The Program*, part 6 (`error`).
#[derive(Clone, Copy, PartialEq, Eq)]
pub enum Report {
    /// "Undefined control sequence".
    UndefinedName,
    /// "Text line contains an invalid character".
    InvalidCharacter,
    /// "Improper alphabetic constant".
    ImproperConstant,
    /// "Missing number, treated as zero".
    MissingNumber,
    /// "Number too big".
    NumberTooBig,
    /// "Bad character code (n)".
    BadCharacterCode(i32),
    /// "Bad register code (n)".
    BadRegisterCode(i32),
    /// "Bad mathchar (n)".
    BadMathchar(i32),
    /// "You can't use `X' after \the": what the token means, and the number of the primitive that can't use it.
    CantUseAfter(Meaning<()>, u16),
    /// "Dimension too large".
    DimensionTooLarge,
    /// "Illegal unit of measure (pt inserted)" and its like.
    IllegalUnit(UnitTaken),
    /// "Incompatible magnification (n); the previous value will be retained (m)": the value of `\mag`, and the earlier one.
    IncompatibleMagnification(i32, u16),
    /// "Illegal magnification has been changed to 1000 (n)": the value of `\mag`.
    IllegalMagnification(i32),
    /// "Arithmetic overflow": a sum, a product or a quotient that is out of bounds.
    ArithmeticOverflow,
    /// "Incompatible glue units": what is in mu where something in points is read, or the other way round.
    IncompatibleUnits,
    /// "Invalid code (n), should be in the range 0..m": the code, and the greatest of its range.
    InvalidCode(i32, u32),
    /// "Invalid code (n), should be at most m": the code, and the greatest that may be.
    CodeTooGreat(i32, u32),
    /// "Missing { inserted".
    MissingBrace,
    /// The file ended while this was read, of a macro or of a command.
    FileEnded(Scanned, Name),
    /// The name of an `\outer` macro came while this was read, of a macro or of a command.
    Forbidden(Scanned, Name),
    /// "Missing control sequence inserted": the name to be assigned is missing.
    MissingName,
    /// In a parameter text, another number than the next one: "Parameters must be numbered consecutively".
    NotConsecutive,
    /// In a parameter text, a tenth place: "You already have nine parameters".
    AlreadyNine,
    /// In the body of this macro, a parameter character with no number of a place behind it: "Illegal parameter number in
    /// definition of \a".
    IllegalNumber(Name),
    /// In the call of this macro, other tokens than its parameter text has: "Use of \a doesn't match its definition".
    UseMismatch(Name),
    /// In the call of this macro, a brace that closes nothing: "Argument of \a has an extra }".
    ExtraBrace(Name),
    /// In the call of this macro, the end of a paragraph: "Paragraph ended before \a was complete".
    ParagraphEnded(Name),
    /// A prefix before a command of this meaning, which is no assignment: "You can't use a prefix with `X'".
    PrefixWith(Meaning<()>),
    /// `\long` or `\outer` before a command of this meaning, which is no definition.
    LongOrOuterWith(Meaning<()>),
    /// "Missing \endcsname inserted": another name ends the characters of `\csname`.
    MissingEndcsname,
    /// "Extra \endcsname": there is no `\csname` that it could end.
    ExtraEndcsname,
    /// "Too many }'s": no group is open.
    TooManyBraces,
    /// "Extra }, or forgotten \endgroup": the innermost group was opened by `\begingroup`.
    ForgottenEndgroup,
    /// "Extra \endgroup": no group is open.
    ExtraEndgroup,
    /// "Missing } inserted": `\endgroup` where the innermost group was opened by a brace.
    MissingRightBrace,
    /// "Missing = inserted for \ifnum": the number of the conditional, which has no relation behind its first value.
    MissingRelation(u16),
    /// "Extra \else" and its like: the number of a `\fi`, an `\else` or an `\or` that the innermost open conditional doesn't allow, or with none open.
    ExtraFiOrElse(u16),
    /// "Incomplete \ifx; all text was ignored after line n": the number of the innermost open conditional, and the line on which skipping began.
    IncompleteConditional(u16, u64),
}

/// How a run has ended.
#[derive(Clone, Copy, PartialEq, Eq)]
pub enum Outcome {
    /// At `\end`.
    Finished,
    /// At something fatal.
    AtFatal(Fatal),
}
