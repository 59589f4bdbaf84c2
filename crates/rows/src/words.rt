// What readings read and come to.
use crate::command::Call;
use equivalents::{Glue, Loc};
use tex_defs::{Name, Seen};

/// A keyword, by its letters. *The TeXbook*, chapter 24; *TeX: The Program*, part 26 (`scan_keyword`).
#[derive(Clone, Copy)]
pub enum Keyword {
    By,
    Plus,
    Minus,
    Fil,
    L,
    True,
    Em,
    Ex,
    Pt,
    In,
    Pc,
    Cm,
    Mm,
    Bp,
    Dd,
    Cc,
    Sp,
    Mu,
}

/// The relation of two numbers or dimensions that a conditional tests.
#[derive(Clone, Copy)]
pub enum Relation {
    Less,
    Equal,
    Greater,
}

/// What a stage has read.
#[derive(Clone, Copy)]
pub enum Datum {
    Number(i32),
    /// The name that is assigned.
    Named(Name),
    Taken(Seen),
    /// The location that a command uses.
    At(Loc),
    /// Whether a keyword was there.
    Found(bool),
    Relation(Relation),
    /// The integer before a fraction, and whether a point stood directly behind its decimal digits.
    Factor(i32, bool),
    /// A dimension in sp; an infinite one in 1/65536 of a unit of this order of infinity, from 1 to 3.
    Dimension(i32, u8),
    Glue(Glue),
}

/// What kind of dimension is read.
#[derive(Clone, Copy)]
pub struct DimenKind {
    /// Of mu glue, in mu.
    pub mu: bool,
    /// A stretch or a shrink, which may be infinite.
    pub infinite: bool,
}

/// The value of a reading; its list of tokens, where it has one, goes beside it.
#[derive(Clone, Copy)]
pub enum Value {
    Plain(Datum),
    List,
}

/// What is read of TeX's grammar: a command with what follows it, or what it reads within (*The TeXbook*, chapters 24 to 26).
#[derive(Clone, Copy)]
pub enum Phrase {
    /// A command or an expansion: its row.
    Command(Call),
    Integer,
    /// The integer before a fraction.
    Factor,
    Dimension(DimenKind),
    /// Glue, and whether it is in mu.
    Glue(bool),
    /// An optional keyword.
    Keyword(Keyword),
    /// A balanced text of the command of this name, as it was written, and whether it is expanded.
    Text(Name, bool),
    /// The list of the macro of this name, and whether its body is expanded.
    Definition(Name, bool),
}
