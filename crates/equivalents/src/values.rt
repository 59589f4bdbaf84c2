// The words for locations and for what stands at them.
use tex_defs::{Meaning, RegisterKind};

/// The six tables of codes of characters. *The TeXbook*, chapters 7, 8, 12, 17 and 18.
#[derive(Clone, Copy, Debug, PartialEq, Eq)]
pub enum CodeKind {
    Category,
    Lowercase,
    Uppercase,
    SpaceFactor,
    Math,
    Delimiter,
}

/// A location: what an assignment can change.
#[derive(Clone, Copy, Debug, PartialEq, Eq)]
pub enum Loc {
    /// A code of a character.
    Code { kind: CodeKind, code: u8 },
    /// An integer parameter, by its place among the 55, from 0.
    Integer(u8),
    /// A dimension parameter, by its place among the 21, from 0.
    Dimension(u8),
    /// A glue parameter, by its place among the 18, from 0.
    Glue(u8),
    Register { kind: RegisterKind, no: u8 },
    /// A token parameter, by its place among the 8, from 0.
    Tokens(u8),
    /// What a name means, by the name's location.
    Means(u32),
}

/// Glue: its three dimensions in sp, with the orders of infinity of two of them: 0 to 3 for `pt`, `fil`, `fill` and `filll`.
#[derive(Clone, Copy, Debug, PartialEq, Eq)]
pub struct Glue {
    pub width: i32,
    pub stretch: i32,
    pub stretch_order: u8,
    pub shrink: i32,
    pub shrink_order: u8,
}

/// What stands at a location; `L` stands for a list of tokens, if there is one.
#[derive(Clone, Copy, Debug, PartialEq, Eq)]
pub enum Val<L> {
    /// An integer, a code, or a dimension in sp.
    Number(i32),
    Skip(Glue),
    Meant(Meaning<L>),
    Tokens(L),
}
