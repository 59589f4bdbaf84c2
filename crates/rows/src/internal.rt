// What a token stands for where a number is read.
ghost use Rattle.std.specs.Prelude.{◌≡◌, ◌-◌, ◌≤◌, ◌<◌};
ghost use Rattle.rows.specs.Internal as internal;

use equivalents::{CodeKind, Loc};
use prim_table::{Class, first_number, is_in_row, row_size};
use tex_defs::{Meaning, RegisterKind};
use tex_syntax::Report;

/// Locations that are told by a number from 0 to 255 behind a name. *The TeXbook*, chapters 7 and 15.
#[derive(Clone, Copy)]
pub enum Bank {
    /// The codes of characters.
    Codes(CodeKind),
    Registers(RegisterKind),
}

/// What a token stands for where a number is read.
#[derive(Clone, Copy)]
pub enum Internal {
    /// This number: a name of `\chardef` or `\mathchardef`.
    Given(u16),
    /// What stands at this location: a parameter, or a register by its name.
    At(Loc),
    /// What stands at the location of the number behind it.
    Numbered(Bank),
}

impl Bank {
    /// The location of this number.
    pub fn location(self, n: u8) -> Loc
        ensures is { result ≡ internal.location_in self n }
        ensures found { internal.IsFetchable result }
    {
        match self {
            Bank::Codes(kind) => Loc::Code { kind, code: n },
            Bank::Registers(kind) => Loc::Register { kind, no: n },
        }
    }

    /// The report of another number.
    pub fn complaint(self, n: i32) -> Report
        ensures { result ≡ internal.bad_number self n }
    {
        match self {
            Bank::Codes(_) => Report::BadCharacterCode(n),
            Bank::Registers(_) => Report::BadRegisterCode(n),
        }
    }
}

/// A number from 0 to 255; another counts as 0.
pub fn byte_of(n: i32) -> u8
    ensures { result ≡ internal.byte_of n }
{
    if 0 <= n && n <= 255 { n as u8 } else { 0 }
}

/// The parameters that are integers, dimensions or glue.
pub(crate) fn internal_parameter(number: u16) -> Option<Internal>
    ensures is { result ≡ internal.internal_parameter number }
    ensures found { internal.IsFound result }
{
    if is_in_row(Class::IntegerParameter, number) {
        let i = number - first_number(Class::IntegerParameter);
        Some(Internal::At(Loc::Integer(i as u8)))
    } else if is_in_row(Class::DimensionParameter, number) {
        let i = number - first_number(Class::DimensionParameter);
        Some(Internal::At(Loc::Dimension(i as u8)))
    } else if is_in_row(Class::GlueParameter, number) {
        let i = number - first_number(Class::GlueParameter);
        Some(Internal::At(Loc::Glue(i as u8)))
    } else {
        None
    }
}

/// What a primitive stands for where a number is read.
fn internal_primitive(number: u16) -> Option<Internal>
    ensures is { result ≡ internal.internal_primitive number }
    ensures found { internal.IsFound result }
{
    let bank = match number {
        35 => Bank::Codes(CodeKind::Category),
        36 => Bank::Codes(CodeKind::Lowercase),
        37 => Bank::Codes(CodeKind::Uppercase),
        38 => Bank::Codes(CodeKind::SpaceFactor),
        39 => Bank::Codes(CodeKind::Math),
        40 => Bank::Codes(CodeKind::Delimiter),
        41 => Bank::Registers(RegisterKind::Count),
        42 => Bank::Registers(RegisterKind::Dimen),
        43 => Bank::Registers(RegisterKind::Skip),
        44 => Bank::Registers(RegisterKind::Muskip),
        _ => return internal_parameter(number),
    };
    Some(Internal::Numbered(bank))
}

/// What a meaning stands for where a number is read; a list of tokens is no number.
pub fn internal_of(meaning: Meaning<()>) -> Option<Internal>
    ensures is { result ≡ internal.internal_of meaning }
    ensures found { internal.IsFound result }
{
    match meaning {
        Meaning::CharGiven(code) => Some(Internal::Given(u16::from(code))),
        Meaning::MathGiven(code) => Some(Internal::Given(code)),
        Meaning::Register {
            kind: RegisterKind::Toks,
            no: _,
        } => None,
        Meaning::Register { kind, no } => Some(Internal::At(Loc::Register { kind, no })),
        Meaning::Prim(number) => internal_primitive(number),
        _ => None,
    }
}

/// The parameters that are lists of tokens.
pub(crate) fn list_parameter(number: u16) -> Option<Internal>
    ensures is { result ≡ internal.list_parameter number }
    ensures found { internal.IsFound result }
{
    if is_in_row(Class::TokenParameter, number) {
        let i = number - first_number(Class::TokenParameter);
        Some(Internal::At(Loc::Tokens(i as u8)))
    } else {
        None
    }
}

/// The registers and the parameters among the primitives that are lists of tokens.
fn list_primitive(number: u16) -> Option<Internal>
    ensures is { result ≡ internal.list_primitive number }
    ensures found { internal.IsFound result }
{
    if number == 45 {
        Some(Internal::Numbered(Bank::Registers(RegisterKind::Toks)))
    } else {
        list_parameter(number)
    }
}

/// A register or a parameter that is a list of tokens.
pub fn list_of(meaning: Meaning<()>) -> Option<Internal>
    ensures is { result ≡ internal.list_of meaning }
    ensures found { internal.IsFound result }
{
    match meaning {
        Meaning::Register {
            kind: RegisterKind::Toks,
            no,
        } => Some(Internal::At(Loc::Register {
            kind: RegisterKind::Toks,
            no,
        })),
        Meaning::Prim(number) => list_primitive(number),
        _ => None,
    }
}

/// What a meaning stands for behind `\the`: a number, a dimension, glue or a list of tokens.
pub fn value_of(meaning: Meaning<()>) -> Option<Internal>
    ensures is { result ≡ internal.value_of meaning }
    ensures found { internal.IsFound result }
{
    match internal_of(meaning) {
        None => list_of(meaning),
        found => found,
    }
}

/// Whether a list of tokens stands there.
pub fn is_list(loc: Loc) -> bool
    ensures { result ≡ internal.is_list loc }
{
    match loc {
        Loc::Register {
            kind: RegisterKind::Toks,
            no: _,
        } => true,
        Loc::Tokens(_) => true,
        _ => false,
    }
}

/// Whether a location is there, and no name's.
pub fn is_fetchable(loc: Loc) -> bool
    ensures { result ≡ internal.is_fetchable loc }
{
    match loc {
        Loc::Code { .. } | Loc::Register { .. } => true,
        Loc::Integer(i) => u16::from(i) < row_size(Class::IntegerParameter),
        Loc::Dimension(i) => u16::from(i) < row_size(Class::DimensionParameter),
        Loc::Glue(i) => u16::from(i) < row_size(Class::GlueParameter),
        Loc::Tokens(i) => u16::from(i) < row_size(Class::TokenParameter),
        Loc::Means(_) => false,
    }
}

/// Whether glue that stands there is in mu.
pub fn is_mu(loc: Loc) -> bool
    ensures { result ≡ internal.is_mu loc }
{
    match loc {
        Loc::Register {
            kind: RegisterKind::Muskip,
            no: _,
        } => true,
        Loc::Glue(i) => i >= 15,
        _ => false,
    }
}

/// Whether glue stands there.
pub fn is_glue(loc: Loc) -> bool
    ensures { result ≡ internal.is_glue loc }
{
    match loc {
        Loc::Register {
            kind: RegisterKind::Skip | RegisterKind::Muskip,
            no: _,
        } => true,
        Loc::Glue(_) => true,
        _ => false,
    }
}

/// Whether a dimension stands there, in sp.
pub fn is_dimension(loc: Loc) -> bool
    ensures { result ≡ internal.is_dimension loc }
{
    match loc {
        Loc::Register {
            kind: RegisterKind::Dimen,
            no: _,
        } => true,
        Loc::Dimension(_) => true,
        _ => false,
    }
}

/// The registers and the parameters among the primitives that arithmetic changes.
fn variable_primitive(number: u16) -> Option<Internal>
    ensures is { result ≡ internal.variable_primitive number }
    ensures found { internal.IsFound result }
{
    if 41 <= number && number <= 44 {
        internal_primitive(number)
    } else {
        internal_parameter(number)
    }
}

/// A register or a parameter that arithmetic changes: an integer, a dimension or glue.
pub fn variable_of(meaning: Meaning<()>) -> Option<Internal>
    ensures is { result ≡ internal.variable_of meaning }
    ensures found { internal.IsFound result }
{
    match meaning {
        Meaning::Register { .. } => internal_of(meaning),
        Meaning::Prim(number) => variable_primitive(number),
        _ => None,
    }
}
