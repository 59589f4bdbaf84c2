// The commands that are read by rows, and what they do.
ghost use Rattle.std.specs.Prelude.{◌≡◌};
ghost use Rattle.rows.specs.Internal as internal;
ghost use Rattle.rows.specs.Table as table;

use crate::arithmetic::Operation;
use crate::internal::{
    Internal, internal_parameter, is_dimension, is_glue, is_list, is_mu, list_parameter,
};
use crate::stage::Complaint::{BadCharacterCode, BadMathchar, BadRegisterCode, InvalidCode};
use crate::stage::Stage;
use crate::stage::Stage::{
    Amount, AnyToken, ControlSequence, Dimension, Equals, ExpandedToken, Glue, InternalValue,
    Keyword, LetEquals, MacroText, NewName, NonblankToken, Number, NumberTo, NumberUpTo, Prefixes,
    Relation, Space, Text, TokenList, UnenteredToken, Variable,
};
use crate::words::Datum;
use Action::{
    AfterAssignment, AfterGroup, ChangeCase, Compute, Define, DefineGlobally, ErrorMessage,
    ExpandBehind, FutureLet, GiveCharacter, GiveMath, GiveRegister, Let, MakeMeaning, MakeNumber,
    MakeRoman, MakeString, MakeValue, Message, Nothing, Obey, PutMarked, SetAt, SetCode,
    SetRegister, Show, ShowValue,
};
use Head::{Primitive, Register};
use Row::{Four, One, Three, Two};
use conditionals::{Aim, Ender};
use equivalents::CodeKind::{Category, Delimiter, Lowercase, Math, SpaceFactor, Uppercase};
use equivalents::{CodeKind, Loc};
use tex_defs::{Name, RegisterKind, Seen};

/// A prefix of an assignment.
#[derive(Clone, Copy)]
pub enum Prefix {
    Long,
    Outer,
    Global,
}

/// What a command reads: one stage to four.
#[derive(Clone, Copy)]
pub enum Row {
    One(Stage),
    Two(Stage, Stage),
    Three(Stage, Stage, Stage),
    Four(Stage, Stage, Stage, Stage),
}

impl Row {
    /// Its first stage.
    pub fn first(self) -> Stage
        ensures { result ≡ table.first_in self }
    {
        match self {
            One(a) | Two(a, _) | Three(a, _, _) | Four(a, _, _, _) => a,
        }
    }

    /// The stages behind the first, if there are any.
    pub fn rest(self) -> Option<Row>
        ensures { table.stages_left result ≡ table.rest_in self }
    {
        match self {
            One(_) => None,
            Two(_, b) => Some(One(b)),
            Three(_, b, c) => Some(Two(b, c)),
            Four(_, b, c, d) => Some(Three(b, c, d)),
        }
    }
}

/// What a conditional tests. *The TeXbook*, chapter 20; *TeX: The Program*, part 28 (`conditional`).
#[derive(Clone, Copy)]
pub enum Test {
    /// Whether two characters have the same code: `\if`.
    Codes,
    /// Whether they have the same category: `\ifcat`.
    Categories,
    /// The relation of two numbers or of two dimensions: `\ifnum`, `\ifdim`.
    Relation,
    /// Whether a number is odd: `\ifodd`.
    Odd,
    /// Whether two tokens mean the same: `\ifx`.
    Meanings,
    /// The number of a case: `\ifcase`.
    Case,
    /// It always has this value.
    Always(bool),
}

/// A character, as `\if` and `\ifcat` see it; what is no character has category 0 and code 256.
#[derive(Clone, Copy)]
pub struct Character {
    pub category: u8,
    pub code: u16,
}

/// What a command does, as a word of the table; with what was read it is an [`Effect`].
#[derive(Clone, Copy)]
pub enum Action {
    /// It does nothing by itself.
    Nothing,
    Obey,
    Message,
    ErrorMessage,
    Show,
    ShowValue,
    /// The characters of the list become capital letters, or small ones.
    ChangeCase(bool),
    /// The list becomes a macro's.
    Define,
    /// The same, and globally.
    DefineGlobally,
    Let,
    FutureLet,
    /// A character gets a code of this kind.
    SetCode(CodeKind),
    /// This location gets a value.
    SetAt(Loc),
    /// A register of this kind gets a value.
    SetRegister(RegisterKind),
    /// What stands at a location is changed by arithmetic.
    Compute(Operation),
    /// The name stands for a character.
    GiveCharacter,
    /// It stands for a mathematical character.
    GiveMath,
    /// It stands for a register of this kind.
    GiveRegister(RegisterKind),
    AfterGroup,
    AfterAssignment,
    ExpandBehind,
    PutMarked,
    MakeNumber,
    MakeRoman,
    MakeString,
    MakeMeaning,
    MakeValue,
    /// A conditional goes on by its test.
    Test(Test),
}

/// What a shorthand definition makes a name stand for. *The TeXbook*, chapter 24; *TeX: The Program*, part 49 (`shorthand_def`).
#[derive(Clone, Copy)]
pub enum Shorthand {
    /// This character.
    Character(u8),
    /// A mathematical character, by its code.
    Math(u16),
    Register { kind: RegisterKind, no: u8 },
}

/// What a command does with what it has read; where its list is spoken of, it is the one read last.
#[derive(Clone, Copy)]
pub enum Effect {
    Nothing,
    /// The token is obeyed.
    Obey(Seen),
    /// The list is written as a message.
    Message,
    /// The list is reported as an error.
    ErrorMessage,
    /// The token and what it means are shown.
    Show(Seen),
    /// What stands at the location is shown.
    ShowValue(Loc),
    /// The number is shown.
    ShowNumber(i32),
    /// The list is put in front, its characters as capital letters, or as small ones.
    ChangeCase(bool),
    /// The name means what the token means.
    Let(Name, Seen),
    /// Both tokens are put back, and the name means what the second one means.
    FutureLet(Name, Seen, Seen),
    /// The location gets the number as its value.
    SetNumber(Loc, i32),
    /// The location gets this glue as its value.
    SetGlue(Loc, equivalents::Glue),
    /// The location gets the list.
    SetList(Loc),
    /// The location gets the list that stands at the second one, which takes no word.
    ShareList(Loc, Loc),
    /// What stands at the location is changed by arithmetic with what was read; where the result is out of bounds, this is reported.
    Compute(Operation, Loc, Datum),
    /// The name stands for this.
    Shorthand(Name, Shorthand),
    /// An assignment that assigns nothing.
    Unassigned,
    /// The token is kept for the end of the innermost group, if one is open.
    AfterGroup(Seen),
    /// The token is kept for the end of the next assignment.
    AfterAssignment(Seen),
    /// The second token is expanded or put back, while the first waits behind it.
    ExpandBehind(Seen, Seen),
    /// The token is put back.
    PutBack(Seen),
    /// The token is put back, a name as a marked one.
    PutMarked(Seen),
    /// The decimal digits of the number are put in front.
    MakeNumber(i32),
    /// Its roman letters are put in front.
    MakeRoman(i32),
    /// The text of the token is put in front.
    MakeString(Seen),
    /// The text of what it means is put in front.
    MakeMeaning(Seen),
    /// The text of what stands at the location is put in front.
    MakeValue(Loc),
    /// The list that stands at the location enters an expanded text as it stands, or is put in front.
    PutList(Loc),
    /// The conditional goes on by this value of its test.
    Choose(conditionals::Value),
    /// It goes on by whether the two tokens mean the same.
    Compare(Seen, Seen),
    /// Text was skipped to this ender, for a conditional that seeks this.
    Reach(Aim, Ender),
    /// The name of the list's characters is entered, means `\relax` in this group where it meant nothing, and is put in front.
    MakeName,
    /// The file is opened whose name is the list's characters; the token behind the name, if it is to go back, goes back first.
    StartInput(bool),
}

/// What the name of a command that is read means.
#[derive(Clone, Copy)]
pub enum Head {
    /// The primitive of this number.
    Primitive(u16),
    /// A register.
    Register(RegisterKind, u8),
}

/// A command that is read: what its name means, its name as it was written, and the prefixes that stood before it.
#[derive(Clone, Copy)]
pub struct Call {
    pub head: Head,
    pub name: Name,
    pub long: bool,
    pub outer: bool,
    pub global: bool,
}

/// A character's code.
const CHARACTER_CODE: Stage = NumberTo(255, BadCharacterCode);

/// A character's category.
const CATEGORY: Stage = NumberTo(15, InvalidCode);

/// A register's number.
const REGISTER: Stage = NumberTo(255, BadRegisterCode);

/// A small or a capital letter of a character, or 0.
const OTHER_CASE: Stage = NumberTo(255, InvalidCode);

/// An optional `by`.
const BY: Stage = Keyword(crate::words::Keyword::By);

/// What the primitives read, by their numbers, and what they do then; the parameters, which get values as registers do, are left out.
pub const SYNTAX: &[(u16, Row, Action)] = &[
    (8, One(NonblankToken), Obey),
    (9, One(Text(true)), Message),
    (10, One(Text(true)), ErrorMessage),
    (11, One(AnyToken), Show),
    (12, One(InternalValue), ShowValue),
    (13, One(Text(false)), ChangeCase(true)),
    (14, One(Text(false)), ChangeCase(false)),
    (15, One(AnyToken), AfterGroup),
    (16, One(AnyToken), AfterAssignment),
    (23, One(Prefixes(Prefix::Long)), Nothing),
    (24, One(Prefixes(Prefix::Outer)), Nothing),
    (25, One(Prefixes(Prefix::Global)), Nothing),
    (26, Two(ControlSequence, MacroText(false)), Define),
    (27, Two(ControlSequence, MacroText(false)), DefineGlobally),
    (28, Two(ControlSequence, MacroText(true)), Define),
    (29, Two(ControlSequence, MacroText(true)), DefineGlobally),
    (30, Four(ControlSequence, LetEquals, Space, AnyToken), Let),
    (31, Three(ControlSequence, AnyToken, AnyToken), FutureLet),
    (32, Three(Variable, BY, Amount), Compute(Operation::Advance)),
    (
        33,
        Three(Variable, BY, Number),
        Compute(Operation::Multiply),
    ),
    (34, Three(Variable, BY, Number), Compute(Operation::Divide)),
    (
        35,
        Three(CHARACTER_CODE, Equals, CATEGORY),
        SetCode(Category),
    ),
    (
        36,
        Three(CHARACTER_CODE, Equals, OTHER_CASE),
        SetCode(Lowercase),
    ),
    (
        37,
        Three(CHARACTER_CODE, Equals, OTHER_CASE),
        SetCode(Uppercase),
    ),
    (
        38,
        Three(CHARACTER_CODE, Equals, NumberTo(32767, InvalidCode)),
        SetCode(SpaceFactor),
    ),
    (
        39,
        Three(CHARACTER_CODE, Equals, NumberTo(32768, InvalidCode)),
        SetCode(Math),
    ),
    (
        40,
        Three(CHARACTER_CODE, Equals, NumberUpTo(16777215)),
        SetCode(Delimiter),
    ),
    (
        41,
        Three(REGISTER, Equals, Number),
        SetRegister(RegisterKind::Count),
    ),
    (
        42,
        Three(REGISTER, Equals, Dimension),
        SetRegister(RegisterKind::Dimen),
    ),
    (
        43,
        Three(REGISTER, Equals, Glue(false)),
        SetRegister(RegisterKind::Skip),
    ),
    (
        44,
        Three(REGISTER, Equals, Glue(true)),
        SetRegister(RegisterKind::Muskip),
    ),
    (
        45,
        Three(REGISTER, Equals, TokenList),
        SetRegister(RegisterKind::Toks),
    ),
    (46, Three(NewName, Equals, CHARACTER_CODE), GiveCharacter),
    (
        47,
        Three(NewName, Equals, NumberTo(32767, BadMathchar)),
        GiveMath,
    ),
    (
        48,
        Three(NewName, Equals, REGISTER),
        GiveRegister(RegisterKind::Count),
    ),
    (
        49,
        Three(NewName, Equals, REGISTER),
        GiveRegister(RegisterKind::Dimen),
    ),
    (
        50,
        Three(NewName, Equals, REGISTER),
        GiveRegister(RegisterKind::Skip),
    ),
    (
        51,
        Three(NewName, Equals, REGISTER),
        GiveRegister(RegisterKind::Muskip),
    ),
    (
        52,
        Three(NewName, Equals, REGISTER),
        GiveRegister(RegisterKind::Toks),
    ),
    (54, Two(AnyToken, AnyToken), ExpandBehind),
    (55, One(AnyToken), PutMarked),
    (57, One(Number), MakeNumber),
    (58, One(Number), MakeRoman),
    (59, One(AnyToken), MakeString),
    (60, One(AnyToken), MakeMeaning),
    (62, One(InternalValue), MakeValue),
    (
        65,
        Two(ExpandedToken, ExpandedToken),
        Action::Test(Test::Codes),
    ),
    (
        66,
        Two(ExpandedToken, ExpandedToken),
        Action::Test(Test::Categories),
    ),
    (
        67,
        Three(Number, Relation, Number),
        Action::Test(Test::Relation),
    ),
    (
        68,
        Three(Dimension, Relation, Dimension),
        Action::Test(Test::Relation),
    ),
    (69, One(Number), Action::Test(Test::Odd)),
    (74, One(REGISTER), Action::Test(Test::Always(true))),
    (75, One(REGISTER), Action::Test(Test::Always(false))),
    (76, One(REGISTER), Action::Test(Test::Always(false))),
    (
        77,
        Two(UnenteredToken, UnenteredToken),
        Action::Test(Test::Meanings),
    ),
    (81, One(Number), Action::Test(Test::Case)),
];

/// The row of a primitive and what it does, among these.
#[tactic(auto, using(std::proofs::lemmas::List::drop_more))]
fn find_among(number: u16, rows: &[(u16, Row, Action)]) -> Option<(Row, Action)>
    ensures { result ≡ table.row_among number rows.now }
{
    for row in rows {
        if row.0 == number {
            return Some((row.1, row.2));
        }
    }
    None
}

/// What is read for a location, by what stands there.
pub fn value_stage(loc: Loc) -> Stage
    ensures { result ≡ table.value_stage loc }
{
    if is_list(loc) {
        TokenList
    } else if is_glue(loc) {
        Glue(is_mu(loc))
    } else if is_dimension(loc) {
        Dimension
    } else {
        Number
    }
}

/// A location gets a value, behind an optional `=`.
fn assignment_to(loc: Loc) -> (Row, Action)
    ensures { result ≡ table.assignment_to loc }
{
    (Two(Equals, value_stage(loc)), SetAt(loc))
}

/// The parameters.
fn parameter(number: u16) -> Option<Internal>
    ensures { result ≡ internal.or_else (internal.internal_parameter number) (internal.list_parameter number) }
{
    match internal_parameter(number) {
        None => list_parameter(number),
        found => found,
    }
}

/// The row of a primitive and what it does, if it is read by a row.
fn find_primitive(number: u16) -> Option<(Row, Action)>
    ensures { result ≡ table.primitive_row number }
{
    match parameter(number) {
        Some(Internal::At(loc)) => Some(assignment_to(loc)),
        _ => find_among(number, SYNTAX),
    }
}

/// The row of a command and what it does, if it is read by a row.
pub fn find_row(head: Head) -> Option<(Row, Action)>
    ensures { result ≡ table.find_row head }
{
    match head {
        Primitive(number) => find_primitive(number),
        Register(kind, no) => Some(assignment_to(Loc::Register { kind, no })),
    }
}

/// The row of a command that is read by a row, and what it does.
pub fn row_of(head: Head) -> (Row, Action)
    ensures { result ≡ table.row_of head }
{
    match find_row(head) {
        Some(row) => row,
        None => (One(AnyToken), Nothing),
    }
}
