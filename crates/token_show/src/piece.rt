// The text of one token, or of a meaning up to its list.
ghost use Rattle.std.specs.Prelude.{◌≡◌, ◌≤◌, ◌<◌, [], ◌∷◌, ◌++◌, codes, length};
ghost use Rattle.std.specs.Fmt.{decimal};
ghost use Rattle.plain_tokens.specs.Printed.{escaped, name_text, name_in_list, space_behind, token_text, character_word, register_word, macro_text, meaning_head};
ghost use Rattle.plain_tokens.specs.Numerals.{hexadecimal};
ghost use Rattle.plain_state.specs.Reports.{string_text};
ghost use Rattle.tex_defs.specs.declared.Name.TheVariants.{Single};
ghost use Rattle.token_show.specs.Options.{listed};
ghost use Rattle.token_show.specs.Views.{names_style, IsNamesView};

use crate::part::Part;
use crate::token_text::TokenText;
use crate::view::{NamesView, frozen_word, primitive_word};
use char_text::{Text, count_length, hexadecimal_length};
use tex_defs::{Meaning, Name, RegisterKind, Token};

// No characters.
fn none<'a>() -> Part<'a>
    ensures { result ≡ [] }
{
    Part::new(None, &[])
}

// These characters.
pub(crate) fn bytes_piece<'a>(bytes: &'a [u8]) -> TokenText<'a>
    ensures { result ≡ bytes.now }
{
    TokenText::new(Part::new(None, bytes), none(), none())
}

// At most two characters.
fn two<'a>(first: u8, second: Option<u8>) -> TokenText<'a>
    ensures { result ≡ first ∷ listed second }
{
    TokenText::new(Part::new(Some(first), &[]), Part::new(second, &[]), none())
}

// A word behind the escape character.
pub(crate) fn escaped<'a>(names: &NamesView<'a>, word: &'a [u8]) -> TokenText<'a>
    ensures { result ≡ escaped (names_style names.now) word.now }
{
    TokenText::new(Part::new(names.escape(), word), none(), none())
}

// Characters, and another one behind them.
fn followed<'a>(word: &'a [u8], c: u8) -> TokenText<'a>
    ensures { result ≡ word.now ++ c ∷ [] }
{
    TokenText::new(Part::new(None, word), Part::new(Some(c), &[]), none())
}

// A name as `\string` gives it.
pub(crate) fn name_piece<'a>(names: &NamesView<'a>, name: Name) -> TokenText<'a>
    requires { IsNamesView names.now }
    ensures { result ≡ name_text (names_style names.now) name }
{
    match name {
        Name::Active(c) => two(c, None),
        Name::Single(c) => TokenText::new(
            Part::new(names.escape(), &[]),
            Part::new(Some(c), &[]),
            none(),
        ),
        Name::Empty => TokenText::new(
            Part::new(names.escape(), b"csname"),
            Part::new(names.escape(), b"endcsname"),
            none(),
        ),
        Name::Word(number) => escaped(names, names.name(number)),
        Name::Frozen(frozen) => escaped(names, frozen_word(frozen)),
    }
}

// A token as `\string` gives it.
pub(crate) fn string_piece<'a>(names: &NamesView<'a>, token: Token) -> TokenText<'a>
    requires { IsNamesView names.now }
    ensures { result ≡ string_text (names_style names.now) token }
{
    match token {
        Token::Char { cat: _, code } => two(code, None),
        Token::Named(name) | Token::Marked(name) => name_piece(names, name),
        _ => no_piece(),
    }
}

// A word behind the escape character, and a space behind it.
fn spaced<'a>(names: &NamesView<'a>, word: &'a [u8]) -> TokenText<'a>
    ensures { result ≡ escaped (names_style names.now) word.now ++ 32 ∷ [] }
{
    TokenText::new(
        Part::new(names.escape(), word),
        Part::new(Some(b' '), &[]),
        none(),
    )
}

// The space behind a name of one character.
fn space_behind(names: &NamesView<'_>, c: u8) -> Option<u8>
    ensures { listed result ≡ space_behind (names_style names.now) (Single c) }
{
    if names.categories[c as usize] == 11 {
        Some(b' ')
    } else {
        None
    }
}

// A name in a list.
fn name_in_list<'a>(names: &NamesView<'a>, name: Name) -> TokenText<'a>
    requires { IsNamesView names.now }
    ensures { result ≡ name_in_list (names_style names.now) name }
{
    match name {
        Name::Active(c) => two(c, None),
        Name::Single(c) => TokenText::new(
            Part::new(names.escape(), &[]),
            Part::new(Some(c), &[]),
            Part::new(space_behind(names, c), &[]),
        ),
        Name::Empty => TokenText::new(
            Part::new(names.escape(), b"csname"),
            Part::new(names.escape(), b"endcsname"),
            Part::new(Some(b' '), &[]),
        ),
        Name::Word(number) => spaced(names, names.name(number)),
        Name::Frozen(frozen) => spaced(names, frozen_word(frozen)),
    }
}

// A token in a list, behind so many parameter places, the last of which has the character `last`.
pub(crate) fn token_piece<'a>(
    names: &NamesView<'a>,
    places: u8,
    last: u8,
    token: Token,
) -> TokenText<'a>
    requires names { IsNamesView names.now }
    requires few { places ≤ 9 }
    ensures text { result ≡ token_text (names_style names.now) places last token }
    ensures some { 0 < length result }
{
    match token {
        Token::Char { cat, code } => {
            if cat == 6 {
                two(code, Some(code))
            } else {
                two(code, None)
            }
        }
        Token::Named(name) | Token::Marked(name) => name_in_list(names, name),
        Token::Place(c) => two(c, Some(b'0' + (places + 1).min(9))),
        Token::Number(n) => two(last, Some(b'0' + n.min(9))),
        Token::EndPlaces => two(b'-', Some(b'>')),
    }
}

// What a character of a category is called.
fn character_word<'a>(category: u8) -> &'a [u8]
    ensures { result.now ≡ character_word category }
{
    match category {
        1 => b"begin-group character ",
        2 => b"end-group character ",
        3 => b"math shift character ",
        4 => b"alignment tab character ",
        6 => b"macro parameter character ",
        7 => b"superscript character ",
        8 => b"subscript character ",
        10 => b"blank space ",
        11 => b"the letter ",
        _ => b"the character ",
    }
}

fn register_word<'a>(kind: RegisterKind) -> &'a [u8]
    ensures { result.now ≡ register_word kind }
{
    match kind {
        RegisterKind::Count => b"count",
        RegisterKind::Dimen => b"dimen",
        RegisterKind::Skip => b"skip",
        RegisterKind::Muskip => b"muskip",
        RegisterKind::Toks => b"toks",
    }
}

// What stands before a macro's list.
fn macro_piece<'a>(names: &NamesView<'a>, long: bool, outer: bool) -> TokenText<'a>
    ensures { result ≡ macro_text (names_style names.now) long outer }
{
    match (long, outer) {
        (false, false) => TokenText::new(Part::new(None, b"macro:"), none(), none()),
        (true, false) => escaped(names, b"long macro:"),
        (false, true) => escaped(names, b"outer macro:"),
        (true, true) => TokenText::new(
            Part::new(names.escape(), b"long"),
            Part::new(names.escape(), b"outer macro:"),
            none(),
        ),
    }
}

// A word behind the escape character, and a number behind it in capital hexadecimal digits.
fn hexadecimal_piece<'a>(names: &NamesView<'a>, word: &'a [u8], n: u32) -> TokenText<'a>
    ensures { result ≡ escaped (names_style names.now) word.now ++ hexadecimal n }
{
    let mut number = Text::new();
    hexadecimal_length(n);
    number.put_hex(n);
    TokenText::with_number(Part::new(names.escape(), word), number)
}

// The same with decimal digits.
fn decimal_piece<'a>(names: &NamesView<'a>, word: &'a [u8], n: u64) -> TokenText<'a>
    ensures { result ≡ escaped (names_style names.now) word.now ++ decimal n }
{
    let mut number = Text::new();
    count_length(n);
    number.put_count(n);
    TokenText::with_number(Part::new(names.escape(), word), number)
}

// A meaning without a macro's list.
pub(crate) fn meaning_piece<'a, L>(names: &NamesView<'a>, meaning: &Meaning<L>) -> TokenText<'a>
    ensures { result ≡ meaning_head (names_style names.now) meaning.now }
{
    match meaning {
        Meaning::Undefined => TokenText::new(Part::new(None, b"undefined"), none(), none()),
        Meaning::RelaxMarked => escaped(names, b"relax"),
        Meaning::Char { cat, code } => followed(character_word(*cat), *code),
        Meaning::CharGiven(c) => hexadecimal_piece(names, b"char\"", u32::from(*c)),
        Meaning::MathGiven(c) => hexadecimal_piece(names, b"mathchar\"", u32::from(*c)),
        Meaning::Register { kind, no } => decimal_piece(
            names,
            register_word(*kind),
            u64::from(*no),
        ),
        Meaning::Prim(number) => escaped(names, primitive_word(*number)),
        Meaning::Macro {
            long,
            outer,
            list: _,
        } => macro_piece(names, *long, *outer),
    }
}

// No text.
pub(crate) fn no_piece<'a>() -> TokenText<'a>
    ensures { result ≡ [] }
{
    TokenText::new(none(), none(), none())
}
