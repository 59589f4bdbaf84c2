// The text of one token, character by character.
ghost use Rattle.std.specs.Prelude.{◌≡◌, ◌≤◌, ◌<◌, [], ◌∷◌, ◌++◌, length, MatchOption};
ghost use Rattle.plain_tokens.specs.Printed.{name_text, token_text, meaning_head};
ghost use Rattle.plain_state.specs.Reports.{string_text};
ghost use Rattle.token_show.specs.Views.{names_style, IsNamesView};

use crate::part::Part;
use crate::piece::{meaning_piece, name_piece, string_piece, token_piece};
use crate::view::NamesView;
use char_text::Text;
use std::marker::Model;
use tex_defs::{Meaning, Name, Token};

/// The characters of a token, a name or a meaning that are still to come, before they are printed. It holds no lists, so that a
/// list can grow while they are made into tokens. Contracts see it as a list.
///
/// *TeX: The Program*, part 20 (`show_token_list`), part 17 (`sprint_cs`, `print_cmd_chr`) and part 27 (`str_toks`).
#[derive(Drop)]
pub struct TokenText<'a> {
    first: Part<'a>,
    second: Part<'a>,
    third: Part<'a>,
    number: Text,
    // How many characters of the number were handed out.
    given: usize,
}

impl<'a> Model for TokenText<'a> {
    ghost use Rattle.std.specs.Prelude.{ℕ, List, ◌++◌, drop};

    ghost Value = { List ℕ };

    ghost view = { λ a. a.first ++ (a.second ++ (a.third ++ drop a.given a.number)) };
}

impl<'a> TokenText<'a> {
    /// A token of a list, behind `places` parameter places, the last of which has the character `last`, `#` where there is none.
    pub fn of_token(names: NamesView<'a>, places: u8, last: u8, token: Token) -> TokenText<'a>
        requires names { IsNamesView names }
        requires few { places ≤ 9 }
        ensures text { result ≡ token_text (names_style names.entry) places last token }
        ensures some { 0 < length result }
    {
        token_piece(&names, places, last, token)
    }

    /// A token, as `\string` gives it.
    pub fn of_string(names: NamesView<'a>, token: Token) -> TokenText<'a>
        requires { IsNamesView names }
        ensures { result ≡ string_text (names_style names.entry) token }
    {
        string_piece(&names, token)
    }

    /// A name, as `\string` gives it and as reports have it.
    pub fn of_name(names: NamesView<'a>, name: Name) -> TokenText<'a>
        requires { IsNamesView names }
        ensures { result ≡ name_text (names_style names.entry) name }
    {
        name_piece(&names, name)
    }

    /// A meaning without a macro's list: of a macro up to its `macro:`.
    pub fn of_meaning_head<L>(names: NamesView<'a>, meaning: &Meaning<L>) -> TokenText<'a>
        requires { IsNamesView names }
        ensures { result ≡ meaning_head (names_style names.entry) meaning.now }
    {
        meaning_piece(&names, meaning)
    }

    // A text of three parts.
    pub(crate) fn new(first: Part<'a>, second: Part<'a>, third: Part<'a>) -> TokenText<'a>
        ensures { result ≡ first.entry ++ (second.entry ++ third.entry) }
    {
        TokenText {
            first,
            second,
            third,
            number: Text::new(),
            given: 0,
        }
    }

    // A part, and a number's text.
    pub(crate) fn with_number(first: Part<'a>, number: Text) -> TokenText<'a>
        ensures { result ≡ first.entry ++ number }
    {
        TokenText {
            first,
            second: Part::new(None, &[]),
            third: Part::new(None, &[]),
            number,
            given: 0,
        }
    }

    /// The next character; `None` exactly where none is left.
    pub fn next(&mut self) -> Option<u8>
        ensures { MatchOption result ((self.old ≡ []) × (self.new ≡ [])) (λ c. self.old ≡ c ∷ self.new) }
    {
        if let Some(c) = self.first.next() {
            return Some(c);
        }
        if let Some(c) = self.second.next() {
            return Some(c);
        }
        if let Some(c) = self.third.next() {
            return Some(c);
        }
        let digits = self.number.bytes();
        if self.given >= digits.len() {
            return None;
        }
        let c = digits[self.given];
        self.given += 1;
        Some(c)
    }
}
