// Texts as they are printed, byte by byte.
ghost use Rattle.std.specs.Prelude.{◌≡◌, [], ◌∷◌, MatchOption};
ghost use Rattle.token_lists.specs.Table.{IsHeld};
ghost use Rattle.token_lists.specs.Ids.{id_of, build_id};
ghost use Rattle.plain_tokens.specs.Printed.{printed_all, name_text, shown_all, runaway_list, meaning_head, meaning_shown};
ghost use Rattle.token_show.specs.Views.{style_of, IsView, list_tokens, build_tokens, HoldsList};
ghost use Rattle.token_show.specs.Bytes.{all_printed};

use crate::characters::Characters;
use crate::printing::print_character;
use crate::view::View;
use std::marker::Model;
use tex_defs::{Meaning, Name, Token};
use token_lists::{Build, ListRef};

/// The bytes of a text that are still to come, as the transcript and the files that are written get them.
/// Contracts see them as a list.
///
/// *TeX: The Program*, part 5 (`print`).
#[derive(Drop)]
pub struct Shown<'a> {
    characters: Characters<'a>,
    newline: i32,
    // The bytes of the last character that are still to come.
    second: Option<u8>,
    third: Option<u8>,
    fourth: Option<u8>,
}

impl<'a> Model for Shown<'a> {
    ghost use Rattle.std.specs.Prelude.{ℕ, List};

    ghost Value = { List ℕ };

    ghost use Rattle.token_show.specs.Bytes.{bytes_left};

    ghost view = { bytes_left };
}

impl<'a> Shown<'a> {
    /// A text printed, where `newline` is the value of `\newlinechar`.
    pub fn new(characters: Characters<'a>, newline: i32) -> Shown<'a>
        ensures { result ≡ all_printed newline characters.entry }
    {
        Shown {
            characters,
            newline,
            second: None,
            third: None,
            fourth: None,
        }
    }

    /// The next byte; `None` exactly where none is left.
    pub fn next(&mut self) -> Option<u8>
        ensures { MatchOption result ((self.old ≡ []) × (self.new ≡ [])) (λ byte. self.old ≡ byte ∷ self.new) }
    {
        if let Some(byte) = self.second {
            self.second = None;
            return Some(byte);
        }
        if let Some(byte) = self.third {
            self.third = None;
            return Some(byte);
        }
        if let Some(byte) = self.fourth {
            self.fourth = None;
            return Some(byte);
        }
        let Some(c) = self.characters.next() else {
            return None;
        };
        let glyph = print_character(self.newline, c);
        self.second = glyph.second;
        self.third = glyph.third;
        self.fourth = glyph.fourth;
        Some(glyph.first)
    }
}

// A text, printed.
fn print<'a>(view: &View<'a>, characters: Characters<'a>) -> Shown<'a>
    ensures { result ≡ printed_all (style_of view.now) characters.entry }
{
    Shown::new(characters, view.names.newline)
}

/// A list of tokens, shown.
pub fn show_list<'a>(view: View<'a>, list: &'a ListRef) -> Shown<'a>
    requires names { IsView view }
    requires held { IsHeld view.lists.now (id_of list.now) }
    ensures { result ≡ shown_all (style_of view.entry) (list_tokens view.entry list.now) }
{
    print(&view, Characters::of_list(view, list))
}

/// A list that is being built, shown.
pub fn show_built<'a>(view: View<'a>, build: &'a Build) -> Shown<'a>
    requires names { IsView view }
    requires held { IsHeld view.lists.now (build_id build.now) }
    ensures { result ≡ shown_all (style_of view.entry) (build_tokens view.entry build.now) }
{
    print(&view, Characters::of_build(view, build))
}

/// The list of a runaway text: token by token while fewer than 62 bytes were printed, then `\ETC.` if tokens remain.
pub fn show_runaway<'a>(view: View<'a>, build: &'a Build) -> Shown<'a>
    requires names { IsView view }
    requires held { IsHeld view.lists.now (build_id build.now) }
    ensures { result ≡ runaway_list (style_of view.entry) (build_tokens view.entry build.now) }
{
    print(&view, Characters::of_runaway(view, build))
}

/// A token, shown as a list of it alone is.
pub fn show_token<'a>(view: View<'a>, token: Token) -> Shown<'a>
    requires { IsView view }
    ensures { result ≡ shown_all (style_of view.entry) (token ∷ []) }
{
    print(&view, Characters::of_token(view, token))
}

/// Characters, as those of a file's name, printed.
pub fn show_bytes<'a>(view: View<'a>, bytes: &'a [u8]) -> Shown<'a>
    requires { IsView view }
    ensures { result ≡ printed_all (style_of view.entry) bytes.now }
{
    print(&view, Characters::of_bytes(view, bytes))
}

/// A name as reports have it, printed: no space stands behind it.
pub fn name_text<'a>(view: View<'a>, name: Name) -> Shown<'a>
    requires { IsView view }
    ensures { result ≡ printed_all (style_of view.entry) (name_text (style_of view.entry) name) }
{
    print(&view, Characters::of_name(view, name))
}

/// A meaning without a macro's list, printed: of a macro up to its `macro:`, behind which `\show` has a line feed.
pub fn meaning_head<'a, L>(view: View<'a>, meaning: &Meaning<L>) -> Shown<'a>
    requires { IsView view }
    ensures { result ≡ printed_all (style_of view.entry) (meaning_head (style_of view.entry) meaning.now) }
{
    print(&view, Characters::of_meaning_head(view, meaning))
}

/// A meaning, printed: of a macro with its list.
pub fn meaning<'a>(view: View<'a>, meaning: &'a Meaning<ListRef>) -> Shown<'a>
    requires names { IsView view }
    requires held { HoldsList view.lists.now meaning.now }
    ensures { result ≡ meaning_shown (style_of view.entry) (list_tokens view.entry) meaning.now }
{
    print(&view, Characters::of_meaning(view, meaning))
}
