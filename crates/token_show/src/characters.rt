// Texts, character by character.
ghost use Rattle.std.specs.Prelude.{◌≡◌, ◌≤◌, ◌<◌, [], ◌∷◌, Some, length, MatchOption};
ghost use Rattle.token_lists.specs.Table.{tokens_at, IsHeld};
ghost use Rattle.token_lists.specs.Ids.{id_of, build_id};
ghost use Rattle.plain_tokens.specs.Printed.{name_text, list_text, runaway_text, meaning_head, meaning_text, meaning_tokens, places_after, last_after, no_place};
ghost use Rattle.token_show.specs.Views.{style_of, IsView, names_style, IsNamesView, list_tokens, build_tokens, HoldsList};
ghost use Rattle.token_show.specs.Texts.{room_after, is_spent, text_from};

use crate::piece::{bytes_piece, escaped, meaning_piece, name_piece, no_piece, token_piece};
use crate::places::{last_after, places_after};
use crate::printing::printed_len;
use crate::token_text::TokenText;
use crate::view::{NamesView, View};
use crate::walk::Walk;
use std::marker::Model;
use tex_defs::{Meaning, Name, Token};
use token_lists::{Build, ListRef, Lists};

/// The characters of a text that are still to come, before they are printed: those of `\string` and its like.
/// Contracts see them as a list.
///
/// *TeX: The Program*, part 20 (`show_token_list`) and part 17 (`sprint_cs`, `print_cs`).
#[derive(Drop)]
pub struct Characters<'a> {
    names: NamesView<'a>,
    // What is left of the present token's text.
    piece: TokenText<'a>,
    // The tokens behind it.
    walk: Walk<'a>,
    // How many parameter places were passed, and the character of the last.
    places: u8,
    last: u8,
    // How many bytes more of a runaway text may be printed.
    room: Option<u8>,
}

impl<'a> Model for Characters<'a> {
    ghost use Rattle.std.specs.Prelude.{ℕ, List};

    ghost Value = { List ℕ };

    ghost use Rattle.token_show.specs.Texts.{text_view, IsText};

    ghost view = { text_view };

    ghost invariant = { IsText };
}

// The next character of a piece, and the room behind it.
fn take(piece: &mut TokenText<'_>, room: &mut Option<u8>, names: &NamesView<'_>) -> Option<u8>
    ensures { MatchOption result ((piece.old ≡ []) × (piece.new ≡ []) × (room.new ≡ room.old)) (λ c. (piece.old ≡ c ∷ piece.new) × (room.new ≡ room_after room.old names.now.newline c)) }
{
    let c = piece.next()?;
    if let Some(bytes) = *room {
        *room = Some(bytes.saturating_sub(printed_len(names.newline, c)));
    }
    Some(c)
}

// Whether no byte more of a runaway text may be printed.
fn is_spent(room: Option<u8>) -> bool
    ensures { result ≡ is_spent room }
{
    match room {
        Some(bytes) => bytes == 0,
        None => false,
    }
}

// The text of a token, or `\ETC.` in place of it and of those behind it.
fn begin<'a>(
    names: &NamesView<'a>,
    room: Option<u8>,
    places: u8,
    last: u8,
    token: Token,
    walk: &mut Walk<'a>,
) -> TokenText<'a>
    requires names { IsNamesView names.now }
    requires few { places ≤ 9 }
    ensures text { text_from (names_style names.now) room places last [] (token ∷ walk.old) ≡ text_from (names_style names.now) room (places_after places token) (last_after last token) result walk.new }
    ensures some { 0 < length result }
{
    if is_spent(room) {
        walk.leave();
        return escaped(names, b"ETC.");
    }
    token_piece(names, places, last, token)
}

// The tokens of a macro's list, and none of another meaning.
fn meaning_walk<'a>(lists: &'a Lists, meaning: &'a Meaning<ListRef>) -> Walk<'a>
    requires { HoldsList lists.now meaning.now }
    ensures { result ≡ meaning_tokens (λ list. tokens_at lists.now (id_of list)) meaning.now }
{
    match meaning {
        Meaning::Macro {
            long: _,
            outer: _,
            list,
        } => Walk::of_list(lists, list),
        _ => Walk::nothing(lists),
    }
}

impl<'a> Characters<'a> {
    // A piece, and the tokens of a list behind it.
    fn new(
        names: NamesView<'a>,
        piece: TokenText<'a>,
        walk: Walk<'a>,
        room: Option<u8>,
    ) -> Characters<'a>
        requires { IsNamesView names }
        ensures { result ≡ text_from (names_style names.entry) room 0 no_place piece.entry walk.entry }
    {
        Characters {
            names,
            piece,
            walk,
            places: 0,
            last: b'#',
            room,
        }
    }

    /// A list of tokens, as `\meaning` and `\detokenize` have it.
    pub fn of_list(view: View<'a>, list: &'a ListRef) -> Characters<'a>
        requires names { IsView view }
        requires held { IsHeld view.lists.now (id_of list.now) }
        ensures { result ≡ list_text (style_of view.entry) (list_tokens view.entry list.now) }
    {
        let walk = Walk::of_list(view.lists, list);
        Characters::new(view.names, no_piece(), walk, None)
    }

    /// A list that is being built.
    pub fn of_build(view: View<'a>, build: &'a Build) -> Characters<'a>
        requires names { IsView view }
        requires held { IsHeld view.lists.now (build_id build.now) }
        ensures { result ≡ list_text (style_of view.entry) (build_tokens view.entry build.now) }
    {
        let walk = Walk::of_build(view.lists, build);
        Characters::new(view.names, no_piece(), walk, None)
    }

    /// The list of a runaway text: token by token while fewer than 62 bytes were printed, then `\ETC.` if tokens
    /// remain.
    ///
    /// *TeX: The Program*, part 22 (`runaway`).
    pub fn of_runaway(view: View<'a>, build: &'a Build) -> Characters<'a>
        requires names { IsView view }
        requires held { IsHeld view.lists.now (build_id build.now) }
        ensures { result ≡ runaway_text (style_of view.entry) (build_tokens view.entry build.now) }
    {
        let walk = Walk::of_build(view.lists, build);
        Characters::new(view.names, no_piece(), walk, Some(62))
    }

    /// A token, as a list of it alone has it.
    pub fn of_token(view: View<'a>, token: Token) -> Characters<'a>
        requires { IsView view }
        ensures { result ≡ list_text (style_of view.entry) (token ∷ []) }
    {
        let piece = token_piece(&view.names, 0, b'#', token);
        let walk = Walk::nothing(view.lists);
        Characters::new(view.names, piece, walk, None)
    }

    /// These characters, as those of a file's name.
    pub fn of_bytes(view: View<'a>, bytes: &'a [u8]) -> Characters<'a>
        requires { IsView view }
        ensures { result ≡ bytes.now }
    {
        let walk = Walk::nothing(view.lists);
        Characters::new(view.names, bytes_piece(bytes), walk, None)
    }

    /// A name, as `\string` gives it and as reports have it.
    pub fn of_name(view: View<'a>, name: Name) -> Characters<'a>
        requires { IsView view }
        ensures { result ≡ name_text (style_of view.entry) name }
    {
        let piece = name_piece(&view.names, name);
        let walk = Walk::nothing(view.lists);
        Characters::new(view.names, piece, walk, None)
    }

    /// A meaning without a macro's list: of a macro up to its `macro:`.
    ///
    /// *TeX: The Program*, part 17 (`print_cmd_chr`).
    pub fn of_meaning_head<L>(view: View<'a>, meaning: &Meaning<L>) -> Characters<'a>
        requires { IsView view }
        ensures { result ≡ meaning_head (style_of view.entry) meaning.now }
    {
        let piece = meaning_piece(&view.names, meaning);
        let walk = Walk::nothing(view.lists);
        Characters::new(view.names, piece, walk, None)
    }

    /// A meaning, as `\meaning` has it: of a macro with its list.
    pub fn of_meaning(view: View<'a>, meaning: &'a Meaning<ListRef>) -> Characters<'a>
        requires names { IsView view }
        requires held { HoldsList view.lists.now meaning.now }
        ensures { result ≡ meaning_text (style_of view.entry) (list_tokens view.entry) meaning.now }
    {
        let piece = meaning_piece(&view.names, meaning);
        let walk = meaning_walk(view.lists, meaning);
        Characters::new(view.names, piece, walk, None)
    }

    /// The next character; `None` exactly where none is left.
    pub fn next(&mut self) -> Option<u8>
        ensures { MatchOption result ((self.old ≡ []) × (self.new ≡ [])) (λ c. self.old ≡ c ∷ self.new) }
    {
        if let Some(c) = take(&mut self.piece, &mut self.room, &self.names) {
            return Some(c);
        }
        let Some(token) = self.walk.next() else {
            return None;
        };
        self.piece = begin(
            &self.names,
            self.room,
            self.places,
            self.last,
            token,
            &mut self.walk,
        );
        self.places = places_after(self.places, token);
        self.last = last_after(self.last, token);
        let Some(c) = take(&mut self.piece, &mut self.room, &self.names) else {
            unreachable!();
        };
        Some(c)
    }
}
