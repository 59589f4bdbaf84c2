// Made texts that are put in front.
ghost use Rattle.std.specs.Prelude.{◌≡◌, ◌≢◌, [], ◌∷◌, map, IfErr, IfOk, OnOk, IsSome, IfSome, MatchBool, Some, None};
ghost use Rattle.plain_machine.specs.States.{ListsEnded, ListBegun};
ghost use Rattle.plain_tokens.specs.Tokens.{made_token, made_text};
ghost use Rattle.plain_tokens.specs.Pending.{end_token_lists};
ghost use Rattle.plain_tokens.specs.Meanings.{seen_as, meaning_to_let};
ghost use Rattle.plain_tokens.specs.Numerals.{whole_number, roman};
ghost use Rattle.plain_tokens.specs.Printed.{list_text, meaning_text, meaning_tokens};
ghost use Rattle.equivalents.specs.Cases.{case_codes, case_changed};
ghost use Rattle.equivalents.specs.Parameters.{style_in};
ghost use Rattle.plain_state.specs.Reports.{string_text};
ghost use Rattle.token_lists.specs.Table.{tokens_at, IsHeld};
ghost use Rattle.token_lists.specs.Ids.{id_of};
ghost use Rattle.token_show.specs.Views.{names_style, IsNamesView};
ghost use Rattle.transcript.specs.Given.{tokens_given};
ghost use Rattle.input_state.specs.Calls.{text_of};
ghost use Rattle.plain_machine.specs.Plan.{put_made, put_text, put_characters, shared_tokens};
ghost use Rattle.reading_frames.specs.Views.{kept_list_of};
ghost use Rattle.input_state.specs.HeldLists.{made};
ghost use Rattle.engine_state.specs.Book.{Book};
ghost use Rattle.engine_state.specs.Clauses.{HoldsLists, MakesMoves, CutsMoves, PutsInFront, CutsPutting};
ghost use Rattle.engine_state.specs.Making.{HasGrown, GrowsNot, IsInFront, changed_list, characters_in, characters_of, text_at};
ghost use Rattle.engine_state.specs.Stands.{SameStore, SameOthers, SameFrames, page_of};
ghost use Rattle.plain_machine.specs.Weights.{pending_weight};

use crate::engine::Engine;
use crate::meaning::name_of;
use crate::values::text_at;
use crate::views::{ESCAPE_CHARACTER, NEW_LINE_CHARACTER, names_view};
use char_text::{Roman, Text, whole_number_length};
use equivalents::Loc;
use input_state::{Input, walks_stay};
use name_table::NameTable;
use plain_machine::Broken;
use tex_defs::{Full, Meaning, Name, Seen, Token};
use token_lists::{ListRef, Lists};
use token_show::{NamesView, TokenText, last_after, places_after};

/// What a text is made of.
#[derive(Clone, Copy)]
pub enum Made {
    /// The job's name.
    JobName,
    Number(i32),
    /// The number's roman letters.
    Roman(i32),
    /// A token, as `\string` has it.
    Spelling(Token),
    /// What the token means.
    Meaning(Seen),
    /// What stands at the location.
    Value(Loc),
}

/// The token of a character of a made text: a space token, or a character of category 12.
fn made_token(code: u8) -> Token
    ensures { result ≡ made_token code }
{
    if code == b' ' {
        Token::Char { cat: 10, code: 32 }
    } else {
        Token::Char { cat: 12, code }
    }
}

/// The list that is made gets the token of a character of a made text.
fn grow_character(input: &mut Input, code: u8) -> Result<(), Full>
    requires { IsSome input.old.making }
    ensures ok { OnOk result (HasGrown input.old input.new (made_text (code ∷ []))) }
    ensures err { IfErr result (λ full. GrowsNot input.old input.new (made_text (code ∷ [])) full) }
{
    input.grow_made(made_token(code))?;
    Ok(())
}

/// The list that is made gets the tokens of a made text. At `Err` it has a front of them.
fn grow_text(input: &mut Input, text: &[u8]) -> Result<(), Full>
    requires { IsSome input.old.making }
    ensures ok { OnOk result (HasGrown input.old input.new (made_text text.now)) }
    ensures err { IfErr result (λ full. GrowsNot input.old input.new (made_text text.now) full) }
{
    for code in text {
        grow_character(input, *code)?;
    }
    Ok(())
}

/// The list that is made gets the characters of a text that stands somewhere. Answers whether there was one.
fn grow_bytes(input: &mut Input, text: &[u8]) -> Result<bool, Full>
    requires { IsSome input.old.making }
    ensures ok { OnOk result (HasGrown input.old input.new (made_text text.now)) }
    ensures err { IfErr result (λ full. GrowsNot input.old input.new (made_text text.now) full) }
    ensures some { IfOk result (λ some. MatchBool some (text.now ≢ []) (text.now ≡ [])) }
{
    grow_text(input, text)?;
    Ok(!text.is_empty())
}

/// The list that is made gets the characters of a piece of a text. Answers whether there was one.
fn grow_piece(input: &mut Input, piece: TokenText<'_>) -> Result<bool, Full>
    requires { IsSome input.old.making }
    ensures ok { OnOk result (HasGrown input.old input.new (made_text piece.entry)) }
    ensures err { IfErr result (λ full. GrowsNot input.old input.new (made_text piece.entry) full) }
    ensures some { IfOk result (λ some. MatchBool some (piece.entry ≢ []) (piece.entry ≡ [])) }
{
    let mut piece = piece;
    let mut some = false;
    while let Some(code) = piece.next() {
        grow_character(input, code)?;
        some = true;
    }
    Ok(some)
}

/// The list that is made gets the letters of a roman numeral. Answers whether there was one.
fn grow_letters(input: &mut Input, letters: Roman) -> Result<bool, Full>
    requires { IsSome input.old.making }
    ensures ok { OnOk result (HasGrown input.old input.new (made_text letters)) }
    ensures err { IfErr result (λ full. GrowsNot input.old input.new (made_text letters) full) }
    ensures some { IfOk result (λ some. MatchBool some (letters ≢ []) (letters ≡ [])) }
{
    let mut left = letters;
    let mut some = false;
    while let Some(code) = left.next() {
        grow_character(input, code)?;
        some = true;
    }
    Ok(some)
}

/// The list that is made gets a number's roman letters. Answers whether there was one.
fn grow_roman(input: &mut Input, n: i32) -> Result<bool, Full>
    requires { IsSome input.old.making }
    ensures ok { OnOk result (HasGrown input.old input.new (made_text (roman n))) }
    ensures err { IfErr result (λ full. GrowsNot input.old input.new (made_text (roman n)) full) }
    ensures some { IfOk result (λ some. MatchBool some (roman n ≢ []) (roman n ≡ [])) }
{
    grow_letters(input, Roman::new(n))
}

/// The list that is made gets the characters of a number. Answers whether there was one.
fn grow_number(input: &mut Input, n: i32) -> Result<bool, Full>
    requires { IsSome input.old.making }
    ensures ok { OnOk result (HasGrown input.old input.new (made_text (whole_number n))) }
    ensures err { IfErr result (λ full. GrowsNot input.old input.new (made_text (whole_number n)) full) }
    ensures some { IfOk result (λ some. MatchBool some (whole_number n ≢ []) (whole_number n ≡ [])) }
{
    whole_number_length(n);
    let mut text = Text::new();
    text.put_int(n);
    grow_bytes(input, text.bytes())
}

/// What the token means now, as `\\let` would give it.
fn given_meaning(input: &Input, x: Seen) -> Meaning<()>
    ensures { result ≡ seen_as (meaning_to_let input.now.groups.now.meanings x) }
{
    match x.meaning {
        Meaning::RelaxMarked => Meaning::RelaxMarked,
        _ => input.seen(x.token).meaning,
    }
}

/// The list of the macro that the token means now, as `\\let` would give it, if there is one, and the memory in which all lists
/// stand.
pub(crate) fn given_list(input: &Input, x: Seen) -> (&Lists, Option<&ListRef>)
    ensures held { IfSome result.1 (λ r. IsHeld result.0.now (id_of r.now)) }
    ensures tokens { tokens_given (λ r. tokens_at result.0.now (id_of r.now)) result.1 ≡ meaning_tokens (shared_tokens input.now.lists) (meaning_to_let input.now.groups.now.meanings x) }
{
    match given_meaning(input, x) {
        Meaning::Macro { .. } => input.macro_list(name_of(x.token)),
        _ => (input.lists(), None),
    }
}

/// The list that is made gets the characters of the list of the macro that a name means. Answers whether there was one.
fn grow_list(input: &mut Input, names: NamesView<'_>, name: Name) -> Result<bool, Full>
    requires making { IsSome input.old.making }
    requires names { IsNamesView names }
    ensures ok { OnOk result (HasGrown input.old input.new (made_text (list_text (names_style names.entry) (text_of input.old.lists input.old.groups.now.meanings name)))) }
    ensures err { IfErr result (λ full. GrowsNot input.old input.new (made_text (list_text (names_style names.entry) (text_of input.old.lists input.old.groups.now.meanings name))) full) }
    ensures some { IfOk result (λ some. MatchBool some (list_text (names_style names.entry) (text_of input.old.lists input.old.groups.now.meanings name) ≢ []) (list_text (names_style names.entry) (text_of input.old.lists input.old.groups.now.meanings name) ≡ [])) }
{
    walks_stay();
    let mut walk = input.walk(name);
    let mut places = 0;
    let mut last = b'#';
    let mut some = false;
    while let Some((token, next)) = input.walk_on(walk) {
        let text = TokenText::of_token(names, places, last, token);
        some = grow_piece(input, text)? || some;
        places = places_after(places, token);
        last = last_after(last, token);
        walk = next;
    }
    Ok(some)
}

/// The list that is made gets the characters of what the token means. Answers whether there was one.
fn grow_meaning(input: &mut Input, names: NamesView<'_>, x: Seen) -> Result<bool, Full>
    requires making { IsSome input.old.making }
    requires names { IsNamesView names }
    ensures ok { OnOk result (HasGrown input.old input.new (made_text (meaning_text (names_style names.entry) (shared_tokens input.old.lists) (meaning_to_let input.old.groups.now.meanings x)))) }
    ensures err { IfErr result (λ full. GrowsNot input.old input.new (made_text (meaning_text (names_style names.entry) (shared_tokens input.old.lists) (meaning_to_let input.old.groups.now.meanings x))) full) }
    ensures some { IfOk result (λ some. MatchBool some (meaning_text (names_style names.entry) (shared_tokens input.old.lists) (meaning_to_let input.old.groups.now.meanings x) ≢ []) (meaning_text (names_style names.entry) (shared_tokens input.old.lists) (meaning_to_let input.old.groups.now.meanings x) ≡ [])) }
{
    let meaning = given_meaning(input, x);
    let some = grow_piece(input, TokenText::of_meaning_head(names, &meaning))?;
    match meaning {
        Meaning::Macro { .. } => Ok(grow_list(input, names, name_of(x.token))? || some),
        _ => Ok(some),
    }
}

/// The list that is made gets the characters of a token as `\string` shows it. Answers whether there was one.
fn grow_spelling(input: &mut Input, names: &NameTable, token: Token) -> Result<bool, Full>
    requires { IsSome input.old.making }
    ensures ok { OnOk result (HasGrown input.old input.new (made_text (string_text (style_in input.old.groups.now names.now.names) token))) }
    ensures err { IfErr result (λ full. GrowsNot input.old input.new (made_text (string_text (style_in input.old.groups.now names.now.names) token)) full) }
    ensures some { IfOk result (λ some. MatchBool some (string_text (style_in input.old.groups.now names.now.names) token ≢ []) (string_text (style_in input.old.groups.now names.now.names) token ≡ [])) }
{
    let categories = *input.categories();
    let escape = input.integer(ESCAPE_CHARACTER);
    let newline = input.integer(NEW_LINE_CHARACTER);
    let view = names_view(names, &categories, escape, newline);
    grow_piece(input, TokenText::of_string(view, token))
}

/// The list that is made gets the characters of what a token means, as `\meaning` shows it. Answers whether there was one.
fn grow_shown(input: &mut Input, names: &NameTable, x: Seen) -> Result<bool, Full>
    requires { IsSome input.old.making }
    ensures ok { OnOk result (HasGrown input.old input.new (made_text (meaning_text (style_in input.old.groups.now names.now.names) (shared_tokens input.old.lists) (meaning_to_let input.old.groups.now.meanings x)))) }
    ensures err { IfErr result (λ full. GrowsNot input.old input.new (made_text (meaning_text (style_in input.old.groups.now names.now.names) (shared_tokens input.old.lists) (meaning_to_let input.old.groups.now.meanings x))) full) }
    ensures some { IfOk result (λ some. MatchBool some (meaning_text (style_in input.old.groups.now names.now.names) (shared_tokens input.old.lists) (meaning_to_let input.old.groups.now.meanings x) ≢ []) (meaning_text (style_in input.old.groups.now names.now.names) (shared_tokens input.old.lists) (meaning_to_let input.old.groups.now.meanings x) ≡ [])) }
{
    let categories = *input.categories();
    let escape = input.integer(ESCAPE_CHARACTER);
    let newline = input.integer(NEW_LINE_CHARACTER);
    let view = names_view(names, &categories, escape, newline);
    grow_meaning(input, view, x)
}

/// The list that is made gets the characters of what stands at a location. Answers whether there was one.
fn grow_value(input: &mut Input, loc: Loc) -> Result<bool, Full>
    requires { IsSome input.old.making }
    ensures ok { OnOk result (HasGrown input.old input.new (made_text (text_at input.old.groups.now loc))) }
    ensures err { IfErr result (λ full. GrowsNot input.old input.new (made_text (text_at input.old.groups.now loc)) full) }
    ensures some { IfOk result (λ some. MatchBool some (text_at input.old.groups.now loc ≢ []) (text_at input.old.groups.now loc ≡ [])) }
{
    let text = text_at(input, loc);
    grow_bytes(input, text.bytes())
}

impl Engine {
    /// The finished lists in front go, and the list that is made is begun.
    fn begin_text(&mut self) -> Result<(), Broken>
        requires idle { self.old.input.making ≡ None }
        ensures did { OnOk result (MakesMoves HoldsLists self.old self.new (λ _. ListsEnded ∷ ListBegun ∷ [])) }
        ensures err { IfErr result (λ b. CutsMoves HoldsLists self.old self.new (λ _. ListsEnded ∷ ListBegun ∷ []) b) }
        ensures begun { OnOk result (self.new.input.making ≡ Some []) }
        ensures ended { self.new.input.pending ≡ end_token_lists self.old.input.pending }
        ensures front { IsInFront self.old self.new }
    {
        self.input.end_token_lists();
        self.input.make_list()?;
        Ok(())
    }

    /// The list that is made is put in front; one without tokens goes.
    fn end_text(&mut self, some: bool) -> Result<(), Broken>
        requires making { IsSome self.old.input.making }
        requires ended { self.old.input.pending ≡ end_token_lists self.old.input.pending }
        requires some { MatchBool some (made self.old.input.making ≢ []) (made self.old.input.making ≡ []) }
        ensures did { OnOk result (MakesMoves HoldsLists self.old self.new (λ _. put_made (made self.old.input.making))) }
        ensures err { IfErr result (λ b. CutsMoves HoldsLists self.old self.new (λ _. put_made (made self.old.input.making)) b) }
        ensures front { IsInFront self.old self.new }
        ensures idle { OnOk result (self.new.input.making ≡ None) }
    {
        if some {
            self.input.put_made()?;
        } else {
            self.input.drop_made();
        }
        Ok(())
    }

    /// The list that is made gets the characters of such a text. Answers whether there was one.
    fn grow_made(&mut self, made: Made) -> Result<bool, Full>
        requires { IsSome self.old.input.making }
        ensures ok { OnOk result (HasGrown self.old.input self.new.input (made_text (characters_in self.old made))) }
        ensures err { IfErr result (λ full. GrowsNot self.old.input self.new.input (made_text (characters_in self.old made)) full) }
        ensures some { IfOk result (λ some. MatchBool some (characters_in self.old made ≢ []) (characters_in self.old made ≡ [])) }
        ensures rest { self.new ≡ record self.old { input = self.new.input } }
    {
        match made {
            Made::JobName => grow_bytes(&mut self.input, self.names.first_string()),
            Made::Number(n) => grow_number(&mut self.input, n),
            Made::Roman(n) => grow_roman(&mut self.input, n),
            Made::Spelling(token) => grow_spelling(&mut self.input, &self.names, token),
            Made::Meaning(x) => grow_shown(&mut self.input, &self.names, x),
            Made::Value(loc) => grow_value(&mut self.input, loc),
        }
    }

    /// Puts such a text in front: a list of its characters is begun, grown and put, once the finished lists in front have gone; one without
    /// characters goes. *The TeXbook*, chapter 20 (`\jobname`, `\number`, `\romannumeral`, `\string`, `\meaning`, `\the`).
    ///
    /// # Errors
    /// The main memory or the input stack is full: of the list there is what had room.
    pub fn put_characters(&mut self, made: Made) -> Result<(), Broken>
        requires idle { self.old.input.making ≡ None }
        ensures did { OnOk result (PutsInFront self.old self.new (λ page. put_characters (characters_of page made))) }
        ensures err { IfErr result (λ b. CutsPutting self.old self.new (λ page. put_characters (characters_of page made)) b) }
        ensures frames { SameFrames self.old self.new }
        ensures others { SameOthers self.old self.new }
        ensures store { SameStore self.old.input self.new.input }
        ensures light { pending_weight self.new.input.pending ≡ pending_weight self.old.input.pending }
        ensures page { (book : Book) → page_of self.new book ≡ page_of self.old book }
        ensures idle { OnOk result (self.new.input.making ≡ None) }
    {
        self.begin_text()?;
        let some = self.grow_made(made)?;
        self.end_text(some)
    }

    /// The list that is made gets the tokens of the innermost of the lists that readings hold, if it is listed, its characters changed as
    /// `\uppercase` or `\lowercase` says. Answers whether there was one.
    fn grow_changed(&mut self, upper: bool, listed: bool) -> Result<bool, Full>
        requires { IsSome self.old.input.making }
        ensures ok { OnOk result (HasGrown self.old.input self.new.input (changed_list upper listed self.old.input)) }
        ensures err { IfErr result (λ full. GrowsNot self.old.input self.new.input (changed_list upper listed self.old.input) full) }
        ensures some { IfOk result (λ some. MatchBool some (changed_list upper listed self.old.input ≢ []) (changed_list upper listed self.old.input ≡ [])) }
        ensures rest { self.new ≡ record self.old { input = self.new.input } }
    {
        if listed && self.input.has_list() {
            let some = !self.input.is_list_empty();
            self.input.grow_changed(upper)?;
            return Ok(some);
        }
        Ok(false)
    }

    /// Puts the innermost of the lists that readings hold in front, if it is listed, its characters changed as `\uppercase` or `\lowercase`
    /// says: a list of them is begun, grown and put, once the finished lists in front have gone; one without tokens goes. *The TeXbook*,
    /// chapter 7; *TeX: The Program*, part 49 (`shift_case`).
    ///
    /// # Errors
    /// The main memory or the input stack is full: of the list there is what had room.
    pub fn put_changed(&mut self, upper: bool, listed: bool) -> Result<(), Broken>
        requires idle { self.old.input.making ≡ None }
        ensures did { OnOk result (PutsInFront self.old self.new (λ page. put_text (map (case_changed (case_codes upper page.now)) (kept_list_of listed self.old.input.builds)))) }
        ensures err { IfErr result (λ b. CutsPutting self.old self.new (λ page. put_text (map (case_changed (case_codes upper page.now)) (kept_list_of listed self.old.input.builds))) b) }
        ensures front { IsInFront self.old self.new }
        ensures idle { OnOk result (self.new.input.making ≡ None) }
    {
        self.begin_text()?;
        let some = self.grow_changed(upper, listed)?;
        self.end_text(some)
    }
}
