// The input of a run.
ghost use Rattle.std.specs.Prelude.{◌≡◌, ◌≢◌, ℕ, true, false, ◌≤◌, ◌<◌, ◌+◌, ◌^◌, ◌++◌, [], ◌∷◌, None, Some, IsSome, IfSome, IsTrue, IfOk, IfErr, OnOk, OnErr, MatchResult, MatchBool, MatchOption, length, drop, replicate, vec_capacity, slice_index_or, pos, map};
ghost use Rattle.std.specs.Bool.{OnTrue};
ghost use Rattle.std.specs.Option.{option_map};
ghost use Rattle.tex_defs.specs.Sizes.{first_out_of_range};
ghost use Rattle.plain_tokens.specs.Tokens.{character_codes};
ghost use Rattle.plain_tokens.specs.Meanings.{is_listed, location, name_meaning, seen, met, meaning_to_let};
ghost use Rattle.equivalents.specs.declared.values.Val.TheVariants as val;
ghost use Rattle.equivalents.specs.Locations.{Suits, IsTokens, value_seen};
ghost use Rattle.equivalents.specs.Tables.{get};
ghost use Rattle.equivalents.specs.Groups.{first_groups, entered, set, set_name, set_demands, name_demands, group_demands, token_demands, opened, with_token, closed as group_closed, tokens_after, current_group, depth, IsLocation};
ghost use Rattle.equivalents.specs.Holding.{lists_held, lists_outside};
ghost use Rattle.equivalents.specs.Laws.{AreAlike};
ghost use Rattle.plain_tokens.specs.Arguments.{are_same, mode_of};
ghost use Rattle.plain_tokens.specs.Puts.{without_ended, passed, token_put, grow_first, grown_by};
ghost use Rattle.plain_tokens.specs.Pending.{Begun, Closed, bottom, beneath, ending, pulled, end_token_lists, all_puts, put_front, line_taken, from_file, with_begun, with_end, with_next};
ghost use Rattle.plain_tokens.specs.Tables.{is_put, lists_words, memory, level, buffer, open_files, open_lines, lines_beneath, next_line, next_file, text_level, spelt_name, refused};
ghost use Rattle.line_lexer.specs.declared.Ahead.TheVariants as ahead;
ghost use Rattle.plain_tokens.specs.declared.line_state.LineState.TheVariants.{NewLine};
ghost use Rattle.tex_defs.specs.declared.Table.TheVariants.{BufferSize};
ghost use Rattle.token_lists.specs.Table.{tokens_at, IsHeld};
ghost use Rattle.token_lists.specs.Table as table;
ghost use Rattle.token_lists.specs.Ids.{build_id, id_of};
ghost use Rattle.input_state.specs.HeldLists.{KeepsHeld, first_list, is_empty, made, has_item, ahead_of};
ghost use Rattle.meanings.specs.Kept.{IsPlaced, without_list};
ghost use Rattle.input_state.specs.declared.answer.CallKind.TheVariants.{AtOnce, Gathers};
ghost use Rattle.input_state.specs.HeldViews.{IsDefined};
ghost use Rattle.input_state.specs.Macros.{HasNameRoom, list_at};
ghost use Rattle.input_state.specs.Calls.{call_kind, called_put, after_call, put_of, text_of, list_to_let, begun_lists, Defines};
ghost use Rattle.input_state.specs.Callings.{NotCalling, IsComplete, call_in};
ghost use Rattle.input_state.specs.Callings as calls;
ghost use Rattle.input_state.specs.CallFeeds.{IsTaking, Feeds, CutShort, growth, with_scan, call_work};
ghost use Rattle.macro_call.specs.PlainScans.{first_scan, cut_scan, noted_scan};
ghost use Rattle.input_state.specs.NextBytes.{KnowsNext, NeedsBytes, KnowsFirst, NeedsFirst, with_bytes, with_first_bytes};
ghost use Rattle.input_state.specs.Counted.{AreCounted};
ghost use Rattle.input_state.specs.Stored.{KeepsShared, call_refusal, put_refusal, words, spelt};
ghost use Rattle.input_state.specs.Walks.{to_come};
ghost use Rattle.input_state.specs.AtLocations.{SetsList, AppendsShort, location_put, location_tokens, appended, appended_made, with_appended, with_appended_made};
ghost use Rattle.equivalents.specs.Cases.{case_codes, case_changed};
ghost use Rattle.equivalents.specs.Parameters.{integer_in, end_of_line};
ghost use Rattle.input_state.specs.declared.answer.Pulled.TheVariants as answer;
ghost use Rattle.input_state.specs.Reads.{GivesTo, TakesLine, Pulls, pull_refusal, RefusesLine, gives_step};

use crate::file::{Files, Step};
use crate::lines::{first_line, put_bytes, put_line};
use crate::lists_held::Held;
use crate::places::{spell, spelt_length};
use crate::{Call, CallKind, Pulled, Walk};
use eqtb_save::{Glue, GroupKind, Loc, Val};
use line_lexer::{Ahead, Line};
use plain_tokens::LineState;
use std::alloc::{AllocError, Global};
use std::marker::Model;
use tex_defs::{Full, Meaning, Name, Seen, Sizes, Table, Token};
use token_lists::{Build, ListRef, Lists};

/// All lists of a run, and all that is still to be read: files beneath files, each with the rest of its line and the lists in
/// front of it.
///
/// It must be closed. *TeX: The Program*, parts 22 and 24.
#[must_use]
pub struct Input {
    held: Held,
    /// The lines of the files stand in it, the outermost at the front.
    buffer: Vec<u8>,
    files: Files,
}

// Clauses see plain lists.
impl Model for Input {
    ghost use Rattle.input_state.specs.Stored.{Stored};

    ghost Value = { Stored };

    ghost use Rattle.input_state.specs.InputViews.{stored_of, IsTied};

    ghost view = { λ i. stored_of i.held i.buffer.items i.files };

    ghost invariant = { λ i. IsTied i.held i.buffer.items i.files };
}

/// The place of `\endlinechar` among the integer parameters.
const END_LINE_CHARACTER: u8 = 48;

// A line between these places, none of it read.
fn line_start(at: usize, end: usize) -> Line
    ensures { result ≡ record { at = at; end = end; state = NewLine } }
{
    Line {
        at,
        end,
        state: LineState::NewLine,
    }
}

// The refusal of bytes that have no room in the buffer, of which so much is used.
fn buffer_full(sizes: &Sizes, used: usize) -> Full
    requires { used < 2 ^ 32 }
    ensures { result ≡ record { table = BufferSize; used = used; size = sizes.now.buffer_size } }
{
    Full {
        table: Table::BufferSize,
        used: used as u32,
        size: sizes.buffer_size,
    }
}

impl Input {
    /// No file is open, and there is room for all that these sizes admit. The primitives of these numbers mean something.
    ///
    /// # Errors
    /// There is no room for them. No other call takes memory.
    pub fn new(alloc: Global, sizes: &Sizes, known: &[u16]) -> Result<Input, AllocError>
        requires { first_out_of_range sizes.now ≡ None }
        ensures { IfOk result (λ i. i ≡ record { pending = bottom; making = None; call = NotCalling; builds = []; buffer = i.buffer; sizes = sizes.now; groups = first_groups (is_listed known.now); closing = []; ending = None; lists = replicate sizes.now.main_memory_size [] }) }
    {
        let buffer = vec![in alloc; 0; sizes.buffer_size as usize]?;
        let files = Files::new(alloc, sizes.buffer_size, sizes.text_input_levels)?;
        let held = Held::new(alloc, sizes, known)?;
        Ok(Input {
            held,
            buffer,
            files,
        })
    }

    /// The bytes of the line buffer.
    pub fn buffer(&self) -> &[u8]
        ensures { result.now ≡ self.now.buffer }
    {
        &self.buffer
    }

    /// The number of the line that is being read, 0 where no file is open. It stands still at 2^64 - 1.
    pub fn line_number(&self) -> u64
        ensures { result ≡ self.now.pending.number }
    {
        self.files.number()
    }

    /// How many words of main memory are used: for each list that is held, 1 and its length.
    pub fn words(&self) -> u32
        ensures is { result ≡ words self.now }
        ensures within { result ≤ self.now.sizes.main_memory_size }
    {
        self.held.words()
    }

    /// The lists in front that are finished go.
    pub fn end_token_lists(&mut self)
        ensures after { self.new ≡ record self.old { pending = end_token_lists self.old.pending; lists = self.new.lists } }
        ensures keeps { KeepsShared self.old self.new }
    {
        self.held.end_token_lists();
    }

    /// Begins a list that an open reading gathers.
    ///
    /// # Errors
    /// The main memory is full; nothing has changed.
    pub fn begin_list(&mut self) -> Result<(), Full>
        ensures refused { MatchResult result (λ _. refused self.old.sizes (memory 1 (words self.old) ∷ []) ≡ None) (λ full. refused self.old.sizes (memory 1 (words self.old) ∷ []) ≡ Some full) }
        ensures ok { OnOk result (self.new ≡ record self.old { builds = [] ∷ self.old.builds; lists = self.new.lists }) }
        ensures err { OnErr result (self.new ≡ self.old) }
        ensures keeps { KeepsShared self.old self.new }
    {
        self.held.begin_list()
    }

    /// The innermost gathered list gets a token at its end.
    ///
    /// # Errors
    /// The main memory is full; nothing has changed.
    #[inline(always)]
    pub fn grow_list(&mut self, token: Token) -> Result<(), Full>
        requires { self.old.builds ≢ [] }
        ensures refused { MatchResult result (λ _. refused self.old.sizes (memory 1 (words self.old) ∷ []) ≡ None) (λ full. refused self.old.sizes (memory 1 (words self.old) ∷ []) ≡ Some full) }
        ensures ok { OnOk result (self.new ≡ record self.old { builds = grow_first token self.old.builds; lists = self.new.lists }) }
        ensures err { OnErr result (self.new ≡ self.old) }
        ensures keeps { KeepsShared self.old self.new }
    {
        self.held.grow_list(token)
    }

    /// The innermost gathered list gets the tokens of the list that stands at a location. *TeX: The Program*, part 27 (`the_toks`).
    ///
    /// # Errors
    /// The main memory is full: some of the tokens are there, from the first on, and nothing else has changed.
    pub fn copy_list(&mut self, loc: Loc) -> Result<(), Full>
        requires some { self.old.builds ≢ [] }
        requires within { IsLocation self.old.groups loc }
        ensures ok { OnOk result (self.new ≡ record self.old { builds = appended (location_tokens self.old.lists self.old.groups loc) self.old.builds; lists = self.new.lists }) }
        ensures fits { OnOk result (words self.old + length (location_tokens self.old.lists self.old.groups loc) ≤ self.old.sizes.main_memory_size) }
        ensures err { IfErr result (λ full. AppendsShort with_appended (location_tokens self.old.lists self.old.groups loc) self.old self.new full) }
        ensures keeps { KeepsShared self.old self.new }
    {
        self.held.copy_list(loc)
    }

    /// The innermost gathered list goes.
    pub fn drop_list(&mut self)
        requires { self.old.builds ≢ [] }
        ensures after { self.new ≡ record self.old { builds = drop 1 self.old.builds; lists = self.new.lists } }
        ensures keeps { KeepsShared self.old self.new }
    {
        self.held.drop_list();
    }

    /// Whether a reading gathers a list, but for a call.
    #[inline(always)]
    pub fn has_list(&self) -> bool
        ensures { MatchBool result (self.now.builds ≢ []) (self.now.builds ≡ []) }
    {
        self.held.is_gathering()
    }

    /// Whether the innermost gathered list has no token.
    pub fn is_list_empty(&self) -> bool
        requires { self.now.builds ≢ [] }
        ensures { result ≡ is_empty (first_list self.now.builds) }
    {
        let (lists, build) = self.held.list();
        lists.first_built(build).is_none()
    }

    /// The innermost gathered list, and the memory in which it stands.
    pub fn list(&self) -> (&Lists, &Build)
        requires { self.now.builds ≢ [] }
        ensures held { IsHeld result.0.now (build_id result.1.now) }
        ensures tokens { tokens_at result.0.now (build_id result.1.now) ≡ first_list self.now.builds }
    {
        self.held.list()
    }

    /// How many lists the readings gather, but for a call's.
    pub fn list_count(&self) -> usize
        ensures { result ≡ length self.now.builds }
    {
        self.held.list_count()
    }

    /// One of these lists, by its number from the innermost, and the memory in which it stands.
    pub fn nth_list(&self, k: u32) -> (&Lists, &Build)
        requires { k < length self.now.builds }
        ensures held { IsHeld result.0.now (build_id result.1.now) }
        ensures tokens { tokens_at result.0.now (build_id result.1.now) ≡ list_at self.now.builds k }
    {
        self.held.nth_list(k as usize)
    }

    /// The codes of the characters of the innermost gathered list go behind the open lines, and it is told how many they are.
    /// *The TeXbook*, chapter 7 (`\csname`); *TeX: The Program*, part 25.
    ///
    /// # Errors
    /// They pass the buffer; nothing has changed.
    pub fn spell(&mut self) -> Result<usize, Full>
        requires { self.old.builds ≢ [] }
        ensures refused { MatchResult result (λ _. refused self.old.sizes (spelt_name (character_codes (first_list self.old.builds)) self.old.pending ∷ []) ≡ None) (λ full. refused self.old.sizes (spelt_name (character_codes (first_list self.old.builds)) self.old.pending ∷ []) ≡ Some full) }
        ensures ok { IfOk result (λ n. (n ≡ length (character_codes (first_list self.old.builds))) × (spelt self.new n ≡ character_codes (first_list self.old.builds))) }
        ensures room { IfOk result (λ n. open_lines self.old.pending + n ≤ self.old.sizes.buffer_size) }
        ensures others { self.new ≡ record self.old { buffer = self.new.buffer } }
        ensures err { OnErr result (self.new ≡ self.old) }
    {
        let lines = self.files.open_lines();
        let (lists, build) = self.held.list();
        let Some(count) = spelt_length(lists, build, self.buffer.len() - lines) else {
            return Err(buffer_full(self.held.sizes(), lines));
        };
        spell(lists, build, &mut self.buffer, lines);
        Ok(count)
    }

    /// Further bytes go behind a name of `n` bytes that was spelt, and it is told how many they are together.
    ///
    /// # Errors
    /// They pass the buffer; nothing has changed.
    pub fn spell_on(&mut self, n: usize, bytes: &[u8]) -> Result<usize, Full>
        requires { open_lines self.old.pending + n ≤ self.old.sizes.buffer_size }
        ensures refused { MatchResult result (λ _. refused self.old.sizes (buffer (n + length bytes.now) (open_lines self.old.pending) ∷ []) ≡ None) (λ full. refused self.old.sizes (buffer (n + length bytes.now) (open_lines self.old.pending) ∷ []) ≡ Some full) }
        ensures ok { IfOk result (λ k. (k ≡ n + length bytes.now) × (spelt self.new k ≡ spelt self.old n ++ bytes.now)) }
        ensures room { IfOk result (λ k. open_lines self.old.pending + k ≤ self.old.sizes.buffer_size) }
        ensures others { self.new ≡ record self.old { buffer = self.new.buffer } }
        ensures err { OnErr result (self.new ≡ self.old) }
    {
        let lines = self.files.open_lines();
        if bytes.len() > self.buffer.len() - lines - n {
            return Err(buffer_full(self.held.sizes(), lines));
        }
        put_bytes(&mut self.buffer, lines + n, bytes);
        Ok(n + bytes.len())
    }

    /// The first `n` bytes behind the open lines: a name that was spelt.
    pub fn spelt(&self, n: usize) -> &[u8]
        requires { open_lines self.now.pending + n ≤ self.now.sizes.buffer_size }
        ensures { result.now ≡ spelt self.now n }
    {
        let lines = self.files.open_lines();
        &self.buffer[lines..lines + n]
    }

    /// The memory of all lists. Each list is counted once for each of its holders, and for nothing else.
    pub fn lists(&self) -> &Lists
        ensures words { table.words result.now ≡ words self.now }
        ensures tokens { (id : ℕ) → tokens_at result.now id ≡ list_at self.now.lists id }
        ensures counts { AreCounted result.now self.now }
    {
        self.held.lists()
    }

    /// Begins the list that is made.
    ///
    /// # Errors
    /// The main memory is full; nothing has changed.
    pub fn make_list(&mut self) -> Result<(), Full>
        requires { self.old.making ≡ None }
        ensures refused { MatchResult result (λ _. refused self.old.sizes (memory 1 (words self.old) ∷ []) ≡ None) (λ full. refused self.old.sizes (memory 1 (words self.old) ∷ []) ≡ Some full) }
        ensures ok { OnOk result (self.new ≡ record self.old { making = Some []; lists = self.new.lists }) }
        ensures err { OnErr result (self.new ≡ self.old) }
        ensures keeps { KeepsShared self.old self.new }
    {
        self.held.make_list()
    }

    /// The list that is made gets a token at its end.
    ///
    /// # Errors
    /// The main memory is full; nothing has changed.
    #[inline(always)]
    pub fn grow_made(&mut self, token: Token) -> Result<(), Full>
        requires { IsSome self.old.making }
        ensures refused { MatchResult result (λ _. refused self.old.sizes (memory 1 (words self.old) ∷ []) ≡ None) (λ full. refused self.old.sizes (memory 1 (words self.old) ∷ []) ≡ Some full) }
        ensures ok { OnOk result (self.new ≡ record self.old { making = grown_by token self.old.making; lists = self.new.lists }) }
        ensures err { OnErr result (self.new ≡ self.old) }
        ensures keeps { KeepsShared self.old self.new }
    {
        self.held.grow_made(token)
    }

    /// The list that is made gets the tokens of the innermost gathered list, its characters as capital letters, or as small ones.
    /// *TeX: The Program*, part 49 (`shift_case`).
    ///
    /// # Errors
    /// The main memory is full: some of the tokens are there, from the first on, and nothing else has changed.
    pub fn grow_changed(&mut self, upper: bool) -> Result<(), Full>
        requires some { self.old.builds ≢ [] }
        requires making { IsSome self.old.making }
        ensures ok { OnOk result (self.new ≡ record self.old { making = appended_made (map (case_changed (case_codes upper self.old.groups.now)) (first_list self.old.builds)) self.old.making; lists = self.new.lists }) }
        ensures fits { OnOk result (words self.old + length (map (case_changed (case_codes upper self.old.groups.now)) (first_list self.old.builds)) ≤ self.old.sizes.main_memory_size) }
        ensures err { IfErr result (λ full. AppendsShort with_appended_made (map (case_changed (case_codes upper self.old.groups.now)) (first_list self.old.builds)) self.old self.new full) }
        ensures keeps { KeepsShared self.old self.new }
    {
        self.held.grow_changed(upper)
    }

    /// The list that is made goes.
    pub fn drop_made(&mut self)
        requires { IsSome self.old.making }
        ensures after { self.new ≡ record self.old { making = None; lists = self.new.lists } }
        ensures keeps { KeepsShared self.old self.new }
    {
        self.held.drop_made();
    }

    /// Puts the list that is made in front of all that is pending; one without tokens goes.
    ///
    /// # Errors
    /// The input stack is full; nothing has changed.
    pub fn put_made(&mut self) -> Result<(), Full>
        requires some { IsSome self.old.making }
        requires without_ended { self.old.pending ≡ end_token_lists self.old.pending }
        ensures refused { MatchResult result (λ _. refused self.old.sizes (level self.old.pending ∷ []) ≡ None) (λ full. refused self.old.sizes (level self.old.pending ∷ []) ≡ Some full) }
        ensures ok { OnOk result (self.new ≡ record self.old { pending = put_front (token_put (made self.old.making)) self.old.pending; making = None; lists = self.new.lists }) }
        ensures err { OnErr result (self.new ≡ record self.old { lists = self.new.lists }) }
        ensures keeps { KeepsShared self.old self.new }
    {
        if let Some(full) = self.held.room() {
            return Err(full);
        }
        self.held.put_made();
        Ok(())
    }

    // What the next reading gives, but for what the file gives.
    fn looks(&self) -> Ahead
        ensures ahead { result ≡ ahead_of self.now.groups.now.categories self.now.pending }
        ensures passed { result ≡ ahead.End → passed self.now.pending.puts ≡ [] }
    {
        self.held.looks(&self.buffer)
    }

    // The next token of a list in front, or what the line gives, where it isn't used up.
    fn read_front(&mut self) -> Result<Pulled, Full>
        requires { ahead_of self.old.groups.now.categories self.old.pending ≢ ahead.End }
        ensures gives { GivesTo (pulled self.old.groups.now.categories self.old.pending) result self.old.pending self.new.pending self.new.buffer }
        ensures others { self.new ≡ record self.old { pending = self.new.pending; buffer = self.new.buffer; lists = self.new.lists } }
        ensures keeps { KeepsShared self.old self.new }
        ensures refused { MatchResult result (λ _. pull_refusal self.old ≡ None) (λ full. pull_refusal self.old ≡ Some full) }
        ensures err { OnErr result (self.new.pending ≡ end_token_lists self.old.pending) }
    {
        self.held.pull(&mut self.buffer)
    }

    // Where nothing is left in front of the file but gaps, all lists in front of its line go.
    fn drop_front(&mut self)
        requires { ahead_of self.old.groups.now.categories self.old.pending ≡ ahead.End }
        ensures front { self.new.pending.puts ≡ [] }
        ensures file { self.new.pending.file ≡ self.old.pending.file }
        ensures outer { self.new.pending.outer ≡ self.old.pending.outer }
        ensures others { self.new ≡ record self.old { pending = self.new.pending; buffer = self.new.buffer; lists = self.new.lists } }
        ensures keeps { KeepsShared self.old self.new }
    {
        self.held.drop_front(&mut self.buffer);
    }

    // Takes the next line of the file.
    fn take_line(&mut self) -> Result<(), Full>
        requires end { ahead_of self.old.groups.now.categories self.old.pending ≡ ahead.End }
        requires without_ended { end_token_lists self.old.pending ≡ self.old.pending }
        requires open { self.old.pending.file ≡ Begun }
        ensures ok { OnOk result (TakesLine (line_taken self.old.pending self.old.pending.rest) (end_of_line self.old.groups.now) self.old.pending self.new.pending) }
        ensures refused { MatchResult result (λ _. refused self.old.sizes (next_line self.old.pending) ≡ None) (λ full. refused self.old.sizes (next_line self.old.pending) ≡ Some full) }
        ensures err { OnErr result (self.new.pending ≡ self.old.pending) }
        ensures others { self.new ≡ record self.old { pending = self.new.pending; buffer = self.new.buffer; lists = self.new.lists } }
        ensures keeps { KeepsShared self.old self.new }
    {
        let cut = first_line(self.files.rest());
        let lines = self.files.lines_beneath();
        if cut.whole >= self.buffer.len() - lines {
            return Err(buffer_full(self.held.sizes(), lines));
        }
        self.held.drop_front(&mut self.buffer);
        let end = self.held.integer(END_LINE_CHARACTER);
        let length = put_line(&mut self.buffer, lines, &self.files.rest()[..cut.kept], end);
        self.held.begin_line(line_start(lines, lines + length));
        self.files.pass_line(cut.kept, cut.used);
        Ok(())
    }

    // The innermost file goes.
    fn end_file(&mut self)
        requires front { self.old.pending.puts ≡ [] }
        requires open { self.old.pending.file ≡ Begun }
        ensures { self.new ≡ record self.old { pending = beneath self.old.pending.outer } }
    {
        self.held.end_file();
        self.files.end_file();
    }

    // The next line of the file, or its end, where nothing is left of a line.
    fn pull_file(&mut self) -> Result<Pulled, Full>
        requires end { ahead_of self.old.groups.now.categories self.old.pending ≡ ahead.End }
        requires without_ended { end_token_lists self.old.pending ≡ self.old.pending }
        ensures ok { IfOk result (λ r. Pulls (from_file self.old.pending self.old.pending.file) r self.old self.new) }
        ensures others { self.new ≡ record self.old { pending = self.new.pending; buffer = self.new.buffer; lists = self.new.lists } }
        ensures keeps { KeepsShared self.old self.new }
        ensures puts { (id : ℕ) → is_put id (all_puts self.new.pending) ≡ true → is_put id (all_puts self.old.pending) ≡ true }
        ensures err { IfErr result (λ full. RefusesLine full self.old self.new) }
    {
        match self.files.step() {
            Step::Nothing => Ok(Pulled::Nothing),
            Step::Over => {
                self.drop_front();
                self.end_file();
                Ok(Pulled::FileOver)
            }
            Step::Line => {
                self.take_line()?;
                Ok(Pulled::Taken)
            }
        }
    }

    /// The next token of a list in front, where it is at hand: no list has to go first, and no argument's level opens. Else nothing changes.
    #[inline(always)]
    pub fn quick(&mut self) -> Option<Token>
        ensures gives { IfSome result (λ t. Pulls (pulled self.old.groups.now.categories self.old.pending) (answer.Token t) self.old self.new) }
        ensures room { IsSome result → pull_refusal self.old ≡ None }
        ensures stays { result ≡ None → self.new ≡ self.old }
        ensures others { self.new ≡ record self.old { pending = self.new.pending } }
        ensures keeps { KeepsShared self.old self.new }
    {
        self.held.quick()
    }

    /// The next token of a list in front, character or name of the line, or line of the file.
    /// *The TeXbook*, chapters 7 and 8; *TeX: The Program*, part 24 (`get_next`).
    ///
    /// # Errors
    /// The next line is too long for the buffer, or the level of an argument passes the size of the input stack. Nothing has
    /// changed but that the finished lists in front have gone.
    #[inline(always)]
    pub fn pull(&mut self) -> Result<Pulled, Full>
        ensures ok { IfOk result (λ r. Pulls (pulled self.old.groups.now.categories self.old.pending) r self.old self.new) }
        ensures others { self.new ≡ record self.old { pending = self.new.pending; buffer = self.new.buffer; lists = self.new.lists } }
        ensures keeps { KeepsShared self.old self.new }
        ensures refused { MatchResult result (λ _. pull_refusal self.old ≡ None) (λ full. pull_refusal self.old ≡ Some full) }
        ensures err { OnErr result (self.new.pending ≡ end_token_lists self.old.pending) }
    {
        match self.quick() {
            Some(token) => Ok(Pulled::Token(token)),
            None => self.pull_looked(),
        }
    }

    // The same, where it may be that lists have to go first, that a level opens, or that a line or the file gives it.
    #[inline(always)]
    fn pull_looked(&mut self) -> Result<Pulled, Full>
        ensures ok { IfOk result (λ r. Pulls (pulled self.old.groups.now.categories self.old.pending) r self.old self.new) }
        ensures others { self.new ≡ record self.old { pending = self.new.pending; buffer = self.new.buffer; lists = self.new.lists } }
        ensures keeps { KeepsShared self.old self.new }
        ensures refused { MatchResult result (λ _. pull_refusal self.old ≡ None) (λ full. pull_refusal self.old ≡ Some full) }
        ensures err { OnErr result (self.new.pending ≡ end_token_lists self.old.pending) }
    {
        match self.looks() {
            Ahead::Token | Ahead::Invalid => self.read_front(),
            Ahead::End => {
                self.end_token_lists();
                self.pull_file()
            }
        }
    }

    /// Whether the list or the call in front has a token left: then it comes next, and no byte of the file is needed for it. It may be
    /// an argument's first, whose level must have room. Nothing changes.
    pub fn has_item(&self) -> bool
        ensures is { result ≡ has_item self.now.pending.puts }
        ensures knows { IsTrue result → KnowsNext self.now }
        ensures step { IsTrue result → gives_step (pulled self.now.groups.now.categories self.now.pending) ≡ true }
    {
        self.held.has_item()
    }

    /// Whether the next reading gives a token, a name or a line. Nothing changes.
    #[inline(always)]
    pub fn is_ready(&self) -> bool
        ensures { result ≡ gives_step (pulled self.now.groups.now.categories self.now.pending) }
    {
        match self.looks() {
            Ahead::Token => true,
            Ahead::Invalid => false,
            Ahead::End => self.files.has_line(),
        }
    }

    /// Whether the file must give more before it is known what the next reading gives. In the middle of a line that is
    /// told by what stands next; no byte of the file is looked at.
    pub fn needs_bytes(&self) -> bool
        ensures ready { result ≡ false → KnowsNext self.now }
        ensures needs { result ≡ true → NeedsBytes self.now }
    {
        match self.looks() {
            Ahead::Token | Ahead::Invalid => false,
            Ahead::End => self.files.lacks_next(),
        }
    }

    /// The next bytes of the file came, behind those that are left of it.
    pub fn add_bytes(&mut self, bytes: &[u8])
        requires begun { self.old.pending.next ≡ None }
        requires open { self.old.pending.file ≡ Begun }
        requires room { length self.old.pending.rest ≤ self.old.sizes.buffer_size }
        requires window { length bytes.now ≤ 256 }
        ensures { self.new ≡ record self.old { pending = with_bytes bytes.now self.old.pending } }
    {
        self.files.add(bytes);
    }

    /// Whether a file was opened that isn't begun: its first line is the next step.
    pub fn has_next(&self) -> bool
        ensures { MatchBool result (IsSome self.now.pending.next) (self.now.pending.next ≡ None) }
    {
        self.files.has_next()
    }

    /// Whether the file that was opened must give more before its first line is known.
    pub fn needs_first_bytes(&self) -> bool
        ensures { MatchBool result (NeedsFirst self.now) (KnowsFirst self.now) }
    {
        self.files.lacks_first()
    }

    /// The next bytes of the file that was opened came, behind those that it has.
    pub fn add_first_bytes(&mut self, bytes: &[u8])
        requires needs { NeedsFirst self.old }
        requires window { length bytes.now ≤ 256 }
        ensures { self.new ≡ record self.old { pending = with_first_bytes bytes.now self.old.pending } }
    {
        self.files.add_first(bytes);
    }

    /// The file that was opened is begun with its first line, above all that is pending. *TeX: The Program*, part 29
    /// (`start_input`).
    ///
    /// # Errors
    /// The line is too long for the buffer behind the open lines, or else the input stack is full; nothing has changed.
    pub fn begin_file(&mut self) -> Result<(), Full>
        requires opened { IsSome self.old.pending.next }
        requires without_ended { end_token_lists self.old.pending ≡ self.old.pending }
        ensures refused { MatchResult result (λ _. refused self.old.sizes (next_file self.old.pending) ≡ None) (λ full. refused self.old.sizes (next_file self.old.pending) ≡ Some full) }
        ensures ok { OnOk result (self.new.pending ≡ with_end (end_of_line self.old.groups.now) (with_begun self.old.pending)) }
        ensures err { OnErr result (self.new.pending ≡ self.old.pending) }
        ensures others { self.new ≡ record self.old { pending = self.new.pending; buffer = self.new.buffer; lists = self.new.lists } }
        ensures keeps { KeepsShared self.old self.new }
    {
        let cut = first_line(self.files.first_bytes());
        let lines = self.files.open_lines();
        if cut.whole >= self.buffer.len() - lines {
            return Err(buffer_full(self.held.sizes(), lines));
        }
        if let Some(full) = self.held.room() {
            return Err(full);
        }
        let end = self.held.integer(END_LINE_CHARACTER);
        let length = put_line(
            &mut self.buffer,
            lines,
            &self.files.first_bytes()[..cut.kept],
            end,
        );
        match self.held.open_file(line_start(lines, lines + length)) {
            Ok(()) => {}
            Err(_full) => unreachable!(),
        }
        self.files.begin(cut.kept, cut.used);
        Ok(())
    }

    /// Why no file more may be open.
    pub fn file_room(&self) -> Option<Full>
        ensures { result ≡ refused self.now.sizes (text_level self.now.pending ∷ []) }
    {
        let sizes = self.held.sizes();
        let used = self.files.count();
        if used < sizes.text_input_levels {
            return None;
        }
        Some(Full {
            table: Table::TextInputLevels,
            used,
            size: sizes.text_input_levels,
        })
    }

    /// A file is opened, of which no byte has come. It is begun with its first line.
    pub fn open_file(&mut self)
        requires none { self.old.pending.next ≡ None }
        requires room { refused self.old.sizes (text_level self.old.pending ∷ []) ≡ None }
        ensures { self.new ≡ record self.old { pending = with_next (Some []) self.old.pending } }
    {
        self.files.open();
    }

    /// The innermost file ends behind its present line: `\endinput`. *TeX: The Program*, parts 24 and 25 (`force_eof`).
    pub fn end_input(&mut self)
        ensures { self.new ≡ record self.old { pending = ending self.old.pending } }
    {
        self.files.end_input();
    }

    /// How many files are open, also one that isn't begun.
    pub fn open_files(&self) -> u32
        ensures is { result ≡ open_files self.now.pending }
        ensures lines { open_lines self.now.pending ≤ self.now.sizes.buffer_size }
    {
        self.files.count()
    }

    /// A token with what it means now: a character means itself.
    pub fn seen(&self, token: Token) -> Seen
        ensures { result ≡ seen self.now.groups.now.meanings token }
    {
        self.held.seen(token)
    }

    /// A token as it is handed on: a name that `\noexpand` marked is the plain name, which this once means `\relax` where it
    /// would be expanded. *The TeXbook*, chapter 20; *TeX: The Program*, part 24 (`get_next`).
    #[inline(always)]
    pub fn met(&self, token: Token) -> Seen
        ensures { result ≡ met self.now.groups.now.meanings token }
    {
        self.held.met(token)
    }

    /// Whether one more name of two or more characters may be entered.
    pub fn has_name_room(&self) -> bool
        ensures { MatchBool result (HasNameRoom self.now.groups self.now.sizes.hash_size) (HasNameRoom self.now.groups self.now.sizes.hash_size → ⊥) }
    {
        self.held.has_name_room()
    }

    /// Gives the next name of two or more characters a location. It is undefined.
    pub fn enter_name(&mut self)
        requires { HasNameRoom self.old.groups self.old.sizes.hash_size }
        ensures after { self.new ≡ record self.old { groups = entered self.old.groups } }
        ensures keeps { KeepsShared self.old self.new }
    {
        self.held.enter_name();
    }

    /// Whether a name may be assigned: it has a location, and if it has two or more characters, it was entered.
    pub fn is_placed(&self, name: Name) -> bool
        ensures { MatchBool result (IsPlaced (location name) (length self.now.groups.now.meanings)) (IsPlaced (location name) (length self.now.groups.now.meanings) → ⊥) }
    {
        self.held.is_placed(name)
    }

    /// A name becomes a macro: the innermost gathered list is its parameter text, the end mark and its body. The list of
    /// what the name meant is let go, or saved for the group's end. *The TeXbook*, chapters 20 and 24; *TeX: The Program*, part 19 (`eq_define`).
    ///
    /// # Errors
    /// The save stack is full; nothing has changed.
    pub fn define(&mut self, name: Name, long: bool, outer: bool, global: bool) -> Result<(), Full>
        requires some { self.old.builds ≢ [] }
        requires calls { self.old.call ≡ NotCalling }
        requires list { IsDefined (first_list self.old.builds) }
        requires assignable { IsPlaced (location name) (length self.old.groups.now.meanings) }
        ensures refused { MatchResult result (λ _. refused self.old.sizes (name_demands global self.old.groups name) ≡ None) (λ full. refused self.old.sizes (name_demands global self.old.groups name) ≡ Some full) }
        ensures ok { OnOk result (self.new ≡ record self.old { builds = drop 1 self.old.builds; groups = self.new.groups; lists = self.new.lists }) }
        ensures defines { OnOk result (Defines global self.old.groups self.new.groups (all_puts self.old.pending) self.old.lists self.new.lists (first_list self.old.builds) name long outer) }
        ensures err { OnErr result (self.new ≡ self.old) }
        ensures keeps { KeepsShared self.old self.new }
    {
        self.held.define(name, long, outer, global)
    }

    /// A name gets the meaning that `\let` gives it from a token that was handed on. A macro's list is shared by both names,
    /// and the list of what the name meant is let go or saved: a name that is let to itself keeps its meaning. No word is taken.
    /// *The TeXbook*, chapter 20; *TeX: The Program*, part 49 (`let`).
    ///
    /// # Errors
    /// The save stack is full; nothing has changed.
    pub fn let_name(&mut self, name: Name, x: Seen, global: bool) -> Result<(), Full>
        requires calls { self.old.call ≡ NotCalling }
        requires assignable { IsPlaced (location name) (length self.old.groups.now.meanings) }
        ensures refused { MatchResult result (λ _. refused self.old.sizes (name_demands global self.old.groups name) ≡ None) (λ full. refused self.old.sizes (name_demands global self.old.groups name) ≡ Some full) }
        ensures ok { OnOk result (self.new ≡ record self.old { groups = set_name global self.old.groups name (meaning_to_let self.old.groups.now.meanings x); lists = self.new.lists }) }
        ensures err { OnErr result (self.new ≡ self.old) }
        ensures keeps { KeepsShared self.old self.new }
    {
        self.held.let_name(name, x, global)
    }

    /// A name gets this meaning, which is no macro's, as an undefined name that `\csname` makes becomes `\relax`. The list of what the
    /// name meant is let go, or saved.
    ///
    /// # Errors
    /// The save stack is full; nothing has changed.
    pub fn set_meaning(
        &mut self,
        name: Name,
        meaning: Meaning<()>,
        global: bool,
    ) -> Result<(), Full>
        requires calls { self.old.call ≡ NotCalling }
        requires assignable { IsPlaced (location name) (length self.old.groups.now.meanings) }
        ensures refused { MatchResult result (λ _. refused self.old.sizes (name_demands global self.old.groups name) ≡ None) (λ full. refused self.old.sizes (name_demands global self.old.groups name) ≡ Some full) }
        ensures ok { OnOk result (self.new ≡ record self.old { groups = set_name global self.old.groups name (without_list meaning); lists = self.new.lists }) }
        ensures err { OnErr result (self.new ≡ self.old) }
        ensures keeps { KeepsShared self.old self.new }
    {
        self.held.set_meaning(name, meaning, global)
    }

    /// A code of a character, an integer or a dimension (in sp) gets this number, which suits it. *The TeXbook*, chapter 24; *TeX: The
    /// Program*, part 19 (`eq_define`, `eq_word_define`).
    ///
    /// # Errors
    /// The save stack is full; nothing has changed.
    pub fn set_number(&mut self, loc: Loc, number: i32, global: bool) -> Result<(), Full>
        requires within { IsLocation self.old.groups loc }
        requires suits { Suits loc (val.Number number) }
        ensures refused { MatchResult result (λ _. refused self.old.sizes (set_demands global self.old.groups loc) ≡ None) (λ full. refused self.old.sizes (set_demands global self.old.groups loc) ≡ Some full) }
        ensures ok { OnOk result (self.new ≡ record self.old { groups = set global self.old.groups loc (val.Number number); lists = self.new.lists }) }
        ensures err { OnErr result (self.new ≡ self.old) }
        ensures keeps { KeepsShared self.old self.new }
    {
        self.held.set_number(loc, number, global)
    }

    /// A glue parameter or register gets this glue. *The TeXbook*, chapter 24; *TeX: The Program*, part 19 (`eq_define`).
    ///
    /// # Errors
    /// The save stack is full; nothing has changed.
    pub fn set_glue(&mut self, loc: Loc, glue: Glue, global: bool) -> Result<(), Full>
        requires within { IsLocation self.old.groups loc }
        requires suits { Suits loc (val.Skip glue) }
        ensures refused { MatchResult result (λ _. refused self.old.sizes (set_demands global self.old.groups loc) ≡ None) (λ full. refused self.old.sizes (set_demands global self.old.groups loc) ≡ Some full) }
        ensures ok { OnOk result (self.new ≡ record self.old { groups = set global self.old.groups loc (val.Skip glue); lists = self.new.lists }) }
        ensures err { OnErr result (self.new ≡ self.old) }
        ensures keeps { KeepsShared self.old self.new }
    {
        self.held.set_glue(loc, glue, global)
    }

    /// A location gets the innermost gathered list, which has a token. The list that stood there is let go, or saved for the
    /// group's end. *The TeXbook*, chapter 24; *TeX: The Program*, part 49.
    ///
    /// # Errors
    /// The save stack is full; nothing has changed.
    pub fn set_list(&mut self, loc: Loc, global: bool) -> Result<(), Full>
        requires some { self.old.builds ≢ [] }
        requires list { IsDefined (first_list self.old.builds) }
        requires within { IsLocation self.old.groups loc }
        requires suits { Suits loc (val.Tokens None) }
        ensures refused { MatchResult result (λ _. refused self.old.sizes (set_demands global self.old.groups loc) ≡ None) (λ full. refused self.old.sizes (set_demands global self.old.groups loc) ≡ Some full) }
        ensures ok { OnOk result (self.new ≡ record self.old { builds = drop 1 self.old.builds; groups = self.new.groups; lists = self.new.lists }) }
        ensures sets { OnOk result (SetsList global self.old.groups self.new.groups (all_puts self.old.pending) self.old.lists self.new.lists (first_list self.old.builds) loc) }
        ensures err { OnErr result (self.new ≡ self.old) }
        ensures keeps { KeepsShared self.old self.new }
    {
        self.held.set_list(loc, global)
    }

    /// A location gets what stands at another: a list has a holder more then, and no word is taken. *The TeXbook*, chapter
    /// 24; *TeX: The Program*, part 49 (`prefixed_command`).
    ///
    /// # Errors
    /// The save stack is full; nothing has changed.
    pub fn share_list(&mut self, loc: Loc, from: Loc, global: bool) -> Result<(), Full>
        requires within { IsLocation self.old.groups loc }
        requires from_within { IsLocation self.old.groups from }
        requires suits { Suits loc (get self.old.groups.now from) }
        requires list { IsTokens (get self.old.groups.now from) }
        ensures refused { MatchResult result (λ _. refused self.old.sizes (set_demands global self.old.groups loc) ≡ None) (λ full. refused self.old.sizes (set_demands global self.old.groups loc) ≡ Some full) }
        ensures ok { OnOk result (self.new ≡ record self.old { groups = set global self.old.groups loc (get self.old.groups.now from); lists = self.new.lists }) }
        ensures err { OnErr result (self.new ≡ self.old) }
        ensures keeps { KeepsShared self.old self.new }
    {
        self.held.share_list(loc, from, global)
    }

    /// A register of `\toks` or a token parameter gets a list without tokens, which is none.
    ///
    /// # Errors
    /// The save stack is full; nothing has changed.
    pub fn set_no_list(&mut self, loc: Loc, global: bool) -> Result<(), Full>
        requires within { IsLocation self.old.groups loc }
        requires suits { Suits loc (val.Tokens None) }
        ensures refused { MatchResult result (λ _. refused self.old.sizes (set_demands global self.old.groups loc) ≡ None) (λ full. refused self.old.sizes (set_demands global self.old.groups loc) ≡ Some full) }
        ensures ok { OnOk result (self.new ≡ record self.old { groups = set global self.old.groups loc (val.Tokens None); lists = self.new.lists }) }
        ensures err { OnErr result (self.new ≡ self.old) }
        ensures keeps { KeepsShared self.old self.new }
    {
        self.held.set_no_list(loc, global)
    }

    /// Opens a group. Nothing is copied. *The TeXbook*, chapter 24; *TeX: The Program*, part 19 (`new_save_level`).
    ///
    /// # Errors
    /// The save stack is full, or else as many groups are open as may be; nothing has changed.
    pub fn open_group(&mut self, kind: GroupKind) -> Result<(), Full>
        ensures refused { MatchResult result (λ _. refused self.old.sizes (group_demands self.old.groups) ≡ None) (λ full. refused self.old.sizes (group_demands self.old.groups) ≡ Some full) }
        ensures ok { OnOk result (self.new ≡ record self.old { groups = opened self.old.groups kind }) }
        ensures err { OnErr result (self.new ≡ self.old) }
        ensures keeps { KeepsShared self.old self.new }
    {
        self.held.open_group(kind)
    }

    /// Keeps a token for the end of the innermost group. A group is open. *TeX: The Program*, part 19 (`save_for_after`).
    ///
    /// # Errors
    /// The save stack is full; nothing has changed.
    pub fn after_group(&mut self, token: Token) -> Result<(), Full>
        requires { 0 < depth self.old.groups }
        ensures refused { MatchResult result (λ _. refused self.old.sizes (token_demands self.old.groups) ≡ None) (λ full. refused self.old.sizes (token_demands self.old.groups) ≡ Some full) }
        ensures ok { OnOk result (self.new ≡ record self.old { groups = with_token self.old.groups token }) }
        ensures err { OnErr result (self.new ≡ self.old) }
        ensures keeps { KeepsShared self.old self.new }
    {
        self.held.after_group(token)
    }

    /// The innermost group goes: what was saved in it holds again, and what no location has then is let go. Its tokens are still to be given; what an
    /// earlier group had still to give is given no more. *TeX: The Program*, part 19 (`unsave`).
    pub fn close_group(&mut self)
        requires open { 0 < depth self.old.groups }
        requires calls { self.old.call ≡ NotCalling }
        ensures after { self.new ≡ record self.old { groups = group_closed self.old.groups; closing = tokens_after self.old.groups; ending = current_group self.old.groups; lists = self.new.lists } }
        ensures keeps { KeepsShared self.old self.new }
    {
        self.held.close_group();
    }

    /// The next token of the group that was closed, the last first; behind them all its end.
    pub fn next_after(&mut self) -> Option<Token>
        requires { self.old.ending ≡ None → ⊥ }
        ensures next { MatchOption result (self.old.closing ≡ []) (λ t. self.old.closing ≡ t ∷ self.new.closing) }
        ensures others { self.new ≡ record self.old { closing = self.new.closing; ending = self.new.ending } }
        ensures goes_on { IsSome result → self.new.ending ≡ self.old.ending }
        ensures ends { result ≡ None → self.new.ending ≡ None }
    {
        self.held.next_after()
    }

    /// The kind of the innermost open group, if one is open.
    pub fn group_kind(&self) -> Option<GroupKind>
        ensures { result ≡ current_group self.now.groups }
    {
        self.held.group_kind()
    }

    /// How many groups are open.
    pub fn group_depth(&self) -> u32
        ensures { result ≡ depth self.now.groups }
    {
        self.held.group_depth()
    }

    /// The category codes, by their characters.
    pub fn categories(&self) -> &[u8; 256]
        ensures { result.now ≡ self.now.groups.now.categories }
    {
        self.held.categories()
    }

    /// The value of an integer parameter, by its place among the 55, from 0.
    pub fn integer(&self, i: u8) -> i32
        requires { i < 55 }
        ensures { result ≡ integer_in self.now.groups.now i }
    {
        self.held.integer(i)
    }

    /// What stands at a location, without its list.
    pub fn value(&self, loc: Loc) -> Val<()>
        requires { IsLocation self.now.groups loc }
        ensures { result ≡ value_seen (get self.now.groups.now loc) }
    {
        self.held.value(loc)
    }

    /// A walk at the first token of the list of the macro that a name means: at its end where the name means none.
    pub fn walk(&self, name: Name) -> Walk
        ensures { to_come self.now result ≡ text_of self.now.lists self.now.groups.now.meanings name }
    {
        Walk { name, index: 0 }
    }

    /// The next token of a walk, and the walk behind it, if a token is still to come. The call walks along all that stands in
    /// front.
    pub fn walk_on(&self, walk: Walk) -> Option<(Token, Walk)>
        ensures { MatchOption result (to_come self.now walk ≡ []) (λ r. to_come self.now walk ≡ r.0 ∷ to_come self.now r.1) }
    {
        let Walk { name, index } = walk;
        let (token, index) = self.held.macro_token(name, index)?;
        Some((token, Walk { name, index }))
    }

    /// The list of the macro that a name means, if it means one with a list, and the memory in which all lists
    /// stand.
    pub fn macro_list(&self, name: Name) -> (&Lists, Option<&ListRef>)
        ensures held { IfSome result.1 (λ r. IsHeld result.0.now (id_of r.now)) }
        ensures tokens { MatchOption result.1 (text_of self.now.lists self.now.groups.now.meanings name ≡ []) (λ r. tokens_at result.0.now (id_of r.now) ≡ text_of self.now.lists self.now.groups.now.meanings name) }
    {
        self.held.macro_list(name)
    }

    /// Whether the macros that two tokens mean, as `\let` would give them, have the same tokens: a token that means no macro has none.
    pub fn same_list(&self, x: Seen, y: Seen) -> bool
        ensures { result ≡ are_same (list_to_let self.now.lists self.now.groups.now.meanings x) (list_to_let self.now.lists self.now.groups.now.meanings y) }
    {
        self.held.same_list(x, y)
    }

    /// The list of tokens that stands at a location, if one does, and the memory in which all lists stand.
    pub fn list_at_location(&self, loc: Loc) -> (&Lists, Option<&ListRef>)
        requires { IsLocation self.now.groups loc }
        ensures held { IfSome result.1 (λ r. IsHeld result.0.now (id_of r.now)) }
        ensures tokens { MatchOption result.1 (location_tokens self.now.lists self.now.groups loc ≡ []) (λ r. tokens_at result.0.now (id_of r.now) ≡ location_tokens self.now.lists self.now.groups loc) }
    {
        self.held.list_at_location(loc)
    }

    /// Each list that holds again behind the innermost group, or one around it, is held now, and the names have as many locations there. The call
    /// does nothing.
    pub fn recall_groups(&self)
        ensures outside { (id : ℕ) → is_listed (lists_outside self.now.groups.outer) id ≡ true → is_listed (lists_held self.now.groups) id ≡ true }
        ensures alike { AreAlike self.now.groups }
    {
        self.held.recall_groups();
    }

    /// Calls a name, and tells how it is called. The body of a macro that has no parameter text is put in front of all that is
    /// pending: its list is shared, not copied. One without a body changes nothing, nor does a name that is called otherwise.
    /// *TeX: The Program*, part 25 (`macro_call`).
    ///
    /// # Errors
    /// The input stack is full, once the finished lists in front have gone; nothing else has changed.
    #[inline(always)]
    pub fn call_at_once(&mut self, name: Name) -> Result<CallKind, Full>
        ensures kind { MatchResult result (λ kind. kind ≡ call_kind self.old.lists (name_meaning self.old.groups.now.meanings name)) (λ _. call_kind self.old.lists (name_meaning self.old.groups.now.meanings name) ≡ AtOnce) }
        ensures refused { MatchResult result (λ kind. kind ≡ AtOnce → call_refusal (called_put self.old.lists (name_meaning self.old.groups.now.meanings name)) self.old ≡ None) (λ full. call_refusal (called_put self.old.lists (name_meaning self.old.groups.now.meanings name)) self.old ≡ Some full) }
        ensures ok { IfOk result (λ kind. kind ≡ AtOnce → self.new ≡ record self.old { pending = after_call (called_put self.old.lists (name_meaning self.old.groups.now.meanings name)) self.old.pending; lists = self.new.lists }) }
        ensures others { IfOk result (λ kind. kind ≢ AtOnce → self.new ≡ self.old) }
        ensures err { OnErr result (self.new ≡ record self.old { pending = end_token_lists self.old.pending; lists = self.new.lists }) }
        ensures keeps { KeepsShared self.old self.new }
    {
        self.held.call_at_once(name)
    }

    /// Puts the list that stands at a location in front of all that is pending; where none stands, nothing changes. The
    /// list is shared, not copied. *TeX: The Program*, part 27 (`ins_the_toks`).
    ///
    /// # Errors
    /// The input stack is full, once the finished lists in front have gone; nothing else has changed.
    pub fn put_list(&mut self, loc: Loc) -> Result<(), Full>
        requires { IsLocation self.old.groups loc }
        ensures refused { MatchResult result (λ _. call_refusal (location_put self.old.lists self.old.groups loc) self.old ≡ None) (λ full. call_refusal (location_put self.old.lists self.old.groups loc) self.old ≡ Some full) }
        ensures ok { OnOk result (self.new ≡ record self.old { pending = after_call (location_put self.old.lists self.old.groups loc) self.old.pending; lists = self.new.lists }) }
        ensures err { OnErr result (self.new ≡ record self.old { pending = end_token_lists self.old.pending; lists = self.new.lists }) }
        ensures keeps { KeepsShared self.old self.new }
    {
        self.held.put_list(loc)
    }

    /// A call of a macro with a parameter text begins: its arguments are gathered. Where the text begins with a place, the
    /// first argument's list is begun. `long` tells whether the macro is `\long`.
    ///
    /// # Errors
    /// The main memory is full; nothing has changed.
    pub fn begin_call(&mut self, name: Name, long: bool) -> Result<(), Full>
        requires none { self.old.call ≡ NotCalling }
        requires gathers { call_kind self.old.lists (name_meaning self.old.groups.now.meanings name) ≡ Gathers }
        ensures refused { MatchResult result (λ _. refused self.old.sizes (memory (lists_words (begun_lists (text_of self.old.lists self.old.groups.now.meanings name))) (words self.old) ∷ []) ≡ None) (λ full. refused self.old.sizes (memory (lists_words (begun_lists (text_of self.old.lists self.old.groups.now.meanings name))) (words self.old) ∷ []) ≡ Some full) }
        ensures ok { OnOk result (self.new ≡ record self.old { call = calls.Gathering name (first_scan (text_of self.old.lists self.old.groups.now.meanings name) (mode_of long)); lists = self.new.lists }) }
        ensures err { OnErr result (self.new ≡ self.old) }
        ensures keeps { KeepsShared self.old self.new }
    {
        self.held.begin_call(name, long)
    }

    /// Whether a call is gathered.
    #[inline(always)]
    pub fn is_calling(&self) -> bool
        ensures { MatchBool result (self.now.call ≢ NotCalling) (self.now.call ≡ NotCalling) }
    {
        self.held.is_calling()
    }

    /// The call that gathers its arguments, if one does, by what it asks for.
    #[inline(always)]
    pub fn call(&self) -> Option<Call>
        ensures { result ≡ call_in self.now.call }
    {
        self.held.call()
    }

    /// Whether a call takes tokens.
    pub fn is_taking(&self) -> bool
        ensures { MatchBool result (IsTaking self.now.call) (IsTaking self.now.call → ⊥) }
    {
        self.held.is_taking()
    }

    /// Feeds a token to the call, which then asks for what the definition of arguments asks for behind all that was fed.
    ///
    /// # Errors
    /// The main memory is full: some of the tokens that go into the list in work are in it, from the first on, and not
    /// all, and nothing else has changed; or the argument is whole, and the next one's list isn't begun. The call takes no
    /// more tokens.
    pub fn feed_call(&mut self, token: Token) -> Result<(), Full>
        requires { IsTaking self.old.call }
        ensures ok { OnOk result (Feeds (text_of self.old.lists self.old.groups.now.meanings) token self.old.call self.new.call) }
        ensures fits { OnOk result (words self.old + length (growth (text_of self.old.lists self.old.groups.now.meanings) token self.old.call) ≤ self.old.sizes.main_memory_size) }
        ensures err { OnErr result (CutShort (text_of self.old.lists self.old.groups.now.meanings) token self.old.call self.new.call) }
        ensures full { IfErr result (λ full. refused self.new.sizes (memory 1 (words self.new) ∷ []) ≡ Some full) }
        ensures others { self.new ≡ record self.old { call = self.new.call; lists = self.new.lists } }
        ensures keeps { KeepsShared self.old self.new }
    {
        self.held.feed_call(token)
    }

    /// A check came in the call, at a file's end or at an `\outer` name: from here the macro counts as not `\long`, and a
    /// `\par` that ends the call has no report.
    pub fn cut_call(&mut self)
        requires { IsTaking self.old.call }
        ensures after { self.new ≡ record self.old { call = with_scan cut_scan self.old.call } }
    {
        self.held.cut_call();
    }

    /// The extra brace that the call answered was put back and reported.
    pub fn note_call(&mut self)
        requires { IsTaking self.old.call }
        ensures after { self.new ≡ record self.old { call = with_scan noted_scan self.old.call } }
    {
        self.held.note_call();
    }

    /// The list in work of the call, if there is one, and the memory in which it stands.
    pub fn call_list(&self) -> Option<(&Lists, &Build)>
        ensures held { IfSome result (λ r. IsHeld r.0.now (build_id r.1.now)) }
        ensures tokens { call_work self.now.call ≡ option_map (λ r. tokens_at r.0.now (build_id r.1.now)) result }
    {
        self.held.call_list()
    }

    /// Puts the call in front of all that is pending: the macro's body, each parameter number replaced by its argument.
    /// The list is shared, not copied, and the arguments pass to it; one without a body lets them go and changes nothing
    /// else. *TeX: The Program*, part 25 (`macro_call`).
    ///
    /// # Errors
    /// The arguments or the level have no room, once the finished lists in front have gone; nothing else has changed.
    pub fn put_call(&mut self) -> Result<(), Full>
        requires { IsComplete self.old.call }
        ensures refused { MatchResult result (λ _. put_refusal (put_of self.old.lists self.old.groups.now.meanings self.old.call) self.old ≡ None) (λ full. put_refusal (put_of self.old.lists self.old.groups.now.meanings self.old.call) self.old ≡ Some full) }
        ensures ok { OnOk result (self.new ≡ record self.old { pending = after_call (put_of self.old.lists self.old.groups.now.meanings self.old.call) self.old.pending; call = NotCalling; lists = self.new.lists }) }
        ensures err { OnErr result (self.new ≡ record self.old { pending = end_token_lists self.old.pending; lists = self.new.lists }) }
        ensures keeps { KeepsShared self.old self.new }
    {
        self.held.put_call()
    }

    /// The call's lists go, and none is gathered.
    pub fn drop_call(&mut self)
        ensures after { self.new ≡ record self.old { call = NotCalling; lists = self.new.lists } }
        ensures keeps { KeepsShared self.old self.new }
    {
        self.held.drop_call();
    }

    /// Lets all lists go, and with them the input.
    pub fn close(self) {
        let Input {
            held,
            buffer: _,
            files: _,
        } = self;
        held.close();
    }
}
