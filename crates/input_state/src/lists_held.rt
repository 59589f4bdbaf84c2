// The lists in front, those that are being made and gathered, the lines of the files beneath them, and what stands at all locations.
ghost use Rattle.std.specs.Prelude.{◌≡◌, ◌≢◌, ℕ, ◌≤◌, ◌<◌, ◌+◌, ◌++◌, ◌↔◌, true, List, [], ◌∷◌, Option, None, Some, Ok, IsSome, IfSome, IsTrue, IfOk, OnOk, OnErr, IfErr, MatchResult, MatchBool, MatchOption, length, drop, replicate, option_to_list, vec_capacity, slice_index_or, pos, map};
ghost use Rattle.tex_defs.specs.Sizes.{first_out_of_range};
ghost use Rattle.plain_tokens.specs.Meanings.{is_listed, location, name_meaning, seen, met, meaning_to_let};
ghost use Rattle.equivalents.specs.declared.values.Val.TheVariants as val;
ghost use Rattle.equivalents.specs.Locations.{Suits, IsTokens, value_seen};
ghost use Rattle.equivalents.specs.Tables.{get};
ghost use Rattle.equivalents.specs.Groups.{first_groups, entered, set, set_name, set_demands, name_demands, group_demands, token_demands, opened, with_token, closed, tokens_after, current_group, depth, IsLocation};
ghost use Rattle.equivalents.specs.Parameters.{integer_in};
ghost use Rattle.equivalents.specs.Holding.{lists_held, lists_outside};
ghost use Rattle.equivalents.specs.Laws.{AreAlike};
ghost use Rattle.equivalents.specs.Cases.{case_codes, case_changed};
ghost use Rattle.eqtb_save.specs.Values.{numbered_value};
ghost use Rattle.eqtb_save.specs.Holding.{val_holds, held};
ghost use Rattle.meanings.specs.Holding.{Lasts};
ghost use Rattle.plain_tokens.specs.Arguments.{are_same, mode_of};
ghost use Rattle.plain_tokens.specs.Puts.{without_ended, passed, with_put, token_put, grow_first, grown_by};
ghost use Rattle.plain_tokens.specs.Pending.{pulled};
ghost use Rattle.plain_tokens.specs.Tables.{lists_words, memory, refused};
ghost use Rattle.line_lexer.specs.declared.Ahead.TheVariants as ahead;
ghost use Rattle.token_lists.specs.Table.{words, tokens_at, holders_at, IsHeld};
ghost use Rattle.token_lists.specs.Ids.{build_id, id_of, IsBuilding};
ghost use Rattle.token_lists.specs.Accounts.{Moves, Keeps, Covers, none, holds};
ghost use Rattle.token_lists.specs.Refusals.{IsFull};
ghost use Rattle.input_state.specs.Counted.{HaveHolders};
ghost use Rattle.input_state.specs.HeldLists.{HeldLists, KeepsHeld, call_refusal, put_refusal, first_list, is_empty, made, words_held, gathered_held, level_held, puts_held, without_ended_held, pending_of, outer_in, has_item, ahead_of, AreInBuffer, GoFurther, over_held, at_line, opened_over};
ghost use Rattle.input_state.specs.FileLeft.{FileLeft};
ghost use Rattle.input_state.specs.HeldAppends.{HeldShort, held_appended, held_appended_made};
ghost use Rattle.meanings.specs.Kept.{IsPlaced, without_list};
ghost use Rattle.input_state.specs.HeldViews.{IsDefined};
ghost use Rattle.input_state.specs.Macros.{HasNameRoom, IsPlaceOf, list_at};
ghost use Rattle.input_state.specs.Calls.{call_kind, called_put, called, put_of, text_of, list_to_let, begun_lists, Defines};
ghost use Rattle.input_state.specs.declared.answer.CallKind.TheVariants.{AtOnce, Gathers};
ghost use Rattle.input_state.specs.AtLocations.{SetsList, location_put, location_tokens, appended, appended_made};
ghost use Rattle.input_state.specs.Callings.{NotCalling, IsComplete, call_in};
ghost use Rattle.input_state.specs.Callings as calls;
ghost use Rattle.input_state.specs.CallFeeds.{IsTaking, Feeds, CutShort, growth, with_scan, call_work};
ghost use Rattle.macro_call.specs.PlainScans.{first_scan, cut_scan, noted_scan};
ghost use Rattle.std.specs.Option.{option_map};
ghost use Rattle.input_state.specs.Changes.{IsOnly};
ghost use Rattle.input_state.specs.Reads.{GivesTo, step_demands};
ghost use Rattle.input_state.specs.AtOnce.{GivesAtOnce};
ghost use Rattle.input_state.specs.Given.{GivesMore, GivesOrRefuses, answer_of, told};

use crate::appending::{Change, append, append_from};
use crate::gathering::{Gathering, begin as begin_call, feed};
use crate::holders::{give_back, has_parameters, let_go, list_at, list_to_let, share};
use crate::places::behind;
use crate::{Call, CallKind, Pulled};
use eqtb_save::{Closed, Eqtb, Glue, GroupKind, Loc, Val, Value, name_loc};
use input_stack::{InputStack, Pulled as Given};
use line_lexer::{Ahead, Lexed, Line};
use macro_args::Args;
use macro_call::{CallAsk, at_first, at_first_built};
use meanings::without_list;
use std::alloc::{AllocError, Global};
use std::marker::Model;
use std::mem;
use tex_defs::{Full, Meaning, Name, Seen, Sizes, Token};
use token_lists::{Build, ListRef, Lists};
use world_io::InId;

/// The number of every file: the levels tell them apart.
const FILE: InId = InId { number: 0 };

/// The lists of a run, what stands at all locations, and the levels of input. A list that a location or a saved value has may have many
/// holders, each other list is held in one place.
#[must_use]
pub struct Held {
    lists: Lists,
    stack: InputStack,
    table: Eqtb,
    /// The list that is made, to be put in front.
    making: Option<Build>,
    /// The call that is gathered.
    call: Gathering,
    /// The lists that other readings gather, the innermost last.
    builds: Vec<Build>,
    sizes: Sizes,
}

impl Model for Held {
    ghost use Rattle.std.specs.Prelude.{vec_capacity};
    ghost use Rattle.input_stack.specs.View.{pending};
    ghost use Rattle.input_state.specs.HeldLists.{HeldLists};

    ghost Value = { HeldLists };

    ghost use Rattle.input_state.specs.HeldViews.{lists_of, named, IsSound};

    ghost view = { λ i. lists_of i.lists (pending i.lists i.stack) i.making i.builds.items (named i.table i.call) i.sizes };

    ghost invariant = { λ i. IsSound i.lists i.stack i.making i.builds.items (named i.table i.call) i.sizes (vec_capacity i.builds) };
}

// An assignment for which there is room. The list of the old value is let go, or saved with it.
fn assign(table: &mut Eqtb, lists: &mut Lists, global: bool, place: Loc, value: Value)
    requires within { IsLocation table.old.groups place }
    requires suits { Suits place (numbered_value value) }
    requires room { refused table.old.sizes (set_demands global table.old.groups place) ≡ None }
    requires covered { Covers lists.old (λ h. val_holds (numbered_value value) h + held table.old h) }
    ensures after { table.new ≡ record table.old { groups = set global table.old.groups place (numbered_value value) } }
    ensures account { Moves lists.old lists.new (λ h. val_holds (numbered_value value) h + held table.old h) (held table.new) }
    ensures kept { Keeps lists.old lists.new (λ h. val_holds (numbered_value value) h + held table.old h) }
    ensures lasting { Lasts lists.old lists.new }
    ensures fewer { (h : ℕ) → holders_at lists.new h ≤ holders_at lists.old h }
    ensures stored { (h : ℕ) → val_holds (numbered_value value) h ≤ held table.new h }
    ensures length { length lists.new ≡ length lists.old }
{
    let _old = table.get(place);
    if global {
        table.gdefine(lists, place, value);
        return;
    }
    match table.define(lists, place, value) {
        Ok(()) => {}
        Err(_full) => unreachable!(),
    }
}

// Begins a list. What is used then says that there was room for it.
fn begin(lists: &mut Lists) -> Result<Build, Full>
    ensures building { IfOk result (λ b. IsBuilding lists.new b) }
    ensures fresh { IfOk result (λ b. holders_at lists.old (build_id b) ≡ 0) }
    ensures empty { IfOk result (λ b. tokens_at lists.new (build_id b) ≡ []) }
    ensures others { IfOk result (λ b. IsOnly lists.old lists.new (build_id b)) }
    ensures account { IfOk result (λ b. Moves lists.old lists.new none (holds (build_id b))) }
    ensures room { OnOk result (words lists.old < length lists.old) }
    ensures err { OnErr result (lists.new ≡ lists.old) }
    ensures full { IfErr result (λ f. IsFull f lists.old) }
    ensures length { length lists.new ≡ length lists.old }
{
    match lists.begin() {
        Ok(build) => {
            let _words = lists.used();
            Ok(build)
        }
        Err(full) => Err(full),
    }
}

// Lets a list go that is being built.
fn abandon(lists: &mut Lists, build: Build)
    requires { IsBuilding lists.old build }
    ensures others { IsOnly lists.old lists.new (build_id build) }
    ensures account { Moves lists.old lists.new (holds (build_id build)) none }
    ensures length { length lists.new ≡ length lists.old }
{
    lists.abandon(build);
}

// What a pull gives, where it gives something.
fn answer(given: Given) -> Pulled
    requires { GivesMore (Ok given) }
    ensures { result ≡ answer_of (Ok given) }
{
    match given {
        Given::Token(token) => Pulled::Token(token),
        Given::Lexed(Lexed::Invalid) => Pulled::Invalid,
        Given::Lexed(lexed) => Pulled::Lexeme(lexed),
        Given::LineEnd | Given::ReadEnd | Given::Bottom => unreachable!(),
    }
}

// The same, or a refusal.
fn answered(given: Result<Given, Full>) -> Result<Pulled, Full>
    requires { GivesOrRefuses given }
    ensures { result ≡ told given }
{
    match given {
        Ok(given) => Ok(answer(given)),
        Err(full) => Err(full),
    }
}

impl Held {
    /// No lists, no line, INITEX's meanings, where the primitives of these numbers mean something, and room for all that these
    /// sizes admit.
    ///
    /// # Errors
    /// There is no room for them. No other call takes memory.
    pub fn new(alloc: Global, sizes: &Sizes, known: &[u16]) -> Result<Held, AllocError>
        requires { first_out_of_range sizes.now ≡ None }
        ensures { IfOk result (λ h. h ≡ record { puts = []; making = None; call = NotCalling; builds = []; below = []; sizes = sizes.now; groups = first_groups (is_listed known.now); closing = []; ending = None; lists = replicate sizes.now.main_memory_size [] }) }
    {
        let mut lists = Lists::new(alloc, sizes.main_memory_size)?;
        let builds = Vec::with_capacity(alloc, sizes.main_memory_size as usize)?;
        let table = match Eqtb::new(alloc, sizes, known) {
            Ok(table) => table,
            Err(error) => {
                builds.destroy_empty();
                return Err(error);
            }
        };
        match InputStack::new(alloc, sizes) {
            Ok(stack) => Ok(Held {
                lists,
                stack,
                table,
                making: None,
                call: Gathering::None,
                builds,
                sizes: *sizes,
            }),
            Err(error) => {
                table.close(&mut lists);
                builds.destroy_empty();
                Err(error)
            }
        }
    }

    pub fn sizes(&self) -> &Sizes
        ensures { result.now ≡ self.now.sizes }
    {
        &self.sizes
    }

    /// The lists in front that are finished go.
    pub fn end_token_lists(&mut self)
        ensures after { self.new ≡ record self.old { puts = without_ended self.old.puts; lists = self.new.lists } }
        ensures keeps { KeepsHeld self.old self.new }
    {
        self.stack.drop_finished(&mut self.lists);
    }

    /// Begins a list that an open reading gathers.
    ///
    /// # Errors
    /// The main memory is full; nothing has changed.
    pub fn begin_list(&mut self) -> Result<(), Full>
        ensures refused { MatchResult result (λ _. refused self.old.sizes (memory 1 (words_held self.old) ∷ []) ≡ None) (λ full. refused self.old.sizes (memory 1 (words_held self.old) ∷ []) ≡ Some full) }
        ensures ok { OnOk result (self.new ≡ record self.old { builds = [] ∷ self.old.builds; lists = self.new.lists }) }
        ensures err { OnErr result (self.new ≡ self.old) }
        ensures keeps { KeepsHeld self.old self.new }
    {
        match begin(&mut self.lists) {
            Ok(build) => {
                self.builds.push_reserved(build);
                Ok(())
            }
            Err(full) => Err(full),
        }
    }

    /// The innermost gathered list gets a token at its end.
    ///
    /// # Errors
    /// The main memory is full; nothing has changed.
    #[inline(always)]
    pub fn grow_list(&mut self, token: Token) -> Result<(), Full>
        requires { self.old.builds ≢ [] }
        ensures refused { MatchResult result (λ _. refused self.old.sizes (memory 1 (words_held self.old) ∷ []) ≡ None) (λ full. refused self.old.sizes (memory 1 (words_held self.old) ∷ []) ≡ Some full) }
        ensures ok { OnOk result (self.new ≡ record self.old { builds = grow_first token self.old.builds; lists = self.new.lists }) }
        ensures err { OnErr result (self.new ≡ self.old) }
        ensures keeps { KeepsHeld self.old self.new }
    {
        let Some(build) = self.builds.last_mut() else {
            unreachable!()
        };
        append(&mut self.lists, build, token)
    }

    /// The innermost gathered list gets the tokens of the list that stands at a location.
    ///
    /// # Errors
    /// The main memory is full: some of the tokens are there, from the first on, and nothing else has changed.
    pub fn copy_list(&mut self, loc: Loc) -> Result<(), Full>
        requires some { self.old.builds ≢ [] }
        requires within { IsLocation self.old.groups loc }
        ensures ok { OnOk result (self.new ≡ record self.old { builds = appended (location_tokens self.old.lists self.old.groups loc) self.old.builds; lists = self.new.lists }) }
        ensures fits { OnOk result (words_held self.old + length (location_tokens self.old.lists self.old.groups loc) ≤ self.old.sizes.main_memory_size) }
        ensures err { IfErr result (λ full. HeldShort held_appended (location_tokens self.old.lists self.old.groups loc) self.old self.new full) }
        ensures keeps { KeepsHeld self.old self.new }
    {
        let _old_words = self.lists.used();
        let Some(list) = list_at(&self.table, loc) else {
            return Ok(());
        };
        let from = at_first(&self.lists, list);
        let Some(mut build) = self.builds.pop() else {
            unreachable!()
        };
        let copied = append_from(
            &mut self.lists,
            &mut build,
            from,
            &self.table,
            Change::Nothing,
        );
        let _words = self.lists.used();
        self.builds.push_reserved(build);
        copied
    }

    /// The innermost gathered list goes.
    pub fn drop_list(&mut self)
        requires { self.old.builds ≢ [] }
        ensures after { self.new ≡ record self.old { builds = drop 1 self.old.builds; lists = self.new.lists } }
        ensures keeps { KeepsHeld self.old self.new }
    {
        let Some(build) = self.builds.pop() else {
            unreachable!()
        };
        abandon(&mut self.lists, build);
    }

    /// Whether some reading gathers a list.
    #[inline(always)]
    pub fn is_gathering(&self) -> bool
        ensures { IsTrue result ↔ (0 < length self.now.builds) }
    {
        !self.builds.is_empty()
    }

    /// How many lists the readings gather, but for a call's.
    pub fn list_count(&self) -> usize
        ensures { result ≡ length self.now.builds }
    {
        self.builds.len()
    }

    /// The innermost of these lists, and the memory in which it stands.
    pub fn list(&self) -> (&Lists, &Build)
        requires { self.now.builds ≢ [] }
        ensures held { IsHeld result.0.now (build_id result.1.now) }
        ensures tokens { tokens_at result.0.now (build_id result.1.now) ≡ first_list self.now.builds }
    {
        (&self.lists, &self.builds[self.builds.len() - 1])
    }

    /// One of these lists, by its number from the innermost, and the memory in which it stands.
    pub fn nth_list(&self, k: usize) -> (&Lists, &Build)
        requires { k < length self.now.builds }
        ensures held { IsHeld result.0.now (build_id result.1.now) }
        ensures tokens { tokens_at result.0.now (build_id result.1.now) ≡ list_at self.now.builds k }
    {
        (&self.lists, &self.builds[self.builds.len() - 1 - k])
    }

    /// The memory of the lists.
    pub fn lists(&self) -> &Lists
        ensures words { words result.now ≡ words_held self.now }
        ensures tokens { (id : ℕ) → tokens_at result.now id ≡ list_at self.now.lists id }
        ensures counts { HaveHolders result.now (lists_held self.now.groups) (puts_held self.now) (option_to_list self.now.making ++ gathered_held self.now) }
    {
        &self.lists
    }

    /// How many words of main memory are used.
    pub fn words(&self) -> u32
        ensures is { result ≡ words_held self.now }
        ensures within { result ≤ self.now.sizes.main_memory_size }
    {
        self.lists.used()
    }

    /// Begins the list that is made.
    ///
    /// # Errors
    /// The main memory is full; nothing has changed.
    pub fn make_list(&mut self) -> Result<(), Full>
        requires { self.old.making ≡ None }
        ensures refused { MatchResult result (λ _. refused self.old.sizes (memory 1 (words_held self.old) ∷ []) ≡ None) (λ full. refused self.old.sizes (memory 1 (words_held self.old) ∷ []) ≡ Some full) }
        ensures ok { OnOk result (self.new ≡ record self.old { making = Some []; lists = self.new.lists }) }
        ensures err { OnErr result (self.new ≡ self.old) }
        ensures keeps { KeepsHeld self.old self.new }
    {
        match begin(&mut self.lists) {
            Ok(build) => {
                match self.making.replace(build) {
                    None => Ok(()),
                    Some(_other) => unreachable!(),
                }
            }
            Err(full) => Err(full),
        }
    }

    /// The list that is made gets a token at its end.
    ///
    /// # Errors
    /// The main memory is full; nothing has changed.
    #[inline(always)]
    pub fn grow_made(&mut self, token: Token) -> Result<(), Full>
        requires { IsSome self.old.making }
        ensures refused { MatchResult result (λ _. refused self.old.sizes (memory 1 (words_held self.old) ∷ []) ≡ None) (λ full. refused self.old.sizes (memory 1 (words_held self.old) ∷ []) ≡ Some full) }
        ensures ok { OnOk result (self.new ≡ record self.old { making = grown_by token self.old.making; lists = self.new.lists }) }
        ensures err { OnErr result (self.new ≡ self.old) }
        ensures keeps { KeepsHeld self.old self.new }
    {
        let Some(mut build) = self.making.take() else {
            unreachable!()
        };
        let grown = append(&mut self.lists, &mut build, token);
        match self.making.replace(build) {
            None => grown,
            Some(_other) => unreachable!(),
        }
    }

    /// The list that is made gets the tokens of the innermost gathered list, its characters as capital letters, or as small ones.
    ///
    /// # Errors
    /// The main memory is full: some of the tokens are there, from the first on, and nothing else has changed.
    pub fn grow_changed(&mut self, upper: bool) -> Result<(), Full>
        requires some { self.old.builds ≢ [] }
        requires making { IsSome self.old.making }
        ensures ok { OnOk result (self.new ≡ record self.old { making = appended_made (map (case_changed (case_codes upper self.old.groups.now)) (first_list self.old.builds)) self.old.making; lists = self.new.lists }) }
        ensures fits { OnOk result (words_held self.old + length (map (case_changed (case_codes upper self.old.groups.now)) (first_list self.old.builds)) ≤ self.old.sizes.main_memory_size) }
        ensures err { IfErr result (λ full. HeldShort held_appended_made (map (case_changed (case_codes upper self.old.groups.now)) (first_list self.old.builds)) self.old self.new full) }
        ensures keeps { KeepsHeld self.old self.new }
    {
        let _old_words = self.lists.used();
        let from = at_first_built(&self.lists, &self.builds[self.builds.len() - 1]);
        let Some(mut build) = self.making.take() else {
            unreachable!()
        };
        let grown = append_from(
            &mut self.lists,
            &mut build,
            from,
            &self.table,
            Change::Case(upper),
        );
        let _words = self.lists.used();
        match self.making.replace(build) {
            None => grown,
            Some(_other) => unreachable!(),
        }
    }

    /// The list that is made, if there is one, goes.
    pub fn drop_made(&mut self)
        ensures after { self.new ≡ record self.old { making = None; lists = self.new.lists } }
        ensures keeps { KeepsHeld self.old self.new }
    {
        if let Some(build) = self.making.take() {
            abandon(&mut self.lists, build);
        }
    }

    /// Why there is no room for one more level, once the finished lists in front have gone.
    pub fn room(&mut self) -> Option<Full>
        ensures refused { result ≡ refused self.old.sizes (level_held self.old ∷ []) }
        ensures after { self.new ≡ record self.old { puts = without_ended self.old.puts; lists = self.new.lists } }
        ensures keeps { KeepsHeld self.old self.new }
    {
        self.stack.room(&mut self.lists)
    }

    /// Puts the list that is made in front; one without tokens goes.
    pub fn put_made(&mut self)
        requires some { IsSome self.old.making }
        requires without_ended { without_ended self.old.puts ≡ self.old.puts }
        requires room { refused self.old.sizes (level_held self.old ∷ []) ≡ None }
        ensures after { self.new ≡ record self.old { puts = with_put (token_put (made self.old.making)) self.old.puts; making = None; lists = self.new.lists } }
        ensures keeps { KeepsHeld self.old self.new }
    {
        let Some(build) = self.making.take() else {
            unreachable!()
        };
        let list = self.lists.finish(build);
        match self.stack.push_list(&mut self.lists, list) {
            Ok(()) => {}
            Err((_full, _list)) => unreachable!(),
        }
    }

    /// What the next pull gives. Nothing changes.
    #[inline(always)]
    pub fn looks(&self, bytes: &[u8]) -> Ahead
        requires { AreInBuffer self.now.below (length bytes.now) }
        ensures ahead { (files : List FileLeft) (next : Option (List ℕ)) → result ≡ ahead_of self.now.groups.now.categories (pending_of self.now bytes.now files next) }
        ensures passed { result ≡ ahead.End → passed self.now.puts ≡ [] }
    {
        self.stack
            .looks(&self.lists, bytes, self.table.categories())
    }

    /// Whether the list or the call in front has a token left; it may be an argument's first, whose level opens. Nothing changes.
    pub fn has_item(&self) -> bool
        ensures is { result ≡ has_item self.now.puts }
        ensures next { IsTrue result → (bytes : List ℕ) (files : List FileLeft) (next : Option (List ℕ)) → ahead_of self.now.groups.now.categories (pending_of self.now bytes files next) ≡ ahead.Token }
    {
        self.stack.has_item(&self.lists)
    }

    /// The next token of a list in front, where it is at hand: no list has to go first, and no argument's level opens.
    #[inline(always)]
    pub fn quick(&mut self) -> Option<Token>
        ensures gives { IfSome result (λ t. GivesAtOnce self.old self.new t) }
        ensures stays { result ≡ None → self.new ≡ self.old }
        ensures others { self.new ≡ record self.old { puts = self.new.puts } }
        ensures keeps { KeepsHeld self.old self.new }
    {
        self.stack.quick(&self.lists)
    }

    /// The next token of a list in front, or what the line gives, where it isn't used up.
    ///
    /// # Errors
    /// The level of an argument passes the size of the input stack. Nothing has changed but that the finished lists in
    /// front have gone.
    pub fn pull(&mut self, bytes: &mut [u8]) -> Result<Pulled, Full>
        requires in_buffer { AreInBuffer self.old.below (length bytes.old) }
        requires more { (files : List FileLeft) (next : Option (List ℕ)) → ahead_of self.old.groups.now.categories (pending_of self.old bytes.old files next) ≢ ahead.End }
        ensures further { GoFurther self.old.below self.new.below }
        ensures gives { (files : List FileLeft) (next : Option (List ℕ)) → GivesTo (pulled self.old.groups.now.categories (pending_of self.old bytes.old files next)) result (pending_of self.old bytes.old files next) (pending_of self.new bytes.new files next) bytes.new }
        ensures refused { (files : List FileLeft) (next : Option (List ℕ)) → length files ≡ length self.old.below → MatchResult result (λ _. refused self.old.sizes (step_demands (pulled self.old.groups.now.categories (pending_of self.old bytes.old files next)) (pending_of self.old bytes.old files next)) ≡ None) (λ full. refused self.old.sizes (step_demands (pulled self.old.groups.now.categories (pending_of self.old bytes.old files next)) (pending_of self.old bytes.old files next)) ≡ Some full) }
        ensures err { OnErr result (self.new ≡ record self.old { puts = without_ended self.old.puts; lists = self.new.lists }) }
        ensures bytes { OnErr result (bytes.new ≡ bytes.old) }
        ensures others { self.new ≡ record self.old { puts = self.new.puts; below = self.new.below; lists = self.new.lists } }
        ensures keeps { KeepsHeld self.old self.new }
    {
        self.table.recall();
        let categories = self.table.categories();
        answered(self.stack.pull(&mut self.lists, bytes, categories))
    }

    /// Where nothing is left but gaps and a line that is used up, all lists in front of it go.
    pub fn drop_front(&mut self, bytes: &mut [u8])
        requires in_buffer { AreInBuffer self.old.below (length bytes.old) }
        requires end { (files : List FileLeft) (next : Option (List ℕ)) → ahead_of self.old.groups.now.categories (pending_of self.old bytes.old files next) ≡ ahead.End }
        ensures further { GoFurther self.old.below self.new.below }
        ensures beneath { (files : List FileLeft) → outer_in bytes.new self.new.below files ≡ outer_in bytes.old self.old.below files }
        ensures after { self.new ≡ record self.old { puts = []; below = self.new.below; lists = self.new.lists } }
        ensures keeps { KeepsHeld self.old self.new }
    {
        self.table.recall();
        let categories = self.table.categories();
        let _given = self.stack.pull(&mut self.lists, bytes, categories);
    }

    /// A file gets a level, at this line, above all that is pending.
    ///
    /// # Errors
    /// The levels are at the size of the input stack; nothing has changed.
    pub fn open_file(&mut self, line: Line) -> Result<(), Full>
        requires without_ended { without_ended self.old.puts ≡ self.old.puts }
        ensures refused { MatchResult result (λ _. refused self.old.sizes (level_held self.old ∷ []) ≡ None) (λ full. refused self.old.sizes (level_held self.old ∷ []) ≡ Some full) }
        ensures ok { OnOk result (self.new ≡ record (opened_over line self.old) { lists = self.new.lists }) }
        ensures err { OnErr result (self.new ≡ record self.old { lists = self.new.lists }) }
        ensures keeps { KeepsHeld self.old self.new }
    {
        self.stack.push_file(&mut self.lists, Some(FILE), line)
    }

    /// The innermost file goes on at this line.
    pub fn begin_line(&mut self, line: Line)
        requires front { self.old.puts ≡ [] }
        requires open { 0 < length self.old.below }
        ensures { self.new ≡ record self.old { below = at_line line self.old.below } }
    {
        self.stack.begin_line(line);
    }

    /// The innermost file's level goes.
    pub fn end_file(&mut self)
        requires front { self.old.puts ≡ [] }
        requires open { 0 < length self.old.below }
        ensures { self.new ≡ over_held self.old }
    {
        let _id = self.stack.end_file();
    }

    /// A token with what it means.
    pub fn seen(&self, token: Token) -> Seen
        ensures { result ≡ seen self.now.groups.now.meanings token }
    {
        self.table.seen(token)
    }

    /// A token as it is handed on.
    pub fn met(&self, token: Token) -> Seen
        ensures { result ≡ met self.now.groups.now.meanings token }
    {
        self.table.met(token)
    }

    /// Whether one more name of two or more characters may be entered.
    pub fn has_name_room(&self) -> bool
        ensures { MatchBool result (HasNameRoom self.now.groups self.now.sizes.hash_size) (HasNameRoom self.now.groups self.now.sizes.hash_size → ⊥) }
    {
        self.table.has_room()
    }

    /// Gives the next name of two or more characters a location. It is undefined.
    pub fn enter_name(&mut self)
        requires { HasNameRoom self.old.groups self.old.sizes.hash_size }
        ensures after { self.new ≡ record self.old { groups = entered self.old.groups } }
        ensures keeps { KeepsHeld self.old self.new }
    {
        self.table.enter();
    }

    /// Whether a name may be assigned: it has a location, and if it has two or more characters, it was entered.
    pub fn is_placed(&self, name: Name) -> bool
        ensures { MatchBool result (IsPlaced (location name) (length self.now.groups.now.meanings)) (IsPlaced (location name) (length self.now.groups.now.meanings) → ⊥) }
    {
        self.table.is_placed(name)
    }

    // Whether an assignment to a location has room.
    fn set_room(&self, global: bool, loc: Loc) -> Result<(), Full>
        requires { IsLocation self.now.groups loc }
        ensures refused { MatchResult result (λ _. refused self.now.sizes (set_demands global self.now.groups loc) ≡ None) (λ full. refused self.now.sizes (set_demands global self.now.groups loc) ≡ Some full) }
    {
        if global {
            return Ok(());
        }
        match self.table.refusal(loc) {
            Some(full) => Err(full),
            None => Ok(()),
        }
    }

    // The location of what a name means, where an assignment to it has room.
    fn name_room(&self, global: bool, name: Name) -> Result<Loc, Full>
        requires { IsPlaced (location name) (length self.now.groups.now.meanings) }
        ensures refused { MatchResult result (λ _. refused self.now.sizes (name_demands global self.now.groups name) ≡ None) (λ full. refused self.now.sizes (name_demands global self.now.groups name) ≡ Some full) }
        ensures place { IfOk result (λ l. IsPlaceOf self.now.groups name l) }
        ensures room { IfOk result (λ l. refused self.now.sizes (set_demands global self.now.groups l) ≡ None) }
    {
        let Some(loc) = name_loc(name) else {
            unreachable!()
        };
        match self.set_room(global, loc) {
            Ok(()) => Ok(loc),
            Err(full) => Err(full),
        }
    }

    /// Opens a group. Nothing is copied.
    ///
    /// # Errors
    /// The save stack is full, or else as many groups are open as may be; nothing has changed.
    pub fn open_group(&mut self, kind: GroupKind) -> Result<(), Full>
        ensures refused { MatchResult result (λ _. refused self.old.sizes (group_demands self.old.groups) ≡ None) (λ full. refused self.old.sizes (group_demands self.old.groups) ≡ Some full) }
        ensures ok { OnOk result (self.new ≡ record self.old { groups = opened self.old.groups kind }) }
        ensures err { OnErr result (self.new ≡ self.old) }
        ensures keeps { KeepsHeld self.old self.new }
    {
        self.table.open_group(kind)
    }

    /// Keeps a token for the end of the innermost group. A group is open.
    ///
    /// # Errors
    /// The save stack is full; nothing has changed.
    pub fn after_group(&mut self, token: Token) -> Result<(), Full>
        requires { 0 < depth self.old.groups }
        ensures refused { MatchResult result (λ _. refused self.old.sizes (token_demands self.old.groups) ≡ None) (λ full. refused self.old.sizes (token_demands self.old.groups) ≡ Some full) }
        ensures ok { OnOk result (self.new ≡ record self.old { groups = with_token self.old.groups token }) }
        ensures err { OnErr result (self.new ≡ self.old) }
        ensures keeps { KeepsHeld self.old self.new }
    {
        self.table.after_group(token)
    }

    /// The innermost group goes, with its saved values; its tokens are still to be given.
    pub fn close_group(&mut self)
        requires open { 0 < depth self.old.groups }
        requires calls { self.old.call ≡ NotCalling }
        ensures after { self.new ≡ record self.old { groups = closed self.old.groups; closing = tokens_after self.old.groups; ending = current_group self.old.groups; lists = self.new.lists } }
        ensures keeps { KeepsHeld self.old self.new }
    {
        self.table.recall();
        self.table.close_group(&mut self.lists);
    }

    /// The next token of the group that was closed, the last first; behind them all its end.
    pub fn next_after(&mut self) -> Option<Token>
        requires { self.old.ending ≡ None → ⊥ }
        ensures next { MatchOption result (self.old.closing ≡ []) (λ t. self.old.closing ≡ t ∷ self.new.closing) }
        ensures others { self.new ≡ record self.old { closing = self.new.closing; ending = self.new.ending } }
        ensures goes_on { IsSome result → self.new.ending ≡ self.old.ending }
        ensures ends { result ≡ None → self.new.ending ≡ None }
    {
        match self.table.next_closing() {
            Closed::After(token) => Some(token),
            Closed::Done(_kind) => None,
        }
    }

    /// The kind of the innermost open group, if one is open.
    pub fn group_kind(&self) -> Option<GroupKind>
        ensures { result ≡ current_group self.now.groups }
    {
        self.table.kind()
    }

    /// How many groups are open.
    pub fn group_depth(&self) -> u32
        ensures { result ≡ depth self.now.groups }
    {
        self.table.depth()
    }

    /// A name becomes a macro: the innermost gathered list is its parameter text, the end mark and its body.
    ///
    /// # Errors
    /// The save stack is full; nothing has changed.
    pub fn define(&mut self, name: Name, long: bool, outer: bool, global: bool) -> Result<(), Full>
        requires some { self.old.builds ≢ [] }
        requires calls { self.old.call ≡ NotCalling }
        requires list { IsDefined (first_list self.old.builds) }
        requires assignable { IsPlaced (location name) (length self.old.groups.now.meanings) }
        ensures refused { MatchResult result (λ _. refused self.old.sizes (name_demands global self.old.groups name) ≡ None) (λ full. refused self.old.sizes (name_demands global self.old.groups name) ≡ Some full) }
        ensures ok { OnOk result (self.new ≡ record self.old { builds = drop 1 self.old.builds; groups = self.new.groups; lists = self.new.lists }) }
        ensures defines { OnOk result (Defines global self.old.groups self.new.groups (puts_held self.old) self.old.lists self.new.lists (first_list self.old.builds) name long outer) }
        ensures err { OnErr result (self.new ≡ self.old) }
        ensures keeps { KeepsHeld self.old self.new }
    {
        self.table.recall();
        let loc = self.name_room(global, name)?;
        let Some(build) = self.builds.pop() else {
            unreachable!()
        };
        let list = Some(self.lists.finish(build));
        assign(
            &mut self.table,
            &mut self.lists,
            global,
            loc,
            Val::Meant(Meaning::Macro { long, outer, list }),
        );
        Ok(())
    }

    /// A name gets the meaning that `\let` gives it from this token.
    ///
    /// # Errors
    /// The save stack is full; nothing has changed.
    pub fn let_name(&mut self, name: Name, x: Seen, global: bool) -> Result<(), Full>
        requires calls { self.old.call ≡ NotCalling }
        requires assignable { IsPlaced (location name) (length self.old.groups.now.meanings) }
        ensures refused { MatchResult result (λ _. refused self.old.sizes (name_demands global self.old.groups name) ≡ None) (λ full. refused self.old.sizes (name_demands global self.old.groups name) ≡ Some full) }
        ensures ok { OnOk result (self.new ≡ record self.old { groups = set_name global self.old.groups name (meaning_to_let self.old.groups.now.meanings x); lists = self.new.lists }) }
        ensures err { OnErr result (self.new ≡ self.old) }
        ensures keeps { KeepsHeld self.old self.new }
    {
        let loc = self.name_room(global, name)?;
        self.table.recall();
        let meaning = self.table.to_let(&mut self.lists, x);
        assign(
            &mut self.table,
            &mut self.lists,
            global,
            loc,
            Val::Meant(meaning),
        );
        Ok(())
    }

    /// A name gets this meaning, which is no macro's.
    ///
    /// # Errors
    /// The save stack is full; nothing has changed.
    pub fn set_meaning(
        &mut self,
        name: Name,
        meaning: Meaning<()>,
        global: bool,
    ) -> Result<(), Full>
        requires calls { self.old.call ≡ NotCalling }
        requires assignable { IsPlaced (location name) (length self.old.groups.now.meanings) }
        ensures refused { MatchResult result (λ _. refused self.old.sizes (name_demands global self.old.groups name) ≡ None) (λ full. refused self.old.sizes (name_demands global self.old.groups name) ≡ Some full) }
        ensures ok { OnOk result (self.new ≡ record self.old { groups = set_name global self.old.groups name (without_list meaning); lists = self.new.lists }) }
        ensures err { OnErr result (self.new ≡ self.old) }
        ensures keeps { KeepsHeld self.old self.new }
    {
        let loc = self.name_room(global, name)?;
        assign(
            &mut self.table,
            &mut self.lists,
            global,
            loc,
            Val::Meant(without_list(meaning)),
        );
        Ok(())
    }

    /// A code, an integer or a dimension gets this number.
    ///
    /// # Errors
    /// The save stack is full; nothing has changed.
    pub fn set_number(&mut self, loc: Loc, number: i32, global: bool) -> Result<(), Full>
        requires within { IsLocation self.old.groups loc }
        requires suits { Suits loc (val.Number number) }
        ensures refused { MatchResult result (λ _. refused self.old.sizes (set_demands global self.old.groups loc) ≡ None) (λ full. refused self.old.sizes (set_demands global self.old.groups loc) ≡ Some full) }
        ensures ok { OnOk result (self.new ≡ record self.old { groups = set global self.old.groups loc (val.Number number); lists = self.new.lists }) }
        ensures err { OnErr result (self.new ≡ self.old) }
        ensures keeps { KeepsHeld self.old self.new }
    {
        self.set_room(global, loc)?;
        assign(
            &mut self.table,
            &mut self.lists,
            global,
            loc,
            Val::Number(number),
        );
        Ok(())
    }

    /// A glue parameter or register gets this glue.
    ///
    /// # Errors
    /// The save stack is full; nothing has changed.
    pub fn set_glue(&mut self, loc: Loc, glue: Glue, global: bool) -> Result<(), Full>
        requires within { IsLocation self.old.groups loc }
        requires suits { Suits loc (val.Skip glue) }
        ensures refused { MatchResult result (λ _. refused self.old.sizes (set_demands global self.old.groups loc) ≡ None) (λ full. refused self.old.sizes (set_demands global self.old.groups loc) ≡ Some full) }
        ensures ok { OnOk result (self.new ≡ record self.old { groups = set global self.old.groups loc (val.Skip glue); lists = self.new.lists }) }
        ensures err { OnErr result (self.new ≡ self.old) }
        ensures keeps { KeepsHeld self.old self.new }
    {
        self.set_room(global, loc)?;
        assign(
            &mut self.table,
            &mut self.lists,
            global,
            loc,
            Val::Skip(glue),
        );
        Ok(())
    }

    /// A location gets the innermost gathered list, which has a token.
    ///
    /// # Errors
    /// The save stack is full; nothing has changed.
    pub fn set_list(&mut self, loc: Loc, global: bool) -> Result<(), Full>
        requires some { self.old.builds ≢ [] }
        requires list { IsDefined (first_list self.old.builds) }
        requires within { IsLocation self.old.groups loc }
        requires suits { Suits loc (val.Tokens None) }
        ensures refused { MatchResult result (λ _. refused self.old.sizes (set_demands global self.old.groups loc) ≡ None) (λ full. refused self.old.sizes (set_demands global self.old.groups loc) ≡ Some full) }
        ensures ok { OnOk result (self.new ≡ record self.old { builds = drop 1 self.old.builds; groups = self.new.groups; lists = self.new.lists }) }
        ensures sets { OnOk result (SetsList global self.old.groups self.new.groups (puts_held self.old) self.old.lists self.new.lists (first_list self.old.builds) loc) }
        ensures err { OnErr result (self.new ≡ self.old) }
        ensures keeps { KeepsHeld self.old self.new }
    {
        self.table.recall();
        self.set_room(global, loc)?;
        let Some(build) = self.builds.pop() else {
            unreachable!()
        };
        let list = Some(self.lists.finish(build));
        assign(
            &mut self.table,
            &mut self.lists,
            global,
            loc,
            Val::Tokens(list),
        );
        Ok(())
    }

    /// A location gets what stands at another: a list has a holder more then, and no word is taken.
    ///
    /// # Errors
    /// The save stack is full; nothing has changed.
    pub fn share_list(&mut self, loc: Loc, from: Loc, global: bool) -> Result<(), Full>
        requires within { IsLocation self.old.groups loc }
        requires from_within { IsLocation self.old.groups from }
        requires suits { Suits loc (get self.old.groups.now from) }
        requires list { IsTokens (get self.old.groups.now from) }
        ensures refused { MatchResult result (λ _. refused self.old.sizes (set_demands global self.old.groups loc) ≡ None) (λ full. refused self.old.sizes (set_demands global self.old.groups loc) ≡ Some full) }
        ensures ok { OnOk result (self.new ≡ record self.old { groups = set global self.old.groups loc (get self.old.groups.now from); lists = self.new.lists }) }
        ensures err { OnErr result (self.new ≡ self.old) }
        ensures keeps { KeepsHeld self.old self.new }
    {
        self.set_room(global, loc)?;
        self.table.recall();
        let _from = self.table.get(from);
        let value = self.table.shared(&mut self.lists, from);
        assign(&mut self.table, &mut self.lists, global, loc, value);
        Ok(())
    }

    /// A register of `\toks` or a token parameter gets a list without tokens, which is none.
    ///
    /// # Errors
    /// The save stack is full; nothing has changed.
    pub fn set_no_list(&mut self, loc: Loc, global: bool) -> Result<(), Full>
        requires within { IsLocation self.old.groups loc }
        requires suits { Suits loc (val.Tokens None) }
        ensures refused { MatchResult result (λ _. refused self.old.sizes (set_demands global self.old.groups loc) ≡ None) (λ full. refused self.old.sizes (set_demands global self.old.groups loc) ≡ Some full) }
        ensures ok { OnOk result (self.new ≡ record self.old { groups = set global self.old.groups loc (val.Tokens None); lists = self.new.lists }) }
        ensures err { OnErr result (self.new ≡ self.old) }
        ensures keeps { KeepsHeld self.old self.new }
    {
        self.set_room(global, loc)?;
        assign(
            &mut self.table,
            &mut self.lists,
            global,
            loc,
            Val::Tokens(None),
        );
        Ok(())
    }

    /// The category codes, by their characters.
    pub fn categories(&self) -> &[u8; 256]
        ensures { result.now ≡ self.now.groups.now.categories }
    {
        self.table.categories()
    }

    /// The value of an integer parameter, by its place.
    pub fn integer(&self, i: u8) -> i32
        requires { i < 55 }
        ensures { result ≡ integer_in self.now.groups.now i }
    {
        self.table.integer(i)
    }

    /// What stands at a location, without its list.
    pub fn value(&self, loc: Loc) -> Val<()>
        requires { IsLocation self.now.groups loc }
        ensures { result ≡ value_seen (get self.now.groups.now loc) }
    {
        self.table.value(loc)
    }

    /// The token behind so many of the list of the macro that a name means, and how many then stand in front.
    pub fn macro_token(&self, name: Name, index: usize) -> Option<(Token, usize)>
        ensures { MatchOption result (drop index (text_of self.now.lists self.now.groups.now.meanings name) ≡ []) (λ r. drop index (text_of self.now.lists self.now.groups.now.meanings name) ≡ r.0 ∷ drop r.1 (text_of self.now.lists self.now.groups.now.meanings name)) }
    {
        let Some(list) = self.table.list(name) else {
            return None;
        };
        match behind(&self.lists, list, index).next(&self.lists) {
            Some((token, next)) => Some((token, next.index())),
            None => None,
        }
    }

    /// The list of the macro that a name means, if it means one with a list, and the memory in which all lists
    /// stand.
    pub fn macro_list(&self, name: Name) -> (&Lists, Option<&ListRef>)
        ensures held { IfSome result.1 (λ r. IsHeld result.0.now (id_of r.now)) }
        ensures tokens { MatchOption result.1 (text_of self.now.lists self.now.groups.now.meanings name ≡ []) (λ r. tokens_at result.0.now (id_of r.now) ≡ text_of self.now.lists self.now.groups.now.meanings name) }
    {
        (&self.lists, self.table.list(name))
    }

    /// Whether the macros that two tokens mean, as `\let` would give them, have the same tokens: a token that means no macro has none.
    pub fn same_list(&self, x: Seen, y: Seen) -> bool
        ensures { result ≡ are_same (list_to_let self.now.lists self.now.groups.now.meanings x) (list_to_let self.now.lists self.now.groups.now.meanings y) }
    {
        match (list_to_let(&self.table, x), list_to_let(&self.table, y)) {
            (Some(a), Some(b)) => self.lists.same(a, b),
            (None, None) => true,
            _ => false,
        }
    }

    /// The list of tokens that stands at a location, if one does, and the memory in which all lists stand.
    pub fn list_at_location(&self, loc: Loc) -> (&Lists, Option<&ListRef>)
        requires { IsLocation self.now.groups loc }
        ensures held { IfSome result.1 (λ r. IsHeld result.0.now (id_of r.now)) }
        ensures tokens { MatchOption result.1 (location_tokens self.now.lists self.now.groups loc ≡ []) (λ r. tokens_at result.0.now (id_of r.now) ≡ location_tokens self.now.lists self.now.groups loc) }
    {
        (&self.lists, list_at(&self.table, loc))
    }

    /// Each list that holds again behind the innermost group, or one around it, is held now, and the names have as many locations there. The call
    /// does nothing.
    pub fn recall_groups(&self)
        ensures outside { (id : ℕ) → is_listed (lists_outside self.now.groups.outer) id ≡ true → is_listed (lists_held self.now.groups) id ≡ true }
        ensures alike { AreAlike self.now.groups }
    {
        self.table.recall();
    }

    /// Calls a name, and tells how it is called. The body of a macro that has no parameter text is put in front: its list is
    /// shared, not copied. One without a body changes nothing, nor does a name that is called otherwise.
    ///
    /// # Errors
    /// The input stack is full, once the finished lists in front have gone; nothing else has changed.
    pub fn call_at_once(&mut self, name: Name) -> Result<CallKind, Full>
        ensures kind { MatchResult result (λ kind. kind ≡ call_kind self.old.lists (name_meaning self.old.groups.now.meanings name)) (λ _. call_kind self.old.lists (name_meaning self.old.groups.now.meanings name) ≡ AtOnce) }
        ensures refused { MatchResult result (λ kind. kind ≡ AtOnce → call_refusal (called_put self.old.lists (name_meaning self.old.groups.now.meanings name)) self.old ≡ None) (λ full. call_refusal (called_put self.old.lists (name_meaning self.old.groups.now.meanings name)) self.old ≡ Some full) }
        ensures ok { IfOk result (λ kind. kind ≡ AtOnce → self.new ≡ record self.old { puts = called (called_put self.old.lists (name_meaning self.old.groups.now.meanings name)) self.old.puts; lists = self.new.lists }) }
        ensures others { IfOk result (λ kind. kind ≢ AtOnce → self.new ≡ self.old) }
        ensures err { OnErr result (self.new ≡ record self.old { puts = without_ended self.old.puts; lists = self.new.lists }) }
        ensures keeps { KeepsHeld self.old self.new }
    {
        let Some(list) = self.table.list(name) else {
            return Ok(CallKind::None);
        };
        if has_parameters(&self.lists, list) {
            return Ok(CallKind::Gathers);
        }
        self.table.recall();
        let body = share(&mut self.lists, list);
        match self.stack.push_macro(&mut self.lists, body, Args::none()) {
            Ok(()) => Ok(CallKind::AtOnce),
            Err((full, body, args)) => {
                give_back(&mut self.lists, body, args);
                Err(full)
            }
        }
    }

    /// Puts the list that stands at a location in front; where none stands, nothing changes. The list is shared, not copied.
    ///
    /// # Errors
    /// The input stack is full, once the finished lists in front have gone; nothing else has changed.
    pub fn put_list(&mut self, loc: Loc) -> Result<(), Full>
        requires { IsLocation self.old.groups loc }
        ensures refused { MatchResult result (λ _. call_refusal (location_put self.old.lists self.old.groups loc) self.old ≡ None) (λ full. call_refusal (location_put self.old.lists self.old.groups loc) self.old ≡ Some full) }
        ensures ok { OnOk result (self.new ≡ record self.old { puts = called (location_put self.old.lists self.old.groups loc) self.old.puts; lists = self.new.lists }) }
        ensures err { OnErr result (self.new ≡ record self.old { puts = without_ended self.old.puts; lists = self.new.lists }) }
        ensures keeps { KeepsHeld self.old self.new }
    {
        let Some(list) = list_at(&self.table, loc) else {
            return Ok(());
        };
        self.table.recall();
        let list = share(&mut self.lists, list);
        match self.stack.push_shared(&mut self.lists, list) {
            Ok(()) => Ok(()),
            Err((full, list)) => {
                let_go(&mut self.lists, list);
                Err(full)
            }
        }
    }

    /// A call of a macro with a parameter text begins: its arguments are gathered. Where the text begins with a place, the
    /// first argument's list is begun. `long` tells whether the macro is `\long`.
    ///
    /// # Errors
    /// The main memory is full; nothing has changed.
    pub fn begin_call(&mut self, name: Name, long: bool) -> Result<(), Full>
        requires none { self.old.call ≡ NotCalling }
        requires gathers { call_kind self.old.lists (name_meaning self.old.groups.now.meanings name) ≡ Gathers }
        ensures refused { MatchResult result (λ _. refused self.old.sizes (memory (lists_words (begun_lists (text_of self.old.lists self.old.groups.now.meanings name))) (words_held self.old) ∷ []) ≡ None) (λ full. refused self.old.sizes (memory (lists_words (begun_lists (text_of self.old.lists self.old.groups.now.meanings name))) (words_held self.old) ∷ []) ≡ Some full) }
        ensures ok { OnOk result (self.new ≡ record self.old { call = calls.Gathering name (first_scan (text_of self.old.lists self.old.groups.now.meanings name) (mode_of long)); lists = self.new.lists }) }
        ensures err { OnErr result (self.new ≡ self.old) }
        ensures keeps { KeepsHeld self.old self.new }
    {
        let Some(list) = self.table.list(name) else {
            unreachable!()
        };
        match begin_call(&mut self.lists, list, name, long) {
            Ok(call) => {
                mem::replace(&mut self.call, call).end();
                let _words = self.lists.used();
                Ok(())
            }
            Err(full) => Err(full),
        }
    }

    /// Whether a call is gathered.
    #[inline(always)]
    pub fn is_calling(&self) -> bool
        ensures { MatchBool result (self.now.call ≢ NotCalling) (self.now.call ≡ NotCalling) }
    {
        match &self.call {
            Gathering::None => false,
            Gathering::Gathers(_name, _scan) => true,
            Gathering::Stopped(_name, _end, _scan) => true,
            Gathering::Gathered(_name, _args) => true,
        }
    }

    /// The call that gathers its arguments, if one does, by what it asks for. It follows from its scanner, from what ended it, or from its arguments being there.
    #[inline(always)]
    pub fn call(&self) -> Option<Call>
        ensures { result ≡ call_in self.now.call }
    {
        match &self.call {
            Gathering::None => None,
            Gathering::Gathers(name, scan) => Some(Call {
                name: *name,
                ask: if scan.is_braced() {
                    CallAsk::ExtraBrace
                } else {
                    CallAsk::More
                },
            }),
            Gathering::Stopped(name, end, _scan) => Some(Call {
                name: *name,
                ask: end.ask(),
            }),
            Gathering::Gathered(name, _args) => Some(Call {
                name: *name,
                ask: CallAsk::Gathered,
            }),
        }
    }

    /// Whether a call takes tokens.
    pub fn is_taking(&self) -> bool
        ensures { MatchBool result (IsTaking self.now.call) (IsTaking self.now.call → ⊥) }
    {
        match &self.call {
            Gathering::Gathers(_name, _scan) => true,
            Gathering::None => false,
            Gathering::Stopped(_name, _end, _scan) => false,
            Gathering::Gathered(_name, _args) => false,
        }
    }

    /// Feeds a token to the call, which then asks for what the definition of arguments asks for behind all that was fed.
    ///
    /// # Errors
    /// The main memory is full: some of the tokens that go into the list in work are in it, from the first on, and not
    /// all, and nothing else has changed; or the argument is whole, and the next one's list isn't begun. The call takes no
    /// more tokens.
    pub fn feed_call(&mut self, token: Token) -> Result<(), Full>
        requires { IsTaking self.old.call }
        ensures ok { OnOk result (Feeds (text_of self.old.lists self.old.groups.now.meanings) token self.old.call self.new.call) }
        ensures fits { OnOk result (words_held self.old + length (growth (text_of self.old.lists self.old.groups.now.meanings) token self.old.call) ≤ self.old.sizes.main_memory_size) }
        ensures err { OnErr result (CutShort (text_of self.old.lists self.old.groups.now.meanings) token self.old.call self.new.call) }
        ensures full { IfErr result (λ full. refused self.new.sizes (memory 1 (words_held self.new) ∷ []) ≡ Some full) }
        ensures others { self.new ≡ record self.old { call = self.new.call; lists = self.new.lists } }
        ensures keeps { KeepsHeld self.old self.new }
    {
        let _old_words = self.lists.used();
        let fed = feed(&mut self.lists, &self.table, &mut self.call, token);
        let _words = self.lists.used();
        fed
    }

    /// A check came in the call, at a file's end or at an `\outer` name: from here the macro counts as not `\long`, and a
    /// `\par` that ends the call has no report.
    pub fn cut_call(&mut self)
        requires { IsTaking self.old.call }
        ensures after { self.new ≡ record self.old { call = with_scan cut_scan self.old.call } }
    {
        let (name, mut scan) = mem::replace(&mut self.call, Gathering::None).into_scan();
        scan.cut();
        mem::replace(&mut self.call, Gathering::Gathers(name, scan)).end();
    }

    /// The extra brace that the call answered was put back and reported.
    pub fn note_call(&mut self)
        requires { IsTaking self.old.call }
        ensures after { self.new ≡ record self.old { call = with_scan noted_scan self.old.call } }
    {
        let (name, mut scan) = mem::replace(&mut self.call, Gathering::None).into_scan();
        scan.noted();
        mem::replace(&mut self.call, Gathering::Gathers(name, scan)).end();
    }

    /// The list in work of the call, if there is one, and the memory in which it stands.
    pub fn call_list(&self) -> Option<(&Lists, &Build)>
        ensures held { IfSome result (λ r. IsHeld r.0.now (build_id r.1.now)) }
        ensures tokens { call_work self.now.call ≡ option_map (λ r. tokens_at r.0.now (build_id r.1.now)) result }
    {
        let scan = match &self.call {
            Gathering::Gathers(_name, scan) => scan,
            Gathering::Stopped(_name, _end, scan) => scan,
            Gathering::None => return None,
            Gathering::Gathered(_name, _args) => return None,
        };
        match scan.built() {
            Some(build) => Some((&self.lists, build)),
            None => None,
        }
    }

    /// Puts the call in front of all that is pending: the macro's body, each parameter number replaced by its argument.
    /// The list is shared, not copied, and the arguments pass to it; one without a body lets them go and changes nothing
    /// else. *TeX: The Program*, part 25 (`macro_call`).
    ///
    /// # Errors
    /// The arguments or the level have no room, once the finished lists in front have gone; nothing else has changed.
    // Not inlined: `push_macro` is inlined here and in `call_at_once`, and both would stand in one rule.
    #[inline(never)]
    pub fn put_call(&mut self) -> Result<(), Full>
        requires { IsComplete self.old.call }
        ensures refused { MatchResult result (λ _. put_refusal (put_of self.old.lists self.old.groups.now.meanings self.old.call) self.old ≡ None) (λ full. put_refusal (put_of self.old.lists self.old.groups.now.meanings self.old.call) self.old ≡ Some full) }
        ensures ok { OnOk result (self.new ≡ record self.old { puts = called (put_of self.old.lists self.old.groups.now.meanings self.old.call) self.old.puts; call = NotCalling; lists = self.new.lists }) }
        ensures err { OnErr result (self.new ≡ record self.old { puts = without_ended self.old.puts; lists = self.new.lists }) }
        ensures keeps { KeepsHeld self.old self.new }
    {
        let (name, args) = mem::replace(&mut self.call, Gathering::None).into_args();
        let Some(list) = self.table.list(name) else {
            unreachable!()
        };
        self.table.recall();
        let body = share(&mut self.lists, list);
        match self.stack.push_macro(&mut self.lists, body, args) {
            Ok(()) => Ok(()),
            Err((refusal, body, args)) => {
                let_go(&mut self.lists, body);
                mem::replace(&mut self.call, Gathering::Gathered(name, args)).end();
                Err(refusal)
            }
        }
    }

    /// The call's lists go, and none is gathered.
    pub fn drop_call(&mut self)
        ensures after { self.new ≡ record self.old { call = NotCalling; lists = self.new.lists } }
        ensures keeps { KeepsHeld self.old self.new }
    {
        match mem::replace(&mut self.call, Gathering::None) {
            Gathering::None => {}
            Gathering::Gathers(_name, scan) => scan.abandon(&mut self.lists),
            Gathering::Stopped(_name, _end, scan) => scan.abandon(&mut self.lists),
            Gathering::Gathered(_name, args) => args.release(&mut self.lists),
        }
    }

    /// Lets all lists go.
    pub fn close(self) {
        let mut held = self;
        held.drop_call();
        while held.is_gathering() {
            held.drop_list();
        }
        held.drop_made();
        let Held {
            mut lists,
            stack,
            table,
            making,
            call,
            builds,
            sizes: _,
        } = held;
        match making {
            None => {}
            Some(_build) => unreachable!(),
        }
        match call {
            Gathering::None => {}
            Gathering::Gathers(_name, _scan) => unreachable!(),
            Gathering::Stopped(_name, _end, _scan) => unreachable!(),
            Gathering::Gathered(_name, _args) => unreachable!(),
        }
        stack.close(&mut lists);
        table.close(&mut lists);
        builds.destroy_empty();
    }
}
