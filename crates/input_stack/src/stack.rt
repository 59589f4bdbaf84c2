ghost use Rattle.std.specs.Prelude.{◌≡◌, ℕ, ◌+◌, ◌-◌, ◌≤◌, ◌<◌, List, reverse, take, Option, [], ◌∷◌, IfOk, IfErr, MatchOption, MatchResult, OnOk, OnErr, None, Some, map, false, cond, IfSome, IsSome, IsTrue, length, vec_capacity};
ghost use Rattle.token_lists.specs.Table.{Entry, IsHeld, tokens_at, entry_at};
ghost use Rattle.token_lists.specs.declared.ListRef.{ListRef};
ghost use Rattle.token_lists.specs.Ids.{id_of};
ghost use Rattle.token_lists.specs.Accounts.{Moves, Keeps, Covers, none, holds};
ghost use Rattle.macro_args.specs.Args.{IsFilled};
ghost use Rattle.input_stack.specs.Whole.{WholeCall};
ghost use Rattle.input_stack.specs.WholeLevel.{WholeLevel};
ghost use Rattle.input_stack.specs.WholeLevel as whole_as;
ghost use Rattle.input_stack.specs.Wholes.{whole, level_count, count_in};
ghost use Rattle.input_stack.specs.Puts.{is_finished, has_item, next_item, Text};
ghost use Rattle.input_stack.specs.Calls.{call_put};
ghost use Rattle.input_stack.specs.CallViews.{arguments_in, met, is_opening, opened, Shares, IsCountable};
ghost use Rattle.input_stack.specs.Pushes.{pushed_holds, call_refused};
ghost use Rattle.input_stack.specs.Levels.{is_top_passed};
ghost use Rattle.input_stack.specs.Pending.{levels, arguments, used_parameters, without_top, either, parameter_room, end_token_lists, put, plain_put, shared_put, listed_put, refusal, room, used_levels, open_over, at_line, Ends};
ghost use Rattle.input_stack.specs.Backs.{begun_holds, IsBegun, LacksMemory, PutsBack, Refuses};
ghost use Rattle.input_stack.specs.View.{pending, pending_in, in_front, held, innermost, IsSourceOnTop, level_at, level_holds, level_open};
ghost use Rattle.input_stack.specs.Pulls.{Pulls, PullsTop, Passes, IsInBuffer, looks, is_line_end};
ghost use Rattle.input_stack.specs.Stacks.{IsStack, Fits, IsSized, IsLevel, AreUnfinished, AreRead};
ghost use Rattle.input_stack.specs.Lasting.{Lasts, LastsBut};
ghost use Rattle.input_stack.specs.AtOnce.{PullsAtOnce};

use crate::call::Call;
use crate::level::{Begun, Level, Pulled, Source};
use crate::levels::{
    argument_levels, close_argument, first_own, is_finished, is_passed, next_opens, release,
};
use crate::pull::{has_item, level_looks, pull_level, quick_level};
use crate::reader::Reader;
use crate::release::let_go;
use line_lexer::{Ahead, Line};
use macro_args::Args;
use std::alloc::{AllocError, Global};
use tex_defs::{Full, Sizes, Table, Token};
use token_lists::{ListRef, Lists};
use world_io::InId;

/// The levels of input, innermost last, with room for the size of the input stack, and the arguments of all calls.
pub struct InputStack {
    levels: Vec<Level>,
    // The arguments of all calls, a call's behind those of the calls beneath it, in their order, with room for the size of
    // the parameter stack. An argument without tokens has no list.
    arguments: Vec<Option<ListRef>>,
    // The levels of arguments, each on that of its call.
    argument_levels: u32,
    size: u32,
    parameter_size: u32,
}

// A list of one token.
fn begun(lists: &mut Lists, token: Token) -> Result<ListRef, (Full, Begun)>
    ensures held { IfOk result (λ r. IsHeld lists.new (id_of r)) }
    ensures fresh { IfOk result (λ r. entry_at lists.old (id_of r) ≡ None) }
    ensures tokens { IfOk result (λ r. tokens_at lists.new (id_of r) ≡ token ∷ []) }
    ensures account { MatchResult result (λ r. Moves lists.old lists.new none (holds (id_of r))) (λ e. Moves lists.old lists.new none (begun_holds e.1)) }
    ensures kept { Keeps lists.old lists.new none }
    ensures refused { IfErr result (λ e. LacksMemory lists.new e.0 e.1) }
{
    let mut build = match lists.begin() {
        Ok(build) => build,
        Err(full) => return Err((full, Begun::Nothing)),
    };
    match lists.append(&mut build, token) {
        Ok(()) => Ok(lists.finish(build)),
        Err(full) => Err((full, Begun::Build(build))),
    }
}

// A level that reads a list, as one of its own or as one that others may hold too.
fn list_level(lists: &Lists, list: ListRef, shared: bool) -> Level
    requires { IsHeld lists.now (id_of list) }
    ensures stands { IsLevel lists.now (whole [] result) }
    ensures closed { level_open (whole [] result) ≡ 0 }
    ensures no_arguments { level_count result ≡ 0 }
    ensures held { (h : ℕ) → level_holds (whole [] result) h ≡ holds (id_of list) h }
    ensures put { (levels : List WholeLevel) → pending_in lists.now (whole [] result ∷ levels) ≡ in_front (listed_put shared (id_of list) (tokens_at lists.now (id_of list))) (pending_in lists.now levels) }
{
    let reader = Reader::new(lists, list);
    if shared {
        Level::Call(Call::new(reader, 0))
    } else {
        Level::List(reader)
    }
}

// Lets the macro's list and the arguments of a call go that has no body.
#[inline(always)]
fn let_unread_go(lists: &mut Lists, body: ListRef, args: Args)
    requires { Covers lists.old (pushed_holds body args) }
    ensures account { Moves lists.old lists.new (pushed_holds body args) none }
    ensures kept { Keeps lists.old lists.new (pushed_holds body args) }
    ensures lasting { Lasts lists.old lists.new }
{
    let_go(lists, body);
    args.release(lists);
}

// How many levels go or come.
#[inline(always)]
fn one_if(test: bool) -> u32
    ensures { result ≡ cond test 1 0 }
{
    if test { 1 } else { 0 }
}

// This file or line of `\read` goes on at a line.
fn begin_at(level: &mut Level, line: Line)
    ensures at { (args : List (Option ListRef)) → whole args level.new ≡ level_at line (whole args level.old) }
    ensures count { level_count level.new ≡ level_count level.old }
{
    if let Level::Source(source) = level {
        source.line = line;
    }
}

impl InputStack {
    /// No level, and room for as many as the input stack's size, and for as many arguments as the parameter stack's.
    ///
    /// # Errors
    /// There is no room for them. No other call takes memory.
    pub fn new(alloc: Global, sizes: &Sizes) -> Result<InputStack, AllocError>
        ensures empty { IfOk result (λ s. innermost s ≡ []) }
        ensures stands { (table : List (Option Entry)) → IfOk result (IsStack table) }
        ensures size { IfOk result (λ s. s.size ≡ sizes.now.input_stack_size) }
        ensures parameter_size { IfOk result (λ s. s.parameter_size ≡ sizes.now.parameter_stack_size) }
    {
        let size = sizes.input_stack_size;
        let parameter_size = sizes.parameter_stack_size;
        let levels = Vec::with_capacity(alloc, size as usize)?;
        match Vec::with_capacity(alloc, parameter_size as usize) {
            Ok(arguments) => {
                Ok(InputStack::without_levels(levels, arguments, size, parameter_size))
            }
            Err(error) => {
                levels.destroy_empty();
                Err(error)
            }
        }
    }

    // No level, in this room.
    fn without_levels(
        levels: Vec<Level>,
        arguments: Vec<Option<ListRef>>,
        size: u32,
        parameter_size: u32,
    ) -> InputStack
        requires none { levels.items ≡ [] }
        requires no_arguments { arguments.items ≡ [] }
        requires room { size ≤ vec_capacity levels }
        requires parameter_room { parameter_size ≤ vec_capacity arguments }
        ensures stands { (table : List (Option Entry)) → IsStack table result }
        ensures empty { innermost result ≡ [] }
        ensures size { result.size ≡ size }
        ensures parameter_size { result.parameter_size ≡ parameter_size }
    {
        InputStack {
            levels,
            arguments,
            argument_levels: 0,
            size,
            parameter_size,
        }
    }

    /// The levels that stand, those that are finished too.
    pub fn levels(&self) -> u32
        requires { Fits self.now }
        ensures { (table : List (Option Entry)) → result ≡ levels (pending table self.now) }
    {
        self.levels.len() as u32 + self.argument_levels
    }

    /// The arguments of all calls that stand, those that are finished too. Where nothing on top is finished, these are
    /// what is used of the parameter stack.
    pub fn arguments(&self) -> u32
        requires { Fits self.now }
        ensures standing { (table : List (Option Entry)) → IsStack table self.now → result ≡ arguments (pending table self.now) }
        ensures used { (table : List (Option Entry)) → IsStack table self.now → is_finished (pending table self.now).puts ≡ false → result ≡ used_parameters (pending table self.now) }
    {
        self.arguments.len() as u32
    }

    // Whether nothing is left of the list on top.
    #[inline(always)]
    fn is_finished(&self, lists: &Lists) -> bool
        requires { IsStack lists.now self.now }
        ensures { result ≡ is_finished (pending lists.now self.now).puts }
    {
        let count = self.levels.len();
        count > 0 && is_finished(&self.levels[count - 1], lists)
    }

    // Whether nothing is left of the list on top but gaps.
    fn is_passed(&self, lists: &Lists) -> bool
        requires { IsStack lists.now self.now }
        ensures { result ≡ is_top_passed lists.now (innermost self.now) }
    {
        let count = self.levels.len();
        if count == 0 {
            return false;
        }
        let level = &self.levels[count - 1];
        let first = first_own(level, self.arguments.len());
        is_passed(level, &self.arguments[first..], lists)
    }

    // The list or the call on top goes, with what is left of it.
    #[inline(always)]
    fn drop_top(&mut self, lists: &mut Lists)
        requires stands { IsStack lists.old self.old }
        requires in_front { 0 < length (pending lists.old self.old).puts }
        ensures stands { IsStack lists.new self.new }
        ensures beneath { AreUnfinished lists.new (innermost self.new) }
        ensures after { pending lists.new self.new ≡ without_top (pending lists.old self.old) }
        ensures fewer { length self.new.levels.items < length self.old.levels.items }
        ensures open_fewer { self.new.argument_levels ≤ self.old.argument_levels }
        ensures account { Moves lists.old lists.new (held self.old) (held self.new) }
        ensures kept { Keeps lists.old lists.new (held self.old) }
        ensures lasting { Lasts lists.old lists.new }
        ensures sizes { IsSized self.old self.new }
    {
        if let Some(level) = self.levels.pop() {
            self.argument_levels -= argument_levels(&level);
            release(level, &mut self.arguments, lists);
        }
    }

    // The argument's level on top goes, if no token is left of it.
    #[inline(always)]
    fn close_argument(&mut self, lists: &mut Lists)
        requires stands { IsStack lists.old self.old }
        requires unfinished { is_finished (pending lists.old self.old).puts ≡ false }
        ensures stands { IsStack lists.new self.new }
        ensures after { pending lists.new self.new ≡ end_token_lists (pending lists.old self.old) }
        ensures unfinished { AreUnfinished lists.new (innermost self.new) }
        ensures account { Moves lists.old lists.new (held self.old) (held self.new) }
        ensures kept { Keeps lists.old lists.new (held self.old) }
        ensures lasting { Lasts lists.old lists.new }
        ensures sizes { IsSized self.old self.new }
    {
        let count = self.levels.len();
        if count == 0 {
            return;
        }
        let closed = close_argument(&mut self.levels[count - 1], lists);
        self.argument_levels -= one_if(closed);
    }

    /// The finished lists on top go, from the top down.
    #[inline(always)]
    pub fn drop_finished(&mut self, lists: &mut Lists)
        requires { IsStack lists.old self.old }
        ensures stands { IsStack lists.new self.new }
        ensures after { pending lists.new self.new ≡ end_token_lists (pending lists.old self.old) }
        ensures unfinished { AreUnfinished lists.new (innermost self.new) }
        ensures account { Moves lists.old lists.new (held self.old) (held self.new) }
        ensures kept { Keeps lists.old lists.new (held self.old) }
        ensures lasting { Lasts lists.old lists.new }
        ensures size { self.new.size ≡ self.old.size }
        ensures parameter_size { self.new.parameter_size ≡ self.old.parameter_size }
    {
        while self.is_finished(lists) {
            self.drop_top(lists);
        }
        self.close_argument(lists);
    }

    // The lists and calls on top go of which nothing is left but gaps.
    #[inline(always)]
    fn pass_gaps(&mut self, lists: &mut Lists)
        requires stands { IsStack lists.old self.old }
        requires unfinished { AreUnfinished lists.old (innermost self.old) }
        ensures stands { IsStack lists.new self.new }
        ensures unfinished { AreUnfinished lists.new (innermost self.new) }
        ensures passed { is_top_passed lists.new (innermost self.new) ≡ false }
        ensures same { Passes (pending lists.old self.old) (pending lists.new self.new) }
        ensures fewer { length self.new.levels.items ≤ length self.old.levels.items }
        ensures open_fewer { self.new.argument_levels ≤ self.old.argument_levels }
        ensures account { Moves lists.old lists.new (held self.old) (held self.new) }
        ensures kept { Keeps lists.old lists.new (held self.old) }
        ensures lasting { Lasts lists.old lists.new }
        ensures sizes { IsSized self.old self.new }
    {
        while self.is_passed(lists) {
            self.drop_top(lists);
        }
    }

    // Whether the next item is an argument's first token.
    #[inline(always)]
    fn is_opening(&self, lists: &Lists) -> bool
        requires { IsStack lists.now self.now }
        ensures { result ≡ is_opening (met (next_item (pending lists.now self.now).puts)) }
    {
        let mut at = self.levels.len();
        let mut count = self.arguments.len();
        while at > 0 {
            at -= 1;
            let level = &self.levels[at];
            let first = first_own(level, count);
            let args = &self.arguments[first..count];
            if let Some(opens) = next_opens(level, args, lists) {
                return opens;
            }
            count = first;
        }
        false
    }

    // Puts a level on top that has no arguments.
    fn put(&mut self, level: Level)
        requires fits { Fits self.old }
        requires room { length self.old.levels.items + self.old.argument_levels < self.old.size }
        requires closed { level_open (whole [] level) ≡ 0 }
        requires no_arguments { level_count level ≡ 0 }
        ensures list { innermost self.new ≡ whole [] level ∷ innermost self.old }
        ensures fits { Fits self.new }
        ensures sizes { IsSized self.old self.new }
    {
        self.levels.push_reserved(level);
    }

    // Puts a call on top, of which no argument's level is open.
    #[inline(always)]
    fn put_call(&mut self, body: Reader, args: Args)
        requires fits { Fits self.old }
        requires filled { IsFilled args }
        requires room { length self.old.levels.items + self.old.argument_levels < self.old.size }
        requires few { length self.old.arguments.items + args.count ≤ self.old.parameter_size }
        ensures list { let call : WholeCall = record { body = body; argument = None; args = take args.count args.lists } in innermost self.new ≡ whole_as.Call call ∷ innermost self.old }
        ensures fits { Fits self.new }
        ensures sizes { IsSized self.old self.new }
    {
        let count = args.count as u32;
        args.push_onto(&mut self.arguments);
        self.levels
            .push_reserved(Level::Call(Call::new(body, count)));
    }

    // Why there is no room for one more level.
    #[inline(always)]
    fn full(&self) -> Option<Full>
        requires { Fits self.now }
        ensures { result ≡ room self.now.size (length self.now.levels.items + self.now.argument_levels) }
    {
        let used = self.levels.len() as u32 + self.argument_levels;
        if used < self.size {
            return None;
        }
        Some(Full {
            table: Table::InputStackSize,
            used,
            size: self.size,
        })
    }

    // Why there is no room for an argument's level, if one opens.
    #[inline(always)]
    fn opening_full(&self, opening: bool) -> Option<Full>
        requires { Fits self.now }
        ensures { result ≡ cond opening (room self.now.size (length self.now.levels.items + self.now.argument_levels)) None }
    {
        if opening { self.full() } else { None }
    }

    /// Why there is no room for one more level, once the finished lists on top have gone.
    pub fn room(&mut self, lists: &mut Lists) -> Option<Full>
        requires { IsStack lists.old self.old }
        ensures stands { IsStack lists.new self.new }
        ensures after { pending lists.new self.new ≡ end_token_lists (pending lists.old self.old) }
        ensures refused { result ≡ room self.old.size (used_levels (pending lists.old self.old)) }
        ensures account { Moves lists.old lists.new (held self.old) (held self.new) }
        ensures kept { Keeps lists.old lists.new (held self.old) }
        ensures lasting { Lasts lists.old lists.new }
        ensures size { self.new.size ≡ self.old.size }
        ensures parameter_size { self.new.parameter_size ≡ self.old.parameter_size }
    {
        self.drop_finished(lists);
        self.full()
    }

    /// Puts a list of its own in front; one without tokens is let go.
    ///
    /// # Errors
    /// The levels are at the size of the input stack, once the finished lists on top have gone. The list is handed back.
    pub fn push_list(&mut self, lists: &mut Lists, list: ListRef) -> Result<(), (Full, ListRef)>
        requires stands { IsStack lists.old self.old }
        requires held { Covers lists.old (λ h. holds (id_of list) h + held self.old h) }
        ensures stands { IsStack lists.new self.new }
        ensures ok { OnOk result (pending lists.new self.new ≡ put (plain_put (id_of list) (tokens_at lists.old (id_of list))) (pending lists.old self.old)) }
        ensures err { OnErr result (pending lists.new self.new ≡ end_token_lists (pending lists.old self.old)) }
        ensures refused { MatchResult result (λ _. refusal self.old.size (map Text (tokens_at lists.old (id_of list))) (pending lists.old self.old) ≡ None) (λ e. (refusal self.old.size (map Text (tokens_at lists.old (id_of list))) (pending lists.old self.old) ≡ Some e.0) × (e.1 ≡ list)) }
        ensures tokens { 0 < length (tokens_at lists.old (id_of list)) → tokens_at lists.new (id_of list) ≡ tokens_at lists.old (id_of list) }
        ensures account { MatchResult result (λ _. Moves lists.old lists.new (λ h. holds (id_of list) h + held self.old h) (held self.new)) (λ _. Moves lists.old lists.new (held self.old) (held self.new)) }
        ensures kept { MatchResult result (λ _. Keeps lists.old lists.new (λ h. holds (id_of list) h + held self.old h)) (λ _. Keeps lists.old lists.new (held self.old)) }
        ensures lasting { Lasts lists.old lists.new }
        ensures size { self.new.size ≡ self.old.size }
        ensures parameter_size { self.new.parameter_size ≡ self.old.parameter_size }
    {
        self.push(lists, list, false)
    }

    /// Puts a list in front that others may hold too, as it stands: a parameter number stands for itself. Nothing is
    /// copied, and one without tokens is let go.
    ///
    /// # Errors
    /// The levels are at the size of the input stack, once the finished lists on top have gone. The list is handed back.
    pub fn push_shared(&mut self, lists: &mut Lists, list: ListRef) -> Result<(), (Full, ListRef)>
        requires stands { IsStack lists.old self.old }
        requires held { Covers lists.old (λ h. holds (id_of list) h + held self.old h) }
        ensures stands { IsStack lists.new self.new }
        ensures ok { OnOk result (pending lists.new self.new ≡ put (shared_put (id_of list) (tokens_at lists.old (id_of list))) (pending lists.old self.old)) }
        ensures err { OnErr result (pending lists.new self.new ≡ end_token_lists (pending lists.old self.old)) }
        ensures refused { MatchResult result (λ _. refusal self.old.size (map Text (tokens_at lists.old (id_of list))) (pending lists.old self.old) ≡ None) (λ e. (refusal self.old.size (map Text (tokens_at lists.old (id_of list))) (pending lists.old self.old) ≡ Some e.0) × (e.1 ≡ list)) }
        ensures tokens { 0 < length (tokens_at lists.old (id_of list)) → tokens_at lists.new (id_of list) ≡ tokens_at lists.old (id_of list) }
        ensures account { MatchResult result (λ _. Moves lists.old lists.new (λ h. holds (id_of list) h + held self.old h) (held self.new)) (λ _. Moves lists.old lists.new (held self.old) (held self.new)) }
        ensures kept { MatchResult result (λ _. Keeps lists.old lists.new (λ h. holds (id_of list) h + held self.old h)) (λ _. Keeps lists.old lists.new (held self.old)) }
        ensures lasting { Lasts lists.old lists.new }
        ensures size { self.new.size ≡ self.old.size }
        ensures parameter_size { self.new.parameter_size ≡ self.old.parameter_size }
    {
        self.push(lists, list, true)
    }

    // Puts a list in front, as one of its own or as one that others may hold too; one without tokens is let go.
    fn push(
        &mut self,
        lists: &mut Lists,
        list: ListRef,
        shared: bool,
    ) -> Result<(), (Full, ListRef)>
        requires stands { IsStack lists.old self.old }
        requires held { Covers lists.old (λ h. holds (id_of list) h + held self.old h) }
        ensures stands { IsStack lists.new self.new }
        ensures ok { OnOk result (pending lists.new self.new ≡ put (listed_put shared (id_of list) (tokens_at lists.old (id_of list))) (pending lists.old self.old)) }
        ensures err { OnErr result (pending lists.new self.new ≡ end_token_lists (pending lists.old self.old)) }
        ensures refused { MatchResult result (λ _. refusal self.old.size (map Text (tokens_at lists.old (id_of list))) (pending lists.old self.old) ≡ None) (λ e. (refusal self.old.size (map Text (tokens_at lists.old (id_of list))) (pending lists.old self.old) ≡ Some e.0) × (e.1 ≡ list)) }
        ensures tokens { 0 < length (tokens_at lists.old (id_of list)) → tokens_at lists.new (id_of list) ≡ tokens_at lists.old (id_of list) }
        ensures account { MatchResult result (λ _. Moves lists.old lists.new (λ h. holds (id_of list) h + held self.old h) (held self.new)) (λ _. Moves lists.old lists.new (held self.old) (held self.new)) }
        ensures kept { MatchResult result (λ _. Keeps lists.old lists.new (λ h. holds (id_of list) h + held self.old h)) (λ _. Keeps lists.old lists.new (held self.old)) }
        ensures lasting { Lasts lists.old lists.new }
        ensures size { self.new.size ≡ self.old.size }
        ensures parameter_size { self.new.parameter_size ≡ self.old.parameter_size }
    {
        if lists.first(&list).is_none() {
            let_go(lists, list);
            return Ok(());
        }
        self.drop_finished(lists);
        if let Some(full) = self.full() {
            return Err((full, list));
        }
        let level = list_level(lists, list, shared);
        self.put(level);
        Ok(())
    }

    // Why there is no room for the level of a call with so many arguments.
    fn call_full(&self, count: u32) -> Option<Full>
        requires fits { Fits self.now }
        requires few { count ≤ 9 }
        ensures { result ≡ either (parameter_room self.now.parameter_size (length self.now.arguments.items) count) (room self.now.size (length self.now.levels.items + self.now.argument_levels)) }
    {
        let used = self.arguments.len() as u32;
        if count > self.parameter_size - used {
            return Some(Full {
                table: Table::ParameterStackSize,
                used,
                size: self.parameter_size,
            });
        }
        self.full()
    }

    /// Puts a macro's body in front, each parameter number replaced by its argument. The list is the macro's: its
    /// parameter text, the end mark and its body. Nothing is copied, and a call without a body is let go.
    ///
    /// # Errors
    /// Once the finished lists on top have gone: the arguments of all calls and these pass the parameter stack size, or
    /// the levels are at the size of the input stack. The macro's list and the arguments are handed back.
    #[inline(always)]
    pub fn push_macro(
        &mut self,
        lists: &mut Lists,
        body: ListRef,
        args: Args,
    ) -> Result<(), (Full, ListRef, Args)>
        requires stands { IsStack lists.old self.old }
        requires filled { IsFilled args }
        requires held { Covers lists.old (λ h. pushed_holds body args h + held self.old h) }
        ensures stands { IsStack lists.new self.new }
        ensures ok { OnOk result (pending lists.new self.new ≡ put (call_put (id_of body) (tokens_at lists.old (id_of body)) (arguments_in lists.old args)) (pending lists.old self.old)) }
        ensures err { OnErr result (pending lists.new self.new ≡ end_token_lists (pending lists.old self.old)) }
        ensures refused { MatchResult result (λ _. call_refused self.old lists.old body args ≡ None) (λ e. (call_refused self.old lists.old body args ≡ Some e.0) × (e.1 ≡ body) × (e.2 ≡ args)) }
        ensures account { MatchResult result (λ _. Moves lists.old lists.new (λ h. pushed_holds body args h + held self.old h) (held self.new)) (λ _. Moves lists.old lists.new (held self.old) (held self.new)) }
        ensures kept { MatchResult result (λ _. Keeps lists.old lists.new (λ h. pushed_holds body args h + held self.old h)) (λ _. Keeps lists.old lists.new (held self.old)) }
        ensures lasting { Lasts lists.old lists.new }
        ensures size { self.new.size ≡ self.old.size }
        ensures parameter_size { self.new.parameter_size ≡ self.old.parameter_size }
    {
        let mut reader = Reader::new(lists, body);
        reader.skip_places(lists);
        if reader.peek(lists).is_none() {
            let_unread_go(lists, reader.into_list(), args);
            return Ok(());
        }
        self.drop_finished(lists);
        if let Some(full) = self.call_full(args.count as u32) {
            return Err((full, reader.into_list(), args));
        }
        self.put_call(reader, args);
        Ok(())
    }

    /// Puts a token back, as a list of one token.
    ///
    /// # Errors
    /// The main memory is full, or the levels are at the size of the input stack, once the finished lists on top have
    /// gone. What was made of the list is handed back.
    pub fn back(&mut self, lists: &mut Lists, token: Token) -> Result<(), (Full, Begun)>
        requires stands { IsStack lists.old self.old }
        ensures stands { IsStack lists.new self.new }
        ensures ok { OnOk result (PutsBack lists.old lists.new (held self.old) (pending lists.old self.old) (pending lists.new self.new) token) }
        ensures err { OnErr result (pending lists.new self.new ≡ end_token_lists (pending lists.old self.old)) }
        ensures refused { IfErr result (λ e. Refuses lists.new self.old.size (used_levels (pending lists.old self.old)) token e.0 e.1) }
        ensures begun { IfErr result (λ e. IsBegun lists.new e.1) }
        ensures room { OnOk result (used_levels (pending lists.old self.old) < self.old.size) }
        ensures account { MatchResult result (λ _. Moves lists.old lists.new (held self.old) (held self.new)) (λ e. Moves lists.old lists.new (held self.old) (λ h. begun_holds e.1 h + held self.new h)) }
        ensures kept { Keeps lists.old lists.new (held self.old) }
        ensures size { self.new.size ≡ self.old.size }
        ensures parameter_size { self.new.parameter_size ≡ self.old.parameter_size }
    {
        self.drop_finished(lists);
        let list = match begun(lists, token) {
            Ok(list) => list,
            Err(refused) => return Err(refused),
        };
        match self.push_list(lists, list) {
            Ok(()) => Ok(()),
            Err((full, list)) => Err((full, Begun::List(list))),
        }
    }

    /// Puts an open file, or a line of `\read`, in front with its line.
    ///
    /// # Errors
    /// The levels are at the size of the input stack, once the finished lists on top have gone.
    pub fn push_file(&mut self, lists: &mut Lists, id: Option<InId>, line: Line) -> Result<(), Full>
        requires { IsStack lists.old self.old }
        ensures stands { IsStack lists.new self.new }
        ensures ok { OnOk result (pending lists.new self.new ≡ open_over id line (end_token_lists (pending lists.old self.old))) }
        ensures on_top { OnOk result (IsSourceOnTop (innermost self.new)) }
        ensures err { OnErr result (pending lists.new self.new ≡ end_token_lists (pending lists.old self.old)) }
        ensures refused { MatchResult result (λ _. room self.old.size (used_levels (pending lists.old self.old)) ≡ None) (λ f. room self.old.size (used_levels (pending lists.old self.old)) ≡ Some f) }
        ensures account { Moves lists.old lists.new (held self.old) (held self.new) }
        ensures kept { Keeps lists.old lists.new (held self.old) }
        ensures lasting { Lasts lists.old lists.new }
        ensures size { self.new.size ≡ self.old.size }
        ensures parameter_size { self.new.parameter_size ≡ self.old.parameter_size }
    {
        self.drop_finished(lists);
        if let Some(full) = self.full() {
            return Err(full);
        }
        self.put(Level::Source(Source { id, line }));
        Ok(())
    }

    /// The file or `\read` line on top goes on at this line.
    pub fn begin_line(&mut self, line: Line)
        requires { IsSourceOnTop (innermost self.old) }
        ensures after { (table : List (Option Entry)) → pending table self.new ≡ at_line line (pending table self.old) }
        ensures stands { (table : List (Option Entry)) → IsStack table self.old → IsStack table self.new }
        ensures held { (h : ℕ) → held self.new h ≡ held self.old h }
        ensures size { self.new.size ≡ self.old.size }
        ensures parameter_size { self.new.parameter_size ≡ self.old.parameter_size }
    {
        let count = self.levels.len();
        if count == 0 {
            return;
        }
        begin_at(&mut self.levels[count - 1], line);
    }

    /// The file or `\read` line on top goes, and with it what is left of its line. The file is answered.
    pub fn end_file(&mut self) -> Option<InId>
        requires { IsSourceOnTop (innermost self.old) }
        ensures after { (table : List (Option Entry)) → Ends (pending table self.old) (pending table self.new) result }
        ensures stands { (table : List (Option Entry)) → IsStack table self.old → IsStack table self.new }
        ensures held { (h : ℕ) → held self.new h ≡ held self.old h }
        ensures size { self.new.size ≡ self.old.size }
        ensures parameter_size { self.new.parameter_size ≡ self.old.parameter_size }
    {
        let Some(level) = self.levels.pop() else {
            return None;
        };
        match level {
            Level::Source(source) => source.id,
            Level::List(_reader) => unreachable!(),
            Level::Call(_call) => unreachable!(),
        }
    }

    /// The next item, where it is a token at hand: of a list, of an open argument, or of a body, no parameter number.
    #[inline(always)]
    pub fn quick(&mut self, lists: &Lists) -> Option<Token>
        requires { IsStack lists.now self.old }
        ensures gives { IfSome result (λ t. PullsAtOnce (pending lists.now self.old) (pending lists.now self.new) t) }
        ensures stays { result ≡ None → pending lists.now self.new ≡ pending lists.now self.old }
        ensures stands { IsStack lists.now self.new }
        ensures held { (h : ℕ) → held self.new h ≡ held self.old h }
        ensures size { self.new.size ≡ self.old.size }
        ensures parameter_size { self.new.parameter_size ≡ self.old.parameter_size }
    {
        let count = self.levels.len();
        if count == 0 {
            return None;
        }
        quick_level(&mut self.levels[count - 1], lists)
    }

    /// What is next: a token of a list in front, else what the innermost line gives by these category codes. The line
    /// stands in `bytes`.
    ///
    /// # Errors
    /// An argument's first token is next, and its level would be one more than the size of the input stack.
    pub fn pull(
        &mut self,
        lists: &mut Lists,
        bytes: &mut [u8],
        categories: &[u8; 256],
    ) -> Result<Pulled, Full>
        requires stands { IsStack lists.old self.old }
        requires in_buffer { IsInBuffer (pending lists.old self.old).sources (length bytes.old) }
        requires countable { IsCountable lists.old (next_item (pending lists.old self.old).puts) }
        ensures stands { IsStack lists.new self.new }
        ensures in_buffer { IsInBuffer (pending lists.new self.new).sources (length bytes.new) }
        ensures line_end { IsTrue (is_line_end result) → IsSourceOnTop (innermost self.new) }
        ensures pulls { Pulls self.old.size categories.now bytes.old bytes.new (pending lists.old self.old) (pending lists.new self.new) result }
        ensures account { Moves lists.old lists.new (held self.old) (held self.new) }
        ensures kept { Keeps lists.old lists.new (held self.old) }
        ensures lasting { LastsBut lists.old lists.new (opened (next_item (pending lists.old self.old).puts)) }
        ensures size { self.new.size ≡ self.old.size }
        ensures parameter_size { self.new.parameter_size ≡ self.old.parameter_size }
    {
        match self.quick(lists) {
            Some(token) => Ok(Pulled::Token(token)),
            None => self.pull_behind_ended(lists, bytes, categories),
        }
    }

    // What is next, where it may be that lists have to go first, that a level opens, or that the line gives it.
    fn pull_behind_ended(
        &mut self,
        lists: &mut Lists,
        bytes: &mut [u8],
        categories: &[u8; 256],
    ) -> Result<Pulled, Full>
        requires stands { IsStack lists.old self.old }
        requires in_buffer { IsInBuffer (pending lists.old self.old).sources (length bytes.old) }
        requires countable { IsCountable lists.old (next_item (pending lists.old self.old).puts) }
        ensures stands { IsStack lists.new self.new }
        ensures in_buffer { IsInBuffer (pending lists.new self.new).sources (length bytes.new) }
        ensures line_end { IsTrue (is_line_end result) → IsSourceOnTop (innermost self.new) }
        ensures pulls { Pulls self.old.size categories.now bytes.old bytes.new (pending lists.old self.old) (pending lists.new self.new) result }
        ensures account { Moves lists.old lists.new (held self.old) (held self.new) }
        ensures kept { Keeps lists.old lists.new (held self.old) }
        ensures lasting { LastsBut lists.old lists.new (opened (next_item (pending lists.old self.old).puts)) }
        ensures size { self.new.size ≡ self.old.size }
        ensures parameter_size { self.new.parameter_size ≡ self.old.parameter_size }
    {
        self.drop_finished(lists);
        let opening = self.is_opening(lists);
        if let Some(full) = self.opening_full(opening) {
            return Err(full);
        }
        self.pass_gaps(lists);
        Ok(self.pull_top(lists, bytes, categories, opening))
    }

    /// Whether the list or the call on top has an item left that is no gap; it may be one that opens a level. Nothing changes.
    #[inline(always)]
    pub fn has_item(&self, lists: &Lists) -> bool
        requires { IsStack lists.now self.now }
        ensures is { result ≡ has_item (pending lists.now self.now).puts }
        ensures next { IsTrue result → IsSome (next_item (pending lists.now self.now).puts) }
    {
        let count = self.levels.len();
        if count == 0 {
            return false;
        }
        let level = &self.levels[count - 1];
        let first = first_own(level, self.arguments.len());
        has_item(level, &self.arguments[first..], lists)
    }

    /// What the next pull gives: a token of a list or of the line, an invalid character, or nothing more of the line.
    /// Nothing changes.
    #[inline(always)]
    pub fn looks(&self, lists: &Lists, bytes: &[u8], categories: &[u8; 256]) -> Ahead
        requires stands { IsStack lists.now self.now }
        requires in_buffer { IsInBuffer (pending lists.now self.now).sources (length bytes.now) }
        ensures { result ≡ looks categories.now bytes.now (pending lists.now self.now) }
    {
        let mut at = self.levels.len();
        let mut count = self.arguments.len();
        while at > 0 {
            at -= 1;
            let level = &self.levels[at];
            let first = first_own(level, count);
            let args = &self.arguments[first..count];
            if let Some(ahead) = level_looks(level, args, lists, bytes, categories) {
                return ahead;
            }
            count = first;
        }
        Ahead::End
    }

    // What the level on top gives, of which more is left than gaps; nothing is pending where there is none.
    fn pull_top(
        &mut self,
        lists: &mut Lists,
        bytes: &mut [u8],
        categories: &[u8; 256],
        opening: bool,
    ) -> Pulled
        requires opening { opening ≡ is_opening (met (next_item (pending lists.old self.old).puts)) }
        requires stands { IsStack lists.old self.old }
        requires unfinished { AreUnfinished lists.old (innermost self.old) }
        requires passed { is_top_passed lists.old (innermost self.old) ≡ false }
        requires room { IsTrue opening → length self.old.levels.items + self.old.argument_levels < self.old.size }
        requires countable { IsCountable lists.old (next_item (pending lists.old self.old).puts) }
        requires in_buffer { IsInBuffer (pending lists.old self.old).sources (length bytes.old) }
        ensures stands { IsStack lists.new self.new }
        ensures bytes { length bytes.new ≡ length bytes.old }
        ensures pulls { PullsTop categories.now bytes.old bytes.new (pending lists.old self.old) (pending lists.new self.new) (next_item (pending lists.old self.old).puts) result }
        ensures shares { Shares lists.old lists.new (opened (next_item (pending lists.old self.old).puts)) }
        ensures held { (h : ℕ) → held self.new h ≡ held self.old h + opened (next_item (pending lists.old self.old).puts) h }
        ensures sizes { IsSized self.old self.new }
    {
        let count = self.levels.len();
        if count == 0 {
            return Pulled::Bottom;
        }
        self.argument_levels += one_if(opening);
        let level = &mut self.levels[count - 1];
        let first = first_own(level, self.arguments.len());
        pull_level(level, &self.arguments[first..], lists, bytes, categories)
    }

    // The level on top goes, if there is one.
    fn drop_level(&mut self, lists: &mut Lists) -> bool
        requires read { AreRead lists.old (innermost self.old) }
        requires counts { length self.old.arguments.items ≡ count_in (reverse self.old.levels.items) }
        ensures read { AreRead lists.new (innermost self.new) }
        ensures counts { length self.new.arguments.items ≡ count_in (reverse self.new.levels.items) }
        ensures account { Moves lists.old lists.new (held self.old) (held self.new) }
        ensures kept { Keeps lists.old lists.new (held self.old) }
        ensures fewer { IsTrue result → length self.new.levels.items < length self.old.levels.items }
        ensures none { result ≡ false → length self.new.levels.items ≡ 0 }
    {
        let Some(level) = self.levels.pop() else {
            return false;
        };
        release(level, &mut self.arguments, lists);
        true
    }

    /// Lets all lists go, and with them the stack.
    pub fn close(self, lists: &mut Lists)
        requires { IsStack lists.old self }
        ensures account { Moves lists.old lists.new (held self) none }
        ensures kept { Keeps lists.old lists.new (held self) }
    {
        let mut stack = self;
        while stack.drop_level(lists) {}
        let InputStack {
            levels,
            arguments,
            argument_levels: _,
            size: _,
            parameter_size: _,
        } = stack;
        levels.destroy_empty();
        arguments.destroy_empty();
    }
}
