// The present argument.
ghost use Rattle.std.specs.Prelude.{◌≡◌, ◌≢◌, ◌<◌, ◌+◌, ◌-◌, ◌++◌, ◌∷◌, [], ◌↔◌, ◌&&◌, ◌==◌, false, length, take, IfOk, IfErr, IfSome, OnErr, IsTrue, None, ℕ};
ghost use Rattle.std.specs.Option.{ForSome};
ghost use Rattle.token_lists.specs.Table.{tokens_at, entry_at};
ghost use Rattle.token_lists.specs.Accounts.{Moves, none, holds, cell_holds};
ghost use Rattle.macro_args.specs.Args.{cell_tokens};
ghost use Rattle.macro_call.specs.Holds.{present_holds};
ghost use Rattle.token_lists.specs.Ids.{id_of, build_id, IsBuilding};
ghost use Rattle.token_lists.specs.Refusals.{IsFull};
ghost use Rattle.plain_tokens.specs.Arguments.{is_end, delimited_case, undelimited_case, case_at};
ghost use Rattle.macro_call.specs.Cursors.{IsOn, IsAhead, delimiter_at};
ghost use Rattle.macro_call.specs.Stages.{stage_of, kept_in, read_in, gained, IsSamePoint, IsStage, IsDelimitedStage, IsPlainStage, Releases, Took};
ghost use Rattle.macro_call.specs.Tables.{IsOnly, IsGrownByPart};

use crate::braces::without_braces;
use crate::builds::{store, store_front};
use crate::cursor::{Cursor, at_first_built};
use crate::matches::{advance_match, behind};
use crate::tokens::{is_begin, is_end, is_par, is_space};
use plain_tokens::ParMode;
use tex_defs::{Full, Token};
use token_lists::{Build, ListRef, Lists};

/// The argument that is being gathered.
pub struct Present {
    build: Build,
    // How many tokens of the list stand in front of the last extra brace: no match begins there.
    from: usize,
    // How many tokens of the delimiter were matched. They aren't in the list.
    matched: usize,
    // The place behind these: the token that goes on with the match.
    next: Cursor,
    // How many groups are open.
    depth: usize,
}

/// What a token was to the present argument.
#[derive(Clone, Copy, PartialEq, Eq)]
pub enum Step {
    /// It completed the argument.
    Argument,
    /// It is a right brace that closes nothing.
    ExtraBrace,
    /// It is a `\par` that ends the call.
    ParEnded,
    /// It is a space in front of the argument.
    Skipped,
    /// The argument goes on.
    Going,
}

// How many tokens a list that is being built has.
fn built_len(lists: &Lists, build: &Build) -> usize
    requires { IsBuilding lists.now build.now }
    ensures { result ≡ length (tokens_at lists.now (build_id build.now)) }
{
    let mut from = at_first_built(lists, build);
    while let Some((_, next)) = from.next(lists) {
        from = next;
    }
    from.index()
}

// Whether a match is whole: all of it stays, and nothing of the delimiter is behind it.
fn is_whole(lists: &Lists, list: &ListRef, out: usize, next: Cursor) -> bool
    requires { IsOn lists.now (id_of list.now) next }
    ensures { IsTrue result ↔ ((out ≡ 0) × (delimiter_at lists.now (id_of list.now) next ≡ [])) }
{
    out == 0 && next.next_along(lists).is_none()
}

impl Present {
    /// An argument begins, whose list is this one, at a place with this delimiter.
    #[inline(always)]
    pub fn new(build: Build, delimiter: Cursor) -> Present
        ensures same { build_id result.build ≡ build_id build }
        ensures building { result.build ≡ build }
        ensures fresh { (result.from ≡ 0) × (result.matched ≡ 0) × (result.depth ≡ 0) }
        ensures next { result.next ≡ delimiter }
    {
        Present {
            build,
            from: 0,
            matched: 0,
            next: delimiter,
            depth: 0,
        }
    }

    /// The list in work.
    pub fn built(&self) -> &Build
        ensures { result.now ≡ self.now.build }
    {
        &self.build
    }

    // A right brace that closes nothing: all that was read is kept, and no match begins before it.
    fn keep(&mut self, lists: &mut Lists, list: &ListRef, delimiter: Cursor) -> Result<(), Full>
        requires building { IsBuilding lists.old self.old.build }
        requires on { IsOn lists.old (id_of list.now) delimiter }
        requires apart { id_of list.now ≢ build_id self.old.build }
        requires inside { self.old.matched < length (delimiter_at lists.old (id_of list.now) delimiter) }
        ensures same { build_id self.new.build ≡ build_id self.old.build }
        ensures building { IsBuilding lists.new self.new.build }
        ensures others { IsOnly lists.old lists.new (build_id self.old.build) }
        ensures account { Moves lists.old lists.new none none }
        ensures kept { IfOk result (λ _. (tokens_at lists.new (build_id self.old.build) ≡ tokens_at lists.old (build_id self.old.build) ++ take self.old.matched (delimiter_at lists.old (id_of list.now) delimiter)) × (self.new.from ≡ length (tokens_at lists.new (build_id self.old.build))) × (self.new.matched ≡ 0) × (self.new.depth ≡ self.old.depth)) }
        ensures next { IfOk result (λ _. self.new.next ≡ delimiter) }
        ensures full { IfErr result (λ f. IsFull f lists.new) }
        ensures cut_short { OnErr result (IsGrownByPart (tokens_at lists.old (build_id self.old.build)) (tokens_at lists.new (build_id self.old.build)) (take self.old.matched (delimiter_at lists.old (id_of list.now) delimiter))) }
        ensures stays { OnErr result (IsSamePoint self.old self.new) }
        ensures length { length lists.new ≡ length lists.old }
    {
        store_front(lists, list, &mut self.build, delimiter, self.matched)?;
        self.from = built_len(lists, &self.build);
        self.matched = 0;
        self.next = delimiter;
        Ok(())
    }

    // A token behind a brace that is open, where there is no delimiter.
    fn feed_group(&mut self, lists: &mut Lists, mode: ParMode, x: Token) -> Result<Step, Full>
        requires building { IsBuilding lists.old self.old.build }
        requires stands { IsPlainStage (stage_of lists.old self.old) }
        requires inside { 0 < self.old.depth }
        ensures same { build_id self.new.build ≡ build_id self.old.build }
        ensures building { IsBuilding lists.new self.new.build }
        ensures others { IsOnly lists.old lists.new (build_id self.old.build) }
        ensures account { Moves lists.old lists.new none none }
        ensures point { (self.new.matched ≡ self.old.matched) × (self.new.next ≡ self.old.next) }
        ensures took { IfOk result (λ step. Took [] (stage_of lists.old self.old) x step (stage_of lists.new self.new) (undelimited_case mode (tokens_at lists.old (build_id self.old.build)) x)) }
        ensures full { IfErr result (λ f. IsFull f lists.new) }
        ensures unchanged { OnErr result (tokens_at lists.new (build_id self.old.build) ≡ tokens_at lists.old (build_id self.old.build)) }
        ensures cut_short { OnErr result (IsGrownByPart (tokens_at lists.old (build_id self.old.build)) (tokens_at lists.new (build_id self.old.build)) (gained [] (stage_of lists.old self.old) x (undelimited_case mode (tokens_at lists.old (build_id self.old.build)) x))) }
        ensures stays { OnErr result (IsSamePoint self.old self.new) }
        ensures length { length lists.new ≡ length lists.old }
    {
        if self.depth == 1 && is_end(x) {
            lists.drop_first(&mut self.build);
            return Ok(Step::Argument);
        }
        if mode.is_short() && is_par(x) {
            return Ok(Step::ParEnded);
        }
        let _used = lists.used();
        let depth = behind(self.depth, x);
        if let Err(full) = store(lists, &mut self.build, x) {
            return Err(full);
        }
        self.depth = depth;
        Ok(Step::Going)
    }

    // A token where there is no delimiter.
    #[inline(always)]
    fn feed_undelimited(&mut self, lists: &mut Lists, mode: ParMode, x: Token) -> Result<Step, Full>
        requires building { IsBuilding lists.old self.old.build }
        requires stands { IsPlainStage (stage_of lists.old self.old) }
        ensures same { build_id self.new.build ≡ build_id self.old.build }
        ensures building { IsBuilding lists.new self.new.build }
        ensures others { IsOnly lists.old lists.new (build_id self.old.build) }
        ensures account { Moves lists.old lists.new none none }
        ensures point { (self.new.matched ≡ self.old.matched) × (self.new.next ≡ self.old.next) }
        ensures took { IfOk result (λ step. Took [] (stage_of lists.old self.old) x step (stage_of lists.new self.new) (undelimited_case mode (tokens_at lists.old (build_id self.old.build)) x)) }
        ensures full { IfErr result (λ f. IsFull f lists.new) }
        ensures unchanged { OnErr result (tokens_at lists.new (build_id self.old.build) ≡ tokens_at lists.old (build_id self.old.build)) }
        ensures cut_short { OnErr result (IsGrownByPart (tokens_at lists.old (build_id self.old.build)) (tokens_at lists.new (build_id self.old.build)) (gained [] (stage_of lists.old self.old) x (undelimited_case mode (tokens_at lists.old (build_id self.old.build)) x))) }
        ensures stays { OnErr result (IsSamePoint self.old self.new) }
        ensures length { length lists.new ≡ length lists.old }
    {
        if self.depth > 0 {
            return self.feed_group(lists, mode, x);
        }
        if is_end(x) {
            return Ok(Step::ExtraBrace);
        }
        if mode.is_short() && is_par(x) {
            return Ok(Step::ParEnded);
        }
        if is_space(x) {
            return Ok(Step::Skipped);
        }
        if let Err(full) = store(lists, &mut self.build, x) {
            return Err(full);
        }
        if is_begin(x) {
            self.depth = 1;
            return Ok(Step::Going);
        }
        Ok(Step::Argument)
    }

    // A token that is no part of a whole match and no extra brace.
    fn feed_on(
        &mut self,
        lists: &mut Lists,
        list: &ListRef,
        delimiter: Cursor,
        mode: ParMode,
        x: Token,
        out: usize,
        next: Cursor,
    ) -> Result<Step, Full>
        requires building { IsBuilding lists.old self.old.build }
        requires on { IsOn lists.old (id_of list.now) delimiter }
        requires apart { id_of list.now ≢ build_id self.old.build }
        requires stands { IsDelimitedStage (delimiter_at lists.old (id_of list.now) delimiter) (stage_of lists.old self.old) }
        requires follows { IsAhead lists.old (id_of list.now) delimiter self.old.matched self.old.next }
        requires releases { Releases (delimiter_at lists.old (id_of list.now) delimiter) (stage_of lists.old self.old) x out }
        requires next { IsAhead lists.old (id_of list.now) delimiter (self.old.matched + 1 - out) next }
        requires open_yet { self.old.matched + 1 < length (delimiter_at lists.old (id_of list.now) delimiter) + out }
        requires inside { (is_end x && (self.old.depth == 0)) ≡ false }
        ensures same { build_id self.new.build ≡ build_id self.old.build }
        ensures building { IsBuilding lists.new self.new.build }
        ensures others { IsOnly lists.old lists.new (build_id self.old.build) }
        ensures account { Moves lists.old lists.new none none }
        ensures follows { IfOk result (λ step. IsAhead lists.new (id_of list.now) delimiter self.new.matched self.new.next) }
        ensures took { IfOk result (λ step. Took (delimiter_at lists.old (id_of list.now) delimiter) (stage_of lists.old self.old) x step (stage_of lists.new self.new) (delimited_case (delimiter_at lists.old (id_of list.now) delimiter) mode (kept_in (stage_of lists.old self.old)) (read_in (delimiter_at lists.old (id_of list.now) delimiter) (stage_of lists.old self.old)) x)) }
        ensures full { IfErr result (λ f. IsFull f lists.new) }
        ensures cut_short { OnErr result (IsGrownByPart (tokens_at lists.old (build_id self.old.build)) (tokens_at lists.new (build_id self.old.build)) (gained (delimiter_at lists.old (id_of list.now) delimiter) (stage_of lists.old self.old) x (delimited_case (delimiter_at lists.old (id_of list.now) delimiter) mode (kept_in (stage_of lists.old self.old)) (read_in (delimiter_at lists.old (id_of list.now) delimiter) (stage_of lists.old self.old)) x))) }
        ensures stays { OnErr result (IsSamePoint self.old self.new) }
        ensures length { length lists.new ≡ length lists.old }
    {
        let _used = lists.used();
        let depth = behind(self.depth, x);
        if out <= self.matched {
            if let Err(full) = store_front(lists, list, &mut self.build, delimiter, out) {
                return Err(full);
            }
            self.matched = self.matched - out + 1;
            self.next = next;
            self.depth = depth;
            return Ok(Step::Going);
        }
        if let Err(full) = store_front(lists, list, &mut self.build, delimiter, self.matched) {
            return Err(full);
        }
        if mode.is_short() && is_par(x) {
            return Ok(Step::ParEnded);
        }
        if let Err(full) = store(lists, &mut self.build, x) {
            return Err(full);
        }
        self.matched = 0;
        self.next = next;
        self.depth = depth;
        Ok(Step::Going)
    }

    // A token where there is a delimiter.
    fn feed_delimited(
        &mut self,
        lists: &mut Lists,
        list: &ListRef,
        delimiter: Cursor,
        mode: ParMode,
        x: Token,
    ) -> Result<Step, Full>
        requires building { IsBuilding lists.old self.old.build }
        requires on { IsOn lists.old (id_of list.now) delimiter }
        requires apart { id_of list.now ≢ build_id self.old.build }
        requires stands { IsDelimitedStage (delimiter_at lists.old (id_of list.now) delimiter) (stage_of lists.old self.old) }
        requires follows { IsAhead lists.old (id_of list.now) delimiter self.old.matched self.old.next }
        ensures same { build_id self.new.build ≡ build_id self.old.build }
        ensures building { IsBuilding lists.new self.new.build }
        ensures others { IsOnly lists.old lists.new (build_id self.old.build) }
        ensures account { Moves lists.old lists.new none none }
        ensures follows { IfOk result (λ step. IsAhead lists.new (id_of list.now) delimiter self.new.matched self.new.next) }
        ensures took { IfOk result (λ step. Took (delimiter_at lists.old (id_of list.now) delimiter) (stage_of lists.old self.old) x step (stage_of lists.new self.new) (delimited_case (delimiter_at lists.old (id_of list.now) delimiter) mode (kept_in (stage_of lists.old self.old)) (read_in (delimiter_at lists.old (id_of list.now) delimiter) (stage_of lists.old self.old)) x)) }
        ensures full { IfErr result (λ f. IsFull f lists.new) }
        ensures cut_short { OnErr result (IsGrownByPart (tokens_at lists.old (build_id self.old.build)) (tokens_at lists.new (build_id self.old.build)) (gained (delimiter_at lists.old (id_of list.now) delimiter) (stage_of lists.old self.old) x (delimited_case (delimiter_at lists.old (id_of list.now) delimiter) mode (kept_in (stage_of lists.old self.old)) (read_in (delimiter_at lists.old (id_of list.now) delimiter) (stage_of lists.old self.old)) x))) }
        ensures stays { OnErr result (IsSamePoint self.old self.new) }
        ensures length { length lists.new ≡ length lists.old }
    {
        let _used = lists.used();
        let before = if self.matched > 0 { 0 } else { self.depth };
        let (out, next) = advance_match(lists, list, delimiter, self.next, self.matched, before, x);
        if is_whole(lists, list, out, next) {
            without_braces(lists, &mut self.build);
            return Ok(Step::Argument);
        }
        if is_end(x) && self.depth == 0 {
            if let Err(full) = self.keep(lists, list, delimiter) {
                return Err(full);
            }
            return Ok(Step::ExtraBrace);
        }
        self.feed_on(lists, list, delimiter, mode, x, out, next)
    }

    /// Takes a token at a place with this delimiter, which is empty where there is none.
    ///
    /// # Errors
    /// All words are used; the list in work has some of the tokens that go into it, from the first on, and not all.
    pub fn feed(
        &mut self,
        lists: &mut Lists,
        list: &ListRef,
        delimiter: Cursor,
        mode: ParMode,
        x: Token,
    ) -> Result<Step, Full>
        requires building { IsBuilding lists.old self.old.build }
        requires on { IsOn lists.old (id_of list.now) delimiter }
        requires apart { id_of list.now ≢ build_id self.old.build }
        requires stands { IsStage (delimiter_at lists.old (id_of list.now) delimiter) (stage_of lists.old self.old) }
        requires follows { IsAhead lists.old (id_of list.now) delimiter self.old.matched self.old.next }
        ensures same { build_id self.new.build ≡ build_id self.old.build }
        ensures building { IsBuilding lists.new self.new.build }
        ensures others { IsOnly lists.old lists.new (build_id self.old.build) }
        ensures account { Moves lists.old lists.new none none }
        ensures follows { IfOk result (λ step. IsAhead lists.new (id_of list.now) delimiter self.new.matched self.new.next) }
        ensures took { IfOk result (λ step. Took (delimiter_at lists.old (id_of list.now) delimiter) (stage_of lists.old self.old) x step (stage_of lists.new self.new) (case_at (delimiter_at lists.old (id_of list.now) delimiter) mode (kept_in (stage_of lists.old self.old)) (read_in (delimiter_at lists.old (id_of list.now) delimiter) (stage_of lists.old self.old)) x)) }
        ensures full { IfErr result (λ f. IsFull f lists.new) }
        ensures cut_short { OnErr result (IsGrownByPart (tokens_at lists.old (build_id self.old.build)) (tokens_at lists.new (build_id self.old.build)) (gained (delimiter_at lists.old (id_of list.now) delimiter) (stage_of lists.old self.old) x (case_at (delimiter_at lists.old (id_of list.now) delimiter) mode (kept_in (stage_of lists.old self.old)) (read_in (delimiter_at lists.old (id_of list.now) delimiter) (stage_of lists.old self.old)) x))) }
        ensures stays { OnErr result (IsSamePoint self.old self.new) }
        ensures length { length lists.new ≡ length lists.old }
    {
        if delimiter.next_along(lists).is_none() {
            return self.feed_undelimited(lists, mode, x);
        }
        self.feed_delimited(lists, list, delimiter, mode, x)
    }

    /// The argument is complete: its list, or none where it has no token.
    #[inline(always)]
    pub fn finish(self, lists: &mut Lists) -> Option<ListRef>
        requires { IsBuilding lists.old self.build }
        ensures tokens { cell_tokens lists.new result ≡ tokens_at lists.old (build_id self.build) }
        ensures listed { IfSome result (λ r. 0 < length (tokens_at lists.new (id_of r))) }
        ensures others { IsOnly lists.old lists.new (build_id self.build) }
        ensures account { Moves lists.old lists.new (holds (build_id self.build)) (cell_holds result) }
        ensures length { length lists.new ≡ length lists.old }
    {
        let Present {
            build,
            from: _,
            matched: _,
            next: _,
            depth: _,
        } = self;
        if lists.first_built(&build).is_none() {
            lists.abandon(build);
            return None;
        }
        Some(lists.finish(build))
    }
}

// Frees the list in work, if there is one.
#[inline(always)]
pub fn abandon(lists: &mut Lists, present: Option<Present>)
    requires { ForSome present (λ p. IsBuilding lists.old p.build) }
    ensures account { Moves lists.old lists.new (present_holds present) none }
    ensures others { (h : ℕ) → present_holds present h ≡ 0 → entry_at lists.new h ≡ entry_at lists.old h }
    ensures free { present ≡ None → lists.new ≡ lists.old }
    ensures length { length lists.new ≡ length lists.old }
{
    if let Some(
        Present {
            build,
            from: _,
            matched: _,
            next: _,
            depth: _,
        },
    ) = present
    {
        lists.abandon(build);
    }
}
