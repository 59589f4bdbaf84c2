// A call: the tokens in front of the first place, and the places.
ghost use Rattle.std.specs.Prelude.{◌≡◌, true, Option, ◌<◌, ◌+◌, ◌∷◌, [], ℕ, List, IfOk, IfErr, OnErr, length, None, ◌≢◌};
ghost use Rattle.std.specs.Option.{option_map};
ghost use Rattle.token_lists.specs.Table.{Entry, tokens_at, IsHeld};
ghost use Rattle.token_lists.specs.Accounts.{Moves, Keeps, none};
ghost use Rattle.token_lists.specs.Ids.{id_of, build_id};
ghost use Rattle.token_lists.specs.Refusals.{IsFull};
ghost use Rattle.plain_tokens.specs.Arguments.{start_of, delimiters_of, begins_with_place, gathering, Fed, Tok, Cut, Noted, mode_of};
ghost use Rattle.macro_args.specs.Args.{IsFilled};
ghost use Rattle.macro_call.specs.Cursors.{IsOn, delimiter_at};
ghost use Rattle.macro_call.specs.PlainScans.{first_scan, cut_scan, noted_scan};
ghost use Rattle.macro_call.specs.Scans.{scan_of, resume, scan_holds, Owns, IsSound, answer_of, IsOpen, Gains, Next, IsBetween, NextPlace, left_at, Enters, Answers, IsCutShort, TookIn, CutIn, IsReady, IsWhole, Completes};

use crate::ask::CallAsk;
use crate::cursor::{Cursor, at_first};
use crate::present::{Present, Step, abandon};
use crate::tokens::same;
use macro_args::Args;
use plain_tokens::ParMode;
use std::mem;
use tex_defs::{Full, Token};
use token_lists::{Build, ListRef, Lists};

/// The scanner that gathers the arguments of a call.
#[must_use]
pub struct ArgScan {
    // In front of the first place: the token that must come next. In a place: its delimiter.
    cursor: Cursor,
    mode: ParMode,
    // An extra brace was answered, and nothing came since.
    braced: bool,
    present: Option<Present>,
    args: Args,
}

// A token to the present argument, where there is one.
fn take_step(
    present: &mut Option<Present>,
    lists: &mut Lists,
    list: &ListRef,
    cursor: Cursor,
    mode: ParMode,
    x: Token,
) -> Result<Step, Full>
    requires on { IsOn lists.old (id_of list.now) cursor }
    requires ready { IsReady lists.old (id_of list.now) cursor present.old }
    ensures took { IfOk result (λ step. TookIn lists.old lists.new (id_of list.now) cursor mode x step present.old present.new) }
    ensures cut_short { OnErr result (CutIn lists.old lists.new (id_of list.now) cursor mode x present.old present.new) }
    ensures account { Moves lists.old lists.new none none }
    ensures full { IfErr result (λ f. IsFull f lists.new) }
    ensures length { length lists.new ≡ length lists.old }
{
    match present {
        Some(present) => present.feed(lists, list, cursor, mode, x),
        None => unreachable!(),
    }
}

impl ArgScan {
    // Behind the next place, if there is one. No place is looked for behind the ninth argument.
    #[inline(always)]
    fn next_place(&self, lists: &Lists, list: &ListRef) -> Option<Cursor>
        requires on { IsOn lists.now (id_of list.now) self.now.cursor }
        requires ends { delimiter_at lists.now (id_of list.now) self.now.cursor ≡ [] }
        requires filled { IsFilled self.now.args }
        ensures { NextPlace lists.now (id_of list.now) self.now result }
    {
        if self.args.count == 9 {
            return None;
        }
        self.cursor.behind_place(lists)
    }

    // Behind the tokens in front of the first place, or behind a delimiter: the next argument's list is begun as its
    // place is reached.
    #[inline(always)]
    fn enter(&mut self, lists: &mut Lists, list: &ListRef) -> Result<CallAsk, Full>
        requires { IsBetween lists.old (id_of list.now) self.old }
        ensures enters { IfOk result (λ answer. Enters lists.old lists.new (id_of list.now) self.old self.new answer) }
        ensures err { OnErr result (lists.new ≡ lists.old) }
        ensures unchanged { OnErr result (self.new ≡ self.old) }
        ensures place { OnErr result (0 < length (left_at lists.old (id_of list.now) self.old)) }
        ensures full { IfErr result (λ f. IsFull f lists.new) }
        ensures length { length lists.new ≡ length lists.old }
    {
        let Some(next) = self.next_place(lists, list) else {
            return Ok(CallAsk::Gathered);
        };
        let build = match lists.begin() {
            Ok(build) => build,
            Err(full) => return Err(full),
        };
        let none = mem::replace(&mut self.present, Some(Present::new(build, next)));
        abandon(lists, none);
        self.cursor = next;
        Ok(CallAsk::More)
    }

    // A token in front of the first place.
    fn feed_start(&mut self, lists: &mut Lists, list: &ListRef, x: Token) -> Result<CallAsk, Full>
        requires sound { IsSound lists.old (id_of list.now) self.old }
        requires start { self.old.present ≡ None }
        ensures answers { IfOk result (λ answer. Answers lists.old lists.new (id_of list.now) self.old self.new x answer) }
        ensures cut_short { OnErr result (IsCutShort lists.old lists.new (id_of list.now) self.old self.new x) }
        ensures full { IfErr result (λ f. IsFull f lists.new) }
        ensures length { length lists.new ≡ length lists.old }
    {
        let (wanted, next) = self.cursor.delimiting(lists, list);
        if !same(x, wanted) {
            return Ok(CallAsk::Mismatch);
        }
        self.cursor = next;
        if next.next_along(lists).is_some() {
            return Ok(CallAsk::More);
        }
        self.enter(lists, list)
    }

    // The list in work is a whole argument.
    #[inline(always)]
    fn complete(&mut self, lists: &mut Lists, list: &ListRef)
        requires { IsWhole lists.old (id_of list.now) self.old }
        ensures completes { Completes lists.old lists.new (id_of list.now) self.old self.new }
        ensures length { length lists.new ≡ length lists.old }
    {
        let Some(present) = mem::replace(&mut self.present, None) else {
            return;
        };
        let cell = present.finish(lists);
        self.args.keep(lists, cell);
        self.cursor = self.cursor.behind_delimiter(lists, list);
    }

    // A token in a place.
    #[inline(always)]
    fn feed_place(&mut self, lists: &mut Lists, list: &ListRef, x: Token) -> Result<CallAsk, Full>
        requires sound { IsSound lists.old (id_of list.now) self.old }
        requires in_place { self.old.present ≢ None }
        ensures answers { IfOk result (λ answer. Answers lists.old lists.new (id_of list.now) self.old self.new x answer) }
        ensures cut_short { OnErr result (IsCutShort lists.old lists.new (id_of list.now) self.old self.new x) }
        ensures full { IfErr result (λ f. IsFull f lists.new) }
        ensures length { length lists.new ≡ length lists.old }
    {
        let step = match take_step(&mut self.present, lists, list, self.cursor, self.mode, x) {
            Ok(step) => step,
            Err(full) => return Err(full),
        };
        self.braced = false;
        match step {
            Step::Argument => {
                self.complete(lists, list);
                self.enter(lists, list)
            }
            Step::ExtraBrace => {
                self.mode = ParMode::Short;
                self.braced = true;
                Ok(CallAsk::ExtraBrace)
            }
            Step::ParEnded => Ok(CallAsk::ParEnded(self.mode.is_checked())),
            Step::Skipped => Ok(CallAsk::More),
            Step::Going => Ok(CallAsk::More),
        }
    }

    /// A call of a macro begins, whose list is this one: `long` tells whether it is `\long`. Where the parameter text
    /// begins with a place, the first argument's list is begun. Behind nine arguments no further place is looked for.
    ///
    /// # Errors
    /// All words are used; nothing has changed.
    pub fn new(lists: &mut Lists, list: &ListRef, long: bool) -> Result<ArgScan, Full>
        requires held { IsHeld lists.old (id_of list.now) }
        requires some { 0 < length (start_of (tokens_at lists.old (id_of list.now))) + length (delimiters_of (tokens_at lists.old (id_of list.now))) }
        ensures sound { IfOk result (λ scan. IsSound lists.new (id_of list.now) scan) }
        ensures plain { IfOk result (λ scan. scan_of lists.new scan ≡ first_scan (tokens_at lists.old (id_of list.now)) (mode_of long)) }
        ensures stands { IfOk result (λ scan. (fed : List Fed) → resume lists.new (id_of list.now) scan fed ≡ gathering (tokens_at lists.old (id_of list.now)) (mode_of long) fed) }
        ensures account { IfOk result (λ scan. Moves lists.old lists.new none (scan_holds scan)) }
        ensures gains { IfOk result (λ scan. Gains lists.old none (scan_holds scan)) }
        ensures kept { Keeps lists.old lists.new none }
        ensures place { OnErr result (begins_with_place (tokens_at lists.old (id_of list.now)) ≡ true) }
        ensures err { OnErr result (lists.new ≡ lists.old) }
        ensures full { IfErr result (λ f. IsFull f lists.new) }
        ensures length { length lists.new ≡ length lists.old }
    {
        let mut cursor = at_first(lists, list);
        let mut present = None;
        if let Some(next) = cursor.behind_place(lists) {
            match lists.begin() {
                Ok(build) => {
                    let none = mem::replace(&mut present, Some(Present::new(build, next)));
                    abandon(lists, none);
                }
                Err(full) => {
                    abandon(lists, present);
                    return Err(full);
                }
            }
            cursor = next;
        }
        Ok(ArgScan {
            cursor,
            mode: if long { ParMode::Long } else { ParMode::Short },
            braced: false,
            present,
            args: Args::none(),
        })
    }

    /// Takes a token. What comes is what the definition of arguments asks for after all that was fed, and the scanner
    /// stands behind it. After an answer that ends the call, or a refusal, it may only lend its list and be abandoned; where
    /// all arguments are there, it gives them (`into_args`).
    ///
    /// # Errors
    /// All words are used: some of the tokens that go into the list in work are in it, from the first on, and not all, and
    /// nothing else has changed; or the argument is whole, and the next one's list isn't begun.
    pub fn feed(&mut self, lists: &mut Lists, list: &ListRef, token: Token) -> Result<CallAsk, Full>
        requires { IsSound lists.old (id_of list.now) self.old }
        ensures answers { IfOk result (λ answer. Answers lists.old lists.new (id_of list.now) self.old self.new token answer) }
        ensures cut_short { OnErr result (IsCutShort lists.old lists.new (id_of list.now) self.old self.new token) }
        ensures full { IfErr result (λ f. IsFull f lists.new) }
        ensures length { length lists.new ≡ length lists.old }
    {
        if self.present.is_none() {
            return self.feed_start(lists, list, token);
        }
        self.feed_place(lists, list, token)
    }

    /// A check came in the call, at a file's end or at an `\outer` name: from here the macro counts as not `\long`,
    /// and a `\par` that ends the call has no report.
    pub fn cut(&mut self)
        ensures sound { (table : List (Option Entry)) (macro : ℕ) → IsSound table macro self.old → IsSound table macro self.new }
        ensures plain { (table : List (Option Entry)) → scan_of table self.new ≡ cut_scan (scan_of table self.old) }
        ensures stands { (table : List (Option Entry)) (macro : ℕ) (fed : List Fed) → resume table macro self.old (Cut ∷ fed) ≡ resume table macro self.new fed }
        ensures same { scan_holds self.new ≡ scan_holds self.old }
    {
        self.mode = ParMode::Checked;
        self.braced = false;
    }

    /// The extra brace that was answered was put back and reported.
    pub fn noted(&mut self)
        ensures sound { (table : List (Option Entry)) (macro : ℕ) → IsSound table macro self.old → IsSound table macro self.new }
        ensures plain { (table : List (Option Entry)) → scan_of table self.new ≡ noted_scan (scan_of table self.old) }
        ensures stands { (table : List (Option Entry)) (macro : ℕ) (fed : List Fed) → resume table macro self.old (Noted ∷ fed) ≡ resume table macro self.new fed }
        ensures same { scan_holds self.new ≡ scan_holds self.old }
    {
        self.braced = false;
    }

    /// Whether an extra brace was answered last, and isn't noted yet.
    pub fn is_braced(&self) -> bool
        ensures { result ≡ self.now.braced }
    {
        self.braced
    }

    /// The list of the present argument, if there is one: what was read of it without a partial match, for the
    /// runaway text.
    pub fn built(&self) -> Option<&Build>
        ensures { option_map (λ b. build_id b.now) result ≡ option_map (λ p. build_id p.build) self.now.present }
    {
        match &self.present {
            Some(present) => Some(present.built()),
            None => None,
        }
    }

    /// The arguments so far, where no list is in work: all of them, once `feed` has answered so.
    pub fn into_args(self) -> Args
        requires { self.present ≡ None }
        ensures { result ≡ self.args }
    {
        let ArgScan {
            cursor: _,
            mode: _,
            braced: _,
            present,
            args,
        } = self;
        match present {
            None => args,
            Some(_present) => unreachable!(),
        }
    }

    /// Releases all lists that the scanner holds.
    pub fn abandon(self, lists: &mut Lists)
        requires { Owns lists.old self }
        ensures account { Moves lists.old lists.new (scan_holds self) none }
        ensures kept { Keeps lists.old lists.new (scan_holds self) }
        ensures length { length lists.new ≡ length lists.old }
    {
        let ArgScan {
            cursor: _,
            mode: _,
            braced: _,
            present,
            args,
        } = self;
        abandon(lists, present);
        args.release(lists);
    }
}
