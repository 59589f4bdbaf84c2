// A scanner: where it stands, and its list.
ghost use Rattle.std.specs.Prelude.{◌≡◌, ◌≢◌, ◌≤◌, ◌<◌, ◌+◌, ◌++◌, ◌∷◌, [], ℕ, List, Option, IfOk, IfErr, OnErr, length};
ghost use Rattle.std.specs.Option.{option_map};
ghost use Rattle.token_lists.specs.Table.{Entry, tokens_at, holders_at, IsHeld};
ghost use Rattle.token_lists.specs.Accounts.{Moves, Keeps, none};
ghost use Rattle.token_lists.specs.Ids.{id_of, build_id};
ghost use Rattle.token_lists.specs.Refusals.{IsFull};
ghost use Rattle.plain_state.specs.Definitions.{Fed, Tok, Noted, Given};
ghost use Rattle.list_builder.specs.Stages.{depth_of, depth_after, growth, grown};
ghost use Rattle.list_builder.specs.Stages as stages;
ghost use Rattle.list_builder.specs.Scans.{resume, work_in, scan_holds, Owns, IsSound, Goes, Answers, IsCutShort, IsCutInCopy, list_of, answer_of, IsOpen};

use crate::ask::Ask;
use crate::cells::{abandon, complete, copy, grow};
use crate::stage::{Next, Stage, Step};
use std::mem;
use tex_defs::{Full, Seen};
use tex_syntax::Manner;
use token_lists::{Build, ListRef, Lists};

/// A scanner that builds a list.
#[must_use]
pub struct ListScan {
    manner: Manner,
    stage: Stage,
    // None once the list was handed out.
    build: Option<Build>,
}

impl ListScan {
    /// A scanner at its beginning: its list is begun.
    ///
    /// # Errors
    /// All words are used; nothing has changed.
    pub fn new(lists: &mut Lists, manner: Manner, stage: Stage) -> Result<ListScan, Full>
        requires { depth_of stage ≡ 0 }
        ensures sound { IfOk result (λ scan. IsSound lists.new scan) }
        ensures stands { IfOk result (λ scan. (fed : List Fed) → resume lists.new scan fed ≡ stages.resume manner stage [] fed) }
        ensures account { IfOk result (λ scan. Moves lists.old lists.new none (scan_holds scan)) }
        ensures kept { Keeps lists.old lists.new none }
        ensures err { OnErr result (lists.new ≡ lists.old) }
        ensures full { IfErr result (λ f. IsFull f lists.new) }
    {
        match lists.begin() {
            Ok(build) => Ok(ListScan {
                manner,
                stage,
                build: Some(build),
            }),
            Err(full) => Err(full),
        }
    }

    /// What it asks for now.
    pub fn ask(&self) -> Ask
        ensures answer { (table : List (Option Entry)) → answer_of table result (work_in table self.now) ≡ resume table self.now [] }
        ensures goes_on { IsOpen result }
    {
        self.stage.ask(self.manner)
    }

    // Makes a step.
    fn go(&mut self, lists: &mut Lists, step: Step) -> Result<Ask, Full>
        requires sound { IsSound lists.old self.old }
        requires shallow { depth_after step.next ≤ depth_of self.old.stage + growth step }
        ensures goes { IfOk result (λ answer. Goes lists.old lists.new self.old self.new step answer) }
        ensures cut_short { OnErr result (IsCutShort lists.old lists.new self.old self.new (grown step (work_in lists.old self.old))) }
        ensures full { IfErr result (λ f. IsFull f lists.new) }
    {
        if let Err(full) = grow(lists, &mut self.build, step) {
            return Err(full);
        }
        match step.next {
            Next::On(stage) => {
                self.stage = stage;
                Ok(stage.ask(self.manner))
            }
            Next::Finished => {
                let work = mem::replace(&mut self.build, None);
                Ok(Ask::Done(complete(lists, work)))
            }
        }
    }

    /// Takes a token.
    ///
    /// # Errors
    /// All words are used.
    pub fn feed(&mut self, lists: &mut Lists, x: Seen) -> Result<Ask, Full>
        requires { IsSound lists.old self.old }
        ensures answers { IfOk result (λ answer. Answers lists.old lists.new self.old self.new (Tok x) answer) }
        ensures cut_short { OnErr result (IsCutShort lists.old lists.new self.old self.new (list_of (resume lists.old self.old (Tok x ∷ [])))) }
        ensures full { IfErr result (λ f. IsFull f lists.new) }
    {
        let _used = lists.used();
        let step = self.stage.took(x);
        self.go(lists, step)
    }

    /// The report was written that was due.
    ///
    /// # Errors
    /// All words are used.
    pub fn feed_noted(&mut self, lists: &mut Lists) -> Result<Ask, Full>
        requires { IsSound lists.old self.old }
        ensures answers { IfOk result (λ answer. Answers lists.old lists.new self.old self.new Noted answer) }
        ensures cut_short { OnErr result (IsCutShort lists.old lists.new self.old self.new (list_of (resume lists.old self.old (Noted ∷ [])))) }
        ensures full { IfErr result (λ f. IsFull f lists.new) }
    {
        let step = self.stage.noted();
        self.go(lists, step)
    }

    /// Takes the tokens of a token list behind `\the`: into a body they go as they are, elsewhere they come to nothing.
    ///
    /// # Errors
    /// All words are used; some of the tokens, from the first on, are in the list in work.
    pub fn feed_list(&mut self, lists: &mut Lists, list: &ListRef) -> Result<Ask, Full>
        requires sound { IsSound lists.old self.old }
        requires outside { scan_holds self.old (id_of list.now) < holders_at lists.old (id_of list.now) }
        ensures answers { IfOk result (λ answer. Answers lists.old lists.new self.old self.new (Given (tokens_at lists.old (id_of list.now))) answer) }
        ensures cut_short { OnErr result (IsCutInCopy lists.old lists.new self.old self.new (list_of (resume lists.old self.old (Given (tokens_at lists.old (id_of list.now)) ∷ [])))) }
        ensures full { IfErr result (λ f. IsFull f lists.new) }
    {
        if let Stage::InBody(_, _) = self.stage {
            if let Err(full) = copy(lists, &mut self.build, list) {
                return Err(full);
            }
        }
        Ok(self.stage.ask(self.manner))
    }

    /// The list in work, for the runaway text.
    pub fn built(&self) -> Option<&Build>
        ensures { option_map (λ b. build_id b.now) result ≡ option_map (λ b. build_id b) self.now.build }
    {
        match &self.build {
            Some(build) => Some(build),
            None => None,
        }
    }

    /// Frees the list in work.
    pub fn abandon(self, lists: &mut Lists)
        requires { Owns lists.old self }
        ensures account { Moves lists.old lists.new (scan_holds self) none }
        ensures kept { Keeps lists.old lists.new (scan_holds self) }
    {
        let ListScan {
            manner: _,
            stage: _,
            build,
        } = self;
        abandon(lists, build);
    }
}
