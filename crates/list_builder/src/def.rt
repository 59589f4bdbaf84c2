// The scanner of a definition.
ghost use Rattle.std.specs.Prelude.{◌≡◌, ◌<◌, ◌∷◌, [], List, Option, IfOk, IfErr, OnErr};
ghost use Rattle.std.specs.Option.{option_map};
ghost use Rattle.token_lists.specs.Table.{Entry, tokens_at, holders_at};
ghost use Rattle.token_lists.specs.Accounts.{Moves, Keeps, none};
ghost use Rattle.token_lists.specs.Ids.{id_of, build_id};
ghost use Rattle.token_lists.specs.Refusals.{IsFull};
ghost use Rattle.plain_state.specs.Definitions.{Fed, Tok, Noted, Given, definition};
ghost use Rattle.list_builder.specs.Scans.{resume, work_in, scan_holds, Owns, IsSound, Answers, IsCutShort, IsCutInCopy, list_of, answer_of, IsOpen};

use crate::ask::Ask;
use crate::scan::ListScan;
use crate::stage::Stage;
use tex_defs::{Full, Name, Seen};
use tex_syntax::Manner;
use token_lists::{Build, ListRef, Lists};

/// The scanner that builds a macro's list: the parameter text, its end mark, and the body. *The TeXbook*, chapter 20.
#[must_use]
pub struct DefScan {
    scan: ListScan,
}

impl DefScan {
    /// A definition of this name begins behind it, and so does its list; `expanded` tells whether it is an `\edef` or `\xdef`.
    ///
    /// # Errors
    /// All words are used; nothing has changed.
    pub fn new(lists: &mut Lists, name: Name, expanded: bool) -> Result<DefScan, Full>
        ensures sound { IfOk result (λ s. IsSound lists.new s.scan) }
        ensures stands { IfOk result (λ s. (fed : List Fed) → resume lists.new s.scan fed ≡ definition (record { name = name; expanded = expanded }) fed) }
        ensures account { IfOk result (λ s. Moves lists.old lists.new none (scan_holds s.scan)) }
        ensures kept { Keeps lists.old lists.new none }
        ensures err { OnErr result (lists.new ≡ lists.old) }
        ensures full { IfErr result (λ f. IsFull f lists.new) }
    {
        let manner = Manner { name, expanded };
        match ListScan::new(lists, manner, Stage::Parameters(0)) {
            Ok(scan) => Ok(DefScan { scan }),
            Err(full) => Err(full),
        }
    }

    /// What it asks for now.
    pub fn ask(&self) -> Ask
        ensures answer { (table : List (Option Entry)) → answer_of table result (work_in table self.now.scan) ≡ resume table self.now.scan [] }
        ensures goes_on { IsOpen result }
    {
        self.scan.ask()
    }

    /// Takes a token. What comes is what the definition asks for after all that was fed, and the scanner stands behind
    /// it. After a refusal, and once the list was handed out, it may only lend its list and be abandoned.
    ///
    /// # Errors
    /// All words are used. The scanner stands where it stood; of two tokens that go into the list the first may be there.
    pub fn feed(&mut self, lists: &mut Lists, x: Seen) -> Result<Ask, Full>
        requires { IsSound lists.old self.old.scan }
        ensures answers { IfOk result (λ answer. Answers lists.old lists.new self.old.scan self.new.scan (Tok x) answer) }
        ensures cut_short { OnErr result (IsCutShort lists.old lists.new self.old.scan self.new.scan (list_of (resume lists.old self.old.scan (Tok x ∷ [])))) }
        ensures full { IfErr result (λ f. IsFull f lists.new) }
    {
        self.scan.feed(lists, x)
    }

    /// The report was written that was due.
    ///
    /// # Errors
    /// All words are used; the scanner stands where it stood.
    pub fn feed_noted(&mut self, lists: &mut Lists) -> Result<Ask, Full>
        requires { IsSound lists.old self.old.scan }
        ensures answers { IfOk result (λ answer. Answers lists.old lists.new self.old.scan self.new.scan Noted answer) }
        ensures cut_short { OnErr result (IsCutShort lists.old lists.new self.old.scan self.new.scan (list_of (resume lists.old self.old.scan (Noted ∷ [])))) }
        ensures full { IfErr result (λ f. IsFull f lists.new) }
    {
        self.scan.feed_noted(lists)
    }

    /// Takes the tokens of a token list behind `\the`, which somebody else holds: into the body they go as they are,
    /// elsewhere they come to nothing.
    ///
    /// # Errors
    /// All words are used; some of the tokens, from the first on, are in the list in work.
    pub fn feed_list(&mut self, lists: &mut Lists, list: &ListRef) -> Result<Ask, Full>
        requires sound { IsSound lists.old self.old.scan }
        requires outside { scan_holds self.old.scan (id_of list.now) < holders_at lists.old (id_of list.now) }
        ensures answers { IfOk result (λ answer. Answers lists.old lists.new self.old.scan self.new.scan (Given (tokens_at lists.old (id_of list.now))) answer) }
        ensures cut_short { OnErr result (IsCutInCopy lists.old lists.new self.old.scan self.new.scan (list_of (resume lists.old self.old.scan (Given (tokens_at lists.old (id_of list.now)) ∷ [])))) }
        ensures full { IfErr result (λ f. IsFull f lists.new) }
    {
        self.scan.feed_list(lists, list)
    }

    /// The list in work, for the runaway text; none once it was handed out.
    pub fn built(&self) -> Option<&Build>
        ensures { option_map (λ b. build_id b.now) result ≡ option_map (λ b. build_id b) self.now.scan.build }
    {
        self.scan.built()
    }

    /// Frees the list in work.
    pub fn abandon(self, lists: &mut Lists)
        requires { Owns lists.old self.scan }
        ensures account { Moves lists.old lists.new (scan_holds self.scan) none }
        ensures kept { Keeps lists.old lists.new (scan_holds self.scan) }
    {
        let DefScan { scan } = self;
        scan.abandon(lists);
    }
}
