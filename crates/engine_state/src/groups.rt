// Groups opened and closed, and the tokens that come behind them and behind assignments.
ghost use Rattle.std.specs.Prelude.{◌≡◌, [], ◌∷◌, IfErr, OnOk, Some, None};
ghost use Rattle.equivalents.specs.Groups.{current_group};
ghost use Rattle.plain_machine.specs.States.{GroupOpened, KeptForAssignment};
ghost use Rattle.plain_machine.specs.Plan.{put_each, group_ended, kept_for_group, behind_assignment};
ghost use Rattle.engine_state.specs.Clauses.{Still, HoldsLists, MakesAlways, MakesMoves, CutsMoves, DoesSilently};
ghost use Rattle.engine_state.specs.Stands.{Stands, Counts, SameStore, SameOthers, SameFrames, page_of};
ghost use Rattle.engine_state.specs.Rules.{Cuts};
ghost use Rattle.plain_machine.specs.Weights.{pending_weight};

use crate::engine::Engine;
use plain_machine::Broken;
use save_stack::GroupKind;
use tex_defs::Token;

impl Engine {
    /// Opens a group. *The TeXbook*, chapter 24; *TeX: The Program*, part 19 (`new_save_level`).
    ///
    /// # Errors
    /// The save stack is full, or else as many groups are open as may be; nothing has changed.
    pub fn open_group(&mut self, kind: GroupKind) -> Result<(), Broken>
        ensures did { OnOk result (MakesMoves HoldsLists self.old self.new (λ _. GroupOpened kind ∷ [])) }
        ensures err { IfErr result (DoesSilently HoldsLists Cuts self.old self.new (λ _. GroupOpened kind ∷ [])) }
        ensures stands { OnOk result (Still Stands self.old self.new) }
        ensures frames { SameFrames self.old self.new }
        ensures only { self.new ≡ record self.old { input = record self.old.input { groups = self.new.input.groups } } }
    {
        self.input.open_group(kind)?;
        Ok(())
    }

    /// Keeps a token for the end of the innermost group; where no group is open, it is dropped. *The TeXbook*, chapter 24 (`\aftergroup`);
    /// *TeX: The Program*, part 19 (`save_for_after`).
    ///
    /// # Errors
    /// The save stack is full; nothing has changed.
    pub fn keep_for_group(&mut self, token: Token) -> Result<(), Broken>
        ensures did { OnOk result (MakesMoves HoldsLists self.old self.new (λ _. kept_for_group (current_group self.old.input.groups) token)) }
        ensures err { IfErr result (λ b. CutsMoves HoldsLists self.old self.new (λ _. kept_for_group (current_group self.old.input.groups) token) b) }
        ensures stands { OnOk result (Still Stands self.old self.new) }
        ensures frames { SameFrames self.old self.new }
        ensures only { self.new ≡ record self.old { input = record self.old.input { groups = self.new.input.groups } } }
    {
        if self.input.group_depth() > 0 {
            self.input.after_group(token)?;
        }
        Ok(())
    }

    /// The tokens that come after the group that was closed are put in front, the last first.
    fn put_closing(&mut self) -> Result<(), Broken>
        requires idle { self.old.input.making ≡ None }
        requires closing { self.old.input.ending ≡ None → ⊥ }
        ensures did { OnOk result (MakesMoves Counts self.old self.new (λ _. put_each self.old.input.closing)) }
        ensures err { IfErr result (DoesSilently Counts Cuts self.old self.new (λ _. put_each self.old.input.closing)) }
        ensures frames { SameFrames self.old self.new }
        ensures others { SameOthers self.old self.new }
        ensures sound { Still HoldsLists self.old self.new }
        ensures light { pending_weight self.new.input.pending ≡ pending_weight self.old.input.pending }
        ensures idle { OnOk result (self.new.input.making ≡ None) }
    {
        while let Some(token) = self.input.next_after() {
            self.put_one(token)?;
        }
        Ok(())
    }

    /// The innermost group ends: what was saved in it holds again, and the tokens that come after it are put in front, the last first. A group is
    /// open, and no call gathers its arguments. *The TeXbook*, chapter 24; *TeX: The Program*, part 19 (`unsave`).
    ///
    /// # Errors
    /// The main memory or the input stack is full: the group has gone, and of the tokens there are those that had room.
    pub fn end_group(&mut self) -> Result<(), Broken>
        requires idle { self.old.input.making ≡ None }
        requires open { current_group self.old.input.groups ≡ None → ⊥ }
        ensures did { OnOk result (MakesMoves Stands self.old self.new group_ended) }
        ensures err { IfErr result (DoesSilently Stands Cuts self.old self.new (λ book. group_ended (page_of self.old book))) }
        ensures stands { OnOk result (Still Stands self.old self.new) }
        ensures frames { SameFrames self.old self.new }
        ensures others { SameOthers self.old self.new }
        ensures light { pending_weight self.new.input.pending ≡ pending_weight self.old.input.pending }
        ensures idle { OnOk result (self.new.input.making ≡ None) }
    {
        if self.input.is_calling() {
            return Ok(());
        }
        self.input.recall_groups();
        self.input.close_group();
        self.put_closing()
    }

    /// Keeps the token that comes behind the next assignment. *The TeXbook*, chapter 24 (`\afterassignment`); *TeX: The Program*, part 49
    /// (`after_token`).
    pub fn keep_after(&mut self, token: Token)
        ensures did { MakesAlways self.old self.new (KeptForAssignment (Some token) ∷ []) }
        ensures after { self.new ≡ record self.old { after = Some token } }
    {
        self.after = Some(token);
    }

    /// Behind an assignment the token is put in front that `\afterassignment` kept, if it kept one.
    ///
    /// # Errors
    /// The main memory or the input stack is full: of the list there is what had room.
    pub fn put_after(&mut self) -> Result<(), Broken>
        requires idle { self.old.input.making ≡ None }
        ensures did { OnOk result (MakesMoves Counts self.old self.new (λ _. behind_assignment self.old.after)) }
        ensures err { IfErr result (λ b. CutsMoves Counts self.old self.new (λ _. behind_assignment self.old.after) b) }
        ensures frames { SameFrames self.old self.new }
        ensures others { SameOthers (record self.old { after = None }) self.new }
        ensures store { SameStore self.old.input self.new.input }
        ensures light { pending_weight self.new.input.pending ≡ pending_weight self.old.input.pending }
        ensures idle { OnOk result (self.new.input.making ≡ None) }
    {
        match self.after.take() {
            Some(token) => self.put_one(token),
            None => Ok(()),
        }
    }
}
