// The lists of locations, put in front or copied.
ghost use Rattle.std.specs.Prelude.{◌≡◌, ◌∷◌, IfErr, OnOk, true, false};
ghost use Rattle.equivalents.specs.Groups.{IsLocation};
ghost use Rattle.plain_readings.specs.Readings.{Reading};
ghost use Rattle.input_state.specs.Stored.{KeepsShared};
ghost use Rattle.plain_machine.specs.declared.broken.Broken.TheVariants as broken;
ghost use Rattle.plain_machine.specs.Plan.{list_given, list_number};
ghost use Rattle.engine_state.specs.Book.{Book, with_work};
ghost use Rattle.engine_state.specs.Clauses.{Still, HoldsLists, MakesMoves, MakesMovesTo, CutsMoves, CutsFree, StandsFor};
ghost use Rattle.engine_state.specs.Lists.{Copies, fed_list, location_list, with_list};
ghost use Rattle.engine_state.specs.Stands.{Stands, SameFrames, page_of};
ghost use Rattle.plain_machine.specs.Weights.{pending_weight};

use crate::engine::Engine;
use equivalents::Loc;
use plain_machine::Broken;
use tex_defs::Full;

impl Engine {
    /// Puts the list that stands at a location in front, once the finished lists in front have gone: it is shared, not copied. Where none
    /// stands, nothing changes. *TeX: The Program*, part 27 (`ins_the_toks`).
    ///
    /// # Errors
    /// The input stack is full: the finished lists in front have gone.
    pub fn put_list(&mut self, loc: Loc) -> Result<(), Broken>
        requires there { IsLocation self.old.input.groups loc }
        ensures did { OnOk result (MakesMoves HoldsLists self.old self.new (λ page. list_given page false (list_number page loc))) }
        ensures err { IfErr result (λ b. CutsMoves HoldsLists self.old self.new (λ page. list_given page false (list_number page loc)) b) }
        ensures stands { OnOk result (Still Stands self.old self.new) }
        ensures sound { OnOk result (Still HoldsLists self.old self.new) }
        ensures frames { SameFrames self.old self.new }
        ensures only { self.new ≡ record self.old { input = record self.old.input { pending = self.new.input.pending; lists = self.new.input.lists } } }
        ensures light { pending_weight self.new.input.pending ≡ pending_weight self.old.input.pending }
        ensures page { (book : Book) → page_of self.new book ≡ page_of self.old book }
    {
        self.input.put_list(loc)?;
        Ok(())
    }

    /// The tokens of the list that stands at a location enter the list of the innermost frame, an expanded text, as they stand: the text isn't
    /// to expand them. *The TeXbook*, chapter 20 (`\edef`); *TeX: The Program*, part 27 (`scan_toks`).
    ///
    /// # Errors
    /// The main memory is full before one of them: those in front of it are there.
    pub fn copy_list(&mut self, loc: Loc) -> Result<(), Full>
        requires there { IsLocation self.old.input.groups loc }
        ensures stands { OnOk result (Copies self.old → StandsFor self.old self.new (λ _. fed_list (location_list self.old loc))) }
        ensures did { OnOk result (Copies self.old → MakesMovesTo Stands self.old self.new (with_list self.old loc) (λ book. list_given (page_of self.old book) true (list_number (page_of self.old book) loc))) }
        ensures refused { IfErr result (λ full. Copies self.old → CutsFree self.old self.new (λ page. list_given page true (list_number page loc)) (broken.Full full)) }
        ensures only { self.new ≡ record self.old { input = record self.old.input { builds = self.new.input.builds; lists = self.new.input.lists } } }
        ensures keeps { KeepsShared self.old.input self.new.input }
    {
        if self.input.has_list() {
            self.input.copy_list(loc)?;
        }
        Ok(())
    }
}
