// Lists that are put in front.
ghost use Rattle.std.specs.Prelude.{◌≡◌, IfErr, OnOk, None};
ghost use Rattle.plain_machine.specs.Plan.{given_back, put_inserted, put_one};
ghost use Rattle.engine_state.specs.Book.{Book};
ghost use Rattle.engine_state.specs.Clauses.{PutsInFront, CutsPutting};
ghost use Rattle.engine_state.specs.Stands.{SameStore, SameOthers, SameFrames, page_of};
ghost use Rattle.plain_machine.specs.Weights.{pending_weight};

use crate::engine::Engine;
use plain_machine::Broken;
use tex_defs::Token;

impl Engine {
    /// Puts a token in front: a list of it is begun, grown and put, once the finished lists in front have gone. *TeX: The Program*,
    /// part 22 (`back_input`).
    ///
    /// # Errors
    /// The main memory or the input stack is full: of the list there is what had room.
    pub fn put_one(&mut self, token: Token) -> Result<(), Broken>
        requires idle { self.old.input.making ≡ None }
        ensures did { OnOk result (PutsInFront self.old self.new (λ _. put_one token)) }
        ensures err { IfErr result (λ b. CutsPutting self.old self.new (λ _. put_one token) b) }
        ensures frames { SameFrames self.old self.new }
        ensures others { SameOthers self.old self.new }
        ensures store { SameStore self.old.input self.new.input }
        ensures light { pending_weight self.new.input.pending ≡ pending_weight self.old.input.pending }
        ensures next { self.new.input.pending.next ≡ self.old.input.pending.next }
        ensures stopped { self.new.stopped ≡ self.old.stopped }
        ensures page { (book : Book) → page_of self.new book ≡ page_of self.old book }
        ensures idle { OnOk result (self.new.input.making ≡ None) }
    {
        self.input.end_token_lists();
        self.input.make_list()?;
        self.input.grow_made(token)?;
        self.input.put_made()?;
        Ok(())
    }

    /// Puts the token back that a reading was fed with last, where it is given back.
    ///
    /// # Errors
    /// As [`Engine::put_one`].
    pub fn put_back(&mut self, back: bool) -> Result<(), Broken>
        requires idle { self.old.input.making ≡ None }
        ensures did { OnOk result (PutsInFront self.old self.new (λ _. given_back back self.old.last)) }
        ensures err { IfErr result (λ b. CutsPutting self.old self.new (λ _. given_back back self.old.last) b) }
        ensures frames { SameFrames self.old self.new }
        ensures others { SameOthers self.old self.new }
        ensures store { SameStore self.old.input self.new.input }
        ensures light { pending_weight self.new.input.pending ≡ pending_weight self.old.input.pending }
        ensures next { self.new.input.pending.next ≡ self.old.input.pending.next }
        ensures stopped { self.new.stopped ≡ self.old.stopped }
        ensures page { (book : Book) → page_of self.new book ≡ page_of self.old book }
        ensures idle { OnOk result (self.new.input.making ≡ None) }
    {
        if back {
            self.put_one(self.last.token)?;
        }
        Ok(())
    }

    /// Inserts a token, if there is one.
    ///
    /// # Errors
    /// As [`Engine::put_one`].
    pub fn insert(&mut self, inserted: Option<Token>) -> Result<(), Broken>
        requires idle { self.old.input.making ≡ None }
        ensures did { OnOk result (PutsInFront self.old self.new (λ _. put_inserted inserted)) }
        ensures err { IfErr result (λ b. CutsPutting self.old self.new (λ _. put_inserted inserted) b) }
        ensures frames { SameFrames self.old self.new }
        ensures others { SameOthers self.old self.new }
        ensures store { SameStore self.old.input self.new.input }
        ensures light { pending_weight self.new.input.pending ≡ pending_weight self.old.input.pending }
        ensures page { (book : Book) → page_of self.new book ≡ page_of self.old book }
        ensures idle { OnOk result (self.new.input.making ≡ None) }
    {
        if let Some(token) = inserted {
            self.put_one(token)?;
        }
        Ok(())
    }
}
