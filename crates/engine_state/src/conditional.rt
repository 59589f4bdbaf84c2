// The open conditionals.
ghost use Rattle.std.specs.Prelude.{◌≡◌, [], ◌∷◌, IfErr, OnOk};
ghost use Rattle.conditionals.specs.Open.{above_sought, limit_of};
ghost use Rattle.conditionals.specs.Same as same;
ghost use Rattle.plain_tokens.specs.Arguments.{are_same};
ghost use Rattle.plain_machine.specs.declared.broken.Broken.TheVariants as broken;
ghost use Rattle.plain_machine.specs.States.{ConditionOpened, LimitSet, ConditionClosed};
ghost use Rattle.plain_machine.specs.Plan.{conditionals_left, tokens_meant};
ghost use Rattle.engine_state.specs.Clauses.{Still, MakesAlways, MakesMoves, CutsMoves, WritesOut, CutsWriting, WhereSound};
ghost use Rattle.engine_state.specs.Stands.{Stands, IsSized, OnlyColumn, SameFrames, page_of, own_style};

use crate::engine::Engine;
use crate::views::view_of;
use conditionals::{Aim, Conditional, Limit, same_meaning};
use plain_machine::Broken;
use tex_defs::{Full, Seen};
use transcript::write_end_in_conditional;
use world_io::Sink;

impl Engine {
    /// A conditional begins, which is this primitive, on the line that is read: its test is under way. *The TeXbook*, chapter 20;
    /// *TeX: The Program*, part 28 (`conditional`).
    ///
    /// # Errors
    /// As many conditionals are open as may be; nothing has changed.
    pub fn begin_conditional(&mut self, number: u16) -> Result<(), Full>
        ensures did { OnOk result (MakesMoves (λ sizes e _. IsSized sizes e) self.old self.new (λ _. ConditionOpened number self.old.input.pending.number ∷ [])) }
        ensures err { IfErr result (λ full. CutsMoves (λ sizes e _. IsSized sizes e) self.old self.new (λ _. ConditionOpened number self.old.input.pending.number ∷ []) (broken.Full full)) }
        ensures unchanged { IfErr result (λ full. self.new ≡ self.old) }
        ensures stands { OnOk result (Still Stands self.old self.new) }
        ensures frames { SameFrames self.old self.new }
        ensures only { self.new ≡ record self.old { conditionals = self.new.conditionals } }
    {
        self.conditionals.begin(number, self.input.line_number())
    }

    /// The innermost conditional whose test is under way goes on with this limit. *TeX: The Program*, part 28 (`change_if_limit`).
    pub fn set_limit(&mut self, limit: Limit)
        ensures did { MakesAlways self.old self.new (LimitSet limit ∷ []) }
        ensures stands { Still Stands self.old self.new }
        ensures frames { SameFrames self.old self.new }
        ensures only { self.new ≡ record self.old { conditionals = self.new.conditionals } }
    {
        self.conditionals.set_limit(limit);
    }

    /// The innermost conditional closes, if one is open. *TeX: The Program*, part 28 ("Pop the condition stack").
    pub fn close_conditional(&mut self)
        ensures did { MakesAlways self.old self.new (ConditionClosed ∷ []) }
        ensures stands { Still Stands self.old self.new }
        ensures frames { SameFrames self.old self.new }
        ensures only { self.new ≡ record self.old { conditionals = self.new.conditionals } }
    {
        self.conditionals.close();
    }

    /// How far the innermost conditional has come, if one is open.
    pub fn limit(&self) -> Option<Limit>
        ensures { result ≡ limit_of self.now.conditionals.items }
    {
        self.conditionals.limit()
    }

    /// How many conditionals stand above the one for which this is sought.
    pub fn above_sought(&self, aim: Aim) -> u32
        ensures { result ≡ above_sought aim self.now.conditionals.items }
    {
        self.conditionals.above_sought(aim)
    }

    /// The number of the line that is read; 0 where no file is open.
    pub fn line(&self) -> u64
        ensures { result ≡ self.now.input.pending.number }
    {
        self.input.line_number()
    }

    /// Whether two tokens are the same to `\ifx`: by what they mean, and of macros by the tokens of their lists. *The TeXbook*, chapter 20;
    /// *TeX: The Program*, part 28 ("Test if two tokens match").
    pub fn is_same(&self, x: Seen, y: Seen) -> bool
        ensures { WhereSound self.now (λ book. result ≡ same.same_meaning x.meaning y.meaning (are_same (tokens_meant (page_of self.now book) x) (tokens_meant (page_of self.now book) y))) }
    {
        let same_list = self.input.same_list(x, y);
        same_meaning(x.meaning, y.meaning, same_list)
    }

    /// Writes the line of `\end` for this conditional.
    fn write_left<S: Sink>(&mut self, out: &mut S, conditional: Conditional) -> Result<(), Broken>
        ensures did { OnOk result (WritesOut self.old self.new (S.told out.old) (S.told out.new) (λ _. conditionals_left (own_style self.old) (conditional ∷ []))) }
        ensures err { IfErr result (λ b. CutsWriting self.old self.new (S.told out.old) (S.told out.new) (λ _. conditionals_left (own_style self.old) (conditional ∷ [])) b) }
        ensures only { OnlyColumn self.old self.new }
    {
        let view = view_of(self.input.lists(), &self.input, &self.names);
        write_end_in_conditional(
            out,
            &mut self.in_line,
            view,
            conditional.number,
            conditional.line,
        )?;
        Ok(())
    }

    /// Writes the line of `\end` for each open conditional, the innermost first. *TeX: The Program*, part 51 (`final_cleanup`).
    ///
    /// # Errors
    /// A write failed or wanted memory: the lines in front of one are there, and a front of that one.
    pub(crate) fn write_conditionals_left<S: Sink>(&mut self, out: &mut S) -> Result<(), Broken>
        ensures did { OnOk result (WritesOut self.old self.new (S.told out.old) (S.told out.new) (λ _. conditionals_left (own_style self.old) self.old.conditionals.items)) }
        ensures err { IfErr result (λ b. CutsWriting self.old self.new (S.told out.old) (S.told out.new) (λ _. conditionals_left (own_style self.old) self.old.conditionals.items) b) }
        ensures only { OnlyColumn self.old self.new }
    {
        for number in 0..self.conditionals.count() {
            let Some(conditional) = self.conditionals.get(number) else {
                return Ok(());
            };
            self.write_left(out, conditional)?;
        }
        Ok(())
    }
}
