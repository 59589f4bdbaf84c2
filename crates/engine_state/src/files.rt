// Files that are begun, that are to end, and that aren't held. *TeX: The Program*, parts 23 and 29.
ghost use Rattle.std.specs.Prelude.{◌≡◌, ◌≤◌, ◌+◌, [], ◌∷◌, List, IfOk, IfErr, IsSome, OnOk, Some, None, true};
ghost use Rattle.tex_syntax.specs.declared.words.Outcome.TheVariants.{AtFatal};
ghost use Rattle.tex_defs.specs.declared.Fatal.{Fatal};
ghost use Rattle.plain_tokens.specs.Pending.{end_token_lists, with_begun, with_end, ending};
ghost use Rattle.plain_tokens.specs.Tables.{open_lines};
ghost use Rattle.input_state.specs.Stored.{spelt};
ghost use Rattle.equivalents.specs.Parameters.{end_of_line};
ghost use Rattle.plain_machine.specs.States.{FileEnds};
ghost use Rattle.plain_machine.specs.Plan.{ruled, unless_found};
ghost use Rattle.engine_state.specs.Begins.{no_file_end};
ghost use Rattle.engine_state.specs.Calls.{AllStand};
ghost use Rattle.engine_state.specs.Clauses.{Still, HoldsLists, MakesAlways, MakesMovesTo, DoesSilently, CutsWithRoom, EndsRun};
ghost use Rattle.engine_state.specs.Stands.{SameFrames, state_of};
ghost use Rattle.engine_state.specs.Rules.{counted, Cuts};

use crate::engine::Engine;
use crate::views::view_of;
use plain_machine::Broken;
use tex_defs::Fatal;
use tex_syntax::Outcome;
use transcript::{no_file_lines, write_missing_file};
use world_io::Sink;

impl Engine {
    /// The file that was opened is begun with its first line, a step. *TeX: The Program*, part 29 (`start_input`).
    ///
    /// # Errors
    /// The line has no room in the buffer, or else the file's level none on the input stack; nothing has changed but that the finished lists in front have gone.
    pub fn begin_file(&mut self) -> Result<(), Broken>
        requires opened { IsSome self.old.input.pending.next }
        ensures did { OnOk result (MakesMovesTo HoldsLists self.old self.new (λ book. book) (λ book. ruled (state_of self.old book) self.old.input.pending.next)) }
        ensures err { IfErr result (DoesSilently HoldsLists Cuts self.old self.new (λ book. ruled (state_of self.old book) self.old.input.pending.next)) }
        ensures stands { Still AllStand self.old self.new }
        ensures pending { OnOk result (self.new.input.pending ≡ with_end (end_of_line self.old.input.groups.now) (with_begun (end_token_lists self.old.input.pending))) }
        ensures frames { SameFrames self.old self.new }
        ensures only { self.new ≡ record self.old { input = record self.old.input { pending = self.new.input.pending; buffer = self.new.input.buffer; lists = self.new.input.lists } } }
    {
        self.input.end_token_lists();
        self.input.begin_file()?;
        Ok(())
    }

    /// The innermost file is to end behind its present line. *The TeXbook*, chapter 20 (`\\endinput`).
    pub fn end_input(&mut self)
        ensures did { MakesAlways self.old self.new (FileEnds ∷ []) }
        ensures stands { Still AllStand self.old self.new }
        ensures only { self.new ≡ record self.old { input = record self.old.input { pending = ending self.old.input.pending } } }
    {
        self.input.end_input();
    }

    /// The report that a file isn't held, and the end of the run.
    ///
    /// # Errors
    /// A write failed or wanted memory: a front of the text was written.
    pub fn refuse_file<S: Sink>(&mut self, out: &mut S, name: &[u8]) -> Result<Outcome, Broken>
        ensures run { IfOk result (EndsRun self.old self.new (S.told out.old) (S.told out.new) (λ page. unless_found page name.now None)) }
        ensures err { IfErr result (CutsWithRoom self.old self.new (S.told out.old) (S.told out.new) (λ page. unless_found page name.now None)) }
        ensures frames { SameFrames self.old self.new }
        ensures input { self.new.input ≡ self.old.input }
        ensures fatal { IfOk result (λ o. (fatal : Fatal) × (o ≡ AtFatal fatal)) }
        ensures stopped { self.new.stopped ≡ true }
    {
        let line = self.input.line_number();
        let view = view_of(self.input.lists(), &self.input, &self.names);
        let written = write_missing_file(out, &mut self.in_line, view, line, name);
        self.stopped = true;
        written?;
        self.end_refused(out)
    }

    /// The same of a file whose name is spelt behind the open lines in the buffer, with so many bytes.
    ///
    /// # Errors
    /// A write failed or wanted memory: a front of the text was written.
    pub fn refuse_spelt<S: Sink>(&mut self, out: &mut S, count: usize) -> Result<Outcome, Broken>
        requires { open_lines self.old.input.pending + count ≤ self.old.input.sizes.buffer_size }
        ensures run { IfOk result (EndsRun self.old self.new (S.told out.old) (S.told out.new) (λ page. unless_found page (spelt self.old.input count) None)) }
        ensures err { IfErr result (CutsWithRoom self.old self.new (S.told out.old) (S.told out.new) (λ page. unless_found page (spelt self.old.input count) None)) }
        ensures frames { SameFrames self.old self.new }
        ensures input { self.new.input ≡ self.old.input }
        ensures fatal { IfOk result (λ o. (fatal : Fatal) × (o ≡ AtFatal fatal)) }
        ensures stopped { self.new.stopped ≡ true }
    {
        let line = self.input.line_number();
        let view = view_of(self.input.lists(), &self.input, &self.names);
        let written = write_missing_file(
            out,
            &mut self.in_line,
            view,
            line,
            self.input.spelt(count),
        );
        self.stopped = true;
        written?;
        self.end_refused(out)
    }

    /// The report that a file isn't held was written: it is counted, and the run ends.
    fn end_refused<S: Sink>(&mut self, out: &mut S) -> Result<Outcome, Broken>
        ensures run { IfOk result (EndsRun self.old self.new (S.told out.old) (S.told out.new) (λ page. counted page (no_file_end page))) }
        ensures err { IfErr result (CutsWithRoom self.old self.new (S.told out.old) (S.told out.new) (λ page. counted page (no_file_end page))) }
        ensures frames { SameFrames self.old self.new }
        ensures input { self.new.input ≡ self.old.input }
        ensures fatal { IfOk result (λ o. (fatal : Fatal) × (o ≡ AtFatal fatal)) }
        ensures stopped { self.new.stopped ≡ self.old.stopped }
    {
        if !self.count_report(out)? {
            return Ok(Outcome::AtFatal(Fatal::HundredErrors));
        }
        let text = no_file_lines(view_of(self.input.lists(), &self.input, &self.names));
        self.write_text(out, text.bytes())?;
        Ok(Outcome::AtFatal(Fatal::NoFile))
    }
}
