// The next token.
ghost use Rattle.std.specs.Prelude.{◌≡◌, ◌<◌, Bool, IfOk, IfErr, IfSome, IsSome, OnOk, OnErr, MatchResult, Option, None, false, true};
ghost use Rattle.plain_tokens.specs.Pending.{pulled};
ghost use Rattle.input_state.specs.Reads.{gives_step};
ghost use Rattle.plain_tokens.specs.Lookup.{token_of, new_name};
ghost use Rattle.engine_state.specs.Clauses.{DoesLexeme, EntersName, OfLexeme};
ghost use Rattle.engine_state.specs.CutReadings.{CutsIn};
ghost use Rattle.engine_state.specs.Entering.{EntryFits, EntryRefused};
ghost use Rattle.engine_state.specs.Stands.{SameFrames, SameReadings};
ghost use Rattle.engine_state.specs.Rules.{Meets};
ghost use Rattle.engine_state.specs.OneRule.{ReadsNext, CutsNext};
ghost use Rattle.engine_state.specs.Steps.{weight, IsReady, IsSkipped, IsOver, IsMet, NextStepsIf, ends_run, next_met, next_free};

use crate::engine::Engine;
use crate::names::resolve;
use crate::outcome::{Last, Next, Ruled};
use input_state::Pulled;
use line_lexer::Lexed;
use plain_machine::Broken;
use tex_defs::{Fatal, Full, Seen, Token};
use tex_syntax::{Outcome, Report};
use world_io::Sink;

impl Engine {
    /// The token that a line gives. A name that joins those that are entered gets its location with them.
    fn resolve(&mut self, lexed: Lexed, enters: bool) -> Result<Token, Full>
        ensures token { IfOk result (λ t. OfLexeme self.old lexed (λ x. t ≡ token_of enters self.old.names.names x)) }
        ensures after { OnOk result (EntersName self.old self.new enters lexed) }
        ensures fits { OnOk result (OfLexeme self.old lexed (λ x. EntryFits self.old.names (new_name enters self.old.names.names x))) }
        ensures refused { IfErr result (λ full. OfLexeme self.old lexed (λ x. EntryRefused self.old.names (new_name enters self.old.names.names x) full)) }
        ensures err { OnErr result (self.new ≡ self.old) }
        ensures frames { SameFrames self.old self.new }
        ensures idle { self.new.input.making ≡ self.old.input.making }
        ensures column { self.new.in_line ≡ self.old.in_line }
    {
        let known = self.names.count();
        let token = resolve(&mut self.names, self.input.buffer(), lexed, enters)?;
        if self.names.count() > known && self.input.has_name_room() {
            self.input.enter_name();
        }
        Ok(token)
    }

    /// A character or a name of the line: a new name is entered where the reading enters names.
    fn meet_name<S: Sink>(
        &mut self,
        out: &mut S,
        enters: bool,
        lexed: Lexed,
    ) -> Result<Option<Seen>, Broken>
        requires idle { self.old.input.making ≡ None }
        ensures rule { IfOk result (DoesLexeme enters lexed Meets self.old self.new (S.told out.old) (S.told out.new)) }
        ensures err { IfErr result (DoesLexeme enters lexed (λ sizes _ s e _. CutsIn sizes s e) self.old self.new (S.told out.old) (S.told out.new)) }
        ensures halts { IfOk result (λ met. met ≡ None → SameFrames self.old self.new) }
        ensures readings { SameReadings self.old self.new }
        ensures idle { OnOk result (self.new.input.making ≡ None) }
    {
        let token = self.resolve(lexed, enters)?;
        self.meet(out, token)
    }

    /// The next token or line, by one rule of the machine: at most one step. A reading that `enters` has new names entered.
    /// *TeX: The Program*, part 24 (`get_next`).
    ///
    /// # Errors
    /// There is no room for what comes, or a write failed: the engine stands for the moment before.
    #[inline(always)]
    pub fn next_token<S: Sink>(&mut self, out: &mut S, enters: bool) -> Result<Next, Broken>
        requires idle { self.old.input.making ≡ None }
        requires running { self.old.stopped ≡ false }
        ensures light { IfOk result (λ next. IsSkipped next → weight self.new < weight self.old) }
        ensures step { IfOk result (λ next. NextStepsIf next (gives_step (pulled self.old.input.groups.now.categories self.old.input.pending))) }
        ensures rule { IfOk result (λ next. ReadsNext enters self.old self.new (S.told out.old) (S.told out.new) next) }
        ensures err { IfErr result (λ b. CutsNext enters self.old self.new (S.told out.old) (S.told out.new) b) }
        ensures halts { IfOk result (λ next. IsOver next → SameFrames self.old self.new) }
        ensures readings { SameReadings self.old self.new }
        ensures idle { OnOk result (self.new.input.making ≡ None) }
        ensures stopped { MatchResult result (λ next. self.new.stopped ≡ ends_run next) (λ _. self.new.stopped ≡ true) }
    {
        let next = self.next_reading(out, enters);
        self.stopped = has_stopped(&next);
        next
    }

    /// The next token, where a list in front has it at hand (`Input::quick`): a step, for which no byte of a file is needed. Else nothing changes. No stop is noted.
    ///
    /// # Errors
    /// There is no room for what comes, or a write failed: the engine stands for the moment before.
    #[inline(always)]
    pub fn token_at_hand<S: Sink>(&mut self, out: &mut S) -> Result<Option<Next>, Broken>
        requires idle { self.old.input.making ≡ None }
        ensures none { IfOk result (λ next. next ≡ None → (self.new ≡ self.old) × (S.told out.new ≡ S.told out.old)) }
        ensures ready { IfOk result (λ next. IsSome next → IsReady self.old) }
        ensures cut { IfErr result (λ b. IsReady self.old) }
        ensures met { IfOk result (λ next. IfSome next IsMet) }
        ensures rule { IfOk result (λ next. IfSome next (λ n. (enters : Bool) → ReadsNext enters self.old self.new (S.told out.old) (S.told out.new) n)) }
        ensures err { IfErr result (λ b. (enters : Bool) → CutsNext enters self.old self.new (S.told out.old) (S.told out.new) b) }
        ensures halts { IfOk result (λ next. IfSome next (λ n. IsOver n → SameFrames self.old self.new)) }
        ensures readings { SameReadings self.old self.new }
        ensures idle { OnOk result (self.new.input.making ≡ None) }
    {
        match self.input.quick() {
            Some(token) => {
                let met = self.meet(out, token)?;
                Ok(Some(met_next(met)))
            }
            None => Ok(None),
        }
    }

    /// The next token or line; no stop is noted.
    #[inline(always)]
    fn next_reading<S: Sink>(&mut self, out: &mut S, enters: bool) -> Result<Next, Broken>
        requires idle { self.old.input.making ≡ None }
        ensures light { IfOk result (λ next. IsSkipped next → weight self.new < weight self.old) }
        ensures step { IfOk result (λ next. NextStepsIf next (gives_step (pulled self.old.input.groups.now.categories self.old.input.pending))) }
        ensures rule { IfOk result (λ next. ReadsNext enters self.old self.new (S.told out.old) (S.told out.new) next) }
        ensures err { IfErr result (λ b. CutsNext enters self.old self.new (S.told out.old) (S.told out.new) b) }
        ensures halts { IfOk result (λ next. IsOver next → SameFrames self.old self.new) }
        ensures readings { SameReadings self.old self.new }
        ensures idle { OnOk result (self.new.input.making ≡ None) }
    {
        match self.input.pull()? {
            Pulled::Token(token) => {
                let met = self.meet(out, token)?;
                Ok(met_next(met))
            }
            Pulled::Lexeme(lexed) => {
                let met = self.meet_name(out, enters, lexed)?;
                Ok(met_next(met))
            }
            Pulled::Taken => Ok(Next::Line),
            Pulled::Invalid => {
                let ruled = self.report_only(out, Report::InvalidCharacter)?;
                Ok(skipping(ruled))
            }
            Pulled::FileOver => {
                let ruled = self.check(out)?;
                Ok(skipping(ruled))
            }
            Pulled::Nothing => {
                let ruled = self.halt(out, Last::NoEnd)?;
                Ok(skipping(ruled))
            }
        }
    }
}

/// Whether the run has stopped, by what the next reading came to.
#[inline(always)]
fn has_stopped(next: &Result<Next, Broken>) -> bool
    ensures { MatchResult next.now (λ next. result ≡ ends_run next) (λ _. result ≡ true) }
{
    matches!(next, Ok(Next::Over(_)) | Err(_))
}

/// A token that was met, or that a check ended the run.
#[inline(always)]
fn met_next(met: Option<Seen>) -> Next
    ensures { result ≡ next_met met }
{
    match met {
        Some(seen) => Next::Token(seen),
        None => Next::Over(Outcome::AtFatal(Fatal::HundredErrors)),
    }
}

/// A rule without a step.
fn skipping(ruled: Ruled) -> Next
    ensures { result ≡ next_free ruled }
{
    match ruled {
        Ruled::Halted(outcome) => Next::Over(outcome),
        _ => Next::Skipped,
    }
}
