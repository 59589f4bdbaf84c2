// The checks: where a file has ended, or the name of an `\outer` macro has come, while something is scanned.
// *The TeXbook*, chapter 20; *TeX: The Program*, part 24 (`check_outer_validity`).
ghost use Rattle.std.specs.Prelude.{◌≡◌, ◌+◌, [], ◌∷◌, ◌++◌, IfOk, IfErr, IfSome, OnOk, OnErr, MatchBool, Option, Some, None, true, false};
ghost use Rattle.tex_syntax.specs.declared.words.Outcome.TheVariants.{AtFatal};
ghost use Rattle.tex_syntax.specs.declared.words.Scanned.TheVariants as scanned;
ghost use Rattle.tex_defs.specs.Places.{Transcript};
ghost use Rattle.plain_machine.specs.States.{Written};
ghost use Rattle.plain_machine.specs.Plan.{put_one, reported, checked, cut_or_not, incomplete, inserted_at};
ghost use Rattle.engine_state.specs.CutReadings.{CutsIn};
ghost use Rattle.engine_state.specs.Begins.{away_moves, check_report};
ghost use Rattle.engine_state.specs.Clauses.{WritesOut, CutsWriting, EndsAtHundredth, CutsReport, CutsReading, CutsWhere, DoesWanted, DoesWhere, EndsReading, GoesBehind, ScansNothing, ScansThis};
ghost use Rattle.engine_state.specs.Stands.{SameFrames, SameReadings, OnlyColumn, page_of};
ghost use Rattle.engine_state.specs.Rules.{onward_of, token_moves, space_moves, scanning_of, DoesOnward, away_text, check_moves, IsScanned, IsFound, IsListed, Wants, Meets};
ghost use Rattle.engine_state.specs.declared.check.Check.TheVariants.{Forbidden};
ghost use Rattle.engine_state.specs.Steps.{IsFree, IsHalted, weight};
ghost use Rattle.input_state.specs.CallFeeds.{with_scan};
ghost use Rattle.input_state.specs.Callings.{NotCalling};
ghost use Rattle.macro_call.specs.PlainScans.{cut_scan};

use crate::engine::Engine;
use crate::meaning::is_outer;
use crate::outcome::Ruled;
use input_state::Call;
use macro_call::CallAsk;
use plain_machine::Broken;
use reading_frames::Found;
use tex_defs::{Fatal, Frozen, Name, Seen, Token};
use tex_syntax::{Outcome, Report, Scanned};
use world_io::Sink;

/// Why a check comes.
#[derive(Clone, Copy)]
pub(crate) enum Check {
    /// A file has ended.
    FileEnded,
    /// The name of an `\outer` macro has come.
    Forbidden,
}

impl Check {
    /// The report where this runs away, which is read under this name.
    fn report(self, what: Scanned, name: Name) -> Report
        ensures { result ≡ check_report self what name }
    {
        match self {
            Check::FileEnded => Report::FileEnded(what, name),
            Check::Forbidden => Report::Forbidden(what, name),
        }
    }
}

impl Engine {
    /// What is scanned: a call that takes tokens and asks for one; or a text or a definition, or text that is skipped.
    fn scanned(&self) -> Option<Found>
        ensures is { IfSome result (λ found. IsFound found self.now) }
        ensures some { IfSome result (λ found. ScansThis found self.now) }
        ensures none { result ≡ None → ScansNothing self.now }
    {
        match self.input.call() {
            Some(
                Call {
                    name,
                    ask: CallAsk::More,
                },
            ) if self.input.is_taking() => Some(Found::Builds(Scanned::Use, name, 0)),
            Some(_) => None,
            None => self.scanned_frame(),
        }
    }

    /// What the frames scan; a list that is built is held.
    fn scanned_frame(&self) -> Option<Found>
        requires { self.now.input.call ≡ NotCalling }
        ensures is { IfSome result (λ found. IsFound found self.now) }
        ensures some { IfSome result (λ found. ScansThis found self.now) }
        ensures none { result ≡ None → ScansNothing self.now }
    {
        let Some(found) = self.readings.scanned() else {
            return None;
        };
        if self.has_list_of(found) {
            Some(found)
        } else {
            None
        }
    }

    /// Whether the list that is built by what is found is held; text that is skipped has none.
    fn has_list_of(&self, found: Found) -> bool
        ensures { MatchBool result (IsListed found self.now) (IsListed found self.now → ⊥) }
    {
        match found {
            Found::Builds(_, _, number) => (number as usize) < self.input.list_count(),
            Found::SkippedText(_) => true,
        }
    }

    /// Writes what is shown of what is scanned.
    fn write_scanned<S: Sink>(
        &mut self,
        out: &mut S,
        what: Scanned,
        number: u32,
    ) -> Result<(), Broken>
        requires { IsScanned what number self.old }
        ensures did { OnOk result (WritesOut self.old self.new (S.told out.old) (S.told out.new) (λ _. Written Transcript (away_text what number self.old) ∷ [])) }
        ensures err { IfErr result (λ b. CutsWriting self.old self.new (S.told out.old) (S.told out.new) (λ _. Written Transcript (away_text what number self.old) ∷ []) b) }
        ensures only { OnlyColumn self.old self.new }
    {
        match what {
            Scanned::Use => self.write_argument(out),
            _ => self.write_runaway(out, what, number),
        }
    }

    /// A call, where it is what is scanned, notes the check.
    fn note_check(&mut self, what: Scanned)
        ensures in_call { what ≡ scanned.Use → self.new ≡ record self.old { input = record self.old.input { call = with_scan cut_scan self.old.input.call } } }
        ensures elsewhere { (what ≡ scanned.Use → ⊥) → self.new ≡ self.old }
    {
        if what == Scanned::Use && self.input.is_taking() {
            self.input.cut_call();
        }
    }

    /// A report at a check, which a call notes. Answers whether the run goes on behind it.
    fn report_check<S: Sink>(
        &mut self,
        out: &mut S,
        what: Scanned,
        number: u32,
        report: Report,
    ) -> Result<bool, Broken>
        requires idle { self.old.input.making ≡ None }
        requires asked { IsScanned what number self.old }
        ensures on { IfOk result (λ on. on ≡ true → GoesBehind self.old self.new (S.told out.old) (S.told out.new) (λ p space. reported p report (cut_or_not what space))) }
        ensures last { IfOk result (λ on. on ≡ false → EndsAtHundredth self.old self.new (S.told out.old) (S.told out.new) (λ page rest. reported page report rest)) }
        ensures err { IfErr result (λ b. CutsReport self.old self.new (S.told out.old) (S.told out.new) (λ page rest. reported page report rest) b) }
        ensures halts { IfOk result (λ on. on ≡ false → SameFrames self.old self.new) }
        ensures frames { OnErr result (SameFrames self.old self.new) }
        ensures still { OnOk result (weight self.new ≡ weight self.old) }
        ensures readings { SameReadings self.old self.new }
        ensures idle { OnOk result (self.new.input.making ≡ None) }
    {
        if !self.report(out, report)? {
            return Ok(false);
        }
        self.note_check(what);
        Ok(true)
    }

    /// What is scanned runs away. Answers whether the run goes on behind it.
    fn run_away<S: Sink>(
        &mut self,
        out: &mut S,
        what: Scanned,
        number: u32,
        report: Report,
    ) -> Result<bool, Broken>
        requires idle { self.old.input.making ≡ None }
        requires asked { IsScanned what number self.old }
        ensures on { IfOk result (λ on. on ≡ true → GoesBehind self.old self.new (S.told out.old) (S.told out.new) (λ p space. away_moves p what (away_text what number self.old) report space)) }
        ensures last { IfOk result (λ on. on ≡ false → EndsReading self.old self.new (S.told out.old) (S.told out.new) (λ p rest. away_moves p what (away_text what number self.old) report rest)) }
        ensures err { IfErr result (CutsReading self.old self.new (S.told out.old) (S.told out.new) (λ p rest. away_moves p what (away_text what number self.old) report rest)) }
        ensures halts { IfOk result (λ on. on ≡ false → SameFrames self.old self.new) }
        ensures still { OnOk result (weight self.new ≡ weight self.old) }
        ensures readings { SameReadings self.old self.new }
        ensures idle { OnOk result (self.new.input.making ≡ None) }
    {
        self.write_scanned(out, what, number)?;
        self.put_one(inserted(what))?;
        self.report_check(out, what, number, report)
    }

    /// Text is skipped, from this line on: a `\fi` is inserted, and the conditional reported as incomplete. Answers whether the run goes on behind it.
    fn insert_fi<S: Sink>(&mut self, out: &mut S, line: u64) -> Result<bool, Broken>
        requires idle { self.old.input.making ≡ None }
        ensures on { IfOk result (λ on. on ≡ true → GoesBehind self.old self.new (S.told out.old) (S.told out.new) (λ p space. incomplete p line space)) }
        ensures last { IfOk result (λ on. on ≡ false → EndsReading self.old self.new (S.told out.old) (S.told out.new) (λ p rest. incomplete p line rest)) }
        ensures err { IfErr result (CutsReading self.old self.new (S.told out.old) (S.told out.new) (λ p rest. incomplete p line rest)) }
        ensures frames { SameFrames self.old self.new }
        ensures still { OnOk result (weight self.new ≡ weight self.old) }
        ensures idle { OnOk result (self.new.input.making ≡ None) }
    {
        self.put_one(FI)?;
        let test = self.conditionals.innermost_test();
        self.report(out, Report::IncompleteConditional(test, line))
    }

    /// What is scanned runs away, or text that is skipped ends. Answers whether the run goes on behind it.
    fn break_off<S: Sink>(
        &mut self,
        out: &mut S,
        check: Check,
        found: Found,
    ) -> Result<bool, Broken>
        requires idle { self.old.input.making ≡ None }
        requires asked { IsFound found self.old }
        ensures on { IfOk result (λ on. on ≡ true → GoesBehind self.old self.new (S.told out.old) (S.told out.new) (λ p space. check_moves self.old p check found space)) }
        ensures last { IfOk result (λ on. on ≡ false → EndsReading self.old self.new (S.told out.old) (S.told out.new) (λ p rest. check_moves self.old p check found rest)) }
        ensures err { IfErr result (CutsReading self.old self.new (S.told out.old) (S.told out.new) (λ p rest. check_moves self.old p check found rest)) }
        ensures halts { IfOk result (λ on. on ≡ false → SameFrames self.old self.new) }
        ensures still { OnOk result (weight self.new ≡ weight self.old) }
        ensures readings { SameReadings self.old self.new }
        ensures idle { OnOk result (self.new.input.making ≡ None) }
    {
        match found {
            Found::Builds(what, name, number) => {
                self.run_away(out, what, number, check.report(what, name))
            }
            Found::SkippedText(line) => self.insert_fi(out, line),
        }
    }

    /// The name of an `\outer` macro comes where something is scanned: it is put back, what is scanned breaks off, and a
    /// space takes its place.
    fn forbid<S: Sink>(
        &mut self,
        out: &mut S,
        token: Token,
        found: Found,
    ) -> Result<Option<Seen>, Broken>
        requires idle { self.old.input.making ≡ None }
        requires asked { IsFound found self.old }
        ensures rule { IfOk result (DoesWanted Some Meets self.old self.new (S.told out.old) (S.told out.new) (λ want book. put_one token ++ check_moves self.old (page_of self.old book) Forbidden found (space_moves (page_of self.old book) (Some want) book.work))) }
        ensures err { IfErr result (CutsReading self.old self.new (S.told out.old) (S.told out.new) (λ p rest. put_one token ++ check_moves self.old p Forbidden found rest)) }
        ensures halts { IfOk result (λ met. met ≡ None → SameFrames self.old self.new) }
        ensures readings { SameReadings self.old self.new }
        ensures idle { OnOk result (self.new.input.making ≡ None) }
    {
        self.put_one(token)?;
        if self.break_off(out, Check::Forbidden, found)? {
            return Ok(Some(self.input.met(SPACE)));
        }
        Ok(None)
    }

    /// A token that was read: it, or the space in place of the name of an `\outer` macro, which doesn't come into what is
    /// scanned; or none, where the report of that was the hundredth.
    #[inline(always)]
    pub(crate) fn meet<S: Sink>(
        &mut self,
        out: &mut S,
        token: Token,
    ) -> Result<Option<Seen>, Broken>
        requires idle { self.old.input.making ≡ None }
        ensures rule { IfOk result (DoesWanted (λ want. want) Meets self.old self.new (S.told out.old) (S.told out.new) (λ want book. token_moves (page_of self.old book) (scanning_of self.old book.work) (onward_of (page_of self.old book) want book.work) token)) }
        ensures err { IfErr result (DoesWanted (λ want. want) (λ sizes _ s e _. CutsIn sizes s e) self.old self.new (S.told out.old) (S.told out.new) (λ want book. token_moves (page_of self.old book) (scanning_of self.old book.work) (onward_of (page_of self.old book) want book.work) token)) }
        ensures halts { IfOk result (λ met. met ≡ None → SameFrames self.old self.new) }
        ensures readings { SameReadings self.old self.new }
        ensures idle { OnOk result (self.new.input.making ≡ None) }
    {
        let seen = self.input.met(token);
        if !is_outer(seen) {
            return Ok(Some(seen));
        }
        match self.scanned() {
            Some(found) => self.forbid(out, token, found),
            None => Ok(Some(seen)),
        }
    }

    /// The check where a file has ended.
    pub(crate) fn check<S: Sink>(&mut self, out: &mut S) -> Result<Ruled, Broken>
        requires idle { self.old.input.making ≡ None }
        ensures rule { IfOk result (DoesWhere Wants DoesOnward self.old self.new (S.told out.old) (S.told out.new) (λ book. checked (page_of self.old book) (scanning_of self.old book.work))) }
        ensures err { IfErr result (CutsWhere Wants self.old self.new (S.told out.old) (S.told out.new) (λ book. checked (page_of self.old book) (scanning_of self.old book.work))) }
        ensures halts { IfOk result (λ ruled. IsHalted ruled → SameFrames self.old self.new) }
        ensures still { OnOk result (weight self.new ≡ weight self.old) }
        ensures on { IfOk result (λ ruled. IsFree ruled → ⊥) }
        ensures readings { SameReadings self.old self.new }
        ensures idle { OnOk result (self.new.input.making ≡ None) }
    {
        match self.scanned() {
            Some(found) => {
                if self.break_off(out, Check::FileEnded, found)? {
                    return Ok(Ruled::Step);
                }
                Ok(Ruled::Halted(Outcome::AtFatal(Fatal::HundredErrors)))
            }
            None => Ok(Ruled::Step),
        }
    }
}

/// `\par`, as it is inserted.
pub const PAR: Token = Token::Named(Name::Word(5));

/// A `}`, as it is inserted.
const RIGHT_BRACE: Token = Token::Char { cat: 2, code: 125 };

/// The frozen `\fi`, which no assignment changes.
const FI: Token = Token::Named(Name::Frozen(Frozen::Fi));

/// A space token.
const SPACE: Token = Token::Char { cat: 10, code: 32 };

/// What is inserted where such a thing runs away.
fn inserted(what: Scanned) -> Token
    ensures { result ≡ inserted_at what }
{
    match what {
        Scanned::Use => PAR,
        _ => RIGHT_BRACE,
    }
}
