// Conditionals go on: by the values of their tests, and behind the text that was skipped.
// *The TeXbook*, chapter 20; *TeX: The Program*, part 28 (`conditional`).
ghost use Rattle.std.specs.Prelude.{◌≡◌, ◌<◌, ◌≤◌, ◌+◌, ℕ, [], IfOk, IfErr, OnOk, None, true, false};
ghost use Rattle.plain_readings.specs.Weights.{act_frame};
ghost use Rattle.rows.specs.Readings.{Ask};
ghost use Rattle.rows.specs.declared.command.Effect.TheVariants as effects;
ghost use Rattle.reading_frames.specs.Stack.{asks_in};
ghost use Rattle.reading_frames.specs.Weights.{frames_weight, innermost_weight, IsEnd};
ghost use Rattle.plain_machine.specs.Plan.{acts, ended_by, passed, reached};
ghost use Rattle.engine_state.specs.Clauses.{Still, MakesAlways, EndsAtHundredth, CutsReport, GoesAtReading, CutsAtReading, GoesOnward, CutsOnward, ReportsSo};
ghost use Rattle.engine_state.specs.Stands.{Stands, SameFrames};
ghost use Rattle.plain_machine.specs.Weights.{pending_weight};
ghost use Rattle.engine_state.specs.Steps.{weight, IsFree, IsHalted, IsStep};
ghost use Rattle.stomach.specs.Halting.{DoesRuleAtReading, CutsRuleAtReading};
ghost use Rattle.stomach.specs.Skipping.{Passes};
ghost use Rattle.input_state.specs.Callings.{NotCalling};

use crate::effects::free;
use conditionals::{Aim, Choice, End, Ender, Passing, Step, Value, ender_number};
use engine_state::{Broken, Engine, Ruled};
use gullet::{choose, skip_on};
use rows::Call;
use tex_defs::{Fatal, Seen};
use tex_syntax::{Outcome, Report};
use world_io::Sink;

/// The test has this value: its reading ends, and the conditional reads on or skips text.
///
/// # Errors
/// There is no room for the reading that skips text: the engine stands for the moment before.
pub(crate) fn choose_behind(engine: &mut Engine, call: Call, value: Value) -> Result<(), Broken>
    requires idle { engine.old.input.making ≡ None }
    requires uncalled { engine.old.input.call ≡ NotCalling }
    ensures rule { OnOk result (GoesAtReading engine.old engine.new (λ page _. acts page call (effects.Choose value))) }
    ensures err { IfErr result (λ b. CutsAtReading engine.old engine.new (λ page _. acts page call (effects.Choose value)) b) }
    ensures light { OnOk result ((a : Ask) → asks_in engine.old.readings.frames [] ≡ Some a → IsEnd a → weight engine.new < weight engine.old) }
    ensures column { engine.new.in_line ≡ engine.old.in_line }
    ensures idle { OnOk result (engine.new.input.making ≡ None) }
{
    engine.close_reading();
    choose(engine, call, value)
}

/// The test is whether two tokens are the same to `\ifx`.
///
/// # Errors
/// As [`choose_behind`].
pub(crate) fn compare_behind(
    engine: &mut Engine,
    call: Call,
    x: Seen,
    y: Seen,
) -> Result<(), Broken>
    requires idle { engine.old.input.making ≡ None }
    requires uncalled { engine.old.input.call ≡ NotCalling }
    ensures rule { OnOk result (GoesAtReading engine.old engine.new (λ page _. acts page call (effects.Compare x y))) }
    ensures err { IfErr result (λ b. CutsAtReading engine.old engine.new (λ page _. acts page call (effects.Compare x y)) b) }
    ensures light { OnOk result ((a : Ask) → asks_in engine.old.readings.frames [] ≡ Some a → IsEnd a → weight engine.new < weight engine.old) }
    ensures column { engine.new.in_line ≡ engine.old.in_line }
    ensures idle { OnOk result (engine.new.input.making ≡ None) }
{
    let same = engine.is_same(x, y);
    choose_behind(engine, call, Value::Truth(same))
}

/// Does what an ender comes to behind which more is skipped. Answers whether the run goes on.
///
/// # Errors
/// A write failed: the engine stands for the moment before.
fn pass<S: Sink>(engine: &mut Engine, out: &mut S, passing: Passing) -> Result<bool, Broken>
    ensures on { IfOk result (λ on. on ≡ true → ReportsSo (λ sizes s t w v page rest. Passes sizes s t w v page passing rest) engine.old engine.new (S.told out.old) (S.told out.new)) }
    ensures last { IfOk result (λ on. on ≡ false → EndsAtHundredth engine.old engine.new (S.told out.old) (S.told out.new) (λ page rest. passed page passing rest)) }
    ensures err { IfErr result (λ b. CutsReport engine.old engine.new (S.told out.old) (S.told out.new) (λ page rest. passed page passing rest) b) }
    ensures stands { IfOk result (λ on. on ≡ true → Still Stands engine.old engine.new) }
    ensures frames { SameFrames engine.old engine.new }
    ensures input { engine.new.input ≡ engine.old.input }
{
    match passing {
        Passing::Nothing => Ok(true),
        Passing::ClosesAbove => {
            engine.close_conditional();
            Ok(true)
        }
        Passing::ExtraOr => engine.report(out, Report::ExtraFiOrElse(ender_number(Ender::Or))),
    }
}

/// No more text is skipped.
fn end_skipping(engine: &mut Engine, end: End)
    ensures did { MakesAlways engine.old engine.new (ended_by end) }
    ensures stands { Still Stands engine.old engine.new }
    ensures only { engine.new ≡ record engine.old { conditionals = engine.new.conditionals } }
{
    match end {
        End::Reads(limit) => engine.set_limit(limit),
        End::Closes => engine.close_conditional(),
    }
}

/// Does what the ender comes to to which text was skipped.
///
/// # Errors
/// There is no room for the reading that skips more, or a write failed: the engine stands for the moment before.
fn follow<S: Sink>(
    engine: &mut Engine,
    out: &mut S,
    call: Call,
    step: Step,
) -> Result<Ruled, Broken>
    requires idle { engine.old.input.making ≡ None }
    requires uncalled { engine.old.input.call ≡ NotCalling }
    ensures rule { IfOk result (λ ruled. GoesOnward engine.old engine.new (S.told out.old) (S.told out.new) (λ page. reached page call step) ruled) }
    ensures err { IfErr result (λ b. CutsOnward engine.old engine.new (S.told out.old) (S.told out.new) (λ page. reached page call step) b) }
    ensures halts { IfOk result (λ ruled. IsHalted ruled → SameFrames engine.old engine.new) }
    ensures on { IfOk result (λ ruled. IsFree ruled → ⊥) }
    ensures light { OnOk result ((most : ℕ) → act_frame ≤ most → innermost_weight engine.old.readings.frames ≤ most → weight engine.new ≤ frames_weight engine.old.readings.frames + most + pending_weight engine.old.input.pending) }
    ensures idle { OnOk result (engine.new.input.making ≡ None) }
{
    match step {
        Step::Skips(passing, choice) => {
            if pass(engine, out, passing)? {
                skip_on(engine, call, choice.aim)?;
                Ok(Ruled::Step)
            } else {
                Ok(Ruled::Halted(Outcome::AtFatal(Fatal::HundredErrors)))
            }
        }
        Step::Ends(end) => {
            end_skipping(engine, end);
            Ok(Ruled::Step)
        }
    }
}

/// Text was skipped to an ender: its reading ends, and the conditional goes on, closes, or skips more.
///
/// # Errors
/// As [`follow`].
pub(crate) fn reach<S: Sink>(
    engine: &mut Engine,
    out: &mut S,
    call: Call,
    aim: Aim,
    ender: Ender,
) -> Result<Ruled, Broken>
    requires idle { engine.old.input.making ≡ None }
    requires uncalled { engine.old.input.call ≡ NotCalling }
    ensures rule { IfOk result (λ ruled. DoesRuleAtReading engine.old engine.new (S.told out.old) (S.told out.new) (λ page _. acts page call (effects.Reach aim ender)) ruled) }
    ensures err { IfErr result (λ b. CutsRuleAtReading engine.old engine.new (S.told out.old) (S.told out.new) (λ page _. acts page call (effects.Reach aim ender)) b) }
    ensures step { IfOk result (λ ruled. IsStep ruled → ⊥) }
    ensures light { IfOk result (λ ruled. IsFree ruled → (a : Ask) → asks_in engine.old.readings.frames [] ≡ Some a → IsEnd a → weight engine.new < weight engine.old) }
    ensures idle { OnOk result (engine.new.input.making ≡ None) }
{
    engine.close_reading();
    let above = engine.above_sought(aim);
    let ruled = follow(engine, out, call, Choice { aim, above }.feed(ender))?;
    Ok(free(ruled))
}
