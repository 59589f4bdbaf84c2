// A conditional begins, goes on by the value of its test, and skips text; and a `\fi`, an `\else` or an `\or` comes in text that is read.
// *The TeXbook*, chapter 20; *TeX: The Program*, part 28 (`conditional`, `fi_or_else`, `pass_text`, `change_if_limit`).
ghost use Rattle.std.specs.Prelude.{◌≡◌, ◌≤◌, ◌+◌, ℕ, IfOk, IfErr, OnOk, None};
ghost use Rattle.conditionals.specs.Open.{constant_test as plain_constant};
ghost use Rattle.plain_readings.specs.Weights.{act_frame, act_weight};
ghost use Rattle.reading_frames.specs.Weights.{frames_weight, innermost_weight};
ghost use Rattle.plain_machine.specs.Plan.{chosen, conditional_begun, ender_met, skips};
ghost use Rattle.input_state.specs.Callings.{NotCalling};
ghost use Rattle.engine_state.specs.Clauses.{GoesFree, CutsFree, GoesOnward, CutsOnward};
ghost use Rattle.engine_state.specs.Stands.{SameFrames};
ghost use Rattle.plain_machine.specs.Weights.{pending_weight};
ghost use Rattle.engine_state.specs.Steps.{weight, IsHalted};

use crate::relax::put_behind_relax;
use conditionals::{Aim, Ender, Met, Value, aim_of, constant_test, ender_number, on_fi_or_else};
use engine_state::{Broken, Engine, Ruled};
use reading_frames::Opening;
use rows::{Call, Phrase};
use tex_defs::Token;
use tex_syntax::Report;
use world_io::Sink;

/// Text is skipped for a conditional that seeks this, from the present line on. *TeX: The Program*, part 28 (`pass_text`).
///
/// # Errors
/// There is no room for the reading: the engine stands for the moment before.
pub fn skip_on(engine: &mut Engine, call: Call, aim: Aim) -> Result<(), Broken>
    ensures rule { OnOk result (GoesFree engine.old engine.new (λ page. skips page call aim)) }
    ensures err { IfErr result (λ b. CutsFree engine.old engine.new (λ page. skips page call aim) b) }
    ensures light { OnOk result ((most : ℕ) → engine.old.input.call ≡ NotCalling → act_frame ≤ most → weight engine.new ≤ frames_weight engine.old.readings.frames + most + pending_weight engine.old.input.pending) }
    ensures call { engine.new.input.call ≡ engine.old.input.call }
    ensures column { engine.new.in_line ≡ engine.old.in_line }
    ensures idle { engine.new.input.making ≡ engine.old.input.making }
{
    let line = engine.line();
    engine.begin(Opening::Skips(call, aim, line))?;
    Ok(())
}

/// A conditional goes on by the value of its test: its text is read on, or skipped from the present line on.
/// *TeX: The Program*, part 28 (`conditional`).
///
/// # Errors
/// There is no room for the reading of skipped text: the engine stands for the moment before.
pub fn choose(engine: &mut Engine, call: Call, value: Value) -> Result<(), Broken>
    ensures rule { OnOk result (GoesFree engine.old engine.new (λ page. chosen page call value)) }
    ensures err { IfErr result (λ b. CutsFree engine.old engine.new (λ page. chosen page call value) b) }
    ensures light { OnOk result ((most : ℕ) → engine.old.input.call ≡ NotCalling → act_frame ≤ most → innermost_weight engine.old.readings.frames ≤ most → weight engine.new ≤ frames_weight engine.old.readings.frames + most + pending_weight engine.old.input.pending) }
    ensures call { engine.new.input.call ≡ engine.old.input.call }
    ensures column { engine.new.in_line ≡ engine.old.in_line }
    ensures idle { engine.new.input.making ≡ engine.old.input.making }
{
    let aim = aim_of(value);
    match aim.start() {
        Some(limit) => {
            engine.set_limit(limit);
            Ok(())
        }
        None => skip_on(engine, call, aim),
    }
}

/// A conditional begins: the reading of what it tests, and the conditional itself. What reads nothing goes on at once.
///
/// # Errors
/// There is no room for a reading or for the conditional: the engine stands for the moment before.
pub(crate) fn begin_conditional(engine: &mut Engine, call: Call, number: u16) -> Result<(), Broken>
    ensures rule { OnOk result (GoesFree engine.old engine.new (λ page. conditional_begun page call number (plain_constant number))) }
    ensures err { IfErr result (λ b. CutsFree engine.old engine.new (λ page. conditional_begun page call number (plain_constant number)) b) }
    ensures light { OnOk result (engine.old.input.call ≡ NotCalling → innermost_weight engine.old.readings.frames ≤ act_weight → weight engine.new ≤ frames_weight engine.old.readings.frames + act_weight + pending_weight engine.old.input.pending) }
    ensures column { engine.new.in_line ≡ engine.old.in_line }
    ensures idle { engine.new.input.making ≡ engine.old.input.making }
{
    engine.begin(Opening::Reads(Phrase::Command(call)))?;
    engine.begin_conditional(number)?;
    match constant_test(number) {
        Some(truth) => {
            engine.close_reading();
            choose(engine, call, Value::Truth(truth))
        }
        None => Ok(()),
    }
}

/// A `\fi`, an `\else` or an `\or` comes in text that is read, by this token. *TeX: The Program*, part 28 ("Terminate the current conditional and
/// skip to \fi").
///
/// # Errors
/// There is no room for what comes, or a write failed: the engine stands for the moment before.
pub(crate) fn meet_ender<S: Sink>(
    engine: &mut Engine,
    out: &mut S,
    token: Token,
    call: Call,
    ender: Ender,
) -> Result<Ruled, Broken>
    requires idle { engine.old.input.making ≡ None }
    requires uncalled { engine.old.input.call ≡ NotCalling }
    ensures rule { IfOk result (λ ruled. GoesOnward engine.old engine.new (S.told out.old) (S.told out.new) (λ page. ender_met page token call ender) ruled) }
    ensures err { IfErr result (λ b. CutsOnward engine.old engine.new (S.told out.old) (S.told out.new) (λ page. ender_met page token call ender) b) }
    ensures halts { IfOk result (λ ruled. IsHalted ruled → SameFrames engine.old engine.new) }
    ensures light { OnOk result (innermost_weight engine.old.readings.frames ≤ act_weight → weight engine.new ≤ frames_weight engine.old.readings.frames + act_weight + pending_weight engine.old.input.pending) }
    ensures idle { OnOk result (engine.new.input.making ≡ None) }
{
    match on_fi_or_else(engine.limit(), ender) {
        Met::RelaxBefore => {
            put_behind_relax(engine, token)?;
            Ok(Ruled::Step)
        }
        Met::Extra => engine.report_only(out, Report::ExtraFiOrElse(ender_number(ender))),
        Met::SkipsToFi => {
            skip_on(engine, call, Aim::Fi)?;
            Ok(Ruled::Step)
        }
        Met::Closes => {
            engine.close_conditional();
            Ok(Ruled::Step)
        }
    }
}
