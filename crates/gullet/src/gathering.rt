// What only a call answers that gathers its arguments: they are there, or it fails.
ghost use Rattle.std.specs.Prelude.{◌≡◌, ◌<◌, None, Some, IfOk, IfErr, OnOk, OnErr, false};
ghost use Rattle.tex_syntax.specs.declared.words.Report.TheVariants.{ParagraphEnded};
ghost use Rattle.reading_frames.specs.Stack.{reading_ended};
ghost use Rattle.plain_machine.specs.Plan.{failed};
ghost use Rattle.plain_tokens.specs.Pending.{end_token_lists};
ghost use Rattle.input_state.specs.Callings.{NotCalling, IsComplete, call_in};
ghost use Rattle.input_state.specs.Calls.{after_call, put_of};
ghost use Rattle.input_state.specs.Stored.{KeepsShared, put_refusal};
ghost use Rattle.engine_state.specs.Clauses.{DoesAtReading};
ghost use Rattle.engine_state.specs.Calls.{AllStand, argument_bytes, call_away_moves};
ghost use Rattle.engine_state.specs.Stands.{SameFrames, page_of};
ghost use Rattle.engine_state.specs.Rules.{Cuts};
ghost use Rattle.engine_state.specs.Steps.{asks_now, wants_token, IsStep, IsFree, IsHalted, weight};
ghost use Rattle.gullet.specs.Clauses.{DoesRuleAtCall};
ghost use Rattle.input_state.specs.declared.answer.Call.{Call};

use engine_state::{Broken, Engine, Ruled};
use tex_defs::{Fatal, Full, Name};
use tex_syntax::{Outcome, Report};
use world_io::Sink;

/// The arguments pass to the body of the macro, which is put; one without items isn't. The call has ended.
///
/// # Errors
/// There is no room for the level or the arguments: the finished lists in front have gone, and nothing else has changed.
pub fn put_call(engine: &mut Engine) -> Result<(), Full>
    requires { IsComplete engine.old.input.call }
    ensures ok { OnOk result (engine.new ≡ record engine.old { readings = reading_ended engine.old.readings; input = record engine.old.input { pending = after_call (put_of engine.old.input.lists engine.old.input.groups.now.meanings engine.old.input.call) engine.old.input.pending; call = NotCalling; lists = engine.new.input.lists } }) }
    ensures fits { OnOk result (put_refusal (put_of engine.old.input.lists engine.old.input.groups.now.meanings engine.old.input.call) engine.old.input ≡ None) }
    ensures light { OnOk result ((call : Call) → call_in engine.old.input.call ≡ Some call → wants_token (asks_now engine.old) ≡ false → weight engine.new < weight engine.old) }
    ensures refused { IfErr result (λ full. put_refusal (put_of engine.old.input.lists engine.old.input.groups.now.meanings engine.old.input.call) engine.old.input ≡ Some full) }
    ensures err { OnErr result (engine.new ≡ record engine.old { input = record engine.old.input { pending = end_token_lists engine.old.input.pending; lists = engine.new.input.lists } }) }
    ensures keeps { KeepsShared engine.old.input engine.new.input }
    ensures idle { engine.new.input.making ≡ engine.old.input.making }
    ensures column { engine.new.in_line ≡ engine.old.in_line }
{
    engine.input.put_call()?;
    engine.readings.end();
    Ok(())
}

/// The call reports, and ends without its arguments.
///
/// # Errors
/// A write failed: the engine stands for the moment before.
pub fn fail_call<S: Sink>(engine: &mut Engine, out: &mut S, report: Report) -> Result<Ruled, Broken>
    requires idle { engine.old.input.making ≡ None }
    ensures rule { IfOk result (DoesRuleAtCall engine.old engine.new (S.told out.old) (S.told out.new) (λ page. failed page report)) }
    ensures err { IfErr result (DoesAtReading AllStand Cuts engine.old engine.new (S.told out.old) (S.told out.new) (λ book. failed (page_of engine.old book) report)) }
    ensures step { IfOk result (λ ruled. IsStep ruled → ⊥) }
    ensures light { IfOk result (λ ruled. IsFree ruled → (call : Call) → call_in engine.old.input.call ≡ Some call → wants_token (asks_now engine.old) ≡ false → weight engine.new < weight engine.old) }
    ensures frames { OnErr result (SameFrames engine.old engine.new) }
    ensures halts { IfOk result (λ ruled. IsHalted ruled → SameFrames engine.old engine.new) }
    ensures idle { OnOk result (engine.new.input.making ≡ None) }
{
    if !engine.report(out, report)? {
        return Ok(Ruled::Halted(Outcome::AtFatal(Fatal::HundredErrors)));
    }
    engine.close_reading();
    Ok(Ruled::Free)
}

/// A paragraph ended the call: the argument runs away, the token is put back, and the call reports and ends.
///
/// # Errors
/// There is no room for the token, or a write failed: the engine stands for the moment before.
pub fn run_away_call<S: Sink>(engine: &mut Engine, out: &mut S, name: Name) -> Result<Ruled, Broken>
    requires idle { engine.old.input.making ≡ None }
    ensures rule { IfOk result (DoesRuleAtCall engine.old engine.new (S.told out.old) (S.told out.new) (λ page. call_away_moves page (argument_bytes engine.old) engine.old.last.token (ParagraphEnded name))) }
    ensures err { IfErr result (DoesAtReading AllStand Cuts engine.old engine.new (S.told out.old) (S.told out.new) (λ book. call_away_moves (page_of engine.old book) (argument_bytes engine.old) engine.old.last.token (ParagraphEnded name))) }
    ensures step { IfOk result (λ ruled. IsStep ruled → ⊥) }
    ensures light { IfOk result (λ ruled. IsFree ruled → (call : Call) → call_in engine.old.input.call ≡ Some call → wants_token (asks_now engine.old) ≡ false → weight engine.new < weight engine.old) }
    ensures frames { OnErr result (SameFrames engine.old engine.new) }
    ensures halts { IfOk result (λ ruled. IsHalted ruled → SameFrames engine.old engine.new) }
    ensures idle { OnOk result (engine.new.input.making ≡ None) }
{
    let token = engine.last.token;
    engine.write_argument(out)?;
    engine.put_one(token)?;
    fail_call(engine, out, Report::ParagraphEnded(name))
}
