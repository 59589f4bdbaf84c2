// The rules: what becomes of tokens, and of what the readings ask for.
ghost use Rattle.std.specs.Prelude.{◌≡◌, ◌<◌, List, [], ◌∷◌, IfOk, IfErr, OnOk, MatchResult, Some, None, true, false};
ghost use Rattle.plain_tokens.specs.Pending.{pulled};
ghost use Rattle.plain_readings.specs.Readings.{Reading};
ghost use Rattle.rows.specs.Readings.{ActsOn};
ghost use Rattle.reading_frames.specs.Views.{IsFetchedAt, Lists, kept_list_of};
ghost use Rattle.reading_frames.specs.Stack.{asked_in, asked_of, asks_in};
ghost use Rattle.reading_frames.specs.Frames as frames;
ghost use Rattle.plain_machine.specs.Plan.{acts_on, reported_as};
ghost use Rattle.plain_machine.specs.States.{Closed};
ghost use Rattle.input_state.specs.Reads.{gives_step};
ghost use Rattle.input_state.specs.Callings.{NotCalling, call_in};
ghost use Rattle.gullet.specs.Stepping.{wants_raw};
ghost use Rattle.engine_state.specs.Clauses.{CutsWhere, DoesWhere, Taking};
ghost use Rattle.engine_state.specs.CutReadings.{CutsIn};
ghost use Rattle.engine_state.specs.Stands.{Stands, SameFrames, page_of};
ghost use Rattle.engine_state.specs.Rules.{plan_of, onward_of, next_moves, DoesOnward, DoesRule};
ghost use Rattle.engine_state.specs.Steps.{asked, stepping, stops_run, IsStep, IsFree, IsHalted, StepsIf, weight, asks_now, asks_start};
ghost use Rattle.stomach.specs.AtHand.{IsWanted};
ghost use Rattle.stomach.specs.Clauses.{DoesIf};
ghost use Rattle.stomach.specs.Innermost.{IsAsked, IsInnermost};
ghost use Rattle.stomach.specs.Halting.{DoesRuleIn, DoesPlanIn, CutsPlanIn, DoesRuleAtReading, CutsRuleAtReading};

use crate::define::define;
use crate::effects::act;
use crate::ends::{begin_inner, done, magnify, put, relax, tell};
use crate::innermost::Innermost;
use crate::lists::set_list;
use crate::naming::make_name;
use crate::obeying::hand_on;
use engine_state::{Broken, Engine, Next, PAR, Ruled, stops};
use gullet::{enters_names, expand, fail_call, put_call, run_away_call, stays};
use input_state::Call as MacroCall;
use macro_call::CallAsk;
use reading_frames::Ask;
use rows::{Call, Effect};
use tex_defs::{Fatal, Seen};
use tex_syntax::{Outcome, Report, Want};
use world_io::Sink;

/// A token that was met is handed on where it stays, and expanded where it doesn't.
///
/// # Errors
/// There is no room for what comes, or a write failed: the engine stands for the moment before.
#[inline(always)]
fn meet_token<S: Sink>(
    engine: &mut Engine,
    out: &mut S,
    want: Option<Want>,
    seen: Seen,
) -> Result<Ruled, Broken>
    requires idle { engine.old.input.making ≡ None }
    requires uncalled { wants_raw want ≡ false → engine.old.input.call ≡ NotCalling }
    ensures rule { IfOk result (DoesWhere (Taking want) DoesOnward engine.old engine.new (S.told out.old) (S.told out.new) (λ book. onward_of (page_of engine.old book) want book.work seen)) }
    ensures err { IfErr result (CutsWhere (Taking want) engine.old engine.new (S.told out.old) (S.told out.new) (λ book. onward_of (page_of engine.old book) want book.work seen)) }
    ensures halts { IfOk result (λ ruled. IsHalted ruled → SameFrames engine.old engine.new) }
    ensures goes { IfOk result (λ ruled. IsHalted ruled → wants_raw want ≡ false) }
    ensures on { IfOk result (λ ruled. IsFree ruled → ⊥) }
    ensures idle { OnOk result (engine.new.input.making ≡ None) }
{
    if stays(want, seen) {
        return hand_on(engine, out, want, seen);
    }
    expand(engine, out, seen)
}

/// The next token, and what becomes of it where it is wanted: by a call, a frame, or, where none is open, the stomach.
#[inline(always)]
fn token_rule<S: Sink>(
    engine: &mut Engine,
    out: &mut S,
    want: Option<Want>,
) -> Result<Ruled, Broken>
    requires idle { engine.old.input.making ≡ None }
    requires uncalled { wants_raw want ≡ false → engine.old.input.call ≡ NotCalling }
    requires running { engine.old.stopped ≡ false }
    ensures light { IfOk result (λ ruled. IsFree ruled → weight engine.new < weight engine.old) }
    ensures step { IfOk result (λ ruled. StepsIf ruled (gives_step (pulled engine.old.input.groups.now.categories engine.old.input.pending))) }
    ensures rule { IfOk result (DoesWhere (Taking want) DoesRule engine.old engine.new (S.told out.old) (S.told out.new) (next_moves want engine.old)) }
    ensures err { IfErr result (CutsWhere (Taking want) engine.old engine.new (S.told out.old) (S.told out.new) (next_moves want engine.old)) }
    ensures halts { IfOk result (λ ruled. IsHalted ruled → SameFrames engine.old engine.new) }
    ensures idle { OnOk result (engine.new.input.making ≡ None) }
{
    match engine.next_token(out, enters_names(want))? {
        Next::Token(seen) => meet_token(engine, out, want, seen),
        Next::Line => Ok(Ruled::Step),
        Next::Skipped => Ok(Ruled::Free),
        Next::Over(outcome) => Ok(Ruled::Halted(outcome)),
    }
}

/// The rule of the innermost reading where it wants a token so.
#[inline(always)]
fn wanted_rule<S: Sink>(
    engine: &mut Engine,
    out: &mut S,
    want: Option<Want>,
) -> Result<Ruled, Broken>
    requires wanted { IsWanted engine.old want }
    requires idle { engine.old.input.making ≡ None }
    requires running { engine.old.stopped ≡ false }
    ensures light { IfOk result (λ ruled. IsFree ruled → weight engine.new < weight engine.old) }
    ensures step { IfOk result (λ ruled. StepsIf ruled (stepping engine.old)) }
    ensures rule { IfOk result (λ ruled. DoesPlanIn engine.old engine.new (S.told out.old) (S.told out.new) ruled) }
    ensures err { IfErr result (λ b. CutsPlanIn engine.old engine.new (S.told out.old) (S.told out.new) b) }
    ensures idle { OnOk result (engine.new.input.making ≡ None) }
{
    token_rule(engine, out, want)
}

/// The list on top, if it is listed, and else that of no token, is reported as an error, and the command ends.
///
/// # Errors
/// A write failed: the engine stands for the moment before.
fn report_list<S: Sink>(engine: &mut Engine, out: &mut S, listed: bool) -> Result<Ruled, Broken>
    requires idle { engine.old.input.making ≡ None }
    requires uncalled { engine.old.input.call ≡ NotCalling }
    ensures rule { IfOk result (λ ruled. DoesRuleAtReading engine.old engine.new (S.told out.old) (S.told out.new) (λ page _. reported_as page (kept_list_of listed engine.old.input.builds) (Closed ∷ [])) ruled) }
    ensures err { IfErr result (λ b. CutsRuleAtReading engine.old engine.new (S.told out.old) (S.told out.new) (λ page _. reported_as page (kept_list_of listed engine.old.input.builds) (Closed ∷ [])) b) }
    ensures step { IfOk result (λ ruled. IsStep ruled → ⊥) }
    ensures light { IfOk result (λ ruled. IsFree ruled → (call : Call) (effect : Effect) → asks_in engine.old.readings.frames [] ≡ Some (ActsOn call effect []) → weight engine.new < weight engine.old) }
    ensures idle { OnOk result (engine.new.input.making ≡ None) }
{
    if engine.report_as(out, listed)? {
        engine.close_reading();
        return Ok(Ruled::Free);
    }
    Ok(Ruled::Halted(Outcome::AtFatal(Fatal::HundredErrors)))
}

/// Does what a command says with the list on top, if it is listed, and else with that of no token, and its reading ends.
///
/// # Errors
/// There is no room for what comes, or a write failed: the engine stands for the moment before.
fn act_on<S: Sink>(
    engine: &mut Engine,
    out: &mut S,
    call: Call,
    effect: Effect,
    listed: bool,
) -> Result<Ruled, Broken>
    requires idle { engine.old.input.making ≡ None }
    requires uncalled { engine.old.input.call ≡ NotCalling }
    ensures rule { IfOk result (DoesIf (asked engine.old ≡ Some (ActsOn call effect (kept_list_of listed engine.old.input.builds))) DoesRuleIn engine.old engine.new (S.told out.old) (S.told out.new) (λ page _. acts_on page call effect (kept_list_of listed engine.old.input.builds))) }
    ensures err { IfErr result (DoesIf (asked engine.old ≡ Some (ActsOn call effect (kept_list_of listed engine.old.input.builds))) CutsIn engine.old engine.new (S.told out.old) (S.told out.new) (λ page _. acts_on page call effect (kept_list_of listed engine.old.input.builds))) }
    ensures step { IfOk result (λ ruled. IsStep ruled → ⊥) }
    ensures light { IfOk result (λ ruled. IsFree ruled → asks_in engine.old.readings.frames [] ≡ Some (ActsOn call effect []) → weight engine.new < weight engine.old) }
    ensures idle { OnOk result (engine.new.input.making ≡ None) }
{
    match effect {
        Effect::Message => engine.write_message(out, listed)?,
        Effect::ErrorMessage => return report_list(engine, out, listed),
        Effect::MakeName => make_name(engine, listed)?,
        Effect::ChangeCase(upper) => engine.put_changed(upper, listed)?,
        Effect::SetList(loc) => {
            set_list(engine, call, loc, listed)?;
            return Ok(Ruled::Free);
        }
        _ => {}
    }
    engine.close_reading();
    Ok(Ruled::Free)
}

/// Does the rule of what the innermost frame asks for, where no call gathers its arguments.
fn ask_rule<S: Sink>(engine: &mut Engine, out: &mut S, ask: Ask) -> Result<Ruled, Broken>
    requires idle { engine.old.input.making ≡ None }
    requires no_start { asks_start (asks_now engine.old) ≡ false }
    requires uncalled { engine.old.input.call ≡ NotCalling }
    requires running { engine.old.stopped ≡ false }
    requires asks { (held : Lists) → asked_of held (Some ask) ≡ asks_in engine.old.readings.frames held }
    requires stands { (held : Lists) (work : List Reading) → frames.AreFramesOf None engine.old.readings.frames held work → asked_of held (Some ask) ≡ asked_in work }
    requires found { IsFetchedAt ask }
    ensures light { IfOk result (λ ruled. IsFree ruled → weight engine.new < weight engine.old) }
    ensures step { IfOk result (λ ruled. StepsIf ruled (stepping engine.old)) }
    ensures rule { IfOk result (DoesWhere Stands (λ sizes s e book. DoesRuleIn sizes s e) engine.old engine.new (S.told out.old) (S.told out.new) (plan_of engine.old)) }
    ensures err { IfErr result (CutsWhere Stands engine.old engine.new (S.told out.old) (S.told out.new) (plan_of engine.old)) }
    ensures idle { OnOk result (engine.new.input.making ≡ None) }
{
    match ask {
        Ask::More(want) => token_rule(engine, out, Some(want)),
        Ask::Inner(kind, begins) => {
            begin_inner(engine, kind, begins)?;
            Ok(Ruled::Free)
        }
        Ask::Done(value, back) => {
            done(engine, value, back)?;
            Ok(Ruled::Free)
        }
        Ask::Acts(call, effect) => act(engine, out, call, effect),
        Ask::ActsOn(call, effect, listed) => act_on(engine, out, call, effect, listed),
        Ask::Defines(call, name, listed) => {
            define(engine, call, name, listed)?;
            Ok(Ruled::Free)
        }
        Ask::Ends => {
            engine.close_reading();
            Ok(Ruled::Free)
        }
        Ask::Tells(report, back) => tell(engine, out, report, None, back),
        Ask::Inserts(token, report, back) => tell(engine, out, report, Some(token), back),
        Ask::Puts(token, _) => {
            put(engine, token)?;
            Ok(Ruled::Free)
        }
        Ask::Relaxes(call, name) => {
            relax(engine, call, name)?;
            Ok(Ruled::Free)
        }
        Ask::Magnifies => magnify(engine, out),
        Ask::Fetches(loc) => {
            engine.fetch(loc);
            Ok(Ruled::Free)
        }
    }
}

/// The rule of the frames, where no call gathers its arguments.
fn frame_rule<S: Sink>(engine: &mut Engine, out: &mut S, ask: &Option<Ask>) -> Result<Ruled, Broken>
    requires asked { IsAsked engine.old ask.now }
    requires idle { engine.old.input.making ≡ None }
    requires no_start { asks_start (asks_now engine.old) ≡ false }
    requires uncalled { engine.old.input.call ≡ NotCalling }
    requires running { engine.old.stopped ≡ false }
    ensures light { IfOk result (λ ruled. IsFree ruled → weight engine.new < weight engine.old) }
    ensures step { IfOk result (λ ruled. StepsIf ruled (stepping engine.old)) }
    ensures rule { IfOk result (DoesWhere Stands (λ sizes s e book. DoesRuleIn sizes s e) engine.old engine.new (S.told out.old) (S.told out.new) (plan_of engine.old)) }
    ensures err { IfErr result (CutsWhere Stands engine.old engine.new (S.told out.old) (S.told out.new) (plan_of engine.old)) }
    ensures idle { OnOk result (engine.new.input.making ≡ None) }
{
    match ask {
        None => wanted_rule(engine, out, None),
        Some(ask) => match ask {
            Ask::More(want) => wanted_rule(engine, out, Some(*want)),
            _ => ask_rule(engine, out, *ask),
        },
    }
}

/// The rule of the call that gathers its arguments, the innermost reading of all. What it asks for as others do is done by the same rules.
fn call_rule<S: Sink>(engine: &mut Engine, out: &mut S, call: MacroCall) -> Result<Ruled, Broken>
    requires idle { engine.old.input.making ≡ None }
    requires call { call_in engine.old.input.call ≡ Some call }
    requires running { engine.old.stopped ≡ false }
    ensures light { IfOk result (λ ruled. IsFree ruled → weight engine.new < weight engine.old) }
    ensures step { IfOk result (λ ruled. StepsIf ruled (stepping engine.old)) }
    ensures rule { IfOk result (λ ruled. DoesPlanIn engine.old engine.new (S.told out.old) (S.told out.new) ruled) }
    ensures err { IfErr result (λ b. CutsPlanIn engine.old engine.new (S.told out.old) (S.told out.new) b) }
    ensures idle { OnOk result (engine.new.input.making ≡ None) }
{
    match call.ask {
        CallAsk::More => wanted_rule(engine, out, Some(Want::Raw)),
        CallAsk::ExtraBrace => {
            let report = Report::ExtraBrace(call.name);
            tell(engine, out, report, Some(PAR), true)
        }
        CallAsk::ParEnded(true) => {
            engine.close_reading();
            Ok(Ruled::Free)
        }
        CallAsk::Gathered => {
            put_call(engine)?;
            Ok(Ruled::Free)
        }
        CallAsk::Mismatch => fail_call(engine, out, Report::UseMismatch(call.name)),
        CallAsk::ParEnded(false) => run_away_call(engine, out, call.name),
    }
}

/// The rule of the innermost reading, by what it asks for; who calls it notes whether the run has stopped.
fn innermost_rule<S: Sink>(
    engine: &mut Engine,
    innermost: &Innermost,
    out: &mut S,
) -> Result<Ruled, Broken>
    requires innermost { IsInnermost engine.old innermost.now }
    requires idle { engine.old.input.making ≡ None }
    requires no_start { asks_start (asks_now engine.old) ≡ false }
    requires running { engine.old.stopped ≡ false }
    ensures light { IfOk result (λ ruled. IsFree ruled → weight engine.new < weight engine.old) }
    ensures step { IfOk result (λ ruled. StepsIf ruled (stepping engine.old)) }
    ensures rule { IfOk result (λ ruled. DoesPlanIn engine.old engine.new (S.told out.old) (S.told out.new) ruled) }
    ensures err { IfErr result (λ b. CutsPlanIn engine.old engine.new (S.told out.old) (S.told out.new) b) }
    ensures idle { OnOk result (engine.new.input.making ≡ None) }
{
    match innermost {
        Innermost::Call(call) => call_rule(engine, out, *call),
        Innermost::Frame(ask) => frame_rule(engine, out, ask),
    }
}

/// Does the rule of the innermost reading where it wants a token so.
///
/// # Errors
/// There is no room for what comes, or a write failed: the engine stands for the moment before.
#[inline(always)]
pub(crate) fn rule_of_token<S: Sink>(
    engine: &mut Engine,
    out: &mut S,
    want: Option<Want>,
) -> Result<Ruled, Broken>
    requires wanted { IsWanted engine.old want }
    requires idle { engine.old.input.making ≡ None }
    requires running { engine.old.stopped ≡ false }
    ensures step { IfOk result (λ ruled. StepsIf ruled (stepping engine.old)) }
    ensures rule { IfOk result (λ ruled. DoesPlanIn engine.old engine.new (S.told out.old) (S.told out.new) ruled) }
    ensures err { IfErr result (λ b. CutsPlanIn engine.old engine.new (S.told out.old) (S.told out.new) b) }
    ensures idle { OnOk result (engine.new.input.making ≡ None) }
    ensures stopped { MatchResult result (λ ruled. engine.new.stopped ≡ stops_run ruled) (λ _. engine.new.stopped ≡ true) }
{
    let ruled = wanted_rule(engine, out, want);
    engine.stopped = stops(&ruled);
    ruled
}

/// Does one rule of the machine, with at most one step; it isn't one that opens or begins a file.
///
/// # Errors
/// There is no room for what comes, or a write failed: the engine stands for the moment before.
pub(crate) fn rule<S: Sink>(
    engine: &mut Engine,
    innermost: &Innermost,
    out: &mut S,
) -> Result<Ruled, Broken>
    requires innermost { IsInnermost engine.old innermost.now }
    requires idle { engine.old.input.making ≡ None }
    requires no_start { asks_start (asks_now engine.old) ≡ false }
    requires running { engine.old.stopped ≡ false }
    ensures light { IfOk result (λ ruled. IsFree ruled → weight engine.new < weight engine.old) }
    ensures step { IfOk result (λ ruled. StepsIf ruled (stepping engine.old)) }
    ensures rule { IfOk result (λ ruled. DoesPlanIn engine.old engine.new (S.told out.old) (S.told out.new) ruled) }
    ensures err { IfErr result (λ b. CutsPlanIn engine.old engine.new (S.told out.old) (S.told out.new) b) }
    ensures idle { OnOk result (engine.new.input.making ≡ None) }
    ensures stopped { MatchResult result (λ ruled. engine.new.stopped ≡ stops_run ruled) (λ _. engine.new.stopped ≡ true) }
{
    let ruled = innermost_rule(engine, innermost, out);
    engine.stopped = stops(&ruled);
    ruled
}
