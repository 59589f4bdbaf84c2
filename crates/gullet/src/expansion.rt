// A token is expanded where it can be.
// *The TeXbook*, chapter 20; *TeX: The Program*, part 25 (`expand`).
ghost use Rattle.std.specs.Prelude.{◌≡◌, ◌≤◌, ◌+◌, IfOk, IfErr, OnOk, MatchBool, MatchResult, List, [], None, false, true};
ghost use Rattle.plain_tokens.specs.Meanings.{is_expandable};
ghost use Rattle.plain_readings.specs.Weights.{act_weight};
ghost use Rattle.reading_frames.specs.Views.{reading_kind};
ghost use Rattle.reading_frames.specs.Weights.{frames_weight, innermost_weight};
ghost use Rattle.plain_machine.specs.States.{Move};
ghost use Rattle.plain_machine.specs.Plan.{Page, call_of as plain_call, expanded, expansion as plain_expansion, input_met};
ghost use Rattle.input_state.specs.Callings.{NotCalling};
ghost use Rattle.engine_state.specs.Clauses.{GoesFree, CutsFree, GoesOnward, CutsOnward};
ghost use Rattle.engine_state.specs.CutReadings.{CutsIn};
ghost use Rattle.engine_state.specs.Stands.{SameFrames};
ghost use Rattle.engine_state.specs.Rules.{enters_of};
ghost use Rattle.plain_machine.specs.Weights.{pending_weight};
ghost use Rattle.engine_state.specs.Steps.{IsFree, IsHalted, weight};
ghost use Rattle.gullet.specs.Clauses.{ExpandsSo};
ghost use Rattle.gullet.specs.Stepping.{IsLight, ExpandsTo, is_expansion, job_moves, row_moves, wants_raw, ExpandsOnce, IsExpanded, IsStayed, EndsRun, Stays, changes, once_by};

use crate::call_name::call_name;
use crate::conditional::{begin_conditional, meet_ender};
use crate::relax::put_behind_relax;
use conditionals::{Ender, Part, part_of};
use engine_state::{Broken, Engine, Made, Ruled, name_of};
use plain_tokens::is_expandable;
use prim_table::is_expanded;
use reading_frames::Opening;
use rows::{Call, Head, Phrase};
use tex_defs::{Meaning, Seen, Token};
use tex_syntax::{Outcome, Report, Want};
use world_io::Sink;

/// What came of expanding a token once.
#[derive(Clone, Copy)]
pub enum Once {
    /// It was expanded.
    Expanded,
    /// It can't be, and nothing has changed.
    Stays,
    /// The run has ended.
    Over(Outcome),
}

/// What becomes of a token by expansion.
#[derive(Clone, Copy)]
enum Expansion {
    /// It is reported as undefined, and goes.
    Undefined,
    /// The macro of the token's name is called.
    Call(Token),
    /// The reading of its expansion begins.
    Begin(Opening),
    /// This reading begins, the job's name is put, and the reading ends.
    JobName(Opening),
    /// The reading of a file's name begins, by this token; or where one is being read, it is put back behind a `\relax`.
    Input(Token, Call),
    /// The innermost file is to end.
    EndInput,
    /// The conditional of this number begins.
    Conditional(Call, u16),
    /// A `\fi`, an `\else` or an `\or` comes, by this token.
    Ender(Token, Call, Ender),
    /// It stays.
    Unexpandable,
}

/// The number of `\csname`.
const CSNAME: u16 = 56;

/// The number of `\jobname`.
const JOBNAME: u16 = 61;

/// The number of `\input`.
const INPUT: u16 = 63;

/// The number of `\endinput`.
const ENDINPUT: u16 = 64;

/// Whether the reading that wants a token enters names: a raw one.
#[inline(always)]
pub fn enters_names(want: Option<Want>) -> bool
    ensures { result ≡ enters_of want }
{
    matches!(want, Some(Want::Raw))
}

/// Whether a token is wanted as it stands, so that none is expanded.
#[inline(always)]
fn is_raw(want: Option<Want>) -> bool
    ensures { result ≡ wants_raw want }
{
    matches!(want, Some(Want::Raw | Want::Unentered))
}

/// The command that a token's name means, without prefixes.
pub fn call_of(token: Token, head: Head) -> Call
    ensures { result ≡ plain_call token head }
{
    Call {
        head,
        name: name_of(token),
        long: false,
        outer: false,
        global: false,
    }
}

/// How another primitive is expanded: a conditional, what ends it or a part of it, or a command that its row reads.
fn row_expansion(token: Token, call: Call, number: u16) -> Expansion
    ensures to { (page : Page) (moves : List Move) → ExpandsTo result page moves (row_moves page token call number) }
    ensures light { IsLight result }
    ensures which { is_expansion result ≡ true }
{
    match part_of(Meaning::Prim(number)) {
        Part::Conditional => Expansion::Conditional(call, number),
        Part::Ends(ender) => Expansion::Ender(token, call, ender),
        Part::Plain => Expansion::Begin(Opening::Reads(Phrase::Command(call))),
    }
}

/// How a primitive is expanded.
fn primitive_expansion(token: Token, number: u16) -> Expansion
    ensures to { (page : Page) (moves : List Move) → ExpandsTo result page moves (plain_expansion page token number) }
    ensures light { IsLight result }
    ensures which { is_expansion result ≡ true }
{
    let call = call_of(token, Head::Primitive(number));
    match number {
        CSNAME => Expansion::Begin(Opening::Spelling(call)),
        JOBNAME => Expansion::JobName(Opening::Reads(Phrase::Command(call))),
        INPUT => Expansion::Input(token, call),
        ENDINPUT => Expansion::EndInput,
        _ => row_expansion(token, call, number),
    }
}

/// What becomes of a token by expansion.
fn expansion_of(seen: Seen) -> Expansion
    ensures to { (page : Page) (moves : List Move) → ExpandsTo result page moves (expanded page seen moves) }
    ensures light { IsLight result }
    ensures which { is_expansion result ≡ is_expandable seen.meaning }
{
    match seen.meaning {
        Meaning::Undefined => Expansion::Undefined,
        Meaning::Macro { .. } => Expansion::Call(seen.token),
        Meaning::Prim(number) if is_expanded(number) => primitive_expansion(seen.token, number),
        _ => Expansion::Unexpandable,
    }
}

/// The reading of `\\jobname` begins, the job's name is put, and the reading ends.
///
/// # Errors
/// There is no room for the reading or for the name: the engine stands for the moment before.
fn put_job(engine: &mut Engine, opening: Opening) -> Result<(), Broken>
    requires idle { engine.old.input.making ≡ None }
    ensures rule { OnOk result (GoesFree engine.old engine.new (λ page. job_moves page (reading_kind opening))) }
    ensures err { IfErr result (λ b. CutsFree engine.old engine.new (λ page. job_moves page (reading_kind opening)) b) }
    ensures frames { OnOk result (engine.new.readings.frames ≡ engine.old.readings.frames) }
    ensures call { OnOk result (engine.old.input.call ≡ NotCalling → engine.new.input.call ≡ NotCalling) }
    ensures pending { OnOk result (pending_weight engine.new.input.pending ≡ pending_weight engine.old.input.pending) }
    ensures column { engine.new.in_line ≡ engine.old.in_line }
    ensures idle { OnOk result (engine.new.input.making ≡ None) }
{
    engine.begin(opening)?;
    engine.put_characters(Made::JobName)?;
    engine.close_reading();
    Ok(())
}

/// The reading of a file's name begins; where one is being read, the token of `\input` is put back, behind a `\relax`.
/// *TeX: The Program*, part 29 (`start_input`).
///
/// # Errors
/// There is no room for the reading, or for what is put back: the engine stands for the moment before.
fn begin_input(engine: &mut Engine, token: Token, call: Call) -> Result<(), Broken>
    requires idle { engine.old.input.making ≡ None }
    ensures rule { OnOk result (GoesFree engine.old engine.new (λ page. input_met page token call)) }
    ensures err { IfErr result (λ b. CutsFree engine.old engine.new (λ page. input_met page token call) b) }
    ensures light { OnOk result (engine.old.input.call ≡ NotCalling → innermost_weight engine.old.readings.frames ≤ act_weight → weight engine.new ≤ frames_weight engine.old.readings.frames + act_weight + pending_weight engine.old.input.pending) }
    ensures call { OnOk result (engine.new.input.call ≡ engine.old.input.call) }
    ensures column { engine.new.in_line ≡ engine.old.in_line }
    ensures idle { OnOk result (engine.new.input.making ≡ None) }
{
    if engine.naming {
        return put_behind_relax(engine, token);
    }
    engine.begin(Opening::FileName(call))?;
    engine.naming = true;
    Ok(())
}

/// A token is expanded once, if it can be; no call gathers its arguments.
///
/// # Errors
/// There is no room for what comes, or a write failed: the engine stands for the moment before.
pub fn expand_once<S: Sink>(engine: &mut Engine, out: &mut S, seen: Seen) -> Result<Once, Broken>
    requires idle { engine.old.input.making ≡ None }
    requires uncalled { engine.old.input.call ≡ NotCalling }
    ensures rule { IfOk result (ExpandsSo ExpandsOnce engine.old engine.new (S.told out.old) (S.told out.new) seen) }
    ensures err { IfErr result (ExpandsSo (λ sizes s e _ w v moves _. CutsIn sizes s e w v moves) engine.old engine.new (S.told out.old) (S.told out.new) seen) }
    ensures which { MatchResult result (λ once. changes once ≡ is_expandable seen.meaning) (λ _. is_expandable seen.meaning ≡ true) }
    ensures halts { IfOk result (λ once. EndsRun once → SameFrames engine.old engine.new) }
    ensures stays { IfOk result (λ once. IsStayed once → engine.new ≡ engine.old) }
    ensures silent { IfOk result (λ once. IsStayed once → S.told out.new ≡ S.told out.old) }
    ensures light { IfOk result (λ once. IsExpanded once → innermost_weight engine.old.readings.frames ≤ act_weight → weight engine.new ≤ frames_weight engine.old.readings.frames + act_weight + pending_weight engine.old.input.pending) }
    ensures idle { OnOk result (engine.new.input.making ≡ None) }
{
    match expansion_of(seen) {
        Expansion::Undefined => {
            let ruled = engine.report_only(out, Report::UndefinedName)?;
            Ok(once_behind(ruled))
        }
        Expansion::Call(token) => {
            call_name(engine, token)?;
            Ok(Once::Expanded)
        }
        Expansion::Begin(opening) => {
            engine.begin(opening)?;
            Ok(Once::Expanded)
        }
        Expansion::JobName(opening) => {
            put_job(engine, opening)?;
            Ok(Once::Expanded)
        }
        Expansion::Input(token, call) => {
            begin_input(engine, token, call)?;
            Ok(Once::Expanded)
        }
        Expansion::EndInput => {
            engine.end_input();
            Ok(Once::Expanded)
        }
        Expansion::Conditional(call, number) => {
            begin_conditional(engine, call, number)?;
            Ok(Once::Expanded)
        }
        Expansion::Ender(token, call, ender) => {
            let ruled = meet_ender(engine, out, token, call, ender)?;
            Ok(once_behind(ruled))
        }
        Expansion::Unexpandable => Ok(Once::Stays),
    }
}

/// What comes behind moves by which the token has gone.
fn once_behind(ruled: Ruled) -> Once
    ensures { result ≡ once_by ruled }
{
    match ruled {
        Ruled::Halted(outcome) => Once::Over(outcome),
        _ => Once::Expanded,
    }
}

/// Whether a token is handed on as it stands: it is wanted so, or can't be expanded.
#[inline(always)]
pub fn stays(want: Option<Want>, seen: Seen) -> bool
    ensures stays { MatchBool result (Stays want seen) (wants_raw want ≡ false) }
    ensures expands { MatchBool result (Unit {0}) (is_expandable seen.meaning ≡ true) }
{
    is_raw(want) || !is_expandable(seen.meaning)
}

/// A token that can be expanded is.
///
/// # Errors
/// There is no room for what comes, or a write failed: the engine stands for the moment before.
pub fn expand<S: Sink>(engine: &mut Engine, out: &mut S, seen: Seen) -> Result<Ruled, Broken>
    requires idle { engine.old.input.making ≡ None }
    requires uncalled { engine.old.input.call ≡ NotCalling }
    requires expands { is_expandable seen.meaning ≡ true }
    ensures rule { IfOk result (GoesOnward engine.old engine.new (S.told out.old) (S.told out.new) (λ page. expanded page seen [])) }
    ensures err { IfErr result (CutsOnward engine.old engine.new (S.told out.old) (S.told out.new) (λ page. expanded page seen [])) }
    ensures halts { IfOk result (λ ruled. IsHalted ruled → SameFrames engine.old engine.new) }
    ensures on { IfOk result (λ ruled. IsFree ruled → ⊥) }
    ensures idle { OnOk result (engine.new.input.making ≡ None) }
{
    match expand_once(engine, out, seen)? {
        Once::Expanded => Ok(Ruled::Step),
        Once::Stays => unreachable!(),
        Once::Over(outcome) => Ok(Ruled::Halted(outcome)),
    }
}
