// What a command does, and its reading ends.
ghost use Rattle.std.specs.Prelude.{◌≡◌, ◌<◌, [], ◌∷◌, ◌++◌, IfOk, IfErr, OnOk, MatchBool, Some, None};
ghost use Rattle.plain_tokens.specs.Meanings.{meaning_to_let};
ghost use Rattle.equivalents.specs.declared.values.Loc.TheVariants as loc;
ghost use Rattle.equivalents.specs.declared.values.Val.TheVariants as val;
ghost use Rattle.equivalents.specs.declared.values.Glue.{Glue as PlainGlue};
ghost use Rattle.equivalents.specs.Locations.{IsInRow, Suits, value_seen};
ghost use Rattle.equivalents.specs.Tables.{get};
ghost use Rattle.meanings.specs.Kept.{without_list};
ghost use Rattle.rows.specs.Readings.{Ask, Acts};
ghost use Rattle.rows.specs.declared.command.Effect.TheVariants as effects;
ghost use Rattle.reading_frames.specs.Stack.{asks_in};
ghost use Rattle.reading_frames.specs.Weights.{IsEnd};
ghost use Rattle.plain_machine.specs.States.{Set, Assigned};
ghost use Rattle.plain_machine.specs.Plan.{acts, acts_above, is_global as plain_global, marked as plain_marked, put_one, short_meaning as plain_short, location_shown};
ghost use Rattle.engine_state.specs.Book.{Book};
ghost use Rattle.engine_state.specs.Clauses.{Still, MakesMoves, CutsMoves, CutsWritingWhere, DoesAtReading, HoldsLists, WritesWhere};
ghost use Rattle.engine_state.specs.Making.{IsInFront};
ghost use Rattle.engine_state.specs.CutReadings.{CutsIn};
ghost use Rattle.engine_state.specs.Stands.{Stands, Counts, SameFrames, page_of};
ghost use Rattle.engine_state.specs.Rules.{Went};
ghost use Rattle.plain_machine.specs.Weights.{pending_weight};
ghost use Rattle.engine_state.specs.Steps.{asked, freed, weight, IsFree, IsStep};
ghost use Rattle.rows.specs.Suiting.{IsVariable, IsSuited, IsThere};
ghost use Rattle.stomach.specs.Clauses.{DoesIf, Overflows};
ghost use Rattle.stomach.specs.Effects.{put_by, done_alone, assignment_of, IsAlone};
ghost use Rattle.stomach.specs.Halting.{DoesRuleIn, DoesRuleAtReading, CutsRuleAtReading};
ghost use Rattle.input_state.specs.Callings.{NotCalling};

use crate::conditional::{choose_behind, compare_behind, reach};
use crate::lists::{give_list, share_list};
use crate::obeying::obey;
use engine_state::{Broken, Engine, Made, Ruled};
use equivalents::{CodeKind, Glue, Loc, Val};
use gullet::{Once, expand_once};
use reading_frames::Opening;
use rows::{Call, Datum, Effect, Operation, Shorthand, is_fetchable, value_computed};
use tex_defs::{Fatal, Meaning, Name, RegisterKind, Seen, Token};
use tex_syntax::{Outcome, Report};
use world_io::Sink;

/// A name as a marked one; another token as it is.
fn marked(token: Token) -> Token
    ensures { result ≡ plain_marked token }
{
    match token {
        Token::Named(name) => Token::Marked(name),
        token => token,
    }
}

/// Puts in front the text of what stands at a location, if it is there. *TeX: The Program*, part 27 (`the_toks`).
fn put_value(engine: &mut Engine, loc: Loc) -> Result<(), Broken>
    requires idle { engine.old.input.making ≡ None }
    ensures did { OnOk result (IsThere loc → MakesMoves Counts engine.old engine.new (λ page. put_by page (effects.MakeValue loc))) }
    ensures err { IfErr result (λ b. CutsMoves Counts engine.old engine.new (λ page. put_by page (effects.MakeValue loc)) b) }
    ensures front { IsInFront engine.old engine.new }
    ensures idle { OnOk result (engine.new.input.making ≡ None) }
{
    if is_fetchable(loc) {
        return engine.put_characters(Made::Value(loc));
    }
    Ok(())
}

/// Puts in front what a command gives back or makes.
fn put_effect(engine: &mut Engine, effect: Effect) -> Result<(), Broken>
    requires idle { engine.old.input.making ≡ None }
    ensures did { OnOk result (IsSuited effect → MakesMoves Counts engine.old engine.new (λ page. put_by page effect)) }
    ensures err { IfErr result (λ b. CutsMoves Counts engine.old engine.new (λ page. put_by page effect) b) }
    ensures front { IsInFront engine.old engine.new }
    ensures idle { OnOk result (engine.new.input.making ≡ None) }
{
    match effect {
        Effect::PutBack(x) => engine.put_one(x.token),
        Effect::PutMarked(x) => engine.put_one(marked(x.token)),
        Effect::MakeNumber(n) => engine.put_characters(Made::Number(n)),
        Effect::MakeRoman(n) => engine.put_characters(Made::Roman(n)),
        Effect::MakeString(x) => engine.put_characters(Made::Spelling(x.token)),
        Effect::MakeMeaning(x) => engine.put_characters(Made::Meaning(x)),
        Effect::MakeValue(loc) => put_value(engine, loc),
        _ => Ok(()),
    }
}

/// The place of `\globaldefs` among the integer parameters.
const GLOBAL_DEFINITIONS: u8 = 43;

/// Whether an assignment of this command is global. *The TeXbook*, chapter 24 (`\globaldefs`).
pub(crate) fn is_global(engine: &Engine, call: Call) -> bool
    ensures { (book : Book) → result ≡ plain_global (page_of engine.now book) call }
{
    match engine.input.integer(GLOBAL_DEFINITIONS) {
        0 => call.global,
        n => n > 0,
    }
}

/// A name means what a token means.
///
/// # Errors
/// The save stack is full; nothing has changed.
fn assign(engine: &mut Engine, name: Name, x: Seen, global: bool) -> Result<(), Broken>
    ensures did { OnOk result (MakesMoves Stands engine.old engine.new (λ page. Assigned global name (meaning_to_let page.now.meanings x) ∷ [])) }
    ensures err { IfErr result (λ b. CutsMoves Stands engine.old engine.new (λ page. Assigned global name (meaning_to_let page.now.meanings x) ∷ []) b) }
    ensures stands { OnOk result (Still Stands engine.old engine.new) }
    ensures frames { SameFrames engine.old engine.new }
    ensures only { engine.new ≡ record engine.old { input = record engine.old.input { groups = engine.new.input.groups; lists = engine.new.input.lists } } }
{
    if !engine.input.is_placed(name) || engine.input.is_calling() {
        return Ok(());
    }
    engine.input.let_name(name, x, global)?;
    Ok(())
}

/// A name gets this meaning, which is no macro's.
///
/// # Errors
/// The save stack is full; nothing has changed.
pub(crate) fn give_meaning(
    engine: &mut Engine,
    name: Name,
    meaning: Meaning<()>,
    global: bool,
) -> Result<(), Broken>
    ensures did { OnOk result (MakesMoves Stands engine.old engine.new (λ _. Assigned global name (without_list meaning) ∷ [])) }
    ensures err { IfErr result (λ b. CutsMoves Stands engine.old engine.new (λ _. Assigned global name (without_list meaning) ∷ []) b) }
    ensures stands { OnOk result (Still Stands engine.old engine.new) }
    ensures frames { SameFrames engine.old engine.new }
    ensures only { engine.new ≡ record engine.old { input = record engine.old.input { groups = engine.new.input.groups; lists = engine.new.input.lists } } }
{
    if !engine.input.is_placed(name) || engine.input.is_calling() {
        return Ok(());
    }
    engine.input.set_meaning(name, meaning, global)?;
    Ok(())
}

/// What a name means that a shorthand definition defines.
fn short_meaning(shorthand: Shorthand) -> Meaning<()>
    ensures { without_list result ≡ plain_short shorthand }
{
    match shorthand {
        Shorthand::Character(code) => Meaning::CharGiven(code),
        Shorthand::Math(code) => Meaning::MathGiven(code),
        Shorthand::Register { kind, no } => Meaning::Register { kind, no },
    }
}

/// Both tokens are put back, and the name means what the second one means.
///
/// # Errors
/// There is no room for the tokens or in the save stack: what had room is there.
fn assign_behind(
    engine: &mut Engine,
    name: Name,
    x: Seen,
    y: Seen,
    global: bool,
) -> Result<(), Broken>
    requires idle { engine.old.input.making ≡ None }
    ensures did { OnOk result (MakesMoves Stands engine.old engine.new (λ page. put_one y.token ++ (put_one x.token ++ Assigned global name (meaning_to_let page.now.meanings y) ∷ []))) }
    ensures err { IfErr result (λ b. CutsMoves Stands engine.old engine.new (λ page. put_one y.token ++ (put_one x.token ++ Assigned global name (meaning_to_let page.now.meanings y) ∷ [])) b) }
    ensures stands { OnOk result (Still Stands engine.old engine.new) }
    ensures frames { SameFrames engine.old engine.new }
    ensures column { engine.new.in_line ≡ engine.old.in_line }
    ensures after { engine.new.after ≡ engine.old.after }
    ensures light { OnOk result (pending_weight engine.new.input.pending ≡ pending_weight engine.old.input.pending) }
    ensures idle { OnOk result (engine.new.input.making ≡ None) }
{
    engine.put_one(y.token)?;
    engine.put_one(x.token)?;
    assign(engine, name, y, global)?;
    Ok(())
}

/// Whether a number may stand at a location, which is there.
fn takes_number(loc: Loc, value: i32) -> bool
    ensures { MatchBool result ((IsInRow loc) × Suits loc (val.Number value)) (IsThere loc → Suits loc (val.Number value) → ⊥) }
{
    match loc {
        Loc::Code {
            kind: CodeKind::Category,
            code: _,
        } => (0..16).contains(&value),
        Loc::Code { .. } => true,
        Loc::Integer(_) | Loc::Dimension(_) => is_fetchable(loc),
        Loc::Register {
            kind: RegisterKind::Count | RegisterKind::Dimen,
            no: _,
        } => true,
        _ => false,
    }
}

/// The location gets this number, if it may stand there.
///
/// # Errors
/// The save stack is full; nothing has changed.
pub(crate) fn set_number(
    engine: &mut Engine,
    loc: Loc,
    value: i32,
    global: bool,
) -> Result<(), Broken>
    ensures did { OnOk result (IsThere loc → Suits loc (val.Number value) → MakesMoves Stands engine.old engine.new (λ _. Set global loc (val.Number value) ∷ [])) }
    ensures err { IfErr result (λ b. CutsMoves Stands engine.old engine.new (λ _. Set global loc (val.Number value) ∷ []) b) }
    ensures stands { OnOk result (Still Stands engine.old engine.new) }
    ensures frames { SameFrames engine.old engine.new }
    ensures only { engine.new ≡ record engine.old { input = record engine.old.input { groups = engine.new.input.groups; lists = engine.new.input.lists } } }
{
    if takes_number(loc, value) {
        engine.input.set_number(loc, value, global)?;
    }
    Ok(())
}

/// Whether glue may stand at a location, which is there.
fn takes_glue(loc: Loc) -> bool
    ensures { MatchBool result ((IsInRow loc) × ((g : PlainGlue) → Suits loc (val.Skip g))) (IsThere loc → (g : PlainGlue) → Suits loc (val.Skip g) → ⊥) }
{
    match loc {
        Loc::Glue(_) => is_fetchable(loc),
        Loc::Register {
            kind: RegisterKind::Skip | RegisterKind::Muskip,
            no: _,
        } => true,
        _ => false,
    }
}

/// The location gets this glue, if it may stand there.
///
/// # Errors
/// The save stack is full; nothing has changed.
fn set_glue(engine: &mut Engine, loc: Loc, glue: Glue, global: bool) -> Result<(), Broken>
    ensures did { OnOk result (IsThere loc → Suits loc (val.Skip glue) → MakesMoves Stands engine.old engine.new (λ _. Set global loc (val.Skip glue) ∷ [])) }
    ensures err { IfErr result (λ b. CutsMoves Stands engine.old engine.new (λ _. Set global loc (val.Skip glue) ∷ []) b) }
    ensures stands { OnOk result (Still Stands engine.old engine.new) }
    ensures frames { SameFrames engine.old engine.new }
    ensures only { engine.new ≡ record engine.old { input = record engine.old.input { groups = engine.new.input.groups; lists = engine.new.input.lists } } }
{
    if takes_glue(loc) {
        engine.input.set_glue(loc, glue, global)?;
    }
    Ok(())
}

/// Writes what stands at a location, if it is there.
///
/// # Errors
/// A write failed or wanted memory: a front of the text was written.
fn show_value<S: Sink>(engine: &mut Engine, out: &mut S, loc: Loc) -> Result<(), Broken>
    ensures did { OnOk result (IsThere loc → WritesWhere HoldsLists engine.old engine.new (S.told out.old) (S.told out.new) (λ page. location_shown page loc)) }
    ensures err { IfErr result (λ b. CutsWritingWhere HoldsLists engine.old engine.new (S.told out.old) (S.told out.new) (λ page. location_shown page loc) b) }
    ensures only { engine.new ≡ record engine.old { in_line = engine.new.in_line; flawed = engine.new.flawed } }
    ensures frames { SameFrames engine.old engine.new }
{
    if is_fetchable(loc) {
        return engine.show_value(out, loc);
    }
    Ok(())
}

/// What stands at a location, if it is there.
fn value_at(engine: &Engine, loc: Loc) -> Val<()>
    ensures { IsThere loc → (book : Book) → result ≡ value_seen (get (page_of engine.now book).now loc) }
{
    if is_fetchable(loc) {
        return engine.input.value(loc);
    }
    Val::Number(0)
}

/// The assignment of a number or of glue; another value counts as the number 0.
fn assignment(loc: Loc, value: Val<()>) -> Effect
    ensures { result ≡ assignment_of loc value }
{
    match value {
        Val::Number(n) => Effect::SetNumber(loc, n),
        Val::Skip(glue) => Effect::SetGlue(loc, glue),
        _ => Effect::SetNumber(loc, 0),
    }
}

/// Does what a command says, where no token is obeyed and none expanded, nothing is computed, no list put in front, and no conditional goes
/// on.
///
/// # Errors
/// There is no room for what is put in front or in the save stack, or a write failed: the engine stands for the moment before.
fn act_alone<S: Sink>(
    engine: &mut Engine,
    out: &mut S,
    call: Call,
    effect: Effect,
) -> Result<(), Broken>
    requires idle { engine.old.input.making ≡ None }
    ensures did { OnOk result (IsSuited effect → WritesWhere Stands engine.old engine.new (S.told out.old) (S.told out.new) (λ page. done_alone page call effect)) }
    ensures err { IfErr result (λ b. IsSuited effect → CutsWritingWhere Stands engine.old engine.new (S.told out.old) (S.told out.new) (λ page. done_alone page call effect) b) }
    ensures stands { OnOk result (Still Stands engine.old engine.new) }
    ensures frames { SameFrames engine.old engine.new }
    ensures light { OnOk result (pending_weight engine.new.input.pending ≡ pending_weight engine.old.input.pending) }
    ensures idle { OnOk result (engine.new.input.making ≡ None) }
{
    match effect {
        Effect::Show(x) => engine.show(out, x),
        Effect::ShowValue(loc) => show_value(engine, out, loc),
        Effect::ShowNumber(n) => engine.show_number(out, n),
        Effect::Let(name, x) => {
            let global = is_global(engine, call);
            assign(engine, name, x, global)?;
            engine.put_after()
        }
        Effect::FutureLet(name, x, y) => {
            let global = is_global(engine, call);
            assign_behind(engine, name, x, y, global)?;
            engine.put_after()
        }
        Effect::SetNumber(loc, value) => {
            let global = is_global(engine, call);
            set_number(engine, loc, value, global)?;
            engine.put_after()
        }
        Effect::SetGlue(loc, glue) => {
            let global = is_global(engine, call);
            set_glue(engine, loc, glue, global)?;
            engine.put_after()
        }
        Effect::ShareList(loc, from) => {
            let global = is_global(engine, call);
            share_list(engine, loc, from, global)?;
            engine.put_after()
        }
        Effect::Shorthand(name, shorthand) => {
            let global = is_global(engine, call);
            give_meaning(engine, name, short_meaning(shorthand), global)?;
            engine.put_after()
        }
        Effect::Unassigned => engine.put_after(),
        Effect::AfterGroup(x) => engine.keep_for_group(x.token),
        Effect::AfterAssignment(x) => {
            engine.keep_after(x.token);
            Ok(())
        }
        _ => put_effect(engine, effect),
    }
}

/// A rule without a step.
pub(crate) fn free(ruled: Ruled) -> Ruled
    ensures { result ≡ freed ruled }
{
    match ruled {
        Ruled::Step => Ruled::Free,
        ruled => ruled,
    }
}

/// The command ends, and its token is obeyed.
///
/// # Errors
/// There is no room for what comes, or a write failed: the engine stands for the moment before.
fn obey_behind<S: Sink>(
    engine: &mut Engine,
    out: &mut S,
    call: Call,
    x: Seen,
) -> Result<Ruled, Broken>
    requires idle { engine.old.input.making ≡ None }
    requires uncalled { engine.old.input.call ≡ NotCalling }
    ensures rule { IfOk result (λ ruled. DoesRuleAtReading engine.old engine.new (S.told out.old) (S.told out.new) (λ page _. acts page call (effects.Obey x)) ruled) }
    ensures err { IfErr result (λ b. CutsRuleAtReading engine.old engine.new (S.told out.old) (S.told out.new) (λ page _. acts page call (effects.Obey x)) b) }
    ensures step { IfOk result (λ ruled. IsStep ruled → ⊥) }
    ensures light { IfOk result (λ ruled. IsFree ruled → asks_in engine.old.readings.frames [] ≡ Some (Acts call (effects.Obey x)) → weight engine.new < weight engine.old) }
    ensures idle { OnOk result (engine.new.input.making ≡ None) }
{
    let _obeyed = call;
    engine.close_reading();
    let ruled = obey(engine, out, x)?;
    Ok(free(ruled))
}

/// The command ends; the second token is expanded once, or put back, while the first waits behind it in a reading of its own.
/// *TeX: The Program*, part 25 (`expand`).
///
/// # Errors
/// There is no room for what comes, or a write failed: the engine stands for the moment before.
fn expand_behind<S: Sink>(
    engine: &mut Engine,
    out: &mut S,
    call: Call,
    x: Seen,
    y: Seen,
) -> Result<Ruled, Broken>
    requires idle { engine.old.input.making ≡ None }
    requires uncalled { engine.old.input.call ≡ NotCalling }
    ensures rule { IfOk result (λ ruled. DoesRuleAtReading engine.old engine.new (S.told out.old) (S.told out.new) (λ page _. acts page call (effects.ExpandBehind x y)) ruled) }
    ensures err { IfErr result (λ b. CutsRuleAtReading engine.old engine.new (S.told out.old) (S.told out.new) (λ page _. acts page call (effects.ExpandBehind x y)) b) }
    ensures step { IfOk result (λ ruled. IsStep ruled → ⊥) }
    ensures light { IfOk result (λ ruled. IsFree ruled → asks_in engine.old.readings.frames [] ≡ Some (Acts call (effects.ExpandBehind x y)) → weight engine.new < weight engine.old) }
    ensures idle { OnOk result (engine.new.input.making ≡ None) }
{
    engine.close_reading();
    engine.begin(Opening::Behind(call, x))?;
    match expand_once(engine, out, y)? {
        Once::Expanded => Ok(Ruled::Free),
        Once::Stays => {
            engine.put_one(y.token)?;
            Ok(Ruled::Free)
        }
        Once::Over(outcome) => Ok(Ruled::Halted(outcome)),
    }
}

/// Does what a command says, where no token is obeyed and none expanded, nothing is computed, no list put in front, and no conditional goes
/// on, and its reading ends.
///
/// # Errors
/// As [`act_alone`].
fn end_alone<S: Sink>(
    engine: &mut Engine,
    out: &mut S,
    call: Call,
    effect: Effect,
) -> Result<(), Broken>
    requires idle { engine.old.input.making ≡ None }
    requires uncalled { engine.old.input.call ≡ NotCalling }
    ensures rule { OnOk result (IsAlone effect → IsSuited effect → DoesAtReading Stands (λ sizes s e _. Went sizes s e) engine.old engine.new (S.told out.old) (S.told out.new) (λ book. acts (page_of engine.old book) call effect) 0) }
    ensures err { IfErr result (λ b. IsAlone effect → IsSuited effect → CutsRuleAtReading engine.old engine.new (S.told out.old) (S.told out.new) (λ page _. acts page call effect) b) }
    ensures light { OnOk result ((a : Ask) → asks_in engine.old.readings.frames [] ≡ Some a → IsEnd a → weight engine.new < weight engine.old) }
    ensures idle { OnOk result (engine.new.input.making ≡ None) }
{
    act_alone(engine, out, call, effect)?;
    engine.close_reading();
    Ok(())
}

/// A result that is out of bounds is reported, and the command ends; nothing is assigned.
///
/// # Errors
/// There is no room for the token behind the assignment, or a write failed: the engine stands for the moment before.
fn report_overflow<S: Sink>(engine: &mut Engine, out: &mut S, call: Call) -> Result<Ruled, Broken>
    requires idle { engine.old.input.making ≡ None }
    requires uncalled { engine.old.input.call ≡ NotCalling }
    ensures rule { IfOk result (Overflows DoesRuleIn engine.old engine.new (S.told out.old) (S.told out.new) call) }
    ensures err { IfErr result (Overflows CutsIn engine.old engine.new (S.told out.old) (S.told out.new) call) }
    ensures step { IfOk result (λ ruled. IsStep ruled → ⊥) }
    ensures light { IfOk result (λ ruled. IsFree ruled → (a : Ask) → asks_in engine.old.readings.frames [] ≡ Some a → IsEnd a → weight engine.new < weight engine.old) }
    ensures idle { OnOk result (engine.new.input.making ≡ None) }
{
    if engine.report(out, Report::ArithmeticOverflow)? {
        end_alone(engine, out, call, Effect::Unassigned)?;
        return Ok(Ruled::Free);
    }
    Ok(Ruled::Halted(Outcome::AtFatal(Fatal::HundredErrors)))
}

/// What stands at a location is changed by arithmetic, and the command ends. *TeX: The Program*, part 49 (`do_register_command`).
///
/// # Errors
/// There is no room for what comes, or a write failed: the engine stands for the moment before.
fn compute<S: Sink>(
    engine: &mut Engine,
    out: &mut S,
    call: Call,
    operation: Operation,
    loc: Loc,
    datum: Datum,
) -> Result<Ruled, Broken>
    requires idle { engine.old.input.making ≡ None }
    requires uncalled { engine.old.input.call ≡ NotCalling }
    ensures rule { IfOk result (λ ruled. IsVariable loc → DoesRuleAtReading engine.old engine.new (S.told out.old) (S.told out.new) (λ page _. acts page call (effects.Compute operation loc datum)) ruled) }
    ensures err { IfErr result (λ b. IsVariable loc → CutsRuleAtReading engine.old engine.new (S.told out.old) (S.told out.new) (λ page _. acts page call (effects.Compute operation loc datum)) b) }
    ensures step { IfOk result (λ ruled. IsStep ruled → ⊥) }
    ensures light { IfOk result (λ ruled. IsFree ruled → (a : Ask) → asks_in engine.old.readings.frames [] ≡ Some a → IsEnd a → weight engine.new < weight engine.old) }
    ensures idle { OnOk result (engine.new.input.making ≡ None) }
{
    match value_computed(operation, loc, value_at(engine, loc), datum) {
        Some(value) => {
            end_alone(engine, out, call, assignment(loc, value))?;
            Ok(Ruled::Free)
        }
        None => report_overflow(engine, out, call),
    }
}

/// Does what a command says, and its reading ends.
///
/// # Errors
/// There is no room for what comes, or a write failed: the engine stands for the moment before.
pub(crate) fn act<S: Sink>(
    engine: &mut Engine,
    out: &mut S,
    call: Call,
    effect: Effect,
) -> Result<Ruled, Broken>
    requires idle { engine.old.input.making ≡ None }
    requires uncalled { engine.old.input.call ≡ NotCalling }
    ensures rule { IfOk result (DoesIf (asked engine.old ≡ Some (Acts call effect)) DoesRuleIn engine.old engine.new (S.told out.old) (S.told out.new) (λ page rs. acts_above rs page call effect)) }
    ensures err { IfErr result (DoesIf (asked engine.old ≡ Some (Acts call effect)) CutsIn engine.old engine.new (S.told out.old) (S.told out.new) (λ page rs. acts_above rs page call effect)) }
    ensures step { IfOk result (λ ruled. IsStep ruled → ⊥) }
    ensures light { IfOk result (λ ruled. IsFree ruled → asks_in engine.old.readings.frames [] ≡ Some (Acts call effect) → weight engine.new < weight engine.old) }
    ensures idle { OnOk result (engine.new.input.making ≡ None) }
{
    match effect {
        Effect::Obey(x) => obey_behind(engine, out, call, x),
        Effect::ExpandBehind(x, y) => expand_behind(engine, out, call, x, y),
        Effect::Compute(operation, loc, datum) => {
            compute(engine, out, call, operation, loc, datum)
        }
        Effect::PutList(loc) => {
            give_list(engine, loc)?;
            Ok(Ruled::Free)
        }
        Effect::Choose(value) => {
            choose_behind(engine, call, value)?;
            Ok(Ruled::Free)
        }
        Effect::Compare(x, y) => {
            compare_behind(engine, call, x, y)?;
            Ok(Ruled::Free)
        }
        Effect::Reach(aim, ender) => reach(engine, out, call, aim, ender),
        _ => {
            end_alone(engine, out, call, effect)?;
            Ok(Ruled::Free)
        }
    }
}
