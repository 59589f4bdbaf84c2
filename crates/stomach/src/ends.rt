// Readings that begin within another, end with a value, or report; those that put a token in front, make a name `\relax`, or have the
// magnification checked.
ghost use Rattle.std.specs.Prelude.{◌≡◌, ◌<◌, [], ◌∷◌, ◌++◌, IfOk, IfErr, OnOk, Some, None};
ghost use Rattle.tex_defs.specs.declared.Meaning.TheVariants as means;
ghost use Rattle.plain_tokens.specs.Names.{relax_primitive};
ghost use Rattle.plain_readings.specs.Readings.{Reads};
ghost use Rattle.rows.specs.Readings.{Inner, Done};
ghost use Rattle.reading_frames.specs.Stack.{asks_in};
ghost use Rattle.reading_frames.specs.Weights.{IsReported};
ghost use Rattle.plain_machine.specs.States.{Assigned, MagnificationSet};
ghost use Rattle.plain_machine.specs.Plan.{inner_begun, done as plan_done, is_global as plain_global, is_magnification as plain_magnification, magnification_checked, magnification_set, noting, put_one, reported, report_noted};
ghost use Rattle.engine_state.specs.Clauses.{GoesAtReading, CutsAtReading};
ghost use Rattle.engine_state.specs.Rules.{Went};
ghost use Rattle.engine_state.specs.Steps.{asked, asks_bare, asks_now, weight, IsFree, IsStep};
ghost use Rattle.stomach.specs.Clauses.{DoesSilentlyIf};
ghost use Rattle.stomach.specs.Halting.{DoesRuleAtReading, CutsRuleAtReading, DoesRuleIf, CutsRuleIf};
ghost use Rattle.input_state.specs.Callings.{NotCalling};

use crate::effects::{give_meaning, is_global, set_number};
use engine_state::{Broken, Engine, Ruled};
use equivalents::Loc;
use reading_frames::Opening;
use rows::{Call, Phrase, Value};
use tex_defs::{Fatal, Meaning, Name, Token};
use tex_syntax::{Outcome, Report};
use world_io::Sink;

/// The number of `\relax`.
const RELAX: u16 = 1;

/// The place of `\mag` among the integer parameters.
const MAGNIFICATION: u8 = 17;

/// The magnification that takes the place of one that is out of its range.
const TRUE_SIZE: u16 = 1000;

/// Begins a reading within the innermost one, with the last token or without one. No command is begun so.
///
/// # Errors
/// There is no room for one more reading, or for its list: nothing has changed.
pub(crate) fn begin_inner(engine: &mut Engine, phrase: Phrase, begins: bool) -> Result<(), Broken>
    requires uncalled { engine.old.input.call ≡ NotCalling }
    ensures rule { OnOk result (DoesSilentlyIf (asked engine.old ≡ Some (Inner phrase begins)) Went engine.old engine.new (λ _ _. inner_begun (Reads phrase) begins) 0) }
    ensures err { IfErr result (λ b. CutsAtReading engine.old engine.new (λ _ _. inner_begun (Reads phrase) begins) b) }
    ensures light { OnOk result (asks_in engine.old.readings.frames [] ≡ Some (Inner phrase begins) → weight engine.new < weight engine.old) }
    ensures column { engine.new.in_line ≡ engine.old.in_line }
    ensures idle { engine.new.input.making ≡ engine.old.input.making }
{
    if let Phrase::Command(_) = phrase {
        // What asks for a command within it is the frame of no reading: it ends.
        engine.close_reading();
        return Ok(());
    }
    let opening = Opening::Reads(phrase);
    if begins {
        engine.begin_with(opening)?;
        return Ok(());
    }
    engine.begin(opening)?;
    Ok(())
}

/// The innermost reading ends with this value; the last token is put back before, where it is given back.
///
/// # Errors
/// There is no room for the token: what had room is there.
pub(crate) fn done(engine: &mut Engine, value: Value, back: bool) -> Result<(), Broken>
    requires idle { engine.old.input.making ≡ None }
    requires uncalled { engine.old.input.call ≡ NotCalling }
    ensures rule { OnOk result (DoesSilentlyIf (asked engine.old ≡ Some (Done value back)) Went engine.old engine.new (λ page r. plan_done page r value back) 0) }
    ensures err { IfErr result (λ b. CutsAtReading engine.old engine.new (λ page r. plan_done page r value back) b) }
    ensures light { OnOk result (asks_in engine.old.readings.frames [] ≡ Some (Done value back) → weight engine.new < weight engine.old) }
    ensures column { engine.new.in_line ≡ engine.old.in_line }
    ensures idle { OnOk result (engine.new.input.making ≡ None) }
{
    engine.put_back(back)?;
    engine.end(value);
    Ok(())
}

/// The innermost reading reports, and goes on: the last token is put back before, where it is given back, and then a token is inserted, if there is one.
///
/// # Errors
/// There is no room for the tokens, for what the note brings, or a write failed: the engine stands for the moment before.
pub(crate) fn tell<S: Sink>(
    engine: &mut Engine,
    out: &mut S,
    report: Report,
    inserted: Option<Token>,
    back: bool,
) -> Result<Ruled, Broken>
    requires idle { engine.old.input.making ≡ None }
    ensures rule { IfOk result (λ ruled. DoesRuleIf (IsReported (asks_now engine.old)) engine.old engine.new (S.told out.old) (S.told out.new) (λ page r. report_noted page report inserted back r) ruled) }
    ensures err { IfErr result (λ b. CutsRuleIf (IsReported (asks_now engine.old)) engine.old engine.new (S.told out.old) (S.told out.new) (λ page r. report_noted page report inserted back r) b) }
    ensures step { IfOk result (λ ruled. IsStep ruled → ⊥) }
    ensures light { IfOk result (λ ruled. IsFree ruled → IsReported (asks_bare engine.old) → weight engine.new < weight engine.old) }
    ensures idle { OnOk result (engine.new.input.making ≡ None) }
{
    engine.put_back(back)?;
    engine.insert(inserted)?;
    if engine.report(out, report)? {
        engine.note()?;
        return Ok(Ruled::Free);
    }
    Ok(Ruled::Halted(Outcome::AtFatal(Fatal::HundredErrors)))
}

/// The innermost reading puts a token in front, and goes on.
///
/// # Errors
/// There is no room for the token, or for what the note brings: the engine stands for the moment before.
pub(crate) fn put(engine: &mut Engine, token: Token) -> Result<(), Broken>
    requires idle { engine.old.input.making ≡ None }
    requires uncalled { engine.old.input.call ≡ NotCalling }
    ensures rule { OnOk result (GoesAtReading engine.old engine.new (λ _ r. put_one token ++ noting r)) }
    ensures err { IfErr result (λ b. CutsAtReading engine.old engine.new (λ _ r. put_one token ++ noting r) b) }
    ensures light { OnOk result (IsReported (asks_in engine.old.readings.frames []) → weight engine.new < weight engine.old) }
    ensures column { engine.new.in_line ≡ engine.old.in_line }
    ensures idle { OnOk result (engine.new.input.making ≡ None) }
{
    engine.put_one(token)?;
    engine.note()?;
    Ok(())
}

/// The name that a shorthand definition defines means `\relax` from here, and the innermost reading goes on. *TeX: The Program*, part 49
/// (`shorthand_def`).
///
/// # Errors
/// There is no room for what the name meant, or for what the note brings: the engine stands for the moment before.
pub(crate) fn relax(engine: &mut Engine, call: Call, name: Name) -> Result<(), Broken>
    requires uncalled { engine.old.input.call ≡ NotCalling }
    ensures rule { OnOk result (GoesAtReading engine.old engine.new (λ page r. Assigned (plain_global page call) name (means.Prim relax_primitive) ∷ noting r)) }
    ensures err { IfErr result (λ b. CutsAtReading engine.old engine.new (λ page r. Assigned (plain_global page call) name (means.Prim relax_primitive) ∷ noting r) b) }
    ensures light { OnOk result (IsReported (asks_in engine.old.readings.frames []) → weight engine.new < weight engine.old) }
    ensures column { engine.new.in_line ≡ engine.old.in_line }
    ensures idle { engine.new.input.making ≡ engine.old.input.making }
{
    let global = is_global(engine, call);
    give_meaning(engine, name, Meaning::Prim(RELAX), global)?;
    engine.note()?;
    Ok(())
}

/// Whether a dimension may be magnified so.
fn is_magnification(n: i32) -> bool
    ensures { result ≡ plain_magnification n }
{
    1 <= n && n <= 32768
}

/// The magnification is reported, this one stands again in all groups and is set for good, and the innermost reading goes on.
///
/// # Errors
/// There is no room for what the note brings, or a write failed: the engine stands for the moment before.
fn correct_magnification<S: Sink>(
    engine: &mut Engine,
    out: &mut S,
    report: Report,
    mag: u16,
) -> Result<Ruled, Broken>
    requires idle { engine.old.input.making ≡ None }
    requires uncalled { engine.old.input.call ≡ NotCalling }
    ensures rule { IfOk result (λ ruled. DoesRuleAtReading engine.old engine.new (S.told out.old) (S.told out.new) (λ page r. reported page report (magnification_set mag (noting r))) ruled) }
    ensures err { IfErr result (λ b. CutsRuleAtReading engine.old engine.new (S.told out.old) (S.told out.new) (λ page r. reported page report (magnification_set mag (noting r))) b) }
    ensures step { IfOk result (λ ruled. IsStep ruled → ⊥) }
    ensures light { IfOk result (λ ruled. IsFree ruled → IsReported (asks_in engine.old.readings.frames []) → weight engine.new < weight engine.old) }
    ensures idle { OnOk result (engine.new.input.making ≡ None) }
{
    if engine.report(out, report)? {
        set_number(engine, Loc::Integer(MAGNIFICATION), i32::from(mag), true)?;
        engine.mag_set = mag;
        engine.note()?;
        return Ok(Ruled::Free);
    }
    Ok(Ruled::Halted(Outcome::AtFatal(Fatal::HundredErrors)))
}

/// The magnification is set for good, and the innermost reading goes on.
///
/// # Errors
/// There is no room for what the note brings: the engine stands for the moment before.
fn set_magnification(engine: &mut Engine, mag: u16) -> Result<(), Broken>
    requires uncalled { engine.old.input.call ≡ NotCalling }
    ensures rule { OnOk result (GoesAtReading engine.old engine.new (λ _ r. MagnificationSet mag ∷ noting r)) }
    ensures err { IfErr result (λ b. CutsAtReading engine.old engine.new (λ _ r. MagnificationSet mag ∷ noting r) b) }
    ensures light { OnOk result (IsReported (asks_in engine.old.readings.frames []) → weight engine.new < weight engine.old) }
    ensures column { engine.new.in_line ≡ engine.old.in_line }
    ensures idle { engine.new.input.making ≡ engine.old.input.making }
{
    engine.mag_set = mag;
    engine.note()?;
    Ok(())
}

/// The innermost reading goes on, with the note that what it asked for was done.
///
/// # Errors
/// There is no room for what the note brings: the engine stands for the moment before.
fn proceed(engine: &mut Engine) -> Result<(), Broken>
    requires uncalled { engine.old.input.call ≡ NotCalling }
    ensures rule { OnOk result (GoesAtReading engine.old engine.new (λ _ r. noting r)) }
    ensures err { IfErr result (λ b. CutsAtReading engine.old engine.new (λ _ r. noting r) b) }
    ensures light { OnOk result (IsReported (asks_in engine.old.readings.frames []) → weight engine.new < weight engine.old) }
    ensures column { engine.new.in_line ≡ engine.old.in_line }
    ensures idle { engine.new.input.making ≡ engine.old.input.making }
{
    engine.note()?;
    Ok(())
}

/// The magnification is checked, and the innermost reading goes on: where it isn't what was set for good, that stands again; one that is
/// out of its range is reported, and 1000 taken. *TeX: The Program*, part 19 (`prepare_mag`).
///
/// # Errors
/// There is no room for what the note brings, or a write failed: the engine stands for the moment before.
pub(crate) fn magnify<S: Sink>(engine: &mut Engine, out: &mut S) -> Result<Ruled, Broken>
    requires idle { engine.old.input.making ≡ None }
    requires uncalled { engine.old.input.call ≡ NotCalling }
    ensures rule { IfOk result (λ ruled. DoesRuleAtReading engine.old engine.new (S.told out.old) (S.told out.new) (λ page r. magnification_checked page (noting r)) ruled) }
    ensures err { IfErr result (λ b. CutsRuleAtReading engine.old engine.new (S.told out.old) (S.told out.new) (λ page r. magnification_checked page (noting r)) b) }
    ensures step { IfOk result (λ ruled. IsStep ruled → ⊥) }
    ensures light { IfOk result (λ ruled. IsFree ruled → IsReported (asks_in engine.old.readings.frames []) → weight engine.new < weight engine.old) }
    ensures idle { OnOk result (engine.new.input.making ≡ None) }
{
    let n = engine.input.integer(MAGNIFICATION);
    let mag_set = engine.mag_set;
    if mag_set == 0 {
        if is_magnification(n) {
            set_magnification(engine, n as u16)?;
            return Ok(Ruled::Free);
        }
        return correct_magnification(engine, out, Report::IllegalMagnification(n), TRUE_SIZE);
    }
    if n == i32::from(mag_set) {
        proceed(engine)?;
        return Ok(Ruled::Free);
    }
    correct_magnification(
        engine,
        out,
        Report::IncompatibleMagnification(n, mag_set),
        mag_set,
    )
}
