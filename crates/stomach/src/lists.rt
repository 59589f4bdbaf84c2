// Lists of tokens are set at locations, shared, and given.
ghost use Rattle.std.specs.Prelude.{◌≡◌, ◌≢◌, ◌<◌, true, [], ◌∷◌, ◌++◌, IfErr, OnOk, MatchBool, Some, None};
ghost use Rattle.equivalents.specs.declared.values.Val.TheVariants as val;
ghost use Rattle.equivalents.specs.Tables.{get};
ghost use Rattle.rows.specs.Internal.{IsFetchable, is_list};
ghost use Rattle.rows.specs.Readings.{Ask, ActsOn};
ghost use Rattle.rows.specs.declared.command.Effect.TheVariants as effects;
ghost use Rattle.reading_frames.specs.Views.{top_list, kept_list_of};
ghost use Rattle.reading_frames.specs.Stack.{asks_in, innermost_count};
ghost use Rattle.reading_frames.specs.Weights.{IsEnd};
ghost use Rattle.plain_machine.specs.declared.broken.Broken.TheVariants as broken;
ghost use Rattle.plain_machine.specs.States.{Closed, ListSet, Set};
ghost use Rattle.plain_machine.specs.Plan.{is_global as plain_global, list_set};
ghost use Rattle.engine_state.specs.Clauses.{Still, MakesMoves, CutsMoves, GoesAtReading, CutsAtReading};
ghost use Rattle.engine_state.specs.CutReadings.{CutsIn};
ghost use Rattle.engine_state.specs.Stands.{Stands, SameFrames};
ghost use Rattle.engine_state.specs.Rules.{Went};
ghost use Rattle.engine_state.specs.Steps.{asked, weight};
ghost use Rattle.rows.specs.Suiting.{IsThere, TakesList};
ghost use Rattle.stomach.specs.Clauses.{GivesList, DoesSilentlyIf};
ghost use Rattle.input_state.specs.Callings.{NotCalling};

use crate::define::has_token;
use crate::effects::is_global;
use engine_state::{Broken, Engine};
use equivalents::Loc;
use rows::{Call, is_fetchable, is_list};
use tex_defs::Full;

/// Whether a location is there and is a list of tokens.
fn takes_list(loc: Loc) -> bool
    ensures { MatchBool result (IsFetchable loc × (is_list loc ≡ true)) (TakesList loc → ⊥) }
{
    is_list(loc) && is_fetchable(loc)
}

/// The location gets the list that stands at another, if both are lists: it is shared, not copied.
///
/// # Errors
/// The save stack is full; nothing has changed.
pub(crate) fn share_list(
    engine: &mut Engine,
    loc: Loc,
    from: Loc,
    global: bool,
) -> Result<(), Broken>
    ensures did { OnOk result (TakesList loc → TakesList from → MakesMoves Stands engine.old engine.new (λ page. Set global loc (get page.now from) ∷ [])) }
    ensures err { IfErr result (λ b. CutsMoves Stands engine.old engine.new (λ page. Set global loc (get page.now from) ∷ []) b) }
    ensures stands { OnOk result (Still Stands engine.old engine.new) }
    ensures frames { SameFrames engine.old engine.new }
    ensures only { engine.new ≡ record engine.old { input = record engine.old.input { groups = engine.new.input.groups; lists = engine.new.input.lists } } }
{
    if !takes_list(loc) {
        return Ok(());
    }
    if !takes_list(from) {
        return Ok(());
    }
    engine.input.share_list(loc, from, global)?;
    Ok(())
}

/// The command ends, and the list that stands at a location, if it is there, enters the text beneath as it stands, where lists are copied,
/// and else is put in front. *The TeXbook*, chapter 20 (`\edef`); *TeX: The Program*, part 27 (`ins_the_toks`).
///
/// # Errors
/// There is no room for the list, or for one of its tokens, where those in front of it have entered: the engine stands for the moment before.
pub(crate) fn give_list(engine: &mut Engine, loc: Loc) -> Result<(), Broken>
    requires idle { engine.old.input.making ≡ None }
    requires uncalled { engine.old.input.call ≡ NotCalling }
    ensures rule { OnOk result (IsThere loc → GivesList Went engine.old engine.new loc 0) }
    ensures err { IfErr result (GivesList CutsIn engine.old engine.new loc) }
    ensures light { OnOk result ((a : Ask) → asks_in engine.old.readings.frames [] ≡ Some a → IsEnd a → weight engine.new < weight engine.old) }
    ensures column { engine.new.in_line ≡ engine.old.in_line }
    ensures idle { OnOk result (engine.new.input.making ≡ None) }
{
    engine.close_reading();
    if !is_fetchable(loc) {
        return Ok(());
    }
    if engine.readings.copies() {
        engine.copy_list(loc)?;
        return Ok(());
    }
    engine.put_list(loc)
}

/// The command ends, and the list on top, which has a token, becomes that of this location, if it is one of a list.
///
/// # Errors
/// The save stack is full; nothing has changed.
fn assign_list(engine: &mut Engine, call: Call, loc: Loc) -> Result<(), Full>
    requires some { engine.old.input.builds ≢ [] }
    requires token { top_list engine.old.input.builds ≢ [] }
    ensures rule { OnOk result (TakesList loc → DoesSilentlyIf (innermost_count engine.old.readings.frames ≡ 1) Went engine.old engine.new (λ page _. ListSet (plain_global page call) loc (top_list engine.old.input.builds) ∷ []) 0) }
    ensures err { IfErr result (λ full. CutsAtReading engine.old engine.new (λ page _. ListSet (plain_global page call) loc (top_list engine.old.input.builds) ∷ []) (broken.Full full)) }
    ensures light { OnOk result (engine.old.input.call ≡ NotCalling → (a : Ask) → asks_in engine.old.readings.frames [] ≡ Some a → IsEnd a → weight engine.new < weight engine.old) }
    ensures call { engine.old.input.call ≡ NotCalling → engine.new.input.call ≡ NotCalling }
    ensures after { engine.new.after ≡ engine.old.after }
    ensures column { engine.new.in_line ≡ engine.old.in_line }
    ensures idle { engine.new.input.making ≡ engine.old.input.making }
{
    if !takes_list(loc) {
        engine.close_reading();
        return Ok(());
    }
    let global = is_global(engine, call);
    engine.input.set_list(loc, global)?;
    engine.readings.end();
    Ok(())
}

/// The command ends, and no list stands at this location, if it is one of a list.
///
/// # Errors
/// The save stack is full: the command has ended.
fn pass_nothing(engine: &mut Engine, call: Call, loc: Loc) -> Result<(), Full>
    ensures rule { OnOk result (TakesList loc → GoesAtReading engine.old engine.new (λ page _. Closed ∷ Set (plain_global page call) loc (val.Tokens None) ∷ [])) }
    ensures err { IfErr result (λ full. CutsAtReading engine.old engine.new (λ page _. Closed ∷ Set (plain_global page call) loc (val.Tokens None) ∷ []) (broken.Full full)) }
    ensures light { OnOk result (engine.old.input.call ≡ NotCalling → (a : Ask) → asks_in engine.old.readings.frames [] ≡ Some a → IsEnd a → weight engine.new < weight engine.old) }
    ensures call { engine.old.input.call ≡ NotCalling → engine.new.input.call ≡ NotCalling }
    ensures after { engine.new.after ≡ engine.old.after }
    ensures column { engine.new.in_line ≡ engine.old.in_line }
    ensures idle { engine.new.input.making ≡ engine.old.input.making }
{
    let global = is_global(engine, call);
    engine.close_reading();
    if takes_list(loc) {
        engine.input.set_no_list(loc, global)?;
    }
    Ok(())
}

/// The command ends, and the list on top, if it is listed, becomes that of this location, behind which the token is put in front that
/// `\afterassignment` kept; one without a token becomes none. *The TeXbook*, chapter 24; *TeX: The Program*, part 49 (`prefixed_command`).
///
/// # Errors
/// The save stack is full, or there is no room for the token that comes behind: the engine stands for the moment before.
pub(crate) fn set_list(
    engine: &mut Engine,
    call: Call,
    loc: Loc,
    listed: bool,
) -> Result<(), Broken>
    requires idle { engine.old.input.making ≡ None }
    ensures rule { OnOk result (TakesList loc → DoesSilentlyIf (asked engine.old ≡ Some (ActsOn call (effects.SetList loc) (kept_list_of listed engine.old.input.builds))) Went engine.old engine.new (λ page _. list_set page call loc (kept_list_of listed engine.old.input.builds)) 0) }
    ensures err { IfErr result (λ b. TakesList loc → DoesSilentlyIf (asked engine.old ≡ Some (ActsOn call (effects.SetList loc) (kept_list_of listed engine.old.input.builds))) CutsIn engine.old engine.new (λ page _. list_set page call loc (kept_list_of listed engine.old.input.builds)) b) }
    ensures light { OnOk result (engine.old.input.call ≡ NotCalling → (a : Ask) → asks_in engine.old.readings.frames [] ≡ Some a → IsEnd a → weight engine.new < weight engine.old) }
    ensures column { engine.new.in_line ≡ engine.old.in_line }
    ensures idle { OnOk result (engine.new.input.making ≡ None) }
{
    if has_token(engine, listed) {
        assign_list(engine, call, loc)?;
        engine.put_after()
    } else {
        pass_nothing(engine, call, loc)?;
        engine.put_after()
    }
}
