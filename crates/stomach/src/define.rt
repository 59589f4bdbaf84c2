// A macro is defined.
ghost use Rattle.std.specs.Prelude.{◌≡◌, ◌≢◌, ◌<◌, [], ◌∷◌, MatchBool, IfErr, OnOk, Some, None};
ghost use Rattle.rows.specs.Readings.{Defines};
ghost use Rattle.reading_frames.specs.Views.{top_list, kept_list_of};
ghost use Rattle.reading_frames.specs.Stack.{asks_in, innermost_count};
ghost use Rattle.plain_machine.specs.declared.broken.Broken.TheVariants as broken;
ghost use Rattle.plain_machine.specs.States.{Defined};
ghost use Rattle.plain_machine.specs.Plan.{is_global as plain_global, macro_defined};
ghost use Rattle.input_state.specs.Callings.{NotCalling};
ghost use Rattle.engine_state.specs.Clauses.{CutsAtReading};
ghost use Rattle.engine_state.specs.CutReadings.{CutsIn};
ghost use Rattle.engine_state.specs.Rules.{Went};
ghost use Rattle.engine_state.specs.Steps.{asked, weight};
ghost use Rattle.stomach.specs.Clauses.{DoesSilentlyIf};

use crate::effects::is_global;
use engine_state::{Broken, Engine};
use rows::Call;
use tex_defs::{Full, Name};

/// Whether the list on top, if it is listed, has a token.
pub(crate) fn has_token(engine: &Engine, listed: bool) -> bool
    ensures { MatchBool result (kept_list_of listed engine.now.input.builds ≢ []) (kept_list_of listed engine.now.input.builds ≡ []) }
{
    listed && engine.input.has_list() && !engine.input.is_list_empty()
}

/// The command ends, and the list on top, which has a token, becomes that of the macro of this name, if the name has a location.
///
/// # Errors
/// The save stack is full; nothing has changed.
fn assign_macro(engine: &mut Engine, call: Call, name: Name) -> Result<(), Full>
    requires some { engine.old.input.builds ≢ [] }
    requires token { top_list engine.old.input.builds ≢ [] }
    ensures rule { OnOk result (DoesSilentlyIf (innermost_count engine.old.readings.frames ≡ 1) Went engine.old engine.new (λ page _. Defined (plain_global page call) name call.long call.outer (top_list engine.old.input.builds) ∷ []) 0) }
    ensures err { IfErr result (λ full. CutsAtReading engine.old engine.new (λ page _. Defined (plain_global page call) name call.long call.outer (top_list engine.old.input.builds) ∷ []) (broken.Full full)) }
    ensures light { OnOk result (engine.old.input.call ≡ NotCalling → asks_in engine.old.readings.frames [] ≡ Some (Defines call name []) → weight engine.new < weight engine.old) }
    ensures call { engine.old.input.call ≡ NotCalling → engine.new.input.call ≡ NotCalling }
    ensures after { engine.new.after ≡ engine.old.after }
    ensures column { engine.new.in_line ≡ engine.old.in_line }
    ensures idle { engine.new.input.making ≡ engine.old.input.making }
{
    if engine.input.is_calling() || !engine.input.is_placed(name) {
        engine.close_reading();
        return Ok(());
    }
    let global = is_global(engine, call);
    engine.input.define(name, call.long, call.outer, global)?;
    engine.readings.end();
    Ok(())
}

/// The command ends, and the list on top, if it is listed, becomes that of the macro of this name, behind which the token is put in front that
/// `\afterassignment` kept; one without a token becomes none. *TeX: The Program*, part 49 (`define`).
///
/// # Errors
/// The save stack is full, and nothing has changed; or there is no room for the token that comes behind.
pub(crate) fn define(
    engine: &mut Engine,
    call: Call,
    name: Name,
    listed: bool,
) -> Result<(), Broken>
    requires idle { engine.old.input.making ≡ None }
    ensures rule { OnOk result (DoesSilentlyIf (asked engine.old ≡ Some (Defines call name (kept_list_of listed engine.old.input.builds))) Went engine.old engine.new (λ page _. macro_defined page call name (kept_list_of listed engine.old.input.builds)) 0) }
    ensures err { IfErr result (DoesSilentlyIf (asked engine.old ≡ Some (Defines call name (kept_list_of listed engine.old.input.builds))) CutsIn engine.old engine.new (λ page _. macro_defined page call name (kept_list_of listed engine.old.input.builds))) }
    ensures light { OnOk result (engine.old.input.call ≡ NotCalling → asks_in engine.old.readings.frames [] ≡ Some (Defines call name []) → weight engine.new < weight engine.old) }
    ensures column { engine.new.in_line ≡ engine.old.in_line }
    ensures idle { OnOk result (engine.new.input.making ≡ None) }
{
    if has_token(engine, listed) {
        assign_macro(engine, call, name)?;
        engine.put_after()
    } else {
        engine.close_reading();
        Ok(())
    }
}
