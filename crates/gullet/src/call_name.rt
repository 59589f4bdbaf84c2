// The name of a macro is expanded.
ghost use Rattle.std.specs.Prelude.{◌≡◌, ◌≤◌, ◌+◌, Bool, Some, None, IfErr, OnOk, OnErr};
ghost use Rattle.tex_defs.specs.declared.Meaning.TheVariants.{Macro};
ghost use Rattle.plain_tokens.specs.Meanings.{name_meaning};
ghost use Rattle.plain_readings.specs.Readings.{Arguments};
ghost use Rattle.plain_readings.specs.Weights.{act_weight};
ghost use Rattle.reading_frames.specs.Stack.{call_begun};
ghost use Rattle.reading_frames.specs.Weights.{frames_weight, innermost_weight};
ghost use Rattle.plain_machine.specs.declared.broken.Broken.TheVariants as broken;
ghost use Rattle.plain_machine.specs.States.{Begun};
ghost use Rattle.plain_machine.specs.Plan.{called};
ghost use Rattle.plain_tokens.specs.Arguments.{mode_of};
ghost use Rattle.macro_call.specs.PlainScans.{first_scan};
ghost use Rattle.input_state.specs.declared.answer.CallKind.TheVariants.{Gathers};
ghost use Rattle.input_state.specs.Callings.{NotCalling};
ghost use Rattle.input_state.specs.Callings as calls;
ghost use Rattle.input_state.specs.Calls.{call_kind, text_of};
ghost use Rattle.input_state.specs.Stored.{KeepsShared};
ghost use Rattle.engine_state.specs.Clauses.{GoesFree, DoesSilently};
ghost use Rattle.engine_state.specs.Stands.{Stands, SameFrames, page_of};
ghost use Rattle.engine_state.specs.Rules.{Cuts};
ghost use Rattle.plain_machine.specs.Weights.{pending_weight};
ghost use Rattle.engine_state.specs.Steps.{weight};
ghost use Rattle.gullet.specs.Clauses.{RefusedAsAny};

use engine_state::{Engine, name_of};
use input_state::CallKind;
use tex_defs::{Full, Meaning, Name, Seen, Token};

/// Expands the name of a macro: the body of one without a parameter text is put in front, another begins to gather its
/// arguments, and one without a list comes to nothing. *TeX: The Program*, part 25 (`macro_call`).
///
/// # Errors
/// There is no room for the level, for one more reading or for the first argument's list; the finished lists in front
/// have gone where a level was asked for.
pub(crate) fn call_name(engine: &mut Engine, token: Token) -> Result<(), Full>
    ensures ok { OnOk result (GoesFree engine.old engine.new (λ page. called page token)) }
    ensures err { IfErr result (λ full. DoesSilently Stands Cuts engine.old engine.new (λ book. called (page_of engine.old book) token) (broken.Full full)) }
    ensures frames { OnErr result (SameFrames engine.old engine.new) }
    ensures column { engine.new.in_line ≡ engine.old.in_line }
    ensures idle { engine.new.input.making ≡ engine.old.input.making }
    ensures light { OnOk result (engine.old.input.call ≡ NotCalling → innermost_weight engine.old.readings.frames ≤ act_weight → weight engine.new ≤ frames_weight engine.old.readings.frames + act_weight + pending_weight engine.old.input.pending) }
{
    if engine.input.is_calling() {
        return Ok(());
    }
    let name = name_of(token);
    match engine.input.call_at_once(name)? {
        CallKind::None => Ok(()),
        CallKind::AtOnce => Ok(()),
        CallKind::Gathers => {
            let long = is_long(engine.input.seen(Token::Named(name)));
            begin_call(engine, name, long)
        }
    }
}

/// Begins to gather the arguments of a call: one more reading is asked for first, and then its list.
///
/// # Errors
/// There is no room for them; nothing has changed.
fn begin_call(engine: &mut Engine, name: Name, long: bool) -> Result<(), Full>
    requires none { engine.old.input.call ≡ NotCalling }
    requires gathers { call_kind engine.old.input.lists (name_meaning engine.old.input.groups.now.meanings name) ≡ Gathers }
    ensures ok { OnOk result (engine.new ≡ record engine.old { readings = call_begun name engine.old.readings; input = record engine.old.input { call = calls.Gathering name (first_scan (text_of engine.old.input.lists engine.old.input.groups.now.meanings name) (mode_of long)); lists = engine.new.input.lists } }) }
    ensures fits { OnOk result (RefusedAsAny engine.old (λ number. Begun (Arguments name long number (text_of engine.old.input.lists engine.old.input.groups.now.meanings name))) None) }
    ensures refused { IfErr result (λ full. RefusedAsAny engine.old (λ number. Begun (Arguments name long number (text_of engine.old.input.lists engine.old.input.groups.now.meanings name))) (Some full)) }
    ensures err { OnErr result (engine.new ≡ engine.old) }
    ensures column { engine.new.in_line ≡ engine.old.in_line }
    ensures idle { engine.new.input.making ≡ engine.old.input.making }
    ensures keeps { KeepsShared engine.old.input engine.new.input }
{
    if let Err(full) = engine.readings.begin_call(name) {
        return Err(full);
    }
    if let Err(full) = engine.input.begin_call(name, long) {
        engine.readings.end();
        return Err(full);
    }
    Ok(())
}

/// Whether it is the name of a `\long` macro.
fn is_long(x: Seen) -> bool
    ensures { (long outer : Bool) (list : Unit) → x.meaning ≡ Macro long outer list → result ≡ long }
{
    matches!(x.meaning, Meaning::Macro { long: true, .. })
}
