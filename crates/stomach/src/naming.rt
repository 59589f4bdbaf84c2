// Names that are spelt. *The TeXbook*, chapter 7 (`\csname`); *TeX: The Program*, part 25.
ghost use Rattle.std.specs.Prelude.{◌≡◌, ◌≤◌, ◌+◌, [], ◌∷◌, length, IfOk, IfErr, OnOk, OnErr, None};
ghost use Rattle.plain_tokens.specs.Meanings.{name_meaning, seen_as};
ghost use Rattle.plain_tokens.specs.Tokens.{character_codes, is_undefined as plain_undefined};
ghost use Rattle.reading_frames.specs.Views.{kept_list_of};
ghost use Rattle.plain_tokens.specs.Tables.{open_lines};
ghost use Rattle.plain_machine.specs.States.{Spelt};
ghost use Rattle.plain_machine.specs.Plan.{spelt, newly_spelt, relax_if_undefined as made_relax, name_made};
ghost use Rattle.engine_state.specs.Clauses.{Still, HoldsLists, MakesMoves, CutsMoves, WhereSound};
ghost use Rattle.engine_state.specs.Entering.{joined, with_names, EntryFits, EntryRefused};
ghost use Rattle.input_state.specs.Stored.{spelt as spelt_in};
ghost use Rattle.engine_state.specs.Stands.{Stands, SameFrames};
ghost use Rattle.plain_machine.specs.Weights.{pending_weight};
ghost use Rattle.stomach.specs.Naming.{IsTooLong, OnlySpelt};

use crate::effects::give_meaning;
use engine_state::{Broken, Engine, name};
use name_table::NameTable;
use tex_defs::{Full, Meaning, Name, Token};

/// The number of `\relax`.
const RELAX: u16 = 1;

/// The name of these characters. A new one of two or more is entered.
fn spelt_name(names: &mut NameTable, codes: &[u8]) -> Result<Name, Full>
    ensures name { IfOk result (λ n. n ≡ spelt names.old.names codes.now) }
    ensures after { OnOk result (names.new ≡ joined names.old (newly_spelt names.old.names codes.now)) }
    ensures fits { OnOk result (EntryFits names.old (newly_spelt names.old.names codes.now)) }
    ensures refused { IfErr result (λ full. EntryRefused names.old (newly_spelt names.old.names codes.now) full) }
    ensures err { OnErr result (names.new ≡ names.old) }
{
    match codes {
        [] => Ok(Name::Empty),
        [code] => Ok(Name::Single(*code)),
        _ => name(names, codes, true),
    }
}

/// The characters of the list on top, if it is listed, are spelt behind the open lines in the buffer; answers how many they are.
///
/// # Errors
/// There is no room for them; nothing has changed.
pub(crate) fn spell_list(engine: &mut Engine, listed: bool) -> Result<usize, Broken>
    ensures did { OnOk result (MakesMoves HoldsLists engine.old engine.new (λ _. Spelt (character_codes (kept_list_of listed engine.old.input.builds)) ∷ [])) }
    ensures err { IfErr result (λ b. CutsMoves HoldsLists engine.old engine.new (λ _. Spelt (character_codes (kept_list_of listed engine.old.input.builds)) ∷ []) b) }
    ensures codes { IfOk result (λ n. spelt_in engine.new.input n ≡ character_codes (kept_list_of listed engine.old.input.builds)) }
    ensures length { IfOk result (λ n. n ≡ length (character_codes (kept_list_of listed engine.old.input.builds))) }
    ensures room { IfOk result (λ n. open_lines engine.old.input.pending + n ≤ engine.old.input.sizes.buffer_size) }
    ensures full { IfErr result (λ b. IsTooLong engine.old (character_codes (kept_list_of listed engine.old.input.builds)) b) }
    ensures only { OnlySpelt engine.old engine.new }
{
    // The open lines are within the buffer.
    let _open = engine.input.open_files();
    if listed && engine.input.has_list() {
        return Ok(engine.input.spell()?);
    }
    Ok(0)
}

/// The name of the characters that are spelt behind the open lines. A new one of two or more is entered, and gets its location.
///
/// # Errors
/// There is no room for a new name; nothing has changed.
fn enter_spelt(engine: &mut Engine, n: usize) -> Result<Name, Full>
    requires { open_lines engine.old.input.pending + n ≤ engine.old.input.sizes.buffer_size }
    ensures name { IfOk result (λ name. WhereSound engine.old (λ _. name ≡ spelt engine.old.names.names (spelt_in engine.old.input n))) }
    ensures after { OnOk result (WhereSound engine.old (λ _. engine.new ≡ with_names (newly_spelt engine.old.names.names (spelt_in engine.old.input n)) engine.old)) }
    ensures fits { OnOk result (WhereSound engine.old (λ _. EntryFits engine.old.names (newly_spelt engine.old.names.names (spelt_in engine.old.input n)))) }
    ensures refused { IfErr result (λ full. WhereSound engine.old (λ _. EntryRefused engine.old.names (newly_spelt engine.old.names.names (spelt_in engine.old.input n)) full)) }
    ensures err { OnErr result (engine.new ≡ engine.old) }
    ensures only { engine.new ≡ record engine.old { names = engine.new.names; input = record engine.old.input { groups = engine.new.input.groups } } }
    ensures frames { SameFrames engine.old engine.new }
    ensures idle { engine.new.input.making ≡ engine.old.input.making }
{
    let known = engine.names.count();
    let name = spelt_name(&mut engine.names, engine.input.spelt(n))?;
    if engine.names.count() > known && engine.input.has_name_room() {
        engine.input.enter_name();
    }
    Ok(name)
}

/// Whether a name is undefined.
fn is_undefined(engine: &Engine, name: Name) -> bool
    ensures { result ≡ plain_undefined (seen_as (name_meaning engine.now.input.groups.now.meanings name)) }
{
    matches!(
        engine.input.seen(Token::Named(name)).meaning,
        Meaning::Undefined
    )
}

/// A name that means nothing becomes `\relax`, locally.
///
/// # Errors
/// The save stack is full; nothing has changed.
fn relax_if_undefined(engine: &mut Engine, name: Name) -> Result<(), Broken>
    ensures did { OnOk result (MakesMoves Stands engine.old engine.new (λ page. made_relax page.now.meanings name)) }
    ensures err { IfErr result (λ b. CutsMoves Stands engine.old engine.new (λ page. made_relax page.now.meanings name) b) }
    ensures stands { OnOk result (Still Stands engine.old engine.new) }
    ensures frames { SameFrames engine.old engine.new }
    ensures only { engine.new ≡ record engine.old { input = record engine.old.input { groups = engine.new.input.groups; lists = engine.new.input.lists } } }
{
    if !is_undefined(engine, name) {
        return Ok(());
    }
    give_meaning(engine, name, Meaning::Prim(RELAX), false)
}

/// The name of the characters of the list on top, if it is listed, and else of none, is spelt, entered where it is new, becomes `\relax` where it means nothing,
/// and is put in front.
///
/// # Errors
/// There is no room for the name in the buffer, for a new name, in the save stack, in the main memory or on the input stack: what comes before is there.
pub fn make_name(engine: &mut Engine, listed: bool) -> Result<(), Broken>
    requires idle { engine.old.input.making ≡ None }
    ensures did { OnOk result (MakesMoves Stands engine.old engine.new (λ page. name_made page (character_codes (kept_list_of listed engine.old.input.builds)))) }
    ensures err { IfErr result (λ b. CutsMoves Stands engine.old engine.new (λ page. name_made page (character_codes (kept_list_of listed engine.old.input.builds))) b) }
    ensures stands { OnOk result (Still Stands engine.old engine.new) }
    ensures frames { SameFrames engine.old engine.new }
    ensures column { engine.new.in_line ≡ engine.old.in_line }
    ensures light { OnOk result (pending_weight engine.new.input.pending ≡ pending_weight engine.old.input.pending) }
    ensures idle { OnOk result (engine.new.input.making ≡ None) }
{
    let count = spell_list(engine, listed)?;
    let name = enter_spelt(engine, count)?;
    relax_if_undefined(engine, name)?;
    engine.put_one(Token::Named(name))?;
    Ok(())
}
