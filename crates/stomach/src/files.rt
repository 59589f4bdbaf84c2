// Files that are opened and begun, and files that end. *The TeXbook*, chapter 20 (`\input`); *TeX: The Program*, parts 23 and 29 (`start_input`).
ghost use Rattle.std.specs.Prelude.{◌≡◌, ◌≤◌, ◌<◌, ◌+◌, ◌-◌, [], ◌∷◌, length, IfOk, IfErr, OnOk, Some, None, true, false};
ghost use Rattle.rows.specs.declared.command.Call.{Call};
ghost use Rattle.rows.specs.declared.command.Effect.{Effect};
ghost use Rattle.rows.specs.Readings.{ActsOn};
ghost use Rattle.reading_frames.specs.Stack.{asks_in};
ghost use Rattle.tex_defs.specs.Places.{Rose};
ghost use Rattle.plain_tokens.specs.Tables.{open_lines, open_files};
ghost use Rattle.plain_tokens.specs.Tokens.{character_codes};
ghost use Rattle.command_words.specs.Words.{file_name};
ghost use Rattle.reading_frames.specs.Views.{kept_list_of};
ghost use Rattle.plain_machine.specs.States.{Spelt};
ghost use Rattle.world_io.specs.Contents.{FilesTold};
ghost use Rattle.world_io.specs.declared.traits.Fault.TheVariants.{Failed, NoMemory};
ghost use Rattle.input_state.specs.Stored.{spelt as spelt_in};
ghost use Rattle.input_state.specs.Callings.{NotCalling};
ghost use Rattle.engine_state.specs.Clauses.{HoldsLists, MakesMoves, CutsMoves};
ghost use Rattle.engine_state.specs.Steps.{weight, IsStep, IsFree, asks_now, asks_start};
ghost use Rattle.line_reader.specs.Readers.{AreOpen};
ghost use Rattle.stomach.specs.declared.early.Early.TheVariants as early;
ghost use Rattle.stomach.specs.Files.{SeeksFile, CutsSeeking, AreGone};
ghost use Rattle.stomach.specs.Naming.{OnlySpelt};
ghost use Rattle.stomach.specs.Ran.{RuledTo};
ghost use Rattle.stomach.specs.Read.{ReadsTo};

use crate::early::Early;
use crate::naming::spell_list;
use command_words::has_extension;
use engine_state::{Broken, Engine, Ruled};
use line_reader::Readers;
use reading_frames::Ask;
use rows::Effect;
use tex_defs::{Full, Table};
use world_io::{Files, Sink};

/// The file's name that the list on top has, if it is listed, is spelt behind the open lines in the buffer, with `.tex` where no `.` stands behind its
/// area; answers how many bytes it has.
///
/// # Errors
/// There is no room for it; nothing but the bytes behind the open lines has changed.
fn spell_file(engine: &mut Engine, listed: bool) -> Result<usize, Broken>
    ensures did { OnOk result (MakesMoves HoldsLists engine.old engine.new (λ _. Spelt (file_name (character_codes (kept_list_of listed engine.old.input.builds))) ∷ [])) }
    ensures err { IfErr result (λ b. CutsMoves HoldsLists engine.old engine.new (λ _. Spelt (file_name (character_codes (kept_list_of listed engine.old.input.builds))) ∷ []) b) }
    ensures name { IfOk result (λ n. spelt_in engine.new.input n ≡ file_name (character_codes (kept_list_of listed engine.old.input.builds))) }
    ensures room { IfOk result (λ n. open_lines engine.old.input.pending + n ≤ engine.old.input.sizes.buffer_size) }
    ensures only { OnlySpelt engine.old engine.new }
{
    let count = spell_list(engine, listed)?;
    if has_extension(engine.input.spelt(count)) {
        return Ok(count);
    }
    Ok(engine.input.spell_on(count, b".tex")?)
}

/// The reading of a file's name ends: the token behind the name goes back, if it is to, and the name is spelt. Answers how many bytes it has.
///
/// # Errors
/// There is no room for the token, or for the name in the buffer: what comes before is there.
fn seek(engine: &mut Engine, back: bool, listed: bool) -> Result<usize, Broken>
    requires idle { engine.old.input.making ≡ None }
    requires uncalled { engine.old.input.call ≡ NotCalling }
    ensures rule { IfOk result (SeeksFile engine.old engine.new back (file_name (character_codes (kept_list_of listed engine.old.input.builds)))) }
    ensures err { IfErr result (CutsSeeking engine.old engine.new back (file_name (character_codes (kept_list_of listed engine.old.input.builds)))) }
    ensures light { OnOk result ((call : Call) (effect : Effect) → asks_in engine.old.readings.frames [] ≡ Some (ActsOn call effect []) → weight engine.new < weight engine.old) }
    ensures files { engine.new.input.pending.next ≡ engine.old.input.pending.next }
    ensures room { IfOk result (λ n. open_lines engine.new.input.pending + n ≤ engine.new.input.sizes.buffer_size) }
    ensures stopped { engine.new.stopped ≡ engine.old.stopped }
    ensures column { engine.new.in_line ≡ engine.old.in_line }
    ensures idle { OnOk result (engine.new.input.making ≡ None) }
{
    engine.put_back(back)?;
    let count = spell_file(engine, listed)?;
    engine.close_reading();
    engine.naming = false;
    engine.input.end_token_lists();
    Ok(count)
}

/// Does the rule by which a file is opened, whose name `\input` has read: the file is looked for, and opened if it is held; else the run ends.
///
/// # Errors
/// There is no room for what comes, or a file more; the file couldn't be opened; or a write failed: the engine stands for the moment before.
pub(crate) fn open_file<F: Files, S: Sink>(
    engine: &mut Engine,
    readers: &mut Readers,
    files: &mut F,
    out: &mut S,
) -> Result<Ruled, Early>
    requires idle { engine.old.input.making ≡ None }
    requires running { engine.old.stopped ≡ false }
    requires starts { asks_start (asks_now engine.old) ≡ true }
    requires none_opened { engine.old.input.pending.next ≡ None }
    requires open { AreOpen readers.old.readers (F.told files.old) }
    ensures rule { ReadsTo readers.old.readers readers.new.readers (F.told files.old) (F.told files.new) (λ all left. RuledTo readers.old engine.old (S.told out.old) readers.new engine.new (S.told out.new) all left result) }
    ensures light { IfOk result (λ ruled. IsFree ruled → weight engine.new < weight engine.old) }
    ensures step { IfOk result (λ ruled. IsStep ruled → ⊥) }
    ensures open { AreOpen readers.new.readers (F.told files.new) }
    ensures fault { IfErr result (λ e. e ≡ early.Unread Failed → Rose (F.told files.old).read_faults (F.told files.new).read_faults) }
    ensures want { IfErr result (λ e. e ≡ early.Unread NoMemory → Rose (F.told files.old).wants (F.told files.new).wants) }
    ensures idle { OnOk result (engine.new.input.making ≡ None) }
    ensures running { IfOk result (λ ruled. IsFree ruled → engine.new.stopped ≡ false) }
{
    let Some(Ask::ActsOn(_, Effect::StartInput(back), listed)) = engine.readings.ask() else {
        unreachable!()
    };
    let count = seek(engine, back, listed)?;
    if let Some(full) = engine.input.file_room() {
        return Err(Early::Broken(Broken::Full(full)));
    }
    if !readers.has_room() {
        return Err(Early::Broken(Broken::Full(levels_full(engine))));
    }
    if readers.open(files, engine.input.spelt(count))? {
        engine.input.open_file();
        return Ok(Ruled::Free);
    }
    Ok(Ruled::Halted(engine.refuse_spelt(out, count)?))
}

/// The readers go of files that have ended.
#[inline(always)]
pub(crate) fn close_ended<F: Files>(engine: &Engine, readers: &mut Readers, files: &mut F)
    requires open { AreOpen readers.old.readers (F.told files.old) }
    ensures closed { ReadsTo readers.old.readers readers.new.readers (F.told files.old) (F.told files.new) (λ all left. AreGone all left (length readers.old.readers - length readers.new.readers)) }
    ensures fewer { length readers.new.readers ≤ length readers.old.readers }
    ensures count { length readers.new.readers ≤ open_files engine.now.input.pending }
    ensures stays { open_files engine.now.input.pending ≤ length readers.old.readers → length readers.new.readers ≡ open_files engine.now.input.pending }
    ensures most { readers.new.most ≡ readers.old.most }
    ensures open { AreOpen readers.new.readers (F.told files.new) }
{
    while readers.count() > engine.input.open_files() {
        readers.close(files);
    }
}

/// The refusal of a file more.
fn levels_full(engine: &Engine) -> Full {
    Full {
        table: Table::TextInputLevels,
        used: engine.input.open_files(),
        size: engine.sizes.text_input_levels,
    }
}
