// The files, read on where the next rule needs their bytes.
ghost use Rattle.std.specs.Prelude.{◌≡◌, ◌<◌, true, List, IfErr, OnErr, OnOk, IsTrue, MatchBool, ◌&&◌, not, is_some};
ghost use Rattle.tex_defs.specs.Places.{Rose};
ghost use Rattle.world_io.specs.declared.traits.Fault.TheVariants.{Failed, NoMemory};
ghost use Rattle.line_reader.specs.Readers.{OpenReader, AreOpen, ids};
ghost use Rattle.engine_state.specs.Steps.{asks_now, wants_token};
ghost use Rattle.stomach.specs.Read.{ReadsTo, AreTied};
ghost use Rattle.stomach.specs.Ahead.{IsGiven, Knows, Needs, needs_step, read_weight};
ghost use Rattle.input_state.specs.HeldLists.{has_item};

use engine_state::Engine;
use line_reader::Readers;
use world_io::{Fault, Files};

/// How many bytes are read at once.
const WINDOW: usize = 256;

/// Whether the next rule is the step of a token that a list or a call has left; `wants`: whether it wants a token. Then no byte of a file is needed for it.
#[inline(always)]
pub fn has_token(engine: &Engine, wants: bool) -> bool
    requires { wants ≡ wants_token (asks_now engine.now) }
    ensures is { result ≡ (has_item engine.now.input.pending.puts && not (is_some engine.now.input.pending.next) && wants) }
    ensures knows { IsTrue result → (rs : List OpenReader) → Knows engine.now rs }
    ensures step { IsTrue result → needs_step engine.now ≡ true }
{
    engine.input.has_item() && !engine.input.has_next() && wants
}

/// Whether the next rule needs bytes of a file that haven't come; `wants`: whether it wants a token.
#[inline(always)]
fn needs_bytes(engine: &Engine, readers: &Readers, wants: bool) -> bool
    requires { wants ≡ wants_token (asks_now engine.now) }
    ensures { MatchBool result (Needs engine.now readers.now.readers) (AreTied readers.now engine.now → Knows engine.now readers.now.readers) }
{
    if readers.count() == 0 || readers.is_ended() {
        return false;
    }
    if engine.input.has_next() {
        return engine.input.needs_first_bytes();
    }
    wants && engine.input.needs_bytes()
}

/// Reads the innermost file's next bytes, or finds its end.
fn read_window<F: Files>(
    engine: &mut Engine,
    readers: &mut Readers,
    files: &mut F,
) -> Result<(), Fault>
    requires open { AreOpen readers.old.readers (F.told files.old) }
    requires needs { Needs engine.old readers.old.readers }
    ensures came { ReadsTo readers.old.readers readers.new.readers (F.told files.old) (F.told files.new) (λ all left. IsGiven all left engine.old engine.new) }
    ensures less { OnOk result (read_weight engine.new readers.new.readers < read_weight engine.old readers.old.readers) }
    ensures lacks { OnErr result (Needs engine.new readers.new.readers) }
    ensures ids { ids readers.new.readers ≡ ids readers.old.readers }
    ensures open { AreOpen readers.new.readers (F.told files.new) }
    ensures tied { AreTied readers.old engine.old → AreTied readers.new engine.new }
    ensures fault { IfErr result (λ e. e ≡ Failed → Rose (F.told files.old).read_faults (F.told files.new).read_faults) }
    ensures want { IfErr result (λ e. e ≡ NoMemory → Rose (F.told files.old).wants (F.told files.new).wants) }
{
    let mut window = [0; WINDOW];
    let count = readers.read(files, &mut window)?;
    if engine.input.has_next() {
        engine.input.add_first_bytes(&window[..count]);
    } else {
        engine.input.add_bytes(&window[..count]);
    }
    Ok(())
}

/// Reads on until the next rule's reading is known.
///
/// # Errors
/// A read failed or wanted memory, where no line of the file is whole.
#[inline(always)]
pub fn read_ahead<F: Files>(
    engine: &mut Engine,
    readers: &mut Readers,
    files: &mut F,
    wants: bool,
) -> Result<(), Fault>
    requires wants { wants ≡ wants_token (asks_now engine.old) }
    requires open { AreOpen readers.old.readers (F.told files.old) }
    ensures came { ReadsTo readers.old.readers readers.new.readers (F.told files.old) (F.told files.new) (λ all left. IsGiven all left engine.old engine.new) }
    ensures knows { OnOk result (AreTied readers.new engine.new → Knows engine.new readers.new.readers) }
    ensures lacks { OnErr result (Needs engine.new readers.new.readers) }
    ensures ids { ids readers.new.readers ≡ ids readers.old.readers }
    ensures open { AreOpen readers.new.readers (F.told files.new) }
    ensures tied { AreTied readers.old engine.old → AreTied readers.new engine.new }
    ensures fault { IfErr result (λ e. e ≡ Failed → Rose (F.told files.old).read_faults (F.told files.new).read_faults) }
    ensures want { IfErr result (λ e. e ≡ NoMemory → Rose (F.told files.old).wants (F.told files.new).wants) }
{
    while needs_bytes(engine, readers, wants) {
        read_window(engine, readers, files)?;
    }
    Ok(())
}
