// The run of a job, and what is told of it.
ghost use Rattle.std.specs.Prelude.{◌≡◌, ◌≤◌, ◌<◌, [], None, false, true};
ghost use Rattle.tex_defs.specs.Places.{Rose};
ghost use Rattle.world_io.specs.declared.traits.Fault.TheVariants.{Failed};
ghost use Rattle.stomach.specs.Ran.{UnreadBy, StoppedBy};
ghost use Rattle.stomach.specs.Read.{ReadsTo};
ghost use Rattle.line_reader.specs.Readers.{AreOpen};
ghost use Rattle.plain_tokens.specs.Pending.{bottom};
ghost use Rattle.stomach.specs.declared.early.Early.TheVariants.{Unread};
ghost use Rattle.tex_program.specs.Clauses.{TellsCut, TellsStop, TellsRun, TellsUnheld, MeansFile, TellsWriteFault};
ghost use Rattle.tex_program.specs.Says.{end_status};
ghost use Rattle.tex_program.specs.Named.{Named};
ghost use Rattle.engine_state.specs.First.{Begins};
ghost use Rattle.engine_state.specs.declared.engine.Engine.{Engine};

use crate::tell::{Telling, tell};
use command_words::job_name;
use engine_state::{Broken, Engine};
use line_reader::Readers;
use stomach::{Early, Ended, run_steps};
use tex_syntax::Outcome;
use world_io::{Fault, Files, Sink};

/// A run's status, and whether the transcript's column isn't 0 at its end.
#[derive(Clone, Copy)]
pub struct RunEnd {
    pub status: u8,
    pub in_line: bool,
}

/// Tells of a run that was cut off.
fn tell_broken<S: Sink>(out: &mut S, in_line: bool, broken: Broken) -> RunEnd
    ensures says { TellsCut (S.told out.old) (S.told out.new) in_line broken result }
    ensures no_read { result.status ≡ 5 → ⊥ }
    ensures not_usage { result.status ≡ 9 → ⊥ }
{
    match broken {
        Broken::WriteFault => RunEnd {
            in_line: tell(out, in_line, Telling::WriteFault),
            status: 6,
        },
        Broken::Want => RunEnd {
            in_line: tell(out, in_line, Telling::NoMemory),
            status: 7,
        },
        Broken::Full(full) => RunEnd {
            in_line: tell(out, in_line, Telling::Full(full)),
            status: 3,
        },
    }
}

/// Tells that something of the files was needed and didn't come.
fn tell_unread<S: Sink>(out: &mut S, in_line: bool, fault: Fault) -> RunEnd
    ensures says { TellsStop UnreadBy (Unread fault) (S.told out.old) (S.told out.new) in_line result }
    ensures read_fault { result.status ≡ 5 → fault ≡ Failed }
    ensures not_usage { result.status ≡ 9 → ⊥ }
{
    match fault {
        Fault::Failed => RunEnd {
            in_line: tell(out, in_line, Telling::ReadFault),
            status: 5,
        },
        Fault::NoMemory => RunEnd {
            in_line: tell(out, in_line, Telling::NoMemory),
            status: 7,
        },
    }
}

/// Tells of a run that stopped early.
fn tell_early<S: Sink>(out: &mut S, in_line: bool, early: Early) -> RunEnd
    ensures says { TellsStop (λ sizes s n e left w w'. StoppedBy sizes s n e left w w' early) early (S.told out.old) (S.told out.new) in_line result }
    ensures read_fault { result.status ≡ 5 → early ≡ Unread Failed }
    ensures not_usage { result.status ≡ 9 → ⊥ }
{
    match early {
        Early::Broken(broken) => tell_broken(out, in_line, broken),
        Early::Unread(fault) => tell_unread(out, in_line, fault),
    }
}

/// The status of a run that has ended, by how it ended, whether it had reports, and whether it is to be 1 without one.
fn status_of(outcome: Outcome, reports: u32, flawed: bool) -> u8
    ensures { result ≡ end_status outcome reports flawed }
{
    match outcome {
        Outcome::Finished if reports == 0 && !flawed => 0,
        Outcome::Finished => 1,
        Outcome::AtFatal(_) => 2,
    }
}

/// Runs the job of a file that is open, by an engine that has kept the job's name.
fn run_engine<F: Files, S: Sink>(
    engine: &mut Engine,
    readers: &mut Readers,
    files: &mut F,
    steps: u64,
    out: &mut S,
) -> RunEnd
    requires idle { engine.old.input.making ≡ None }
    requires running { engine.old.stopped ≡ false }
    requires open { AreOpen readers.old.readers (F.told files.old) }
    ensures says { ReadsTo readers.old.readers readers.new.readers (F.told files.old) (F.told files.new) (λ all left. TellsRun readers.old engine.old (F.told files.old) (F.told files.new) (S.told out.old) (S.told out.new) steps result all) }
    ensures open { AreOpen readers.new.readers (F.told files.new) }
    ensures read_fault { result.status ≡ 5 → Rose (F.told files.old).read_faults (F.told files.new).read_faults }
    ensures not_usage { result.status ≡ 9 → ⊥ }
{
    match run_steps(engine, readers, files, out, steps) {
        Ok(Ended::Halted(outcome)) => RunEnd {
            in_line: engine.is_in_line(),
            status: status_of(outcome, engine.reports(), engine.flawed),
        },
        Ok(Ended::Steps) => RunEnd {
            in_line: tell(out, engine.is_in_line(), Telling::Steps(steps)),
            status: 4,
        },
        Err(early) => tell_early(out, engine.is_in_line(), early),
    }
}

/// Ends the job of a file that isn't held, by an engine that has kept the job's name.
fn refuse_engine<S: Sink>(engine: &mut Engine, file: &[u8], out: &mut S) -> RunEnd
    ensures says { TellsUnheld engine.old file.now (S.told out.old) (S.told out.new) result }
    ensures no_read { result.status ≡ 5 → ⊥ }
    ensures not_usage { result.status ≡ 9 → ⊥ }
{
    match engine.refuse_file(out, file) {
        Ok(_) => RunEnd {
            in_line: engine.is_in_line(),
            status: 2,
        },
        Err(broken) => tell_broken(out, engine.is_in_line(), broken),
    }
}

/// Opens the job's file and runs it, by an engine that has kept the job's name.
fn run_named<F: Files, S: Sink>(
    engine: &mut Engine,
    readers: &mut Readers,
    file: &[u8],
    files: &mut F,
    steps: u64,
    out: &mut S,
) -> RunEnd
    requires idle { engine.old.input.making ≡ None }
    requires running { engine.old.stopped ≡ false }
    requires unopened { engine.old.input.pending ≡ bottom }
    requires levels { 0 < engine.old.input.sizes.text_input_levels }
    requires room { engine.old.input.sizes.text_input_levels ≤ readers.old.most }
    requires none { readers.old.readers ≡ [] }
    ensures means { MeansFile (λ sizes quiet. Named sizes engine.old quiet file.now) file.now (F.told files.old) (F.told files.new) (S.told out.old) (S.told out.new) steps result }
    ensures read_fault { result.status ≡ 5 → Rose (F.told files.old).read_faults (F.told files.new).read_faults }
    ensures write_fault { TellsWriteFault (λ sizes quiet. Named sizes engine.old quiet file.now) (S.told out.old) (S.told out.new) result }
    ensures not_usage { result.status ≡ 9 → ⊥ }
{
    match readers.open(files, file) {
        Ok(true) => {
            engine.input.open_file();
            let told = run_engine(engine, readers, files, steps, out);
            readers.close_all(files);
            told
        }
        Ok(false) => refuse_engine(engine, file, out),
        Err(Fault::Failed) => RunEnd {
            in_line: tell(out, false, Telling::ReadFault),
            status: 5,
        },
        Err(Fault::NoMemory) => RunEnd {
            in_line: tell(out, false, Telling::NoMemory),
            status: 7,
        },
    }
}

/// Keeps the job's name, opens its file and runs it, by an engine at its beginning and as many readers as there may be open files.
pub fn run_file<F: Files, S: Sink>(
    engine: &mut Engine,
    readers: &mut Readers,
    file: &[u8],
    files: &mut F,
    steps: u64,
    out: &mut S,
) -> RunEnd
    requires idle { engine.old.input.making ≡ None }
    requires running { engine.old.stopped ≡ false }
    requires unopened { engine.old.input.pending ≡ bottom }
    requires levels { 0 < engine.old.input.sizes.text_input_levels }
    requires room { engine.old.input.sizes.text_input_levels ≤ readers.old.most }
    requires none { readers.old.readers ≡ [] }
    ensures means { MeansFile (λ sizes quiet. Begins sizes engine.old quiet) file.now (F.told files.old) (F.told files.new) (S.told out.old) (S.told out.new) steps result }
    ensures read_fault { result.status ≡ 5 → Rose (F.told files.old).read_faults (F.told files.new).read_faults }
    ensures write_fault { TellsWriteFault (λ sizes quiet. Begins sizes engine.old quiet) (S.told out.old) (S.told out.new) result }
    ensures not_usage { result.status ≡ 9 → ⊥ }
{
    if let Err(broken) = engine.keep_name(job_name(file)) {
        return tell_broken(out, engine.is_in_line(), broken);
    }
    run_named(engine, readers, file, files, steps, out)
}
