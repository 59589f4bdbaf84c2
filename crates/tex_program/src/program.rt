// The program, over any files and sink.
ghost use Rattle.std.specs.Prelude.{◌≡◌, Bool, true, false, map, None};
ghost use Rattle.std.specs.String.{string_bytes};
ghost use Rattle.tex_defs.specs.Places.{Rose};
ghost use Rattle.tex_defs.specs.declared.Table.TheVariants.{MainMemorySize};
ghost use Rattle.tex_defs.specs.Sizes.{is_in_range, first_out_of_range, default_sizes};
ghost use Rattle.command_words.specs.Words.{command_of, NoCommand, spelt};
ghost use Rattle.plain_machine.specs.Meaning.{Means};
ghost use Rattle.world_io.specs.Contents.{world};

use crate::run::run_file;
use crate::tell::{Telling, tell};
use command_words::{Job, Unread, read_words};
use engine_state::Engine;
use line_reader::Readers;
use std::alloc::Global;
use tex_defs::Sizes;
use world_io::{Files, Sink};

/// The sizes of a job's tables.
fn sizes(job: &Job) -> Sizes
    requires { is_in_range MainMemorySize job.now.main_memory_size ≡ true }
    ensures sizes { result ≡ record default_sizes { main_memory_size = job.now.main_memory_size } }
    ensures in_range { first_out_of_range result ≡ None }
{
    Sizes {
        main_memory_size: job.main_memory_size,
        ..Sizes::DEFAULT
    }
}

/// Runs the job of a file: the readers and the engine are made before the file is opened.
fn run_job<F: Files, S: Sink>(alloc: Global, job: &Job, files: &mut F, out: &mut S) -> u8
    requires { is_in_range MainMemorySize job.now.main_memory_size ≡ true }
    ensures meaning { (b : Bool) × Means (spelt job.now) (F.told files.old).file (world (F.told files.old) (S.told out.old) false) (world (F.told files.new) (S.told out.new) b) result }
    ensures read_fault { result ≡ 5 → Rose (F.told files.old).read_faults (F.told files.new).read_faults }
    ensures write_fault { result ≡ 6 → Rose (S.told out.old).faults (S.told out.new).faults }
    ensures not_usage { result ≡ 9 → ⊥ }
{
    let sizes = sizes(job);
    let mut readers = match Readers::new(alloc, sizes.text_input_levels) {
        Ok(readers) => readers,
        Err(_) => {
            tell(out, false, Telling::NoMemory);
            return 7;
        }
    };
    let mut engine = match Engine::new(alloc, &sizes, job.quiet) {
        Ok(engine) => engine,
        Err(_) => {
            tell(out, false, Telling::NoMemory);
            return 7;
        }
    };
    let told = run_file(
        &mut engine,
        &mut readers,
        job.file.as_slice(),
        files,
        job.steps,
        out,
    );
    engine.close();
    told.status
}

/// The program: does what its words say, over these files and this sink, and answers its exit status.
///
/// The first word is the program's name. The only command today is `init FILE`, which runs the job of a file
/// from INITEX's first state in nonstop mode, within tables of the default sizes (`--mem N` sets that of the main
/// memory, in words).
///
/// | Status | Comes |
/// |---|---|
/// | 0, 1 | where the run has ended, without and with a report or `\\show` |
/// | 2 | where the run is at something fatal |
/// | 3 | where a table has no room for the machine's next move |
/// | 4 | where the steps were taken and the machine needs one more |
/// | 5, 6 | where a read, a write failed |
/// | 7 | where memory was wanted |
/// | 9 | where the words are no command |
pub fn top<F: Files, S: Sink>(alloc: Global, words: &[String], files: &mut F, out: &mut S) -> u8
    // What is written to the transcript and to each file, and the status, are the plain machine's. Only the statuses
    // 0 to 7 and 9 come.
    ensures meaning { (b : Bool) × Means (command_of (map string_bytes words.now)) (F.told files.old).file (world (F.told files.old) (S.told out.old) false) (world (F.told files.new) (S.told out.new) b) result }
    ensures usage { result ≡ 9 → command_of (map string_bytes words.now) ≡ NoCommand }
    ensures read_fault { result ≡ 5 → Rose (F.told files.old).read_faults (F.told files.new).read_faults }
    ensures write_fault { result ≡ 6 → Rose (S.told out.old).faults (S.told out.new).faults }
{
    match read_words(alloc, words) {
        Ok(job) => run_job(alloc, &job, files, out),
        Err(Unread::Usage) => {
            tell(out, false, Telling::Usage);
            9
        }
        Err(Unread::NoMemory) => {
            tell(out, false, Telling::NoMemory);
            7
        }
    }
}
