// Lines taken from files.
ghost use Rattle.std.specs.Prelude.{◌≡◌, ◌≢◌, ◌≤◌, ℕ, List, [], length, true, Some, IfOk, IfErr, MatchResult, MatchBool};
ghost use Rattle.line_reader.specs.Ahead.{with_ahead};
ghost use Rattle.line_reader.specs.OpenLines.{most_readers, HoldsNoOther};
ghost use Rattle.line_reader.specs.Reading.{rest_of, TakesLine, FindsEnd, IsRefused, TakesFirst, HasNone, KeepsRest, LooksAhead, FailsToLook};

use crate::Buffer;
use tex_defs::Stop;
use world_io::{Fault, Files, InId};

/// Takes the next line of a file: it becomes the innermost line of the buffer. False exactly at the end of the file.
///
/// A line feed ends a line, and one carriage return before it goes; a last line counts where it isn't empty.
/// Trailing characters 32 are cut. At most text input levels + 16 files, this one among them, are begun and not
/// forgotten. *The TeXbook*, chapter 8.
///
/// # Errors
/// Buffer size, exactly where the open lines, the bytes read of this line before its spaces are cut, and 1 pass it;
/// `ReadFault` and `NoMemory` where a call on the files answered it. What is left of the file is then as before.
pub fn next_line<F: Files>(files: &mut F, id: InId, buffer: &mut Buffer) -> Result<bool, Stop>
    requires open { (F.told files.old).reading id.number ≡ true }
    requires readers { length (with_ahead id.number [] buffer.old.ahead) ≤ most_readers buffer.old }
    requires other { HoldsNoOther buffer.old id.number }
    ensures answer { MatchResult result (λ more. MatchBool more (TakesLine id.number (F.told files.old) buffer.old (F.told files.new) buffer.new) (FindsEnd id.number (F.told files.old) buffer.old (F.told files.new) buffer.new)) (λ stop. IsRefused id.number stop (F.told files.old) buffer.old (F.told files.new) buffer.new) }
    ensures told { (rest : List ℕ) → rest_of id.number (F.told files.old) buffer.old ≡ Some rest → MatchResult result (λ more. MatchBool more (TakesFirst id.number rest buffer.old (F.told files.new) buffer.new) (HasNone id.number rest buffer.old (F.told files.new) buffer.new)) (λ stop. KeepsRest id.number rest stop buffer.old (F.told files.new) buffer.new) }
    ensures faults { (F.told files.old).read_faults ≤ (F.told files.new).read_faults }
    ensures wants { (F.told files.old).wants ≤ (F.told files.new).wants }
    ensures writes { (F.told files.new).write_faults ≡ (F.told files.old).write_faults }
{
    buffer.begin_part(id.number);
    loop {
        let ends = match buffer.gather(id.number) {
            Ok(ends) => ends,
            Err(full) => return Err(Stop::Full(full)),
        };
        if ends {
            buffer.end_line();
            return Ok(true);
        }
        let more = match buffer.read_on(files, id.number) {
            Ok(more) => more,
            Err(Fault::Failed) => return Err(Stop::ReadFault),
            Err(Fault::NoMemory) => return Err(Stop::NoMemory),
        };
        if !more {
            return match buffer.end_file() {
                Ok(line) => Ok(line),
                Err(full) => Err(Stop::Full(full)),
            };
        }
    }
}

/// Whether no line is left of a file. What is left of it stays as it is. Its condition is that of [`next_line`], but
/// that the buffer may hold something else behind its lines.
///
/// # Errors
/// `ReadFault` and `NoMemory` where a call on the files answered it.
pub fn at_end<F: Files>(files: &mut F, id: InId, buffer: &mut Buffer) -> Result<bool, Stop>
    requires open { (F.told files.old).reading id.number ≡ true }
    requires readers { length (with_ahead id.number [] buffer.old.ahead) ≤ most_readers buffer.old }
    ensures answer { IfOk result (λ none. LooksAhead id.number none (F.told files.old) buffer.old (F.told files.new) buffer.new) }
    ensures told { IfOk result (λ none. (rest : List ℕ) → rest_of id.number (F.told files.old) buffer.old ≡ Some rest → MatchBool none (rest ≡ []) (rest ≢ [])) }
    ensures left { (rest : List ℕ) → rest_of id.number (F.told files.old) buffer.old ≡ Some rest → rest_of id.number (F.told files.new) buffer.new ≡ Some rest }
    ensures err { IfErr result (λ stop. FailsToLook id.number stop (F.told files.old) buffer.old (F.told files.new) buffer.new) }
    ensures faults { (F.told files.old).read_faults ≤ (F.told files.new).read_faults }
    ensures wants { (F.told files.old).wants ≤ (F.told files.new).wants }
    ensures writes { (F.told files.new).write_faults ≡ (F.told files.old).write_faults }
{
    buffer.begin_reader(id.number);
    if buffer.holds(id.number) {
        return Ok(false);
    }
    match buffer.read_on(files, id.number) {
        Ok(more) => Ok(!more),
        Err(Fault::Failed) => Err(Stop::ReadFault),
        Err(Fault::NoMemory) => Err(Stop::NoMemory),
    }
}
