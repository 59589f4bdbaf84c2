// Calls on the system, each made again where a signal interrupted it, as std does. None is interrupted as often as the
// loops have turns: behind their end the call has failed.
ghost use Rattle.std.specs.Prelude.{◌≤◌, ◌<◌, length, IfOk};

use crate::Fault;
use crate::counts::fault_of;
use std::fs::OpenOptions;
use std::io::{self, ErrorKind, Read, Write};
use std::rt;

/// Opens a file.
pub(crate) fn open_again<R: rt::Files>(
    rt: &R,
    how: &OpenOptions,
    path: &str,
) -> io::Result<R::File> {
    for _ in 0..u64::MAX {
        match how.open(rt, path) {
            Err(error) if error.kind() == ErrorKind::Interrupted => {}
            answer => return answer,
        }
    }
    Err(ErrorKind::Interrupted.into())
}

/// Reads the next bytes of a file.
pub(crate) fn read_again<R: Read>(file: &mut R, piece: &mut [u8]) -> Result<usize, Fault>
    ensures count { IfOk result (λ n. n ≤ length piece.old) }
{
    for _ in 0..u64::MAX {
        match file.read(piece) {
            Ok(n) => return Ok(n),
            Err(error) if error.kind() == ErrorKind::Interrupted => {}
            Err(error) => return Err(fault_of(&error)),
        }
    }
    Err(Fault::Failed)
}

/// Writes the first bytes of the piece. `Failed` also where the system takes nothing of one that isn't empty.
pub(crate) fn write_again<W: Write>(out: &mut W, piece: &[u8]) -> Result<usize, Fault>
    ensures count { IfOk result (λ n. n ≤ length piece.now) }
    ensures some { IfOk result (λ n. 0 < length piece.now → 0 < n) }
{
    for _ in 0..u64::MAX {
        match out.write(piece) {
            Ok(n) if n > 0 || piece.is_empty() => return Ok(n),
            Ok(_) => return Err(Fault::Failed),
            Err(error) if error.kind() == ErrorKind::Interrupted => {}
            Err(error) => return Err(fault_of(&error)),
        }
    }
    Err(Fault::Failed)
}
