// Texts written whole, and files read whole.
ghost use Rattle.std.specs.Prelude.{◌≡◌, ◌≤◌, ◌<◌, ℕ, List, true, take, length, IfOk, IfErr, IfNone, IfSome, IsSome, OnOk, OnErr, Some};
ghost use Rattle.tex_defs.specs.Places.{grown, Rose};
ghost use Rattle.world_io.specs.Contents.{SinkTold, FilesTold, SameFiles, Grew, NotFound, IsContent, IsAll, OnlyReads};

use crate::{Fault, Files, InId, OutId, Sink};
use std::alloc::Global;

/// A text was not written whole: the fault, and how many bytes were written before it.
#[derive(Clone, Copy, Debug, PartialEq, Eq)]
pub struct Unfinished {
    pub fault: Fault,
    pub written: usize,
}

#[tactic(auto, using(crate::proofs::Fronts::grown_twice, crate::proofs::Fronts::grown_none))]
/// Writes all the bytes.
///
/// # Errors
/// A write failed or wanted memory: the first `written` of the bytes, and no others, were written.
pub fn write_all<S: Sink>(out: &mut S, bytes: &[u8]) -> Result<(), Unfinished>
    ensures written { OnOk result ((S.told out.new).bytes ≡ grown (S.told out.old).bytes bytes.now) }
    ensures front { IfErr result (λ e. (S.told out.new).bytes ≡ grown (S.told out.old).bytes (take e.written bytes.now)) }
    ensures short { IfErr result (λ e. e.written < length bytes.now) }
    ensures failed { IfErr result (λ e. e.fault ≡ Fault.Failed → Rose (S.told out.old).faults (S.told out.new).faults) }
    ensures wanted { IfErr result (λ e. e.fault ≡ Fault.NoMemory → Rose (S.told out.old).wants (S.told out.new).wants) }
    ensures later { (S.told out.old).faults ≤ (S.told out.new).faults }
    ensures later_wants { (S.told out.old).wants ≤ (S.told out.new).wants }
{
    let mut at = 0;
    while at < bytes.len() {
        match out.write(&bytes[at..]) {
            Ok(n) => at += n,
            Err(fault) => return Err(Unfinished { fault, written: at }),
        }
    }
    Ok(())
}

/// Writes all the bytes to an open file.
///
/// # Errors
/// A write failed or wanted memory: the first `written` of the bytes, and no others, were written.
pub fn write_file<F: Files>(files: &mut F, id: OutId, bytes: &[u8]) -> Result<(), Unfinished>
    requires { IsSome ((F.told files.old).writer id.number) }
    ensures written { OnOk result ((name : List ℕ) → (F.told files.old).writer id.number ≡ Some name → Grew name bytes.now (F.told files.old) (F.told files.new)) }
    ensures front { IfErr result (λ e. (name : List ℕ) → (F.told files.old).writer id.number ≡ Some name → Grew name (take e.written bytes.now) (F.told files.old) (F.told files.new)) }
    ensures short { IfErr result (λ e. e.written < length bytes.now) }
    ensures open { (F.told files.new).writer id.number ≡ (F.told files.old).writer id.number }
    ensures failed { IfErr result (λ e. e.fault ≡ Fault.Failed → Rose (F.told files.old).write_faults (F.told files.new).write_faults) }
    ensures wanted { IfErr result (λ e. e.fault ≡ Fault.NoMemory → Rose (F.told files.old).wants (F.told files.new).wants) }
    ensures reads { (F.told files.new).read_faults ≡ (F.told files.old).read_faults }
    ensures later { (F.told files.old).write_faults ≤ (F.told files.new).write_faults }
    ensures later_wants { (F.told files.old).wants ≤ (F.told files.new).wants }
{
    let mut at = 0;
    while at < bytes.len() {
        match files.write(id, &bytes[at..]) {
            Ok(n) => at += n,
            Err(fault) => return Err(Unfinished { fault, written: at }),
        }
    }
    Ok(())
}

/// The most bytes that a file read whole may have.
const MOST: usize = 4294967296;

/// Reads what an open reader has left.
fn read_rest<F: Files>(alloc: Global, files: &mut F, id: InId) -> Result<Vec<u8>, Fault>
    requires { (F.told files.old).reading id.number ≡ true }
    ensures all { IfOk result (λ v. IsAll ((F.told files.old).rest id.number) v.items) }
    ensures only { OnlyReads id.number (F.told files.old) (F.told files.new) }
    ensures failed { IfErr result (λ e. e ≡ Fault.Failed → Rose (F.told files.old).read_faults (F.told files.new).read_faults) }
    ensures writes { (F.told files.new).write_faults ≡ (F.told files.old).write_faults }
    ensures later { (F.told files.old).read_faults ≤ (F.told files.new).read_faults }
    ensures later_wants { (F.told files.old).wants ≤ (F.told files.new).wants }
{
    let mut bytes = Vec::new(alloc);
    let mut piece = [0; 512];
    loop {
        let n = match files.read(id, &mut piece) {
            Ok(n) => n,
            Err(fault) => return Err(fault),
        };
        if n == 0 {
            return Ok(bytes);
        }
        if bytes.len() >= MOST || bytes.extend_from_slice(&piece[..n]).is_err() {
            return Err(Fault::NoMemory);
        }
    }
}

/// Reads a file whole: its bytes, or `None` where there is no file of this name. Its reader is closed afterwards.
///
/// # Errors
/// `Failed` where a call on the files failed. `NoMemory` where such a call wanted memory, where this call itself
/// finds none for the bytes, and where the file goes on behind its first 2^32 bytes (one that never ends, say).
pub fn read_file<F: Files>(
    alloc: Global,
    files: &mut F,
    name: &[u8],
) -> Result<Option<Vec<u8>>, Fault>
    ensures missing { IfOk result (λ r. IfNone r (NotFound ((F.told files.old).file name.now))) }
    ensures content { IfOk result (λ r. IfSome r (λ v. IsContent ((F.told files.old).file name.now) v.items)) }
    ensures same { SameFiles (F.told files.old) (F.told files.new) }
    ensures failed { IfErr result (λ e. e ≡ Fault.Failed → Rose (F.told files.old).read_faults (F.told files.new).read_faults) }
    ensures writes { (F.told files.new).write_faults ≡ (F.told files.old).write_faults }
    ensures later { (F.told files.old).read_faults ≤ (F.told files.new).read_faults }
    ensures later_wants { (F.told files.old).wants ≤ (F.told files.new).wants }
{
    let Some(id) = files.open_in(name)? else {
        return Ok(None);
    };
    let bytes = read_rest(alloc, files, id);
    files.close_in(id);
    match bytes {
        Ok(bytes) => Ok(Some(bytes)),
        Err(fault) => Err(fault),
    }
}
