// What the contracts leave open: that calls succeed, and what real files do.
use crate::signals::Signals;
use std::alloc::Global;
use std::io::Print;
use std::{fs, rt};
use world_io::{
    Fault, Files, MemFiles, MemSink, RealFiles, RealSink, Sink, Unfinished, read_file, write_all,
    write_file,
};

#[tactic(auto, using(world_io::proofs::Reading::still_writing))]
/// Writes a file in two pieces.
fn write_in_two<F: Files>(files: &mut F, name: &[u8]) -> Result<(), Fault> {
    let id = files.open_out(name)?;
    let first = write_file(files, id, b"abc");
    let second = write_file(files, id, b"def");
    files.close_out(id);
    match first.and(second) {
        Ok(()) => Ok(()),
        Err(unfinished) => Err(unfinished.fault),
    }
}

#[tactic(auto, using(world_io::proofs::Reading::still_open))]
/// Whether a file has the bytes `abcdef`, read in three pieces of two bytes, and a fourth time at its end.
fn reads_in_three<F: Files>(files: &mut F, name: &[u8]) -> Result<bool, Fault> {
    let Some(id) = files.open_in(name)? else {
        return Ok(false);
    };
    let mut first = [0; 2];
    let mut second = [0; 2];
    let mut third = [0; 2];
    let mut rest = [0; 2];
    let mut count = files.read(id, &mut first)? == 2;
    count &= files.read(id, &mut second)? == 2;
    count &= files.read(id, &mut third)? == 2;
    count &= files.read(id, &mut rest)? == 0;
    files.close_in(id);
    Ok(count && first == *b"ab" && second == *b"cd" && third == *b"ef")
}

/// Whether there is no file of this name.
fn is_absent<F: Files>(files: &mut F, name: &[u8]) -> bool {
    matches!(files.open_in(name), Ok(None))
}

/// Whether a file that is written in two pieces is read in three.
fn is_written_and_read<F: Files>(files: &mut F, name: &[u8]) -> bool {
    write_in_two(files, name).is_ok() && matches!(reads_in_three(files, name), Ok(true))
}

/// Whether a file can't be written.
fn is_refused<F: Files>(files: &mut F, name: &[u8]) -> bool {
    matches!(write_in_two(files, name), Err(Fault::Failed))
}

/// Whether the removed file is absent, and one whose name is no text is absent and can't be written.
fn are_missing<F: Files>(files: &mut F) -> bool {
    is_absent(files, b"two_pieces.txt") && is_absent(files, b"\xff") && is_refused(files, b"\xff")
}

/// Whether no bytes are written.
fn writes_nothing<S: Sink>(sink: &mut S) -> bool {
    matches!(sink.write(b""), Ok(0))
}

/// Whether a real file is written, read and removed, and nothing is printed.
fn are_real<R: rt::Files + AllocGlobal + Print>(rt: &R) -> bool {
    let mut files = RealFiles::new(rt);
    is_written_and_read(&mut files, b"two_pieces.txt")
        && fs::remove_file(rt, "two_pieces.txt").is_ok()
        && are_missing(&mut files)
        && writes_nothing(&mut RealSink::new(rt))
}

#[test]
fn real_files_are_written_and_read(rt: HostRuntime) {
    assert!(rt; are_real(&rt));
}

/// Whether a real file is written and read, and a byte printed, where every second call is interrupted.
fn are_tried_again<R: rt::Files + AllocGlobal>(rt: &R) -> bool {
    let signals = Signals::new(rt);
    is_written_and_read(&mut RealFiles::new(&signals), b"signals.txt")
        && fs::remove_file(rt, "signals.txt").is_ok()
        && write_all(&mut RealSink::new(&signals), b"a").is_ok()
}

#[test]
fn interrupted_calls_are_tried_again(rt: HostRuntime) {
    assert!(rt; are_tried_again(&rt));
}

/// Whether a file is written beside another and read again, in nine calls.
fn stands_beside(files: &mut MemFiles) -> bool {
    is_absent(files, b"a")
        && is_written_and_read(files, b"a")
        && files.bytes(b"a.tex").unwrap_or(b"") == b"xy".as_slice()
        && files.calls() == 9
}

/// Whether the first of two pieces is refused, and the second one written.
fn is_half_written(files: &mut MemFiles) -> bool {
    is_refused(files, b"a") && files.bytes(b"a").unwrap_or(b"") == b"def".as_slice()
}

/// Whether a file has these bytes, read whole.
fn is_read_whole(alloc: Global, files: &mut MemFiles, name: &[u8], wanted: &[u8]) -> bool {
    match read_file(alloc, files, name) {
        Ok(Some(bytes)) => bytes.as_slice() == wanted,
        _ => false,
    }
}

/// Whether a file is written beside another, written again but for its first piece, and read whole.
fn are_kept(alloc: Global, files: &mut MemFiles) -> bool {
    let beside = files.add(b"a.tex", b"xy").is_ok() && stands_beside(files);
    let half = files.fail_at(11).is_ok() && is_half_written(files);
    files.limit_reads(2);
    beside && half && is_read_whole(alloc, files, b"a", b"def")
}

#[test]
fn files_in_memory_are_written_and_read(rt: HostRuntime) {
    let mut files = MemFiles::new(rt.alloc());
    assert!(rt; are_kept(rt.alloc(), &mut files));
}

/// Whether the second of three writes is refused.
fn is_written_but_once(sink: &mut MemSink) -> bool {
    let fault = Fault::Failed;
    write_all(sink, b"ab").is_ok()
        && write_all(sink, b"cd") == Err(Unfinished { fault, written: 0 })
        && write_all(sink, b"e").is_ok()
        && sink.bytes() == b"abe".as_slice()
        && sink.calls() == 3
}

#[test]
fn a_sink_in_memory_is_written(rt: HostRuntime) {
    let mut sink = MemSink::new(rt.alloc());
    assert!(rt; sink.fail_at(2).is_ok() && is_written_but_once(&mut sink));
}
