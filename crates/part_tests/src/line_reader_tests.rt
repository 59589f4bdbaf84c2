ghost use Rattle.std.specs.Prelude.{◌≡◌, ◌≢◌, ◌≤◌, ◌<◌, [], length, true};
ghost use Rattle.std.specs.Borrow.{MutBor};
ghost use Rattle.world_io.specs.Memory.{files_told};
ghost use Rattle.line_reader.specs.Ahead.{with_ahead};
ghost use Rattle.line_reader.specs.OpenLines.{most_readers};
ghost use Rattle.line_reader.specs.Readers.{AreOpen};

use line_reader::{Buffer, Edit, Reader, Readers, at_end, next_line};
use std::alloc::Global;
use tex_defs::{Full, Sizes, Stop, Table};
use world_io::{Files, InId, MemFiles};

/// Whether a check holds of a file with these bytes, which is open, and of a buffer of these sizes, which has none of
/// them. Each read gives at most so many bytes.
#[tactic(auto, using(crate::proofs::Opened::still_open, crate::proofs::Opened::one_reader))]
fn holds<F: FnOnce(&mut MemFiles, InId, &mut Buffer) -> bool>(
    alloc: Global,
    bytes: &[u8],
    most: usize,
    sizes: &Sizes,
    check: F,
) -> bool
    requires most { 0 < most }
    requires callable { (files : MutBor _) (id : _) (buffer : MutBor _) → (files_told files.now).reading id.number ≡ true → length (with_ahead id.number [] buffer.now.ahead) ≤ most_readers buffer.now → buffer.now.tail ≡ [] → F.pre check files id buffer }
{
    let Ok(mut buffer) = Buffer::new(alloc, sizes) else {
        return false;
    };
    let mut files = MemFiles::new(alloc);
    let added = files.add(b"a", bytes).is_ok();
    files.limit_reads(most);
    match files.open_in(b"a") {
        Ok(Some(id)) if added => check(&mut files, id, &mut buffer),
        _ => false,
    }
}

/// Whether the first call on a file with these bytes answers this, where the buffer has 80.
fn answers(alloc: Global, bytes: &[u8], wanted: Result<bool, Stop>) -> bool {
    let sizes = Sizes {
        buffer_size: 80,
        ..Sizes::DEFAULT
    };
    holds(
        alloc,
        bytes,
        usize::MAX,
        &sizes,
        |files, id, buffer|
            requires open { (files_told files.old).reading id.number ≡ true }
            requires readers { length (with_ahead id.number [] buffer.old.ahead) ≤ most_readers buffer.old }
            requires none { buffer.old.tail ≡ [] }
        { next_line(files, id, buffer) == wanted },
    )
}

#[test]
fn lines_fill_the_buffer(rt: HostRuntime) {
    let full = Full {
        table: Table::BufferSize,
        used: 0,
        size: 80,
    };
    let refused = Err(Stop::Full(full));
    let alloc = rt.alloc();
    let mut bytes = [b'x'; 82];
    let letters = answers(alloc, &bytes[..80], refused);
    bytes[79] = b'\r';
    let returned = answers(alloc, &bytes[..80], refused);
    bytes[80] = b'\n';
    let ended = answers(alloc, &bytes[..81], Ok(true));
    bytes[79] = b' ';
    let blank = answers(alloc, &bytes[..80], refused);
    let none = answers(alloc, &bytes[..0], Ok(false));
    assert!(rt; [letters, returned, ended, blank, none] == [true; 5]);
}

/// Takes a line, tells whether it is this one, and drops it.
fn takes(files: &mut MemFiles, id: InId, buffer: &mut Buffer, line: &[u8]) -> bool
    requires open { (files_told files.old).reading id.number ≡ true }
    requires readers { length (with_ahead id.number [] buffer.old.ahead) ≤ most_readers buffer.old }
    requires none { buffer.old.tail ≡ [] }
    ensures open { result ≡ true → (files_told files.new).reading id.number ≡ true }
    ensures readers { result ≡ true → length (with_ahead id.number [] buffer.new.ahead) ≤ most_readers buffer.new }
    ensures none { result ≡ true → buffer.new.tail ≡ [] }
{
    let Ok(true) = next_line(files, id, buffer) else {
        return false;
    };
    let same = buffer.line() == line;
    buffer.drop_line();
    same
}

/// Whether the lines come, and then the end of the file, which is forgotten.
fn come_in_turn(files: &mut MemFiles, id: InId, buffer: &mut Buffer) -> bool
    requires open { (files_told files.old).reading id.number ≡ true }
    requires readers { length (with_ahead id.number [] buffer.old.ahead) ≤ most_readers buffer.old }
    requires none { buffer.old.tail ≡ [] }
{
    let come = takes(files, id, buffer, b"x")
        && takes(files, id, buffer, b"")
        && takes(files, id, buffer, b"\ry\rz")
        && at_end(files, id, buffer) == Ok(true);
    buffer.forget(id);
    come
}

#[test]
fn lines_come_in_turn(rt: HostRuntime) {
    let bytes = b"x  \r\n\n\ry\rz";
    assert!(rt; holds(rt.alloc(), bytes, 1, &Sizes::DEFAULT, come_in_turn));
}

/// Whether `xy` comes to the front of a window of other bytes, and then the end.
fn comes_by_pieces(files: &mut MemFiles, id: InId, _: &mut Buffer) -> bool
    requires { (files_told files.old).reading id.number ≡ true }
{
    let mut reader = Reader::new(id);
    let mut window = [b'z'; 256];
    reader.read(files, &mut window) == Ok(2)
        && !reader.is_ended()
        && window.starts_with(b"xyz")
        && reader.read(files, &mut window) == Ok(0)
        && reader.is_ended()
}

#[test]
fn bytes_come_by_pieces(rt: HostRuntime) {
    let come = holds(
        rt.alloc(),
        b"xy",
        usize::MAX,
        &Sizes::DEFAULT,
        comes_by_pieces,
    );
    assert!(rt; come);
}

/// Whether a name of one byte is spelt and dropped, and an empty line is opened.
fn is_spelt(_: &mut MemFiles, _: InId, buffer: &mut Buffer) -> bool
    requires { buffer.old.tail ≡ [] }
{
    if buffer.spell(b'a').is_err() || buffer.spelt() != b"a".as_slice() {
        return false;
    }
    buffer.drop_spelt();
    buffer.empty_line().is_ok() && buffer.used() == 1
}

#[test]
fn names_are_spelt(rt: HostRuntime) {
    assert!(rt; holds(rt.alloc(), b"", usize::MAX, &Sizes::DEFAULT, is_spelt));
}

/// Writes the last byte of a line over the first.
#[derive(Drop)]
struct Turn;

impl Edit for Turn {
    ghost use Rattle.std.specs.Prelude.{◌≡◌, ⊤, length};

    ghost edits = { λ before line after changed. ⊤ };

    fn edit(&mut self, line: &mut [u8])
        ensures len { length line.new ≡ length line.old }
    {
        let n = line.len();
        if n > 0 {
            line[0] = line[n - 1];
        }
    }
}

/// Sets the first byte of the innermost line.
fn sets_first(buffer: &mut Buffer, byte: u8) -> bool
    requires { buffer.old.lines ≢ [] }
{
    if buffer.line().is_empty() {
        return false;
    }
    buffer.set_byte(0, byte);
    buffer.line()[0] == byte
}

/// Takes the line `xy`, and tells whether it is changed as it is edited, and then at its first byte.
fn changes(files: &mut MemFiles, id: InId, buffer: &mut Buffer) -> bool
    requires open { (files_told files.old).reading id.number ≡ true }
    requires readers { length (with_ahead id.number [] buffer.old.ahead) ≤ most_readers buffer.old }
    requires none { buffer.old.tail ≡ [] }
{
    let Ok(true) = next_line(files, id, buffer) else {
        return false;
    };
    buffer.edit_line(&mut Turn);
    buffer.line() == b"yy".as_slice() && sets_first(buffer, b'w')
}

#[test]
fn a_line_is_changed(rt: HostRuntime) {
    assert!(rt; holds(rt.alloc(), b"xy", usize::MAX, &Sizes::DEFAULT, changes));
}

/// Whether the next byte of the innermost file is this one.
fn gives(readers: &mut Readers, files: &mut MemFiles, byte: u8) -> bool
    requires some { readers.old.readers ≢ [] }
    requires open { AreOpen readers.old.readers (files_told files.old) }
    ensures most { readers.new.most ≡ readers.old.most }
    ensures count { length readers.new.readers ≡ length readers.old.readers }
    ensures open { AreOpen readers.new.readers (files_told files.new) }
{
    let mut window = [b'z'; 256];
    readers.read(files, &mut window) == Ok(1) && window[0] == byte
}

/// Whether `b`, which holds `z`, is read beneath another file, and then closed.
fn comes_beneath(readers: &mut Readers, files: &mut MemFiles) -> bool
    requires room { length readers.old.readers < readers.old.most }
    requires open { AreOpen readers.old.readers (files_told files.old) }
    ensures count { result ≡ true → length readers.new.readers ≡ length readers.old.readers }
    ensures open { AreOpen readers.new.readers (files_told files.new) }
{
    let Ok(true) = readers.open(files, b"b") else {
        return false;
    };
    let come = gives(readers, files, b'z') && !readers.is_ended() && readers.count() == 2;
    readers.close(files);
    come
}

/// Whether `a`, which holds `xy`, is read to its end, with `b` beneath its first byte.
fn come_innermost_first(readers: &mut Readers, files: &mut MemFiles) -> bool
    requires none { readers.old.readers ≡ [] }
    requires room { 1 < readers.old.most }
    ensures { AreOpen readers.new.readers (files_told files.new) }
{
    let mut window = [b'z'; 256];
    let Ok(true) = readers.open(files, b"a") else {
        return false;
    };
    gives(readers, files, b'x')
        && comes_beneath(readers, files)
        && gives(readers, files, b'y')
        && readers.read(files, &mut window) == Ok(0)
        && readers.is_ended()
}

/// Whether files in memory come innermost first; a name that isn't held gives none, and all are closed.
fn are_read(alloc: Global) -> bool {
    let Ok(mut readers) = Readers::new(alloc, 2) else {
        return false;
    };
    let mut files = MemFiles::new(alloc);
    let added = files.add(b"a", b"xy").is_ok() && files.add(b"b", b"z").is_ok();
    files.limit_reads(1);
    let Ok(false) = readers.open(&mut files, b"c") else {
        return false;
    };
    let come = come_innermost_first(&mut readers, &mut files);
    readers.close_all(&mut files);
    added && come && readers.count() == 0
}

#[test]
fn files_come_innermost_first(rt: HostRuntime) {
    assert!(rt; are_read(rt.alloc()));
}
