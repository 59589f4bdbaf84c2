// The buffer: the open lines, what stands behind them, and the windows of the readers.
ghost use Rattle.std.specs.Prelude.{◌≡◌, ◌≢◌, ◌≤◌, ◌<◌, ◌+◌, ◌-◌, ℕ, List, [], ◌∷◌, ◌++◌, length, true, false, None, Some, IfOk, OnErr, MatchResult, MatchBool, is_ok, if◌then◌else◌, take, slice_set};
ghost use Rattle.plain_tokens.specs.Lines.{has_feed, before_feed, behind_feed, without_last, trimmed};
ghost use Rattle.world_io.specs.Contents.{HasCause, SameFiles, IsAtEnd};
ghost use Rattle.line_reader.specs.Ahead.{ahead_of, with_ahead, is_begun};
ghost use Rattle.line_reader.specs.OpenLines.{no_lines, used, most_readers, part, held, spelt_name, HoldsNoOther, HoldsNoPart, line_opened, part_read, innermost, line_dropped, line_changed, reader_forgotten, part_dropped, byte_spelt, name_dropped, refusal};
ghost use Rattle.line_reader.specs.Reading.{CameIn};

use crate::Edit;
use crate::ends::{line_len, measure, trimmed_len};
use crate::window::Window;
use crate::windows::{begin, find, forget};
use std::alloc::{AllocError, Global};
use std::marker::Model;
use tex_defs::{Full, Sizes, Table};
use world_io::{Fault, Files, InId};

/// How many readers may be begun beside those of the text input levels: the input streams.
const STREAMS: usize = 16;

/// The one buffer of all lines that are being read, with a window for each reader.
///
/// It holds the open lines, each as it was taken, and behind them at most one thing more: a name that is being
/// spelt, or the part of a line that a refused call has read. *TeX: The Program*, part 3.
#[derive(Drop)]
pub struct Buffer {
    bytes: Vec<u8>,
    /// Where each open line begins, the outermost first.
    starts: Vec<u32>,
    /// Where the innermost line ends.
    behind: usize,
    /// The reader of whose line what stands behind the open lines is a part.
    part_of: Option<u32>,
    windows: Vec<Window>,
    buffer_size: u32,
    text_input_levels: u32,
}

// Clauses see the list of the open lines, innermost first, what stands behind them, and the bytes read ahead of
// each reader.
impl Model for Buffer {
    ghost use Rattle.std.specs.Prelude.{vec_capacity};
    ghost use Rattle.line_reader.specs.OpenLines.{OpenLines};
    ghost use Rattle.line_reader.specs.Cuts.{lines_of, IsSound};

    ghost Value = { OpenLines };

    ghost view = { λ b. lines_of b.bytes.items b.starts.items b.behind b.part_of b.windows.items b.buffer_size b.text_input_levels };

    ghost invariant = { λ b. IsSound b.bytes.items b.starts.items b.behind b.part_of b.windows.items b.buffer_size b.text_input_levels (vec_capacity b.bytes) (vec_capacity b.starts) (vec_capacity b.windows) };
}

impl Buffer {
    /// A buffer without lines: room for `buffer_size` bytes, and windows of 256 bytes for `text_input_levels` + 16
    /// readers, which no table counts.
    ///
    /// # Errors
    /// Want of memory.
    pub fn new(alloc: Global, sizes: &Sizes) -> Result<Buffer, AllocError>
        ensures { IfOk result (λ buffer. buffer ≡ no_lines sizes.now.buffer_size sizes.now.text_input_levels) }
    {
        let bytes = Vec::with_capacity(alloc, sizes.buffer_size as usize)?;
        let starts = Vec::with_capacity(alloc, sizes.buffer_size as usize)?;
        let windows = Vec::with_capacity(alloc, sizes.text_input_levels as usize + STREAMS)?;
        Ok(Buffer {
            bytes,
            starts,
            behind: 0,
            part_of: None,
            windows,
            buffer_size: sizes.buffer_size,
            text_input_levels: sizes.text_input_levels,
        })
    }

    /// The buffer size that is used: for each open line its bytes and 1.
    pub fn used(&self) -> u32
        ensures { result ≡ used self.now }
    {
        (self.behind + self.starts.len()) as u32
    }

    /// The refusal where `need` bytes more are wanted.
    fn refusal(&self, need: usize) -> Option<Full>
        requires { need < 9223372036854775808 }
        ensures { result ≡ refusal self.now need }
    {
        if self.behind + self.starts.len() + need > self.buffer_size as usize {
            Some(Full {
                table: Table::BufferSize,
                used: self.used(),
                size: self.buffer_size,
            })
        } else {
            None
        }
    }

    /// The empty line, which is taken where no line is left, becomes the innermost.
    ///
    /// # Errors
    /// Buffer size, exactly where the open lines and 1 pass it; nothing has changed then.
    pub fn empty_line(&mut self) -> Result<(), Full>
        requires { self.old.tail ≡ [] }
        ensures answer { MatchResult result (λ _. refusal self.old 1 ≡ None) (λ full. refusal self.old 1 ≡ Some full) }
        ensures after { self.new ≡ (if is_ok result then line_opened [] self.old else self.old) }
    {
        if let Some(full) = self.refusal(1) {
            return Err(full);
        }
        self.open_line(0);
        Ok(())
    }

    /// The first bytes of what stands behind the open lines become the innermost line, and the others go.
    fn open_line(&mut self, count: usize)
        requires within { count ≤ length self.old.tail }
        requires room { used self.old + (count + 1) ≤ self.old.buffer_size }
        ensures { self.new ≡ line_opened (take count self.old.tail) self.old }
    {
        let start = self.behind as u32;
        let Ok(()) = self.starts.push(start) else {
            unreachable!()
        };
        self.behind += count;
        self.bytes.truncate(self.behind);
        self.part_of = None;
    }

    /// The bytes of the innermost line.
    pub fn line(&self) -> &[u8]
        requires { self.now.lines ≢ [] }
        ensures { result.now ≡ innermost self.now }
    {
        let start = last_start(&self.starts) as usize;
        &self.bytes[start..self.behind]
    }

    /// Lets the innermost line be changed where it stands; it keeps its length.
    pub fn edit_line<E: Edit>(&mut self, editor: &mut E)
        requires { self.old.lines ≢ [] }
        ensures { (line : List ℕ) × (length line ≡ length (innermost self.old)) × E.edits editor.old (innermost self.old) editor.new line × (self.new ≡ line_changed line self.old) }
    {
        let start = last_start(&self.starts) as usize;
        let line = &mut self.bytes[start..self.behind];
        editor.edit(line);
    }

    /// Changes a byte of the innermost line: a `^^` form is reduced where it stands. *The TeXbook*, chapter 8.
    pub fn set_byte(&mut self, at: usize, byte: u8)
        requires { at < length (innermost self.old) }
        ensures { self.new ≡ line_changed (slice_set (innermost self.old) at byte) self.old }
    {
        let start = last_start(&self.starts) as usize;
        self.bytes[start + at] = byte;
    }

    /// The innermost line goes. What stands behind the open lines stays.
    pub fn drop_line(&mut self)
        requires { self.old.lines ≢ [] }
        ensures { self.new ≡ line_dropped self.old }
    {
        let Some(start) = self.starts.pop() else {
            unreachable!()
        };
        let behind = self.behind;
        self.behind = start as usize;
        drop(self.bytes.drain(start as usize..behind));
    }

    /// What is held of this reader's file goes.
    pub fn forget(&mut self, id: InId)
        ensures { self.new ≡ reader_forgotten id.number self.old }
    {
        self.drop_part(id.number);
        forget(&mut self.windows, id.number);
    }

    /// The part of this reader's line goes, if there is one.
    fn drop_part(&mut self, id: u32)
        ensures { self.new ≡ part_dropped id self.old }
    {
        let Some(reader) = self.part_of else {
            return;
        };
        if reader != id {
            return;
        }
        self.bytes.truncate(self.behind);
        self.part_of = None;
    }

    /// The name that is being spelt gets one byte more.
    ///
    /// # Errors
    /// Buffer size, exactly where the open lines, the name and this byte pass it; nothing has changed then.
    pub fn spell(&mut self, byte: u8) -> Result<(), Full>
        requires { HoldsNoPart self.old }
        ensures answer { MatchResult result (λ _. refusal self.old (length self.old.tail + 1) ≡ None) (λ full. refusal self.old (length self.old.tail + 1) ≡ Some full) }
        ensures after { self.new ≡ (if is_ok result then byte_spelt byte self.old else self.old) }
    {
        if let Some(full) = self.refusal(self.bytes.len() - self.behind + 1) {
            return Err(full);
        }
        let Ok(()) = self.bytes.push(byte) else {
            unreachable!()
        };
        self.part_of = None;
        Ok(())
    }

    /// The bytes of the name that is being spelt.
    pub fn spelt(&self) -> &[u8]
        requires { HoldsNoPart self.now }
        ensures { result.now ≡ spelt_name self.now }
    {
        &self.bytes[self.behind..]
    }

    /// No name is being spelt.
    pub fn drop_spelt(&mut self)
        ensures { self.new ≡ name_dropped self.old }
    {
        if self.part_of.is_none() {
            self.bytes.truncate(self.behind);
        }
    }

    /// Gives the reader a window, if it has none.
    pub(crate) fn begin_reader(&mut self, id: u32)
        requires { length (with_ahead id [] self.old.ahead) ≤ most_readers self.old }
        ensures { self.new ≡ record self.old { ahead = with_ahead id (ahead_of id self.old.ahead) self.old.ahead } }
    {
        begin(&mut self.windows, id);
    }

    /// Begins to read a line, or goes on with the part that a refused call has read.
    pub(crate) fn begin_part(&mut self, id: u32)
        requires room { length (with_ahead id [] self.old.ahead) ≤ most_readers self.old }
        requires other { HoldsNoOther self.old id }
        ensures after { self.new ≡ part_read id self.old.tail (ahead_of id self.old.ahead) self.old }
        ensures no_feed { has_feed self.old.tail ≡ false }
    {
        begin(&mut self.windows, id);
        self.part_of = Some(id);
    }

    /// Moves the bytes that are read ahead, up to a line feed, behind the part of the line. Whether there was one.
    ///
    /// # Errors
    /// Buffer size, where the bytes known to be the line's are too many; nothing has changed then.
    pub(crate) fn gather(&mut self, id: u32) -> Result<bool, Full>
        requires begun { is_begun id self.old.ahead ≡ true }
        requires part { self.old.part_of ≡ Some id }
        ensures answer { MatchResult result (λ _. refusal self.old (length (without_last 13 (self.old.tail ++ before_feed (ahead_of id self.old.ahead))) + 1) ≡ None) (λ full. refusal self.old (length (without_last 13 (self.old.tail ++ before_feed (ahead_of id self.old.ahead))) + 1) ≡ Some full) }
        ensures feed { IfOk result (λ feed. has_feed (ahead_of id self.old.ahead) ≡ feed) }
        ensures after { self.new ≡ (if is_ok result then part_read id (self.old.tail ++ before_feed (ahead_of id self.old.ahead)) (behind_feed (ahead_of id self.old.ahead)) self.old else self.old) }
    {
        let Some(at) = find(&self.windows, id) else {
            unreachable!()
        };
        let piece = measure(&self.bytes[self.behind..], self.windows[at].bytes());
        if let Some(full) = self.refusal(piece.sure + 1) {
            return Err(full);
        }
        let window = &mut self.windows[at];
        window.move_to(&mut self.bytes, piece.count, piece.gone);
        Ok(piece.ends)
    }

    /// What stands behind the open lines, which a line feed ends, becomes the innermost line.
    pub(crate) fn end_line(&mut self)
        requires { used self.old + (length (without_last 13 self.old.tail) + 1) ≤ self.old.buffer_size }
        ensures { self.new ≡ line_opened (trimmed (without_last 13 self.old.tail)) self.old }
    {
        let count = line_len(&self.bytes[self.behind..]);
        self.open_line(count);
    }

    /// What stands behind the open lines, which the file's end ends, becomes the innermost line, unless it is empty.
    ///
    /// # Errors
    /// Buffer size, where its bytes are too many; nothing has changed then.
    pub(crate) fn end_file(&mut self) -> Result<bool, Full>
        ensures answer { MatchResult result (λ some. MatchBool some ((self.old.tail ≢ []) × (refusal self.old (length self.old.tail + 1) ≡ None)) (self.old.tail ≡ [])) (λ full. refusal self.old (length self.old.tail + 1) ≡ Some full) }
        ensures after { IfOk result (λ some. self.new ≡ (if some then line_opened (trimmed self.old.tail) self.old else record self.old { tail = []; part_of = None })) }
        ensures err { OnErr result (self.new ≡ self.old) }
    {
        let count = self.bytes.len() - self.behind;
        if count == 0 {
            self.part_of = None;
            return Ok(false);
        }
        if let Some(full) = self.refusal(count + 1) {
            return Err(full);
        }
        let line = trimmed_len(&self.bytes[self.behind..]);
        self.open_line(line);
        Ok(true)
    }

    /// Reads on, where nothing is read ahead. Whether there is more.
    pub(crate) fn read_on<F: Files>(&mut self, files: &mut F, id: u32) -> Result<bool, Fault>
        requires open { (F.told files.old).reading id ≡ true }
        requires begun { is_begun id self.old.ahead ≡ true }
        requires used { ahead_of id self.old.ahead ≡ [] }
        ensures after { self.new ≡ record self.old { ahead = with_ahead id (ahead_of id self.new.ahead) self.old.ahead } }
        ensures came { IfOk result (λ _. CameIn id (ahead_of id self.new.ahead) (F.told files.old) (F.told files.new)) }
        ensures some { IfOk result (λ some. some ≡ true → 0 < length (ahead_of id self.new.ahead)) }
        ensures none { IfOk result (λ some. some ≡ false → (ahead_of id self.new.ahead ≡ []) × IsAtEnd ((F.told files.new).rest id)) }
        ensures err { OnErr result (self.new ≡ self.old) }
        ensures same { OnErr result (SameFiles (F.told files.old) (F.told files.new)) }
        ensures writes { (F.told files.new).write_faults ≡ (F.told files.old).write_faults }
        ensures cause { HasCause (F.told files.old).read_faults (F.told files.new).read_faults (F.told files.old).wants (F.told files.new).wants result }
    {
        let Some(at) = find(&self.windows, id) else {
            unreachable!()
        };
        let window = &mut self.windows[at];
        window.fill(files)
    }

    /// Whether something is held of the file of this reader, which is begun.
    pub(crate) fn holds(&self, id: u32) -> bool
        requires { is_begun id self.now.ahead ≡ true }
        ensures { MatchBool result (held self.now id ≢ []) ((held self.now id ≡ []) × (ahead_of id self.now.ahead ≡ [])) }
    {
        let Some(at) = find(&self.windows, id) else {
            unreachable!()
        };
        self.has_part(id) || !self.windows[at].bytes().is_empty()
    }

    /// Whether the buffer holds a part of a line of this reader.
    fn has_part(&self, id: u32) -> bool
        ensures { MatchBool result (part self.now id ≢ []) (part self.now id ≡ []) }
    {
        match self.part_of {
            Some(reader) => reader == id && self.behind < self.bytes.len(),
            None => false,
        }
    }
}

/// Where the innermost line begins.
fn last_start(starts: &[u32]) -> u32
    requires { 0 < length starts.now }
    ensures { starts.now ≡ take (length starts.now - 1) starts.now ++ result ∷ [] }
{
    starts[starts.len() - 1]
}
