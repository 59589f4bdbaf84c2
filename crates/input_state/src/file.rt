// The files that are open, whose bytes come by pieces.
ghost use Rattle.std.specs.Prelude.{◌≡◌, ℕ, ◌≤◌, ◌<◌, ◌+◌, ◌^◌, ◌++◌, List, [], ◌∷◌, length, drop, Option, true, false, None, Some, IsSome, MatchBool, IfOk, IfSome, if◌then◌else◌};
ghost use Rattle.std.specs.Option.{option_map};
ghost use Rattle.plain_tokens.specs.Tables.{opened_files};
ghost use Rattle.input_state.specs.FileLeft.{innermost, rooms_end, step_of, lacks_next, lacks_first, add_bytes, pass_line, begun_file, end_input, is_line};

use crate::bytes::FileBytes;
use std::alloc::{AllocError, Global};
use std::marker::Model;
use std::mem;

/// What the innermost file gives, where its line is used up: nothing, as no file is begun, its end, or a line more.
#[derive(Clone, Copy, PartialEq, Eq)]
pub enum Step {
    Nothing,
    Over,
    Line,
}

/// A file that is begun: its bytes, its line's length as it was taken, the line's number, and whether the file ends behind it.
#[derive(Drop)]
pub struct OpenFile {
    bytes: FileBytes,
    whole: usize,
    number: u64,
    ends: bool,
}

/// The files that are open.
#[derive(Drop)]
pub struct Files {
    innermost: Option<OpenFile>,
    /// Those beneath it, the innermost last.
    beneath: Vec<OpenFile>,
    /// The file that was opened and isn't begun.
    opened: Option<FileBytes>,
    /// Room for the bytes of the files that may still be opened.
    spare: Vec<FileBytes>,
    /// Where the rooms of the lines beneath the innermost end in the buffer.
    lines_beneath: usize,
    buffer_size: u32,
    levels: u32,
}

impl Model for Files {
    ghost use Rattle.std.specs.Prelude.{vec_capacity};
    ghost use Rattle.input_state.specs.FileLeft.{FilesLeft};

    ghost Value = { FilesLeft };

    ghost use Rattle.input_state.specs.FileViews.{files_left, AreOpen};

    ghost view = { λ f. files_left f.innermost f.beneath.items f.opened f.buffer_size f.levels };

    ghost invariant = { λ f. AreOpen f.innermost f.beneath.items f.opened f.spare.items f.lines_beneath f.buffer_size f.levels (vec_capacity f.beneath) (vec_capacity f.spare) };
}

impl Files {
    /// No file is open, and there is room for all that may be.
    ///
    /// # Errors
    /// There is no room for them. No other call takes memory.
    pub fn new(alloc: Global, buffer_size: u32, levels: u32) -> Result<Files, AllocError>
        ensures { IfOk result (λ f. f ≡ record { files = []; next = None; buffer_size = buffer_size; levels = levels }) }
    {
        let beneath = Vec::with_capacity(alloc, levels as usize)?;
        let mut spare = Vec::with_capacity(alloc, levels as usize)?;
        for _k in 0..levels {
            spare.push_reserved(FileBytes::new(alloc, buffer_size)?);
        }
        Ok(Files {
            innermost: None,
            beneath,
            opened: None,
            spare,
            lines_beneath: 0,
            buffer_size,
            levels,
        })
    }

    /// The number of the innermost file's line, 0 where none is begun.
    pub fn number(&self) -> u64
        ensures { result ≡ (innermost self.now.files).number }
    {
        match &self.innermost {
            Some(file) => file.number,
            None => 0,
        }
    }

    /// What the innermost file gives.
    pub fn step(&self) -> Step
        ensures { result ≡ step_of self.now.files }
    {
        match &self.innermost {
            Some(file) => {
                if file.ends || file.bytes.rest().is_empty() {
                    Step::Over
                } else {
                    Step::Line
                }
            }
            None => Step::Nothing,
        }
    }

    /// Whether it gives a line.
    pub fn has_line(&self) -> bool
        ensures { result ≡ is_line (step_of self.now.files) }
    {
        matches!(self.step(), Step::Line)
    }

    /// The bytes of the innermost file behind the lines that were taken.
    pub fn rest(&self) -> &[u8]
        requires { 0 < length self.now.files }
        ensures { result.now ≡ (innermost self.now.files).rest }
    {
        match &self.innermost {
            Some(file) => file.bytes.rest(),
            None => unreachable!(),
        }
    }

    /// Whether its next line isn't known before more bytes come, or the file's end.
    pub fn lacks_next(&self) -> bool
        ensures { result ≡ lacks_next self.now.files self.now.buffer_size }
    {
        match &self.innermost {
            Some(file) => !file.ends && file.bytes.lacks_feed(),
            None => false,
        }
    }

    /// Its next bytes came.
    pub fn add(&mut self, bytes: &[u8])
        requires room { length (innermost self.old.files).rest ≤ self.old.buffer_size }
        requires window { length bytes.now ≤ 256 }
        ensures { self.new ≡ record self.old { files = add_bytes bytes.now self.old.files } }
    {
        if let Some(file) = &mut self.innermost {
            file.bytes.add(bytes);
        }
    }

    /// Where the rooms of the lines beneath the innermost end in the buffer.
    pub fn lines_beneath(&self) -> usize
        ensures is { result ≡ rooms_end (drop 1 self.now.files) }
        ensures within { result ≤ self.now.buffer_size }
        ensures small { result < 2 ^ 32 }
    {
        self.lines_beneath
    }

    /// Where the rooms of all lines end in the buffer.
    pub fn open_lines(&self) -> usize
        ensures is { result ≡ rooms_end self.now.files }
        ensures within { result ≤ self.now.buffer_size }
        ensures small { result < 2 ^ 32 }
    {
        match &self.innermost {
            Some(file) => self.lines_beneath + 1 + file.whole,
            None => 0,
        }
    }

    /// The next line of this length was taken, which took up so many bytes.
    pub fn pass_line(&mut self, whole: usize, used: usize)
        requires within { used ≤ length (innermost self.old.files).rest }
        requires room { rooms_end (drop 1 self.old.files) + (1 + whole) ≤ self.old.buffer_size }
        ensures { self.new ≡ record self.old { files = pass_line whole used self.old.files } }
    {
        if let Some(file) = &mut self.innermost {
            file.bytes.read(used);
            file.whole = whole;
            file.number = file.number.saturating_add(1);
        }
    }

    // The file that was opened goes, if there is one.
    fn drop_opened(&mut self)
        ensures { self.new ≡ record self.old { next = None } }
    {
        match self.opened.take() {
            Some(mut opened) => {
                opened.clear();
                self.spare.push_reserved(opened);
            }
            None => {}
        }
    }

    /// The innermost file goes, and with it one that was opened and isn't begun.
    pub fn end_file(&mut self)
        ensures { self.new ≡ record self.old { files = drop 1 self.old.files; next = None } }
    {
        self.drop_opened();
        let Some(file) = mem::replace(&mut self.innermost, self.beneath.pop()) else {
            return;
        };
        let OpenFile {
            mut bytes,
            whole: _,
            number: _,
            ends: _,
        } = file;
        bytes.clear();
        self.spare.push_reserved(bytes);
        match &self.innermost {
            Some(file) => self.lines_beneath -= 1 + file.whole,
            None => self.lines_beneath = 0,
        }
    }

    /// The innermost file ends behind its line.
    pub fn end_input(&mut self)
        ensures { self.new ≡ record self.old { files = end_input self.old.files } }
    {
        if let Some(file) = &mut self.innermost {
            file.ends = true;
        }
    }

    /// How many files are open, also one that isn't begun.
    pub fn count(&self) -> u32
        ensures is { result ≡ opened_files self.now.next + length self.now.files }
        ensures within { result ≤ self.now.levels }
    {
        let begun = match &self.innermost {
            Some(_file) => self.beneath.len() as u32 + 1,
            None => 0,
        };
        match &self.opened {
            Some(_bytes) => begun + 1,
            None => begun,
        }
    }

    /// A file is opened, of which no byte came. One more may be open.
    pub fn open(&mut self)
        requires none { self.old.next ≡ None }
        requires room { length self.old.files < self.old.levels }
        ensures { self.new ≡ record self.old { next = Some [] } }
    {
        let Some(bytes) = self.spare.pop() else {
            unreachable!()
        };
        self.opened = Some(bytes);
    }

    /// Whether a file was opened that isn't begun.
    #[inline(always)]
    pub fn has_next(&self) -> bool
        ensures { MatchBool result (IsSome self.now.next) (self.now.next ≡ None) }
    {
        self.opened.is_some()
    }

    /// The bytes that came of it.
    pub fn first_bytes(&self) -> &[u8]
        requires { IsSome self.now.next }
        ensures { Some result.now ≡ self.now.next }
    {
        match &self.opened {
            Some(bytes) => bytes.rest(),
            None => unreachable!(),
        }
    }

    /// Whether its first line isn't known before more bytes come, or the file's end.
    pub fn lacks_first(&self) -> bool
        ensures { result ≡ lacks_first self.now.next self.now.buffer_size }
    {
        match &self.opened {
            Some(bytes) => bytes.lacks_feed(),
            None => false,
        }
    }

    /// Its next bytes came.
    pub fn add_first(&mut self, bytes: &[u8])
        requires room { IfSome self.old.next (λ b. length b ≤ self.old.buffer_size) }
        requires window { length bytes.now ≤ 256 }
        ensures { self.new ≡ record self.old { next = option_map (λ b. b ++ bytes.now) self.old.next } }
    {
        if let Some(opened) = &mut self.opened {
            opened.add(bytes);
        }
    }

    /// It is begun with its first line of this length, which took up so many bytes.
    pub fn begin(&mut self, whole: usize, used: usize)
        requires within { IfSome self.old.next (λ b. used ≤ length b) }
        requires room { rooms_end self.old.files + (1 + whole) ≤ self.old.buffer_size }
        requires some { IsSome self.old.next }
        ensures { Some self.new ≡ option_map (λ b. record self.old { files = begun_file whole used b ∷ self.old.files; next = None }) self.old.next }
    {
        let lines = self.open_lines();
        let Some(mut bytes) = self.opened.take() else {
            unreachable!()
        };
        bytes.read(used);
        let file = OpenFile {
            bytes,
            whole,
            number: 1,
            ends: false,
        };
        self.lines_beneath = lines;
        match mem::replace(&mut self.innermost, Some(file)) {
            Some(outer) => self.beneath.push_reserved(outer),
            None => {}
        }
    }
}
