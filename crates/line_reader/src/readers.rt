// The readers of the files that are open.
ghost use Rattle.std.specs.Prelude.{◌≡◌, ◌≢◌, ◌≤◌, ◌<◌, ℕ, List, [], ◌∷◌, length, take, true, false, Ok, IfOk, OnErr, MatchBool};
ghost use Rattle.world_io.specs.Contents.{HasCause, SameCounts, NotFound, ClosesReader, IsAtEnd};
ghost use Rattle.line_reader.specs.Reading.{CameIn};
ghost use Rattle.line_reader.specs.Readers.{no_readers, innermost_of, outer_of, ids, came_of, AreOpen, KnowEnds, came_first, told_left, LeftBefore, MightLeave, OpensInnermost, KeepsReaders, ClosesReaders};

use crate::Reader;
use std::alloc::{AllocError, Global};
use std::marker::Model;
use world_io::{Fault, Files};

/// The readers of the files that are open, of which the innermost is read. All room is reserved by `new`: no other
/// call takes memory, but for the calls on the files.
///
/// *TeX: The Program*, part 22 (`input_file` and `in_open`).
#[derive(Drop)]
pub struct Readers {
    /// The outermost first.
    readers: Vec<Reader>,
    most: u32,
}

// Clauses see the readers innermost first.
impl Model for Readers {
    ghost use Rattle.std.specs.Prelude.{◌≤◌, ◌<◌, ◌^◌, length, reverse, vec_capacity};
    ghost use Rattle.line_reader.specs.Readers.{OpenReaders};

    ghost Value = { OpenReaders };

    ghost view = { λ r. record { readers = reverse r.readers.items; most = r.most } };

    ghost invariant = { λ r. (length r.readers.items ≤ r.most) × (r.most ≤ vec_capacity r.readers) × (r.most < 2 ^ 32) };
}

impl Readers {
    /// No file is open, and as many may be as there are levels.
    ///
    /// # Errors
    /// Want of memory.
    pub fn new(alloc: Global, levels: u32) -> Result<Readers, AllocError>
        ensures { IfOk result (λ readers. readers ≡ no_readers levels) }
    {
        let readers = Vec::with_capacity(alloc, levels as usize)?;
        Ok(Readers {
            readers,
            most: levels,
        })
    }

    /// How many files are open.
    pub fn count(&self) -> u32
        ensures count { result ≡ length self.now.readers }
        ensures few { result ≤ self.now.most }
    {
        self.readers.len() as u32
    }

    /// Whether one file more may be open.
    pub fn has_room(&self) -> bool
        ensures { MatchBool result (length self.now.readers < self.now.most) (self.now.most ≤ length self.now.readers) }
    {
        self.count() < self.most
    }

    /// Whether the innermost file's end has come.
    pub fn is_ended(&self) -> bool
        requires { self.now.readers ≢ [] }
        ensures { result ≡ (innermost_of self.now.readers).ended }
    {
        self.readers[self.readers.len() - 1].is_ended()
    }

    /// Opens the file of this name, which is the innermost then. False where there is none.
    ///
    /// # Errors
    /// A call on the files failed or wanted memory; the readers and the files are as before.
    pub fn open<F: Files>(&mut self, files: &mut F, name: &[u8]) -> Result<bool, Fault>
        requires room { length self.old.readers < self.old.most }
        requires open { AreOpen self.old.readers (F.told files.old) }
        ensures answer { IfOk result (λ found. MatchBool found (OpensInnermost name.now (F.told files.old) self.old (F.told files.new) self.new) (NotFound ((F.told files.old).file name.now) × KeepsReaders (F.told files.old) self.old (F.told files.new) self.new)) }
        ensures err { OnErr result (KeepsReaders (F.told files.old) self.old (F.told files.new) self.new) }
        ensures most { self.new.most ≡ self.old.most }
        ensures open { AreOpen self.new.readers (F.told files.new) }
        ensures knows { KnowEnds self.old.readers (F.told files.old) → KnowEnds self.new.readers (F.told files.new) }
        ensures file { (n : List ℕ) → (F.told files.new).file n ≡ (F.told files.old).file n }
        ensures writes { (F.told files.new).write_faults ≡ (F.told files.old).write_faults }
        ensures cause { HasCause (F.told files.old).read_faults (F.told files.new).read_faults (F.told files.old).wants (F.told files.new).wants result }
    {
        match files.open_in(name) {
            Ok(Some(id)) => {
                self.push(Reader::new(id));
                Ok(true)
            }
            Ok(None) => Ok(false),
            Err(fault) => Err(fault),
        }
    }

    /// The reader becomes the innermost.
    fn push(&mut self, reader: Reader)
        requires { length self.old.readers < self.old.most }
        ensures { self.new ≡ record self.old { readers = reader ∷ self.old.readers } }
    {
        let Ok(()) = self.readers.push(reader) else {
            unreachable!()
        };
    }

    /// Moves the next bytes of the innermost file to the front of a window, and answers how many: 0 only at the end.
    ///
    /// # Errors
    /// A call on the files failed or wanted memory; the readers and the files are as before.
    pub fn read<F: Files>(&mut self, files: &mut F, window: &mut [u8; 256]) -> Result<usize, Fault>
        requires some { self.old.readers ≢ [] }
        requires open { AreOpen self.old.readers (F.told files.old) }
        ensures within { IfOk result (λ n. n ≤ 256) }
        ensures came { IfOk result (λ n. CameIn (innermost_of self.old.readers).id (take n window.new) (F.told files.old) (F.told files.new)) }
        ensures after { IfOk result (λ n. self.new ≡ record self.old { readers = came_of n (innermost_of self.old.readers) ∷ outer_of self.old.readers }) }
        ensures ended { IfOk result (λ n. n ≡ 0 → (innermost_of self.new.readers).ended ≡ true) }
        ensures behind { (innermost_of self.old.readers).ended ≡ true → (result ≡ Ok 0) × (F.told files.new ≡ F.told files.old) }
        ensures at_end { IfOk result (λ n. (innermost_of self.old.readers).ended ≡ false → n ≡ 0 → IsAtEnd ((F.told files.new).rest (innermost_of self.old.readers).id)) }
        ensures told { IfOk result (λ n. LeftBefore (came_first (take n window.new)) self.old.readers (F.told files.old) self.new.readers (F.told files.new)) }
        ensures may { IfOk result (λ n. MightLeave (came_first (take n window.new)) self.old.readers self.new.readers) }
        ensures err { OnErr result (KeepsReaders (F.told files.old) self.old (F.told files.new) self.new) }
        ensures most { self.new.most ≡ self.old.most }
        ensures count { length self.new.readers ≡ length self.old.readers }
        ensures ids { ids self.new.readers ≡ ids self.old.readers }
        ensures open { AreOpen self.new.readers (F.told files.new) }
        ensures knows { KnowEnds self.old.readers (F.told files.old) → KnowEnds self.new.readers (F.told files.new) }
        ensures file { (n : List ℕ) → (F.told files.new).file n ≡ (F.told files.old).file n }
        ensures writes { (F.told files.new).write_faults ≡ (F.told files.old).write_faults }
        ensures cause { HasCause (F.told files.old).read_faults (F.told files.new).read_faults (F.told files.old).wants (F.told files.new).wants result }
    {
        let mut reader = self.pop();
        let came = reader.read(files, window);
        self.push(reader);
        came
    }

    /// The innermost reader goes.
    fn pop(&mut self) -> Reader
        requires { self.old.readers ≢ [] }
        ensures reader { self.old ≡ record self.new { readers = result ∷ self.new.readers } }
        ensures room { length self.new.readers < self.new.most }
    {
        let Some(reader) = self.readers.pop() else {
            unreachable!()
        };
        reader
    }

    /// Closes the innermost file.
    pub fn close<F: Files>(&mut self, files: &mut F)
        requires some { self.old.readers ≢ [] }
        requires open { AreOpen self.old.readers (F.told files.old) }
        ensures closed { ClosesReader (innermost_of self.old.readers).id (F.told files.old) (F.told files.new) }
        ensures after { self.new ≡ record self.old { readers = outer_of self.old.readers } }
        ensures told { LeftBefore (λ left. told_left ((F.told files.old).rest (innermost_of self.old.readers).id) ∷ left) self.old.readers (F.told files.old) self.new.readers (F.told files.new) }
        ensures may { KnowEnds self.old.readers (F.told files.old) → MightLeave (λ left. told_left ((F.told files.old).rest (innermost_of self.old.readers).id) ∷ left) self.old.readers self.new.readers }
        ensures open { AreOpen self.new.readers (F.told files.new) }
        ensures knows { KnowEnds self.old.readers (F.told files.old) → KnowEnds self.new.readers (F.told files.new) }
        ensures counts { SameCounts (F.told files.old) (F.told files.new) }
    {
        self.pop().close(files);
    }

    /// Closes all files.
    pub fn close_all<F: Files>(&mut self, files: &mut F)
        requires { AreOpen self.old.readers (F.told files.old) }
        ensures closed { ClosesReaders self.old.readers (F.told files.old) (F.told files.new) }
        ensures after { self.new ≡ record self.old { readers = [] } }
        ensures counts { SameCounts (F.told files.old) (F.told files.new) }
    {
        while self.count() > 0 {
            self.close(files);
        }
    }
}
