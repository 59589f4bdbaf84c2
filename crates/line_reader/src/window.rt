// The bytes that have been read ahead of one reader.
ghost use Rattle.std.specs.Prelude.{◌≡◌, ◌≤◌, ◌<◌, ◌+◌, ℕ, [], ◌++◌, length, take, drop, true, false, IfOk, OnErr, vec_capacity};
ghost use Rattle.tex_defs.specs.Places.{Rose};
ghost use Rattle.world_io.specs.Contents.{HasCause, SameFiles, IsAtEnd};
ghost use Rattle.line_reader.specs.Reading.{CameIn};

use std::marker::Model;
use world_io::{Fault, Files, InId};

/// How many bytes a window holds.
const ROOM: usize = 256;

/// A reader's number, and the bytes that have been read of it and not been used yet.
#[derive(Drop)]
pub struct Window {
    reader: u32,
    start: usize,
    end: usize,
    bytes: [u8; 256],
}

impl Model for Window {
    ghost use Rattle.std.specs.Prelude.{◌≤◌, ◌-◌, take, drop};
    ghost use Rattle.line_reader.specs.Ahead.{Ahead};

    ghost Value = { Ahead };

    ghost view = { λ w. record { reader = w.reader; bytes = take (w.end - w.start) (drop w.start w.bytes) } };

    ghost invariant = { λ w. (w.start ≤ w.end) × (w.end ≤ 256) };
}

impl Window {
    ghost use Rattle.std.specs.Prelude.{List};

    /// Nothing read ahead.
    pub fn new(reader: u32) -> Window
        ensures { result ≡ record { reader = reader; bytes = [] } }
    {
        Window {
            reader,
            start: 0,
            end: 0,
            bytes: [0; ROOM],
        }
    }

    /// Whose bytes they are.
    pub fn reader(&self) -> u32
        ensures { result ≡ self.now.reader }
    {
        self.reader
    }

    /// The bytes that are read ahead.
    pub fn bytes(&self) -> &[u8]
        ensures bytes { result.now ≡ self.now.bytes }
        ensures few { length result.now ≤ 256 }
    {
        &self.bytes[self.start..self.end]
    }

    /// The first `count` bytes go behind those of the line, and the first `gone` bytes are used.
    pub fn move_to(&mut self, line: &mut Vec<u8>, count: usize, gone: usize)
        requires within { count ≤ length self.old.bytes }
        requires known { gone ≤ length self.old.bytes }
        requires room { length line.old.items + count ≤ vec_capacity line.old }
        ensures left { self.new ≡ record self.old { bytes = drop gone self.old.bytes } }
        ensures moved { line.new.items ≡ line.old.items ++ take count self.old.bytes }
        ensures capacity { vec_capacity line.old ≤ vec_capacity line.new }
    {
        let Ok(()) = line.extend_from_slice(&self.bytes()[..count]) else {
            unreachable!()
        };
        self.skip(gone);
    }

    /// The first bytes are used.
    fn skip(&mut self, count: usize)
        requires { count ≤ length self.old.bytes }
        ensures { self.new ≡ record self.old { bytes = drop count self.old.bytes } }
    {
        self.start += count;
    }

    /// Reads the next bytes, where none are left. Whether there are some.
    pub fn fill<F: Files>(&mut self, files: &mut F) -> Result<bool, Fault>
        requires open { (F.told files.old).reading self.old.reader ≡ true }
        requires used { self.old.bytes ≡ [] }
        ensures reader { self.new.reader ≡ self.old.reader }
        ensures came { IfOk result (λ _. CameIn self.old.reader self.new.bytes (F.told files.old) (F.told files.new)) }
        ensures some { IfOk result (λ some. some ≡ true → 0 < length self.new.bytes) }
        ensures none { IfOk result (λ some. some ≡ false → (self.new.bytes ≡ []) × IsAtEnd ((F.told files.new).rest self.old.reader)) }
        ensures err { OnErr result (self.new.bytes ≡ []) }
        ensures same { OnErr result (SameFiles (F.told files.old) (F.told files.new)) }
        ensures writes { (F.told files.new).write_faults ≡ (F.told files.old).write_faults }
        ensures cause { HasCause (F.told files.old).read_faults (F.told files.new).read_faults (F.told files.old).wants (F.told files.new).wants result }
    {
        let id = InId {
            number: self.reader,
        };
        let count = match files.read(id, &mut self.bytes) {
            Ok(count) => count,
            Err(fault) => return Err(fault),
        };
        self.start = 0;
        self.end = count;
        Ok(count > 0)
    }
}
