// An open reader that is read piece by piece.
ghost use Rattle.std.specs.Prelude.{◌≡◌, ◌≤◌, take, true, false, Ok, IfOk, OnErr};
ghost use Rattle.world_io.specs.Contents.{HasCause, SameFiles, SameCounts, ClosesReader, IsAtEnd};
ghost use Rattle.line_reader.specs.Reading.{CameIn};
ghost use Rattle.line_reader.specs.Readers.{came_of, KnowsEnd};

use std::marker::Model;
use world_io::{Fault, Files, InId};

/// An open reader of a file, and whether the file's end has come. Behind the end the file isn't asked any more.
#[derive(Drop)]
pub struct Reader {
    id: InId,
    ended: bool,
}

impl Model for Reader {
    ghost use Rattle.line_reader.specs.Readers.{OpenReader};

    ghost Value = { OpenReader };

    ghost view = { λ r. record { id = r.id.number; ended = r.ended } };
}

impl Reader {
    /// A reader of whose file the end hasn't come.
    pub fn new(id: InId) -> Reader
        ensures { result ≡ record { id = id.number; ended = false } }
    {
        Reader { id, ended: false }
    }

    /// Whether the file's end has come.
    pub fn is_ended(&self) -> bool
        ensures { result ≡ self.now.ended }
    {
        self.ended
    }

    /// Moves the next bytes of the file to the front of a window, and answers how many: 0 only at the end.
    ///
    /// # Errors
    /// A call on the files failed or wanted memory; the reader and the files are as before.
    pub fn read<F: Files>(&mut self, files: &mut F, window: &mut [u8; 256]) -> Result<usize, Fault>
        requires open { (F.told files.old).reading self.old.id ≡ true }
        ensures within { IfOk result (λ n. n ≤ 256) }
        ensures came { IfOk result (λ n. CameIn self.old.id (take n window.new) (F.told files.old) (F.told files.new)) }
        ensures after { IfOk result (λ n. self.new ≡ came_of n self.old) }
        ensures behind { self.old.ended ≡ true → (result ≡ Ok 0) × (F.told files.new ≡ F.told files.old) }
        ensures at_end { IfOk result (λ n. self.old.ended ≡ false → n ≡ 0 → IsAtEnd ((F.told files.new).rest self.old.id)) }
        ensures knows { KnowsEnd self.old (F.told files.old) → KnowsEnd self.new (F.told files.new) }
        ensures err { OnErr result (self.new ≡ self.old) }
        ensures same { OnErr result (SameFiles (F.told files.old) (F.told files.new)) }
        ensures writes { (F.told files.new).write_faults ≡ (F.told files.old).write_faults }
        ensures cause { HasCause (F.told files.old).read_faults (F.told files.new).read_faults (F.told files.old).wants (F.told files.new).wants result }
    {
        if self.ended {
            return Ok(0);
        }
        match files.read(self.id, window) {
            Ok(count) => {
                self.ended = count == 0;
                Ok(count)
            }
            Err(fault) => Err(fault),
        }
    }

    /// Closes it.
    pub(crate) fn close<F: Files>(self, files: &mut F)
        requires open { (F.told files.old).reading self.id ≡ true }
        ensures closed { ClosesReader self.id (F.told files.old) (F.told files.new) }
        ensures counts { SameCounts (F.told files.old) (F.told files.new) }
    {
        files.close_in(self.id);
    }
}
