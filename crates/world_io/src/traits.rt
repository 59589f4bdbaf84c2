// What the outside promises: a sink for text, and files by name.
ghost use Rattle.std.specs.Prelude.{◌≡◌, ◌≤◌, ◌<◌, ℕ, List, true, take, length, IfOk, IfSome, IfNone, IsSome, OnErr, Some};
ghost use Rattle.tex_defs.specs.Places.{grown};
ghost use Rattle.world_io.specs.Contents.{SinkTold, FilesTold, HasCause, SameFiles, SameCounts, Grew, NotFound, OpensReader, ClosesReader, OpensWriter, ClosesWriter, ReadFrom, IsAtEnd};

/// Why a call on the outside has no answer: it failed, or found no memory.
#[derive(Clone, Copy, Debug, PartialEq, Eq)]
pub enum Fault {
    Failed,
    NoMemory,
}

/// The number of an open reader.
#[derive(Clone, Copy, Debug, PartialEq, Eq)]
pub struct InId {
    pub number: u32,
}

/// The number of an open writer.
#[derive(Clone, Copy, Debug, PartialEq, Eq)]
pub struct OutId {
    pub number: u32,
}

/// Where bytes are written, one piece behind the other.
pub trait Sink {
    /// What it tells: its bytes so far, or nothing of them, and its counts.
    ghost told: { Self → SinkTold };

    /// Takes the first bytes of the piece, and answers how many: at least one of a piece that isn't empty.
    ///
    /// # Errors
    /// `Failed` where it can't, and `NoMemory` where memory is wanted; nothing was taken then.
    fn write(&mut self, piece: &[u8]) -> Result<usize, Fault>
        ensures count { IfOk result (λ n. n ≤ length piece.now) }
        ensures some { IfOk result (λ n. 0 < length piece.now → 0 < n) }
        ensures written { IfOk result (λ n. (told self.new).bytes ≡ grown (told self.old).bytes (take n piece.now)) }
        ensures err { OnErr result ((told self.new).bytes ≡ (told self.old).bytes) }
        ensures cause { HasCause (told self.old).faults (told self.new).faults (told self.old).wants (told self.new).wants result };
}

/// Files by name. Several readers and writers may be open at once, of one file too; a reader keeps the bytes that
/// the file had when it was opened.
pub trait Files {
    /// What they tell: contents and rests, or nothing of them, which readers and writers are open, and counts.
    ghost told: { Self → FilesTold };

    /// Opens a file for reading. `None` where there is no file of this name.
    ///
    /// # Errors
    /// `Failed` where it can't, and `NoMemory` where memory is wanted; nothing was opened then.
    fn open_in(&mut self, name: &[u8]) -> Result<Option<InId>, Fault>
        ensures missing { IfOk result (λ r. IfNone r (NotFound ((told self.old).file name.now))) }
        ensures none { IfOk result (λ r. IfNone r (SameFiles (told self.old) (told self.new))) }
        ensures opened { IfOk result (λ r. IfSome r (λ id. OpensReader id.number name.now (told self.old) (told self.new))) }
        ensures err { OnErr result (SameFiles (told self.old) (told self.new)) }
        ensures writes { (told self.new).write_faults ≡ (told self.old).write_faults }
        ensures cause { HasCause (told self.old).read_faults (told self.new).read_faults (told self.old).wants (told self.new).wants result };

    /// Moves the next bytes of an open reader to the front of the piece, and answers how many. For a piece that
    /// isn't empty the answer is 0 only at the end.
    ///
    /// # Errors
    /// `Failed` where it can't, and `NoMemory` where memory is wanted; the reader stands where it stood.
    fn read(&mut self, id: InId, piece: &mut [u8]) -> Result<usize, Fault>
        requires { (told self.old).reading id.number ≡ true }
        ensures count { IfOk result (λ n. n ≤ length piece.old) }
        ensures read { IfOk result (λ n. ReadFrom id.number n piece.new (told self.old) (told self.new)) }
        ensures ended { IfOk result (λ n. n ≡ 0 → 0 < length piece.old → IsAtEnd ((told self.old).rest id.number)) }
        ensures err { OnErr result (SameFiles (told self.old) (told self.new)) }
        ensures writes { (told self.new).write_faults ≡ (told self.old).write_faults }
        ensures cause { HasCause (told self.old).read_faults (told self.new).read_faults (told self.old).wants (told self.new).wants result };

    /// Closes an open reader.
    fn close_in(&mut self, id: InId)
        requires { (told self.old).reading id.number ≡ true }
        ensures closed { ClosesReader id.number (told self.old) (told self.new) }
        ensures counts { SameCounts (told self.old) (told self.new) };

    /// Opens a file for writing, which empties it.
    ///
    /// # Errors
    /// `Failed` where it can't, and `NoMemory` where memory is wanted; every file is as it was.
    fn open_out(&mut self, name: &[u8]) -> Result<OutId, Fault>
        ensures opened { IfOk result (λ id. OpensWriter id.number name.now (told self.old) (told self.new)) }
        ensures err { OnErr result (SameFiles (told self.old) (told self.new)) }
        ensures reads { (told self.new).read_faults ≡ (told self.old).read_faults }
        ensures cause { HasCause (told self.old).write_faults (told self.new).write_faults (told self.old).wants (told self.new).wants result };

    /// Writes the first bytes of the piece behind those of an open writer's file, and answers how many: at least
    /// one of a piece that isn't empty.
    ///
    /// # Errors
    /// `Failed` where it can't, and `NoMemory` where memory is wanted; nothing was written then.
    fn write(&mut self, id: OutId, piece: &[u8]) -> Result<usize, Fault>
        requires { IsSome ((told self.old).writer id.number) }
        ensures count { IfOk result (λ n. n ≤ length piece.now) }
        ensures some { IfOk result (λ n. 0 < length piece.now → 0 < n) }
        ensures written { IfOk result (λ n. (name : List ℕ) → (told self.old).writer id.number ≡ Some name → Grew name (take n piece.now) (told self.old) (told self.new)) }
        ensures err { OnErr result (SameFiles (told self.old) (told self.new)) }
        ensures reads { (told self.new).read_faults ≡ (told self.old).read_faults }
        ensures cause { HasCause (told self.old).write_faults (told self.new).write_faults (told self.old).wants (told self.new).wants result };

    /// Closes an open writer.
    fn close_out(&mut self, id: OutId)
        requires { IsSome ((told self.old).writer id.number) }
        ensures closed { ClosesWriter id.number (told self.old) (told self.new) }
        ensures counts { SameCounts (told self.old) (told self.new) };
}
