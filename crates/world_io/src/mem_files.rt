// Files in memory.
use crate::calls::Calls;
use crate::counts::raise;
use crate::numbers::place;
use crate::store::Store;
use crate::text::{Reader, Text};
use crate::{Fault, Files, InId, OutId};
use slab::Slab;
use std::alloc::{AllocError, Global};

/// Files that are kept in memory. The calls of `open_in`, `read`, `open_out` and `write` are numbered from 1 in the
/// order in which they come, and those whose numbers it was given fail.
#[derive(Drop)]
pub struct MemFiles {
    alloc: Global,
    store: Store,
    readers: Slab<Reader>,
    writers: Slab<Text>,
    calls: Calls,
    /// The most bytes that a read gives, but for its first.
    beyond_first: usize,
    read_faults: u64,
    write_faults: u64,
    wants: u64,
}

impl MemFiles {
    ghost use Rattle.std.specs.Prelude.{◌≡◌, ◌<◌, ◌++◌, ◌∷◌, [], ℕ, List, Some, MatchOption, OnOk, OnErr, IfOk, IfNone, IfSome, IsSome};
    ghost use Rattle.tex_defs.specs.Places.{NotHeld, Holds};
    ghost use Rattle.world_io.specs.Contents.{SameFiles, SameCounts, Puts, IsEmpty, Grew, NotFound, OpensReader, OpensWriter};
    ghost use Rattle.world_io.specs.Memory.{files_told, files_plan, most_read};

    /// No files.
    pub fn new(alloc: Global) -> Self
        ensures told { IsEmpty (files_told result) }
        ensures plan { files_plan result ≡ record { made = 0; failing = [] } }
    {
        MemFiles {
            alloc,
            store: Store::new(alloc),
            readers: Slab::new(alloc),
            writers: Slab::new(alloc),
            calls: Calls::new(alloc),
            beyond_first: usize::MAX,
            read_faults: 0,
            write_faults: 0,
            wants: 0,
        }
    }

    /// Lets this name hold these bytes. It is no numbered call.
    ///
    /// # Errors
    /// There is no memory for the name and the bytes; every file is as it was.
    pub fn add(&mut self, name: &[u8], bytes: &[u8]) -> Result<(), AllocError>
        ensures ok { OnOk result (Puts name.now bytes.now (files_told self.old) (files_told self.new)) }
        ensures err { OnErr result (SameFiles (files_told self.old) (files_told self.new)) }
        ensures counts { SameCounts (files_told self.old) (files_told self.new) }
        ensures plan { files_plan self.new ≡ files_plan self.old }
    {
        self.store.put(self.alloc, name, bytes)
    }

    /// Lets the call of this number fail.
    ///
    /// # Errors
    /// There is no memory for the number; nothing has changed.
    pub fn fail_at(&mut self, call: u64) -> Result<(), AllocError>
        ensures told { SameFiles (files_told self.old) (files_told self.new) }
        ensures counts { SameCounts (files_told self.old) (files_told self.new) }
        ensures ok { OnOk result (files_plan self.new ≡ record (files_plan self.old) { failing = (files_plan self.old).failing ++ call ∷ [] }) }
        ensures err { OnErr result (files_plan self.new ≡ files_plan self.old) }
    {
        self.calls.fail_at(call)
    }

    /// Lets each read give at most this many bytes.
    pub fn limit_reads(&mut self, most: usize)
        requires { 0 < most }
        ensures most { most_read self.new ≡ most }
        ensures told { files_told self.new ≡ files_told self.old }
        ensures plan { files_plan self.new ≡ files_plan self.old }
    {
        self.beyond_first = most - 1;
    }

    /// The bytes of a file, or `None` where there is none of this name.
    pub fn bytes(&self, name: &[u8]) -> Option<&[u8]>
        ensures { MatchOption result ((files_told self.now).file name.now ≡ NotHeld) (λ bytes. (files_told self.now).file name.now ≡ Holds bytes.now) }
    {
        self.store.bytes(name)
    }

    /// How many numbered calls there were.
    pub fn calls(&self) -> u64
        ensures { result ≡ (files_plan self.now).made }
    {
        self.calls.made()
    }

    /// Opens a reader on a copy of the bytes.
    fn open_reader(&mut self, name: &[u8]) -> Result<Option<InId>, AllocError>
        ensures missing { IfOk result (λ r. IfNone r (NotFound ((files_told self.old).file name.now))) }
        ensures none { IfOk result (λ r. IfNone r (SameFiles (files_told self.old) (files_told self.new))) }
        ensures opened { IfOk result (λ r. IfSome r (λ id. OpensReader id.number name.now (files_told self.old) (files_told self.new))) }
        ensures err { OnErr result (SameFiles (files_told self.old) (files_told self.new)) }
        ensures counts { SameCounts (files_told self.old) (files_told self.new) }
        ensures limit { most_read self.new ≡ most_read self.old }
        ensures plan { files_plan self.new ≡ files_plan self.old }
    {
        let Some(bytes) = self.store.bytes(name) else {
            return Ok(None);
        };
        let reader = Reader::new(self.alloc, bytes)?;
        let number = place(&mut self.readers, reader)?;
        Ok(Some(InId { number }))
    }

    /// Empties the file of this name, and opens a writer on it.
    fn open_writer(&mut self, name: &[u8]) -> Result<OutId, AllocError>
        ensures opened { IfOk result (λ id. OpensWriter id.number name.now (files_told self.old) (files_told self.new)) }
        ensures err { OnErr result (SameFiles (files_told self.old) (files_told self.new)) }
        ensures counts { SameCounts (files_told self.old) (files_told self.new) }
        ensures plan { files_plan self.new ≡ files_plan self.old }
    {
        let own = Text::new(self.alloc, name)?;
        let number = place(&mut self.writers, own)?;
        match self.store.empty(self.alloc, name) {
            Ok(()) => Ok(OutId { number }),
            Err(error) => {
                self.writers.remove(number as usize);
                Err(error)
            }
        }
    }

    /// Writes the piece to the file of an open writer.
    fn append(&mut self, id: OutId, piece: &[u8]) -> Result<(), AllocError>
        requires { IsSome ((files_told self.old).writer id.number) }
        ensures written { OnOk result ((name : List ℕ) → (files_told self.old).writer id.number ≡ Some name → Grew name piece.now (files_told self.old) (files_told self.new)) }
        ensures err { OnErr result (SameFiles (files_told self.old) (files_told self.new)) }
        ensures counts { SameCounts (files_told self.old) (files_told self.new) }
        ensures plan { files_plan self.new ≡ files_plan self.old }
    {
        let name = &self.writers[id.number as usize];
        self.store.append(name.as_slice(), piece)
    }
}

impl Files for MemFiles {
    ghost use Rattle.std.specs.Prelude.{◌≡◌, ◌<◌, ◌≤◌, ◌↔◌, ℕ, List, length, take, true, Some, IfOk, OnOk, OnErr, IfNone, IfSome, IsSome, IsErrOf, IsTrue};
    ghost use Rattle.world_io.specs.Calls.{counted, fails_next};
    ghost use Rattle.world_io.specs.Contents.{HasCause, SameFiles, SameCounts, Grew, NotFound, OpensReader, ClosesReader, OpensWriter, ClosesWriter, ReadFrom, IsAtEnd};
    ghost use Rattle.world_io.specs.Memory.{files_told, files_plan, most_read};

    ghost told = { files_told };

    fn open_in(&mut self, name: &[u8]) -> Result<Option<InId>, Fault>
        ensures missing { IfOk result (λ r. IfNone r (NotFound ((files_told self.old).file name.now))) }
        ensures none { IfOk result (λ r. IfNone r (SameFiles (files_told self.old) (files_told self.new))) }
        ensures opened { IfOk result (λ r. IfSome r (λ id. OpensReader id.number name.now (files_told self.old) (files_told self.new))) }
        ensures err { OnErr result (SameFiles (files_told self.old) (files_told self.new)) }
        ensures writes { (files_told self.new).write_faults ≡ (files_told self.old).write_faults }
        ensures cause { HasCause (files_told self.old).read_faults (files_told self.new).read_faults (files_told self.old).wants (files_told self.new).wants result }
        ensures calm { OnOk result (SameCounts (files_told self.old) (files_told self.new)) }
        ensures fails { IsErrOf result Fault.Failed ↔ IsTrue (fails_next (files_plan self.old)) }
        ensures limit { most_read self.new ≡ most_read self.old }
        ensures plan { files_plan self.new ≡ counted (files_plan self.old) }
    {
        if self.calls.begin() {
            return Err(raise(Fault::Failed, &mut self.read_faults, &mut self.wants));
        }
        match self.open_reader(name) {
            Ok(reader) => Ok(reader),
            Err(_) => Err(raise(Fault::NoMemory, &mut self.read_faults, &mut self.wants)),
        }
    }

    fn read(&mut self, id: InId, piece: &mut [u8]) -> Result<usize, Fault>
        requires { (files_told self.old).reading id.number ≡ true }
        ensures count { IfOk result (λ n. n ≤ length piece.old) }
        ensures limited { IfOk result (λ n. n ≤ most_read self.old) }
        ensures limit { most_read self.new ≡ most_read self.old }
        ensures read { IfOk result (λ n. ReadFrom id.number n piece.new (files_told self.old) (files_told self.new)) }
        ensures ended { IfOk result (λ n. n ≡ 0 → 0 < length piece.old → IsAtEnd ((files_told self.old).rest id.number)) }
        ensures err { OnErr result (SameFiles (files_told self.old) (files_told self.new)) }
        ensures writes { (files_told self.new).write_faults ≡ (files_told self.old).write_faults }
        ensures cause { HasCause (files_told self.old).read_faults (files_told self.new).read_faults (files_told self.old).wants (files_told self.new).wants result }
        ensures calm { OnOk result (SameCounts (files_told self.old) (files_told self.new)) }
        ensures fails { IsErrOf result Fault.Failed ↔ IsTrue (fails_next (files_plan self.old)) }
        ensures plan { files_plan self.new ≡ counted (files_plan self.old) }
    {
        if self.calls.begin() {
            return Err(raise(Fault::Failed, &mut self.read_faults, &mut self.wants));
        }
        let most = piece.len().min(self.beyond_first.saturating_add(1));
        Ok(self.readers[id.number as usize].take(&mut piece[..most]))
    }

    fn close_in(&mut self, id: InId)
        requires { (files_told self.old).reading id.number ≡ true }
        ensures closed { ClosesReader id.number (files_told self.old) (files_told self.new) }
        ensures counts { SameCounts (files_told self.old) (files_told self.new) }
        ensures plan { files_plan self.new ≡ files_plan self.old }
    {
        self.readers.remove(id.number as usize);
    }

    fn open_out(&mut self, name: &[u8]) -> Result<OutId, Fault>
        ensures opened { IfOk result (λ id. OpensWriter id.number name.now (files_told self.old) (files_told self.new)) }
        ensures err { OnErr result (SameFiles (files_told self.old) (files_told self.new)) }
        ensures reads { (files_told self.new).read_faults ≡ (files_told self.old).read_faults }
        ensures cause { HasCause (files_told self.old).write_faults (files_told self.new).write_faults (files_told self.old).wants (files_told self.new).wants result }
        ensures calm { OnOk result (SameCounts (files_told self.old) (files_told self.new)) }
        ensures fails { IsErrOf result Fault.Failed ↔ IsTrue (fails_next (files_plan self.old)) }
        ensures plan { files_plan self.new ≡ counted (files_plan self.old) }
    {
        if self.calls.begin() {
            return Err(raise(Fault::Failed, &mut self.write_faults, &mut self.wants));
        }
        match self.open_writer(name) {
            Ok(writer) => Ok(writer),
            Err(_) => Err(raise(Fault::NoMemory, &mut self.write_faults, &mut self.wants)),
        }
    }

    fn write(&mut self, id: OutId, piece: &[u8]) -> Result<usize, Fault>
        requires { IsSome ((files_told self.old).writer id.number) }
        ensures count { IfOk result (λ n. n ≤ length piece.now) }
        ensures some { IfOk result (λ n. 0 < length piece.now → 0 < n) }
        ensures written { IfOk result (λ n. (name : List ℕ) → (files_told self.old).writer id.number ≡ Some name → Grew name (take n piece.now) (files_told self.old) (files_told self.new)) }
        ensures err { OnErr result (SameFiles (files_told self.old) (files_told self.new)) }
        ensures reads { (files_told self.new).read_faults ≡ (files_told self.old).read_faults }
        ensures cause { HasCause (files_told self.old).write_faults (files_told self.new).write_faults (files_told self.old).wants (files_told self.new).wants result }
        ensures calm { OnOk result (SameCounts (files_told self.old) (files_told self.new)) }
        ensures fails { IsErrOf result Fault.Failed ↔ IsTrue (fails_next (files_plan self.old)) }
        ensures plan { files_plan self.new ≡ counted (files_plan self.old) }
    {
        let fails = self.calls.begin();
        if fails {
            return Err(raise(Fault::Failed, &mut self.write_faults, &mut self.wants));
        }
        match self.append(id, piece) {
            Ok(()) => Ok(piece.len()),
            Err(_) => Err(raise(Fault::NoMemory, &mut self.write_faults, &mut self.wants)),
        }
    }

    fn close_out(&mut self, id: OutId)
        requires { IsSome ((files_told self.old).writer id.number) }
        ensures closed { ClosesWriter id.number (files_told self.old) (files_told self.new) }
        ensures counts { SameCounts (files_told self.old) (files_told self.new) }
        ensures plan { files_plan self.new ≡ files_plan self.old }
    {
        self.writers.remove(id.number as usize);
    }
}
