// The files in memory.
ghost use Rattle.std.specs.Prelude.{◌≡◌, ◌<◌, ℕ, List, [], bytes_eq, if◌then◌else◌, MatchOption, OnOk, OnErr};
ghost use Rattle.tex_defs.specs.Places.{NotHeld, Holds, grown, emptied};
ghost use Rattle.world_io.specs.Store.{look_up, IsFirst};

use crate::text::Text;
use std::alloc::{AllocError, Global};
use std::marker::Model;

/// A name and the bytes of its file.
#[derive(Drop)]
pub(crate) struct Held {
    name: Text,
    bytes: Text,
}

/// Files by name.
#[derive(Drop)]
pub(crate) struct Store {
    files: Vec<Held>,
}

impl Model for Store {
    ghost use Rattle.std.specs.Prelude.{List};
    ghost use Rattle.world_io.specs.declared.store.Held.{Held};

    ghost Value = { List Held };

    ghost view = { λ s. s.files.items };
}

impl Store {
    pub(crate) fn new(alloc: Global) -> Self
        ensures { result ≡ [] }
    {
        Store {
            files: Vec::new(alloc),
        }
    }

    #[tactic(auto, using(crate::proofs::Stored::look_up_none))]
    /// The place of the first file of this name.
    fn find(&self, name: &[u8]) -> Option<usize>
        ensures { MatchOption result (look_up self.now name.now ≡ NotHeld) (λ i. IsFirst self.now name.now i) }
    {
        for i in 0..self.files.len() {
            if self.files[i].name.as_slice() == name {
                return Some(i);
            }
        }
        None
    }

    #[tactic(auto, using(crate::proofs::Stored::look_up_first))]
    pub(crate) fn bytes(&self, name: &[u8]) -> Option<&[u8]>
        ensures { MatchOption result (look_up self.now name.now ≡ NotHeld) (λ bytes. look_up self.now name.now ≡ Holds bytes.now) }
    {
        let i = self.find(name)?;
        Some(self.files[i].bytes.as_slice())
    }

    #[tactic(auto, using(crate::proofs::Stored::look_up_put, crate::proofs::Stored::look_up_push))]
    /// Makes these the bytes of the file of this name.
    pub(crate) fn put(&mut self, alloc: Global, name: &[u8], bytes: &[u8]) -> Result<(), AllocError>
        ensures ok { OnOk result ((n : List ℕ) → look_up self.new n ≡ (if bytes_eq n name.now then Holds bytes.now else look_up self.old n)) }
        ensures err { OnErr result (self.new ≡ self.old) }
    {
        let bytes = Text::new(alloc, bytes)?;
        match self.find(name) {
            Some(i) => self.files[i].bytes = bytes,
            None => {
                let name = Text::new(alloc, name)?;
                self.files.push(Held { name, bytes })?;
            }
        }
        Ok(())
    }

    #[tactic(auto, using(crate::proofs::Stored::look_up_empty))]
    /// Leaves an empty file of this name.
    pub(crate) fn empty(&mut self, alloc: Global, name: &[u8]) -> Result<(), AllocError>
        ensures ok { OnOk result ((n : List ℕ) → look_up self.new n ≡ (if bytes_eq n name.now then emptied (look_up self.old n) else look_up self.old n)) }
        ensures err { OnErr result (self.new ≡ self.old) }
    {
        self.put(alloc, name, b"")
    }

    #[tactic(auto, using(crate::proofs::Stored::look_up_append, crate::proofs::Stored::look_up_unheld))]
    /// Writes the piece behind the bytes of the file of this name, if there is one.
    pub(crate) fn append(&mut self, name: &[u8], piece: &[u8]) -> Result<(), AllocError>
        ensures ok { OnOk result ((n : List ℕ) → look_up self.new n ≡ (if bytes_eq n name.now then grown (look_up self.old n) piece.now else look_up self.old n)) }
        ensures err { OnErr result (self.new ≡ self.old) }
    {
        match self.find(name) {
            Some(i) => self.files[i].bytes.append(piece),
            None => Ok(()),
        }
    }
}
