// Real files: part of the trusted edge.
use crate::again::{open_again, read_again, write_again};
use crate::counts::{fault_of, raise};
use crate::numbers::place;
use crate::text::Text;
use crate::{Fault, Files, InId, OutId};
use slab::Slab;
use std::alloc::Global;
use std::fs::OpenOptions;
use std::io::ErrorKind;
use std::rt;

/// An open file and its name.
#[derive(Drop)]
struct Writer<F> {
    name: Text,
    file: F,
}

/// The files of a runtime. Nothing is told of what they hold. A call that a signal interrupts is made again.
#[derive(Drop)]
pub struct RealFiles<'a, R: rt::Files> {
    rt: &'a R,
    alloc: Global,
    readers: Slab<R::File>,
    writers: Slab<Writer<R::File>>,
    read_faults: u64,
    write_faults: u64,
    wants: u64,
}

impl<'a, R: rt::Files + AllocGlobal> RealFiles<'a, R> {
    ghost use Rattle.world_io.specs.Contents.{IsFresh};

    /// The files of this runtime, of which none is open.
    pub fn new(rt: &'a R) -> Self
        ensures { IsFresh (⟦<RealFiles<'a, R> as Files>⟧.told result) }
    {
        RealFiles {
            rt,
            alloc: rt.alloc(),
            readers: Slab::new(rt.alloc()),
            writers: Slab::new(rt.alloc()),
            read_faults: 0,
            write_faults: 0,
            wants: 0,
        }
    }
}

impl<R: rt::Files> RealFiles<'_, R> {
    ghost use Rattle.std.specs.Prelude.{◌≡◌, IfOk};

    /// Makes an empty file of this name.
    fn create(&self, name: &[u8]) -> Result<Writer<R::File>, Fault>
        ensures { IfOk result (λ w. w.name ≡ name.now) }
    {
        let Ok(path) = str::from_utf8(name) else {
            return Err(Fault::Failed);
        };
        let Ok(name) = Text::new(self.alloc, name) else {
            return Err(Fault::NoMemory);
        };
        let mut how = OpenOptions::new();
        how.write(true).create(true).truncate(true);
        match open_again(self.rt, &how, path) {
            Ok(file) => Ok(Writer { name, file }),
            Err(error) => Err(fault_of(&error)),
        }
    }
}

impl<R: rt::Files> Files for RealFiles<'_, R> {
    ghost use Rattle.std.specs.Prelude.{Option, None, is_some, option_map};
    ghost use Rattle.slab.specs.Slab.{get};
    ghost use Rattle.tex_defs.specs.Places.{Untold};

    ghost told = { λ s. record {
      file = λ n. Untold;
      reading = λ i. is_some (get s.readers i);
      rest = λ i. None;
      writer = λ i. option_map (λ w. w.name) (get s.writers i);
      read_faults = s.read_faults;
      write_faults = s.write_faults;
      wants = s.wants;
    } };

    /// A name that isn't UTF-8 is not found.
    fn open_in(&mut self, name: &[u8]) -> Result<Option<InId>, Fault> {
        let Ok(path) = str::from_utf8(name) else {
            return Ok(None);
        };
        let mut how = OpenOptions::new();
        how.read(true);
        let fault = match open_again(self.rt, &how, path) {
            Ok(file) => match place(&mut self.readers, file) {
                Ok(number) => return Ok(Some(InId { number })),
                Err(_) => Fault::NoMemory,
            },
            Err(error) if error.kind() == ErrorKind::NotFound => return Ok(None),
            Err(error) => fault_of(&error),
        };
        Err(raise(fault, &mut self.read_faults, &mut self.wants))
    }

    fn read(&mut self, id: InId, piece: &mut [u8]) -> Result<usize, Fault> {
        match read_again(&mut self.readers[id.number as usize], piece) {
            Ok(n) => Ok(n),
            Err(fault) => Err(raise(fault, &mut self.read_faults, &mut self.wants)),
        }
    }

    fn close_in(&mut self, id: InId) {
        self.readers.remove(id.number as usize);
    }

    /// `Failed` also for a name that isn't UTF-8.
    fn open_out(&mut self, name: &[u8]) -> Result<OutId, Fault> {
        let fault = match self.create(name) {
            Ok(writer) => match place(&mut self.writers, writer) {
                Ok(number) => return Ok(OutId { number }),
                Err(_) => Fault::NoMemory,
            },
            Err(fault) => fault,
        };
        Err(raise(fault, &mut self.write_faults, &mut self.wants))
    }

    /// `Failed` also where the system takes nothing of a piece that isn't empty.
    fn write(&mut self, id: OutId, piece: &[u8]) -> Result<usize, Fault> {
        match write_again(&mut self.writers[id.number as usize].file, piece) {
            Ok(n) => Ok(n),
            Err(fault) => Err(raise(fault, &mut self.write_faults, &mut self.wants)),
        }
    }

    fn close_out(&mut self, id: OutId) {
        self.writers.remove(id.number as usize);
    }
}
