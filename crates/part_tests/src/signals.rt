//! A runtime in which a signal interrupts every second call, the first one too: of what is opened and printed, and of each file's
//! reads and writes.
use std::alloc::{Allocator, Global};
use std::cell::Cell;
use std::fmt::Display;
use std::fs::{Metadata, OpenFile, OpenOptions};
use std::io::{self, ErrorKind, Print, Read, Seek, SeekFrom, Write};
use std::rt;

/// Whether the last call was interrupted.
#[derive(Drop)]
struct Turn {
    interrupted: Cell<bool>,
}

impl Turn {
    fn new() -> Turn {
        Turn {
            interrupted: Cell::new(false),
        }
    }

    /// Takes the next turn, which is interrupted where the last one wasn't.
    fn next(&self) -> io::Result<()> {
        let interrupted = !self.interrupted.get();
        self.interrupted.set(interrupted);
        if interrupted {
            return Err(ErrorKind::Interrupted.into());
        }
        Ok(())
    }
}

/// An open file.
#[derive(Drop)]
pub struct Opened<F> {
    file: F,
    turn: Turn,
}

impl<F: Read> Read for Opened<F> {
    fn read(&mut self, piece: &mut [u8]) -> io::Result<usize> {
        self.turn.next()?;
        self.file.read(piece)
    }
}

impl<F: Write> Write for Opened<F> {
    fn write(&mut self, piece: &[u8]) -> io::Result<usize> {
        self.turn.next()?;
        self.file.write(piece)
    }

    fn flush(&mut self) -> io::Result<()> {
        self.file.flush()
    }
}

impl<F: Seek> Seek for Opened<F> {
    fn seek(&mut self, to: SeekFrom) -> io::Result<u64> {
        self.file.seek(to)
    }
}

impl<F: OpenFile> OpenFile for Opened<F> {
    fn metadata(&self) -> io::Result<Metadata> {
        self.file.metadata()
    }

    fn set_len(&self, size: u64) -> io::Result<()> {
        self.file.set_len(size)
    }

    fn sync_all(&self) -> io::Result<()> {
        self.file.sync_all()
    }

    fn sync_data(&self) -> io::Result<()> {
        self.file.sync_data()
    }
}

/// The files of a runtime, and a place where bytes are printed and forgotten.
#[derive(Drop)]
pub struct Signals<'a, R> {
    rt: &'a R,
    turn: Turn,
}

impl<'a, R> Signals<'a, R> {
    pub fn new(rt: &'a R) -> Self {
        Signals {
            rt,
            turn: Turn::new(),
        }
    }
}

impl<R: AllocGlobal> Alloc for Signals<'_, R> {
    type A = Global;

    fn alloc(&self) -> Global {
        self.rt.alloc()
    }
}

impl<R> Print for Signals<'_, R> {
    fn print<D: Display + Drop>(&self, _value: D) -> io::Result<()> {
        Err(ErrorKind::Unsupported.into())
    }

    fn println<D: Display + Drop>(&self, _value: D) -> io::Result<()> {
        Err(ErrorKind::Unsupported.into())
    }

    fn write_all(&self, _bytes: &[u8]) -> io::Result<()> {
        self.turn.next()
    }
}

impl<R: rt::Files> rt::Files for Signals<'_, R> {
    type File = Opened<R::File>;

    type Dir = R::Dir;

    fn open_file(&self, how: &OpenOptions, path: &str) -> io::Result<Opened<R::File>> {
        self.turn.next()?;
        Ok(Opened {
            file: self.rt.open_file(how, path)?,
            turn: Turn::new(),
        })
    }

    fn open_dir(&self, path: &str) -> io::Result<R::Dir> {
        self.rt.open_dir(path)
    }

    fn metadata(&self, path: &str) -> io::Result<Metadata> {
        self.rt.metadata(path)
    }

    fn symlink_metadata(&self, path: &str) -> io::Result<Metadata> {
        self.rt.symlink_metadata(path)
    }

    fn copy(&self, from: &str, to: &str) -> io::Result<u64> {
        self.rt.copy(from, to)
    }

    fn rename(&self, from: &str, to: &str) -> io::Result<()> {
        self.rt.rename(from, to)
    }

    fn remove_file(&self, path: &str) -> io::Result<()> {
        self.rt.remove_file(path)
    }

    fn create_dir(&self, path: &str) -> io::Result<()> {
        self.rt.create_dir(path)
    }

    fn remove_dir(&self, path: &str) -> io::Result<()> {
        self.rt.remove_dir(path)
    }

    fn remove_dir_all<B: Allocator>(&self, alloc: B, path: &str) -> io::Result<()> {
        self.rt.remove_dir_all(alloc, path)
    }
}
