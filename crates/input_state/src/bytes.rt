// The bytes of a file, which come by pieces.
ghost use Rattle.std.specs.Prelude.{◌≡◌, ◌≤◌, ◌++◌, [], length, drop, IfOk};
ghost use Rattle.input_state.specs.BytesLeft.{lacks_feed};

use crate::lines::find_feed;
use std::alloc::{AllocError, Global};
use std::marker::Model;

/// How many bytes come at once.
const WINDOW: usize = 256;

/// The bytes of a file that came and weren't dropped, how many of them were read, and the buffer size.
#[derive(Drop)]
pub struct FileBytes {
    bytes: Vec<u8>,
    next: usize,
    buffer_size: u32,
}

impl Model for FileBytes {
    ghost use Rattle.std.specs.Prelude.{drop, vec_capacity};
    ghost use Rattle.input_state.specs.BytesLeft.{BytesLeft, IsWithin};

    ghost Value = { BytesLeft };

    ghost view = { λ f. record { rest = drop f.next f.bytes.items; buffer_size = f.buffer_size } };

    ghost invariant = { λ f. IsWithin f.bytes.items f.next f.buffer_size (vec_capacity f.bytes) };
}

impl FileBytes {
    /// No byte, and room for all that is held of a file at once.
    ///
    /// # Errors
    /// There is no room for it.
    pub fn new(alloc: Global, buffer_size: u32) -> Result<Self, AllocError>
        ensures { IfOk result (λ f. f ≡ record { rest = []; buffer_size = buffer_size }) }
    {
        Ok(FileBytes {
            bytes: Vec::with_capacity(alloc, buffer_size as usize + WINDOW)?,
            next: 0,
            buffer_size,
        })
    }

    /// The bytes that weren't read.
    pub fn rest(&self) -> &[u8]
        ensures { result.now ≡ self.now.rest }
    {
        &self.bytes[self.next..]
    }

    /// Whether the first line of these bytes isn't known before more bytes come, or the file's end.
    pub fn lacks_feed(&self) -> bool
        ensures { result ≡ lacks_feed self.now.rest self.now.buffer_size }
    {
        let rest = self.rest();
        rest.len() <= self.buffer_size as usize && find_feed(rest) == rest.len()
    }

    /// The next bytes came, and those that were read go.
    pub fn add(&mut self, bytes: &[u8])
        requires room { length self.old.rest ≤ self.old.buffer_size }
        requires window { length bytes.now ≤ 256 }
        ensures { self.new ≡ record self.old { rest = self.old.rest ++ bytes.now } }
    {
        drop(self.bytes.drain(..self.next));
        self.next = 0;
        let Ok(()) = self.bytes.extend_from_slice(bytes) else {
            unreachable!()
        };
    }

    /// So many bytes were read.
    pub fn read(&mut self, used: usize)
        requires { used ≤ length self.old.rest }
        ensures { self.new ≡ record self.old { rest = drop used self.old.rest } }
    {
        self.next += used;
    }

    /// No byte is left.
    pub fn clear(&mut self)
        ensures { self.new ≡ record self.old { rest = [] } }
    {
        self.next = self.bytes.len();
    }
}
