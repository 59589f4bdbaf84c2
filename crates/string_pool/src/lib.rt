//! The pool of strings: the strings that a run keeps, in the order in which they were closed, and the one
//! that is being built.
//!
//! *TeX: The Program*, part 4 (string handling). All room is reserved at opening: no call after
//! [`StringPool::new`] takes memory.
#![tactic(auto)]

ghost use Rattle.std.specs.Prelude.{◌≡◌, ◌+◌, ◌<◌, ◌≤◌, length, [], ◌∷◌, None, Some, IfOk, IsSome, is_ok, MatchResult, slice_get, if◌then◌else◌};
ghost use Rattle.string_pool.specs.Pieces.{start_of};
ghost use Rattle.string_pool.specs.Pool.{kept_bytes, append_refusal, close_refusal, begun, with_byte, closed, dropped, empty_pool};

use std::alloc::{AllocError, Global};
use std::marker::Model;
use tex_defs::{Full, Table};

/// The number of a kept string, from 0 in the order in which the strings were closed.
pub type StrNo = u32;

/// The kept strings and, while one is open, the bytes that it has so far.
#[derive(Drop)]
pub struct StringPool {
    /// The bytes of all kept strings, and behind them those of the open one.
    bytes: Vec<u8>,
    /// Where each kept string ends in `bytes`.
    ends: Vec<u32>,
    /// How many of the bytes are kept.
    kept: u32,
    is_open: bool,
    pool_size: u32,
    number_of_strings: u32,
}

// Clauses see the list of the kept strings, the open string if there is one, and the two sizes.
impl Model for StringPool {
    ghost use Rattle.std.specs.Prelude.{vec_capacity};
    ghost use Rattle.string_pool.specs.Pool.{Pool};
    ghost use Rattle.string_pool.specs.Pieces.{pool_of, IsSound};

    ghost Value = { Pool };

    ghost view = { λ p. pool_of p.bytes.items p.ends.items p.kept p.is_open p.pool_size p.number_of_strings };

    ghost invariant = { λ p. IsSound p.bytes.items p.ends.items p.kept p.is_open p.pool_size p.number_of_strings (vec_capacity p.bytes) (vec_capacity p.ends) };
}

impl StringPool {
    /// A pool without strings, with room for `pool_size` bytes and `number_of_strings` strings.
    ///
    /// # Errors
    /// Want of memory.
    pub fn new(
        alloc: Global,
        pool_size: u32,
        number_of_strings: u32,
    ) -> Result<StringPool, AllocError>
        ensures { IfOk result (λ pool. pool ≡ empty_pool pool_size number_of_strings) }
    {
        let bytes = Vec::with_capacity(alloc, pool_size as usize)?;
        let ends = Vec::with_capacity(alloc, number_of_strings as usize)?;
        Ok(StringPool {
            bytes,
            ends,
            kept: 0,
            is_open: false,
            pool_size,
            number_of_strings,
        })
    }

    /// Begins a string without bytes.
    pub fn begin_string(&mut self)
        requires { self.old.opened ≡ None }
        ensures after { self.new ≡ begun self.old }
        ensures fits { kept_bytes self.old ≤ self.old.pool_size }
    {
        self.is_open = true;
    }

    /// Adds a byte to the open string.
    ///
    /// # Errors
    /// Pool size, exactly where the kept bytes and those of the open string are the pool's size; `used` counts
    /// the kept bytes. The pool is then as before.
    pub fn append_byte(&mut self, byte: u8) -> Result<(), Full>
        requires { IsSome self.old.opened }
        ensures answer { MatchResult result (λ _. append_refusal self.old ≡ None) (λ full. append_refusal self.old ≡ Some full) }
        ensures after { self.new ≡ (if is_ok result then with_byte self.old byte else self.old) }
    {
        if self.bytes.len() as u32 == self.pool_size {
            return Err(Full {
                table: Table::PoolSize,
                used: self.kept,
                size: self.pool_size,
            });
        }
        let Ok(()) = self.bytes.push(byte) else {
            unreachable!()
        };
        Ok(())
    }

    /// Keeps the open string behind the others, and answers its number.
    ///
    /// # Errors
    /// What [`StringPool::refusal`] answers. The string then stays open.
    pub fn close_string(&mut self) -> Result<StrNo, Full>
        requires { IsSome self.old.opened }
        ensures answer { MatchResult result (λ no. close_refusal self.old ≡ None) (λ full. close_refusal self.old ≡ Some full) }
        ensures number { IfOk result (λ no. no ≡ length self.old.kept) }
        ensures after { self.new ≡ (if is_ok result then closed self.old else self.old) }
    {
        if let Some(full) = self.refusal() {
            return Err(full);
        }
        let end = self.bytes.len() as u32;
        let no = self.ends.len() as u32;
        let Ok(()) = self.ends.push(end) else {
            unreachable!()
        };
        self.kept = end;
        self.is_open = false;
        Ok(no)
    }

    /// The refusal that [`StringPool::close_string`] would answer now: number of strings, exactly where as many
    /// strings are kept as the pool may hold.
    pub fn refusal(&self) -> Option<Full>
        requires { IsSome self.now.opened }
        ensures { result ≡ close_refusal self.now }
    {
        if (self.ends.len() as u32) < self.number_of_strings {
            None
        } else {
            Some(Full {
                table: Table::NumberOfStrings,
                used: self.ends.len() as u32,
                size: self.number_of_strings,
            })
        }
    }

    /// Drops the open string with its bytes.
    pub fn drop_open(&mut self)
        requires { IsSome self.old.opened }
        ensures { self.new ≡ dropped self.old }
    {
        self.bytes.truncate(self.kept as usize);
        self.is_open = false;
    }

    /// The bytes of a kept string.
    pub fn bytes(&self, no: StrNo) -> &[u8]
        requires { no < length self.now.kept }
        ensures { slice_get self.now.kept no ≡ Some result.now }
    {
        let start = start_of(&self.ends, no);
        let end = self.ends[no as usize];
        &self.bytes[start as usize..end as usize]
    }

    /// How many strings are kept.
    pub fn count(&self) -> u32
        ensures { result ≡ length self.now.kept }
    {
        self.ends.len() as u32
    }

    /// How many bytes the kept strings have.
    pub fn used(&self) -> u32
        ensures { result ≡ kept_bytes self.now }
    {
        self.kept
    }
}

/// Where a string begins: at the first byte, or where the string before it ends.
fn start_of(ends: &[u32], no: StrNo) -> u32
    requires { no < length ends.now }
    ensures { result ≡ start_of 0 ends.now no }
{
    if no == 0 { 0 } else { ends[no as usize - 1] }
}
