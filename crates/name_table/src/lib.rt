//! The strings that a run keeps: the names entered, the primitives first, and the other strings.
//!
//! *TeX: The Program*, part 4 (string handling) and part 18 (the hash table). All room is reserved at opening: no
//! call after [`NameTable::new`] takes memory.
#![tactic(auto)]

ghost use Rattle.std.specs.Prelude.{◌≡◌, ◌+◌, length, [], None, Some, IfOk, is_ok, MatchResult, if◌then◌else◌};
ghost use Rattle.tex_defs.specs.Sizes.{first_out_of_range};
ghost use Rattle.prim_table.specs.Primitives.{primitive_names};
ghost use Rattle.plain_tokens.specs.Lookup.{name_number};
ghost use Rattle.cs_hash.specs.Names.{Knows, entered};
ghost use Rattle.name_table.specs.Strings.{name_refusal, other_refusal, primitives_alone, with_name, with_other, head_string};

use cs_hash::{CsHash, NameNo};
use prim_table::COUNT;
use std::alloc::{AllocError, Global};
use std::marker::Model;
use string_pool::{StrNo, StringPool};
use tex_defs::{Full, Sizes};

/// The names entered, each with its number, and the other kept strings.
#[derive(Drop)]
pub struct NameTable {
    /// The bytes of all strings.
    pool: StringPool,
    /// Which strings are names.
    hash: CsHash,
    /// The numbers of the strings that aren't names.
    others: Vec<StrNo>,
    sizes: Sizes,
}

// Clauses see the names and the other strings, each in order, and the sizes.
impl Model for NameTable {
    ghost use Rattle.std.specs.Prelude.{vec_capacity};
    ghost use Rattle.name_table.specs.Strings.{Strings};
    ghost use Rattle.name_table.specs.Layout.{strings_of, IsSound};

    ghost Value = { Strings };

    ghost view = { λ t. strings_of t.hash t.pool t.others.items t.sizes };

    ghost invariant = { λ t. IsSound t.hash t.pool t.others.items t.sizes (vec_capacity t.others) };
}

impl NameTable {
    /// The primitives, each under its number, and no other string: INITEX's first state.
    ///
    /// # Errors
    /// Want of memory.
    pub fn new(alloc: Global, sizes: &Sizes) -> Result<NameTable, AllocError>
        requires { first_out_of_range sizes.now ≡ None }
        ensures { IfOk result (λ table. table ≡ primitives_alone sizes.now) }
    {
        let mut table = NameTable::empty(alloc, sizes)?;
        table.enter_primitives();
        Ok(table)
    }

    /// A table without strings.
    fn empty(alloc: Global, sizes: &Sizes) -> Result<NameTable, AllocError>
        requires { first_out_of_range sizes.now ≡ None }
        ensures { IfOk result (λ table. table ≡ record { names = []; others = []; sizes = sizes.now }) }
    {
        let pool = StringPool::new(alloc, sizes.pool_size, sizes.number_of_strings)?;
        let hash = CsHash::new(alloc, sizes.hash_size)?;
        let others = Vec::with_capacity(alloc, sizes.number_of_strings as usize)?;
        Ok(NameTable {
            pool,
            hash,
            others,
            sizes: *sizes,
        })
    }

    /// Enters the primitives in the order of their numbers.
    fn enter_primitives(&mut self)
        requires sizes { first_out_of_range self.old.sizes ≡ None }
        requires names { self.old.names ≡ [] }
        requires others { self.old.others ≡ [] }
        ensures { self.new ≡ primitives_alone self.old.sizes }
    {
        for k in 0..COUNT {
            let Ok(_) = self.enter(prim_table::name(k + 1)) else {
                unreachable!()
            };
        }
    }

    /// The number of a name, if it was entered.
    pub fn find(&self, name: &[u8]) -> Option<NameNo>
        ensures { result ≡ name_number self.now.names name.now }
    {
        self.hash.find(&self.pool, name)
    }

    /// Enters a name that isn't there, under the next number.
    ///
    /// # Errors
    /// The first of pool size, number of strings and hash size that has no room for it. Nothing has changed then.
    pub fn enter(&mut self, name: &[u8]) -> Result<NameNo, Full>
        requires { name_number self.old.names name.now ≡ None }
        ensures answer { MatchResult result (λ no. name_refusal self.old name.now ≡ None) (λ full. name_refusal self.old name.now ≡ Some full) }
        ensures number { IfOk result (λ no. no ≡ length self.old.names + 1) }
        ensures after { self.new ≡ (if is_ok result then with_name self.old name.now else self.old) }
    {
        self.hash.enter(&mut self.pool, name)
    }

    /// Keeps a string that isn't a name.
    ///
    /// # Errors
    /// The first of pool size and number of strings that has no room for it. Nothing has changed then.
    pub fn keep(&mut self, bytes: &[u8]) -> Result<(), Full>
        ensures answer { MatchResult result (λ _. other_refusal self.old bytes.now ≡ None) (λ full. other_refusal self.old bytes.now ≡ Some full) }
        ensures after { self.new ≡ (if is_ok result then with_other self.old bytes.now else self.old) }
    {
        let no = match cs_hash::keep(&mut self.pool, bytes, None) {
            Ok(no) => no,
            Err(full) => return Err(full),
        };
        let Ok(()) = self.others.push(no) else {
            unreachable!()
        };
        Ok(())
    }

    /// How many names were entered.
    pub fn count(&self) -> u32
        ensures { result ≡ length self.now.names }
    {
        self.hash.count()
    }

    /// The first of the strings that aren't names, or no bytes where none is kept.
    pub fn first_string(&self) -> &[u8]
        ensures { result.now ≡ head_string self.now.others }
    {
        match self.others.first() {
            Some(number) => self.pool.bytes(*number),
            None => b"",
        }
    }

    /// The hash and the pool of its names' bytes.
    pub fn parts(&self) -> (&CsHash, &StringPool)
        ensures knows { Knows result.0.now result.1.now.kept }
        ensures names { entered result.0.now result.1.now.kept ≡ self.now.names }
    {
        (&self.hash, &self.pool)
    }
}
