//! The tables that printed texts depend on, for the tests of texts.

ghost use Rattle.std.specs.Prelude.{IfOk};
ghost use Rattle.cs_hash.specs.Names.{Knows};

use cs_hash::CsHash;
use std::alloc::{AllocError, Global};
use string_pool::StringPool;
use token_lists::Lists;

#[derive(Drop)]
pub struct Tables {
    pub lists: Lists,
    pub hash: CsHash,
    pub pool: StringPool,
}

impl Tables {
    /// Room for 300 words, and one name, which gets the number 1: a text that shows it fails where it isn't there.
    pub fn new(alloc: Global, name: &[u8]) -> Result<Tables, AllocError>
        ensures { IfOk result (λ t. Knows t.hash t.pool.kept) }
    {
        let lists = Lists::new(alloc, 300)?;
        let mut hash = CsHash::new(alloc, 10)?;
        let mut pool = StringPool::new(alloc, 100, 10)?;
        let _number = hash.enter(&mut pool, name);
        Ok(Tables { lists, hash, pool })
    }
}
