//! The hash: the names of two or more characters, numbered in the order in which they were entered.
//!
//! *TeX: The Program*, part 18 (the hash table). The names' bytes are strings of a [`StringPool`], which is
//! handed to each call and may keep other strings too. All room is reserved at opening: no call after
//! [`CsHash::new`] takes memory.
#![tactic(auto)]

ghost use Rattle.std.specs.Prelude.{◌≡◌, ℕ, ◌+◌, ◌-◌, ◌*◌, ◌<◌, ◌≤◌, ◌++◌, List, length, [], ◌∷◌, None, Some, IfOk, is_ok, MatchResult, slice_get, slice_set, if◌then◌else◌};
ghost use Rattle.cs_hash.specs.Names.{Names, entered, name_number, Knows};
ghost use Rattle.cs_hash.specs.Index.{bucket_of, turn_of};
ghost use Rattle.cs_hash.specs.Entry.{Finds, Enters, hash_refusal, string_refusal, with_string};

use std::alloc::{AllocError, Global};
use std::marker::Model;
use string_pool::{StrNo, StringPool};
use tex_defs::{Full, Table};

/// The number of a name, from 1 in the order entered: that of `tex_defs::Name::Word`.
pub type NameNo = u16;

/// The names entered, and a table that finds them.
///
/// The names of a bucket form a tree, whose next branch is told by the next bit of the name: a look-up passes at
/// most nine other names for each byte of the name that is looked up, whatever names were entered.
#[derive(Drop)]
pub struct CsHash {
    /// Of each name the number of its string.
    strings: Vec<StrNo>,
    /// The buckets, and two slots for each number: the number of a name, or 0.
    index: Vec<u16>,
    size: u32,
}

// Clauses see, of each name in the order entered, the number of its string, and the size.
impl Model for CsHash {
    ghost use Rattle.std.specs.Prelude.{vec_capacity};
    ghost use Rattle.cs_hash.specs.Names.{Names};
    ghost use Rattle.cs_hash.specs.Index.{IsTable};

    ghost Value = { Names };

    ghost view = { λ h. record { strings = h.strings.items; hash_size = h.size; index = h.index.items } };

    ghost invariant = { λ h. IsTable h.strings.items h.index.items h.size (vec_capacity h.strings) };
}

/// What a search comes to.
#[derive(Clone, Copy)]
enum Search {
    Entered(NameNo),
    /// The slot in which the name's number would stand.
    Vacant(usize),
}

impl CsHash {
    /// A hash without names, with room for `hash_size` of them.
    ///
    /// # Errors
    /// Want of memory.
    pub fn new(alloc: Global, hash_size: u32) -> Result<CsHash, AllocError>
        requires positive { 0 < hash_size }
        requires small { hash_size < 65536 }
        ensures empty { IfOk result (λ hash. hash.strings ≡ []) }
        ensures size { IfOk result (λ hash. hash.hash_size ≡ hash_size) }
        ensures knows { IfOk result (λ hash. (kept : List (List ℕ)) → Knows hash kept) }
    {
        let strings = Vec::with_capacity(alloc, hash_size as usize)?;
        let index = vec![in alloc; 0; 3 * hash_size as usize + 2]?;
        Ok(CsHash {
            strings,
            index,
            size: hash_size,
        })
    }

    /// The number of a name, if it was entered.
    pub fn find(&self, pool: &StringPool, name: &[u8]) -> Option<NameNo>
        requires { Knows self.now pool.now.kept }
        ensures { result ≡ name_number (entered self.now pool.now.kept) name.now }
    {
        match self.search(pool, name) {
            Search::Entered(no) => Some(no),
            Search::Vacant(_) => None,
        }
    }

    /// The number of a name, which is entered if it isn't there.
    ///
    /// # Errors
    /// The first of pool size, number of strings and hash size that has no room for the new name. Nothing has
    /// changed then, in the pool neither.
    pub fn enter(&mut self, pool: &mut StringPool, name: &[u8]) -> Result<NameNo, Full>
        requires knows { Knows self.old pool.old.kept }
        requires closed { pool.old.opened ≡ None }
        ensures enters { Enters self.old self.new pool.old pool.new name.now result }
        ensures still_knows { Knows self.new pool.new.kept }
        ensures still_closed { pool.new.opened ≡ None }
    {
        let slot = match self.search(pool, name) {
            Search::Entered(no) => return Ok(no),
            Search::Vacant(slot) => slot,
        };
        let string = match keep(pool, name, self.refusal()) {
            Ok(string) => string,
            Err(full) => return Err(full),
        };
        Ok(self.add(slot, string))
    }

    /// The number of a name's string.
    pub fn name(&self, no: NameNo) -> StrNo
        requires first { 0 < no }
        requires last { no ≤ length self.now.strings }
        ensures { slice_get self.now.strings (no - 1) ≡ Some result }
    {
        self.strings[no as usize - 1]
    }

    /// How many names were entered.
    pub fn count(&self) -> u32
        ensures { result ≡ length self.now.strings }
    {
        self.strings.len() as u32
    }

    /// The number of the i-th name entered, from 1.
    pub fn in_order(&self, i: u32) -> NameNo
        requires first { 0 < i }
        requires last { i ≤ length self.now.strings }
        ensures { result ≡ i }
    {
        let _size = self.size;
        i as u16
    }

    /// The refusal of one more name.
    fn refusal(&self) -> Option<Full>
        ensures value { result ≡ hash_refusal self.now }
        ensures fits { length self.now.strings ≤ self.now.hash_size }
        ensures slots { length self.now.index ≡ 3 * self.now.hash_size + 2 }
    {
        if self.strings.len() < self.size as usize {
            None
        } else {
            Some(Full {
                table: Table::HashSize,
                used: self.strings.len() as u32,
                size: self.size,
            })
        }
    }

    /// Where a name stands, or would stand.
    fn search(&self, pool: &StringPool, name: &[u8]) -> Search
        requires { Knows self.now pool.now.kept }
        ensures { Finds self.now pool.now.kept name.now result }
    {
        let mut slot = bucket(name, self.size) as usize;
        let mut depth = 0;
        'walk: loop {
            let no = self.index[slot];
            if no == 0 {
                return Search::Vacant(slot);
            }
            if pool.bytes(self.strings[no as usize - 1]) == name {
                return Search::Entered(no);
            }
            slot = self.size as usize + 2 * no as usize + turn(name, depth);
            depth += 1;
        }
    }

    /// Gives the next number to a string, in a vacant slot.
    fn add(&mut self, slot: usize, string: StrNo) -> NameNo
        requires room { length self.old.strings < self.old.hash_size }
        requires within { slot < self.old.hash_size + 2 * length self.old.strings + 2 }
        ensures number { result ≡ length self.old.strings + 1 }
        ensures string { self.new.strings ≡ self.old.strings ++ string ∷ [] }
        ensures size { self.new.hash_size ≡ self.old.hash_size }
        ensures index { self.new.index ≡ slice_set self.old.index slot (length self.old.strings + 1) }
    {
        let Ok(()) = self.strings.push(string) else {
            unreachable!()
        };
        let no = self.strings.len() as u16;
        self.index[slot] = no;
        no
    }
}

/// A hash knows its names, in the same order, when the pool keeps more strings than before.
pub fn more_strings_law()
    ensures knows { (hash : Names) → (kept more : List (List ℕ)) → Knows hash kept → Knows hash (kept ++ more) }
    ensures names { (hash : Names) → (kept more : List (List ℕ)) → Knows hash kept → entered hash (kept ++ more) ≡ entered hash kept }
{}

/// Keeps a string in the pool, behind the others, and answers its number there. `hash_full` is the refusal of the
/// hash, if the string is a name that the hash has no room for.
///
/// # Errors
/// The first of pool size and number of strings that has no room for the string, else `hash_full`. The pool is
/// then as before.
pub fn keep(pool: &mut StringPool, name: &[u8], hash_full: Option<Full>) -> Result<StrNo, Full>
    requires { pool.old.opened ≡ None }
    ensures answer { MatchResult result (λ no. string_refusal pool.old name.now hash_full ≡ None) (λ full. string_refusal pool.old name.now hash_full ≡ Some full) }
    ensures number { IfOk result (λ no. no ≡ length pool.old.kept) }
    ensures after { pool.new ≡ (if is_ok result then with_string pool.old name.now else pool.old) }
{
    pool.begin_string();
    for byte in name {
        if let Err(full) = pool.append_byte(*byte) {
            pool.drop_open();
            return Err(full);
        }
    }
    let refusal = match pool.refusal() {
        Some(full) => Some(full),
        None => hash_full,
    };
    if let Some(full) = refusal {
        pool.drop_open();
        return Err(full);
    }
    let Ok(no) = pool.close_string() else {
        unreachable!()
    };
    Ok(no)
}

/// The bucket of a name, among `size` of them.
#[tactic(auto, unfolding(crate::specs::Index::bucket_of))]
fn bucket(name: &[u8], size: u32) -> u32
    requires { 0 < size }
    ensures value { result ≡ bucket_of name.now size }
    ensures within { result < size }
{
    let code: u64 = name.iter().fold(0, |code, byte| {
        (code % 4294967291) * 16777619 + u64::from(*byte)
    });
    (code % 4294967291 % u64::from(size)) as u32
}

/// The branch that a name takes after so many others: by the bits of its bytes, of each the lowest first, and
/// after the eighth by whether another byte follows.
#[tactic(auto, unfolding(crate::specs::Index::turn_of))]
fn turn(name: &[u8], depth: usize) -> usize
    ensures value { result ≡ turn_of name.now depth }
    ensures small { result ≤ 1 }
{
    let place = depth / 9;
    let bit = depth % 9;
    if place >= name.len() {
        0
    } else if bit == 8 {
        usize::from(place + 1 < name.len())
    } else {
        usize::from((name[place] >> bit) % 2)
    }
}
