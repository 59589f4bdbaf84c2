ghost use Rattle.std.specs.Prelude.{◌≡◌, ◌<◌, None};
ghost use Rattle.std.specs.Borrow.{MutBor};
ghost use Rattle.cs_hash.specs.Names.{Knows};

use cs_hash::{CsHash, NameNo};
use prim_table::COUNT;
use std::alloc::Global;
use string_pool::StringPool;
use tex_defs::{Full, Table};

/// Whether a name that is entered is answered so.
fn answers(
    hash: &mut CsHash,
    pool: &mut StringPool,
    name: &[u8],
    wanted: Result<NameNo, Full>,
) -> bool
    requires knows { Knows hash.old pool.old.kept }
    requires closed { pool.old.opened ≡ None }
    ensures knows { Knows hash.new pool.new.kept }
    ensures closed { pool.new.opened ≡ None }
{
    hash.enter(pool, name) == wanted
}

/// Whether the name numbered `k`, of three bytes, is entered behind the others, and the last is refused.
fn is_entered(hash: &mut CsHash, pool: &mut StringPool, k: u16) -> bool
    requires knows { Knows hash.old pool.old.kept }
    requires closed { pool.old.opened ≡ None }
    ensures knows { Knows hash.new pool.new.kept }
    ensures closed { pool.new.opened ≡ None }
{
    let name = [(k / 676) as u8, (k / 26 % 26) as u8, (k % 26) as u8];
    let wanted = if k < 1777 {
        Ok(k + 1)
    } else {
        Err(full(Table::HashSize, 1777, 1777))
    };
    answers(hash, pool, &name, wanted)
}

/// Whether names are entered until none has room, and stay.
fn is_filled(hash: &mut CsHash, pool: &mut StringPool) -> bool
    requires knows { Knows hash.old pool.old.kept }
    requires closed { pool.old.opened ≡ None }
    ensures knows { Knows hash.new pool.new.kept }
    ensures closed { pool.new.opened ≡ None }
{
    for k in 0u16..1778 {
        if !is_entered(hash, pool, k) {
            return false;
        }
    }
    answers(hash, pool, &[0, 0, 7], Ok(8))
        && hash.find(pool, &[2, 16, 8]) == Some(1777)
        && hash.find(pool, &[2, 16, 9]).is_none()
        && pool.used() == 5331
}

/// Whether a check holds of a hash with room for so many names, and of a pool of these sizes.
fn holds<F: FnOnce(&mut CsHash, &mut StringPool) -> bool>(
    alloc: Global,
    bytes: u32,
    strings: u32,
    names: u32,
    check: F,
) -> bool
    requires positive { 0 < names }
    requires small { names < 65536 }
    requires callable { (hash : MutBor _) (pool : MutBor _) → Knows hash.now pool.now.kept → pool.now.opened ≡ None → F.pre check hash pool }
{
    let Ok(mut pool) = StringPool::new(alloc, bytes, strings) else {
        return false;
    };
    let Ok(mut hash) = CsHash::new(alloc, names) else {
        return false;
    };
    check(&mut hash, &mut pool)
}

#[test]
fn fills_to_its_size(rt: HostRuntime) {
    assert!(rt; holds(rt.alloc(), 32000, 3000, 1777, is_filled));
}

/// Whether names are entered and refused in turn.
fn are_refused(hash: &mut CsHash, pool: &mut StringPool) -> bool
    requires knows { Knows hash.old pool.old.kept }
    requires closed { pool.old.opened ≡ None }
{
    let rows: [(&[u8], Result<NameNo, Full>); 4] = [
        (b"abc", Ok(1)),
        (b"xyz", Err(full(Table::PoolSize, 3, 5))),
        (b"xy", Err(full(Table::NumberOfStrings, 1, 1))),
        (b"abc", Ok(1)),
    ];
    for (name, wanted) in rows {
        if !answers(hash, pool, name, wanted) {
            return false;
        }
    }
    true
}

#[test]
fn refuses_in_order(rt: HostRuntime) {
    assert!(rt; holds(rt.alloc(), 5, 1, 1, are_refused));
}

fn full(table: Table, used: u32, size: u32) -> Full {
    Full { table, used, size }
}

/// Whether the names of the primitives get their numbers in turn.
fn are_numbered(hash: &mut CsHash, pool: &mut StringPool) -> bool
    requires knows { Knows hash.old pool.old.kept }
    requires closed { pool.old.opened ≡ None }
    ensures knows { Knows hash.new pool.new.kept }
{
    for j in 1..COUNT + 1 {
        if !answers(hash, pool, prim_table::name(j), Ok(j)) {
            return false;
        }
    }
    true
}

/// Whether the names of the primitives are found.
fn are_found(hash: &CsHash, pool: &StringPool) -> bool
    requires { Knows hash.now pool.now.kept }
{
    for j in 1..COUNT + 1 {
        if hash.find(pool, prim_table::name(j)) != Some(j) {
            return false;
        }
    }
    true
}

/// Whether the primitives are the names that were entered, by their numbers.
fn are_primitives(hash: &mut CsHash, pool: &mut StringPool) -> bool
    requires knows { Knows hash.old pool.old.kept }
    requires closed { pool.old.opened ≡ None }
{
    are_numbered(hash, pool)
        && are_found(hash, pool)
        && hash.count() == 186
        && hash.name(hash.in_order(186)) == 185
}

#[test]
fn numbers_the_primitives(rt: HostRuntime) {
    assert!(rt; holds(rt.alloc(), 4000, 200, 1777, are_primitives));
}
