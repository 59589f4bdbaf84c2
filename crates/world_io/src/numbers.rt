// The numbers of open readers and writers.
ghost use Rattle.std.specs.Prelude.{◌≡◌, ℕ, Some, None, nat_eq, if◌then◌else◌, IfOk, OnErr};
ghost use Rattle.slab.specs.Slab.{get};

use slab::Slab;
use std::alloc::AllocError;

#[tactic(auto, using(crate::proofs::Places::updates_at))]
/// Gives the value the number of a free place.
pub(crate) fn place<T: Drop>(slab: &mut Slab<T>, value: T) -> Result<u32, AllocError>
    ensures vacant { IfOk result (λ n. get slab.old n ≡ None) }
    ensures placed { IfOk result (λ n. (i : ℕ) → get slab.new i ≡ (if nat_eq i n then Some value else get slab.old i)) }
    ensures err { OnErr result (slab.new.slots ≡ slab.old.slots) }
{
    let Ok(number) = u32::try_from(slab.vacant_key()) else {
        return Err(AllocError);
    };
    slab.insert(value)?;
    Ok(number)
}
