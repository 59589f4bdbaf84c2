// The counts of faults and of wants of memory.
ghost use Rattle.std.specs.Prelude.{◌≡◌, ◌≤◌};
ghost use Rattle.tex_defs.specs.Places.{Rose};
ghost use Rattle.world_io.specs.Calls.{one_more_than};

use crate::Fault;
use std::io::{Error, ErrorKind};

/// One more, but for a count at its last value, which stands still.
pub(crate) fn one_more(count: u64) -> u64
    ensures value { result ≡ one_more_than count }
    ensures rose { Rose count result }
    ensures later { count ≤ result }
{
    count.saturating_add(1)
}

/// Counts the fault, and answers it.
pub(crate) fn raise(fault: Fault, faults: &mut u64, wants: &mut u64) -> Fault
    ensures same { result ≡ fault }
    ensures failed { fault ≡ Fault.Failed → Rose faults.old faults.new }
    ensures wanted { fault ≡ Fault.NoMemory → Rose wants.old wants.new }
    ensures no_want { fault ≡ Fault.Failed → wants.new ≡ wants.old }
    ensures no_fault { fault ≡ Fault.NoMemory → faults.new ≡ faults.old }
    ensures later { faults.old ≤ faults.new }
    ensures later_wants { wants.old ≤ wants.new }
{
    match fault {
        Fault::Failed => *faults = one_more(*faults),
        Fault::NoMemory => *wants = one_more(*wants),
    }
    fault
}

/// Which fault an error of the system is.
pub(crate) fn fault_of(error: &Error) -> Fault {
    if error.kind() == ErrorKind::OutOfMemory {
        Fault::NoMemory
    } else {
        Fault::Failed
    }
}
