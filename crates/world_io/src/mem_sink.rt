// A sink in memory.
use crate::calls::Calls;
use crate::counts::raise;
use crate::text::Text;
use crate::{Fault, Sink};
use std::alloc::{AllocError, Global};

/// A sink that keeps what is written to it. Its writes are numbered from 1, and those whose numbers it was given fail.
#[derive(Drop)]
pub struct MemSink {
    bytes: Text,
    calls: Calls,
    faults: u64,
    wants: u64,
}

impl MemSink {
    ghost use Rattle.std.specs.Prelude.{◌≡◌, ◌++◌, ◌∷◌, [], OnOk, OnErr};
    ghost use Rattle.tex_defs.specs.Places.{Holds};
    ghost use Rattle.world_io.specs.Memory.{sink_told, sink_plan};

    /// Nothing is written, and no write is to fail.
    pub fn new(alloc: Global) -> Self
        ensures told { sink_told result ≡ record { bytes = Holds []; faults = 0; wants = 0 } }
        ensures plan { sink_plan result ≡ record { made = 0; failing = [] } }
    {
        MemSink {
            bytes: Text::empty(alloc),
            calls: Calls::new(alloc),
            faults: 0,
            wants: 0,
        }
    }

    /// Lets the write of this number fail.
    ///
    /// # Errors
    /// There is no memory for the number; nothing has changed.
    pub fn fail_at(&mut self, call: u64) -> Result<(), AllocError>
        ensures told { sink_told self.new ≡ sink_told self.old }
        ensures ok { OnOk result (sink_plan self.new ≡ record (sink_plan self.old) { failing = (sink_plan self.old).failing ++ call ∷ [] }) }
        ensures err { OnErr result (sink_plan self.new ≡ sink_plan self.old) }
    {
        self.calls.fail_at(call)
    }

    /// What was written.
    pub fn bytes(&self) -> &[u8]
        ensures { (sink_told self.now).bytes ≡ Holds result.now }
    {
        self.bytes.as_slice()
    }

    /// How many writes there were.
    pub fn calls(&self) -> u64
        ensures { result ≡ (sink_plan self.now).made }
    {
        self.calls.made()
    }
}

impl Sink for MemSink {
    ghost use Rattle.std.specs.Prelude.{◌≡◌, ◌<◌, ◌≤◌, ◌↔◌, length, take, IfOk, OnOk, OnErr, IsErrOf, IsTrue};
    ghost use Rattle.tex_defs.specs.Places.{grown};
    ghost use Rattle.world_io.specs.Calls.{counted, fails_next};
    ghost use Rattle.world_io.specs.Contents.{HasCause};
    ghost use Rattle.world_io.specs.Memory.{sink_told, sink_plan};

    ghost told = { sink_told };

    fn write(&mut self, piece: &[u8]) -> Result<usize, Fault>
        ensures count { IfOk result (λ n. n ≤ length piece.now) }
        ensures some { IfOk result (λ n. 0 < length piece.now → 0 < n) }
        ensures written { IfOk result (λ n. (sink_told self.new).bytes ≡ grown (sink_told self.old).bytes (take n piece.now)) }
        ensures err { OnErr result ((sink_told self.new).bytes ≡ (sink_told self.old).bytes) }
        ensures cause { HasCause (sink_told self.old).faults (sink_told self.new).faults (sink_told self.old).wants (sink_told self.new).wants result }
        ensures calm { OnOk result (((sink_told self.new).faults ≡ (sink_told self.old).faults) × ((sink_told self.new).wants ≡ (sink_told self.old).wants)) }
        ensures fails { IsErrOf result Fault.Failed ↔ IsTrue (fails_next (sink_plan self.old)) }
        ensures plan { sink_plan self.new ≡ counted (sink_plan self.old) }
    {
        if self.calls.begin() {
            return Err(raise(Fault::Failed, &mut self.faults, &mut self.wants));
        }
        if self.bytes.append(piece).is_err() {
            return Err(raise(Fault::NoMemory, &mut self.faults, &mut self.wants));
        }
        Ok(piece.len())
    }
}
