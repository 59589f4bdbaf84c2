// Standard output: part of the trusted edge.
use crate::again::write_again;
use crate::counts::raise;
use crate::{Fault, Sink};
use std::io::{Print, writer};

/// Standard output, or another place where a runtime prints. Nothing is told of what it holds. A write that a signal interrupts
/// is made again.
#[derive(Drop)]
pub struct RealSink<'a, P> {
    rt: &'a P,
    faults: u64,
    wants: u64,
}

impl<'a, P: Print> RealSink<'a, P> {
    ghost use Rattle.std.specs.Prelude.{◌≡◌};
    ghost use Rattle.tex_defs.specs.Places.{Untold};

    /// What this runtime prints to.
    pub fn new(rt: &'a P) -> Self
        ensures { ⟦<RealSink<'a, P> as Sink>⟧.told result ≡ record { bytes = Untold; faults = 0; wants = 0 } }
    {
        RealSink {
            rt,
            faults: 0,
            wants: 0,
        }
    }
}

impl<P: Print> Sink for RealSink<'_, P> {
    ghost use Rattle.tex_defs.specs.Places.{Untold};

    ghost told = { λ s. record { bytes = Untold; faults = s.faults; wants = s.wants } };

    /// `Failed` also where the system takes nothing of a piece that isn't empty.
    fn write(&mut self, piece: &[u8]) -> Result<usize, Fault> {
        match write_again(&mut writer(self.rt), piece) {
            Ok(n) => Ok(n),
            Err(fault) => Err(raise(fault, &mut self.faults, &mut self.wants)),
        }
    }
}
