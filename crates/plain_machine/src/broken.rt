// Why a rule is cut off.
use tex_defs::Full;
use world_io::Fault;

/// Why a rule is cut off.
#[derive(Clone, Copy, Debug, PartialEq, Eq)]
pub enum Broken {
    /// A write failed.
    WriteFault,
    /// A write wanted memory.
    Want,
    /// A table has no room.
    Full(Full),
}

impl From<Fault> for Broken {
    ghost use Rattle.std.specs.Prelude.{◌≡◌};
    ghost use Rattle.plain_machine.specs.Faults.{broken_by};

    ghost from_gives = { λ f e. e ≡ broken_by f };

    fn from(fault: Fault) -> Self {
        match fault {
            Fault::Failed => Broken::WriteFault,
            Fault::NoMemory => Broken::Want,
        }
    }
}

impl From<Full> for Broken {
    ghost use Rattle.std.specs.Prelude.{◌≡◌};
    ghost use Rattle.plain_machine.specs.declared.broken.Broken.TheVariants as broken;

    ghost from_gives = { λ full e. e ≡ broken.Full full };

    fn from(full: Full) -> Self {
        Broken::Full(full)
    }
}
