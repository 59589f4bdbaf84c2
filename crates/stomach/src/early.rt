// Why a run stops early.
use engine_state::Broken;
use world_io::Fault;

/// Why a run stops early.
#[derive(Clone, Copy, Debug, PartialEq, Eq)]
pub enum Early {
    /// A rule was cut off: a table has no room for the machine's next move, or a write failed or wanted memory.
    Broken(Broken),
    /// The next bytes of a file were needed, or a file was to be opened, and that failed or wanted memory.
    Unread(Fault),
}

impl From<Broken> for Early {
    ghost use Rattle.std.specs.Prelude.{◌≡◌};
    ghost use Rattle.stomach.specs.declared.early.Early.TheVariants as early;

    ghost from_gives = { λ broken e. e ≡ early.Broken broken };

    fn from(broken: Broken) -> Self {
        Early::Broken(broken)
    }
}

impl From<Fault> for Early {
    ghost use Rattle.std.specs.Prelude.{◌≡◌};
    ghost use Rattle.stomach.specs.declared.early.Early.TheVariants as early;

    ghost from_gives = { λ fault e. e ≡ early.Unread fault };

    fn from(fault: Fault) -> Self {
        Early::Unread(fault)
    }
}
