// What the engine comes to.
ghost use Rattle.std.specs.Prelude.{◌≡◌, MatchResult, true};
ghost use Rattle.engine_state.specs.Begins.{outcome_of_last};
ghost use Rattle.engine_state.specs.Steps.{stops_run};

use plain_machine::Broken;
use tex_defs::{Fatal, Seen};
use tex_syntax::Outcome;

/// Where the machine stops of itself.
#[derive(Clone, Copy, PartialEq, Eq)]
pub enum Last {
    /// At `\\end`.
    End,
    /// Where nothing is left to be read.
    NoEnd,
}

impl Last {
    /// How it stops there.
    pub fn outcome(self) -> Outcome
        ensures { result ≡ outcome_of_last self }
    {
        match self {
            Last::End => Outcome::Finished,
            Last::NoEnd => Outcome::AtFatal(Fatal::NoEnd),
        }
    }
}

/// What a rule did.
#[derive(Clone, Copy)]
pub enum Ruled {
    Step,
    Free,
    Halted(Outcome),
}

/// Whether the run has stopped, by what a rule came to.
#[inline(always)]
pub fn stops(ruled: &Result<Ruled, Broken>) -> bool
    ensures { MatchResult ruled.now (λ ruled. result ≡ stops_run ruled) (λ _. result ≡ true) }
{
    matches!(ruled, Ok(Ruled::Halted(_)) | Err(_))
}

/// What the next reading comes to.
#[derive(Clone, Copy)]
pub enum Next {
    /// This token is handed on: a step.
    Token(Seen),
    /// A line was taken from the file: a step.
    Line,
    /// An invalid character was skipped, or the file has ended: no step.
    Skipped,
    /// The run has ended.
    Over(Outcome),
}
