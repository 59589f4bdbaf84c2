// A token is put back behind a `\relax`.
ghost use Rattle.std.specs.Prelude.{◌≡◌, ◌++◌, OnOk, IfErr, None};
ghost use Rattle.plain_machine.specs.Plan.{put_one, frozen_relax};
ghost use Rattle.engine_state.specs.Clauses.{GoesFree, CutsFree};
ghost use Rattle.engine_state.specs.Stands.{SameFrames};
ghost use Rattle.plain_machine.specs.Weights.{pending_weight};

use engine_state::{Broken, Engine};
use tex_defs::{Frozen, Name, Token};

/// A `\relax` that no assignment changes.
const FROZEN_RELAX: Token = Token::Named(Name::Frozen(Frozen::Relax));

/// A token is put back, and in front of it a `\relax` that no assignment changes. *TeX: The Program*, part 25 (`insert_relax`).
///
/// # Errors
/// There is no room for what is put back: the engine stands for the moment before.
pub(crate) fn put_behind_relax(engine: &mut Engine, token: Token) -> Result<(), Broken>
    requires idle { engine.old.input.making ≡ None }
    ensures rule { OnOk result (GoesFree engine.old engine.new (λ _. put_one token ++ put_one frozen_relax)) }
    ensures err { IfErr result (λ b. CutsFree engine.old engine.new (λ _. put_one token ++ put_one frozen_relax) b) }
    ensures frames { SameFrames engine.old engine.new }
    ensures pending { pending_weight engine.new.input.pending ≡ pending_weight engine.old.input.pending }
    ensures column { engine.new.in_line ≡ engine.old.in_line }
    ensures idle { OnOk result (engine.new.input.making ≡ None) }
{
    engine.put_one(token)?;
    engine.put_one(FROZEN_RELAX)
}
