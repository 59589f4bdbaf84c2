// Walks along macros' lists.
ghost use Rattle.input_state.specs.Walks.{WalksStay};

use tex_defs::Name;

/// A walk along the list of the macro that a name means: a place in it. It may be kept while other lists change.
#[derive(Clone, Copy)]
pub struct Walk {
    pub name: Name,
    /// How many tokens stand in front.
    pub index: usize,
}

/// Each walk has the same tokens to come, where no name gets another meaning and each macro keeps its list, as where other
/// lists are begun, grow, are put or go. The call does nothing.
pub fn walks_stay()
    ensures { WalksStay }
{}
