//! What holds of the locations' names. The function does nothing; its contract is the law.
ghost use Rattle.meanings.specs.Laws.{FrozenNames};

/// The frozen names that are primitives have those primitives' names.
pub fn frozen_names()
    ensures { FrozenNames }
{}
