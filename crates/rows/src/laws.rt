// Laws of the readings: the functions have no bodies, their contracts are the laws.
ghost use Rattle.rows.specs.Worked.{WorkedRows};
ghost use Rattle.rows.specs.Laws.{ReadingsStart, ReadingsBeginLower, NotesAreSingle, MacrosHaveBodies, EffectsSuit};

/// A command that was fed with nothing asks for a token or begins another reading.
pub fn readings_start()
    ensures { ReadingsStart }
{}

/// A command begins only readings of a lower rank.
pub fn readings_begin_lower()
    ensures { ReadingsBeginLower }
{}

/// Behind a report none comes before something else was read.
pub fn notes_are_single()
    ensures { NotesAreSingle }
{}

/// What becomes a macro has a token, where each value of a definition's reading has one.
pub fn macros_have_bodies()
    ensures { MacrosHaveBodies }
{}

/// What a command sets suits its location, and what it uses is there.
pub fn effects_suit()
    ensures { EffectsSuit }
{}

/// What each command asks for, token by token, is computed from the definitions.
pub fn worked_rows()
    ensures { WorkedRows }
{}
