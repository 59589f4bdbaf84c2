ghost use Rattle.equivalents.specs.Laws.{OtherKindsStay, GroupsTakeBack, EngineIsMachine, StaysWhole, NamesMean, Worked, FirstValues};

/// An assignment changes no other location, and who reads category codes or meanings sees nothing of some to other kinds.
pub fn other_kinds_stay()
    ensures { OtherKindsStay }
{}

/// A group's end gives back what was assigned locally in it, and keeps what was assigned globally.
pub fn groups_take_back()
    ensures { GroupsTakeBack }
{}

/// One list of all values, with the saved ones, does what the machine's groups do.
pub fn engine_is_machine()
    ensures { EngineIsMachine }
{}

/// Each location then has a value of its kind, at each level.
pub fn stays_whole()
    ensures { StaysWhole }
{}

/// An assignment to a name changes what this name means, and where it is global, also outside; each other name means what it did.
pub fn names_mean()
    ensures { NamesMean }
{}

/// Short rows over all locations, computed by the checker.
pub fn worked()
    ensures { Worked }
{}

/// INITEX's values at the names of parameters and at characters.
pub fn first_values()
    ensures { FirstValues }
{}
