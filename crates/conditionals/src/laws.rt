// Laws of conditionals: the functions have no bodies, their contracts are the laws.
ghost use Rattle.conditionals.specs.Laws.{TextsEndOnce, TextsAreCounted, ConditionalsArePassed, MeaningsAreCompared};
ghost use Rattle.conditionals.specs.Worked.{WorkedConditionals};

/// Skipped text is one, and nothing that follows changes it.
pub fn texts_end_once()
    ensures { TextsEndOnce }
{}

/// Skipped text ends where the count of the conditionals that are open in it says so.
pub fn texts_are_counted()
    ensures { TextsAreCounted }
{}

/// No ender of a conditional within skipped text ends the text, where the conditional has its `\fi`.
pub fn conditionals_are_passed()
    ensures { ConditionalsArePassed }
{}

/// Meanings are alike to `\ifx` where they are equal, and those of macros where their lists are the same too.
pub fn meanings_are_compared()
    ensures { MeaningsAreCompared }
{}

/// Conditionals worked out by the definitions, with what TeX does.
pub fn worked_conditionals()
    ensures { WorkedConditionals }
{}
