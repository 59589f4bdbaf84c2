// Laws of the readings: the functions have no bodies, their contracts are the laws.
ghost use Rattle.plain_readings.specs.Laws.{ReadingsStart, ReadingsBeginLower, TokensAreLent, TokensAreGivenBack, ValuesAreTheirs, NamesAreHeld, TokensEnter, SkippedTexts, NotesFall};
ghost use Rattle.plain_readings.specs.Weights.{WeightsFall};
ghost use Rattle.plain_readings.specs.Worked.{WorkedReadings};

/// A reading that was fed with nothing asks for a token or begins one of a lower rank.
pub fn readings_start()
    ensures { ReadingsStart }
{}

/// Whatever it was fed with, a reading begins one of a lower rank; but an integer may begin another integer.
pub fn readings_begin_lower()
    ensures { ReadingsBeginLower }
{}

/// A reading begins another with the token that it looked at only directly behind that token.
pub fn tokens_are_lent()
    ensures { TokensAreLent }
{}

/// A reading that was fed with nothing behind its end, and behind a report with its note, gives the last token back only directly behind a token.
pub fn tokens_are_given_back()
    ensures { TokensAreGivenBack }
{}

/// What a reading ends with is a value of its kind, with the list that it holds; that of a macro has a token.
pub fn values_are_theirs()
    ensures { ValuesAreTheirs }
{}

/// `\csname` makes a name of the characters that it holds, and `\input` opens the file of those that it holds.
pub fn names_are_held()
    ensures { NamesAreHeld }
{}

/// A token that enters an expanded text as it stands goes onto its list, and another is asked for.
pub fn tokens_enter()
    ensures { TokensEnter }
{}

/// Text that a conditional skips ends with the token with which TeX's rule ends it, where it has fewer than 2^64 - 1 tokens.
pub fn skipped_texts()
    ensures { SkippedTexts }
{}

/// Behind a report so many may follow at once as its measure says, and none but in a dimension or in glue.
pub fn notes_fall()
    ensures { NotesFall }
{}

/// Each rule that is no step makes the weight of the open readings smaller, whatever they were fed with.
pub fn weights_fall()
    ensures { WeightsFall }
{}

/// What the readings ask for and hold, item by item, is computed from the definitions.
pub fn worked_readings()
    ensures { WorkedReadings }
{}
