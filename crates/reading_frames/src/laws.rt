// How frames stand for readings: the functions have no bodies, their contracts are the laws.
ghost use Rattle.reading_frames.specs.Frames.{ReadingsBegin, ReadingsAreFed, ReadingsEnd, ListsAreHeld};
ghost use Rattle.reading_frames.specs.Stack.{GroupsHaveBraces, TokensEnter};
ghost use Rattle.reading_frames.specs.Weights.{RulesAreLight, WeightsAreSmall};

/// A reading that begins stands above those that are open, and these stand as they did.
pub fn readings_begin()
    ensures { ReadingsBegin }
{}

/// A frame that goes on stands for its reading, fed with the same; those beneath stand as they did.
pub fn readings_are_fed()
    ensures { ReadingsAreFed }
{}

/// A token of a list enters an expanded text as it stands: its frame stays as it is.
pub fn tokens_enter()
    ensures { TokensEnter }
{}

/// Where the innermost reading ends, and its lists are let go, those beneath stand as they did.
pub fn readings_end()
    ensures { ReadingsEnd }
{}

/// The lists of the machine's innermost reading are held first, and behind them those of the frames beneath.
pub fn lists_are_held()
    ensures { ListsAreHeld }
{}

/// A stack that is fed has few groups open where its lists are short.
pub fn groups_have_braces()
    ensures { GroupsHaveBraces }
{}

/// Whatever is open weighs less than a reading that acts or ends.
pub fn weights_are_small()
    ensures { WeightsAreSmall }
{}

/// By what the calls say, each rule without a step makes a stack lighter.
pub fn rules_are_light()
    ensures { RulesAreLight }
{}
