// Laws of the lines and of the lexer: the functions have no bodies, their contracts are the laws.
ghost use Rattle.plain_tokens.specs.LexLaws.{DoubleHats, HeadsAreRead, LexingConsumes, LinesGiveByHead, NamesAreLongestRuns, NamesAreRead};
ghost use Rattle.plain_tokens.specs.LookupLaws.{NamesAreNumbered};
ghost use Rattle.plain_tokens.specs.LineLaws.{LinesAreTheFile, LinesComeInTurn};

/// The lines of a file, each with the spaces behind it and its ending, are the whole file, and no other lines are.
pub fn lines_are_the_file()
    ensures { LinesAreTheFile }
{}

/// The first line of a file, and then the lines of what is behind it, are its lines.
pub fn lines_come_in_turn()
    ensures { LinesComeInTurn }
{}

/// The head of a line is its first character, or that of a shorter line where `^^` stands in front.
pub fn heads_are_read()
    ensures { HeadsAreRead }
{}

/// What a line gives goes by the category of its head.
pub fn lines_give_by_head()
    ensures { LinesGiveByHead }
{}

/// What `^^` and the codes behind it stand for: *The TeXbook*, chapter 8.
pub fn double_hats()
    ensures { DoubleHats }
{}

/// A name of letters is the longest run of letters.
pub fn names_are_longest_runs()
    ensures { NamesAreLongestRuns }
{}

/// A name written behind an escape character is read back as that name.
pub fn names_are_read()
    ensures { NamesAreRead }
{}

/// What the lexer leaves of a line is a shorter end of it, but for `^^` that was replaced.
pub fn lexing_consumes()
    ensures { LexingConsumes }
{}

/// A name's number is the place at which it was entered.
pub fn names_are_numbered()
    ensures { NamesAreNumbered }
{}
