// Laws of macro arguments: the functions have no bodies, their contracts are the laws.
ghost use Rattle.macro_call.specs.ArgumentLaws.{CallsEndAtOnce, ArgumentsAreShortest, DelimitedListsAreBalanced, OneGroupLosesBraces, MatchesRestart};
ghost use Rattle.macro_call.specs.PlainScans.{ChecksShowAtPars, ScansGather};
ghost use Rattle.macro_call.specs.Rows.{WorkedCalls, WorkedGrowths};
ghost use Rattle.macro_call.specs.Scans.{ScannersHaveLists};

/// What ends a call is decided by the fewest tokens.
pub fn calls_end_at_once()
    ensures { CallsEndAtOnce }
{}

/// Before a delimiter a `\long` macro takes the shortest balanced list.
pub fn arguments_are_shortest()
    ensures { ArgumentsAreShortest }
{}

/// A list is delimited exactly where it is a balanced list and then the delimiter.
pub fn delimited_lists_are_balanced()
    ensures { DelimitedListsAreBalanced }
{}

/// A list that is exactly one group loses its braces, and no other list does.
pub fn one_group_loses_braces()
    ensures { OneGroupLosesBraces }
{}

/// The partial match is the longest that may go on, so a match that fails begins again at the next token.
pub fn matches_restart()
    ensures { MatchesRestart }
{}

/// Worked rows: what some calls come to.
pub fn worked_calls()
    ensures { WorkedCalls }
{}

/// Worked rows: what goes into the list in work by some tokens.
pub fn worked_growths()
    ensures { WorkedGrowths }
{}

/// Scanners as plain data answer what the definition asks for, from the first token on and behind checks.
pub fn scans_gather()
    ensures { ScansGather }
{}

/// A check shows only at a `\par`: what the call has so far stays, and any other token comes to the same behind it.
pub fn checks_show_at_pars()
    ensures { ChecksShowAtPars }
{}

/// A scanner that goes on has the arguments and the list in work that the definition answers so far.
pub fn scanners_have_lists()
    ensures { ScannersHaveLists }
{}
