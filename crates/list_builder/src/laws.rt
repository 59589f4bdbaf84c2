// Laws of definitions and texts: the functions have no bodies, their contracts are the laws.
ghost use Rattle.list_builder.specs.Forms.{EndAtOnce, AreFormed, AreThemselves};
ghost use Rattle.list_builder.specs.Rows.{WorkedDefinitions, WorkedReports, WorkedTexts};

/// What completes a list is decided by the fewest tokens.
pub fn lists_end_at_once()
    ensures { EndAtOnce }
{}

/// A definition's list has one end mark, at most nine places in front of it, and behind it numbers of these places
/// alone; a text's list is balanced.
pub fn lists_are_formed()
    ensures { AreFormed }
{}

/// What is balanced between two braces, without parameter characters in a macro, is the list itself.
pub fn plain_lists_are_themselves()
    ensures { AreThemselves }
{}

/// Worked rows: what some definitions and texts come to.
pub fn worked_lists()
    ensures definitions { WorkedDefinitions }
    ensures reports { WorkedReports }
    ensures texts { WorkedTexts }
{}
