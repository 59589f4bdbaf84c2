// What a scanner asks for.
use tex_syntax::{Report, Want};
use token_lists::ListRef;

/// What is due where a scanner stands: a token, or a report.
#[derive(Clone, Copy, PartialEq, Eq)]
pub enum Due {
    /// One more token is needed.
    More(Want),
    /// A report; where this is true the last token is put back before it.
    Tells(Report, bool),
}

/// What a scanner answers.
#[must_use]
pub enum Ask {
    /// One more token is needed.
    More(Want),
    /// A report is due; where this is true the last token is put back before it. Once it is written the scanner goes on.
    Tells(Report, bool),
    /// The list is complete. A text without tokens has no list; a macro's list has its end mark at least.
    Done(Option<ListRef>),
}
